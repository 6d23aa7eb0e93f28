//! The translation as a visitor of the packets of a capture.

ghost use Rattle.std.specs.Prelude.{◌≡◌};
ghost use Rattle.translator.specs.Translation.{block_error, of_blocks, of_records, record_error};

use crate::capture_error::CaptureError;
use crate::counts::Counts;
use crate::done::Done;
use crate::packet::translate_captured_frame;
use crate::reason::Reason;
use crate::table::Table;
use capture_copy::{Extent, PartError, Visitor};
use capture_file::PacketTime;
use capture_file::pcapng::BlockError;
use capture_file::reader::{CapturedPacket, PacketError, PlacedPacketError};

/// Translates the packets of a capture by this table.
#[derive(Drop)]
pub(crate) struct Translation<'a> {
    /// The table.
    pub table: &'a Table,
}

impl<'a> Visitor for Translation<'a> {
    type Outcome = Result<Done, Reason>;

    type Counts = Counts;

    ghost use Rattle.std.specs.Prelude.{false};
    ghost use Rattle.translator.specs.Translation.{translation_of};

    ghost visits = { λ translation. translation_of translation.table.now };

    ghost is_enough = { λ translation counts. false };

    ghost holds = { λ translation counts. Unit {0} };

    fn visit(&self, packet: &CapturedPacket, frame: &mut [u8]) -> Result<Done, Reason> {
        translate_captured_frame(packet.link_type, packet.byte_order, frame, self.table)
    }

    fn visit_long(&self, _required_len: u32, _time: Option<PacketTime>) -> Result<Done, Reason> {
        Err(Reason::TooLong)
    }

    fn is_written(&self, _outcome: Result<Done, Reason>) -> bool {
        true
    }

    fn writes_all(&self) -> bool {
        true
    }

    fn max_parts(&self) -> u64 {
        u64::MAX
    }

    fn count(&self, counts: &mut Counts, outcome: Result<Done, Reason>) {
        counts.add(outcome);
    }

    fn is_enough(&self, _counts: &Counts) -> bool {
        false
    }
}

/// The result of a translation whose copy of the records ended with this result.
pub(crate) fn of_records(copied: Result<Extent, PartError>) -> Result<(), CaptureError>
    ensures { result ≡ of_records copied }
{
    match copied {
        Ok(_) => Ok(()),
        Err(error) => Err(record_error(error)),
    }
}

/// The result of a translation whose copy of the blocks ended with this result.
pub(crate) fn of_blocks(copied: Result<Extent, PartError>) -> Result<(), CaptureError>
    ensures { result ≡ of_blocks copied }
{
    match copied {
        Ok(_) => Ok(()),
        Err(error) => Err(block_error(error)),
    }
}

/// The error of a translation whose copy of the blocks ended with this error.
fn block_error(error: PartError) -> CaptureError
    ensures { result ≡ block_error error }
{
    match error {
        PartError::CutOff {
            place,
            required_len,
            len,
        } => CaptureError::Block(PlacedPacketError {
            offset: place.offset,
            error: PacketError::Block(BlockError::CutOff { required_len, len }),
        }),
        error => record_error(error),
    }
}

/// The error of a translation whose copy of the records ended with this error.
fn record_error(error: PartError) -> CaptureError
    ensures { result ≡ record_error error }
{
    match error {
        PartError::CutOff {
            place,
            required_len,
            len,
        } => CaptureError::RecordCutOff {
            offset: place.offset,
            required_len,
            len,
        },
        PartError::Refused(refused) => CaptureError::Block(refused),
        PartError::Read { place, error } => CaptureError::Read {
            offset: place.offset,
            error,
        },
        PartError::TooManyParts => CaptureError::TooManyParts,
        PartError::Write(error) => CaptureError::Write(error),
    }
}
