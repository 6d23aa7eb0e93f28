//! The selection as a visitor of the packets of a capture.

ghost use Rattle.std.specs.Prelude.{◌≡◌};
ghost use Rattle.capture_file.specs.declared.reader.open_error.OpenError.TheVariants.{Pcapng};
ghost use Rattle.capture_request.specs.declared.capture_error.CaptureError.TheVariants.{Header};
ghost use Rattle.capture_selection.specs.Selector.{block_error, selected, selected_blocks, selection_error};
ghost use Rattle.capture_selection.specs.declared.selection_error.SelectionError.TheVariants.{Capture};

use crate::outcome::{outcome_in_frame, outcome_of};
use crate::{Counts, Outcome, SelectionError};
use capture_copy::{Extent, PartError, Place, Visitor};
use capture_file::PacketTime;
use capture_file::pcapng::BlockError;
use capture_file::reader::{CapturedPacket, OpenError, PacketError, PlacedPacketError};
use capture_request::{CaptureError, Parts, Reached, packet_without_room};

/// The maximum number of records or blocks that are read, as in a report.
const MAX_PARTS: u64 = u64::MAX - 1;

/// Selects the packets that have a line in a report with these options.
#[derive(Drop)]
pub(crate) struct Selector<'a> {
    /// The options of the report.
    pub parts: &'a Parts,
}

impl<'a> Visitor for Selector<'a> {
    type Outcome = Outcome;

    type Counts = Counts;

    ghost use Rattle.std.specs.Prelude.{◌≡◌};
    ghost use Rattle.capture_request.specs.Limits.{IsWithin, is_full};
    ghost use Rattle.capture_selection.specs.Selector.{selection_of};

    ghost visits = { λ selector. selection_of selector.parts.now };

    ghost is_enough = { λ selector counts. is_full selector.parts.now.limit counts.written };

    ghost holds = { λ selector counts. IsWithin selector.parts.now.limit counts.written };

    fn visit(&self, packet: &CapturedPacket, frame: &mut [u8]) -> Outcome {
        outcome_in_frame(self.parts, packet, frame)
    }

    fn visit_long(&self, required_len: u32, time: Option<PacketTime>) -> Outcome {
        outcome_of(self.parts, &packet_without_room(required_len), time)
    }

    fn is_written(&self, outcome: Outcome) -> bool {
        match outcome {
            Outcome::Written => true,
            Outcome::Unlisted | Outcome::Excluded => false,
        }
    }

    fn writes_all(&self) -> bool {
        false
    }

    fn max_parts(&self) -> u64 {
        MAX_PARTS
    }

    fn count(&self, counts: &mut Counts, outcome: Outcome) {
        counts.add(outcome);
    }

    fn is_enough(&self, counts: &Counts) -> bool {
        counts.is_full(self.parts.limit)
    }
}

/// The result of a selection from a classic capture whose copy ended with this result.
pub(crate) fn selected(copied: Result<Extent, PartError>) -> Result<Reached, SelectionError>
    ensures { result ≡ selected copied }
{
    match copied {
        Ok(Extent::Whole) => Ok(Reached::End),
        Ok(Extent::Enough) => Ok(Reached::Limit),
        Err(error) => Err(selection_error(error)),
    }
}

/// The error of a selection whose copy ended with this error.
fn selection_error(error: PartError) -> SelectionError
    ensures { result ≡ selection_error error }
{
    match error {
        PartError::CutOff {
            place,
            required_len,
            len,
        } => SelectionError::Capture(CaptureError::RecordCutOff {
            number: place.number,
            offset: place.offset,
            required_len,
            len,
        }),
        PartError::Refused(refused) => SelectionError::Capture(CaptureError::Refused(refused)),
        PartError::Read { place, error } => SelectionError::Capture(CaptureError::Read {
            number: place.number,
            offset: place.offset,
            error,
        }),
        PartError::TooManyParts => SelectionError::Capture(CaptureError::TooManyPackets),
        PartError::Write(error) => SelectionError::Write(error),
    }
}

/// The result of a selection from a pcapng file whose copy ended with this result.
pub(crate) fn selected_blocks(copied: Result<Extent, PartError>) -> Result<Reached, SelectionError>
    ensures { result ≡ selected_blocks copied }
{
    match copied {
        Ok(extent) => selected(Ok(extent)),
        Err(error) => Err(block_error(error)),
    }
}

/// The error of a selection from a pcapng file whose copy ended with this error. An error in the first block is an error of the header.
fn block_error(error: PartError) -> SelectionError
    ensures { result ≡ block_error error }
{
    match error {
        PartError::CutOff {
            place: Place { offset: 0, .. },
            required_len,
            len,
        } => header_error(PacketError::Block(BlockError::CutOff { required_len, len })),
        PartError::Refused(PlacedPacketError { offset: 0, error }) => header_error(error),
        error => selection_error(error),
    }
}

/// The error of a pcapng file whose first block is refused or cut off.
fn header_error(error: PacketError) -> SelectionError
    ensures { result ≡ Capture (Header (Pcapng error)) }
{
    SelectionError::Capture(CaptureError::Header(OpenError::Pcapng(error)))
}
