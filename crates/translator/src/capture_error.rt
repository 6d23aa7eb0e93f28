ghost use Rattle.std.specs.Prelude.{◌≡◌};
ghost use Rattle.translator.specs.Outcomes as specs;

use capture_file::classic::CaptureHeaderError;
use capture_file::reader::{PacketError, PlacedPacketError};
use std::io;

/// Why a capture is not translated to its end.
#[derive(Debug, Drop)]
pub enum CaptureError {
    /// The input does not begin with the whole header of a capture, or the program does not read its format.
    Header(CaptureHeaderError),
    /// The input ends within a record of a classic capture.
    RecordCutOff {
        /// The start of the record, in bytes from the start of the file.
        offset: u64,
        /// The length of the record in bytes, or the length of its header if the header is cut off.
        required_len: usize,
        /// The number of bytes of the record that are present.
        len: usize,
    },
    /// A block of a pcapng file is refused, or the file ends within it.
    Block(PlacedPacketError),
    /// Reading failed.
    Read {
        /// The start of the record or block, in bytes from the start of the file.
        offset: u64,
        /// The error of the system.
        error: io::Error,
    },
    /// The limit of 2^64 - 1 records or blocks is reached.
    TooManyParts,
    /// Writing failed.
    Write(io::Error),
}

impl CaptureError {
    /// The exit status of the program: 1 if the capture can't be read to its end, 2 if the input is not a capture, and 3 if reading or
    /// writing failed.
    pub fn status(&self) -> u8
        ensures { result ≡ specs.status self.now }
    {
        match self {
            CaptureError::Header(
                CaptureHeaderError::CutOff { .. } | CaptureHeaderError::Magic { .. },
            ) => 2,
            CaptureError::Block(
                PlacedPacketError {
                    offset: 0,
                    error: PacketError::Block(_),
                },
            ) => 2,
            CaptureError::Header(_)
            | CaptureError::RecordCutOff { .. }
            | CaptureError::Block(_)
            | CaptureError::TooManyParts => 1,
            CaptureError::Read { .. } | CaptureError::Write(_) => 3,
        }
    }
}
