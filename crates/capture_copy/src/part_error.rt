use crate::Place;
use capture_file::reader::PlacedPacketError;
use std::io;

/// Why a capture is not copied to its end.
#[derive(Debug, Drop)]
pub enum PartError {
    /// The capture ends within a record or block.
    CutOff {
        /// The place of the record or block.
        place: Place,
        /// The length of the record or block in bytes, or the length of its header if the header is incomplete.
        required_len: usize,
        /// The number of bytes of the record or block that are present.
        len: usize,
    },
    /// A block of a pcapng file is refused.
    Refused(PlacedPacketError),
    /// Reading failed.
    Read {
        /// The place of the record or block that was read.
        place: Place,
        /// The error of the system.
        error: io::Error,
    },
    /// The maximum number of records or blocks was read.
    TooManyParts,
    /// Writing failed.
    Write(io::Error),
}
