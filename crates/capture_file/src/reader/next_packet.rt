use crate::reader::{CapturedPacket, PlacedPacketError};
use crate::{LinkType, PacketTime};

/// The next item of a capture. The items are the same for both file formats.
#[derive(Clone, Copy, Debug, PartialEq, Eq)]
pub enum NextPacket {
    /// A packet whose captured bytes are in the buffer, beginning at the place `start`.
    Whole(CapturedPacket),
    /// A packet that is longer than the buffer. It was skipped.
    TooLong(TooLongPacket),
    /// The end of the capture.
    End,
    /// An incomplete record or block, within which the capture ends.
    CutOff {
        /// The length of the record or block in bytes, or the length of its header if the header is incomplete.
        required_len: usize,
        /// The number of bytes of the record or block that are present.
        len: usize,
    },
    /// A refused block of a pcapng file.
    Refused(PlacedPacketError),
}

/// What a capture states about a packet that is longer than the buffer.
#[derive(Clone, Copy, Debug, PartialEq, Eq)]
pub struct TooLongPacket {
    /// The link type of the packet, or its number if the link type is unknown. `None` for a skipped pcapng block.
    pub link_type: Option<Result<LinkType, u16>>,
    /// The capture time. `None` for a skipped pcapng block.
    pub time: Option<PacketTime>,
    /// The least length that the buffer needs: the captured length of a record, or the length of a pcapng block.
    pub required_len: u32,
    /// The original length: the length of the packet on its link, in bytes. `None` for a skipped pcapng block.
    pub original_len: Option<u32>,
}
