ghost use Rattle.std.specs.Prelude.{◌≡◌};
ghost use Rattle.capture_summary.specs.Tables.{counted_len};

use capture_file::{LinkType, PacketTime};

/// The length of a frame, in bytes.
#[derive(Clone, Copy, Debug, PartialEq, Eq)]
pub struct FrameLen {
    /// The original length: the length of the frame on its link.
    pub original: u64,
    /// The captured length. It is less if the capture truncated the frame.
    pub captured: u64,
}

/// What a capture states about a packet.
#[derive(Clone, Copy, Debug, PartialEq, Eq)]
pub struct CaptureInfo {
    /// The link type of the packet, or the number of a link type that is not read. `None` if the capture does not state it.
    pub link_type: Option<Result<LinkType, u16>>,
    /// The capture time. `None` if the capture does not state it.
    pub time: Option<PacketTime>,
    /// The length of the frame. `None` if the capture does not state it.
    pub len: Option<FrameLen>,
}

impl CaptureInfo {
    /// The number of bytes that a summary counts for the packet: the original length, or 0 if the capture does not state it.
    pub fn counted_len(&self) -> u64
        ensures { result ≡ counted_len self.now.len }
    {
        match self.len {
            Some(len) => len.original,
            None => 0,
        }
    }
}
