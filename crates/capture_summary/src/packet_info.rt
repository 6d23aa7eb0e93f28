use crate::CaptureInfo;
use capture_file::PacketTime;
use capture_file::reader::PacketTexts;

/// The number of a packet in its capture, its texts, and what the capture states about the packet.
#[derive(Clone, Debug, Drop)]
pub struct PacketInfo {
    /// The number of the packet. The first packet of a capture is number 1.
    pub number: u64,
    /// The texts of the packet: its interface and its comments.
    pub texts: PacketTexts,
    /// The first known capture time of the packets before this packet, if there is one.
    pub first: Option<PacketTime>,
    /// What the capture states about the packet.
    pub capture: CaptureInfo,
}
