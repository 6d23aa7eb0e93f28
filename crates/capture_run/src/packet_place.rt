use capture_file::reader::PacketTexts;

/// The place of a packet in its capture, and the texts of the packet.
#[derive(Clone, Debug, Drop)]
pub struct PacketPlace {
    /// The number of the packet. The first packet of a capture is number 1.
    pub number: u64,
    /// The texts of the packet: its interface and its comments.
    pub texts: PacketTexts,
}
