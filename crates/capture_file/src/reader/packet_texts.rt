ghost use Rattle.std.specs.Prelude.{◌≡◌};
ghost use Rattle.capture_file.specs.PacketTexts.{comments_of, no_packet_texts, texts_of};

use crate::PacketComments;
use crate::reader::{CaptureReader, CapturedPacket, PacketInterface};

/// What a pcapng file states about a packet in words: the interface of the packet and its comments.
#[derive(Clone, Debug, Drop)]
pub struct PacketTexts {
    /// The interface of the packet, if its section describes several interfaces before the packet.
    pub interface: Option<PacketInterface>,
    /// The comments in the block of the packet. A packet of a classic capture or of a simple packet block has no comment.
    pub comments: PacketComments,
}

impl PacketTexts {
    /// Returns the texts of a packet that has no texts.
    pub fn new() -> PacketTexts
        ensures { result ≡ no_packet_texts }
    {
        PacketTexts {
            interface: None,
            comments: PacketComments::new(),
        }
    }
}

impl CaptureReader {
    /// Returns the texts of a packet. The packet must be the packet that was read last, since the reader keeps only the comments of this
    /// packet.
    pub fn texts_of(&self, packet: &CapturedPacket) -> PacketTexts
        ensures { result ≡ texts_of self.now packet.now.interface }
    {
        PacketTexts {
            interface: self.interface_of(packet),
            comments: self.comments(),
        }
    }

    /// Returns the comments of the packet that was read last.
    fn comments(&self) -> PacketComments
        ensures { result ≡ comments_of self.now }
    {
        match self {
            CaptureReader::Classic(_) => PacketComments::new(),
            CaptureReader::Pcapng(reader) => reader.texts.packet_comments.copy(),
        }
    }
}
