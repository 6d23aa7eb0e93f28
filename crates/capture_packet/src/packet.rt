ghost use Rattle.std.specs.Prelude.{◌≡◌};
ghost use Rattle.capture_packet.specs.Packets.{in_no_tunnel};

use crate::{Arp, Content, FragmentFields, HopLimit, Tunnels, Verdict};
use arrayvec::ArrayVec;

/// What is read of a packet in a capture. If an IP packet contains another IP packet, this is the inner packet.
#[derive(Debug, PartialEq, Eq, Drop)]
pub struct Packet<'a> {
    /// The tunnels around the packet, from the outermost to the innermost.
    pub tunnels: Tunnels<'a>,
    /// The content of the packet.
    pub content: Content<'a>,
    /// The verdict on the checksum of the packet.
    pub verdict: Verdict,
    /// The hop limit of the packet, if the fixed part of its IP header is present.
    pub hop_limit: Option<HopLimit>,
    /// The fields of the fragment, if the packet is a fragment and its IP headers are accepted.
    pub fragment: Option<FragmentFields>,
    /// The ARP packet, if the frame contains one.
    pub arp: Option<Arp>,
}

impl<'a> Packet<'a> {
    /// A packet without tunnels and without a hop limit, which is neither a fragment nor an ARP packet.
    pub fn in_no_tunnel(content: Content<'a>, verdict: Verdict) -> Packet<'a>
        ensures { result ≡ in_no_tunnel content.entry verdict }
    {
        Packet {
            tunnels: ArrayVec::new(),
            content,
            verdict,
            hop_limit: None,
            fragment: None,
            arp: None,
        }
    }
}
