ghost use Rattle.std.specs.Prelude.{◌≡◌};
ghost use Rattle.capture_numbers.specs.LinkTypes.{link_type_with};

use crate::link_number;

/// The link type of a record: the kind of its first header (draft-ietf-opsawg-pcaplinktype, with its registry).
#[derive(Clone, Copy, Debug, PartialEq, Eq)]
pub enum LinkType {
    /// An address family in four bytes, in the byte order of the machine that wrote the capture, and then the packet (LINKTYPE_NULL, 0).
    BsdLoopback,
    /// An Ethernet frame (LINKTYPE_ETHERNET, 1).
    Ethernet,
    /// A PPP frame, with or without its Address and Control fields (LINKTYPE_PPP, 9).
    Ppp,
    /// A PPP frame as in `Ppp`, or a frame of Cisco HDLC; the first byte shows which (LINKTYPE_PPP_HDLC, 50).
    PppHdlc,
    /// A PPPoE header, and a PPP frame without Address and Control fields (LINKTYPE_PPP_ETHER, 51).
    PppOverEthernet,
    /// An IPv4 or IPv6 packet without a link header (LINKTYPE_RAW, 101, on some systems 12 or 14; LINKTYPE_IPV4, 228; LINKTYPE_IPV6, 229).
    RawIp,
    /// Cisco HDLC: an address, a control byte and an ether type (LINKTYPE_C_HDLC, 104).
    CiscoHdlc,
    /// An IEEE 802.11 frame (LINKTYPE_IEEE802_11, 105).
    Ieee80211,
    /// A Frame Relay frame (LINKTYPE_FRELAY, 107).
    FrameRelay,
    /// An address family in four bytes, with the most significant byte first, and then the packet (LINKTYPE_LOOP, 108).
    OpenBsdLoopback,
    /// A header of 16 bytes instead of the link header (LINKTYPE_LINUX_SLL, 113).
    LinuxCooked,
    /// A header of the packet filter of OpenBSD, and the packet (LINKTYPE_PFLOG, 117).
    Pflog,
    /// A Prism header or an AVS header, and an IEEE 802.11 frame (LINKTYPE_IEEE802_11_PRISM, 119).
    Prism,
    /// A radiotap header, and an IEEE 802.11 frame (LINKTYPE_IEEE802_11_RADIOTAP, 127).
    Radiotap,
    /// An AVS header, and an IEEE 802.11 frame (LINKTYPE_IEEE802_11_AVS, 163).
    Avs,
    /// A header of Per-Packet Information, and a frame of the link type that this header states (LINKTYPE_PPI, 192).
    Ppi,
    /// A header of 24 bytes of Solaris, and the packet (LINKTYPE_IPNET, 226).
    Ipnet,
    /// Attributes of a packet that the packet filter of Linux logged, and the packet in the last attribute (LINKTYPE_NFLOG, 239).
    Nflog,
    /// IP over InfiniBand: a global routing header of 40 bytes, an ether type, and two reserved bytes (LINKTYPE_IPOIB, 242).
    InfiniBand,
    /// A header of Apple's packet tap, and a frame of the link type that this header states (LINKTYPE_PKTAP, 258).
    Pktap,
    /// A header of 20 bytes instead of the link header (LINKTYPE_LINUX_SLL2, 276).
    LinuxCooked2,
}

impl LinkType {
    /// The number of link types that are read.
    pub const COUNT: usize = 21;

    /// The link type with this number, or `None` if it is not read.
    pub fn from_number(number: u16) -> Option<LinkType>
        ensures { result ≡ link_type_with number }
    {
        match number {
            0 => Some(LinkType::BsdLoopback),
            1 => Some(LinkType::Ethernet),
            9 => Some(LinkType::Ppp),
            50 => Some(LinkType::PppHdlc),
            51 => Some(LinkType::PppOverEthernet),
            12 | 14 | 101 | 228 | 229 => Some(LinkType::RawIp),
            104 => Some(LinkType::CiscoHdlc),
            105 => Some(LinkType::Ieee80211),
            107 => Some(LinkType::FrameRelay),
            108 => Some(LinkType::OpenBsdLoopback),
            113 => Some(LinkType::LinuxCooked),
            link_number::PFLOG => Some(LinkType::Pflog),
            link_number::PRISM => Some(LinkType::Prism),
            127 => Some(LinkType::Radiotap),
            link_number::AVS => Some(LinkType::Avs),
            link_number::PPI => Some(LinkType::Ppi),
            226 => Some(LinkType::Ipnet),
            link_number::NFLOG => Some(LinkType::Nflog),
            242 => Some(LinkType::InfiniBand),
            link_number::PKTAP => Some(LinkType::Pktap),
            276 => Some(LinkType::LinuxCooked2),
            _ => None,
        }
    }
}
