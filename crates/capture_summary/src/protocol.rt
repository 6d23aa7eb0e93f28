ghost use Rattle.std.specs.Prelude.{◌≡◌, ◌<◌};
ghost use Rattle.capture_summary.specs.Protocols.{content_protocol, protocol_of, protocol_place, protocol_word};
ghost use Rattle.capture_summary.specs.declared.protocol.Protocol.{Protocol};

use crate::protocol_names::{ip_protocol, network_protocol};
use capture_packet::Content;
use ip_part::Proto;

/// The protocol of a packet: a row of the table of protocols.
#[derive(Clone, Copy, Debug, PartialEq, Eq)]
pub enum Protocol {
    /// UDP.
    Udp,
    /// TCP.
    Tcp,
    /// ICMPv4, only over IPv4.
    Icmpv4,
    /// ICMPv6, only over IPv6.
    Icmpv6,
    /// IGMP (RFC 3376).
    Igmp,
    /// An IPv4 packet that is not read as the inner packet of a tunnel.
    Ipv4,
    /// DCCP (RFC 4340).
    Dccp,
    /// An IPv6 packet that is not read as the inner packet of a tunnel.
    Ipv6,
    /// RSVP (RFC 2205).
    Rsvp,
    /// GRE (RFC 2784) that is not read as a tunnel.
    Gre,
    /// ESP (RFC 4303).
    Esp,
    /// AH (RFC 4302), if the bytes after it are not read.
    Ah,
    /// No next header (RFC 8200, section 4.7).
    NoNextHeader,
    /// EIGRP (RFC 7868).
    Eigrp,
    /// OSPF (RFC 2328).
    Ospf,
    /// EtherIP (RFC 3378).
    EtherIp,
    /// PIM (RFC 7761).
    Pim,
    /// IPComp (RFC 3173).
    IpComp,
    /// VRRP (RFC 9568).
    Vrrp,
    /// L2TP (RFC 3931).
    L2tp,
    /// SCTP (RFC 9260).
    Sctp,
    /// UDP-Lite (RFC 3828).
    UdpLite,
    /// MPLS-in-IP (RFC 4023).
    MplsInIp,
    /// Another protocol over IP, for which this enum has no name.
    OtherOverIp,
    /// ARP (RFC 826).
    Arp,
    /// RARP (RFC 903).
    Rarp,
    /// IPX.
    Ipx,
    /// A slow protocol, such as LACP (IEEE 802.3, annex 57A).
    SlowProtocol,
    /// MPLS (RFC 3032) without an IP packet.
    Mpls,
    /// PPPoE discovery (RFC 2516).
    PppoeDiscovery,
    /// PPPoE session (RFC 2516) without an IP packet.
    PppoeSession,
    /// EAPOL (IEEE 802.1X).
    Eapol,
    /// LLDP (IEEE 802.1AB).
    Lldp,
    /// MACsec (IEEE 802.1AE).
    MacSec,
    /// MVRP (IEEE 802.1Q).
    Mvrp,
    /// PTP (IEEE 1588).
    Ptp,
    /// CFM (IEEE 802.1Q, clause 21).
    Cfm,
    /// The configuration test protocol of Ethernet.
    Loopback,
    /// IPCP (RFC 1332).
    Ipcp,
    /// IPV6CP (RFC 5072).
    Ipv6cp,
    /// CCP (RFC 1962).
    Ccp,
    /// LCP (RFC 1661).
    Lcp,
    /// PAP (RFC 1334).
    Pap,
    /// LQR (RFC 1989).
    Lqr,
    /// CHAP (RFC 1994).
    Chap,
    /// EAP (RFC 3748).
    Eap,
    /// CLNP (ISO/IEC 8473-1).
    Clnp,
    /// ES-IS (ISO 9542).
    EsIs,
    /// IS-IS (ISO/IEC 10589).
    IsIs,
    /// STP (IEEE 802.1D).
    Stp,
    /// Another frame without an IP packet, if this enum has no name for its protocol.
    OtherWithoutIp,
    /// Unknown: the packet does not fit in the buffer, its link header is cut off, or its IP headers are refused or cut off.
    Unknown,
}

impl Protocol {
    /// The number of rows in the table of protocols.
    pub const COUNT: usize = 52;

    /// The name of the protocol, which is the name of its row.
    pub fn name(self) -> &'static str
        ensures { result.now ≡ protocol_word self }
    {
        match self {
            Protocol::Udp => "UDP",
            Protocol::Tcp => "TCP",
            Protocol::Icmpv4 => "ICMPv4",
            Protocol::Icmpv6 => "ICMPv6",
            Protocol::Igmp => "IGMP",
            Protocol::Ipv4 => "IPv4",
            Protocol::Dccp => "DCCP",
            Protocol::Ipv6 => "IPv6",
            Protocol::Rsvp => "RSVP",
            Protocol::Gre => "GRE",
            Protocol::Esp => "ESP",
            Protocol::Ah => "AH",
            Protocol::NoNextHeader => "no next header",
            Protocol::Eigrp => "EIGRP",
            Protocol::Ospf => "OSPF",
            Protocol::EtherIp => "EtherIP",
            Protocol::Pim => "PIM",
            Protocol::IpComp => "IPComp",
            Protocol::Vrrp => "VRRP",
            Protocol::L2tp => "L2TP",
            Protocol::Sctp => "SCTP",
            Protocol::UdpLite => "UDP-Lite",
            Protocol::MplsInIp => "MPLS-in-IP",
            Protocol::OtherOverIp => "other over IP",
            Protocol::Arp => "ARP",
            Protocol::Rarp => "RARP",
            Protocol::Ipx => "IPX",
            Protocol::SlowProtocol => "slow protocol",
            Protocol::Mpls => "MPLS",
            Protocol::PppoeDiscovery => "PPPoE discovery",
            Protocol::PppoeSession => "PPPoE session",
            Protocol::Eapol => "EAPOL",
            Protocol::Lldp => "LLDP",
            Protocol::MacSec => "MACsec",
            Protocol::Mvrp => "MVRP",
            Protocol::Ptp => "PTP",
            Protocol::Cfm => "CFM",
            Protocol::Loopback => "loopback",
            Protocol::Ipcp => "IPCP",
            Protocol::Ipv6cp => "IPV6CP",
            Protocol::Ccp => "CCP",
            Protocol::Lcp => "LCP",
            Protocol::Pap => "PAP",
            Protocol::Lqr => "LQR",
            Protocol::Chap => "CHAP",
            Protocol::Eap => "EAP",
            Protocol::Clnp => "CLNP",
            Protocol::EsIs => "ES-IS",
            Protocol::IsIs => "IS-IS",
            Protocol::Stp => "STP",
            Protocol::OtherWithoutIp => "other without IP",
            Protocol::Unknown => "unknown",
        }
    }

    /// The protocol of a packet, according to the numbers in its headers. A fragment, and a packet whose transport header is refused, also
    /// have a protocol. If the IP headers are refused or cut off, the protocol is `Unknown`.
    pub fn of(content: &Content<'_>) -> Protocol
        ensures { result ≡ content_protocol content.now }
    {
        match content {
            Content::Unread | Content::IpHeader(_) => Protocol::Unknown,
            Content::NotIp(protocol) => match network_protocol(*protocol) {
                Some(protocol) => protocol,
                None => Protocol::OtherWithoutIp,
            },
            Content::Ip {
                protocol,
                proto,
                ..
            } => match ip_protocol(*protocol, *proto) {
                Some(protocol) => protocol,
                None => Protocol::OtherOverIp,
            },
        }
    }

    /// Returns the row of a transport protocol.
    pub fn of_proto(proto: Proto) -> Protocol
        ensures { result ≡ protocol_of proto }
    {
        match proto {
            Proto::Udp => Protocol::Udp,
            Proto::Tcp => Protocol::Tcp,
            Proto::Icmpv4 => Protocol::Icmpv4,
            Proto::Icmpv6 => Protocol::Icmpv6,
        }
    }

    /// The place of the row in the table.
    #[inline(always)]
    pub fn place(self) -> usize
        ensures place { result ≡ protocol_place self }
        ensures below { result < 52 }
        ensures one_kind { (other : Protocol) → protocol_place other ≡ result → other ≡ self }
    {
        self as usize
    }
}
