//! The protocols that numbers in headers identify.

ghost use Rattle.std.specs.Prelude.{◌≡◌};
ghost use Rattle.std.specs.Option.{option_map};
ghost use Rattle.capture_summary.specs.Protocols as specs;
ghost use Rattle.capture_summary.specs.Protocols.{ether_types, ip_protocols, nlpids, ppp_protocols, protocol_in};

use crate::protocol::Protocol;
use capture_packet::NetworkProtocol;
use ip_part::Proto;
use net_base::IpNumber;

/// The service access point of the spanning tree protocol (IEEE 802.1D, clause 7.12.3).
const STP: u8 = 0x42;

/// The name of a protocol over IP, or `None` if it has no name. UDP, TCP, ICMPv4 over IPv4 and ICMPv6 over IPv6 have names. Some other
/// protocols in the registry "Protocol Numbers" of IANA have names too.
pub fn ip_protocol_name(protocol: IpNumber, proto: Option<Proto>) -> Option<&'static str>
    ensures { option_map (λ name. name.now) result ≡ specs.ip_protocol_name protocol.0 proto }
{
    Some(ip_protocol(protocol, proto)?.name())
}

/// The name of the protocol of a frame without an IP packet, or `None` if the protocol has no name.
pub fn network_protocol_name(protocol: NetworkProtocol) -> Option<&'static str>
    ensures { option_map (λ name. name.now) result ≡ specs.network_protocol_name protocol }
{
    Some(network_protocol(protocol)?.name())
}

/// The entry in the table of protocols for a protocol over IP, or `None` if the table has no entry for it.
pub(crate) fn ip_protocol(protocol: IpNumber, proto: Option<Proto>) -> Option<Protocol>
    ensures { result ≡ specs.ip_protocol protocol.0 proto }
{
    match proto {
        Some(proto) => Some(Protocol::of_proto(proto)),
        None => other_over_ip(protocol.0),
    }
}

/// The entry in the table of protocols for a frame without an IP packet, or `None` if the table has no entry for its protocol.
pub(crate) fn network_protocol(protocol: NetworkProtocol) -> Option<Protocol>
    ensures { result ≡ specs.network_protocol protocol }
{
    match protocol {
        NetworkProtocol::EtherType(number) => by_ether_type(number),
        NetworkProtocol::PppProtocol(number) => over_ppp(number),
        NetworkProtocol::Nlpid(number) => by_nlpid(number),
        NetworkProtocol::Llc { dsap, ssap } => by_access_points(dsap, ssap),
        NetworkProtocol::AddressFamily(_)
        | NetworkProtocol::LinkType(_)
        | NetworkProtocol::Ieee80211 { .. }
        | NetworkProtocol::Radiotap { .. }
        | NetworkProtocol::Snap { .. }
        | NetworkProtocol::FrameRelay { .. } => None,
    }
}

/// The protocol over IP with this number (the registry "Protocol Numbers" of IANA), or `None` if the table of protocols has no entry for
/// it.
fn other_over_ip(number: u8) -> Option<Protocol>
    ensures { result ≡ protocol_in ip_protocols number }
{
    match number {
        2 => Some(Protocol::Igmp),
        4 => Some(Protocol::Ipv4),
        33 => Some(Protocol::Dccp),
        41 => Some(Protocol::Ipv6),
        46 => Some(Protocol::Rsvp),
        47 => Some(Protocol::Gre),
        50 => Some(Protocol::Esp),
        51 => Some(Protocol::Ah),
        59 => Some(Protocol::NoNextHeader),
        88 => Some(Protocol::Eigrp),
        89 => Some(Protocol::Ospf),
        97 => Some(Protocol::EtherIp),
        103 => Some(Protocol::Pim),
        108 => Some(Protocol::IpComp),
        112 => Some(Protocol::Vrrp),
        115 => Some(Protocol::L2tp),
        132 => Some(Protocol::Sctp),
        136 => Some(Protocol::UdpLite),
        137 => Some(Protocol::MplsInIp),
        _ => None,
    }
}

/// The protocol with this ether type (the registry "IEEE 802 Numbers" of IANA, and the registry of IEEE), or `None` if the table of
/// protocols has no entry for it.
fn by_ether_type(number: u16) -> Option<Protocol>
    ensures { result ≡ protocol_in ether_types number }
{
    match number {
        0x0806 => Some(Protocol::Arp),
        0x8035 => Some(Protocol::Rarp),
        0x8137 => Some(Protocol::Ipx),
        0x8809 => Some(Protocol::SlowProtocol),
        0x8847 | 0x8848 => Some(Protocol::Mpls),
        0x8863 => Some(Protocol::PppoeDiscovery),
        0x8864 => Some(Protocol::PppoeSession),
        0x888E => Some(Protocol::Eapol),
        0x88CC => Some(Protocol::Lldp),
        0x88E5 => Some(Protocol::MacSec),
        0x88F5 => Some(Protocol::Mvrp),
        0x88F7 => Some(Protocol::Ptp),
        0x8902 => Some(Protocol::Cfm),
        0x9000 => Some(Protocol::Loopback),
        _ => None,
    }
}

/// The protocol with this number in PPP (the registry "PPP Numbers" of IANA), or `None` if the table of protocols has no entry for it.
fn over_ppp(number: u16) -> Option<Protocol>
    ensures { result ≡ protocol_in ppp_protocols number }
{
    match number {
        0x8021 => Some(Protocol::Ipcp),
        0x8057 => Some(Protocol::Ipv6cp),
        0x80FD => Some(Protocol::Ccp),
        0xC021 => Some(Protocol::Lcp),
        0xC023 => Some(Protocol::Pap),
        0xC025 => Some(Protocol::Lqr),
        0xC223 => Some(Protocol::Chap),
        0xC227 => Some(Protocol::Eap),
        _ => None,
    }
}

/// The protocol with this network layer protocol ID (ISO/IEC TR 9577), or `None` if the table of protocols has no entry for it.
fn by_nlpid(number: u8) -> Option<Protocol>
    ensures { result ≡ protocol_in nlpids number }
{
    match number {
        0x81 => Some(Protocol::Clnp),
        0x82 => Some(Protocol::EsIs),
        0x83 => Some(Protocol::IsIs),
        _ => None,
    }
}

/// The protocol with these service access points in an LLC header, or `None` if it is not the spanning tree protocol.
fn by_access_points(dsap: u8, ssap: u8) -> Option<Protocol>
    ensures { result ≡ specs.llc_protocol dsap ssap }
{
    if dsap == STP && ssap == STP {
        Some(Protocol::Stp)
    } else {
        None
    }
}
