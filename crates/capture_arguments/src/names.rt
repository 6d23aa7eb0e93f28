//! The names by which protocols are chosen.

ghost use Rattle.capture_arguments.specs.ProtocolNames.{Names, protocol_rows};

use capture_summary::{ChosenProtocol, Protocol};

/// The names of protocols, each with the protocol that it chooses. They are the names in the summary's table of protocols, in lower case,
/// and with `-` instead of a space. `icmp` is ICMPv4 and ICMPv6.
#[rattlefmt::skip]
static PROTOCOLS: [(&str, ChosenProtocol); 53] = [
    ("icmp", ChosenProtocol::Icmp),
    ("udp", ChosenProtocol::One(Protocol::Udp)),
    ("tcp", ChosenProtocol::One(Protocol::Tcp)),
    ("icmpv4", ChosenProtocol::One(Protocol::Icmpv4)),
    ("icmpv6", ChosenProtocol::One(Protocol::Icmpv6)),
    ("igmp", ChosenProtocol::One(Protocol::Igmp)),
    ("ipv4", ChosenProtocol::One(Protocol::Ipv4)),
    ("dccp", ChosenProtocol::One(Protocol::Dccp)),
    ("ipv6", ChosenProtocol::One(Protocol::Ipv6)),
    ("rsvp", ChosenProtocol::One(Protocol::Rsvp)),
    ("gre", ChosenProtocol::One(Protocol::Gre)),
    ("esp", ChosenProtocol::One(Protocol::Esp)),
    ("ah", ChosenProtocol::One(Protocol::Ah)),
    ("no-next-header", ChosenProtocol::One(Protocol::NoNextHeader)),
    ("eigrp", ChosenProtocol::One(Protocol::Eigrp)),
    ("ospf", ChosenProtocol::One(Protocol::Ospf)),
    ("etherip", ChosenProtocol::One(Protocol::EtherIp)),
    ("pim", ChosenProtocol::One(Protocol::Pim)),
    ("ipcomp", ChosenProtocol::One(Protocol::IpComp)),
    ("vrrp", ChosenProtocol::One(Protocol::Vrrp)),
    ("l2tp", ChosenProtocol::One(Protocol::L2tp)),
    ("sctp", ChosenProtocol::One(Protocol::Sctp)),
    ("udp-lite", ChosenProtocol::One(Protocol::UdpLite)),
    ("mpls-in-ip", ChosenProtocol::One(Protocol::MplsInIp)),
    ("other-over-ip", ChosenProtocol::One(Protocol::OtherOverIp)),
    ("arp", ChosenProtocol::One(Protocol::Arp)),
    ("rarp", ChosenProtocol::One(Protocol::Rarp)),
    ("ipx", ChosenProtocol::One(Protocol::Ipx)),
    ("slow-protocol", ChosenProtocol::One(Protocol::SlowProtocol)),
    ("mpls", ChosenProtocol::One(Protocol::Mpls)),
    ("pppoe-discovery", ChosenProtocol::One(Protocol::PppoeDiscovery)),
    ("pppoe-session", ChosenProtocol::One(Protocol::PppoeSession)),
    ("eapol", ChosenProtocol::One(Protocol::Eapol)),
    ("lldp", ChosenProtocol::One(Protocol::Lldp)),
    ("macsec", ChosenProtocol::One(Protocol::MacSec)),
    ("mvrp", ChosenProtocol::One(Protocol::Mvrp)),
    ("ptp", ChosenProtocol::One(Protocol::Ptp)),
    ("cfm", ChosenProtocol::One(Protocol::Cfm)),
    ("loopback", ChosenProtocol::One(Protocol::Loopback)),
    ("ipcp", ChosenProtocol::One(Protocol::Ipcp)),
    ("ipv6cp", ChosenProtocol::One(Protocol::Ipv6cp)),
    ("ccp", ChosenProtocol::One(Protocol::Ccp)),
    ("lcp", ChosenProtocol::One(Protocol::Lcp)),
    ("pap", ChosenProtocol::One(Protocol::Pap)),
    ("lqr", ChosenProtocol::One(Protocol::Lqr)),
    ("chap", ChosenProtocol::One(Protocol::Chap)),
    ("eap", ChosenProtocol::One(Protocol::Eap)),
    ("clnp", ChosenProtocol::One(Protocol::Clnp)),
    ("es-is", ChosenProtocol::One(Protocol::EsIs)),
    ("is-is", ChosenProtocol::One(Protocol::IsIs)),
    ("stp", ChosenProtocol::One(Protocol::Stp)),
    ("other-without-ip", ChosenProtocol::One(Protocol::OtherWithoutIp)),
    ("unknown", ChosenProtocol::One(Protocol::Unknown)),
];

/// The protocol with this name. Upper and lower case are not distinguished. `None` if there is no protocol with this name.
pub fn protocol_named(name: &str) -> Option<ChosenProtocol>
    ensures { Names protocol_rows name.now result }
{
    let mut left = PROTOCOLS.as_slice();
    while let [row, others @ ..] = left {
        if row.0.eq_ignore_ascii_case(name) {
            return Some(row.1);
        }
        left = others;
    }
    None
}
