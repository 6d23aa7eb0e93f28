ghost use Rattle.std.specs.Prelude.{◌≡◌, ◌≤◌, ◌+◌, IsTrue, length};
ghost use Rattle.std.specs.Option.{option_map};
ghost use Rattle.ip_part.specs.Addresses.{by_value};
ghost use Rattle.ip_part.specs.declared.proto.Proto.TheVariants as protos;
ghost use Rattle.etherparse_transport.specs.Flows as specs;
ghost use Rattle.etherparse_transport.specs.Flows.{ends_at, ends_by, ends_by_value};

use crate::ip::translated_message::{
    DESTINATION_PORT_AT, IDENTIFIER_AT, SOURCE_PORT_AT, is_icmpv4_query, is_icmpv4_request,
    is_icmpv6_query,
};
use crate::ip::{IpAddresses, TransportInIp, transport_in_ip_lax};
use crate::{IpNumber, Proto, icmpv6};

/// The length of the ports at the front of a UDP or TCP header, in bytes (RFC 768; RFC 9293, section 3.1).
const PORTS_LEN: usize = 4;

/// The ends of a flow, as one of its packets names them: the addresses, the protocol, and the ports or the identifier of an ICMP query.
///
/// ```
/// use etherparse_transport::ip::{FlowEnds, IpAddresses, flow};
/// use etherparse_transport::ip_number;
///
/// let packet = [
///     0x45, 0, 0, 28, 0, 0, 0, 0, 64, 1, 0, 0, 192, 168, 1, 1, 192, 168, 1, 2, // IPv4
///     8, 0, 0, 0, 0, 7, 0, 1, // an echo request with the identifier 7
/// ];
/// let (source, destination) = (&[192, 168, 1, 1], &[192, 168, 1, 2]);
/// let ends = FlowEnds {
///     addresses: IpAddresses::Ipv4 { source, destination },
///     protocol: ip_number::ICMP,
///     is_fragment: false,
///     is_later_fragment: false,
///     source_port: Some(7),
///     destination_port: None,
/// };
/// assert_eq!(rt; flow(&packet)?.ends, ends);
/// ```
#[derive(Clone, Copy, Debug, PartialEq, Eq)]
pub struct FlowEnds<'a> {
    /// The addresses that the checksum of the packet covers. The variant of `IpAddresses` is the IP version.
    pub addresses: IpAddresses<'a>,
    /// The protocol of the payload.
    pub protocol: IpNumber,
    /// Whether the packet is one of several fragments, as in `TransportInIp`. Only the first fragment contains the ports.
    pub is_fragment: bool,
    /// Whether the packet is a later fragment, whose payload begins in the middle of a message. It contains no port and no identifier.
    pub is_later_fragment: bool,
    /// The source port of UDP and TCP (RFC 768; RFC 9293, section 3.1), or the identifier of a request of ICMP (RFC 5508, section 3.1).
    /// `None` if the packet does not contain it.
    pub source_port: Option<u16>,
    /// The destination port of UDP and TCP, or the identifier of a reply of ICMP. `None` if the packet does not contain it.
    pub destination_port: Option<u16>,
}

/// The ends of the packet at the front of these bytes. `None` if `transport_in_ip_lax` refuses the packet.
pub(crate) fn ends_in(packet: &[u8]) -> Option<FlowEnds<'_>>
    ensures { option_map ends_by_value result ≡ ends_at packet.now }
{
    match transport_in_ip_lax(packet) {
        Ok(found) => Some(ends_of(&found)),
        Err(_) => None,
    }
}

/// The ends of a packet with this transport.
pub(crate) fn ends_of<'a>(found: &TransportInIp<'a>) -> FlowEnds<'a>
    ensures { ends_by_value result ≡ ends_by found.now }
{
    let (source_port, destination_port) = ports_in(found);
    FlowEnds {
        addresses: found.addresses,
        protocol: found.protocol,
        is_fragment: found.is_fragment,
        is_later_fragment: found.is_later_fragment,
        source_port,
        destination_port,
    }
}

/// The source port and the destination port of a packet with this transport. In a query, the identifier is one of them.
fn ports_in(found: &TransportInIp<'_>) -> (Option<u16>, Option<u16>)
    ensures source { result.0 ≡ (ends_by found.now).source_port }
    ensures destination { result.1 ≡ (ends_by found.now).destination_port }
{
    match found.proto() {
        Some(proto) if !found.is_later_fragment => (
            source_port(proto, found.payload),
            destination_port(proto, found.payload),
        ),
        _ => (None, None),
    }
}

/// The source port of a message, or the identifier of a request.
fn source_port(proto: Proto, message: &[u8]) -> Option<u16>
    ensures { result ≡ specs.source_port_of proto message.now }
{
    match proto {
        Proto::Udp | Proto::Tcp => number_if(has_ports(message), message, SOURCE_PORT_AT),
        Proto::Icmpv4 => number_if(is_request_icmpv4(message), message, IDENTIFIER_AT),
        Proto::Icmpv6 => number_if(is_request_icmpv6(message), message, IDENTIFIER_AT),
    }
}

/// The destination port of a message, or the identifier of a reply.
fn destination_port(proto: Proto, message: &[u8]) -> Option<u16>
    ensures { result ≡ specs.destination_port_of proto message.now }
{
    match proto {
        Proto::Udp | Proto::Tcp => number_if(has_ports(message), message, DESTINATION_PORT_AT),
        Proto::Icmpv4 => number_if(is_reply_icmpv4(message), message, IDENTIFIER_AT),
        Proto::Icmpv6 => number_if(is_reply_icmpv6(message), message, IDENTIFIER_AT),
    }
}

/// Whether a message of UDP or TCP contains both ports.
fn has_ports(message: &[u8]) -> bool
    ensures ports { result ≡ specs.has_ports message.now }
    ensures there { IsTrue result → 4 ≤ length message.now }
{
    message.len() >= PORTS_LEN
}

/// Whether an ICMPv4 message is a request that contains its whole identifier.
fn is_request_icmpv4(message: &[u8]) -> bool
    ensures request { result ≡ specs.is_request_with_identifier protos.Icmpv4 message.now }
    ensures there { IsTrue result → 6 ≤ length message.now }
{
    is_icmpv4_query(message) && is_icmpv4_request(message[0])
}

/// Whether an ICMPv4 message is a reply that contains its whole identifier.
fn is_reply_icmpv4(message: &[u8]) -> bool
    ensures reply { result ≡ specs.is_reply_with_identifier protos.Icmpv4 message.now }
    ensures there { IsTrue result → 6 ≤ length message.now }
{
    is_icmpv4_query(message) && !is_icmpv4_request(message[0])
}

/// Whether an ICMPv6 message is a request that contains its whole identifier.
fn is_request_icmpv6(message: &[u8]) -> bool
    ensures request { result ≡ specs.is_request_with_identifier protos.Icmpv6 message.now }
    ensures there { IsTrue result → 6 ≤ length message.now }
{
    is_icmpv6_query(message) && message[0] == icmpv6::TYPE_ECHO_REQUEST
}

/// Whether an ICMPv6 message is a reply that contains its whole identifier.
fn is_reply_icmpv6(message: &[u8]) -> bool
    ensures reply { result ≡ specs.is_reply_with_identifier protos.Icmpv6 message.now }
    ensures there { IsTrue result → 6 ≤ length message.now }
{
    is_icmpv6_query(message) && message[0] != icmpv6::TYPE_ECHO_REQUEST
}

/// The number in the two bytes at this place of a message, if the message contains it.
fn number_if(is_there: bool, message: &[u8], place: usize) -> Option<u16>
    requires { IsTrue is_there → place + 2 ≤ length message.now }
    ensures { result ≡ specs.number_if is_there place message.now }
{
    if !is_there {
        return None;
    }
    Some(u16::from_be_bytes([message[place], message[place + 1]]))
}
