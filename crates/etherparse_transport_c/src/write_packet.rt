ghost use Rattle.std.specs.Prelude.{◌≡◌, ◌++◌, ℕ, List, [], IfOk, None, Some, length, unwrap_or};
ghost use Rattle.ip_part.specs.Addresses as addresses;
ghost use Rattle.ip_part.specs.Ip as ip;
ghost use Rattle.net_base.specs.Refusals.{RefusesExactly};
ghost use Rattle.word_sum.specs.Checksum.{Verifies};
ghost use Rattle.etherparse_transport.specs.Packets.{IsReadAs, sent_over_ipv4, sent_over_ipv6};
ghost use Rattle.etherparse_transport_c.specs.Errors.{Leaves, at_front, status_of, unless_refused};
ghost use Rattle.etherparse_transport_c.specs.WrittenPackets as specs;
ghost use Rattle.etherparse_transport_c.specs.WrittenPackets.{header_at, ipv4_bytes, ipv4_refusal, ipv6_bytes, ipv6_refusal, message_refusal, payload_at, proto_over_ipv4, proto_over_ipv6};

use crate::answer::{Answer, ErrorPlace, accept, refuse};
use crate::error::{EtherparseError, of_build, of_header_slice, of_protocol};
use etherparse_transport::ip::{write_packet_ipv4, write_packet_ipv6};
use etherparse_transport::{IpNumber, Proto, TransportHeader, ip_number};

/// The fields of an IPv4 header that a caller chooses (RFC 791, section 3.1).
#[repr(C)]
#[derive(Clone, Copy)]
pub struct EtherparseIpv4Header {
    /// The source address.
    pub source: [u8; 4],
    /// The destination address.
    pub destination: [u8; 4],
    /// The number of hops that are left.
    pub time_to_live: u8,
    /// The protocol of the message: UDP, TCP or ICMPv4, as its number in IP headers.
    pub protocol: u8,
}

/// The fields of an IPv6 header that a caller chooses (RFC 8200, section 3).
#[repr(C)]
#[derive(Clone, Copy)]
pub struct EtherparseIpv6Header {
    /// The source address.
    pub source: [u8; 16],
    /// The destination address.
    pub destination: [u8; 16],
    /// The number of hops that are left.
    pub hop_limit: u8,
    /// The protocol of the message: UDP, TCP or ICMPv6, as its number in IP headers.
    pub next_header: u8,
}

/// Returns the protocol with this number, or `None` if it is not UDP, TCP or ICMPv4.
fn proto_in_ipv4(number: u8) -> Option<Proto>
    ensures { result ≡ proto_over_ipv4 number }
{
    match IpNumber(number) {
        ip_number::UDP => Some(Proto::Udp),
        ip_number::TCP => Some(Proto::Tcp),
        ip_number::ICMP => Some(Proto::Icmpv4),
        _ => None,
    }
}

/// Returns the protocol with this number, or `None` if it is not UDP, TCP or ICMPv6.
fn proto_in_ipv6(number: u8) -> Option<Proto>
    ensures { result ≡ proto_over_ipv6 number }
{
    match IpNumber(number) {
        ip_number::UDP => Some(Proto::Udp),
        ip_number::TCP => Some(Proto::Tcp),
        ip_number::IPV6_ICMP => Some(Proto::Icmpv6),
        _ => None,
    }
}

/// Returns the transport header at the front of a message, and the bytes after it. `proto` is the protocol with the number `number`, or
/// `None` if the call does not accept this protocol.
fn read_message(
    number: u8,
    proto: Option<Proto>,
    message: &[u8],
) -> Result<(TransportHeader, &[u8]), EtherparseError>
    ensures refused { RefusesExactly result (message_refusal number proto message.now) }
    ensures header { IfOk result (λ parts. parts.0 ≡ header_at proto message.now) }
    ensures payload { IfOk result (λ parts. parts.1.now ≡ payload_at proto message.now) }
{
    let Some(proto) = proto else {
        return Err(of_protocol(u32::from(number)));
    };
    match TransportHeader::from_slice(proto, message) {
        Ok(parts) => Ok(parts),
        Err(refused) => Err(of_header_slice(&refused)),
    }
}

/// Writes an IPv4 packet to the front of a buffer (RFC 791, section 3.1): an IP header without options, and the message after it. The
/// message is a transport header and its payload. The call computes both checksums, the total length, and the length field of UDP. It
/// ignores the checksum and the UDP length in the message. It clears the reserved bits of the transport header. The flag "don't fragment"
/// is set, and identification, type of service and fragment offset are 0. After the call `etherparse_packet_verdict` returns the verdict
/// `RIGHT`.
///
/// # Errors
///
/// The status is `OK`, or the first of these that applies:
/// - `PROTOCOL_UNKNOWN` if `header.protocol` is not UDP, TCP or ICMPv4.
/// - `LENGTH` or `DATA_OFFSET` if the call that reads a packet of this protocol returns it. But the length field of UDP is not checked.
/// - `VALUE_TOO_BIG` if the packet would be longer than 65,535 bytes.
/// - `BUFFER_TOO_SMALL` if the buffer is shorter than the packet.
///
/// After an error `error` contains the reason, and `buffer` and `written` are unchanged.
#[unsafe(no_mangle)]
#[tactic(auto, unfolding(crate::specs::Errors::at_front))]
pub extern "C" fn etherparse_write_packet_ipv4(
    header: &EtherparseIpv4Header,
    message: &[u8],
    buffer: &mut [u8],
    written: &mut usize,
    error: ErrorPlace,
) -> Answer
    ensures status { result.status ≡ status_of (ipv4_refusal header.now message.now (length buffer.old)) }
    ensures error { Leaves error result (unwrap_or (ipv4_refusal header.now message.now (length buffer.old)) error.before) }
    ensures buffer { buffer.new ≡ unless_refused (ipv4_refusal header.now message.now (length buffer.old))
        (at_front (ipv4_bytes header.now message.now) buffer.old) buffer.old }
    ensures written { written.new ≡ unless_refused (ipv4_refusal header.now message.now (length buffer.old))
        (length (ipv4_bytes header.now message.now)) written.old }
    // The packet is read as the parts that were written, and its transport checksum is right. Padding after the packet changes nothing.
    ensures read { ipv4_refusal header.now message.now (length buffer.old) ≡ None → (padding : List ℕ) →
        IsReadAs (ipv4_bytes header.now message.now ++ padding) (addresses.Ipv4 header.now.source header.now.destination)
        (sent_over_ipv4 header.now.source header.now.destination (header_at (proto_over_ipv4 header.now.protocol) message.now)
        (payload_at (proto_over_ipv4 header.now.protocol) message.now)) (payload_at (proto_over_ipv4 header.now.protocol) message.now) }
    // The checksum of the IP header is also right.
    ensures verifies { ipv4_refusal header.now message.now (length buffer.old) ≡ None → Verifies [] (ip.ipv4_header buffer.new) }
{
    let (found, payload) = match read_message(
        header.protocol,
        proto_in_ipv4(header.protocol),
        message,
    ) {
        Ok(parts) => parts,
        Err(refused) => return refuse(error, refused),
    };
    let (source, destination) = (header.source, header.destination);
    let time_to_live = header.time_to_live;
    match write_packet_ipv4(buffer, source, destination, time_to_live, &found, payload) {
        Ok(len) => {
            *written = len;
            accept(error)
        }
        Err(refused) => refuse(error, of_build(&refused)),
    }
}

/// Writes an IPv6 packet to the front of a buffer (RFC 8200, section 3): an IP header without extension headers, and the message after it.
/// The call computes the payload length, the checksum and the length field of UDP. Traffic class and flow label are 0. Otherwise the call
/// does what `etherparse_write_packet_ipv4` does.
///
/// # Errors
///
/// The status is `OK`, or the first of these that applies:
/// - `PROTOCOL_UNKNOWN` if `header.next_header` is not UDP, TCP or ICMPv6.
/// - `LENGTH` or `DATA_OFFSET` if the call that reads a packet of this protocol returns it. But the length field of UDP is not checked.
/// - `VALUE_TOO_BIG` if the message is longer than 65,535 bytes.
/// - `BUFFER_TOO_SMALL` if the buffer is shorter than the packet.
///
/// After an error `error` contains the reason, and `buffer` and `written` are unchanged.
#[unsafe(no_mangle)]
#[tactic(auto, unfolding(crate::specs::Errors::at_front))]
pub extern "C" fn etherparse_write_packet_ipv6(
    header: &EtherparseIpv6Header,
    message: &[u8],
    buffer: &mut [u8],
    written: &mut usize,
    error: ErrorPlace,
) -> Answer
    ensures status { result.status ≡ status_of (ipv6_refusal header.now message.now (length buffer.old)) }
    ensures error { Leaves error result (unwrap_or (ipv6_refusal header.now message.now (length buffer.old)) error.before) }
    ensures buffer { buffer.new ≡ unless_refused (ipv6_refusal header.now message.now (length buffer.old))
        (at_front (ipv6_bytes header.now message.now) buffer.old) buffer.old }
    ensures written { written.new ≡ unless_refused (ipv6_refusal header.now message.now (length buffer.old))
        (length (ipv6_bytes header.now message.now)) written.old }
    // The packet is read as the parts that were written, and its transport checksum is right. Padding after the packet changes nothing.
    ensures read { ipv6_refusal header.now message.now (length buffer.old) ≡ None → (padding : List ℕ) →
        IsReadAs (ipv6_bytes header.now message.now ++ padding) (addresses.Ipv6 header.now.source (Some header.now.destination))
        (sent_over_ipv6 header.now.source header.now.destination (header_at (proto_over_ipv6 header.now.next_header) message.now)
        (payload_at (proto_over_ipv6 header.now.next_header) message.now)) (payload_at (proto_over_ipv6 header.now.next_header) message.now) }
{
    let (found, payload) = match read_message(
        header.next_header,
        proto_in_ipv6(header.next_header),
        message,
    ) {
        Ok(parts) => parts,
        Err(refused) => return refuse(error, refused),
    };
    let (source, destination) = (header.source, header.destination);
    let hop_limit = header.hop_limit;
    match write_packet_ipv6(buffer, source, destination, hop_limit, &found, payload) {
        Ok(len) => {
            *written = len;
            accept(error)
        }
        Err(refused) => refuse(error, of_build(&refused)),
    }
}
