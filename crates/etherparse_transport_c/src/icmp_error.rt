ghost use Rattle.std.specs.Prelude.{◌≡◌, ◌+◌, length, unwrap_or};
ghost use Rattle.etherparse_transport.specs.IcmpErrors.{ipv4_quote, ipv6_quote};
ghost use Rattle.etherparse_transport_c.specs.ErrorText.{text_of};
ghost use Rattle.etherparse_transport_c.specs.Errors.{Leaves, status_of, unless_refused};
ghost use Rattle.etherparse_transport_c.specs.IcmpErrors as specs;
ghost use Rattle.etherparse_transport_c.specs.IcmpErrors.{error_about_text_in_c, icmpv4_refusal, icmpv6_refusal, with_icmpv4_error, with_icmpv6_error};
ghost use Rattle.etherparse_transport_c.specs.Icmpv4.{message_in as icmpv4_message_in};
ghost use Rattle.etherparse_transport_c.specs.Icmpv6.{message_in as icmpv6_message_in};

use crate::answer::{Answer, ErrorPlace, accept, refuse};
use crate::error::{EtherparseError, of_buffer, of_ip, of_status};
use crate::icmpv4::{EtherparseIcmpv4Header, message_of as icmpv4_message_of};
use crate::icmpv6::{EtherparseIcmpv6Header, message_of as icmpv6_message_of};
use crate::status;
use etherparse_transport::err::packet::ErrorAboutError;
use etherparse_transport::ip::{IpError, icmpv4_error_about, icmpv6_error_about};

/// Writes an ICMPv4 error about `packet` to `buffer`, and the length of the error to `written` (RFC 792; RFC 1122, section 3.2.2). The
/// error is a whole IPv4 packet from `source` to the source of `packet`. Both checksums are right. The error has at most 576 bytes (RFC
/// 1812, section 4.3.2.3). It quotes as many of the first bytes of the packet as fit, without padding after the packet. The call ignores
/// the checksum in `message`.
///
/// # Errors
///
/// The status is `OK`, or the first of these that applies:
/// - `MESSAGE_UNKNOWN` if no message has the kind and the code of `message`.
/// - `NO_ICMP_ERROR` for any kind except destination unreachable, redirect, time exceeded and parameter problem. The call also returns it
///   for a redirect whose gateway is not the address of one host.
/// - An error of `etherparse_transport_in_ip_lax`.
/// - `IP_VERSION` for an IPv6 packet.
/// - `ICMP_ERROR_LATER_FRAGMENT` for a fragment with an offset above 0.
/// - `ICMP_ERROR_ABOUT_ERROR` if the packet is an ICMPv4 error, or an ICMPv4 message whose type is cut off.
/// - `ICMP_ERROR_ABOUT_GROUP` if the destination in the IP header is 255.255.255.255 or a multicast address.
/// - `ICMP_ERROR_PACKET_SOURCE` if the source in the IP header is not the address of one host.
/// - `ICMP_ERROR_SOURCE` if `source` is not the address of one host.
/// - `BUFFER_TOO_SMALL` if the buffer is shorter than the error.
///
/// After an error `error` contains the reason, and `buffer` and `written` are unchanged.
#[unsafe(no_mangle)]
pub extern "C" fn etherparse_icmpv4_error_about(
    packet: &[u8],
    message: &EtherparseIcmpv4Header,
    source: &[u8; 4],
    time_to_live: u8,
    buffer: &mut [u8],
    written: &mut usize,
    error: ErrorPlace,
) -> Answer
    ensures status { result.status ≡ status_of (icmpv4_refusal (icmpv4_message_in message.now) source.now packet.now (length buffer.old)) }
    ensures error { Leaves error result (unwrap_or (icmpv4_refusal (icmpv4_message_in message.now) source.now packet.now (length buffer.old)) error.before) }
    ensures written { written.new ≡ unless_refused (icmpv4_refusal (icmpv4_message_in message.now) source.now packet.now (length buffer.old))
        (28 + length (ipv4_quote packet.now)) written.old }
    ensures buffer { buffer.new ≡ unless_refused (icmpv4_refusal (icmpv4_message_in message.now) source.now packet.now (length buffer.old))
        (with_icmpv4_error (icmpv4_message_in message.now) source.now time_to_live packet.now buffer.old) buffer.old }
{
    match icmpv4_message_of(message) {
        Some(icmp_type) => match icmpv4_error_about(
            buffer,
            packet,
            icmp_type,
            *source,
            time_to_live,
        ) {
            Ok(len) => {
                *written = len;
                accept(error)
            }
            Err(refused) => refuse(error, of_error_about(&refused, 6)),
        },
        None => refuse(error, of_status(status::MESSAGE_UNKNOWN)),
    }
}

/// Writes an ICMPv6 error about `packet` to `buffer`, and the length of the error to `written` (RFC 4443, sections 2.4 and 3). The error is
/// a whole IPv6 packet from `source` to the source of `packet`. Its checksum is right. The error has at most 1,280 bytes. It quotes as many
/// of the first bytes of the packet as fit, without padding after the packet. The call ignores the checksum in `message`.
///
/// # Errors
///
/// The status is `OK`, or the first of these that applies:
/// - `MESSAGE_UNKNOWN` if no message has the kind and the code of `message`.
/// - `NO_ICMP_ERROR` for any kind except destination unreachable, packet too big, time exceeded and parameter problem.
/// - An error of `etherparse_transport_in_ip_lax`.
/// - `IP_VERSION` for an IPv4 packet.
/// - `ICMP_ERROR_LATER_FRAGMENT` for a fragment with an offset above 0.
/// - `ICMP_ERROR_ABOUT_ERROR` if the packet is an ICMPv6 error, a redirect, or an ICMPv6 message whose type is cut off.
/// - `ICMP_ERROR_ABOUT_GROUP` if the destination in the IP header is a multicast address. But the call writes a packet too big message, and
///   a parameter problem of code 2.
/// - `ICMP_ERROR_PACKET_SOURCE` if the source in the IP header is not the address of one host.
/// - `ICMP_ERROR_SOURCE` if `source` is not the address of one host.
/// - `BUFFER_TOO_SMALL` if the buffer is shorter than the error.
///
/// After an error `error` contains the reason, and `buffer` and `written` are unchanged.
#[unsafe(no_mangle)]
pub extern "C" fn etherparse_icmpv6_error_about(
    packet: &[u8],
    message: &EtherparseIcmpv6Header,
    source: &[u8; 16],
    hop_limit: u8,
    buffer: &mut [u8],
    written: &mut usize,
    error: ErrorPlace,
) -> Answer
    ensures status { result.status ≡ status_of (icmpv6_refusal (icmpv6_message_in message.now) source.now packet.now (length buffer.old)) }
    ensures error { Leaves error result (unwrap_or (icmpv6_refusal (icmpv6_message_in message.now) source.now packet.now (length buffer.old)) error.before) }
    ensures written { written.new ≡ unless_refused (icmpv6_refusal (icmpv6_message_in message.now) source.now packet.now (length buffer.old))
        (48 + length (ipv6_quote packet.now)) written.old }
    ensures buffer { buffer.new ≡ unless_refused (icmpv6_refusal (icmpv6_message_in message.now) source.now packet.now (length buffer.old))
        (with_icmpv6_error (icmpv6_message_in message.now) source.now hop_limit packet.now buffer.old) buffer.old }
{
    match icmpv6_message_of(message) {
        Some(icmp_type) => match icmpv6_error_about(buffer, packet, icmp_type, *source, hop_limit) {
            Ok(len) => {
                *written = len;
                accept(error)
            }
            Err(refused) => refuse(error, of_error_about(&refused, 4)),
        },
        None => refuse(error, of_status(status::MESSAGE_UNKNOWN)),
    }
}

/// Returns the error of a call that writes no ICMP error. `other_version` is the IP version that the call does not accept.
#[tactic(auto, unfolding(crate::specs::ErrorText::later_text))]
fn of_error_about(error: &ErrorAboutError, other_version: u8) -> EtherparseError
    ensures numbers { result ≡ specs.of_error_about other_version error.now }
    ensures text { text_of result ≡ error_about_text_in_c other_version error.now }
{
    match error {
        ErrorAboutError::NoErrorType => of_status(status::NO_ICMP_ERROR),
        ErrorAboutError::Ip(error) => of_ip(error),
        ErrorAboutError::OtherVersion => of_ip(&IpError::Version {
            version: other_version,
        }),
        ErrorAboutError::LaterFragment => of_status(status::ICMP_ERROR_LATER_FRAGMENT),
        ErrorAboutError::IcmpError => of_status(status::ICMP_ERROR_ABOUT_ERROR),
        ErrorAboutError::GroupDestination => of_status(status::ICMP_ERROR_ABOUT_GROUP),
        ErrorAboutError::PacketSource => of_status(status::ICMP_ERROR_PACKET_SOURCE),
        ErrorAboutError::ErrorSource => of_status(status::ICMP_ERROR_SOURCE),
        ErrorAboutError::Space { required_len, len } => of_buffer(*required_len, *len),
    }
}
