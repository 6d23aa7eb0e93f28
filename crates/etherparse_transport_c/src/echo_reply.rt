ghost use Rattle.std.specs.Prelude.{◌≡◌, None, Some, drop, false, slice_range, unwrap_or};
ghost use Rattle.ip_part.specs.Addresses as addresses;
ghost use Rattle.ip_part.specs.Ip.{counted_len};
ghost use Rattle.etherparse_transport.specs.EchoReplies as replies;
ghost use Rattle.etherparse_transport.specs.EchoReplies.{icmpv4_reply_to, icmpv6_reply_to, ipv4_reply, ipv6_reply, message_after};
ghost use Rattle.etherparse_transport.specs.Packets.{IsReadAs};
ghost use Rattle.etherparse_transport.specs.declared.transport_header.TransportHeader.TheVariants as headers;
ghost use Rattle.etherparse_transport_c.specs.EchoReplies.{AnyReplyTells, ReplyTells, ipv4_refusal, ipv6_refusal, refusal};
ghost use Rattle.etherparse_transport_c.specs.Errors.{Leaves, status_of, test_error, unless_refused};

use crate::answer::{Answer, ErrorPlace, accept, refuse};
use crate::error::{of_answer_echo, of_status};
use crate::status;
use etherparse_transport::ip::{
    answer_echo, answer_echo_ipv4, answer_echo_ipv6, is_reply_from_any, is_reply_to,
};

/// Turns an echo request over IPv4 or IPv6 into its reply, in place, and writes the length of the reply to `reply_len`. The destination of
/// the request becomes the source of the reply, and the source becomes the destination. The time to live or hop limit of the reply is
/// `hop_limit`. The reply is as long as the request without its IPv4 options. Bytes after the reply are unchanged.
///
/// # Errors
///
/// The status is `OK`, or the first of these that applies:
/// - An error of `etherparse_transport_in_ip`.
/// - `ECHO_FRAGMENT` for a fragment.
/// - `ECHO_NO_REQUEST` if the protocol is not the ICMP of this IP version.
/// - `ECHO_HAS_OPTIONS` for IPv4 options of another kind than 0 and 1, an authentication header, or IPv6 extension headers.
/// - `LENGTH` if the call that reads the message returns it.
/// - `ECHO_NO_REQUEST` if the message is not an echo request.
/// - `CHECKSUM_WRONG` if the checksum of the message is wrong.
/// - `ECHO_HEADER_CHECKSUM_WRONG` if the checksum of the IPv4 header is wrong.
/// - `ECHO_REQUEST_SOURCE` if the source of the request is not the address of one host.
/// - `ECHO_REPLY_SOURCE` if the source of the reply is not the address of one host.
///
/// After an error `error` contains the reason, and `packet` and `reply_len` are unchanged.
#[unsafe(no_mangle)]
pub extern "C" fn etherparse_echo_answer(
    packet: &mut [u8],
    hop_limit: u8,
    reply_len: &mut usize,
    error: ErrorPlace,
) -> Answer
    ensures status { result.status ≡ status_of (refusal packet.old) }
    ensures error { Leaves error result (unwrap_or (refusal packet.old) error.before) }
    ensures reply_len { reply_len.new ≡ unless_refused (refusal packet.old) (replies.reply_len packet.old) reply_len.old }
    ensures packet { packet.new ≡ unless_refused (refusal packet.old) (replies.reply hop_limit packet.old) packet.old }
    // The reply has the identifier, the sequence number and the payload of the request, and its checksum is right.
    ensures read { refusal packet.old ≡ None → IsReadAs packet.new (replies.reply_addresses packet.old)
        (replies.reply_header packet.old) (replies.reply_payload packet.old) }
{
    match answer_echo(packet, hop_limit) {
        Ok(len) => {
            *reply_len = len;
            accept(error)
        }
        Err(refused) => refuse(error, of_answer_echo(&refused)),
    }
}

/// Turns an echo request over IPv4 into its reply, like `etherparse_echo_answer`. The source of the reply is `source`. For a request to a
/// multicast or broadcast address, pass an address of the replying host as `source`.
///
/// # Errors
///
/// The statuses of `etherparse_echo_answer`. The call also returns `ECHO_NO_REQUEST` for an IPv6 packet.
#[unsafe(no_mangle)]
pub extern "C" fn etherparse_echo_answer_ipv4(
    packet: &mut [u8],
    source: &[u8; 4],
    time_to_live: u8,
    reply_len: &mut usize,
    error: ErrorPlace,
) -> Answer
    ensures status { result.status ≡ status_of (ipv4_refusal source.now packet.old) }
    ensures error { Leaves error result (unwrap_or (ipv4_refusal source.now packet.old) error.before) }
    ensures reply_len { reply_len.new ≡ unless_refused (ipv4_refusal source.now packet.old) (replies.len_without_options packet.old) reply_len.old }
    ensures packet { packet.new ≡ unless_refused (ipv4_refusal source.now packet.old) (ipv4_reply source.now time_to_live packet.old) packet.old }
    // The reply has the identifier, the sequence number and the payload of the request, and its checksum is right.
    ensures read { ipv4_refusal source.now packet.old ≡ None → IsReadAs packet.new
        (addresses.Ipv4 source.now (slice_range packet.old 12 16))
        (headers.Icmpv4 (icmpv4_reply_to (replies.ipv4_message packet.old))) (drop 8 (replies.ipv4_message packet.old)) }
{
    match answer_echo_ipv4(packet, Some(*source), time_to_live) {
        Ok(len) => {
            *reply_len = len;
            accept(error)
        }
        Err(refused) => refuse(error, of_answer_echo(&refused)),
    }
}

/// Turns an echo request over IPv6 into its reply, like `etherparse_echo_answer`. The source of the reply is `source`. For a request to a
/// multicast address, pass an address of the replying host as `source`.
///
/// # Errors
///
/// The statuses of `etherparse_echo_answer`, except `ECHO_HEADER_CHECKSUM_WRONG`. The call also returns `ECHO_NO_REQUEST` for an IPv4
/// packet.
#[unsafe(no_mangle)]
pub extern "C" fn etherparse_echo_answer_ipv6(
    packet: &mut [u8],
    source: &[u8; 16],
    hop_limit: u8,
    reply_len: &mut usize,
    error: ErrorPlace,
) -> Answer
    ensures status { result.status ≡ status_of (ipv6_refusal source.now packet.old) }
    ensures error { Leaves error result (unwrap_or (ipv6_refusal source.now packet.old) error.before) }
    ensures reply_len { reply_len.new ≡ unless_refused (ipv6_refusal source.now packet.old) (counted_len false packet.old) reply_len.old }
    ensures packet { packet.new ≡ unless_refused (ipv6_refusal source.now packet.old) (ipv6_reply source.now hop_limit packet.old) packet.old }
    // The reply has the identifier, the sequence number and the payload of the request, and its checksum is right.
    ensures read { ipv6_refusal source.now packet.old ≡ None → IsReadAs packet.new
        (addresses.Ipv6 source.now (Some (slice_range packet.old 8 24)))
        (headers.Icmpv6 (icmpv6_reply_to source.now (slice_range packet.old 8 24) (message_after 40 packet.old)))
        (drop 8 (message_after 40 packet.old)) }
{
    match answer_echo_ipv6(packet, Some(*source), hop_limit) {
        Ok(len) => {
            *reply_len = len;
            accept(error)
        }
        Err(refused) => refuse(error, of_answer_echo(&refused)),
    }
}

/// Tests whether `reply` is the reply to the echo request in `request` (RFC 792, "Echo or Echo Reply Message"; RFC 1122, section 3.2.2.6;
/// RFC 4443, sections 4.1 and 4.2). Both packets begin with their IP headers, and may contain options and extension headers. Bytes after a
/// packet are ignored.
///
/// # Errors
///
/// The status is `OK` if `reply` is the reply. Otherwise it is `ECHO_NO_REPLY`, also if one of the packets can't be read.
#[unsafe(no_mangle)]
pub extern "C" fn etherparse_echo_is_reply(
    request: &[u8],
    reply: &[u8],
    error: ErrorPlace,
) -> Answer
    ensures status { ReplyTells request.now reply.now result.status }
    ensures error { Leaves error result (test_error None result.status error.before) }
{
    if is_reply_to(request, reply) {
        accept(error)
    } else {
        refuse(error, of_status(status::ECHO_NO_REPLY))
    }
}

/// Tests whether `reply` is the reply to the echo request in `request`. The source of the reply may be the address of any host. For
/// example, a host replies from its unicast address to a request to an anycast address (RFC 4443, section 4.2). Otherwise the call does
/// what `etherparse_echo_is_reply` does.
///
/// # Errors
///
/// The status is `OK` if `reply` is the reply. Otherwise it is `ECHO_NO_REPLY`, also if one of the packets can't be read.
#[unsafe(no_mangle)]
pub extern "C" fn etherparse_echo_is_reply_from_any(
    request: &[u8],
    reply: &[u8],
    error: ErrorPlace,
) -> Answer
    ensures status { AnyReplyTells request.now reply.now result.status }
    ensures error { Leaves error result (test_error None result.status error.before) }
{
    if is_reply_from_any(request, reply) {
        accept(error)
    } else {
        refuse(error, of_status(status::ECHO_NO_REPLY))
    }
}
