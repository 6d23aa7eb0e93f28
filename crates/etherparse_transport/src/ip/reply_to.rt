ghost use Rattle.std.specs.Prelude.{◌≡◌, ℕ, List, ◌↔◌, IfSome, IsSome, IsTrue, MatchOption, [], false};
ghost use Rattle.icmp_part.specs.Icmpv4Format.{refusal as icmpv4_refusal};
ghost use Rattle.icmp_part.specs.Icmpv6Format.{refusal as icmpv6_refusal};
ghost use Rattle.ip_part.specs.Addresses.{Addresses, by_value};
ghost use Rattle.ip_part.specs.Ip.{ipv4_header};
ghost use Rattle.net_base.specs.IpHeaders.{BeginsWithIpv4Header};
ghost use Rattle.word_sum.specs.Checksum.{Verifies};
ghost use Rattle.etherparse_transport.specs.ReplyTo as specs;
ghost use Rattle.etherparse_transport.specs.ReplyTo.{Answers, AnswersIcmpv4, AnswersIcmpv6, CarriesIcmp, GoesBack, GoesToSource, IsOfType, IsReplyFromAny, IsReplyTo, MayAnswerIpv4, MayAnswerIpv6, icmp_number};

use crate::ip::echo_reply::{is_group_ipv4, is_group_ipv6, is_host_ipv4, is_host_ipv6};
use crate::ip::{IpAddresses, TransportInIp, transport_in_ip};
use crate::{Icmpv4Slice, Icmpv6Slice, Ipv4HeaderSlice, icmpv4, icmpv6, ip_number};

/// Whether `reply` is the reply to the echo request in `request` (RFC 792, "Echo or Echo Reply Message"; RFC 1122, section 3.2.2.6; RFC
/// 4443, sections 4.1 and 4.2). Both packets begin with their IP headers, and may contain options and extension headers. Bytes after a
/// packet are ignored.
///
/// ```
/// if ip::is_reply_to(&sent, &received) {
///     println!(rt; "answered")?;
/// }
/// ```
///
/// The result is true exactly if all of these statements hold:
/// - `transport_in_ip` accepts both packets. They have the same IP version, and neither is a fragment.
/// - `transport_slice` returns ICMP of that version for both. The first message is an echo request, of type 8 over IPv4 and 128 over IPv6.
///   The second is an echo reply, of type 0 and 129. Both codes are 0.
/// - Identifier, sequence number and payload of both messages are equal.
/// - The reply goes to the source of the request, and comes from the destination of the request. If this destination is a multicast address
///   or 255.255.255.255, the reply comes from the address of one host instead. The addresses are those of `TransportInIp`.
/// - The checksum of the reply is right, and over IPv4 also the checksum of its IP header.
///
/// The checksums of the request are not tested, since the caller sent it, and a network card may fill them in. The broadcast address of a
/// subnet counts as the address of one host, since the length of the prefix is not known. A host replies to a request to an anycast address
/// from a unicast address (RFC 4443, section 4.2). `is_reply_from_any` recognises this reply.
pub fn is_reply_to(request: &[u8], reply: &[u8]) -> bool
    ensures { IsTrue result ↔ IsReplyTo request.now reply.now }
{
    let Some(sent) = icmp_in(request) else {
        return false;
    };
    let Some(received) = icmp_in(reply) else {
        return false;
    };
    goes_back(sent.addresses, received.addresses)
        && answers(received.addresses, sent.payload, received.payload)
        && has_right_header(reply)
}

/// Whether `reply` is the reply of any host to the echo request in `request`. The destination of the request is not compared. A host that
/// receives a request to an anycast address replies from a unicast address, which the request does not contain (RFC 4443, section 4.2).
///
/// The reply goes to the source of the request, and comes from the address of one host. All other conditions of `is_reply_to` apply.
pub fn is_reply_from_any(request: &[u8], reply: &[u8]) -> bool
    ensures { IsTrue result ↔ IsReplyFromAny request.now reply.now }
{
    let Some(sent) = icmp_in(request) else {
        return false;
    };
    let Some(received) = icmp_in(reply) else {
        return false;
    };
    goes_to_source(sent.addresses, received.addresses)
        && answers(received.addresses, sent.payload, received.payload)
        && has_right_header(reply)
}

// ---- the packets

/// The whole ICMP message in a packet. `None` if the packet contains no whole ICMP message.
#[inline(always)]
fn icmp_in(packet: &[u8]) -> Option<TransportInIp<'_>>
    ensures { MatchOption result ((between : Addresses) (message : List ℕ) → ¬ CarriesIcmp packet.now between message)
        (λ found. CarriesIcmp packet.now (by_value found.addresses) found.payload.now) }
{
    match transport_in_ip(packet) {
        Ok(found) if is_whole_icmp(&found) => Some(found),
        _ => None,
    }
}

/// Whether a transport is an ICMP message of its IP version, and no fragment.
fn is_whole_icmp(found: &TransportInIp<'_>) -> bool
    ensures { IsTrue result ↔ (found.now.is_fragment ≡ false) × (found.now.protocol.0 ≡ icmp_number (by_value found.now.addresses)) }
{
    let number = match found.addresses {
        IpAddresses::Ipv4 { .. } => ip_number::ICMP,
        IpAddresses::Ipv6 { .. } => ip_number::IPV6_ICMP,
    };
    !found.is_fragment && found.protocol == number
}

/// Whether the checksum of the IPv4 header is right. `true` if the packet does not begin with an IPv4 header.
fn has_right_header(packet: &[u8]) -> bool
    ensures { IsTrue result ↔ (BeginsWithIpv4Header packet.now → Verifies [] (ipv4_header packet.now)) }
{
    match Ipv4HeaderSlice::from_slice(packet) {
        Some(header) => header.is_checksum_valid(),
        None => true,
    }
}

// ---- the addresses

/// Whether the addresses of the reply are those of the request, exchanged. If the request went to several hosts, its reply may come from
/// any host. `false` if a final destination is unknown.
fn goes_back(request: IpAddresses<'_>, reply: IpAddresses<'_>) -> bool
    ensures { IsTrue result ↔ GoesBack (by_value request.entry) (by_value reply.entry) }
{
    match (request, reply) {
        (
            IpAddresses::Ipv4 {
                source,
                destination,
            },
            IpAddresses::Ipv4 {
                source: responder,
                destination: receiver,
            },
        ) => receiver == source && may_answer_ipv4(destination, responder),
        (
            IpAddresses::Ipv6 {
                source,
                destination: Some(destination),
            },
            IpAddresses::Ipv6 {
                source: responder,
                destination: Some(receiver),
            },
        ) => receiver == source && may_answer_ipv6(destination, responder),
        _ => false,
    }
}

/// Whether the reply goes from the address of one host to the source of the request. `false` if the final destination of the reply is
/// unknown.
fn goes_to_source(request: IpAddresses<'_>, reply: IpAddresses<'_>) -> bool
    ensures { IsTrue result ↔ GoesToSource (by_value request.entry) (by_value reply.entry) }
{
    match (request, reply) {
        (
            IpAddresses::Ipv4 { source, .. },
            IpAddresses::Ipv4 {
                source: responder,
                destination: receiver,
            },
        ) => receiver == source && is_host_ipv4(*responder),
        (
            IpAddresses::Ipv6 { source, .. },
            IpAddresses::Ipv6 {
                source: responder,
                destination: Some(receiver),
            },
        ) => receiver == source && is_host_ipv6(*responder),
        _ => false,
    }
}

/// Whether a host with the address `responder` may answer a request to this destination.
fn may_answer_ipv4(destination: &[u8; 4], responder: &[u8; 4]) -> bool
    ensures { IsTrue result ↔ MayAnswerIpv4 destination.now responder.now }
{
    if is_group_ipv4(*destination) {
        is_host_ipv4(*responder)
    } else {
        responder == destination
    }
}

/// Whether a host with the address `responder` may answer a request to this destination.
// perf: references to 16 bytes are compared at once. Arrays are compared byte by byte (27 Nov 2026).
fn may_answer_ipv6(destination: &[u8; 16], responder: &[u8; 16]) -> bool
    ensures { IsTrue result ↔ MayAnswerIpv6 destination.now responder.now }
{
    if is_group_ipv6(*destination) {
        is_host_ipv6(*responder)
    } else {
        responder == destination
    }
}

// ---- the messages

/// Whether `reply` is the reply to the message `request`. The reply has these addresses. `false` if their final destination is unknown.
fn answers(addresses: IpAddresses<'_>, request: &[u8], reply: &[u8]) -> bool
    ensures { IsTrue result ↔ Answers (by_value addresses.entry) request.now reply.now }
{
    match addresses {
        IpAddresses::Ipv4 { .. } => answers_icmpv4(request, reply),
        IpAddresses::Ipv6 {
            source,
            destination: Some(destination),
        } => answers_icmpv6(*source, *destination, request, reply),
        IpAddresses::Ipv6 {
            destination: None,
            ..
        } => false,
    }
}

/// Whether `reply` is the ICMPv4 reply to the message `request`.
fn answers_icmpv4(request: &[u8], reply: &[u8]) -> bool
    ensures { IsTrue result ↔ AnswersIcmpv4 request.now reply.now }
{
    let (Some(_), Some(message)) = (
        icmpv4_of_type(icmpv4::TYPE_ECHO_REQUEST, request),
        icmpv4_of_type(icmpv4::TYPE_ECHO_REPLY, reply),
    ) else {
        return false;
    };
    echoed(reply) == echoed(request) && message.is_checksum_valid()
}

/// Whether `reply` is the ICMPv6 reply to the message `request`. The reply goes from this source to this destination.
fn answers_icmpv6(source: [u8; 16], destination: [u8; 16], request: &[u8], reply: &[u8]) -> bool
    ensures { IsTrue result ↔ AnswersIcmpv6 source destination request.now reply.now }
{
    let (Some(_), Some(message)) = (
        icmpv6_of_type(icmpv6::TYPE_ECHO_REQUEST, request),
        icmpv6_of_type(icmpv6::TYPE_ECHO_REPLY, reply),
    ) else {
        return false;
    };
    echoed(reply) == echoed(request) && message.is_checksum_valid(source, destination)
}

/// The bytes of an echo message after its checksum: the identifier, the sequence number and the payload.
fn echoed(message: &[u8]) -> &[u8]
    ensures { result.now ≡ specs.echoed message.now }
{
    message.get(4..).unwrap_or(&[])
}

/// The ICMPv4 message in these bytes, if it has this type and code 0.
fn icmpv4_of_type(type_u8: u8, message: &[u8]) -> Option<Icmpv4Slice<'_>>
    ensures typed { IsSome result ↔ IsOfType type_u8 (icmpv4_refusal message.now) message.now }
    ensures kept { IfSome result (λ slice. slice ≡ message.now) }
{
    let slice = Icmpv4Slice::from_slice(message).ok()?;
    (slice.type_u8() == type_u8 && slice.code_u8() == 0).then_some(slice)
}

/// The ICMPv6 message in these bytes, if it has this type and code 0.
fn icmpv6_of_type(type_u8: u8, message: &[u8]) -> Option<Icmpv6Slice<'_>>
    ensures typed { IsSome result ↔ IsOfType type_u8 (icmpv6_refusal message.now) message.now }
    ensures kept { IfSome result (λ slice. slice ≡ message.now) }
{
    let slice = Icmpv6Slice::from_slice(message).ok()?;
    (slice.type_u8() == type_u8 && slice.code_u8() == 0).then_some(slice)
}
