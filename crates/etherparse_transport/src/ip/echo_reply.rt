ghost use Rattle.std.specs.Prelude.{◌≡◌, ◌≢◌, ℕ, List, ◌≤◌, ◌+◌, ◌++◌, [], IfErr, IfOk, None, Some, drop, false, length, slice_range, unwrap_or};
ghost use Rattle.std.specs.Option.{option_map};
ghost use Rattle.icmp_part.specs.Icmpv4Format.{wire as icmpv4_wire};
ghost use Rattle.icmp_part.specs.Icmpv6Format.{wire as icmpv6_wire};
ghost use Rattle.ip_part.specs.Addresses as addresses;
ghost use Rattle.ip_part.specs.Ip.{Carries, IsAfterHeaders, IsOverIpv4, counted_len, ipv4_header as header_bytes, refusal};
ghost use Rattle.net_base.specs.IpHeaders.{ipv4_header_len, ipv4_header_of, ipv6_header_of, version};
ghost use Rattle.net_base.specs.Refusals.{RefusesExactly};
ghost use Rattle.word_sum.specs.Checksum.{Verifies, checksum_of, total};
ghost use Rattle.word_sum.specs.ChecksumChange.{IsExtendedBy, added_value};
ghost use Rattle.etherparse_transport.specs.EchoReplies as specs;
ghost use Rattle.etherparse_transport.specs.EchoReplies.{IsIpv4Request, IsIpv6Request, IsPlainRequest, echo_header_len, icmpv4_refusal, icmpv4_reply_to, icmpv6_refusal, icmpv6_reply_to, ipv4_answer_refusal, ipv4_message, ipv4_reply, len_without_options, message_after, plain_reply, ipv6_answer_refusal, ipv6_message, ipv6_reply, transport_refusal};
ghost use Rattle.net_base.specs.IpNumbers.{icmpv4_number};
ghost use Rattle.etherparse_transport.specs.Packets.{IsReadAs, ipv4_fields};
ghost use Rattle.etherparse_transport.specs.ReplyTo.{CarriesIcmp, IsReplyTo, MayAnswerIpv4, MayAnswerIpv6, echoed};
ghost use Rattle.etherparse_transport.specs.declared.err.packet.answer_echo_error.AnswerEchoError.TheVariants.{Ip};
ghost use Rattle.etherparse_transport.specs.declared.transport_header.TransportHeader.TheVariants as headers;

use crate::checksum_change::ChecksumChange;
use crate::err::packet::AnswerEchoError;
use crate::ip::ip_header::{
    IPV4_CHECKSUM_AT, IPV4_DESTINATION_AT, IPV4_LEN, IPV4_PROTOCOL_AT, IPV4_TIME_TO_LIVE_AT,
    IPV6_LEN, ipv4_fields, ipv4_middle, ipv6_header,
};
use crate::ip::without_options::{are_padding, remove_options};
use crate::ip::{TransportInIp, transport_in_ip};
use crate::{
    IcmpEchoHeader, Icmpv4Header, Icmpv4Slice, Icmpv4Type, Icmpv6Header, Icmpv6Slice, Icmpv6Type,
    IpNumber, Ipv4Header, Ipv4HeaderSlice, Ipv6Header, Ipv6HeaderSlice, icmpv4, icmpv6, ip_number,
};

/// Turns the echo request in an IP packet of either version into its reply, and returns the length of the reply in bytes. The reply goes
/// from the destination of the request to its source. `answer_echo_ipv4` and `answer_echo_ipv6` describe the reply and the errors. They
/// also accept another source, which a reply to a request to a multicast address needs.
///
/// ```
/// let len = ip::answer_echo(&mut packet, 64)?;
/// send(&packet[..len]);
/// ```
///
/// # Errors
///
/// The errors of `answer_echo_ipv6` if the high four bits of byte 0 are 6, and otherwise the errors of `answer_echo_ipv4`.
pub fn answer_echo(packet: &mut [u8], hop_limit: u8) -> Result<usize, AnswerEchoError>
    ensures refused { RefusesExactly result (specs.answer_refusal packet.old) }
    ensures unchanged { IfErr result (λ _. packet.new ≡ packet.old) }
    ensures len { IfOk result (λ len. len ≡ specs.reply_len packet.old) }
    ensures answered { IfOk result (λ _. packet.new ≡ specs.reply hop_limit packet.old) }
    // The reply has the identifier, the sequence number and the payload of the request, and its checksum is right.
    ensures read { IfOk result (λ _. IsReadAs packet.new (specs.reply_addresses packet.old) (specs.reply_header packet.old)
        (specs.reply_payload packet.old)) }
    // `is_reply_to` recognises the reply.
    ensures replies { IfOk result (λ _. IsReplyTo packet.old packet.new) }
{
    if !packet.is_empty() && packet[0] >> 4 == 6 {
        answer_echo_ipv6(packet, None, hop_limit)
    } else {
        answer_echo_ipv4(packet, None, hop_limit)
    }
}

/// Turns the echo request in an IPv4 packet into its reply (RFC 792, "Echo or Echo Reply Message"; RFC 1122, section 3.2.2.6). Returns the
/// length of the reply in bytes. The bytes after the reply are not changed.
///
/// The reply goes to the source of the request. Its source is the passed address, or the destination of the request if `None` is passed. It
/// has the passed time to live, the type of a reply, and right checksums of header and message. All other fields except the flags, and the
/// payload, are those of the request.
///
/// The reply has no options. If the options of the request are only padding, of the kinds 0 and 1, the reply is shorter than the request
/// by the length of the options. A host need not return them (RFC 1122, section 3.2.2.6). Any other option is refused.
///
/// The only flag of the reply is "don't fragment", whatever flags the request has. So the reply is an atomic datagram, in
/// which the identification of the request has no meaning (RFC 6864, section 4.1). To send a reply in fragments, clear that
/// flag, and choose an identification.
///
/// A request with any time to live is answered, since a host accepts 0 and 1 too (RFC 1122, section 3.2.1.7).
///
/// # Errors
///
/// The call checks these cases, in this order, and changes nothing after an error:
/// - `Ip` if `transport_in_ip` refuses the packet.
/// - `NoEchoRequest` for an IPv6 packet.
/// - `Fragment` for a fragment, and `NoEchoRequest` for another protocol.
/// - `Options` if the message does not begin directly after the IPv4 header, or if the header has other options than padding.
/// - `Len` if `Icmpv4Slice::from_slice` refuses the message, `NoEchoRequest` if the message is no echo request, and `Checksum` if its
///   checksum is wrong.
/// - `HeaderChecksum` if the checksum of the IPv4 header is wrong (RFC 1122, section 3.2.1.2).
/// - `RequestSource` if the source of the request is 0.0.0.0, 255.255.255.255, a loopback address or a multicast address.
/// - `ReplySource` if the source of the reply is an address that `RequestSource` lists.
pub fn answer_echo_ipv4(
    packet: &mut [u8],
    source: Option<[u8; 4]>,
    time_to_live: u8,
) -> Result<usize, AnswerEchoError>
    ensures refused { RefusesExactly result (ipv4_answer_refusal source packet.old) }
    ensures unchanged { IfErr result (λ _. packet.new ≡ packet.old) }
    ensures len { IfOk result (λ len. len ≡ len_without_options packet.old) }
    ensures answered { IfOk result (λ _. packet.new ≡ ipv4_reply (unwrap_or source (slice_range packet.old 16 20)) time_to_live packet.old) }
    // The reply has the identifier, the sequence number and the payload of the request, and its checksum is right.
    ensures read { IfOk result (λ _. IsReadAs packet.new
        (addresses.Ipv4 (unwrap_or source (slice_range packet.old 16 20)) (slice_range packet.old 12 16))
        (headers.Icmpv4 (icmpv4_reply_to (ipv4_message packet.old))) (drop echo_header_len (ipv4_message packet.old))) }
    // The checksum of the reply's IP header is also right.
    ensures verifies { IfOk result (λ _. Verifies [] (header_bytes packet.new)) }
    // `is_reply_to` recognises the reply, if the source of the reply may answer for the destination of the request.
    ensures replies { MayAnswerIpv4 (slice_range packet.old 16 20) (unwrap_or source (slice_range packet.old 16 20)) →
        IfOk result (λ _. IsReplyTo packet.old packet.new) }
{
    let (addresses, header_len, len) = ipv4_request(packet)?;
    if !is_host_ipv4(source.unwrap_or(addresses.destination)) {
        return Err(AnswerEchoError::ReplySource);
    }
    let len = remove_options(packet, &addresses, header_len, len);
    reply_ipv4(packet, &addresses, len, source, time_to_live);
    Ok(usize::from(len))
}

/// Turns an echo request without options into its reply. It has the addresses `between`, and `len` is its length.
#[inline(always)]
fn reply_ipv4(
    packet: &mut [u8],
    between: &Ipv4Header,
    len: u16,
    passed: Option<[u8; 4]>,
    time_to_live: u8,
)
    requires request { IsPlainRequest packet.old }
    requires addresses { between.now ≡ ipv4_header_of packet.old }
    requires len { len ≡ counted_len false packet.old }
    ensures answered { packet.new ≡ plain_reply (unwrap_or passed (slice_range packet.old 16 20)) time_to_live packet.old }
    ensures read { IsReadAs packet.new
        (addresses.Ipv4 (unwrap_or passed (slice_range packet.old 16 20)) (slice_range packet.old 12 16))
        (headers.Icmpv4 (icmpv4_reply_to (message_after 20 packet.old))) (drop echo_header_len (message_after 20 packet.old)) }
    ensures verifies { Verifies [] (header_bytes packet.new) }
    // The packet becomes the reply to any request with these addresses and this message.
    ensures replies { (request : List ℕ) → MayAnswerIpv4 (slice_range packet.old 16 20) (unwrap_or passed (slice_range packet.old 16 20)) →
        CarriesIcmp request (addresses.Ipv4 (slice_range packet.old 12 16) (slice_range packet.old 16 20)) (message_after 20 packet.old) →
        IsReplyTo request packet.new }
{
    let source = passed.unwrap_or(between.destination);
    let checksum = reply_header_checksum(&packet[..IPV4_LEN], time_to_live, passed);
    let reply = icmpv4_reply_to(&packet[IPV4_LEN..usize::from(len)]);
    let start = ipv4_reply_start(packet);
    let destination = between.source;
    let middle = ipv4_middle(time_to_live, ip_number::ICMP, checksum);
    let ip_header = ipv4_fields(start, middle, source, destination);
    let header = reply.to_bytes();
    let front: [u8; ECHOED_AT] = [header[0], header[1], header[2], header[3]];
    replace_front(packet, &ip_header, front);
}

/// Turns the echo request in an IPv6 packet into its reply (RFC 4443, section 4.2). Returns the length of the reply in bytes, which is the
/// length of the request. The bytes after the packet are not changed.
///
/// The reply goes to the source of the request. Its source is the passed address, or the destination of the request if `None` is passed. It
/// has the passed hop limit, the type of a reply, and the right checksum. All other fields, among them traffic class and flow label, and
/// the payload are those of the request.
///
/// # Errors
///
/// The call checks these cases, in this order, and changes nothing after an error:
/// - `Ip` if `transport_in_ip` refuses the packet.
/// - `NoEchoRequest` for an IPv4 packet.
/// - `Fragment` for a fragment, `NoEchoRequest` for another protocol, and `Options` if the message does not begin after 40 bytes.
/// - `Len` if `Icmpv6Slice::from_slice` refuses the message, `NoEchoRequest` if the message is no echo request, and `Checksum` if its
///   checksum is wrong.
/// - `RequestSource` if the source of the request is the unspecified address, ::1 or a multicast address.
/// - `ReplySource` if the source of the reply is an address that `RequestSource` lists.
pub fn answer_echo_ipv6(
    packet: &mut [u8],
    source: Option<[u8; 16]>,
    hop_limit: u8,
) -> Result<usize, AnswerEchoError>
    ensures refused { RefusesExactly result (ipv6_answer_refusal source packet.old) }
    ensures unchanged { IfErr result (λ _. packet.new ≡ packet.old) }
    ensures len { IfOk result (λ len. len ≡ counted_len false packet.old) }
    ensures answered { IfOk result (λ _. packet.new ≡ ipv6_reply (unwrap_or source (slice_range packet.old 24 40)) hop_limit packet.old) }
    // The reply has the identifier, the sequence number and the payload of the request, and its checksum is right.
    ensures read { IfOk result (λ _. IsReadAs packet.new
        (addresses.Ipv6 (unwrap_or source (slice_range packet.old 24 40)) (Some (slice_range packet.old 8 24)))
        (headers.Icmpv6 (icmpv6_reply_to (unwrap_or source (slice_range packet.old 24 40)) (slice_range packet.old 8 24)
        (ipv6_message packet.old))) (drop echo_header_len (ipv6_message packet.old))) }
    // `is_reply_to` recognises the reply, if the source of the reply may answer for the destination of the request.
    ensures replies { MayAnswerIpv6 (slice_range packet.old 24 40) (unwrap_or source (slice_range packet.old 24 40)) →
        IfOk result (λ _. IsReplyTo packet.old packet.new) }
{
    let (addresses, len) = ipv6_request(packet)?;
    let passed = source;
    let source = passed.unwrap_or(addresses.destination);
    if !is_host_ipv6(source) {
        return Err(AnswerEchoError::ReplySource);
    }
    let reply = icmpv6_reply_to(&addresses, passed, &packet[IPV6_LEN..len]);
    let mut start = [0; 6];
    start.copy_from_slice(&packet[..6]);
    let destination = addresses.source;
    let ip_header = ipv6_header(start, ip_number::IPV6_ICMP, hop_limit, source, destination);
    let header = reply.to_bytes();
    let front: [u8; ECHOED_AT] = [header[0], header[1], header[2], header[3]];
    replace_front(packet, &ip_header, front);
    Ok(len)
}

/// The place of the bytes that a reply repeats, in bytes from the start of the message. These are the identifier, the sequence number and
/// the payload (RFC 792; RFC 4443, section 4.2).
const ECHOED_AT: usize = IcmpEchoHeader::ID_AT;

/// Writes the IP header and the start of the ICMP header to the front of the packet.
fn replace_front(packet: &mut [u8], ip_header: &[u8], start: [u8; ECHOED_AT])
    requires room { length ip_header.now + 4 ≤ length packet.old }
    ensures { packet.new ≡ ip_header.now ++ (start ++ drop (length ip_header.now + 4) packet.old) }
{
    let (first, message) = packet.split_at_mut(ip_header.len());
    first.copy_from_slice(ip_header);
    replace_start(message, start);
}

/// Writes the start of the ICMP header to the front of the message.
// perf: each byte is assigned by itself. A copy of four bytes reads them as one word, which waits until each is in memory (27 Nov 2026).
#[inline(always)]
fn replace_start(message: &mut [u8], start: [u8; ECHOED_AT])
    requires { 4 ≤ length message.old }
    ensures { message.new ≡ start ++ drop 4 message.old }
{
    message[0] = start[0];
    message[1] = start[1];
    message[2] = start[2];
    message[3] = start[3];
}

// ---- the request

/// The addresses, the length of the header and the length of an IPv4 packet that contains an echo request.
fn ipv4_request(packet: &[u8]) -> Result<(Ipv4Header, usize, u16), AnswerEchoError>
    ensures refused { RefusesExactly result (specs.ipv4_request_refusal packet.now) }
    ensures addresses { IfOk result (λ request. request.0 ≡ ipv4_header_of packet.now) }
    ensures header_len { IfOk result (λ request. request.1 ≡ ipv4_header_len packet.now) }
    ensures len { IfOk result (λ request. request.2 ≡ counted_len false packet.now) }
    ensures request { IfOk result (λ _. IsIpv4Request packet.now) }
    ensures carried { IfOk result (λ _. CarriesIcmp packet.now
        (addresses.Ipv4 (slice_range packet.now 12 16) (slice_range packet.now 16 20)) (ipv4_message packet.now)) }
{
    let found = find_transport(packet)?;
    let Some(header) = Ipv4HeaderSlice::from_slice(packet) else {
        return Err(AnswerEchoError::NoEchoRequest);
    };
    let header_len = header.slice().len();
    check_transport(&found, ip_number::ICMP, header_len)?;
    if !are_padding(header.options()) {
        return Err(AnswerEchoError::Options);
    }
    check_icmpv4(found.payload)?;
    if !header.is_checksum_valid() {
        return Err(AnswerEchoError::HeaderChecksum);
    }
    let addresses = header.to_header();
    if !is_host_ipv4(addresses.source) {
        return Err(AnswerEchoError::RequestSource);
    }
    Ok((addresses, header_len, header.total_len()))
}

/// The addresses and the length of an IPv6 packet that contains an echo request.
fn ipv6_request(packet: &[u8]) -> Result<(Ipv6Header, usize), AnswerEchoError>
    ensures refused { RefusesExactly result (specs.ipv6_request_refusal packet.now) }
    ensures addresses { IfOk result (λ request. request.0 ≡ ipv6_header_of packet.now) }
    ensures len { IfOk result (λ request. request.1 ≡ counted_len false packet.now) }
    ensures request { IfOk result (λ _. IsIpv6Request packet.now) }
    ensures carried { IfOk result (λ _. CarriesIcmp packet.now
        (addresses.Ipv6 (slice_range packet.now 8 24) (Some (slice_range packet.now 24 40))) (ipv6_message packet.now)) }
{
    let found = find_transport(packet)?;
    let Some(header) = Ipv6HeaderSlice::from_slice(packet) else {
        return Err(AnswerEchoError::NoEchoRequest);
    };
    let addresses = header.to_header();
    check_transport(&found, ip_number::IPV6_ICMP, IPV6_LEN)?;
    check_icmpv6(&addresses, found.payload)?;
    if !is_host_ipv6(addresses.source) {
        return Err(AnswerEchoError::RequestSource);
    }
    Ok((addresses, IPV6_LEN + found.payload.len()))
}

/// Finds the transport in an IP packet.
#[inline(always)]
fn find_transport(packet: &[u8]) -> Result<TransportInIp<'_>, AnswerEchoError>
    ensures refused { RefusesExactly result (option_map Ip (refusal packet.now)) }
    ensures accepted { IfOk result (λ _. refusal packet.now ≡ None) }
    ensures found { IfOk result (λ transport. Carries packet.now transport) }
    ensures whole { IfOk result (λ transport. transport.is_cut_off ≡ false) }
    ensures stated { IfOk result (λ transport. transport.is_length_missing ≡ false) }
    ensures parts { IfOk result (λ transport. IsAfterHeaders packet.now transport) }
    ensures over_ipv4 { version packet.now ≡ 4 → IfOk result (λ transport. IsOverIpv4 packet.now transport) }
{
    match transport_in_ip(packet) {
        Ok(found) => Ok(found),
        Err(error) => Err(AnswerEchoError::Ip(error)),
    }
}

/// Refuses a transport, unless it is a whole message of this protocol directly after an IP header of this length.
fn check_transport(
    found: &TransportInIp<'_>,
    protocol: IpNumber,
    header_len: usize,
) -> Result<(), AnswerEchoError>
    ensures { RefusesExactly result
        (transport_refusal protocol.0 header_len found.now.is_fragment found.now.protocol.0 found.now.payload_offset) }
{
    if found.is_fragment {
        return Err(AnswerEchoError::Fragment);
    }
    if found.protocol != protocol {
        return Err(AnswerEchoError::NoEchoRequest);
    }
    if found.payload_offset != header_len {
        return Err(AnswerEchoError::Options);
    }
    Ok(())
}

/// Refuses an ICMPv4 message, unless it is an echo request with a right checksum.
fn check_icmpv4(message: &[u8]) -> Result<(), AnswerEchoError>
    ensures { RefusesExactly result (icmpv4_refusal message.now) }
{
    let message = match Icmpv4Slice::from_slice(message) {
        Ok(message) => message,
        Err(error) => return Err(AnswerEchoError::Len(error)),
    };
    if message.type_u8() != icmpv4::TYPE_ECHO_REQUEST || message.code_u8() != 0 {
        return Err(AnswerEchoError::NoEchoRequest);
    }
    if !message.is_checksum_valid() {
        return Err(AnswerEchoError::Checksum);
    }
    Ok(())
}

/// Refuses an ICMPv6 message, unless it is an echo request with a right checksum.
fn check_icmpv6(addresses: &Ipv6Header, message: &[u8]) -> Result<(), AnswerEchoError>
    ensures { RefusesExactly result (icmpv6_refusal addresses.now.source addresses.now.destination message.now) }
{
    let message = match Icmpv6Slice::from_slice(message) {
        Ok(message) => message,
        Err(error) => return Err(AnswerEchoError::Len(error)),
    };
    if message.type_u8() != icmpv6::TYPE_ECHO_REQUEST || message.code_u8() != 0 {
        return Err(AnswerEchoError::NoEchoRequest);
    }
    if !message.is_checksum_valid(addresses.source, addresses.destination) {
        return Err(AnswerEchoError::Checksum);
    }
    Ok(())
}

/// Whether this is an address of several hosts: the limited broadcast address or a multicast address.
pub(crate) fn is_group_ipv4(address: [u8; 4]) -> bool
    ensures { result ≡ specs.is_group_ipv4 address }
{
    u32::from_be_bytes(address) == u32::MAX || address[0] >> 4 == 0b1110
}

/// Whether this is an address of several hosts: a multicast address.
pub(crate) fn is_group_ipv6(address: [u8; 16]) -> bool
    ensures { result ≡ specs.is_group_ipv6 address }
{
    address[0] == 0xff
}

/// The first byte of a loopback address of IPv4.
const IPV4_LOOPBACK_START: u8 = 127;

/// The loopback address of IPv6, ::1.
const IPV6_LOOPBACK: u128 = 1;

/// Whether this is the address of one host: neither the unspecified address, nor a loopback address, nor an address of several hosts.
pub(crate) fn is_host_ipv4(address: [u8; 4]) -> bool
    ensures { result ≡ specs.is_host_ipv4 address }
{
    u32::from_be_bytes(address) != 0
        && (address[0] != IPV4_LOOPBACK_START && !is_group_ipv4(address))
}

/// Whether this is the address of one host: neither the unspecified address, nor the loopback address, nor an address of several hosts.
pub(crate) fn is_host_ipv6(address: [u8; 16]) -> bool
    ensures { result ≡ specs.is_host_ipv6 address }
{
    let number = u128::from_be_bytes(address);
    number != 0 && (number != IPV6_LOOPBACK && !is_group_ipv6(address))
}

// ---- the reply

/// The first eight bytes of the reply to an IPv4 packet. They end with the flags and the fragment offset.
fn ipv4_reply_start(packet: &[u8]) -> [u8; 8]
    requires there { 6 ≤ length packet.now }
    ensures { result ≡ specs.ipv4_reply_start packet.now }
{
    let mut start = [0; 8];
    start[..FLAGS_AT].copy_from_slice(&packet[..FLAGS_AT]);
    start[FLAGS_AT] = DONT_FRAGMENT;
    start
}

/// The place of the flags, in bytes from the start of an IPv4 header (RFC 791, section 3.1).
const FLAGS_AT: usize = 6;

/// The flag "don't fragment" in the byte of the flags.
const DONT_FRAGMENT: u8 = 0x40;

/// The checksum of the IPv4 header of the reply, computed from the header of the request (RFC 1624). Flags and time to live change. The
/// source of the reply is the passed address, or the destination of the request.
// perf: the update takes about 30 instructions less than the sum of the new header (27 Nov 2026).
fn reply_header_checksum(header: &[u8], time_to_live: u8, source: Option<[u8; 4]>) -> u16
    requires len { length header.now ≡ 20 }
    requires accepted { Verifies [] header.now }
    ensures { result ≡ checksum_of (total
        (ipv4_fields (specs.ipv4_reply_start header.now) time_to_live icmpv4_number (unwrap_or source (slice_range header.now 16 20))
        (slice_range header.now 12 16) 0)) }
{
    let old = [
        header[FLAGS_AT],
        header[FLAGS_AT + 1],
        header[IPV4_TIME_TO_LIVE_AT],
        header[IPV4_PROTOCOL_AT],
    ];
    let new = [DONT_FRAGMENT, 0, time_to_live, ip_number::ICMP.0];
    let mut destination = [0; 4];
    destination.copy_from_slice(&header[IPV4_DESTINATION_AT..]);
    let checksum = [header[IPV4_CHECKSUM_AT], header[IPV4_CHECKSUM_AT + 1]];
    let change = ChecksumChange::new().replace_4bytes(old, new);
    let change = replace_ipv4_if_passed(change, destination, source);
    change.apply(u16::from_be_bytes(checksum))
}

/// Adds the replacement of the old address to the change, if a new address is passed.
fn replace_ipv4_if_passed(
    change: ChecksumChange,
    old: [u8; 4],
    new: Option<[u8; 4]>,
) -> ChecksumChange
    ensures extends { IsExtendedBy change old (unwrap_or new old) result }
    ensures some { added_value change ≢ 0 → added_value result ≢ 0 }
{
    match new {
        Some(new) => change.replace_4bytes(old, new),
        None => change,
    }
}

/// The header of the reply to this request. Its checksum is updated, since only the type changes (RFC 1624). If all other bytes of the
/// reply are 0, its checksum is 65535, but the update gives 0.
fn icmpv4_reply_to(request: &[u8]) -> Icmpv4Header
    requires accepted { icmpv4_refusal request.now ≡ None }
    ensures header { result ≡ specs.icmpv4_reply_to request.now }
    // The identifier, the sequence number and the payload are those of the request.
    ensures echoed { echoed (icmpv4_wire (specs.icmpv4_reply_to request.now) ++ drop echo_header_len request.now) ≡ echoed request.now }
{
    let echo = IcmpEchoHeader::from_bytes([request[4], request[5], request[6], request[7]]);
    let old = [icmpv4::TYPE_ECHO_REQUEST, 0];
    let change = ChecksumChange::new().replace_2bytes(old, [icmpv4::TYPE_ECHO_REPLY, 0]);
    let checksum = change.apply(u16::from_be_bytes([request[2], request[3]]));
    let icmp_type = Icmpv4Type::EchoReply(echo);
    if checksum == 0 {
        return Icmpv4Header::with_checksum(icmp_type, &request[Icmpv4Header::MIN_LEN..]);
    }
    Icmpv4Header {
        icmp_type,
        checksum,
    }
}

/// The header of the reply to this request. The source of the reply is the passed address, or the destination of the request. The checksum
/// is updated, since only the type and perhaps the address change (RFC 1624).
fn icmpv6_reply_to(addresses: &Ipv6Header, source: Option<[u8; 16]>, request: &[u8]) -> Icmpv6Header
    requires accepted { icmpv6_refusal addresses.now.source addresses.now.destination request.now ≡ None }
    ensures header { result ≡ specs.icmpv6_reply_to (unwrap_or source addresses.now.destination) addresses.now.source request.now }
    // The identifier, the sequence number and the payload are those of the request.
    ensures echoed { echoed (icmpv6_wire (specs.icmpv6_reply_to (unwrap_or source addresses.now.destination) addresses.now.source request.now)
        ++ drop echo_header_len request.now) ≡ echoed request.now }
{
    let echo = IcmpEchoHeader::from_bytes([request[4], request[5], request[6], request[7]]);
    let old = [icmpv6::TYPE_ECHO_REQUEST, 0];
    let change = ChecksumChange::new().replace_2bytes(old, [icmpv6::TYPE_ECHO_REPLY, 0]);
    let change = replace_ipv6_if_passed(change, addresses.destination, source);
    Icmpv6Header {
        icmp_type: Icmpv6Type::EchoReply(echo),
        checksum: change.apply(u16::from_be_bytes([request[2], request[3]])),
    }
}

/// Adds the replacement of the old address to the change, if a new address is passed.
fn replace_ipv6_if_passed(
    change: ChecksumChange,
    old: [u8; 16],
    new: Option<[u8; 16]>,
) -> ChecksumChange
    ensures extends { IsExtendedBy change old (unwrap_or new old) result }
    ensures some { added_value change ≢ 0 → added_value result ≢ 0 }
{
    match new {
        Some(new) => change.replace_16bytes(old, new),
        None => change,
    }
}
