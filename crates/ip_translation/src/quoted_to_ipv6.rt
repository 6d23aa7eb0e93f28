ghost use Rattle.std.specs.Prelude.{◌≡◌, ◌≤◌, ◌+◌, IfOk, false, length};
ghost use Rattle.std.specs.Option.{option_map};
ghost use Rattle.net_base.specs.IpHeaders.{ipv4_header_len};
ghost use Rattle.net_base.specs.Refusals.{RefusesExactly};
ghost use Rattle.ip_translation.specs.FragmentHeaders.{is_later};
ghost use Rattle.ip_translation.specs.HeadersToIpv4.{max_payload_len};
ghost use Rattle.ip_translation.specs.HeadersToIpv6 as headers;
ghost use Rattle.ip_translation.specs.QuotedPackets.{max_packet_len, max_quoted_len};
ghost use Rattle.ip_translation.specs.QuotedToIpv6 as specs;
ghost use Rattle.ip_translation.specs.declared.packet_translation_error.PacketTranslationError.TheVariants.{QuotedHeader};

use crate::echo_translation::{
    check_quoted_echo, icmpv6_pseudo_header, type_over_ipv6, write_echo,
};
use crate::extensions::first_bytes;
use crate::fragment_to_ipv6::{HEADERS_LEN, check_protocol_of_part, headers_with, is_later};
use crate::header_translation::{header_with, quoted_payload_len};
use crate::message_translation::{TCP_CHECKSUM_AT, UDP_LEN, check_header_len};
use crate::quoted_packet::{MAX_PACKET_LEN, MAX_QUOTED_LEN, packet_of};
use crate::updated_message::{write_updated_tcp, write_updated_udp};
use crate::{PacketTranslationError, Prefixes, pseudo_header_change};
use arrayvec::ArrayVec;
use net_base::{IpNumber, Ipv4HeaderSlice, ip_number};

/// Translates a packet that an ICMP error quotes, with this header (RFC 7915, section 4.3). `quote` is the bytes of the packet that are
/// there.
pub(crate) fn quoted_to_ipv6(
    header: &Ipv4HeaderSlice<'_>,
    quote: &[u8],
    prefixes: &Prefixes,
) -> Result<ArrayVec<u8, MAX_PACKET_LEN>, PacketTranslationError>
    requires long { 20 ≤ ipv4_header_len header.now }
    ensures refused { RefusesExactly result (specs.quoted_refusal prefixes.now header.now quote.now) }
    ensures written { IfOk result (λ packet. packet.items ≡ specs.quoted_packet prefixes.now header.now quote.now) }
    ensures there { IfOk result (λ packet. 40 ≤ length packet.items) }
    ensures counted { IfOk result (λ packet. length packet.items ≤ max_packet_len) }
{
    let front = quoted_headers(header, prefixes)?;
    let message = quoted_message(header, quote)?;
    let mut room = [0; MAX_QUOTED_LEN];
    let translated = &mut room[..message.len()];
    write_message(translated, message, header, prefixes);
    Ok(packet_of(front.as_slice(), translated))
}

/// The headers of the translated packet. Refuses a header that has no translation.
fn quoted_headers(
    header: &Ipv4HeaderSlice<'_>,
    prefixes: &Prefixes,
) -> Result<ArrayVec<u8, HEADERS_LEN>, PacketTranslationError>
    requires long { 20 ≤ ipv4_header_len header.now }
    ensures refused { RefusesExactly result (option_map QuotedHeader (headers.quoted_header_refusal prefixes.now header.now)) }
    ensures written { IfOk result (λ front. front.items ≡ specs.quoted_headers prefixes.now header.now) }
    ensures len { IfOk result (λ front. length front.items ≡ specs.quoted_headers_len header.now) }
    ensures shortest { IfOk result (λ front. 40 ≤ length front.items) }
    ensures total_len { IfOk result (λ _. ipv4_header_len header.now ≤ headers.total_len header.now) }
{
    match quoted_payload_len(header, prefixes) {
        Ok(payload_len) => Ok(headers_for(header, prefixes, payload_len)),
        Err(error) => Err(PacketTranslationError::QuotedHeader(error)),
    }
}

/// The headers of the translated packet, with this length of the payload: an IPv6 header, and a fragment header if the packet is a
/// fragment.
fn headers_for(
    header: &Ipv4HeaderSlice<'_>,
    prefixes: &Prefixes,
    payload_len: u16,
) -> ArrayVec<u8, HEADERS_LEN>
    requires short { payload_len ≤ max_payload_len }
    requires same { payload_len ≡ headers.payload_len header.now }
    ensures written { result.items ≡ specs.quoted_headers prefixes.now header.now }
    ensures len { length result.items ≡ specs.quoted_headers_len header.now }
    ensures shortest { 40 ≤ length result.items }
{
    if header.is_fragmenting_payload() {
        return headers_with(header, prefixes, payload_len, header.ttl());
    }
    let ipv6_header = header_with(header, prefixes, payload_len, header.ttl());
    let mut front = ArrayVec::new();
    front.try_extend_from_slice(ipv6_header.as_slice()).unwrap();
    front
}

/// The bytes of the quoted message that the ICMPv6 error has room for. Refuses a message that has no translation.
fn quoted_message<'a>(
    header: &Ipv4HeaderSlice<'_>,
    quote: &'a [u8],
) -> Result<&'a [u8], PacketTranslationError>
    requires ordered { ipv4_header_len header.now ≤ headers.total_len header.now }
    ensures refused { RefusesExactly result (specs.message_refusal header.now (specs.quoted_message header.now quote.now)) }
    ensures bytes { IfOk result (λ bytes. bytes.now ≡ specs.quoted_message header.now quote.now) }
    ensures counted { IfOk result (λ bytes. length bytes.now ≤ specs.message_room header.now) }
    ensures short { IfOk result (λ bytes. length bytes.now ≤ max_quoted_len) }
    ensures there { IfOk result (λ bytes. is_later header.now ≡ false → specs.HasQuotedHeader (headers.protocol header.now) bytes.now) }
{
    let bytes = counted_bytes(header, quote);
    check_message(header, bytes)?;
    Ok(bytes)
}

/// The bytes of the quoted message, up to the total length and to the length that the ICMPv6 error has room for.
fn counted_bytes<'a>(header: &Ipv4HeaderSlice<'_>, quote: &'a [u8]) -> &'a [u8]
    ensures bytes { result.now ≡ specs.quoted_message header.now quote.now }
    ensures counted { length result.now ≤ specs.message_room header.now }
    ensures short { length result.now ≤ max_quoted_len }
{
    let counted = first_bytes(quote, usize::from(header.total_len()));
    let start = (usize::from(header.ihl()) * 4).min(counted.len());
    first_bytes(&counted[start..], message_room(header))
}

/// The greatest length of the quoted message, in bytes.
fn message_room(header: &Ipv4HeaderSlice<'_>) -> usize
    ensures room { result ≡ specs.message_room header.now }
    ensures greatest { result ≤ max_quoted_len }
{
    if header.is_fragmenting_payload() {
        MAX_PACKET_LEN - HEADERS_LEN
    } else {
        MAX_QUOTED_LEN
    }
}

/// Refuses the message, or the part of a message, of a quoted packet if it has no translation.
fn check_message(header: &Ipv4HeaderSlice<'_>, message: &[u8]) -> Result<(), PacketTranslationError>
    ensures refused { RefusesExactly result (specs.message_refusal header.now message.now) }
    ensures there { IfOk result (λ _. is_later header.now ≡ false → specs.HasQuotedHeader (headers.protocol header.now) message.now) }
{
    if header.is_fragmenting_payload() {
        return check_part(header, message);
    }
    check_quoted_message(header.protocol(), message)
}

/// Refuses the part of a message in a quoted fragment if it has no translation.
fn check_part(header: &Ipv4HeaderSlice<'_>, message: &[u8]) -> Result<(), PacketTranslationError>
    ensures refused { RefusesExactly result (specs.part_refusal header.now message.now) }
    ensures there { IfOk result (λ _. is_later header.now ≡ false → specs.HasQuotedHeader (headers.protocol header.now) message.now) }
{
    check_protocol_of_part(header.protocol())?;
    if is_later(header) {
        return Ok(());
    }
    check_quoted_message(header.protocol(), message)
}

/// Refuses a quoted message that is too short, or is no echo message of ICMP.
fn check_quoted_message(protocol: IpNumber, message: &[u8]) -> Result<(), PacketTranslationError>
    ensures refused { RefusesExactly result (specs.quoted_message_refusal protocol.0 message.now) }
    ensures there { IfOk result (λ _. specs.HasQuotedHeader protocol.0 message.now) }
{
    if protocol.0 == ip_number::ICMP.0 {
        return check_quoted_echo(message);
    }
    if protocol.0 == ip_number::UDP.0 || protocol.0 == ip_number::TCP.0 {
        return check_header_len(message, UDP_LEN);
    }
    Ok(())
}

/// Writes the translation of a quoted message, or of its part. The bytes of a later fragment are unchanged.
fn write_message(
    translated: &mut [u8],
    message: &[u8],
    header: &Ipv4HeaderSlice<'_>,
    prefixes: &Prefixes,
)
    requires room { length translated.old ≡ length message.now }
    requires there { is_later header.now ≡ false → specs.HasQuotedHeader (headers.protocol header.now) message.now }
    requires ordered { ipv4_header_len header.now ≤ headers.total_len header.now }
    ensures { translated.new ≡ specs.translated_message prefixes.now header.now message.now }
{
    if is_later(header) {
        translated.copy_from_slice(message);
        return;
    }
    write_quote(translated, message, header, prefixes);
}

/// Writes the translation of a quoted message.
fn write_quote(
    translated: &mut [u8],
    message: &[u8],
    header: &Ipv4HeaderSlice<'_>,
    prefixes: &Prefixes,
)
    requires room { length translated.old ≡ length message.now }
    requires there { specs.HasQuotedHeader (headers.protocol header.now) message.now }
    requires ordered { ipv4_header_len header.now ≤ headers.total_len header.now }
    ensures { translated.new ≡ specs.translated_quote prefixes.now header.now message.now }
{
    if header.protocol().0 == ip_number::ICMP.0 {
        write_quoted_icmp(translated, message, header, prefixes);
        return;
    }
    if header.protocol().0 == ip_number::UDP.0 {
        let change = pseudo_header_change(header, prefixes);
        write_updated_udp(translated, message, change);
        return;
    }
    if header.protocol().0 == ip_number::TCP.0 {
        write_quoted_tcp(translated, message, header, prefixes);
        return;
    }
    translated.copy_from_slice(message);
}

/// Writes a quoted TCP segment. Its checksum is updated if it is there.
fn write_quoted_tcp(
    translated: &mut [u8],
    message: &[u8],
    header: &Ipv4HeaderSlice<'_>,
    prefixes: &Prefixes,
)
    requires room { length translated.old ≡ length message.now }
    ensures { translated.new ≡ specs.quoted_tcp prefixes.now header.now message.now }
{
    if message.len() < TCP_CHECKSUM_AT + 2 {
        translated.copy_from_slice(message);
        return;
    }
    let change = pseudo_header_change(header, prefixes);
    write_updated_tcp(translated, message, change);
}

/// Writes a quoted echo message. Its pseudo header contains the length of the whole message.
fn write_quoted_icmp(
    translated: &mut [u8],
    message: &[u8],
    header: &Ipv4HeaderSlice<'_>,
    prefixes: &Prefixes,
)
    requires room { length translated.old ≡ length message.now }
    requires there { 8 ≤ length message.now }
    requires ordered { ipv4_header_len header.now ≤ headers.total_len header.now }
    ensures { translated.new ≡ specs.quoted_icmp prefixes.now header.now message.now }
{
    let type_u8 = type_over_ipv6(message[0]).unwrap_or(message[0]);
    let source = prefixes.source.embed(header.source());
    let destination = prefixes.destination.embed(header.destination());
    let len = header.total_len() - u16::from(header.ihl()) * 4;
    let new = icmpv6_pseudo_header(source, destination, u32::from(len));
    write_echo(translated, message, type_u8, &[], new.as_slice());
}
