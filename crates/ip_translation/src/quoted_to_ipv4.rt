ghost use Rattle.std.specs.Prelude.{◌≡◌, ◌≤◌, ◌+◌, IfOk, Ok, false, length, true};
ghost use Rattle.std.specs.Option.{option_map};
ghost use Rattle.net_base.specs.PseudoHeader.{max_len_over_ipv4};
ghost use Rattle.net_base.specs.Refusals.{RefusesExactly};
ghost use Rattle.ip_translation.specs.Fragments.{is_later};
ghost use Rattle.ip_translation.specs.HeadersToIpv4 as headers;
ghost use Rattle.ip_translation.specs.Ipv6Packets.{begins_with_header, skipped_in};
ghost use Rattle.ip_translation.specs.QuotedPackets.{max_packet_len, max_quoted_len};
ghost use Rattle.ip_translation.specs.QuotedToIpv4 as specs;
ghost use Rattle.ip_translation.specs.declared.packet_translation_error.PacketTranslationError.TheVariants.{QuotedHeader};

use crate::echo_translation::{
    check_quoted_ipv6_echo, icmpv6_pseudo_header, type_over_ipv4, write_echo,
};
use crate::extensions::first_bytes;
use crate::fragment_fields::FragmentFields;
use crate::header_translation::IPV6_LEN;
use crate::ipv4_header_translation::quoted_header_to_ipv4;
use crate::message_translation::{TCP_CHECKSUM_AT, UDP_LEN, check_header_len};
use crate::packet_to_ipv4::{check_protocol_of_part, fields_or, header_counting, whole_header};
use crate::quoted_packet::{MAX_PACKET_LEN, MAX_QUOTED_LEN, packet_of};
use crate::skipped_headers::{SkippedHeaders, headers_before};
use crate::updated_message::{write_updated_tcp, write_updated_udp};
use crate::{PacketTranslationError, Prefixes, TranslationError, pseudo_header_change_to_ipv4};
use arrayvec::ArrayVec;
use net_base::{IpNumber, Ipv6HeaderSlice, ip_number};

/// Translates a packet that an ICMPv6 error quotes, with this header (RFC 7915, section 5.3). `quote` is the bytes of the packet that are
/// there. Its extension headers are skipped, and a fragment header becomes the fields of a fragment.
pub(crate) fn quoted_to_ipv4(
    header: &Ipv6HeaderSlice<'_>,
    quote: &[u8],
    prefixes: &Prefixes,
) -> Result<ArrayVec<u8, MAX_PACKET_LEN>, PacketTranslationError>
    ensures refused { RefusesExactly result (specs.quoted_refusal prefixes.now header.now quote.now) }
    ensures written { IfOk result (λ packet. packet.items ≡ specs.quoted_packet prefixes.now header.now quote.now) }
    ensures there { IfOk result (λ packet. 20 ≤ length packet.items) }
    ensures counted { IfOk result (λ packet. length packet.items ≤ max_packet_len) }
{
    let payload = quoted_payload(header, quote);
    let skipped = extension_headers(header, payload)?;
    let direct = direct_header(header, skipped);
    let message = first_bytes(&payload[skipped.len..], MAX_QUOTED_LEN);
    let fields = fields_or(skipped.fragment, 0);
    translate_direct(&whole_header(direct.as_slice()), message, prefixes, fields)
}

/// The quoted bytes after this header that its payload length counts.
fn quoted_payload<'a>(header: &Ipv6HeaderSlice<'_>, quote: &'a [u8]) -> &'a [u8]
    ensures bytes { result.now ≡ specs.quoted_payload header.now quote.now }
    ensures counted { length result.now ≤ headers.payload_len header.now }
    ensures short { length result.now ≤ max_len_over_ipv4 }
{
    let counted = first_bytes(quote, IPV6_LEN + usize::from(header.payload_length()));
    let start = IPV6_LEN.min(counted.len());
    &counted[start..]
}

/// The extension headers between this header and the message in this payload. Refuses a header that is not translated, or that ends after
/// the quote.
fn extension_headers(
    header: &Ipv6HeaderSlice<'_>,
    payload: &[u8],
) -> Result<SkippedHeaders, PacketTranslationError>
    requires short { length payload.now ≤ max_len_over_ipv4 }
    ensures refused { RefusesExactly result (specs.extension_refusal header.now (skipped_in header.now payload.now)) }
    ensures skipped { IfOk result (λ skipped. skipped_in header.now payload.now ≡ Ok skipped) }
    ensures within { IfOk result (λ skipped. skipped.len ≤ length payload.now) }
{
    let number = header.next_header().0;
    match headers_before(number, payload) {
        Ok(skipped) => Ok(skipped),
        Err(_) => {
            let error = TranslationError::ExtensionHeader(number);
            Err(PacketTranslationError::QuotedHeader(error))
        }
    }
}

/// The header of the quoted packet without these extension headers.
fn direct_header(header: &Ipv6HeaderSlice<'_>, skipped: SkippedHeaders) -> ArrayVec<u8, IPV6_LEN>
    requires within { skipped.len ≤ headers.payload_len header.now }
    ensures bytes { result.items ≡ specs.direct_header header.now skipped }
    ensures len { length result.items ≡ 40 }
    ensures front { begins_with_header result.items ≡ true }
{
    let len = header.payload_length() - skipped.len as u16;
    header_counting(header, skipped.number, len)
}

/// Translates a quoted packet that consists of this header and this message, or a part of a message.
fn translate_direct(
    header: &Ipv6HeaderSlice<'_>,
    message: &[u8],
    prefixes: &Prefixes,
    fields: FragmentFields,
) -> Result<ArrayVec<u8, MAX_PACKET_LEN>, PacketTranslationError>
    requires counted { length message.now ≤ max_quoted_len }
    ensures refused { RefusesExactly result (specs.direct_refusal prefixes.now fields.flags_and_offset header.now message.now) }
    ensures written { IfOk result (λ packet. packet.items ≡ specs.direct_packet prefixes.now fields header.now message.now) }
    ensures there { IfOk result (λ packet. 20 ≤ length packet.items) }
    ensures counted { IfOk result (λ packet. length packet.items ≤ max_packet_len) }
{
    let front = quoted_header(header, prefixes, fields)?;
    check_message(header.next_header(), message, fields)?;
    let mut room = [0; MAX_QUOTED_LEN];
    let translated = &mut room[..message.len()];
    write_message(translated, message, header, prefixes, fields);
    Ok(packet_of(front.as_slice(), translated))
}

/// The IPv4 header for the header of a quoted packet.
fn quoted_header(
    header: &Ipv6HeaderSlice<'_>,
    prefixes: &Prefixes,
    fields: FragmentFields,
) -> Result<ArrayVec<u8, 20>, PacketTranslationError>
    ensures refused { RefusesExactly result (option_map QuotedHeader (headers.quoted_header_refusal prefixes.now header.now)) }
    ensures written { IfOk result (λ translated. translated.items ≡ headers.quoted_header prefixes.now fields header.now) }
    ensures len { IfOk result (λ translated. length translated.items ≡ 20) }
{
    match quoted_header_to_ipv4(header, prefixes, fields) {
        Ok(translated) => Ok(translated),
        Err(error) => Err(PacketTranslationError::QuotedHeader(error)),
    }
}

/// Refuses the message, or the part of a message, of a quoted packet if it has no translation.
fn check_message(
    protocol: IpNumber,
    message: &[u8],
    fields: FragmentFields,
) -> Result<(), PacketTranslationError>
    ensures refused { RefusesExactly result (specs.message_refusal fields.flags_and_offset protocol.0 message.now) }
    ensures there { IfOk result (λ _. is_later fields.flags_and_offset ≡ false → specs.HasQuotedHeader protocol.0 message.now) }
{
    if fields.is_part() {
        return check_part(protocol, message, fields);
    }
    check_quoted_message(protocol, message)
}

/// Refuses the part of a message in a quoted fragment if it has no translation.
fn check_part(
    protocol: IpNumber,
    message: &[u8],
    fields: FragmentFields,
) -> Result<(), PacketTranslationError>
    ensures refused { RefusesExactly result (specs.part_refusal fields.flags_and_offset protocol.0 message.now) }
    ensures there { IfOk result (λ _. is_later fields.flags_and_offset ≡ false → specs.HasQuotedHeader protocol.0 message.now) }
{
    check_protocol_of_part(protocol)?;
    if fields.is_later() {
        return Ok(());
    }
    check_quoted_message(protocol, message)
}

/// Refuses a quoted message that is too short, or is no echo message of ICMPv6.
fn check_quoted_message(protocol: IpNumber, message: &[u8]) -> Result<(), PacketTranslationError>
    ensures refused { RefusesExactly result (specs.quoted_message_refusal protocol.0 message.now) }
    ensures there { IfOk result (λ _. specs.HasQuotedHeader protocol.0 message.now) }
{
    if protocol.0 == ip_number::IPV6_ICMP.0 {
        return check_quoted_ipv6_echo(message);
    }
    if protocol.0 == ip_number::UDP.0 || protocol.0 == ip_number::TCP.0 {
        return check_header_len(message, UDP_LEN);
    }
    Ok(())
}

/// Writes the translation of a quoted message, or of its part. The bytes of a later fragment are unchanged.
fn write_message(
    translated: &mut [u8],
    message: &[u8],
    header: &Ipv6HeaderSlice<'_>,
    prefixes: &Prefixes,
    fields: FragmentFields,
)
    requires room { length translated.old ≡ length message.now }
    requires there { is_later fields.flags_and_offset ≡ false → specs.HasQuotedHeader (headers.next_header header.now) message.now }
    ensures { translated.new ≡ specs.translated_message prefixes.now fields.flags_and_offset header.now message.now }
{
    if fields.is_later() {
        translated.copy_from_slice(message);
        return;
    }
    write_quote(translated, message, header, prefixes);
}

/// Writes the translation of a quoted message.
fn write_quote(
    translated: &mut [u8],
    message: &[u8],
    header: &Ipv6HeaderSlice<'_>,
    prefixes: &Prefixes,
)
    requires room { length translated.old ≡ length message.now }
    requires there { specs.HasQuotedHeader (headers.next_header header.now) message.now }
    ensures { translated.new ≡ specs.translated_quote prefixes.now header.now message.now }
{
    if header.next_header().0 == ip_number::IPV6_ICMP.0 {
        write_quoted_icmp(translated, message, header);
        return;
    }
    if header.next_header().0 == ip_number::UDP.0 {
        let change = pseudo_header_change_to_ipv4(header, prefixes);
        write_updated_udp(translated, message, change);
        return;
    }
    if header.next_header().0 == ip_number::TCP.0 {
        write_quoted_tcp(translated, message, header, prefixes);
        return;
    }
    translated.copy_from_slice(message);
}

/// Writes a quoted TCP segment. Its checksum is updated if it is there.
fn write_quoted_tcp(
    translated: &mut [u8],
    message: &[u8],
    header: &Ipv6HeaderSlice<'_>,
    prefixes: &Prefixes,
)
    requires room { length translated.old ≡ length message.now }
    ensures { translated.new ≡ specs.quoted_tcp prefixes.now header.now message.now }
{
    if message.len() < TCP_CHECKSUM_AT + 2 {
        translated.copy_from_slice(message);
        return;
    }
    let change = pseudo_header_change_to_ipv4(header, prefixes);
    write_updated_tcp(translated, message, change);
}

/// Writes a quoted echo message. Its old pseudo header contains the length of the whole message.
fn write_quoted_icmp(translated: &mut [u8], message: &[u8], header: &Ipv6HeaderSlice<'_>)
    requires room { length translated.old ≡ length message.now }
    requires there { 8 ≤ length message.now }
    ensures { translated.new ≡ specs.quoted_icmp header.now message.now }
{
    let type_u8 = type_over_ipv4(message[0]).unwrap_or(message[0]);
    let len = u32::from(header.payload_length());
    let old = icmpv6_pseudo_header(header.source(), header.destination(), len);
    write_echo(translated, message, type_u8, old.as_slice(), &[]);
}
