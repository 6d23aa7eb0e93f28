ghost use Rattle.std.specs.Prelude.{◌≡◌, ◌≢◌, ◌≤◌, ◌<◌, ◌+◌, ◌==◌, ◌++◌, ◌↔◌, [], IfErr, IfOk, IfSome, MatchOption, drop, false, length, slice_index, take, true};
ghost use Rattle.std.specs.Option.{option_map, unwrap_or};
ghost use Rattle.ip_part.specs.Ip as ip;
ghost use Rattle.net_base.specs.IpNumbers.{icmpv6_number, tcp_number, udp_number};
ghost use Rattle.net_base.specs.PseudoHeader.{max_len_over_ipv4};
ghost use Rattle.net_base.specs.Refusals.{RefusesExactly, refused_if};
ghost use Rattle.word_sum.specs.Checksum.{Verifies};
ghost use Rattle.ip_translation.specs.ErrorsToIpv4 as errors;
ghost use Rattle.ip_translation.specs.Fragments.{is_later, whole};
ghost use Rattle.ip_translation.specs.HeadersToIpv4 as headers;
ghost use Rattle.ip_translation.specs.Ipv6Packets.{header_counting};
ghost use Rattle.ip_translation.specs.PacketsToIpv4 as specs;
ghost use Rattle.ip_translation.specs.PacketsToIpv6.{VerifiesAlike, udp_checksum};
ghost use Rattle.ip_translation.specs.Payloads.{IsIpv6PayloadKept};
ghost use Rattle.ip_translation.specs.TranslatedAddresses.{HasIpv4Addresses};
ghost use Rattle.ip_translation.specs.declared.packet_translation_error.PacketTranslationError.TheVariants.{Header, IcmpFragment};

use crate::changed_message::store_changed_checksum;
use crate::echo_translation::{icmpv6_pseudo_header, type_over_ipv4, write_echo};
use crate::error_to_ipv4::error_to_ipv4;
use crate::fragment_fields::FragmentFields;
use crate::header_translation::{IPV6_LEN, ipv6_header};
use crate::ipv4_header_translation::{
    change_by_ipv4_header, header_with, is_extension, part_header_to_ipv4,
};
use crate::message_translation::{
    ICMP_LEN, TCP_LEN, UDP_CHECKSUM_AT, UDP_LEN, check_header_len, check_space, number,
};
use crate::skipped_headers::headers_before;
use crate::updated_message::{write_updated_tcp, write_updated_udp};
use crate::{PacketTranslationError, Prefixes};
use arrayvec::ArrayVec;
use net_base::{IpNumber, Ipv6HeaderSlice, ip_number};

/// The length of an IPv4 header without options, in bytes (RFC 791, section 3.1).
const IPV4_LEN: usize = 20;

/// Translates an IPv6 packet to IPv4 (RFC 7915, section 5). Writes the IPv4 packet to the front of `buffer`, and returns its length in
/// bytes. The rest of the buffer is unchanged. Bytes that the payload length does not count are ignored.
///
/// Hop-by-hop options, destination options, and routing headers without segments left are skipped: the packet is translated as if they were
/// not there (section 5.1). `header_to_ipv4` translates the header, with this identification. In a message of UDP or TCP only the checksum
/// changes, since the pseudo header contains the addresses. An ICMPv6 echo message becomes an ICMP echo message (section 5.2). A message of
/// any other protocol is unchanged.
///
/// An ICMPv6 error becomes the ICMP error that `icmpv4_error` names, with the pointer of `icmpv4_pointer` or the MTU of `icmpv4_mtu`
/// (section 5.2). The packet that it quotes is translated with the exchanged prefixes, and keeps its hop limit (section 5.3). Its extension
/// headers are skipped. Without a fragment header it gets the identification 0. The checksum of the quoted message is updated if the quote
/// contains it. A quote that is longer than in an ICMPv6 error of 1280 bytes is cut.
///
/// An extension of the error (RFC 4884) is unchanged, as section 5.2 requires. The length field is adjusted, and zeros after the quote are
/// added. Before an extension the quote is cut to 1,020 bytes, the most that the length field can state. An error with an extension has at
/// most 1240 bytes, so a longer extension is cut.
///
/// If the packet has a fragment header, this header determines the fragment offset, "more fragments" and the low 16 bits of the
/// identification (section 5.1.1). Then "don't fragment" is 0, and the argument `identification` is not used. A later fragment has no
/// transport header, so its bytes are unchanged. An atomic fragment is translated as a whole packet.
///
/// # Errors
///
/// After an error the buffer is unchanged. The call checks these cases, in this order:
/// - `NoIpv6Header` if the bytes do not begin with a whole IPv6 header.
/// - `CutOff` if there are fewer bytes than the header and its payload length.
/// - `ExtensionHeaderCutOff` if an extension header that is skipped ends after the payload, and `SegmentsLeft` if a routing header has
///   segments left. These two are checked for each header, in the order of the packet.
/// - `ExtensionHeaderCutOff` if a fragment header ends after the payload, and `Header` if another extension header follows it.
/// - `Header` if `header_to_ipv4` refuses the header of the packet without these extension headers.
/// - `IcmpFragment` if one of several fragments is part of an ICMPv6 message (section 1.2).
/// - `TransportHeader` if a UDP packet or an ICMP message is shorter than 8 bytes, or a TCP segment is shorter than 20 bytes.
/// - `IcmpMessage` if an ICMPv6 message is not an echo message, and `icmpv4_error` returns `None`.
/// - `IcmpExtension` if the length field of "destination unreachable" or "time exceeded" (RFC 4884) is not 0, and states fewer than 128 bytes or
///   more than there are.
/// - `NoQuotedHeader` if the packet that an ICMPv6 error quotes does not begin with a whole IPv6 header.
/// - `QuotedHeader` with `ExtensionHeader` and the next header of the quoted packet if one of its extension headers is not skipped, as
///   above, or ends after the quote.
/// - `QuotedHeader` if the quoted header has no translation. The call checks its payload length and its addresses, as `header_to_ipv4`
///   does.
/// - `IcmpFragment` if the quoted packet is one of several fragments of an ICMPv6 message (section 1.2).
/// - `TransportHeader` or `QuotedIcmp` if the quoted message of ICMPv6, UDP or TCP is shorter than 8 bytes, or is no echo message of ICMPv6.
///   This is not checked in a later fragment.
/// - `IcmpPointer` if a parameter problem has a pointer for which `icmpv4_pointer` returns `None`.
/// - `NoUdpChecksum` if a UDP packet has no checksum.
/// - `Space` if the buffer is shorter than the translated packet.
pub fn ipv6_to_ipv4(
    packet: &[u8],
    prefixes: &Prefixes,
    identification: u16,
    buffer: &mut [u8],
) -> Result<usize, PacketTranslationError>
    ensures refused { RefusesExactly result (specs.packet_refusal prefixes.now packet.now (length buffer.old)) }
    ensures len { IfOk result (λ len. len ≡ specs.direct_len (specs.direct_header packet.now) prefixes.now
        (specs.fields_of identification packet.now).flags_and_offset (specs.message_of packet.now)) }
    ensures written { IfOk result (λ len. buffer.new ≡ specs.translated_packet prefixes.now identification packet.now ++ drop len buffer.old) }
    ensures unchanged { IfErr result (λ _. buffer.new ≡ buffer.old) }
    // A receiver accepts the message of the translated packet exactly if it accepts the message of the original packet.
    ensures alike { IfOk result (λ _. specs.IsPacketAlike prefixes.now (specs.direct_header packet.now)
        (specs.fields_of identification packet.now).flags_and_offset (specs.message_of packet.now)) }
    // All bytes after the transport header are kept.
    ensures payload { IfOk result (λ len. IsIpv6PayloadKept packet.now (take len buffer.new)) }
{
    let Some(header) = front_header(packet) else {
        return Err(PacketTranslationError::NoIpv6Header);
    };
    let payload = payload_after(&header, packet)?;
    translate_payload(&header, payload, prefixes, identification, buffer)
}

/// The IPv6 header at the front of a packet.
pub(crate) fn front_header<'a>(packet: &'a [u8]) -> Option<Ipv6HeaderSlice<'a>>
    ensures found { MatchOption result (specs.begins_with_header packet.now ≡ false)
        (λ header. (specs.begins_with_header packet.now ≡ true) × (header ≡ ip.ipv6_header packet.now)) }
    ensures long { IfSome result (λ header. length header ≡ 40) }
{
    Ipv6HeaderSlice::from_slice(packet)
}

/// Translates a packet with this header and this payload.
#[inline(always)]
fn translate_payload(
    header: &Ipv6HeaderSlice<'_>,
    payload: &[u8],
    prefixes: &Prefixes,
    identification: u16,
    buffer: &mut [u8],
) -> Result<usize, PacketTranslationError>
    requires counted { length payload.now ≤ max_len_over_ipv4 }
    requires long { length header.now ≡ 40 }
    requires whole { length payload.now ≡ headers.payload_len header.now }
    ensures refused { RefusesExactly result (specs.payload_refusal header.now prefixes.now payload.now (length buffer.old)) }
    ensures len { IfOk result (λ len. len ≡ specs.direct_len (specs.direct_in header.now payload.now) prefixes.now
        (specs.fields_in identification header.now payload.now).flags_and_offset (specs.message_in header.now payload.now)) }
    ensures written { IfOk result (λ len. buffer.new ≡ specs.direct_translation (specs.direct_in header.now payload.now) prefixes.now
        (specs.fields_in identification header.now payload.now) (specs.message_in header.now payload.now) ++ drop len buffer.old) }
    ensures unchanged { IfErr result (λ _. buffer.new ≡ buffer.old) }
    ensures alike { IfOk result (λ _. specs.IsPacketAlike prefixes.now (specs.direct_in header.now payload.now)
        (specs.fields_in identification header.now payload.now).flags_and_offset (specs.message_in header.now payload.now)) }
{
    if is_extension(header.next_header()) {
        return translate_after_skipped(header, payload, prefixes, identification, buffer);
    }
    // Most packets have no extension headers. Their header is not copied.
    translate_whole(
        header,
        payload,
        prefixes,
        FragmentFields::whole(identification),
        buffer,
    )
}

/// Translates a packet with this header and this payload. Skips its extension headers.
#[inline(never)]
fn translate_after_skipped(
    header: &Ipv6HeaderSlice<'_>,
    payload: &[u8],
    prefixes: &Prefixes,
    identification: u16,
    buffer: &mut [u8],
) -> Result<usize, PacketTranslationError>
    requires counted { length payload.now ≤ max_len_over_ipv4 }
    ensures refused { RefusesExactly result (specs.payload_refusal header.now prefixes.now payload.now (length buffer.old)) }
    ensures len { IfOk result (λ len. len ≡ specs.direct_len (specs.direct_in header.now payload.now) prefixes.now
        (specs.fields_in identification header.now payload.now).flags_and_offset (specs.message_in header.now payload.now)) }
    ensures written { IfOk result (λ len. buffer.new ≡ specs.direct_translation (specs.direct_in header.now payload.now) prefixes.now
        (specs.fields_in identification header.now payload.now) (specs.message_in header.now payload.now) ++ drop len buffer.old) }
    ensures unchanged { IfErr result (λ _. buffer.new ≡ buffer.old) }
    ensures alike { IfOk result (λ _. specs.IsPacketAlike prefixes.now (specs.direct_in header.now payload.now)
        (specs.fields_in identification header.now payload.now).flags_and_offset (specs.message_in header.now payload.now)) }
{
    let skipped = headers_before(header.next_header().0, payload)?;
    let message = &payload[skipped.len..];
    let direct = header_before(header, skipped.number, message);
    translate_direct(
        &whole_header(direct.as_slice()),
        message,
        prefixes,
        fields_or(skipped.fragment, identification),
        buffer,
    )
}

/// These fields of a fragment. Without a fragment header, the packet has this identification.
pub(crate) fn fields_or(fragment: Option<FragmentFields>, identification: u16) -> FragmentFields
    ensures { result ≡ unwrap_or fragment (whole identification) }
{
    match fragment {
        Some(fields) => fields,
        None => FragmentFields::whole(identification),
    }
}

/// This header, but with the number of this header or protocol after it, and with a payload length that counts this message.
fn header_before(header: &Ipv6HeaderSlice<'_>, number: u8, message: &[u8]) -> ArrayVec<u8, IPV6_LEN>
    requires counted { length message.now ≤ max_len_over_ipv4 }
    ensures bytes { result.items ≡ specs.header_before header.now number message.now }
    ensures len { length result.items ≡ 40 }
    ensures front { specs.begins_with_header result.items ≡ true }
{
    header_counting(header, number, message.len() as u16)
}

/// This header, but with the number of this header or protocol after it, and with this payload length.
pub(crate) fn header_counting(
    header: &Ipv6HeaderSlice<'_>,
    number: u8,
    len: u16,
) -> ArrayVec<u8, IPV6_LEN>
    ensures bytes { result.items ≡ header_counting header.now number len }
    ensures len { length result.items ≡ 40 }
    ensures front { specs.begins_with_header result.items ≡ true }
{
    ipv6_header(
        header.traffic_class(),
        len,
        [number, header.hop_limit()],
        header.source(),
        header.destination(),
    )
}

/// The IPv6 header that these bytes are.
pub(crate) fn whole_header<'a>(bytes: &'a [u8]) -> Ipv6HeaderSlice<'a>
    requires front { specs.begins_with_header bytes.now ≡ true }
    requires len { length bytes.now ≡ 40 }
    ensures { result ≡ bytes.now }
{
    front_header(bytes).unwrap()
}

/// Translates a packet or a fragment that consists of this header and this message.
fn translate_direct(
    header: &Ipv6HeaderSlice<'_>,
    message: &[u8],
    prefixes: &Prefixes,
    fields: FragmentFields,
    buffer: &mut [u8],
) -> Result<usize, PacketTranslationError>
    requires counted { length message.now ≤ max_len_over_ipv4 }
    ensures refused { RefusesExactly result (specs.direct_refusal header.now prefixes.now fields.flags_and_offset message.now (length buffer.old)) }
    ensures len { IfOk result (λ len. len ≡ specs.direct_len header.now prefixes.now fields.flags_and_offset message.now) }
    ensures written { IfOk result (λ len. buffer.new
        ≡ specs.direct_translation header.now prefixes.now fields message.now ++ drop len buffer.old) }
    ensures unchanged { IfErr result (λ _. buffer.new ≡ buffer.old) }
    ensures alike { IfOk result (λ _. specs.IsPacketAlike prefixes.now header.now fields.flags_and_offset message.now) }
{
    if fields.is_part() {
        return translate_part(header, message, prefixes, fields, buffer);
    }
    translate_whole(header, message, prefixes, fields, buffer)
}

/// Translates one of several fragments, which consists of this header and this part of a message.
#[inline(never)]
fn translate_part(
    header: &Ipv6HeaderSlice<'_>,
    message: &[u8],
    prefixes: &Prefixes,
    fields: FragmentFields,
    buffer: &mut [u8],
) -> Result<usize, PacketTranslationError>
    requires counted { length message.now ≤ max_len_over_ipv4 }
    ensures refused { RefusesExactly result (specs.part_refusal header.now prefixes.now fields.flags_and_offset message.now (length buffer.old)) }
    ensures len { IfOk result (λ len. len ≡ 20 + length message.now) }
    ensures written { IfOk result (λ len. buffer.new ≡ (headers.translated_header prefixes.now fields header.now
        ++ specs.translated_part header.now prefixes.now fields message.now) ++ drop len buffer.old) }
    ensures unchanged { IfErr result (λ _. buffer.new ≡ buffer.old) }
    ensures alike { IfOk result (λ _. is_later fields.flags_and_offset ≡ false → specs.IsAcceptedAlike prefixes.now header.now message.now
        (specs.updated_message prefixes.now header.now message.now)) }
{
    let ipv4_header = translated_header(header, prefixes, fields)?;
    let front = ipv4_header.as_slice();
    check_protocol_of_part(header.next_header())?;
    if fields.is_later() {
        return copy_message(front, message, buffer);
    }
    translate_message(front, message, header, prefixes, buffer)
}

/// Refuses a fragment of an ICMPv6 message.
pub(crate) fn check_protocol_of_part(protocol: IpNumber) -> Result<(), PacketTranslationError>
    ensures refused { RefusesExactly result (refused_if (protocol.0 == icmpv6_number) IcmpFragment) }
{
    if protocol.0 == ip_number::IPV6_ICMP.0 {
        return Err(PacketTranslationError::IcmpFragment);
    }
    Ok(())
}

/// Writes this IPv4 header and this part of a message to the front of the buffer.
fn copy_message(
    ipv4_header: &[u8],
    message: &[u8],
    buffer: &mut [u8],
) -> Result<usize, PacketTranslationError>
    requires header { length ipv4_header.now ≡ 20 }
    requires counted { length message.now ≤ max_len_over_ipv4 }
    ensures refused { RefusesExactly result (specs.space_refusal (length message.now) (length buffer.old)) }
    ensures len { IfOk result (λ len. len ≡ 20 + length message.now) }
    ensures written { IfOk result (λ len. buffer.new ≡ (ipv4_header.now ++ message.now) ++ drop len buffer.old) }
    ensures unchanged { IfErr result (λ _. buffer.new ≡ buffer.old) }
{
    let len = ipv4_header.len() + message.len();
    check_space(len, buffer.len())?;
    let (front, rest) = buffer.split_at_mut(ipv4_header.len());
    front.copy_from_slice(ipv4_header);
    rest[..message.len()].copy_from_slice(message);
    Ok(len)
}

/// Translates a whole packet that consists of this header and this message.
#[inline(always)]
fn translate_whole(
    header: &Ipv6HeaderSlice<'_>,
    message: &[u8],
    prefixes: &Prefixes,
    fields: FragmentFields,
    buffer: &mut [u8],
) -> Result<usize, PacketTranslationError>
    requires counted { length message.now ≤ max_len_over_ipv4 }
    ensures refused { RefusesExactly result (specs.whole_refusal header.now prefixes.now message.now (length buffer.old)) }
    ensures len { IfOk result (λ len. len ≡ specs.translated_len header.now prefixes.now message.now) }
    ensures written { IfOk result (λ len. buffer.new
        ≡ specs.translation_of header.now prefixes.now fields message.now ++ drop len buffer.old) }
    ensures unchanged { IfErr result (λ _. buffer.new ≡ buffer.old) }
    ensures alike { IfOk result (λ _. specs.AreAcceptedAlike prefixes.now header.now message.now) }
{
    let ipv4_header = translated_header(header, prefixes, fields)?;
    if is_icmp_error(header.next_header(), message) {
        return translate_error(message, header, prefixes, fields, buffer);
    }
    translate_message(ipv4_header.as_slice(), message, header, prefixes, buffer)
}

/// Translates a packet with this header and this message, which is no ICMPv6 error. `ipv4_header` is the translated header.
#[inline(always)]
fn translate_message(
    ipv4_header: &[u8],
    message: &[u8],
    header: &Ipv6HeaderSlice<'_>,
    prefixes: &Prefixes,
    buffer: &mut [u8],
) -> Result<usize, PacketTranslationError>
    requires len { length ipv4_header.now ≡ 20 }
    requires addresses { HasIpv4Addresses prefixes.now header.now ipv4_header.now }
    requires counted { length message.now ≤ max_len_over_ipv4 }
    ensures refused { RefusesExactly result (specs.other_refusal (headers.next_header header.now) message.now (length buffer.old)) }
    ensures len { IfOk result (λ len. len ≡ 20 + length message.now) }
    ensures written { IfOk result (λ len. buffer.new
        ≡ (ipv4_header.now ++ specs.updated_message prefixes.now header.now message.now) ++ drop len buffer.old) }
    ensures unchanged { IfErr result (λ _. buffer.new ≡ buffer.old) }
    ensures alike { IfOk result (λ _. specs.IsAcceptedAlike prefixes.now header.now message.now
        (specs.updated_message prefixes.now header.now message.now)) }
{
    check_message(header.next_header(), message)?;
    let len = IPV4_LEN + message.len();
    check_space(len, buffer.len())?;
    write_parts(buffer, ipv4_header, message, header, prefixes);
    Ok(len)
}

/// Whether a message of this protocol is an ICMPv6 message, but no echo message.
fn is_icmp_error(protocol: IpNumber, message: &[u8]) -> bool
    ensures { result ≡ specs.is_icmp_error protocol.0 message.now }
{
    protocol.0 == ip_number::IPV6_ICMP.0
        && ICMP_LEN <= message.len()
        && type_over_ipv4(message[0]).is_none()
}

/// Translates a packet with this header and this ICMPv6 error.
#[inline(never)]
fn translate_error(
    message: &[u8],
    header: &Ipv6HeaderSlice<'_>,
    prefixes: &Prefixes,
    fields: FragmentFields,
    buffer: &mut [u8],
) -> Result<usize, PacketTranslationError>
    requires there { 8 ≤ length message.now }
    requires counted { length message.now ≤ max_len_over_ipv4 }
    ensures refused { RefusesExactly result (specs.error_packet_refusal prefixes.now message.now (length buffer.old)) }
    ensures len { IfOk result (λ len. len ≡ 20 + length (errors.error_without_checksum prefixes.now message.now)) }
    ensures written { IfOk result (λ len. buffer.new
        ≡ specs.error_packet header.now prefixes.now fields message.now ++ drop len buffer.old) }
    ensures unchanged { IfErr result (λ _. buffer.new ≡ buffer.old) }
    ensures alike { IfOk result (λ _. specs.IsErrorAcceptedAlike prefixes.now header.now message.now) }
{
    let error = error_to_ipv4(message, prefixes)?;
    let len = IPV4_LEN + error.len();
    check_space(len, buffer.len())?;
    let time_to_live = header.hop_limit().saturating_sub(1);
    let ipv4_header = header_with(header, prefixes, fields, len as u16, time_to_live);
    write_error_parts(
        buffer,
        ipv4_header.as_slice(),
        error.as_slice(),
        message,
        header,
    );
    Ok(len)
}

/// Writes an IPv4 header and an ICMP error with its checksum to the front of the buffer. `error` is this error with 0 instead of its checksum.
fn write_error_parts(
    buffer: &mut [u8],
    ipv4_header: &[u8],
    error: &[u8],
    message: &[u8],
    header: &Ipv6HeaderSlice<'_>,
)
    requires room { length ipv4_header.now + length error.now ≤ length buffer.old }
    requires there { 8 ≤ length message.now }
    requires counted { length message.now ≤ max_len_over_ipv4 }
    requires error_there { 28 ≤ length error.now }
    requires some { 0 < slice_index error.now 0 }
    ensures written { buffer.new ≡ (ipv4_header.now ++ errors.with_new_checksum header.now message.now error.now)
        ++ drop (length ipv4_header.now + length error.now) buffer.old }
    ensures alike { specs.IsChecksumAlike header.now message.now error.now }
{
    let (front, rest) = buffer.split_at_mut(ipv4_header.len());
    front.copy_from_slice(ipv4_header);
    write_error(&mut rest[..error.len()], error, message, header);
}

/// Writes an ICMP error with its checksum. `error` is this error with 0 instead of its checksum.
fn write_error(translated: &mut [u8], error: &[u8], message: &[u8], header: &Ipv6HeaderSlice<'_>)
    requires room { length translated.old ≡ length error.now }
    requires there { 8 ≤ length message.now }
    requires counted { length message.now ≤ max_len_over_ipv4 }
    requires error_there { 28 ≤ length error.now }
    requires some { 0 < slice_index error.now 0 }
    ensures written { translated.new ≡ errors.with_new_checksum header.now message.now error.now }
    ensures alike { specs.IsChecksumAlike header.now message.now error.now }
{
    let old = icmpv6_pseudo_header(header.source(), header.destination(), message.len() as u32);
    translated.copy_from_slice(error);
    store_changed_checksum(translated, message, old.as_slice(), &[]);
}

/// The IPv4 header for this IPv6 header.
#[inline(always)]
fn translated_header(
    header: &Ipv6HeaderSlice<'_>,
    prefixes: &Prefixes,
    fields: FragmentFields,
) -> Result<ArrayVec<u8, IPV4_LEN>, PacketTranslationError>
    ensures refused { RefusesExactly result (option_map Header (headers.header_refusal prefixes.now header.now)) }
    ensures written { IfOk result (λ translated. translated.items ≡ headers.translated_header prefixes.now fields header.now) }
    ensures len { IfOk result (λ translated. length translated.items ≡ 20) }
    ensures addresses { IfOk result (λ translated. HasIpv4Addresses prefixes.now header.now translated.items) }
{
    match part_header_to_ipv4(header, prefixes, fields) {
        Ok(translated) => Ok(translated),
        Err(error) => Err(PacketTranslationError::Header(error)),
    }
}

/// The payload: the bytes after this header that its payload length counts.
fn payload_after<'a>(
    header: &Ipv6HeaderSlice<'_>,
    packet: &'a [u8],
) -> Result<&'a [u8], PacketTranslationError>
    ensures refused { RefusesExactly result (specs.cut_off_refusal header.now (length packet.now)) }
    ensures payload { IfOk result (λ payload. payload.now ≡ specs.payload_after header.now packet.now) }
    ensures counted { IfOk result (λ payload. length payload.now ≤ max_len_over_ipv4) }
    ensures whole { IfOk result (λ payload. length payload.now ≡ headers.payload_len header.now) }
{
    let total_len = IPV6_LEN + usize::from(header.payload_length());
    if packet.len() < total_len {
        return Err(PacketTranslationError::CutOff {
            total_len,
            len: packet.len(),
        });
    }
    Ok(&packet[IPV6_LEN..total_len])
}

/// Refuses a message of this protocol if the message has no translation. The message is no ICMPv6 error.
#[inline(always)]
fn check_message(protocol: IpNumber, message: &[u8]) -> Result<(), PacketTranslationError>
    ensures refused { RefusesExactly result (specs.message_refusal protocol.0 message.now) }
    ensures udp { IfOk result (λ _. protocol.0 ≡ udp_number → 8 ≤ length message.now) }
    ensures tcp { IfOk result (λ _. protocol.0 ≡ tcp_number → 20 ≤ length message.now) }
    ensures icmp { IfOk result (λ _. protocol.0 ≡ icmpv6_number → 8 ≤ length message.now) }
{
    if protocol.0 == ip_number::IPV6_ICMP.0 {
        return check_header_len(message, ICMP_LEN);
    }
    if protocol.0 == ip_number::UDP.0 {
        return check_udp(message);
    }
    if protocol.0 == ip_number::TCP.0 {
        return check_header_len(message, TCP_LEN);
    }
    Ok(())
}

/// Refuses a UDP packet that is shorter than its header or has no checksum.
#[inline(always)]
fn check_udp(packet: &[u8]) -> Result<(), PacketTranslationError>
    ensures refused { RefusesExactly result (specs.udp_refusal packet.now) }
    ensures there { IfOk result (λ _. 8 ≤ length packet.now) }
{
    check_header_len(packet, UDP_LEN)?;
    if number(packet, UDP_CHECKSUM_AT) == 0 {
        return Err(PacketTranslationError::NoUdpChecksum);
    }
    Ok(())
}

/// Writes the translated header and the translated message to the front of the buffer.
#[inline(always)]
fn write_parts(
    buffer: &mut [u8],
    ipv4_header: &[u8],
    message: &[u8],
    header: &Ipv6HeaderSlice<'_>,
    prefixes: &Prefixes,
)
    requires room { length ipv4_header.now + length message.now ≤ length buffer.old }
    requires there { 20 ≤ length ipv4_header.now }
    requires addresses { HasIpv4Addresses prefixes.now header.now ipv4_header.now }
    requires udp { headers.next_header header.now ≡ udp_number → 8 ≤ length message.now }
    requires tcp { headers.next_header header.now ≡ tcp_number → 20 ≤ length message.now }
    requires icmp { headers.next_header header.now ≡ icmpv6_number → 8 ≤ length message.now }
    requires counted { length message.now ≤ max_len_over_ipv4 }
    ensures written { buffer.new ≡ (ipv4_header.now ++ specs.updated_message prefixes.now header.now message.now)
        ++ drop (length ipv4_header.now + length message.now) buffer.old }
    ensures alike { specs.IsAcceptedAlike prefixes.now header.now message.now (specs.updated_message prefixes.now header.now message.now) }
{
    let (front, rest) = buffer.split_at_mut(ipv4_header.len());
    front.copy_from_slice(ipv4_header);
    let translated = &mut rest[..message.len()];
    write_message(translated, message, header, prefixes, ipv4_header);
}

/// Writes the translation of a message that is no ICMPv6 error. In UDP and TCP only the checksum changes. An ICMPv6 echo message becomes an
/// ICMP echo message. A message of any other protocol is unchanged. The translated packet begins with the header `front`.
#[inline(always)]
fn write_message(
    translated: &mut [u8],
    message: &[u8],
    header: &Ipv6HeaderSlice<'_>,
    prefixes: &Prefixes,
    front: &[u8],
)
    requires room { length translated.old ≡ length message.now }
    requires there { 20 ≤ length front.now }
    requires addresses { HasIpv4Addresses prefixes.now header.now front.now }
    requires udp { headers.next_header header.now ≡ udp_number → 8 ≤ length message.now }
    requires tcp { headers.next_header header.now ≡ tcp_number → 20 ≤ length message.now }
    requires icmp { headers.next_header header.now ≡ icmpv6_number → 8 ≤ length message.now }
    requires counted { length message.now ≤ max_len_over_ipv4 }
    ensures written { translated.new ≡ specs.updated_message prefixes.now header.now message.now }
    ensures alike { specs.IsAcceptedAlike prefixes.now header.now message.now translated.new }
{
    if header.next_header().0 == ip_number::IPV6_ICMP.0 {
        write_icmp(translated, message, header);
        return;
    }
    if header.next_header().0 == ip_number::UDP.0 {
        write_udp(translated, message, header, prefixes, front);
        return;
    }
    if header.next_header().0 == ip_number::TCP.0 {
        write_tcp(translated, message, header, prefixes, front);
        return;
    }
    translated.copy_from_slice(message);
}

/// Writes a UDP packet with its checksum updated for the new addresses. The translated packet begins with the header `front`.
// perf: in a function of its own, the compiler inlines the sums of the addresses, and adds nothing for zeros.
#[inline(never)]
fn write_udp(
    translated: &mut [u8],
    packet: &[u8],
    header: &Ipv6HeaderSlice<'_>,
    prefixes: &Prefixes,
    front: &[u8],
)
    requires room { length translated.old ≡ length packet.now }
    requires there { 8 ≤ length packet.now }
    requires front { 20 ≤ length front.now }
    requires addresses { HasIpv4Addresses prefixes.now header.now front.now }
    ensures written { translated.new ≡ specs.translated_udp prefixes.now header.now packet.now }
    ensures alike { udp_checksum packet.now ≢ 0 → VerifiesAlike 8 (headers.old_pseudo_header header.now udp_number)
        (headers.new_pseudo_header prefixes.now header.now udp_number) packet.now translated.new }
{
    let change = change_by_ipv4_header(header, prefixes, front);
    write_updated_udp(translated, packet, change);
}

/// Writes a TCP segment with its checksum updated for the new addresses. The translated packet begins with the header `front`.
// perf: a function of its own for the same reason.
#[inline(never)]
fn write_tcp(
    translated: &mut [u8],
    segment: &[u8],
    header: &Ipv6HeaderSlice<'_>,
    prefixes: &Prefixes,
    front: &[u8],
)
    requires room { length translated.old ≡ length segment.now }
    requires there { 20 ≤ length segment.now }
    requires front { 20 ≤ length front.now }
    requires addresses { HasIpv4Addresses prefixes.now header.now front.now }
    ensures written { translated.new ≡ specs.translated_tcp prefixes.now header.now segment.now }
    ensures alike { VerifiesAlike 18 (headers.old_pseudo_header header.now tcp_number)
        (headers.new_pseudo_header prefixes.now header.now tcp_number) segment.now translated.new }
{
    let change = change_by_ipv4_header(header, prefixes, front);
    write_updated_tcp(translated, segment, change);
}

/// Writes an ICMPv6 echo message as an ICMP echo message, whose checksum covers no pseudo header.
#[inline(never)]
fn write_icmp(translated: &mut [u8], message: &[u8], header: &Ipv6HeaderSlice<'_>)
    requires room { length translated.old ≡ length message.now }
    requires there { 8 ≤ length message.now }
    requires counted { length message.now ≤ max_len_over_ipv4 }
    ensures written { translated.new ≡ specs.translated_icmp header.now message.now }
    ensures alike { (Verifies [] translated.new)
        ↔ (Verifies (headers.old_pseudo_header header.now icmpv6_number (length message.now)) message.now) }
{
    let type_u8 = type_over_ipv4(message[0]).unwrap_or(message[0]);
    let old = icmpv6_pseudo_header(header.source(), header.destination(), message.len() as u32);
    write_echo(translated, message, type_u8, old.as_slice(), &[]);
}
