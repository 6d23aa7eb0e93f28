ghost use Rattle.std.specs.Prelude.{◌≡◌, ◌≤◌, ◌<◌, ◌+◌, ◌-◌, ◌++◌, IfErr, IfOk, IfSome, IsTrue, MatchOption, drop, false, length, slice_index, take, true};
ghost use Rattle.std.specs.Option.{option_map};
ghost use Rattle.ip_part.specs.Ip.{ipv4_header};
ghost use Rattle.net_base.specs.IpHeaders.{ipv4_header_len, ipv4_is_fragment};
ghost use Rattle.net_base.specs.IpNumbers.{icmpv4_number, tcp_number, udp_number};
ghost use Rattle.net_base.specs.PseudoHeader.{max_len_over_ipv4};
ghost use Rattle.net_base.specs.Refusals.{RefusesExactly};
ghost use Rattle.ip_translation.specs.ErrorsToIpv6 as errors;
ghost use Rattle.ip_translation.specs.FragmentsToIpv6 as parts;
ghost use Rattle.ip_translation.specs.HeadersToIpv6 as headers;
ghost use Rattle.ip_translation.specs.PacketsToIpv6 as specs;
ghost use Rattle.ip_translation.specs.Payloads.{IsIpv4PayloadKept};
ghost use Rattle.ip_translation.specs.QuotedPackets.{max_error_len, min_error_len};
ghost use Rattle.ip_translation.specs.TranslatedAddresses.{HasIpv6Addresses};
ghost use Rattle.ip_translation.specs.declared.packet_translation_error.PacketTranslationError.TheVariants.{Header};

use crate::changed_message::store_changed_checksum;
use crate::echo_translation::{icmpv6_pseudo_header, type_over_ipv6};
use crate::error_to_ipv6::error_to_ipv6;
use crate::fragment_to_ipv6::translate_part;
use crate::header_translation::{
    FIRST_BYTE_WITHOUT_OPTIONS, IPV6_LEN, LEN_WITHOUT_OPTIONS, check_whole_header,
    checked_ipv6_header, header_with, write_header,
};
use crate::message_translation::{
    ICMP_LEN, TCP_LEN, UDP_CHECKSUM_AT, UDP_LEN, check_message, check_space, number, write_message,
};
use crate::{PacketTranslationError, Prefixes};
use arrayvec::ArrayVec;
use net_base::{IpNumber, Ipv4HeaderSlice, ip_number};

/// Translates an IPv4 packet to IPv6 (RFC 7915, section 4). Writes the IPv6 packet to the front of `buffer`, and returns its length in
/// bytes. The rest of the buffer is unchanged. Bytes that the total length does not count are ignored.
///
/// `header_to_ipv6` translates the header. In a message of UDP or TCP only the checksum changes, since the pseudo header contains the
/// addresses. If a UDP packet has no checksum, the checksum is computed (section 4.5). An ICMP echo message becomes an ICMPv6 echo message
/// (section 4.2). A message of any other protocol is unchanged.
///
/// An ICMP error becomes the ICMPv6 error that `icmpv6_error` names, with the pointer of `icmpv6_pointer` or the MTU of `icmpv6_mtu`
/// (section 4.2). The packet that it quotes is translated with the exchanged prefixes, and keeps its time to live (section 4.3). A quoted
/// fragment gets a fragment header. The checksum of the quoted message is updated if the quote contains it. The quote is cut so that the
/// IPv6 packet has at most 1280 bytes.
///
/// An extension of the error (RFC 4884) is unchanged, as section 4.2 requires. The length field is adjusted, and zeros after the quote are
/// added. If the IPv6 packet would be longer than 1280 bytes, the extension is cut. "Packet too big" and "parameter problem" have no length
/// field, so their extension is left out.
///
/// A fragment becomes a fragment with a fragment header, which contains the identification, the offset and "more fragments" (section 4.1). A
/// later fragment has no transport header, so its bytes are unchanged. The call returns one packet, so it does not fragment. To send a packet
/// without "don't fragment" that is too long for the path, fragment it before it is translated (section 4).
///
/// # Errors
///
/// After an error the buffer is unchanged. The call checks these cases, in this order:
/// - `NoIpv4Header` if the bytes do not begin with a whole IPv4 header.
/// - `Header` if `header_to_ipv6` refuses the header, for another reason than `Fragment`.
/// - `CutOff` if there are fewer bytes than the total length.
/// - `IcmpFragment` if a fragment is part of an ICMP message (section 1.2).
/// - `TransportHeader` if a UDP packet or an ICMP message is shorter than 8 bytes, or a TCP segment is shorter than 20 bytes.
/// - `IcmpMessage` if an ICMP message is not an echo message, and `icmpv6_error` returns `None`.
/// - `IcmpExtension` if the length field of an ICMP error (RFC 4884) is not 0, and states fewer than 128 bytes or more than there are.
/// - `NoQuotedHeader` if the packet that an ICMP error quotes does not begin with a whole IPv4 header.
/// - `QuotedHeader` if the quoted header has no translation. The call checks its total length and the addresses, as `header_to_ipv6` does.
/// - `IcmpFragment` if the quoted packet is a fragment of an ICMP message (section 1.2).
/// - `TransportHeader` or `QuotedIcmp` if the quoted message of ICMP, UDP or TCP is shorter than 8 bytes, or is no echo message of ICMP.
///   This is not checked in a later fragment.
/// - `IcmpPointer` if a parameter problem has a pointer for which `icmpv6_pointer` returns `None`.
/// - `FragmentChecksum` if the first fragment of a UDP packet has no checksum (section 4.5).
/// - `UdpLength` if a UDP packet has no checksum, and its length field is below 8 or above the length of the message.
/// - `Space` if the buffer is shorter than the translated packet.
#[inline(always)]
pub fn ipv4_to_ipv6(
    packet: &[u8],
    prefixes: &Prefixes,
    buffer: &mut [u8],
) -> Result<usize, PacketTranslationError>
    ensures refused { RefusesExactly result (parts.packet_refusal prefixes.now packet.now (length buffer.old)) }
    ensures len { IfOk result (λ len. len ≡ parts.len_with (ipv4_header packet.now) prefixes.now (specs.message_of packet.now)) }
    ensures written { IfOk result (λ len. buffer.new ≡ parts.translated_packet prefixes.now packet.now ++ drop len buffer.old) }
    ensures unchanged { IfErr result (λ _. buffer.new ≡ buffer.old) }
    // A receiver accepts the message of the translated packet exactly if it accepts the message of the original packet. `IsAcceptedAlike`
    // states the exceptions.
    ensures alike { IfOk result (λ _. parts.IsPacketAlike prefixes.now (ipv4_header packet.now) (specs.message_of packet.now)) }
    // All bytes after the transport header are kept.
    ensures payload { IfOk result (λ len. IsIpv4PayloadKept packet.now (take len buffer.new)) }
{
    // perf: after these tests, the compiler leaves out the code for other packets. From C, 64 bytes of UDP take 421 instructions instead of
    // 538, by this form and by the other new forms of 1 Dec 2026.
    if let Some(header) = plain_header(packet) {
        if is_plain(&header, packet, prefixes) {
            return translate_plain(&header, packet, prefixes, buffer);
        }
    }
    translate_any(packet, prefixes, buffer)
}

/// The header of a packet without options. `None` for any other packet.
#[inline(always)]
fn plain_header<'a>(packet: &'a [u8]) -> Option<Ipv4HeaderSlice<'a>>
    ensures found { IfSome result (λ header. (specs.begins_with_header packet.now ≡ true) × (header ≡ ipv4_header packet.now)) }
{
    if packet.len() < LEN_WITHOUT_OPTIONS || packet[0] != FIRST_BYTE_WITHOUT_OPTIONS {
        return None;
    }
    front_header(packet)
}

/// Whether this is a packet of UDP or TCP that two prefixes of 96 bits translate. The code for plain packets and the code for all
/// packets are proved alike, so this test decides only which code runs.
#[inline(always)]
fn is_plain(header: &Ipv4HeaderSlice<'_>, packet: &[u8], prefixes: &Prefixes) -> bool
    ensures whole { IsTrue result → ipv4_is_fragment header.now ≡ false }
{
    !header.is_fragmenting_payload()
        && prefixes.source.is_plain()
        && prefixes.destination.is_plain()
        && is_plain_message(header.protocol(), packet)
}

/// Whether a packet without options contains the header of UDP with a checksum, or of TCP.
#[inline(always)]
fn is_plain_message(protocol: IpNumber, packet: &[u8]) -> bool {
    if protocol.0 == ip_number::UDP.0 {
        return LEN_WITHOUT_OPTIONS + UDP_LEN <= packet.len()
            && number(packet, LEN_WITHOUT_OPTIONS + UDP_CHECKSUM_AT) != 0;
    }
    protocol.0 == ip_number::TCP.0 && LEN_WITHOUT_OPTIONS + TCP_LEN <= packet.len()
}

/// Translates any packet, as `ipv4_to_ipv6` does.
#[inline(never)]
fn translate_any(
    packet: &[u8],
    prefixes: &Prefixes,
    buffer: &mut [u8],
) -> Result<usize, PacketTranslationError>
    ensures refused { RefusesExactly result (parts.packet_refusal prefixes.now packet.now (length buffer.old)) }
    ensures len { IfOk result (λ len. len ≡ parts.len_with (ipv4_header packet.now) prefixes.now (specs.message_of packet.now)) }
    ensures written { IfOk result (λ len. buffer.new ≡ parts.translated_packet prefixes.now packet.now ++ drop len buffer.old) }
    ensures unchanged { IfErr result (λ _. buffer.new ≡ buffer.old) }
    ensures alike { IfOk result (λ _. parts.IsPacketAlike prefixes.now (ipv4_header packet.now) (specs.message_of packet.now)) }
    ensures payload { IfOk result (λ len. IsIpv4PayloadKept packet.now (take len buffer.new)) }
{
    let Some(header) = front_header(packet) else {
        return Err(PacketTranslationError::NoIpv4Header);
    };
    translate_with(&header, packet, prefixes, buffer)
}

/// Translates a packet or a fragment with this header.
#[inline(always)]
fn translate_with(
    header: &Ipv4HeaderSlice<'_>,
    packet: &[u8],
    prefixes: &Prefixes,
    buffer: &mut [u8],
) -> Result<usize, PacketTranslationError>
    requires long { 20 ≤ ipv4_header_len header.now }
    ensures refused { RefusesExactly result (parts.refusal_with header.now prefixes.now packet.now (length buffer.old)) }
    ensures len { IfOk result (λ len. len ≡ parts.len_with header.now prefixes.now (specs.message_after header.now packet.now)) }
    ensures written { IfOk result (λ len. buffer.new
        ≡ parts.translation_with header.now prefixes.now (specs.message_after header.now packet.now) ++ drop len buffer.old) }
    ensures unchanged { IfErr result (λ _. buffer.new ≡ buffer.old) }
    ensures alike { IfOk result (λ _. parts.IsPacketAlike prefixes.now header.now (specs.message_after header.now packet.now)) }
{
    if header.is_fragmenting_payload() {
        return translate_part(header, packet, prefixes, buffer);
    }
    translate_after(header, packet, prefixes, buffer)
}

/// The IPv4 header at the front of a packet.
#[inline(always)]
pub(crate) fn front_header<'a>(packet: &'a [u8]) -> Option<Ipv4HeaderSlice<'a>>
    ensures found { MatchOption result (specs.begins_with_header packet.now ≡ false)
        (λ header. (specs.begins_with_header packet.now ≡ true) × (header ≡ ipv4_header packet.now)) }
    ensures long { IfSome result (λ header. 20 ≤ ipv4_header_len header) }
{
    Ipv4HeaderSlice::from_slice(packet)
}

/// Translates a whole packet with this header.
#[inline(always)]
fn translate_after(
    header: &Ipv4HeaderSlice<'_>,
    packet: &[u8],
    prefixes: &Prefixes,
    buffer: &mut [u8],
) -> Result<usize, PacketTranslationError>
    ensures refused { RefusesExactly result (specs.refusal_after header.now prefixes.now packet.now (length buffer.old)) }
    ensures len { IfOk result (λ len. len ≡ specs.translated_len header.now prefixes.now (specs.message_after header.now packet.now)) }
    ensures written { IfOk result (λ len. buffer.new
        ≡ specs.translation_of header.now prefixes.now (specs.message_after header.now packet.now) ++ drop len buffer.old) }
    ensures unchanged { IfErr result (λ _. buffer.new ≡ buffer.old) }
    ensures alike { IfOk result (λ _. specs.AreAcceptedAlike prefixes.now header.now (specs.message_after header.now packet.now)) }
{
    let ipv6_header = translated_header(header, prefixes)?;
    let message = message_after(header, packet)?;
    if is_icmp_error(header.protocol(), message) {
        return translate_error(message, header, prefixes, buffer);
    }
    translate_message(ipv6_header.as_slice(), message, header, prefixes, buffer)
}

/// Translates a packet with this header and this message, which is no ICMP error. `ipv6_header` is the translated header.
#[inline(always)]
fn translate_message(
    ipv6_header: &[u8],
    message: &[u8],
    header: &Ipv4HeaderSlice<'_>,
    prefixes: &Prefixes,
    buffer: &mut [u8],
) -> Result<usize, PacketTranslationError>
    requires len { length ipv6_header.now ≡ 40 }
    requires addresses { HasIpv6Addresses prefixes.now header.now ipv6_header.now }
    requires counted { length message.now ≤ max_len_over_ipv4 }
    ensures refused { RefusesExactly result (specs.other_refusal (headers.protocol header.now) message.now (length buffer.old)) }
    ensures len { IfOk result (λ len. len ≡ 40 + length message.now) }
    ensures written { IfOk result (λ len. buffer.new
        ≡ (ipv6_header.now ++ specs.updated_message prefixes.now header.now message.now) ++ drop len buffer.old) }
    ensures unchanged { IfErr result (λ _. buffer.new ≡ buffer.old) }
    ensures alike { IfOk result (λ _. specs.IsAcceptedAlike prefixes.now header.now message.now
        (specs.updated_message prefixes.now header.now message.now)) }
{
    check_message(header.protocol(), message)?;
    let len = IPV6_LEN + message.len();
    check_space(len, buffer.len())?;
    write_parts(buffer, ipv6_header, message, header, prefixes);
    Ok(len)
}

/// Translates a whole packet with this header, as `translate_with` does. It writes the header to its place.
#[inline(always)]
fn translate_plain(
    header: &Ipv4HeaderSlice<'_>,
    packet: &[u8],
    prefixes: &Prefixes,
    buffer: &mut [u8],
) -> Result<usize, PacketTranslationError>
    requires whole { ipv4_is_fragment header.now ≡ false }
    ensures refused { RefusesExactly result (parts.refusal_with header.now prefixes.now packet.now (length buffer.old)) }
    ensures len { IfOk result (λ len. len ≡ parts.len_with header.now prefixes.now (specs.message_after header.now packet.now)) }
    ensures written { IfOk result (λ len. buffer.new
        ≡ parts.translation_with header.now prefixes.now (specs.message_after header.now packet.now) ++ drop len buffer.old) }
    ensures unchanged { IfErr result (λ _. buffer.new ≡ buffer.old) }
    ensures alike { IfOk result (λ _. parts.IsPacketAlike prefixes.now header.now (specs.message_after header.now packet.now)) }
{
    translate_in_place(header, packet, prefixes, buffer)
}

/// Translates a whole packet with this header, as `translate_after` does.
#[inline(always)]
fn translate_in_place(
    header: &Ipv4HeaderSlice<'_>,
    packet: &[u8],
    prefixes: &Prefixes,
    buffer: &mut [u8],
) -> Result<usize, PacketTranslationError>
    ensures refused { RefusesExactly result (specs.refusal_after header.now prefixes.now packet.now (length buffer.old)) }
    ensures len { IfOk result (λ len. len ≡ specs.translated_len header.now prefixes.now (specs.message_after header.now packet.now)) }
    ensures written { IfOk result (λ len. buffer.new
        ≡ specs.translation_of header.now prefixes.now (specs.message_after header.now packet.now) ++ drop len buffer.old) }
    ensures unchanged { IfErr result (λ _. buffer.new ≡ buffer.old) }
    ensures alike { IfOk result (λ _. specs.AreAcceptedAlike prefixes.now header.now (specs.message_after header.now packet.now)) }
{
    check_translation(header, prefixes)?;
    let message = message_after(header, packet)?;
    if is_icmp_error(header.protocol(), message) {
        return translate_error(message, header, prefixes, buffer);
    }
    translate_message_in_place(message, header, prefixes, buffer)
}

/// Refuses a header that has no translation.
#[inline(always)]
fn check_translation(
    header: &Ipv4HeaderSlice<'_>,
    prefixes: &Prefixes,
) -> Result<(), PacketTranslationError>
    ensures refused { RefusesExactly result (option_map Header (headers.header_refusal prefixes.now header.now)) }
    ensures total_len { IfOk result (λ _. ipv4_header_len header.now ≤ headers.total_len header.now) }
{
    match check_whole_header(header, prefixes) {
        Ok(()) => Ok(()),
        Err(error) => Err(PacketTranslationError::Header(error)),
    }
}

/// Translates a packet with this header and this message, which is no ICMP error.
#[inline(always)]
fn translate_message_in_place(
    message: &[u8],
    header: &Ipv4HeaderSlice<'_>,
    prefixes: &Prefixes,
    buffer: &mut [u8],
) -> Result<usize, PacketTranslationError>
    requires ordered { ipv4_header_len header.now ≤ headers.total_len header.now }
    requires counted { length message.now ≤ max_len_over_ipv4 }
    ensures refused { RefusesExactly result (specs.other_refusal (headers.protocol header.now) message.now (length buffer.old)) }
    ensures len { IfOk result (λ len. len ≡ 40 + length message.now) }
    ensures written { IfOk result (λ len. buffer.new ≡ (headers.translated_header prefixes.now header.now
        ++ specs.updated_message prefixes.now header.now message.now) ++ drop len buffer.old) }
    ensures unchanged { IfErr result (λ _. buffer.new ≡ buffer.old) }
    ensures alike { IfOk result (λ _. specs.IsAcceptedAlike prefixes.now header.now message.now
        (specs.updated_message prefixes.now header.now message.now)) }
{
    check_message(header.protocol(), message)?;
    let len = message.len() + IPV6_LEN;
    check_space(len, buffer.len())?;
    write_in_place(buffer, message, header, prefixes);
    Ok(len)
}

/// Writes the translated header and the translated message to the front of the buffer.
#[inline(always)]
fn write_in_place(
    buffer: &mut [u8],
    message: &[u8],
    header: &Ipv4HeaderSlice<'_>,
    prefixes: &Prefixes,
)
    requires room { 40 + length message.now ≤ length buffer.old }
    requires ordered { ipv4_header_len header.now ≤ headers.total_len header.now }
    requires udp { headers.protocol header.now ≡ udp_number → specs.IsWholeUdp message.now }
    requires tcp { headers.protocol header.now ≡ tcp_number → 20 ≤ length message.now }
    requires icmp { headers.protocol header.now ≡ icmpv4_number → 8 ≤ length message.now }
    requires counted { length message.now ≤ max_len_over_ipv4 }
    ensures written { buffer.new ≡ (headers.translated_header prefixes.now header.now
        ++ specs.updated_message prefixes.now header.now message.now) ++ drop (40 + length message.now) buffer.old }
    ensures alike { specs.IsAcceptedAlike prefixes.now header.now message.now (specs.updated_message prefixes.now header.now message.now) }
{
    let (front, rest) = buffer.split_at_mut(IPV6_LEN);
    write_header(front, header, prefixes);
    let translated = &mut rest[..message.len()];
    write_message(translated, message, header, prefixes, front);
}

/// Whether a message of this protocol is an ICMP message, but no echo message.
#[inline(always)]
fn is_icmp_error(protocol: IpNumber, message: &[u8]) -> bool
    ensures { result ≡ specs.is_icmp_error protocol.0 message.now }
{
    protocol.0 == ip_number::ICMP.0
        && ICMP_LEN <= message.len()
        && type_over_ipv6(message[0]).is_none()
}

/// Translates a packet with this header and this ICMP error.
#[inline(never)]
fn translate_error(
    message: &[u8],
    header: &Ipv4HeaderSlice<'_>,
    prefixes: &Prefixes,
    buffer: &mut [u8],
) -> Result<usize, PacketTranslationError>
    requires there { 8 ≤ length message.now }
    requires some { 0 < slice_index message.now 0 }
    ensures refused { RefusesExactly result (specs.error_packet_refusal prefixes.now message.now (length buffer.old)) }
    ensures len { IfOk result (λ len. len ≡ 40 + length (errors.error_without_checksum prefixes.now message.now)) }
    ensures written { IfOk result (λ len. buffer.new ≡ specs.error_packet header.now prefixes.now message.now ++ drop len buffer.old) }
    ensures unchanged { IfErr result (λ _. buffer.new ≡ buffer.old) }
    ensures alike { IfOk result (λ _. specs.IsErrorAcceptedAlike prefixes.now header.now message.now) }
{
    let error = error_to_ipv6(message, prefixes)?;
    let len = IPV6_LEN + error.len();
    check_space(len, buffer.len())?;
    write_error_parts(buffer, error.as_slice(), message, header, prefixes);
    Ok(len)
}

/// Writes an IPv6 header and an ICMPv6 error with its checksum to the front of the buffer. `error` is this error with 0 instead of its
/// checksum.
fn write_error_parts(
    buffer: &mut [u8],
    error: &[u8],
    message: &[u8],
    header: &Ipv4HeaderSlice<'_>,
    prefixes: &Prefixes,
)
    requires room { 40 + length error.now ≤ length buffer.old }
    requires there { 8 ≤ length message.now }
    requires some { 0 < slice_index message.now 0 }
    requires error_there { (min_error_len ≤ length error.now) × (length error.now ≤ max_error_len) }
    ensures written { buffer.new ≡ (headers.header_with prefixes.now (length error.now) (headers.time_to_live header.now - 1) header.now
        ++ errors.with_new_checksum prefixes.now header.now message.now error.now) ++ drop (40 + length error.now) buffer.old }
    ensures alike { specs.IsChecksumAlike prefixes.now header.now message.now error.now }
{
    let hop_limit = header.ttl().saturating_sub(1);
    let ipv6_header = header_with(header, prefixes, error.len() as u16, hop_limit);
    let (front, rest) = buffer.split_at_mut(IPV6_LEN);
    front.copy_from_slice(ipv6_header.as_slice());
    write_error(&mut rest[..error.len()], error, message, header, prefixes);
}

/// Writes an ICMPv6 error with its checksum. `error` is this error with 0 instead of its checksum.
fn write_error(
    translated: &mut [u8],
    error: &[u8],
    message: &[u8],
    header: &Ipv4HeaderSlice<'_>,
    prefixes: &Prefixes,
)
    requires room { length translated.old ≡ length error.now }
    requires there { 8 ≤ length message.now }
    requires some { 0 < slice_index message.now 0 }
    requires error_there { (min_error_len ≤ length error.now) × (length error.now ≤ max_error_len) }
    ensures written { translated.new ≡ errors.with_new_checksum prefixes.now header.now message.now error.now }
    ensures alike { specs.IsChecksumAlike prefixes.now header.now message.now error.now }
{
    let source = prefixes.source.embed(header.source());
    let destination = prefixes.destination.embed(header.destination());
    let new = icmpv6_pseudo_header(source, destination, error.len() as u32);
    translated.copy_from_slice(error);
    store_changed_checksum(translated, message, &[], new.as_slice());
}

/// The IPv6 header for this IPv4 header.
#[inline(always)]
fn translated_header(
    header: &Ipv4HeaderSlice<'_>,
    prefixes: &Prefixes,
) -> Result<ArrayVec<u8, IPV6_LEN>, PacketTranslationError>
    ensures refused { RefusesExactly result (option_map Header (headers.header_refusal prefixes.now header.now)) }
    ensures written { IfOk result (λ translated. translated.items ≡ headers.translated_header prefixes.now header.now) }
    ensures len { IfOk result (λ translated. length translated.items ≡ 40) }
    ensures total_len { IfOk result (λ _. ipv4_header_len header.now ≤ headers.total_len header.now) }
    ensures addresses { IfOk result (λ translated. HasIpv6Addresses prefixes.now header.now translated.items) }
{
    match checked_ipv6_header(header, prefixes) {
        Ok(translated) => Ok(translated),
        Err(error) => Err(PacketTranslationError::Header(error)),
    }
}

/// The message: the bytes after this header, up to the total length.
#[inline(always)]
pub(crate) fn message_after<'a>(
    header: &Ipv4HeaderSlice<'_>,
    packet: &'a [u8],
) -> Result<&'a [u8], PacketTranslationError>
    requires ordered { ipv4_header_len header.now ≤ headers.total_len header.now }
    ensures refused { RefusesExactly result (specs.cut_off_refusal header.now (length packet.now)) }
    ensures message { IfOk result (λ message. message.now ≡ specs.message_after header.now packet.now) }
    ensures counted { IfOk result (λ message. length message.now ≤ max_len_over_ipv4) }
{
    let total_len = usize::from(header.total_len());
    if packet.len() < total_len {
        return Err(PacketTranslationError::CutOff {
            total_len,
            len: packet.len(),
        });
    }
    Ok(&packet[usize::from(header.ihl()) * 4..total_len])
}

/// Writes the translated header and the translated message to the front of the buffer.
#[inline(always)]
pub(crate) fn write_parts(
    buffer: &mut [u8],
    ipv6_header: &[u8],
    message: &[u8],
    header: &Ipv4HeaderSlice<'_>,
    prefixes: &Prefixes,
)
    requires room { length ipv6_header.now + length message.now ≤ length buffer.old }
    requires there { 40 ≤ length ipv6_header.now }
    requires addresses { HasIpv6Addresses prefixes.now header.now ipv6_header.now }
    requires udp { headers.protocol header.now ≡ udp_number → specs.IsWholeUdp message.now }
    requires tcp { headers.protocol header.now ≡ tcp_number → 20 ≤ length message.now }
    requires icmp { headers.protocol header.now ≡ icmpv4_number → 8 ≤ length message.now }
    requires counted { length message.now ≤ max_len_over_ipv4 }
    ensures written { buffer.new ≡ (ipv6_header.now ++ specs.updated_message prefixes.now header.now message.now)
        ++ drop (length ipv6_header.now + length message.now) buffer.old }
    ensures alike { specs.IsAcceptedAlike prefixes.now header.now message.now (specs.updated_message prefixes.now header.now message.now) }
{
    let (front, rest) = buffer.split_at_mut(ipv6_header.len());
    front.copy_from_slice(ipv6_header);
    let translated = &mut rest[..message.len()];
    write_message(translated, message, header, prefixes, ipv6_header);
}
