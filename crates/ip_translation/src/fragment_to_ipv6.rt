ghost use Rattle.std.specs.Prelude.{◌≡◌, ◌≢◌, ◌≤◌, ◌+◌, ◌==◌, ◌++◌, IfErr, IfOk, drop, false, length};
ghost use Rattle.std.specs.Option.{option_map};
ghost use Rattle.net_base.specs.IpHeaders.{ipv4_header_len};
ghost use Rattle.net_base.specs.IpNumbers.{icmpv4_number, tcp_number, udp_number};
ghost use Rattle.net_base.specs.PseudoHeader.{max_len_over_ipv4};
ghost use Rattle.net_base.specs.Refusals.{RefusesExactly, refused_if};
ghost use Rattle.ip_translation.specs.FragmentHeaders as fragments;
ghost use Rattle.ip_translation.specs.FragmentsToIpv6 as specs;
ghost use Rattle.ip_translation.specs.HeadersToIpv4.{max_payload_len};
ghost use Rattle.ip_translation.specs.HeadersToIpv6 as headers;
ghost use Rattle.ip_translation.specs.PacketsToIpv6 as packets;
ghost use Rattle.ip_translation.specs.TranslatedAddresses.{HasIpv6Addresses};
ghost use Rattle.ip_translation.specs.declared.packet_translation_error.PacketTranslationError.TheVariants.{Header, IcmpFragment};

use crate::header_translation::{
    IPV6_LEN, TYPE_OF_SERVICE_AT, byte_at, check_any_fields, check_embedding, ipv6_header,
    next_header,
};
use crate::message_translation::{
    TCP_LEN, UDP_CHECKSUM_AT, UDP_LEN, check_header_len, check_space, number,
};
use crate::packet_translation::{message_after, write_parts};
use crate::{PacketTranslationError, Prefixes, TranslationError};
use arrayvec::ArrayVec;
use net_base::{IpNumber, Ipv4HeaderSlice, ip_number};

/// The length of an IPv6 header and a fragment header, in bytes (RFC 8200, sections 3 and 4.5).
pub(crate) const HEADERS_LEN: usize = IPV6_LEN + FRAGMENT_LEN as usize;

/// The length of a fragment header, in bytes (RFC 8200, section 4.5).
const FRAGMENT_LEN: u16 = 8;

/// Translates a fragment with this header (RFC 7915, section 4.1).
#[inline(never)]
pub(crate) fn translate_part(
    header: &Ipv4HeaderSlice<'_>,
    packet: &[u8],
    prefixes: &Prefixes,
    buffer: &mut [u8],
) -> Result<usize, PacketTranslationError>
    requires long { 20 ≤ ipv4_header_len header.now }
    ensures refused { RefusesExactly result (specs.part_refusal header.now prefixes.now packet.now (length buffer.old)) }
    ensures len { IfOk result (λ len. len ≡ specs.headers_len + length (packets.message_after header.now packet.now)) }
    ensures written { IfOk result (λ len. buffer.new
        ≡ specs.translated_part prefixes.now header.now (packets.message_after header.now packet.now) ++ drop len buffer.old) }
    ensures unchanged { IfErr result (λ _. buffer.new ≡ buffer.old) }
    ensures alike { IfOk result (λ _. specs.is_later header.now ≡ false →
        packets.IsAcceptedAlike prefixes.now header.now (packets.message_after header.now packet.now)
        (packets.updated_message prefixes.now header.now (packets.message_after header.now packet.now))) }
{
    let front = part_headers(header, prefixes)?;
    let message = message_after(header, packet)?;
    translate_message_of_part(front.as_slice(), message, header, prefixes, buffer)
}

/// Translates a fragment with this header and this part of a message. `front` is the translated headers.
fn translate_message_of_part(
    front: &[u8],
    message: &[u8],
    header: &Ipv4HeaderSlice<'_>,
    prefixes: &Prefixes,
    buffer: &mut [u8],
) -> Result<usize, PacketTranslationError>
    requires len { length front.now ≡ specs.headers_len }
    requires addresses { HasIpv6Addresses prefixes.now header.now front.now }
    requires counted { length message.now ≤ max_len_over_ipv4 }
    ensures refused { RefusesExactly result (specs.message_refusal header.now message.now (length buffer.old)) }
    ensures len { IfOk result (λ len. len ≡ specs.headers_len + length message.now) }
    ensures written { IfOk result (λ len. buffer.new
        ≡ (front.now ++ specs.part_of prefixes.now header.now message.now) ++ drop len buffer.old) }
    ensures unchanged { IfErr result (λ _. buffer.new ≡ buffer.old) }
    ensures alike { IfOk result (λ _. specs.is_later header.now ≡ false → packets.IsAcceptedAlike prefixes.now header.now message.now
        (packets.updated_message prefixes.now header.now message.now)) }
{
    check_protocol_of_part(header.protocol())?;
    if is_later(header) {
        return copy_part(front, message, buffer);
    }
    translate_first_part(front, message, header, prefixes, buffer)
}

/// Whether the fragment is a later fragment, whose offset is above 0.
pub(crate) fn is_later(header: &Ipv4HeaderSlice<'_>) -> bool
    ensures { result ≡ specs.is_later header.now }
{
    header.fragments_offset() != 0
}

/// Refuses a fragment of an ICMP message.
pub(crate) fn check_protocol_of_part(protocol: IpNumber) -> Result<(), PacketTranslationError>
    ensures refused { RefusesExactly result (refused_if (protocol.0 == icmpv4_number) IcmpFragment) }
    ensures other { IfOk result (λ _. protocol.0 ≢ icmpv4_number) }
{
    if protocol.0 == ip_number::ICMP.0 {
        return Err(PacketTranslationError::IcmpFragment);
    }
    Ok(())
}

/// Writes these headers and this part of a message to the front of the buffer.
fn copy_part(
    front: &[u8],
    message: &[u8],
    buffer: &mut [u8],
) -> Result<usize, PacketTranslationError>
    requires len { length front.now ≡ specs.headers_len }
    requires counted { length message.now ≤ max_len_over_ipv4 }
    ensures refused { RefusesExactly result (specs.space_refusal (length message.now) (length buffer.old)) }
    ensures len { IfOk result (λ len. len ≡ specs.headers_len + length message.now) }
    ensures written { IfOk result (λ len. buffer.new ≡ (front.now ++ message.now) ++ drop len buffer.old) }
    ensures unchanged { IfErr result (λ _. buffer.new ≡ buffer.old) }
{
    let len = HEADERS_LEN + message.len();
    check_space(len, buffer.len())?;
    let (start, rest) = buffer.split_at_mut(front.len());
    start.copy_from_slice(front);
    rest[..message.len()].copy_from_slice(message);
    Ok(len)
}

/// Translates a first fragment with this header and this part of a message, which is not an ICMP message.
fn translate_first_part(
    front: &[u8],
    message: &[u8],
    header: &Ipv4HeaderSlice<'_>,
    prefixes: &Prefixes,
    buffer: &mut [u8],
) -> Result<usize, PacketTranslationError>
    requires len { length front.now ≡ specs.headers_len }
    requires addresses { HasIpv6Addresses prefixes.now header.now front.now }
    requires counted { length message.now ≤ max_len_over_ipv4 }
    requires other { headers.protocol header.now ≢ icmpv4_number }
    ensures refused { RefusesExactly result (specs.first_refusal (headers.protocol header.now) message.now (length buffer.old)) }
    ensures len { IfOk result (λ len. len ≡ specs.headers_len + length message.now) }
    ensures written { IfOk result (λ len. buffer.new
        ≡ (front.now ++ packets.updated_message prefixes.now header.now message.now) ++ drop len buffer.old) }
    ensures unchanged { IfErr result (λ _. buffer.new ≡ buffer.old) }
    ensures alike { IfOk result (λ _. packets.IsAcceptedAlike prefixes.now header.now message.now
        (packets.updated_message prefixes.now header.now message.now)) }
{
    check_first_part(header.protocol(), message)?;
    let len = HEADERS_LEN + message.len();
    check_space(len, buffer.len())?;
    write_parts(buffer, front, message, header, prefixes);
    Ok(len)
}

/// The IPv6 header and the fragment header for this IPv4 header.
fn part_headers(
    header: &Ipv4HeaderSlice<'_>,
    prefixes: &Prefixes,
) -> Result<ArrayVec<u8, HEADERS_LEN>, PacketTranslationError>
    requires long { 20 ≤ ipv4_header_len header.now }
    ensures refused { RefusesExactly result (option_map Header (headers.any_header_refusal prefixes.now header.now)) }
    ensures written { IfOk result (λ front. front.items ≡ specs.part_headers prefixes.now header.now) }
    ensures len { IfOk result (λ front. length front.items ≡ specs.headers_len) }
    ensures addresses { IfOk result (λ front. HasIpv6Addresses prefixes.now header.now front.items) }
    ensures total_len { IfOk result (λ _. ipv4_header_len header.now ≤ headers.total_len header.now) }
{
    match checked_payload_len(header, prefixes) {
        Ok(payload_len) => {
            let hop_limit = header.ttl().saturating_sub(1);
            Ok(headers_with(header, prefixes, payload_len, hop_limit))
        }
        Err(error) => Err(PacketTranslationError::Header(error)),
    }
}

/// Checks the header of a fragment, and returns the length of its payload.
fn checked_payload_len(
    header: &Ipv4HeaderSlice<'_>,
    prefixes: &Prefixes,
) -> Result<u16, TranslationError>
    requires long { 20 ≤ ipv4_header_len header.now }
    ensures refused { RefusesExactly result (headers.any_header_refusal prefixes.now header.now) }
    ensures payload_len { IfOk result (λ len. len ≡ headers.payload_len header.now) }
    ensures short { IfOk result (λ len. len ≤ max_payload_len) }
    ensures total_len { IfOk result (λ _. ipv4_header_len header.now ≤ headers.total_len header.now) }
{
    let payload_len = check_any_fields(header)?;
    check_embedding(header, prefixes)?;
    Ok(payload_len)
}

/// The IPv6 header and the fragment header for this IPv4 header, with this length of the payload and this hop limit.
pub(crate) fn headers_with(
    header: &Ipv4HeaderSlice<'_>,
    prefixes: &Prefixes,
    payload_len: u16,
    hop_limit: u8,
) -> ArrayVec<u8, HEADERS_LEN>
    requires short { payload_len ≤ max_payload_len }
    ensures written { result.items ≡ fragments.headers_with prefixes.now payload_len hop_limit header.now }
    ensures len { length result.items ≡ specs.headers_len }
    ensures addresses { HasIpv6Addresses prefixes.now header.now result.items }
{
    let ipv6 = ipv6_header(
        byte_at(header.slice(), TYPE_OF_SERVICE_AT),
        payload_len + FRAGMENT_LEN,
        [ip_number::IPV6_FRAGMENTATION_HEADER.0, hop_limit],
        prefixes.source.embed(header.source()),
        prefixes.destination.embed(header.destination()),
    );
    let mut front = ArrayVec::new();
    front.try_extend_from_slice(ipv6.as_slice()).unwrap();
    front
        .try_extend_from_slice(&fragment_header(header))
        .unwrap();
    front
}

/// The fragment header for this IPv4 header.
fn fragment_header(header: &Ipv4HeaderSlice<'_>) -> [u8; 8]
    ensures { result ≡ fragments.fragment_header header.now }
{
    let more = if header.more_fragments() { 1 } else { 0 };
    let [offset, rest] = (header.fragments_offset() * 8 + more).to_be_bytes();
    let [high, low] = header.identification().to_be_bytes();
    let next = next_header(header.protocol());
    [next.0, 0, offset, rest, 0, 0, high, low]
}

/// Refuses the first part of a message of UDP or TCP if it is shorter than its header, or if UDP has no checksum.
fn check_first_part(protocol: IpNumber, message: &[u8]) -> Result<(), PacketTranslationError>
    ensures refused { RefusesExactly result (specs.first_part_refusal protocol.0 message.now) }
    ensures udp { IfOk result (λ _. protocol.0 ≡ udp_number → packets.IsWholeUdp message.now) }
    ensures tcp { IfOk result (λ _. protocol.0 ≡ tcp_number → 20 ≤ length message.now) }
{
    if protocol.0 == ip_number::UDP.0 {
        return check_udp_part(message);
    }
    if protocol.0 == ip_number::TCP.0 {
        return check_header_len(message, TCP_LEN);
    }
    Ok(())
}

/// Refuses the first part of a UDP packet if it is shorter than its header, or has no checksum.
fn check_udp_part(message: &[u8]) -> Result<(), PacketTranslationError>
    ensures refused { RefusesExactly result (specs.udp_part_refusal message.now) }
    ensures whole { IfOk result (λ _. packets.IsWholeUdp message.now) }
{
    check_header_len(message, UDP_LEN)?;
    if number(message, UDP_CHECKSUM_AT) == 0 {
        return Err(PacketTranslationError::FragmentChecksum);
    }
    Ok(())
}
