ghost use Rattle.std.specs.Prelude.{◌≡◌, ◌≢◌, ◌≤◌, ◌+◌, ◌↔◌, [], ℕ, IfOk, length, nat_lt, take};
ghost use Rattle.net_base.specs.Bytes.{be_number};
ghost use Rattle.net_base.specs.IpNumbers.{icmpv4_number, icmpv6_number, tcp_number, udp_number};
ghost use Rattle.net_base.specs.PseudoHeader.{max_len_over_ipv4};
ghost use Rattle.net_base.specs.Refusals.{RefusesExactly, refused_if};
ghost use Rattle.net_base.specs.StoredChecksum.{with_checksum};
ghost use Rattle.word_sum.specs.Checksum.{Verifies, total, udp_checksum_of};
ghost use Rattle.ip_translation.specs.HeadersToIpv6 as headers;
ghost use Rattle.ip_translation.specs.PacketsToIpv6 as specs;
ghost use Rattle.ip_translation.specs.TranslatedAddresses.{HasIpv6Addresses};
ghost use Rattle.ip_translation.specs.declared.packet_translation_error.PacketTranslationError.TheVariants.{Space};

use crate::echo_translation::{icmpv6_pseudo_header, type_over_ipv6, write_echo};
use crate::header_translation::change_by_headers;
use crate::updated_message::{write_updated_tcp, write_updated_udp};
use crate::{PacketTranslationError, Prefixes};
use net_base::{IpNumber, Ipv4HeaderSlice, ip_number, pseudo_header_ipv6};

/// The length of a UDP header, in bytes (RFC 768).
pub(crate) const UDP_LEN: usize = 8;

/// The place of the length in a UDP header, in bytes.
const UDP_LENGTH_AT: usize = 4;

/// The place of the checksum in a UDP header, in bytes.
pub(crate) const UDP_CHECKSUM_AT: usize = 6;

/// The length of a TCP header without options, in bytes (RFC 9293, section 3.1).
pub(crate) const TCP_LEN: usize = 20;

/// The length of the header of an ICMP message, in bytes (RFC 792; RFC 4443, section 2.1, with the word that follows).
pub(crate) const ICMP_LEN: usize = 8;

/// The place of the checksum in an ICMP message, in bytes (RFC 792; RFC 4443, section 2.1).
pub(crate) const ICMP_CHECKSUM_AT: usize = 2;

/// The place of the checksum in a TCP header, in bytes.
pub(crate) const TCP_CHECKSUM_AT: usize = 16;

/// Refuses a message of this protocol if the message has no translation. The message is no ICMP error.
#[inline(always)]
pub(crate) fn check_message(
    protocol: IpNumber,
    message: &[u8],
) -> Result<(), PacketTranslationError>
    ensures refused { RefusesExactly result (specs.message_refusal protocol.0 message.now) }
    ensures udp { IfOk result (λ _. protocol.0 ≡ udp_number → specs.IsWholeUdp message.now) }
    ensures tcp { IfOk result (λ _. protocol.0 ≡ tcp_number → 20 ≤ length message.now) }
    ensures icmp { IfOk result (λ _. protocol.0 ≡ icmpv4_number → 8 ≤ length message.now) }
{
    if protocol.0 == ip_number::ICMP.0 {
        return check_header_len(message, ICMP_LEN);
    }
    if protocol.0 == ip_number::UDP.0 {
        return check_udp(message);
    }
    if protocol.0 == ip_number::TCP.0 {
        return check_header_len(message, TCP_LEN);
    }
    Ok(())
}

/// Refuses a UDP packet that is shorter than its header, or whose checksum is missing and can't be computed.
#[inline(always)]
fn check_udp(packet: &[u8]) -> Result<(), PacketTranslationError>
    ensures refused { RefusesExactly result (specs.udp_refusal packet.now) }
    ensures whole { IfOk result (λ _. specs.IsWholeUdp packet.now) }
{
    check_header_len(packet, UDP_LEN)?;
    if number(packet, UDP_CHECKSUM_AT) != 0 {
        return Ok(());
    }
    let length = usize::from(number(packet, UDP_LENGTH_AT));
    if length < UDP_LEN || packet.len() < length {
        return Err(PacketTranslationError::UdpLength {
            length,
            len: packet.len(),
        });
    }
    Ok(())
}

/// Refuses a message that is shorter than its header.
#[inline(always)]
pub(crate) fn check_header_len(
    message: &[u8],
    required_len: usize,
) -> Result<(), PacketTranslationError>
    ensures refused { RefusesExactly result (specs.header_len_refusal required_len message.now) }
    ensures there { IfOk result (λ _. required_len ≤ length message.now) }
{
    if message.len() < required_len {
        return Err(PacketTranslationError::TransportHeader {
            required_len,
            len: message.len(),
        });
    }
    Ok(())
}

/// Refuses a buffer of `room` bytes if it is shorter than the translated packet of `len` bytes.
#[inline(always)]
pub(crate) fn check_space(len: usize, room: usize) -> Result<(), PacketTranslationError>
    ensures refused { RefusesExactly result (refused_if (nat_lt room len) (Space len room)) }
    ensures room { IfOk result (λ _. len ≤ room) }
{
    if room < len {
        return Err(PacketTranslationError::Space {
            required_len: len,
            len: room,
        });
    }
    Ok(())
}

/// Writes the translation of a message that is no ICMP error. In UDP and TCP only the checksum changes. An ICMP echo message becomes an ICMPv6
/// echo message. A message of any other protocol is unchanged. The translated packet begins with the headers `front`.
#[inline(always)]
pub(crate) fn write_message(
    translated: &mut [u8],
    message: &[u8],
    header: &Ipv4HeaderSlice<'_>,
    prefixes: &Prefixes,
    front: &[u8],
)
    requires room { length translated.old ≡ length message.now }
    requires there { 40 ≤ length front.now }
    requires addresses { HasIpv6Addresses prefixes.now header.now front.now }
    requires udp { headers.protocol header.now ≡ udp_number → specs.IsWholeUdp message.now }
    requires tcp { headers.protocol header.now ≡ tcp_number → 20 ≤ length message.now }
    requires icmp { headers.protocol header.now ≡ icmpv4_number → 8 ≤ length message.now }
    requires counted { length message.now ≤ max_len_over_ipv4 }
    ensures written { translated.new ≡ specs.updated_message prefixes.now header.now message.now }
    ensures alike { specs.IsAcceptedAlike prefixes.now header.now message.now translated.new }
{
    if header.protocol().0 == ip_number::ICMP.0 {
        write_icmp(translated, message, header, prefixes);
        return;
    }
    if header.protocol().0 == ip_number::UDP.0 {
        write_udp(translated, message, header, prefixes, front);
        return;
    }
    if header.protocol().0 == ip_number::TCP.0 {
        write_tcp(translated, message, header, prefixes, front);
        return;
    }
    translated.copy_from_slice(message);
}

/// Writes an ICMP echo message as an ICMPv6 echo message, whose checksum covers a pseudo header.
#[inline(never)]
fn write_icmp(
    translated: &mut [u8],
    message: &[u8],
    header: &Ipv4HeaderSlice<'_>,
    prefixes: &Prefixes,
)
    requires room { length translated.old ≡ length message.now }
    requires there { 8 ≤ length message.now }
    requires counted { length message.now ≤ max_len_over_ipv4 }
    ensures written { translated.new ≡ specs.translated_icmp prefixes.now header.now message.now }
    ensures alike { total message.now ≢ 0 →
        (Verifies (headers.new_pseudo_header prefixes.now header.now icmpv6_number (length message.now)) translated.new) ↔ (Verifies [] message.now) }
{
    let type_u8 = type_over_ipv6(message[0]).unwrap_or(message[0]);
    let source = prefixes.source.embed(header.source());
    let destination = prefixes.destination.embed(header.destination());
    let new = icmpv6_pseudo_header(source, destination, message.len() as u32);
    write_echo(translated, message, type_u8, &[], new.as_slice());
}

/// Writes a UDP packet with its new checksum. The translated packet begins with the headers `front`.
#[inline(always)]
fn write_udp(
    translated: &mut [u8],
    packet: &[u8],
    header: &Ipv4HeaderSlice<'_>,
    prefixes: &Prefixes,
    front: &[u8],
)
    requires room { length translated.old ≡ length packet.now }
    requires front { 40 ≤ length front.now }
    requires addresses { HasIpv6Addresses prefixes.now header.now front.now }
    requires whole { specs.IsWholeUdp packet.now }
    ensures written { translated.new ≡ specs.translated_udp prefixes.now header.now packet.now }
    ensures alike { specs.udp_checksum packet.now ≢ 0 → specs.VerifiesAlike 8 (headers.old_pseudo_header header.now udp_number)
        (headers.new_pseudo_header prefixes.now header.now udp_number) packet.now translated.new }
    ensures computed { specs.udp_checksum packet.now ≡ 0 → Verifies
        (headers.new_pseudo_header prefixes.now header.now udp_number (specs.udp_length packet.now)) (take (specs.udp_length packet.now) translated.new) }
{
    if number(packet, UDP_CHECKSUM_AT) == 0 {
        write_computed_udp(translated, packet, header, prefixes);
        return;
    }
    let change = change_by_headers(header, prefixes, front);
    write_updated_udp(translated, packet, change);
}

/// Writes a TCP segment with its checksum updated for the new addresses. The translated packet begins with the headers `front`.
// perf: in a function of its own, so that the code for UDP is short.
#[inline(never)]
fn write_tcp(
    translated: &mut [u8],
    segment: &[u8],
    header: &Ipv4HeaderSlice<'_>,
    prefixes: &Prefixes,
    front: &[u8],
)
    requires room { length translated.old ≡ length segment.now }
    requires there { 20 ≤ length segment.now }
    requires front { 40 ≤ length front.now }
    requires addresses { HasIpv6Addresses prefixes.now header.now front.now }
    ensures written { translated.new ≡ specs.translated_tcp prefixes.now header.now segment.now }
    ensures alike { specs.VerifiesAlike 18 (headers.old_pseudo_header header.now tcp_number)
        (headers.new_pseudo_header prefixes.now header.now tcp_number) segment.now translated.new }
{
    let change = change_by_headers(header, prefixes, front);
    write_updated_tcp(translated, segment, change);
}

/// Writes a UDP packet that had no checksum, with its checksum.
#[inline(never)]
fn write_computed_udp(
    translated: &mut [u8],
    packet: &[u8],
    header: &Ipv4HeaderSlice<'_>,
    prefixes: &Prefixes,
)
    requires room { length translated.old ≡ length packet.now }
    requires whole { specs.IsWholeUdp packet.now }
    requires none { specs.udp_checksum packet.now ≡ 0 }
    ensures written { translated.new ≡ specs.translated_udp prefixes.now header.now packet.now }
    ensures computed { Verifies
        (headers.new_pseudo_header prefixes.now header.now udp_number (specs.udp_length packet.now)) (take (specs.udp_length packet.now) translated.new) }
{
    let checksum = computed_udp_checksum(packet, header, prefixes);
    translated.copy_from_slice(packet);
    store_checksum(translated, UDP_CHECKSUM_AT, checksum);
}

/// The checksum of a translated UDP packet that had no checksum. It covers the pseudo header and the bytes that the length field counts.
fn computed_udp_checksum(packet: &[u8], header: &Ipv4HeaderSlice<'_>, prefixes: &Prefixes) -> u16
    requires there { 8 ≤ length packet.now }
    ensures { result ≡ udp_checksum_of (total (headers.new_pseudo_header prefixes.now header.now udp_number (specs.udp_length packet.now))
        + total (take (specs.udp_length packet.now) packet.now)) }
{
    let length = number(packet, UDP_LENGTH_AT);
    let source = prefixes.source.embed(header.source());
    let destination = prefixes.destination.embed(header.destination());
    let counted = &packet[..usize::from(length).min(packet.len())];
    pseudo_header_ipv6(source, destination, ip_number::UDP, u32::from(length))
        .add_slice(counted)
        .to_ones_complement_with_no_zero()
}

/// The number in the two bytes that begin at the offset `place`.
#[inline(always)]
pub(crate) fn number(message: &[u8], place: usize) -> u16
    requires there { place + 2 ≤ length message.now }
    ensures { result ≡ be_number message.now place 2 }
{
    u16::from_be_bytes([message[place], message[place + 1]])
}

/// Writes a checksum to the two bytes that begin at the offset `place`.
#[inline(always)]
pub(crate) fn store_checksum(message: &mut [u8], place: usize, checksum: u16)
    requires there { place + 2 ≤ length message.old }
    ensures { message.new ≡ with_checksum place message.old checksum }
{
    message[place..place + 2].copy_from_slice(&checksum.to_be_bytes());
}
