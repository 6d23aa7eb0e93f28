//! Laws of the definitions. Each law is the contract of a function, so that it is checked with the calls.

ghost use Rattle.std.specs.Prelude.{◌≡◌, ◌≢◌, ◌≤◌, List, ℕ, None, length, slice_index};
ghost use Rattle.net_base.specs.Bytes.{IsBytes};
ghost use Rattle.net_base.specs.IpNumbers.{icmpv6_number};
ghost use Rattle.word_sum.specs.Checksum.{all_ones};
ghost use Rattle.ip_translation.specs.Fragments.{whole};
ghost use Rattle.ip_translation.specs.FragmentsToIpv6 as parts;
ghost use Rattle.ip_translation.specs.HeadersToIpv4 as back;
ghost use Rattle.ip_translation.specs.HeadersToIpv6.{destination, protocol, source, total_len, translated_header};
ghost use Rattle.ip_translation.specs.AddressTables.{extracted};
ghost use Rattle.ip_translation.specs.PacketsToIpv4 as ipv4;
ghost use Rattle.ip_translation.specs.PacketsToIpv6.{tcp_checksum, udp_checksum};
ghost use Rattle.ip_translation.specs.ThereAndBack.{AddressesComeBack, IsRestoredIpv6Packet, IsRestoredPacket, header_back, ipv6_packet_back, packet_back, tcp_back, udp_back};

use crate::Prefixes;
use crate::packet_translation::front_header;
use net_base::Ipv4HeaderSlice;

/// Assume a UDP packet with a checksum, or a TCP segment whose checksum is not 65535. Its addresses are the same after the way there and back,
/// as all addresses are without explicit mappings. If it is translated to IPv6 and back with the same prefixes, the result is the same message.
/// A UDP packet without a checksum would get a checksum, and the TCP checksum 65535 would become 0.
pub fn message_there_and_back(header: &Ipv4HeaderSlice<'_>, prefixes: &Prefixes)
    ensures udp { AddressesComeBack prefixes.now header.now → (packet : List ℕ) → IsBytes packet → 8 ≤ length packet →
        udp_checksum packet ≢ 0 →
        udp_back prefixes.now header.now packet ≡ packet }
    ensures tcp { AddressesComeBack prefixes.now header.now → (segment : List ℕ) → IsBytes segment → 20 ≤ length segment →
        tcp_checksum segment ≢ all_ones →
        tcp_back prefixes.now header.now segment ≡ segment }
{
    let _ = prefixes.source.embed(header.source());
    let _ = prefixes.destination.embed(header.destination());
}

/// Assume a header without options, whose total length counts at least the header, of a protocol that is not ICMPv6. Its addresses are the
/// same after the way there and back, as all addresses are without explicit mappings. If it is translated to IPv6 and back with the same
/// prefixes, only identification, flags, time to live and checksum are other ones.
pub fn header_there_and_back(header: &Ipv4HeaderSlice<'_>, prefixes: &Prefixes)
    // Without explicit mappings, this holds for every header.
    ensures addresses { AddressesComeBack prefixes.now header.now →
        (extracted prefixes.now.source (back.source (translated_header prefixes.now header.now)) ≡ source header.now)
        × (extracted prefixes.now.destination (back.destination (translated_header prefixes.now header.now)) ≡ destination header.now) }
    ensures back { AddressesComeBack prefixes.now header.now → (identification : ℕ) → length header.now ≡ 20 →
        slice_index header.now 0 ≡ 0x45 → 20 ≤ total_len header.now →
        protocol header.now ≢ icmpv6_number →
        back.translated_header prefixes.now (whole identification) (translated_header prefixes.now header.now)
        ≡ header_back identification header.now }
{
    expect_bytes(header.slice());
    let _ = prefixes.source.embed(header.source());
    let _ = prefixes.destination.embed(header.destination());
}

/// Assume a packet with these properties, which is translated to the other version of IP and back with the same prefixes:
/// - The first translation accepts the packet. It is no fragment, except for an atomic fragment of IPv6.
/// - An IPv4 packet has no options, and its protocol is not the number of an IPv6 extension header.
/// - The addresses are the same after the way there and back. Without explicit mappings, this is true for all IPv4 addresses, and for IPv6
///   addresses whose suffix is 0.
/// - The message is no ICMP error, no ICMPv6 message over IPv4, and no ICMP message over IPv6.
/// - The checksum of an echo message or a UDP packet over IPv4 is not 0. The checksum of an ICMPv6 echo message or a TCP segment is not
///   65535.
///
/// Then only these fields are other ones:
/// - of an IPv4 packet: identification, flags, time to live and header checksum
/// - of an IPv6 packet: flow label and hop limit; its extension headers are left out, and the payload length does not count them
///
/// Bytes after the packet are left out. Each way lowers the time to live, so the way back may refuse the packet.
pub fn packet_there_and_back(packet: &[u8], prefixes: &Prefixes)
    ensures from_ipv4 { (identification room : ℕ) → parts.packet_refusal prefixes.now packet.now room ≡ None →
        IsRestoredPacket prefixes.now packet.now →
        ipv4.translated_packet prefixes.now identification (parts.translated_packet prefixes.now packet.now)
        ≡ packet_back identification packet.now }
    ensures from_ipv6 { (identification room : ℕ) → ipv4.packet_refusal prefixes.now packet.now room ≡ None →
        IsRestoredIpv6Packet prefixes.now packet.now →
        parts.translated_packet prefixes.now (ipv4.translated_packet prefixes.now identification packet.now) ≡ ipv6_packet_back packet.now }
{
    expect_bytes(packet);
    if let Some(header) = front_header(packet) {
        let _ = prefixes.source.embed(header.source());
        let _ = prefixes.destination.embed(header.destination());
        header_there_and_back(&header, prefixes);
        message_there_and_back(&header, prefixes);
    }
}

/// The elements of a slice of bytes are bytes.
fn expect_bytes(bytes: &[u8])
    ensures { IsBytes bytes.now }
{
    let _ = bytes;
}
