ghost use Rattle.std.specs.Prelude.{◌≡◌, ◌≢◌, ◌+◌, ◌≤◌, None, Some, if◌then◌else◌, length, nat_lt};
ghost use Rattle.std.specs.Option.{option_map};
ghost use Rattle.ip_part.specs.Addresses.{by_value};
ghost use Rattle.net_base.specs.Bytes.{IsBytes, be_number};
ghost use Rattle.net_base.specs.PseudoHeader.{ipv4_pseudo_header, ipv6_pseudo_header, max_len_over_ipv4, max_len_over_ipv6};
ghost use Rattle.net_base.specs.StoredChecksum.{udp_checksum_place, with_checksum};
ghost use Rattle.udp_part.specs.UdpValidity.{SumsUpOverIpv4, checksum_field};
ghost use Rattle.word_sum.specs.Checksum.{folded, total};
ghost use Rattle.word_sum.specs.SumValue.{sum_value};
ghost use Rattle.transport_part.specs.StoredChecksums as specs;
ghost use Rattle.transport_part.specs.Transports.{bytes_of, min_len};
ghost use Rattle.transport_part.specs.Verdicts.{Judges, is_too_long_over_ipv4};
ghost use Rattle.transport_part.specs.declared.checksum_verdict.ChecksumVerdict.TheVariants as verdicts;

use crate::TransportSlice;
use ip_part::IpAddresses;
use net_base::{IpNumber, ip_number, pseudo_header_ipv4, pseudo_header_ipv6};
use udp_part::UdpSlice;
use word_sum::checksum::Sum16BitWords;

/// The checksum stored in the two bytes at this place.
pub(crate) fn stored_at(bytes: &[u8], place: usize) -> u16
    requires there { place + 2 ≤ length bytes.now }
    ensures stored { result ≡ be_number bytes.now place 2 }
    ensures bytes { IsBytes bytes.now }
{
    u16::from_be_bytes([bytes[place], bytes[place + 1]])
}

// ---- the pseudo header

/// The sum of the pseudo header of this packet over these addresses. `None` if the packet has no pseudo header over these addresses, or is
/// too long for it.
pub(crate) fn pseudo_header_over(
    addresses: IpAddresses<'_>,
    transport: &TransportSlice<'_>,
) -> Option<Sum16BitWords>
    ensures sum { option_map sum_value result
        ≡ option_map (λ bytes. folded (total bytes)) (specs.pseudo_header_over (by_value addresses.entry) transport.now) }
    ensures long { min_len transport.now ≤ length (bytes_of transport.now) }
{
    let len = transport.slice().len();
    match addresses {
        IpAddresses::Ipv4 {
            source,
            destination,
        } => pseudo_header_over_ipv4(*source, *destination, transport, len),
        IpAddresses::Ipv6 {
            source,
            destination: Some(destination),
        } => pseudo_header_over_ipv6(*source, *destination, transport, len),
        IpAddresses::Ipv6 {
            destination: None,
            ..
        } => None,
    }
}

/// The sum of the pseudo header over IPv4 of a packet of this length. `None` for ICMP, or if the pseudo header can't count the packet.
fn pseudo_header_over_ipv4(
    source: [u8; 4],
    destination: [u8; 4],
    transport: &TransportSlice<'_>,
    len: usize,
) -> Option<Sum16BitWords>
    requires { len ≡ length (bytes_of transport.now) }
    ensures { option_map sum_value result ≡ option_map (λ bytes. folded (total bytes))
        (if is_too_long_over_ipv4 transport.now then None else specs.pseudo_header_over_ipv4 source destination transport.now) }
{
    match transport {
        TransportSlice::Udp(_) => counted_over_ipv4(source, destination, ip_number::UDP, len),
        TransportSlice::Tcp(_) => counted_over_ipv4(source, destination, ip_number::TCP, len),
        TransportSlice::Icmpv4(_) | TransportSlice::Icmpv6(_) => None,
    }
}

/// The sum of the pseudo header over IPv6 of a packet of this length. `None` for ICMPv4, or if the pseudo header can't count the packet.
fn pseudo_header_over_ipv6(
    source: [u8; 16],
    destination: [u8; 16],
    transport: &TransportSlice<'_>,
    len: usize,
) -> Option<Sum16BitWords>
    requires { len ≡ length (bytes_of transport.now) }
    ensures { option_map sum_value result ≡ option_map (λ bytes. folded (total bytes))
        (if nat_lt max_len_over_ipv6 (length (bytes_of transport.now)) then None else specs.pseudo_header_over_ipv6 source destination transport.now) }
{
    match transport {
        TransportSlice::Udp(_) => counted_over_ipv6(source, destination, ip_number::UDP, len),
        TransportSlice::Tcp(_) => counted_over_ipv6(source, destination, ip_number::TCP, len),
        TransportSlice::Icmpv4(_) => None,
        TransportSlice::Icmpv6(_) => {
            counted_over_ipv6(source, destination, ip_number::IPV6_ICMP, len)
        }
    }
}

/// The sum of the pseudo header over IPv4 for this number of bytes. `None` if the pseudo header can't count them.
fn counted_over_ipv4(
    source: [u8; 4],
    destination: [u8; 4],
    protocol: IpNumber,
    len: usize,
) -> Option<Sum16BitWords>
    ensures { option_map sum_value result ≡ (if nat_lt max_len_over_ipv4 len then None
        else Some (folded (total (ipv4_pseudo_header source destination protocol.0 len)))) }
{
    if len > u16::MAX as usize {
        return None;
    }
    Some(pseudo_header_ipv4(source, destination, protocol, len as u16))
}

/// The sum of the pseudo header over IPv6 for this number of bytes. `None` if the pseudo header can't count them.
fn counted_over_ipv6(
    source: [u8; 16],
    destination: [u8; 16],
    protocol: IpNumber,
    len: usize,
) -> Option<Sum16BitWords>
    ensures { option_map sum_value result ≡ (if nat_lt max_len_over_ipv6 len then None
        else Some (folded (total (ipv6_pseudo_header source destination protocol.0 len)))) }
{
    if len > u32::MAX as usize {
        return None;
    }
    Some(pseudo_header_ipv6(source, destination, protocol, len as u32))
}

// ---- an absent checksum

/// The right checksum of a packet that contains no checksum. Such a packet is a UDP packet over IPv4.
pub(crate) fn absent_checksum(addresses: IpAddresses<'_>, transport: &TransportSlice<'_>) -> u16
    requires absent { Judges (by_value addresses) transport.now verdicts.Absent }
    ensures some { result ≢ 0 }
    ensures right { Judges (by_value addresses.entry) (specs.with_stored transport.now result) verdicts.Right }
{
    match (addresses, transport) {
        (
            IpAddresses::Ipv4 {
                source,
                destination,
            },
            TransportSlice::Udp(packet),
        ) => absent_udp_checksum(*source, *destination, packet),
        _ => unreachable!(),
    }
}

/// The right checksum of a UDP packet over IPv4 that contains no checksum (RFC 768).
fn absent_udp_checksum(source: [u8; 4], destination: [u8; 4], packet: &UdpSlice<'_>) -> u16
    requires counted { length packet.now ≤ max_len_over_ipv4 }
    requires absent { checksum_field packet.now ≡ 0 }
    ensures some { result ≢ 0 }
    ensures right { SumsUpOverIpv4 source destination (with_checksum udp_checksum_place packet.now result) }
    ensures header { 8 ≤ length packet.now }
{
    let bytes = packet.slice();
    pseudo_header_ipv4(source, destination, ip_number::UDP, bytes.len() as u16)
        .add_slice(bytes)
        .to_ones_complement_with_no_zero()
}
