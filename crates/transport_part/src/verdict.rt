ghost use Rattle.std.specs.Prelude.{◌≡◌, ◌≤◌, false, length};
ghost use Rattle.icmp_part.specs.Icmpv6Validity.{IsValidIcmpv6};
ghost use Rattle.ip_part.specs.Addresses.{by_value};
ghost use Rattle.net_base.specs.IpNumbers.{icmpv6_number, tcp_number, udp_number};
ghost use Rattle.net_base.specs.PseudoHeader.{max_len_over_ipv4, max_len_over_ipv6};
ghost use Rattle.net_base.specs.StoredChecksum.{icmp_checksum_place, tcp_checksum_place, udp_checksum_place};
ghost use Rattle.tcp_part.specs.TcpValidity.{IsValidTcpIpv4, IsValidTcpIpv6};
ghost use Rattle.udp_part.specs.UdpValidity.{IsValidUdpIpv6};
ghost use Rattle.transport_part.specs.Transports.{bytes_of, min_len};
ghost use Rattle.transport_part.specs.Verdicts as specs;
ghost use Rattle.transport_part.specs.Verdicts.{JudgesBy, JudgesIcmpv4, JudgesOver, JudgesOverIpv4, JudgesOverIpv6, JudgesUdpIpv4, partial_over_ipv4, partial_over_ipv6};

use crate::expected::{
    is_all_ones_with, judged, sum_but_checksum, sum_unless_right, wrong_or_partial,
};
use crate::{ChecksumVerdict, TransportSlice, Untested};
use icmp_part::{Icmpv4Slice, Icmpv6Header, Icmpv6Slice};
use ip_part::IpAddresses;
use net_base::{ip_number, pseudo_header_ipv4, pseudo_header_ipv6};
use tcp_part::{TcpHeader, TcpSlice};
use udp_part::{UdpHeader, UdpSlice};

/// The place of the checksum in a UDP header, in bytes from its start (RFC 768).
pub(crate) const UDP_CHECKSUM_AT: usize = UdpHeader::CHECKSUM_AT;

/// The place of the checksum in a TCP header (RFC 9293, section 3.1).
pub(crate) const TCP_CHECKSUM_AT: usize = TcpHeader::CHECKSUM_AT;

/// The place of the checksum in an ICMP header (RFC 792; RFC 4443, section 2.1).
pub(crate) const ICMP_CHECKSUM_AT: usize = Icmpv6Header::CHECKSUM_AT;

/// Whether the length field of a UDP packet is 0, although the field could count the packet.
#[inline(always)]
pub(crate) fn lacks_length(transport: &TransportSlice<'_>) -> bool
    ensures lacks { result ≡ specs.lacks_length transport.now }
    ensures long { min_len transport.now ≤ length (bytes_of transport.now) }
{
    let len = transport.slice().len();
    match transport {
        TransportSlice::Udp(packet) => packet.length() == 0 && len <= u16::MAX as usize,
        _ => false,
    }
}

/// The verdict on the packet over these addresses. The length field of a UDP packet is not checked.
#[inline(always)]
pub(crate) fn verdict_over(
    addresses: IpAddresses<'_>,
    transport: &TransportSlice<'_>,
) -> ChecksumVerdict
    ensures { JudgesOver (by_value addresses.entry) transport.now result }
{
    match addresses {
        IpAddresses::Ipv4 {
            source,
            destination,
        } => {
            if is_too_long_over_ipv4(transport) {
                return ChecksumVerdict::Untested(Untested::TooLong);
            }
            verdict_over_ipv4(*source, *destination, transport)
        }
        IpAddresses::Ipv6 {
            source,
            destination: Some(destination),
        } => {
            if transport.slice().len() > u32::MAX as usize {
                return ChecksumVerdict::Untested(Untested::TooLong);
            }
            verdict_over_ipv6(*source, *destination, transport)
        }
        IpAddresses::Ipv6 {
            destination: None,
            ..
        } => ChecksumVerdict::Untested(Untested::UnknownDestination),
    }
}

/// Whether the packet is too long for a pseudo header over IPv4 (RFC 768). An ICMPv4 message has no pseudo header.
#[inline(always)]
fn is_too_long_over_ipv4(transport: &TransportSlice<'_>) -> bool
    ensures { result ≡ specs.is_too_long_over_ipv4 transport.now }
{
    match transport {
        TransportSlice::Udp(packet) => packet.slice().len() > u16::MAX as usize,
        TransportSlice::Tcp(segment) => segment.slice().len() > u16::MAX as usize,
        TransportSlice::Icmpv4(_) | TransportSlice::Icmpv6(_) => false,
    }
}

/// The verdict on the packet over IPv4. ICMPv6 is not tested.
#[inline(always)]
fn verdict_over_ipv4(
    source: [u8; 4],
    destination: [u8; 4],
    transport: &TransportSlice<'_>,
) -> ChecksumVerdict
    requires counted { specs.is_too_long_over_ipv4 transport.now ≡ false }
    ensures { JudgesOverIpv4 source destination transport.now result }
{
    match transport {
        TransportSlice::Udp(packet) => udp_verdict_ipv4(source, destination, packet),
        TransportSlice::Tcp(segment) => tcp_verdict_ipv4(source, destination, segment),
        TransportSlice::Icmpv4(message) => icmpv4_verdict(message),
        TransportSlice::Icmpv6(_) => ChecksumVerdict::Untested(Untested::OtherProtocol),
    }
}

/// The verdict on the packet over IPv6. ICMPv4 is not tested.
#[inline(always)]
fn verdict_over_ipv6(
    source: [u8; 16],
    destination: [u8; 16],
    transport: &TransportSlice<'_>,
) -> ChecksumVerdict
    requires counted { length (bytes_of transport.now) ≤ max_len_over_ipv6 }
    ensures { JudgesOverIpv6 source destination transport.now result }
{
    match transport {
        TransportSlice::Udp(packet) => udp_verdict_ipv6(source, destination, packet),
        TransportSlice::Tcp(segment) => tcp_verdict_ipv6(source, destination, segment),
        TransportSlice::Icmpv4(_) => ChecksumVerdict::Untested(Untested::OtherProtocol),
        TransportSlice::Icmpv6(message) => icmpv6_verdict(source, destination, message),
    }
}

/// The verdict on a UDP packet over IPv4. A checksum of 0 means that the packet has no checksum (RFC 768).
#[inline(always)]
fn udp_verdict_ipv4(source: [u8; 4], destination: [u8; 4], packet: &UdpSlice<'_>) -> ChecksumVerdict
    requires counted { length packet.now ≤ max_len_over_ipv4 }
    ensures { JudgesUdpIpv4 source destination packet.now result }
{
    let stored = packet.checksum();
    if stored == 0 {
        return ChecksumVerdict::Absent;
    }
    let bytes = packet.slice();
    let pseudo_header = pseudo_header_ipv4(source, destination, ip_number::UDP, bytes.len() as u16);
    match sum_unless_right(pseudo_header, bytes, UDP_CHECKSUM_AT) {
        Some(sum) => {
            wrong_or_partial(pseudo_header, stored, sum.to_ones_complement_with_no_zero())
        }
        None => ChecksumVerdict::Right,
    }
}

/// The verdict on a UDP packet over IPv6. A checksum of 0 is wrong (RFC 8200, section 8.1).
#[inline(always)]
fn udp_verdict_ipv6(
    source: [u8; 16],
    destination: [u8; 16],
    packet: &UdpSlice<'_>,
) -> ChecksumVerdict
    requires counted { length packet.now ≤ max_len_over_ipv6 }
    ensures { JudgesBy (IsValidUdpIpv6 source destination) (partial_over_ipv6 source destination udp_number packet.now) udp_checksum_place packet.now result }
{
    let stored = packet.checksum();
    let bytes = packet.slice();
    let pseudo_header = pseudo_header_ipv6(source, destination, ip_number::UDP, bytes.len() as u32);
    match sum_unless_right(pseudo_header, bytes, UDP_CHECKSUM_AT) {
        Some(sum) => {
            wrong_or_partial(pseudo_header, stored, sum.to_ones_complement_with_no_zero())
        }
        None if stored == 0 => wrong_or_partial(pseudo_header, stored, u16::MAX),
        None => ChecksumVerdict::Right,
    }
}

/// The verdict on a TCP segment over IPv4.
#[inline(always)]
fn tcp_verdict_ipv4(
    source: [u8; 4],
    destination: [u8; 4],
    segment: &TcpSlice<'_>,
) -> ChecksumVerdict
    requires counted { length segment.now ≤ max_len_over_ipv4 }
    ensures { JudgesBy (IsValidTcpIpv4 source destination) (partial_over_ipv4 source destination tcp_number segment.now) tcp_checksum_place segment.now result }
{
    let bytes = segment.slice();
    let pseudo_header = pseudo_header_ipv4(source, destination, ip_number::TCP, bytes.len() as u16);
    judged(pseudo_header, bytes, TCP_CHECKSUM_AT)
}

/// The verdict on a TCP segment over IPv6.
#[inline(always)]
fn tcp_verdict_ipv6(
    source: [u8; 16],
    destination: [u8; 16],
    segment: &TcpSlice<'_>,
) -> ChecksumVerdict
    requires counted { length segment.now ≤ max_len_over_ipv6 }
    ensures { JudgesBy (IsValidTcpIpv6 source destination) (partial_over_ipv6 source destination tcp_number segment.now) tcp_checksum_place segment.now result }
{
    let bytes = segment.slice();
    let pseudo_header = pseudo_header_ipv6(source, destination, ip_number::TCP, bytes.len() as u32);
    judged(pseudo_header, bytes, TCP_CHECKSUM_AT)
}

/// The verdict on an ICMPv4 message, which has no pseudo header (RFC 792).
#[inline(always)]
fn icmpv4_verdict(message: &Icmpv4Slice<'_>) -> ChecksumVerdict
    ensures { JudgesIcmpv4 message.now result }
{
    let sum = sum_but_checksum(message.slice());
    if is_all_ones_with(sum, message.checksum()) {
        return ChecksumVerdict::Right;
    }
    ChecksumVerdict::Wrong {
        expected: sum.ones_complement(),
    }
}

/// The verdict on an ICMPv6 message (RFC 4443, section 2.3).
#[inline(always)]
fn icmpv6_verdict(
    source: [u8; 16],
    destination: [u8; 16],
    message: &Icmpv6Slice<'_>,
) -> ChecksumVerdict
    requires counted { length message.now ≤ max_len_over_ipv6 }
    ensures { JudgesBy (IsValidIcmpv6 source destination) (partial_over_ipv6 source destination icmpv6_number message.now) icmp_checksum_place message.now result }
{
    let bytes = message.slice();
    let pseudo_header = pseudo_header_ipv6(
        source,
        destination,
        ip_number::IPV6_ICMP,
        bytes.len() as u32,
    );
    judged(pseudo_header, bytes, ICMP_CHECKSUM_AT)
}
