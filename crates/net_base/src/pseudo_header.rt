//! The sum of a pseudo header. A checksum of UDP, TCP or ICMPv6 covers the pseudo header and the packet.

ghost use Rattle.std.specs.Prelude.{◌≡◌, ◌<◌};
ghost use Rattle.net_base.specs.PseudoHeader as specs;
ghost use Rattle.word_sum.specs.Checksum.{folded, total};
ghost use Rattle.word_sum.specs.SumValue.{sum_value};

use crate::IpNumber;
use word_sum::checksum::Sum16BitWords;

/// Returns the sum of a pseudo header over IPv4: source, destination, protocol, and the number of bytes of header and payload (RFC 768; RFC
/// 9293, section 3.1).
#[inline(always)]
pub fn pseudo_header_ipv4(
    source: [u8; 4],
    destination: [u8; 4],
    protocol: IpNumber,
    len: u16,
) -> Sum16BitWords
    ensures sum { sum_value result ≡ folded (total (specs.ipv4_pseudo_header source destination protocol.0 len)) }
    ensures some { 0 < protocol.0 → 0 < sum_value result }
{
    Sum16BitWords::new()
        .add_4bytes(source)
        .add_4bytes(destination)
        .add_2bytes([0, protocol.0])
        .add_2bytes(len.to_be_bytes())
}

/// Returns the sum of a pseudo header over IPv6: source, final destination, the number of bytes of header and payload, and protocol (RFC
/// 8200, section 8.1).
#[inline(always)]
pub fn pseudo_header_ipv6(
    source: [u8; 16],
    destination: [u8; 16],
    protocol: IpNumber,
    len: u32,
) -> Sum16BitWords
    ensures sum { sum_value result ≡ folded (total (specs.ipv6_pseudo_header source destination protocol.0 len)) }
    ensures some { 0 < protocol.0 → 0 < sum_value result }
{
    // perf: the addresses are added last, since smaller numbers before them have no carry (27 Nov 2026).
    Sum16BitWords::new()
        .add_4bytes(len.to_be_bytes())
        .add_4bytes([0, 0, 0, protocol.0])
        .add_16bytes(source)
        .add_16bytes(destination)
}
