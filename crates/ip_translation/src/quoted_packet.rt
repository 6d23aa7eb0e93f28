ghost use Rattle.std.specs.Prelude.{◌≡◌, ◌≤◌, ◌+◌, ◌++◌, length, slice_index};
ghost use Rattle.ip_translation.specs.QuotedPackets as specs;

use crate::header_translation::IPV6_LEN;
use crate::icmp_errors::MIN_IPV6_MTU;
use arrayvec::ArrayVec;

/// The greatest length of an ICMPv6 error without its IPv6 header, in bytes: with this header, it has at most the least MTU of IPv6 (RFC
/// 4443, section 2.4).
pub(crate) const MAX_ERROR_LEN: usize = MIN_IPV6_MTU as usize - IPV6_LEN;

/// The greatest length of a quoted packet, in bytes. Before it is the header of ICMPv6.
pub(crate) const MAX_PACKET_LEN: usize = MAX_ERROR_LEN - ERROR_LEN;

/// The greatest length of a quoted message, in bytes. Before it are the header of ICMPv6 and the quoted IPv6 header.
pub(crate) const MAX_QUOTED_LEN: usize = MAX_PACKET_LEN - IPV6_LEN;

/// The length of the header of an ICMP error, in bytes (RFC 792; RFC 4443, section 2.1, with the word that follows).
pub(crate) const ERROR_LEN: usize = 8;

/// A quoted packet of these headers and this message.
pub(crate) fn packet_of(headers: &[u8], message: &[u8]) -> ArrayVec<u8, MAX_PACKET_LEN>
    requires room { length headers.now + length message.now ≤ specs.max_packet_len }
    ensures bytes { result.items ≡ headers.now ++ message.now }
    ensures len { length result.items ≡ length headers.now + length message.now }
{
    let mut packet = ArrayVec::new();
    packet.try_extend_from_slice(headers).unwrap();
    packet.try_extend_from_slice(message).unwrap();
    packet
}

/// An error of these parts, with 0 instead of its checksum: type and code, the word after the checksum, and the quoted packet.
pub(crate) fn joined(kind: (u8, u8), word: [u8; 4], packet: &[u8]) -> ArrayVec<u8, MAX_ERROR_LEN>
    requires room { length packet.now ≤ specs.max_packet_len }
    ensures bytes { result.items ≡ specs.joined kind word packet.now }
    ensures len { length result.items ≡ 8 + length packet.now }
    ensures kind { slice_index result.items 0 ≡ kind.0 }
{
    let mut error = ArrayVec::new();
    error
        .try_extend_from_slice(&[kind.0, kind.1, 0, 0])
        .unwrap();
    error.try_extend_from_slice(&word).unwrap();
    error.try_extend_from_slice(packet).unwrap();
    error
}
