//! Generic Routing Encapsulation, GRE, version 0 (RFC 2784; RFC 2890).

ghost use Rattle.std.specs.Prelude.{◌≡◌, ◌≤◌};
ghost use Rattle.std.specs.Option.{option_map};
ghost use Rattle.capture_packet.specs.Gre as specs;
ghost use Rattle.capture_packet.specs.InnerPackets.{packet_of_type};
ghost use Rattle.capture_packet.specs.Tunnels.{packet_after_gre};

use crate::fixed_header::{ipv4_packet, ipv6_packet};
use crate::link::ether_type;

/// The length of a header without optional fields, in bytes (RFC 2784, section 2.1).
const SHORTEST_LEN: usize = 4;

/// The length of an optional field, in bytes.
const FIELD_LEN: usize = 4;

/// The bit that is set if a checksum and two reserved bytes after the checksum are present (RFC 2784, section 2.2).
const CHECKSUM: u16 = 0x8000;

/// The bit that is set if a key is present (RFC 2890, section 2.1).
const KEY: u16 = 0x2000;

/// The bit that is set if a sequence number is present (RFC 2890, section 2.2).
const SEQUENCE_NUMBER: u16 = 0x1000;

/// The bits that are 0 in each header that is read: the reserved bits that a receiver checks, and the version (RFC 2784, section 2.3).
const ZEROS: u16 = 0x4C07;

/// The protocol type of IPv4 (RFC 2784, section 3).
const IPV4: u16 = ether_type::IPV4;

/// The protocol type of IPv6 (RFC 7676, section 3.1).
const IPV6: u16 = ether_type::IPV6;

/// The IP packet after the GRE header at the front of these bytes. `None` if the header is cut off, has another version or a reserved bit
/// that a receiver refuses, or if another protocol follows.
pub(crate) fn packet_after_gre(bytes: &[u8]) -> Option<&[u8]>
    ensures { option_map (λ packet. packet.now) result ≡ packet_after_gre bytes.now }
{
    if bytes.len() < SHORTEST_LEN {
        return None;
    }
    let first_bits = u16::from_be_bytes([bytes[0], bytes[1]]);
    if first_bits & ZEROS != 0 {
        return None;
    }
    let len = header_len(first_bits);
    if bytes.len() < len {
        return None;
    }
    packet_of_type(u16::from_be_bytes([bytes[2], bytes[3]]), &bytes[len..])
}

/// The length of a header with these first bits, in bytes.
fn header_len(first_bits: u16) -> usize
    ensures is { result ≡ specs.len_with first_bits }
    ensures most { result ≤ 16 }
{
    SHORTEST_LEN
        + field_len(first_bits, CHECKSUM)
        + field_len(first_bits, KEY)
        + field_len(first_bits, SEQUENCE_NUMBER)
}

/// The length of an optional field, in bytes: 0 if its bit is not set.
fn field_len(first_bits: u16, bit: u16) -> usize
    ensures is { result ≡ specs.field_len first_bits bit }
    ensures most { result ≤ 4 }
{
    if first_bits & bit == 0 { 0 } else { FIELD_LEN }
}

/// These bytes as a packet of the protocol with this ether type. `None` if the protocol is not IP, or if the bytes do not begin with the
/// fixed part of an IP header of this version.
pub(crate) fn packet_of_type(ether_type: u16, bytes: &[u8]) -> Option<&[u8]>
    ensures { option_map (λ packet. packet.now) result ≡ packet_of_type ether_type bytes.now }
{
    match ether_type {
        IPV4 => ipv4_packet(bytes),
        IPV6 => ipv6_packet(bytes),
        _ => None,
    }
}
