ghost use Rattle.std.specs.Int.{to_be_bytes, w16};
ghost use Rattle.std.specs.Prelude.{◌≡◌, ◌++◌, ◌∷◌};
ghost use Rattle.etherparse_transport.specs.Packets as specs;

use crate::checksum::Sum16BitWords;
use crate::{IpNumber, Ipv4Header, Ipv6Header};
use arrayvec::ArrayVec;

/// The length of an IPv4 header without options, in bytes (RFC 791, section 3.1).
pub(crate) const IPV4_LEN: usize = Ipv4Header::MIN_LEN;

/// The place of the time to live in an IPv4 header, in bytes from its start (RFC 791, section 3.1).
pub(crate) const IPV4_TIME_TO_LIVE_AT: usize = Ipv4Header::TIME_TO_LIVE_AT;

/// The place of the protocol in an IPv4 header.
pub(crate) const IPV4_PROTOCOL_AT: usize = Ipv4Header::PROTOCOL_AT;

/// The place of the checksum in an IPv4 header.
pub(crate) const IPV4_CHECKSUM_AT: usize = Ipv4Header::CHECKSUM_AT;

/// The place of the source in an IPv4 header.
pub(crate) const IPV4_SOURCE_AT: usize = Ipv4Header::SOURCE_AT;

/// The place of the destination in an IPv4 header.
pub(crate) const IPV4_DESTINATION_AT: usize = Ipv4Header::DESTINATION_AT;

/// The length of an IPv6 header, in bytes (RFC 8200, section 3).
pub(crate) const IPV6_LEN: usize = Ipv6Header::LEN;

/// The place of the hop limit, in bytes from the start of an IPv6 header (RFC 8200, section 3).
pub(crate) const IPV6_HOP_LIMIT_AT: usize = 7;

/// An IPv4 header without options, with its checksum (RFC 791, section 3.1). `start` contains its first eight bytes: version, header
/// length, type of service, total length, identification, flags and fragment offset.
pub(crate) fn ipv4_header(
    start: [u8; 8],
    time_to_live: u8,
    protocol: IpNumber,
    source: [u8; 4],
    destination: [u8; 4],
) -> ArrayVec<u8, IPV4_LEN>
    ensures { result.items ≡ specs.ipv4_header start time_to_live protocol.0 source destination }
{
    // perf: the sum is computed from the fields. Bytes that were just written one by one are slow to load eight at a time (27 Nov 2026).
    let [a, b, c, d, e, f, g, h] = start;
    let checksum = Sum16BitWords::new()
        .add_4bytes([a, b, c, d])
        .add_4bytes([e, f, g, h])
        .add_2bytes([time_to_live, protocol.0])
        .add_4bytes(source)
        .add_4bytes(destination)
        .ones_complement();
    let middle = ipv4_middle(time_to_live, protocol, checksum);
    ipv4_fields(start, middle, source, destination)
}

/// The middle of an IPv4 header: bytes 8 to 11, which are the time to live, the protocol and the checksum.
pub(crate) fn ipv4_middle(time_to_live: u8, protocol: IpNumber, checksum: u16) -> [u8; 4]
    ensures { result ≡ time_to_live ∷ protocol.0 ∷ to_be_bytes w16 checksum }
{
    let [checksum_high, checksum_low] = checksum.to_be_bytes();
    [time_to_live, protocol.0, checksum_high, checksum_low]
}

/// An IPv4 header without options, of its first eight bytes, its [middle](ipv4_middle) and its addresses.
pub(crate) fn ipv4_fields(
    start: [u8; 8],
    middle: [u8; 4],
    source: [u8; 4],
    destination: [u8; 4],
) -> ArrayVec<u8, IPV4_LEN>
    ensures { result.items ≡ start ++ (middle ++ (source ++ destination)) }
{
    let mut header = ArrayVec::new();
    header.try_extend_from_slice(&start).unwrap();
    header.try_extend_from_slice(&middle).unwrap();
    header.try_extend_from_slice(&source).unwrap();
    header.try_extend_from_slice(&destination).unwrap();
    header
}

/// An IPv6 header (RFC 8200, section 3). `start` contains its first six bytes: version, traffic class, flow label and payload length.
pub(crate) fn ipv6_header(
    start: [u8; 6],
    next_header: IpNumber,
    hop_limit: u8,
    source: [u8; 16],
    destination: [u8; 16],
) -> ArrayVec<u8, IPV6_LEN>
    ensures { result.items ≡ specs.ipv6_header start next_header.0 hop_limit source destination }
{
    let mut header = ArrayVec::new();
    header.try_extend_from_slice(&start).unwrap();
    header
        .try_extend_from_slice(&[next_header.0, hop_limit])
        .unwrap();
    header.try_extend_from_slice(&source).unwrap();
    header.try_extend_from_slice(&destination).unwrap();
    header
}
