ghost use Rattle.std.specs.Prelude.{◌≡◌, ◌≤◌, ◌<◌, ◌+◌, ◌-◌, ◌++◌, ◌↔◌, [], IfNone, IfSome, IsSome, IsTrue, length};
ghost use Rattle.std.specs.Int.{to_be_bytes, w16};
ghost use Rattle.net_base.specs.IpHeaders.{BeginsWithIpv4Header, BeginsWithIpv6Header, ipv4_header_len};
ghost use Rattle.ip_part.specs.Ip.{ipv4_header};
ghost use Rattle.word_sum.specs.Checksum.{Verifies, checksum_of, total};
ghost use Rattle.reassembly.specs.Fragments.{fragment_header_in};
ghost use Rattle.reassembly.specs.WholeHeaders as specs;
ghost use borrow.Rule.Slice.PartMut.{put_mid};

use crate::fragment_header::{FragmentPlace, fragment_header_at};
use arrayvec::ArrayVec;
use net_base::{Ipv4Header, Ipv4HeaderSlice, Ipv6Header, Ipv6HeaderSlice};
use word_sum::checksum::Sum16BitWords;

/// The length of the longest IPv4 header, in bytes (RFC 791, section 3.1).
pub const MAX_IPV4_HEADER_LEN: usize = 60;

/// The greatest length of the headers of an IPv6 packet that is put together, in bytes: the IPv6 header, and 216 bytes of extension
/// headers.
pub const MAX_IPV6_HEADER_LEN: usize = 256;

/// The place of the payload length in an IPv6 header (RFC 8200, section 3).
const PAYLOAD_LEN_AT: usize = 4;

/// The number of bytes of an IPv4 header up to its checksum, including the checksum (RFC 791, section 3.1).
const FRONT_LEN: usize = Ipv4Header::CHECKSUM_AT + 2;

/// The flags that are not cleared: "don't fragment", and the reserved bit (RFC 791, section 3.1).
const KEPT_FLAGS: u8 = 0xC0;

/// The IPv4 header of a packet that was put together, as if it was never fragmented (RFC 791, section 3.2). The total length counts the
/// whole packet, and the checksum is right. More fragments and the fragment offset are 0. All other fields and the options are those of the
/// first fragment. `None` if the fragment does not begin with an IPv4 header, or if header and payload have more than 65,535 bytes.
pub fn whole_ipv4_header(
    first_fragment: &[u8],
    payload_len: u16,
) -> Option<ArrayVec<u8, MAX_IPV4_HEADER_LEN>>
    ensures found { IsSome result ↔ (BeginsWithIpv4Header first_fragment.now × (ipv4_header_len first_fragment.now + payload_len ≤ specs.max_total_len)) }
    ensures written { IfSome result (λ header. header.items
        ≡ specs.whole_ipv4_header (ipv4_header first_fragment.now) (ipv4_header_len first_fragment.now + payload_len)) }
    ensures len { IfSome result (λ header. length header.items ≡ ipv4_header_len first_fragment.now) }
    ensures verifies { IfSome result (λ header. Verifies [] header.items) }
{
    let header = ipv4_header_of(first_fragment)?;
    let total_len = u16::try_from(header.len() + usize::from(payload_len)).ok()?;
    let checksum = checksum_of(with_checksum(header, total_len, 0).as_slice());
    Some(with_checksum(header, total_len, checksum))
}

/// The IPv4 header at the front of a packet, or `None` if the packet does not begin with an IPv4 header.
fn ipv4_header_of(packet: &[u8]) -> Option<&[u8]>
    ensures found { IsSome result ↔ BeginsWithIpv4Header packet.now }
    ensures kept { IfSome result (λ header. header.now ≡ ipv4_header packet.now) }
    ensures len { IfSome result (λ header. length header.now ≡ ipv4_header_len packet.now) }
    ensures shortest { IfSome result (λ header. 20 ≤ length header.now) }
    ensures most { IfSome result (λ header. length header.now ≤ 60) }
{
    let header = Ipv4HeaderSlice::from_slice(packet)?;
    Some(header.slice())
}

/// The header of a whole packet with this total length and checksum. `header` is the header of its first fragment.
fn with_checksum(header: &[u8], total_len: u16, checksum: u16) -> ArrayVec<u8, MAX_IPV4_HEADER_LEN>
    requires shortest { 20 ≤ length header.now }
    requires most { length header.now ≤ 60 }
    ensures { result.items ≡ specs.ipv4_with_checksum header.now total_len checksum }
{
    let mut bytes = ArrayVec::new();
    bytes
        .try_extend_from_slice(&front_with_checksum(header, total_len, checksum))
        .unwrap();
    bytes.try_extend_from_slice(&header[FRONT_LEN..]).unwrap();
    bytes
}

/// The bytes of an IPv4 header up to its checksum, for a whole packet with this total length and checksum. `header` is the header of the
/// first fragment.
#[inline(always)]
fn front_with_checksum(header: &[u8], total_len: u16, checksum: u16) -> [u8; FRONT_LEN]
    requires { 20 ≤ length header.now }
    ensures { result ≡ specs.ipv4_front header.now total_len ++ to_be_bytes w16 checksum }
{
    let [total_high, total_low] = total_len.to_be_bytes();
    let [checksum_high, checksum_low] = checksum.to_be_bytes();
    let flags = header[6] & KEPT_FLAGS;
    [
        header[0],
        header[1],
        total_high,
        total_low,
        header[4],
        header[5],
        flags,
        0,
        header[8],
        header[9],
        checksum_high,
        checksum_low,
    ]
}

/// Writes the header of a whole packet with this total length to `written`, which has the length of this header. `header` is the header of
/// the first fragment.
fn write_ipv4_header(written: &mut [u8], header: &[u8], total_len: u16)
    requires shortest { 20 ≤ length header.now }
    requires len { length written.old ≡ length header.now }
    ensures header { written.new ≡ specs.whole_ipv4_header header.now total_len }
    ensures len { length written.new ≡ length header.now }
{
    written[..FRONT_LEN].copy_from_slice(&front_with_checksum(header, total_len, 0));
    written[FRONT_LEN..].copy_from_slice(&header[FRONT_LEN..]);
    let checksum = checksum_of(written);
    written[..FRONT_LEN].copy_from_slice(&front_with_checksum(header, total_len, checksum));
}

/// The checksum field for these bytes.
fn checksum_of(bytes: &[u8]) -> u16
    ensures { result ≡ checksum_of (total bytes.now) }
{
    Sum16BitWords::new().add_slice(bytes).ones_complement()
}

/// The headers of an IPv6 packet that was put together, as if it was never fragmented (RFC 8200, section 4.5). They are the headers before
/// the fragment header of the first fragment. The payload length counts all bytes after the IPv6 header. The last header contains the
/// number of the header that follows the fragment header. `payload_len` is the length of the payload that the fragments contain. `None` if
/// the fragment does not begin with an IPv6 header or has no fragment header. `None` also if the headers have more than 256 bytes, or if
/// extension headers and payload have more than 65,535 bytes.
#[tactic(auto, using(crate::proofs::WholeHeaderLemmas::has_ipv6, crate::proofs::WholeHeaderLemmas::not_found, crate::proofs::WholeHeaderLemmas::short_place, crate::proofs::WholeHeaderLemmas::ipv6_written))]
pub fn whole_ipv6_header(
    first_fragment: &[u8],
    payload_len: u16,
) -> Option<ArrayVec<u8, MAX_IPV6_HEADER_LEN>>
    ensures found { IsSome result ↔ specs.HasIpv6Header first_fragment.now payload_len }
    ensures written { IfSome result (λ header. header.items
        ≡ specs.ipv6_header_by first_fragment.now (fragment_header_in first_fragment.now) payload_len) }
    ensures len { IfSome result (λ header. length header.items ≤ length first_fragment.now) }
{
    if !begins_with_ipv6_header(first_fragment) {
        return None;
    }
    let found = fragment_header_at(first_fragment)?;
    if found.place > MAX_IPV6_HEADER_LEN {
        return None;
    }
    let len = found.place - Ipv6Header::LEN + usize::from(payload_len);
    let payload_len = u16::try_from(len).ok()?;
    Some(without_fragment_header(first_fragment, found, payload_len))
}

/// Whether a packet begins with an IPv6 header.
fn begins_with_ipv6_header(packet: &[u8]) -> bool
    ensures { IsTrue result ↔ BeginsWithIpv6Header packet.now }
{
    Ipv6HeaderSlice::from_slice(packet).is_some()
}

/// The headers before a fragment header, with this payload length. The last of them contains the number of the header that follows the
/// fragment header.
fn without_fragment_header(
    headers: &[u8],
    found: FragmentPlace,
    payload_len: u16,
) -> ArrayVec<u8, MAX_IPV6_HEADER_LEN>
    requires short { found.place ≤ 256 }
    requires shortest { 40 ≤ found.place }
    requires before { found.number_at < found.place }
    requires within { found.place < length headers.now }
    ensures { result.items ≡ specs.whole_ipv6_header headers.now found payload_len }
{
    let mut bytes = ArrayVec::new();
    bytes
        .try_extend_from_slice(&headers[..found.place])
        .unwrap();
    let written = bytes.as_mut_slice();
    let [high, low] = payload_len.to_be_bytes();
    written[PAYLOAD_LEN_AT] = high;
    written[PAYLOAD_LEN_AT + 1] = low;
    written[found.number_at] = headers[found.place];
    bytes
}

/// Writes the headers of the whole packet to the buffer, so that they end at the place `room`. They are given by the headers of its first
/// fragment and the length of its payload. Returns the place of their first byte. If `whole_ipv4_header` or `whole_ipv6_header` returns
/// `None`, the function returns `None` and writes nothing.
#[tactic(auto, using(crate::proofs::WholeHeaderLemmas::only_ipv6, crate::proofs::WholeHeaderLemmas::only_ipv4, crate::proofs::WholeHeaderLemmas::by_ipv6, crate::proofs::WholeHeaderLemmas::by_ipv4))]
pub(crate) fn write_whole_header(
    buffer: &mut [u8],
    room: usize,
    first_fragment: &[u8],
    payload_len: u16,
) -> Option<usize>
    requires fits { length first_fragment.now ≤ room }
    requires long { room ≤ length buffer.old }
    ensures found { IsSome result ↔ specs.HasWholeHeader first_fragment.now payload_len }
    ensures place { IfSome result (λ start. start + length (specs.whole_header first_fragment.now payload_len) ≡ room) }
    ensures written { IfSome result (λ start. buffer.new ≡ put_mid start (room - start) buffer.old (specs.whole_header first_fragment.now payload_len)) }
    ensures unchanged { IfNone result (buffer.new ≡ buffer.old) }
{
    if first_fragment.is_empty() || first_fragment[0] >> 4 != 4 {
        return write_whole_ipv6_header(buffer, room, first_fragment, payload_len);
    }
    write_whole_ipv4_header(buffer, room, first_fragment, payload_len)
}

/// Writes the header of a whole IPv6 packet, as `write_whole_header` does.
fn write_whole_ipv6_header(
    buffer: &mut [u8],
    room: usize,
    first_fragment: &[u8],
    payload_len: u16,
) -> Option<usize>
    requires fits { length first_fragment.now ≤ room }
    requires long { room ≤ length buffer.old }
    ensures found { IsSome result ↔ specs.HasIpv6Header first_fragment.now payload_len }
    ensures place { IfSome result (λ start.
        start + length (specs.ipv6_header_by first_fragment.now (fragment_header_in first_fragment.now) payload_len) ≡ room) }
    ensures written { IfSome result (λ start. buffer.new ≡ put_mid start (room - start) buffer.old
        (specs.ipv6_header_by first_fragment.now (fragment_header_in first_fragment.now) payload_len)) }
    ensures unchanged { IfNone result (buffer.new ≡ buffer.old) }
{
    let header = whole_ipv6_header(first_fragment, payload_len)?;
    let start = room - header.len();
    buffer[start..room].copy_from_slice(header.as_slice());
    Some(start)
}

/// Writes the header of a whole IPv4 packet, as `write_whole_header` does.
fn write_whole_ipv4_header(
    buffer: &mut [u8],
    room: usize,
    first_fragment: &[u8],
    payload_len: u16,
) -> Option<usize>
    requires fits { length first_fragment.now ≤ room }
    requires long { room ≤ length buffer.old }
    ensures found { IsSome result ↔ (BeginsWithIpv4Header first_fragment.now × (ipv4_header_len first_fragment.now + payload_len ≤ specs.max_total_len)) }
    ensures place { IfSome result (λ start. start
        + length (specs.whole_ipv4_header (ipv4_header first_fragment.now) (ipv4_header_len first_fragment.now + payload_len)) ≡ room) }
    ensures written { IfSome result (λ start. buffer.new ≡ put_mid start (room - start) buffer.old
        (specs.whole_ipv4_header (ipv4_header first_fragment.now) (ipv4_header_len first_fragment.now + payload_len))) }
    ensures unchanged { IfNone result (buffer.new ≡ buffer.old) }
{
    let header = ipv4_header_of(first_fragment)?;
    let total_len = u16::try_from(header.len() + usize::from(payload_len)).ok()?;
    let start = room - header.len();
    write_ipv4_header(&mut buffer[start..room], header, total_len);
    Some(start)
}
