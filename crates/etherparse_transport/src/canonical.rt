ghost use Rattle.std.specs.Prelude.{◌≡◌, ◌≤◌, ◌++◌, IfOk, length, drop, take};
ghost use Rattle.net_base.specs.Refusals.{RefusesExactly};
ghost use Rattle.etherparse_transport.specs.Formats.{IsCanonical, WritesDecoded, canonical, max_header_len, refusal};
ghost use Rattle.transport_part.specs.Layouts.{layout_of};

use crate::err::tcp::HeaderSliceError;
use crate::{Icmpv4Header, Icmpv6Header, Proto, TcpHeader, UdpHeader};
use arrayvec::ArrayVec;

/// The canonical bytes of a packet's header (RFC 768; RFC 9293, section 3.1; RFC 792; RFC 4443, section 2.1), and the bytes after the
/// header, borrowed from the slice.
///
/// The canonical bytes of a header are the bytes that `to_bytes` writes for the header that `from_slice` reads. All bits that reading
/// ignores are cleared, including the bits of RFC 4884. If the canonical bytes and the bytes after the header are read together, the result
/// is the same header and the same bytes after it. The canonical bytes are canonical themselves. The packet's checksum is kept. If a bit
/// was cleared, the checksum may be wrong afterwards.
///
/// # Errors
///
/// The errors of `TransportHeader::from_slice`.
#[inline(always)]
pub fn canonical_header<'a>(
    protocol: Proto,
    slice: &'a [u8],
) -> Result<(ArrayVec<u8, 60>, &'a [u8]), HeaderSliceError>
    ensures refused { RefusesExactly result (refusal protocol slice.now) }
    ensures decoded { IfOk result (λ found. WritesDecoded protocol slice.now found.0.items found.1.now) }
    ensures header { IfOk result (λ found. found.0.items
        ≡ take (layout_of protocol slice.now).header_len (canonical protocol slice.now)) }
    ensures rest { IfOk result (λ found. found.1.now
        ≡ drop (layout_of protocol slice.now).header_len slice.now) }
    ensures canonical { IfOk result (λ found. found.0.items ++ found.1.now ≡ canonical protocol slice.now) }
    ensures again { IfOk result (λ found. IsCanonical protocol (found.0.items ++ found.1.now)) }
{
    // perf: with one path for all protocols, the header is put together in memory (24 Nov 2026).
    match protocol {
        Proto::Udp => canonical_udp(slice),
        Proto::Tcp => canonical_tcp(slice),
        Proto::Icmpv4 => canonical_icmpv4(slice),
        Proto::Icmpv6 => canonical_icmpv6(slice),
    }
}

/// Does what `canonical_header` does, for a UDP packet.
fn canonical_udp(slice: &[u8]) -> Result<(ArrayVec<u8, 60>, &[u8]), HeaderSliceError>
    ensures refused { RefusesExactly result (refusal Proto.Udp slice.now) }
    ensures decoded { IfOk result (λ found. WritesDecoded Proto.Udp slice.now found.0.items found.1.now) }
    ensures canonical { IfOk result (λ found. found.0.items ++ found.1.now ≡ canonical Proto.Udp slice.now) }
{
    match UdpHeader::from_slice(slice) {
        Ok((header, rest)) => Ok((header_bytes(header.to_bytes().as_slice()), rest)),
        Err(error) => Err(HeaderSliceError::Len(error)),
    }
}

/// Does what `canonical_header` does, for a TCP packet.
fn canonical_tcp(slice: &[u8]) -> Result<(ArrayVec<u8, 60>, &[u8]), HeaderSliceError>
    ensures refused { RefusesExactly result (refusal Proto.Tcp slice.now) }
    ensures decoded { IfOk result (λ found. WritesDecoded Proto.Tcp slice.now found.0.items found.1.now) }
    ensures canonical { IfOk result (λ found. found.0.items ++ found.1.now ≡ canonical Proto.Tcp slice.now) }
{
    let (header, rest) = TcpHeader::from_slice(slice)?;
    Ok((header.to_bytes(), rest))
}

/// Does what `canonical_header` does, for an ICMPv4 packet.
fn canonical_icmpv4(slice: &[u8]) -> Result<(ArrayVec<u8, 60>, &[u8]), HeaderSliceError>
    ensures refused { RefusesExactly result (refusal Proto.Icmpv4 slice.now) }
    ensures decoded { IfOk result (λ found. WritesDecoded Proto.Icmpv4 slice.now found.0.items found.1.now) }
    ensures canonical { IfOk result (λ found. found.0.items ++ found.1.now ≡ canonical Proto.Icmpv4 slice.now) }
{
    let (header, rest) = match Icmpv4Header::from_slice(slice) {
        Ok(found) => found,
        Err(error) => return Err(HeaderSliceError::Len(error)),
    };
    let bytes = header.to_bytes();
    // The eight bytes of any message except timestamps are copied at once.
    if bytes.len() == Icmpv4Header::MIN_LEN {
        return Ok((header_bytes(&bytes[..Icmpv4Header::MIN_LEN]), rest));
    }
    Ok((header_bytes(&bytes), rest))
}

/// Does what `canonical_header` does, for an ICMPv6 packet.
fn canonical_icmpv6(slice: &[u8]) -> Result<(ArrayVec<u8, 60>, &[u8]), HeaderSliceError>
    ensures refused { RefusesExactly result (refusal Proto.Icmpv6 slice.now) }
    ensures decoded { IfOk result (λ found. WritesDecoded Proto.Icmpv6 slice.now found.0.items found.1.now) }
    ensures canonical { IfOk result (λ found. found.0.items ++ found.1.now ≡ canonical Proto.Icmpv6 slice.now) }
{
    match Icmpv6Header::from_slice(slice) {
        Ok((header, rest)) => Ok((header_bytes(header.to_bytes().as_slice()), rest)),
        Err(error) => Err(HeaderSliceError::Len(error)),
    }
}

/// Copies the bytes to an array with room for the longest header.
#[inline(always)]
pub(crate) fn header_bytes(bytes: &[u8]) -> ArrayVec<u8, 60>
    requires { length bytes.now ≤ max_header_len }
    ensures { result.items ≡ bytes.now }
{
    let mut header = ArrayVec::new();
    header.try_extend_from_slice(bytes).unwrap();
    header
}
