ghost use Rattle.std.specs.Prelude.{◌≡◌, ◌↔◌, ◌==◌, ◌||◌, ◌+◌, ◌*◌, ◌%◌, ◌^◌, IsTrue, [], bit_and, not};
ghost use Rattle.net_base.specs.Bytes.{IsBytes};
ghost use Rattle.word_sum.specs.Checksum.{Verifies};

use crate::{IpNumber, Ipv4Header};
use std::marker::Model;
use word_sum::checksum::Sum16BitWords;

/// The bytes of an IPv4 header (RFC 791, section 3.1). The low four bits of byte 0 are its length in words of four bytes.
///
/// ```
/// use anyhow::Context;
/// use etherparse_transport::{Ipv4HeaderSlice, ip_number};
///
/// let bytes = [0x45, 0, 0, 31, 0, 0, 0x40, 0, 64, 17, 0xB7, 0x7A, 192, 168, 1, 1, 192, 168, 1, 2];
/// let header = Ipv4HeaderSlice::from_slice(&bytes).context("no IPv4 header")?;
/// assert_eq!(rt; (header.total_len(), header.ttl()), (31, 64));
/// assert_eq!(rt; header.protocol(), ip_number::UDP);
/// assert_eq!(rt; header.destination(), [192, 168, 1, 2]);
/// assert!(rt; header.is_checksum_valid());
/// ```
#[derive(Clone, Debug, Drop)]
pub struct Ipv4HeaderSlice<'a> {
    slice: &'a [u8],
}

impl<'a> Model for Ipv4HeaderSlice<'a> {
    ghost use Rattle.std.specs.Prelude.{◌≡◌, ◌≤◌, List, ℕ, length};
    ghost use Rattle.net_base.specs.IpHeaders.{ipv4_header_len};

    ghost Value = { List ℕ };

    ghost view = { λ header. header.slice.now };

    ghost invariant = { λ header.
        (20 ≤ ipv4_header_len header.slice.now) × (length header.slice.now ≡ ipv4_header_len header.slice.now) };
}

impl<'a> Ipv4HeaderSlice<'a> {
    ghost use Rattle.std.specs.Prelude.{◌≡◌, ◌↔◌, ◌/◌, ◌%◌, IsSome, IfSome, IsTrue, [], drop, slice_index, slice_range, take};
    ghost use Rattle.net_base.specs.Bytes.{be_number, flag};
    ghost use Rattle.net_base.specs.Detection.{DetectsWithoutPseudoHeader};
    ghost use Rattle.net_base.specs.IpHeaders.{BeginsWithIpv4Header, ipv4_fragment_offset, ipv4_header_len, ipv4_header_of, ipv4_is_fragment, version};
    ghost use Rattle.word_sum.specs.Checksum.{Verifies};

    /// Reads the header at the front of the slice (RFC 791, section 3.1). The call returns `None` in these cases:
    /// - The slice is shorter than 20 bytes.
    /// - The version is not 4.
    /// - The header length is below five words of four bytes.
    /// - The slice is shorter than the header length.
    pub fn from_slice(slice: &'a [u8]) -> Option<Ipv4HeaderSlice<'a>>
        ensures found { IsSome result ↔ BeginsWithIpv4Header slice.now }
        ensures kept { IfSome result (λ header. header ≡ take (ipv4_header_len slice.now) slice.now) }
    {
        if slice.len() < Ipv4Header::MIN_LEN || slice[0] >> 4 != 4 {
            return None;
        }
        let header_len = usize::from(slice[0] & 0xf) * 4;
        if header_len < Ipv4Header::MIN_LEN || slice.len() < header_len {
            return None;
        }
        Some(Ipv4HeaderSlice {
            slice: &slice[..header_len],
        })
    }

    /// The bytes of the header with its options.
    pub fn slice(&self) -> &'a [u8]
        ensures { result.now ≡ self.now }
    {
        self.slice
    }

    /// The version, which is 4 (the high four bits of byte 0).
    pub fn version(&self) -> u8
        ensures { result ≡ version self.now }
    {
        self.slice[0] >> 4
    }

    /// The length of the header, in words of four bytes, 5 to 15 (the low four bits of byte 0).
    pub fn ihl(&self) -> u8
        ensures { result ≡ slice_index self.now 0 % 16 }
    {
        self.slice[0] & 0xf
    }

    /// The differentiated services code point, 0 to 63 (RFC 2474, section 3; the high six bits of byte 1).
    pub fn dscp(&self) -> u8
        ensures { result ≡ slice_index self.now 1 / 4 }
    {
        self.slice[1] >> 2
    }

    /// Explicit congestion notification, 0 to 3 (RFC 3168, section 5; the low two bits of byte 1).
    pub fn ecn(&self) -> u8
        ensures { result ≡ slice_index self.now 1 % 4 }
    {
        self.slice[1] & 3
    }

    /// The length of header and payload, in bytes, as the header states it (bytes 2 and 3). It may be below the length of the header.
    pub fn total_len(&self) -> u16
        ensures { result ≡ be_number self.now 2 2 }
    {
        u16::from_be_bytes([self.slice[2], self.slice[3]])
    }

    /// The identification, which all fragments of one packet share (bytes 4 and 5).
    pub fn identification(&self) -> u16
        ensures { result ≡ be_number self.now 4 2 }
    {
        u16::from_be_bytes([self.slice[4], self.slice[5]])
    }

    /// Whether the packet must not be fragmented (byte 6, bit 0x40).
    pub fn dont_fragment(&self) -> bool
        ensures { result ≡ flag self.now 6 0x40 }
    {
        self.slice[6] & 0x40 != 0
    }

    /// Whether more fragments of the packet follow (byte 6, bit 0x20).
    pub fn more_fragments(&self) -> bool
        ensures { result ≡ flag self.now 6 0x20 }
    {
        self.slice[6] & 0x20 != 0
    }

    /// The offset of this fragment's payload in the payload of the whole packet, in units of 8 bytes: 0 to 8,191 (the low 13 bits of bytes
    /// 6 and 7).
    pub fn fragments_offset(&self) -> u16
        ensures { result ≡ ipv4_fragment_offset self.now }
    {
        u16::from_be_bytes([self.slice[6], self.slice[7]]) & 0x1fff
    }

    /// Whether the payload is only a part of the payload of the whole packet: more fragments follow, or the offset is above 0 (RFC 791,
    /// section 3.2).
    pub fn is_fragmenting_payload(&self) -> bool
        ensures { result ≡ ipv4_is_fragment self.now }
    {
        is_fragment(self.slice[6], self.slice[7])
    }

    /// The number of hops that are left (byte 8).
    pub fn ttl(&self) -> u8
        ensures { result ≡ slice_index self.now 8 }
    {
        self.slice[Ipv4Header::TIME_TO_LIVE_AT]
    }

    /// The protocol of the payload (byte 9).
    pub fn protocol(&self) -> IpNumber
        ensures { result.0 ≡ slice_index self.now 9 }
    {
        IpNumber(self.slice[Ipv4Header::PROTOCOL_AT])
    }

    /// The checksum of the header (bytes 10 and 11).
    pub fn header_checksum(&self) -> u16
        ensures { result ≡ be_number self.now 10 2 }
    {
        u16::from_be_bytes([self.slice[10], self.slice[11]])
    }

    /// Whether the checksum of the header is right: the one's complement sum of the header is all ones (RFC 791, section 3.1; RFC 1071,
    /// section 1). The payload is not summed.
    ///
    /// This check detects each change of one byte of a valid header. It also detects each change of one aligned two-byte word, except from
    /// 0000 to FFFF or from FFFF to 0000. An exchange of two aligned words is not detected.
    pub fn is_checksum_valid(&self) -> bool
        ensures valid { IsTrue result ↔ Verifies [] self.now }
        // For a valid header, this states which changes the check detects, and which changes it does not detect.
        ensures detects { IsTrue result → DetectsWithoutPseudoHeader self.now }
    {
        is_valid(self.slice)
    }

    /// The address of the sender (bytes 12 to 15).
    pub fn source(&self) -> [u8; 4]
        ensures { result ≡ slice_range self.now 12 16 }
    {
        let mut source = [0; 4];
        source.copy_from_slice(&self.slice[Ipv4Header::SOURCE_AT..Ipv4Header::DESTINATION_AT]);
        source
    }

    /// The address of the receiver (bytes 16 to 19). If a source route still lists an address to visit, this is not the final address,
    /// which a checksum covers (RFC 1122, section 3.2.1.8).
    pub fn destination(&self) -> [u8; 4]
        ensures { result ≡ slice_range self.now 16 20 }
    {
        let mut destination = [0; 4];
        destination.copy_from_slice(&self.slice[Ipv4Header::DESTINATION_AT..Ipv4Header::MIN_LEN]);
        destination
    }

    /// The bytes of the options, from byte 20 to the end. Their number is 0 to 40, and a multiple of 4.
    pub fn options(&self) -> &'a [u8]
        ensures { result.now ≡ drop 20 self.now }
    {
        &self.slice[Ipv4Header::MIN_LEN..]
    }

    /// The addresses of the header.
    pub fn to_header(&self) -> Ipv4Header
        ensures { result ≡ ipv4_header_of self.now }
    {
        Ipv4Header::from(self)
    }
}

/// Whether the one's complement sum of a header is all ones.
fn is_valid(header: &[u8]) -> bool
    ensures valid { IsTrue result ↔ Verifies [] header.now }
    ensures bytes { IsBytes header.now }
{
    Sum16BitWords::new().add_slice(header).ones_complement() == 0
}

impl<'a> PartialEq for Ipv4HeaderSlice<'a> {
    ghost use Rattle.std.specs.Prelude.{◌≡◌, ◌↔◌, IsTrue, nat_eq};
    ghost use Rattle.std.specs.Cmp.Lexicographic.{pointwise};
    ghost use Rattle.std.specs.Cmp.Rules.{comparing};
    ghost use Rattle.std.proofs.Common.{rules};

    ghost eq = { pointwise nat_eq };

    ghost laws = { Prim.search (comparing, rules) };

    fn eq(&self, other: &Ipv4HeaderSlice<'a>) -> bool
        ensures computes { result ≡ pointwise nat_eq self.now other.now }
        ensures same { IsTrue result ↔ (self.now ≡ other.now) }
    {
        self.slice == other.slice
    }
}

impl<'a> Eq for Ipv4HeaderSlice<'a> {
    ghost use Rattle.std.specs.Cmp.Rules.{comparing};
    ghost use Rattle.std.proofs.Common.{rules};

    ghost laws = { Prim.search (comparing, rules) };
}

/// Whether bytes 6 and 7 of a header state a part of a packet: the bit for more fragments, or an offset above 0. One mask tests both
/// fields.
#[inline(always)]
fn is_fragment(high: u8, low: u8) -> bool
    ensures { result ≡ (not (bit_and high 0x20 == 0) || not ((high * 256 + low) % 2 ^ 13 == 0)) }
{
    u16::from_be_bytes([high, low]) & 0x3fff != 0
}
