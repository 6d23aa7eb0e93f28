use crate::{IpNumber, Ipv6Header};
use std::marker::Model;

/// The 40 bytes of an IPv6 header (RFC 8200, section 3).
///
/// ```
/// use anyhow::Context;
/// use etherparse_transport::{Ipv6HeaderSlice, ip_number};
///
/// let bytes = [
///     0x60, 0, 0, 0, 0, 11, 17, 64, 0x20, 0x01, 0x0D, 0xB8, 0, 0, 0, 0, 0, 0, 0, 0, 0, 0, 0, 1,
///     0x20, 0x01, 0x0D, 0xB8, 0, 0, 0, 0, 0, 0, 0, 0, 0, 0, 0, 2,
/// ];
/// let header = Ipv6HeaderSlice::from_slice(&bytes).context("no IPv6 header")?;
/// assert_eq!(rt; (header.payload_length(), header.next_header()), (11, ip_number::UDP));
/// ```
#[derive(Clone, Debug, Drop)]
pub struct Ipv6HeaderSlice<'a> {
    slice: &'a [u8],
}

impl<'a> Model for Ipv6HeaderSlice<'a> {
    ghost use Rattle.std.specs.Prelude.{◌≡◌, List, ℕ, length};

    ghost Value = { List ℕ };

    ghost view = { λ header. header.slice.now };

    ghost invariant = { λ header. length header.slice.now ≡ 40 };
}

impl<'a> Ipv6HeaderSlice<'a> {
    ghost use Rattle.std.specs.Prelude.{◌≡◌, ◌↔◌, ◌/◌, ◌%◌, ◌^◌, IsSome, IfSome, slice_index, slice_range, take};
    ghost use Rattle.net_base.specs.Bytes.{be_number};
    ghost use Rattle.net_base.specs.IpHeaders.{BeginsWithIpv6Header, ipv6_header_of, version};

    /// Reads the header at the front of the slice (RFC 8200, section 3). `None` if the slice is shorter than 40 bytes, or if the version is
    /// not 6.
    pub fn from_slice(slice: &'a [u8]) -> Option<Ipv6HeaderSlice<'a>>
        ensures found { IsSome result ↔ BeginsWithIpv6Header slice.now }
        ensures kept { IfSome result (λ header. header ≡ take 40 slice.now) }
    {
        if slice.len() < Ipv6Header::LEN || slice[0] >> 4 != 6 {
            return None;
        }
        Some(Ipv6HeaderSlice {
            slice: &slice[..Ipv6Header::LEN],
        })
    }

    /// The bytes of the header.
    pub fn slice(&self) -> &'a [u8]
        ensures { result.now ≡ self.now }
    {
        self.slice
    }

    /// The version, which is 6 (the high four bits of byte 0).
    pub fn version(&self) -> u8
        ensures { result ≡ version self.now }
    {
        self.slice[0] >> 4
    }

    /// The traffic class (the low four bits of byte 0 and the high four bits of byte 1): six bits of the differentiated
    /// services code point (RFC 2474, section 3), and two bits of explicit congestion notification (RFC 3168, section 5).
    pub fn traffic_class(&self) -> u8
        ensures { result ≡ be_number self.now 0 2 / 16 % 256 }
    {
        (self.slice[0] & 0xf) * 16 + (self.slice[1] >> 4)
    }

    /// The flow label, a number of 20 bits (the low four bits of byte 1, and bytes 2 and 3).
    pub fn flow_label(&self) -> u32
        ensures { result ≡ be_number self.now 0 4 % 2 ^ 20 }
    {
        u32::from_be_bytes([self.slice[0], self.slice[1], self.slice[2], self.slice[3]]) & 0xf_ffff
    }

    /// The length of everything after these 40 bytes, in bytes, as the header states it (bytes 4 and 5). It includes extension headers. In
    /// a jumbogram it is 0 (RFC 2675, section 2).
    pub fn payload_length(&self) -> u16
        ensures { result ≡ be_number self.now 4 2 }
    {
        u16::from_be_bytes([self.slice[4], self.slice[5]])
    }

    /// The kind of header that follows these 40 bytes: an extension header, or the header of a protocol (byte 6).
    pub fn next_header(&self) -> IpNumber
        ensures { result.0 ≡ slice_index self.now 6 }
    {
        IpNumber(self.slice[6])
    }

    /// The number of hops that are left (byte 7).
    pub fn hop_limit(&self) -> u8
        ensures { result ≡ slice_index self.now 7 }
    {
        self.slice[7]
    }

    /// The address of the sender (bytes 8 to 23).
    pub fn source(&self) -> [u8; 16]
        ensures { result ≡ slice_range self.now 8 24 }
    {
        let mut source = [0; 16];
        source.copy_from_slice(&self.slice[Ipv6Header::SOURCE_AT..Ipv6Header::DESTINATION_AT]);
        source
    }

    /// The address of the receiver (bytes 24 to 39). If there is a routing header, it may differ from the final address, which a checksum
    /// covers (RFC 8200, section 8.1).
    pub fn destination(&self) -> [u8; 16]
        ensures { result ≡ slice_range self.now 24 40 }
    {
        let mut destination = [0; 16];
        destination.copy_from_slice(&self.slice[Ipv6Header::DESTINATION_AT..Ipv6Header::LEN]);
        destination
    }

    /// The addresses of the header.
    pub fn to_header(&self) -> Ipv6Header
        ensures { result ≡ ipv6_header_of self.now }
    {
        Ipv6Header::from(self)
    }
}

impl<'a> PartialEq for Ipv6HeaderSlice<'a> {
    ghost use Rattle.std.specs.Prelude.{◌≡◌, ◌↔◌, IsTrue, nat_eq};
    ghost use Rattle.std.specs.Cmp.Lexicographic.{pointwise};
    ghost use Rattle.std.specs.Cmp.Rules.{comparing};
    ghost use Rattle.std.proofs.Common.{rules};

    ghost eq = { pointwise nat_eq };

    ghost laws = { Prim.search (comparing, rules) };

    fn eq(&self, other: &Ipv6HeaderSlice<'a>) -> bool
        ensures computes { result ≡ pointwise nat_eq self.now other.now }
        ensures same { IsTrue result ↔ (self.now ≡ other.now) }
    {
        self.slice == other.slice
    }
}

impl<'a> Eq for Ipv6HeaderSlice<'a> {
    ghost use Rattle.std.specs.Cmp.Rules.{comparing};
    ghost use Rattle.std.proofs.Common.{rules};

    ghost laws = { Prim.search (comparing, rules) };
}
