use crate::UdpHeader;
use crate::udp_header::header_cut_off;
use net_base::err::LenError;
use std::marker::Model;

/// The eight bytes of a UDP header (RFC 768).
///
/// ```
/// use etherparse_transport::UdpHeaderSlice;
///
/// let bytes = [0x00, 0x15, 0x04, 0xD2, 0x00, 0x0B, 0xB3, 0x3A];
/// let header = UdpHeaderSlice::from_slice(&bytes)?;
/// assert_eq!(rt; (header.source_port(), header.destination_port()), (21, 1234));
/// assert_eq!(rt; (header.length(), header.checksum()), (11, 0xB33A));
/// ```
#[derive(Clone, Debug, Drop)]
pub struct UdpHeaderSlice<'a> {
    slice: &'a [u8],
}

impl<'a> Model for UdpHeaderSlice<'a> {
    ghost use Rattle.std.specs.Prelude.{◌≡◌, List, ℕ, length};

    ghost Value = { List ℕ };

    ghost view = { λ header. header.slice.now };

    ghost invariant = { λ header. length header.slice.now ≡ 8 };
}

impl<'a> UdpHeaderSlice<'a> {
    ghost use Rattle.std.specs.Prelude.{◌≡◌, IfOk, take};
    ghost use Rattle.net_base.specs.Bytes.{be_number};
    ghost use Rattle.net_base.specs.Refusals.{RefusesExactly};
    ghost use Rattle.udp_part.specs.UdpFormat.{header_of, layout, refusal};

    /// Reads the header at the front of the slice (RFC 768). The length field is not checked.
    ///
    /// # Errors
    ///
    /// `LenError` of the layer `UdpHeader` if the slice is shorter than 8 bytes.
    pub fn from_slice(slice: &'a [u8]) -> Result<UdpHeaderSlice<'a>, LenError>
        ensures refused { RefusesExactly result (refusal slice.now) }
        ensures kept { IfOk result (λ header. header ≡ take layout.header_len slice.now) }
    {
        if slice.len() < UdpHeader::LEN {
            return Err(header_cut_off(slice.len()));
        }
        Ok(UdpHeaderSlice {
            slice: &slice[..UdpHeader::LEN],
        })
    }

    /// The bytes of the header.
    pub fn slice(&self) -> &'a [u8]
        ensures { result.now ≡ self.now }
    {
        self.slice
    }

    /// The port of the sender, or 0 if it is not used (bytes 0 and 1).
    pub fn source_port(&self) -> u16
        ensures { result ≡ be_number self.now 0 2 }
    {
        u16::from_be_bytes([self.slice[0], self.slice[1]])
    }

    /// The port of the receiver (bytes 2 and 3).
    pub fn destination_port(&self) -> u16
        ensures { result ≡ be_number self.now 2 2 }
    {
        u16::from_be_bytes([self.slice[2], self.slice[3]])
    }

    /// The length of header and payload that the header states, in bytes (bytes 4 and 5). In a valid packet it is at
    /// least 8, or 0 in a jumbogram (RFC 2675, section 4).
    pub fn length(&self) -> u16
        ensures { result ≡ be_number self.now 4 2 }
    {
        u16::from_be_bytes([self.slice[4], self.slice[5]])
    }

    /// The checksum over pseudo header, header and payload (bytes 6 and 7). Over IPv4, 0 means that there is no
    /// checksum. Over IPv6, 0 is wrong.
    pub fn checksum(&self) -> u16
        ensures { result ≡ be_number self.now 6 2 }
    {
        u16::from_be_bytes([self.slice[6], self.slice[7]])
    }

    /// The numbers of the header.
    pub fn to_header(&self) -> UdpHeader
        ensures { result ≡ header_of self.now }
    {
        UdpHeader {
            source_port: self.source_port(),
            destination_port: self.destination_port(),
            length: self.length(),
            checksum: self.checksum(),
        }
    }
}

impl<'a> PartialEq for UdpHeaderSlice<'a> {
    ghost use Rattle.std.specs.Prelude.{◌≡◌, ◌↔◌, IsTrue, nat_eq};
    ghost use Rattle.std.specs.Cmp.Lexicographic.{pointwise};
    ghost use Rattle.std.specs.Cmp.Rules.{comparing};
    ghost use Rattle.std.proofs.Common.{rules};

    ghost eq = { pointwise nat_eq };

    ghost laws = { Prim.search (comparing, rules) };

    fn eq(&self, other: &UdpHeaderSlice<'a>) -> bool
        ensures computes { result ≡ pointwise nat_eq self.now other.now }
        ensures same { IsTrue result ↔ (self.now ≡ other.now) }
    {
        self.slice == other.slice
    }
}

impl<'a> Eq for UdpHeaderSlice<'a> {
    ghost use Rattle.std.specs.Cmp.Rules.{comparing};
    ghost use Rattle.std.proofs.Common.{rules};

    ghost laws = { Prim.search (comparing, rules) };
}
