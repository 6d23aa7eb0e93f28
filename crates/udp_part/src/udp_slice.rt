ghost use Rattle.std.specs.Prelude.{◌≡◌};
ghost use Rattle.net_base.specs.Refusals as specs;

use crate::{UdpHeader, UdpHeaderSlice};
use net_base::err::{Layer, LenError};
use net_base::{LenSource, ip_number, pseudo_header_ipv4, pseudo_header_ipv6, wrong_length};
use std::marker::Model;

/// The bytes of a UDP header and its payload (RFC 768): the bytes that the length field counts, or the whole input.
///
/// ```
/// use etherparse_transport::UdpSlice;
///
/// // The last two bytes are padding.
/// let bytes = [0x00, 0x15, 0x04, 0xD2, 0x00, 0x0B, 0xB3, 0x3A, b'a', b'b', b'c', 0, 0];
/// let packet = UdpSlice::from_slice(&bytes)?;
/// assert_eq!(rt; packet.source_port(), 21);
/// assert_eq!(rt; packet.destination_port(), 1234);
/// assert_eq!(rt; packet.payload(), b"abc".as_slice());
/// assert!(rt; packet.is_checksum_valid_ipv4([192, 168, 1, 1], [192, 168, 1, 2]));
/// ```
#[derive(Clone, Debug, Drop)]
pub struct UdpSlice<'a> {
    slice: &'a [u8],
}

impl<'a> Model for UdpSlice<'a> {
    ghost use Rattle.std.specs.Prelude.{◌≤◌, List, ℕ, length};

    ghost Value = { List ℕ };

    ghost view = { λ packet. packet.slice.now };

    ghost invariant = { λ packet. 8 ≤ length packet.slice.now };
}

impl<'a> UdpSlice<'a> {
    ghost use Rattle.std.specs.Prelude.{◌≢◌, ◌⊎◌, ◌≤◌, ◌%◌, ◌↔◌, List, ℕ, IfOk, IsOk, IsOkAnd, IsTrue, None, drop, length, take};
    ghost use Rattle.net_base.specs.Bytes.{be_number};
    ghost use Rattle.net_base.specs.Detection.{Detects};
    ghost use Rattle.net_base.specs.Refusals.{RefusesExactly};
    ghost use Rattle.word_sum.specs.Checksum.{all_ones, total, udp_checksum_of};
    ghost use Rattle.udp_part.specs.UdpFormat.{checksummed_ipv4, checksummed_ipv6, header_of, refusal, wire};
    ghost use Rattle.udp_part.specs.UdpSlice.{cut, len_source_of, length_field, strict_refusal};
    ghost use Rattle.udp_part.specs.UdpValidity.{IsValidUdpIpv4, IsValidUdpIpv6, SumsUpOverIpv4, SumsUpOverIpv6, checksum_field};

    /// Reads the packet at the front of the slice (RFC 768). It consists of the bytes that its length field counts. If the length field is
    /// 0, for example in a jumbogram (RFC 2675, section 4), it is the whole slice.
    ///
    /// # Errors
    ///
    /// The call checks these cases, in this order:
    /// - `LenError` of the layer `UdpHeader` if the slice is shorter than 8 bytes.
    /// - `LenError` of the layer `UdpPayload` if the length field is above the length of the slice.
    /// - `LenError` of the layer `UdpHeader` with the source `UdpHeaderLen` if the length field is 1 to 7.
    pub fn from_slice(slice: &'a [u8]) -> Result<UdpSlice<'a>, LenError>
        ensures refused { RefusesExactly result (strict_refusal slice.now) }
        ensures kept { IfOk result (λ packet. packet ≡ cut slice.now) }
    {
        let length = usize::from(UdpHeaderSlice::from_slice(slice)?.length());
        if length == 0 {
            return Ok(UdpSlice { slice });
        }
        if slice.len() < length {
            return Err(packet_cut_off(length, slice.len()));
        }
        if length < UdpHeader::LEN {
            return Err(length_below_header(length));
        }
        Ok(UdpSlice {
            slice: &slice[..length],
        })
    }

    /// Reads the packet at the front of the slice (RFC 768). It consists of the bytes that its length field counts. If the length field is
    /// 0, above the length of the slice, or below the length of a header, it is the whole slice.
    ///
    /// # Errors
    ///
    /// `LenError` of the layer `UdpHeader` if the slice is shorter than 8 bytes.
    pub fn from_slice_lax(slice: &'a [u8]) -> Result<UdpSlice<'a>, LenError>
        ensures refused { RefusesExactly result (refusal slice.now) }
        ensures accepted { IsOk result ↔ (8 ≤ length slice.now) }
        ensures kept { IfOk result (λ packet. packet ≡ cut slice.now) }
        ensures as_strict { strict_refusal slice.now ≡ None → IsOkAnd result (λ packet. packet ≡ cut slice.now) }
    {
        let length = usize::from(UdpHeaderSlice::from_slice(slice)?.length());
        if length < UdpHeader::LEN || slice.len() < length {
            return Ok(UdpSlice { slice });
        }
        Ok(UdpSlice {
            slice: &slice[..length],
        })
    }

    /// The bytes of header and payload.
    pub fn slice(&self) -> &'a [u8]
        ensures bytes { result.now ≡ self.now }
        ensures long { 8 ≤ length result.now }
    {
        self.slice
    }

    /// The bytes of the header.
    pub fn header_slice(&self) -> &'a [u8]
        ensures { result.now ≡ take 8 self.now }
    {
        &self.slice[..UdpHeader::LEN]
    }

    /// The bytes after the header.
    pub fn payload(&self) -> &'a [u8]
        ensures { result.now ≡ drop 8 self.now }
    {
        &self.slice[UdpHeader::LEN..]
    }

    /// The source of the payload length. It is the length field if the field equals the length of header and payload. Otherwise it is the
    /// length of the slice that was passed in.
    pub fn payload_len_source(&self) -> LenSource
        ensures { result ≡ len_source_of self.now }
    {
        if usize::from(self.length()) == self.slice.len() {
            LenSource::UdpHeaderLen
        } else {
            LenSource::Slice
        }
    }

    /// The port of the sender, or 0 if it is not used (bytes 0 and 1).
    pub fn source_port(&self) -> u16
        ensures { result ≡ be_number self.now 0 2 }
    {
        u16::from_be_bytes([self.slice[0], self.slice[1]])
    }

    /// The port of the receiver (bytes 2 and 3).
    pub fn destination_port(&self) -> u16
        ensures { result ≡ be_number self.now 2 2 }
    {
        u16::from_be_bytes([self.slice[2], self.slice[3]])
    }

    /// The length of header and payload that the header states, in bytes (bytes 4 and 5). After `from_slice` it is 0 or the length of the
    /// slice. After `from_slice_lax` it can be any number.
    pub fn length(&self) -> u16
        ensures { result ≡ be_number self.now 4 2 }
    {
        u16::from_be_bytes([self.slice[4], self.slice[5]])
    }

    /// The checksum over pseudo header, header and payload (bytes 6 and 7). Over IPv4, 0 means that there is no checksum. Over IPv6, 0 is
    /// wrong.
    pub fn checksum(&self) -> u16
        ensures { result ≡ be_number self.now 6 2 }
    {
        u16::from_be_bytes([self.slice[6], self.slice[7]])
    }

    /// Whether the checksum over IPv4 is right. It is right if it is 0, since 0 means that there is no checksum (RFC 768). It is also right
    /// if the one's complement sum of pseudo header and packet is all ones (RFC 1071, section 1).
    ///
    /// The sum covers all bytes of the slice, and the pseudo header contains their number, whatever the length field is. So a truncated
    /// packet, which `from_slice_lax` accepts, usually has a wrong checksum. If there is a checksum and the slice is longer than 65,535
    /// bytes, the result is false.
    ///
    /// This check detects each change of one byte of a packet with a right checksum. It detects each change of one aligned two-byte word,
    /// except between 0000 and FFFF. It does not detect that two aligned words were exchanged. If the checksum becomes 0, the check detects
    /// no change.
    pub fn is_checksum_valid_ipv4(&self, source: [u8; 4], destination: [u8; 4]) -> bool
        ensures valid { IsTrue result ↔ IsValidUdpIpv4 source destination self.now }
        // Assume that there is a checksum, and that the length field is right. Then the stored checksum is right exactly if the sender of
        // the packet would store it.
        ensures agrees { checksum_field self.now ≢ 0 → length_field self.now ≡ length self.now →
            (IsTrue result ↔ (checksum_field self.now ≡ udp_checksum_of
            (checksummed_ipv4 source destination (header_of self.now) (drop 8 self.now)))) }
        // This states which changes of a packet with a checksum the check detects, and which changes it does not detect.
        ensures detects { IsTrue result → checksum_field self.now ≢ 0
            → Detects (SumsUpOverIpv4 source destination) self.now }
        // So another packet of the same length is valid exactly if it has no checksum, or has the same sum modulo 65535.
        ensures valid_others { IsTrue result → checksum_field self.now ≢ 0 → (other : List ℕ) → length other ≡ length self.now →
            (IsValidUdpIpv4 source destination other
            ↔ ((checksum_field other ≡ 0) ⊎ (total other % all_ones ≡ total self.now % all_ones))) }
    {
        if self.checksum() == 0 {
            return true;
        }
        let packet = self.slice();
        let Ok(len) = u16::try_from(self.slice.len()) else {
            return false;
        };
        let pseudo_header = pseudo_header_ipv4(source, destination, ip_number::UDP, len);
        pseudo_header.add_slice(packet).ones_complement() == 0
    }

    /// Whether the checksum over IPv6 is right: it is not 0, and the one's complement sum of pseudo header and packet is all ones (RFC
    /// 8200, section 8.1; RFC 1071, section 1). If the packet has a routing header, pass the final destination. A tunnel that allows
    /// packets without a checksum must check for 0 first (RFC 6935).
    ///
    /// The sum covers all bytes of the slice, and the pseudo header contains their number, whatever the length field is. So a jumbogram,
    /// whose length field is 0, is summed with its real length (RFC 2675, section 4). A truncated packet, which `from_slice_lax` accepts,
    /// usually has a wrong checksum. If the slice is longer than 4,294,967,295 bytes, the result is false.
    ///
    /// This check detects each change of one byte of a valid packet. It detects each change of one aligned two-byte word, except from 0000
    /// to FFFF and, outside the checksum, from FFFF to 0000. It does not detect that two aligned words were exchanged, unless the checksum
    /// becomes 0.
    pub fn is_checksum_valid_ipv6(&self, source: [u8; 16], destination: [u8; 16]) -> bool
        ensures valid { IsTrue result ↔ IsValidUdpIpv6 source destination self.now }
        // Assume that there is a checksum, and that the length field is right. Then the stored checksum is right exactly if the sender of
        // the packet would store it.
        ensures agrees { checksum_field self.now ≢ 0 → length_field self.now ≡ length self.now →
            (IsTrue result ↔ (checksum_field self.now ≡ udp_checksum_of
            (checksummed_ipv6 source destination (header_of self.now) (drop 8 self.now)))) }
        // This states which changes the check detects, and which changes it does not detect.
        ensures detects { IsTrue result → Detects (SumsUpOverIpv6 source destination) self.now }
        // So another packet of the same length is valid exactly if its checksum is not 0, and it has the same sum modulo 65535.
        ensures valid_others { IsTrue result → (other : List ℕ) → length other ≡ length self.now →
            (IsValidUdpIpv6 source destination other
            ↔ ((checksum_field other ≢ 0) × (total other % all_ones ≡ total self.now % all_ones))) }
    {
        let packet = self.slice();
        let Ok(len) = u32::try_from(self.slice.len()) else {
            return false;
        };
        let pseudo_header = pseudo_header_ipv6(source, destination, ip_number::UDP, len);
        self.checksum() != 0 && pseudo_header.add_slice(packet).ones_complement() == 0
    }

    /// The length of the header, in bytes: 8.
    pub fn header_len(&self) -> usize
        ensures { result ≡ length (wire (header_of self.now)) }
    {
        UdpHeader::LEN
    }

    /// The length of the header, in bytes: 8.
    pub fn header_len_u16(&self) -> u16
        ensures { result ≡ length (wire (header_of self.now)) }
    {
        UdpHeader::LEN_U16
    }

    /// The numbers of the header.
    pub fn to_header(&self) -> UdpHeader
        ensures { result ≡ header_of self.now }
    {
        UdpHeader {
            source_port: self.source_port(),
            destination_port: self.destination_port(),
            length: self.length(),
            checksum: self.checksum(),
        }
    }
}

/// The error if the length field is above the length of the slice. Both are in bytes.
// perf: the refusal is a call, so that accepted packets do not run its code, as in `UdpHeader::from_slice` (27 Nov 2026).
#[cold]
#[inline(never)]
fn packet_cut_off(length: usize, len: usize) -> LenError
    ensures { result ≡ specs.wrong_length Layer.UdpPayload length len }
{
    wrong_length(Layer::UdpPayload, length, len)
}

/// The error if the length field is below the length of a header. The length is in bytes.
#[cold]
#[inline(never)]
fn length_below_header(length: usize) -> LenError
    ensures { result ≡ record {
      required_len = 8;
      len = length;
      len_source = LenSource.UdpHeaderLen;
      layer = Layer.UdpHeader;
      layer_start_offset = 0;
    } }
{
    LenError {
        required_len: UdpHeader::LEN,
        len: length,
        len_source: LenSource::UdpHeaderLen,
        layer: Layer::UdpHeader,
        layer_start_offset: 0,
    }
}

impl<'a> PartialEq for UdpSlice<'a> {
    ghost use Rattle.std.specs.Prelude.{◌≡◌, ◌↔◌, IsTrue, nat_eq};
    ghost use Rattle.std.specs.Cmp.Lexicographic.{pointwise};
    ghost use Rattle.std.specs.Cmp.Rules.{comparing};
    ghost use Rattle.std.proofs.Common.{rules};

    ghost eq = { pointwise nat_eq };

    ghost laws = { Prim.search (comparing, rules) };

    fn eq(&self, other: &UdpSlice<'a>) -> bool
        ensures computes { result ≡ pointwise nat_eq self.now other.now }
        ensures same { IsTrue result ↔ (self.now ≡ other.now) }
    {
        self.slice == other.slice
    }
}

impl<'a> Eq for UdpSlice<'a> {
    ghost use Rattle.std.specs.Cmp.Rules.{comparing};
    ghost use Rattle.std.proofs.Common.{rules};

    ghost laws = { Prim.search (comparing, rules) };
}
