ghost use Rattle.std.specs.Prelude.{◌≡◌, ◌≤◌, ◌↔◌, IsTrue, length};
ghost use Rattle.net_base.specs.Bytes.{IsBytes};
ghost use Rattle.icmp_part.specs.Icmpv6Format.{HasPacketLength, header_of, layout_of, wire};
ghost use Rattle.icmp_part.specs.Icmpv6Validity.{IsValidIcmpv6};

use crate::icmpv6::{
    DestUnreachableCode, MAX_ICMPV6_BYTE_LEN, NeighborAdvertisementHeader, ParameterProblemCode,
    ParameterProblemHeader, RouterAdvertisementHeader, TYPE_DST_UNREACH, TYPE_ECHO_REPLY,
    TYPE_ECHO_REQUEST, TYPE_NEIGHBOR_ADVERTISEMENT, TYPE_NEIGHBOR_SOLICITATION,
    TYPE_PACKET_TOO_BIG, TYPE_PARAMETER_PROBLEM, TYPE_REDIRECT_MESSAGE, TYPE_ROUTER_ADVERTISEMENT,
    TYPE_ROUTER_SOLICITATION, TYPE_TIME_EXCEEDED, TimeExceededCode,
};
use crate::message_start::wrong_packet_length;
use crate::quoted_packet::counted;
use crate::{IcmpEchoHeader, Icmpv6Header, Icmpv6Type};
use net_base::err::{Layer, LenError};
use net_base::{ip_number, pseudo_header_ipv6};
use std::marker::Model;

/// The unit of the length field in an ICMPv6 error message, in bytes (RFC 4884, section 4).
const LENGTH_UNIT: usize = 8;

/// The greatest type of an ICMPv6 error message (RFC 4443, section 2.1).
const MAX_ERROR_TYPE: u8 = 127;

/// The bytes of an ICMPv6 packet: the header and the payload after it (RFC 4443, section 2.1).
///
/// ```
/// use etherparse_transport::{IcmpEchoHeader, Icmpv6Slice, Icmpv6Type};
///
/// let source = [0x20, 0x01, 0x0D, 0xB8, 0, 0, 0, 0, 0, 0, 0, 0, 0, 0, 0, 1];
/// let destination = [0x20, 0x01, 0x0D, 0xB8, 0, 0, 0, 0, 0, 0, 0, 0, 0, 0, 0, 2];
/// let bytes = [128, 0, 0x45, 0x6B, 0, 7, 0, 1, b'p', b'i', b'n', b'g'];
/// let packet = Icmpv6Slice::from_slice(&bytes)?;
/// assert!(rt; packet.is_checksum_valid(source, destination));
/// assert_eq!(rt; packet.icmp_type(), Icmpv6Type::EchoRequest(IcmpEchoHeader { id: 7, seq: 1 }));
/// assert_eq!(rt; packet.payload(), b"ping".as_slice());
/// ```
#[derive(Clone, Debug, Drop)]
pub struct Icmpv6Slice<'a> {
    slice: &'a [u8],
}

impl<'a> Model for Icmpv6Slice<'a> {
    ghost use Rattle.std.specs.Prelude.{List, ℕ};
    ghost use Rattle.net_base.specs.Bytes.{IsBytes};
    ghost use Rattle.icmp_part.specs.Icmpv6Format.{HasPacketLength};

    ghost Value = { List ℕ };

    ghost view = { λ packet. packet.slice.now };

    ghost invariant = { λ packet. HasPacketLength packet.slice.now };
}

impl<'a> Icmpv6Slice<'a> {
    ghost use Rattle.std.specs.Prelude.{◌+◌, IfOk, IsOkAnd, drop, slice_index, slice_range};
    ghost use Rattle.net_base.specs.Bytes.{be_number};
    ghost use Rattle.net_base.specs.Refusals.{RefusesExactly};
    ghost use Rattle.word_sum.specs.Checksum.{AcceptsChecksum, total};
    ghost use Rattle.icmp_part.specs.Icmpv6Format.{icmp_type_of, pseudo_header, refusal};
    ghost use Rattle.icmp_part.specs.MessageFormat.{with_zero_checksum};
    ghost use Rattle.net_base.specs.Detection.{Detects};
    ghost use Rattle.std.specs.Option.{option_map};
    ghost use Rattle.icmp_part.specs.QuotedPackets.{quoted_by_icmpv6};

    /// Reads the packet in this slice (RFC 4443, section 2.1). The slice must end at the end of the IP packet. The checksum is not checked.
    ///
    /// # Errors
    ///
    /// `LenError` of the layer `Icmpv6` if the slice is shorter than 8 bytes, or longer than 4,294,967,295 bytes.
    #[inline(always)]
    pub fn from_slice(slice: &'a [u8]) -> Result<Icmpv6Slice<'a>, LenError>
        ensures refused { RefusesExactly result (refusal slice.now) }
        ensures kept { IfOk result (λ packet. packet ≡ slice.now) }
    {
        if slice.len() < Icmpv6Header::MIN_LEN {
            return Err(wrong_packet_length(Layer::Icmpv6, Icmpv6Header::MIN_LEN, slice.len()));
        }
        if slice.len() > MAX_ICMPV6_BYTE_LEN {
            return Err(wrong_packet_length(Layer::Icmpv6, MAX_ICMPV6_BYTE_LEN, slice.len()));
        }
        Ok(Icmpv6Slice { slice })
    }

    /// The bytes of header and payload.
    pub fn slice(&self) -> &'a [u8]
        ensures bytes { result.now ≡ self.now }
        ensures long { 8 ≤ length result.now }
    {
        self.slice
    }

    /// The type (byte 0).
    pub fn type_u8(&self) -> u8
        ensures { result ≡ slice_index self.now 0 }
    {
        self.slice[0]
    }

    /// The code (byte 1).
    pub fn code_u8(&self) -> u8
        ensures { result ≡ slice_index self.now 1 }
    {
        self.slice[1]
    }

    /// The checksum over pseudo header, header and payload (bytes 2 and 3).
    pub fn checksum(&self) -> u16
        ensures { result ≡ be_number self.now 2 2 }
    {
        u16::from_be_bytes([self.slice[2], self.slice[3]])
    }

    /// The bytes after the checksum (bytes 4 to 7).
    pub fn bytes5to8(&self) -> [u8; 4]
        ensures { result ≡ slice_range self.now 4 8 }
    {
        [self.slice[4], self.slice[5], self.slice[6], self.slice[7]]
    }

    /// Whether the checksum is right: the one's complement sum of pseudo header and packet is all ones (RFC 1071, section 1; RFC 4443,
    /// section 2.3). If the packet has a routing header, pass the final destination.
    ///
    /// This check detects each change of one byte of a valid packet. It also detects each change of one aligned two-byte word, except from
    /// 0000 to FFFF or from FFFF to 0000. An exchange of two aligned words is not detected.
    pub fn is_checksum_valid(&self, source_ip: [u8; 16], destination_ip: [u8; 16]) -> bool
        ensures valid { IsTrue result ↔ IsValidIcmpv6 source_ip destination_ip self.now }
        // A checksum is computed with zeros in place of the stored checksum. The stored checksum is right exactly if it equals the computed
        // checksum, or is FFFF while the computed checksum is 0.
        ensures agrees { IsTrue result ↔ AcceptsChecksum
            (total (pseudo_header source_ip destination_ip (length self.now)) + total (with_zero_checksum self.now)) (be_number self.now 2 2) }
        ensures detects { IsTrue result → Detects (IsValidIcmpv6 source_ip destination_ip) self.now }
    {
        is_valid(self.slice, source_ip, destination_ip)
    }

    /// The message with its fields (RFC 4443, RFC 4861). The fields do not contain the bits that this kind of message does not use. To read
    /// those bits, call `bytes5to8`.
    #[inline(always)]
    pub fn icmp_type(&self) -> Icmpv6Type
        ensures { result ≡ icmp_type_of self.now }
    {
        match self.message() {
            Ok((icmp_type, _)) => icmp_type,
            Err(_) => unreachable!(),
        }
    }

    /// The message, in a `Result` that is never `Err`. An `Err` would contain the length of a slice that is too short for a header. The
    /// number next to the message is not used.
    // perf: each arm of this single match returns the message that it builds (23 Nov 2026). Two other forms are slow: a message that is the
    // value of an arm, and a message that a call in an arm returns. It is copied by loads that are wider than the stores before them, which
    // takes four times as long. In memory, the bytes of `Unknown` overlap the numbers of other variants, so only `Unknown` is stored in two
    // parts and loaded as one. The unused numbers in `Ok` and `Err` align the message to eight bytes. So its first eight bytes are one
    // number in a register. This halves the time of an unknown message (26 Nov 2026).
    #[inline(always)]
    #[tactic(auto, using(std::proofs::lemmas::Option::slice_get_past, crate::proofs::ListedLemmas::listed_mapped, crate::proofs::Icmpv6FormatLemmas::icmp_type_of_listed))]
    fn message(&self) -> Result<(Icmpv6Type, usize), usize>
        ensures { IsOkAnd result (λ read. read.0 ≡ icmp_type_of self.now) }
    {
        if self.slice.len() < Icmpv6Header::MIN_LEN {
            return Err(self.slice.len());
        }
        let code = self.code_u8();
        match self.type_u8() {
            TYPE_DST_UNREACH => {
                if let Some(code) = DestUnreachableCode::from_u8(code) {
                    return Ok((Icmpv6Type::DestinationUnreachable(code), 0));
                }
            }
            TYPE_PACKET_TOO_BIG if code == 0 => {
                let mtu = u32::from_be_bytes(self.bytes5to8());
                return Ok((Icmpv6Type::PacketTooBig { mtu }, 0));
            }
            TYPE_TIME_EXCEEDED => {
                if let Some(code) = TimeExceededCode::from_u8(code) {
                    return Ok((Icmpv6Type::TimeExceeded(code), 0));
                }
            }
            TYPE_PARAMETER_PROBLEM => {
                if let Some(code) = ParameterProblemCode::from_u8(code) {
                    let pointer = u32::from_be_bytes(self.bytes5to8());
                    let header = ParameterProblemHeader { code, pointer };
                    return Ok((Icmpv6Type::ParameterProblem(header), 0));
                }
            }
            TYPE_ECHO_REQUEST if code == 0 => {
                let header = IcmpEchoHeader::from_bytes(self.bytes5to8());
                return Ok((Icmpv6Type::EchoRequest(header), 0));
            }
            TYPE_ECHO_REPLY if code == 0 => {
                let header = IcmpEchoHeader::from_bytes(self.bytes5to8());
                return Ok((Icmpv6Type::EchoReply(header), 0));
            }
            TYPE_ROUTER_SOLICITATION if code == 0 => {
                return Ok((Icmpv6Type::RouterSolicitation, 0));
            }
            TYPE_ROUTER_ADVERTISEMENT if code == 0 => {
                let header = RouterAdvertisementHeader::from_bytes(self.bytes5to8());
                return Ok((Icmpv6Type::RouterAdvertisement(header), 0));
            }
            TYPE_NEIGHBOR_SOLICITATION if code == 0 => {
                return Ok((Icmpv6Type::NeighborSolicitation, 0));
            }
            TYPE_NEIGHBOR_ADVERTISEMENT if code == 0 => {
                let header = NeighborAdvertisementHeader::from_bytes(self.bytes5to8());
                return Ok((Icmpv6Type::NeighborAdvertisement(header), 0));
            }
            TYPE_REDIRECT_MESSAGE if code == 0 => return Ok((Icmpv6Type::Redirect, 0)),
            _ => {}
        }
        let unknown = Icmpv6Type::Unknown {
            type_u8: self.type_u8(),
            code_u8: code,
            bytes5to8: self.bytes5to8(),
        };
        Ok((unknown, 0))
    }

    /// The header (RFC 4443, RFC 4861): the message with its fields, and the checksum.
    #[inline(always)]
    pub fn header(&self) -> Icmpv6Header
        ensures { result ≡ header_of self.now }
    {
        Icmpv6Header {
            icmp_type: self.icmp_type(),
            checksum: self.checksum(),
        }
    }

    /// The length of the header, in bytes: 8.
    pub fn header_len(&self) -> usize
        ensures layout { result ≡ (layout_of self.now).header_len }
        ensures written { result ≡ length (wire (header_of self.now)) }
    {
        header_len(self.slice)
    }

    /// The bytes after the header.
    #[tactic(auto, using(crate::proofs::Icmpv6FormatLemmas::header_len_eight))]
    pub fn payload(&self) -> &'a [u8]
        ensures { result.now ≡ drop (layout_of self.now).header_len self.now }
    {
        &self.slice[header_len(self.slice)..]
    }

    /// The packet that this error quotes, from its IPv6 header on, as far as the message contains it (RFC 4443, sections 2.1 and 2.4).
    /// `None` if the message is not an error. Each message with a type below 128 is an error. In destination unreachable and time exceeded
    /// messages, byte 4 is a length field. If it counts at least 128 bytes, it states where the quoted packet ends. Otherwise the quoted
    /// packet ends with the message (RFC 4884, sections 3 and 4).
    pub fn quoted_packet(&self) -> Option<&'a [u8]>
        ensures { option_map (λ packet. packet.now) result ≡ quoted_by_icmpv6 self.now }
    {
        let after_header = &self.slice[Icmpv6Header::MIN_LEN..];
        match self.type_u8() {
            TYPE_DST_UNREACH | TYPE_TIME_EXCEEDED => {
                Some(counted(usize::from(self.slice[4]) * LENGTH_UNIT, after_header))
            }
            type_u8 if type_u8 <= MAX_ERROR_TYPE => Some(after_header),
            _ => None,
        }
    }
}

/// The length of the header of a packet, in bytes.
#[tactic(auto, using(crate::proofs::Icmpv6FormatLemmas::header_len_eight))]
fn header_len(packet: &[u8]) -> usize
    requires { HasPacketLength packet.now }
    ensures layout { result ≡ (layout_of packet.now).header_len }
    ensures written { result ≡ length (wire (header_of packet.now)) }
{
    Icmpv6Header::MIN_LEN
}

/// Whether the one's complement sum of pseudo header and packet is all ones.
fn is_valid(packet: &[u8], source_ip: [u8; 16], destination_ip: [u8; 16]) -> bool
    requires { HasPacketLength packet.now }
    ensures valid { IsTrue result ↔ IsValidIcmpv6 source_ip destination_ip packet.now }
    ensures bytes { IsBytes packet.now }
{
    let len = packet.len() as u32;
    let pseudo_header = pseudo_header_ipv6(source_ip, destination_ip, ip_number::IPV6_ICMP, len);
    pseudo_header.add_slice(packet).ones_complement() == 0
}

impl<'a> PartialEq for Icmpv6Slice<'a> {
    ghost use Rattle.std.specs.Prelude.{◌↔◌, IsTrue, nat_eq};
    ghost use Rattle.std.specs.Cmp.Lexicographic.{pointwise};
    ghost use Rattle.std.specs.Cmp.Rules.{comparing};
    ghost use Rattle.std.proofs.Common.{rules};

    ghost eq = { pointwise nat_eq };

    ghost laws = { Prim.search (comparing, rules) };

    fn eq(&self, other: &Icmpv6Slice<'a>) -> bool
        ensures computes { result ≡ pointwise nat_eq self.now other.now }
        ensures same { IsTrue result ↔ (self.now ≡ other.now) }
    {
        self.slice == other.slice
    }
}

impl<'a> Eq for Icmpv6Slice<'a> {
    ghost use Rattle.std.specs.Cmp.Rules.{comparing};
    ghost use Rattle.std.proofs.Common.{rules};

    ghost laws = { Prim.search (comparing, rules) };
}
