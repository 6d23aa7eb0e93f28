ghost use Rattle.std.specs.Prelude.{◌≡◌, ◌≤◌, ◌↔◌, IsTrue, length};
ghost use Rattle.net_base.specs.Bytes.{IsBytes};
ghost use Rattle.icmp_part.specs.Icmpv4Format.{HasWholeHeader, header_of, layout_of, wire};
ghost use Rattle.icmp_part.specs.Icmpv4Validity.{IsValidIcmpv4};

use crate::icmpv4::{
    DestUnreachableHeader, ParameterProblemHeader, RedirectCode, RedirectHeader, TYPE_DEST_UNREACH,
    TYPE_ECHO_REPLY, TYPE_ECHO_REQUEST, TYPE_PARAMETER_PROBLEM, TYPE_REDIRECT, TYPE_SOURCE_QUENCH,
    TYPE_TIME_EXCEEDED, TYPE_TIMESTAMP, TYPE_TIMESTAMP_REPLY, TimeExceededCode, TimestampMessage,
};
use crate::quoted_packet::counted;
use crate::{IcmpEchoHeader, Icmpv4Header, Icmpv4Type};
use net_base::err::{Layer, LenError};
use net_base::wrong_length;
use std::marker::Model;
use word_sum::checksum::Sum16BitWords;

/// The unit of the length field in an ICMPv4 error message, in bytes (RFC 4884, section 4).
const LENGTH_UNIT: usize = 4;

/// The bytes of an ICMPv4 packet: the header and the payload after it (RFC 792).
///
/// ```
/// use etherparse_transport::{IcmpEchoHeader, Icmpv4Slice, Icmpv4Type};
///
/// let bytes = [8, 0, 0x19, 0x27, 0, 7, 0, 1, b'p', b'i', b'n', b'g'];
/// let packet = Icmpv4Slice::from_slice(&bytes)?;
/// assert!(rt; packet.is_checksum_valid());
/// assert_eq!(rt; packet.icmp_type(), Icmpv4Type::EchoRequest(IcmpEchoHeader { id: 7, seq: 1 }));
/// assert_eq!(rt; packet.payload(), b"ping".as_slice());
/// ```
#[derive(Clone, Debug, Drop)]
pub struct Icmpv4Slice<'a> {
    slice: &'a [u8],
}

impl<'a> Model for Icmpv4Slice<'a> {
    ghost use Rattle.std.specs.Prelude.{List, ℕ};
    ghost use Rattle.icmp_part.specs.Icmpv4Format.{HasWholeHeader};

    ghost Value = { List ℕ };

    ghost view = { λ packet. packet.slice.now };

    ghost invariant = { λ packet. HasWholeHeader packet.slice.now };
}

impl<'a> Icmpv4Slice<'a> {
    ghost use Rattle.std.specs.Prelude.{IfOk, IsOkAnd, drop, slice_index, slice_range};
    ghost use Rattle.net_base.specs.Bytes.{be_number};
    ghost use Rattle.net_base.specs.Refusals.{RefusesExactly};
    ghost use Rattle.word_sum.specs.Checksum.{AcceptsChecksum, total};
    ghost use Rattle.icmp_part.specs.Icmpv4Format.{icmp_type_of, refusal, timestamp_of};
    ghost use Rattle.icmp_part.specs.MessageFormat.{with_zero_checksum};
    ghost use Rattle.net_base.specs.Detection.{DetectsWithoutPseudoHeader};
    ghost use Rattle.std.specs.Option.{option_map};
    ghost use Rattle.icmp_part.specs.QuotedPackets.{quoted_by_icmpv4};

    /// Reads the packet in this slice (RFC 792). The slice must end at the end of the IP packet. The checksum is not checked.
    ///
    /// # Errors
    ///
    /// The call checks these cases, in this order:
    /// - `LenError` of the layer `Icmpv4` if the slice is shorter than 8 bytes.
    /// - `LenError` of the layer `Icmpv4Timestamp` or `Icmpv4TimestampReply` if the slice contains a timestamp message or reply with code
    ///   0, and is not 20 bytes long.
    #[inline(always)]
    pub fn from_slice(slice: &'a [u8]) -> Result<Icmpv4Slice<'a>, LenError>
        ensures refused { RefusesExactly result (refusal slice.now) }
        ensures kept { IfOk result (λ packet. packet ≡ slice.now) }
    {
        if slice.len() < Icmpv4Header::MIN_LEN {
            return Err(wrong_length(Layer::Icmpv4, Icmpv4Header::MIN_LEN, slice.len()));
        }
        if slice[0] == TYPE_TIMESTAMP && slice[1] == 0 && slice.len() != TimestampMessage::LEN {
            return Err(wrong_length(Layer::Icmpv4Timestamp, TimestampMessage::LEN, slice.len()));
        }
        if slice[0] == TYPE_TIMESTAMP_REPLY
            && slice[1] == 0
            && slice.len() != TimestampMessage::LEN
        {
            return Err(wrong_length(
                Layer::Icmpv4TimestampReply,
                TimestampMessage::LEN,
                slice.len(),
            ));
        }
        Ok(Icmpv4Slice { slice })
    }

    /// The bytes of header and payload.
    pub fn slice(&self) -> &'a [u8]
        ensures bytes { result.now ≡ self.now }
        ensures long { 8 ≤ length result.now }
    {
        self.slice
    }

    /// The type (byte 0).
    pub fn type_u8(&self) -> u8
        ensures { result ≡ slice_index self.now 0 }
    {
        self.slice[0]
    }

    /// The code (byte 1).
    pub fn code_u8(&self) -> u8
        ensures { result ≡ slice_index self.now 1 }
    {
        self.slice[1]
    }

    /// The checksum over header and payload (bytes 2 and 3).
    pub fn checksum(&self) -> u16
        ensures { result ≡ be_number self.now 2 2 }
    {
        u16::from_be_bytes([self.slice[2], self.slice[3]])
    }

    /// The bytes after the checksum (bytes 4 to 7).
    pub fn bytes5to8(&self) -> [u8; 4]
        ensures { result ≡ slice_range self.now 4 8 }
    {
        [self.slice[4], self.slice[5], self.slice[6], self.slice[7]]
    }

    /// Whether the checksum is right: the one's complement sum of the packet, checksum included, is all ones (RFC 1071, section 1; RFC
    /// 792). There is no pseudo header. The slice must end at the end of the IP packet.
    ///
    /// This check detects each change of one byte of a valid packet. It also detects each change of one aligned two-byte word, except from
    /// 0000 to FFFF or from FFFF to 0000. If all bytes of the changed packet are zeros, the change is always detected, since such a packet
    /// is not valid. An exchange of two aligned words is not detected.
    pub fn is_checksum_valid(&self) -> bool
        ensures valid { IsTrue result ↔ IsValidIcmpv4 self.now }
        // A checksum is computed with zeros in place of the stored checksum. The stored checksum is right exactly if it equals the computed
        // checksum, or is FFFF while the computed checksum is 0.
        ensures agrees { IsTrue result ↔ AcceptsChecksum (total (with_zero_checksum self.now)) (be_number self.now 2 2) }
        // For a valid packet, this states which changes the check detects, and which changes it does not detect.
        ensures detects { IsTrue result → DetectsWithoutPseudoHeader self.now }
    {
        is_valid(self.slice)
    }

    /// The message with its fields (RFC 792). The fields do not contain the bits that this kind of message does not use. To read those
    /// bits, call `bytes5to8`.
    #[inline(always)]
    pub fn icmp_type(&self) -> Icmpv4Type
        ensures { result ≡ icmp_type_of self.now }
    {
        match self.message() {
            Ok((icmp_type, _)) => icmp_type,
            Err(_) => unreachable!(),
        }
    }

    /// The message, in a `Result` that is never `Err`. An `Err` would contain the length of a slice that is too short for a header. The
    /// number next to the message is not used.
    // A comment on `Icmpv6Slice::message` explains the unused number.
    #[inline(always)]
    #[tactic(auto, using(std::proofs::lemmas::Option::slice_get_past, crate::proofs::ListedLemmas::listed_mapped, crate::proofs::ListedLemmas::listed_inside, crate::proofs::Icmpv4FormatLemmas::icmp_type_of_listed))]
    fn message(&self) -> Result<(Icmpv4Type, usize), usize>
        ensures { IsOkAnd result (λ read. read.0 ≡ icmp_type_of self.now) }
    {
        if self.slice.len() < Icmpv4Header::MIN_LEN {
            return Err(self.slice.len());
        }
        let code = self.code_u8();
        match self.type_u8() {
            TYPE_ECHO_REPLY if code == 0 => {
                let header = IcmpEchoHeader::from_bytes(self.bytes5to8());
                return Ok((Icmpv4Type::EchoReply(header), 0));
            }
            TYPE_DEST_UNREACH => {
                let next_hop_mtu = u16::from_be_bytes([self.slice[6], self.slice[7]]);
                if let Some(header) = DestUnreachableHeader::from_values(code, next_hop_mtu) {
                    return Ok((Icmpv4Type::DestinationUnreachable(header), 0));
                }
            }
            TYPE_REDIRECT => {
                if let Some(code) = RedirectCode::from_u8(code) {
                    let gateway_internet_address = self.bytes5to8();
                    let header = RedirectHeader {
                        code,
                        gateway_internet_address,
                    };
                    return Ok((Icmpv4Type::Redirect(header), 0));
                }
            }
            TYPE_ECHO_REQUEST if code == 0 => {
                let header = IcmpEchoHeader::from_bytes(self.bytes5to8());
                return Ok((Icmpv4Type::EchoRequest(header), 0));
            }
            TYPE_TIME_EXCEEDED => {
                if let Some(code) = TimeExceededCode::from_u8(code) {
                    return Ok((Icmpv4Type::TimeExceeded(code), 0));
                }
            }
            TYPE_PARAMETER_PROBLEM => {
                if let Some(header) = ParameterProblemHeader::from_values(code, self.slice[4]) {
                    return Ok((Icmpv4Type::ParameterProblem(header), 0));
                }
            }
            TYPE_TIMESTAMP if code == 0 => {
                let message = self.timestamp();
                return Ok((Icmpv4Type::TimestampRequest(message), 0));
            }
            TYPE_TIMESTAMP_REPLY if code == 0 => {
                let message = self.timestamp();
                return Ok((Icmpv4Type::TimestampReply(message), 0));
            }
            _ => {}
        }
        let unknown = Icmpv4Type::Unknown {
            type_u8: self.type_u8(),
            code_u8: code,
            bytes5to8: self.bytes5to8(),
        };
        Ok((unknown, 0))
    }

    /// The fields of a timestamp message.
    fn timestamp(&self) -> TimestampMessage
        requires { length self.now ≡ 20 }
        ensures { result ≡ timestamp_of self.now 4 }
    {
        let s = self.slice;
        TimestampMessage {
            id: u16::from_be_bytes([s[4], s[5]]),
            seq: u16::from_be_bytes([s[6], s[7]]),
            originate_timestamp: u32::from_be_bytes([s[8], s[9], s[10], s[11]]),
            receive_timestamp: u32::from_be_bytes([s[12], s[13], s[14], s[15]]),
            transmit_timestamp: u32::from_be_bytes([s[16], s[17], s[18], s[19]]),
        }
    }

    /// The header (RFC 792): the message with its fields, and the checksum.
    #[inline(always)]
    pub fn header(&self) -> Icmpv4Header
        ensures { result ≡ header_of self.now }
    {
        Icmpv4Header {
            icmp_type: self.icmp_type(),
            checksum: self.checksum(),
        }
    }

    /// The length of the header, in bytes. It is 20 for a timestamp message or reply with code 0, and otherwise 8.
    pub fn header_len(&self) -> usize
        ensures layout { result ≡ (layout_of self.now).header_len }
        ensures written { result ≡ length (wire (header_of self.now)) }
    {
        header_len(self.slice)
    }

    /// The bytes after the header.
    #[tactic(auto, using(crate::proofs::Icmpv4FormatLemmas::header_len_whole))]
    pub fn payload(&self) -> &'a [u8]
        ensures { result.now ≡ drop (layout_of self.now).header_len self.now }
    {
        &self.slice[header_len(self.slice)..]
    }

    /// The packet that this error quotes, from its IP header on, as far as the message contains it (RFC 792). `None` if the message is not
    /// an error. Errors are destination unreachable, source quench, redirect, time exceeded and parameter problem messages. In destination
    /// unreachable, time exceeded and parameter problem messages, byte 5 is a length field. If it counts at least 128 bytes, it states
    /// where the quoted packet ends. Otherwise the quoted packet ends with the message (RFC 4884, sections 3 and 4).
    pub fn quoted_packet(&self) -> Option<&'a [u8]>
        ensures { option_map (λ packet. packet.now) result ≡ quoted_by_icmpv4 self.now }
    {
        let after_header = &self.slice[Icmpv4Header::MIN_LEN..];
        match self.type_u8() {
            TYPE_DEST_UNREACH | TYPE_TIME_EXCEEDED | TYPE_PARAMETER_PROBLEM => {
                Some(counted(usize::from(self.slice[5]) * LENGTH_UNIT, after_header))
            }
            TYPE_SOURCE_QUENCH | TYPE_REDIRECT => Some(after_header),
            _ => None,
        }
    }
}

/// The length of the header of a packet, in bytes.
#[tactic(auto, using(crate::proofs::Icmpv4FormatLemmas::header_len_of_others, crate::proofs::Icmpv4FormatLemmas::header_len_of_timestamps))]
fn header_len(packet: &[u8]) -> usize
    requires { HasWholeHeader packet.now }
    ensures layout { result ≡ (layout_of packet.now).header_len }
    ensures written { result ≡ length (wire (header_of packet.now)) }
{
    match packet[0] {
        TYPE_TIMESTAMP | TYPE_TIMESTAMP_REPLY if packet[1] == 0 => TimestampMessage::LEN,
        _ => Icmpv4Header::MIN_LEN,
    }
}

/// Whether the one's complement sum of the packet is all ones.
fn is_valid(packet: &[u8]) -> bool
    ensures valid { IsTrue result ↔ IsValidIcmpv4 packet.now }
    ensures bytes { IsBytes packet.now }
{
    Sum16BitWords::new().add_slice(packet).ones_complement() == 0
}

impl<'a> PartialEq for Icmpv4Slice<'a> {
    ghost use Rattle.std.specs.Prelude.{◌↔◌, IsTrue, nat_eq};
    ghost use Rattle.std.specs.Cmp.Lexicographic.{pointwise};
    ghost use Rattle.std.specs.Cmp.Rules.{comparing};
    ghost use Rattle.std.proofs.Common.{rules};

    ghost eq = { pointwise nat_eq };

    ghost laws = { Prim.search (comparing, rules) };

    fn eq(&self, other: &Icmpv4Slice<'a>) -> bool
        ensures computes { result ≡ pointwise nat_eq self.now other.now }
        ensures same { IsTrue result ↔ (self.now ≡ other.now) }
    {
        self.slice == other.slice
    }
}

impl<'a> Eq for Icmpv4Slice<'a> {
    ghost use Rattle.std.specs.Cmp.Rules.{comparing};
    ghost use Rattle.std.proofs.Common.{rules};

    ghost laws = { Prim.search (comparing, rules) };
}
