ghost use Rattle.std.specs.Prelude.{◌≡◌, ◌+◌, ◌++◌, ◌≤◌, length};
ghost use Rattle.net_base.specs.Refusals.{RefusesExactly, too_big};
ghost use Rattle.icmp_part.specs.Icmpv6Format.{header_len, max_payload_len};

use crate::icmpv6::{
    DestUnreachableCode, MAX_ICMPV6_BYTE_LEN, NeighborAdvertisementHeader, ParameterProblemHeader,
    RouterAdvertisementHeader, TYPE_DST_UNREACH, TYPE_ECHO_REPLY, TYPE_ECHO_REQUEST,
    TYPE_NEIGHBOR_ADVERTISEMENT, TYPE_NEIGHBOR_SOLICITATION, TYPE_PACKET_TOO_BIG,
    TYPE_PARAMETER_PROBLEM, TYPE_REDIRECT_MESSAGE, TYPE_ROUTER_ADVERTISEMENT,
    TYPE_ROUTER_SOLICITATION, TYPE_TIME_EXCEEDED, TimeExceededCode,
};
use crate::message_start::MessageStart;
use crate::{IcmpEchoHeader, Icmpv6Header};
use arrayvec::ArrayVec;
use net_base::err::{ValueTooBigError, ValueType};
use net_base::{check_payload_len, ip_number, pseudo_header_ipv6};

/// An ICMPv6 message by type and code, with its fields (RFC 4443, RFC 4861). Bytes are numbered from the start of the header, from 0.
///
/// ```
/// use etherparse_transport::Icmpv6Type;
///
/// // A host asks all routers of its link for their advertisements.
/// let host = [0xFE, 0x80, 0, 0, 0, 0, 0, 0, 0, 0, 0, 0, 0, 0, 0, 1];
/// let all_routers = [0xFF, 0x02, 0, 0, 0, 0, 0, 0, 0, 0, 0, 0, 0, 0, 0, 2];
/// let message = Icmpv6Type::RouterSolicitation;
/// assert_eq!(rt; (message.type_u8(), message.code_u8()), (133, 0));
/// let header = message.to_header(host, all_routers, &[])?;
/// assert_eq!(rt; header.to_bytes().as_slice(), [133, 0, 0x7D, 0x36, 0, 0, 0, 0].as_slice());
/// ```
#[derive(Clone, Copy, Debug, PartialEq, Eq, PartialOrd, Ord, Hash)]
pub enum Icmpv6Type {
    /// A message whose type and code belong to no other variant. Bytes 4 to 7 are stored unchanged.
    ///
    /// If a caller sets a type and code that belong to another variant, the message is written unchanged. It is read back as that variant,
    /// without the bits that the variant does not use.
    Unknown {
        /// The type (byte 0).
        type_u8: u8,
        /// The code (byte 1).
        code_u8: u8,
        /// The bytes after the checksum (bytes 4 to 7).
        bytes5to8: [u8; 4],
    },
    /// A packet could not be delivered (RFC 4443, section 3.1).
    DestinationUnreachable(DestUnreachableCode),
    /// A packet was larger than the MTU of the next link (RFC 4443, section 3.2). Senders use code 0. A message with another code is read
    /// as `Unknown`.
    PacketTooBig {
        /// The MTU of the next link, in bytes (bytes 4 to 7).
        mtu: u32,
    },
    /// A packet was discarded because its time ran out (RFC 4443, section 3.3).
    TimeExceeded(TimeExceededCode),
    /// A packet was discarded because of a problem with a field of its headers (RFC 4443, section 3.4).
    ParameterProblem(ParameterProblemHeader),
    /// A request for an echo reply (RFC 4443, section 4.1).
    EchoRequest(IcmpEchoHeader),
    /// The answer to an echo request (RFC 4443, section 4.2).
    EchoReply(IcmpEchoHeader),
    /// A request for router advertisements (RFC 4861, section 4.1).
    RouterSolicitation,
    /// A router announces itself and parameters of the link (RFC 4861, section 4.2). The payload begins with two timers.
    RouterAdvertisement(RouterAdvertisementHeader),
    /// A request for a neighbor's link-layer address (RFC 4861, section 4.3). The payload begins with the target's address.
    NeighborSolicitation,
    /// The answer to a neighbor solicitation, or an unsolicited announcement (RFC 4861, section 4.4). The payload begins with the target's
    /// address.
    NeighborAdvertisement(NeighborAdvertisementHeader),
    /// A router tells a host a better first hop for a destination (RFC 4861, section 4.5). The payload begins with the address of the first
    /// hop and the address of the destination.
    Redirect,
}

impl Icmpv6Type {
    ghost use Rattle.std.specs.Prelude.{IfOk, None, Option, slice_index, ℕ};
    ghost use Rattle.word_sum.specs.Checksum.{IsAllOnes, checksum_of};
    ghost use Rattle.icmp_part.specs.Icmpv6ReadsBack.{FieldsFit};
    ghost use Rattle.icmp_part.specs.Icmpv6Validity.{IsValidIcmpv6};
    ghost use Rattle.icmp_part.specs.Icmpv6Format.{checksummed, wire, written};

    /// The type (byte 0 of the header).
    pub fn type_u8(&self) -> u8
        ensures { result ≡ slice_index (wire (record { icmp_type = self.now; checksum = 0 })) 0 }
    {
        self.start().type_u8()
    }

    /// The code (byte 1 of the header).
    pub fn code_u8(&self) -> u8
        ensures { result ≡ slice_index (wire (record { icmp_type = self.now; checksum = 0 })) 1 }
    {
        self.start().code_u8()
    }

    /// The first eight bytes of the header, without the checksum. Unused bits are zero.
    #[inline(always)]
    pub(crate) fn start(&self) -> MessageStart
        ensures written { result ≡ written self.now }
        ensures fits { FieldsFit self.now }
    {
        // The bytes of `Unknown` are read one by one. An array would be loaded at once, from memory in which other variants store several
        // numbers.
        match self {
            Self::Unknown {
                type_u8,
                code_u8,
                bytes5to8: [a, b, c, d],
            } => MessageStart::new(*type_u8, *code_u8, [*a, *b, *c, *d]),
            Self::DestinationUnreachable(code) => {
                MessageStart::new(TYPE_DST_UNREACH, code.code_u8(), [0; 4])
            }
            Self::PacketTooBig { mtu } => {
                MessageStart::new(TYPE_PACKET_TOO_BIG, 0, mtu.to_be_bytes())
            }
            Self::TimeExceeded(code) => {
                MessageStart::new(TYPE_TIME_EXCEEDED, code.code_u8(), [0; 4])
            }
            Self::ParameterProblem(header) => {
                let pointer = header.pointer.to_be_bytes();
                MessageStart::new(TYPE_PARAMETER_PROBLEM, header.code.code_u8(), pointer)
            }
            Self::EchoRequest(echo) => MessageStart::new(TYPE_ECHO_REQUEST, 0, echo.to_bytes()),
            Self::EchoReply(echo) => MessageStart::new(TYPE_ECHO_REPLY, 0, echo.to_bytes()),
            Self::RouterSolicitation => MessageStart::new(TYPE_ROUTER_SOLICITATION, 0, [0; 4]),
            Self::RouterAdvertisement(header) => {
                MessageStart::new(TYPE_ROUTER_ADVERTISEMENT, 0, header.to_bytes())
            }
            Self::NeighborSolicitation => MessageStart::new(TYPE_NEIGHBOR_SOLICITATION, 0, [0; 4]),
            Self::NeighborAdvertisement(header) => {
                MessageStart::new(TYPE_NEIGHBOR_ADVERTISEMENT, 0, header.to_bytes())
            }
            Self::Redirect => MessageStart::new(TYPE_REDIRECT_MESSAGE, 0, [0; 4]),
        }
    }

    /// The bytes of a header with this checksum.
    #[inline(always)]
    pub(crate) fn to_bytes(&self, checksum: u16) -> ArrayVec<u8, 40>
        ensures written { result.items ≡ wire (record { icmp_type = self.now; checksum = checksum }) }
        ensures fits { FieldsFit self.now }
    {
        self.start().to_bytes(checksum)
    }

    /// The length of the header, in bytes: 8.
    pub fn header_len(&self) -> usize
        ensures { result ≡ length (wire (record { icmp_type = self.now; checksum = 0 })) }
    {
        self.to_bytes(0).len()
    }

    /// Always `None`: no kind of ICMPv6 message has a fixed number of bytes after its header.
    pub fn fixed_payload_size(&self) -> Option<usize>
        ensures { result ≡ None }
    {
        None
    }

    /// The checksum over the pseudo header, a header of this message and this payload (RFC 4443, section 2.3). If the packet has a routing
    /// header, pass the final destination. To check a received packet, use `Icmpv6Slice::is_checksum_valid`, which sums its bytes as
    /// received.
    ///
    /// # Errors
    ///
    /// `ValueTooBigError` of `Icmpv6PayloadLength` if the payload is longer than 4,294,967,287 bytes.
    #[tactic(auto, using(word_sum::proofs::ChecksumLemmas::checksum_verifies))]
    pub fn calc_checksum(
        &self,
        source_ip: [u8; 16],
        destination_ip: [u8; 16],
        payload: &[u8],
    ) -> Result<u16, ValueTooBigError<usize>>
        ensures refused { RefusesExactly result (too_big ValueType.Icmpv6PayloadLength max_payload_len (length payload.now)) }
        ensures sum { IfOk result (λ checksum. checksum ≡ checksum_of
            (checksummed source_ip destination_ip (record { icmp_type = self.now; checksum = 0 }) payload.now)) }
        ensures verifies { IfOk result (λ checksum. IsAllOnes
            (checksummed source_ip destination_ip (record { icmp_type = self.now; checksum = 0 }) payload.now + checksum)) }
        ensures valid { IfOk result (λ checksum. IsValidIcmpv6 source_ip destination_ip
            (wire (record { icmp_type = self.now; checksum = checksum }) ++ payload.now)) }
    {
        check_payload_len(
            payload.len(),
            MAX_ICMPV6_BYTE_LEN - Icmpv6Header::MIN_LEN,
            ValueType::Icmpv6PayloadLength,
        )?;
        Ok(self.checksum_within_limit(source_ip, destination_ip, payload))
    }

    /// The checksum over the pseudo header, a header of this message and a payload that is not too long.
    fn checksum_within_limit(
        &self,
        source_ip: [u8; 16],
        destination_ip: [u8; 16],
        payload: &[u8],
    ) -> u16
        requires { length payload.now ≤ max_payload_len }
        ensures sum { result ≡ checksum_of (checksummed source_ip destination_ip (record { icmp_type = self.now; checksum = 0 }) payload.now) }
        ensures whole { length (wire (record { icmp_type = self.now; checksum = 0 })) ≡ header_len }
    {
        let len = (Icmpv6Header::MIN_LEN + payload.len()) as u32;
        let pseudo_header = pseudo_header_ipv6(
            source_ip,
            destination_ip,
            ip_number::IPV6_ICMP,
            len,
        );
        self.start()
            .add_to(pseudo_header)
            .add_slice(payload)
            .ones_complement()
    }

    /// A header of this message with the checksum over the pseudo header, the header and this payload (RFC 4443, section 2.3). If the
    /// packet has a routing header, pass the final destination.
    ///
    /// # Errors
    ///
    /// `ValueTooBigError` of `Icmpv6PayloadLength` if the payload is longer than 4,294,967,287 bytes.
    pub fn to_header(
        self,
        source_ip: [u8; 16],
        destination_ip: [u8; 16],
        payload: &[u8],
    ) -> Result<Icmpv6Header, ValueTooBigError<usize>>
        ensures refused { RefusesExactly result (too_big ValueType.Icmpv6PayloadLength max_payload_len (length payload.now)) }
        ensures made { IfOk result (λ header. header.icmp_type ≡ self) }
        ensures sum { IfOk result (λ header. header.checksum ≡ checksum_of (checksummed source_ip destination_ip header payload.now)) }
        ensures verifies { IfOk result (λ header. IsAllOnes (checksummed source_ip destination_ip header payload.now + header.checksum)) }
        ensures valid { IfOk result (λ header. IsValidIcmpv6 source_ip destination_ip (wire header ++ payload.now)) }
    {
        Icmpv6Header::with_checksum(self, source_ip, destination_ip, payload)
    }
}
