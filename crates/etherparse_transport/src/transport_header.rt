use crate::canonical::header_bytes;
use crate::err::packet::TransportChecksumError;
use crate::err::tcp::HeaderSliceError;
use crate::err::{LenError, ValueTooBigError};
use crate::{Icmpv4Header, Icmpv6Header, Ipv4Header, Ipv6Header, Proto, TcpHeader, UdpHeader};
use arrayvec::ArrayVec;

/// A header of UDP, TCP, ICMPv4 or ICMPv6.
///
/// ```
/// use etherparse_transport::{Proto, TransportHeader};
///
/// let bytes = [0x00, 0x15, 0x04, 0xD2, 0x00, 0x0B, 0xB3, 0x3A, b'a', b'b', b'c'];
/// let (header, payload) = TransportHeader::from_slice(Proto::Udp, &bytes)?;
/// assert!(rt; matches!(&header, TransportHeader::Udp(udp) if udp.destination_port == 1234));
/// assert_eq!(rt; payload, b"abc".as_slice());
/// assert_eq!(rt; header.to_bytes().as_slice(), &bytes[..8]);
/// ```
#[derive(Clone, Debug, PartialEq, Eq, Drop)]
pub enum TransportHeader {
    /// A UDP header (RFC 768).
    Udp(UdpHeader),
    /// A TCP header with its options (RFC 9293, section 3.1).
    Tcp(TcpHeader),
    /// The header of an ICMPv4 message (RFC 792).
    Icmpv4(Icmpv4Header),
    /// The header of an ICMPv6 message (RFC 4443, section 2.1).
    Icmpv6(Icmpv6Header),
}

impl TransportHeader {
    ghost use Rattle.std.specs.Prelude.{◌≡◌, List, ℕ, ◌++◌, ◌↔◌, None, IfErr, IfOk, drop, length};
    ghost use Rattle.net_base.specs.Bytes.{IsBytes};
    ghost use Rattle.net_base.specs.Refusals.{RefusesExactly};
    ghost use Rattle.etherparse_transport.specs.Formats.{DecodesAs, IsReadBack, canonical, no_room, proto_of, refusal, wire};
    ghost use Rattle.etherparse_transport.specs.Headers.{Counts, IsValidOverIpv4, IsValidOverIpv6, checksum_over_ipv4, checksum_over_ipv6, ipv4_refusal, ipv6_refusal, with_checksum_field};

    /// Reads a header of this protocol (RFC 768; RFC 9293, section 3.1; RFC 792; RFC 4443, section 2.1). Returns the
    /// header, and the bytes after it, borrowed from the slice.
    ///
    /// # Errors
    ///
    /// The errors of `from_slice` for the header of this protocol:
    /// - `Len` if the slice is shorter than the header. `Len` is also returned if an ICMPv4 timestamp message or reply with code 0 is not
    ///   20 bytes long, or if an ICMPv6 message is longer than 4,294,967,295 bytes.
    /// - `DataOffsetTooSmall` if the data offset of a TCP header is below 5.
    pub fn from_slice(
        protocol: Proto,
        slice: &[u8],
    ) -> Result<(TransportHeader, &[u8]), HeaderSliceError>
        ensures refused { RefusesExactly result (refusal protocol slice.now) }
        ensures protocol { IfOk result (λ found. proto_of found.0 ≡ protocol) }
        ensures read { IfOk result (λ found. DecodesAs slice.now found.0 found.1.now) }
        ensures decode_alike { IfOk result (λ found. (other : List ℕ) → IsBytes other → refusal protocol other ≡ None
            → (DecodesAs other found.0 found.1.now ↔ (canonical protocol other ≡ canonical protocol slice.now))) }
        ensures written_back { IfOk result (λ found. wire found.0 ++ found.1.now ≡ canonical protocol slice.now) }
    {
        match protocol {
            Proto::Udp => match UdpHeader::from_slice(slice) {
                Ok((header, rest)) => Ok((TransportHeader::Udp(header), rest)),
                Err(error) => Err(HeaderSliceError::Len(error)),
            },
            Proto::Tcp => match TcpHeader::from_slice(slice) {
                Ok((header, rest)) => Ok((TransportHeader::Tcp(header), rest)),
                Err(error) => Err(error),
            },
            Proto::Icmpv4 => match Icmpv4Header::from_slice(slice) {
                Ok((header, rest)) => Ok((TransportHeader::Icmpv4(header), rest)),
                Err(error) => Err(HeaderSliceError::Len(error)),
            },
            Proto::Icmpv6 => match Icmpv6Header::from_slice(slice) {
                Ok((header, rest)) => Ok((TransportHeader::Icmpv6(header), rest)),
                Err(error) => Err(HeaderSliceError::Len(error)),
            },
        }
    }

    /// The protocol of the header.
    pub fn proto(&self) -> Proto
        ensures { result ≡ proto_of self.now }
    {
        match self {
            TransportHeader::Udp(_) => Proto::Udp,
            TransportHeader::Tcp(_) => Proto::Tcp,
            TransportHeader::Icmpv4(_) => Proto::Icmpv4,
            TransportHeader::Icmpv6(_) => Proto::Icmpv6,
        }
    }

    /// The length of the header, in bytes: 20 to 60 for TCP, 20 for `TimestampRequest` and `TimestampReply` of ICMPv4,
    /// otherwise 8.
    pub fn header_len(&self) -> usize
        ensures { result ≡ length (wire self.now) }
    {
        match self {
            TransportHeader::Udp(header) => header.header_len(),
            TransportHeader::Tcp(header) => header.header_len(),
            TransportHeader::Icmpv4(header) => header.header_len(),
            TransportHeader::Icmpv6(header) => header.header_len(),
        }
    }

    /// The bytes of the header (RFC 768; RFC 9293, section 3.1; RFC 792; RFC 4443, section 2.1). With a payload after them, these bytes are
    /// read back as this header. `to_bytes` of `Icmpv4Header` and `Icmpv6Header` lists the exceptions.
    pub fn to_bytes(&self) -> ArrayVec<u8, 60>
        ensures written { result.items ≡ wire self.now }
        ensures reads_back { (payload : List ℕ) → IsReadBack self.now payload }
    {
        match self {
            TransportHeader::Udp(header) => header_bytes(header.to_bytes().as_slice()),
            TransportHeader::Tcp(header) => header.to_bytes(),
            TransportHeader::Icmpv4(header) => header_bytes(header.to_bytes().as_slice()),
            TransportHeader::Icmpv6(header) => header_bytes(header.to_bytes().as_slice()),
        }
    }

    /// Writes the bytes that `to_bytes` returns to the front of the slice, and returns their number. The rest of the
    /// slice is not changed.
    ///
    /// # Errors
    ///
    /// `LenError` of the layer `UdpHeader`, `TcpHeader`, `Icmpv4` or `Icmpv6` if the slice is shorter than the header.
    /// After this error the slice is unchanged.
    pub fn write_to_slice(&self, slice: &mut [u8]) -> Result<usize, LenError>
        ensures refused { RefusesExactly result (no_room self.now (length slice.old)) }
        ensures len { IfOk result (λ len. len ≡ length (wire self.now)) }
        ensures written { IfOk result (λ _. slice.new ≡ wire self.now ++ drop (length (wire self.now)) slice.old) }
        ensures unchanged { IfErr result (λ _. slice.new ≡ slice.old) }
    {
        match self {
            TransportHeader::Udp(header) => header.write_to_slice(slice),
            TransportHeader::Tcp(header) => header.write_to_slice(slice),
            TransportHeader::Icmpv4(header) => header.write_to_slice(slice),
            TransportHeader::Icmpv6(header) => header.write_to_slice(slice),
        }
    }

    /// Computes the checksum of this header and this payload over IPv4, and stores it in the header (RFC 768; RFC 9293, section 3.1; RFC
    /// 792). No other field changes, so the caller must set the length field of UDP.
    ///
    /// # Errors
    ///
    /// The header is unchanged after an error:
    /// - `PayloadLen` if header and payload of UDP or TCP are longer than 65,535 bytes.
    /// - `Icmpv6InIpv4` if the header is an ICMPv6 header.
    pub fn update_checksum_ipv4(
        &mut self,
        ip_header: &Ipv4Header,
        payload: &[u8],
    ) -> Result<(), TransportChecksumError>
        ensures refused { RefusesExactly result (ipv4_refusal self.old (length payload.now)) }
        ensures unchanged { IfErr result (λ _. self.new ≡ self.old) }
        ensures updated { IfOk result (λ _. self.new
            ≡ with_checksum_field self.old (checksum_over_ipv4 ip_header.now.source ip_header.now.destination self.old payload.now)) }
        ensures valid { Counts self.old (length payload.now)
            → IfOk result (λ _. IsValidOverIpv4 ip_header.now.source ip_header.now.destination self.new payload.now) }
    {
        match self {
            TransportHeader::Udp(header) => {
                header.checksum = header
                    .calc_checksum_ipv4(ip_header, payload)
                    .map_err(TransportChecksumError::PayloadLen)?;
            }
            TransportHeader::Tcp(header) => {
                header.checksum = header
                    .calc_checksum_ipv4(ip_header, payload)
                    .map_err(TransportChecksumError::PayloadLen)?;
            }
            TransportHeader::Icmpv4(header) => header.update_checksum(payload),
            TransportHeader::Icmpv6(_) => return Err(TransportChecksumError::Icmpv6InIpv4),
        }
        Ok(())
    }

    /// Computes the checksum of this header and this payload over IPv6, and stores it in the header. The checksum of ICMPv4 covers no
    /// address. No other field changes, so the caller must set the length field of UDP. If the packet has a routing header, pass the final
    /// destination (RFC 8200, section 8.1).
    ///
    /// # Errors
    ///
    /// `ValueTooBigError` if header and payload of UDP, TCP or ICMPv6 are longer than 4,294,967,295 bytes. After this
    /// error the header is unchanged.
    pub fn update_checksum_ipv6(
        &mut self,
        ip_header: &Ipv6Header,
        payload: &[u8],
    ) -> Result<(), ValueTooBigError<usize>>
        ensures refused { RefusesExactly result (ipv6_refusal self.old (length payload.now)) }
        ensures unchanged { IfErr result (λ _. self.new ≡ self.old) }
        ensures updated { IfOk result (λ _. self.new
            ≡ with_checksum_field self.old (checksum_over_ipv6 ip_header.now.source ip_header.now.destination self.old payload.now)) }
        ensures valid { Counts self.old (length payload.now)
            → IfOk result (λ _. IsValidOverIpv6 ip_header.now.source ip_header.now.destination self.new payload.now) }
    {
        match self {
            TransportHeader::Udp(header) => {
                header.checksum = header.calc_checksum_ipv6(ip_header, payload)?;
            }
            TransportHeader::Tcp(header) => {
                header.checksum = header.calc_checksum_ipv6(ip_header, payload)?;
            }
            TransportHeader::Icmpv4(header) => header.update_checksum(payload),
            TransportHeader::Icmpv6(header) => {
                header.update_checksum(ip_header.source, ip_header.destination, payload)?;
            }
        }
        Ok(())
    }
}
