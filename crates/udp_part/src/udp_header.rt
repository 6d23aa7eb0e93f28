ghost use Rattle.std.specs.Prelude.{◌≡◌};
ghost use Rattle.net_base.specs.Refusals as specs;
ghost use Rattle.net_base.specs.Refusals.{RefusesExactly, no_room, too_big};

use crate::UdpHeaderSlice;
use net_base::err::{Layer, LenError, ValueTooBigError, ValueType};
use net_base::{Ipv4Header, Ipv6Header, check_payload_len, ip_number, wrong_length};
use word_sum::checksum::Sum16BitWords;

/// A UDP header (RFC 768).
///
/// ```
/// use etherparse_transport::UdpHeader;
///
/// let header = UdpHeader::without_ipv4_checksum(21, 1234, 3)?;
/// let bytes = header.to_bytes();
/// assert_eq!(rt; bytes, [0x00, 0x15, 0x04, 0xD2, 0x00, 0x0B, 0x00, 0x00]);
/// let (read, rest) = UdpHeader::from_slice(&bytes)?;
/// assert_eq!(rt; read, header);
/// assert!(rt; rest.is_empty());
/// ```
#[derive(Clone, Debug, PartialEq, Eq, Drop)]
pub struct UdpHeader {
    /// The port of the sender, or 0 if it is not used (bytes 0 and 1).
    pub source_port: u16,
    /// The port of the receiver (bytes 2 and 3).
    pub destination_port: u16,
    /// The length of header and payload, in bytes (bytes 4 and 5). In a valid packet it is at least 8, or 0 in a
    /// jumbogram (RFC 2675, section 4).
    pub length: u16,
    /// The checksum over pseudo header, header and payload (bytes 6 and 7). Over IPv4, 0 means that there is no checksum. Over IPv6, 0 is
    /// wrong (RFC 8200, section 8.1).
    pub checksum: u16,
}

impl Default for UdpHeader {
    ghost use Rattle.std.specs.Prelude.{◌≡◌};

    ghost is_default = { λ header. header ≡ record { source_port = 0; destination_port = 0; length = 0; checksum = 0 } };

    /// A header in which every field is 0.
    fn default() -> UdpHeader {
        UdpHeader {
            source_port: 0,
            destination_port: 0,
            length: 0,
            checksum: 0,
        }
    }
}

impl UdpHeader {
    ghost use Rattle.std.specs.Prelude.{◌≡◌, ◌<◌, ◌^◌, List, ℕ, ◌+◌, ◌++◌, ◌↔◌, None, IfErr, IfOk, drop, length};
    ghost use Rattle.net_base.specs.Bytes.{IsBytes};
    ghost use Rattle.word_sum.specs.Checksum.{IsAllOnes, folded, total, udp_checksum_of};
    ghost use Rattle.word_sum.specs.SumValue.{sum_value};
    ghost use Rattle.udp_part.specs.UdpFormat.{DecodesAs, canonical, checksummed_ipv4, checksummed_ipv6, header_of, max_payload_len, max_payload_len_of_32_bits, refusal, wire};
    ghost use Rattle.udp_part.specs.UdpValidity.{IsValidUdpIpv4, IsValidUdpIpv6, SumsUpOverIpv4};

    /// The length of a UDP header, in bytes.
    pub const LEN: usize = 8;

    /// The length of a UDP header, in bytes, in the type of the length field.
    pub const LEN_U16: u16 = 8;

    /// The length of a UDP header, in bytes: an older name of `LEN`.
    pub const SERIALIZED_SIZE: usize = UdpHeader::LEN;

    /// The place of the source port, in bytes from the start of the header.
    pub const SOURCE_PORT_AT: usize = 0;

    /// The place of the destination port, in bytes from the start of the header.
    pub const DESTINATION_PORT_AT: usize = 2;

    /// The place of the checksum, in bytes from the start of the header.
    pub const CHECKSUM_AT: usize = 6;

    /// The length of the longest payload that the length field can count, in bytes: 65,535 minus the length of the header.
    const MAX_PAYLOAD_LEN: usize = u16::MAX as usize - UdpHeader::LEN;

    /// The length of the longest payload that 32 bits can count, in bytes: 4,294,967,295 minus the length of the header.
    const MAX_PAYLOAD_LEN_32_BITS: usize = u32::MAX as usize - UdpHeader::LEN;

    /// A header for a payload of this length, with the checksum 0. Over IPv4, 0 means that there is no checksum (RFC 768).
    ///
    /// # Errors
    ///
    /// `ValueTooBigError` of `UdpPayloadLengthIpv4` if the payload length is above 65,527 bytes.
    pub fn without_ipv4_checksum(
        source_port: u16,
        destination_port: u16,
        payload_length: usize,
    ) -> Result<UdpHeader, ValueTooBigError<usize>>
        ensures refused { RefusesExactly result (too_big ValueType.UdpPayloadLengthIpv4 max_payload_len payload_length) }
        ensures made { IfOk result (λ header. header ≡ record {
          source_port = source_port;
          destination_port = destination_port;
          length = 8 + payload_length;
          checksum = 0;
        }) }
    {
        check_payload_len(
            payload_length,
            UdpHeader::MAX_PAYLOAD_LEN,
            ValueType::UdpPayloadLengthIpv4,
        )?;
        Ok(UdpHeader {
            source_port,
            destination_port,
            length: (UdpHeader::LEN + payload_length) as u16,
            checksum: 0,
        })
    }

    /// A header for this payload, with its checksum over IPv4 (RFC 768).
    ///
    /// # Errors
    ///
    /// `ValueTooBigError` of `UdpPayloadLengthIpv4` if the payload is longer than 65,527 bytes.
    #[tactic(auto, using(word_sum::proofs::ChecksumLemmas::udp_checksum_verifies))]
    pub fn with_ipv4_checksum(
        source_port: u16,
        destination_port: u16,
        ip_header: &Ipv4Header,
        payload: &[u8],
    ) -> Result<UdpHeader, ValueTooBigError<usize>>
        ensures refused { RefusesExactly result (too_big ValueType.UdpPayloadLengthIpv4 max_payload_len (length payload.now)) }
        ensures made { IfOk result (λ header. header ≡ record {
          source_port = source_port;
          destination_port = destination_port;
          length = 8 + length payload.now;
          checksum = header.checksum;
        }) }
        ensures sum { IfOk result (λ header. header.checksum ≡ udp_checksum_of
            (checksummed_ipv4 ip_header.now.source ip_header.now.destination header payload.now)) }
        ensures verifies { IfOk result (λ header. IsAllOnes
            (checksummed_ipv4 ip_header.now.source ip_header.now.destination header payload.now + header.checksum)) }
        // A packet of this header and this payload contains a checksum and is valid.
        ensures sums_up { IfOk result (λ header. SumsUpOverIpv4 ip_header.now.source ip_header.now.destination (wire header ++ payload.now)) }
        ensures valid { IfOk result (λ header. IsValidUdpIpv4 ip_header.now.source ip_header.now.destination (wire header ++ payload.now)) }
    {
        let mut header = UdpHeader::without_ipv4_checksum(
            source_port,
            destination_port,
            payload.len(),
        )?;
        header.checksum = header.calc_checksum_ipv4_internal(
            ip_header.source,
            ip_header.destination,
            payload,
        );
        Ok(header)
    }

    /// A header for this payload, with its checksum over IPv6 (RFC 768; RFC 8200, section 8.1). If the packet has a routing header, pass
    /// the final destination.
    ///
    /// # Errors
    ///
    /// `ValueTooBigError` of `UdpPayloadLengthIpv6` if the payload is longer than 65,527 bytes.
    #[tactic(auto, using(word_sum::proofs::ChecksumLemmas::udp_checksum_verifies))]
    pub fn with_ipv6_checksum(
        source_port: u16,
        destination_port: u16,
        ip_header: &Ipv6Header,
        payload: &[u8],
    ) -> Result<UdpHeader, ValueTooBigError<usize>>
        ensures refused { RefusesExactly result (too_big ValueType.UdpPayloadLengthIpv6 max_payload_len (length payload.now)) }
        ensures made { IfOk result (λ header. header ≡ record {
          source_port = source_port;
          destination_port = destination_port;
          length = 8 + length payload.now;
          checksum = header.checksum;
        }) }
        ensures sum { IfOk result (λ header. header.checksum ≡ udp_checksum_of
            (checksummed_ipv6 ip_header.now.source ip_header.now.destination header payload.now)) }
        ensures verifies { IfOk result (λ header. IsAllOnes
            (checksummed_ipv6 ip_header.now.source ip_header.now.destination header payload.now + header.checksum)) }
        ensures valid { IfOk result (λ header. IsValidUdpIpv6 ip_header.now.source ip_header.now.destination (wire header ++ payload.now)) }
    {
        check_payload_len(
            payload.len(),
            UdpHeader::MAX_PAYLOAD_LEN,
            ValueType::UdpPayloadLengthIpv6,
        )?;
        let mut header = UdpHeader {
            source_port,
            destination_port,
            length: (UdpHeader::LEN + payload.len()) as u16,
            checksum: 0,
        };
        header.checksum = header.calc_checksum_ipv6_internal(
            ip_header.source,
            ip_header.destination,
            payload,
        );
        Ok(header)
    }

    /// Reads a header (RFC 768). Returns the header, and the bytes after it, borrowed from the slice. The length field is not checked.
    ///
    /// # Errors
    ///
    /// `LenError` of the layer `UdpHeader` if the slice is shorter than 8 bytes.
    pub fn from_slice(slice: &[u8]) -> Result<(UdpHeader, &[u8]), LenError>
        ensures refused { RefusesExactly result (refusal slice.now) }
        ensures read { IfOk result (λ found. DecodesAs slice.now found.0 found.1.now) }
        ensures written_back { IfOk result (λ found. wire found.0 ++ found.1.now ≡ canonical slice.now) }
        ensures decode_alike { IfOk result (λ found. (other : List ℕ) → IsBytes other → refusal other ≡ None
            → (DecodesAs other found.0 found.1.now ↔ (canonical other ≡ canonical slice.now))) }
    {
        if slice.len() < UdpHeader::LEN {
            return Err(header_cut_off(slice.len()));
        }
        let header = UdpHeaderSlice::from_slice(slice)?;
        Ok((header.to_header(), &slice[UdpHeader::LEN..]))
    }

    /// An older name of `from_slice`.
    ///
    /// # Errors
    ///
    /// The errors of `from_slice`.
    pub fn read_from_slice(slice: &[u8]) -> Result<(UdpHeader, &[u8]), LenError>
        ensures refused { RefusesExactly result (refusal slice.now) }
        ensures read { IfOk result (λ found. DecodesAs slice.now found.0 found.1.now) }
        ensures written_back { IfOk result (λ found. wire found.0 ++ found.1.now ≡ canonical slice.now) }
        ensures decode_alike { IfOk result (λ found. (other : List ℕ) → IsBytes other → refusal other ≡ None
            → (DecodesAs other found.0 found.1.now ↔ (canonical other ≡ canonical slice.now))) }
    {
        UdpHeader::from_slice(slice)
    }

    /// Reads the header in these bytes (RFC 768).
    pub fn from_bytes(bytes: [u8; 8]) -> UdpHeader
        ensures read { result ≡ header_of bytes }
        ensures written_back { wire result ≡ bytes }
    {
        UdpHeader {
            source_port: u16::from_be_bytes([bytes[0], bytes[1]]),
            destination_port: u16::from_be_bytes([bytes[2], bytes[3]]),
            length: u16::from_be_bytes([bytes[4], bytes[5]]),
            checksum: u16::from_be_bytes([bytes[6], bytes[7]]),
        }
    }

    /// The bytes of the header, with each field at its place (RFC 768).
    #[tactic(auto, using(crate::proofs::UdpFormatLemmas::reads_back))]
    pub fn to_bytes(&self) -> [u8; 8]
        ensures written { result ≡ wire self.now }
        ensures read_back { header_of result ≡ self.now }
        ensures reads_back { (payload : List ℕ) → DecodesAs (wire self.now ++ payload) self.now payload }
    {
        // perf: the fields become one number whose lowest byte is the first byte, so that the header is stored by one instruction (23 Nov
        // 2026).
        let source_port = u64::from(self.source_port.swap_bytes());
        let destination_port = u64::from(self.destination_port.swap_bytes());
        let length = u64::from(self.length.swap_bytes());
        let checksum = u64::from(self.checksum.swap_bytes());
        let number = source_port
            + destination_port * 0x1_0000
            + length * 0x1_0000_0000
            + checksum * 0x1_0000_0000_0000;
        number.to_le_bytes()
    }

    /// Writes the bytes of the header (RFC 768) to the front of the slice, and returns their number: 8. The rest of the slice is not
    /// changed.
    ///
    /// # Errors
    ///
    /// `LenError` of the layer `UdpHeader` if the slice is shorter than 8 bytes. After this error the slice is unchanged.
    #[inline(always)]
    pub fn write_to_slice(&self, slice: &mut [u8]) -> Result<usize, LenError>
        ensures refused { RefusesExactly result (no_room Layer.UdpHeader (wire self.now) (length slice.old)) }
        ensures len { IfOk result (λ len. len ≡ length (wire self.now)) }
        ensures written { IfOk result (λ _. slice.new ≡ wire self.now ++ drop (length (wire self.now)) slice.old) }
        ensures unchanged { IfErr result (λ _. slice.new ≡ slice.old) }
    {
        let len = slice.len();
        let Some(front) = slice.first_chunk_mut::<8>() else {
            return Err(wrong_length(Layer::UdpHeader, UdpHeader::LEN, len));
        };
        // perf: a copy of 8 bytes goes through memory. The assignment of an array does not (25 Nov 2026).
        *front = self.to_bytes();
        Ok(UdpHeader::LEN)
    }

    /// The length of the header, in bytes: 8.
    pub fn header_len(&self) -> usize
        ensures { result ≡ length (wire self.now) }
    {
        UdpHeader::LEN
    }

    /// The length of the header, in bytes: 8.
    pub fn header_len_u16(&self) -> u16
        ensures { result ≡ length (wire self.now) }
    {
        UdpHeader::LEN_U16
    }

    /// The checksum over IPv4, as `calc_checksum_ipv4_raw` computes it from the addresses of this IP header.
    ///
    /// # Errors
    ///
    /// The errors of `calc_checksum_ipv4_raw`.
    pub fn calc_checksum_ipv4(
        &self,
        ip_header: &Ipv4Header,
        payload: &[u8],
    ) -> Result<u16, ValueTooBigError<usize>>
        ensures refused { RefusesExactly result (too_big ValueType.UdpPayloadLengthIpv4 max_payload_len (length payload.now)) }
        ensures sum { IfOk result (λ checksum. checksum ≡ udp_checksum_of
            (checksummed_ipv4 ip_header.now.source ip_header.now.destination self.now payload.now)) }
        ensures verifies { IfOk result (λ checksum. IsAllOnes
            (checksummed_ipv4 ip_header.now.source ip_header.now.destination self.now payload.now + checksum)) }
        // If the length field is right, a packet of the header with this checksum and of this payload is valid.
        ensures sums_up { self.now.length ≡ 8 + length payload.now → IfOk result (λ checksum. SumsUpOverIpv4
            ip_header.now.source ip_header.now.destination (wire (record self.now { checksum = checksum }) ++ payload.now)) }
        ensures valid { self.now.length ≡ 8 + length payload.now → IfOk result (λ checksum. IsValidUdpIpv4
            ip_header.now.source ip_header.now.destination (wire (record self.now { checksum = checksum }) ++ payload.now)) }
    {
        self.calc_checksum_ipv4_raw(ip_header.source, ip_header.destination, payload)
    }

    /// The checksum over IPv4 (RFC 768). The pseudo header contains the length field of this header, even if it is wrong. The field
    /// `checksum` is not summed, and 65535 is returned instead of 0. To check a received packet, use `UdpSlice::is_checksum_valid_ipv4`.
    ///
    /// # Errors
    ///
    /// `ValueTooBigError` of `UdpPayloadLengthIpv4` if the payload is longer than 65,527 bytes.
    #[tactic(auto, using(word_sum::proofs::ChecksumLemmas::udp_checksum_verifies))]
    pub fn calc_checksum_ipv4_raw(
        &self,
        source: [u8; 4],
        destination: [u8; 4],
        payload: &[u8],
    ) -> Result<u16, ValueTooBigError<usize>>
        ensures refused { RefusesExactly result (too_big ValueType.UdpPayloadLengthIpv4 max_payload_len (length payload.now)) }
        ensures sum { IfOk result (λ checksum. checksum ≡ udp_checksum_of
            (checksummed_ipv4 source destination self.now payload.now)) }
        ensures verifies { IfOk result (λ checksum. IsAllOnes
            (checksummed_ipv4 source destination self.now payload.now + checksum)) }
        // If the length field is right, a packet of the header with this checksum and of this payload is valid.
        ensures sums_up { self.now.length ≡ 8 + length payload.now → IfOk result (λ checksum. SumsUpOverIpv4
            source destination (wire (record self.now { checksum = checksum }) ++ payload.now)) }
        ensures valid { self.now.length ≡ 8 + length payload.now → IfOk result (λ checksum. IsValidUdpIpv4
            source destination (wire (record self.now { checksum = checksum }) ++ payload.now)) }
    {
        check_payload_len(
            payload.len(),
            UdpHeader::MAX_PAYLOAD_LEN,
            ValueType::UdpPayloadLengthIpv4,
        )?;
        Ok(self.calc_checksum_ipv4_internal(source, destination, payload))
    }

    /// The checksum over IPv4 for a payload of any length.
    fn calc_checksum_ipv4_internal(
        &self,
        source: [u8; 4],
        destination: [u8; 4],
        payload: &[u8],
    ) -> u16
        ensures { result ≡ udp_checksum_of (checksummed_ipv4 source destination self.now payload.now) }
    {
        self.sum_of_fields()
            .add_4bytes(source)
            .add_4bytes(destination)
            .add_slice(payload)
            .to_ones_complement_with_no_zero()
    }

    /// The checksum over IPv6, as `calc_checksum_ipv6_raw` computes it from the addresses of this IP header. If the packet has a routing
    /// header, pass the final destination (RFC 8200, section 8.1).
    ///
    /// # Errors
    ///
    /// The errors of `calc_checksum_ipv6_raw`.
    pub fn calc_checksum_ipv6(
        &self,
        ip_header: &Ipv6Header,
        payload: &[u8],
    ) -> Result<u16, ValueTooBigError<usize>>
        ensures refused { RefusesExactly result (too_big ValueType.UdpPayloadLengthIpv6 max_payload_len_of_32_bits (length payload.now)) }
        ensures sum { IfOk result (λ checksum. checksum ≡ udp_checksum_of
            (checksummed_ipv6 ip_header.now.source ip_header.now.destination self.now payload.now)) }
        ensures verifies { IfOk result (λ checksum. IsAllOnes
            (checksummed_ipv6 ip_header.now.source ip_header.now.destination self.now payload.now + checksum)) }
        ensures valid { self.now.length ≡ 8 + length payload.now → IfOk result (λ checksum. IsValidUdpIpv6
            ip_header.now.source ip_header.now.destination (wire (record self.now { checksum = checksum }) ++ payload.now)) }
    {
        self.calc_checksum_ipv6_raw(ip_header.source, ip_header.destination, payload)
    }

    /// The checksum over IPv6 (RFC 768; RFC 8200, section 8.1). The pseudo header contains the length field of this header. The field
    /// `checksum` is not summed, and 65535 is returned instead of 0. If the packet has a routing header, pass the final destination. To
    /// check a received packet, use `UdpSlice::is_checksum_valid_ipv6`.
    ///
    /// The length field is summed even if it is wrong. In a jumbogram it is 0, but a receiver sums the true length (RFC 2675, section 4).
    /// So the result is not the checksum of a jumbogram.
    ///
    /// # Errors
    ///
    /// `ValueTooBigError` of `UdpPayloadLengthIpv6` if the payload is longer than 4,294,967,287 bytes.
    #[tactic(auto, using(word_sum::proofs::ChecksumLemmas::udp_checksum_verifies))]
    pub fn calc_checksum_ipv6_raw(
        &self,
        source: [u8; 16],
        destination: [u8; 16],
        payload: &[u8],
    ) -> Result<u16, ValueTooBigError<usize>>
        ensures refused { RefusesExactly result (too_big ValueType.UdpPayloadLengthIpv6 max_payload_len_of_32_bits (length payload.now)) }
        ensures sum { IfOk result (λ checksum. checksum ≡ udp_checksum_of
            (checksummed_ipv6 source destination self.now payload.now)) }
        ensures verifies { IfOk result (λ checksum. IsAllOnes
            (checksummed_ipv6 source destination self.now payload.now + checksum)) }
        ensures valid { self.now.length ≡ 8 + length payload.now → IfOk result (λ checksum. IsValidUdpIpv6
            source destination (wire (record self.now { checksum = checksum }) ++ payload.now)) }
    {
        check_payload_len(
            payload.len(),
            UdpHeader::MAX_PAYLOAD_LEN_32_BITS,
            ValueType::UdpPayloadLengthIpv6,
        )?;
        Ok(self.calc_checksum_ipv6_internal(source, destination, payload))
    }

    /// The checksum over IPv6 for a payload of any length.
    fn calc_checksum_ipv6_internal(
        &self,
        source: [u8; 16],
        destination: [u8; 16],
        payload: &[u8],
    ) -> u16
        ensures { result ≡ udp_checksum_of (checksummed_ipv6 source destination self.now payload.now) }
    {
        self.sum_of_fields()
            .add_16bytes(source)
            .add_16bytes(destination)
            .add_slice(payload)
            .to_ones_complement_with_no_zero()
    }

    /// The sum of the header without its checksum, and of the protocol and the length in the pseudo header (RFC 768). Over IPv6 these two
    /// fields have 4 bytes each (RFC 8200, section 8.1). Only the last 2 bytes of the length and the last byte of the protocol can be other
    /// than 0.
    // perf: the addresses are added after these fields, since numbers this small have no carry. Over IPv6 a packet of 8 bytes went from
    // 1.26 to 1.48 of the speed of `etherparse` (25 Nov 2026). The fields are added as numbers, with one shift instead of a swap for each
    // field, which saves three to four instructions of 67 (27 Nov 2026).
    fn sum_of_fields(&self) -> Sum16BitWords
        ensures sum { sum_value result ≡ folded (17 + self.now.length + total (wire (record self.now { checksum = 0 }))) }
        ensures fits { self.now.length < 2 ^ 16 }
    {
        // The sum of the fields has less than 24 bits. A sum keeps its words with their bytes swapped, so the number is shifted by eight
        // bits.
        let words = u32::from(self.source_port)
            + u32::from(self.destination_port)
            + u32::from(self.length)
            + u32::from(ip_number::UDP.0)
            + u32::from(self.length);
        Sum16BitWords::new().add_4bytes((words << 8).to_le_bytes())
    }
}

/// The error if a slice of this length ends within the header. The length is in bytes.
// perf: the refusal is a call, so that accepted headers do not run its code. `UdpHeader::from_slice` then takes 1.9 instead of 3.0 ns, but
// a refusal takes 2.7 instead of 1.7 (27 Nov 2026).
#[cold]
#[inline(never)]
pub(crate) fn header_cut_off(len: usize) -> LenError
    ensures { result ≡ specs.wrong_length Layer.UdpHeader 8 len }
{
    wrong_length(Layer::UdpHeader, UdpHeader::LEN, len)
}
