use crate::header_checksum::{checksum_ipv4, checksum_ipv6, is_valid_ipv4, is_valid_ipv6};
use crate::{TcpHeader, TcpOptions, TcpOptionsIterator, TcpRawOptionsIterator, flag_bits};
use net_base::err::tcp::{HeaderError, HeaderSliceError};
use net_base::err::{Layer, ValueTooBigError};
use net_base::{Ipv4HeaderSlice, Ipv6HeaderSlice, wrong_length};
use std::marker::Model;

/// The bytes of a TCP header with its options (RFC 9293, section 3.1).
///
/// ```
/// use etherparse_transport::TcpHeaderSlice;
///
/// let bytes = [0xC3, 0x50, 0, 80, 0, 0, 0, 1, 0, 0, 0, 0, 0x50, 2, 0x20, 0, 0x48, 0xED, 0, 0];
/// let header = TcpHeaderSlice::from_slice(&bytes)?;
/// assert_eq!(rt; header.source_port(), 50000);
/// assert_eq!(rt; header.destination_port(), 80);
/// assert!(rt; header.syn() && !header.ack());
/// assert!(rt; header.is_checksum_valid_ipv4([192, 168, 1, 1], [192, 168, 1, 2], &[]));
/// ```
#[derive(Clone, Debug, Drop)]
pub struct TcpHeaderSlice<'a> {
    slice: &'a [u8],
}

impl<'a> Model for TcpHeaderSlice<'a> {
    ghost use Rattle.std.specs.Prelude.{◌≡◌, ◌≤◌, ◌*◌, List, ℕ, length};
    ghost use Rattle.tcp_part.specs.TcpFormat.{data_offset, max_data_offset, min_data_offset};

    ghost Value = { List ℕ };

    ghost view = { λ header. header.slice.now };

    ghost invariant = { λ header. (min_data_offset ≤ data_offset header.slice.now) × (data_offset header.slice.now ≤ max_data_offset)
        × (length header.slice.now ≡ data_offset header.slice.now * 4) };
}

impl<'a> TcpHeaderSlice<'a> {
    ghost use Rattle.std.specs.Prelude.{◌≡◌, ◌≤◌, ◌+◌, ◌%◌, ◌↔◌, ◌++◌, IfOk, IsTrue, length, slice_range, take};
    ghost use Rattle.net_base.specs.Bytes.{be_number};
    ghost use Rattle.net_base.specs.Detection.{Detects};
    ghost use Rattle.net_base.specs.Refusals.{RefusesExactly, too_big};
    ghost use Rattle.net_base.specs.declared.err.value_type.ValueType.TheVariants.{TcpPayloadLengthIpv4, TcpPayloadLengthIpv6};
    ghost use Rattle.net_base.specs.StoredChecksum.{tcp_checksum_place, with_checksum};
    ghost use Rattle.word_sum.specs.Checksum.{AcceptsChecksum, IsAllOnes, checksum_of};
    ghost use Rattle.tcp_part.specs.TcpFormat.{UnusedBitsAreZero, ack_flag, checksummed_ipv4, checksummed_ipv6, cwr_flag, data_offset, ece_flag, fin_flag, flag_of, header_of, layout_of, max_payload_len_ipv4, max_payload_len_ipv6, min_header_len, ns_flag, options_of, psh_flag, refusal, rst_flag, syn_flag, urg_flag, wire};
    ghost use Rattle.tcp_part.specs.TcpOptions.{max_options_len};
    ghost use Rattle.tcp_part.specs.TcpValidity.{IsValidTcpIpv4, IsValidTcpIpv6};

    /// Reads the header at the front of the slice. The data offset states the length of the header (RFC 9293, section 3.1).
    ///
    /// # Errors
    ///
    /// The call checks these cases, in this order:
    /// - `Len` of the layer `TcpHeader` if the slice is shorter than 20 bytes.
    /// - `DataOffsetTooSmall` if the data offset is below 5.
    /// - `Len` of the layer `TcpHeader` if the slice is shorter than the data offset states.
    pub fn from_slice(slice: &'a [u8]) -> Result<TcpHeaderSlice<'a>, HeaderSliceError>
        ensures refused { RefusesExactly result (refusal slice.now) }
        ensures kept { IfOk result (λ header. header ≡ take ((layout_of slice.now).header_len) slice.now) }
    {
        if slice.len() < TcpHeader::MIN_LEN {
            return Err(HeaderSliceError::Len(wrong_length(
                Layer::TcpHeader,
                TcpHeader::MIN_LEN,
                slice.len(),
            )));
        }
        let data_offset = slice[12] >> 4;
        if data_offset < TcpHeader::MIN_DATA_OFFSET {
            return Err(HeaderSliceError::Content(HeaderError::DataOffsetTooSmall { data_offset }));
        }
        let header_len = usize::from(data_offset) * 4;
        if slice.len() < header_len {
            return Err(HeaderSliceError::Len(wrong_length(
                Layer::TcpHeader,
                header_len,
                slice.len(),
            )));
        }
        Ok(TcpHeaderSlice {
            slice: &slice[..header_len],
        })
    }

    /// The bytes of the header.
    pub fn slice(&self) -> &'a [u8]
        ensures { result.now ≡ self.now }
    {
        self.slice
    }

    /// The port of the sender (bytes 0 and 1).
    pub fn source_port(&self) -> u16
        ensures { result ≡ be_number self.now 0 2 }
    {
        u16::from_be_bytes([self.slice[0], self.slice[1]])
    }

    /// The port of the receiver (bytes 2 and 3).
    pub fn destination_port(&self) -> u16
        ensures { result ≡ be_number self.now 2 2 }
    {
        u16::from_be_bytes([self.slice[2], self.slice[3]])
    }

    /// The sequence number of the first byte of the payload (bytes 4 to 7). If `syn` is set, it is the initial sequence number instead.
    pub fn sequence_number(&self) -> u32
        ensures { result ≡ be_number self.now 4 4 }
    {
        u32::from_be_bytes([self.slice[4], self.slice[5], self.slice[6], self.slice[7]])
    }

    /// The next sequence number that the sender expects (bytes 8 to 11). If `ack` is not set, the field has no meaning.
    pub fn acknowledgment_number(&self) -> u32
        ensures { result ≡ be_number self.now 8 4 }
    {
        u32::from_be_bytes([self.slice[8], self.slice[9], self.slice[10], self.slice[11]])
    }

    /// The length of the header, 5 to 15, in words of four bytes (the high four bits of byte 12).
    pub fn data_offset(&self) -> u8
        ensures { result ≡ data_offset self.now }
    {
        self.slice[12] >> 4
    }

    /// ECN nonce sum (RFC 3540, section 9; byte 12, bit 0x01).
    pub fn ns(&self) -> bool
        ensures { result ≡ flag_of self.now ns_flag }
    {
        self.slice[12] & flag_bits::NS != 0
    }

    /// The sender sends no more data (byte 13, bit 0x01).
    pub fn fin(&self) -> bool
        ensures { result ≡ flag_of self.now fin_flag }
    {
        self.slice[13] & flag_bits::FIN != 0
    }

    /// Synchronize sequence numbers (byte 13, bit 0x02).
    pub fn syn(&self) -> bool
        ensures { result ≡ flag_of self.now syn_flag }
    {
        self.slice[13] & flag_bits::SYN != 0
    }

    /// Reset the connection (byte 13, bit 0x04).
    pub fn rst(&self) -> bool
        ensures { result ≡ flag_of self.now rst_flag }
    {
        self.slice[13] & flag_bits::RST != 0
    }

    /// Push function (byte 13, bit 0x08).
    pub fn psh(&self) -> bool
        ensures { result ≡ flag_of self.now psh_flag }
    {
        self.slice[13] & flag_bits::PSH != 0
    }

    /// The acknowledgment number is significant (byte 13, bit 0x10).
    pub fn ack(&self) -> bool
        ensures { result ≡ flag_of self.now ack_flag }
    {
        self.slice[13] & flag_bits::ACK != 0
    }

    /// The urgent pointer is significant (byte 13, bit 0x20).
    pub fn urg(&self) -> bool
        ensures { result ≡ flag_of self.now urg_flag }
    {
        self.slice[13] & flag_bits::URG != 0
    }

    /// ECN echo (RFC 3168, section 6.1; byte 13, bit 0x40).
    pub fn ece(&self) -> bool
        ensures { result ≡ flag_of self.now ece_flag }
    {
        self.slice[13] & flag_bits::ECE != 0
    }

    /// Congestion window reduced (RFC 3168, section 6.1; byte 13, bit 0x80).
    pub fn cwr(&self) -> bool
        ensures { result ≡ flag_of self.now cwr_flag }
    {
        self.slice[13] & flag_bits::CWR != 0
    }

    /// The number of bytes that the sender is willing to receive, before window scaling (RFC 7323, section 2.2; bytes 14 and 15).
    pub fn window_size(&self) -> u16
        ensures { result ≡ be_number self.now 14 2 }
    {
        u16::from_be_bytes([self.slice[14], self.slice[15]])
    }

    /// The checksum over pseudo header, header and payload (bytes 16 and 17).
    pub fn checksum(&self) -> u16
        ensures { result ≡ be_number self.now 16 2 }
    {
        u16::from_be_bytes([self.slice[16], self.slice[17]])
    }

    /// The end of the urgent data, in bytes from the sequence number (bytes 18 and 19). If `urg` is not set, the field has no meaning.
    pub fn urgent_pointer(&self) -> u16
        ensures { result ≡ be_number self.now 18 2 }
    {
        u16::from_be_bytes([self.slice[18], self.slice[19]])
    }

    /// The bytes of the options, from byte 20 to the end. Their number is 0 to 40, and a multiple of 4.
    pub fn options(&self) -> &[u8]
        ensures value { result.now ≡ options_of self.now }
        ensures len { min_header_len + length result.now ≡ length self.now }
        ensures bound { length result.now ≤ max_options_len }
        ensures whole_words { length result.now % 4 ≡ 0 }
    {
        &self.slice[TcpHeader::MIN_LEN..]
    }

    /// An iterator over the elements of the options.
    pub fn options_iterator(&self) -> TcpOptionsIterator<'_>
        ensures { result ≡ options_of self.now }
    {
        TcpOptionsIterator::from_slice(self.options())
    }

    /// An iterator over the options of any kind, known or unknown, as kinds and values.
    pub fn raw_options_iterator(&self) -> TcpRawOptionsIterator<'_>
        ensures { result ≡ options_of self.now }
    {
        TcpRawOptionsIterator::from_slice(self.options())
    }

    /// The numbers, flags and options of the header. If the result is written, its bytes have the length of this header. The meaningless
    /// bits 0x0E of byte 12 are zero in these bytes.
    #[inline(always)]
    pub fn to_header(&self) -> TcpHeader
        ensures value { result ≡ header_of self.now }
        ensures len { length (wire result) ≡ length self.now }
    {
        // The options are read first, since reading them branches. The fields are read after these branches, so they stay in registers.
        let options = TcpOptions::from_words(self.options());
        TcpHeader {
            source_port: self.source_port(),
            destination_port: self.destination_port(),
            sequence_number: self.sequence_number(),
            acknowledgment_number: self.acknowledgment_number(),
            ns: self.ns(),
            fin: self.fin(),
            syn: self.syn(),
            rst: self.rst(),
            psh: self.psh(),
            ack: self.ack(),
            urg: self.urg(),
            ece: self.ece(),
            cwr: self.cwr(),
            window_size: self.window_size(),
            checksum: self.checksum(),
            urgent_pointer: self.urgent_pointer(),
            options,
        }
    }

    /// The checksum over IPv4, as `calc_checksum_ipv4_raw` computes it from the addresses of this IP header.
    ///
    /// # Errors
    ///
    /// The errors of `calc_checksum_ipv4_raw`.
    pub fn calc_checksum_ipv4(
        &self,
        ip_header: &Ipv4HeaderSlice<'_>,
        payload: &[u8],
    ) -> Result<u16, ValueTooBigError<usize>>
        ensures refused { RefusesExactly result (too_big TcpPayloadLengthIpv4 (max_payload_len_ipv4 self.now) (length payload.now)) }
        ensures sum { IfOk result (λ checksum. checksum ≡ checksum_of
            (checksummed_ipv4 (slice_range ip_header.now 12 16) (slice_range ip_header.now 16 20) self.now payload.now)) }
        ensures verifies { IfOk result (λ checksum. IsAllOnes
            (checksummed_ipv4 (slice_range ip_header.now 12 16) (slice_range ip_header.now 16 20) self.now payload.now + checksum)) }
        ensures agrees { IfOk result (λ checksum.
            (checksum ≡ checksum_of (checksummed_ipv4 (slice_range ip_header.now 12 16) (slice_range ip_header.now 16 20) (wire (header_of self.now)) payload.now))
            ↔ UnusedBitsAreZero self.now) }
        ensures valid { IfOk result (λ checksum. IsValidTcpIpv4 (slice_range ip_header.now 12 16) (slice_range ip_header.now 16 20)
            (with_checksum tcp_checksum_place self.now checksum ++ payload.now)) }
    {
        self.calc_checksum_ipv4_raw(ip_header.source(), ip_header.destination(), payload)
    }

    /// The checksum over IPv4 of these bytes and the payload (RFC 9293, section 3.1). The checksum field counts as zeros. The meaningless
    /// bits of byte 12 are summed too. So the result equals the checksum of `to_header()` exactly if these bits are zero.
    ///
    /// # Errors
    ///
    /// `ValueTooBigError` of `TcpPayloadLengthIpv4` if header and payload together are longer than 65,535 bytes.
    #[inline(always)]
    pub fn calc_checksum_ipv4_raw(
        &self,
        source: [u8; 4],
        destination: [u8; 4],
        payload: &[u8],
    ) -> Result<u16, ValueTooBigError<usize>>
        ensures refused { RefusesExactly result (too_big TcpPayloadLengthIpv4 (max_payload_len_ipv4 self.now) (length payload.now)) }
        ensures sum { IfOk result (λ checksum. checksum ≡ checksum_of
            (checksummed_ipv4 source destination self.now payload.now)) }
        ensures verifies { IfOk result (λ checksum. IsAllOnes
            (checksummed_ipv4 source destination self.now payload.now + checksum)) }
        ensures agrees { IfOk result (λ checksum.
            (checksum ≡ checksum_of (checksummed_ipv4 source destination (wire (header_of self.now)) payload.now))
            ↔ UnusedBitsAreZero self.now) }
        ensures valid { IfOk result (λ checksum. IsValidTcpIpv4 source destination
            (with_checksum tcp_checksum_place self.now checksum ++ payload.now)) }
    {
        checksum_ipv4(source, destination, self.slice, payload)
    }

    /// The checksum over IPv6, as `calc_checksum_ipv6_raw` computes it from the addresses of this IP header. If the packet has a routing
    /// header, the IP header may not contain the final destination. Then use `calc_checksum_ipv6_raw` instead (RFC 8200, section 8.1).
    ///
    /// # Errors
    ///
    /// The errors of `calc_checksum_ipv6_raw`.
    pub fn calc_checksum_ipv6(
        &self,
        ip_header: &Ipv6HeaderSlice<'_>,
        payload: &[u8],
    ) -> Result<u16, ValueTooBigError<usize>>
        ensures refused { RefusesExactly result (too_big TcpPayloadLengthIpv6 (max_payload_len_ipv6 self.now) (length payload.now)) }
        ensures sum { IfOk result (λ checksum. checksum ≡ checksum_of
            (checksummed_ipv6 (slice_range ip_header.now 8 24) (slice_range ip_header.now 24 40) self.now payload.now)) }
        ensures verifies { IfOk result (λ checksum. IsAllOnes
            (checksummed_ipv6 (slice_range ip_header.now 8 24) (slice_range ip_header.now 24 40) self.now payload.now + checksum)) }
        ensures agrees { IfOk result (λ checksum.
            (checksum ≡ checksum_of (checksummed_ipv6 (slice_range ip_header.now 8 24) (slice_range ip_header.now 24 40) (wire (header_of self.now)) payload.now))
            ↔ UnusedBitsAreZero self.now) }
        ensures valid { IfOk result (λ checksum. IsValidTcpIpv6 (slice_range ip_header.now 8 24) (slice_range ip_header.now 24 40)
            (with_checksum tcp_checksum_place self.now checksum ++ payload.now)) }
    {
        self.calc_checksum_ipv6_raw(ip_header.source(), ip_header.destination(), payload)
    }

    /// The checksum over IPv6 of these bytes and the payload (RFC 9293, section 3.1; RFC 8200, section 8.1). The checksum field counts as
    /// zeros. The meaningless bits of byte 12 are summed too. So the result equals the checksum of `to_header()` exactly if these bits are
    /// zero. If the packet has a routing header, pass the final destination.
    ///
    /// # Errors
    ///
    /// `ValueTooBigError` of `TcpPayloadLengthIpv6` if header and payload together are longer than 4,294,967,295 bytes.
    #[inline(always)]
    pub fn calc_checksum_ipv6_raw(
        &self,
        source: [u8; 16],
        destination: [u8; 16],
        payload: &[u8],
    ) -> Result<u16, ValueTooBigError<usize>>
        ensures refused { RefusesExactly result (too_big TcpPayloadLengthIpv6 (max_payload_len_ipv6 self.now) (length payload.now)) }
        ensures sum { IfOk result (λ checksum. checksum ≡ checksum_of
            (checksummed_ipv6 source destination self.now payload.now)) }
        ensures verifies { IfOk result (λ checksum. IsAllOnes
            (checksummed_ipv6 source destination self.now payload.now + checksum)) }
        ensures agrees { IfOk result (λ checksum.
            (checksum ≡ checksum_of (checksummed_ipv6 source destination (wire (header_of self.now)) payload.now))
            ↔ UnusedBitsAreZero self.now) }
        ensures valid { IfOk result (λ checksum. IsValidTcpIpv6 source destination
            (with_checksum tcp_checksum_place self.now checksum ++ payload.now)) }
    {
        checksum_ipv6(source, destination, self.slice, payload)
    }

    /// Whether the checksum over IPv4 is right: the one's complement sum of the pseudo header, these bytes and the payload is all ones (RFC
    /// 9293, section 3.1). The meaningless bits of byte 12 are summed too. The payload must be all bytes after the header up to the end of
    /// the IP packet, without padding of the frame.
    ///
    /// If header and payload together are longer than 65,535 bytes, the result is false. Otherwise it is true exactly if the stored
    /// checksum equals the result of `calc_checksum_ipv4_raw`, or is FFFF while that result is 0. Both 0 and FFFF are zero in one's
    /// complement.
    ///
    /// This check detects each change of one byte of a valid segment. It also detects each change of one aligned two-byte word, except from
    /// 0000 to FFFF or from FFFF to 0000. An exchange of two aligned words is not detected.
    pub fn is_checksum_valid_ipv4(
        &self,
        source: [u8; 4],
        destination: [u8; 4],
        payload: &[u8],
    ) -> bool
        ensures valid { IsTrue result ↔ IsValidTcpIpv4 source destination (self.now ++ payload.now) }
        ensures agrees { length payload.now ≤ max_payload_len_ipv4 self.now
            → (IsTrue result ↔ AcceptsChecksum (checksummed_ipv4 source destination self.now payload.now) (be_number self.now 16 2)) }
        ensures detects { IsTrue result → Detects (IsValidTcpIpv4 source destination) (self.now ++ payload.now) }
    {
        is_valid_ipv4(source, destination, self.slice, payload)
    }

    /// Whether the checksum over IPv6 is right: the one's complement sum of the pseudo header, these bytes and the payload is all ones (RFC
    /// 9293, section 3.1; RFC 8200, section 8.1). The meaningless bits of byte 12 are summed too. The payload must be all bytes after the
    /// header up to the end of the IP packet, without padding of the frame. If the packet has a routing header, pass the final destination.
    ///
    /// If header and payload together are longer than 4,294,967,295 bytes, the result is false. Otherwise it is true exactly if the stored
    /// checksum equals the result of `calc_checksum_ipv6_raw`, or is FFFF while that result is 0. Both 0 and FFFF are zero in one's
    /// complement.
    ///
    /// This check detects each change of one byte of a valid segment. It also detects each change of one aligned two-byte word, except from
    /// 0000 to FFFF or from FFFF to 0000. An exchange of two aligned words is not detected.
    pub fn is_checksum_valid_ipv6(
        &self,
        source: [u8; 16],
        destination: [u8; 16],
        payload: &[u8],
    ) -> bool
        ensures valid { IsTrue result ↔ IsValidTcpIpv6 source destination (self.now ++ payload.now) }
        ensures agrees { length payload.now ≤ max_payload_len_ipv6 self.now
            → (IsTrue result ↔ AcceptsChecksum (checksummed_ipv6 source destination self.now payload.now) (be_number self.now 16 2)) }
        ensures detects { IsTrue result → Detects (IsValidTcpIpv6 source destination) (self.now ++ payload.now) }
    {
        is_valid_ipv6(source, destination, self.slice, payload)
    }
}

impl<'a> PartialEq for TcpHeaderSlice<'a> {
    ghost use Rattle.std.specs.Prelude.{◌≡◌, ◌↔◌, IsTrue, nat_eq};
    ghost use Rattle.std.specs.Cmp.Lexicographic.{pointwise};
    ghost use Rattle.std.specs.Cmp.Rules.{comparing};
    ghost use Rattle.std.proofs.Common.{rules};

    ghost eq = { pointwise nat_eq };

    ghost laws = { Prim.search (comparing, rules) };

    fn eq(&self, other: &TcpHeaderSlice<'a>) -> bool
        ensures computes { result ≡ pointwise nat_eq self.now other.now }
        ensures same { IsTrue result ↔ (self.now ≡ other.now) }
    {
        self.slice == other.slice
    }
}

impl<'a> Eq for TcpHeaderSlice<'a> {
    ghost use Rattle.std.specs.Cmp.Rules.{comparing};
    ghost use Rattle.std.proofs.Common.{rules};

    ghost laws = { Prim.search (comparing, rules) };
}
