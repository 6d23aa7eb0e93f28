use crate::header_checksum::{is_segment_valid_ipv4, is_segment_valid_ipv6};
use crate::{TcpHeader, TcpHeaderSlice, TcpOptionsIterator, TcpRawOptionsIterator};
use net_base::err::ValueTooBigError;
use net_base::err::tcp::HeaderSliceError;
use std::marker::Model;

/// The bytes of a TCP segment: the header with its options, and the payload after it (RFC 9293, section 3.1).
///
/// ```
/// use etherparse_transport::TcpSlice;
///
/// let segment = TcpSlice::from_slice(&[
///     0xC3, 0x50, 0, 80, 0, 0, 0, 2, 0, 0, 0, 8, 0x50, 0x18, 0x20, 0, 0xAD, 0x85, 0, 0,
///     b'G', b'E', b'T', // the payload
/// ])?;
/// assert_eq!(rt; (segment.source_port(), segment.destination_port()), (50000, 80));
/// assert_eq!(rt; segment.payload(), b"GET".as_slice());
/// assert!(rt; segment.is_checksum_valid_ipv4([192, 168, 1, 1], [192, 168, 1, 2]));
/// ```
#[derive(Clone, Debug, Drop)]
pub struct TcpSlice<'a> {
    header: TcpHeaderSlice<'a>,
    slice: &'a [u8],
}

impl<'a> Model for TcpSlice<'a> {
    ghost use Rattle.std.specs.Prelude.{◌≡◌, List, ℕ, None};
    ghost use Rattle.tcp_part.specs.TcpFormat.{refusal};
    ghost use Rattle.tcp_part.specs.TcpSegment.{header_bytes};

    ghost Value = { List ℕ };

    ghost view = { λ segment. segment.slice.now };

    ghost invariant = { λ segment. (refusal segment.slice.now ≡ None) × (segment.header ≡ header_bytes segment.slice.now) };
}

impl<'a> TcpSlice<'a> {
    ghost use Rattle.std.specs.Prelude.{◌≡◌, ◌≤◌, ◌+◌, ◌*◌, ◌%◌, ◌↔◌, IfOk, IsTrue, length};
    ghost use Rattle.net_base.specs.Bytes.{be_number};
    ghost use Rattle.net_base.specs.Detection.{Detects};
    ghost use Rattle.net_base.specs.Refusals.{RefusesExactly, too_big};
    ghost use Rattle.net_base.specs.declared.err.value_type.ValueType.TheVariants.{TcpPayloadLengthIpv4, TcpPayloadLengthIpv6};
    ghost use Rattle.net_base.specs.StoredChecksum.{tcp_checksum_place, with_checksum};
    ghost use Rattle.word_sum.specs.Checksum.{AcceptsChecksum, IsAllOnes, checksum_of};
    ghost use Rattle.tcp_part.specs.TcpFormat.{UnusedBitsAreZero, ack_flag, checksummed_ipv4, checksummed_ipv6, cwr_flag, data_offset, ece_flag, fin_flag, flag_of, header_of, max_payload_len_ipv4, max_payload_len_ipv6, min_header_len, ns_flag, options_of, psh_flag, refusal, rst_flag, syn_flag, urg_flag, wire};
    ghost use Rattle.tcp_part.specs.TcpValidity.{IsValidTcpIpv4, IsValidTcpIpv6};
    ghost use Rattle.tcp_part.specs.TcpOptions.{max_options_len};
    ghost use Rattle.tcp_part.specs.TcpSegment.{header_bytes, payload_bytes};

    /// Reads the segment in this slice (RFC 9293, section 3.1). The slice must end at the end of the IP packet. The checksum is not
    /// checked.
    ///
    /// # Errors
    ///
    /// The errors of `TcpHeaderSlice::from_slice`.
    pub fn from_slice(slice: &'a [u8]) -> Result<TcpSlice<'a>, HeaderSliceError>
        ensures refused { RefusesExactly result (refusal slice.now) }
        ensures kept { IfOk result (λ segment. segment ≡ slice.now) }
    {
        let header = TcpHeaderSlice::from_slice(slice)?;
        Ok(TcpSlice { header, slice })
    }

    /// The bytes of header and payload.
    pub fn slice(&self) -> &'a [u8]
        ensures bytes { result.now ≡ self.now }
        ensures long { min_header_len ≤ length result.now }
    {
        self.slice
    }

    /// The bytes of the header with its options.
    pub fn header_slice(&self) -> &'a [u8]
        ensures { result.now ≡ header_bytes self.now }
    {
        self.header.slice()
    }

    /// The bytes after the header.
    #[tactic(auto, using(crate::proofs::TcpSliceLemmas::length_header))]
    pub fn payload(&self) -> &'a [u8]
        ensures { result.now ≡ payload_bytes self.now }
    {
        &self.slice[self.header.slice().len()..]
    }

    /// The length of the header, in bytes: 20 to 60, a multiple of 4.
    #[tactic(auto, using(crate::proofs::TcpSliceLemmas::length_header))]
    pub fn header_len(&self) -> usize
        ensures { result ≡ data_offset self.now * 4 }
    {
        self.header.slice().len()
    }

    /// The port of the sender (bytes 0 and 1).
    #[tactic(auto, using(crate::proofs::TcpSliceLemmas::header_reads))]
    pub fn source_port(&self) -> u16
        ensures { result ≡ be_number self.now 0 2 }
    {
        self.header.source_port()
    }

    /// The port of the receiver (bytes 2 and 3).
    #[tactic(auto, using(crate::proofs::TcpSliceLemmas::header_reads))]
    pub fn destination_port(&self) -> u16
        ensures { result ≡ be_number self.now 2 2 }
    {
        self.header.destination_port()
    }

    /// The sequence number of the first byte of the payload (bytes 4 to 7). If `syn` is set, it is the initial sequence number instead.
    #[tactic(auto, using(crate::proofs::TcpSliceLemmas::header_reads))]
    pub fn sequence_number(&self) -> u32
        ensures { result ≡ be_number self.now 4 4 }
    {
        self.header.sequence_number()
    }

    /// The next sequence number that the sender expects (bytes 8 to 11). If `ack` is not set, the field has no meaning.
    #[tactic(auto, using(crate::proofs::TcpSliceLemmas::header_reads))]
    pub fn acknowledgment_number(&self) -> u32
        ensures { result ≡ be_number self.now 8 4 }
    {
        self.header.acknowledgment_number()
    }

    /// The length of the header, 5 to 15, in words of four bytes (the high four bits of byte 12).
    #[tactic(auto, using(crate::proofs::TcpSliceLemmas::offset_read))]
    pub fn data_offset(&self) -> u8
        ensures { result ≡ data_offset self.now }
    {
        self.header.data_offset()
    }

    /// ECN nonce sum (RFC 3540, section 9; byte 12, bit 0x01).
    #[tactic(auto, using(crate::proofs::TcpSliceLemmas::header_reads))]
    pub fn ns(&self) -> bool
        ensures { result ≡ flag_of self.now ns_flag }
    {
        self.header.ns()
    }

    /// The sender sends no more data (byte 13, bit 0x01).
    #[tactic(auto, using(crate::proofs::TcpSliceLemmas::header_reads))]
    pub fn fin(&self) -> bool
        ensures { result ≡ flag_of self.now fin_flag }
    {
        self.header.fin()
    }

    /// Synchronize sequence numbers (byte 13, bit 0x02).
    #[tactic(auto, using(crate::proofs::TcpSliceLemmas::header_reads))]
    pub fn syn(&self) -> bool
        ensures { result ≡ flag_of self.now syn_flag }
    {
        self.header.syn()
    }

    /// Reset the connection (byte 13, bit 0x04).
    #[tactic(auto, using(crate::proofs::TcpSliceLemmas::header_reads))]
    pub fn rst(&self) -> bool
        ensures { result ≡ flag_of self.now rst_flag }
    {
        self.header.rst()
    }

    /// Push function (byte 13, bit 0x08).
    #[tactic(auto, using(crate::proofs::TcpSliceLemmas::header_reads))]
    pub fn psh(&self) -> bool
        ensures { result ≡ flag_of self.now psh_flag }
    {
        self.header.psh()
    }

    /// The acknowledgment number is significant (byte 13, bit 0x10).
    #[tactic(auto, using(crate::proofs::TcpSliceLemmas::header_reads))]
    pub fn ack(&self) -> bool
        ensures { result ≡ flag_of self.now ack_flag }
    {
        self.header.ack()
    }

    /// The urgent pointer is significant (byte 13, bit 0x20).
    #[tactic(auto, using(crate::proofs::TcpSliceLemmas::header_reads))]
    pub fn urg(&self) -> bool
        ensures { result ≡ flag_of self.now urg_flag }
    {
        self.header.urg()
    }

    /// ECN echo (RFC 3168, section 6.1; byte 13, bit 0x40).
    #[tactic(auto, using(crate::proofs::TcpSliceLemmas::header_reads))]
    pub fn ece(&self) -> bool
        ensures { result ≡ flag_of self.now ece_flag }
    {
        self.header.ece()
    }

    /// Congestion window reduced (RFC 3168, section 6.1; byte 13, bit 0x80).
    #[tactic(auto, using(crate::proofs::TcpSliceLemmas::header_reads))]
    pub fn cwr(&self) -> bool
        ensures { result ≡ flag_of self.now cwr_flag }
    {
        self.header.cwr()
    }

    /// The number of bytes that the sender is willing to receive, before window scaling (RFC 7323, section 2.2; bytes 14 and 15).
    #[tactic(auto, using(crate::proofs::TcpSliceLemmas::header_reads))]
    pub fn window_size(&self) -> u16
        ensures { result ≡ be_number self.now 14 2 }
    {
        self.header.window_size()
    }

    /// The checksum over pseudo header, header and payload (bytes 16 and 17).
    #[tactic(auto, using(crate::proofs::TcpSliceLemmas::header_reads))]
    pub fn checksum(&self) -> u16
        ensures { result ≡ be_number self.now 16 2 }
    {
        self.header.checksum()
    }

    /// The end of the urgent data, in bytes from the sequence number (bytes 18 and 19). If `urg` is not set, the field has no meaning.
    #[tactic(auto, using(crate::proofs::TcpSliceLemmas::header_reads))]
    pub fn urgent_pointer(&self) -> u16
        ensures { result ≡ be_number self.now 18 2 }
    {
        self.header.urgent_pointer()
    }

    /// The bytes of the options, from byte 20 to the end of the header. Their number is 0 to 40, and a multiple of 4.
    #[tactic(auto, using(crate::proofs::TcpSliceLemmas::options_read, crate::proofs::TcpSliceLemmas::length_header))]
    pub fn options(&self) -> &[u8]
        ensures value { result.now ≡ options_of self.now }
        ensures len { min_header_len + length result.now ≡ data_offset self.now * 4 }
        ensures bound { length result.now ≤ max_options_len }
        ensures whole_words { length result.now % 4 ≡ 0 }
    {
        self.header.options()
    }

    /// An iterator over the elements of the options.
    #[tactic(auto, using(crate::proofs::TcpSliceLemmas::options_read))]
    pub fn options_iterator(&self) -> TcpOptionsIterator<'_>
        ensures { result ≡ options_of self.now }
    {
        self.header.options_iterator()
    }

    /// An iterator over the options of any kind, known or unknown, as kinds and values.
    #[tactic(auto, using(crate::proofs::TcpSliceLemmas::options_read))]
    pub fn raw_options_iterator(&self) -> TcpRawOptionsIterator<'_>
        ensures { result ≡ options_of self.now }
    {
        self.header.raw_options_iterator()
    }

    /// The numbers, flags and options of the header. If the result is written, its bytes have the length of this header. The meaningless
    /// bits 0x0E of byte 12 are zero in these bytes.
    #[tactic(auto, using(crate::proofs::TcpSliceLemmas::header_reads, crate::proofs::TcpSliceLemmas::length_header))]
    pub fn to_header(&self) -> TcpHeader
        ensures value { result ≡ header_of self.now }
        ensures len { length (wire result) ≡ data_offset self.now * 4 }
    {
        self.header.to_header()
    }

    /// The checksum of these bytes over IPv4 (RFC 9293, section 3.1). The checksum field counts as zeros. The meaningless bits of byte 12
    /// are summed too. So the result equals the checksum of `to_header()` exactly if these bits are zero.
    ///
    /// # Errors
    ///
    /// `ValueTooBigError` of `TcpPayloadLengthIpv4` if header and payload together are longer than 65,535 bytes.
    pub fn calc_checksum_ipv4(
        &self,
        source: [u8; 4],
        destination: [u8; 4],
    ) -> Result<u16, ValueTooBigError<usize>>
        ensures refused { RefusesExactly result (too_big TcpPayloadLengthIpv4 (max_payload_len_ipv4 (header_bytes self.now)) (length (payload_bytes self.now))) }
        ensures sum { IfOk result (λ checksum. checksum ≡ checksum_of
            (checksummed_ipv4 source destination (header_bytes self.now) (payload_bytes self.now))) }
        ensures verifies { IfOk result (λ checksum. IsAllOnes
            (checksummed_ipv4 source destination (header_bytes self.now) (payload_bytes self.now) + checksum)) }
        ensures agrees { IfOk result (λ checksum.
            (checksum ≡ checksum_of (checksummed_ipv4 source destination (wire (header_of self.now)) (payload_bytes self.now)))
            ↔ UnusedBitsAreZero self.now) }
        ensures valid { IfOk result (λ checksum. IsValidTcpIpv4 source destination (with_checksum tcp_checksum_place self.now checksum)) }
    {
        self.header
            .calc_checksum_ipv4_raw(source, destination, self.payload())
    }

    /// The checksum of these bytes over IPv6 (RFC 9293, section 3.1; RFC 8200, section 8.1). The checksum field counts as zeros. The
    /// meaningless bits of byte 12 are summed too. So the result equals the checksum of `to_header()` exactly if these bits are zero. If
    /// the packet has a routing header, pass the final destination.
    ///
    /// # Errors
    ///
    /// `ValueTooBigError` of `TcpPayloadLengthIpv6` if header and payload together are longer than 4,294,967,295 bytes.
    pub fn calc_checksum_ipv6(
        &self,
        source: [u8; 16],
        destination: [u8; 16],
    ) -> Result<u16, ValueTooBigError<usize>>
        ensures refused { RefusesExactly result (too_big TcpPayloadLengthIpv6 (max_payload_len_ipv6 (header_bytes self.now)) (length (payload_bytes self.now))) }
        ensures sum { IfOk result (λ checksum. checksum ≡ checksum_of
            (checksummed_ipv6 source destination (header_bytes self.now) (payload_bytes self.now))) }
        ensures verifies { IfOk result (λ checksum. IsAllOnes
            (checksummed_ipv6 source destination (header_bytes self.now) (payload_bytes self.now) + checksum)) }
        ensures agrees { IfOk result (λ checksum.
            (checksum ≡ checksum_of (checksummed_ipv6 source destination (wire (header_of self.now)) (payload_bytes self.now)))
            ↔ UnusedBitsAreZero self.now) }
        ensures valid { IfOk result (λ checksum. IsValidTcpIpv6 source destination (with_checksum tcp_checksum_place self.now checksum)) }
    {
        self.header
            .calc_checksum_ipv6_raw(source, destination, self.payload())
    }

    /// Whether the checksum over IPv4 is right: the one's complement sum of pseudo header and segment is all ones (RFC 9293, section 3.1).
    /// The slice must end at the end of the IP packet, without padding of the frame.
    ///
    /// If the segment is longer than 65,535 bytes, the result is false. Otherwise it is true exactly if the stored checksum equals the
    /// result of `calc_checksum_ipv4`, or is FFFF while that result is 0. Both 0 and FFFF are zero in one's complement.
    ///
    /// This check detects each change of one byte of a valid segment. It also detects each change of one aligned two-byte word, except from
    /// 0000 to FFFF or from FFFF to 0000. An exchange of two aligned words is not detected.
    pub fn is_checksum_valid_ipv4(&self, source: [u8; 4], destination: [u8; 4]) -> bool
        ensures valid { IsTrue result ↔ IsValidTcpIpv4 source destination self.now }
        ensures agrees { length (payload_bytes self.now) ≤ max_payload_len_ipv4 (header_bytes self.now) → (IsTrue result
            ↔ AcceptsChecksum (checksummed_ipv4 source destination (header_bytes self.now) (payload_bytes self.now)) (be_number (header_bytes self.now) 16 2)) }
        ensures detects { IsTrue result → Detects (IsValidTcpIpv4 source destination) self.now }
    {
        is_segment_valid_ipv4(source, destination, self.slice)
    }

    /// Whether the checksum over IPv6 is right: the one's complement sum of pseudo header and segment is all ones (RFC 9293, section 3.1;
    /// RFC 8200, section 8.1). The slice must end at the end of the IP packet, without padding of the frame. If the packet has a routing
    /// header, pass the final destination.
    ///
    /// If the segment is longer than 4,294,967,295 bytes, the result is false. Otherwise it is true exactly if the stored checksum equals
    /// the result of `calc_checksum_ipv6`, or is FFFF while that result is 0. Both 0 and FFFF are zero in one's complement.
    ///
    /// This check detects each change of one byte of a valid segment. It also detects each change of one aligned two-byte word, except from
    /// 0000 to FFFF or from FFFF to 0000. An exchange of two aligned words is not detected.
    pub fn is_checksum_valid_ipv6(&self, source: [u8; 16], destination: [u8; 16]) -> bool
        ensures valid { IsTrue result ↔ IsValidTcpIpv6 source destination self.now }
        ensures agrees { length (payload_bytes self.now) ≤ max_payload_len_ipv6 (header_bytes self.now) → (IsTrue result
            ↔ AcceptsChecksum (checksummed_ipv6 source destination (header_bytes self.now) (payload_bytes self.now)) (be_number (header_bytes self.now) 16 2)) }
        ensures detects { IsTrue result → Detects (IsValidTcpIpv6 source destination) self.now }
    {
        is_segment_valid_ipv6(source, destination, self.slice)
    }
}

impl<'a> PartialEq for TcpSlice<'a> {
    ghost use Rattle.std.specs.Prelude.{◌≡◌, ◌↔◌, IsTrue, nat_eq};
    ghost use Rattle.std.specs.Cmp.Lexicographic.{pointwise};
    ghost use Rattle.std.specs.Cmp.Rules.{comparing};
    ghost use Rattle.std.proofs.Common.{rules};

    ghost eq = { pointwise nat_eq };

    ghost laws = { Prim.search (comparing, rules) };

    fn eq(&self, other: &TcpSlice<'a>) -> bool
        ensures computes { result ≡ pointwise nat_eq self.now other.now }
        ensures same { IsTrue result ↔ (self.now ≡ other.now) }
    {
        self.slice == other.slice
    }
}

impl<'a> Eq for TcpSlice<'a> {
    ghost use Rattle.std.specs.Cmp.Rules.{comparing};
    ghost use Rattle.std.proofs.Common.{rules};

    ghost laws = { Prim.search (comparing, rules) };
}
