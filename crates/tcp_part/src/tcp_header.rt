ghost use Rattle.std.specs.Prelude.{◌≡◌, ◌+◌, ◌%◌, ◌≤◌, ◌++◌, drop, length};
ghost use Rattle.tcp_part.specs.TcpFormat.{max_header_len, min_header_len};
ghost use Rattle.tcp_part.specs.TcpOptions.{max_options_len};

use crate::header_checksum::{add_options, len_over_ipv4, len_over_ipv6};
use crate::words::append_words;
use crate::{
    TcpHeaderSlice, TcpOptionElement, TcpOptions, TcpOptionsIterator, TcpRawOptionsIterator,
    flag_bits,
};
use arrayvec::ArrayVec;
use net_base::err::tcp::HeaderSliceError;
use net_base::err::{Layer, LenError, ValueTooBigError};
use net_base::{
    Ipv4Header, Ipv6Header, TcpOptionWriteError, ip_number, pseudo_header_ipv4, pseudo_header_ipv6,
    wrong_length,
};
use word_sum::checksum::Sum16BitWords;

/// The length of a header without options, in bytes: an older name of `TcpHeader::MIN_LEN`.
pub const TCP_MINIMUM_HEADER_SIZE: usize = TcpHeader::MIN_LEN;

/// The data offset of a header without options, in words of four bytes: an older name of `TcpHeader::MIN_DATA_OFFSET`.
pub const TCP_MINIMUM_DATA_OFFSET: u8 = TcpHeader::MIN_DATA_OFFSET;

/// The data offset of the longest header, in words of four bytes: an older name of `TcpHeader::MAX_DATA_OFFSET`.
pub const TCP_MAXIMUM_DATA_OFFSET: u8 = TcpHeader::MAX_DATA_OFFSET;

/// A TCP header (RFC 9293, section 3.1).
///
/// ```
/// use etherparse_transport::{TcpHeader, TcpOptionElement};
///
/// let mut header = TcpHeader::new(50000, 80, 1, 8192);
/// header.syn = true;
/// header.set_options(&[TcpOptionElement::MaximumSegmentSize(1460)])?;
/// header.checksum = header.calc_checksum_ipv4_raw([192, 168, 1, 1], [192, 168, 1, 2], &[])?;
/// assert_eq!(rt; (header.header_len(), header.checksum), (24, 0x3131));
/// let bytes = header.to_bytes();
/// assert_eq!(rt; TcpHeader::from_slice(&bytes)?, (header, [].as_slice()));
/// ```
#[derive(Clone, Debug, PartialEq, Eq, Hash, Drop)]
pub struct TcpHeader {
    /// The port of the sender (bytes 0 and 1).
    pub source_port: u16,
    /// The port of the receiver (bytes 2 and 3).
    pub destination_port: u16,
    /// The sequence number of the first byte of the payload (bytes 4 to 7). If `syn` is set, it is the initial sequence number instead.
    pub sequence_number: u32,
    /// The next sequence number that the sender expects (bytes 8 to 11). If `ack` is not set, the field has no meaning.
    pub acknowledgment_number: u32,
    /// ECN nonce sum (RFC 3540, section 9; byte 12, bit 0x01).
    pub ns: bool,
    /// The sender sends no more data (byte 13, bit 0x01).
    pub fin: bool,
    /// Synchronize sequence numbers (byte 13, bit 0x02).
    pub syn: bool,
    /// Reset the connection (byte 13, bit 0x04).
    pub rst: bool,
    /// Push function (byte 13, bit 0x08).
    pub psh: bool,
    /// The acknowledgment number is significant (byte 13, bit 0x10).
    pub ack: bool,
    /// The urgent pointer is significant (byte 13, bit 0x20).
    pub urg: bool,
    /// ECN echo (RFC 3168, section 6.1; byte 13, bit 0x40).
    pub ece: bool,
    /// Congestion window reduced (RFC 3168, section 6.1; byte 13, bit 0x80).
    pub cwr: bool,
    /// The number of bytes that the sender is willing to receive, before window scaling (RFC 7323, section 2.2; bytes 14 and 15).
    pub window_size: u16,
    /// The checksum over pseudo header, header and payload (bytes 16 and 17).
    pub checksum: u16,
    /// The end of the urgent data, in bytes from the sequence number (bytes 18 and 19). If `urg` is not set, the field has no meaning.
    pub urgent_pointer: u16,
    /// The options (from byte 20 to the end of the header, which the data offset states).
    pub options: TcpOptions,
}

impl Default for TcpHeader {
    ghost use Rattle.std.specs.Prelude.{◌≡◌};
    ghost use Rattle.tcp_part.specs.TcpFormat.{new_header};

    ghost is_default = { λ header. header ≡ new_header 0 0 0 0 };

    /// A header in which every number is 0 and no flag is set, without options.
    fn default() -> TcpHeader {
        TcpHeader::new(0, 0, 0, 0)
    }
}

impl TcpHeader {
    ghost use Rattle.std.specs.Prelude.{◌≡◌, List, ℕ, ◌+◌, ◌%◌, ◌≤◌, ◌++◌, ◌↔◌, None, IfOk, IfErr, drop, length};
    ghost use Rattle.net_base.specs.Bytes.{IsBytes};
    ghost use Rattle.net_base.specs.Refusals.{RefusesExactly, no_room, too_big};
    ghost use Rattle.net_base.specs.declared.err.value_type.ValueType.TheVariants.{TcpPayloadLengthIpv4, TcpPayloadLengthIpv6};
    ghost use Rattle.word_sum.specs.Checksum.{IsAllOnes, checksum_of, total};
    ghost use Rattle.word_sum.specs.SumValue.{sum_value};
    ghost use Rattle.tcp_part.specs.TcpFormat.{DecodesAs, canonical, checksummed_ipv4, checksummed_ipv6, data_offset_of, flags_byte, max_data_offset, max_header_len, max_payload_len_ipv4, max_payload_len_ipv6, min_header_len, new_header, offset_byte, refusal, wire, without_checksum};
    ghost use Rattle.tcp_part.specs.TcpOptions.{join, max_options_len, pad, saturated, too_long};
    ghost use Rattle.tcp_part.specs.TcpValidity.{IsValidTcpIpv4, IsValidTcpIpv6};

    /// The length of a header without options, in bytes (RFC 9293, section 3.1).
    pub const MIN_LEN: usize = 20;

    /// The length of the longest header, in bytes. The data offset has four bits, and counts words of four bytes.
    pub const MAX_LEN: usize = 60;

    /// The data offset of a header without options, in words of four bytes.
    pub const MIN_DATA_OFFSET: u8 = 5;

    /// The data offset of the longest header, in words of four bytes.
    pub const MAX_DATA_OFFSET: u8 = 15;

    /// The place of the source port, in bytes from the start of the header.
    pub const SOURCE_PORT_AT: usize = 0;

    /// The place of the destination port, in bytes from the start of the header.
    pub const DESTINATION_PORT_AT: usize = 2;

    /// The place of the checksum, in bytes from the start of the header.
    pub const CHECKSUM_AT: usize = 16;

    /// A header with these fields. All other numbers are 0, no flag is set, and there are no options.
    pub fn new(
        source_port: u16,
        destination_port: u16,
        sequence_number: u32,
        window_size: u16,
    ) -> TcpHeader
        ensures { result ≡ new_header source_port destination_port sequence_number window_size }
    {
        TcpHeader {
            source_port,
            destination_port,
            sequence_number,
            acknowledgment_number: 0,
            ns: false,
            fin: false,
            syn: false,
            rst: false,
            psh: false,
            ack: false,
            urg: false,
            ece: false,
            cwr: false,
            window_size,
            checksum: 0,
            urgent_pointer: 0,
            options: TcpOptions::new(),
        }
    }

    /// The data offset, 5 to 15: the length of the header in words of four bytes (RFC 9293, section 3.1).
    pub fn data_offset(&self) -> u8
        ensures value { result ≡ data_offset_of self.now }
        ensures bound { result ≤ max_data_offset }
    {
        self.options.data_offset()
    }

    /// The length of the header, in bytes: 20 plus the length of the options, at most 60.
    pub fn header_len(&self) -> usize
        ensures value { result ≡ length (wire self.now) }
        ensures bound { result ≤ max_header_len }
    {
        TcpHeader::MIN_LEN + self.options_len()
    }

    /// The length of the header, in bytes, as a `u16`: 20 plus the length of the options, at most 60.
    pub fn header_len_u16(&self) -> u16
        ensures { result ≡ length (wire self.now) }
    {
        self.header_len() as u16
    }

    /// The length of the options, in bytes: at most 40, and a multiple of 4.
    pub fn options_len(&self) -> usize
        ensures value { result ≡ length self.now.options }
        ensures bound { result ≤ max_options_len }
    {
        self.options().len()
    }

    /// The bytes of the options.
    pub fn options(&self) -> &[u8]
        ensures value { result.now ≡ self.now.options }
        ensures bound { length result.now ≤ max_options_len }
        ensures whole_words { length result.now % 4 ≡ 0 }
    {
        self.options.as_slice()
    }

    /// An iterator over the elements of the options.
    pub fn options_iterator(&self) -> TcpOptionsIterator<'_>
        ensures { result ≡ self.now.options }
    {
        self.options.elements_iter()
    }

    /// An iterator over the options of any kind, known or unknown, as kinds and values.
    pub fn raw_options_iterator(&self) -> TcpRawOptionsIterator<'_>
        ensures { result ≡ self.now.options }
    {
        TcpRawOptionsIterator::from_slice(self.options.as_slice())
    }

    /// Replaces the options with these elements (RFC 9293, section 3.2; RFC 7323; RFC 2018), padded with zeros to whole words of four
    /// bytes.
    ///
    /// # Errors
    ///
    /// `NotEnoughSpace` if the elements are longer than 40 bytes. It contains their length, or `usize::MAX` if their length is above
    /// `usize::MAX`. After this error the header is unchanged.
    pub fn set_options(&mut self, elements: &[TcpOptionElement]) -> Result<(), TcpOptionWriteError>
        ensures refused { RefusesExactly result (too_long (saturated (length (join elements.now)))) }
        ensures replaced { IfOk result (λ _. self.new ≡ record self.old { options = pad (join elements.now) }) }
        ensures unchanged { IfErr result (λ _. self.new ≡ self.old) }
    {
        self.options = TcpOptions::try_from_elements(elements)?;
        Ok(())
    }

    /// Replaces the options with these bytes (RFC 9293, section 3.1), padded with zeros to whole words of four bytes.
    ///
    /// # Errors
    ///
    /// `NotEnoughSpace` if there are more than 40 bytes. It contains the number of bytes. After this error the header is unchanged.
    pub fn set_options_raw(&mut self, bytes: &[u8]) -> Result<(), TcpOptionWriteError>
        ensures refused { RefusesExactly result (too_long (length bytes.now)) }
        ensures replaced { IfOk result (λ _. self.new ≡ record self.old { options = pad bytes.now }) }
        ensures unchanged { IfErr result (λ _. self.new ≡ self.old) }
    {
        self.options = TcpOptions::try_from_slice(bytes)?;
        Ok(())
    }

    /// Reads a header (RFC 9293, section 3.1). Returns the header, and the bytes after it, borrowed from the slice. The meaningless bits
    /// 0x0E of byte 12 are ignored. The checksum is not checked.
    ///
    /// # Errors
    ///
    /// The call checks these cases, in this order:
    /// - `Len` of the layer `TcpHeader` if the slice is shorter than 20 bytes.
    /// - `DataOffsetTooSmall` if the data offset is below 5.
    /// - `Len` of the layer `TcpHeader` if the slice is shorter than the data offset states.
    #[inline(always)]
    pub fn from_slice(slice: &[u8]) -> Result<(TcpHeader, &[u8]), HeaderSliceError>
        ensures refused { RefusesExactly result (refusal slice.now) }
        ensures read { IfOk result (λ found. DecodesAs slice.now found.0 found.1.now) }
        ensures written_back { IfOk result (λ found. wire found.0 ++ found.1.now ≡ canonical slice.now) }
        ensures decode_alike { IfOk result (λ found. (other : List ℕ) → IsBytes other → refusal other ≡ None
            → (DecodesAs other found.0 found.1.now ↔ (canonical other ≡ canonical slice.now))) }
    {
        let header = TcpHeaderSlice::from_slice(slice)?;
        Ok((header.to_header(), &slice[header.slice().len()..]))
    }

    /// An older name of `from_slice`.
    ///
    /// # Errors
    ///
    /// The errors of `from_slice`.
    pub fn read_from_slice(slice: &[u8]) -> Result<(TcpHeader, &[u8]), HeaderSliceError>
        ensures refused { RefusesExactly result (refusal slice.now) }
        ensures read { IfOk result (λ found. DecodesAs slice.now found.0 found.1.now) }
        ensures written_back { IfOk result (λ found. wire found.0 ++ found.1.now ≡ canonical slice.now) }
        ensures decode_alike { IfOk result (λ found. (other : List ℕ) → IsBytes other → refusal other ≡ None
            → (DecodesAs other found.0 found.1.now ↔ (canonical other ≡ canonical slice.now))) }
    {
        TcpHeader::from_slice(slice)
    }

    /// The bytes of the header, with each field at its place (RFC 9293, section 3.1). If any payload follows these bytes, they are read
    /// back as this header.
    #[inline(always)]
    pub fn to_bytes(&self) -> ArrayVec<u8, 60>
        ensures written { result.items ≡ wire self.now }
        ensures reads_back { (payload : List ℕ) → DecodesAs (wire self.now ++ payload) self.now payload }
        ensures len { (min_header_len ≤ length result.items) × (length result.items ≤ max_header_len) }
    {
        let mut bytes = self.fields_to_bytes();
        append_words(&mut bytes, self.options());
        bytes
    }

    /// Writes the bytes of the header (RFC 9293, section 3.1) to the front of the slice, and returns their number: 20 plus the length of
    /// the options, at most 60. The rest of the slice is not changed.
    ///
    /// # Errors
    ///
    /// `LenError` of the layer `TcpHeader` if the slice is shorter than the header. After this error the slice is unchanged.
    #[inline(always)]
    pub fn write_to_slice(&self, slice: &mut [u8]) -> Result<usize, LenError>
        ensures refused { RefusesExactly result (no_room Layer.TcpHeader (wire self.now) (length slice.old)) }
        ensures len { IfOk result (λ len. len ≡ length (wire self.now)) }
        ensures written { IfOk result (λ _. slice.new ≡ wire self.now ++ drop (length (wire self.now)) slice.old) }
        ensures reads_back { IfOk result (λ _. (payload : List ℕ) → DecodesAs (wire self.now ++ payload) self.now payload) }
        ensures unchanged { IfErr result (λ _. slice.new ≡ slice.old) }
    {
        let options = self.options();
        let len = TcpHeader::MIN_LEN + options.len();
        if slice.len() < len {
            return Err(wrong_length(Layer::TcpHeader, len, slice.len()));
        }
        slice[..TcpHeader::MIN_LEN].copy_from_slice(&self.fields_to_bytes::<20>());
        write_options(&mut slice[TcpHeader::MIN_LEN..], options);
        Ok(len)
    }

    /// The bytes of the header without the options, in a list of capacity `CAP`.
    // perf: each field is appended as its own array, so that it stays one number (25 Nov 2026).
    #[inline(always)]
    fn fields_to_bytes<const CAP: usize>(&self) -> ArrayVec<u8, CAP>
        requires room { min_header_len ≤ CAP }
        ensures value { result.items ++ self.now.options ≡ wire self.now }
        ensures len { length result.items ≡ min_header_len }
        ensures reads_back { length self.now.options ≤ max_options_len → length self.now.options % 4 ≡ 0
            → (payload : List ℕ) → DecodesAs (wire self.now ++ payload) self.now payload }
    {
        let mut bytes = ArrayVec::new();
        bytes
            .try_extend_from_slice(&self.source_port.to_be_bytes())
            .unwrap();
        bytes
            .try_extend_from_slice(&self.destination_port.to_be_bytes())
            .unwrap();
        bytes
            .try_extend_from_slice(&self.sequence_number.to_be_bytes())
            .unwrap();
        bytes
            .try_extend_from_slice(&self.acknowledgment_number.to_be_bytes())
            .unwrap();
        bytes.push(self.offset_byte());
        bytes.push(self.flags_byte());
        bytes
            .try_extend_from_slice(&self.window_size.to_be_bytes())
            .unwrap();
        bytes
            .try_extend_from_slice(&self.checksum.to_be_bytes())
            .unwrap();
        bytes
            .try_extend_from_slice(&self.urgent_pointer.to_be_bytes())
            .unwrap();
        bytes
    }

    /// Byte 12 of the header: the data offset in the high four bits, and the flag NS.
    fn offset_byte(&self) -> u8
        ensures { result ≡ offset_byte self.now }
    {
        self.data_offset() * 16 + u8::from(self.ns) * flag_bits::NS
    }

    /// Byte 13 of the header, which contains the other flags. The flags are the eight bytes of one number, with the first flag in the
    /// lowest byte. Multiplying by the factor moves the flag in byte `i` to bit `i` of the highest byte. This is one multiplication instead
    /// of eight shifts.
    fn flags_byte(&self) -> u8
        ensures { result ≡ flags_byte self.now }
    {
        let flags = u64::from_le_bytes([
            u8::from(self.fin),
            u8::from(self.syn),
            u8::from(self.rst),
            u8::from(self.psh),
            u8::from(self.ack),
            u8::from(self.urg),
            u8::from(self.ece),
            u8::from(self.cwr),
        ]);
        (flags.wrapping_mul(0x0102_0408_1020_4080) >> 56) as u8
    }

    /// The checksum over IPv4, as `calc_checksum_ipv4_raw` computes it from the addresses of this IP header.
    ///
    /// # Errors
    ///
    /// The errors of `calc_checksum_ipv4_raw`.
    pub fn calc_checksum_ipv4(
        &self,
        ip_header: &Ipv4Header,
        payload: &[u8],
    ) -> Result<u16, ValueTooBigError<usize>>
        ensures refused { RefusesExactly result (too_big TcpPayloadLengthIpv4 (max_payload_len_ipv4 (wire self.now)) (length payload.now)) }
        ensures sum { IfOk result (λ checksum. checksum ≡ checksum_of
            (checksummed_ipv4 ip_header.now.source ip_header.now.destination (wire self.now) payload.now)) }
        ensures verifies { IfOk result (λ checksum. IsAllOnes
            (checksummed_ipv4 ip_header.now.source ip_header.now.destination (wire self.now) payload.now + checksum)) }
        ensures valid { IfOk result (λ checksum. IsValidTcpIpv4 ip_header.now.source ip_header.now.destination
            (wire (record self.now { checksum = checksum }) ++ payload.now)) }
    {
        self.calc_checksum_ipv4_raw(ip_header.source, ip_header.destination, payload)
    }

    /// The checksum over IPv4 (RFC 9293, section 3.1) of the pseudo header, this header and the payload. The checksum field counts as
    /// zeros. To check a received segment, use `TcpHeaderSlice::is_checksum_valid_ipv4`, which sums its bytes as received.
    ///
    /// # Errors
    ///
    /// `ValueTooBigError` of `TcpPayloadLengthIpv4` if header and payload together are longer than 65,535 bytes.
    #[inline(always)]
    pub fn calc_checksum_ipv4_raw(
        &self,
        source: [u8; 4],
        destination: [u8; 4],
        payload: &[u8],
    ) -> Result<u16, ValueTooBigError<usize>>
        ensures refused { RefusesExactly result (too_big TcpPayloadLengthIpv4 (max_payload_len_ipv4 (wire self.now)) (length payload.now)) }
        ensures sum { IfOk result (λ checksum. checksum ≡ checksum_of
            (checksummed_ipv4 source destination (wire self.now) payload.now)) }
        ensures verifies { IfOk result (λ checksum. IsAllOnes
            (checksummed_ipv4 source destination (wire self.now) payload.now + checksum)) }
        ensures valid { IfOk result (λ checksum. IsValidTcpIpv4 source destination
            (wire (record self.now { checksum = checksum }) ++ payload.now)) }
    {
        let len = len_over_ipv4(self.header_len(), payload.len())?;
        let pseudo_header = pseudo_header_ipv4(source, destination, ip_number::TCP, len);
        Ok(self.checksum_post_ip(pseudo_header, payload))
    }

    /// The checksum over IPv6, as `calc_checksum_ipv6_raw` computes it from the addresses of this IP header. If the packet has a routing
    /// header, `ip_header` must contain the final destination (RFC 8200, section 8.1).
    ///
    /// # Errors
    ///
    /// The errors of `calc_checksum_ipv6_raw`.
    pub fn calc_checksum_ipv6(
        &self,
        ip_header: &Ipv6Header,
        payload: &[u8],
    ) -> Result<u16, ValueTooBigError<usize>>
        ensures refused { RefusesExactly result (too_big TcpPayloadLengthIpv6 (max_payload_len_ipv6 (wire self.now)) (length payload.now)) }
        ensures sum { IfOk result (λ checksum. checksum ≡ checksum_of
            (checksummed_ipv6 ip_header.now.source ip_header.now.destination (wire self.now) payload.now)) }
        ensures verifies { IfOk result (λ checksum. IsAllOnes
            (checksummed_ipv6 ip_header.now.source ip_header.now.destination (wire self.now) payload.now + checksum)) }
        ensures valid { IfOk result (λ checksum. IsValidTcpIpv6 ip_header.now.source ip_header.now.destination
            (wire (record self.now { checksum = checksum }) ++ payload.now)) }
    {
        self.calc_checksum_ipv6_raw(ip_header.source, ip_header.destination, payload)
    }

    /// The checksum over IPv6 (RFC 9293, section 3.1; RFC 8200, section 8.1) of the pseudo header, this header and the payload. The
    /// checksum field counts as zeros. If the packet has a routing header, pass the final destination. To check a received segment, use
    /// `TcpHeaderSlice::is_checksum_valid_ipv6`, which sums its bytes as received.
    ///
    /// # Errors
    ///
    /// `ValueTooBigError` of `TcpPayloadLengthIpv6` if header and payload together are longer than 4,294,967,295 bytes.
    #[inline(always)]
    pub fn calc_checksum_ipv6_raw(
        &self,
        source: [u8; 16],
        destination: [u8; 16],
        payload: &[u8],
    ) -> Result<u16, ValueTooBigError<usize>>
        ensures refused { RefusesExactly result (too_big TcpPayloadLengthIpv6 (max_payload_len_ipv6 (wire self.now)) (length payload.now)) }
        ensures sum { IfOk result (λ checksum. checksum ≡ checksum_of
            (checksummed_ipv6 source destination (wire self.now) payload.now)) }
        ensures verifies { IfOk result (λ checksum. IsAllOnes
            (checksummed_ipv6 source destination (wire self.now) payload.now + checksum)) }
        ensures valid { IfOk result (λ checksum. IsValidTcpIpv6 source destination
            (wire (record self.now { checksum = checksum }) ++ payload.now)) }
    {
        let len = len_over_ipv6(self.header_len(), payload.len())?;
        let pseudo_header = pseudo_header_ipv6(source, destination, ip_number::TCP, len);
        Ok(self.checksum_post_ip(pseudo_header, payload))
    }

    /// Computes the checksum from the sum of the pseudo header, the fields and the payload, without writing the bytes of the header.
    #[inline]
    // perf: the sum is computed from the fields. Through `to_bytes`, a header without a payload took two to three times as long (23 Nov
    // 2026).
    fn checksum_post_ip(&self, pseudo_header: Sum16BitWords, payload: &[u8]) -> u16
        ensures sum { result ≡ checksum_of (sum_value pseudo_header + (total (without_checksum (wire self.now)) + total payload.now)) }
        ensures whole_words { length (wire self.now) % 4 ≡ 0 }
    {
        // The sum of the 16-bit fields has less than 24 bits. `Sum16BitWords` stores its words with their bytes swapped, so the number is
        // shifted by eight bits.
        let offset_and_flags = u16::from_be_bytes([self.offset_byte(), self.flags_byte()]);
        let (window_size, urgent_pointer) = (self.window_size, self.urgent_pointer);
        let words = u32::from(self.source_port)
            + u32::from(self.destination_port)
            + u32::from(offset_and_flags)
            + u32::from(window_size)
            + u32::from(urgent_pointer);
        let fields = pseudo_header
            .add_4bytes((words << 8).to_le_bytes())
            .add_4bytes(self.sequence_number.to_be_bytes())
            .add_4bytes(self.acknowledgment_number.to_be_bytes());
        add_options(fields, self.options())
            .add_slice(payload)
            .ones_complement()
    }
}

/// Writes the options to the front of the slice. Each arm copies a constant length, as in `append_words`.
#[inline(always)]
fn write_options(slice: &mut [u8], options: &[u8])
    requires room { length options.now ≤ length slice.old }
    requires bound { length options.now ≤ max_options_len }
    requires whole_words { length options.now % 4 ≡ 0 }
    ensures { slice.new ≡ options.now ++ drop (length options.now) slice.old }
{
    match options.len() {
        0 => {}
        4 => write_array::<4>(slice, options),
        8 => write_array::<8>(slice, options),
        12 => write_array::<12>(slice, options),
        16 => write_array::<16>(slice, options),
        20 => write_array::<20>(slice, options),
        24 => write_array::<24>(slice, options),
        28 => write_array::<28>(slice, options),
        32 => write_array::<32>(slice, options),
        36 => write_array::<36>(slice, options),
        _ => write_array::<40>(slice, options),
    }
}

/// Writes `N` bytes to the front of the slice.
#[inline(always)]
fn write_array<const N: usize>(slice: &mut [u8], written: &[u8])
    requires len { length written.now ≡ N }
    requires room { N ≤ length slice.old }
    ensures { slice.new ≡ written.now ++ drop N slice.old }
{
    slice[..N].copy_from_slice(written.first_chunk::<N>().unwrap());
}
