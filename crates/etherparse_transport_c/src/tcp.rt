ghost use Rattle.std.specs.Prelude.{◌≡◌, ◌≤◌, ◌++◌, IfOk, None, length, unwrap_or};
ghost use Rattle.net_base.specs.PseudoHeader.{max_len_over_ipv4, max_len_over_ipv6};
ghost use Rattle.net_base.specs.Refusals.{RefusesExactly};
ghost use Rattle.net_base.specs.declared.err.value_type.ValueType.TheVariants.{TcpPayloadLengthIpv4, TcpPayloadLengthIpv6};
ghost use Rattle.word_sum.specs.Checksum.{checksum_of};
ghost use Rattle.tcp_part.specs.TcpFormat.{checksummed_ipv4, checksummed_ipv6, header_of, options_of, wire};
ghost use Rattle.tcp_part.specs.TcpOptions.{pad};
ghost use Rattle.tcp_part.specs.TcpValidity.{IsValidTcpIpv4, IsValidTcpIpv6};
ghost use Rattle.etherparse_transport_c.specs.Checksums.{with_checksum};
ghost use Rattle.etherparse_transport_c.specs.Errors.{Answers, Leaves, at_front, status_of, test_error, unless_refused};
ghost use Rattle.etherparse_transport_c.specs.Numbers as numbers;
ghost use Rattle.etherparse_transport_c.specs.Tcp.{TestTellsIpv4, TestTellsIpv6, checksum_refusal, fields_of, fields_refusal, flags_of, header_bytes, header_in, is_set, packet_of, payload_bytes, refusal, store_refusal, with_fields, write_refusal};

use crate::answer::{Answer, ErrorPlace, accept, refuse};
use crate::error::{EtherparseError, of_flags, of_header_slice, of_options, of_value};
use crate::store::store;
use crate::tcp_flag;
use crate::verdict::verdict;
use crate::write::{put_front, write};
use etherparse_transport::err::ValueType;
use etherparse_transport::{TcpHeader, TcpHeaderSlice, TcpSlice};
use net_base::check_payload_len;

/// A TCP header without its options (RFC 9293, section 3.1).
#[repr(C)]
#[derive(Clone, Copy)]
pub struct EtherparseTcpHeader {
    /// The sequence number.
    pub sequence_number: u32,
    /// If the flag ACK is set: the next sequence number that the sender expects. Otherwise the field has no meaning.
    pub acknowledgment_number: u32,
    /// The port of the sender.
    pub source_port: u16,
    /// The port of the receiver.
    pub destination_port: u16,
    /// The nine flags: FIN 0x001, SYN 0x002, RST 0x004, PSH 0x008, ACK 0x010, URG 0x020, ECE 0x040, CWR 0x080, NS 0x100.
    pub flags: u16,
    /// The number of bytes that the sender is willing to receive, before window scaling (RFC 7323, section 2.2).
    pub window_size: u16,
    /// The checksum: bytes 16 and 17 of the header.
    pub checksum: u16,
    /// If the flag URG is set: the end of the urgent data, in bytes from the sequence number. Otherwise the field has no meaning.
    pub urgent_pointer: u16,
}

/// A TCP segment that was read (RFC 9293, section 3.1).
#[repr(C)]
#[derive(Clone, Copy)]
pub struct EtherparseTcpPacket {
    /// The header of the segment, without its options.
    pub header: EtherparseTcpHeader,
    /// The place at which the options begin, in bytes from the first byte that was read. It is 20.
    pub options_offset: usize,
    /// The length of the options, in bytes. It is at most 40, and a multiple of 4.
    pub options_len: usize,
    /// The place at which the payload begins, in bytes from the first byte that was read. It is between 20 and 60.
    pub payload_offset: usize,
    /// The length of the payload, in bytes.
    pub payload_len: usize,
}

/// Returns the flags of a segment as one number.
fn flags(segment: &TcpSlice<'_>) -> u16
    ensures { result ≡ flags_of (header_of segment.now) }
{
    u16::from(segment.ns()) * tcp_flag::NS
        + (u16::from(segment.fin()) * tcp_flag::FIN
            + u16::from(segment.syn()) * tcp_flag::SYN
            + u16::from(segment.rst()) * tcp_flag::RST
            + u16::from(segment.psh()) * tcp_flag::PSH
            + u16::from(segment.ack()) * tcp_flag::ACK
            + u16::from(segment.urg()) * tcp_flag::URG
            + u16::from(segment.ece()) * tcp_flag::ECE
            + u16::from(segment.cwr()) * tcp_flag::CWR)
}

/// Returns the fields of a segment.
fn packet(segment: &TcpSlice<'_>) -> EtherparseTcpPacket
    ensures { result ≡ packet_of segment.now }
{
    let header_len = segment.header_len();
    EtherparseTcpPacket {
        header: EtherparseTcpHeader {
            sequence_number: segment.sequence_number(),
            acknowledgment_number: segment.acknowledgment_number(),
            source_port: segment.source_port(),
            destination_port: segment.destination_port(),
            flags: flags(segment),
            window_size: segment.window_size(),
            checksum: segment.checksum(),
            urgent_pointer: segment.urgent_pointer(),
        },
        options_offset: TcpHeader::MIN_LEN,
        options_len: segment.options().len(),
        payload_offset: header_len,
        payload_len: segment.payload().len(),
    }
}

/// Reads a TCP segment, which consists of all passed bytes (RFC 9293, section 3.1). The bytes after the header and its options are the
/// payload.
///
/// # Errors
///
/// The status is `OK`, or the first of these that applies:
/// - `LENGTH` if there are fewer than 20 bytes.
/// - `DATA_OFFSET` if the data offset is below 5.
/// - `LENGTH` if there are fewer bytes than the data offset states.
#[unsafe(no_mangle)]
pub extern "C" fn etherparse_tcp_packet_read(
    bytes: &[u8],
    read: &mut EtherparseTcpPacket,
    error: ErrorPlace,
) -> Answer
    ensures status { result.status ≡ status_of (refusal bytes.now) }
    ensures error { Leaves error result (unwrap_or (refusal bytes.now) error.before) }
    ensures read { read.new ≡ unless_refused (refusal bytes.now) (packet_of bytes.now) read.old }
{
    match TcpSlice::from_slice(bytes) {
        Ok(segment) => {
            *read = packet(&segment);
            accept(error)
        }
        Err(error_of_header) => refuse(error, of_header_slice(&error_of_header)),
    }
}

/// Returns whether the flag with this bit is set in `flags`.
fn has(flags: u16, bit: u16) -> bool
    ensures { result ≡ is_set flags bit }
{
    flags & bit != 0
}

/// Returns the header with these fields and options.
fn made_header(fields: &EtherparseTcpHeader, options: &[u8]) -> Result<TcpHeader, EtherparseError>
    ensures refused { RefusesExactly result (fields_refusal fields.now options.now) }
    ensures made { IfOk result (λ header. header ≡ header_in fields.now options.now) }
{
    let mut header = TcpHeader::new(
        fields.source_port,
        fields.destination_port,
        fields.sequence_number,
        fields.window_size,
    );
    header.acknowledgment_number = fields.acknowledgment_number;
    header.ns = has(fields.flags, tcp_flag::NS);
    header.fin = has(fields.flags, tcp_flag::FIN);
    header.syn = has(fields.flags, tcp_flag::SYN);
    header.rst = has(fields.flags, tcp_flag::RST);
    header.psh = has(fields.flags, tcp_flag::PSH);
    header.ack = has(fields.flags, tcp_flag::ACK);
    header.urg = has(fields.flags, tcp_flag::URG);
    header.ece = has(fields.flags, tcp_flag::ECE);
    header.cwr = has(fields.flags, tcp_flag::CWR);
    header.checksum = fields.checksum;
    header.urgent_pointer = fields.urgent_pointer;
    if let Err(refusal) = header.set_options_raw(options) {
        return Err(of_options(&refusal));
    }
    if fields.flags > tcp_flag::ALL {
        return Err(of_flags(fields.flags));
    }
    Ok(header)
}

/// Writes a header with its options to `buffer`, and its length to `written` (RFC 9293, section 3.1). The call pads the options with zeros
/// to whole words of four bytes.
///
/// # Errors
///
/// The status is `OK`, or the first of these that applies:
/// - `OPTIONS_TOO_LONG` if there are more than 40 option bytes.
/// - `FLAGS_UNKNOWN` if `fields.flags` is above 0x1FF.
/// - `BUFFER_TOO_SMALL` if the buffer is shorter than the header.
#[unsafe(no_mangle)]
pub extern "C" fn etherparse_tcp_header_write(
    fields: &EtherparseTcpHeader,
    options: &[u8],
    buffer: &mut [u8],
    written: &mut usize,
    error: ErrorPlace,
) -> Answer
    ensures status { result.status ≡ status_of (write_refusal fields.now options.now (length buffer.old)) }
    ensures error { Leaves error result (unwrap_or (write_refusal fields.now options.now (length buffer.old)) error.before) }
    ensures buffer { buffer.new ≡ unless_refused (write_refusal fields.now options.now (length buffer.old))
        (at_front (wire (header_in fields.now options.now)) buffer.old) buffer.old }
    ensures written { written.new ≡ unless_refused (write_refusal fields.now options.now (length buffer.old))
        (length (wire (header_in fields.now options.now))) written.old }
    // The written fields and the padded options are read back.
    ensures reads_back { write_refusal fields.now options.now (length buffer.old) ≡ None
        → (fields_of (header_of buffer.new) ≡ fields.now) × (options_of buffer.new ≡ pad options.now) }
{
    match made_header(fields, options) {
        Ok(header) => write(&header.to_bytes(), buffer, written, error),
        Err(refusal) => refuse(error, refusal),
    }
}

/// Returns the header with `fields`, and with the options of the header at the front of `bytes`.
fn changed_header(fields: &EtherparseTcpHeader, bytes: &[u8]) -> Result<TcpHeader, EtherparseError>
    ensures refused { RefusesExactly result (store_refusal fields.now bytes.now) }
    ensures made { IfOk result (λ header. header ≡ header_in fields.now (options_of bytes.now)) }
    ensures len { IfOk result (λ header. length (wire header) ≡ length (header_bytes bytes.now)) }
{
    match TcpHeader::from_slice(bytes) {
        Ok((header, _)) => made_header(fields, header.options()),
        Err(refused) => Err(of_header_slice(&refused)),
    }
}

/// Writes `fields` to the header at the front of a segment (RFC 9293, section 3.1). The options and the payload are unchanged. The call
/// clears the reserved bits of the header.
///
/// # Errors
///
/// The status is `OK`, or the first of these that applies:
/// - `LENGTH` or `DATA_OFFSET` if `etherparse_tcp_packet_read` returns it.
/// - `FLAGS_UNKNOWN` if `fields.flags` is above 0x1FF.
#[unsafe(no_mangle)]
pub extern "C" fn etherparse_tcp_header_store(
    fields: &EtherparseTcpHeader,
    bytes: &mut [u8],
    error: ErrorPlace,
) -> Answer
    ensures status { result.status ≡ status_of (store_refusal fields.now bytes.old) }
    ensures error { Leaves error result (unwrap_or (store_refusal fields.now bytes.old) error.before) }
    ensures stored { bytes.new ≡ unless_refused (store_refusal fields.now bytes.old) (with_fields fields.now bytes.old) bytes.old }
    // The stored fields are read back. The options and the bytes after the header are unchanged.
    ensures reads_back { store_refusal fields.now bytes.old ≡ None
        → (fields_of (header_of bytes.new) ≡ fields.now) × (options_of bytes.new ≡ options_of bytes.old)
        × (payload_bytes bytes.new ≡ payload_bytes bytes.old) }
{
    match changed_header(fields, bytes) {
        Ok(header) => {
            put_front(&header.to_bytes(), bytes);
            accept(error)
        }
        Err(refused) => refuse(error, refused),
    }
}

/// Computes the checksum of a segment over IPv4. The segment consists of all bytes. The checksum in the segment is ignored.
fn checksum_ipv4(
    bytes: &[u8],
    source: &[u8; 4],
    destination: &[u8; 4],
) -> Result<u16, EtherparseError>
    ensures refused { RefusesExactly result (checksum_refusal TcpPayloadLengthIpv4 max_len_over_ipv4 bytes.now) }
    ensures header { IfOk result (λ _. 20 ≤ length bytes.now) }
    ensures sum { IfOk result (λ checksum.
        checksum ≡ checksum_of (checksummed_ipv4 source.now destination.now (header_bytes bytes.now) (payload_bytes bytes.now))) }
    ensures valid { IfOk result (λ checksum. IsValidTcpIpv4 source.now destination.now (with_checksum 16 bytes.now checksum)) }
    ensures passes { IfOk result (λ checksum. Answers (TestTellsIpv4 source.now destination.now (with_checksum 16 bytes.now checksum)) numbers.status_ok) }
{
    match TcpHeaderSlice::from_slice(bytes) {
        Ok(header) => {
            let payload = &bytes[header.slice().len()..];
            match header.calc_checksum_ipv4_raw(*source, *destination, payload) {
                Ok(computed) => Ok(computed),
                Err(refused) => Err(of_value(&refused)),
            }
        }
        Err(refused) => Err(of_header_slice(&refused)),
    }
}

/// Computes the right checksum of a segment over IPv4 (RFC 9293, section 3.1). The segment consists of all passed bytes. The call ignores
/// the checksum in the segment.
///
/// # Errors
///
/// The status is `OK`, or the first of these that applies:
/// - `LENGTH` or `DATA_OFFSET` if `etherparse_tcp_packet_read` returns it.
/// - `VALUE_TOO_BIG` if the segment is longer than 65,535 bytes.
#[unsafe(no_mangle)]
pub extern "C" fn etherparse_tcp_checksum_ipv4(
    bytes: &[u8],
    source: &[u8; 4],
    destination: &[u8; 4],
    checksum: &mut u16,
    error: ErrorPlace,
) -> Answer
    ensures status { result.status ≡ status_of (checksum_refusal TcpPayloadLengthIpv4 max_len_over_ipv4 bytes.now) }
    ensures error { Leaves error result (unwrap_or (checksum_refusal TcpPayloadLengthIpv4 max_len_over_ipv4 bytes.now) error.before) }
    ensures checksum { checksum.new ≡ unless_refused (checksum_refusal TcpPayloadLengthIpv4 max_len_over_ipv4 bytes.now)
        (checksum_of (checksummed_ipv4 source.now destination.now (header_bytes bytes.now) (payload_bytes bytes.now))) checksum.old }
    // With this checksum the segment is valid.
    ensures built { checksum_refusal TcpPayloadLengthIpv4 max_len_over_ipv4 bytes.now ≡ None
        → IsValidTcpIpv4 source.now destination.now (with_checksum 16 bytes.now checksum.new) }
    // With this checksum the test of the segment returns `OK`.
    ensures passes { checksum_refusal TcpPayloadLengthIpv4 max_len_over_ipv4 bytes.now ≡ None
        → Answers (TestTellsIpv4 source.now destination.now (with_checksum 16 bytes.now checksum.new)) numbers.status_ok }
{
    match checksum_ipv4(bytes, source, destination) {
        Ok(ipv4_checksum) => {
            *checksum = ipv4_checksum;
            accept(error)
        }
        Err(refused) => refuse(error, refused),
    }
}

/// Stores the right checksum in bytes 16 and 17, as `etherparse_tcp_checksum_ipv4` computes it. No other byte changes.
///
/// # Errors
///
/// The status is `OK`, or the first of these that applies:
/// - `LENGTH` or `DATA_OFFSET` if `etherparse_tcp_packet_read` returns it.
/// - `VALUE_TOO_BIG` if the segment is longer than 65,535 bytes.
#[unsafe(no_mangle)]
pub extern "C" fn etherparse_tcp_checksum_store_ipv4(
    bytes: &mut [u8],
    source: &[u8; 4],
    destination: &[u8; 4],
    error: ErrorPlace,
) -> Answer
    ensures status { result.status ≡ status_of (checksum_refusal TcpPayloadLengthIpv4 max_len_over_ipv4 bytes.old) }
    ensures error { Leaves error result (unwrap_or (checksum_refusal TcpPayloadLengthIpv4 max_len_over_ipv4 bytes.old) error.before) }
    ensures stored { bytes.new ≡ unless_refused (checksum_refusal TcpPayloadLengthIpv4 max_len_over_ipv4 bytes.old)
        (with_checksum 16 bytes.old (checksum_of (checksummed_ipv4 source.now destination.now (header_bytes bytes.old) (payload_bytes bytes.old)))) bytes.old }
    // After the call the test of the segment returns `OK`.
    ensures passes { checksum_refusal TcpPayloadLengthIpv4 max_len_over_ipv4 bytes.old ≡ None
        → Answers (TestTellsIpv4 source.now destination.now bytes.new) numbers.status_ok }
{
    match checksum_ipv4(bytes, source, destination) {
        Ok(ipv4_checksum) => {
            store(bytes, TcpHeader::CHECKSUM_AT, ipv4_checksum);
            accept(error)
        }
        Err(refused) => refuse(error, refused),
    }
}

/// Computes the checksum of a segment over IPv6. The segment consists of all bytes. The checksum in the segment is ignored.
fn checksum_ipv6(
    bytes: &[u8],
    source: &[u8; 16],
    destination: &[u8; 16],
) -> Result<u16, EtherparseError>
    ensures refused { RefusesExactly result (checksum_refusal TcpPayloadLengthIpv6 max_len_over_ipv6 bytes.now) }
    ensures header { IfOk result (λ _. 20 ≤ length bytes.now) }
    ensures sum { IfOk result (λ checksum.
        checksum ≡ checksum_of (checksummed_ipv6 source.now destination.now (header_bytes bytes.now) (payload_bytes bytes.now))) }
    ensures valid { IfOk result (λ checksum. IsValidTcpIpv6 source.now destination.now (with_checksum 16 bytes.now checksum)) }
    ensures passes { IfOk result (λ checksum. Answers (TestTellsIpv6 source.now destination.now (with_checksum 16 bytes.now checksum)) numbers.status_ok) }
{
    match TcpHeaderSlice::from_slice(bytes) {
        Ok(header) => {
            let payload = &bytes[header.slice().len()..];
            match header.calc_checksum_ipv6_raw(*source, *destination, payload) {
                Ok(computed) => Ok(computed),
                Err(refused) => Err(of_value(&refused)),
            }
        }
        Err(refused) => Err(of_header_slice(&refused)),
    }
}

/// Computes the right checksum of a segment over IPv6 (RFC 9293, section 3.1; RFC 8200, section 8.1). The segment consists of all passed
/// bytes. The call ignores the checksum in the segment.
///
/// # Errors
///
/// The status is `OK`, or the first of these that applies:
/// - `LENGTH` or `DATA_OFFSET` if `etherparse_tcp_packet_read` returns it.
/// - `VALUE_TOO_BIG` if the segment is longer than 4,294,967,295 bytes.
#[unsafe(no_mangle)]
pub extern "C" fn etherparse_tcp_checksum_ipv6(
    bytes: &[u8],
    source: &[u8; 16],
    destination: &[u8; 16],
    checksum: &mut u16,
    error: ErrorPlace,
) -> Answer
    ensures status { result.status ≡ status_of (checksum_refusal TcpPayloadLengthIpv6 max_len_over_ipv6 bytes.now) }
    ensures error { Leaves error result (unwrap_or (checksum_refusal TcpPayloadLengthIpv6 max_len_over_ipv6 bytes.now) error.before) }
    ensures checksum { checksum.new ≡ unless_refused (checksum_refusal TcpPayloadLengthIpv6 max_len_over_ipv6 bytes.now)
        (checksum_of (checksummed_ipv6 source.now destination.now (header_bytes bytes.now) (payload_bytes bytes.now))) checksum.old }
    // With this checksum the segment is valid.
    ensures built { checksum_refusal TcpPayloadLengthIpv6 max_len_over_ipv6 bytes.now ≡ None
        → IsValidTcpIpv6 source.now destination.now (with_checksum 16 bytes.now checksum.new) }
    // With this checksum the test of the segment returns `OK`.
    ensures passes { checksum_refusal TcpPayloadLengthIpv6 max_len_over_ipv6 bytes.now ≡ None
        → Answers (TestTellsIpv6 source.now destination.now (with_checksum 16 bytes.now checksum.new)) numbers.status_ok }
{
    match checksum_ipv6(bytes, source, destination) {
        Ok(ipv6_checksum) => {
            *checksum = ipv6_checksum;
            accept(error)
        }
        Err(refused) => refuse(error, refused),
    }
}

/// Stores the right checksum in bytes 16 and 17, as `etherparse_tcp_checksum_ipv6` computes it. No other byte changes.
///
/// # Errors
///
/// The status is `OK`, or the first of these that applies:
/// - `LENGTH` or `DATA_OFFSET` if `etherparse_tcp_packet_read` returns it.
/// - `VALUE_TOO_BIG` if the segment is longer than 4,294,967,295 bytes.
#[unsafe(no_mangle)]
pub extern "C" fn etherparse_tcp_checksum_store_ipv6(
    bytes: &mut [u8],
    source: &[u8; 16],
    destination: &[u8; 16],
    error: ErrorPlace,
) -> Answer
    ensures status { result.status ≡ status_of (checksum_refusal TcpPayloadLengthIpv6 max_len_over_ipv6 bytes.old) }
    ensures error { Leaves error result (unwrap_or (checksum_refusal TcpPayloadLengthIpv6 max_len_over_ipv6 bytes.old) error.before) }
    ensures stored { bytes.new ≡ unless_refused (checksum_refusal TcpPayloadLengthIpv6 max_len_over_ipv6 bytes.old)
        (with_checksum 16 bytes.old (checksum_of (checksummed_ipv6 source.now destination.now (header_bytes bytes.old) (payload_bytes bytes.old)))) bytes.old }
    // After the call the test of the segment returns `OK`.
    ensures passes { checksum_refusal TcpPayloadLengthIpv6 max_len_over_ipv6 bytes.old ≡ None
        → Answers (TestTellsIpv6 source.now destination.now bytes.new) numbers.status_ok }
{
    match checksum_ipv6(bytes, source, destination) {
        Ok(ipv6_checksum) => {
            store(bytes, TcpHeader::CHECKSUM_AT, ipv6_checksum);
            accept(error)
        }
        Err(refused) => refuse(error, refused),
    }
}

/// Returns the header and the payload of a segment. A segment longer than `limit` is refused. `limit` is the greatest number in the length
/// field of the pseudo header.
fn counted_parts<'a>(
    bytes: &'a [u8],
    limit: usize,
    value_type: ValueType,
) -> Result<(TcpHeaderSlice<'a>, &'a [u8]), EtherparseError>
    requires { 60 ≤ limit }
    ensures refused { RefusesExactly result (checksum_refusal value_type limit bytes.now) }
    ensures whole { IfOk result (λ parts. parts.0 ++ parts.1.now ≡ bytes.now) }
{
    match TcpHeaderSlice::from_slice(bytes) {
        Ok(header) => {
            let header_len = header.slice().len();
            let payload = &bytes[header_len..];
            match check_payload_len(payload.len(), limit - header_len, value_type) {
                Ok(()) => Ok((header, payload)),
                Err(refused) => Err(of_value(&refused)),
            }
        }
        Err(refused) => Err(of_header_slice(&refused)),
    }
}

/// Tests the checksum of a segment over IPv4 (RFC 9293, section 3.1). The segment consists of all passed bytes.
///
/// # Errors
///
/// The status is `OK` if the checksum is right, otherwise the first of these that applies:
/// - `LENGTH` or `DATA_OFFSET` if `etherparse_tcp_packet_read` returns it.
/// - `VALUE_TOO_BIG` if the segment is longer than 65,535 bytes.
/// - `CHECKSUM_WRONG` if the checksum is wrong.
#[unsafe(no_mangle)]
pub extern "C" fn etherparse_tcp_checksum_test_ipv4(
    bytes: &[u8],
    source: &[u8; 4],
    destination: &[u8; 4],
    error: ErrorPlace,
) -> Answer
    ensures status { TestTellsIpv4 source.now destination.now bytes.now result.status }
    ensures error { Leaves error result (test_error (checksum_refusal TcpPayloadLengthIpv4 max_len_over_ipv4 bytes.now) result.status error.before) }
{
    match counted_parts(bytes, u16::MAX as usize, ValueType::TcpPayloadLengthIpv4) {
        Ok((header, payload)) => verdict(
            header.is_checksum_valid_ipv4(*source, *destination, payload),
            error,
        ),
        Err(refused) => refuse(error, refused),
    }
}

/// Tests the checksum of a segment over IPv6 (RFC 9293, section 3.1; RFC 8200, section 8.1). The segment consists of all passed bytes.
///
/// # Errors
///
/// The status is `OK` if the checksum is right, otherwise the first of these that applies:
/// - `LENGTH` or `DATA_OFFSET` if `etherparse_tcp_packet_read` returns it.
/// - `VALUE_TOO_BIG` if the segment is longer than 4,294,967,295 bytes.
/// - `CHECKSUM_WRONG` if the checksum is wrong.
#[unsafe(no_mangle)]
pub extern "C" fn etherparse_tcp_checksum_test_ipv6(
    bytes: &[u8],
    source: &[u8; 16],
    destination: &[u8; 16],
    error: ErrorPlace,
) -> Answer
    ensures status { TestTellsIpv6 source.now destination.now bytes.now result.status }
    ensures error { Leaves error result (test_error (checksum_refusal TcpPayloadLengthIpv6 max_len_over_ipv6 bytes.now) result.status error.before) }
{
    match counted_parts(bytes, u32::MAX as usize, ValueType::TcpPayloadLengthIpv6) {
        Ok((header, payload)) => verdict(
            header.is_checksum_valid_ipv6(*source, *destination, payload),
            error,
        ),
        Err(refused) => refuse(error, refused),
    }
}
