ghost use Rattle.std.specs.Prelude.{◌≡◌, ◌≤◌, IfOk, None, drop, length, unwrap_or};
ghost use Rattle.net_base.specs.Bytes.{IsBytes};
ghost use Rattle.net_base.specs.PseudoHeader.{max_len_over_ipv4, max_len_over_ipv6};
ghost use Rattle.net_base.specs.Refusals.{RefusesExactly};
ghost use Rattle.net_base.specs.declared.err.value_type.ValueType.TheVariants.{UdpPayloadLengthIpv4, UdpPayloadLengthIpv6};
ghost use Rattle.word_sum.specs.Checksum.{udp_checksum_of};
ghost use Rattle.udp_part.specs.UdpFormat as udp;
ghost use Rattle.udp_part.specs.UdpFormat.{header_of, max_payload_len, max_payload_len_of_32_bits, wire};
ghost use Rattle.udp_part.specs.UdpSlice.{cut, length_field};
ghost use Rattle.udp_part.specs.UdpValidity.{IsValidUdpIpv4, IsValidUdpIpv6};
ghost use Rattle.etherparse_transport_c.specs.Checksums.{with_checksum};
ghost use Rattle.etherparse_transport_c.specs.Errors.{Answers, Leaves, at_front, no_room, status_of, test_error, unless_refused};
ghost use Rattle.etherparse_transport_c.specs.Numbers as numbers;
ghost use Rattle.etherparse_transport_c.specs.Udp.{TestTellsIpv4, TestTellsIpv6, checksum_refusal, checksummed_ipv4, checksummed_ipv6, fields_of, header_in, header_refusal, packet_in, packet_refusal};

use crate::answer::{Answer, ErrorPlace, accept, refuse};
use crate::error::{EtherparseError, number_of_len_source, of_len, of_status, of_value};
use crate::status;
use crate::store::store;
use crate::verdict::verdict;
use crate::write::write;
use etherparse_transport::err::ValueType;
use etherparse_transport::{UdpHeader, UdpSlice, ip_number};
use net_base::{check_payload_len, pseudo_header_ipv4, pseudo_header_ipv6};

/// A UDP header (RFC 768).
#[repr(C)]
#[derive(Clone, Copy)]
pub struct EtherparseUdpHeader {
    /// The port of the sender, or 0 if it is not used.
    pub source_port: u16,
    /// The port of the receiver.
    pub destination_port: u16,
    /// The length of header and payload, in bytes. In a valid packet it is at least 8, or 0 in a jumbogram (RFC 2675,
    /// section 4).
    pub length: u16,
    /// The checksum. Over IPv4, 0 means that the packet has no checksum. Over IPv6, 0 is wrong.
    pub checksum: u16,
}

/// A UDP packet that was read (RFC 768).
#[repr(C)]
#[derive(Clone, Copy)]
pub struct EtherparseUdpPacket {
    /// The header of the packet.
    pub header: EtherparseUdpHeader,
    /// The place at which the payload begins, in bytes from the first byte that was read. It is 8.
    pub payload_offset: usize,
    /// The length of the payload, in bytes.
    pub payload_len: usize,
    /// The source that states `payload_len`: a number of `len_source`.
    pub payload_len_source: u32,
}

/// The length of the longest UDP payload over IPv4, in bytes. The length field of the pseudo header has 16 bits, and counts the UDP header
/// too.
const MAX_PAYLOAD_LEN_IPV4: usize = u16::MAX as usize - UdpHeader::LEN;

/// The length of the longest UDP payload over IPv6, in bytes. The length field of the pseudo header has 32 bits, and counts the UDP header
/// too.
const MAX_PAYLOAD_LEN_IPV6: usize = u32::MAX as usize - UdpHeader::LEN;

/// Returns the header with these fields.
fn header(fields: &EtherparseUdpHeader) -> UdpHeader
    ensures { result ≡ header_in fields.now }
{
    UdpHeader {
        source_port: fields.source_port,
        destination_port: fields.destination_port,
        length: fields.length,
        checksum: fields.checksum,
    }
}

/// Returns the fields of a packet.
fn packet(slice: &UdpSlice<'_>) -> EtherparseUdpPacket
    ensures { result ≡ packet_in slice.now }
{
    EtherparseUdpPacket {
        header: EtherparseUdpHeader {
            source_port: slice.source_port(),
            destination_port: slice.destination_port(),
            length: slice.length(),
            checksum: slice.checksum(),
        },
        payload_offset: slice.header_len(),
        payload_len: slice.payload().len(),
        payload_len_source: number_of_len_source(slice.payload_len_source()),
    }
}

/// Reads the packet at the front of some bytes (RFC 768). The length field states the length of the packet. If it is 0, the packet consists
/// of all bytes.
///
/// # Errors
///
/// The status is `OK` or `LENGTH`. It is `LENGTH` if there are fewer than 8 bytes. It is also `LENGTH` if the length field is 1 to 7, or
/// above the number of bytes.
#[unsafe(no_mangle)]
pub extern "C" fn etherparse_udp_packet_read(
    bytes: &[u8],
    read: &mut EtherparseUdpPacket,
    error: ErrorPlace,
) -> Answer
    ensures status { result.status ≡ status_of (packet_refusal bytes.now) }
    ensures error { Leaves error result (unwrap_or (packet_refusal bytes.now) error.before) }
    ensures read { read.new ≡ unless_refused (packet_refusal bytes.now) (packet_in (cut bytes.now)) read.old }
{
    match UdpSlice::from_slice(bytes) {
        Ok(slice) => {
            *read = packet(&slice);
            accept(error)
        }
        Err(refusal) => refuse(error, of_len(&refusal)),
    }
}

/// Reads the packet at the front of some bytes (RFC 768). The length field states the length of the packet. If it is 0 or invalid, the
/// packet consists of all bytes.
///
/// # Errors
///
/// The status is `OK`, or `LENGTH` if there are fewer than 8 bytes.
#[unsafe(no_mangle)]
pub extern "C" fn etherparse_udp_packet_read_lax(
    bytes: &[u8],
    read: &mut EtherparseUdpPacket,
    error: ErrorPlace,
) -> Answer
    ensures status { result.status ≡ status_of (header_refusal bytes.now) }
    ensures error { Leaves error result (unwrap_or (header_refusal bytes.now) error.before) }
    ensures read { read.new ≡ unless_refused (header_refusal bytes.now) (packet_in (cut bytes.now)) read.old }
{
    match UdpSlice::from_slice_lax(bytes) {
        Ok(kept) => {
            *read = packet(&kept);
            accept(error)
        }
        Err(refusal) => refuse(error, of_len(&refusal)),
    }
}

/// Writes a header (RFC 768).
///
/// # Errors
///
/// The status is `OK`, or `BUFFER_TOO_SMALL` if the buffer is shorter than 8 bytes.
#[unsafe(no_mangle)]
pub extern "C" fn etherparse_udp_header_write(
    fields: &EtherparseUdpHeader,
    buffer: &mut [u8],
    written: &mut usize,
    error: ErrorPlace,
) -> Answer
    ensures status { result.status ≡ status_of (no_room 8 (length buffer.old)) }
    ensures error { Leaves error result (unwrap_or (no_room 8 (length buffer.old)) error.before) }
    ensures buffer { buffer.new ≡ unless_refused (no_room 8 (length buffer.old)) (at_front (wire (header_in fields.now)) buffer.old) buffer.old }
    ensures written { written.new ≡ unless_refused (no_room 8 (length buffer.old)) 8 written.old }
    // The written header is read back.
    ensures reads_back { no_room 8 (length buffer.old) ≡ None → fields_of (header_of buffer.new) ≡ fields.now }
{
    write(&header(fields).to_bytes(), buffer, written, error)
}

/// Returns the packet at the front of some bytes. A payload longer than `limit` is refused.
// perf: without inlining, the result is stored in parts and loaded as a whole, and the processor waits for this load. With inlining, the
// test of a checksum over 11 bytes takes 93 instructions instead of 140 (29 Nov 2026).
#[inline(always)]
fn counted_packet(
    bytes: &[u8],
    limit: usize,
    value_type: ValueType,
) -> Result<UdpSlice<'_>, EtherparseError>
    ensures refused { RefusesExactly result (checksum_refusal value_type limit bytes.now) }
    ensures kept { IfOk result (λ packet. packet ≡ cut bytes.now) }
{
    match UdpSlice::from_slice(bytes) {
        Ok(packet) => match check_payload_len(packet.payload().len(), limit, value_type) {
            Ok(()) => Ok(packet),
            Err(refused) => Err(of_value(&refused)),
        },
        Err(refused) => Err(of_len(&refused)),
    }
}

/// Computes the checksum of a packet over IPv4. The checksum in the packet is ignored. The length in the pseudo header is the number of
/// bytes of the packet.
fn computed_ipv4(source: [u8; 4], destination: [u8; 4], packet: &[u8]) -> u16
    requires header { 8 ≤ length packet.now }
    requires counted { length packet.now ≤ max_len_over_ipv4 }
    ensures sum { result ≡ udp_checksum_of (checksummed_ipv4 source destination packet.now) }
    ensures bytes { IsBytes packet.now }
{
    pseudo_header_ipv4(source, destination, ip_number::UDP, packet.len() as u16)
        .add_slice(&packet[..UdpHeader::CHECKSUM_AT])
        .add_slice(&packet[UdpHeader::LEN..])
        .to_ones_complement_with_no_zero()
}

/// Does what `computed_ipv4` does. The contract also states that a receiver accepts the packet with this checksum.
fn packet_checksum_ipv4(source: [u8; 4], destination: [u8; 4], packet: &UdpSlice<'_>) -> u16
    requires header { 8 ≤ length packet.now }
    requires counted { length packet.now ≤ max_len_over_ipv4 }
    ensures sum { result ≡ udp_checksum_of (checksummed_ipv4 source destination packet.now) }
    ensures valid { IsValidUdpIpv4 source destination (with_checksum 6 packet.now result) }
    ensures agrees { length_field packet.now ≡ length packet.now
        → result ≡ udp_checksum_of (udp.checksummed_ipv4 source destination (header_of packet.now) (drop 8 packet.now)) }
{
    computed_ipv4(source, destination, packet.slice())
}

/// Computes the checksum of a packet over IPv6. The checksum in the packet is ignored. The length in the pseudo header is the number of
/// bytes of the packet.
fn computed_ipv6(source: [u8; 16], destination: [u8; 16], packet: &[u8]) -> u16
    requires header { 8 ≤ length packet.now }
    requires counted { length packet.now ≤ max_len_over_ipv6 }
    ensures sum { result ≡ udp_checksum_of (checksummed_ipv6 source destination packet.now) }
    ensures bytes { IsBytes packet.now }
{
    pseudo_header_ipv6(source, destination, ip_number::UDP, packet.len() as u32)
        .add_slice(&packet[..UdpHeader::CHECKSUM_AT])
        .add_slice(&packet[UdpHeader::LEN..])
        .to_ones_complement_with_no_zero()
}

/// Does what `computed_ipv6` does. The contract also states that a receiver accepts the packet with this checksum.
fn packet_checksum_ipv6(source: [u8; 16], destination: [u8; 16], packet: &UdpSlice<'_>) -> u16
    requires header { 8 ≤ length packet.now }
    requires counted { length packet.now ≤ max_len_over_ipv6 }
    ensures sum { result ≡ udp_checksum_of (checksummed_ipv6 source destination packet.now) }
    ensures valid { IsValidUdpIpv6 source destination (with_checksum 6 packet.now result) }
    ensures agrees { length_field packet.now ≡ length packet.now
        → result ≡ udp_checksum_of (udp.checksummed_ipv6 source destination (header_of packet.now) (drop 8 packet.now)) }
{
    computed_ipv6(source, destination, packet.slice())
}

/// Computes the checksum of the UDP packet over IPv4 at the front of some bytes. The checksum in the packet is ignored.
fn checksum_ipv4(
    bytes: &[u8],
    source: &[u8; 4],
    destination: &[u8; 4],
) -> Result<u16, EtherparseError>
    ensures refused { RefusesExactly result (checksum_refusal UdpPayloadLengthIpv4 max_payload_len bytes.now) }
    ensures header { IfOk result (λ _. 8 ≤ length bytes.now) }
    ensures sum { IfOk result (λ checksum. checksum ≡ udp_checksum_of (checksummed_ipv4 source.now destination.now (cut bytes.now))) }
    ensures valid { IfOk result (λ checksum. IsValidUdpIpv4 source.now destination.now (with_checksum 6 (cut bytes.now) checksum)) }
    ensures passes { IfOk result (λ checksum. Answers (TestTellsIpv4 source.now destination.now (with_checksum 6 bytes.now checksum)) numbers.status_ok) }
    ensures agrees { IfOk result (λ checksum. length_field (cut bytes.now) ≡ length (cut bytes.now)
        → checksum ≡ udp_checksum_of (udp.checksummed_ipv4 source.now destination.now (header_of (cut bytes.now)) (drop 8 (cut bytes.now)))) }
{
    match counted_packet(bytes, MAX_PAYLOAD_LEN_IPV4, ValueType::UdpPayloadLengthIpv4) {
        Ok(packet) => Ok(packet_checksum_ipv4(*source, *destination, &packet)),
        Err(refused) => Err(refused),
    }
}

/// Computes the right checksum of a UDP packet over IPv4 (RFC 768). The packet is at the front of the bytes, and ends where
/// `etherparse_udp_packet_read` finds its end. The call ignores the checksum in the packet. The length in the pseudo header is the number
/// of bytes of the packet, even if the length field is 0.
///
/// # Errors
///
/// The status is `OK`, or the first of these that applies:
/// - `LENGTH` if `etherparse_udp_packet_read` returns it.
/// - `VALUE_TOO_BIG` if the payload is longer than 65,527 bytes.
#[unsafe(no_mangle)]
pub extern "C" fn etherparse_udp_checksum_ipv4(
    bytes: &[u8],
    source: &[u8; 4],
    destination: &[u8; 4],
    checksum: &mut u16,
    error: ErrorPlace,
) -> Answer
    ensures status { result.status ≡ status_of (checksum_refusal UdpPayloadLengthIpv4 max_payload_len bytes.now) }
    ensures error { Leaves error result (unwrap_or (checksum_refusal UdpPayloadLengthIpv4 max_payload_len bytes.now) error.before) }
    ensures checksum { checksum.new ≡ unless_refused (checksum_refusal UdpPayloadLengthIpv4 max_payload_len bytes.now)
        (udp_checksum_of (checksummed_ipv4 source.now destination.now (cut bytes.now))) checksum.old }
    // With this checksum the packet is valid.
    ensures built { checksum_refusal UdpPayloadLengthIpv4 max_payload_len bytes.now ≡ None
        → IsValidUdpIpv4 source.now destination.now (with_checksum 6 (cut bytes.now) checksum.new) }
    // With this checksum the test of the packet returns `OK`.
    ensures passes { checksum_refusal UdpPayloadLengthIpv4 max_payload_len bytes.now ≡ None
        → Answers (TestTellsIpv4 source.now destination.now (with_checksum 6 bytes.now checksum.new)) numbers.status_ok }
    // If the length field is right, the sender of the packet computes the same checksum.
    ensures agrees { checksum_refusal UdpPayloadLengthIpv4 max_payload_len bytes.now ≡ None → length_field (cut bytes.now) ≡ length (cut bytes.now)
        → checksum.new ≡ udp_checksum_of (udp.checksummed_ipv4 source.now destination.now (header_of (cut bytes.now)) (drop 8 (cut bytes.now))) }
{
    match checksum_ipv4(bytes, source, destination) {
        Ok(ipv4_checksum) => {
            *checksum = ipv4_checksum;
            accept(error)
        }
        Err(refused) => refuse(error, refused),
    }
}

/// Stores the right checksum in bytes 6 and 7, as `etherparse_udp_checksum_ipv4` computes it. No other byte changes.
///
/// # Errors
///
/// The status is `OK`, or the first of these that applies:
/// - `LENGTH` if `etherparse_udp_packet_read` returns it.
/// - `VALUE_TOO_BIG` if the payload is longer than 65,527 bytes.
#[unsafe(no_mangle)]
pub extern "C" fn etherparse_udp_checksum_store_ipv4(
    bytes: &mut [u8],
    source: &[u8; 4],
    destination: &[u8; 4],
    error: ErrorPlace,
) -> Answer
    ensures status { result.status ≡ status_of (checksum_refusal UdpPayloadLengthIpv4 max_payload_len bytes.old) }
    ensures error { Leaves error result (unwrap_or (checksum_refusal UdpPayloadLengthIpv4 max_payload_len bytes.old) error.before) }
    ensures stored { bytes.new ≡ unless_refused (checksum_refusal UdpPayloadLengthIpv4 max_payload_len bytes.old)
        (with_checksum 6 bytes.old (udp_checksum_of (checksummed_ipv4 source.now destination.now (cut bytes.old)))) bytes.old }
    // After the call the test of the packet returns `OK`.
    ensures passes { checksum_refusal UdpPayloadLengthIpv4 max_payload_len bytes.old ≡ None
        → Answers (TestTellsIpv4 source.now destination.now bytes.new) numbers.status_ok }
{
    match checksum_ipv4(bytes, source, destination) {
        Ok(ipv4_checksum) => {
            store(bytes, UdpHeader::CHECKSUM_AT, ipv4_checksum);
            accept(error)
        }
        Err(refused) => refuse(error, refused),
    }
}

/// Computes the checksum of the UDP packet over IPv6 at the front of some bytes. The checksum in the packet is ignored.
fn checksum_ipv6(
    bytes: &[u8],
    source: &[u8; 16],
    destination: &[u8; 16],
) -> Result<u16, EtherparseError>
    ensures refused { RefusesExactly result (checksum_refusal UdpPayloadLengthIpv6 max_payload_len_of_32_bits bytes.now) }
    ensures header { IfOk result (λ _. 8 ≤ length bytes.now) }
    ensures sum { IfOk result (λ checksum. checksum ≡ udp_checksum_of (checksummed_ipv6 source.now destination.now (cut bytes.now))) }
    ensures valid { IfOk result (λ checksum. IsValidUdpIpv6 source.now destination.now (with_checksum 6 (cut bytes.now) checksum)) }
    ensures passes { IfOk result (λ checksum. Answers (TestTellsIpv6 source.now destination.now (with_checksum 6 bytes.now checksum)) numbers.status_ok) }
    ensures agrees { IfOk result (λ checksum. length_field (cut bytes.now) ≡ length (cut bytes.now)
        → checksum ≡ udp_checksum_of (udp.checksummed_ipv6 source.now destination.now (header_of (cut bytes.now)) (drop 8 (cut bytes.now)))) }
{
    match counted_packet(bytes, MAX_PAYLOAD_LEN_IPV6, ValueType::UdpPayloadLengthIpv6) {
        Ok(packet) => Ok(packet_checksum_ipv6(*source, *destination, &packet)),
        Err(refused) => Err(refused),
    }
}

/// Computes the right checksum of a UDP packet over IPv6 (RFC 768; RFC 8200, section 8.1). The packet is at the front of the bytes, and
/// ends where `etherparse_udp_packet_read` finds its end. The call ignores the checksum in the packet. The length in the pseudo header is
/// the number of bytes of the packet, even if the length field is 0.
///
/// # Errors
///
/// The status is `OK`, or the first of these that applies:
/// - `LENGTH` if `etherparse_udp_packet_read` returns it.
/// - `VALUE_TOO_BIG` if the payload is longer than 4,294,967,287 bytes.
#[unsafe(no_mangle)]
pub extern "C" fn etherparse_udp_checksum_ipv6(
    bytes: &[u8],
    source: &[u8; 16],
    destination: &[u8; 16],
    checksum: &mut u16,
    error: ErrorPlace,
) -> Answer
    ensures status { result.status ≡ status_of (checksum_refusal UdpPayloadLengthIpv6 max_payload_len_of_32_bits bytes.now) }
    ensures error { Leaves error result (unwrap_or (checksum_refusal UdpPayloadLengthIpv6 max_payload_len_of_32_bits bytes.now) error.before) }
    ensures checksum { checksum.new ≡ unless_refused (checksum_refusal UdpPayloadLengthIpv6 max_payload_len_of_32_bits bytes.now)
        (udp_checksum_of (checksummed_ipv6 source.now destination.now (cut bytes.now))) checksum.old }
    // With this checksum the packet is valid.
    ensures built { checksum_refusal UdpPayloadLengthIpv6 max_payload_len_of_32_bits bytes.now ≡ None
        → IsValidUdpIpv6 source.now destination.now (with_checksum 6 (cut bytes.now) checksum.new) }
    // With this checksum the test of the packet returns `OK`.
    ensures passes { checksum_refusal UdpPayloadLengthIpv6 max_payload_len_of_32_bits bytes.now ≡ None
        → Answers (TestTellsIpv6 source.now destination.now (with_checksum 6 bytes.now checksum.new)) numbers.status_ok }
    // If the length field is right, the sender of the packet computes the same checksum.
    ensures agrees { checksum_refusal UdpPayloadLengthIpv6 max_payload_len_of_32_bits bytes.now ≡ None → length_field (cut bytes.now) ≡ length (cut bytes.now)
        → checksum.new ≡ udp_checksum_of (udp.checksummed_ipv6 source.now destination.now (header_of (cut bytes.now)) (drop 8 (cut bytes.now))) }
{
    match checksum_ipv6(bytes, source, destination) {
        Ok(ipv6_checksum) => {
            *checksum = ipv6_checksum;
            accept(error)
        }
        Err(refused) => refuse(error, refused),
    }
}

/// Stores the right checksum in bytes 6 and 7, as `etherparse_udp_checksum_ipv6` computes it. No other byte changes.
///
/// # Errors
///
/// The status is `OK`, or the first of these that applies:
/// - `LENGTH` if `etherparse_udp_packet_read` returns it.
/// - `VALUE_TOO_BIG` if the payload is longer than 4,294,967,287 bytes.
#[unsafe(no_mangle)]
pub extern "C" fn etherparse_udp_checksum_store_ipv6(
    bytes: &mut [u8],
    source: &[u8; 16],
    destination: &[u8; 16],
    error: ErrorPlace,
) -> Answer
    ensures status { result.status ≡ status_of (checksum_refusal UdpPayloadLengthIpv6 max_payload_len_of_32_bits bytes.old) }
    ensures error { Leaves error result (unwrap_or (checksum_refusal UdpPayloadLengthIpv6 max_payload_len_of_32_bits bytes.old) error.before) }
    ensures stored { bytes.new ≡ unless_refused (checksum_refusal UdpPayloadLengthIpv6 max_payload_len_of_32_bits bytes.old)
        (with_checksum 6 bytes.old (udp_checksum_of (checksummed_ipv6 source.now destination.now (cut bytes.old)))) bytes.old }
    // After the call the test of the packet returns `OK`.
    ensures passes { checksum_refusal UdpPayloadLengthIpv6 max_payload_len_of_32_bits bytes.old ≡ None
        → Answers (TestTellsIpv6 source.now destination.now bytes.new) numbers.status_ok }
{
    match checksum_ipv6(bytes, source, destination) {
        Ok(ipv6_checksum) => {
            store(bytes, UdpHeader::CHECKSUM_AT, ipv6_checksum);
            accept(error)
        }
        Err(refused) => refuse(error, refused),
    }
}

/// Tests the checksum of the UDP packet over IPv4 at the front of some bytes (RFC 768).
///
/// # Errors
///
/// The status is `OK` if the checksum is right, otherwise the first of these that applies:
/// - `LENGTH` if `etherparse_udp_packet_read` returns it.
/// - `VALUE_TOO_BIG` if the payload is longer than 65,527 bytes.
/// - `CHECKSUM_ABSENT` if the checksum field is 0.
/// - `CHECKSUM_WRONG` if the checksum is wrong.
#[unsafe(no_mangle)]
pub extern "C" fn etherparse_udp_checksum_test_ipv4(
    bytes: &[u8],
    source: &[u8; 4],
    destination: &[u8; 4],
    error: ErrorPlace,
) -> Answer
    ensures status { TestTellsIpv4 source.now destination.now bytes.now result.status }
    ensures error { Leaves error result (test_error (checksum_refusal UdpPayloadLengthIpv4 max_payload_len bytes.now) result.status error.before) }
{
    match counted_packet(bytes, MAX_PAYLOAD_LEN_IPV4, ValueType::UdpPayloadLengthIpv4) {
        Ok(packet) => {
            if packet.checksum() == 0 {
                return refuse(error, of_status(status::CHECKSUM_ABSENT));
            }
            verdict(packet.is_checksum_valid_ipv4(*source, *destination), error)
        }
        Err(refused) => refuse(error, refused),
    }
}

/// Tests the checksum of the UDP packet over IPv6 at the front of some bytes (RFC 768; RFC 8200, section 8.1). A packet without a checksum
/// must be discarded, except in a tunnel that allows it (RFC 6935).
///
/// # Errors
///
/// The status is `OK` if the checksum is right, otherwise the first of these that applies:
/// - `LENGTH` if `etherparse_udp_packet_read` returns it.
/// - `VALUE_TOO_BIG` if the payload is longer than 4,294,967,287 bytes.
/// - `CHECKSUM_ABSENT` if the checksum field is 0.
/// - `CHECKSUM_WRONG` if the checksum is wrong.
#[unsafe(no_mangle)]
pub extern "C" fn etherparse_udp_checksum_test_ipv6(
    bytes: &[u8],
    source: &[u8; 16],
    destination: &[u8; 16],
    error: ErrorPlace,
) -> Answer
    ensures status { TestTellsIpv6 source.now destination.now bytes.now result.status }
    ensures error { Leaves error result (test_error (checksum_refusal UdpPayloadLengthIpv6 max_payload_len_of_32_bits bytes.now) result.status error.before) }
{
    match counted_packet(bytes, MAX_PAYLOAD_LEN_IPV6, ValueType::UdpPayloadLengthIpv6) {
        Ok(packet) => {
            if packet.checksum() == 0 {
                return refuse(error, of_status(status::CHECKSUM_ABSENT));
            }
            verdict(packet.is_checksum_valid_ipv6(*source, *destination), error)
        }
        Err(refused) => refuse(error, refused),
    }
}
