ghost use Rattle.std.specs.Prelude.{◌≡◌, ◌≤◌, ℕ, IfOk, None, length, take, unwrap_or};
ghost use Rattle.net_base.specs.Refusals.{RefusesExactly};
ghost use Rattle.word_sum.specs.Checksum.{checksum_of, total};
ghost use Rattle.icmp_part.specs.Icmpv4Format.{HasWholeHeader, dest_unreachable_formats, parameter_problem_formats};
ghost use Rattle.icmp_part.specs.Icmpv4Validity.{IsValidIcmpv4};
ghost use Rattle.icmp_part.specs.MessageFormat.{listed};
ghost use Rattle.etherparse_transport_c.specs.Checksums.{with_checksum};
ghost use Rattle.etherparse_transport_c.specs.Errors.{Answers, Leaves, at_front, status_of, test_error, unless_refused};
ghost use Rattle.etherparse_transport_c.specs.Icmpv4 as specs;
ghost use Rattle.etherparse_transport_c.specs.Icmpv4.{IsSameHeader, ReadsBack, TestTells, header_bytes, message_fields, message_in, packet_of, refusal, write_refusal};
ghost use Rattle.etherparse_transport_c.specs.Numbers as numbers;

use crate::answer::{Answer, ErrorPlace, accept, refuse};
use crate::error::{EtherparseError, of_len, of_status};
use crate::store::store;
use crate::verdict::verdict;
use crate::write::write;
use crate::{icmpv4_kind, status};
use etherparse_transport::icmpv4::{
    DestUnreachableHeader, ParameterProblemHeader, RedirectCode, RedirectHeader, TimeExceededCode,
    TimestampMessage,
};
use etherparse_transport::{IcmpEchoHeader, Icmpv4Header, Icmpv4Slice, Icmpv4Type};

/// An ICMPv4 header (RFC 792). A field that this kind of message does not have is 0. A time is in milliseconds since midnight UT. A time
/// whose highest bit is set is not a standard value.
#[repr(C)]
#[derive(Clone, Copy)]
pub struct EtherparseIcmpv4Header {
    /// The kind of the message. The module `icmpv4_kind` lists the numbers.
    pub kind: u32,
    /// In a timestamp message or reply: the time at which the sender last touched the message.
    pub originate_timestamp: u32,
    /// In a timestamp message or reply: the time at which the echoer first touched the message.
    pub receive_timestamp: u32,
    /// In a timestamp message or reply: the time at which the echoer last touched the message.
    pub transmit_timestamp: u32,
    /// The checksum: bytes 2 and 3 of the message.
    pub checksum: u16,
    /// In an echo or timestamp message, and in its reply: the identifier.
    pub id: u16,
    /// In an echo or timestamp message, and in its reply: the sequence number.
    pub sequence_number: u16,
    /// In a destination unreachable message of code 4 (fragmentation needed): the MTU of the next hop, in bytes (RFC 1191, section 4). It
    /// is 0 if the router does not report the MTU.
    pub next_hop_mtu: u16,
    /// The type: byte 0 of the message. A call that writes a header uses this field only for kind 0.
    pub type_u8: u8,
    /// The code: byte 1 of the message. A call that writes a header uses this field only for kind 0 and for kinds with several codes.
    pub code_u8: u8,
    /// In a parameter problem message of code 0: the place of the error in the original datagram, in bytes.
    pub pointer: u8,
    /// The four bytes after the checksum. A call that reads a message sets them for every kind. A call that writes a header uses them only
    /// for kind 0 and for a redirect. In a redirect they are the gateway's address.
    pub bytes4to7: [u8; 4],
}

/// An ICMPv4 message that was read (RFC 792).
#[repr(C)]
#[derive(Clone, Copy)]
pub struct EtherparseIcmpv4Packet {
    /// The header of the message.
    pub header: EtherparseIcmpv4Header,
    /// The place at which the payload begins, in bytes from the first byte that was read. It is 20 in a timestamp message or reply whose
    /// code is 0, and 8 in any other message.
    pub payload_offset: usize,
    /// The length of the payload, in bytes.
    pub payload_len: usize,
}

/// A header in which every field is 0.
const NONE: EtherparseIcmpv4Header = EtherparseIcmpv4Header {
    kind: icmpv4_kind::UNKNOWN,
    originate_timestamp: 0,
    receive_timestamp: 0,
    transmit_timestamp: 0,
    checksum: 0,
    id: 0,
    sequence_number: 0,
    next_hop_mtu: 0,
    type_u8: 0,
    code_u8: 0,
    pointer: 0,
    bytes4to7: [0; 4],
};

/// Sets the fields of an echo message or reply.
fn set_echo(kind: u32, echo: &IcmpEchoHeader, header: &mut EtherparseIcmpv4Header)
    ensures { header.new ≡ record header.old { kind = kind; id = echo.now.id; sequence_number = echo.now.seq } }
{
    header.kind = kind;
    header.id = echo.id;
    header.sequence_number = echo.seq;
}

/// Sets the fields of a timestamp message or reply.
fn set_timestamp(kind: u32, message: &TimestampMessage, header: &mut EtherparseIcmpv4Header)
    ensures { header.new ≡ record header.old {
      kind = kind;
      id = message.now.id;
      sequence_number = message.now.seq;
      originate_timestamp = message.now.originate_timestamp;
      receive_timestamp = message.now.receive_timestamp;
      transmit_timestamp = message.now.transmit_timestamp;
    } }
{
    header.kind = kind;
    header.id = message.id;
    header.sequence_number = message.seq;
    header.originate_timestamp = message.originate_timestamp;
    header.receive_timestamp = message.receive_timestamp;
    header.transmit_timestamp = message.transmit_timestamp;
}

/// Sets the kind of a message and the fields of this kind. Before the call the kind and these fields are 0.
fn set_message(icmp_type: &Icmpv4Type, header: &mut EtherparseIcmpv4Header)
    requires { header.old ≡ specs.with_common header.old specs.nothing }
    ensures { header.new ≡ specs.with_common header.old (message_fields icmp_type.now) }
{
    match icmp_type {
        Icmpv4Type::Unknown { .. } => {}
        Icmpv4Type::EchoReply(echo) => set_echo(icmpv4_kind::ECHO_REPLY, echo, header),
        Icmpv4Type::DestinationUnreachable(unreachable) => {
            header.kind = icmpv4_kind::DESTINATION_UNREACHABLE;
            if let DestUnreachableHeader::FragmentationNeeded { next_hop_mtu } = unreachable {
                header.next_hop_mtu = *next_hop_mtu;
            }
        }
        Icmpv4Type::Redirect(_) => header.kind = icmpv4_kind::REDIRECT,
        Icmpv4Type::EchoRequest(echo) => set_echo(icmpv4_kind::ECHO_REQUEST, echo, header),
        Icmpv4Type::TimeExceeded(_) => header.kind = icmpv4_kind::TIME_EXCEEDED,
        Icmpv4Type::ParameterProblem(problem) => {
            header.kind = icmpv4_kind::PARAMETER_PROBLEM;
            if let ParameterProblemHeader::PointerIndicatesError(pointer) = problem {
                header.pointer = *pointer;
            }
        }
        Icmpv4Type::TimestampRequest(message) => {
            set_timestamp(icmpv4_kind::TIMESTAMP_REQUEST, message, header)
        }
        Icmpv4Type::TimestampReply(message) => {
            set_timestamp(icmpv4_kind::TIMESTAMP_REPLY, message, header)
        }
    }
}

/// Sets `read` to the header of a message, and to the place and the length of its payload.
fn set_packet(slice: &Icmpv4Slice<'_>, read: &mut EtherparseIcmpv4Packet)
    requires { HasWholeHeader slice.now }
    ensures { read.new ≡ packet_of slice.now }
{
    let payload_len = slice.payload().len();
    *read = EtherparseIcmpv4Packet {
        header: EtherparseIcmpv4Header {
            checksum: slice.checksum(),
            type_u8: slice.type_u8(),
            code_u8: slice.code_u8(),
            bytes4to7: slice.bytes5to8(),
            ..NONE
        },
        payload_offset: slice.slice().len() - payload_len,
        payload_len,
    };
    set_message(&slice.icmp_type(), &mut read.header);
}

/// Reads an ICMPv4 message, which consists of all passed bytes (RFC 792).
///
/// # Errors
///
/// The status is `OK` or `LENGTH`. It is `LENGTH` if there are fewer than 8 bytes. It is also `LENGTH` if a timestamp message or reply with
/// code 0 does not have exactly 20 bytes.
#[unsafe(no_mangle)]
pub extern "C" fn etherparse_icmpv4_packet_read(
    bytes: &[u8],
    read: &mut EtherparseIcmpv4Packet,
    error: ErrorPlace,
) -> Answer
    ensures status { result.status ≡ status_of (refusal bytes.now) }
    ensures error { Leaves error result (unwrap_or (refusal bytes.now) error.before) }
    ensures read { read.new ≡ unless_refused (refusal bytes.now) (packet_of bytes.now) read.old }
{
    match Icmpv4Slice::from_slice(bytes) {
        Ok(slice) => {
            set_packet(&slice, read);
            accept(error)
        }
        Err(refused) => refuse(error, of_len(&refused)),
    }
}

/// Returns the meaning of this code of a destination unreachable message, or `None` if the code is unknown.
fn dest_unreachable(code_u8: u8, next_hop_mtu: u16) -> Option<DestUnreachableHeader>
    ensures { result ≡ listed dest_unreachable_formats code_u8 (specs.with_next_hop_mtu next_hop_mtu) }
{
    DestUnreachableHeader::from_values(code_u8, next_hop_mtu)
}

/// Returns the meaning of this code of a parameter problem message, or `None` if the code is unknown.
fn parameter_problem(code_u8: u8, pointer: u8) -> Option<ParameterProblemHeader>
    ensures { result ≡ listed parameter_problem_formats code_u8 (specs.with_pointer pointer) }
{
    ParameterProblemHeader::from_values(code_u8, pointer)
}

/// Returns the identifier and the sequence number of an echo message.
fn echo_of(fields: &EtherparseIcmpv4Header) -> IcmpEchoHeader
    ensures { result ≡ specs.echo_in fields.now }
{
    IcmpEchoHeader {
        id: fields.id,
        seq: fields.sequence_number,
    }
}

/// Returns the identifier, the sequence number and the three times of a timestamp message.
fn timestamp_of(fields: &EtherparseIcmpv4Header) -> TimestampMessage
    ensures { result ≡ specs.timestamp_in fields.now }
{
    TimestampMessage {
        id: fields.id,
        seq: fields.sequence_number,
        originate_timestamp: fields.originate_timestamp,
        receive_timestamp: fields.receive_timestamp,
        transmit_timestamp: fields.transmit_timestamp,
    }
}

/// Returns the message with these fields. It is `None` if no kind has this number, or if the kind does not have this code.
pub(crate) fn message_of(fields: &EtherparseIcmpv4Header) -> Option<Icmpv4Type>
    ensures { result ≡ message_in fields.now }
{
    match fields.kind {
        icmpv4_kind::UNKNOWN => Some(Icmpv4Type::Unknown {
            type_u8: fields.type_u8,
            code_u8: fields.code_u8,
            bytes5to8: fields.bytes4to7,
        }),
        icmpv4_kind::ECHO_REPLY => Some(Icmpv4Type::EchoReply(echo_of(fields))),
        icmpv4_kind::DESTINATION_UNREACHABLE => {
            match dest_unreachable(fields.code_u8, fields.next_hop_mtu) {
                Some(header) => Some(Icmpv4Type::DestinationUnreachable(header)),
                None => None,
            }
        }
        icmpv4_kind::REDIRECT => match RedirectCode::from_u8(fields.code_u8) {
            Some(code) => Some(Icmpv4Type::Redirect(RedirectHeader {
                code,
                gateway_internet_address: fields.bytes4to7,
            })),
            None => None,
        },
        icmpv4_kind::ECHO_REQUEST => Some(Icmpv4Type::EchoRequest(echo_of(fields))),
        icmpv4_kind::TIME_EXCEEDED => match TimeExceededCode::from_u8(fields.code_u8) {
            Some(code) => Some(Icmpv4Type::TimeExceeded(code)),
            None => None,
        },
        icmpv4_kind::PARAMETER_PROBLEM => match parameter_problem(fields.code_u8, fields.pointer) {
            Some(header) => Some(Icmpv4Type::ParameterProblem(header)),
            None => None,
        },
        icmpv4_kind::TIMESTAMP_REQUEST => Some(Icmpv4Type::TimestampRequest(timestamp_of(fields))),
        icmpv4_kind::TIMESTAMP_REPLY => Some(Icmpv4Type::TimestampReply(timestamp_of(fields))),
        _ => None,
    }
}

/// Writes a header to `buffer`, and its length to `written` (RFC 792). The kind determines the type. The call writes `code_u8` if the kind
/// has several codes, and code 0 otherwise. For a redirect it also writes `bytes4to7`. For kind 0 it writes `type_u8`, `code_u8` and
/// `bytes4to7`.
///
/// # Errors
///
/// The status is `OK`, or the first of these that applies:
/// - `MESSAGE_UNKNOWN` if no kind has this number, or if the kind has several codes and `code_u8` is none of them.
/// - `BUFFER_TOO_SMALL` if the buffer is shorter than the header.
#[unsafe(no_mangle)]
pub extern "C" fn etherparse_icmpv4_header_write(
    fields: &EtherparseIcmpv4Header,
    buffer: &mut [u8],
    written: &mut usize,
    error: ErrorPlace,
) -> Answer
    ensures status { result.status ≡ status_of (write_refusal fields.now.checksum (message_in fields.now) (length buffer.old)) }
    ensures error { Leaves error result (unwrap_or (write_refusal fields.now.checksum (message_in fields.now) (length buffer.old)) error.before) }
    ensures buffer { buffer.new ≡ unless_refused (write_refusal fields.now.checksum (message_in fields.now) (length buffer.old))
        (at_front (header_bytes fields.now.checksum (message_in fields.now)) buffer.old) buffer.old }
    ensures written { written.new ≡ unless_refused (write_refusal fields.now.checksum (message_in fields.now) (length buffer.old))
        (length (header_bytes fields.now.checksum (message_in fields.now))) written.old }
    // The written header is read back, whatever bytes of the buffer follow it. If a call accepts the header and these bytes as a message,
    // the message has the written header.
    ensures reads_back { write_refusal fields.now.checksum (message_in fields.now) (length buffer.old) ≡ None
        → (len : ℕ) → written.new ≤ len → len ≤ length buffer.new → ReadsBack fields.now.checksum (message_in fields.now) (take len buffer.new) }
    ensures same { write_refusal fields.now.checksum (message_in fields.now) (length buffer.old) ≡ None
        → (len : ℕ) → written.new ≤ len → len ≤ length buffer.new → refusal (take len buffer.new) ≡ None
        → IsSameHeader fields.now (packet_of (take len buffer.new)).header }
{
    match message_of(fields) {
        Some(icmp_type) => {
            let header = Icmpv4Header {
                icmp_type,
                checksum: fields.checksum,
            };
            write(&header.to_bytes(), buffer, written, error)
        }
        None => refuse(error, of_status(status::MESSAGE_UNKNOWN)),
    }
}

/// Computes the checksum of a message. The checksum in the message is ignored.
fn packet_checksum(packet: &Icmpv4Slice<'_>) -> u16
    requires { HasWholeHeader packet.now }
    ensures sum { result ≡ checksum_of (total (with_checksum 2 packet.now 0)) }
    ensures valid { IsValidIcmpv4 (with_checksum 2 packet.now result) }
{
    // As an `Unknown` message, a header of any type is written with exactly the bytes that were read.
    let message = Icmpv4Type::Unknown {
        type_u8: packet.type_u8(),
        code_u8: packet.code_u8(),
        bytes5to8: packet.bytes5to8(),
    };
    message.calc_checksum(&packet.slice()[Icmpv4Header::MIN_LEN..])
}

/// Computes the checksum of the message that consists of these bytes. The checksum in the message is ignored.
fn checksum_of_packet(bytes: &[u8]) -> Result<u16, EtherparseError>
    ensures refused { RefusesExactly result (refusal bytes.now) }
    ensures header { IfOk result (λ _. 8 ≤ length bytes.now) }
    ensures sum { IfOk result (λ checksum. checksum ≡ checksum_of (total (with_checksum 2 bytes.now 0))) }
    ensures valid { IfOk result (λ checksum. IsValidIcmpv4 (with_checksum 2 bytes.now checksum)) }
    ensures passes { IfOk result (λ checksum. Answers (TestTells (with_checksum 2 bytes.now checksum)) numbers.status_ok) }
{
    match Icmpv4Slice::from_slice(bytes) {
        Ok(slice) => Ok(packet_checksum(&slice)),
        Err(refused) => Err(of_len(&refused)),
    }
}

/// Computes the right checksum of an ICMPv4 message, which consists of all passed bytes (RFC 792). The call ignores the checksum in the
/// message.
///
/// # Errors
///
/// The status is `OK` or `LENGTH`. It is `LENGTH` if there are fewer than 8 bytes. It is also `LENGTH` if a timestamp message or reply with
/// code 0 does not have exactly 20 bytes.
#[unsafe(no_mangle)]
pub extern "C" fn etherparse_icmpv4_checksum(
    bytes: &[u8],
    checksum: &mut u16,
    error: ErrorPlace,
) -> Answer
    ensures status { result.status ≡ status_of (refusal bytes.now) }
    ensures error { Leaves error result (unwrap_or (refusal bytes.now) error.before) }
    ensures checksum { checksum.new ≡ unless_refused (refusal bytes.now) (checksum_of (total (with_checksum 2 bytes.now 0))) checksum.old }
    // With this checksum the message is valid.
    ensures built { refusal bytes.now ≡ None → IsValidIcmpv4 (with_checksum 2 bytes.now checksum.new) }
    // With this checksum the test of the message returns `OK`.
    ensures passes { refusal bytes.now ≡ None → Answers (TestTells (with_checksum 2 bytes.now checksum.new)) numbers.status_ok }
{
    match checksum_of_packet(bytes) {
        Ok(computed) => {
            *checksum = computed;
            accept(error)
        }
        Err(refused) => refuse(error, refused),
    }
}

/// Stores the right checksum in bytes 2 and 3, as `etherparse_icmpv4_checksum` computes it. No other byte changes.
///
/// # Errors
///
/// The status is `OK` or `LENGTH`. It is `LENGTH` if there are fewer than 8 bytes. It is also `LENGTH` if a timestamp message or reply with
/// code 0 does not have exactly 20 bytes.
#[unsafe(no_mangle)]
pub extern "C" fn etherparse_icmpv4_checksum_store(bytes: &mut [u8], error: ErrorPlace) -> Answer
    ensures status { result.status ≡ status_of (refusal bytes.old) }
    ensures error { Leaves error result (unwrap_or (refusal bytes.old) error.before) }
    ensures stored { bytes.new ≡ unless_refused (refusal bytes.old)
        (with_checksum 2 bytes.old (checksum_of (total (with_checksum 2 bytes.old 0)))) bytes.old }
    // After the call the test of the message returns `OK`.
    ensures passes { refusal bytes.old ≡ None → Answers (TestTells bytes.new) numbers.status_ok }
{
    match checksum_of_packet(bytes) {
        Ok(checksum) => {
            store(bytes, Icmpv4Header::CHECKSUM_AT, checksum);
            accept(error)
        }
        Err(refused) => refuse(error, refused),
    }
}

/// Tests the checksum of an ICMPv4 message, which consists of all passed bytes (RFC 792).
///
/// # Errors
///
/// The status is `OK` if the checksum is right, otherwise the first of these that applies:
/// - `LENGTH` if there are fewer than 8 bytes, or if a timestamp message or reply with code 0 does not have exactly 20 bytes.
/// - `CHECKSUM_WRONG` if the checksum is wrong.
#[unsafe(no_mangle)]
pub extern "C" fn etherparse_icmpv4_checksum_test(bytes: &[u8], error: ErrorPlace) -> Answer
    ensures status { TestTells bytes.now result.status }
    ensures error { Leaves error result (test_error (refusal bytes.now) result.status error.before) }
{
    match Icmpv4Slice::from_slice(bytes) {
        Ok(slice) => verdict(slice.is_checksum_valid(), error),
        Err(refused) => refuse(error, of_len(&refused)),
    }
}
