ghost use Rattle.std.specs.Prelude.{◌≡◌, ◌+◌, ◌≤◌, ℕ, IfOk, IsOk, None, length, take, unwrap_or};
ghost use Rattle.word_sum.specs.Checksum.{checksum_of, total};
ghost use Rattle.net_base.specs.Refusals.{RefusesExactly};
ghost use Rattle.icmp_part.specs.Icmpv6Format.{HasPacketLength, pseudo_header};
ghost use Rattle.icmp_part.specs.Icmpv6Validity.{IsValidIcmpv6};
ghost use Rattle.etherparse_transport_c.specs.Checksums.{with_checksum};
ghost use Rattle.etherparse_transport_c.specs.Errors.{Answers, Leaves, at_front, status_of, test_error, unless_refused};
ghost use Rattle.etherparse_transport_c.specs.Icmpv6 as specs;
ghost use Rattle.etherparse_transport_c.specs.Icmpv6.{IsSameHeader, ReadsBack, TestTells, header_bytes, message_fields, message_in, packet_of, refusal, write_refusal};
ghost use Rattle.etherparse_transport_c.specs.Numbers as numbers;

use crate::answer::{Answer, ErrorPlace, accept, refuse};
use crate::error::{EtherparseError, of_len, of_status, of_value};
use crate::store::store;
use crate::verdict::verdict;
use crate::write::write;
use crate::{icmpv6_flag, icmpv6_kind, status};
use etherparse_transport::err::ValueTooBigError;
use etherparse_transport::icmpv6::{
    DestUnreachableCode, NeighborAdvertisementHeader, ParameterProblemCode, ParameterProblemHeader,
    RouterAdvertisementHeader, TimeExceededCode,
};
use etherparse_transport::{IcmpEchoHeader, Icmpv6Header, Icmpv6Slice, Icmpv6Type};

/// An ICMPv6 header (RFC 4443, RFC 4861). A field that this kind of message does not have is 0.
#[repr(C)]
#[derive(Clone, Copy)]
pub struct EtherparseIcmpv6Header {
    /// The kind of the message. The module `icmpv6_kind` lists the numbers.
    pub kind: u32,
    /// In a packet too big message: the MTU of the next link, in bytes (RFC 4443, section 3.2).
    pub mtu: u32,
    /// In a parameter problem: the place of the error in the original packet, in bytes (RFC 4443, section 3.4).
    pub pointer: u32,
    /// The checksum: bytes 2 and 3 of the message.
    pub checksum: u16,
    /// In an echo request or reply: the identifier.
    pub id: u16,
    /// In an echo request or reply: the sequence number.
    pub sequence_number: u16,
    /// In a router advertisement: the time for which the router can be used as a default router, in seconds. If the time is 0, the router
    /// is not a default router (RFC 4861, section 4.2).
    pub router_lifetime: u16,
    /// In a router advertisement: the hop limit that the router proposes, or 0 if it proposes no hop limit (RFC 4861, section 4.2).
    pub cur_hop_limit: u8,
    /// In a router or neighbor advertisement: the flags, each at its bit in the packet. The module `icmpv6_flag` lists them.
    pub flags: u8,
    /// The type: byte 0 of the message. A call that writes a header uses this field only for kind 0.
    pub type_u8: u8,
    /// The code: byte 1 of the message. A call that writes a header uses this field only for kind 0 and for kinds with several codes.
    pub code_u8: u8,
    /// The four bytes after the checksum. A call that reads a message sets them for every kind. A call that writes a header uses them only
    /// for kind 0.
    pub bytes4to7: [u8; 4],
}

/// An ICMPv6 message that was read (RFC 4443, section 2.1).
#[repr(C)]
#[derive(Clone, Copy)]
pub struct EtherparseIcmpv6Packet {
    /// The header of the message.
    pub header: EtherparseIcmpv6Header,
    /// The place at which the payload begins, in bytes from the first byte that was read. It is 8.
    pub payload_offset: usize,
    /// The length of the payload, in bytes.
    pub payload_len: usize,
}

/// A header in which every field is 0.
const NONE: EtherparseIcmpv6Header = EtherparseIcmpv6Header {
    kind: icmpv6_kind::UNKNOWN,
    mtu: 0,
    pointer: 0,
    checksum: 0,
    id: 0,
    sequence_number: 0,
    router_lifetime: 0,
    cur_hop_limit: 0,
    flags: 0,
    type_u8: 0,
    code_u8: 0,
    bytes4to7: [0; 4],
};

/// Sets the fields of an echo request or reply.
fn set_echo(kind: u32, echo: &IcmpEchoHeader, header: &mut EtherparseIcmpv6Header)
    ensures { header.new ≡ record header.old { kind = kind; id = echo.now.id; sequence_number = echo.now.seq } }
{
    header.kind = kind;
    header.id = echo.id;
    header.sequence_number = echo.seq;
}

/// Returns the flags of a router advertisement as a byte.
fn router_flags(header: &RouterAdvertisementHeader) -> u8
    ensures { result ≡ specs.router_flags header.now }
{
    u8::from(header.managed_address_config) * icmpv6_flag::ROUTER_MANAGED
        + u8::from(header.other_config) * icmpv6_flag::ROUTER_OTHER_CONFIG
}

/// Returns the flags of a neighbor advertisement as a byte.
fn neighbor_flags(header: &NeighborAdvertisementHeader) -> u8
    ensures { result ≡ specs.neighbor_flags header.now }
{
    u8::from(header.router) * icmpv6_flag::NEIGHBOR_ROUTER
        + u8::from(header.solicited) * icmpv6_flag::NEIGHBOR_SOLICITED
        + u8::from(header.override_flag) * icmpv6_flag::NEIGHBOR_OVERRIDE
}

/// Sets the kind of a message and the fields of this kind. Before the call the kind and these fields are 0.
fn set_message(icmp_type: &Icmpv6Type, header: &mut EtherparseIcmpv6Header)
    requires { header.old ≡ specs.with_common header.old specs.nothing }
    ensures { header.new ≡ specs.with_common header.old (message_fields icmp_type.now) }
{
    match icmp_type {
        Icmpv6Type::Unknown { .. } => {}
        Icmpv6Type::DestinationUnreachable(_) => header.kind = icmpv6_kind::DESTINATION_UNREACHABLE,
        Icmpv6Type::PacketTooBig { mtu } => {
            header.kind = icmpv6_kind::PACKET_TOO_BIG;
            header.mtu = *mtu;
        }
        Icmpv6Type::TimeExceeded(_) => header.kind = icmpv6_kind::TIME_EXCEEDED,
        Icmpv6Type::ParameterProblem(problem) => {
            header.kind = icmpv6_kind::PARAMETER_PROBLEM;
            header.pointer = problem.pointer;
        }
        Icmpv6Type::EchoRequest(echo) => set_echo(icmpv6_kind::ECHO_REQUEST, echo, header),
        Icmpv6Type::EchoReply(echo) => set_echo(icmpv6_kind::ECHO_REPLY, echo, header),
        Icmpv6Type::RouterSolicitation => header.kind = icmpv6_kind::ROUTER_SOLICITATION,
        Icmpv6Type::RouterAdvertisement(advertisement) => {
            header.kind = icmpv6_kind::ROUTER_ADVERTISEMENT;
            header.cur_hop_limit = advertisement.cur_hop_limit;
            header.flags = router_flags(advertisement);
            header.router_lifetime = advertisement.router_lifetime;
        }
        Icmpv6Type::NeighborSolicitation => header.kind = icmpv6_kind::NEIGHBOR_SOLICITATION,
        Icmpv6Type::NeighborAdvertisement(advertisement) => {
            header.kind = icmpv6_kind::NEIGHBOR_ADVERTISEMENT;
            header.flags = neighbor_flags(advertisement);
        }
        Icmpv6Type::Redirect => header.kind = icmpv6_kind::REDIRECT,
    }
}

/// Sets `read` to the header of a message, and to the place and the length of its payload.
fn set_packet(slice: &Icmpv6Slice<'_>, read: &mut EtherparseIcmpv6Packet)
    ensures { read.new ≡ packet_of slice.now }
{
    *read = EtherparseIcmpv6Packet {
        header: EtherparseIcmpv6Header {
            checksum: slice.checksum(),
            type_u8: slice.type_u8(),
            code_u8: slice.code_u8(),
            bytes4to7: slice.bytes5to8(),
            ..NONE
        },
        payload_offset: Icmpv6Header::MIN_LEN,
        payload_len: slice.slice().len() - Icmpv6Header::MIN_LEN,
    };
    set_message(&slice.icmp_type(), &mut read.header);
}

/// Reads an ICMPv6 message, which consists of all passed bytes (RFC 4443, section 2.1).
///
/// # Errors
///
/// The status is `OK`, or `LENGTH` if there are fewer than 8 bytes or more than 4,294,967,295 bytes.
#[unsafe(no_mangle)]
pub extern "C" fn etherparse_icmpv6_packet_read(
    bytes: &[u8],
    read: &mut EtherparseIcmpv6Packet,
    error: ErrorPlace,
) -> Answer
    ensures status { result.status ≡ status_of (refusal bytes.now) }
    ensures error { Leaves error result (unwrap_or (refusal bytes.now) error.before) }
    ensures read { read.new ≡ unless_refused (refusal bytes.now) (packet_of bytes.now) read.old }
{
    match Icmpv6Slice::from_slice(bytes) {
        Ok(slice) => {
            set_packet(&slice, read);
            accept(error)
        }
        Err(refused) => refuse(error, of_len(&refused)),
    }
}

/// Returns the identifier and the sequence number of an echo message.
fn echo_of(fields: &EtherparseIcmpv6Header) -> IcmpEchoHeader
    ensures { result ≡ specs.echo_in fields.now }
{
    IcmpEchoHeader {
        id: fields.id,
        seq: fields.sequence_number,
    }
}

/// Returns whether the flag with this bit is set.
fn has(flags: u8, bit: u8) -> bool
    ensures { result ≡ specs.is_set flags bit }
{
    flags & bit != 0
}

/// Returns the message with these fields. It is `None` if no kind has this number, or if the kind does not have this code.
pub(crate) fn message_of(fields: &EtherparseIcmpv6Header) -> Option<Icmpv6Type>
    ensures { result ≡ message_in fields.now }
{
    match fields.kind {
        icmpv6_kind::UNKNOWN => Some(Icmpv6Type::Unknown {
            type_u8: fields.type_u8,
            code_u8: fields.code_u8,
            bytes5to8: fields.bytes4to7,
        }),
        icmpv6_kind::DESTINATION_UNREACHABLE => match DestUnreachableCode::from_u8(fields.code_u8) {
            Some(code) => Some(Icmpv6Type::DestinationUnreachable(code)),
            None => None,
        },
        icmpv6_kind::PACKET_TOO_BIG => Some(Icmpv6Type::PacketTooBig { mtu: fields.mtu }),
        icmpv6_kind::TIME_EXCEEDED => match TimeExceededCode::from_u8(fields.code_u8) {
            Some(code) => Some(Icmpv6Type::TimeExceeded(code)),
            None => None,
        },
        icmpv6_kind::PARAMETER_PROBLEM => match ParameterProblemCode::from_u8(fields.code_u8) {
            Some(code) => Some(Icmpv6Type::ParameterProblem(ParameterProblemHeader {
                code,
                pointer: fields.pointer,
            })),
            None => None,
        },
        icmpv6_kind::ECHO_REQUEST => Some(Icmpv6Type::EchoRequest(echo_of(fields))),
        icmpv6_kind::ECHO_REPLY => Some(Icmpv6Type::EchoReply(echo_of(fields))),
        icmpv6_kind::ROUTER_SOLICITATION => Some(Icmpv6Type::RouterSolicitation),
        icmpv6_kind::ROUTER_ADVERTISEMENT => Some(Icmpv6Type::RouterAdvertisement(
            RouterAdvertisementHeader {
                cur_hop_limit: fields.cur_hop_limit,
                managed_address_config: has(fields.flags, icmpv6_flag::ROUTER_MANAGED),
                other_config: has(fields.flags, icmpv6_flag::ROUTER_OTHER_CONFIG),
                router_lifetime: fields.router_lifetime,
            },
        )),
        icmpv6_kind::NEIGHBOR_SOLICITATION => Some(Icmpv6Type::NeighborSolicitation),
        icmpv6_kind::NEIGHBOR_ADVERTISEMENT => Some(Icmpv6Type::NeighborAdvertisement(
            NeighborAdvertisementHeader {
                router: has(fields.flags, icmpv6_flag::NEIGHBOR_ROUTER),
                solicited: has(fields.flags, icmpv6_flag::NEIGHBOR_SOLICITED),
                override_flag: has(fields.flags, icmpv6_flag::NEIGHBOR_OVERRIDE),
            },
        )),
        icmpv6_kind::REDIRECT => Some(Icmpv6Type::Redirect),
        _ => None,
    }
}

/// Writes a header to `buffer`, and its length to `written` (RFC 4443, section 2.1). The kind determines the type. The call writes
/// `code_u8` if the kind has several codes, and code 0 otherwise. For kind 0 it writes `type_u8`, `code_u8` and `bytes4to7`.
///
/// # Errors
///
/// The status is `OK`, or the first of these that applies:
/// - `MESSAGE_UNKNOWN` if no kind has this number, or if the kind has several codes and `code_u8` is none of them.
/// - `BUFFER_TOO_SMALL` if the buffer is shorter than 8 bytes.
#[unsafe(no_mangle)]
pub extern "C" fn etherparse_icmpv6_header_write(
    fields: &EtherparseIcmpv6Header,
    buffer: &mut [u8],
    written: &mut usize,
    error: ErrorPlace,
) -> Answer
    ensures status { result.status ≡ status_of (write_refusal fields.now.checksum (message_in fields.now) (length buffer.old)) }
    ensures error { Leaves error result (unwrap_or (write_refusal fields.now.checksum (message_in fields.now) (length buffer.old)) error.before) }
    ensures buffer { buffer.new ≡ unless_refused (write_refusal fields.now.checksum (message_in fields.now) (length buffer.old))
        (at_front (header_bytes fields.now.checksum (message_in fields.now)) buffer.old) buffer.old }
    ensures written { written.new ≡ unless_refused (write_refusal fields.now.checksum (message_in fields.now) (length buffer.old))
        (length (header_bytes fields.now.checksum (message_in fields.now))) written.old }
    // The written header is read back, whatever bytes of the buffer follow it. If a call accepts the header and these bytes as a message,
    // the message has the written header.
    ensures reads_back { write_refusal fields.now.checksum (message_in fields.now) (length buffer.old) ≡ None
        → (len : ℕ) → written.new ≤ len → len ≤ length buffer.new → ReadsBack fields.now.checksum (message_in fields.now) (take len buffer.new) }
    ensures same { write_refusal fields.now.checksum (message_in fields.now) (length buffer.old) ≡ None
        → (len : ℕ) → written.new ≤ len → len ≤ length buffer.new → refusal (take len buffer.new) ≡ None
        → IsSameHeader fields.now (packet_of (take len buffer.new)).header }
{
    match message_of(fields) {
        Some(icmp_type) => {
            let header = Icmpv6Header {
                icmp_type,
                checksum: fields.checksum,
            };
            write(&header.to_bytes(), buffer, written, error)
        }
        None => refuse(error, of_status(status::MESSAGE_UNKNOWN)),
    }
}

/// Computes the checksum of a message. The checksum in the message is ignored. The result is never an error, since a message that was read
/// is not too long.
fn packet_checksum(
    packet: &Icmpv6Slice<'_>,
    source: [u8; 16],
    destination: [u8; 16],
) -> Result<u16, ValueTooBigError<usize>>
    requires { HasPacketLength packet.now }
    ensures accepted { IsOk result }
    ensures sum { IfOk result (λ checksum. checksum ≡ checksum_of
        (total (pseudo_header source destination (length packet.now)) + total (with_checksum 2 packet.now 0))) }
    ensures valid { IfOk result (λ checksum. IsValidIcmpv6 source destination (with_checksum 2 packet.now checksum)) }
{
    // As an `Unknown` message, a header of any type is written with exactly the bytes that were read.
    let message = Icmpv6Type::Unknown {
        type_u8: packet.type_u8(),
        code_u8: packet.code_u8(),
        bytes5to8: packet.bytes5to8(),
    };
    let payload = &packet.slice()[Icmpv6Header::MIN_LEN..];
    message.calc_checksum(source, destination, payload)
}

/// Computes the checksum of the message that consists of these bytes. The checksum in the message is ignored.
fn checksum_of_packet(
    bytes: &[u8],
    source: &[u8; 16],
    destination: &[u8; 16],
) -> Result<u16, EtherparseError>
    ensures refused { RefusesExactly result (refusal bytes.now) }
    ensures header { IfOk result (λ _. 8 ≤ length bytes.now) }
    ensures sum { IfOk result (λ checksum. checksum ≡ checksum_of
        (total (pseudo_header source.now destination.now (length bytes.now)) + total (with_checksum 2 bytes.now 0))) }
    ensures valid { IfOk result (λ checksum. IsValidIcmpv6 source.now destination.now (with_checksum 2 bytes.now checksum)) }
    ensures passes { IfOk result (λ checksum. Answers (TestTells source.now destination.now (with_checksum 2 bytes.now checksum)) numbers.status_ok) }
{
    match Icmpv6Slice::from_slice(bytes) {
        Ok(slice) => match packet_checksum(&slice, *source, *destination) {
            Ok(computed) => Ok(computed),
            Err(refused) => Err(of_value(&refused)),
        },
        Err(refused) => Err(of_len(&refused)),
    }
}

/// Computes the right checksum of an ICMPv6 message, which consists of all passed bytes (RFC 4443, section 2.3). The call ignores the
/// checksum in the message.
///
/// # Errors
///
/// The status is `OK`, or `LENGTH` if there are fewer than 8 bytes or more than 4,294,967,295 bytes.
#[unsafe(no_mangle)]
pub extern "C" fn etherparse_icmpv6_checksum(
    bytes: &[u8],
    source: &[u8; 16],
    destination: &[u8; 16],
    checksum: &mut u16,
    error: ErrorPlace,
) -> Answer
    ensures status { result.status ≡ status_of (refusal bytes.now) }
    ensures error { Leaves error result (unwrap_or (refusal bytes.now) error.before) }
    ensures checksum { checksum.new ≡ unless_refused (refusal bytes.now)
        (checksum_of (total (pseudo_header source.now destination.now (length bytes.now)) + total (with_checksum 2 bytes.now 0))) checksum.old }
    // With this checksum the message is valid.
    ensures built { refusal bytes.now ≡ None → IsValidIcmpv6 source.now destination.now (with_checksum 2 bytes.now checksum.new) }
    // With this checksum the test of the message returns `OK`.
    ensures passes { refusal bytes.now ≡ None → Answers (TestTells source.now destination.now (with_checksum 2 bytes.now checksum.new)) numbers.status_ok }
{
    match checksum_of_packet(bytes, source, destination) {
        Ok(computed) => {
            *checksum = computed;
            accept(error)
        }
        Err(refused) => refuse(error, refused),
    }
}

/// Stores the right checksum in bytes 2 and 3, as `etherparse_icmpv6_checksum` computes it. No other byte changes.
///
/// # Errors
///
/// The status is `OK`, or `LENGTH` if there are fewer than 8 bytes or more than 4,294,967,295 bytes.
#[unsafe(no_mangle)]
pub extern "C" fn etherparse_icmpv6_checksum_store(
    bytes: &mut [u8],
    source: &[u8; 16],
    destination: &[u8; 16],
    error: ErrorPlace,
) -> Answer
    ensures status { result.status ≡ status_of (refusal bytes.old) }
    ensures error { Leaves error result (unwrap_or (refusal bytes.old) error.before) }
    ensures stored { bytes.new ≡ unless_refused (refusal bytes.old) (with_checksum 2 bytes.old (checksum_of
        (total (pseudo_header source.now destination.now (length bytes.old)) + total (with_checksum 2 bytes.old 0)))) bytes.old }
    // After the call the test of the message returns `OK`.
    ensures passes { refusal bytes.old ≡ None → Answers (TestTells source.now destination.now bytes.new) numbers.status_ok }
{
    match checksum_of_packet(bytes, source, destination) {
        Ok(checksum) => {
            store(bytes, Icmpv6Header::CHECKSUM_AT, checksum);
            accept(error)
        }
        Err(refused) => refuse(error, refused),
    }
}

/// Tests the checksum of an ICMPv6 message, which consists of all passed bytes (RFC 4443, section 2.3).
///
/// # Errors
///
/// The status is `OK` if the checksum is right, otherwise the first of these that applies:
/// - `LENGTH` if there are fewer than 8 bytes or more than 4,294,967,295 bytes.
/// - `CHECKSUM_WRONG` if the checksum is wrong.
#[unsafe(no_mangle)]
pub extern "C" fn etherparse_icmpv6_checksum_test(
    bytes: &[u8],
    source: &[u8; 16],
    destination: &[u8; 16],
    error: ErrorPlace,
) -> Answer
    ensures status { TestTells source.now destination.now bytes.now result.status }
    ensures error { Leaves error result (test_error (refusal bytes.now) result.status error.before) }
{
    match Icmpv6Slice::from_slice(bytes) {
        Ok(slice) => verdict(slice.is_checksum_valid(*source, *destination), error),
        Err(refused) => refuse(error, of_len(&refused)),
    }
}
