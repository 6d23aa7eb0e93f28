//! The messages of ICMPv6 (RFC 4443, RFC 4861), and those about multicast listeners (RFC 2710, RFC 3810).

ghost use Rattle.std.specs.Prelude.{◌≡◌, OnOk};
ghost use Rattle.std.specs.Io.KnownBytes.{Appends};
ghost use Rattle.std.specs.Option.{option_map};
ghost use Rattle.icmp_part.specs.declared.icmpv6_type.Icmpv6Type.TheVariants as types;
ghost use Rattle.capture_words.specs.Icmpv6Text as specs;
ghost use Rattle.capture_words.specs.Icmpv6Text.{message_text};

use crate::flags::write_flags;
use crate::icmp::{write_echo, write_field, write_named_message, write_unknown};
use crate::icmpv6_fields::{
    Icmpv6Fields, LISTENER_DONE, LISTENER_QUERY, LISTENER_REPORT, LISTENER_REPORT_2, write_fields,
};
use icmp_part::icmpv6::{
    DestUnreachableCode, NeighborAdvertisementHeader, ParameterProblemCode, ParameterProblemHeader,
    RouterAdvertisementHeader, TimeExceededCode,
};
use icmp_part::{Icmpv6Slice, Icmpv6Type};
use std::io;
use std::io::Write;

/// Writes a message with all its fields: its name, its code, the fields in its first eight bytes, and those after them.
///
/// # Errors
///
/// The error of the writer, if writing fails.
pub fn write_packet<W: Write>(output: &mut W, message: &Icmpv6Slice) -> io::Result<()>
    ensures { OnOk result (Appends (W.contents output.old) (W.contents output.new) (specs.packet_text message.now)) }
{
    write_message(output, &message.icmp_type())?;
    write_fields(output, &Icmpv6Fields::of(message))
}

/// Writes the name of a message, its code, and the fields in its first eight bytes.
///
/// # Errors
///
/// The error of the writer, if writing fails.
pub fn write_message<W: Write>(output: &mut W, message: &Icmpv6Type) -> io::Result<()>
    ensures { OnOk result (Appends (W.contents output.old) (W.contents output.new) (message_text message.now)) }
{
    match message {
        Icmpv6Type::Unknown {
            type_u8,
            code_u8,
            bytes5to8,
        } => write_listener_or_unknown(output, *type_u8, *code_u8, bytes5to8),
        Icmpv6Type::DestinationUnreachable(code) => write_unreachable(output, *code),
        Icmpv6Type::PacketTooBig { mtu } => write!(output, "packet too big, code 0, MTU {mtu}"),
        Icmpv6Type::TimeExceeded(code) => write_time_exceeded(output, *code),
        Icmpv6Type::ParameterProblem(header) => write_problem(output, header),
        Icmpv6Type::EchoRequest(echo) => write_echo(output, "echo request", echo),
        Icmpv6Type::EchoReply(echo) => write_echo(output, "echo reply", echo),
        Icmpv6Type::RouterSolicitation => write!(output, "router solicitation, code 0"),
        Icmpv6Type::RouterAdvertisement(router) => write_router(output, router),
        Icmpv6Type::NeighborSolicitation => write!(output, "neighbor solicitation, code 0"),
        Icmpv6Type::NeighborAdvertisement(neighbor) => write_neighbor(output, neighbor),
        Icmpv6Type::Redirect => write!(output, "redirect, code 0"),
    }
}

/// Writes a message about multicast listeners, or a message that is not read.
fn write_listener_or_unknown<W: Write>(
    output: &mut W,
    type_u8: u8,
    code_u8: u8,
    bytes5to8: &[u8; 4],
) -> io::Result<()>
    ensures { OnOk result (Appends (W.contents output.old) (W.contents output.new)
        (message_text (types.Unknown type_u8 code_u8 bytes5to8.now))) }
{
    match listener_name(type_u8) {
        Some(name) => write_listener(output, name, type_u8, code_u8, bytes5to8),
        None => write_unknown(output, type_u8, code_u8, bytes5to8),
    }
}

/// Writes a message about multicast listeners with this name.
fn write_listener<W: Write>(
    output: &mut W,
    name: &str,
    type_u8: u8,
    code_u8: u8,
    bytes5to8: &[u8; 4],
) -> io::Result<()>
    ensures { OnOk result (Appends (W.contents output.old) (W.contents output.new)
        (specs.listener_text name.now type_u8 code_u8 bytes5to8.now)) }
{
    write!(output, "{name}, code {code_u8}")?;
    write_listener_number(output, type_u8, bytes5to8)
}

/// The name of a message about multicast listeners. `None` for any other type.
fn listener_name(type_u8: u8) -> Option<&'static str>
    ensures { option_map (λ name. name.now) result ≡ specs.listener_name type_u8 }
{
    match type_u8 {
        LISTENER_QUERY => Some("multicast listener query"),
        LISTENER_REPORT => Some("multicast listener report"),
        LISTENER_DONE => Some("multicast listener done"),
        LISTENER_REPORT_2 => Some("version 2 multicast listener report"),
        _ => None,
    }
}

/// Writes the maximum response code of a query, or the number of records of a version 2 report.
fn write_listener_number<W: Write>(
    output: &mut W,
    type_u8: u8,
    bytes5to8: &[u8; 4],
) -> io::Result<()>
    ensures { OnOk result (Appends (W.contents output.old) (W.contents output.new) (specs.listener_number type_u8 bytes5to8.now)) }
{
    let first = u16::from_be_bytes([bytes5to8[0], bytes5to8[1]]);
    let second = u16::from_be_bytes([bytes5to8[2], bytes5to8[3]]);
    match type_u8 {
        LISTENER_QUERY => write_field(output, "maximum response code", u32::from(first)),
        LISTENER_REPORT_2 => write_field(output, "records", u32::from(second)),
        _ => Ok(()),
    }
}

/// Writes a message about an undeliverable packet, and the reason.
fn write_unreachable<W: Write>(output: &mut W, code: DestUnreachableCode) -> io::Result<()>
    ensures { OnOk result (Appends (W.contents output.old) (W.contents output.new)
        (message_text (types.DestinationUnreachable code))) }
{
    write_named_message(
        output,
        "destination unreachable",
        code.code_u8(),
        unreachable_reason(code),
    )
}

/// Why a packet could not be delivered.
fn unreachable_reason(code: DestUnreachableCode) -> &'static str
    ensures { result.now ≡ specs.unreachable_reason code }
{
    match code {
        DestUnreachableCode::NoRoute => "no route",
        DestUnreachableCode::Prohibited => "prohibited",
        DestUnreachableCode::BeyondScope => "beyond the scope of the source",
        DestUnreachableCode::Address => "address",
        DestUnreachableCode::Port => "port",
        DestUnreachableCode::SourceAddressFailedPolicy => "source address failed the policy",
        DestUnreachableCode::RejectRoute => "reject route",
    }
}

/// Writes a message about an exceeded time, and which time was exceeded.
fn write_time_exceeded<W: Write>(output: &mut W, code: TimeExceededCode) -> io::Result<()>
    ensures { OnOk result (Appends (W.contents output.old) (W.contents output.new) (message_text (types.TimeExceeded code))) }
{
    write_named_message(output, "time exceeded", code.code_u8(), exceeded_time(code))
}

/// Which time was exceeded.
fn exceeded_time(code: TimeExceededCode) -> &'static str
    ensures { result.now ≡ specs.exceeded_time code }
{
    match code {
        TimeExceededCode::HopLimitExceeded => "hop limit",
        TimeExceededCode::FragmentReassemblyTimeExceeded => "fragment reassembly",
    }
}

/// Writes a message about a parameter problem: what is wrong with a packet, and the pointer to the error.
fn write_problem<W: Write>(output: &mut W, header: &ParameterProblemHeader) -> io::Result<()>
    ensures { OnOk result (Appends (W.contents output.old) (W.contents output.new)
        (message_text (types.ParameterProblem header.now))) }
{
    write_named_message(
        output,
        "parameter problem",
        header.code.code_u8(),
        problem_name(header.code),
    )?;
    write_field(output, "pointer", header.pointer)
}

/// What is wrong with a packet.
fn problem_name(code: ParameterProblemCode) -> &'static str
    ensures { result.now ≡ specs.problem_name code }
{
    match code {
        ParameterProblemCode::ErroneousHeaderField => "erroneous header field",
        ParameterProblemCode::UnrecognizedNextHeader => "unrecognized next header",
        ParameterProblemCode::UnrecognizedIpv6Option => "unrecognized IPv6 option",
        ParameterProblemCode::Ipv6FirstFragmentIncompleteHeaderChain => {
            "incomplete header chain in the first fragment"
        }
        ParameterProblemCode::SrUpperLayerHeaderError => "upper-layer header error",
        ParameterProblemCode::UnrecognizedNextHeaderByIntermediateNode => {
            "unrecognized next header by an intermediate node"
        }
        ParameterProblemCode::ExtensionHeaderTooBig => "extension header too big",
        ParameterProblemCode::ExtensionHeaderChainTooLong => "extension header chain too long",
        ParameterProblemCode::TooManyExtensionHeaders => "too many extension headers",
        ParameterProblemCode::TooManyOptionsInExtensionHeader => {
            "too many options in an extension header"
        }
        ParameterProblemCode::OptionTooBig => "option too big",
    }
}

/// Writes a router advertisement. The lifetime is in seconds.
fn write_router<W: Write>(output: &mut W, router: &RouterAdvertisementHeader) -> io::Result<()>
    ensures { OnOk result (Appends (W.contents output.old) (W.contents output.new) (specs.router_text router.now)) }
{
    let flags = [
        (router.managed_address_config, "managed"),
        (router.other_config, "other"),
    ];
    let (hop_limit, lifetime) = (router.cur_hop_limit, router.router_lifetime);
    write!(
        output,
        "router advertisement, code 0, current hop limit {hop_limit}, "
    )?;
    write_flags(output, &flags)?;
    write!(output, ", router lifetime {lifetime}")
}

/// Writes a neighbor advertisement.
fn write_neighbor<W: Write>(
    output: &mut W,
    neighbor: &NeighborAdvertisementHeader,
) -> io::Result<()>
    ensures { OnOk result (Appends (W.contents output.old) (W.contents output.new) (specs.neighbor_text neighbor.now)) }
{
    write!(output, "neighbor advertisement, code 0, ")?;
    let flags = [
        (neighbor.router, "router"),
        (neighbor.solicited, "solicited"),
        (neighbor.override_flag, "override"),
    ];
    write_flags(output, &flags)
}
