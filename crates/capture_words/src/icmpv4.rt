//! The messages of ICMPv4 (RFC 792).

ghost use Rattle.std.specs.Prelude.{◌≡◌, OnOk};
ghost use Rattle.std.specs.Io.KnownBytes.{Appends};
ghost use Rattle.icmp_part.specs.declared.icmpv4_type.Icmpv4Type.TheVariants as types;
ghost use Rattle.capture_words.specs.Icmpv4Text as specs;
ghost use Rattle.capture_words.specs.Icmpv4Text.{message_text};

use crate::icmp::{write_echo, write_named_message, write_optional_field, write_unknown};
use icmp_part::Icmpv4Type;
use icmp_part::icmpv4::{
    DestUnreachableHeader, ParameterProblemHeader, RedirectCode, RedirectHeader, TimeExceededCode,
    TimestampMessage,
};
use std::io;
use std::io::Write;
use std::net::Ipv4Addr;

/// Writes the name of a message, its code, and its fields.
///
/// # Errors
///
/// The error of the writer, if writing fails.
pub fn write_message<W: Write>(output: &mut W, message: &Icmpv4Type) -> io::Result<()>
    ensures { OnOk result (Appends (W.contents output.old) (W.contents output.new) (message_text message.now)) }
{
    match message {
        Icmpv4Type::Unknown {
            type_u8,
            code_u8,
            bytes5to8,
        } => write_unknown(output, *type_u8, *code_u8, bytes5to8),
        Icmpv4Type::EchoReply(echo) => write_echo(output, "echo reply", echo),
        Icmpv4Type::DestinationUnreachable(header) => write_unreachable(output, header),
        Icmpv4Type::Redirect(header) => write_redirect(output, header),
        Icmpv4Type::EchoRequest(echo) => write_echo(output, "echo request", echo),
        Icmpv4Type::TimeExceeded(code) => write_time_exceeded(output, *code),
        Icmpv4Type::ParameterProblem(header) => write_problem(output, header),
        Icmpv4Type::TimestampRequest(times) => write_timestamps(output, "timestamp", times),
        Icmpv4Type::TimestampReply(times) => write_timestamps(output, "timestamp reply", times),
    }
}

/// Writes a message about an undeliverable datagram, the reason, and the MTU of the next hop if the message contains it.
fn write_unreachable<W: Write>(output: &mut W, header: &DestUnreachableHeader) -> io::Result<()>
    ensures { OnOk result (Appends (W.contents output.old) (W.contents output.new)
        (message_text (types.DestinationUnreachable header.now))) }
{
    write_named_message(
        output,
        "destination unreachable",
        header.code_u8(),
        unreachable_reason(header),
    )?;
    write_optional_field(output, "next-hop MTU", mtu_of(header))
}

/// The MTU of the next hop, or `None` if the message does not report that fragmentation is needed.
fn mtu_of(header: &DestUnreachableHeader) -> Option<u32>
    ensures { result ≡ specs.mtu_of header.now }
{
    match header {
        DestUnreachableHeader::FragmentationNeeded { next_hop_mtu } => {
            Some(u32::from(*next_hop_mtu))
        }
        _ => None,
    }
}

/// What is unreachable, or why a datagram could not be delivered.
fn unreachable_reason(header: &DestUnreachableHeader) -> &'static str
    ensures { result.now ≡ specs.unreachable_reason header.now }
{
    match header {
        DestUnreachableHeader::Network => "network",
        DestUnreachableHeader::Host => "host",
        DestUnreachableHeader::Protocol => "protocol",
        DestUnreachableHeader::Port => "port",
        DestUnreachableHeader::FragmentationNeeded { .. } => "fragmentation needed",
        DestUnreachableHeader::SourceRouteFailed => "source route failed",
        DestUnreachableHeader::NetworkUnknown => "network unknown",
        DestUnreachableHeader::HostUnknown => "host unknown",
        DestUnreachableHeader::Isolated => "source host isolated",
        DestUnreachableHeader::NetworkProhibited => "network prohibited",
        DestUnreachableHeader::HostProhibited => "host prohibited",
        DestUnreachableHeader::TosNetwork => "network for the type of service",
        DestUnreachableHeader::TosHost => "host for the type of service",
        DestUnreachableHeader::FilterProhibited => "prohibited by filtering",
        DestUnreachableHeader::HostPrecedenceViolation => "precedence not permitted",
        DestUnreachableHeader::PrecedenceCutoff => "precedence below the minimum",
    }
}

/// Writes a redirect: which datagrams are redirected, and to which gateway.
fn write_redirect<W: Write>(output: &mut W, header: &RedirectHeader) -> io::Result<()>
    ensures { OnOk result (Appends (W.contents output.old) (W.contents output.new) (message_text (types.Redirect header.now))) }
{
    let gateway = Ipv4Addr::from_octets(header.gateway_internet_address);
    write_named_message(
        output,
        "redirect",
        header.code.code_u8(),
        redirected_datagrams(header.code),
    )?;
    write!(output, ", gateway {gateway}")
}

/// Which datagrams are redirected: the datagrams for a network or a host, for every type of service or for one type.
fn redirected_datagrams(code: RedirectCode) -> &'static str
    ensures { result.now ≡ specs.redirected_datagrams code }
{
    match code {
        RedirectCode::RedirectForNetwork => "network",
        RedirectCode::RedirectForHost => "host",
        RedirectCode::RedirectForTypeOfServiceAndNetwork => "type of service and network",
        RedirectCode::RedirectForTypeOfServiceAndHost => "type of service and host",
    }
}

/// Writes a message about an exceeded time, and which time was exceeded.
fn write_time_exceeded<W: Write>(output: &mut W, code: TimeExceededCode) -> io::Result<()>
    ensures { OnOk result (Appends (W.contents output.old) (W.contents output.new) (message_text (types.TimeExceeded code))) }
{
    write_named_message(output, "time exceeded", code.code_u8(), exceeded_time(code))
}

/// Which time was exceeded.
fn exceeded_time(code: TimeExceededCode) -> &'static str
    ensures { result.now ≡ specs.exceeded_time code }
{
    match code {
        TimeExceededCode::TtlExceededInTransit => "time to live",
        TimeExceededCode::FragmentReassemblyTimeExceeded => "fragment reassembly",
    }
}

/// Writes a message about a parameter problem: what is wrong, and the pointer to the error if the message contains it.
fn write_problem<W: Write>(output: &mut W, header: &ParameterProblemHeader) -> io::Result<()>
    ensures { OnOk result (Appends (W.contents output.old) (W.contents output.new)
        (message_text (types.ParameterProblem header.now))) }
{
    write_named_message(
        output,
        "parameter problem",
        header.code_u8(),
        problem_name(header),
    )?;
    write_optional_field(output, "pointer", pointer_of(header))
}

/// The pointer, or `None` if the message contains no pointer to the error.
fn pointer_of(header: &ParameterProblemHeader) -> Option<u32>
    ensures { result ≡ specs.pointer_of header.now }
{
    match header {
        ParameterProblemHeader::PointerIndicatesError(pointer) => Some(u32::from(*pointer)),
        _ => None,
    }
}

/// What is wrong with the parameters.
fn problem_name(header: &ParameterProblemHeader) -> &'static str
    ensures { result.now ≡ specs.problem_name header.now }
{
    match header {
        ParameterProblemHeader::PointerIndicatesError(_) => "pointer indicates the error",
        ParameterProblemHeader::MissingRequiredOption => "required option missing",
        ParameterProblemHeader::BadLength => "bad length",
    }
}

/// Writes a timestamp request or a timestamp reply. Its three times are milliseconds since midnight UT.
fn write_timestamps<W: Write>(
    output: &mut W,
    name: &str,
    message: &TimestampMessage,
) -> io::Result<()>
    ensures { OnOk result (Appends (W.contents output.old) (W.contents output.new) (specs.timestamp_text name.now message.now)) }
{
    write!(
        output,
        "{name}, code 0, identifier {}, sequence number {}, originate {}, receive {}, transmit {}",
        message.id,
        message.seq,
        message.originate_timestamp,
        message.receive_timestamp,
        message.transmit_timestamp
    )
}
