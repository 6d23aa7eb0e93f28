//! Messages of ICMP.

ghost use Rattle.std.specs.Prelude.{◌≡◌, OnOk, codes};
ghost use Rattle.std.specs.Net.Text.{ipv4_text};
ghost use Rattle.capture_json.specs.Tokens.{put, tokens_in, with_members};
ghost use Rattle.capture_json.specs.JsonIcmp as specs;
ghost use Rattle.capture_json.specs.JsonIcmp.{echo_fields, optional_number};
ghost use Rattle.capture_json.specs.JsonPacket.{icmpv4_content, icmpv4_members, icmpv6_content, icmpv6_members, message_members};
ghost use Rattle.capture_words.specs.Icmpv4Text.{mtu_of, pointer_of};
ghost use Rattle.serde_json.specs.Data.{string};

use crate::Line;
use crate::icmpv6_fields::{put_further_fields, put_listener_fields};
use crate::text::put_written;
use capture_words::{Icmpv6Fields, icmpv4, icmpv6};
use icmp_part::icmpv4::{DestUnreachableHeader, ParameterProblemHeader, RedirectHeader};
use icmp_part::{Icmpv4Slice, Icmpv4Type, Icmpv6Slice, Icmpv6Type};
use std::alloc::AllocError;
use std::io;
use std::io::Write;
use std::net::Ipv4Addr;

/// Writes an ICMPv4 message.
pub fn put_icmpv4(line: &mut Line, room: &mut Vec<u8>, message: &Icmpv4Slice) -> io::Result<()>
    ensures { OnOk result (tokens_in line.new ≡ with_members (icmpv4_members message.now) (tokens_in line.old)) }
{
    line.begin_object("icmpv4")?;
    put_icmpv4_content(line, room, message)?;
    Ok(line.end_object()?)
}

/// Writes the type, the code, the text and the fields of an ICMPv4 message.
fn put_icmpv4_content(line: &mut Line, room: &mut Vec<u8>, message: &Icmpv4Slice) -> io::Result<()>
    ensures { OnOk result (tokens_in line.new ≡ with_members (icmpv4_content message.now) (tokens_in line.old)) }
{
    let fields = message.icmp_type();
    room.clear();
    icmpv4::write_message(room, &fields)?;
    put_message(line, message.type_u8(), message.code_u8(), room.as_slice())?;
    put_icmpv4_fields(line, room, &fields)
}

/// Writes an ICMPv6 message.
pub fn put_icmpv6(line: &mut Line, room: &mut Vec<u8>, message: &Icmpv6Slice) -> io::Result<()>
    ensures { OnOk result (tokens_in line.new ≡ with_members (icmpv6_members message.now) (tokens_in line.old)) }
{
    line.begin_object("icmpv6")?;
    put_icmpv6_content(line, room, message)?;
    Ok(line.end_object()?)
}

/// Writes the type, the code, the text and the fields of an ICMPv6 message.
fn put_icmpv6_content(line: &mut Line, room: &mut Vec<u8>, message: &Icmpv6Slice) -> io::Result<()>
    ensures { OnOk result (tokens_in line.new ≡ with_members (icmpv6_content message.now) (tokens_in line.old)) }
{
    room.clear();
    icmpv6::write_packet(room, message)?;
    put_message(line, message.type_u8(), message.code_u8(), room.as_slice())?;
    put_icmpv6_fields(line, &message.icmp_type())?;
    put_further_fields(line, room, &Icmpv6Fields::of(message))
}

/// Writes the type, the code and the text of a message.
fn put_message(line: &mut Line, type_u8: u8, code_u8: u8, text: &[u8]) -> io::Result<()>
    ensures { OnOk result (tokens_in line.new ≡ with_members (message_members type_u8 code_u8 text.now) (tokens_in line.old)) }
{
    line.put_number("type", u64::from(type_u8))?;
    line.put_number("code", u64::from(code_u8))?;
    put_written(line, "message", text)
}

/// Writes the fields of an ICMPv4 message.
fn put_icmpv4_fields(line: &mut Line, room: &mut Vec<u8>, message: &Icmpv4Type) -> io::Result<()>
    ensures { OnOk result (tokens_in line.new ≡ with_members (specs.icmpv4_fields message.now) (tokens_in line.old)) }
{
    match message {
        Icmpv4Type::Unknown { .. } => Ok(()),
        Icmpv4Type::EchoReply(echo) => Ok(put_echo(line, echo.id, echo.seq)?),
        Icmpv4Type::DestinationUnreachable(header) => Ok(put_mtu(line, header)?),
        Icmpv4Type::Redirect(header) => put_gateway(line, room, header),
        Icmpv4Type::EchoRequest(echo) => Ok(put_echo(line, echo.id, echo.seq)?),
        Icmpv4Type::TimeExceeded(_) => Ok(()),
        Icmpv4Type::ParameterProblem(header) => Ok(put_pointer(line, header)?),
        Icmpv4Type::TimestampRequest(times) => Ok(put_echo(line, times.id, times.seq)?),
        Icmpv4Type::TimestampReply(times) => Ok(put_echo(line, times.id, times.seq)?),
    }
}

/// Writes the fields in the first eight bytes of an ICMPv6 message.
fn put_icmpv6_fields(line: &mut Line, message: &Icmpv6Type) -> Result<(), AllocError>
    ensures { OnOk result (tokens_in line.new ≡ with_members (specs.icmpv6_fields message.now) (tokens_in line.old)) }
{
    match message {
        Icmpv6Type::Unknown {
            type_u8,
            bytes5to8,
            ..
        } => put_listener_fields(line, *type_u8, bytes5to8),
        Icmpv6Type::PacketTooBig { mtu } => line.put_number("mtu", u64::from(*mtu)),
        Icmpv6Type::ParameterProblem(header) => {
            line.put_number("pointer", u64::from(header.pointer))
        }
        Icmpv6Type::EchoRequest(echo) => put_echo(line, echo.id, echo.seq),
        Icmpv6Type::EchoReply(echo) => put_echo(line, echo.id, echo.seq),
        _ => Ok(()),
    }
}

/// Writes an identifier and a sequence number.
fn put_echo(line: &mut Line, identifier: u16, sequence: u16) -> Result<(), AllocError>
    ensures { OnOk result (tokens_in line.new ≡ with_members (echo_fields identifier sequence) (tokens_in line.old)) }
{
    line.put_number("identifier", u64::from(identifier))?;
    line.put_number("sequence", u64::from(sequence))
}

/// Writes the MTU of the next hop, if the message reports that fragmentation is needed.
fn put_mtu(line: &mut Line, header: &DestUnreachableHeader) -> Result<(), AllocError>
    ensures { OnOk result (tokens_in line.new ≡ with_members (optional_number (codes "mtu") (mtu_of header.now)) (tokens_in line.old)) }
{
    match header {
        DestUnreachableHeader::FragmentationNeeded { next_hop_mtu } => {
            line.put_number("mtu", u64::from(*next_hop_mtu))
        }
        _ => Ok(()),
    }
}

/// Writes the pointer, if the message contains a pointer to the error.
fn put_pointer(line: &mut Line, header: &ParameterProblemHeader) -> Result<(), AllocError>
    ensures { OnOk result (tokens_in line.new ≡ with_members (optional_number (codes "pointer") (pointer_of header.now)) (tokens_in line.old)) }
{
    match header {
        ParameterProblemHeader::PointerIndicatesError(pointer) => {
            line.put_number("pointer", u64::from(*pointer))
        }
        _ => Ok(()),
    }
}

/// Writes the gateway to which datagrams should be sent.
fn put_gateway(line: &mut Line, room: &mut Vec<u8>, header: &RedirectHeader) -> io::Result<()>
    ensures { OnOk result (tokens_in line.new ≡ put (codes "gateway") (string (ipv4_text header.now.gateway_internet_address)) (tokens_in line.old)) }
{
    let gateway = Ipv4Addr::from_octets(header.gateway_internet_address);
    room.clear();
    write!(room, "{gateway}")?;
    put_written(line, "gateway", room.as_slice())
}
