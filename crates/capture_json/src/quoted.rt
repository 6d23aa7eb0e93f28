//! The packet that an ICMP error quotes.

ghost use Rattle.std.specs.Prelude.{◌≡◌, OnOk};
ghost use Rattle.std.specs.Option.{option_map};
ghost use Rattle.capture_packet.specs.Quotes.{by_value};
ghost use Rattle.capture_json.specs.JsonPacket.{quoted_fields, quoted_members, quoted_port_members};
ghost use Rattle.capture_json.specs.Tokens.{tokens_in, with_members};

use crate::Line;
use crate::addresses::{put_addresses, put_ports};
use crate::protocol::put_ip_protocol;
use capture_packet::QuotedPacket;
use std::alloc::AllocError;
use std::io;

/// Writes the packet that an ICMP error quotes. Writes nothing if no quoted packet could be read.
pub fn put_quoted(
    line: &mut Line,
    room: &mut Vec<u8>,
    quoted: Option<QuotedPacket<'_>>,
) -> io::Result<()>
    ensures { OnOk result (tokens_in line.new ≡ with_members (quoted_members (option_map by_value quoted.entry)) (tokens_in line.old)) }
{
    match quoted {
        Some(quoted) => {
            line.begin_object("quoted")?;
            put_quoted_fields(line, room, quoted)?;
            Ok(line.end_object()?)
        }
        None => Ok(()),
    }
}

/// Writes the addresses of a quoted packet, its protocol, and its ports if the error quotes them.
fn put_quoted_fields(
    line: &mut Line,
    room: &mut Vec<u8>,
    quoted: QuotedPacket<'_>,
) -> io::Result<()>
    ensures { OnOk result (tokens_in line.new ≡ with_members (quoted_fields (by_value quoted.entry)) (tokens_in line.old)) }
{
    put_addresses(line, room, quoted.addresses)?;
    put_ip_protocol(line, quoted.protocol, quoted.proto)?;
    Ok(put_quoted_ports(line, quoted.ports)?)
}

/// Writes the ports of a quoted packet, if the error quotes them.
fn put_quoted_ports(line: &mut Line, ports: Option<(u16, u16)>) -> Result<(), AllocError>
    ensures { OnOk result (tokens_in line.new ≡ with_members (quoted_port_members ports) (tokens_in line.old)) }
{
    match ports {
        Some((source, destination)) => put_ports(line, source, destination),
        None => Ok(()),
    }
}
