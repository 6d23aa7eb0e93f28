//! Fields of ICMPv6 messages: of neighbor discovery, and of the messages about multicast listeners.

ghost use Rattle.std.specs.Prelude.{◌≡◌, OnOk, codes};
ghost use Rattle.capture_json.specs.JsonIcmp as specs;
ghost use Rattle.capture_json.specs.Tokens.{tokens_in, with_members};

use crate::Line;
use crate::arp::put_hardware_address;
use crate::text::put_written;
use capture_words::{Icmpv6Fields, LISTENER_QUERY, LISTENER_REPORT_2};
use std::alloc::AllocError;
use std::io;
use std::io::Write;
use std::net::Ipv6Addr;

/// Writes the maximum response code of a query, or the number of records in a version 2 report. Writes nothing for any other type.
pub fn put_listener_fields(
    line: &mut Line,
    type_u8: u8,
    bytes5to8: &[u8; 4],
) -> Result<(), AllocError>
    ensures { OnOk result (tokens_in line.new ≡ with_members (specs.listener_fields type_u8 bytes5to8.now) (tokens_in line.old)) }
{
    let first = u16::from_be_bytes([bytes5to8[0], bytes5to8[1]]);
    let second = u16::from_be_bytes([bytes5to8[2], bytes5to8[3]]);
    match type_u8 {
        LISTENER_QUERY => line.put_number("maximum_response_code", u64::from(first)),
        LISTENER_REPORT_2 => line.put_number("records", u64::from(second)),
        _ => Ok(()),
    }
}

/// Writes the fields after the first eight bytes of a message.
pub fn put_further_fields(
    line: &mut Line,
    room: &mut Vec<u8>,
    fields: &Icmpv6Fields,
) -> io::Result<()>
    ensures { OnOk result (tokens_in line.new ≡ with_members (specs.further_fields fields.now) (tokens_in line.old)) }
{
    put_address(line, room, "target", fields.target)?;
    put_address(line, room, "destination", fields.destination)?;
    put_address(line, room, "group", fields.group)?;
    put_link_layer_address(line, room, fields.link_layer_address)
}

/// Writes an IPv6 address, if there is one.
fn put_address(
    line: &mut Line,
    room: &mut Vec<u8>,
    name: &str,
    address: Option<[u8; 16]>,
) -> io::Result<()>
    ensures { OnOk result (tokens_in line.new ≡ with_members (specs.optional_address name.now address) (tokens_in line.old)) }
{
    let Some(octets) = address else {
        return Ok(());
    };
    let address = Ipv6Addr::from_octets(octets);
    room.clear();
    write!(room, "{address}")?;
    put_written(line, name, room.as_slice())
}

/// Writes a link-layer address, if there is one.
fn put_link_layer_address(
    line: &mut Line,
    room: &mut Vec<u8>,
    address: Option<[u8; 6]>,
) -> io::Result<()>
    ensures { OnOk result (tokens_in line.new ≡ with_members (specs.optional_link_layer_address address) (tokens_in line.old)) }
{
    match address {
        Some(address) => put_hardware_address(line, room, "link_layer_address", address),
        None => Ok(()),
    }
}
