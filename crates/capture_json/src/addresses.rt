//! Addresses and ports.

ghost use Rattle.std.specs.Prelude.{◌≡◌, OnOk, codes};
ghost use Rattle.ip_part.specs.Addresses.{by_value};
ghost use Rattle.capture_json.specs.Tokens.{put, tokens_in, with_members};
ghost use Rattle.capture_json.specs.JsonPacket.{address_members, destination_data, payload_members, port_members};

use crate::Line;
use crate::text::put_written;
use capture_packet::{destination_of, source_of};
use ip_part::IpAddresses;
use std::alloc::AllocError;
use std::io;
use std::io::Write;

/// Writes the source and the destination.
pub fn put_addresses(
    line: &mut Line,
    room: &mut Vec<u8>,
    addresses: IpAddresses<'_>,
) -> io::Result<()>
    ensures { OnOk result (tokens_in line.new ≡ with_members (address_members (by_value addresses.entry)) (tokens_in line.old)) }
{
    room.clear();
    write!(room, "{}", source_of(addresses))?;
    put_written(line, "source", room.as_slice())?;
    put_destination(line, room, addresses)
}

/// Writes the final destination, or `null` if it is not known.
fn put_destination(
    line: &mut Line,
    room: &mut Vec<u8>,
    addresses: IpAddresses<'_>,
) -> io::Result<()>
    ensures { OnOk result (tokens_in line.new ≡ put (codes "destination") (destination_data (by_value addresses.entry)) (tokens_in line.old)) }
{
    match destination_of(addresses) {
        Some(destination) => {
            room.clear();
            write!(room, "{destination}")?;
            put_written(line, "destination", room.as_slice())
        }
        None => Ok(line.put_null("destination")?),
    }
}

/// Writes the ports.
pub fn put_ports(line: &mut Line, source: u16, destination: u16) -> Result<(), AllocError>
    ensures { OnOk result (tokens_in line.new ≡ with_members (port_members source destination) (tokens_in line.old)) }
{
    line.put_number("source_port", u64::from(source))?;
    line.put_number("destination_port", u64::from(destination))
}

/// Writes the length of a payload in bytes. If not all bytes were captured, it also writes the number of captured bytes.
pub fn put_payload_len(
    line: &mut Line,
    payload_len: usize,
    payload: &[u8],
) -> Result<(), AllocError>
    ensures { OnOk result (tokens_in line.new ≡ with_members (payload_members payload_len payload.now) (tokens_in line.old)) }
{
    line.put_number("payload_length", payload_len as u64)?;
    if payload.len() == payload_len {
        return Ok(());
    }
    line.put_number("payload_captured_length", payload.len() as u64)
}
