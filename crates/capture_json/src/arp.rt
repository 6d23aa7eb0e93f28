//! ARP packets.

ghost use Rattle.std.specs.Prelude.{◌≡◌, OnOk};
ghost use Rattle.std.specs.Net.Text.{ipv4_text};
ghost use Rattle.capture_json.specs.JsonArp.{arp_address_members, arp_content, arp_members};
ghost use Rattle.capture_json.specs.Tokens.{put, tokens_in, with_members};
ghost use Rattle.capture_words.specs.HardwareAddress.{hardware_address_text};
ghost use Rattle.serde_json.specs.Data.{string};

use crate::Line;
use crate::text::put_written;
use capture_packet::{Arp, ArpAddresses};
use capture_words::write_hardware_address;
use std::io;
use std::io::Write;
use std::net::Ipv4Addr;

/// Writes an object with the fields of an ARP packet. Writes nothing if there is no ARP packet.
pub fn put_arp(line: &mut Line, room: &mut Vec<u8>, arp: Option<Arp>) -> io::Result<()>
    ensures { OnOk result (tokens_in line.new ≡ with_members (arp_members arp) (tokens_in line.old)) }
{
    match arp {
        Some(arp) => {
            line.begin_object("arp")?;
            put_arp_content(line, room, arp)?;
            Ok(line.end_object()?)
        }
        None => Ok(()),
    }
}

/// Writes the operation and the addresses of an ARP packet, as far as they are read.
fn put_arp_content(line: &mut Line, room: &mut Vec<u8>, arp: Arp) -> io::Result<()>
    ensures { OnOk result (tokens_in line.new ≡ with_members (arp_content arp) (tokens_in line.old)) }
{
    match arp {
        Arp::CutOff => Ok(line.put_boolean("cut_off", true)?),
        Arp::Operation {
            operation,
            is_cut_off,
        } => {
            line.put_number("operation", u64::from(operation))?;
            Ok(line.put_boolean("cut_off", is_cut_off)?)
        }
        Arp::Addresses {
            operation,
            addresses,
        } => {
            line.put_number("operation", u64::from(operation))?;
            put_arp_addresses(line, room, &addresses)
        }
    }
}

/// Writes the addresses of the sender and of the target.
fn put_arp_addresses(
    line: &mut Line,
    room: &mut Vec<u8>,
    addresses: &ArpAddresses,
) -> io::Result<()>
    ensures { OnOk result (tokens_in line.new ≡ with_members (arp_address_members addresses.now) (tokens_in line.old)) }
{
    put_hardware_address(
        line,
        room,
        "sender_hardware_address",
        addresses.sender_hardware,
    )?;
    put_ipv4_address(line, room, "sender_address", addresses.sender)?;
    put_hardware_address(
        line,
        room,
        "target_hardware_address",
        addresses.target_hardware,
    )?;
    put_ipv4_address(line, room, "target_address", addresses.target)
}

/// Writes a member that is a hardware address.
pub fn put_hardware_address(
    line: &mut Line,
    room: &mut Vec<u8>,
    name: &str,
    address: [u8; 6],
) -> io::Result<()>
    ensures { OnOk result (tokens_in line.new ≡ put name.now (string (hardware_address_text address)) (tokens_in line.old)) }
{
    room.clear();
    write_hardware_address(room, address)?;
    put_written(line, name, room.as_slice())
}

/// Writes a member that is an IPv4 address.
fn put_ipv4_address(
    line: &mut Line,
    room: &mut Vec<u8>,
    name: &str,
    address: [u8; 4],
) -> io::Result<()>
    ensures { OnOk result (tokens_in line.new ≡ put name.now (string (ipv4_text address)) (tokens_in line.old)) }
{
    let address = Ipv4Addr::from_octets(address);
    room.clear();
    write!(room, "{address}")?;
    put_written(line, name, room.as_slice())
}
