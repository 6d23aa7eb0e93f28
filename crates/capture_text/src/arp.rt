//! ARP packets.

ghost use Rattle.std.specs.Prelude.{OnOk};
ghost use Rattle.std.specs.Io.KnownBytes.{Appends};
ghost use Rattle.capture_text.specs.ArpText.{arp_text, cut_off_text, operation_text, packet_text, reply_text, request_text, resolution_text, unresolved_text};

use capture_packet::{Arp, ArpAddresses};
use capture_words::write_hardware_address;
use std::io;
use std::io::Write;
use std::net::Ipv4Addr;

/// The operation of a request (RFC 826).
const REQUEST: u16 = 1;

/// The operation of a reply (RFC 826).
const REPLY: u16 = 2;

/// Writes what an ARP packet asks or answers, or its operation. It writes nothing if there is no ARP packet.
pub(crate) fn write_arp<W: Write>(output: &mut W, arp: Option<Arp>) -> io::Result<()>
    ensures { OnOk result (Appends (W.contents output.old) (W.contents output.new) (arp_text arp)) }
{
    match arp {
        Some(arp) => write_packet(output, arp),
        None => Ok(()),
    }
}

/// Writes what an ARP packet asks or answers, or its operation.
fn write_packet<W: Write>(output: &mut W, arp: Arp) -> io::Result<()>
    ensures { OnOk result (Appends (W.contents output.old) (W.contents output.new) (packet_text arp)) }
{
    match arp {
        Arp::CutOff => write_cut_off(output, true),
        Arp::Operation {
            operation,
            is_cut_off,
        } => write_unresolved(output, operation, is_cut_off),
        Arp::Addresses {
            operation,
            addresses,
        } => write_resolution(output, operation, &addresses),
    }
}

/// Writes the operation of a packet without addresses, and that the packet is cut off, if it is.
fn write_unresolved<W: Write>(output: &mut W, operation: u16, is_cut_off: bool) -> io::Result<()>
    ensures { OnOk result (Appends (W.contents output.old) (W.contents output.new) (unresolved_text operation is_cut_off)) }
{
    write_operation(output, operation)?;
    write_cut_off(output, is_cut_off)
}

/// Writes that an ARP packet is cut off, if it is.
fn write_cut_off<W: Write>(output: &mut W, is_cut_off: bool) -> io::Result<()>
    ensures { OnOk result (Appends (W.contents output.old) (W.contents output.new) (cut_off_text is_cut_off)) }
{
    if is_cut_off {
        write!(output, ", cut off")
    } else {
        Ok(())
    }
}

/// Writes the number of an operation.
fn write_operation<W: Write>(output: &mut W, operation: u16) -> io::Result<()>
    ensures { OnOk result (Appends (W.contents output.old) (W.contents output.new) (operation_text operation)) }
{
    write!(output, ", operation {operation}")
}

/// Writes what a packet with these addresses asks or answers, or its operation if it is neither a request nor a reply.
fn write_resolution<W: Write>(
    output: &mut W,
    operation: u16,
    addresses: &ArpAddresses,
) -> io::Result<()>
    ensures { OnOk result (Appends (W.contents output.old) (W.contents output.new) (resolution_text operation addresses.now)) }
{
    match operation {
        REQUEST => write_request(output, addresses),
        REPLY => write_reply(output, addresses),
        _ => write_operation(output, operation),
    }
}

/// Writes which address a request asks for, and who asks.
fn write_request<W: Write>(output: &mut W, addresses: &ArpAddresses) -> io::Result<()>
    ensures { OnOk result (Appends (W.contents output.old) (W.contents output.new) (request_text addresses.now)) }
{
    let target = Ipv4Addr::from_octets(addresses.target);
    let sender = Ipv4Addr::from_octets(addresses.sender);
    write!(output, ", who has {target}, asked by {sender}")
}

/// Writes the hardware address that a reply gives for an address.
fn write_reply<W: Write>(output: &mut W, addresses: &ArpAddresses) -> io::Result<()>
    ensures { OnOk result (Appends (W.contents output.old) (W.contents output.new) (reply_text addresses.now)) }
{
    let sender = Ipv4Addr::from_octets(addresses.sender);
    write!(output, ", {sender} is at ")?;
    write_hardware_address(output, addresses.sender_hardware)
}
