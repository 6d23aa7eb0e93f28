//! The tunnels around a packet.

ghost use Rattle.std.specs.Prelude.{◌≡◌, OnOk, map};
ghost use Rattle.capture_json.specs.JsonPacket.{tunnel_data, tunnel_members, virtual_network_members};
ghost use Rattle.capture_json.specs.Tokens.{push, tokens_in, with_items, with_members};

use crate::Line;
use crate::addresses::put_addresses;
use crate::protocol::put_ip_protocol;
use capture_packet::{Tunnel, VirtualNetwork};
use std::alloc::AllocError;
use std::io;

/// Writes the tunnels around a packet, from the outermost to the innermost, if there are any.
pub fn put_tunnels(line: &mut Line, room: &mut Vec<u8>, tunnels: &[Tunnel<'_>]) -> io::Result<()>
    ensures { OnOk result (tokens_in line.new ≡ with_members (tunnel_members tunnels.now) (tokens_in line.old)) }
{
    if tunnels.is_empty() {
        return Ok(());
    }
    line.begin_array("tunnels")?;
    push_tunnels(line, room, tunnels)?;
    Ok(line.end_array()?)
}

/// Writes an object for each of these tunnels.
fn push_tunnels(line: &mut Line, room: &mut Vec<u8>, tunnels: &[Tunnel<'_>]) -> io::Result<()>
    ensures { OnOk result (tokens_in line.new ≡ with_items (map tunnel_data tunnels.now) (tokens_in line.old)) }
{
    for tunnel in tunnels {
        push_tunnel(line, room, tunnel)?;
    }
    Ok(())
}

/// Writes an object with the addresses and the protocol of the outer packet of a tunnel, and with its virtual network if it states one.
fn push_tunnel(line: &mut Line, room: &mut Vec<u8>, tunnel: &Tunnel<'_>) -> io::Result<()>
    ensures { OnOk result (tokens_in line.new ≡ push (tunnel_data tunnel.now) (tokens_in line.old)) }
{
    line.begin_item()?;
    put_addresses(line, room, tunnel.addresses)?;
    put_ip_protocol(line, tunnel.protocol, tunnel.proto())?;
    put_network(line, tunnel.network)?;
    Ok(line.end_object()?)
}

/// Writes the virtual network of a tunnel, if it states one: the kind of the tunnel, and the network identifier.
fn put_network(line: &mut Line, network: Option<VirtualNetwork>) -> Result<(), AllocError>
    ensures { OnOk result (tokens_in line.new ≡ with_members (virtual_network_members network) (tokens_in line.old)) }
{
    match network {
        Some(VirtualNetwork { kind, id }) => {
            line.put_text("encapsulation", kind.name())?;
            line.put_number("vni", u64::from(id))
        }
        None => Ok(()),
    }
}
