//! The interface of a packet.

ghost use Rattle.std.specs.Prelude.{◌≡◌, OnOk};
ghost use Rattle.capture_json.specs.JsonInterface.{known_interface_members, packet_interface_members};
ghost use Rattle.capture_json.specs.Tokens.{tokens_in, with_members};

use crate::Line;
use crate::texts::put_kept;
use capture_file::reader::PacketInterface;
use std::io;

/// Writes the interface of a packet, or nothing if there is none.
pub fn put_interface(
    line: &mut Line,
    room: &mut Vec<u8>,
    interface: &Option<PacketInterface>,
) -> io::Result<()>
    ensures { OnOk result (tokens_in line.new ≡ with_members (packet_interface_members interface.now) (tokens_in line.old)) }
{
    match interface {
        Some(interface) => put_known(line, room, interface),
        None => Ok(()),
    }
}

/// Writes the number of an interface, and its name if it has a name.
fn put_known(line: &mut Line, room: &mut Vec<u8>, interface: &PacketInterface) -> io::Result<()>
    ensures { OnOk result (tokens_in line.new ≡ with_members (known_interface_members interface.now) (tokens_in line.old)) }
{
    line.put_number("interface", u64::from(interface.number))?;
    put_kept(line, room, "interface_name", &interface.name)
}
