//! The interface of a packet.

ghost use Rattle.std.specs.Prelude.{OnOk};
ghost use Rattle.std.specs.Io.KnownBytes.{Appends};
ghost use Rattle.capture_text.specs.InterfaceText.{interface_text, known_interface};

use capture_file::reader::PacketInterface;
use capture_words::write_shown;
use std::io;
use std::io::Write;

/// Writes a space and the interface of a packet, or nothing if there is none.
pub(crate) fn write_interface<W: Write>(
    output: &mut W,
    interface: &Option<PacketInterface>,
) -> io::Result<()>
    ensures { OnOk result (Appends (W.contents output.old) (W.contents output.new) (interface_text interface.now)) }
{
    match interface {
        Some(interface) => write_known(output, interface),
        None => Ok(()),
    }
}

/// Writes a space and the name of an interface, or its number if it has no name.
fn write_known<W: Write>(output: &mut W, interface: &PacketInterface) -> io::Result<()>
    ensures { OnOk result (Appends (W.contents output.old) (W.contents output.new) (known_interface interface.now)) }
{
    if interface.name.bytes.is_empty() {
        return write!(output, " interface {}", interface.number);
    }
    write!(output, " ")?;
    write_shown(output, &interface.name)
}
