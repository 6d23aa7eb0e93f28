//! The fields of a fragment.

ghost use Rattle.std.specs.Prelude.{OnOk};
ghost use Rattle.std.specs.Io.KnownBytes.{Appends};
ghost use Rattle.capture_text.specs.PacketLine.{fragment_text, identification_text, more_text};

use capture_packet::{FragmentFields, Identification};
use std::io;
use std::io::Write;

/// Writes the identification and the offset of a fragment, and whether more fragments follow. It writes nothing if there is no fragment.
pub(crate) fn write_fragment<W: Write>(
    output: &mut W,
    fragment: Option<FragmentFields>,
) -> io::Result<()>
    ensures { OnOk result (Appends (W.contents output.old) (W.contents output.new) (fragment_text fragment)) }
{
    let Some(fragment) = fragment else {
        return Ok(());
    };
    write!(output, ", fragment, identification ")?;
    write_identification(output, fragment.identification)?;
    write!(output, ", offset {}", fragment.offset)?;
    write_more(output, fragment.more_fragments)
}

/// Writes the identification of a packet that is sent in fragments.
fn write_identification<W: Write>(output: &mut W, identification: Identification) -> io::Result<()>
    ensures { OnOk result (Appends (W.contents output.old) (W.contents output.new) (identification_text identification)) }
{
    match identification {
        Identification::Ipv4(number) => write!(output, "{number:04X}"),
        Identification::Ipv6(number) => write!(output, "{number:08X}"),
    }
}

/// Writes that more fragments follow, if they do.
fn write_more<W: Write>(output: &mut W, more_fragments: bool) -> io::Result<()>
    ensures { OnOk result (Appends (W.contents output.old) (W.contents output.new) (more_text more_fragments)) }
{
    if more_fragments {
        write!(output, ", more")
    } else {
        Ok(())
    }
}
