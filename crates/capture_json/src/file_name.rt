//! The name of a capture.

ghost use Rattle.std.specs.Prelude.{OnOk};
ghost use Rattle.std.specs.Io.KnownBytes.{Appends};
ghost use Rattle.capture_json.specs.JsonPacket.{file_members, json_line};

use crate::Line;
use crate::text::write_line;
use capture_request::WriteError;
use std::alloc::Global;
use std::io::Write;

/// Writes the name of a capture as a JSON object of the type `file`, on its own line. The line precedes the packets of the capture.
///
/// # Errors
///
/// `Write` if writing fails, and `NoMemory` if no memory is left.
pub fn write_file_name<W: Write>(
    output: &mut W,
    alloc: Global,
    name: &str,
) -> Result<(), WriteError>
    ensures { OnOk result (Appends (W.contents output.old) (W.contents output.new) (json_line (file_members name.now))) }
{
    let mut line = Line::new(alloc)?;
    line.begin_item()?;
    line.put_text("type", "file")?;
    line.put_text("file", name)?;
    write_line(output, line)
}
