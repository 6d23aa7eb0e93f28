//! The address of a network interface.

ghost use Rattle.std.specs.Prelude.{OnOk};
ghost use Rattle.std.specs.Io.KnownBytes.{Appends};
ghost use Rattle.capture_words.specs.HardwareAddress.{hardware_address_text};

use std::io;
use std::io::Write;

/// Writes an address of six bytes, as `02:00:00:00:00:0a`. Like tcpdump, it writes hex digits in lower case.
///
/// # Errors
///
/// The error of the writer, if writing fails.
pub fn write_hardware_address<W: Write>(output: &mut W, address: [u8; 6]) -> io::Result<()>
    ensures { OnOk result (Appends (W.contents output.old) (W.contents output.new) (hardware_address_text address)) }
{
    let (first, second, third) = (address[0], address[1], address[2]);
    let (fourth, fifth, sixth) = (address[3], address[4], address[5]);
    write!(
        output,
        "{first:02x}:{second:02x}:{third:02x}:{fourth:02x}:{fifth:02x}:{sixth:02x}"
    )
}
