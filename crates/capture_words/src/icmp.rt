//! The common part of the lines of ICMPv4 and ICMPv6.

ghost use Rattle.std.specs.Prelude.{OnOk};
ghost use Rattle.std.specs.Io.KnownBytes.{Appends};
ghost use Rattle.capture_words.specs.IcmpText as specs;

use crate::hex::Hex;
use icmp_part::IcmpEchoHeader;
use std::io;
use std::io::Write;

/// Writes the name of a message, its code, and the meaning of the code.
pub fn write_named_message<W: Write>(
    output: &mut W,
    name: &str,
    code: u8,
    meaning: &str,
) -> io::Result<()>
    ensures { OnOk result (Appends (W.contents output.old) (W.contents output.new) (specs.named_message name.now code meaning.now)) }
{
    write!(output, "{name}, code {code} ({meaning})")
}

/// Writes a field of a message: a comma, the name of the field, and its value.
pub fn write_field<W: Write>(output: &mut W, name: &str, value: u32) -> io::Result<()>
    ensures { OnOk result (Appends (W.contents output.old) (W.contents output.new) (specs.field_text name.now value)) }
{
    write!(output, ", {name} {value}")
}

/// Writes a field of a message, if the message has it.
pub fn write_optional_field<W: Write>(
    output: &mut W,
    name: &str,
    value: Option<u32>,
) -> io::Result<()>
    ensures { OnOk result (Appends (W.contents output.old) (W.contents output.new) (specs.optional_field name.now value)) }
{
    match value {
        Some(value) => write_field(output, name, value),
        None => Ok(()),
    }
}

/// Writes an echo request or an echo reply. `name` is `echo request` or `echo reply`.
pub fn write_echo<W: Write>(output: &mut W, name: &str, echo: &IcmpEchoHeader) -> io::Result<()>
    ensures { OnOk result (Appends (W.contents output.old) (W.contents output.new) (specs.echo_text name.now echo.now)) }
{
    let IcmpEchoHeader { id, seq } = echo;
    write!(
        output,
        "{name}, code 0, identifier {id}, sequence number {seq}"
    )
}

/// Writes a message that is not read: its type, its code, and its bytes 5 to 8.
pub fn write_unknown<W: Write>(
    output: &mut W,
    type_u8: u8,
    code_u8: u8,
    bytes5to8: &[u8; 4],
) -> io::Result<()>
    ensures { OnOk result (Appends (W.contents output.old) (W.contents output.new) (specs.unknown_text type_u8 code_u8 bytes5to8.now)) }
{
    let bytes = Hex(bytes5to8);
    write!(
        output,
        "type {type_u8}, code {code_u8}, bytes 5 to 8 {bytes}"
    )
}
