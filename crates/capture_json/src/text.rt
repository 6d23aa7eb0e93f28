//! Writing lines, and texts that are first written into memory.

ghost use Rattle.std.specs.Prelude.{◌≡◌, OnOk, IfOk};
ghost use Rattle.std.specs.Io.KnownBytes.{Appends};
ghost use Rattle.json.specs.Print.{print};
ghost use Rattle.capture_json.specs.Tokens.{line_text, push, put, tokens_in};
ghost use Rattle.serde_json.specs.Data.{string};
ghost use Rattle.capture_json.specs.Words.{underscore_if_space, with_underscores};

use crate::Line;
use capture_request::WriteError;
use std::alloc::AllocError;
use std::io::{ErrorKind, Write};
use std::{io, str};

/// Ends the object of the line. Then writes the line and a line feed to the output.
pub fn write_line<W: Write>(output: &mut W, mut line: Line) -> Result<(), WriteError>
    ensures { OnOk result (Appends (W.contents output.old) (W.contents output.new) (line_text (tokens_in line))) }
{
    line.end_object()?;
    let mut bytes = line.into_bytes();
    match bytes.push(b'\n') {
        Ok(()) => write_bytes(output, bytes.as_slice()),
        Err(_) => Err(WriteError::NoMemory),
    }
}

/// Writes the part of a line that is in memory to the output.
pub fn write_part<W: Write>(output: &mut W, line: Line) -> Result<(), WriteError>
    ensures { OnOk result (Appends (W.contents output.old) (W.contents output.new) (print (tokens_in line))) }
{
    let bytes = line.into_bytes();
    write_bytes(output, bytes.as_slice())
}

/// Writes these bytes to the output.
pub fn write_bytes<W: Write>(output: &mut W, bytes: &[u8]) -> Result<(), WriteError>
    ensures { OnOk result (Appends (W.contents output.old) (W.contents output.new) bytes.now) }
{
    Ok(output.write_all(bytes)?)
}

/// Writes a member whose value is a text in memory.
pub fn put_written(line: &mut Line, name: &str, text: &[u8]) -> io::Result<()>
    ensures { OnOk result (tokens_in line.new ≡ put name.now (string text.now) (tokens_in line.old)) }
{
    Ok(line.put_text(name, as_text(text)?)?)
}

/// Writes an item of an array that is a text in memory.
pub fn push_written(line: &mut Line, text: &[u8]) -> io::Result<()>
    ensures { OnOk result (tokens_in line.new ≡ push (string text.now) (tokens_in line.old)) }
{
    Ok(line.push_text(as_text(text)?)?)
}

/// Returns these bytes as a text. It fails only if the bytes are not UTF-8. Each caller passes bytes that come from `write!`, or a word
/// with underscores, so they are UTF-8.
pub fn as_text(bytes: &[u8]) -> io::Result<&str>
    ensures { IfOk result (λ text. text.now ≡ bytes.now) }
{
    match str::from_utf8(bytes) {
        Ok(text) => Ok(text),
        Err(_) => Err(io::Error::from(ErrorKind::InvalidData)),
    }
}

/// Fills `room` with a word of a table, with underscores instead of its spaces.
pub fn fill_with_underscores(room: &mut Vec<u8>, word: &str) -> Result<(), AllocError>
    ensures { OnOk result (room.new.items ≡ with_underscores word.now) }
{
    room.clear();
    for byte in word.as_bytes() {
        room.push(underscore_if_space(*byte))?;
    }
    Ok(())
}

/// An underscore if the byte is a space, otherwise the byte.
fn underscore_if_space(byte: u8) -> u8
    ensures { result ≡ underscore_if_space byte }
{
    if byte == b' ' { b'_' } else { byte }
}
