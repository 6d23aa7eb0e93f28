//! Texts as reports show them: no text can end a line or control a terminal.

ghost use Rattle.std.specs.Prelude.{◌≡◌, OnOk, Some};
ghost use Rattle.std.specs.Fmt.{WritesOnOk};
ghost use Rattle.std.specs.Io.KnownBytes.{Appends};
ghost use Rattle.std.specs.List.{flat_map};
ghost use Rattle.capture_words.specs.ShownText as specs;

use capture_file::KeptText;
use std::io::Write;
use std::{fmt, io, str};

/// A text that is shown character by character. A control character is shown by its number, as in `\x1B`.
#[derive(Clone, Copy)]
pub struct ShownText<'a>(pub &'a str);

impl<'a> fmt::Display for ShownText<'a> {
    ghost output = { λ shown. Some (specs.shown_text shown.0.now) };

    fn fmt<W: fmt::Write>(&self, f: &mut fmt::Formatter<W>) -> fmt::Result {
        for character in self.0.chars() {
            write_character(f, character)?;
        }
        Ok(())
    }
}

/// Writes a character, or the number of a control character.
fn write_character<W: fmt::Write>(f: &mut fmt::Formatter<W>, character: char) -> fmt::Result
    ensures { WritesOnOk W.write_str_gives f.old result (specs.shown_char character) f.new }
{
    if character.is_control() {
        write!(f, "\\x{:02X}", character as u32)
    } else {
        f.write_char(character)
    }
}

/// Bytes that are not UTF-8. Each byte is shown by its number, as in `\xFF`, unless it is a printable character of ASCII other than a
/// backslash.
#[derive(Clone, Copy)]
pub struct EscapedBytes<'a>(pub &'a [u8]);

impl<'a> fmt::Display for EscapedBytes<'a> {
    ghost output = { λ escaped. Some (flat_map specs.escaped_byte escaped.0.now) };

    fn fmt<W: fmt::Write>(&self, f: &mut fmt::Formatter<W>) -> fmt::Result {
        for byte in self.0 {
            write_byte(f, *byte)?;
        }
        Ok(())
    }
}

/// Writes a plain byte, or the number of any other byte.
fn write_byte<W: fmt::Write>(f: &mut fmt::Formatter<W>, byte: u8) -> fmt::Result
    ensures { WritesOnOk W.write_str_gives f.old result (specs.escaped_byte byte) f.new }
{
    if is_plain(byte) {
        f.write_char(char::from(byte))
    } else {
        write!(f, "\\x{byte:02X}")
    }
}

/// Returns whether a byte is a printable character of ASCII other than a backslash.
fn is_plain(byte: u8) -> bool
    ensures { result ≡ specs.is_plain byte }
{
    matches!(byte, b' '..=b'~') && byte != b'\\'
}

/// Writes a text as summaries show it: as `ShownText`, or as `EscapedBytes` if it is not UTF-8. `...` follows a cut text.
///
/// # Errors
///
/// The error of the writer, if writing fails.
pub fn write_shown<W: Write>(output: &mut W, text: &KeptText) -> io::Result<()>
    ensures { OnOk result (Appends (W.contents output.old) (W.contents output.new) (specs.shown_kept text.now)) }
{
    write_bytes(output, text.bytes.as_slice())?;
    write_end(output, text.is_cut)
}

/// Writes `...` if a text was cut.
fn write_end<W: Write>(output: &mut W, is_cut: bool) -> io::Result<()>
    ensures { OnOk result (Appends (W.contents output.old) (W.contents output.new) (specs.end_text is_cut)) }
{
    if is_cut {
        return write!(output, "...");
    }
    Ok(())
}

/// Writes the bytes of a text, whether the text is UTF-8 or not.
fn write_bytes<W: Write>(output: &mut W, bytes: &[u8]) -> io::Result<()>
    ensures { OnOk result (Appends (W.contents output.old) (W.contents output.new) (specs.shown_bytes bytes.now)) }
{
    match str::from_utf8(bytes) {
        Ok(text) => write!(output, "{}", ShownText(text)),
        Err(_) => write!(output, "{}", EscapedBytes(bytes)),
    }
}
