//! The end of a run: the lines on standard error, and the exit status.

ghost use Rattle.std.specs.Prelude.{◌≡◌, IfOk, IsOk, Ok, string_bytes};
ghost use Rattle.std.specs.Option.{option_map};
ghost use Rattle.translator.specs.ErrorTexts.{IsErrorLine, IsErrorText, IsHeaderText, IsReadText, IsWriteText, cut_off_text, decompressor_of};
ghost use Rattle.translator.specs.Outputs.{FailsAfter, FailsFirst, IsEndLine, IsEndText, WritesText, ended_status, summary_text, warning_text};

use crate::capture_error::CaptureError;
use crate::compression::decompressor;
use crate::counts::Counts;
use crate::table::Table;
use capture_file::classic::CaptureHeaderError;
use std::alloc::{AllocError, Global};
use std::io;
use std::io::Write;
use streams::write_whole;

/// The line after the counts if two addresses can become one.
const WARNING: &str =
    "translator: warning: two addresses can become one, since a new network is smaller than its old network, or new networks overlap\n";

/// The result of translating a capture.
#[derive(Drop)]
pub struct Translated {
    /// Whether the capture was translated to its end, or why it was not.
    pub ended: Result<(), CaptureError>,
    /// The result of flushing the output after the last packet.
    pub flushed: io::Result<()>,
    /// The counts of packets.
    pub counts: Counts,
}

/// Writes the error of the capture, if there is one, then the counts of packets, and then a warning if two addresses can become one. Returns
/// the exit status. The counts and the warning are not written if the output could not be written or flushed. If the capture has a name,
/// the error contains the name.
///
/// # Errors
///
/// The error of writing or flushing the output, or the error of writing to `errors`. It is also an error if no memory is left.
pub fn finished<E: Write>(
    errors: &mut E,
    alloc: Global,
    name: Option<&str>,
    translated: Translated,
    table: &Table,
) -> io::Result<u8>
    ensures status { IfOk result (λ number. ended_status translated.ended ≡ Ok number) }
    ensures flushed { IfOk result (λ number. IsOk translated.flushed) }
    ensures failure { FailsFirst translated.ended result }
    ensures flush_failure { FailsAfter translated.ended translated.flushed result }
    ensures text { WritesText (E.contents errors.old) (E.contents errors.new) (IsOk result)
        (IsEndText (option_map (λ text. text.now) name.entry) table.now translated.ended translated.flushed translated.counts) }
{
    let status = ended_status(errors, alloc, name, translated.ended)?;
    translated.flushed?;
    write_summary(errors, alloc, &translated.counts, table)?;
    Ok(status)
}

/// Writes the error of the capture, if there is one, and returns the exit status.
fn ended_status<E: Write>(
    errors: &mut E,
    alloc: Global,
    name: Option<&str>,
    ended: Result<(), CaptureError>,
) -> io::Result<u8>
    ensures status { IfOk result (λ number. ended_status ended ≡ Ok number) }
    ensures success { IfOk ended (λ done. result ≡ Ok 0) }
    ensures failure { FailsFirst ended result }
    ensures line { WritesText (E.contents errors.old) (E.contents errors.new) (IsOk result)
        (IsEndLine (option_map (λ text. text.now) name.entry) ended) }
{
    match ended {
        Ok(()) => Ok(0),
        Err(CaptureError::Write(error)) => Err(error),
        Err(error) => {
            write_error(errors, alloc, name, &error)?;
            Ok(error.status())
        }
    }
}

/// Writes the line for an error of a capture.
fn write_error<E: Write>(
    errors: &mut E,
    alloc: Global,
    name: Option<&str>,
    error: &CaptureError,
) -> io::Result<()>
    ensures { WritesText (E.contents errors.old) (E.contents errors.new) (IsOk result)
        (IsErrorLine (option_map (λ text. text.now) name.entry) error.now) }
{
    let line = error_line(alloc, name, error)?;
    write_whole(errors, line.as_bytes())
}

/// The line for an error of a capture: the name of the program, the name of the capture if it has a name, and the text of the error.
fn error_line(alloc: Global, name: Option<&str>, error: &CaptureError) -> Result<String, AllocError>
    ensures { IfOk result (λ line. IsErrorLine (option_map (λ text. text.now) name.entry) error.now (string_bytes line)) }
{
    let text = error_text(alloc, error)?;
    match name {
        Some(name) => format!(in alloc; "translator: {name}: {text}\n"),
        None => format!(in alloc; "translator: {text}\n"),
    }
}

/// The text of an error of a capture.
fn error_text(alloc: Global, error: &CaptureError) -> Result<String, AllocError>
    ensures { IfOk result (λ text. IsErrorText error.now (string_bytes text)) }
{
    match error {
        CaptureError::Header(error) => header_text(alloc, error),
        CaptureError::RecordCutOff {
            offset,
            required_len,
            len,
        } => cut_off_text(alloc, *offset, *required_len, *len),
        CaptureError::Block(error) => format!(in alloc; "{error}"),
        CaptureError::Read { offset, error } => read_text(alloc, *offset, error),
        CaptureError::TooManyParts => format!(in alloc; "No more records or blocks can be read."),
        CaptureError::Write(error) => write_text(alloc, error),
    }
}

/// The text for a header that is refused. If the capture is compressed, the text contains the command that decompresses it.
fn header_text(alloc: Global, error: &CaptureHeaderError) -> Result<String, AllocError>
    ensures { IfOk result (λ text. IsHeaderText error.now (string_bytes text)) }
{
    match decompressor_of(error) {
        Some(command) => format!(in alloc;
            "The capture is compressed, and is read by {command} -dc FILE | translator OPTIONS."
        ),
        None => format!(in alloc; "{error}"),
    }
}

/// The command that decompresses the capture, if the refused bytes are those of a compressed file.
fn decompressor_of(error: &CaptureHeaderError) -> Option<&'static str>
    ensures { option_map (λ command. command.now) result ≡ decompressor_of error.now }
{
    match error {
        CaptureHeaderError::Magic { magic } => decompressor(*magic),
        _ => None,
    }
}

/// The text for a record at this offset that is cut off.
fn cut_off_text(
    alloc: Global,
    offset: u64,
    required_len: usize,
    len: usize,
) -> Result<String, AllocError>
    ensures { IfOk result (λ text. string_bytes text ≡ cut_off_text offset required_len len) }
{
    format!(in alloc;
        "At byte {offset} of the file: The record has at least {required_len} bytes, and {len} are left."
    )
}

/// The text if reading failed in the record or block at this offset.
fn read_text(alloc: Global, offset: u64, error: &io::Error) -> Result<String, AllocError>
    ensures { IfOk result (λ text. IsReadText offset (string_bytes text)) }
{
    let cause = format!(in alloc; "{error}")?;
    format!(in alloc; "At byte {offset} of the file: Reading failed: {cause}.")
}

/// The text if writing failed.
fn write_text(alloc: Global, error: &io::Error) -> Result<String, AllocError>
    ensures { IfOk result (λ text. IsWriteText (string_bytes text)) }
{
    let cause = format!(in alloc; "{error}")?;
    format!(in alloc; "Writing failed: {cause}.")
}

/// Writes the counts of packets, and the warning if two addresses can become one.
fn write_summary<E: Write>(
    errors: &mut E,
    alloc: Global,
    counts: &Counts,
    table: &Table,
) -> io::Result<()>
    ensures { WritesText (E.contents errors.old) (E.contents errors.new) (IsOk result)
        (λ text. text ≡ summary_text table.now counts.now) }
{
    let text = summary_text(alloc, counts, table)?;
    write_whole(errors, text.as_slice())
}

/// The counts of packets as lines, and the warning if two addresses can become one.
fn summary_text(alloc: Global, counts: &Counts, table: &Table) -> io::Result<Vec<u8>>
    ensures { IfOk result (λ text. text.items ≡ summary_text table.now counts.now) }
{
    let mut text = Vec::new(alloc);
    counts.write_to(&mut text)?;
    text.write_all(warning(table).as_bytes())?;
    Ok(text)
}

/// The line of the warning if two addresses can become one. Otherwise the result is empty.
fn warning(table: &Table) -> &'static str
    ensures { result.now ≡ warning_text table.now }
{
    if table.merges_addresses() {
        return WARNING;
    }
    ""
}
