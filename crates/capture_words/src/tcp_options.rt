//! The options of a TCP header (RFC 9293, section 3.1).

ghost use Rattle.std.specs.Prelude.{if◌then◌else◌, [], codes, OnOk};
ghost use Rattle.std.specs.Io.KnownBytes.{Appends};
ghost use Rattle.std.specs.List.{flat_map};
ghost use Rattle.tcp_part.specs.TcpFormat.{options_of};
ghost use Rattle.capture_words.specs.TcpText.{IsListText, IsOptionText, IsOptionsText, block_text, element_text, fault_text, other_block_text, raw_text};
ghost use Rattle.capture_words.specs.Written.{AppendsOne};

use crate::hex::Hex;
use std::io;
use std::io::Write;
use tcp_part::{TcpOptionElement, TcpRawOption, TcpRawOptionError, TcpSlice};

/// Writes the options of a header in brackets. If the header contains no bytes of options, it writes nothing.
pub fn write_options<W: Write>(output: &mut W, segment: &TcpSlice) -> io::Result<()>
    ensures { OnOk result (AppendsOne (W.contents output.old) (W.contents output.new) (IsOptionsText (options_of segment.now))) }
{
    if segment.options().is_empty() {
        return Ok(());
    }
    write!(output, ", options [")?;
    write_each(output, segment)?;
    write!(output, "]")
}

/// Writes the options of a header, with commas between them. If kind 0 ends the list, the last text is `end of options`. If an option can't
/// be read, the last text is the reason.
fn write_each<W: Write>(output: &mut W, segment: &TcpSlice) -> io::Result<()>
    ensures { OnOk result (AppendsOne (W.contents output.old) (W.contents output.new) (IsListText (options_of segment.now))) }
{
    let mut options = segment.raw_options_iterator();
    let mut rest = options.rest();
    let mut is_first = true;
    while let Some(option) = options.next() {
        write_separator(output, is_first)?;
        is_first = false;
        match option {
            Ok(option) => write_option(output, &option)?,
            Err(error) => return write_fault(output, &error),
        }
        rest = options.rest();
    }
    if rest.is_empty() {
        return Ok(());
    }
    // Bytes are left after the last option, so kind 0 ends the list.
    write_separator(output, is_first)?;
    write!(output, "end of options")
}

/// Writes a comma and a space before an option, unless it is the first option.
fn write_separator<W: Write>(output: &mut W, is_first: bool) -> io::Result<()>
    ensures { OnOk result (Appends (W.contents output.old) (W.contents output.new) (if is_first then [] else codes ", ")) }
{
    if is_first {
        Ok(())
    } else {
        write!(output, ", ")
    }
}

/// Writes an option. An option of a known kind with a valid length is written as its name and its fields. Any other option is written as
/// its kind and the bytes of its value.
///
/// # Errors
///
/// The error of the writer, if writing fails.
pub fn write_option<W: Write>(output: &mut W, option: &TcpRawOption) -> io::Result<()>
    ensures { OnOk result (AppendsOne (W.contents output.old) (W.contents output.new) (IsOptionText option.now)) }
{
    match option.element() {
        Ok(element) => write_element(output, &element),
        Err(_) => write_raw_option(output, option),
    }
}

/// Writes an option by its name and its fields.
fn write_element<W: Write>(output: &mut W, element: &TcpOptionElement) -> io::Result<()>
    ensures { OnOk result (Appends (W.contents output.old) (W.contents output.new) (element_text element.now)) }
{
    match element {
        TcpOptionElement::Noop => write!(output, "no operation"),
        TcpOptionElement::MaximumSegmentSize(size) => {
            write!(output, "maximum segment size {size}")
        }
        TcpOptionElement::WindowScale(shift) => write!(output, "window scale {shift}"),
        TcpOptionElement::SelectiveAcknowledgementPermitted => {
            write!(output, "selective acknowledgment permitted")
        }
        TcpOptionElement::SelectiveAcknowledgement(first, more) => {
            write_blocks(output, *first, more)
        }
        TcpOptionElement::Timestamp(value, echo) => write!(output, "timestamp {value} {echo}"),
    }
}

/// Writes a selective acknowledgment.
fn write_blocks<W: Write>(
    output: &mut W,
    first: (u32, u32),
    more: &[Option<(u32, u32)>; 3],
) -> io::Result<()>
    ensures { OnOk result (Appends (W.contents output.old) (W.contents output.new)
        (element_text (TcpOptionElement.SelectiveAcknowledgement first more.now))) }
{
    write!(output, "selective acknowledgment")?;
    write_block(output, first)?;
    write_other_blocks(output, more)
}

/// Writes the blocks after the first block, if there are any.
fn write_other_blocks<W: Write>(output: &mut W, blocks: &[Option<(u32, u32)>]) -> io::Result<()>
    ensures { OnOk result (Appends (W.contents output.old) (W.contents output.new) (flat_map other_block_text blocks.now)) }
{
    for block in blocks {
        write_other_block(output, block)?;
    }
    Ok(())
}

/// Writes a block, or nothing if there is no block.
fn write_other_block<W: Write>(output: &mut W, block: &Option<(u32, u32)>) -> io::Result<()>
    ensures { OnOk result (Appends (W.contents output.old) (W.contents output.new) (other_block_text block.now)) }
{
    match block {
        Some(block) => write_block(output, *block),
        None => Ok(()),
    }
}

/// Writes the edges of a block.
fn write_block<W: Write>(output: &mut W, block: (u32, u32)) -> io::Result<()>
    ensures { OnOk result (Appends (W.contents output.old) (W.contents output.new) (block_text block)) }
{
    let (left, right) = block;
    write!(output, " {left}-{right}")
}

/// Writes an option by its kind and the bytes of its value.
fn write_raw_option<W: Write>(output: &mut W, option: &TcpRawOption) -> io::Result<()>
    ensures { OnOk result (Appends (W.contents output.old) (W.contents output.new) (raw_text option.now)) }
{
    let TcpRawOption { kind, value } = option;
    let bytes = Hex(value);
    match value.len() {
        0 => write!(output, "option {kind} of 0 bytes"),
        1 => write!(output, "option {kind} of 1 byte: {bytes}"),
        len => write!(output, "option {kind} of {len} bytes: {bytes}"),
    }
}

/// Writes the reason why the next option can't be read.
///
/// # Errors
///
/// The error of the writer, if writing fails.
pub fn write_fault<W: Write>(output: &mut W, error: &TcpRawOptionError) -> io::Result<()>
    ensures { OnOk result (Appends (W.contents output.old) (W.contents output.new) (fault_text error.now)) }
{
    match error {
        TcpRawOptionError::NoLengthByte { kind } => write!(
            output,
            "option {kind} without a length byte"
        ),
        TcpRawOptionError::LengthBelowTwo { kind, len } => write!(
            output,
            "option {kind} with length {len} below 2"
        ),
        TcpRawOptionError::LengthBeyondEnd {
            kind,
            len,
            available,
        } => write!(
            output,
            "option {kind} with length {len} above the {available} bytes left"
        ),
    }
}
