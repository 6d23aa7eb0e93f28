//! The texts of a pcapng file and the statistics of its interfaces, each in a line.

ghost use Rattle.std.specs.Prelude.{OnOk, slice_get};
ghost use Rattle.std.specs.Io.KnownBytes.{Appends};
ghost use Rattle.capture_words.specs.TextsText as specs;

use crate::write_shown;
use capture_file::{FileTexts, InterfaceStatistics, InterfaceTexts, KeptText};
use std::io;
use std::io::Write;

/// Writes the texts of a section, each in a line, and skips a text that is absent. Then writes a line with the number of packets that have
/// a comment, unless the number is 0.
pub fn write_texts<W: Write>(output: &mut W, texts: &FileTexts) -> io::Result<()>
    ensures { OnOk result (Appends (W.contents output.old) (W.contents output.new) (specs.texts_text texts.now)) }
{
    write_labelled(output, "application", &texts.application)?;
    write_labelled(output, "operating system", &texts.operating_system)?;
    write_labelled(output, "hardware", &texts.hardware)?;
    write_labelled(output, "comment", &texts.comment)?;
    write_commented(output, texts.commented_packets)
}

/// Writes the texts and the statistics of the interface with this number, or nothing if `texts` does not contain them.
pub fn write_interface_texts<W: Write>(
    output: &mut W,
    number: usize,
    texts: &[InterfaceTexts],
) -> io::Result<()>
    ensures { OnOk result (Appends (W.contents output.old) (W.contents output.new) (specs.interface_lines number (slice_get texts.now number))) }
{
    match texts.get(number) {
        Some(texts) => write_kept(output, number, texts),
        None => Ok(()),
    }
}

/// Writes these texts of the interface with this number, each in a line, and skips a text that is absent. Then writes the statistics of the
/// interface.
fn write_kept<W: Write>(output: &mut W, number: usize, texts: &InterfaceTexts) -> io::Result<()>
    ensures { OnOk result (Appends (W.contents output.old) (W.contents output.new) (specs.kept_lines number texts.now)) }
{
    write_numbered(output, number, "name", &texts.name)?;
    write_numbered(output, number, "description", &texts.description)?;
    write_numbered(output, number, "comment", &texts.comment)?;
    write_statistics(output, number, texts.statistics)
}

/// Writes the statistics of the interface with this number, each in a line, and skips a number that is not stated.
fn write_statistics<W: Write>(
    output: &mut W,
    number: usize,
    statistics: InterfaceStatistics,
) -> io::Result<()>
    ensures { OnOk result (Appends (W.contents output.old) (W.contents output.new) (specs.statistics_lines number statistics)) }
{
    write_count(output, number, "received", statistics.received)?;
    write_count(output, number, "dropped", statistics.dropped)?;
    write_count(
        output,
        number,
        "dropped by the operating system",
        statistics.dropped_by_system,
    )
}

/// Writes the number of an interface, a label and a number of packets in a line, or nothing if the number of packets is not stated.
fn write_count<W: Write>(
    output: &mut W,
    number: usize,
    label: &str,
    count: Option<u64>,
) -> io::Result<()>
    ensures { OnOk result (Appends (W.contents output.old) (W.contents output.new) (specs.count_line number label.now count)) }
{
    match count {
        Some(count) => writeln!(output, "interface {number} packets {label} {count}"),
        None => Ok(()),
    }
}

/// Writes a label and a text in a line, or nothing if the text is empty.
fn write_labelled<W: Write>(output: &mut W, label: &str, text: &KeptText) -> io::Result<()>
    ensures { OnOk result (Appends (W.contents output.old) (W.contents output.new) (specs.labelled_text label.now text.now)) }
{
    if text.bytes.is_empty() {
        return Ok(());
    }
    write!(output, "{label} ")?;
    write_line(output, text)
}

/// Writes the number of an interface, a label and a text in a line, or nothing if the text is empty.
fn write_numbered<W: Write>(
    output: &mut W,
    number: usize,
    label: &str,
    text: &KeptText,
) -> io::Result<()>
    ensures { OnOk result (Appends (W.contents output.old) (W.contents output.new) (specs.numbered_text number label.now text.now)) }
{
    if text.bytes.is_empty() {
        return Ok(());
    }
    write!(output, "interface {number} {label} ")?;
    write_line(output, text)
}

/// Writes a text, and ends its line.
fn write_line<W: Write>(output: &mut W, text: &KeptText) -> io::Result<()>
    ensures { OnOk result (Appends (W.contents output.old) (W.contents output.new) (specs.text_line text.now)) }
{
    write_shown(output, text)?;
    writeln!(output)
}

/// Writes a line with the number of packets that have a comment, unless the number is 0.
fn write_commented<W: Write>(output: &mut W, count: u64) -> io::Result<()>
    ensures { OnOk result (Appends (W.contents output.old) (W.contents output.new) (specs.commented_text count)) }
{
    if count == 0 {
        return Ok(());
    }
    writeln!(output, "packets with a comment {count}")
}
