//! The table of files.

ghost use Rattle.std.specs.Prelude.{OnOk};
ghost use Rattle.std.specs.Io.KnownBytes.{Appends};
ghost use Rattle.capture_text.specs.FilesText as specs;
ghost use Rattle.capture_text.specs.FilesText.{files_table};

use capture_summary::{FileCount, FileRow, FileTable};
use capture_words::ShownText;
use std::io;
use std::io::Write;

/// Writes an empty line and the table of files. The row of a capture contains its packets and bytes, and how many of its packets have a
/// wrong checksum or are refused. Its name follows, as `ShownText`. The last row counts the captures without a row. If the table has no
/// rows, nothing is written.
///
/// # Errors
///
/// The error of the writer, if writing fails.
pub fn write_files<W: Write>(output: &mut W, files: &FileTable<'_>) -> io::Result<()>
    ensures { OnOk result (Appends (W.contents output.old) (W.contents output.new) (files_table files.now)) }
{
    let rows = files.rows();
    if rows.is_empty() {
        return Ok(());
    }
    write_files_head(output)?;
    for row in rows {
        write_file(output, row)?;
    }
    write_others(output, files.other_files(), files.others())
}

/// Writes an empty line and the head of the table.
fn write_files_head<W: Write>(output: &mut W) -> io::Result<()>
    ensures { OnOk result (Appends (W.contents output.old) (W.contents output.new) specs.files_head) }
{
    writeln!(
        output,
        "\n{:>11} {:>17} {:>11} {:>11} files",
        "packets", "bytes", "wrong", "refused"
    )
}

/// Writes the row of a capture: the numbers of its packets, and its name.
fn write_file<W: Write>(output: &mut W, row: &FileRow<'_>) -> io::Result<()>
    ensures { OnOk result (Appends (W.contents output.old) (W.contents output.new) (specs.file_row (row.now.name.now, row.now.count))) }
{
    write_file_count(output, row.count)?;
    writeln!(output, " {}", ShownText(row.name))
}

/// Writes the row of the captures without a row: the numbers of their packets, and the number of these captures. If this number is 0,
/// nothing is written.
fn write_others<W: Write>(output: &mut W, other_files: u64, others: FileCount) -> io::Result<()>
    ensures { OnOk result (Appends (W.contents output.old) (W.contents output.new) (specs.others_row other_files others)) }
{
    if other_files == 0 {
        return Ok(());
    }
    write_file_count(output, others)?;
    writeln!(output, " other captures: {other_files}")
}

/// Writes the numbers of packets and bytes, of packets with a wrong checksum, and of refused packets.
fn write_file_count<W: Write>(output: &mut W, count: FileCount) -> io::Result<()>
    ensures { OnOk result (Appends (W.contents output.old) (W.contents output.new) (specs.file_cells count)) }
{
    let FileCount {
        all,
        wrong,
        refused,
    } = count;
    write!(
        output,
        "{:>11} {:>17} {wrong:>11} {refused:>11}",
        all.packets, all.bytes
    )
}
