//! The table of files.

ghost use Rattle.std.specs.Prelude.{◌≡◌, OnOk, codes, map};
ghost use Rattle.capture_json.specs.JsonSummary.{file_count_members, file_data, files_members, others_members};
ghost use Rattle.capture_json.specs.Members.{array_of};
ghost use Rattle.capture_json.specs.Tokens.{push, put, tokens_in, with_items, with_members};

use crate::Line;
use crate::flows::put_packets_and_bytes;
use capture_summary::{FileCount, FileRow, FileTable};
use std::alloc::AllocError;

/// Writes the table of files: an array with an object for each row, and then the packets of the captures without a row. If the table has no
/// rows, nothing is written.
pub fn put_files(line: &mut Line, files: &FileTable<'_>) -> Result<(), AllocError>
    ensures { OnOk result (tokens_in line.new ≡ with_members (files_members files.now) (tokens_in line.old)) }
{
    let rows = files.rows();
    if rows.is_empty() {
        return Ok(());
    }
    put_rows(line, rows)?;
    put_others(line, files.other_files(), files.others())
}

/// Writes the rows as an array of objects.
fn put_rows(line: &mut Line, rows: &[FileRow<'_>]) -> Result<(), AllocError>
    ensures { OnOk result (tokens_in line.new
        ≡ put (codes "files") (array_of (map (λ row. file_data (row.name.now, row.count)) rows.now)) (tokens_in line.old)) }
{
    line.begin_array("files")?;
    push_rows(line, rows)?;
    line.end_array()
}

/// Writes an object for each of these rows.
fn push_rows(line: &mut Line, rows: &[FileRow<'_>]) -> Result<(), AllocError>
    ensures { OnOk result (tokens_in line.new ≡ with_items (map (λ row. file_data (row.name.now, row.count)) rows.now) (tokens_in line.old)) }
{
    for row in rows {
        push_row(line, row)?;
    }
    Ok(())
}

/// Writes a row as an object: the name of the capture, and the numbers of its packets.
fn push_row(line: &mut Line, row: &FileRow<'_>) -> Result<(), AllocError>
    ensures { OnOk result (tokens_in line.new ≡ push (file_data (row.now.name.now, row.now.count)) (tokens_in line.old)) }
{
    line.begin_item()?;
    line.put_text("file", row.name)?;
    put_file_count(line, row.count)?;
    line.end_object()
}

/// Writes the number of captures without a row, and the numbers of their packets. If there is no such capture, nothing is written.
fn put_others(line: &mut Line, other_files: u64, others: FileCount) -> Result<(), AllocError>
    ensures { OnOk result (tokens_in line.new ≡ with_members (others_members other_files others) (tokens_in line.old)) }
{
    if other_files == 0 {
        return Ok(());
    }
    line.begin_object("other_files")?;
    line.put_number("files", other_files)?;
    put_file_count(line, others)?;
    line.end_object()
}

/// Writes the numbers of packets and bytes, of packets with a wrong checksum, and of refused packets.
fn put_file_count(line: &mut Line, count: FileCount) -> Result<(), AllocError>
    ensures { OnOk result (tokens_in line.new ≡ with_members (file_count_members count) (tokens_in line.old)) }
{
    put_packets_and_bytes(line, count.all)?;
    line.put_number("wrong", count.wrong)?;
    line.put_number("refused", count.refused)
}
