//! The summary, which follows the lines of the packets.

ghost use Rattle.std.specs.Prelude.{◌≡◌, ◌∷◌, [], OnOk, codes, map};
ghost use Rattle.std.specs.Io.KnownBytes.{Appends};
ghost use Rattle.json.specs.Print.{print};
ghost use Rattle.json.specs.Token.{begin_object, end_array};
ghost use Rattle.capture_json.specs.Tokens.{array_begun, line_text, put, tokens_in, with_members};
ghost use Rattle.capture_json.specs.JsonPacket.{json_line};
ghost use Rattle.capture_json.specs.JsonSummary.{counts_data, counts_member, end_members, row_member, rows_data, summary_members, tables_members};

use crate::endpoints::write_endpoints;
use crate::facts::put_facts;
use crate::files::put_files;
use crate::flows::{put_count, put_uncounted, write_rows};
use crate::intervals::put_timeline;
use crate::text::{as_text, fill_with_underscores, write_line, write_part};
use crate::totals::put_totals;
use crate::{Captures, Line};
use capture_file::reader::CaptureReader;
use capture_request::WriteError;
use capture_summary::{Busiest, Count, FileTable, Summary};
use std::alloc::Global;
use std::io;
use std::io::Write;

/// Writes the summary as a JSON object of the type `summary`, on its own line. The object contains the facts of the capture, the numbers of
/// packets, bytes and conversations, the times, each table under its name, and the timeline. If `captures.only` is `None`, the facts are
/// left out. The conversations and the endpoints are written row by row, so that the memory does not grow with their number.
///
/// # Errors
///
/// `Write` if writing fails, and `NoMemory` if no memory is left.
pub fn write_summary<W: Write>(
    output: &mut W,
    alloc: Global,
    captures: &Captures<'_, '_>,
    summary: &Summary,
    busiest: &Busiest,
) -> Result<(), WriteError>
    ensures { OnOk result (Appends (W.contents output.old) (W.contents output.new)
        (json_line (summary_members captures.now.only.now captures.now.files.now
        busiest.now.conversations.items busiest.now.endpoints.items summary.now))) }
{
    write_tables(output, alloc, captures.only, summary)?;
    write_rows(output, alloc, busiest.conversations.as_slice())?;
    write_endpoints(output, alloc, busiest.endpoints.as_slice())?;
    let flows = summary.flows();
    write_end(
        output,
        alloc,
        captures.files,
        flows.without_ports(),
        flows.without_room(),
    )
}

/// Writes everything before the first conversation: the type, the facts of the capture, the totals, the tables, the timeline, and the
/// beginning of the array of conversations.
fn write_tables<W: Write>(
    output: &mut W,
    alloc: Global,
    capture: &Option<CaptureReader>,
    summary: &Summary,
) -> Result<(), WriteError>
    ensures { OnOk result (Appends (W.contents output.old) (W.contents output.new)
        (print (array_begun (codes "busiest_conversations") (with_members (tables_members capture.now summary.now) (begin_object ∷ []))))) }
{
    let mut line = Line::new(alloc)?;
    line.begin_item()?;
    let mut room = Vec::new(alloc);
    match put_tables(&mut line, &mut room, capture, summary) {
        Ok(()) => {
            line.begin_array("busiest_conversations")?;
            write_part(output, line)
        }
        Err(_) => Err(WriteError::NoMemory),
    }
}

/// Writes everything after the last endpoint: the end of the array, the counts of packets that belong to no row, and the table of files.
fn write_end<W: Write>(
    output: &mut W,
    alloc: Global,
    files: &FileTable<'_>,
    without_ports: Count,
    without_room: Count,
) -> Result<(), WriteError>
    ensures { OnOk result (Appends (W.contents output.old) (W.contents output.new)
        (line_text (with_members (end_members files.now without_ports without_room) (end_array ∷ [])))) }
{
    let mut line = Line::new(alloc)?;
    line.end_array()?;
    put_uncounted(&mut line, without_ports, without_room)?;
    put_files(&mut line, files)?;
    write_line(output, line)
}

/// Writes the type, the facts of the capture, the totals, the tables and the timeline.
fn put_tables(
    line: &mut Line,
    room: &mut Vec<u8>,
    capture: &Option<CaptureReader>,
    summary: &Summary,
) -> io::Result<()>
    ensures { OnOk result (tokens_in line.new ≡ with_members (tables_members capture.now summary.now) (tokens_in line.old)) }
{
    line.put_text("type", "summary")?;
    put_facts(line, room, capture)?;
    put_totals(line, room, summary)?;
    put_table(line, room, "link_types", &summary.links())?;
    put_protocols(line, room, &summary.protocols())?;
    put_table(line, room, "checksums", &summary.verdicts())?;
    put_table(line, room, "refusals", &summary.refusals())?;
    put_timeline(line, room, summary.timeline())
}

/// Writes a table that counts packets: an object with a member for each row.
fn put_table(
    line: &mut Line,
    room: &mut Vec<u8>,
    name: &str,
    rows: &[(&str, u64)],
) -> io::Result<()>
    ensures { OnOk result (tokens_in line.new ≡ put name.now (rows_data (map (λ row. (row.0.now, row.1)) rows.now)) (tokens_in line.old)) }
{
    line.begin_object(name)?;
    put_rows(line, room, rows)?;
    Ok(line.end_object()?)
}

/// Writes rows that count packets.
fn put_rows(line: &mut Line, room: &mut Vec<u8>, rows: &[(&str, u64)]) -> io::Result<()>
    ensures { OnOk result (tokens_in line.new ≡ with_members (map (λ row. row_member (row.0.now, row.1)) rows.now) (tokens_in line.old)) }
{
    for row in rows {
        fill_with_underscores(room, row.0)?;
        line.put_number(as_text(room.as_slice())?, row.1)?;
    }
    Ok(())
}

/// Writes the table of protocols, which counts packets and bytes.
fn put_protocols(line: &mut Line, room: &mut Vec<u8>, rows: &[(&str, Count)]) -> io::Result<()>
    ensures { OnOk result (tokens_in line.new ≡ put (codes "protocols") (counts_data (map (λ row. (row.0.now, row.1)) rows.now)) (tokens_in line.old)) }
{
    line.begin_object("protocols")?;
    put_counts(line, room, rows)?;
    Ok(line.end_object()?)
}

/// Writes rows that count packets and bytes.
fn put_counts(line: &mut Line, room: &mut Vec<u8>, rows: &[(&str, Count)]) -> io::Result<()>
    ensures { OnOk result (tokens_in line.new ≡ with_members (map (λ row. counts_member (row.0.now, row.1)) rows.now) (tokens_in line.old)) }
{
    for row in rows {
        fill_with_underscores(room, row.0)?;
        put_count(line, as_text(room.as_slice())?, row.1)?;
    }
    Ok(())
}
