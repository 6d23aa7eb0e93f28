//! The texts of a pcapng file and the statistics of its interfaces, as members of the summary.

ghost use Rattle.std.specs.Prelude.{◌≡◌, OnOk, slice_get};
ghost use Rattle.capture_json.specs.JsonTexts.{commented_members, count_members, interface_members, kept_interface_members, kept_members, statistics_members, texts_members};
ghost use Rattle.capture_json.specs.Tokens.{tokens_in, with_members};

use crate::Line;
use crate::text::put_written;
use capture_file::{FileTexts, InterfaceStatistics, InterfaceTexts, KeptText};
use capture_words::write_shown;
use std::alloc::AllocError;
use std::io;

/// Writes the texts of a section and the number of packets with a comment. `capture_words::write_facts` writes the same facts.
pub fn put_texts(line: &mut Line, room: &mut Vec<u8>, texts: &FileTexts) -> io::Result<()>
    ensures { OnOk result (tokens_in line.new ≡ with_members (texts_members texts.now) (tokens_in line.old)) }
{
    put_kept(line, room, "application", &texts.application)?;
    put_kept(line, room, "operating_system", &texts.operating_system)?;
    put_kept(line, room, "hardware", &texts.hardware)?;
    put_kept(line, room, "comment", &texts.comment)?;
    Ok(put_commented(line, texts.commented_packets)?)
}

/// Writes the texts and the statistics of the interface with this number, if `texts` contains them.
pub fn put_interface_texts(
    line: &mut Line,
    room: &mut Vec<u8>,
    texts: &[InterfaceTexts],
    number: usize,
) -> io::Result<()>
    ensures { OnOk result (tokens_in line.new ≡ with_members (interface_members (slice_get texts.now number)) (tokens_in line.old)) }
{
    match texts.get(number) {
        Some(texts) => put_kept_texts(line, room, texts),
        None => Ok(()),
    }
}

/// Writes the texts and the statistics of an interface.
fn put_kept_texts(line: &mut Line, room: &mut Vec<u8>, kept: &InterfaceTexts) -> io::Result<()>
    ensures { OnOk result (tokens_in line.new ≡ with_members (kept_interface_members kept.now) (tokens_in line.old)) }
{
    put_kept(line, room, "name", &kept.name)?;
    put_kept(line, room, "description", &kept.description)?;
    put_kept(line, room, "comment", &kept.comment)?;
    Ok(put_statistics(line, kept.statistics)?)
}

/// Writes the statistics of an interface: each number that is stated.
fn put_statistics(line: &mut Line, statistics: InterfaceStatistics) -> Result<(), AllocError>
    ensures { OnOk result (tokens_in line.new ≡ with_members (statistics_members statistics) (tokens_in line.old)) }
{
    put_count(line, "packets_received", statistics.received)?;
    put_count(line, "packets_dropped", statistics.dropped)?;
    put_count(
        line,
        "packets_dropped_by_operating_system",
        statistics.dropped_by_system,
    )
}

/// Writes a member with this name and this number of packets, if the number is stated.
fn put_count(line: &mut Line, name: &str, count: Option<u64>) -> Result<(), AllocError>
    ensures { OnOk result (tokens_in line.new ≡ with_members (count_members name.now count) (tokens_in line.old)) }
{
    match count {
        Some(count) => line.put_number(name, count),
        None => Ok(()),
    }
}

/// Writes a member with this name and this text, unless the text is empty.
pub fn put_kept(line: &mut Line, room: &mut Vec<u8>, name: &str, text: &KeptText) -> io::Result<()>
    ensures { OnOk result (tokens_in line.new ≡ with_members (kept_members name.now text.now) (tokens_in line.old)) }
{
    if text.bytes.is_empty() {
        return Ok(());
    }
    room.clear();
    write_shown(room, text)?;
    put_written(line, name, room.as_slice())
}

/// Writes the number of packets with a comment, unless it is 0.
fn put_commented(line: &mut Line, count: u64) -> Result<(), AllocError>
    ensures { OnOk result (tokens_in line.new ≡ with_members (commented_members count) (tokens_in line.old)) }
{
    if count == 0 {
        return Ok(());
    }
    line.put_number("packets_with_comment", count)
}
