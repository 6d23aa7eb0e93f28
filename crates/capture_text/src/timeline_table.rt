//! The table of the timeline.

ghost use Rattle.std.specs.Prelude.{◌≡◌, ◌≤◌, ◌<◌, ◌*◌, length, OnOk};
ghost use Rattle.std.specs.Io.KnownBytes.{Appends};
ghost use Rattle.capture_text.specs.TimelineText as specs;
ghost use Rattle.capture_text.specs.TimelineText.{timeline_table};
ghost use Rattle.timeline.specs.Counts.{total};
ghost use Rattle.timeline.specs.Intervals.{merged, merged_at};
ghost use Rattle.timeline.specs.Timelines.{shown_intervals};

use crate::tables::NAME_WIDTH;
use capture_file::NANOSECONDS_PER_SECOND;
use std::io;
use std::io::Write;
use timeline::{Count, Counts, Timeline};

/// The bar of the row with the most packets.
const LONGEST_BAR: [u8; 40] = [b'#'; 40];

/// Writes an empty line and the table of the timeline. If the width of its intervals is fixed, each interval has a row. Otherwise at most 20
/// rows show its intervals: a row is the sum of 1, 2, 5, 10 or 20 neighboring intervals, of as few as possible. The row shows the seconds
/// from the start of the timeline to its own beginning, and the numbers of packets and bytes, of packets with a wrong checksum, and of
/// refused packets. At its end is a bar. The row with the most packets has a bar of 40 `#`. Other bars are in proportion to the numbers of
/// packets, rounded up.
///
/// The last rows count the packets that are older than the first packet with a time, the packets that are later than all intervals of a
/// fixed width, and the packets without a time. They are left out if they count no packet. If no packet was counted, nothing is written.
///
/// The times in the timeline are numbers of nanoseconds.
///
/// # Errors
///
/// The error of the writer, if writing fails.
pub fn write_timeline<W: Write>(output: &mut W, timeline: &Timeline) -> io::Result<()>
    ensures { OnOk result (Appends (W.contents output.old) (W.contents output.new) (timeline_table timeline.now)) }
{
    if is_without_packets(timeline) {
        return Ok(());
    }
    write_timeline_head(output)?;
    write_intervals(output, timeline)?;
    write_apart(output, "older packets", &timeline.older())?;
    write_apart(output, "later packets", &timeline.later())?;
    write_apart(output, "packets without a time", &timeline.untimed())
}

/// Whether the table has no rows: there are no intervals, no older packets, no later packets, and no packets without a time.
fn is_without_packets(timeline: &Timeline) -> bool
    ensures { result ≡ specs.is_without_packets timeline.now }
{
    timeline.interval_count() == 0
        && timeline.older().total().packets == 0
        && timeline.later().total().packets == 0
        && timeline.untimed().total().packets == 0
}

/// Writes an empty line and the head of the table.
fn write_timeline_head<W: Write>(output: &mut W) -> io::Result<()>
    ensures { OnOk result (Appends (W.contents output.old) (W.contents output.new) specs.timeline_head) }
{
    let title = "timeline, seconds";
    writeln!(
        output,
        "\n{title:<NAME_WIDTH$} {:>11} {:>17} {:>11} {:>11}",
        "packets", "bytes", "wrong", "refused"
    )
}

/// Writes the rows of the intervals.
fn write_intervals<W: Write>(output: &mut W, timeline: &Timeline) -> io::Result<()>
    ensures { OnOk result (Appends (W.contents output.old) (W.contents output.new) (specs.intervals_text timeline.now)) }
{
    let count = timeline.interval_count();
    let size = row_size(timeline);
    let most = most_packets(timeline, size);
    for place in 0..count.div_ceil(size) {
        let begin = begin_of(timeline, place * size);
        write_interval(output, begin, &row_at(timeline, size, place), most)?;
    }
    Ok(())
}

/// The number of intervals in a row.
fn row_size(timeline: &Timeline) -> usize
    ensures value { result ≡ specs.row_size timeline.now }
    ensures few { (0 < result) × (result ≤ 20) }
{
    if timeline.is_fixed() {
        return 1;
    }
    intervals_in_row(timeline.interval_count())
}

/// The number of neighboring intervals in a row if their width grows. It is the least of 1, 2, 5, 10 and 20 with which 20 rows suffice.
fn intervals_in_row(intervals: usize) -> usize
    ensures value { result ≡ specs.intervals_in_row intervals }
    ensures few { (0 < result) × (result ≤ 20) }
{
    match intervals {
        0..=20 => 1,
        21..=40 => 2,
        41..=100 => 5,
        101..=200 => 10,
        _ => 20,
    }
}

/// The greatest number of packets in a row of `size` intervals.
fn most_packets(timeline: &Timeline, size: usize) -> u64
    requires { (0 < size) × (size ≤ 20) }
    ensures { result ≡ specs.most_packets (merged size (shown_intervals timeline.now)) }
{
    let mut most = 0;
    for place in 0..timeline.interval_count().div_ceil(size) {
        most = most.max(row_at(timeline, size, place).total().packets);
    }
    most
}

/// The counts of row number `place`: the sum of `size` intervals, or of fewer if the intervals end before.
fn row_at(timeline: &Timeline, size: usize, place: usize) -> Counts
    requires size { size ≤ 20 }
    requires place { place * size < length (shown_intervals timeline.now) }
    ensures { result ≡ merged_at size (shown_intervals timeline.now) place }
{
    let count = timeline.interval_count();
    let begin = place * size;
    let end = (begin + size).min(count);
    let mut row = Counts::NONE;
    for step in 0..end - begin {
        row = row.plus(&timeline.interval(begin + step));
    }
    row
}

/// The time from the start of the timeline to the beginning of an interval. It saturates.
fn begin_of(timeline: &Timeline, interval: usize) -> u128
    ensures { result ≡ specs.begin_of timeline.now interval }
{
    timeline.width().saturating_mul(interval as u128)
}

/// Writes a row: the time at which it begins, its counts, and its bar. `most` is the number of packets with the longest bar.
fn write_interval<W: Write>(output: &mut W, begin: u128, row: &Counts, most: u64) -> io::Result<()>
    requires { (total row.now).packets ≤ most }
    ensures { OnOk result (Appends (W.contents output.old) (W.contents output.new) (specs.interval_row most begin row.now)) }
{
    write_begin(output, begin)?;
    write_cells(output, row)?;
    write_bar(output, row.total().packets, most)?;
    writeln!(output)
}

/// Writes a number of nanoseconds as seconds.
fn write_begin<W: Write>(output: &mut W, nanoseconds: u128) -> io::Result<()>
    ensures { OnOk result (Appends (W.contents output.old) (W.contents output.new) (specs.seconds_cell nanoseconds)) }
{
    let seconds = nanoseconds / NANOSECONDS_PER_SECOND;
    let fraction = nanoseconds % NANOSECONDS_PER_SECOND;
    write!(output, "{seconds:>15}.{fraction:09}")
}

/// Writes the numbers of packets and bytes, of packets with a wrong checksum, and of refused packets.
fn write_cells<W: Write>(output: &mut W, counts: &Counts) -> io::Result<()>
    ensures { OnOk result (Appends (W.contents output.old) (W.contents output.new) (specs.counts_cells counts.now)) }
{
    let Count { packets, bytes } = counts.total();
    let (wrong, refused) = (counts.wrong.packets, counts.refused.packets);
    write!(
        output,
        " {packets:>11} {bytes:>17} {wrong:>11} {refused:>11}"
    )
}

/// Writes the bar of a row. If the row has no packets, nothing is written.
fn write_bar<W: Write>(output: &mut W, packets: u64, most: u64) -> io::Result<()>
    requires { packets ≤ most }
    ensures { OnOk result (Appends (W.contents output.old) (W.contents output.new) (specs.bar_text most packets)) }
{
    if packets == 0 {
        return Ok(());
    }
    write!(output, " ")?;
    output.write_all(&LONGEST_BAR[..bar_len(packets, most)])
}

/// The length of the bar of a row.
fn bar_len(packets: u64, most: u64) -> usize
    requires few { packets ≤ most }
    requires some { 0 < packets }
    ensures value { result ≡ specs.bar_len most packets }
    ensures fits { result ≤ 40 }
{
    let scaled = u128::from(packets) * LONGEST_BAR.len() as u128;
    scaled.div_ceil(u128::from(most)) as usize
}

/// Writes a row for packets that are in no interval. If there are none, nothing is written.
fn write_apart<W: Write>(output: &mut W, name: &str, counts: &Counts) -> io::Result<()>
    ensures { OnOk result (Appends (W.contents output.old) (W.contents output.new) (specs.apart_row name.now counts.now)) }
{
    if counts.total().packets == 0 {
        return Ok(());
    }
    write!(output, "{name:<NAME_WIDTH$}")?;
    write_cells(output, counts)?;
    writeln!(output)
}
