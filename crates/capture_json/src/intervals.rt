//! The timeline: the counts of the packets in each interval of time.

ghost use Rattle.std.specs.Prelude.{◌≡◌, ◌∷◌, [], OnOk, codes, map};
ghost use Rattle.capture_json.specs.JsonTimeline.{apart_members, interval_data, interval_members, row_member, start_members, summary_count, timeline_member};
ghost use Rattle.capture_json.specs.Members.{array_of};
ghost use Rattle.capture_json.specs.Tokens.{push, put, tokens_in, with_items, with_members};
ghost use Rattle.timeline.specs.Timelines.{shown_intervals};

use crate::Line;
use crate::flows::{put_count, put_packets_and_bytes};
use crate::times::{put_instant, put_nanoseconds, time_at};
use crate::totals::put_date;
use capture_summary::Count;
use std::alloc::AllocError;
use std::io;
use timeline::{Counts, Timeline};

/// Writes the timeline: its start, the width of its intervals, an object for each interval, and the counts of the packets that are in no
/// interval.
pub fn put_timeline(line: &mut Line, room: &mut Vec<u8>, timeline: &Timeline) -> io::Result<()>
    ensures { OnOk result (tokens_in line.new ≡ with_members (timeline_member timeline.now ∷ []) (tokens_in line.old)) }
{
    line.begin_object("timeline")?;
    put_start(line, room, timeline.start())?;
    put_nanoseconds(
        line,
        "interval_seconds",
        "interval_nanoseconds",
        timeline.width(),
    )?;
    put_intervals(line, timeline)?;
    put_apart(line, timeline)?;
    Ok(line.end_object()?)
}

/// Writes the time at which the first interval begins, as a text and as numbers. If no packet has a time, it writes `null`.
fn put_start(line: &mut Line, room: &mut Vec<u8>, start: Option<u128>) -> io::Result<()>
    ensures { OnOk result (tokens_in line.new ≡ with_members (start_members start) (tokens_in line.old)) }
{
    match start {
        Some(nanoseconds) => {
            let time = time_at(nanoseconds);
            put_date(line, room, "start", time)?;
            Ok(put_instant(line, "start_seconds", "start_nanoseconds", time)?)
        }
        None => Ok(line.put_null("start")?),
    }
}

/// Writes the counts of the packets that are in no interval.
fn put_apart(line: &mut Line, timeline: &Timeline) -> Result<(), AllocError>
    ensures { OnOk result (tokens_in line.new ≡ with_members (apart_members timeline.now) (tokens_in line.old)) }
{
    put_interval(line, "older", &timeline.older())?;
    put_interval(line, "later", &timeline.later())?;
    put_interval(line, "untimed", &timeline.untimed())
}

/// Writes the intervals as an array of objects.
fn put_intervals(line: &mut Line, timeline: &Timeline) -> Result<(), AllocError>
    ensures { OnOk result (tokens_in line.new
        ≡ put (codes "intervals") (array_of (map interval_data (shown_intervals timeline.now))) (tokens_in line.old)) }
{
    line.begin_array("intervals")?;
    push_intervals(line, timeline)?;
    line.end_array()
}

/// Writes an object for each interval.
fn push_intervals(line: &mut Line, timeline: &Timeline) -> Result<(), AllocError>
    ensures { OnOk result (tokens_in line.new ≡ with_items (map interval_data (shown_intervals timeline.now)) (tokens_in line.old)) }
{
    for place in 0..timeline.interval_count() {
        push_interval(line, &timeline.interval(place))?;
    }
    Ok(())
}

/// Writes the counts of an interval as an item of the array.
fn push_interval(line: &mut Line, counts: &Counts) -> Result<(), AllocError>
    ensures { OnOk result (tokens_in line.new ≡ push (interval_data counts.now) (tokens_in line.old)) }
{
    line.begin_item()?;
    put_counts(line, counts)?;
    line.end_object()
}

/// Writes the counts of some packets under a name, like the counts of an interval.
fn put_interval(line: &mut Line, name: &str, counts: &Counts) -> Result<(), AllocError>
    ensures { OnOk result (tokens_in line.new ≡ put name.now (interval_data counts.now) (tokens_in line.old)) }
{
    line.begin_object(name)?;
    put_counts(line, counts)?;
    line.end_object()
}

/// Writes the packets and bytes of all packets, of each protocol, and with each fault.
fn put_counts(line: &mut Line, counts: &Counts) -> Result<(), AllocError>
    ensures { OnOk result (tokens_in line.new ≡ with_members (interval_members counts.now) (tokens_in line.old)) }
{
    put_packets_and_bytes(line, summary_count(counts.total()))?;
    put_row(line, "udp", counts.udp)?;
    put_row(line, "tcp", counts.tcp)?;
    put_row(line, "icmp", counts.icmp)?;
    put_row(line, "other", counts.other)?;
    put_row(line, "wrong", counts.wrong)?;
    put_row(line, "refused", counts.refused)
}

/// Writes the packets of one protocol, or with one fault, under a name.
fn put_row(line: &mut Line, name: &str, count: timeline::Count) -> Result<(), AllocError>
    ensures { OnOk result (tokens_in line.new ≡ put (row_member name.now count).0 (row_member name.now count).1 (tokens_in line.old)) }
{
    put_count(line, name, summary_count(count))
}

/// A count of the timeline, as a count of the summary.
fn summary_count(count: timeline::Count) -> Count
    ensures { result ≡ summary_count count }
{
    Count {
        packets: count.packets,
        bytes: count.bytes,
    }
}
