//! The totals of the summary, before its tables.

ghost use Rattle.std.specs.Prelude.{◌≡◌, OnOk, codes};
ghost use Rattle.capture_json.specs.Tokens.{put, tokens_in, with_members};
ghost use Rattle.serde_json.specs.Data.{string};
ghost use Rattle.capture_words.specs.AbsoluteTime.{absolute_text};
ghost use Rattle.capture_words.specs.Elapsed.{elapsed_text};
ghost use Rattle.capture_json.specs.JsonSummary.{average_members, rates_members, span_members, totals_members};
ghost use Rattle.capture_json.specs.JsonTimes.{duration_members};
ghost use Rattle.capture_file.specs.PacketTimes.{nanoseconds_between};

use crate::Line;
use crate::text::put_written;
use crate::times::{number_of, put_instant, put_nanoseconds};
use capture_file::{PacketTime, nanoseconds_of};
use capture_summary::{Count, Rates, Summary, TimeSpan};
use capture_words::{write_absolute, write_elapsed};
use std::alloc::AllocError;
use std::io;

/// Writes the numbers of packets, bytes and conversations, and the average number of bytes of a packet. If a time is known, it also writes
/// the times of the packets. If the earliest and the latest time differ, it also writes the rates per second.
pub fn put_totals(line: &mut Line, room: &mut Vec<u8>, summary: &Summary) -> io::Result<()>
    ensures { OnOk result (tokens_in line.new ≡ with_members (totals_members summary.now) (tokens_in line.old)) }
{
    let all = Count {
        packets: summary.packets(),
        bytes: summary.bytes(),
    };
    line.put_number("packets", all.packets)?;
    line.put_number("bytes", all.bytes)?;
    put_average(line, summary.average_len())?;
    line.put_number("conversations", summary.flows().counts().len() as u64)?;
    put_times(line, room, all, summary.span())
}

/// Writes the average number of bytes of a packet, if there are packets.
fn put_average(line: &mut Line, average: Option<u64>) -> Result<(), AllocError>
    ensures { OnOk result (tokens_in line.new ≡ with_members (average_members average) (tokens_in line.old)) }
{
    match average {
        Some(bytes) => line.put_number("bytes_per_packet", bytes),
        None => Ok(()),
    }
}

/// Writes the times of the earliest and of the latest packet of a count and the time between them, as texts and as numbers. Then writes the
/// rates. Writes nothing if no time is known.
pub(crate) fn put_times(
    line: &mut Line,
    room: &mut Vec<u8>,
    count: Count,
    span: Option<TimeSpan>,
) -> io::Result<()>
    ensures { OnOk result (tokens_in line.new ≡ with_members (span_members count span) (tokens_in line.old)) }
{
    let Some(span) = span else {
        return Ok(());
    };
    put_date(line, room, "first_packet", span.earliest)?;
    put_instant(
        line,
        "first_packet_seconds",
        "first_packet_nanoseconds",
        span.earliest,
    )?;
    put_date(line, room, "last_packet", span.latest)?;
    put_instant(
        line,
        "last_packet_seconds",
        "last_packet_nanoseconds",
        span.latest,
    )?;
    put_duration(line, room, span)?;
    let rates = Rates::of(count.packets, count.bytes, span);
    Ok(put_rates(line, rates)?)
}

/// Writes the numbers of packets and bits per second, unless the earliest and the latest time are equal.
fn put_rates(line: &mut Line, rates: Option<Rates>) -> Result<(), AllocError>
    ensures { OnOk result (tokens_in line.new ≡ with_members (rates_members rates) (tokens_in line.old)) }
{
    match rates {
        Some(Rates { packets, bits }) => {
            line.put_number("packets_per_second", number_of(packets))?;
            line.put_number("bits_per_second", number_of(bits))
        }
        None => Ok(()),
    }
}

/// Writes the date and time of a packet under a name.
pub fn put_date(line: &mut Line, room: &mut Vec<u8>, name: &str, time: PacketTime) -> io::Result<()>
    ensures { OnOk result (tokens_in line.new ≡ put name.now (string (absolute_text time)) (tokens_in line.old)) }
{
    room.clear();
    write_absolute(room, time)?;
    put_written(line, name, room.as_slice())
}

/// Writes the time between the earliest packet and the latest, as a text and as numbers.
fn put_duration(line: &mut Line, room: &mut Vec<u8>, span: TimeSpan) -> io::Result<()>
    ensures { OnOk result (tokens_in line.new ≡ with_members (duration_members span.earliest span.latest)
        (put (codes "duration") (string (elapsed_text span.earliest span.latest)) (tokens_in line.old))) }
{
    room.clear();
    write_elapsed(room, span.earliest, span.latest)?;
    put_written(line, "duration", room.as_slice())?;
    Ok(put_duration_numbers(line, span)?)
}

/// Writes the time between the earliest packet and the latest as whole seconds and the nanoseconds after them.
fn put_duration_numbers(line: &mut Line, span: TimeSpan) -> Result<(), AllocError>
    ensures { OnOk result (tokens_in line.new ≡ with_members (duration_members span.earliest span.latest) (tokens_in line.old)) }
{
    let nanoseconds = nanoseconds_in(span);
    put_nanoseconds(
        line,
        "duration_seconds",
        "duration_nanoseconds",
        nanoseconds,
    )
}

/// The nanoseconds from the earliest packet to the latest.
fn nanoseconds_in(span: TimeSpan) -> u128
    ensures { result ≡ nanoseconds_between span.earliest span.latest }
{
    nanoseconds_of(span.earliest).abs_diff(nanoseconds_of(span.latest))
}
