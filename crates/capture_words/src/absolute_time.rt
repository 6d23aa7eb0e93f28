//! The date and time of a packet.

ghost use Rattle.std.specs.Prelude.{◌≡◌, ◌++◌, ◌^◌, ◌<◌, MatchOption, OnOk, codes, false, neg_ℤ, pos, true, unsigned_abs};
ghost use Rattle.std.specs.Io.KnownBytes.{Appends};
ghost use Rattle.jiff_core.specs.Calendar.{IsBetween};
ghost use Rattle.capture_words.specs.AbsoluteTime.{absolute_text, date_text, day_of, day_text, has_date, nanoseconds_of_day, nanoseconds_since_1970, seconds_text};
ghost use Rattle.capture_words.specs.Elapsed.{duration_text, elapsed_of};

use crate::time::{Elapsed, write_duration, write_fraction, write_sign};
use capture_file::pcapng::TimeResolution;
use capture_file::{NANOSECONDS_PER_SECOND, PacketTime, nanoseconds_of};
use jiff_core::civil::Date;
use jiff_core::num::div_rem_floor;
use std::io;
use std::io::Write;

/// The number of nanoseconds in a day.
const NANOSECONDS_PER_DAY: u128 = 86_400_000_000_000;

/// The value of `nanoseconds_of` for the beginning of 1970 in UTC.
const BEGINNING_OF_1970: i128 = 9_223_372_036_854_775_808_000_000_000;

/// Writes the date and time of a packet in UTC, in the format of RFC 3339: `2023-11-14T22:13:20.000200Z`. The fraction has six digits, or
/// nine if the resolution of the packet is finer than microseconds.
///
/// RFC 3339 has only the years 0 to 9999. A time in another year is written as seconds since 1970, in the format `1700000000.000200`. A
/// minus sign marks a time before 1970.
///
/// # Errors
///
/// The error of the writer, if writing fails.
pub fn write_absolute<W: Write>(output: &mut W, time: PacketTime) -> io::Result<()>
    ensures { OnOk result (Appends (W.contents output.old) (W.contents output.new) (absolute_text time)) }
{
    let nanoseconds = nanoseconds_since_1970(time);
    let (day, of_day) = day_and_time(nanoseconds);
    match date_of(day) {
        Some(date) => write_utc(output, time.resolution, date, of_day),
        None => write_seconds(output, time.resolution, nanoseconds),
    }
}

/// The nanoseconds from the beginning of 1970 to a time. They are negative for a time before 1970.
pub fn nanoseconds_since_1970(time: PacketTime) -> i128
    ensures value { result ≡ nanoseconds_since_1970 time }
    ensures bound { IsBetween (neg_ℤ (pos (2 ^ 96))) (pos (2 ^ 96)) result }
{
    nanoseconds_of(time) as i128 - BEGINNING_OF_1970
}

/// The day of a time, and the nanoseconds since that day began. `nanoseconds` is the time since 1970, and 1 January 1970 is day 0.
fn day_and_time(nanoseconds: i128) -> (i64, u128)
    requires { IsBetween (neg_ℤ (pos (2 ^ 96))) (pos (2 ^ 96)) nanoseconds }
    ensures day { result.0 ≡ day_of nanoseconds }
    ensures time { result.1 ≡ nanoseconds_of_day nanoseconds }
    ensures bound { result.1 < 2 ^ 96 }
{
    let (day, of_day) = div_rem_floor(nanoseconds, NANOSECONDS_PER_DAY);
    (day as i64, of_day)
}

/// The date of the day with this number, or `None` if its year is not from 0 to 9999.
fn date_of(day: i64) -> Option<Date>
    ensures { MatchOption result (has_date day ≡ false) (λ date. (has_date day ≡ true)
        × (day_text day ≡ date_text (unsigned_abs date.year) date.month date.day)) }
{
    let Ok(date) = Date::from_unix_epoch_day(day) else {
        return None;
    };
    if date.year < 0 {
        return None;
    }
    Some(date)
}

/// Writes a date and a time of day in UTC. `nanoseconds` is the time since midnight.
fn write_utc<W: Write>(
    output: &mut W,
    resolution: TimeResolution,
    date: Date,
    nanoseconds: u128,
) -> io::Result<()>
    requires { nanoseconds < 2 ^ 96 }
    ensures { OnOk result (Appends (W.contents output.old) (W.contents output.new) (date_text (unsigned_abs date.year) date.month date.day
        ++ (codes "T" ++ (duration_text resolution (elapsed_of nanoseconds) ++ codes "Z")))) }
{
    let year = date.year.unsigned_abs();
    write!(output, "{year:04}-{:02}-{:02}T", date.month, date.day)?;
    write_duration(output, resolution, Elapsed::from_nanoseconds(nanoseconds))?;
    write!(output, "Z")
}

/// Writes a time as seconds since 1970 and the fraction of a second. A minus sign marks a time before 1970.
fn write_seconds<W: Write>(
    output: &mut W,
    resolution: TimeResolution,
    nanoseconds: i128,
) -> io::Result<()>
    ensures { OnOk result (Appends (W.contents output.old) (W.contents output.new) (seconds_text resolution nanoseconds)) }
{
    write_sign(output, nanoseconds < 0)?;
    let length = nanoseconds.unsigned_abs();
    let seconds = length / NANOSECONDS_PER_SECOND;
    write!(output, "{seconds}.")?;
    write_fraction(output, resolution, (length % NANOSECONDS_PER_SECOND) as u64)
}
