//! Times as numbers: whole seconds, and the nanoseconds after them.

ghost use Rattle.std.specs.Prelude.{◌≡◌, ◌<◌, ◌*◌, ◌-◌, ◌^◌, OnOk, min};
ghost use Rattle.capture_file.specs.PacketTimes.{nanoseconds_of, nanoseconds_per_second};
ghost use Rattle.capture_json.specs.JsonTimes as specs;
ghost use Rattle.capture_json.specs.JsonTimes.{instant_members, nanoseconds_members, nanoseconds_of_second, seconds_since_1970};
ghost use Rattle.capture_json.specs.Tokens.{tokens_in, with_members};

use crate::Line;
use capture_file::pcapng::TimeResolution;
use capture_file::{NANOSECONDS_PER_SECOND, PacketTime};
use capture_words::nanoseconds_since_1970;
use jiff_core::num::div_rem_floor;
use std::alloc::AllocError;

/// Writes a time as two numbers with these names: the seconds since 1970, rounded down, and the nanoseconds after them.
pub fn put_instant(
    line: &mut Line,
    seconds_name: &str,
    nanoseconds_name: &str,
    time: PacketTime,
) -> Result<(), AllocError>
    ensures { OnOk result (tokens_in line.new ≡ with_members (instant_members seconds_name.now nanoseconds_name.now time) (tokens_in line.old)) }
{
    let (seconds, nanoseconds) = seconds_and_nanoseconds(time);
    line.put_integer(seconds_name, nearest_long(seconds))?;
    line.put_number(nanoseconds_name, nanoseconds)
}

/// The whole seconds from the beginning of 1970 to a time, rounded down, and the nanoseconds after these seconds.
fn seconds_and_nanoseconds(time: PacketTime) -> (i128, u64)
    ensures seconds { result.0 ≡ seconds_since_1970 time }
    ensures nanoseconds { result.1 ≡ nanoseconds_of_second time }
    ensures bound { result.1 < nanoseconds_per_second }
{
    let (seconds, nanoseconds) = div_rem_floor(
        nanoseconds_since_1970(time),
        NANOSECONDS_PER_SECOND,
    );
    (seconds, nanoseconds as u64)
}

/// Returns the number, limited to the range of a signed number of 64 bits.
fn nearest_long(number: i128) -> i64
    ensures { result ≡ specs.nearest_long number }
{
    if number < i128::from(i64::MIN) {
        i64::MIN
    } else if number > i128::from(i64::MAX) {
        i64::MAX
    } else {
        number as i64
    }
}

/// Writes a number of nanoseconds as two numbers with these names: the whole seconds, and the nanoseconds after them.
pub fn put_nanoseconds(
    line: &mut Line,
    seconds_name: &str,
    nanoseconds_name: &str,
    nanoseconds: u128,
) -> Result<(), AllocError>
    ensures { OnOk result (tokens_in line.new
        ≡ with_members (nanoseconds_members seconds_name.now nanoseconds_name.now nanoseconds) (tokens_in line.old)) }
{
    let seconds = nanoseconds / NANOSECONDS_PER_SECOND;
    line.put_number(seconds_name, number_of(seconds))?;
    let rest = (nanoseconds % NANOSECONDS_PER_SECOND) as u64;
    line.put_number(nanoseconds_name, rest)
}

/// Returns the number, limited to the greatest unsigned number of 64 bits.
pub fn number_of(number: u128) -> u64
    ensures { result ≡ min number (2 ^ 64 - 1) }
{
    u64::try_from(number).unwrap_or(u64::MAX)
}

/// The time at this number of nanoseconds, which are counted as `capture_file::nanoseconds_of` counts them.
pub fn time_at(nanoseconds: u128) -> PacketTime
    ensures value { result ≡ specs.time_at nanoseconds }
    ensures same { nanoseconds < 2 ^ 64 * nanoseconds_per_second → nanoseconds_of result ≡ nanoseconds }
{
    PacketTime {
        seconds: number_of(nanoseconds / NANOSECONDS_PER_SECOND),
        fraction: (nanoseconds % NANOSECONDS_PER_SECOND) as u64,
        resolution: TimeResolution::PowerOfTen(9),
        offset: i64::MIN,
    }
}
