//! The time of a packet: the time since the first packet, or its date and time.

ghost use Rattle.std.specs.Prelude.{◌≡◌, ◌+◌, ◌<◌, ◌^◌, OnOk, false, nat_lt, true};
ghost use Rattle.std.specs.Fmt.{sign_text};
ghost use Rattle.std.specs.Io.KnownBytes.{Appends};
ghost use Rattle.capture_file.specs.PacketTimes.{nanoseconds_between, nanoseconds_of, nanoseconds_per_second};
ghost use Rattle.capture_words.specs.Elapsed.{duration_text, elapsed_of, elapsed_text, fraction_text, is_coarse, nanoseconds_of_elapsed, since_text};
ghost use Rattle.capture_words.specs.TimeText.{time_text};

use crate::absolute_time::write_absolute;
use crate::times::Times;
use capture_file::pcapng::TimeResolution;
use capture_file::{NANOSECONDS_PER_SECOND, PacketTime, nanoseconds_of};
use std::io;
use std::io::Write;

/// Writes the time of a packet: the time since the first packet, or the date and time. If the time is unknown, it writes a hyphen.
///
/// # Errors
///
/// The error of the writer, if writing fails.
pub fn write_time<W: Write>(
    output: &mut W,
    times: Times,
    first: Option<PacketTime>,
    time: Option<PacketTime>,
) -> io::Result<()>
    ensures { OnOk result (Appends (W.contents output.old) (W.contents output.new) (time_text times first time)) }
{
    match (times, time) {
        (Times::SinceFirst, _) => write_since(output, first, time),
        (Times::Absolute, Some(time)) => write_absolute(output, time),
        (Times::Absolute, None) => write!(output, "-"),
    }
}

/// Writes the time from the first packet to a packet as hours, minutes, seconds and the fraction of a second: `00:00:01.000200`. If the
/// time of the packet is unknown, it writes a hyphen. If `first` is `None`, no earlier packet has a known time, and the time is 0.
///
/// The fraction has six digits of microseconds, or nine digits of nanoseconds if the resolution of the packet is finer. Hours have at least
/// two digits. A minus sign marks a packet that is older than the first packet. In a malformed record the fraction can be a second or more.
/// Whole seconds of the fraction are then added to the seconds.
///
/// # Errors
///
/// The error of the writer, if writing fails.
pub fn write_since<W: Write>(
    output: &mut W,
    first: Option<PacketTime>,
    time: Option<PacketTime>,
) -> io::Result<()>
    ensures { OnOk result (Appends (W.contents output.old) (W.contents output.new) (since_text first time)) }
{
    match time {
        Some(time) => write_elapsed(output, first.unwrap_or(time), time),
        None => write!(output, "-"),
    }
}

/// Writes the time from the first packet to a packet, in the format of `write_since`.
///
/// # Errors
///
/// The error of the writer, if writing fails.
pub fn write_elapsed<W: Write>(
    output: &mut W,
    first: PacketTime,
    time: PacketTime,
) -> io::Result<()>
    ensures { OnOk result (Appends (W.contents output.old) (W.contents output.new) (elapsed_text first time)) }
{
    let (is_older, elapsed) = time_between(first, time);
    write_sign(output, is_older)?;
    write_duration(output, time.resolution, elapsed)
}

/// Writes a minus sign if a packet is older than the first packet, or older than 1970.
pub fn write_sign<W: Write>(output: &mut W, is_older: bool) -> io::Result<()>
    ensures { OnOk result (Appends (W.contents output.old) (W.contents output.new) (sign_text is_older)) }
{
    if is_older {
        write!(output, "-")
    } else {
        Ok(())
    }
}

/// Writes a duration as hours, minutes, seconds and the fraction of a second.
pub fn write_duration<W: Write>(
    output: &mut W,
    resolution: TimeResolution,
    elapsed: Elapsed,
) -> io::Result<()>
    ensures { OnOk result (Appends (W.contents output.old) (W.contents output.new) (duration_text resolution elapsed)) }
{
    let (minutes, seconds) = (elapsed.minutes, elapsed.seconds);
    write!(output, "{:02}:{minutes:02}:{seconds:02}.", elapsed.hours)?;
    write_fraction(output, resolution, elapsed.nanoseconds)
}

/// Writes the fraction of a second: six digits of microseconds, or nine digits of nanoseconds if the resolution is finer.
pub fn write_fraction<W: Write>(
    output: &mut W,
    resolution: TimeResolution,
    nanoseconds: u64,
) -> io::Result<()>
    ensures { OnOk result (Appends (W.contents output.old) (W.contents output.new) (fraction_text resolution nanoseconds)) }
{
    if is_coarse(resolution) {
        let microseconds = nanoseconds / 1000;
        write!(output, "{microseconds:06}")
    } else {
        write!(output, "{nanoseconds:09}")
    }
}

/// Whether the resolution is microseconds or coarser.
fn is_coarse(resolution: TimeResolution) -> bool
    ensures { result ≡ is_coarse resolution }
{
    match resolution.units_per_second() {
        Some(units) => units <= 1_000_000,
        None => false,
    }
}

/// Whether a packet is older than the first packet, and the time between both packets.
fn time_between(first: PacketTime, time: PacketTime) -> (bool, Elapsed)
    ensures older { result.0 ≡ nat_lt (nanoseconds_of time) (nanoseconds_of first) }
    ensures after { result.0 ≡ false → nanoseconds_of first + nanoseconds_of_elapsed result.1 ≡ nanoseconds_of time }
    ensures parts { result.1 ≡ elapsed_of (nanoseconds_between first time) }
    ensures before { result.0 ≡ true → nanoseconds_of time + nanoseconds_of_elapsed result.1 ≡ nanoseconds_of first }
{
    let (begin, end) = (nanoseconds_of(first), nanoseconds_of(time));
    if end < begin {
        (true, Elapsed::from_nanoseconds(begin - end))
    } else {
        (false, Elapsed::from_nanoseconds(end - begin))
    }
}

/// A duration as hours, minutes, seconds and nanoseconds.
#[derive(Clone, Copy)]
pub(crate) struct Elapsed {
    /// Whole hours.
    hours: u64,
    /// The remaining minutes, below 60.
    minutes: u64,
    /// The remaining seconds, below 60.
    seconds: u64,
    /// The remaining nanoseconds, below a second.
    nanoseconds: u64,
}

impl Elapsed {
    /// Returns this number of nanoseconds as hours, minutes, seconds and nanoseconds.
    pub fn from_nanoseconds(nanoseconds: u128) -> Elapsed
        requires { nanoseconds < 2 ^ 96 }
        ensures parts { result ≡ elapsed_of nanoseconds }
        ensures whole { nanoseconds_of_elapsed result ≡ nanoseconds }
        ensures minutes { result.minutes < 60 }
        ensures seconds { result.seconds < 60 }
        ensures fraction { result.nanoseconds < nanoseconds_per_second }
    {
        let seconds = nanoseconds / NANOSECONDS_PER_SECOND;
        Elapsed {
            hours: (seconds / 3600) as u64,
            minutes: (seconds / 60 % 60) as u64,
            seconds: (seconds % 60) as u64,
            nanoseconds: (nanoseconds % NANOSECONDS_PER_SECOND) as u64,
        }
    }
}
