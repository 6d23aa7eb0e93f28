ghost use Rattle.std.specs.Prelude.{◌≡◌, ◌<◌, ◌^◌};
ghost use Rattle.capture_file.specs.Packets.{classic_time, timestamp_time};
ghost use Rattle.capture_file.specs.PacketTimes.{nanoseconds_in, nanoseconds_of, shifted_seconds};

use crate::classic::{Resolution, Time};
use crate::pcapng::{InterfaceDescription, TimeResolution};

/// The number of nanoseconds in a second.
pub const NANOSECONDS_PER_SECOND: u128 = 1_000_000_000;

/// The time at which a packet was captured. The sum of the seconds and the offset is the number of seconds since the beginning of 1970,
/// UTC.
#[derive(Clone, Copy, Debug, PartialEq, Eq)]
pub struct PacketTime {
    /// Whole seconds, before the offset is added.
    pub seconds: u64,
    /// The remaining fraction of a second, in units of the resolution. A malformed record of a classic capture can state more than a
    /// second.
    pub fraction: u64,
    /// The unit of the fraction.
    pub resolution: TimeResolution,
    /// The number of seconds to add. It is 0 in a classic capture.
    pub offset: i64,
}

impl PacketTime {
    /// The time of a record of a classic capture.
    pub fn from_record(resolution: Resolution, time: Time) -> PacketTime
        ensures { result ≡ classic_time resolution time }
    {
        PacketTime {
            seconds: u64::from(time.seconds),
            fraction: u64::from(time.fraction),
            resolution: match resolution {
                Resolution::Microseconds => TimeResolution::PowerOfTen(6),
                Resolution::Nanoseconds => TimeResolution::PowerOfTen(9),
            },
            offset: 0,
        }
    }

    /// The time of a packet in a pcapng file. The timestamp is in units of the interface's resolution.
    pub fn from_timestamp(interface: InterfaceDescription, timestamp: u64) -> PacketTime
        ensures { result ≡ timestamp_time interface timestamp }
    {
        let resolution = interface.time_resolution;
        let (seconds, fraction) = match resolution.units_per_second() {
            Some(units) => (timestamp / units, timestamp % units),
            None => (0, timestamp),
        };
        PacketTime {
            seconds,
            fraction,
            resolution,
            offset: interface.time_offset,
        }
    }
}

/// A time as a number of nanoseconds, counted from 2^63 seconds before the beginning of 1970.
pub fn nanoseconds_of(time: PacketTime) -> u128
    ensures value { result ≡ nanoseconds_of time }
    ensures bound { result < 2 ^ 96 }
{
    shifted_seconds(time.seconds, time.offset) * NANOSECONDS_PER_SECOND
        + nanoseconds_in(time.resolution, time.fraction)
}

/// The sum of the seconds, the offset and 2^63. The offset is at least -2^63, so that the sum is never negative.
fn shifted_seconds(seconds: u64, offset: i64) -> u128
    ensures value { result ≡ shifted_seconds seconds offset }
    ensures bound { result < 2 ^ 65 }
{
    (u128::from(seconds) + (1 << 63)).saturating_add_signed(i128::from(offset))
}

/// The number of whole nanoseconds in a fraction of a second.
fn nanoseconds_in(resolution: TimeResolution, fraction: u64) -> u128
    ensures value { result ≡ nanoseconds_in resolution fraction }
    ensures bound { result < 2 ^ 94 }
{
    let fraction = u128::from(fraction);
    let scaled = fraction * NANOSECONDS_PER_SECOND;
    match resolution {
        // The two usual resolutions need no division.
        TimeResolution::PowerOfTen(6) => fraction * 1000,
        TimeResolution::PowerOfTen(9) => fraction,
        TimeResolution::PowerOfTen(exponent) => scaled / 10u128.saturating_pow(u32::from(exponent)),
        TimeResolution::PowerOfTwo(exponent) => scaled / 2u128.saturating_pow(u32::from(exponent)),
    }
}
