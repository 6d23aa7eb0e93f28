ghost use Rattle.std.specs.Prelude.{◌≡◌};
ghost use Rattle.capture_summary.specs.TimeSpans.{earlier, later, with_time};

use capture_file::{PacketTime, nanoseconds_of};

/// The earliest and the latest time of some packets.
#[derive(Clone, Copy, Debug, PartialEq, Eq)]
pub struct TimeSpan {
    /// The time of the earliest packet.
    pub earliest: PacketTime,
    /// The time of the latest packet.
    pub latest: PacketTime,
}

impl TimeSpan {
    /// The earliest and the latest time after another packet. `span` contains the times before this packet, or is `None` if no earlier
    /// packet has a time. `time` is the time of the packet, or `None` if it is unknown.
    pub fn with_time(span: Option<TimeSpan>, time: Option<PacketTime>) -> Option<TimeSpan>
        ensures { result ≡ with_time span time }
    {
        match (span, time) {
            (span, None) => span,
            (None, Some(time)) => Some(TimeSpan {
                earliest: time,
                latest: time,
            }),
            (Some(span), Some(time)) => Some(TimeSpan {
                earliest: earlier(span.earliest, time),
                latest: later(span.latest, time),
            }),
        }
    }
}

/// The earlier of two times.
fn earlier(first: PacketTime, second: PacketTime) -> PacketTime
    ensures { result ≡ earlier first second }
{
    if nanoseconds_of(second) < nanoseconds_of(first) {
        second
    } else {
        first
    }
}

/// The later of two times.
fn later(first: PacketTime, second: PacketTime) -> PacketTime
    ensures { result ≡ later first second }
{
    if nanoseconds_of(first) < nanoseconds_of(second) {
        second
    } else {
        first
    }
}
