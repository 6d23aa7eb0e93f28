ghost use Rattle.std.specs.Prelude.{◌↔◌, IsTrue};
ghost use Rattle.capture_summary.specs.TimeRanges.{IsInTimes, IsTimeIn};

use capture_file::{PacketTime, nanoseconds_of};

/// The times from `from` up to `to`. `from` is in the range, and `to` is not. Both are numbers of nanoseconds as `nanoseconds_of` of
/// `capture_file` returns them. The range is empty if `from` is not before `to`.
#[derive(Clone, Copy, Debug, PartialEq, Eq)]
pub struct TimeRange {
    /// The beginning of the range, or `None` if the range has no beginning.
    pub from: Option<u128>,
    /// The end of the range, or `None` if the range has no end.
    pub to: Option<u128>,
}

impl TimeRange {
    /// The range of all times. It also includes packets without a time.
    pub const ALL: TimeRange = TimeRange {
        from: None,
        to: None,
    };

    /// Whether the time of a packet is in the range. If the time is unknown, the result is `true` only if the range has neither a beginning
    /// nor an end.
    pub fn includes(&self, time: Option<PacketTime>) -> bool
        ensures { IsTrue result ↔ IsInTimes self.now time }
    {
        // This call is made for each packet. So a time is converted only if there is a range.
        if self.from.is_none() && self.to.is_none() {
            return true;
        }
        match time {
            Some(time) => self.contains(nanoseconds_of(time)),
            None => false,
        }
    }

    /// Whether this number of nanoseconds is in the range.
    fn contains(&self, nanoseconds: u128) -> bool
        ensures { IsTrue result ↔ IsTimeIn self.now nanoseconds }
    {
        let has_begun = match self.from {
            Some(from) => from <= nanoseconds,
            None => true,
        };
        let has_ended = match self.to {
            Some(to) => to <= nanoseconds,
            None => false,
        };
        has_begun && !has_ended
    }
}
