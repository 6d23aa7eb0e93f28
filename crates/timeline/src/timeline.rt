ghost use Rattle.std.specs.Prelude.{◌≡◌, ◌≤◌, ◌<◌, ◌⊎◌, ◌+◌, IfOk, List, None, Option, Some, ℕ, [], false, length, slice_index_or, true};
ghost use Rattle.std.specs.Int.NonZero.{non_zero_u128_get};
ghost use Rattle.timeline.specs.Counts.{no_packets};
ghost use Rattle.timeline.specs.Timelines.{AreShown, CountsPacket, IsTimelineOf, empty_timeline, max_fixed_intervals, max_intervals, shown_bins, shown_intervals, shown_width};
ghost use Rattle.timeline.specs.declared.event.Event.{Event as PacketEvent};

use crate::merging::{MAX_BINS, bins_in_interval, merged, merged_at};
use crate::widening::{count_at, widen};
use crate::{Counts, Event};
use std::alloc::{AllocError, Global};
use std::marker::Model;
use std::num::NonZeroU128;

/// The greatest number of intervals of a fixed width.
pub const MAX_FIXED_INTERVALS: usize = 65_536;

/// Counts of packets by intervals of time, in bounded memory.
///
/// The first packet with a time begins the first interval. Later packets that are older are counted apart, and so are packets without a
/// time. If the width is fixed, packets after the last interval are also counted apart. Every other packet is in exactly one interval.
#[derive(Drop)]
pub struct Timeline {
    /// Whether the width of the intervals is fixed.
    is_fixed: bool,
    start: Option<u128>,
    /// The width of a bin. If the width of the intervals is not fixed, it is a power of ten.
    unit: u128,
    bins: Vec<Counts>,
    older: Counts,
    later: Counts,
    untimed: Counts,
}

impl Model for Timeline {
    ghost use Rattle.std.specs.Prelude.{◌≡◌, ◌<◌, ◌≤◌, ◌^◌, false, length, vec_capacity};
    ghost use Rattle.timeline.specs.Timelines.{TimelineBins, most_bins};

    ghost Value = { TimelineBins };

    ghost view = { λ timeline. record {
      is_fixed = timeline.is_fixed;
      start = timeline.start;
      unit = timeline.unit;
      bins = timeline.bins.items;
      older = timeline.older;
      later = timeline.later;
      untimed = timeline.untimed;
    } };

    ghost invariant = { λ timeline.
        (0 < timeline.unit) × (timeline.is_fixed ≡ false → timeline.unit < 2 ^ 121)
        × (length timeline.bins.items ≤ most_bins timeline.is_fixed)
        × (most_bins timeline.is_fixed ≤ vec_capacity timeline.bins) };
}

impl Timeline {
    /// A timeline without packets, whose width grows, with the memory of all its bins.
    ///
    /// # Errors
    ///
    /// `AllocError` if no memory is left, and for no other reason.
    pub fn new(alloc: Global) -> Result<Timeline, AllocError>
        ensures empty { IfOk result (λ timeline. timeline ≡ empty_timeline None) }
        ensures none { IfOk result (λ timeline. IsTimelineOf None [] timeline) }
    {
        let mut bins = Vec::new(alloc);
        bins.try_reserve_exact(MAX_BINS)?;
        Ok(Timeline {
            is_fixed: false,
            start: None,
            unit: 1,
            bins,
            older: Counts::NONE,
            later: Counts::NONE,
            untimed: Counts::NONE,
        })
    }

    /// A timeline without packets, of this width, with the memory of `MAX_FIXED_INTERVALS` intervals. The width never changes. Packets
    /// that are later than all these intervals are counted apart.
    ///
    /// # Errors
    ///
    /// `AllocError` if no memory is left, and for no other reason.
    pub fn with_width(alloc: Global, width: NonZeroU128) -> Result<Timeline, AllocError>
        ensures empty { IfOk result (λ timeline. timeline ≡ empty_timeline (Some (non_zero_u128_get width))) }
        ensures none { IfOk result (λ timeline. IsTimelineOf (Some (non_zero_u128_get width)) [] timeline) }
    {
        let mut bins = Vec::new(alloc);
        bins.try_reserve_exact(MAX_FIXED_INTERVALS)?;
        Ok(Timeline {
            is_fixed: true,
            start: None,
            unit: width.get(),
            bins,
            older: Counts::NONE,
            later: Counts::NONE,
            untimed: Counts::NONE,
        })
    }

    /// Counts a packet.
    pub fn add(&mut self, event: &Event)
        ensures { CountsPacket self.old event.now self.new }
    {
        let time = match event.time {
            Some(time) => time,
            None => {
                self.untimed.add(event);
                return;
            }
        };
        let start = self.start.unwrap_or(time);
        if time < start {
            self.older.add(event);
            return;
        }
        self.add_from(start, time - start, event)
    }

    /// Whether the width of the intervals is fixed.
    pub fn is_fixed(&self) -> bool
        ensures { result ≡ self.now.is_fixed }
    {
        self.is_fixed
    }

    /// The time at which the first interval begins: the time of the first packet with a time. `None` if no packet has a time.
    pub fn start(&self) -> Option<u128>
        ensures { result ≡ self.now.start }
    {
        self.start
    }

    /// The width of the intervals: the fixed width, or 1, 2 or 5 times a power of ten. Then it is the least such width with which
    /// `MAX_INTERVALS` intervals suffice.
    pub fn width(&self) -> u128
        ensures { result ≡ shown_width self.now }
    {
        if self.is_fixed {
            return self.unit;
        }
        self.unit * bins_in_interval(self.bins.len()) as u128
    }

    /// The number of bins in a shown interval.
    fn shown_bins(&self) -> usize
        ensures value { result ≡ shown_bins self.now }
        ensures few { (0 < result) × (result ≤ 5) }
    {
        if self.is_fixed {
            return 1;
        }
        bins_in_interval(self.bins.len())
    }

    /// The counts of the intervals, from the start on. Interval number `n` begins at `start + n * width`. The last interval contains the
    /// latest packet. There is no interval if no packet has a time.
    ///
    /// # Errors
    ///
    /// `AllocError` if no memory is left, and for no other reason.
    pub fn intervals(&self, alloc: Global) -> Result<Vec<Counts>, AllocError>
        ensures value { IfOk result (λ intervals. intervals.items ≡ shown_intervals self.now) }
        ensures shown { IfOk result (λ intervals.
            (width : Option ℕ) (packets : List PacketEvent) → IsTimelineOf width packets self.now
            → AreShown width self.now.start (shown_width self.now) intervals.items packets) }
    {
        merged(alloc, &self.bins, self.shown_bins())
    }

    /// The number of intervals. It is at most `MAX_FIXED_INTERVALS`, and at most `MAX_INTERVALS` if the width is not fixed.
    pub fn interval_count(&self) -> usize
        ensures value { result ≡ length (shown_intervals self.now) }
        ensures few { (result ≤ max_fixed_intervals) × (self.now.is_fixed ≡ false → result ≤ max_intervals) }
    {
        self.bins.len().div_ceil(self.shown_bins())
    }

    /// The counts of interval number `place`. If there are not so many intervals, it is the counts without packets. Nothing is allocated.
    pub fn interval(&self, place: usize) -> Counts
        ensures { result ≡ slice_index_or (shown_intervals self.now) place no_packets }
    {
        if place >= self.interval_count() {
            return Counts::NONE;
        }
        merged_at(&self.bins, self.shown_bins(), place)
    }

    /// Counts a packet with the time `start + offset`, which is not before the start.
    fn add_from(&mut self, start: u128, offset: u128, event: &Event)
        requires timed { event.now.time ≡ Some (start + offset) }
        requires start { (self.old.start ≡ Some start) ⊎ ((self.old.start ≡ None) × (offset ≡ 0)) }
        ensures { CountsPacket self.old event.now self.new }
    {
        if self.is_fixed {
            self.add_fixed(start, offset, event)
        } else {
            self.add_grown(start, offset, event)
        }
    }

    /// Counts a packet as `add_from` does if the width grows.
    fn add_grown(&mut self, start: u128, offset: u128, event: &Event)
        requires grows { self.old.is_fixed ≡ false }
        requires timed { event.now.time ≡ Some (start + offset) }
        requires start { (self.old.start ≡ Some start) ⊎ ((self.old.start ≡ None) × (offset ≡ 0)) }
        ensures { CountsPacket self.old event.now self.new }
    {
        let place = widen(&mut self.unit, &mut self.bins, offset);
        count_at(&mut self.bins, place, MAX_BINS, event);
        self.start = Some(start);
    }

    /// Counts a packet as `add_from` does if the width is fixed.
    fn add_fixed(&mut self, start: u128, offset: u128, event: &Event)
        requires fixed { self.old.is_fixed ≡ true }
        requires timed { event.now.time ≡ Some (start + offset) }
        requires start { (self.old.start ≡ Some start) ⊎ ((self.old.start ≡ None) × (offset ≡ 0)) }
        ensures { CountsPacket self.old event.now self.new }
    {
        let place = offset / self.unit;
        if place >= MAX_FIXED_INTERVALS as u128 {
            self.later.add(event);
            return;
        }
        count_at(&mut self.bins, place as usize, MAX_FIXED_INTERVALS, event);
        self.start = Some(start);
    }

    /// The counts of the packets that are older than the first packet with a time.
    pub fn older(&self) -> Counts
        ensures { result ≡ self.now.older }
    {
        self.older
    }

    /// The counts of the packets that are later than `MAX_FIXED_INTERVALS` intervals of a fixed width. If the width is not fixed, there are
    /// no such packets.
    pub fn later(&self) -> Counts
        ensures { result ≡ self.now.later }
    {
        self.later
    }

    /// The counts of the packets without a time.
    pub fn untimed(&self) -> Counts
        ensures { result ≡ self.now.untimed }
    {
        self.untimed
    }
}
