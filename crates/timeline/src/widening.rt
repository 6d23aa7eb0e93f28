//! Bins for a later packet.

ghost use Rattle.std.specs.Prelude.{◌≡◌, ◌≤◌, ◌<◌, ◌*◌, ◌^◌, ◌/◌, ℕ, List, length, vec_capacity};
ghost use Rattle.timeline.specs.Intervals.{AreIntervals, IsPowerOfTen};
ghost use Rattle.timeline.specs.Timelines.{max_bins};
ghost use Rattle.timeline.specs.Widening.{CountsAt};
ghost use Rattle.timeline.specs.declared.event.Event.{Event as PacketEvent};

use crate::merging::{MAX_BINS, coarsen};
use crate::{Counts, Event};

/// Makes the unit ten times as large, as often as needed until at most `MAX_BINS` bins reach this time after the start. The bins contain
/// the same packets as before. Returns the number of the bin of this time.
pub fn widen(unit: &mut u128, bins: &mut Vec<Counts>, offset: u128) -> usize
    requires unit { (0 < unit.old) × (unit.old < 2 ^ 121) }
    requires len { length bins.old.items ≤ max_bins }
    ensures unit { (unit.old ≤ unit.new) × (unit.new < 2 ^ 121) }
    ensures len { length bins.new.items ≤ max_bins }
    ensures place { (result ≡ offset / unit.new) × (result < max_bins) }
    ensures capacity { vec_capacity bins.new ≡ vec_capacity bins.old }
    ensures kept { (start : ℕ) (packets : List PacketEvent)
        → AreIntervals start unit.old bins.old.items packets → AreIntervals start unit.new bins.new.items packets }
    ensures power { IsPowerOfTen unit.old → IsPowerOfTen unit.new }
    ensures least { IsPowerOfTen unit.old
        → (other : ℕ) → IsPowerOfTen other → unit.old ≤ other → offset < max_bins * other → unit.new ≤ other }
{
    let mut place = offset / *unit;
    while place >= MAX_BINS as u128 {
        coarsen(bins);
        *unit *= 10;
        place = offset / *unit;
    }
    place as usize
}

/// Counts a packet in the bin number `place`. There must be room for `most` bins, and this bin must be one of them.
pub fn count_at(bins: &mut Vec<Counts>, place: usize, most: usize, event: &Event)
    requires place { place < most }
    requires capacity { most ≤ vec_capacity bins.old }
    ensures counted { CountsAt place event.now bins.old.items bins.new.items }
    ensures capacity { most ≤ vec_capacity bins.new }
{
    if bins.len() <= place {
        bins.resize(place + 1, Counts::NONE).unwrap();
    }
    bins[place].add(event);
}
