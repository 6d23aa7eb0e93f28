//! Laws of a timeline. Each law is the contract of a function, so that it is checked together with the calls.

ghost use Rattle.std.specs.Prelude.{◌≡◌, ◌∷◌, List, None, Option, Some, ℕ, true};
ghost use Rattle.timeline.specs.Counts.{counts_of, no_packets, sum_of};
ghost use Rattle.timeline.specs.Timelines.{ArePlaced, AreShown, IsTimelineOf, TimelineBins, shown_intervals, shown_width};
ghost use Rattle.timeline.specs.declared.event.Event.{Event as PacketEvent};

/// The shown intervals contain exactly the packets that are in them by their times, except packets that are later than all intervals of a
/// fixed width. A fixed width is shown. A width that grows is the least width of the scale with which `MAX_INTERVALS` intervals suffice.
pub fn shown()
    ensures { (width : Option ℕ) (packets : List PacketEvent) (timeline : TimelineBins) → IsTimelineOf width packets timeline
        → AreShown width timeline.start (shown_width timeline) (shown_intervals timeline) packets }
{}

/// Each interval of a fixed width contains exactly the packets whose time is in it. There are at most `MAX_FIXED_INTERVALS` intervals.
pub fn fixed()
    ensures { (width start : ℕ) (packets : List PacketEvent) (timeline : TimelineBins) → IsTimelineOf (Some width) packets timeline
        → timeline.start ≡ Some start → ArePlaced start width (shown_intervals timeline) packets }
{}

/// If the width grows, no packet is later than the intervals.
pub fn grown()
    ensures { (packets : List PacketEvent) (timeline : TimelineBins) → IsTimelineOf None packets timeline → timeline.later ≡ no_packets }
{}

/// The sum of all intervals, of the older and the later packets, and of the packets without a time is the counts of all packets.
pub fn totals()
    ensures { (width : Option ℕ) (packets : List PacketEvent) (timeline : TimelineBins) → IsTimelineOf width packets timeline
        → sum_of (timeline.older ∷ timeline.later ∷ timeline.untimed ∷ shown_intervals timeline) ≡ counts_of (λ packet. true) packets }
{}

/// The width that is requested, the packets and their order determine all counts of a timeline.
pub fn unique()
    ensures { (width : Option ℕ) (packets : List PacketEvent) (one other : TimelineBins) → IsTimelineOf width packets one
        → IsTimelineOf width packets other → one ≡ other }
{}
