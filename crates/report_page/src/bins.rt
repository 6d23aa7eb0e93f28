//! The bins of a timeline: intervals of one width. A shown interval is the sum of one, two or five bins.
//!
//! A `Timeline` has its bins on the heap, and is made one packet at a time. WebAssembly with 64-bit memories has no heap here. But the page
//! has all packets, so that their times are known before the first packet is counted. The contracts cite the definitions of `timeline`.

ghost use Rattle.std.specs.Prelude.{◌≡◌, ◌<◌, ◌≤◌, ◌*◌, ◌+◌, ◌^◌, ◌∷◌, ◌++◌, [], All, List, None, map};
ghost use Rattle.report_page.specs.Charts.{timeline_in};
ghost use Rattle.report_page.specs.Events.{event_in};
ghost use Rattle.report_page.specs.Spans.{AreCounted, no_bins, of_transport};
ghost use Rattle.timeline.specs.Counts.{counts_with, no_packets};
ghost use Rattle.timeline.specs.Intervals.{IsBefore};
ghost use Rattle.timeline.specs.Timelines.{IsTimelineOf, bins_in_interval, max_bins};
ghost use Rattle.timeline.specs.declared.event.Event.{Event as PacketEvent};

use crate::event::{PageEvent, event_in};
use crate::span::{span_of, unit_for};
use timeline::{Count, Counts, Event, Fault, MAX_INTERVALS, Transport};

/// The greatest number of bins.
pub(crate) const MAX_BINS: usize = 5 * MAX_INTERVALS;

/// The bins of a timeline, and the packets that are in no bin.
#[derive(Drop)]
pub(crate) struct Bins {
    /// The time at which the first bin begins, or `None` if no packet has a time.
    pub start: Option<u128>,
    /// The width of a bin, a power of ten.
    pub unit: u128,
    /// The number of bins. The last one contains the latest packet.
    pub len: usize,
    /// The counts of each bin, and then counts without packets.
    pub all: [Counts; MAX_BINS],
    /// The packets that are older than the start.
    pub older: Counts,
    /// The packets without a time.
    pub untimed: Counts,
}

/// Returns the bins of these packets.
pub(crate) fn bins_of(events: &[PageEvent]) -> Bins
    ensures timeline { IsTimelineOf None (map event_in events.now) (timeline_in result) }
    ensures unit { (0 < result.unit) × (result.unit < 2 ^ 96) }
    ensures len { result.len ≤ max_bins }
{
    let Some(span) = span_of(events) else {
        return counted(events, 0, 1);
    };
    let offset = span.last - span.start;
    let unit = unit_for(offset);
    let counted = counted(events, span.start, unit);
    Bins {
        start: Some(span.start),
        len: (offset / unit) as usize + 1,
        ..counted
    }
}

/// Returns bins that count these packets, without the start and the number of bins.
fn counted(events: &[PageEvent], start: u128, unit: u128) -> Bins
    requires unit { 0 < unit }
    requires reaches { All (λ packet. IsBefore (start + max_bins * unit) packet.time) (map event_in events.now) }
    ensures counted { AreCounted start result (map event_in events.now) }
    ensures same { (result.start ≡ None) × (result.unit ≡ unit) × (result.len ≡ 0) }
{
    let mut bins = no_bins(unit);
    for event in events {
        count(&mut bins, start, &event_in(event));
    }
    bins
}

/// Returns bins without packets.
fn no_bins(unit: u128) -> Bins
    ensures { result ≡ no_bins unit }
{
    Bins {
        start: None,
        unit,
        len: 0,
        all: [Counts::NONE; MAX_BINS],
        older: Counts::NONE,
        untimed: Counts::NONE,
    }
}

/// Counts one more packet.
fn count(bins: &mut Bins, start: u128, event: &Event)
    requires unit { 0 < bins.old.unit }
    requires reaches { IsBefore (start + max_bins * bins.old.unit) event.now.time }
    ensures counted { (packets : List PacketEvent) → AreCounted start bins.old packets
        → AreCounted start bins.new (packets ++ event.now ∷ []) }
    ensures same { (bins.new.start ≡ bins.old.start) × (bins.new.unit ≡ bins.old.unit) × (bins.new.len ≡ bins.old.len) }
{
    let one = counts_of_one(event);
    let Some(time) = event.time else {
        bins.untimed = bins.untimed.plus(&one);
        return;
    };
    if time < start {
        bins.older = bins.older.plus(&one);
        return;
    }
    let place = ((time - start) / bins.unit) as usize;
    bins.all[place] = bins.all[place].plus(&one);
}

/// Returns the counts of one packet.
fn counts_of_one(event: &Event) -> Counts
    ensures { result ≡ counts_with event.now no_packets }
{
    let one = Count {
        packets: 1,
        bytes: event.len,
    };
    let counts = of_transport(event.transport, one);
    match event.fault {
        Some(Fault::Wrong) => Counts {
            wrong: one,
            ..counts
        },
        Some(Fault::Refused) => Counts {
            refused: one,
            ..counts
        },
        None => counts,
    }
}

/// Returns counts that are without packets, except for this protocol.
fn of_transport(transport: Transport, count: Count) -> Counts
    ensures { result ≡ of_transport transport count }
{
    match transport {
        Transport::Udp => Counts {
            udp: count,
            ..Counts::NONE
        },
        Transport::Tcp => Counts {
            tcp: count,
            ..Counts::NONE
        },
        Transport::Icmp => Counts {
            icmp: count,
            ..Counts::NONE
        },
        Transport::Other => Counts {
            other: count,
            ..Counts::NONE
        },
    }
}

/// Returns the number of bins in a shown interval, if there are this many bins.
pub(crate) fn bins_in_interval(bins: usize) -> usize
    ensures value { result ≡ bins_in_interval bins }
    ensures few { (0 < result) × (result ≤ 5) }
{
    if bins <= MAX_INTERVALS {
        1
    } else if bins <= 2 * MAX_INTERVALS {
        2
    } else {
        5
    }
}
