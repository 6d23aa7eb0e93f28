ghost use Rattle.std.specs.Prelude.{◌≡◌, ◌<◌, ◌≤◌, ◌*◌, ◌/◌, ◌%◌, ◌^◌, ℕ, length, map, slice_index_or};
ghost use Rattle.report_page.specs.Charts.{ShowsTimeline, is_some, number_or_zero, page_count, page_counts, page_timeline, series_words, timeline_in};
ghost use Rattle.report_page.specs.Charts as specs;
ghost use Rattle.report_page.specs.Events.{event_in};
ghost use Rattle.report_page.specs.Text.{with_text};
ghost use Rattle.timeline.specs.Counts.{no_packets};
ghost use Rattle.timeline.specs.Intervals.{merged_at};
ghost use Rattle.timeline.specs.Timelines.{max_bins, max_intervals, shown_intervals};

use crate::bins::{Bins, bins_in_interval, bins_of};
use crate::event::{HIGH_PART, PageEvent};
use crate::text::put;
use std::cmp::min;
use timeline::{Count, Counts, MAX_INTERVALS};

/// A number of packets, and the sum of their lengths in bytes.
#[repr(C)]
#[derive(Clone, Copy)]
pub struct PageCount {
    /// The number of packets.
    pub packets: u64,
    /// The number of bytes.
    pub bytes: u64,
}

/// The counts of some packets, by transport protocol and by fault.
#[repr(C)]
#[derive(Clone, Copy)]
pub struct PageCounts {
    /// All packets.
    pub total: PageCount,
    /// The packets of UDP.
    pub udp: PageCount,
    /// The packets of TCP.
    pub tcp: PageCount,
    /// The packets of ICMP.
    pub icmp: PageCount,
    /// The packets of another protocol, or of none.
    pub other: PageCount,
    /// The packets with a wrong checksum.
    pub wrong: PageCount,
    /// The refused packets.
    pub refused: PageCount,
}

/// A timeline without the counts of its intervals. Its times are numbers of nanoseconds.
#[repr(C)]
#[derive(Clone, Copy)]
pub struct PageTimeline {
    /// The low 64 bits of the time at which the first interval begins. Both parts are 0 if no packet has a time.
    pub start_low: u64,
    /// The high 64 bits of this time.
    pub start_high: u64,
    /// The low 64 bits of the width of the intervals.
    pub width_low: u64,
    /// The high 64 bits of the width.
    pub width_high: u64,
    /// The number of intervals, at most 256. Interval number `n` begins `n` widths after the start.
    pub count: u64,
    /// The packets that are older than the first packet with a time.
    pub older: PageCounts,
    /// The packets without a time.
    pub untimed: PageCounts,
    /// 1 if a packet has a time, otherwise 0.
    pub has_start: u64,
}

/// Counts packets by intervals of time, as the summary of the program does. Writes the timeline of the packets to `timeline`, and the
/// counts of its intervals to `intervals`.
#[unsafe(no_mangle)]
pub extern "C" fn report_page_timeline(
    events: &[PageEvent],
    timeline: &mut PageTimeline,
    intervals: &mut [PageCounts; MAX_INTERVALS],
)
    ensures { ShowsTimeline (map event_in events.now) timeline.new intervals.new }
{
    let bins = bins_of(events);
    *timeline = page_timeline(&bins);
    show_intervals(&bins, intervals);
}

/// Writes the words for the counts of a timeline to `text`, each with a line feed, and returns their length. They are the words of the four
/// protocols, and then of the two faults. If the words are longer than `text`, nothing is written.
#[unsafe(no_mangle)]
pub extern "C" fn report_page_series(text: &mut [u8]) -> usize
    ensures len { result ≡ length series_words }
    ensures text { text.new ≡ with_text series_words text.old }
{
    put(b"UDP\nTCP\nICMP\nother\nwrong\nrefused\n", text)
}

/// Returns the timeline with these bins.
fn page_timeline(bins: &Bins) -> PageTimeline
    requires unit { bins.now.unit < 2 ^ 96 }
    requires len { bins.now.len ≤ max_bins }
    ensures { result ≡ page_timeline (timeline_in bins.now) }
{
    let start = number_or_zero(bins.start);
    let size = bins_in_interval(bins.len);
    let width = bins.unit * size as u128;
    PageTimeline {
        start_low: low_part(start),
        start_high: high_part(start),
        width_low: low_part(width),
        width_high: high_part(width),
        count: bins.len.div_ceil(size) as u64,
        older: page_counts(&bins.older),
        untimed: page_counts(&bins.untimed),
        has_start: is_some(bins.start),
    }
}

/// Returns a number, or 0 if there is none.
fn number_or_zero(number: Option<u128>) -> u128
    ensures { result ≡ number_or_zero number }
{
    match number {
        Some(number) => number,
        None => 0,
    }
}

/// Returns 1 if there is a number, otherwise 0.
fn is_some(number: Option<u128>) -> u64
    ensures { result ≡ is_some number }
{
    match number {
        Some(_) => 1,
        None => 0,
    }
}

/// Returns the low 64 bits of a number.
fn low_part(number: u128) -> u64
    ensures { result ≡ number % 2 ^ 64 }
{
    (number % HIGH_PART) as u64
}

/// Returns the high 64 bits of a number.
fn high_part(number: u128) -> u64
    ensures { result ≡ number / 2 ^ 64 }
{
    (number / HIGH_PART) as u64
}

/// Writes the counts of each interval, and then counts without packets.
fn show_intervals(bins: &Bins, intervals: &mut [PageCounts; MAX_INTERVALS])
    requires { bins.now.len ≤ max_bins }
    ensures { (place : ℕ) → place < max_intervals → slice_index_or intervals.new place (specs.page_counts no_packets)
        ≡ specs.page_counts (slice_index_or (shown_intervals (timeline_in bins.now)) place no_packets) }
{
    for place in 0..MAX_INTERVALS {
        intervals[place] = page_counts(&interval(bins, place));
    }
}

/// Returns the counts of interval number `place`, or counts without packets if there are not so many intervals.
fn interval(bins: &Bins, place: usize) -> Counts
    requires len { bins.now.len ≤ max_bins }
    requires place { place < max_intervals }
    ensures { result ≡ slice_index_or (shown_intervals (timeline_in bins.now)) place no_packets }
{
    let size = bins_in_interval(bins.len);
    if place * size >= bins.len {
        return Counts::NONE;
    }
    merged_at(&bins.all[..bins.len], size, place)
}

/// Returns the sum of `size` bins, from number `place * size` on, or of fewer if the bins end before.
#[tactic(auto, using(crate::proofs::ChartLemmas::slice_run))]
fn merged_at(bins: &[Counts], size: usize, place: usize) -> Counts
    requires size { (0 < size) × (size ≤ 5) }
    requires len { length bins.now ≤ max_bins }
    requires place { place * size < length bins.now }
    ensures { result ≡ merged_at size bins.now place }
{
    let begin = place * size;
    let end = min(begin + size, bins.len());
    Counts::sum(&bins[begin..end])
}

/// Returns counts as numbers of the page.
fn page_counts(counts: &Counts) -> PageCounts
    ensures { result ≡ page_counts counts.now }
{
    PageCounts {
        total: page_count(counts.total()),
        udp: page_count(counts.udp),
        tcp: page_count(counts.tcp),
        icmp: page_count(counts.icmp),
        other: page_count(counts.other),
        wrong: page_count(counts.wrong),
        refused: page_count(counts.refused),
    }
}

/// Returns a count as numbers of the page.
fn page_count(count: Count) -> PageCount
    ensures { result ≡ page_count count }
{
    PageCount {
        packets: count.packets,
        bytes: count.bytes,
    }
}
