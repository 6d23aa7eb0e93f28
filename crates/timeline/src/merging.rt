//! Sums of neighboring intervals.

ghost use Rattle.std.specs.Prelude.{◌≡◌, ◌≤◌, ◌<◌, ◌*◌, IfOk, length, vec_capacity};
ghost use Rattle.timeline.specs.Intervals.{merged, merged_at};
ghost use Rattle.timeline.specs.Timelines.{bins_in_interval, max_bins, max_fixed_intervals};

use crate::Counts;
use std::alloc::{AllocError, Global};
use std::cmp::min;

/// The greatest number of intervals that a timeline shows.
pub const MAX_INTERVALS: usize = 256;

/// The greatest number of bins that a timeline keeps. If there is one bin more, the unit grows.
pub const MAX_BINS: usize = 5 * MAX_INTERVALS;

/// The number of bins that become one bin if the unit grows.
pub const TEN: usize = 10;

/// The number of bins in a shown interval: 1, 2 or 5. It is the least of them with which `MAX_INTERVALS` intervals suffice for this number
/// of bins, if there are at most `MAX_BINS`.
pub fn bins_in_interval(bins: usize) -> usize
    ensures value { result ≡ bins_in_interval bins }
    ensures few { (0 < result) × (result ≤ 5) }
{
    if bins <= MAX_INTERVALS {
        1
    } else if bins <= 2 * MAX_INTERVALS {
        2
    } else {
        5
    }
}

/// The intervals after each `size` intervals become one. The last one can be the sum of fewer.
///
/// # Errors
///
/// `AllocError` if no memory is left, and for no other reason.
pub fn merged(alloc: Global, intervals: &[Counts], size: usize) -> Result<Vec<Counts>, AllocError>
    requires size { (0 < size) × (size ≤ 10) }
    requires len { length intervals.now ≤ max_fixed_intervals }
    ensures { IfOk result (λ merged_intervals. merged_intervals.items ≡ merged size intervals.now) }
{
    let mut merged = Vec::new(alloc);
    for place in 0..intervals.len().div_ceil(size) {
        merged.push(merged_at(intervals, size, place))?;
    }
    Ok(merged)
}

/// Each ten bins become one. The last one can be the sum of fewer.
pub fn coarsen(bins: &mut Vec<Counts>)
    requires { length bins.old.items ≤ max_bins }
    ensures items { bins.new.items ≡ merged 10 bins.old.items }
    ensures capacity { vec_capacity bins.new ≡ vec_capacity bins.old }
{
    let len = bins.len().div_ceil(TEN);
    for place in 0..len {
        bins[place] = merged_at(bins, TEN, place);
    }
    bins.truncate(len);
}

/// The sum of `size` intervals, from number `place * size` on, or of fewer if the intervals end before.
#[tactic(auto, using(crate::proofs::MergingLemmas::slice_run))]
pub fn merged_at(intervals: &[Counts], size: usize, place: usize) -> Counts
    requires size { (0 < size) × (size ≤ 10) }
    requires len { length intervals.now ≤ max_fixed_intervals }
    requires place { place * size < length intervals.now }
    ensures { result ≡ merged_at size intervals.now place }
{
    let begin = place * size;
    let end = min(begin + size, intervals.len());
    Counts::sum(&intervals[begin..end])
}
