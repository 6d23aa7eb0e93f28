//! Laws that the contracts of the calls do not state.
ghost use Rattle.std.specs.Prelude.{◌≡◌, IsOkAnd};
ghost use Rattle.word_sum.specs.ChecksumChange.{added_value, removed_value};
ghost use Rattle.word_sum.specs.SumValue.{sum_value};

use crate::checksum::Sum16BitWords;
use crate::checksum_change::ChecksumChange;
use std::alloc::AllocError;

/// A clone of a sum represents the same number.
pub fn cloned_sum(sum: &Sum16BitWords) -> Result<Sum16BitWords, AllocError>
    ensures same { IsOkAnd result (λ copy. sum_value copy ≡ sum_value sum.now) }
{
    sum.clone()
}

/// A clone of a change represents the same two numbers.
pub fn cloned_change(change: &ChecksumChange) -> Result<ChecksumChange, AllocError>
    ensures same { IsOkAnd result (λ copy. (removed_value copy ≡ removed_value change.now) × (added_value copy ≡ added_value change.now)) }
{
    change.clone()
}
