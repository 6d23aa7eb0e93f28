//! The width of the intervals of the timeline that the arguments give.

ghost use Rattle.std.specs.Prelude.{◌≡◌, ◌≤◌, ◌<◌, ◌-◌, ◌^◌, ℕ, IfErr, IfOk, IfSome, MatchOption, OnErr, codes, option_map, string_bytes};
ghost use Rattle.std.specs.Int.NonZero.{non_zero_u128_get};
ghost use Rattle.clap.specs.Words.{first_value, found_of};
ghost use Rattle.capture_arguments.specs.Intervals.{IsFraction, IsIntervalOf, IsNoInterval, IsNumber, IsSeconds, IsSum, IsWhole, IsWrongInterval, ReadsInterval, interval_text, max_interval, parts_in};

use crate::memory::Memory;
use clap::ArgMatches;
use std::alloc::AllocError;
use std::num::NonZeroU128;

/// The number of nanoseconds in a second.
const NANOSECONDS: u128 = 1_000_000_000;

/// The greatest number of digits after the point.
const MAX_DIGITS: usize = 9;

/// The greatest width in nanoseconds.
const MAX_INTERVAL: u128 = 1_000_000_000 * NANOSECONDS;

/// The fixed width of the intervals in nanoseconds, if these matches contain one. A text that is not a width is returned as the error.
pub fn interval_of<'a>(matches: &ArgMatches<'a>) -> Result<Option<NonZeroU128>, &'a str>
    ensures interval { IfOk result (λ interval.
        IsIntervalOf (first_value (found_of matches.now) (codes "interval")) (option_map non_zero_u128_get interval)) }
    ensures refusal { IfErr result (λ wrong. IsWrongInterval (first_value (found_of matches.now) (codes "interval")) wrong.now) }
{
    match matches.get_str("interval") {
        Some(text) => match interval_in(text) {
            Some(interval) => Ok(Some(interval)),
            None => Err(text),
        },
        None => Ok(None),
    }
}

/// The width in nanoseconds with this text: a number of seconds that is not 0. `None` for any other text, and for a number above
/// `MAX_INTERVAL`.
fn interval_in(text: &str) -> Option<NonZeroU128>
    ensures { MatchOption result (IsNoInterval text.now) (λ interval. ReadsInterval text.now (non_zero_u128_get interval)) }
{
    let nanoseconds = match nanoseconds_in(text) {
        Some(nanoseconds) => nanoseconds,
        None => return None,
    };
    if nanoseconds > MAX_INTERVAL {
        return None;
    }
    NonZeroU128::new(nanoseconds)
}

/// The number of nanoseconds in the number of seconds with this text. `None` if the text is no number of seconds, and for some numbers above
/// `MAX_INTERVAL`.
fn nanoseconds_in(text: &str) -> Option<u128>
    ensures { MatchOption result ((nanoseconds : ℕ) → IsSeconds text.now nanoseconds → max_interval < nanoseconds) (IsSeconds text.now) }
{
    match parts_in(text) {
        Some((whole, fraction)) => sum_in(whole, fraction),
        None => whole_in(text),
    }
}

/// The texts before and after the first point, if there is one.
fn parts_in(text: &str) -> Option<(&str, &str)>
    ensures { option_map (λ parts. (parts.0.now, parts.1.now)) result ≡ parts_in text.now }
{
    text.split_once('.')
}

/// The number of nanoseconds in a number of seconds with these texts before and after its point. `None` if the texts contain other bytes
/// than digits, or more than nine digits after the point, and for some numbers above `MAX_INTERVAL`.
fn sum_in(whole: &str, fraction: &str) -> Option<u128>
    ensures { MatchOption result ((nanoseconds : ℕ) → IsSum whole.now fraction.now nanoseconds → max_interval < nanoseconds)
        (IsSum whole.now fraction.now) }
{
    let first = match whole_in(whole) {
        Some(first) => first,
        None => return None,
    };
    match fraction_in(fraction) {
        Some(second) => Some(first + second),
        None => None,
    }
}

/// The number of nanoseconds in the number of whole seconds with this text. `None` if the text contains other bytes than digits, and for
/// some numbers above `MAX_INTERVAL`.
fn whole_in(text: &str) -> Option<u128>
    ensures value { MatchOption result ((nanoseconds : ℕ) → IsWhole text.now nanoseconds → max_interval < nanoseconds) (IsWhole text.now) }
    ensures bound { IfSome result (λ nanoseconds. nanoseconds < 2 ^ 94) }
{
    match number_in(text) {
        Some(seconds) => Some(u128::from(seconds) * NANOSECONDS),
        None => None,
    }
}

/// The number of nanoseconds in the digits after a point. `None` if the text contains other bytes than digits, or more than nine digits.
fn fraction_in(text: &str) -> Option<u128>
    ensures value { MatchOption result ((nanoseconds : ℕ) → ¬ (IsFraction text.now nanoseconds)) (IsFraction text.now) }
    ensures bound { IfSome result (λ nanoseconds. nanoseconds < 2 ^ 94) }
{
    if text.len() > MAX_DIGITS {
        return None;
    }
    match number_in(text) {
        Some(digits) => Some(u128::from(digits) * unit_after(text.len())),
        None => None,
    }
}

/// The number of nanoseconds in one unit of the last of so many digits after the point.
fn unit_after(digits: usize) -> u128
    requires { digits ≤ 9 }
    ensures value { result ≡ 10 ^ (9 - digits) }
    ensures bound { result ≤ 10 ^ 9 }
{
    10_u128.pow((MAX_DIGITS - digits) as u32)
}

/// The number that these decimal digits are. `None` if the text is empty or contains other bytes, and for a number that does not fit.
fn number_in(text: &str) -> Option<u64>
    ensures { MatchOption result ((number : ℕ) → IsNumber text.now number → 2 ^ 64 ≤ number) (IsNumber text.now) }
{
    if let [b'+', ..] = text.as_bytes() {
        return None;
    }
    match text.parse::<u64>() {
        Ok(number) => Some(number),
        Err(_) => None,
    }
}

/// The message about a wrong width.
pub fn interval_text<M: Memory>(memory: &M, text: &str) -> Result<String, AllocError>
    ensures text { IfOk result (λ message. string_bytes message ≡ interval_text text.now) }
    ensures ran_out { OnErr result (M.ran_out memory.now) }
{
    memory.text(format_args!(
        "invalid value '{text}' for '--interval <SECONDS>': not a number of seconds from 0.000000001 to 1000000000, such as 0.5"
    ))
}
