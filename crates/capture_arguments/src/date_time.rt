//! Dates and times as RFC 3339 writes them.

ghost use Rattle.std.specs.Prelude.{◌≡◌, ◌≤◌, ◌<◌, ◌+◌, ◌^◌, ◌+ℤ◌, ◌-ℤ◌, ◌*ℤ◌, ◌↔◌, IsTrue, MatchOption, length, neg_ℤ, pos};
ghost use Rattle.jiff_core.specs.Calendar.{IsBetween, IsEpochDay};
ghost use Rattle.capture_file.specs.PacketTimes.{nanoseconds_per_second};
ghost use Rattle.capture_arguments.specs.DateTimes.{AreDigits, HasDateForm, HasTimeOfDay, HasTwoDigits, IsDateIn, IsDigit, IsFraction, IsNoDateTime, IsNumericOffset, IsOffset, IsSeparator, ReadsDateTime, day_in, fraction_nanoseconds, is_zulu, offset_len, offset_seconds, offset_size, seconds_of_day, sum_of_digits, two_digits, year_in};

use jiff_core::civil::Date;

/// The number of bytes of a date and time before the fraction: `2023-11-14T22:13:20`.
const SECONDS_END: usize = 19;

/// The number of seconds in a day.
const SECONDS_PER_DAY: i64 = 86_400;

/// The number of nanoseconds in a second.
const NANOSECONDS_PER_SECOND: i128 = 1_000_000_000;

/// The number of seconds from the beginning of the times of packets to the beginning of 1970, in UTC.
const BEGINNING_OF_1970: i128 = 1 << 63;

/// The time with this text, which is a date and time of RFC 3339, section 5.6, for example `2023-11-14T22:13:20.000200Z`. It is a number of
/// nanoseconds as `nanoseconds_of` of `capture_file` returns it. A space is also accepted between date and time, and the fraction of a
/// second has at most nine digits. The second 60 is the first second of the next minute. `None` for any other text.
pub fn time_in(text: &str) -> Option<u128>
    ensures { MatchOption result (IsNoDateTime text.now) (ReadsDateTime text.now) }
{
    let bytes = text.as_bytes();
    let offset_len = offset_len(bytes);
    if bytes.len() < SECONDS_END + offset_len {
        return None;
    }
    let fraction_end = bytes.len() - offset_len;
    let fraction = &bytes[SECONDS_END..fraction_end];
    let offset = &bytes[fraction_end..];
    if !has_date_form(bytes) || !has_time_of_day(bytes) {
        return None;
    }
    if !is_fraction(fraction) || !is_offset(offset) {
        return None;
    }
    let day = day_in(bytes)?;
    let seconds = seconds_since_1970(day, seconds_of_day(bytes), offset_seconds(offset));
    Some(shifted_nanoseconds(seconds, fraction_nanoseconds(fraction)))
}

/// The number of seconds from the beginning of 1970, UTC, to a time of day on the day with this number. `offset` is the number of seconds
/// by which the local time is ahead of UTC.
fn seconds_since_1970(day: i64, of_day: u32, offset: i64) -> i64
    requires day { IsEpochDay day }
    requires time { of_day ≤ 86400 }
    requires offset { IsBetween (neg_ℤ (pos 86400)) (pos 86400) offset }
    ensures value { result ≡ day *ℤ pos 86400 +ℤ pos of_day -ℤ offset }
    ensures bound { IsBetween (neg_ℤ (pos (2 ^ 40))) (pos (2 ^ 40)) result }
{
    day * SECONDS_PER_DAY + i64::from(of_day) - offset
}

/// The number of nanoseconds from the beginning of the times of packets to a time, which is given in seconds and nanoseconds since 1970.
fn shifted_nanoseconds(seconds: i64, fraction: u32) -> u128
    requires seconds { IsBetween (neg_ℤ (pos (2 ^ 40))) (pos (2 ^ 40)) seconds }
    requires fraction { fraction ≤ 10 ^ 9 }
    ensures { pos result ≡ (seconds +ℤ pos (2 ^ 63)) *ℤ pos nanoseconds_per_second +ℤ pos fraction }
{
    let shifted = i128::from(seconds) + BEGINNING_OF_1970;
    (shifted * NANOSECONDS_PER_SECOND + i128::from(fraction)) as u128
}

/// Whether a byte is a decimal digit.
fn is_digit(byte: u8) -> bool
    ensures { IsTrue result ↔ IsDigit byte }
{
    b'0' <= byte && byte <= b'9'
}

/// Whether two digits begin at this place.
fn has_two_digits(text: &[u8], place: usize) -> bool
    requires { place + 2 ≤ length text.now }
    ensures { IsTrue result ↔ HasTwoDigits text.now place }
{
    is_digit(text[place]) && is_digit(text[place + 1])
}

/// The number of the two digits that begin at this place.
fn two_digits(text: &[u8], place: usize) -> u32
    requires room { place + 2 ≤ length text.now }
    requires digits { HasTwoDigits text.now place }
    ensures value { result ≡ two_digits text.now place }
    ensures bound { result ≤ 99 }
{
    u32::from(text[place] - b'0') * 10 + u32::from(text[place + 1] - b'0')
}

/// Whether a text begins with a date, such as `2023-11-14`. The calendar need not have this date.
fn has_date_form(text: &[u8]) -> bool
    requires { 19 ≤ length text.now }
    ensures { IsTrue result ↔ HasDateForm text.now }
{
    has_two_digits(text, 0)
        && has_two_digits(text, 2)
        && text[4] == b'-'
        && has_two_digits(text, 5)
        && text[7] == b'-'
        && has_two_digits(text, 8)
}

/// The number of days from 1 January 1970 to the date with which a text begins. `None` if the calendar does not have this date.
fn day_in(text: &[u8]) -> Option<i64>
    requires room { 19 ≤ length text.now }
    requires form { HasDateForm text.now }
    ensures { MatchOption result (IsDateIn text.now → ⊥) (λ day. IsDateIn text.now × ((day ≡ day_in text.now) × IsEpochDay day)) }
{
    let year = two_digits(text, 0) * 100 + two_digits(text, 2);
    let month = two_digits(text, 5);
    let day = two_digits(text, 8);
    match Date::new(year as i16, month as i8, day as i8) {
        Ok(date) => Some(i64::from(date.to_unix_epoch_day())),
        Err(_) => None,
    }
}

/// Whether a byte is between a date and a time of day.
fn is_separator(byte: u8) -> bool
    ensures { IsTrue result ↔ IsSeparator byte }
{
    byte == b'T' || byte == b't' || byte == b' '
}

/// Whether a text has a time of day after the date, such as `T22:13:20`.
fn has_time_of_day(text: &[u8]) -> bool
    requires { 19 ≤ length text.now }
    ensures { IsTrue result ↔ HasTimeOfDay text.now }
{
    is_separator(text[10])
        && has_two_digits(text, 11)
        && text[13] == b':'
        && has_two_digits(text, 14)
        && text[16] == b':'
        && has_two_digits(text, 17)
        && two_digits(text, 11) < 24
        && two_digits(text, 14) < 60
        && two_digits(text, 17) <= 60
}

/// The number of seconds since the day of a text began.
fn seconds_of_day(text: &[u8]) -> u32
    requires room { 19 ≤ length text.now }
    requires time { HasTimeOfDay text.now }
    ensures value { result ≡ seconds_of_day text.now }
    ensures bound { result ≤ 86400 }
{
    two_digits(text, 11) * 3600 + two_digits(text, 14) * 60 + two_digits(text, 17)
}

/// Whether a byte is the letter of UTC.
fn is_zulu(byte: u8) -> bool
    ensures { result ≡ is_zulu byte }
{
    byte == b'Z' || byte == b'z'
}

/// The number of bytes of the offset at the end of a text.
fn offset_len(text: &[u8]) -> usize
    ensures value { result ≡ offset_len text.now }
    ensures bound { result ≤ 6 }
{
    match text {
        [.., last] if is_zulu(*last) => 1,
        _ => 6,
    }
}

/// Whether these bytes are an offset from UTC. A single byte is one of the letters of UTC.
fn is_offset(offset: &[u8]) -> bool
    ensures { IsTrue result ↔ IsOffset offset.now }
{
    offset.len() == 1 || is_numeric_offset(offset)
}

/// Whether these bytes are an offset such as `+01:00`.
fn is_numeric_offset(offset: &[u8]) -> bool
    ensures { IsTrue result ↔ IsNumericOffset offset.now }
{
    offset.len() == 6
        && (offset[0] == b'+' || offset[0] == b'-')
        && has_two_digits(offset, 1)
        && offset[3] == b':'
        && has_two_digits(offset, 4)
        && two_digits(offset, 1) < 24
        && two_digits(offset, 4) < 60
}

/// The number of seconds by which the local time is ahead of UTC.
fn offset_seconds(offset: &[u8]) -> i64
    requires { IsOffset offset.now }
    ensures value { result ≡ offset_seconds offset.now }
    ensures bound { IsBetween (neg_ℤ (pos 86400)) (pos 86400) result }
{
    if offset.len() == 1 {
        return 0;
    }
    let size = i64::from(offset_size(offset));
    if offset[0] == b'-' { -size } else { size }
}

/// The number of seconds in the hours and minutes of an offset.
fn offset_size(offset: &[u8]) -> u32
    requires { IsNumericOffset offset.now }
    ensures value { result ≡ offset_size offset.now }
    ensures bound { result < 86400 }
{
    two_digits(offset, 1) * 3600 + two_digits(offset, 4) * 60
}

/// Whether these bytes are a fraction of a second, such as `.52`, or no bytes.
fn is_fraction(fraction: &[u8]) -> bool
    ensures { IsTrue result ↔ IsFraction fraction.now }
{
    match fraction {
        [] => true,
        [point, digits @ ..] => {
            *point == b'.' && !digits.is_empty() && digits.len() <= 9 && are_digits(digits)
        }
    }
}

/// Whether all these bytes are digits.
fn are_digits(bytes: &[u8]) -> bool
    ensures { IsTrue result ↔ AreDigits bytes.now }
{
    let mut left = bytes;
    while let [byte, others @ ..] = left {
        if !is_digit(*byte) {
            return false;
        }
        left = others;
    }
    true
}

/// The number of nanoseconds in a fraction of a second.
fn fraction_nanoseconds(fraction: &[u8]) -> u32
    requires { IsFraction fraction.now }
    ensures value { result ≡ fraction_nanoseconds fraction.now }
    ensures bound { result ≤ 10 ^ 9 }
{
    match fraction {
        [] => 0,
        [_, digits @ ..] => sum_of_digits(digits),
    }
}

/// The sum of these digits. The first digit counts 100,000,000, and each further digit counts a tenth of the digit before it.
fn sum_of_digits(digits: &[u8]) -> u32
    requires { AreDigits digits.now }
    ensures value { result ≡ sum_of_digits 100000000 digits.now }
    ensures bound { result ≤ 10 ^ 9 }
{
    let mut sum = 0;
    let mut unit = 100_000_000;
    let mut left = digits;
    while let [digit, others @ ..] = left {
        sum += u32::from(*digit - b'0') * unit;
        unit /= 10;
        left = others;
    }
    sum
}
