ghost use Rattle.std.specs.Prelude.{◌≡◌, ◌<◌, ◌^◌};
ghost use Rattle.capture_summary.specs.Rates as specs;

use crate::TimeSpan;
use capture_file::{NANOSECONDS_PER_SECOND, nanoseconds_of};

/// The average rates per second from the earliest packet to the latest, rounded down.
#[derive(Clone, Copy, Debug, PartialEq, Eq)]
pub struct Rates {
    /// The number of packets per second.
    pub packets: u128,
    /// The number of bits per second.
    pub bits: u128,
}

impl Rates {
    /// The rates of these numbers of packets and bytes, or `None` if the earliest and the latest time are equal.
    pub fn of(packets: u64, bytes: u64, span: TimeSpan) -> Option<Rates>
        ensures { result ≡ specs.rates_of packets bytes span }
    {
        let nanoseconds = nanoseconds_of(span.earliest).abs_diff(nanoseconds_of(span.latest));
        if nanoseconds == 0 {
            return None;
        }
        Some(Rates {
            packets: per_second(u128::from(packets), nanoseconds),
            bits: per_second(u128::from(bytes) * 8, nanoseconds),
        })
    }
}

/// The amount per second, rounded down. `nanoseconds` is the time in which the whole amount was counted.
fn per_second(amount: u128, nanoseconds: u128) -> u128
    requires amount { amount < 2 ^ 96 }
    requires time { 0 < nanoseconds }
    ensures { result ≡ specs.per_second amount nanoseconds }
{
    amount * NANOSECONDS_PER_SECOND / nanoseconds
}
