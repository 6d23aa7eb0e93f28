ghost use Rattle.std.specs.Prelude.{◌≡◌, MatchOption, false};
ghost use Rattle.std.specs.List.{fold, list_any};
ghost use Rattle.reassembly.specs.Waiting as specs;

use crate::FragmentKey;
use crate::reassembly::is_same_key;

/// The number of seconds after which a packet that is not complete is given up. RFC 8200, section 4.5, requires 60 seconds over IPv6, and
/// RFC 1122, section 3.3.2, recommends 60 to 120 seconds over IPv4.
pub const REASSEMBLY_SECONDS: u64 = 60;

/// One of several packets that are put together at the same time.
///
/// ```
/// use reassembly::{Place, Waiting, place_for};
///
/// let waiting = [Waiting { key, since: 100 }, Waiting { key: other, since: 40 }];
/// assert_eq!(rt; place_for(&waiting, &key), Some(Place::Known(0)));
/// assert!(rt; waiting[1].is_expired(101));
/// ```
#[derive(Clone, Copy, Debug, PartialEq, Eq)]
pub struct Waiting {
    /// The key of the packet.
    pub key: FragmentKey,
    /// The time at which its first fragment arrived, in seconds of the caller's clock.
    pub since: u64,
}

/// Which of several reassemblies takes a fragment.
#[derive(Clone, Copy, Debug, PartialEq, Eq)]
pub enum Place {
    /// The reassembly with this index has the key of the fragment.
    Known(usize),
    /// No reassembly has the key of the fragment. The reassembly with this index began first, so it can be given up for the fragment.
    Oldest(usize),
}

impl Waiting {
    /// Whether the packet is given up at this time, in seconds of the same clock. This is more than 60 seconds after its first fragment
    /// arrived (RFC 1122, section 3.3.2; RFC 8200, section 4.5). A time before its first fragment counts as the time of this fragment.
    pub fn is_expired(&self, now: u64) -> bool
        ensures { result ≡ specs.is_expired self.now now }
    {
        now.saturating_sub(self.since) > REASSEMBLY_SECONDS
    }
}

/// Which of several reassemblies takes a fragment with this key. It is the first reassembly with the key. If none has the key, it is the
/// reassembly that began first, and of several the one with the least index. The result is `None` exactly if there is no reassembly.
pub fn place_for(waiting: &[Waiting], key: &FragmentKey) -> Option<Place>
    ensures { specs.IsPlace waiting.now key.now result }
{
    if let Some(index) = known_at(waiting, key) {
        return Some(Place::Known(index));
    }
    let (first, others) = waiting.split_first()?;
    let index = begun_at(waiting, earliest(first.since, others))?;
    Some(Place::Oldest(index))
}

/// The index of the first packet with this key.
fn known_at(waiting: &[Waiting], key: &FragmentKey) -> Option<usize>
    ensures { MatchOption result (list_any (specs.has_key key.now) waiting.now ≡ false) (λ index. specs.IsFirst (specs.has_key key.now) waiting.now index) }
{
    let mut index = 0;
    for other in waiting {
        if is_same_key(&other.key, key) {
            return Some(index);
        }
        index += 1;
    }
    None
}

/// The index of the first packet whose first fragment arrived at this time.
fn begun_at(waiting: &[Waiting], time: u64) -> Option<usize>
    ensures { MatchOption result (list_any (specs.begun_at time) waiting.now ≡ false) (λ index. specs.IsFirst (specs.begun_at time) waiting.now index) }
{
    let mut index = 0;
    for other in waiting {
        if other.since == time {
            return Some(index);
        }
        index += 1;
    }
    None
}

/// The earliest of this time and the times at which first fragments arrived.
fn earliest(first: u64, others: &[Waiting]) -> u64
    ensures { result ≡ fold specs.earlier first others.now }
{
    let mut time = first;
    for other in others {
        time = time.min(other.since);
    }
    time
}
