//! A timeline of packets in bounded memory: how many packets and bytes lie in each interval of time.
//!
//! A `Timeline` counts packets one by one. It shows at most `MAX_INTERVALS` intervals of one width. The width is 1, 2 or 5 times a power of
//! ten, in units of time, and is the least such width with which these intervals suffice. The first packet with a time begins the first
//! interval. Packets that are older than the first packet are counted apart, and so are packets without a time.
//!
//! `Timeline::with_width` fixes the width instead. Then there are at most `MAX_FIXED_INTERVALS` intervals, and packets that are later are
//! counted apart.
//!
//! ```
//! let mut timeline = Timeline::new(alloc)?;
//! timeline.add(&event);
//! let intervals = timeline.intervals(alloc)?;
//! ```
#![tactic(auto)]

mod count;
mod counts;
mod event;
#[doc(hidden)]
pub mod laws;
mod merging;
mod timeline;
mod widening;

pub use count::Count;
pub use counts::Counts;
pub use event::{Event, Fault, Transport};
pub use merging::MAX_INTERVALS;
pub use timeline::{MAX_FIXED_INTERVALS, Timeline};
