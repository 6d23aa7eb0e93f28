ghost use Rattle.std.specs.Prelude.{◌≡◌, ◌<◌, ◌-◌, ◌^◌, ◌+◌};
ghost use Rattle.std.specs.Ordering.{is_lt};
ghost use Rattle.capture_summary.specs.Conversations.{both, row_counted, row_packets};
ghost use Rattle.capture_summary.specs.Ranking.{is_busier};

use crate::{Count, Flow, TimeSpan};
use capture_file::PacketTime;
use std::cmp::Ordering;

/// The counts of the packets of a conversation, one for each of its two directions, and the times of its packets.
#[derive(Clone, Copy, Debug, PartialEq, Eq)]
pub struct ConversationCount {
    /// The direction that was seen first.
    pub flow: Flow,
    /// The count of the packets in this direction.
    pub forward: Count,
    /// The count of the packets in the other direction.
    pub reverse: Count,
    /// The earliest and the latest time of the packets of both directions, in any order of packets. `None` if no time is known.
    pub span: Option<TimeSpan>,
}

impl ConversationCount {
    /// The count of the packets of both directions. The sums saturate at `u64::MAX`.
    pub fn both(&self) -> Count
        ensures { result ≡ both self.now }
    {
        Count {
            packets: self.forward.packets.saturating_add(self.reverse.packets),
            bytes: self.forward.bytes.saturating_add(self.reverse.bytes),
        }
    }

    /// Whether this conversation has more packets than another conversation, or as many packets and more bytes.
    pub fn is_busier(&self, other: &ConversationCount) -> bool
        ensures { result ≡ is_busier self.now other.now }
    {
        let (these, others) = (self.both(), other.both());
        these.packets > others.packets
            || these.packets == others.packets && these.bytes > others.bytes
    }

    /// The order for sorting. The busier conversation is less, so that sorting puts the busiest conversations first.
    pub(crate) fn order(&self, other: &ConversationCount) -> Ordering
        ensures { is_lt result ≡ is_busier self.now other.now }
    {
        if self.is_busier(other) {
            Ordering::Less
        } else if other.is_busier(self) {
            Ordering::Greater
        } else {
            Ordering::Equal
        }
    }

    /// Counts a packet of this flow, of this length in bytes and of this time, if it is known. The flow is one of the two directions of
    /// the conversation.
    pub(crate) fn add(&mut self, flow: &Flow, len: u64, time: Option<PacketTime>)
        requires { row_packets self.old < 2 ^ 64 - 1 }
        ensures counted { self.new ≡ row_counted flow.now len time self.old }
        ensures flow { self.new.flow ≡ self.old.flow }
        ensures one { row_packets self.new ≡ row_packets self.old + 1 }
    {
        self.span = TimeSpan::with_time(self.span, time);
        if flow.is_same(&self.flow) {
            self.forward.add(len);
        } else {
            self.reverse.add(len);
        }
    }
}
