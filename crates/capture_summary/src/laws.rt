//! Laws of the types. Each law is the contract of a function, so that it is checked together with the calls.

ghost use Rattle.std.specs.Prelude.{◌≡◌, ◌↔◌, IsTrue, List, false};
ghost use Rattle.capture_file.specs.declared.packet_time.PacketTime.{PacketTime};
ghost use Rattle.capture_summary.specs.declared.flow.Flow.{Flow};
ghost use Rattle.capture_summary.specs.Conversations.{IsOneConversation, is_one_conversation, is_same_flow, reversed};
ghost use Rattle.capture_summary.specs.CountedPackets.{AreConversationsOf, Seen, goes_back, goes_forward, table_of};
ghost use Rattle.capture_summary.specs.FlowTable.{max_conversations};
ghost use Rattle.capture_summary.specs.Ranking.{default_top};
ghost use Rattle.capture_summary.specs.TimeSpans.{HasSpan, span_of};

use crate::{BUSIEST, Flow, MAX_CONVERSATIONS};

/// Two flows are counted in the same direction of a row exactly if they are the same.
pub fn equal_flow(a: &Flow, b: &Flow) -> bool
    ensures same { IsTrue result ↔ (a.now ≡ b.now) }
    ensures counted { result ≡ is_same_flow a.now b.now }
{
    a.is_same(b)
}

/// Two flows are counted in one row exactly if they are the same or one is the reverse of the other.
pub fn one_conversation(a: &Flow, b: &Flow) -> bool
    ensures one { IsTrue result ↔ IsOneConversation a.now b.now }
    ensures counted { result ≡ is_one_conversation a.now b.now }
{
    equal_flow(a, b) || equal_flow(&a.reversed(), b)
}

/// For any packets, each row of the table counts the packets of its conversation, each in its direction, and contains the span of their
/// times. No two rows belong to the same conversation.
pub fn conversations_of()
    ensures { (packets : List Seen) → AreConversationsOf packets (table_of packets).rows }
{}

/// For any times, the span that is computed time by time begins at the least time and ends at the greatest.
pub fn span_of_times()
    ensures { (times : List PacketTime) → HasSpan times (span_of times) }
{}

/// If source and destination of a packet are exchanged, the same row counts the packet in the other direction. If source and destination
/// are equal, the exchange changes nothing.
pub fn exchanged()
    ensures row { (packet flow : Flow) → is_one_conversation (reversed packet) flow ≡ is_one_conversation packet flow }
    ensures direction { (packet flow : Flow) → is_same_flow flow (reversed flow) ≡ false
        → goes_back flow (reversed packet) ≡ goes_forward flow packet }
{}

/// The limits in the code are the limits in the definitions: the greatest number of conversations with separate counts, and the number of
/// busiest conversations that are listed by default.
pub fn limits()
    ensures counted { MAX_CONVERSATIONS ≡ max_conversations }
    ensures listed { BUSIEST ≡ default_top }
{}
