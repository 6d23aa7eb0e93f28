//! The times that the bins of a timeline have to reach.

ghost use Rattle.std.specs.Prelude.{◌≡◌, ◌<◌, ◌^◌, ◌∷◌, ◌++◌, [], List, IfSome, map};
ghost use Rattle.report_page.specs.Events.{event_in};
ghost use Rattle.report_page.specs.Spans.{IsSpanOf, IsUnitFor};
ghost use Rattle.timeline.specs.declared.event.Event.{Event as PacketEvent};

use crate::bins::MAX_BINS;
use crate::event::{PageEvent, time_in};
use std::cmp::max;

/// The first and the last time of some packets.
#[derive(Clone, Copy)]
pub(crate) struct Span {
    /// The time of the first packet with a time.
    pub start: u128,
    /// The time of the latest packet, at least the start.
    pub last: u128,
}

/// Returns the span of these packets, or `None` if no packet has a time.
pub(crate) fn span_of(events: &[PageEvent]) -> Option<Span>
    ensures span { IsSpanOf (map event_in events.now) result }
    ensures bound { IfSome result (λ span. span.last < 2 ^ 96) }
{
    let mut span = None;
    for event in events {
        span = with_time(span, time_in(event));
    }
    span
}

/// Returns the span of some packets and one more packet.
fn with_time(span: Option<Span>, time: Option<u128>) -> Option<Span>
    requires span { IfSome span (λ before. before.last < 2 ^ 96) }
    requires time { IfSome time (λ known. known < 2 ^ 96) }
    ensures span { (packets : List PacketEvent) (packet : PacketEvent) → packet.time ≡ time → IsSpanOf packets span
        → IsSpanOf (packets ++ packet ∷ []) result }
    ensures bound { IfSome result (λ after. after.last < 2 ^ 96) }
{
    let Some(time) = time else {
        return span;
    };
    match span {
        Some(span) => Some(Span {
            last: max(span.last, time),
            ..span
        }),
        None => Some(Span {
            start: time,
            last: time,
        }),
    }
}

/// Returns the least power of ten with which `MAX_BINS` bins reach this time after the start.
pub(crate) fn unit_for(offset: u128) -> u128
    requires { offset < 2 ^ 96 }
    ensures unit { IsUnitFor offset result }
    ensures bound { (0 < result) × (result < 2 ^ 96) }
{
    let mut unit = 1;
    while offset / unit >= MAX_BINS as u128 {
        unit *= 10;
    }
    unit
}
