//! The timeline of a summary, and a packet as this timeline counts it.

ghost use Rattle.std.specs.Prelude.{◌≡◌, IfOk};
ghost use Rattle.std.specs.Int.NonZero.{non_zero_u128_get};
ghost use Rattle.std.specs.Option.{option_map};
ghost use Rattle.capture_file.specs.PacketTimes.{nanoseconds_of};
ghost use Rattle.capture_summary.specs.Events as specs;
ghost use Rattle.timeline.specs.Timelines.{CountsPacket, empty_timeline};

use crate::{CaptureInfo, Protocol, VerdictKind};
use capture_file::{PacketTime, nanoseconds_of};
use std::alloc::{AllocError, Global};
use std::num::NonZeroU128;
use timeline::{Event, Fault, Timeline, Transport};

/// A timeline without packets. Its intervals have this fixed width in nanoseconds, or a width that grows if no width is given.
///
/// # Errors
///
/// `AllocError` if no memory is left, and for no other reason.
pub fn empty_timeline(alloc: Global, interval: Option<NonZeroU128>) -> Result<Timeline, AllocError>
    ensures { IfOk result (λ timeline. timeline ≡ empty_timeline (option_map non_zero_u128_get interval)) }
{
    match interval {
        Some(width) => Timeline::with_width(alloc, width),
        None => Timeline::new(alloc),
    }
}

/// Counts a packet with this protocol and this verdict. `info` is what the capture states about the packet.
pub fn count_event(
    timeline: &mut Timeline,
    protocol: Protocol,
    verdict: VerdictKind,
    info: &CaptureInfo,
)
    ensures { CountsPacket timeline.old (specs.event_of protocol verdict info.now) timeline.new }
{
    timeline.add(&event_of(protocol, verdict, info));
}

/// A packet with this protocol and this verdict. `info` is what the capture states about the packet. The time is a number of nanoseconds,
/// counted from 2^63 seconds before the beginning of 1970.
fn event_of(protocol: Protocol, verdict: VerdictKind, info: &CaptureInfo) -> Event
    ensures { result ≡ specs.event_of protocol verdict info.now }
{
    Event {
        time: time_of(info.time),
        len: info.counted_len(),
        transport: transport_of(protocol),
        fault: fault_of(verdict),
    }
}

/// The time as a number of nanoseconds, if it is known.
fn time_of(time: Option<PacketTime>) -> Option<u128>
    ensures { result ≡ option_map nanoseconds_of time }
{
    match time {
        Some(time) => Some(nanoseconds_of(time)),
        None => None,
    }
}

/// The transport protocol of the packets in this row of the table of protocols.
fn transport_of(protocol: Protocol) -> Transport
    ensures { result ≡ specs.transport_of protocol }
{
    match protocol {
        Protocol::Udp => Transport::Udp,
        Protocol::Tcp => Transport::Tcp,
        Protocol::Icmpv4 | Protocol::Icmpv6 => Transport::Icmp,
        _ => Transport::Other,
    }
}

/// The fault of the packets in this row of the table of checksums.
fn fault_of(verdict: VerdictKind) -> Option<Fault>
    ensures { result ≡ specs.fault_of verdict }
{
    match verdict {
        VerdictKind::Wrong => Some(Fault::Wrong),
        VerdictKind::Refused => Some(Fault::Refused),
        _ => None,
    }
}
