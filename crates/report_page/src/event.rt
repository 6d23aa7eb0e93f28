ghost use Rattle.std.specs.Prelude.{◌≡◌, ◌<◌, ◌^◌, IfSome};
ghost use Rattle.std.specs.Option.{option_map};
ghost use Rattle.capture_file.specs.PacketTimes.{nanoseconds_of};
ghost use Rattle.capture_summary.specs.Events as summary;
ghost use Rattle.report_page.specs.Events.{event_in, fault_in, time_in, transport_in};

use capture_file::{PacketTime, nanoseconds_of};
use capture_summary::{CaptureInfo, Protocol, VerdictKind};
use timeline::{Event, Fault, Transport};

/// The unit of the high part of a time.
pub(crate) const HIGH_PART: u128 = 1 << 64;

/// A packet as a timeline counts it, as numbers.
#[repr(C)]
#[derive(Clone, Copy)]
pub struct PageEvent {
    /// The low 64 bits of the capture time. The time is a number of nanoseconds, counted from 2^63 seconds before the beginning of 1970.
    pub time_low: u64,
    /// The other bits of the capture time.
    pub time_high: u32,
    /// 1 if the capture time is known, otherwise 0. Then both parts of the time are 0.
    pub has_time: u8,
    /// The transport protocol: 0 for UDP, 1 for TCP, 2 for ICMP, and 3 for another protocol or none.
    pub transport: u8,
    /// 1 if the checksum is wrong, 2 if the packet is refused, and 0 if nothing is known to be wrong.
    pub fault: u8,
    /// The length of the packet in bytes, or 0 if it is not known.
    pub len: u64,
}

/// A packet before anything is known about it.
pub(crate) const NO_EVENT: PageEvent = PageEvent {
    time_low: 0,
    time_high: 0,
    has_time: 0,
    transport: 0,
    fault: 0,
    len: 0,
};

/// Returns a packet with this protocol and this verdict, as a summary counts it. `info` is what the capture states about the packet.
pub(crate) fn page_event(protocol: Protocol, verdict: VerdictKind, info: &CaptureInfo) -> PageEvent
    ensures { event_in result ≡ summary.event_of protocol verdict info.now }
{
    PageEvent {
        len: info.counted_len(),
        transport: transport_of(protocol),
        fault: fault_of(verdict),
        ..with_time(info.time)
    }
}

/// Returns a packet with this capture time.
fn with_time(time: Option<PacketTime>) -> PageEvent
    ensures { time_in result ≡ option_map nanoseconds_of time }
{
    match time {
        Some(time) => {
            let nanoseconds = nanoseconds_of(time);
            PageEvent {
                time_low: (nanoseconds % HIGH_PART) as u64,
                time_high: (nanoseconds / HIGH_PART) as u32,
                has_time: 1,
                ..NO_EVENT
            }
        }
        None => NO_EVENT,
    }
}

/// Returns the number of the transport protocol of the packets in this row of the table of protocols.
fn transport_of(protocol: Protocol) -> u8
    ensures { transport_in result ≡ summary.transport_of protocol }
{
    match protocol {
        Protocol::Udp => 0,
        Protocol::Tcp => 1,
        Protocol::Icmpv4 | Protocol::Icmpv6 => 2,
        _ => 3,
    }
}

/// Returns the number of the fault of the packets in this row of the table of checksums.
fn fault_of(verdict: VerdictKind) -> u8
    ensures { fault_in result ≡ summary.fault_of verdict }
{
    match verdict {
        VerdictKind::Wrong => 1,
        VerdictKind::Refused => 2,
        _ => 0,
    }
}

/// Returns the time that these numbers state.
pub(crate) fn time_in(event: &PageEvent) -> Option<u128>
    ensures value { result ≡ time_in event.now }
    ensures bound { IfSome result (λ time. time < 2 ^ 96) }
{
    if event.has_time == 0 {
        return None;
    }
    Some(u128::from(event.time_high) * HIGH_PART + u128::from(event.time_low))
}

/// Returns the packet that these numbers state.
pub(crate) fn event_in(event: &PageEvent) -> Event
    ensures { result ≡ event_in event.now }
{
    Event {
        time: time_in(event),
        len: event.len,
        transport: transport_in(event.transport),
        fault: fault_in(event.fault),
    }
}

/// Returns the transport protocol with this number.
fn transport_in(number: u8) -> Transport
    ensures { result ≡ transport_in number }
{
    match number {
        0 => Transport::Udp,
        1 => Transport::Tcp,
        2 => Transport::Icmp,
        _ => Transport::Other,
    }
}

/// Returns the fault with this number.
fn fault_in(number: u8) -> Option<Fault>
    ensures { result ≡ fault_in number }
{
    match number {
        1 => Some(Fault::Wrong),
        2 => Some(Fault::Refused),
        _ => None,
    }
}
