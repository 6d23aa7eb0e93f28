ghost use Rattle.std.specs.Prelude.{◌≡◌};
ghost use Rattle.ip_part.specs.Addresses.{by_value};
ghost use Rattle.report_page.specs.Rows.{IsRowOf, in_tunnel, ipv4_address, with_ends};
ghost use Rattle.report_page.specs.Rows as specs;

use crate::event::{NO_EVENT, PageEvent, page_event};
use crate::time::{PageTime, UNKNOWN, page_time};
use capture_packet::{Content, Packet, Tunnel};
use capture_summary::{CaptureInfo, Protocol, VerdictKind, flow_of};
use ip_part::IpAddresses;

/// A packet of a capture, as numbers.
#[repr(C)]
#[derive(Clone, Copy)]
pub struct PageRow {
    /// The place at which the record or block of the packet ends, in bytes from the start of the piece.
    pub end: u64,
    /// The capture time.
    pub time: PageTime,
    /// The packet as the timeline counts it.
    pub event: PageEvent,
    /// The place of the row in the table of checksums that the packet is counted in.
    pub verdict: u8,
    /// The place of the row in the table of protocols that the packet is counted in.
    pub protocol: u8,
    /// The IP version of the addresses, 4 or 6, or 0 if there are no addresses.
    pub version: u8,
    /// 1 if the final destination is known, otherwise 0.
    pub has_destination: u8,
    /// 1 if the packet belongs to a flow, otherwise 0. Then its ports are known.
    pub has_flow: u8,
    /// The source port, or 0 without a flow.
    pub source_port: u16,
    /// The destination port, or 0 without a flow.
    pub destination_port: u16,
    /// The source. An IPv4 address is in the first four bytes, and the other bytes are 0.
    pub source: [u8; 16],
    /// The final destination, in the form of the source. All bytes are 0 if it is not known.
    pub destination: [u8; 16],
    /// 1 if the packet is in a tunnel, otherwise 0.
    pub in_tunnel: u8,
}

/// A row before anything is known about the packet.
const EMPTY: PageRow = PageRow {
    end: 0,
    time: UNKNOWN,
    event: NO_EVENT,
    verdict: 0,
    protocol: 0,
    version: 0,
    has_destination: 0,
    has_flow: 0,
    source_port: 0,
    destination_port: 0,
    source: [0; 16],
    destination: [0; 16],
    in_tunnel: 0,
};

/// Returns the row of a packet whose record or block ends at this place. `info` is what the capture states about the packet.
pub(crate) fn row_of(end: u64, info: &CaptureInfo, packet: &Packet<'_>) -> PageRow
    ensures { IsRowOf end info.now packet.now result }
{
    let (verdict, protocol) = (
        VerdictKind::of(&packet.verdict),
        Protocol::of(&packet.content),
    );
    let row = PageRow {
        end,
        time: page_time(info.time),
        event: page_event(protocol, verdict, info),
        verdict: verdict.place() as u8,
        protocol: protocol.place() as u8,
        in_tunnel: in_tunnel(packet.tunnels.as_slice()),
        ..EMPTY
    };
    with_flow(with_ends(row, &packet.content), packet)
}

/// Returns 1 if there are tunnels around a packet, otherwise 0.
fn in_tunnel(tunnels: &[Tunnel<'_>]) -> u8
    ensures { result ≡ in_tunnel tunnels.now }
{
    match tunnels {
        [] => 0,
        _ => 1,
    }
}

/// Adds the addresses of a packet to its row.
fn with_ends(row: PageRow, content: &Content<'_>) -> PageRow
    ensures { result ≡ with_ends row content.now }
{
    match content {
        Content::Ip { addresses, .. } | Content::IpHeader(addresses) => {
            with_addresses(row, *addresses)
        }
        Content::NotIp(_) | Content::Unread => row,
    }
}

/// Adds these addresses to a row.
fn with_addresses(row: PageRow, addresses: IpAddresses<'_>) -> PageRow
    ensures { result ≡ specs.with_addresses row (by_value addresses.entry) }
{
    match addresses {
        IpAddresses::Ipv4 {
            source,
            destination,
        } => PageRow {
            version: 4,
            has_destination: 1,
            source: ipv4_address(source),
            destination: ipv4_address(destination),
            ..row
        },
        IpAddresses::Ipv6 {
            source,
            destination: Some(destination),
        } => PageRow {
            version: 6,
            has_destination: 1,
            source: *source,
            destination: *destination,
            ..row
        },
        IpAddresses::Ipv6 {
            source,
            destination: None,
        } => PageRow {
            version: 6,
            source: *source,
            ..row
        },
    }
}

/// Returns an IPv4 address in 16 bytes.
fn ipv4_address(address: &[u8; 4]) -> [u8; 16]
    ensures { result ≡ ipv4_address address.now }
{
    let [first, second, third, fourth] = *address;
    [
        first, second, third, fourth, 0, 0, 0, 0, 0, 0, 0, 0, 0, 0, 0, 0,
    ]
}

/// Adds the ports of a packet to its row, if the packet belongs to a flow.
fn with_flow(row: PageRow, packet: &Packet<'_>) -> PageRow
    ensures { specs.AddsFlow row packet.now.content result }
{
    match flow_of(packet) {
        Some(flow) => PageRow {
            has_flow: 1,
            source_port: flow.source.port(),
            destination_port: flow.destination.port(),
            ..row
        },
        None => row,
    }
}
