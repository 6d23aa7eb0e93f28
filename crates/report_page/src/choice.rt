ghost use Rattle.std.specs.Prelude.{◌≡◌, ◌↔◌, IfSome, IsTrue, length};
ghost use Rattle.capture_summary.specs.Choice.{IsChosen};
ghost use Rattle.report_page.specs.Choices.{AnswersFirst, ChoosesFirst, address_of, answer_of, choice_of, hosts_of, ports_of};

use crate::piece::{first_item, is_set};
use capture_file::PacketTime;
use capture_file::reader::NextPacket;
use capture_packet::Packet;
use capture_request::{packet_in_frame, packet_without_room};
use capture_summary::{Choice, Hosts, MAX_CHOSEN, Network, PortRange, Ports};
use std::net::{IpAddr, Ipv4Addr, Ipv6Addr};

/// The packet is not chosen.
const NOT_CHOSEN: u32 = 0;

/// The packet is chosen.
const CHOSEN: u32 = 1;

/// There is no packet.
const NO_PACKET: u32 = 2;

/// A choice of packets by a host and a port.
#[repr(C)]
#[derive(Clone, Copy)]
pub struct PageChoice {
    /// The address of the host. An IPv4 address is in the first four bytes.
    pub host: [u8; 16],
    /// The IP version of the address, 4 or 6. With another number, a packet of any host is chosen.
    pub version: u8,
    /// 0 if a packet of any port is chosen.
    pub has_port: u8,
    /// The port.
    pub port: u16,
    /// 0 if tunnels in UDP are not opened, as without `--tunnels`.
    pub opens_udp_tunnels: u8,
}

/// Returns whether the program reports the first packet of a piece with `--host` and `--port`: 1 if it does, and 0 if it does not. `buffer`
/// is room for a packet, as long as `report_page_rows` has it. The result is 2 if the piece does not begin with a packet.
#[unsafe(no_mangle)]
pub extern "C" fn report_page_chooses(piece: &[u8], buffer: &mut [u8], choice: &PageChoice) -> u32
    ensures { AnswersFirst piece.now (length buffer.old) choice.now result }
{
    match chooses_first(piece, buffer, choice) {
        Some(chosen) => answer_of(chosen),
        None => NO_PACKET,
    }
}

/// Returns a truth value as a number.
fn answer_of(chosen: bool) -> u32
    ensures { result ≡ answer_of chosen }
{
    if chosen { CHOSEN } else { NOT_CHOSEN }
}

/// Returns whether the first packet of a piece is chosen, or `None` if the piece does not begin with a packet.
fn chooses_first(piece: &[u8], buffer: &mut [u8], choice: &PageChoice) -> Option<bool>
    ensures { IfSome result (ChoosesFirst piece.now (length buffer.old) choice.now) }
{
    let (_, next) = first_item(piece, buffer)?;
    match next {
        NextPacket::Whole(captured) => {
            let frame = &buffer[captured.start..captured.start + captured.captured_len];
            let packet = packet_in_frame(&captured, frame, is_set(choice.opens_udp_tunnels));
            Some(chooses(choice, &packet, captured.time))
        }
        NextPacket::TooLong(captured) => {
            let packet = packet_without_room(captured.required_len);
            Some(chooses(choice, &packet, captured.time))
        }
        _ => None,
    }
}

/// Returns whether a packet with this time is chosen.
fn chooses(choice: &PageChoice, packet: &Packet<'_>, time: Option<PacketTime>) -> bool
    ensures { IsTrue result ↔ IsChosen (choice_of choice.now) packet.now time }
{
    choice_of(choice).includes(packet, time)
}

/// Returns the choice of the program for a choice of the page.
fn choice_of(choice: &PageChoice) -> Choice
    ensures { result ≡ choice_of choice.now }
{
    Choice {
        hosts: hosts_of(address_of(choice)),
        ports: ports_of(choice),
        udp_tunnels: is_set(choice.opens_udp_tunnels),
        ..Choice::ALL
    }
}

/// Returns the address of the host, or `None` if a packet of any host is chosen.
fn address_of(choice: &PageChoice) -> Option<IpAddr>
    ensures { result ≡ address_of choice.now.version choice.now.host }
{
    let host = choice.host;
    match choice.version {
        4 => Some(IpAddr::V4(Ipv4Addr::new(host[0], host[1], host[2], host[3]))),
        6 => Some(IpAddr::V6(Ipv6Addr::from_octets(host))),
        _ => None,
    }
}

/// Returns the hosts that contain only this address, if there is an address.
fn hosts_of(address: Option<IpAddr>) -> Option<Hosts>
    ensures { result ≡ hosts_of address }
{
    let mut hosts = [None; MAX_CHOSEN];
    hosts[0] = Some(Network::single(address?));
    Some(hosts)
}

/// Returns the ports that contain only the port of a choice, if it has a port.
fn ports_of(choice: &PageChoice) -> Option<Ports>
    ensures { result ≡ ports_of choice.now }
{
    if choice.has_port == 0 {
        return None;
    }
    let mut ports = [None; MAX_CHOSEN];
    ports[0] = Some(PortRange {
        first: choice.port,
        last: choice.port,
    });
    Some(ports)
}
