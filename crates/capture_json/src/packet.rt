//! The line of a packet.

ghost use Rattle.std.specs.Prelude.{◌≡◌, OnOk};
ghost use Rattle.ip_part.specs.Addresses.{by_value};
ghost use Rattle.capture_json.specs.Tokens.{PutsOne, tokens_in, with_members};
ghost use Rattle.capture_json.specs.JsonPacket.{AreContentMembers, ArePacketMembers, AreReadMembers, AreTransportMembers, IsJsonLine, frame_members, hop_limit_members, time_members, udp_members};
ghost use Rattle.capture_words.specs.Written.{AppendsOne};

use crate::Line;
use crate::addresses::{put_addresses, put_payload_len, put_ports};
use crate::arp::put_arp;
use crate::comments::put_comments;
use crate::fragment::put_fragment;
use crate::icmp::{put_icmpv4, put_icmpv6};
use crate::interface::put_interface;
use crate::network::put_network_protocol;
use crate::protocol::put_ip_protocol;
use crate::quoted::put_quoted;
use crate::tcp::put_tcp;
use crate::text::{put_written, write_line};
use crate::times::put_instant;
use crate::tunnels::put_tunnels;
use crate::verdict::put_verdict;
use capture_file::PacketTime;
use capture_packet::{Content, HopLimit, Packet, Transport};
use capture_request::WriteError;
use capture_summary::{FrameLen, PacketInfo};
use capture_words::{Times, write_time};
use std::alloc::{AllocError, Global};
use std::io;
use std::io::Write;
use transport_part::TransportSlice;
use udp_part::UdpSlice;

/// The initial room of a text in bytes. Most texts fit into it.
const TEXT_ROOM: usize = 64;

/// Writes a packet as a JSON object of the type `packet`, on its own line. The object contains the number and the time of the packet, its
/// interface if its section has several interfaces, and the length of its frame. It also contains its tunnels, addresses, content, ARP packet,
/// fragment fields, hop limit, verdict and comments.
///
/// # Errors
///
/// `Write` if writing fails, and `NoMemory` if no memory is left.
pub fn write_packet<W: Write>(
    output: &mut W,
    alloc: Global,
    times: Times,
    info: &PacketInfo,
    packet: &Packet,
) -> Result<(), WriteError>
    ensures { OnOk result (AppendsOne (W.contents output.old) (W.contents output.new)
        (IsJsonLine times info.now.number info.now.texts info.now.first info.now.capture.time info.now.capture.len packet.now)) }
{
    let mut line = Line::new(alloc)?;
    line.begin_item()?;
    let mut room = Vec::with_capacity(alloc, TEXT_ROOM)?;
    match put_packet(&mut line, &mut room, times, info, packet) {
        Ok(()) => write_line(output, line),
        Err(_) => Err(WriteError::NoMemory),
    }
}

/// Writes the members of a packet.
fn put_packet(
    line: &mut Line,
    room: &mut Vec<u8>,
    times: Times,
    info: &PacketInfo,
    packet: &Packet,
) -> io::Result<()>
    ensures { OnOk result (PutsOne (ArePacketMembers times info.now.number info.now.texts info.now.first info.now.capture.time info.now.capture.len packet.now)
        (tokens_in line.old) (tokens_in line.new)) }
{
    line.put_text("type", "packet")?;
    line.put_number("number", info.number)?;
    put_time(line, room, times, info.first, info.capture.time)?;
    put_interface(line, room, &info.texts.interface)?;
    put_frame_len(line, info.capture.len)?;
    put_tunnels(line, room, packet.tunnels.as_slice())?;
    put_content(line, room, &packet.content)?;
    put_arp(line, room, packet.arp)?;
    put_fragment(line, packet.fragment)?;
    put_hop_limit(line, packet.hop_limit)?;
    put_verdict(line, room, &packet.verdict)?;
    put_comments(line, room, &info.texts.comments)
}

/// Writes the time of a packet as a text and as numbers. The text is the time as the text format shows it. If the time is unknown, this
/// writes `null`.
fn put_time(
    line: &mut Line,
    room: &mut Vec<u8>,
    times: Times,
    first: Option<PacketTime>,
    time: Option<PacketTime>,
) -> io::Result<()>
    ensures { OnOk result (tokens_in line.new ≡ with_members (time_members times first time) (tokens_in line.old)) }
{
    let Some(known) = time else {
        return Ok(line.put_null("time")?);
    };
    room.clear();
    write_time(room, times, first, time)?;
    put_written(line, "time", room.as_slice())?;
    Ok(put_instant(line, "seconds", "nanoseconds", known)?)
}

/// Writes the length of a frame and its captured length, in bytes. It writes nothing if the capture does not state the length.
fn put_frame_len(line: &mut Line, len: Option<FrameLen>) -> Result<(), AllocError>
    ensures { OnOk result (tokens_in line.new ≡ with_members (frame_members len) (tokens_in line.old)) }
{
    match len {
        Some(FrameLen { original, captured }) => {
            line.put_number("length", original)?;
            line.put_number("captured_length", captured)
        }
        None => Ok(()),
    }
}

/// Writes the content of a packet.
fn put_content(line: &mut Line, room: &mut Vec<u8>, content: &Content) -> io::Result<()>
    ensures { OnOk result (PutsOne (AreContentMembers content.now) (tokens_in line.old) (tokens_in line.new)) }
{
    match content {
        Content::Unread => Ok(()),
        Content::IpHeader(addresses) => put_addresses(line, room, *addresses),
        Content::NotIp(protocol) => Ok(put_network_protocol(line, *protocol)?),
        Content::Ip {
            addresses,
            protocol,
            proto,
            transport,
            payload_len,
        } => {
            put_addresses(line, room, *addresses)?;
            put_ip_protocol(line, *protocol, *proto)?;
            put_quoted(line, room, transport.quoted_packet())?;
            put_transport(line, room, transport)?;
            Ok(put_payload_len(line, *payload_len, transport.payload())?)
        }
    }
}

/// Writes the hop limit of a packet, or its time to live, if its IP header was captured.
fn put_hop_limit(line: &mut Line, hop_limit: Option<HopLimit>) -> Result<(), AllocError>
    ensures { OnOk result (tokens_in line.new ≡ with_members (hop_limit_members hop_limit) (tokens_in line.old)) }
{
    match hop_limit {
        Some(HopLimit::Ipv4(limit)) => line.put_number("time_to_live", u64::from(limit)),
        Some(HopLimit::Ipv6(limit)) => line.put_number("hop_limit", u64::from(limit)),
        None => Ok(()),
    }
}

/// Writes the transport of an IP packet.
fn put_transport(line: &mut Line, room: &mut Vec<u8>, transport: &Transport) -> io::Result<()>
    ensures { OnOk result (PutsOne (AreTransportMembers transport.now) (tokens_in line.old) (tokens_in line.new)) }
{
    match transport {
        Transport::Read(transport) => put_read(line, room, transport),
        Transport::Ports {
            source,
            destination,
            ..
        } => Ok(put_ports(line, *source, *destination)?),
        Transport::Unread(_) => Ok(()),
    }
}

/// Writes a transport whose header was read.
fn put_read(line: &mut Line, room: &mut Vec<u8>, transport: &TransportSlice) -> io::Result<()>
    ensures { OnOk result (PutsOne (AreReadMembers transport.now) (tokens_in line.old) (tokens_in line.new)) }
{
    match transport {
        TransportSlice::Udp(datagram) => Ok(put_udp(line, datagram)?),
        TransportSlice::Tcp(segment) => put_tcp(line, room, segment),
        TransportSlice::Icmpv4(message) => put_icmpv4(line, room, message),
        TransportSlice::Icmpv6(message) => put_icmpv6(line, room, message),
    }
}

/// Writes a UDP datagram.
fn put_udp(line: &mut Line, datagram: &UdpSlice) -> Result<(), AllocError>
    ensures { OnOk result (tokens_in line.new ≡ with_members (udp_members datagram.now) (tokens_in line.old)) }
{
    put_ports(line, datagram.source_port(), datagram.destination_port())?;
    line.begin_object("udp")?;
    line.put_number("length", u64::from(datagram.length()))?;
    line.end_object()
}
