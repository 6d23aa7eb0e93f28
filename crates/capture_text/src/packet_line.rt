//! The line of a packet.

ghost use Rattle.std.specs.Prelude.{◌++◌, codes, OnOk};
ghost use Rattle.std.specs.Io.KnownBytes.{Appends};
ghost use Rattle.std.specs.List.{flat_map};
ghost use Rattle.std.specs.Option.{option_map};
ghost use Rattle.ip_part.specs.Addresses.{by_value};
ghost use Rattle.capture_packet.specs.Quotes.{by_value as quoted_by_value};
ghost use Rattle.capture_text.specs.PacketLine.{IsContentText, IsLine, IsTcpText, IsTransportText, captured_text, details_text, end_text, frame_text, icmpv4_line, icmpv6_line, known_endpoints, name_or_number, network_number, network_text, payload_text, quoted_text, tunnel_text, udp_text, unread_text, verdict_part, virtual_network_text};
ghost use Rattle.capture_words.specs.Written.{AppendsOne};

use crate::addresses::{write_addresses, write_endpoints};
use crate::arp::write_arp;
use crate::comments::write_comments_part;
use crate::fragment::write_fragment;
use crate::interface::write_interface;
use crate::verdict::{is_other_protocol, write_verdict};
use capture_packet::{
    Content, HopLimit, NetworkProtocol, Packet, QuotedPacket, Transport, Tunnel, Verdict,
    VirtualNetwork,
};
use capture_summary::{FrameLen, PacketInfo, ip_protocol_name, network_protocol_name};
use capture_words::{Times, icmpv4, icmpv6, tcp, write_time};
use icmp_part::{Icmpv4Slice, Icmpv6Slice};
use ip_part::{IpAddresses, Proto};
use net_base::IpNumber;
use std::io;
use std::io::Write;
use tcp_part::TcpSlice;
use transport_part::TransportSlice;
use udp_part::UdpSlice;

/// Writes the line of a packet: its number, its time, its interface if its section has several interfaces, the length of its frame, its
/// tunnels, its addresses, its content with an ARP packet, the fields of its fragment, and its verdict. A bar follows each tunnel. A verbose
/// line also shows the hop limit or the time to live of the packet, if its IP header was captured, and the comments of the packet.
///
/// ```text
/// 1 00:00:00.000000 length 74: 192.0.2.1:49152 > 192.0.2.2:53 UDP length 40, payload 32; checksum right
/// ```
///
/// # Errors
///
/// The error of the writer, if writing fails.
pub fn write_packet_line<W: Write>(
    output: &mut W,
    times: Times,
    verbose: bool,
    info: &PacketInfo,
    packet: &Packet,
) -> io::Result<()>
    ensures { OnOk result (AppendsOne (W.contents output.old) (W.contents output.new)
        (IsLine times verbose info.now.number info.now.texts info.now.first info.now.capture.time info.now.capture.len packet.now)) }
{
    write!(output, "{} ", info.number)?;
    write_time(output, times, info.first, info.capture.time)?;
    write_interface(output, &info.texts.interface)?;
    write_frame_len(output, info.capture.len)?;
    write_tunnels(output, packet.tunnels.as_slice())?;
    write_content(output, &packet.content)?;
    write_arp(output, packet.arp)?;
    write_fragment(output, packet.fragment)?;
    write_details(output, verbose, packet)?;
    write_end(output, &packet.content, &packet.verdict)?;
    write_comments_part(output, verbose, &info.texts.comments)?;
    writeln!(output)
}

/// Writes the length of a frame in bytes. If the number of captured bytes differs, it also writes this number. If the length is unknown, it
/// writes that it is unknown.
fn write_frame_len<W: Write>(output: &mut W, len: Option<FrameLen>) -> io::Result<()>
    ensures { OnOk result (Appends (W.contents output.old) (W.contents output.new) (frame_text len)) }
{
    let Some(FrameLen { original, captured }) = len else {
        return write!(output, " length unknown: ");
    };
    write!(output, " length {original}")?;
    write_captured(output, original, captured)?;
    write!(output, ": ")
}

/// Writes the outer packet of each tunnel.
fn write_tunnels<W: Write>(output: &mut W, tunnels: &[Tunnel<'_>]) -> io::Result<()>
    ensures { OnOk result (Appends (W.contents output.old) (W.contents output.new) (flat_map tunnel_text tunnels.now)) }
{
    for tunnel in tunnels {
        write_tunnel(output, tunnel)?;
    }
    Ok(())
}

/// Writes the outer packet of a tunnel: its addresses, its protocol, its virtual network if it states one, and a bar.
fn write_tunnel<W: Write>(output: &mut W, tunnel: &Tunnel<'_>) -> io::Result<()>
    ensures { OnOk result (Appends (W.contents output.old) (W.contents output.new) (tunnel_text tunnel.now)) }
{
    let proto = tunnel.proto();
    write_unread(output, tunnel.addresses, tunnel.protocol, proto, None)?;
    write_network(output, tunnel.network)?;
    write!(output, " | ")
}

/// Writes the virtual network of a tunnel: the kind of the tunnel, and the network identifier. It writes nothing if there is no network.
fn write_network<W: Write>(output: &mut W, network: Option<VirtualNetwork>) -> io::Result<()>
    ensures { OnOk result (Appends (W.contents output.old) (W.contents output.new) (virtual_network_text network)) }
{
    match network {
        Some(VirtualNetwork { kind, id }) => write!(output, ", {}, VNI {id}", kind.name()),
        None => Ok(()),
    }
}

/// Writes the content of a packet. For a packet that is not read, it writes nothing. For refused IP headers, it writes only the addresses.
fn write_content<W: Write>(output: &mut W, content: &Content) -> io::Result<()>
    ensures { OnOk result (AppendsOne (W.contents output.old) (W.contents output.new) (IsContentText content.now)) }
{
    match content {
        Content::Unread => Ok(()),
        Content::IpHeader(addresses) => write_addresses(output, *addresses),
        Content::NotIp(protocol) => write_network_protocol(output, *protocol),
        Content::Ip {
            addresses,
            protocol,
            proto,
            transport,
            payload_len,
        } => {
            write_transport(output, *addresses, *protocol, *proto, transport)?;
            write_payload_len(output, *payload_len, transport.payload())
        }
    }
}

/// Writes the hop limit or the time to live of a packet, if its IP header was captured and the line is verbose.
fn write_details<W: Write>(output: &mut W, verbose: bool, packet: &Packet) -> io::Result<()>
    ensures { OnOk result (Appends (W.contents output.old) (W.contents output.new) (details_text verbose packet.now)) }
{
    match packet.hop_limit {
        Some(HopLimit::Ipv4(limit)) if verbose => write!(output, ", time to live {limit}"),
        Some(HopLimit::Ipv6(limit)) if verbose => write!(output, ", hop limit {limit}"),
        _ => Ok(()),
    }
}

/// Writes the verdict at the end of a line. If the content is `Unread`, it writes only the verdict. Otherwise it writes a semicolon and the
/// verdict, or nothing if the protocol is not read.
fn write_end<W: Write>(output: &mut W, content: &Content, verdict: &Verdict) -> io::Result<()>
    ensures { OnOk result (Appends (W.contents output.old) (W.contents output.new) (end_text content.now verdict.now)) }
{
    match content {
        Content::Unread => write_verdict(output, verdict),
        Content::IpHeader(_) | Content::NotIp(_) | Content::Ip { .. } => {
            write_verdict_part(output, verdict)
        }
    }
}

/// Writes a semicolon and the verdict after the content of a packet. It writes nothing if the protocol is not read.
fn write_verdict_part<W: Write>(output: &mut W, verdict: &Verdict) -> io::Result<()>
    ensures { OnOk result (Appends (W.contents output.old) (W.contents output.new) (verdict_part verdict.now)) }
{
    if is_other_protocol(verdict) {
        return Ok(());
    }
    write!(output, "; ")?;
    write_verdict(output, verdict)
}

/// Writes the protocol of a frame without an IP packet: its name, or its numbers if it has no name.
fn write_network_protocol<W: Write>(output: &mut W, protocol: NetworkProtocol) -> io::Result<()>
    ensures { OnOk result (Appends (W.contents output.old) (W.contents output.new) (network_text protocol)) }
{
    match network_protocol_name(protocol) {
        Some(name) => write!(output, "{name}"),
        None => write_network_number(output, protocol),
    }
}

/// Writes the numbers that identify the protocol of a frame without an IP packet.
fn write_network_number<W: Write>(output: &mut W, protocol: NetworkProtocol) -> io::Result<()>
    ensures { OnOk result (Appends (W.contents output.old) (W.contents output.new) (network_number protocol)) }
{
    match protocol {
        NetworkProtocol::EtherType(number) => write!(output, "ether type {number:04X}"),
        NetworkProtocol::AddressFamily(number) => write!(output, "address family {number}"),
        NetworkProtocol::LinkType(number) => write!(output, "link type {number}"),
        NetworkProtocol::Ieee80211 { frame_control } => {
            write!(output, "IEEE 802.11 frame control {frame_control:04X}")
        }
        NetworkProtocol::Radiotap { version, len } => {
            write!(output, "radiotap version {version} length {len}")
        }
        NetworkProtocol::Llc { dsap, ssap } => write!(
            output,
            "LLC DSAP {dsap:02X} SSAP {ssap:02X}"
        ),
        NetworkProtocol::Snap {
            organization_code,
            protocol,
        } => write!(output, "SNAP {organization_code:06X} {protocol:04X}"),
        NetworkProtocol::PppProtocol(number) => write!(output, "PPP protocol {number:04X}"),
        NetworkProtocol::FrameRelay { header } => write!(output, "Frame Relay {header:06X}"),
        NetworkProtocol::Nlpid(number) => write!(output, "NLPID {number:02X}"),
    }
}

/// Writes the addresses and the transport of an IP packet.
fn write_transport<W: Write>(
    output: &mut W,
    addresses: IpAddresses<'_>,
    protocol: IpNumber,
    proto: Option<Proto>,
    transport: &Transport,
) -> io::Result<()>
    ensures { OnOk result (AppendsOne (W.contents output.old) (W.contents output.new)
        (IsTransportText (by_value addresses.entry) protocol.0 proto transport.now)) }
{
    match transport {
        Transport::Read(TransportSlice::Udp(datagram)) => write_udp(output, addresses, datagram),
        Transport::Read(TransportSlice::Tcp(segment)) => write_tcp(output, addresses, segment),
        Transport::Read(TransportSlice::Icmpv4(message)) => {
            write_icmpv4(output, addresses, message, transport.quoted_packet())
        }
        Transport::Read(TransportSlice::Icmpv6(message)) => {
            write_icmpv6(output, addresses, message, transport.quoted_packet())
        }
        Transport::Ports {
            source,
            destination,
            ..
        } => {
            let ports = Some((*source, *destination));
            write_unread(output, addresses, protocol, proto, ports)
        }
        Transport::Unread(_) => write_unread(output, addresses, protocol, proto, None),
    }
}

/// Writes the addresses of a packet, and the ports and the length field of its UDP datagram.
fn write_udp<W: Write>(
    output: &mut W,
    addresses: IpAddresses<'_>,
    datagram: &UdpSlice,
) -> io::Result<()>
    ensures { OnOk result (Appends (W.contents output.old) (W.contents output.new) (udp_text (by_value addresses.entry) datagram.now)) }
{
    let (source, destination) = (datagram.source_port(), datagram.destination_port());
    write_endpoints(output, addresses, source, destination)?;
    write!(output, " UDP length {}", datagram.length())
}

/// Writes the addresses of a packet, and the ports and other fields of its TCP header.
fn write_tcp<W: Write>(
    output: &mut W,
    addresses: IpAddresses<'_>,
    segment: &TcpSlice,
) -> io::Result<()>
    ensures { OnOk result (AppendsOne (W.contents output.old) (W.contents output.new) (IsTcpText (by_value addresses.entry) segment.now)) }
{
    let (source, destination) = (segment.source_port(), segment.destination_port());
    write_endpoints(output, addresses, source, destination)?;
    write!(output, " TCP ")?;
    tcp::write_header(output, segment)
}

/// Writes the addresses of a packet, its ICMPv4 message, and the packet that the message quotes, if there is one.
fn write_icmpv4<W: Write>(
    output: &mut W,
    addresses: IpAddresses<'_>,
    message: &Icmpv4Slice,
    quoted: Option<QuotedPacket<'_>>,
) -> io::Result<()>
    ensures { OnOk result (Appends (W.contents output.old) (W.contents output.new)
        (icmpv4_line (by_value addresses.entry) message.now (option_map quoted_by_value quoted.entry))) }
{
    write_addresses(output, addresses)?;
    write!(output, " ICMPv4 ")?;
    icmpv4::write_message(output, &message.icmp_type())?;
    write_quoted(output, quoted)
}

/// Writes the addresses of a packet, its ICMPv6 message, and the packet that the message quotes, if there is one.
fn write_icmpv6<W: Write>(
    output: &mut W,
    addresses: IpAddresses<'_>,
    message: &Icmpv6Slice,
    quoted: Option<QuotedPacket<'_>>,
) -> io::Result<()>
    ensures { OnOk result (Appends (W.contents output.old) (W.contents output.new)
        (icmpv6_line (by_value addresses.entry) message.now (option_map quoted_by_value quoted.entry))) }
{
    write_addresses(output, addresses)?;
    write!(output, " ICMPv6 ")?;
    icmpv6::write_packet(output, message)?;
    write_quoted(output, quoted)
}

/// Writes the packet that an ICMP error quotes, if there is one.
fn write_quoted<W: Write>(output: &mut W, quoted: Option<QuotedPacket<'_>>) -> io::Result<()>
    ensures { OnOk result (Appends (W.contents output.old) (W.contents output.new) (quoted_text (option_map quoted_by_value quoted.entry))) }
{
    let Some(quoted) = quoted else {
        return Ok(());
    };
    write!(output, " for ")?;
    write_known_endpoints(output, quoted.addresses, quoted.ports)?;
    write_protocol(output, quoted.protocol, quoted.proto)
}

/// Writes the addresses of a packet, and its ports if they are known.
fn write_known_endpoints<W: Write>(
    output: &mut W,
    addresses: IpAddresses<'_>,
    ports: Option<(u16, u16)>,
) -> io::Result<()>
    ensures { OnOk result (Appends (W.contents output.old) (W.contents output.new) (known_endpoints (by_value addresses.entry) ports)) }
{
    match ports {
        Some((source, destination)) => write_endpoints(output, addresses, source, destination),
        None => write_addresses(output, addresses),
    }
}

/// Writes an IP packet whose transport is not read: its addresses, its ports if they are known, and its protocol.
fn write_unread<W: Write>(
    output: &mut W,
    addresses: IpAddresses<'_>,
    protocol: IpNumber,
    proto: Option<Proto>,
    ports: Option<(u16, u16)>,
) -> io::Result<()>
    ensures { OnOk result (Appends (W.contents output.old) (W.contents output.new)
        (unread_text (by_value addresses.entry) protocol.0 proto ports)) }
{
    write_known_endpoints(output, addresses, ports)?;
    write_protocol(output, protocol, proto)
}

/// Writes the protocol of a packet: its name, or its number if it has no name.
fn write_protocol<W: Write>(
    output: &mut W,
    protocol: IpNumber,
    proto: Option<Proto>,
) -> io::Result<()>
    ensures { OnOk result (Appends (W.contents output.old) (W.contents output.new)
        (codes " " ++ name_or_number protocol.0 proto)) }
{
    match ip_protocol_name(protocol, proto) {
        Some(name) => write!(output, " {name}"),
        None => write!(output, " protocol {}", protocol.0),
    }
}

/// Writes the length of a payload in bytes. If the number of captured bytes differs, it also writes this number.
fn write_payload_len<W: Write>(output: &mut W, payload_len: usize, payload: &[u8]) -> io::Result<()>
    ensures { OnOk result (Appends (W.contents output.old) (W.contents output.new) (payload_text payload_len payload.now)) }
{
    write!(output, ", payload {payload_len}")?;
    write_captured(output, payload_len as u64, payload.len() as u64)
}

/// Writes the number of captured bytes, unless this number is `len`.
fn write_captured<W: Write>(output: &mut W, len: u64, captured_len: u64) -> io::Result<()>
    ensures { OnOk result (Appends (W.contents output.old) (W.contents output.new) (captured_text len captured_len)) }
{
    if captured_len == len {
        return Ok(());
    }
    write!(output, ", {captured_len} captured")
}
