ghost use Rattle.std.specs.Prelude.{◌≡◌, ◌<◌, [], IfErr, IfOk, None};
ghost use Rattle.std.specs.Option.{option_map};
ghost use Rattle.arrayvec.specs.ArrayVec.{array_vec_len};
ghost use Rattle.ip_part.specs.Addresses.{by_value};
ghost use Rattle.ip_part.specs.Ip.{Carries, lacks_len, lax_refusal, refusal};
ghost use Rattle.capture_packet.specs.Frames.{IsInPacket, IsRead, IsReadIn, IsUnread, IsWithoutIp, are_bytes_cut, link_verdict};
ghost use Rattle.capture_packet.specs.Frames as frames;
ghost use Rattle.capture_packet.specs.HopLimits as hop_limits;
ghost use Rattle.capture_packet.specs.IpFrames.{HasIpPacket};
ghost use Rattle.capture_packet.specs.OpenedTunnels.{tunnel_by_value};
ghost use Rattle.capture_packet.specs.Tunnels.{max_tunnels, opened_with};
ghost use Rattle.capture_packet.specs.Verdicts as specs;

use crate::arp::arp_of;
use crate::fixed_header::{IPV6_LEN, addresses_in, hop_limit_in};
use crate::fragment_fields::fragment_fields;
use crate::payload::{counted_payload_len, payload_len};
use crate::transport::{is_transport_cut_off, read_transport};
use crate::tunnel::{OpenedTunnel, tunnel_in};
use crate::{
    Content, Frame, LinkHeaderCutOff, NetworkProtocol, Packet, Refusal, Tunnels, Verdict,
    network_packet,
};
use arrayvec::ArrayVec;
use capture_numbers::{ByteOrder, LinkType};
use ip_part::{IpError, TransportInIp, fixed_header, transport_in_ip, transport_in_ip_lax};
use transport_part::Untested;

/// The maximum length in bytes of a packet that is read, and of a block of a pcapng file. It is twice the maximum captured length of
/// libpcap.
pub const MAX_PACKET_LEN: usize = 524_288;

/// The packet in a frame of this link type, as far as it can be read, and the verdict on its checksum. `order` is the byte order of the
/// capture. If `is_cut` is true, the capture contains only the first bytes of the frame.
///
/// A packet is cut off if its IP header counts more bytes than are present, whatever the capture states about its frame. If `is_cut` is
/// true, a packet is also cut off if its IP header is incomplete or states no length. A packet that is cut off is not refused for an
/// incomplete header, and its checksum is not tested. A frame may contain padding after its packet. If only the padding was cut, the packet
/// is whole.
///
/// PPPoE and LINKTYPE_NFLOG state where the bytes of the packet end. Bytes after this end are ignored. If the frame contains all bytes up
/// to this end, the packet is read as if `is_cut` were false.
///
/// If an IP packet contains another IP packet, the inner packet is read, and the outer packet is one of `tunnels`. An IPv4 packet follows
/// an IP header with protocol 4 (RFC 2003), and an IPv6 packet follows protocol 41 (RFC 4213, section 3.5; RFC 2473). Protocol 47 is GRE,
/// version 0, followed by IPv4 or IPv6. The GRE header may contain a checksum, a key and a sequence number (RFC 2784; RFC 2890). The
/// checksum of GRE is not checked.
///
/// If `udp_tunnels` is true, a UDP datagram to port 4789 is read as VXLAN (RFC 7348), and a datagram to port 6081 as Geneve (RFC 8926). An
/// Ethernet frame follows the VXLAN header. An Ethernet frame, an IPv4 or an IPv6 packet follows the Geneve header. The frame is read like
/// any other Ethernet frame. The checksum of the datagram is not checked.
///
/// If one of these statements is true, the inner packet is not read, and the payload of the outer packet is read as another protocol:
/// - The outer packet is a fragment.
/// - The fixed part of the inner header, 20 bytes of IPv4, 40 bytes of IPv6 or 14 bytes of Ethernet, is not present.
/// - The GRE header is incomplete, or has another version, another protocol, or one of the reserved bits that a receiver refuses (RFC 2784,
///   section 2.3).
/// - The length field of the UDP header is below 8. Or it counts more bytes than are present, and the outer packet is not cut off.
/// - The VXLAN header is incomplete, or its flag I is not set.
/// - The Geneve header is incomplete, or has another version or another protocol.
/// - `MAX_TUNNELS` tunnels are around the outer packet.
///
/// If the outer packet is cut off, the inner packet is read as if `is_cut` were true. If the outer packet is whole, the inner packet is
/// read as if `is_cut` were false.
pub fn read_packet<'a>(
    link_type: LinkType,
    order: ByteOrder,
    frame: &'a [u8],
    is_cut: bool,
    udp_tunnels: bool,
) -> Packet<'a>
    ensures { IsRead udp_tunnels link_type order frame.now is_cut result }
{
    match ip_packet_in(link_type, order, frame, is_cut) {
        Ok(packet) => read_ip_packet(packet, order, udp_tunnels),
        Err(other) => other,
    }
}

/// The bytes of an IP packet.
#[derive(Clone, Copy, Debug, PartialEq, Eq)]
pub(crate) struct IpBytes<'a> {
    /// The packet, and all bytes after it.
    pub bytes: &'a [u8],
    /// Whether bytes after these are missing, since the capture or an outer packet was cut.
    pub is_cut: bool,
}

/// The IP packet in a frame. If the frame contains no IP packet, the error is the packet that is read instead, in no tunnel.
fn ip_packet_in<'a>(
    link_type: LinkType,
    order: ByteOrder,
    frame: &'a [u8],
    is_cut: bool,
) -> Result<IpBytes<'a>, Packet<'a>>
    ensures found { IfOk result (HasIpPacket link_type order frame.now is_cut) }
    ensures other { IfErr result (IsWithoutIp link_type order frame.now is_cut) }
{
    match network_packet(link_type, order, frame) {
        Ok(Frame::Ip(found)) => Ok(IpBytes {
            bytes: found.bytes,
            is_cut: are_bytes_cut(is_cut, found.is_end_stated),
        }),
        Ok(Frame::Other(protocol, found)) => Err(other_packet(protocol, found.bytes)),
        Err(error) => Err(Packet::in_no_tunnel(Content::Unread, link_verdict(error, is_cut))),
    }
}

/// A packet of a protocol other than IP. `bytes` follow the link header.
fn other_packet<'a>(protocol: NetworkProtocol, bytes: &'a [u8]) -> Packet<'a>
    ensures { result ≡ frames.other_packet protocol bytes.now }
{
    let verdict = Verdict::untested(Untested::OtherProtocol);
    let mut packet = Packet::in_no_tunnel(Content::NotIp(protocol), verdict);
    packet.arp = arp_of(protocol, bytes);
    packet
}

/// Whether the capture cut the bytes after a link header. If the link header states the end of these bytes, none of them was cut.
fn are_bytes_cut(is_cut: bool, is_end_stated: bool) -> bool
    ensures { result ≡ are_bytes_cut is_cut is_end_stated }
{
    is_cut && !is_end_stated
}

/// The verdict on a frame that ends within its link header. The frame is refused, unless the capture cut it.
fn link_verdict(error: LinkHeaderCutOff, is_cut: bool) -> Verdict
    ensures { result ≡ link_verdict is_cut error }
{
    if is_cut {
        Verdict::untested(Untested::CutOff)
    } else {
        Verdict::Refused(Refusal::Link(error))
    }
}

/// Reads the IP packet at the front of these bytes, or the innermost packet in its tunnels. `order` is the byte order of the capture.
fn read_ip_packet<'a>(packet: IpBytes<'a>, order: ByteOrder, udp_tunnels: bool) -> Packet<'a>
    ensures { IsReadIn max_tunnels udp_tunnels order [] packet.entry.is_cut packet.entry.bytes.now result }
{
    let mut tunnels = ArrayVec::new();
    let mut rest = packet;
    loop {
        let found = match transport_in_ip_lax(rest.bytes) {
            Ok(found) => found,
            Err(error) => {
                return unread(
                    tunnels,
                    rest.bytes,
                    error,
                    is_cut_off(rest.bytes, rest.is_cut),
                );
            }
        };
        let Some(opened) = next_tunnel(&tunnels, &found, rest.is_cut, udp_tunnels) else {
            return carried(tunnels, rest.bytes, &found, rest.is_cut);
        };
        tunnels.push(opened.tunnel);
        rest = match ip_packet_in(opened.link_type, order, opened.bytes, opened.is_cut) {
            Ok(inner) => inner,
            Err(other) => return within(tunnels, other),
        };
    }
}

/// The tunnel in an outer packet. `None` if there is no tunnel, or if `tunnels` has no room for another tunnel. If `is_cut` is true, the
/// capture cut the frame of the outer packet.
fn next_tunnel<'a>(
    tunnels: &Tunnels<'_>,
    outer: &TransportInIp<'a>,
    is_cut: bool,
    udp_tunnels: bool,
) -> Option<OpenedTunnel<'a>>
    ensures full { array_vec_len tunnels.now ≡ max_tunnels → result ≡ None }
    ensures room { array_vec_len tunnels.now < max_tunnels → option_map tunnel_by_value result
        ≡ opened_with udp_tunnels (by_value outer.now.addresses) outer.now.protocol.0 outer.now.is_fragment
        (specs.is_transport_cut_off is_cut outer.now) outer.now.payload.now }
{
    if tunnels.is_full() {
        return None;
    }
    tunnel_in(outer, is_transport_cut_off(outer, is_cut), udp_tunnels)
}

/// This packet in these tunnels.
fn within<'a>(tunnels: Tunnels<'a>, packet: Packet<'a>) -> Packet<'a>
    ensures { result ≡ record packet.entry { tunnels = tunnels.entry } }
{
    let mut packet = packet;
    packet.tunnels = tunnels;
    packet
}

/// Whether a packet with refused headers is cut off. Either its header counts more bytes than are present. Or the capture cut the frame,
/// and the header is incomplete or states no length.
fn is_cut_off(packet: &[u8], is_cut: bool) -> bool
    ensures { result ≡ specs.is_cut_off is_cut packet.now (refusal packet.now) }
{
    match transport_in_ip(packet) {
        Err(IpError::PacketCutOff { .. }) => true,
        Err(IpError::HeaderCutOff { .. } | IpError::JumboPayloadMissing) => is_cut,
        Err(IpError::TotalLength { total_len, .. }) => is_cut && total_len == 0,
        Err(IpError::ExtensionHeaderCutOff { offset, len, .. }) => {
            is_cut && counts_no_payload(packet, offset, len)
        }
        Ok(_)
        | Err(
            IpError::Version { .. }
            | IpError::HeaderLength { .. }
            | IpError::JumboPayloadLength { .. }
            | IpError::JumboPayloadUnexpected { .. }
            | IpError::JumboPayloadFragment { .. },
        ) => false,
    }
}

/// Whether the payload length of an IPv6 packet is 0, so that no byte of its first extension header is counted. `len` is the number of
/// counted bytes that begin at `offset`.
fn counts_no_payload(packet: &[u8], offset: usize, len: usize) -> bool
    ensures { result ≡ specs.counts_no_payload packet.now offset len }
{
    !packet.is_empty() && packet[0] >> 4 == 6 && offset == IPV6_LEN && len == 0
}

/// An IP packet in these tunnels that carries this transport.
fn carried<'a>(
    tunnels: Tunnels<'a>,
    packet: &'a [u8],
    found: &TransportInIp<'a>,
    is_cut: bool,
) -> Packet<'a>
    requires accepted { lax_refusal packet.now ≡ None }
    requires carries { Carries packet.now found.now }
    requires stated { found.now.is_length_missing ≡ lacks_len packet.now }
    ensures tunnels { result.tunnels ≡ tunnels.entry }
    ensures is { IsInPacket is_cut packet.now found.now result }
    ensures hop_limit { result.hop_limit ≡ hop_limits.hop_limit_of packet.now }
    ensures arp { result.arp ≡ None }
{
    let (transport, verdict) = read_transport(found, is_cut);
    let payload_len = payload_len(&transport, counted_payload_len(found));
    Packet {
        tunnels,
        content: Content::Ip {
            addresses: found.addresses,
            protocol: found.protocol,
            proto: found.proto(),
            transport,
            payload_len,
        },
        verdict,
        hop_limit: Some(hop_limit_in(found.fixed_header)),
        fragment: fragment_fields(packet),
        arp: None,
    }
}

/// An IP packet in these tunnels whose headers are refused.
fn unread<'a>(
    tunnels: Tunnels<'a>,
    packet: &'a [u8],
    error: IpError,
    is_cut_off: bool,
) -> Packet<'a>
    ensures tunnels { result.tunnels ≡ tunnels.entry }
    ensures is { IsUnread is_cut_off packet.now error result }
    ensures hop_limit { result.hop_limit ≡ hop_limits.hop_limit_of packet.now }
    ensures arp { result.arp ≡ None }
{
    let (content, hop_limit) = match fixed_header(packet) {
        Some(header) => (
            Content::IpHeader(addresses_in(header)),
            Some(hop_limit_in(header)),
        ),
        None => (Content::Unread, None),
    };
    Packet {
        tunnels,
        content,
        verdict: unread_verdict(error, is_cut_off),
        hop_limit,
        fragment: None,
        arp: None,
    }
}

/// The verdict on an IP packet whose headers have this error. If the packet is cut off and its headers are incomplete, the verdict is
/// `CutOff`.
fn unread_verdict(error: IpError, is_cut_off: bool) -> Verdict
    ensures { result ≡ specs.unread_verdict is_cut_off error }
{
    match error {
        IpError::HeaderCutOff { .. } | IpError::ExtensionHeaderCutOff { .. } if is_cut_off => {
            Verdict::untested(Untested::CutOff)
        }
        error => Verdict::Refused(Refusal::Ip(error)),
    }
}
