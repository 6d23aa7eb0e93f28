//! Tunnels: IP packets in IP packets, and frames in UDP datagrams.

ghost use Rattle.std.specs.Prelude.{◌≡◌, None};
ghost use Rattle.std.specs.Option.{option_map};
ghost use Rattle.ip_part.specs.Addresses.{by_value};
ghost use Rattle.capture_packet.specs.InnerFrames.{frame_by_value};
ghost use Rattle.capture_packet.specs.OpenedTunnels.{tunnel_by_value};
ghost use Rattle.capture_packet.specs.Tunnels.{inside_payload, opened_with, packet_in, payload_packet};

use crate::VirtualNetwork;
use crate::fixed_header::{ipv4_packet, ipv6_packet};
use crate::gre::packet_after_gre;
use crate::inner_frame::InnerFrame;
use crate::udp_tunnel::inside_udp;
use arrayvec::ArrayVec;
use capture_numbers::LinkType;
use ip_part::{IpAddresses, Proto, TransportInIp};
use net_base::{IpNumber, ip_number};

/// The maximum number of tunnels that are read.
pub const MAX_TUNNELS: usize = 4;

/// The tunnels around a packet, from the outermost to the innermost.
pub type Tunnels<'a> = ArrayVec<Tunnel<'a>, MAX_TUNNELS>;

/// An IP packet that contains another packet.
#[derive(Clone, Copy, Debug, PartialEq, Eq)]
pub struct Tunnel<'a> {
    /// The addresses of the outer packet: the two ends of the tunnel.
    pub addresses: IpAddresses<'a>,
    /// The protocol number of the outer packet: 4 for IPv4 (RFC 2003), 41 for IPv6 (RFC 4213, section 3.5; RFC 2473), 47 for GRE (RFC
    /// 2784), or 17 for a tunnel in UDP.
    pub protocol: IpNumber,
    /// The virtual network of a tunnel in UDP: VXLAN (RFC 7348) or Geneve (RFC 8926). `None` for any other tunnel.
    pub network: Option<VirtualNetwork>,
}

impl<'a> Tunnel<'a> {
    ghost use Rattle.capture_packet.specs.NetworkKinds.{proto_around};

    /// Returns the protocol of the outer packet if it is a transport protocol: UDP for a tunnel in UDP, and otherwise `None`.
    pub fn proto(&self) -> Option<Proto>
        ensures { result ≡ proto_around self.now.network }
    {
        match self.network {
            Some(_) => Some(Proto::Udp),
            None => None,
        }
    }
}

/// A tunnel that was found in an outer packet.
#[derive(Clone, Copy, Debug, PartialEq, Eq)]
pub(crate) struct OpenedTunnel<'a> {
    /// The outer packet.
    pub tunnel: Tunnel<'a>,
    /// The link type of the frame in the tunnel.
    pub link_type: LinkType,
    /// The bytes of the frame in the tunnel.
    pub bytes: &'a [u8],
    /// Whether the end of the outer packet is missing.
    pub is_cut: bool,
}

/// A tunnel in which every number is 0. The unused places of an `ArrayVec` contain this value.
impl<'a> Default for Tunnel<'a> {
    ghost is_default = { λ tunnel. tunnel.protocol.0 ≡ 0 };

    fn default() -> Tunnel<'a> {
        Tunnel {
            addresses: IpAddresses::Ipv4 {
                source: &[0; 4],
                destination: &[0; 4],
            },
            protocol: IpNumber(0),
            network: None,
        }
    }
}

/// The protocol number of an IPv4 packet in an IP packet (RFC 2003, section 3.1).
const IPV4: u8 = 4;

/// The protocol number of an IPv6 packet in an IP packet (RFC 4213, section 3.5; RFC 2473, section 5).
const IPV6: u8 = 41;

/// The protocol number of GRE (RFC 2784, section 5).
const GRE: u8 = 47;

/// The inner packet in an outer packet. `None` if the outer packet is a fragment, if its protocol is not a tunnel, or if its payload does
/// not contain the fixed part of an inner IP header.
fn packet_in_payload<'a>(outer: &TransportInIp<'a>) -> Option<&'a [u8]>
    ensures { option_map (λ packet. packet.now) result ≡ payload_packet outer.now.is_fragment outer.now.protocol.0 outer.now.payload.now }
{
    if outer.is_fragment {
        return None;
    }
    match outer.protocol.0 {
        IPV4 => ipv4_packet(outer.payload),
        IPV6 => ipv6_packet(outer.payload),
        GRE => packet_after_gre(outer.payload),
        _ => None,
    }
}

/// The tunnel in an outer packet. `is_cut` states whether the end of the outer packet is missing. `udp_tunnels` states whether tunnels in
/// UDP are read.
pub(crate) fn tunnel_in<'a>(
    outer: &TransportInIp<'a>,
    is_cut: bool,
    udp_tunnels: bool,
) -> Option<OpenedTunnel<'a>>
    ensures { option_map tunnel_by_value result ≡ opened_with udp_tunnels (by_value outer.now.addresses) outer.now.protocol.0
        outer.now.is_fragment is_cut outer.now.payload.now }
{
    let inside = inside_payload(outer, is_cut, udp_tunnels)?;
    Some(OpenedTunnel {
        tunnel: Tunnel {
            addresses: outer.addresses,
            protocol: outer.protocol,
            network: inside.network,
        },
        link_type: inside.link_type,
        bytes: inside.bytes,
        is_cut,
    })
}

/// What the payload of an outer packet contains: a frame in a UDP datagram, if tunnels in UDP are read, or a raw IP packet.
fn inside_payload<'a>(
    outer: &TransportInIp<'a>,
    is_cut: bool,
    udp_tunnels: bool,
) -> Option<InnerFrame<'a>>
    ensures { option_map frame_by_value result
        ≡ inside_payload udp_tunnels outer.now.is_fragment is_cut outer.now.protocol.0 outer.now.payload.now }
{
    if udp_tunnels && outer.protocol.0 == ip_number::UDP.0 && !outer.is_fragment {
        return inside_udp(outer.payload, is_cut);
    }
    let bytes = packet_in_payload(outer)?;
    Some(InnerFrame {
        network: None,
        link_type: LinkType::RawIp,
        bytes,
    })
}
