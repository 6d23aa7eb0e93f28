//! The frame in a tunnel.

ghost use Rattle.std.specs.Prelude.{◌≡◌, None, Some};
ghost use Rattle.std.specs.Option.{option_map};
ghost use Rattle.capture_packet.specs.InnerFrames.{frame_by_value};
ghost use Rattle.capture_packet.specs.UdpTunnels.{ethernet_in, frame_of_type};

use crate::VirtualNetwork;
use crate::gre::packet_of_type;
use capture_numbers::LinkType;

/// The length of an Ethernet header, in bytes: two addresses, and an ether type (IEEE 802.3, clause 3.2).
const ETHERNET_LEN: usize = 14;

/// The ether type of an Ethernet frame in a tunnel (RFC 8926, section 3.4).
const ETHERNET: u16 = 0x6558;

/// The frame in a tunnel.
#[derive(Clone, Copy, Debug, PartialEq, Eq)]
pub(crate) struct InnerFrame<'a> {
    /// The virtual network to which the tunnel belongs, if its header states one.
    pub network: Option<VirtualNetwork>,
    /// The link type of the frame.
    pub link_type: LinkType,
    /// The bytes of the frame.
    pub bytes: &'a [u8],
}

/// These bytes as an Ethernet frame of this network. `None` if they do not begin with a whole Ethernet header.
pub(crate) fn ethernet_in(network: VirtualNetwork, bytes: &[u8]) -> Option<InnerFrame<'_>>
    ensures { option_map frame_by_value result ≡ ethernet_in network bytes.now }
{
    if bytes.len() < ETHERNET_LEN {
        return None;
    }
    Some(InnerFrame {
        network: Some(network),
        link_type: LinkType::Ethernet,
        bytes,
    })
}

/// These bytes as a frame of this network: an Ethernet frame, or the IP packet with this ether type. `None` if the ether type is another
/// one, or if the bytes do not begin with a whole Ethernet header or with the fixed part of an IP header of this version.
pub(crate) fn frame_of_type(
    network: VirtualNetwork,
    ether_type: u16,
    bytes: &[u8],
) -> Option<InnerFrame<'_>>
    ensures { option_map frame_by_value result ≡ frame_of_type network ether_type bytes.now }
{
    if ether_type == ETHERNET {
        return ethernet_in(network, bytes);
    }
    let packet = packet_of_type(ether_type, bytes)?;
    Some(InnerFrame {
        network: Some(network),
        link_type: LinkType::RawIp,
        bytes: packet,
    })
}
