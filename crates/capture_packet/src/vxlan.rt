//! Virtual eXtensible Local Area Network, VXLAN (RFC 7348).

ghost use Rattle.std.specs.Prelude.{◌≡◌};
ghost use Rattle.std.specs.Option.{option_map};
ghost use Rattle.capture_packet.specs.InnerFrames.{frame_by_value};
ghost use Rattle.capture_packet.specs.UdpTunnels.{inside_vxlan};

use crate::inner_frame::{InnerFrame, ethernet_in};
use crate::{NetworkKind, VirtualNetwork};

/// The UDP port of VXLAN, as the destination (RFC 7348, section 8).
pub(crate) const PORT: u16 = 4789;

/// The length of the header, in bytes (RFC 7348, section 5).
const HEADER_LEN: usize = 8;

/// The flag I in byte 0: the network identifier is valid (RFC 7348, section 5).
const IS_VALID: u8 = 0x08;

/// The Ethernet frame after the VXLAN header at the front of these bytes. `None` if the VXLAN header or the Ethernet header is incomplete,
/// or if the network identifier is not valid. The other flags and the reserved bytes are ignored.
pub(crate) fn inside_vxlan(bytes: &[u8]) -> Option<InnerFrame<'_>>
    ensures { option_map frame_by_value result ≡ inside_vxlan bytes.now }
{
    if bytes.len() < HEADER_LEN || bytes[0] & IS_VALID == 0 {
        return None;
    }
    let network = VirtualNetwork {
        kind: NetworkKind::Vxlan,
        id: u32::from_be_bytes([0, bytes[4], bytes[5], bytes[6]]),
    };
    ethernet_in(network, &bytes[HEADER_LEN..])
}
