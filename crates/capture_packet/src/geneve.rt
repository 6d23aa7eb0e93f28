//! Generic Network Virtualization Encapsulation, Geneve, version 0 (RFC 8926).

ghost use Rattle.std.specs.Prelude.{◌≡◌};
ghost use Rattle.std.specs.Option.{option_map};
ghost use Rattle.capture_packet.specs.InnerFrames.{frame_by_value};
ghost use Rattle.capture_packet.specs.UdpTunnels.{inside_geneve};

use crate::inner_frame::{InnerFrame, frame_of_type};
use crate::{NetworkKind, VirtualNetwork};

/// The UDP port of Geneve, as the destination (RFC 8926, section 3.3).
pub(crate) const PORT: u16 = 6081;

/// The length of a header without options, in bytes (RFC 8926, section 3.4).
const SHORTEST_LEN: usize = 8;

/// The unit of the length of options, in bytes.
const OPTION_UNIT: usize = 4;

/// The least value of byte 0 that has another version than 0. Below it, byte 0 is the length of the options (RFC 8926, section 3.4).
const FIRST_OTHER_VERSION: u8 = 64;

/// The frame after the Geneve header at the front of these bytes. `None` if the header is cut off or has another version, if another
/// protocol follows, or if the inner Ethernet or IP header is incomplete. The options, the flags and the reserved bits are ignored.
pub(crate) fn inside_geneve(bytes: &[u8]) -> Option<InnerFrame<'_>>
    ensures { option_map frame_by_value result ≡ inside_geneve bytes.now }
{
    if bytes.len() < SHORTEST_LEN || bytes[0] >= FIRST_OTHER_VERSION {
        return None;
    }
    let len = SHORTEST_LEN + usize::from(bytes[0]) * OPTION_UNIT;
    if bytes.len() < len {
        return None;
    }
    let network = VirtualNetwork {
        kind: NetworkKind::Geneve,
        id: u32::from_be_bytes([0, bytes[4], bytes[5], bytes[6]]),
    };
    frame_of_type(
        network,
        u16::from_be_bytes([bytes[2], bytes[3]]),
        &bytes[len..],
    )
}
