//! Tunnels in UDP. A UDP port does not prove what follows, so these tunnels are read only on request.

ghost use Rattle.std.specs.Prelude.{◌≡◌};
ghost use Rattle.std.specs.Option.{option_map};
ghost use Rattle.capture_packet.specs.InnerFrames.{frame_by_value};
ghost use Rattle.capture_packet.specs.UdpTunnels.{counts_datagram, inside_datagram, inside_port, inside_udp};

use crate::inner_frame::InnerFrame;
use crate::{geneve, vxlan};
use udp_part::UdpSlice;

/// The frame in the payload of an IP packet with the protocol UDP. `is_cut` states whether the end of the IP packet is missing. `None` if
/// the UDP header is incomplete, if its length field is wrong, or if the payload of the datagram is not a tunnel.
pub(crate) fn inside_udp<'a>(payload: &'a [u8], is_cut: bool) -> Option<InnerFrame<'a>>
    ensures { option_map frame_by_value result ≡ inside_udp is_cut payload.now }
{
    match UdpSlice::from_slice_lax(payload) {
        Ok(datagram) => inside_datagram(&datagram, is_cut),
        Err(_) => None,
    }
}

/// The frame in a UDP datagram.
fn inside_datagram<'a>(datagram: &UdpSlice<'a>, is_cut: bool) -> Option<InnerFrame<'a>>
    ensures { option_map frame_by_value result ≡ inside_datagram is_cut datagram.now }
{
    if !counts_datagram(datagram, is_cut) {
        return None;
    }
    inside_port(datagram.destination_port(), datagram.payload())
}

/// Whether the length field of a datagram is the number of its bytes. If the packet is cut off, the field may count more bytes.
fn counts_datagram(datagram: &UdpSlice<'_>, is_cut: bool) -> bool
    ensures { result ≡ counts_datagram is_cut datagram.now }
{
    let counted = usize::from(datagram.length());
    let len = datagram.slice().len();
    counted == len || (is_cut && len < counted)
}

/// The frame in the payload of a UDP datagram to this port. `None` if the port is not the port of a tunnel.
fn inside_port(port: u16, payload: &[u8]) -> Option<InnerFrame<'_>>
    ensures { option_map frame_by_value result ≡ inside_port port payload.now }
{
    match port {
        vxlan::PORT => vxlan::inside_vxlan(payload),
        geneve::PORT => geneve::inside_geneve(payload),
        _ => None,
    }
}
