ghost use Rattle.std.specs.Prelude.{◌≡◌, IfOk, Some};
ghost use Rattle.std.specs.Option.{option_map};
ghost use Rattle.ip_part.specs.Ip.{lax_refusal};
ghost use Rattle.net_base.specs.Refusals.{RefusesExactly};
ghost use Rattle.etherparse_transport.specs.Flows.{by_value, ends_by_value, flow_of, quoted_ends_by};

use crate::ip::flow_ends::{FlowEnds, ends_in, ends_of};
use crate::ip::{IpError, TransportInIp, transport_in_ip_lax, transport_slice};

/// The flow that an IP packet belongs to.
///
/// ```
/// use etherparse_transport::ip::flow;
///
/// let packet = [
///     0x45, 0, 0, 28, 0, 0, 0, 0, 64, 17, 0, 0, 192, 168, 1, 1, 192, 168, 1, 2, // IPv4
///     0x13, 0x88, 0, 53, 0, 8, 0, 0, // UDP, from port 5000 to port 53
/// ];
/// let found = flow(&packet)?;
/// assert_eq!(rt; found.ends.source_port, Some(5000));
/// assert_eq!(rt; found.ends.destination_port, Some(53));
/// assert_eq!(rt; found.quoted, None);
/// ```
#[derive(Clone, Copy, Debug, PartialEq, Eq)]
pub struct PacketFlow<'a> {
    /// The ends of the packet itself.
    pub ends: FlowEnds<'a>,
    /// The ends of the packet that an ICMP error quotes. The quoted packet went in the other direction. `None` for any other packet, for a
    /// fragment, and if the IP headers of the quoted packet are refused or cut off.
    pub quoted: Option<FlowEnds<'a>>,
}

/// The flow that an IP packet belongs to: its addresses, its protocol, and its ports or the identifier of an ICMP query (RFC 3022, section
/// 4; RFC 5508). If the packet is an ICMP error, the result also contains the flow of the quoted packet. No checksum is tested.
///
/// The first four bytes of UDP and TCP contain the ports, so a quote of eight bytes contains them too. The queries of ICMPv4 are echo,
/// timestamp, information and address mask messages (RFC 792; RFC 950). The queries of ICMPv6 are echo messages (RFC 4443, section 4). The
/// identifier of a request is `source_port`, and the identifier of a reply is `destination_port`, as in `Ipv4Translation`. A query may have
/// any code.
///
/// The packet may be cut off or state no length, and so may the quoted packet.
///
/// # Errors
///
/// The errors of `transport_in_ip_lax`. A transport header that is cut off or malformed is no error. A port is `None` only if the packet
/// does not contain it.
pub fn flow(packet: &[u8]) -> Result<PacketFlow<'_>, IpError>
    ensures refused { RefusesExactly result (lax_refusal packet.now) }
    ensures flow { IfOk result (λ found. Some (by_value found) ≡ flow_of packet.now) }
{
    let found = transport_in_ip_lax(packet)?;
    Ok(PacketFlow {
        ends: ends_of(&found),
        quoted: quoted_ends(&found),
    })
}

/// The ends of the packet that the transport of a packet quotes.
fn quoted_ends<'a>(found: &TransportInIp<'a>) -> Option<FlowEnds<'a>>
    ensures { option_map ends_by_value result ≡ quoted_ends_by found.now }
{
    match transport_slice(found) {
        Ok(Some(transport)) => ends_in(transport.quoted_packet()?),
        _ => None,
    }
}
