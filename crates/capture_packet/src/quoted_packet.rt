ghost use Rattle.std.specs.Prelude.{◌≡◌};
ghost use Rattle.std.specs.Option.{option_map};
ghost use Rattle.capture_packet.specs.Quotes.{by_value, quoted_at, quoted_by};

use crate::transport::ports_in;
use ip_part::{IpAddresses, Proto, TransportInIp, transport_in_ip_lax};
use net_base::IpNumber;

/// The packet that an ICMP error quotes. The error contains the first bytes of this packet (RFC 792; RFC 4443, section 3; RFC 4884, section
/// 4).
#[derive(Clone, Copy, Debug, PartialEq, Eq)]
pub struct QuotedPacket<'a> {
    /// The addresses that the checksum of the quoted packet covers.
    pub addresses: IpAddresses<'a>,
    /// The protocol number of the quoted packet's payload.
    pub protocol: IpNumber,
    /// The protocol of the quoted packet's payload, if it is UDP, TCP, or ICMP of the IP version. It is also set for a fragment.
    pub proto: Option<Proto>,
    /// The source port and the destination port: the first four bytes of UDP or TCP (RFC 768; RFC 9293, section 3.1). `None` if the error
    /// does not quote them, or if the quoted packet is a later fragment or has another protocol.
    pub ports: Option<(u16, u16)>,
}

/// Reads the quoted packet at the front of these bytes. It may be cut off or state no length, like a packet of a capture. `None` if its IP
/// headers are refused or cut off.
pub(crate) fn read_quoted_packet(bytes: &[u8]) -> Option<QuotedPacket<'_>>
    ensures { option_map by_value result ≡ quoted_at bytes.now }
{
    match transport_in_ip_lax(bytes) {
        Ok(found) => Some(quoted(&found)),
        Err(_) => None,
    }
}

/// A quoted packet with this transport.
fn quoted<'a>(found: &TransportInIp<'a>) -> QuotedPacket<'a>
    ensures { by_value result ≡ quoted_by found.now }
{
    QuotedPacket {
        addresses: found.addresses,
        protocol: found.protocol,
        proto: found.proto(),
        ports: ports_in(found),
    }
}
