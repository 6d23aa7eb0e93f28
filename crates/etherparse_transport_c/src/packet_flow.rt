ghost use Rattle.std.specs.Prelude.{◌≡◌, Some, unwrap_or};
ghost use Rattle.std.specs.Option.{option_map};
ghost use Rattle.ip_part.specs.Addresses.{by_value};
ghost use Rattle.etherparse_transport.specs.Flows.{ends_by_value, flow_of};
ghost use Rattle.etherparse_transport.specs.Flows as flows;
ghost use Rattle.etherparse_transport_c.specs.Errors.{Leaves, status_of};
ghost use Rattle.etherparse_transport_c.specs.Flows as specs;
ghost use Rattle.etherparse_transport_c.specs.Flows.{found};
ghost use Rattle.etherparse_transport_c.specs.Ip.{lax_refusal};

use crate::answer::{Answer, ErrorPlace, accept, refuse};
use crate::error::of_ip;
use crate::ip::{destination, source, version};
use etherparse_transport::ip::{FlowEnds, PacketFlow, flow};

/// The two ends of a flow, as one of its packets contains them: addresses, and ports or identifiers.
#[repr(C)]
#[derive(Clone, Copy)]
pub struct EtherparseFlowEnds {
    /// The version, 4 or 6.
    pub version: u32,
    /// The protocol of the payload, as its number in IP headers.
    pub protocol: u32,
    /// 1 if the packet is a fragment, otherwise 0, as in `EtherparseIpTransport`. The first fragment contains the ports.
    pub is_fragment: u32,
    /// 1 if the packet is a later fragment, otherwise 0. A later fragment contains no port and no identifier.
    pub is_later_fragment: u32,
    /// 1 if the final destination is known, otherwise 0, as in `EtherparseIpTransport`.
    pub has_destination: u32,
    /// 1 if `source_port` is known, otherwise 0.
    pub has_source_port: u32,
    /// 1 if `destination_port` is known, otherwise 0.
    pub has_destination_port: u32,
    /// The source port of UDP and TCP, or the identifier of an ICMP request (RFC 5508, section 3.1). It is 0 if it is not known.
    pub source_port: u16,
    /// The destination port of UDP and TCP, or the identifier of an ICMP reply. It is 0 if it is not known.
    pub destination_port: u16,
    /// The source that the checksum covers. An IPv4 address is in the first four bytes, and the other bytes are 0.
    pub source: [u8; 16],
    /// The final destination, which the checksum covers. It has the same form as the source. All bytes are 0 if it is not known.
    pub destination: [u8; 16],
}

/// The flow that an IP packet belongs to.
#[repr(C)]
#[derive(Clone, Copy)]
pub struct EtherparsePacketFlow {
    /// The ends of the packet itself.
    pub ends: EtherparseFlowEnds,
    /// If the packet is an ICMP error: the ends of the packet that it quotes. The quoted packet went in the other direction. If no packet
    /// is quoted, every field is 0.
    pub quoted: EtherparseFlowEnds,
}

/// Ends in which every field is 0.
const NONE: EtherparseFlowEnds = EtherparseFlowEnds {
    version: 0,
    protocol: 0,
    is_fragment: 0,
    is_later_fragment: 0,
    has_destination: 0,
    has_source_port: 0,
    has_destination_port: 0,
    source_port: 0,
    destination_port: 0,
    source: [0; 16],
    destination: [0; 16],
};

/// Returns the ends in the form of the C struct.
fn fields_of(ends: &FlowEnds<'_>) -> EtherparseFlowEnds
    ensures { result ≡ specs.ends_of (ends_by_value ends.now) }
{
    let (destination, has_destination) = destination(ends.addresses);
    EtherparseFlowEnds {
        version: version(ends.addresses),
        protocol: u32::from(ends.protocol.0),
        is_fragment: u32::from(ends.is_fragment),
        is_later_fragment: u32::from(ends.is_later_fragment),
        has_destination: u32::from(has_destination),
        has_source_port: u32::from(ends.source_port.is_some()),
        has_destination_port: u32::from(ends.destination_port.is_some()),
        source_port: ends.source_port.unwrap_or(0),
        destination_port: ends.destination_port.unwrap_or(0),
        source: source(ends.addresses),
        destination,
    }
}

/// Returns the flow in the form of the C struct.
fn told(found: &PacketFlow<'_>) -> EtherparsePacketFlow
    ensures { result ≡ specs.told (flows.by_value found.now) }
{
    EtherparsePacketFlow {
        ends: fields_of(&found.ends),
        quoted: match &found.quoted {
            Some(quoted) => fields_of(quoted),
            None => NONE,
        },
    }
}

/// Finds the flow that an IPv4 or IPv6 packet belongs to: its addresses, its protocol, and its ports or the identifier of an ICMP query
/// (RFC 3022, section 4; RFC 5508). For an ICMP error, the call also finds the flow of the quoted packet. The packet may be cut off or
/// state no length, as for `etherparse_transport_in_ip_lax`. No checksum is tested.
///
/// # Errors
///
/// The statuses of `etherparse_transport_in_ip_lax`. After an error `error` contains the reason, and `flow_of_packet` is unchanged. If the
/// transport header can't be read, the ports are not known. If the quoted packet can't be read, all fields of `quoted` are 0. Neither is an
/// error.
#[unsafe(no_mangle)]
pub extern "C" fn etherparse_flow(
    bytes: &[u8],
    flow_of_packet: &mut EtherparsePacketFlow,
    error: ErrorPlace,
) -> Answer
    ensures status { result.status ≡ status_of (lax_refusal bytes.now) }
    ensures error { Leaves error result (unwrap_or (lax_refusal bytes.now) error.before) }
    ensures flow { flow_of_packet.new ≡ found (flow_of bytes.now) flow_of_packet.old }
{
    match flow(bytes) {
        Ok(found) => {
            *flow_of_packet = told(&found);
            accept(error)
        }
        Err(refused) => refuse(error, of_ip(&refused)),
    }
}
