ghost use Rattle.std.specs.Prelude.{◌≡◌};
ghost use Rattle.capture_summary.specs.FlowOf as specs;
ghost use Rattle.capture_summary.specs.FlowOf.{IsFlowOf, ports_of};

use crate::{Flow, FlowProtocol};
use capture_packet::{Content, Packet, Transport, destination_of, source_of};
use ip_part::Proto;
use std::net::SocketAddr;
use transport_part::TransportSlice;

/// The flow of a packet. `None` if the packet has no ports, if its headers are refused, or if its final destination is unknown.
pub fn flow_of(packet: &Packet<'_>) -> Option<Flow>
    ensures { IsFlowOf packet.now.content result }
{
    let Content::Ip {
        addresses,
        proto,
        transport,
        ..
    } = &packet.content
    else {
        return None;
    };
    let source = source_of(*addresses);
    let destination = destination_of(*addresses)?;
    let (protocol, source_port, destination_port) = ports(*proto, transport)?;
    Some(Flow {
        protocol,
        source: SocketAddr::new(source, source_port),
        destination: SocketAddr::new(destination, destination_port),
    })
}

/// The protocol of a flow, its source port and its destination port. `None` if the transport has no ports. `proto` is the protocol that the
/// IP header states.
pub(crate) fn ports(
    proto: Option<Proto>,
    transport: &Transport<'_>,
) -> Option<(FlowProtocol, u16, u16)>
    ensures { result ≡ ports_of proto transport.now }
{
    match transport {
        Transport::Read(TransportSlice::Udp(packet)) => Some((
            FlowProtocol::Udp,
            packet.source_port(),
            packet.destination_port(),
        )),
        Transport::Read(TransportSlice::Tcp(segment)) => Some((
            FlowProtocol::Tcp,
            segment.source_port(),
            segment.destination_port(),
        )),
        Transport::Ports {
            source,
            destination,
            ..
        } => Some((flow_protocol(proto)?, *source, *destination)),
        _ => None,
    }
}

/// The protocol of a flow, if packets of this protocol have flows.
fn flow_protocol(proto: Option<Proto>) -> Option<FlowProtocol>
    ensures { result ≡ specs.flow_protocol proto }
{
    match proto {
        Some(Proto::Udp) => Some(FlowProtocol::Udp),
        Some(Proto::Tcp) => Some(FlowProtocol::Tcp),
        _ => None,
    }
}
