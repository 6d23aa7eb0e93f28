ghost use Rattle.std.specs.Prelude.{◌≡◌, ◌↔◌, IsTrue};
ghost use Rattle.std.specs.contracts.net.socket_addr.SocketAddrPartialEq.TheImpl as address_eq;
ghost use Rattle.capture_summary.specs.Kinds.{flow_proto, flow_protocol_number, flow_protocol_word};
ghost use Rattle.capture_summary.specs.Conversations.{canonical, is_same_flow, reversed};

use ip_part::Proto;
use net_base::{IpNumber, ip_number};
use std::net::SocketAddr;

/// The protocol of a flow.
#[derive(Clone, Copy, Debug, PartialEq, Eq, Hash)]
pub enum FlowProtocol {
    /// UDP.
    Udp,
    /// TCP.
    Tcp,
}

impl FlowProtocol {
    /// The name of the protocol.
    pub fn name(self) -> &'static str
        ensures { result.now ≡ flow_protocol_word self }
    {
        match self {
            FlowProtocol::Udp => "UDP",
            FlowProtocol::Tcp => "TCP",
        }
    }

    /// Returns the protocol as a `Proto`.
    pub fn proto(self) -> Proto
        ensures { result ≡ flow_proto self }
    {
        match self {
            FlowProtocol::Udp => Proto::Udp,
            FlowProtocol::Tcp => Proto::Tcp,
        }
    }

    /// The number of the protocol over IP.
    pub fn number(self) -> IpNumber
        ensures { result.0 ≡ flow_protocol_number self }
    {
        match self {
            FlowProtocol::Udp => ip_number::UDP,
            FlowProtocol::Tcp => ip_number::TCP,
        }
    }
}

/// The packets of one protocol from one address and port to another. The packets of the other direction are another flow of the same
/// conversation.
#[derive(Clone, Copy, Debug, PartialEq, Eq, Hash)]
pub struct Flow {
    /// The protocol.
    pub protocol: FlowProtocol,
    /// The address and port of the sender.
    pub source: SocketAddr,
    /// The address and port of the receiver.
    pub destination: SocketAddr,
}

impl Flow {
    /// The flow in the other direction.
    pub fn reversed(&self) -> Flow
        ensures { result ≡ reversed self.now }
    {
        Flow {
            protocol: self.protocol,
            source: self.destination,
            destination: self.source,
        }
    }

    /// Whether both flows have the same protocol, source and destination.
    pub(crate) fn is_same(&self, other: &Flow) -> bool
        ensures same { IsTrue result ↔ (self.now ≡ other.now) }
        ensures counted { result ≡ is_same_flow self.now other.now }
    {
        self.protocol == other.protocol
            && equal_address(&self.source, &other.source)
            && equal_address(&self.destination, &other.destination)
    }

    /// The direction of the conversation that goes from the lower address and port to the higher. Both directions have the same result.
    pub(crate) fn canonical(&self) -> Flow
        ensures { result ≡ canonical self.now }
    {
        if self.source.cmp(&self.destination).is_gt() {
            self.reversed()
        } else {
            *self
        }
    }
}

/// Whether two addresses with ports are equal.
fn equal_address(a: &SocketAddr, b: &SocketAddr) -> bool
    ensures same { IsTrue result ↔ (a.now ≡ b.now) }
    ensures equal { result ≡ (address_eq.ghosts).eq a.now b.now }
{
    a == b
}
