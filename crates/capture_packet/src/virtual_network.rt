//! The virtual network of a tunnel in UDP.

ghost use Rattle.std.specs.Prelude.{◌≡◌};
ghost use Rattle.capture_packet.specs.NetworkKinds.{kind_name};

/// The virtual network to which a tunnel in UDP belongs.
#[derive(Clone, Copy, Debug, PartialEq, Eq)]
pub struct VirtualNetwork {
    /// The kind of the tunnel's header.
    pub kind: NetworkKind,
    /// The network identifier, a number of 24 bits (RFC 7348, section 5; RFC 8926, section 3.4).
    pub id: u32,
}

/// The kind of a tunnel in UDP.
#[derive(Clone, Copy, Debug, PartialEq, Eq)]
pub enum NetworkKind {
    /// Virtual eXtensible Local Area Network (RFC 7348).
    Vxlan,
    /// Generic Network Virtualization Encapsulation (RFC 8926).
    Geneve,
}

impl NetworkKind {
    /// Returns the name of the kind: `VXLAN` or `Geneve`.
    pub fn name(self) -> &'static str
        ensures { result.now ≡ kind_name self }
    {
        match self {
            NetworkKind::Vxlan => "VXLAN",
            NetworkKind::Geneve => "Geneve",
        }
    }
}
