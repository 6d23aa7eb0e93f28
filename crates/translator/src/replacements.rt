ghost use Rattle.std.specs.Prelude.{◌≡◌};
ghost use Rattle.translator.specs.Replacements as specs;
ghost use Rattle.translator.specs.Replacements.{new_address, new_ipv4, new_ipv6, new_port};

use crate::network::Network;
use std::alloc::{AllocError, Global};

/// The replacement of a network by another network of the same IP version. The new prefix is at least as long as the old one. The bits
/// after the new prefix are kept.
#[derive(Clone, Copy, Debug)]
pub struct NetworkReplacement {
    /// The network whose addresses are replaced.
    pub old: Network,
    /// The network of the new addresses.
    pub new: Network,
}

/// The replacement of a port.
#[derive(Clone, Copy, Debug)]
pub struct PortReplacement {
    /// The port that is replaced.
    pub old: u16,
    /// The new port.
    pub new: u16,
}

/// The replacements for sources, or for destinations. If several replacements apply to an address or port, the first one counts.
#[derive(Debug, Drop)]
pub struct Replacements {
    /// The replacements of IPv4 networks.
    pub ipv4: Vec<NetworkReplacement>,
    /// The replacements of IPv6 networks.
    pub ipv6: Vec<NetworkReplacement>,
    /// The replacements of UDP and TCP ports.
    pub ports: Vec<PortReplacement>,
}

impl Replacements {
    /// An empty list of replacements.
    pub fn new(alloc: Global) -> Replacements
        ensures none { specs.HasNone result }
    {
        Replacements {
            ipv4: Vec::new(alloc),
            ipv6: Vec::new(alloc),
            ports: Vec::new(alloc),
        }
    }

    /// Whether the lists contain no replacement.
    pub fn is_empty(&self) -> bool
        ensures { result ≡ specs.is_empty self.now }
    {
        self.ipv4.is_empty() && self.ipv6.is_empty() && self.ports.is_empty()
    }

    /// The new address that replaces this IPv4 address, or `None` if no replacement applies.
    pub fn ipv4(&self, address: [u8; 4]) -> Option<[u8; 4]>
        ensures { result ≡ new_ipv4 self.now address }
    {
        let number = u128::from(u32::from_be_bytes(address));
        let [.., a, b, c, d] = first_address(self.ipv4.as_slice(), number)?.to_be_bytes();
        Some([a, b, c, d])
    }

    /// The new address that replaces this IPv6 address, or `None` if no replacement applies.
    pub fn ipv6(&self, address: [u8; 16]) -> Option<[u8; 16]>
        ensures { result ≡ new_ipv6 self.now address }
    {
        let number = u128::from_be_bytes(address);
        Some(first_address(self.ipv6.as_slice(), number)?.to_be_bytes())
    }

    /// The new port that replaces this UDP or TCP port, or `None` if no replacement applies.
    pub fn port(&self, port: u16) -> Option<u16>
        ensures { result ≡ new_port self.now.ports.items port }
    {
        let mut left = self.ports.as_slice();
        while let [first, rest @ ..] = left {
            if first.old == port {
                return Some(first.new);
            }
            left = rest;
        }
        None
    }
}

/// The address that the first replacement of a network containing this address gives.
fn first_address(replacements: &[NetworkReplacement], address: u128) -> Option<u128>
    ensures { result ≡ new_address replacements.now address }
{
    let mut left = replacements;
    while let [first, rest @ ..] = left {
        if first.old.contains(address) {
            return Some(first.new.with_host_of(address));
        }
        left = rest;
    }
    None
}
