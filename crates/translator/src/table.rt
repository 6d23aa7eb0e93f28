ghost use Rattle.std.specs.Prelude.{◌≡◌, false};
ghost use Rattle.translator.specs.Merging.{KeepsApart, merges_addresses};
ghost use Rattle.translator.specs.Replacements as specs;

use crate::merging::can_merge;
use crate::replacements::Replacements;
use etherparse_transport::ip::{Ipv4Translation, Ipv6Translation};
use etherparse_transport::{Ipv4Header, Ipv6Header};

/// The table of replacements: what is replaced in the packets of a capture.
#[derive(Debug, Drop)]
pub struct Table {
    /// The replacements of source addresses and source ports.
    pub source: Replacements,
    /// The replacements of destination addresses and destination ports.
    pub destination: Replacements,
}

/// The source port and the destination port of UDP or TCP. `None` if the packet contains no ports.
pub type Ports = Option<(u16, u16)>;

impl Table {
    /// Whether the table contains no replacement.
    pub fn is_empty(&self) -> bool
        ensures { result ≡ specs.is_empty_table self.now }
    {
        self.source.is_empty() && self.destination.is_empty()
    }

    /// Whether two addresses of the same IP version can become one address. If the result is `false`, addresses that differ get new
    /// addresses that differ.
    pub fn merges_addresses(&self) -> bool
        ensures decided { result ≡ merges_addresses self.now }
        ensures apart { result ≡ false → KeepsApart self.now }
    {
        self.can_merge()
    }

    /// Whether two addresses of the same IP version can become one address.
    fn can_merge(&self) -> bool
        ensures { result ≡ merges_addresses self.now }
    {
        can_merge(
            self.source.ipv4.as_slice(),
            self.destination.ipv4.as_slice(),
        ) || can_merge(
            self.source.ipv6.as_slice(),
            self.destination.ipv6.as_slice(),
        )
    }

    /// What the table replaces in an IPv4 packet with these addresses and ports.
    pub fn ipv4_translation(&self, addresses: &Ipv4Header, ports: Ports) -> Ipv4Translation
        ensures { result ≡ specs.ipv4_translation self.now addresses.now ports }
    {
        let (source_port, destination_port) = self.new_ports(ports);
        Ipv4Translation {
            source: self.source.ipv4(addresses.source),
            destination: self.destination.ipv4(addresses.destination),
            source_port,
            destination_port,
        }
    }

    /// What the table replaces in an IPv6 packet with these addresses and ports.
    pub fn ipv6_translation(&self, addresses: &Ipv6Header, ports: Ports) -> Ipv6Translation
        ensures { result ≡ specs.ipv6_translation self.now addresses.now ports }
    {
        let (source_port, destination_port) = self.new_ports(ports);
        Ipv6Translation {
            source: self.source.ipv6(addresses.source),
            destination: self.destination.ipv6(addresses.destination),
            source_port,
            destination_port,
        }
    }

    /// The new source port and the new destination port. Each is `None` if no replacement applies.
    fn new_ports(&self, ports: Ports) -> (Option<u16>, Option<u16>)
        ensures { result ≡ specs.new_ports self.now ports }
    {
        match ports {
            Some((source, destination)) => (
                self.source.port(source),
                self.destination.port(destination),
            ),
            None => (None, None),
        }
    }
}

/// The source port and the destination port, exchanged.
pub fn exchanged(ports: Ports) -> Ports
    ensures { result ≡ specs.exchanged ports }
{
    match ports {
        Some((source, destination)) => Some((destination, source)),
        None => None,
    }
}
