ghost use Rattle.std.specs.Prelude.{◌≡◌};
ghost use Rattle.ip_part.specs.Addresses.{by_value};
ghost use Rattle.ip_part.specs.Protocols as specs;

use crate::{IpAddresses, IpNumber, ip_number};

/// A transport protocol.
///
/// ```
/// use etherparse_transport::ip::{IpAddresses, proto_over};
/// use etherparse_transport::{Proto, ip_number};
///
/// let (source, destination) = (&[192, 168, 1, 1], &[192, 168, 1, 2]);
/// let addresses = IpAddresses::Ipv4 { source, destination };
/// assert_eq!(rt; proto_over(addresses, ip_number::ICMP), Some(Proto::Icmpv4));
/// assert_eq!(rt; proto_over(addresses, ip_number::IPV6_ICMP), None);
/// ```
#[derive(Clone, Copy, Debug, PartialEq, Eq)]
pub enum Proto {
    /// UDP (RFC 768).
    Udp,
    /// TCP (RFC 9293).
    Tcp,
    /// ICMPv4 (RFC 792).
    Icmpv4,
    /// ICMPv6 (RFC 4443).
    Icmpv6,
}

/// The protocol with this number between these addresses (RFC 5237). `None` for a protocol other than UDP, TCP and
/// ICMP. `None` also for ICMP of the wrong IP version: ICMPv4 is a protocol only over IPv4, and ICMPv6 only over IPv6.
#[inline(always)]
pub fn proto_over(addresses: IpAddresses<'_>, number: IpNumber) -> Option<Proto>
    ensures { result ≡ specs.proto_over (by_value addresses.entry) number.0 }
{
    let is_ipv4 = matches!(addresses, IpAddresses::Ipv4 { .. });
    if number == ip_number::UDP {
        Some(Proto::Udp)
    } else if number == ip_number::TCP {
        Some(Proto::Tcp)
    } else if number == ip_number::ICMP && is_ipv4 {
        Some(Proto::Icmpv4)
    } else if number == ip_number::IPV6_ICMP && !is_ipv4 {
        Some(Proto::Icmpv6)
    } else {
        None
    }
}
