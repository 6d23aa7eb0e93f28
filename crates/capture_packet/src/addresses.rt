ghost use Rattle.std.specs.Prelude.{◌≡◌, IfSome, is_some};
ghost use Rattle.std.specs.Net.Text.{ip_text};
ghost use Rattle.ip_part.specs.Addresses.{by_value};
ghost use Rattle.capture_packet.specs.Addresses.{IsDestination, IsSource, destination_text, has_destination, source_text};

use ip_part::IpAddresses;
use std::net::IpAddr;

/// The address of the sender of a packet.
pub fn source_of(addresses: IpAddresses<'_>) -> IpAddr
    ensures is { IsSource (by_value addresses.entry) result }
    ensures text { ip_text result ≡ source_text (by_value addresses.entry) }
{
    match addresses {
        IpAddresses::Ipv4 { source, .. } => IpAddr::from(*source),
        IpAddresses::Ipv6 { source, .. } => IpAddr::from(*source),
    }
}

/// The address of the final receiver of a packet, or `None` if it is not known.
pub fn destination_of(addresses: IpAddresses<'_>) -> Option<IpAddr>
    ensures known { is_some result ≡ has_destination (by_value addresses.entry) }
    ensures is { IsDestination (by_value addresses.entry) result }
    ensures text { IfSome result (λ address. ip_text address ≡ destination_text (by_value addresses.entry)) }
{
    match addresses {
        IpAddresses::Ipv4 { destination, .. } => Some(IpAddr::from(*destination)),
        IpAddresses::Ipv6 {
            destination: Some(destination),
            ..
        } => Some(IpAddr::from(*destination)),
        IpAddresses::Ipv6 {
            destination: None,
            ..
        } => None,
    }
}
