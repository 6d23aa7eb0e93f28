ghost use Rattle.std.specs.Prelude.{◌≡◌};
ghost use Rattle.std.specs.Option.{option_map};
ghost use Rattle.ip_part.specs.Addresses.{by_value};
ghost use Rattle.ip_part.specs.FixedHeaders.{fixed_by_value};
ghost use Rattle.capture_packet.specs.Contents as specs;
ghost use Rattle.capture_packet.specs.HopLimits as hop_limits;
ghost use Rattle.capture_packet.specs.InnerPackets.{packet_of_version};

use crate::HopLimit;
use ip_part::{FixedHeader, IpAddresses};
use net_base::{Ipv4Header, Ipv6Header};

/// The length of an IPv4 header without options, in bytes (RFC 791, section 3.1).
const IPV4_LEN: usize = Ipv4Header::MIN_LEN;

/// The length of an IPv6 header, in bytes (RFC 8200, section 3).
pub(crate) const IPV6_LEN: usize = Ipv6Header::LEN;

/// The source and the destination in an IP header.
pub(crate) fn addresses_in(header: FixedHeader<'_>) -> IpAddresses<'_>
    ensures { by_value result ≡ specs.addresses_in (fixed_by_value header.entry) }
{
    match header {
        FixedHeader::Ipv4 {
            source,
            destination,
            ..
        } => IpAddresses::Ipv4 {
            source,
            destination,
        },
        FixedHeader::Ipv6 {
            source,
            destination,
            ..
        } => IpAddresses::Ipv6 {
            source,
            destination: Some(destination),
        },
    }
}

/// The hop limit or time to live in an IP header.
pub(crate) fn hop_limit_in(header: FixedHeader<'_>) -> HopLimit
    ensures { result ≡ hop_limits.hop_limit_in (fixed_by_value header.entry) }
{
    match header {
        FixedHeader::Ipv4 { time_to_live, .. } => HopLimit::Ipv4(time_to_live),
        FixedHeader::Ipv6 { hop_limit, .. } => HopLimit::Ipv6(hop_limit),
    }
}

/// These bytes as an IPv4 packet. `None` if they do not begin with the fixed part of an IPv4 header.
pub(crate) fn ipv4_packet(bytes: &[u8]) -> Option<&[u8]>
    ensures { option_map (λ packet. packet.now) result ≡ packet_of_version 4 bytes.now }
{
    if bytes.len() < IPV4_LEN || bytes[0] >> 4 != 4 {
        return None;
    }
    Some(bytes)
}

/// These bytes as an IPv6 packet. `None` if they do not begin with an IPv6 header.
pub(crate) fn ipv6_packet(bytes: &[u8]) -> Option<&[u8]>
    ensures { option_map (λ packet. packet.now) result ≡ packet_of_version 6 bytes.now }
{
    if bytes.len() < IPV6_LEN || bytes[0] >> 4 != 6 {
        return None;
    }
    Some(bytes)
}
