ghost use Rattle.std.specs.Prelude.{◌≡◌, ◌≤◌, length};
ghost use Rattle.std.specs.Option.{option_map};
ghost use Rattle.ip_part.specs.FixedHeaders.{fixed_by_value, fixed_ipv4, fixed_ipv6};
ghost use Rattle.ip_part.specs.FixedHeaders as specs;

use crate::address::{ipv4_address, ipv6_address};
use crate::ip_header::{IPV4_MIN_LEN, IPV6_LEN};
use net_base::{IpNumber, Ipv4Header, Ipv6Header};

/// The place of the sender's address, in bytes from the start of an IPv4 header (RFC 791, section 3.1).
pub(crate) const IPV4_SOURCE_AT: usize = Ipv4Header::SOURCE_AT;

/// The place of the receiver's address, in bytes from the start of an IPv4 header (RFC 791, section 3.1).
const IPV4_DESTINATION_AT: usize = Ipv4Header::DESTINATION_AT;

/// The place of the sender's address, in bytes from the start of an IPv6 header (RFC 8200, section 3).
pub(crate) const IPV6_SOURCE_AT: usize = Ipv6Header::SOURCE_AT;

/// The place of the receiver's address, in bytes from the start of an IPv6 header (RFC 8200, section 3).
pub(crate) const IPV6_DESTINATION_AT: usize = Ipv6Header::DESTINATION_AT;

/// The fixed part of an IP header: the first 20 bytes of an IPv4 header (RFC 791, section 3.1), or the 40 bytes of an IPv6 header (RFC
/// 8200, section 3). Options and extension headers do not change the fixed part.
///
/// ```
/// use etherparse_transport::ip::{FixedHeader, transport_in_ip};
/// use etherparse_transport::ip_number;
///
/// let packet = [0x45, 0, 0, 20, 0, 0, 0, 0, 64, 17, 0, 0, 192, 168, 1, 1, 192, 168, 1, 2];
/// let header = FixedHeader::Ipv4 {
///     source: &[192, 168, 1, 1],
///     destination: &[192, 168, 1, 2],
///     time_to_live: 64,
///     protocol: ip_number::UDP,
/// };
/// assert_eq!(rt; transport_in_ip(&packet)?.fixed_header, header);
/// ```
#[derive(Clone, Copy, Debug, PartialEq, Eq)]
pub enum FixedHeader<'a> {
    /// The fixed part of an IPv4 header (RFC 791, section 3.1).
    Ipv4 {
        /// The address of the sender: bytes 12 to 15.
        source: &'a [u8; 4],
        /// The address of the receiver: bytes 16 to 19. If a source route has an address left, it may differ from the final address, which
        /// a checksum covers (RFC 1122, section 3.2.1.8).
        destination: &'a [u8; 4],
        /// The number of hops that are left: byte 8.
        time_to_live: u8,
        /// The protocol of the bytes that follow the IP header: byte 9.
        protocol: IpNumber,
    },
    /// An IPv6 header (RFC 8200, section 3).
    Ipv6 {
        /// The address of the sender: bytes 8 to 23. A mobile node may also have a home address (RFC 6275, section 9.3.1).
        source: &'a [u8; 16],
        /// The address of the receiver: bytes 24 to 39. If there is a routing header, it may differ from the final address, which a
        /// checksum covers (RFC 8200, section 8.1).
        destination: &'a [u8; 16],
        /// The number of hops that are left: byte 7.
        hop_limit: u8,
        /// The number of the header or protocol that follows the IPv6 header: byte 6.
        next_header: IpNumber,
    },
}

/// The fixed part of the IP header at the front of a packet. `None` if the version is neither 4 nor 6. `None` also if the slice is shorter
/// than 20 bytes for version 4, or than 40 bytes for version 6. The lengths in the header are not checked, so the fixed part of a refused
/// packet can be read too.
pub fn fixed_header(packet: &[u8]) -> Option<FixedHeader<'_>>
    ensures { option_map fixed_by_value result ≡ specs.fixed_header packet.now }
{
    if packet.len() < IPV4_MIN_LEN {
        return None;
    }
    match packet[0] >> 4 {
        4 => Some(ipv4_fixed_header(packet)),
        6 if packet.len() >= IPV6_LEN => Some(ipv6_fixed_header(packet)),
        _ => None,
    }
}

/// The fixed part of the IPv4 header at the front of these bytes.
#[inline(always)]
pub(crate) fn ipv4_fixed_header(bytes: &[u8]) -> FixedHeader<'_>
    requires { 20 ≤ length bytes.now }
    ensures { fixed_by_value result ≡ fixed_ipv4 bytes.now }
{
    FixedHeader::Ipv4 {
        source: ipv4_address(bytes, IPV4_SOURCE_AT),
        destination: ipv4_address(bytes, IPV4_DESTINATION_AT),
        time_to_live: bytes[8],
        protocol: IpNumber(bytes[9]),
    }
}

/// The fixed part of the IPv6 header at the front of these bytes.
#[inline(always)]
pub(crate) fn ipv6_fixed_header(bytes: &[u8]) -> FixedHeader<'_>
    requires { 40 ≤ length bytes.now }
    ensures { fixed_by_value result ≡ fixed_ipv6 bytes.now }
{
    FixedHeader::Ipv6 {
        source: ipv6_address(bytes, IPV6_SOURCE_AT),
        destination: ipv6_address(bytes, IPV6_DESTINATION_AT),
        hop_limit: bytes[7],
        next_header: IpNumber(bytes[6]),
    }
}
