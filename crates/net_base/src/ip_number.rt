//! The numbers of the protocols that an IP packet carries, as IANA assigns them (RFC 5237).

/// The number of the protocol that an IP packet carries, as IANA assigns it (RFC 5237).
///
/// ```
/// use etherparse_transport::{IpNumber, ip_number};
///
/// // Byte 9 of an IPv4 header contains the number.
/// let header = [0x45, 0, 0, 20, 0, 0, 0, 0, 64, 17, 0, 0, 192, 168, 1, 1, 192, 168, 1, 2];
/// assert_eq!(rt; IpNumber(header[9]), ip_number::UDP);
/// assert_eq!(rt; ip_number::IPV6_ICMP.0, 58);
/// ```
#[derive(Clone, Copy, Debug, PartialEq, Eq, Hash)]
pub struct IpNumber(pub u8);

/// ICMPv4 (RFC 792).
pub const ICMP: IpNumber = IpNumber(1);

/// TCP (RFC 9293).
pub const TCP: IpNumber = IpNumber(6);

/// UDP (RFC 768).
pub const UDP: IpNumber = IpNumber(17);

/// ICMPv6 (RFC 4443, section 1).
pub const IPV6_ICMP: IpNumber = IpNumber(58);

/// The extension header of IPv6 that contains options for each hop (RFC 8200, section 4.3).
pub const IPV6_HEADER_HOP_BY_HOP: IpNumber = IpNumber(0);

/// The extension header of IPv6 for routing (RFC 8200, section 4.4).
pub const IPV6_ROUTE_HEADER: IpNumber = IpNumber(43);

/// The extension header of IPv6 for fragments (RFC 8200, section 4.5).
pub const IPV6_FRAGMENTATION_HEADER: IpNumber = IpNumber(44);

/// Encapsulating Security Payload (RFC 4303).
pub const ENCAPSULATING_SECURITY_PAYLOAD: IpNumber = IpNumber(50);

/// The authentication header (RFC 4302).
pub const AUTHENTICATION_HEADER: IpNumber = IpNumber(51);

/// Nothing follows the header that contains this number (RFC 8200, section 4.7).
pub const IPV6_NO_NEXT_HEADER: IpNumber = IpNumber(59);

/// The extension header of IPv6 that contains options for the destination (RFC 8200, section 4.6).
pub const IPV6_DESTINATION_OPTIONS: IpNumber = IpNumber(60);

/// The mobility header (RFC 6275, section 6.1).
pub const MOBILITY_HEADER: IpNumber = IpNumber(135);

/// The Host Identity Protocol (RFC 7401, section 5.1).
pub const HIP: IpNumber = IpNumber(139);

/// Shim6, which changes the addresses below the transport (RFC 5533, section 5.1).
pub const SHIM6: IpNumber = IpNumber(140);
