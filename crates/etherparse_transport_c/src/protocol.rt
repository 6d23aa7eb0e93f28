//! The numbers of the protocols in the interface to C. IP headers contain the same numbers.

use etherparse_transport::ip_number;

/// ICMPv4 (RFC 792).
pub const ICMPV4: u32 = ip_number::ICMP.0 as u32;

/// TCP (RFC 9293).
pub const TCP: u32 = ip_number::TCP.0 as u32;

/// UDP (RFC 768).
pub const UDP: u32 = ip_number::UDP.0 as u32;

/// ICMPv6 (RFC 4443).
pub const ICMPV6: u32 = ip_number::IPV6_ICMP.0 as u32;
