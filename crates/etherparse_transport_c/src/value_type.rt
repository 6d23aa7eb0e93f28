//! Numbers for the kinds of values that can be too big, in the interface to C. The meaning of a number never changes.

/// The length of a UDP payload over IPv4.
pub const UDP_PAYLOAD_LENGTH_IPV4: u32 = 1;

/// The length of a UDP payload over IPv6.
pub const UDP_PAYLOAD_LENGTH_IPV6: u32 = 2;

/// The length of a TCP payload over IPv4.
pub const TCP_PAYLOAD_LENGTH_IPV4: u32 = 3;

/// The length of a TCP payload over IPv6.
pub const TCP_PAYLOAD_LENGTH_IPV6: u32 = 4;

/// The length of an ICMPv6 payload.
pub const ICMPV6_PAYLOAD_LENGTH: u32 = 5;

/// The length of the payload after the transport header, if a call writes an IP packet.
pub const IP_PAYLOAD_LENGTH: u32 = 6;
