//! Numbers for the kinds of ICMPv6 messages, in the interface to C. The meaning of a number never changes.

/// A message whose type and code belong to none of the other kinds.
pub const UNKNOWN: u32 = 0;

/// A destination unreachable message (RFC 4443, section 3.1).
pub const DESTINATION_UNREACHABLE: u32 = 1;

/// A packet too big message (RFC 4443, section 3.2).
pub const PACKET_TOO_BIG: u32 = 2;

/// A time exceeded message (RFC 4443, section 3.3).
pub const TIME_EXCEEDED: u32 = 3;

/// A parameter problem message (RFC 4443, section 3.4).
pub const PARAMETER_PROBLEM: u32 = 4;

/// An echo request message (RFC 4443, section 4.1).
pub const ECHO_REQUEST: u32 = 5;

/// An echo reply message (RFC 4443, section 4.2).
pub const ECHO_REPLY: u32 = 6;

/// A router solicitation message (RFC 4861, section 4.1).
pub const ROUTER_SOLICITATION: u32 = 7;

/// A router advertisement message (RFC 4861, section 4.2).
pub const ROUTER_ADVERTISEMENT: u32 = 8;

/// A neighbor solicitation message (RFC 4861, section 4.3).
pub const NEIGHBOR_SOLICITATION: u32 = 9;

/// A neighbor advertisement message (RFC 4861, section 4.4).
pub const NEIGHBOR_ADVERTISEMENT: u32 = 10;

/// A redirect message (RFC 4861, section 4.5).
pub const REDIRECT: u32 = 11;
