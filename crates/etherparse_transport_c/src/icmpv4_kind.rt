//! Numbers for the kinds of ICMPv4 messages, in the interface to C. The meaning of a number never changes.

/// A message whose type and code belong to none of the other kinds.
pub const UNKNOWN: u32 = 0;

/// An echo reply message (RFC 792).
pub const ECHO_REPLY: u32 = 1;

/// A destination unreachable message (RFC 792).
pub const DESTINATION_UNREACHABLE: u32 = 2;

/// A redirect message (RFC 792).
pub const REDIRECT: u32 = 3;

/// An echo message (RFC 792).
pub const ECHO_REQUEST: u32 = 4;

/// A time exceeded message (RFC 792).
pub const TIME_EXCEEDED: u32 = 5;

/// A parameter problem message (RFC 792).
pub const PARAMETER_PROBLEM: u32 = 6;

/// A timestamp message (RFC 792).
pub const TIMESTAMP_REQUEST: u32 = 7;

/// A timestamp reply message (RFC 792).
pub const TIMESTAMP_REPLY: u32 = 8;
