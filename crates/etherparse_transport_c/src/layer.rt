//! Numbers for the layers whose length can be wrong, in the interface to C. The meaning of a number never changes.

/// The header of a UDP packet.
pub const UDP_HEADER: u32 = 1;

/// The payload of a UDP packet.
pub const UDP_PAYLOAD: u32 = 2;

/// The header of a TCP packet.
pub const TCP_HEADER: u32 = 3;

/// An ICMPv4 message.
pub const ICMPV4: u32 = 4;

/// An ICMPv4 timestamp message.
pub const ICMPV4_TIMESTAMP: u32 = 5;

/// An ICMPv4 timestamp reply message.
pub const ICMPV4_TIMESTAMP_REPLY: u32 = 6;

/// An ICMPv6 message.
pub const ICMPV6: u32 = 7;
