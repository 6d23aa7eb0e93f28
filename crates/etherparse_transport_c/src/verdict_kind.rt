//! Numbers for the verdicts on the checksum of the transport in an IP packet, in the interface to C. The meaning of a number never changes.

/// The checksum is right.
pub const RIGHT: u32 = 1;

/// The packet has no checksum.
pub const ABSENT: u32 = 2;

/// The checksum is wrong.
pub const WRONG: u32 = 3;

/// The checksum contains only the sum of the pseudo header.
pub const PARTIAL: u32 = 4;

/// Not tested: the packet is a fragment.
pub const UNTESTED_FRAGMENT: u32 = 16;

/// Not tested: the packet is cut off.
pub const UNTESTED_CUT_OFF: u32 = 17;

/// Not tested: the final destination is not known.
pub const UNTESTED_UNKNOWN_DESTINATION: u32 = 18;

/// Not tested: the protocol is not UDP, TCP, or the ICMP of the IP version.
pub const UNTESTED_OTHER_PROTOCOL: u32 = 19;

/// Not tested: the length field of a UDP packet is 0, and the packet is not a jumbogram.
pub const UNTESTED_ZERO_LENGTH: u32 = 20;

/// Not tested: the transport is too long for the length field of the pseudo header.
pub const UNTESTED_TOO_LONG: u32 = 21;
