//! Numbers for the sources that can state a length, in the interface to C. The meaning of a number never changes.

/// The number of bytes that the caller passed.
pub const SLICE: u32 = 1;

/// The length field of a UDP header.
pub const UDP_HEADER_LEN: u32 = 2;
