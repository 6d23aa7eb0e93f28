//! The flags of a TCP header, in the interface to C. NS is bit 0x100. The other flags have the same bits as in byte 13 of the header. The
//! meaning of a bit never changes.

/// The sender sends no more data (RFC 9293, section 3.1).
pub const FIN: u16 = 0x001;

/// Synchronize sequence numbers (RFC 9293, section 3.1).
pub const SYN: u16 = 0x002;

/// Reset the connection (RFC 9293, section 3.1).
pub const RST: u16 = 0x004;

/// Push function (RFC 9293, section 3.1).
pub const PSH: u16 = 0x008;

/// The acknowledgment number is significant (RFC 9293, section 3.1).
pub const ACK: u16 = 0x010;

/// The urgent pointer is significant (RFC 9293, section 3.1).
pub const URG: u16 = 0x020;

/// ECN echo (RFC 3168, section 6.1).
pub const ECE: u16 = 0x040;

/// Congestion window reduced (RFC 3168, section 6.1).
pub const CWR: u16 = 0x080;

/// ECN nonce sum, bit 0 of byte 12 (RFC 3540, section 9).
pub const NS: u16 = 0x100;

/// All nine flags.
pub const ALL: u16 = 0x1ff;
