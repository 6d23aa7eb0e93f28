//! The kinds of TCP options, as IANA registers them.

use etherparse_transport::tcp_option;

/// No operation (RFC 9293, section 3.2).
pub const NOOP: u32 = tcp_option::KIND_NOOP as u32;

/// The maximum segment size (RFC 9293, section 3.2).
pub const MAXIMUM_SEGMENT_SIZE: u32 = tcp_option::KIND_MAXIMUM_SEGMENT_SIZE as u32;

/// The window scale (RFC 7323, section 2.2).
pub const WINDOW_SCALE: u32 = tcp_option::KIND_WINDOW_SCALE as u32;

/// Selective acknowledgements are permitted (RFC 2018, section 2).
pub const SACK_PERMITTED: u32 = tcp_option::KIND_SELECTIVE_ACK_PERMITTED as u32;

/// A selective acknowledgement (RFC 2018, section 3).
pub const SACK: u32 = tcp_option::KIND_SELECTIVE_ACK as u32;

/// A timestamp and its echo reply (RFC 7323, section 3.2).
pub const TIMESTAMP: u32 = tcp_option::KIND_TIMESTAMP as u32;
