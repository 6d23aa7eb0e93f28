//! Older names of the kinds in `tcp_option`.
use crate::tcp_option;

/// The kind of the end of the list of options: an older name of `tcp_option::KIND_END`.
pub const TCP_OPTION_ID_END: u8 = tcp_option::KIND_END;

/// The kind of no operation: an older name of `tcp_option::KIND_NOOP`.
pub const TCP_OPTION_ID_NOP: u8 = tcp_option::KIND_NOOP;

/// The kind of a maximum segment size: an older name of `tcp_option::KIND_MAXIMUM_SEGMENT_SIZE`.
pub const TCP_OPTION_ID_MAXIMUM_SEGMENT_SIZE: u8 = tcp_option::KIND_MAXIMUM_SEGMENT_SIZE;

/// The kind of a window scale: an older name of `tcp_option::KIND_WINDOW_SCALE`.
pub const TCP_OPTION_ID_WINDOW_SCALE: u8 = tcp_option::KIND_WINDOW_SCALE;

/// The kind that permits selective acknowledgements: an older name of `tcp_option::KIND_SELECTIVE_ACK_PERMITTED`.
pub const TCP_OPTION_ID_SELECTIVE_ACK_PERMITTED: u8 = tcp_option::KIND_SELECTIVE_ACK_PERMITTED;

/// The kind of a selective acknowledgement: an older name of `tcp_option::KIND_SELECTIVE_ACK`.
pub const TCP_OPTION_ID_SELECTIVE_ACK: u8 = tcp_option::KIND_SELECTIVE_ACK;

/// The kind of a timestamp: an older name of `tcp_option::KIND_TIMESTAMP`.
pub const TCP_OPTION_ID_TIMESTAMP: u8 = tcp_option::KIND_TIMESTAMP;
