//! TCP (RFC 9293): reading and writing the header with its options, its checksum over IPv4 and IPv6, and the options as elements.
//!
//! `TcpHeader` contains the numbers, flags and options of a header, `TcpHeaderSlice` its bytes, and `TcpSlice` the bytes of a whole
//! segment. `TcpOptions` contains the option bytes of a header, at most 40 and a multiple of 4. `TcpOptionsIterator` reads bytes as
//! elements, up to the end of the list or the first fault. An unknown kind is a fault. `TcpRawOptionsIterator` reads options of any kind,
//! known or unknown, as kinds and values. `TcpOptions::try_from_elements` returns options that are read as the passed elements. If
//! there are several, it returns the options whose bytes come first in lexicographic order. No call allocates. This crate re-exports the errors of
//! `net_base`, and the sum of `word_sum`.
//!
//! ```
//! let (header, payload) = TcpHeader::from_slice(&packet)?;
//! for element in header.options_iterator() { .. }
//! // The slice sums the bytes as they came.
//! let segment = TcpSlice::from_slice(&packet)?;
//! let is_right = segment.is_checksum_valid_ipv4(source, destination);
//! ```
#![tactic(auto)]

mod flag_bits;
mod header_checksum;
#[doc(hidden)]
pub mod laws;
mod tcp_header;
mod tcp_header_slice;
pub mod tcp_option;
mod tcp_option_element;
mod tcp_option_id;
mod tcp_options;
mod tcp_options_iterator;
mod tcp_raw_option;
mod tcp_raw_option_error;
mod tcp_raw_options_iterator;
mod tcp_slice;
mod translation;
mod words;

pub use net_base::{LenSource, TcpOptionReadError, TcpOptionWriteError, err};
pub use tcp_header::{
    TCP_MAXIMUM_DATA_OFFSET, TCP_MINIMUM_DATA_OFFSET, TCP_MINIMUM_HEADER_SIZE, TcpHeader,
};
pub use tcp_header_slice::TcpHeaderSlice;
pub use tcp_option_element::TcpOptionElement;
pub use tcp_option_id::{
    TCP_OPTION_ID_END, TCP_OPTION_ID_MAXIMUM_SEGMENT_SIZE, TCP_OPTION_ID_NOP,
    TCP_OPTION_ID_SELECTIVE_ACK, TCP_OPTION_ID_SELECTIVE_ACK_PERMITTED, TCP_OPTION_ID_TIMESTAMP,
    TCP_OPTION_ID_WINDOW_SCALE,
};
pub use tcp_options::TcpOptions;
pub use tcp_options_iterator::TcpOptionsIterator;
pub use tcp_raw_option::TcpRawOption;
pub use tcp_raw_option_error::TcpRawOptionError;
pub use tcp_raw_options_iterator::TcpRawOptionsIterator;
pub use tcp_slice::TcpSlice;
pub use word_sum::{checksum, checksum_change};
