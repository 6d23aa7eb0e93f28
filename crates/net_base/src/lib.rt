//! What the transport protocols share: errors, and the headers of IP.
//!
//! Every error is a plain value with public fields. `Ipv4Header` and `Ipv6Header` contain only the source and the
//! destination (RFC 791, section 3.1; RFC 8200, section 3). A pseudo header also contains the protocol and a length,
//! which each transport protocol adds. `specs/` contains definitions that several protocols use: big-endian numbers,
//! flags, masked bytes, pseudo headers, and when a call returns an error.
//!
//! ```
//! let addresses = Ipv4HeaderSlice::from_slice(packet).map(|header| (header.source(), header.destination()));
//! ```
#![tactic(auto)]

pub mod err;
pub mod ip_number;
mod ipv4_header;
mod ipv4_header_slice;
mod ipv6_header;
mod ipv6_header_slice;
#[doc(hidden)]
pub mod laws;
mod pseudo_header;
mod refusals;
mod tcp_option_read_error;
mod tcp_option_write_error;

pub use err::LenSource;
pub use ip_number::IpNumber;
pub use ipv4_header::Ipv4Header;
pub use ipv4_header_slice::Ipv4HeaderSlice;
pub use ipv6_header::Ipv6Header;
pub use ipv6_header_slice::Ipv6HeaderSlice;
pub use pseudo_header::{pseudo_header_ipv4, pseudo_header_ipv6};
pub use refusals::{check_payload_len, wrong_length};
pub use tcp_option_read_error::TcpOptionReadError;
pub use tcp_option_write_error::TcpOptionWriteError;
