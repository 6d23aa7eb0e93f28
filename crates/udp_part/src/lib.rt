//! UDP (RFC 768): reading and writing the header, its checksum over IPv4 and IPv6, and slices of packets.
//!
//! `UdpHeader` contains the numbers of a header, `UdpHeaderSlice` its eight bytes, and `UdpSlice` the bytes of a
//! packet, which the length field counts. A slice returns bytes borrowed from its input. This crate re-exports the
//! errors and the IP headers of `net_base`, and the sum of `word_sum`.
//!
//! Over IPv4, a checksum of 0 means that a received packet has no checksum. Over IPv6, 0 is wrong. A `UdpSlice` excludes bytes after the
//! packet, such as Ethernet padding, unless the length field is 0. `UdpHeader::from_slice` does not exclude them: it returns all bytes
//! after the header.
//!
//! ```
//! let packet = UdpSlice::from_slice(bytes)?;
//! let is_right = packet.is_checksum_valid_ipv4(addresses.source, addresses.destination);
//! ```
#![tactic(auto)]

#[doc(hidden)]
pub mod laws;
mod translation;
mod udp_header;
mod udp_header_slice;
mod udp_slice;

pub use net_base::{Ipv4Header, Ipv4HeaderSlice, Ipv6Header, Ipv6HeaderSlice, LenSource, err};
pub use udp_header::UdpHeader;
pub use udp_header_slice::UdpHeaderSlice;
pub use udp_slice::UdpSlice;
pub use word_sum::{checksum, checksum_change};
