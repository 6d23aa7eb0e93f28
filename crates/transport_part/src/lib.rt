//! The transport of an IP packet as a slice of its protocol, and the verdict on its checksum.
//!
//! `ip::transport_slice` reads the transport that `transport_in_ip` found as a `TransportSlice`, which is UDP, TCP, ICMPv4 or ICMPv6.
//! `ip::checksum_verdict` returns whether the checksum is right, and the right checksum if it is wrong. No call allocates or has a
//! precondition.
//!
//! ```
//! let found = transport_in_ip(packet)?;
//! if let Some(TransportSlice::Udp(packet)) = ip::transport_slice(&found)? { .. }
//! let verdict = ip::checksum_verdict(&found)?;
//! ```
#![tactic(auto)]

mod checksum_verdict;
mod expected;
pub mod ip;
#[doc(hidden)]
pub mod laws;
mod stored_checksum;
mod transport_slice;
mod verdict;

pub use checksum_verdict::{ChecksumVerdict, Untested};
pub use transport_slice::TransportSlice;
