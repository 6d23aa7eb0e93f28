//! The transport in an IP packet: which bytes the IP header counts, and what they contain (RFC 791, section 3.1; RFC
//! 8200, sections 3 and 4; RFC 4302; RFC 2675).
//!
//! `transport_in_ip` reads a packet of either version. It returns the addresses that a checksum covers, the protocol
//! number, and the payload without padding. It skips the options of IPv4, the extension headers of IPv6, and an
//! authentication header of either version. No call allocates or has a precondition.
//!
//! ```
//! let transport = transport_in_ip(packet)?;
//! if transport.protocol == ip_number::UDP && !transport.is_fragment {
//!     let (header, payload) = UdpHeader::from_slice(transport.payload)?;
//! }
//! ```
#![tactic(auto)]

mod address;
mod extension_headers;
mod fixed_part;
mod headers;
mod ip_addresses;
mod ip_error;
mod ip_header;
mod ipv4_options;
mod ipv6_options;
#[doc(hidden)]
pub mod laws;
mod proto;
mod transport;

pub use fixed_part::{FixedHeader, fixed_header};
pub use ip_addresses::IpAddresses;
pub use ip_error::IpError;
pub use ipv4_options::has_unexpired_source_route;
pub use net_base::{IpNumber, ip_number};
pub use proto::{Proto, proto_over};
pub use transport::{TransportInIp, transport_in_ip, transport_in_ip_lax};
