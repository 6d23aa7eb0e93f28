//! ICMPv4 (RFC 792) and ICMPv6 (RFC 4443, RFC 4861): reading and writing headers, checksums, and slices of packets.
//!
//! `Icmpv4Header` and `Icmpv6Header` contain the kind of a message with its fields, and a checksum. `Icmpv4Slice` and `Icmpv6Slice` are the
//! bytes of whole packets. A slice returns bytes borrowed from its input. This crate re-exports the errors of `net_base`, and the sum of
//! `word_sum`. No call allocates.
//!
//! ```
//! let request = Icmpv4Slice::from_slice(&icmpv4_packet)?;
//! let valid = request.is_checksum_valid();
//! if let Icmpv4Type::EchoRequest(echo) = request.icmp_type() {
//!     let reply = Icmpv4Header::with_checksum(Icmpv4Type::EchoReply(echo), request.payload());
//! }
//! let valid_over_ipv6 = Icmpv6Slice::from_slice(&icmpv6_packet)?.is_checksum_valid(source, destination);
//! ```
#![tactic(auto)]

mod icmp_echo_header;
pub mod icmpv4;
mod icmpv4_header;
mod icmpv4_slice;
mod icmpv4_translation;
mod icmpv4_type;
pub mod icmpv6;
mod icmpv6_header;
mod icmpv6_slice;
mod icmpv6_translation;
mod icmpv6_type;
#[doc(hidden)]
pub mod laws;
mod message_start;
mod quoted_packet;

pub use icmp_echo_header::IcmpEchoHeader;
pub use icmpv4_header::Icmpv4Header;
pub use icmpv4_slice::Icmpv4Slice;
pub use icmpv4_type::Icmpv4Type;
pub use icmpv6_header::Icmpv6Header;
pub use icmpv6_slice::Icmpv6Slice;
pub use icmpv6_type::Icmpv6Type;
pub use net_base::{LenSource, err};
pub use word_sum::{checksum, checksum_change};
