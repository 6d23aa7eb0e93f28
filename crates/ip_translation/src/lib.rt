//! Translation between IPv4 and IPv6 (RFC 7915), with IPv4 addresses embedded in IPv6 addresses (RFC 6052).
//!
//! A `Prefix64` embeds IPv4 addresses in IPv6 addresses, and extracts them again. An `AddressMapping` translates the addresses of an IPv4
//! network to an IPv6 network and back (RFC 7757). `ipv4_to_ipv6` and `ipv6_to_ipv4` translate packets. No call allocates or has a precondition.
//!
//! ```
//! let prefix = Prefix64::Bits32([0x20, 0x01, 0x0d, 0xb8]);
//! let prefixes = Prefixes::new(prefix, Prefix64::WELL_KNOWN);
//! let len = ipv4_to_ipv6(packet, &prefixes, buffer)?;
//! ```
#![tactic(auto)]

mod address_change;
mod address_error;
mod address_mapping;
mod address_mapping_error;
mod address_table;
mod changed_message;
mod echo_translation;
mod error_to_ipv4;
mod error_to_ipv6;
mod extensions;
mod fragment_fields;
mod fragment_to_ipv6;
mod header_translation;
mod icmp_errors;
mod ipv4_header_translation;
#[doc(hidden)]
pub mod laws;
#[doc(hidden)]
pub mod mapping_laws;
mod message_translation;
mod packet_to_ipv4;
mod packet_translation;
mod packet_translation_error;
mod prefix64;
mod prefix64_error;
mod prefixes;
mod quoted_packet;
mod quoted_to_ipv4;
mod quoted_to_ipv6;
mod skipped_headers;
mod translation_error;
mod updated_message;

pub use address_error::AddressError;
pub use address_mapping::AddressMapping;
pub use address_mapping_error::AddressMappingError;
pub use address_table::AddressTable;
pub use header_translation::{header_to_ipv6, pseudo_header_change};
pub use icmp_errors::{
    icmpv4_error, icmpv4_mtu, icmpv4_pointer, icmpv6_error, icmpv6_mtu, icmpv6_pointer,
};
pub use ipv4_header_translation::{header_to_ipv4, pseudo_header_change_to_ipv4};
pub use packet_to_ipv4::ipv6_to_ipv4;
pub use packet_translation::ipv4_to_ipv6;
pub use packet_translation_error::PacketTranslationError;
pub use prefix64::Prefix64;
pub use prefix64_error::Prefix64Error;
pub use prefixes::Prefixes;
pub use translation_error::TranslationError;
