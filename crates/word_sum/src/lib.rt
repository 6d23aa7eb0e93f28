//! The Internet checksum (RFC 1071), as UDP, TCP and ICMP use it.
//!
//! `Sum16BitWords` is a running one's complement sum of 16 bit big-endian words. Its value is the number `sum_value` in
//! `specs/`. Every contract depends only on this number, so two sums with the same value are interchangeable. The sum
//! adds eight bytes at a time. `checksum_change` updates a checksum from the replaced bytes (RFC 1624). No call
//! allocates or has a precondition.
//!
//! ```
//! let sum = Sum16BitWords::new().add_4bytes([192, 168, 1, 1]).add_slice(payload);
//! let checksum = sum.ones_complement();
//! ```
#![tactic(auto)]

pub mod checksum;
pub mod checksum_change;
#[doc(hidden)]
pub mod laws;
