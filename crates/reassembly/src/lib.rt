//! Fragments of IP packets (RFC 791, section 3.2; RFC 8200, section 4.5): the content of a fragment, and how packets are put together.
//!
//! `Fragment::of` reads a fragment: the key that all fragments of one packet share, the place of the fragment in the payload, and its
//! bytes. A `Reassembly` puts one packet together, in a buffer that the caller lends. Fragments may come in any order and repeatedly.
//! `place_for` chooses which of several reassemblies takes a fragment. No call allocates or has a precondition.
//!
//! ```
//! if let Some(fragment) = Fragment::of(packet)? {
//!     let mut reassembly = Reassembly::new(fragment.key, &mut buffer);
//!     let progress = reassembly.add(&fragment)?;
//!     let packet = reassembly.packet();
//! }
//! ```
#![tactic(auto)]

mod fragment;
mod fragment_error;
mod fragment_header;
mod fragment_key;
#[doc(hidden)]
pub mod laws;
mod part;
mod reassembly;
mod reassembly_error;
mod waiting;
mod whole_header;

pub use fragment::Fragment;
pub use fragment_error::FragmentError;
pub use fragment_header::ipv6_fragment_header;
pub use fragment_key::FragmentKey;
pub use reassembly::{MAX_FRAGMENTS, Progress, Reassembly};
pub use reassembly_error::ReassemblyError;
pub use waiting::{Place, REASSEMBLY_SECONDS, Waiting, place_for};
pub use whole_header::{
    MAX_IPV4_HEADER_LEN, MAX_IPV6_HEADER_LEN, whole_ipv4_header, whole_ipv6_header,
};
