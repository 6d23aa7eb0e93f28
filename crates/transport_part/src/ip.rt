//! The protocol of the transport that `transport_in_ip` found, its typed slice, and the verdict on its checksum.

mod proto;
mod slice;
mod verdict;

pub use proto::proto_in_ip;
pub use slice::transport_slice;
pub use verdict::checksum_verdict;
