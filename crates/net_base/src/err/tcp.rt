//! The errors of a TCP header (RFC 9293, section 3.1).

mod header_error;
mod header_slice_error;

pub use header_error::HeaderError;
pub use header_slice_error::HeaderSliceError;
