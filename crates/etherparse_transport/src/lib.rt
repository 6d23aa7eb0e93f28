//! The transport layer of `etherparse`: UDP (RFC 768), TCP (RFC 9293), ICMPv4 (RFC 792), ICMPv6 (RFC 4443) and the Internet checksum (RFC
//! 1071), under the names of that crate.
//!
//! This crate re-exports all names of `etherparse` that the crates below define, so that a program depends only on this crate. In the
//! module `ip`, `transport_slice` reads the transport of an IP packet, and `checksum_verdict` checks its checksum. `canonical_header` reads
//! and writes a header of any of the four protocols in one call. `specs/Formats` describes which bytes are accepted for each protocol, how
//! they are read and written, and which bits are ignored.
//!
//! ```
//! let found = ip::transport_in_ip(&packet)?;
//! if let Some(TransportSlice::Udp(packet)) = ip::transport_slice(&found)? { .. }
//! let verdict = ip::checksum_verdict(&found)?;
//! let (header, rest) = canonical_header(Proto::Udp, found.payload)?;
//! ```
//!
//! The doc comment of each type contains an example: the body of a function that returns `Result<(), anyhow::Error>`. `rt` is the runtime
//! handle that a test receives. `assert!` and `assert_eq!` require it.
#![tactic(auto)]

mod canonical;
pub mod err;
pub mod ip;
#[doc(hidden)]
pub mod laws;
mod transport_header;

pub use canonical::canonical_header;
pub use icmp_part::{
    IcmpEchoHeader, Icmpv4Header, Icmpv4Slice, Icmpv4Type, Icmpv6Header, Icmpv6Slice, Icmpv6Type,
    icmpv4, icmpv6,
};
pub use ip_part::Proto;
pub use net_base::{
    IpNumber, Ipv4Header, Ipv4HeaderSlice, Ipv6Header, Ipv6HeaderSlice, LenSource,
    TcpOptionReadError, TcpOptionWriteError, ip_number,
};
pub use tcp_part::{
    TCP_MAXIMUM_DATA_OFFSET, TCP_MINIMUM_DATA_OFFSET, TCP_MINIMUM_HEADER_SIZE, TCP_OPTION_ID_END,
    TCP_OPTION_ID_MAXIMUM_SEGMENT_SIZE, TCP_OPTION_ID_NOP, TCP_OPTION_ID_SELECTIVE_ACK,
    TCP_OPTION_ID_SELECTIVE_ACK_PERMITTED, TCP_OPTION_ID_TIMESTAMP, TCP_OPTION_ID_WINDOW_SCALE,
    TcpHeader, TcpHeaderSlice, TcpOptionElement, TcpOptions, TcpOptionsIterator, TcpRawOption,
    TcpRawOptionError, TcpRawOptionsIterator, TcpSlice, tcp_option,
};
pub use transport_header::TransportHeader;
pub use transport_part::{ChecksumVerdict, TransportSlice, Untested};
pub use udp_part::{UdpHeader, UdpHeaderSlice, UdpSlice};
pub use word_sum::{checksum, checksum_change};
