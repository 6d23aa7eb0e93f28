use crate::{FixedHeader, IpAddresses};
use net_base::IpNumber;

/// The contents of the headers that were read so far in an IP packet.
#[derive(Clone, Copy)]
pub(crate) struct Headers<'a> {
    /// The fixed part of the IP header.
    pub fixed_header: FixedHeader<'a>,
    /// The addresses, as the headers read so far state them.
    pub addresses: IpAddresses<'a>,
    /// The number of the next header, or of the protocol if no extension header follows.
    pub protocol: IpNumber,
    /// The length of the headers read so far, in bytes.
    pub len: usize,
    /// Whether the bytes after the headers are only a part of a packet.
    pub is_fragment: bool,
    /// Whether the bytes after the headers are a later part of a packet, so that the fragment offset is above 0.
    pub is_later_fragment: bool,
    /// Whether an extension header may come next. Over IPv6 this can be any extension header, except in a later fragment. Over IPv4 only an
    /// authentication header may come, directly after the IPv4 header.
    pub may_be_extended: bool,
    /// The payload length of an IPv6 header (RFC 8200, section 3), or 0 over IPv4.
    pub payload_len: usize,
    /// Whether hop-by-hop options directly after the IPv6 header contain the length (RFC 2675, section 2).
    pub is_jumbogram: bool,
}
