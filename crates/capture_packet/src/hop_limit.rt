/// The number of further hops that a packet may take, read from the fixed part of its IP header.
#[derive(Clone, Copy, Debug, PartialEq, Eq)]
pub enum HopLimit {
    /// The time to live of an IPv4 packet: byte 8 of the header (RFC 791, section 3.1).
    Ipv4(u8),
    /// The hop limit of an IPv6 packet: byte 7 of the header (RFC 8200, section 3).
    Ipv6(u8),
}
