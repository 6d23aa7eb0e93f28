use crate::{NetworkProtocol, Transport};
use ip_part::{IpAddresses, Proto};
use net_base::IpNumber;

/// The part of a packet that can be read.
#[derive(Debug, PartialEq, Eq, Drop)]
pub enum Content<'a> {
    /// Nothing is read. The packet does not fit in the buffer, the link header is cut off, or the fixed part of the IP header is incomplete
    /// (20 bytes of version 4, or 40 bytes of version 6).
    Unread,
    /// The IP headers of a packet are refused or cut off. The fixed part of the IP header (20 bytes of version 4, or 40 bytes of version 6)
    /// is present, and contains these addresses.
    IpHeader(IpAddresses<'a>),
    /// The frame contains no IP packet.
    NotIp(NetworkProtocol),
    /// An IPv4 or IPv6 packet.
    Ip {
        /// The addresses that a checksum covers.
        addresses: IpAddresses<'a>,
        /// The protocol number of the payload.
        protocol: IpNumber,
        /// The protocol of the payload, if it is UDP, TCP, or ICMP of the IP version. It is also set for a fragment.
        proto: Option<Proto>,
        /// The transport, as far as it is read.
        transport: Transport<'a>,
        /// The length of the payload, in bytes. The payload begins after the transport header, or after the IP headers if no transport
        /// header is read. The IP header states where the payload ends. The length field of a UDP datagram can state an earlier end, if the
        /// field counts at least a header (RFC 768). If no length is stated, the payload ends with the frame. If the packet is cut off,
        /// fewer bytes are present.
        payload_len: usize,
    },
}
