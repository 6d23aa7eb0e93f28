/// The source and the destination of an IP packet, as a transport checksum covers them. They are references to bytes of the packet.
///
/// ```
/// use etherparse_transport::ip::{IpAddresses, transport_in_ip};
///
/// let packet = [0x45, 0, 0, 20, 0, 0, 0, 0, 64, 17, 0, 0, 192, 168, 1, 1, 192, 168, 1, 2];
/// let (source, destination) = (&[192, 168, 1, 1], &[192, 168, 1, 2]);
/// let found = transport_in_ip(&packet)?;
/// assert_eq!(rt; found.addresses, IpAddresses::Ipv4 { source, destination });
/// ```
#[derive(Clone, Copy, Debug, PartialEq, Eq)]
pub enum IpAddresses<'a> {
    /// The addresses of an IPv4 packet (RFC 791, section 3.1).
    Ipv4 {
        /// The address of the sender.
        source: &'a [u8; 4],
        /// The address of the final receiver (RFC 1122, section 3.2.1.8). If a source route has an address left, this is the last address
        /// of the route. Otherwise it is the address in the header.
        destination: &'a [u8; 4],
    },
    /// The addresses of an IPv6 packet (RFC 8200, section 3).
    Ipv6 {
        /// The address of the sender. If destination options contain the home address of a mobile node, this is the home address (RFC 6275,
        /// section 9.3.1). Otherwise it is the address in the header.
        source: &'a [u8; 16],
        /// The address of the final receiver (RFC 8200, section 8.1). `None` if a routing header with segments left has an unknown type or
        /// contains no address.
        destination: Option<&'a [u8; 16]>,
    },
}
