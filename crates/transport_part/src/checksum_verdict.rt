/// Whether the checksum of a packet is right.
///
/// ```
/// use etherparse_transport::ChecksumVerdict;
/// use etherparse_transport::ip::{checksum_verdict, transport_in_ip};
///
/// let packet = [
///     0x45, 0, 0, 31, 0, 0, 0, 0, 64, 17, 0, 0, 192, 168, 1, 1, 192, 168, 1, 2, // IPv4
///     0x00, 0x15, 0x04, 0xD2, 0x00, 0x0B, 0x12, 0x34, b'a', b'b', b'c', // UDP
/// ];
/// let verdict = checksum_verdict(&transport_in_ip(&packet)?)?;
/// assert_eq!(rt; verdict, ChecksumVerdict::Wrong { expected: 0xB33A });
/// ```
#[derive(Clone, Copy, Debug, PartialEq, Eq)]
pub enum ChecksumVerdict {
    /// The stored checksum is right.
    Right,
    /// The packet contains no checksum. A UDP checksum of 0 over IPv4 means this (RFC 768).
    Absent,
    /// The stored checksum is wrong.
    Wrong {
        /// The right checksum.
        expected: u16,
    },
    /// The stored checksum is wrong, and is the sum of only the pseudo header. A host leaves the rest to its network card (checksum
    /// offload). So a packet that the host captures before sending contains this value.
    Partial {
        /// The right checksum.
        expected: u16,
    },
    /// The checksum is not tested.
    Untested(Untested),
}

/// Why a checksum is not tested.
///
/// ```
/// use etherparse_transport::ip::{checksum_verdict, transport_in_ip};
/// use etherparse_transport::{ChecksumVerdict, Untested};
///
/// // 0x20 is the flag "more fragments".
/// let packet = [0x45, 0, 0, 20, 0, 0, 0x20, 0, 64, 17, 0, 0, 192, 168, 1, 1, 192, 168, 1, 2];
/// let verdict = checksum_verdict(&transport_in_ip(&packet)?)?;
/// assert_eq!(rt; verdict, ChecksumVerdict::Untested(Untested::Fragment));
/// ```
#[derive(Clone, Copy, Debug, PartialEq, Eq)]
pub enum Untested {
    /// The packet is a fragment, and the checksum covers all fragments.
    Fragment,
    /// Some bytes of the packet are missing.
    CutOff,
    /// The final destination, which the checksum covers, is unknown: a routing header does not state it in a known way (RFC 8200, section
    /// 8.1).
    UnknownDestination,
    /// The protocol is not UDP, TCP, ICMPv4 over IPv4, or ICMPv6 over IPv6.
    OtherProtocol,
    /// The length field of a UDP packet is 0, although the field could count the packet. This is malformed, since the field counts at least
    /// 8 bytes (RFC 768). In a jumbogram, which is too long for the field, the field is 0 (RFC 2675, section 4), and the checksum is
    /// tested.
    ZeroLength,
    /// The packet has more bytes than a pseudo header can count: 65,535 over IPv4, and 4,294,967,295 over IPv6. An ICMPv4 message has no
    /// pseudo header, and is tested at any length. A payload from `transport_in_ip` is never too long, since IPv4 counts at most 65,535
    /// bytes, and a jumbo payload length at most 4,294,967,295 (RFC 2675, section 2). A payload from `transport_in_ip_lax` can be too long
    /// if its packet states no length. A slice that the caller made can be too long too.
    TooLong,
}
