use crate::Ipv6HeaderSlice;

/// The two addresses of an IPv6 header (RFC 8200, section 3).
///
/// ```
/// use etherparse_transport::{Ipv6Header, UdpHeader};
///
/// let source = [0x20, 0x01, 0x0D, 0xB8, 0, 0, 0, 0, 0, 0, 0, 0, 0, 0, 0, 1];
/// let destination = [0x20, 0x01, 0x0D, 0xB8, 0, 0, 0, 0, 0, 0, 0, 0, 0, 0, 0, 2];
/// let addresses = Ipv6Header { source, destination };
/// let header = UdpHeader::with_ipv6_checksum(21, 1234, &addresses, b"abc")?;
/// assert_eq!(rt; header.checksum, 0xDB19);
/// ```
#[derive(Clone, Debug, PartialEq, Eq, Drop)]
pub struct Ipv6Header {
    /// The address of the sender.
    pub source: [u8; 16],
    /// The address of the receiver. If there is a routing header, it may differ from the final address, which a checksum covers (RFC 8200,
    /// section 8.1).
    pub destination: [u8; 16],
}

impl Ipv6Header {
    /// The length of the header, in bytes (RFC 8200, section 3).
    pub const LEN: usize = 40;

    /// The place of the sender's address, in bytes from the start of the header.
    pub const SOURCE_AT: usize = 8;

    /// The place of the receiver's address, in bytes from the start of the header.
    pub const DESTINATION_AT: usize = 24;
}

impl Default for Ipv6Header {
    ghost use Rattle.std.specs.Prelude.{◌≡◌, replicate};

    ghost is_default = { λ header. header ≡ record { source = replicate 16 0; destination = replicate 16 0 } };

    /// A header in which both addresses are 0.
    fn default() -> Ipv6Header {
        Ipv6Header {
            source: [0; 16],
            destination: [0; 16],
        }
    }
}

impl<'a> From<&Ipv6HeaderSlice<'a>> for Ipv6Header {
    ghost use Rattle.std.specs.Prelude.{◌≡◌};
    ghost use Rattle.net_base.specs.IpHeaders.{ipv6_header_of};

    ghost from_gives = { λ slice header. header ≡ ipv6_header_of slice.now };

    /// The two addresses of a header that was found in a packet.
    fn from(slice: &Ipv6HeaderSlice<'a>) -> Ipv6Header {
        Ipv6Header {
            source: slice.source(),
            destination: slice.destination(),
        }
    }
}
