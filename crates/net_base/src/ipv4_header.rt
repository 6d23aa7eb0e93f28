use crate::Ipv4HeaderSlice;

/// The two addresses of an IPv4 header (RFC 791, section 3.1).
///
/// ```
/// use etherparse_transport::{Ipv4Header, UdpHeader};
///
/// let (source, destination) = ([192, 168, 1, 1], [192, 168, 1, 2]);
/// let addresses = Ipv4Header { source, destination };
/// let header = UdpHeader::with_ipv4_checksum(21, 1234, &addresses, b"abc")?;
/// assert_eq!(rt; header.checksum, 0xB33A);
/// ```
#[derive(Clone, Debug, PartialEq, Eq, Drop)]
pub struct Ipv4Header {
    /// The address of the sender.
    pub source: [u8; 4],
    /// The address of the receiver. If a source route still lists an address to visit, this is not the final address, which a checksum
    /// covers (RFC 1122, section 3.2.1.8).
    pub destination: [u8; 4],
}

impl Ipv4Header {
    /// The length of a header without options, in bytes (RFC 791, section 3.1).
    pub const MIN_LEN: usize = 20;

    /// The place of the time to live, in bytes from the start of the header.
    pub const TIME_TO_LIVE_AT: usize = 8;

    /// The place of the protocol number, in bytes from the start of the header.
    pub const PROTOCOL_AT: usize = 9;

    /// The place of the header checksum, in bytes from the start of the header.
    pub const CHECKSUM_AT: usize = 10;

    /// The place of the sender's address, in bytes from the start of the header.
    pub const SOURCE_AT: usize = 12;

    /// The place of the receiver's address, in bytes from the start of the header.
    pub const DESTINATION_AT: usize = 16;
}

impl Default for Ipv4Header {
    ghost use Rattle.std.specs.Prelude.{◌≡◌, replicate};

    ghost is_default = { λ header. header ≡ record { source = replicate 4 0; destination = replicate 4 0 } };

    /// A header in which both addresses are 0.
    fn default() -> Ipv4Header {
        Ipv4Header {
            source: [0; 4],
            destination: [0; 4],
        }
    }
}

impl<'a> From<&Ipv4HeaderSlice<'a>> for Ipv4Header {
    ghost use Rattle.std.specs.Prelude.{◌≡◌};
    ghost use Rattle.net_base.specs.IpHeaders.{ipv4_header_of};

    ghost from_gives = { λ slice header. header ≡ ipv4_header_of slice.now };

    /// The two addresses of a header that was found in a packet.
    fn from(slice: &Ipv4HeaderSlice<'a>) -> Ipv4Header {
        Ipv4Header {
            source: slice.source(),
            destination: slice.destination(),
        }
    }
}
