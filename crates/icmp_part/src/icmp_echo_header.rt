/// The fields of an echo message or echo reply message (RFC 792, "Echo or Echo Reply Message"; RFC 4443, sections 4.1 and 4.2).
///
/// ```
/// use etherparse_transport::{IcmpEchoHeader, Icmpv4Header, Icmpv4Type};
///
/// let echo = IcmpEchoHeader { id: 7, seq: 1 };
/// assert_eq!(rt; echo.to_bytes(), [0, 7, 0, 1]);
/// assert_eq!(rt; IcmpEchoHeader::from_bytes([0, 7, 0, 1]), echo);
/// let header = Icmpv4Header::with_checksum(Icmpv4Type::EchoRequest(echo), b"ping");
/// assert_eq!(rt; header.to_bytes().as_slice(), [8, 0, 0x19, 0x27, 0, 7, 0, 1].as_slice());
/// ```
#[derive(Clone, Copy, Debug, PartialEq, Eq, PartialOrd, Ord, Hash)]
pub struct IcmpEchoHeader {
    /// An identifier that helps to match replies to requests (bytes 4 and 5 of the header). It may be zero.
    pub id: u16,
    /// A sequence number that helps to match replies to requests (bytes 6 and 7 of the header). It may be zero.
    pub seq: u16,
}

impl IcmpEchoHeader {
    ghost use Rattle.std.specs.Prelude.{◌≡◌};
    ghost use Rattle.icmp_part.specs.IcmpEcho.{EchoFits, echo_fields, echo_of};

    /// The length of both fields together, in bytes.
    pub const LEN: usize = 4;

    /// The place of the identifier, in bytes from the start of the ICMP header.
    pub const ID_AT: usize = 4;

    /// The bytes of both fields, which are bytes 4 to 7 of the header (RFC 792; RFC 4443, sections 4.1 and 4.2).
    pub fn to_bytes(&self) -> [u8; 4]
        ensures written { result ≡ echo_fields self.now }
        ensures read_back { echo_of result 0 ≡ self.now }
        ensures fits { EchoFits self.now }
    {
        let id = self.id.to_be_bytes();
        let seq = self.seq.to_be_bytes();
        [id[0], id[1], seq[0], seq[1]]
    }

    /// Reads both fields from bytes 4 to 7 of the header (RFC 792; RFC 4443, sections 4.1 and 4.2).
    pub fn from_bytes(bytes5to8: [u8; 4]) -> IcmpEchoHeader
        ensures read { result ≡ echo_of bytes5to8 0 }
        ensures written_back { echo_fields result ≡ bytes5to8 }
    {
        IcmpEchoHeader {
            id: u16::from_be_bytes([bytes5to8[0], bytes5to8[1]]),
            seq: u16::from_be_bytes([bytes5to8[2], bytes5to8[3]]),
        }
    }
}
