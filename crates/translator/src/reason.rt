ghost use Rattle.std.specs.Prelude.{◌≡◌, ◌<◌};
ghost use Rattle.translator.specs.Outcomes.{is_extension_header, place, protocol_words, reason_text};
ghost use Rattle.translator.specs.Reasons.{of_error};

use etherparse_transport::err::packet::TranslateError;
use etherparse_transport::ip::IpError;
use etherparse_transport::{IpNumber, ip_number};

/// Why a packet is written as it was read, although replacements may apply to it.
#[derive(Clone, Copy, Debug, PartialEq, Eq)]
pub enum Reason {
    /// The packet does not fit in the buffer.
    TooLong,
    /// The link type of the capture, or of the packet's interface in a pcapng file, is not read.
    LinkType,
    /// The frame ends within its link header.
    LinkHeader,
    /// The frame contains no IP packet.
    NotIp,
    /// The IP headers are refused or cut off, with the error of the library.
    IpHeaders(IpError),
    /// The packet has another IP version than the replacements.
    OtherVersion,
    /// The IPv4 options contain a source route.
    SourceRoute,
    /// This protocol is not translated. Over IPv6 it can also be an extension header.
    Protocol(IpNumber),
    /// The transport header is cut off.
    TransportHeader,
    /// The ICMP message is neither a query nor an error, or it is a redirect.
    IcmpMessage,
    /// The packet that an ICMP error quotes can't be translated.
    QuotedPacket,
    /// The table gives different new addresses for an ICMP error and for the packet that it quotes.
    QuotedAddresses,
}

impl Reason {
    /// The number of kinds of reasons.
    pub const COUNT: usize = 12;

    /// The place of refused IP headers in the counts by reason.
    pub const REFUSED: usize = 4;

    /// The reasons without an error or a protocol, in the order of their lines.
    pub const PLAIN: [Reason; 10] = [
        Reason::TooLong,
        Reason::LinkType,
        Reason::LinkHeader,
        Reason::NotIp,
        Reason::OtherVersion,
        Reason::SourceRoute,
        Reason::TransportHeader,
        Reason::IcmpMessage,
        Reason::QuotedPacket,
        Reason::QuotedAddresses,
    ];

    /// The reason that corresponds to an error of the translation.
    pub fn of(error: &TranslateError) -> Reason
        ensures { result ≡ of_error error.now }
    {
        match error {
            TranslateError::Ip(error) => Reason::IpHeaders(*error),
            TranslateError::OtherVersion => Reason::OtherVersion,
            TranslateError::SourceRoute => Reason::SourceRoute,
            TranslateError::Protocol(protocol) => Reason::Protocol(*protocol),
            TranslateError::HeaderCutOff { .. } => Reason::TransportHeader,
            TranslateError::IcmpMessage => Reason::IcmpMessage,
            TranslateError::QuotedPacket => Reason::QuotedPacket,
        }
    }

    /// The place of the kind of this reason in the counts by reason, from 0.
    pub fn place(self) -> usize
        ensures place { result ≡ place self }
        ensures below { result < 12 }
    {
        match self {
            Reason::TooLong => 0,
            Reason::LinkType => 1,
            Reason::LinkHeader => 2,
            Reason::NotIp => 3,
            Reason::IpHeaders(_) => Reason::REFUSED,
            Reason::OtherVersion => 5,
            Reason::SourceRoute => 6,
            Reason::Protocol(_) => 7,
            Reason::TransportHeader => 8,
            Reason::IcmpMessage => 9,
            Reason::QuotedPacket => 10,
            Reason::QuotedAddresses => 11,
        }
    }

    /// The words for the reason in the counts. The line also contains the error of refused headers, or the number of the protocol.
    pub fn text(self) -> &'static str
        ensures { result.now ≡ reason_text self }
    {
        match self {
            Reason::TooLong => "the packet is too long",
            Reason::LinkType => "the link type is not read",
            Reason::LinkHeader => "the link header is cut off",
            Reason::NotIp => "no IP packet",
            Reason::IpHeaders(_) => "the IP headers are refused or cut off",
            Reason::OtherVersion => "another IP version",
            Reason::SourceRoute => "a source route",
            Reason::Protocol(protocol) => protocol_words(protocol),
            Reason::TransportHeader => "the transport header is cut off",
            Reason::IcmpMessage => "an ICMP message that is no query and no error, or a redirect",
            Reason::QuotedPacket => "an ICMP error about a packet that can't be translated",
            Reason::QuotedAddresses =>
                "an ICMP error about a packet whose addresses have other replacements",
        }
    }
}

/// The words before the number of a protocol. The numbers of AH and HIP also occur in IPv4 headers, so they are protocols here.
fn protocol_words(protocol: IpNumber) -> &'static str
    ensures { result.now ≡ protocol_words protocol.0 }
{
    if is_extension_header(protocol) {
        "the IPv6 extension header"
    } else {
        "the protocol"
    }
}

/// Whether this is the number of an extension header that exists only over IPv6 (RFC 8200, section 4; RFC 6275; RFC 5533).
fn is_extension_header(protocol: IpNumber) -> bool
    ensures { result ≡ is_extension_header protocol.0 }
{
    protocol == ip_number::IPV6_HEADER_HOP_BY_HOP
        || protocol == ip_number::IPV6_ROUTE_HEADER
        || protocol == ip_number::IPV6_FRAGMENTATION_HEADER
        || protocol == ip_number::IPV6_DESTINATION_OPTIONS
        || protocol == ip_number::MOBILITY_HEADER
        || protocol == ip_number::SHIM6
}
