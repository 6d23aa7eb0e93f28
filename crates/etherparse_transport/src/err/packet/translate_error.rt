ghost use Rattle.std.specs.Prelude.{◌≡◌};
ghost use Rattle.etherparse_transport.specs.ErrorTexts.{translate_text};
ghost use Rattle.net_base.specs.TextParts.{reads_as};

use crate::IpNumber;
use crate::err::ErrorText;
use crate::err::TextPart::{Number, Words};
use crate::ip::IpError;
use thiserror::Error;

/// Why a packet was not translated.
///
/// ```
/// use etherparse_transport::IpNumber;
/// use etherparse_transport::err::packet::TranslateError;
/// use etherparse_transport::ip::{Ipv4Translation, translate_ipv4};
///
/// // Protocol 33 is DCCP, whose checksum covers the addresses.
/// let mut packet = [0x45, 0, 0, 20, 0, 0, 0, 0, 64, 33, 0, 0, 192, 168, 1, 2, 198, 51, 100, 7];
/// let error = TranslateError::Protocol(IpNumber(33));
/// assert_eq!(rt; translate_ipv4(&mut packet, &Ipv4Translation::default()), Err(error));
/// ```
#[derive(Clone, Debug, PartialEq, Eq, Drop, Error)]
#[error("{}", self.text())]
pub enum TranslateError {
    /// The transport in the packet was not found.
    Ip(IpError),
    /// The packet has the IP version that the call does not accept.
    OtherVersion,
    /// The IPv4 options contain a loose or strict source route, whose addresses would not be replaced.
    SourceRoute,
    /// The protocol is not UDP, TCP or ICMP of this IP version. In addition, a port is passed, the protocol covers the addresses, or it is
    /// ICMP of the other version. Over IPv6 it can also be an extension header that is not skipped. For example, an authentication header
    /// protects the addresses (RFC 4302, section 2), so no receiver would accept a translated packet.
    Protocol(IpNumber),
    /// The first 8 bytes of the transport header are not all present.
    HeaderCutOff {
        /// The number of bytes of the transport header that a translation needs, which is 8.
        required_len: usize,
        /// The number of bytes after the IP header, and over IPv6 after the extension headers that are skipped.
        len: usize,
    },
    /// The ICMP message is neither a query nor an error, or it is a redirect.
    IcmpMessage,
    /// The packet that the ICMP error quotes can't be translated.
    QuotedPacket,
}

impl TranslateError {
    /// The text that `Display` writes.
    pub fn text(&self) -> ErrorText
        ensures { reads_as result ≡ translate_text self.now }
    {
        match self {
            TranslateError::Ip(error) => error.text(),
            TranslateError::OtherVersion => ErrorText::from_words(
                "Translation Error: the packet has the other IP version.",
            ),
            TranslateError::SourceRoute => ErrorText::from_words(
                "Translation Error: the IPv4 options contain a source route.",
            ),
            TranslateError::Protocol(protocol) => ErrorText::from_parts(&[
                Words("Translation Error: the protocol "),
                Number(usize::from(protocol.0)),
                Words(" is not translated."),
            ]),
            TranslateError::HeaderCutOff { required_len, len } => ErrorText::from_parts(&[
                Words("Translation Error: the transport header has at least "),
                Number(*required_len),
                Words(" bytes, and the packet contains "),
                Number(*len),
                Words("."),
            ]),
            TranslateError::IcmpMessage => ErrorText::from_words(
                "Translation Error: the ICMP message is no query and no error, or a redirect.",
            ),
            TranslateError::QuotedPacket => ErrorText::from_words(
                "Translation Error: the packet that the ICMP error is about can't be translated.",
            ),
        }
    }
}
