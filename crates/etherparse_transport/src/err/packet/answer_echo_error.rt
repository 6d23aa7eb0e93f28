ghost use Rattle.std.specs.Prelude.{◌≡◌};
ghost use Rattle.etherparse_transport.specs.ErrorTexts.{answer_echo_text};
ghost use Rattle.net_base.specs.TextParts.{reads_as};

use crate::err::{ErrorText, LenError};
use crate::ip::IpError;
use thiserror::Error;

/// Why a packet was not turned into the reply to its echo request.
///
/// ```
/// use etherparse_transport::err::packet::AnswerEchoError;
/// use etherparse_transport::ip::answer_echo;
///
/// let mut reply = [
///     0x45, 0, 0, 28, 0, 0, 0, 0, 64, 1, 0xF6, 0xDD, 192, 0, 2, 1, 192, 0, 2, 2,
///     0, 0, 0xFF, 0xFD, 0, 1, 0, 1,
/// ];
/// assert_eq!(rt; answer_echo(&mut reply, 64), Err(AnswerEchoError::NoEchoRequest));
/// ```
#[derive(Clone, Debug, PartialEq, Eq, Drop, Error)]
#[error("{}", self.text())]
pub enum AnswerEchoError {
    /// The transport in the packet was not found.
    Ip(IpError),
    /// The packet is a fragment. An echo request is answered only after its fragments are put together (RFC 1122, section 3.3.2).
    Fragment,
    /// The packet is no echo request, or has an IP version that the call does not accept. An echo request has the type
    /// 8 over IPv4 (RFC 792) and 128 over IPv6 (RFC 4443, section 4.1), and code 0.
    NoEchoRequest,
    /// The packet contains IPv4 options of another kind than 0 and 1, an authentication header, or IPv6 extension headers. A reply would
    /// also need options, for example a reversed source route (RFC 1122, section 3.2.2.6).
    Options,
    /// `Icmpv4Slice::from_slice` or `Icmpv6Slice::from_slice` refuses the message, for example because it is shorter than its header.
    Len(LenError),
    /// The checksum of the IPv4 header is wrong.
    HeaderChecksum,
    /// The checksum of the message is wrong.
    Checksum,
    /// The source of the request is the unspecified address, a loopback address, a multicast address, or the limited
    /// broadcast address. So no host would receive the reply.
    RequestSource,
    /// The source of the reply is an address that `RequestSource` lists. If the request was sent to a multicast or broadcast address, pass
    /// an address of the host as the source.
    ReplySource,
}

impl AnswerEchoError {
    /// The text that `Display` writes.
    pub fn text(&self) -> ErrorText
        ensures { reads_as result ≡ answer_echo_text self.now }
    {
        match self {
            AnswerEchoError::Ip(error) => error.text(),
            AnswerEchoError::Fragment => {
                ErrorText::from_words("Echo Error: the packet is a fragment.")
            }
            AnswerEchoError::NoEchoRequest => {
                ErrorText::from_words("Echo Error: the packet is no echo request.")
            }
            AnswerEchoError::Options => ErrorText::from_words(
                "Echo Error: the packet contains options or extension headers.",
            ),
            AnswerEchoError::Len(error) => error.text(),
            AnswerEchoError::HeaderChecksum => ErrorText::from_words(
                "Echo Error: the checksum of the IPv4 header is wrong.",
            ),
            AnswerEchoError::Checksum => ErrorText::from_words(
                "Echo Error: the checksum of the message is wrong.",
            ),
            AnswerEchoError::RequestSource => ErrorText::from_words(
                "Echo Error: the source of the request is not the address of a host.",
            ),
            AnswerEchoError::ReplySource => ErrorText::from_words(
                "Echo Error: the source of the reply is not the address of a host.",
            ),
        }
    }
}
