ghost use Rattle.std.specs.Prelude.{◌≡◌};
ghost use Rattle.etherparse_transport.specs.ErrorTexts.{error_about_text};
ghost use Rattle.net_base.specs.TextParts.{reads_as};

use crate::err::ErrorText;
use crate::err::TextPart::{Number, Words};
use crate::ip::IpError;
use thiserror::Error;

/// Why no ICMP error about a packet was written.
///
/// ```
/// use etherparse_transport::Icmpv4Type;
/// use etherparse_transport::err::packet::ErrorAboutError;
/// use etherparse_transport::icmpv4::TimeExceededCode;
/// use etherparse_transport::ip::icmpv4_error_about;
///
/// // 224.0.0.1 is a multicast address.
/// let packet = [0x45, 0, 0, 20, 0, 0, 0, 0, 1, 17, 0, 0, 192, 168, 1, 1, 224, 0, 0, 1];
/// let icmp_type = Icmpv4Type::TimeExceeded(TimeExceededCode::TtlExceededInTransit);
/// let written = icmpv4_error_about(&mut [0; 576], &packet, icmp_type, [192, 168, 1, 254], 64);
/// assert_eq!(rt; written, Err(ErrorAboutError::GroupDestination));
/// ```
#[derive(Clone, Copy, Debug, PartialEq, Eq, Error)]
#[error("{}", self.text())]
pub enum ErrorAboutError {
    /// The passed message is not an error, is `Unknown`, or is a redirect whose gateway is not the address of one host.
    NoErrorType,
    /// The headers of the packet are refused.
    Ip(IpError),
    /// The packet has the IP version that the call does not accept.
    OtherVersion,
    /// The packet is a later fragment: its fragment offset is above 0.
    LaterFragment,
    /// The packet contains an ICMP error, an ICMPv6 redirect, or an ICMP message whose type is cut off.
    IcmpError,
    /// The destination of the packet is an address of several hosts: a multicast address, or 255.255.255.255.
    GroupDestination,
    /// The source of the packet is not the address of one host. It is the unspecified address, a loopback address, or an address of several
    /// hosts.
    PacketSource,
    /// The passed source of the error is not the address of one host.
    ErrorSource,
    /// The slice is shorter than the error.
    Space {
        /// The length of the error with its IP header, in bytes.
        required_len: usize,
        /// The length of the slice, in bytes.
        len: usize,
    },
}

impl ErrorAboutError {
    /// The text that `Display` writes.
    pub fn text(&self) -> ErrorText
        ensures { reads_as result ≡ error_about_text self.now }
    {
        match self {
            ErrorAboutError::NoErrorType => ErrorText::from_words(
                "ICMP Error: the message is no error.",
            ),
            ErrorAboutError::Ip(error) => error.text(),
            ErrorAboutError::OtherVersion => ErrorText::from_words(
                "ICMP Error: the packet has the other IP version.",
            ),
            ErrorAboutError::LaterFragment => ErrorText::from_words(
                "ICMP Error: the packet is a later fragment.",
            ),
            ErrorAboutError::IcmpError => ErrorText::from_words(
                "ICMP Error: the packet may be an ICMP error.",
            ),
            ErrorAboutError::GroupDestination => ErrorText::from_words(
                "ICMP Error: the destination of the packet is an address of several hosts.",
            ),
            ErrorAboutError::PacketSource => ErrorText::from_words(
                "ICMP Error: the source of the packet is not the address of a host.",
            ),
            ErrorAboutError::ErrorSource => ErrorText::from_words(
                "ICMP Error: the source of the error is not the address of a host.",
            ),
            ErrorAboutError::Space { required_len, len } => ErrorText::from_parts(&[
                Words("Space Error: "),
                Number(*required_len),
                Words(" bytes are needed, and there is room for "),
                Number(*len),
                Words("."),
            ]),
        }
    }
}
