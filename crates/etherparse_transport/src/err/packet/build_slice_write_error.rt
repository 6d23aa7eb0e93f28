ghost use Rattle.std.specs.Prelude.{◌≡◌};
ghost use Rattle.etherparse_transport.specs.ErrorTexts.{build_text};
ghost use Rattle.net_base.specs.TextParts.{reads_as};

use crate::err::TextPart::{Number, Words};
use crate::err::{ErrorText, LenError};
use thiserror::Error;

/// Why a packet was not written to a slice.
///
/// ```
/// use etherparse_transport::err::packet::BuildSliceWriteError;
/// use etherparse_transport::ip::write_packet_ipv4;
/// use etherparse_transport::{TransportHeader, UdpHeader};
///
/// let header = TransportHeader::Udp(UdpHeader::default());
/// let (source, destination) = ([192, 168, 1, 1], [192, 168, 1, 2]);
/// let written = write_packet_ipv4(&mut [0; 30], source, destination, 64, &header, b"abc");
/// assert_eq!(rt; written, Err(BuildSliceWriteError::Space { required_len: 31, len: 30 }));
/// ```
#[derive(Clone, Debug, PartialEq, Eq, Drop, Error)]
#[error("{}", self.text())]
pub enum BuildSliceWriteError {
    /// The slice is shorter than the packet.
    Space {
        /// The length of the packet, in bytes.
        required_len: usize,
        /// The length of the slice, in bytes.
        len: usize,
    },
    /// The payload is longer than the IP header can count (RFC 791, section 3.1; RFC 8200, section 3).
    PayloadLen {
        /// The length of the payload, in bytes.
        actual: usize,
        /// The longest payload that can follow the header, in bytes.
        max_allowed: usize,
    },
    /// An ICMPv4 timestamp message or reply with code 0 is not exactly 20 bytes long, payload included (RFC 792). `Icmpv4Slice::from_slice`
    /// refuses it with the same error.
    TimestampLen(LenError),
    /// The header is an ICMPv6 header, which is not sent over IPv4 (RFC 4443, section 1).
    Icmpv6InIpv4,
    /// The header is an ICMPv4 header, which is not sent over IPv6 (RFC 792).
    Icmpv4InIpv6,
}

impl BuildSliceWriteError {
    /// The text that `Display` writes.
    pub fn text(&self) -> ErrorText
        ensures { reads_as result ≡ build_text self.now }
    {
        match self {
            BuildSliceWriteError::Space { required_len, len } => ErrorText::from_parts(&[
                Words("Space Error: "),
                Number(*required_len),
                Words(" bytes are needed, and there is room for "),
                Number(*len),
                Words("."),
            ]),
            BuildSliceWriteError::PayloadLen {
                actual,
                max_allowed,
            } => ErrorText::from_parts(&[
                Words("Payload Error: a payload of "),
                Number(*actual),
                Words(" bytes is above "),
                Number(*max_allowed),
                Words("."),
            ]),
            BuildSliceWriteError::TimestampLen(error) => error.text(),
            BuildSliceWriteError::Icmpv6InIpv4 => {
                ErrorText::from_words("ICMPv6 Error: there is no packet over IPv4.")
            }
            BuildSliceWriteError::Icmpv4InIpv6 => {
                ErrorText::from_words("ICMPv4 Error: there is no packet over IPv6.")
            }
        }
    }
}
