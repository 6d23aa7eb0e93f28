ghost use Rattle.std.specs.Prelude.{◌≡◌};
ghost use Rattle.etherparse_transport.specs.ErrorTexts.{transport_checksum_text};
ghost use Rattle.net_base.specs.TextParts.{reads_as};

use crate::err::{ErrorText, ValueTooBigError};
use thiserror::Error;

/// Why the checksum of a transport header over IPv4 was not calculated.
///
/// ```
/// use etherparse_transport::err::packet::TransportChecksumError;
/// use etherparse_transport::{Ipv4Header, Proto, TransportHeader};
///
/// let (mut header, _) = TransportHeader::from_slice(Proto::Icmpv6, &[128, 0, 0, 0, 0, 1, 0, 2])?;
/// let updated = header.update_checksum_ipv4(&Ipv4Header::default(), b"ping");
/// assert_eq!(rt; updated, Err(TransportChecksumError::Icmpv6InIpv4));
/// ```
#[derive(Clone, Debug, PartialEq, Eq, Drop, Error)]
#[error("{}", self.text())]
pub enum TransportChecksumError {
    /// Header and payload of UDP or TCP are longer than 65,535 bytes.
    PayloadLen(ValueTooBigError<usize>),
    /// The header is an ICMPv6 header, whose checksum covers IPv6 addresses (RFC 4443, section 2.3).
    Icmpv6InIpv4,
}

impl TransportChecksumError {
    /// The text that `Display` writes.
    pub fn text(&self) -> ErrorText
        ensures { reads_as result ≡ transport_checksum_text self.now }
    {
        match self {
            TransportChecksumError::PayloadLen(error) => error.text(),
            TransportChecksumError::Icmpv6InIpv4 => ErrorText::from_words(
                "ICMPv6 Error: a checksum over IPv4 does not exist.",
            ),
        }
    }
}
