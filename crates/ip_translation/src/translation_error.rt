ghost use Rattle.std.specs.Prelude.{◌≡◌};
ghost use Rattle.ip_translation.specs.ErrorTexts.{translation_text};
ghost use Rattle.net_base.specs.TextParts.{reads_as};

use crate::AddressError;
use net_base::err::ErrorText;
use net_base::err::TextPart::{Number, Words};
use thiserror::Error;

/// Why a header was not translated between IPv4 and IPv6.
#[derive(Clone, Debug, PartialEq, Eq, Drop, Error)]
#[error("{}", self.text())]
pub enum TranslationError {
    /// The total length of an IPv4 packet is below the length of its header.
    TotalLength {
        /// The total length, in bytes.
        total_len: u16,
        /// The length of the header, in bytes.
        header_len: u16,
    },
    /// The checksum of the IPv4 header is wrong (RFC 1812, section 5.2.2).
    HeaderChecksum,
    /// The packet is a fragment.
    Fragment,
    /// The IPv4 options contain a loose or strict source route that is not at its end.
    SourceRoute,
    /// The next header of an IPv6 header is this extension header: hop-by-hop options, routing, fragment or destination options.
    ExtensionHeader(u8),
    /// The payload length of an IPv6 header is above 65,515, so the total length of IPv4 can't count the packet.
    PayloadLength(u16),
    /// The time to live or the hop limit is 0 or 1, so the translator must not forward the packet. It reports this to the sender (RFC 7915,
    /// section 4.1).
    TimeExceeded,
    /// The source is not the address of a host. The packet is dropped silently (RFC 7915, section 4.1; RFC 1812, section 5.3.7).
    IllegalSource,
    /// The destination is not the address of a host. Multicast is not translated.
    IllegalDestination,
    /// The source has no translation.
    Source(AddressError),
    /// The destination has no translation.
    Destination(AddressError),
}

impl TranslationError {
    /// The text that `Display` writes.
    pub fn text(&self) -> ErrorText
        ensures { reads_as result ≡ translation_text self.now }
    {
        match self {
            TranslationError::TotalLength {
                total_len,
                header_len,
            } => ErrorText::from_parts(&[
                Words("Translation Error: the total length "),
                Number(usize::from(*total_len)),
                Words(" is below the header length "),
                Number(usize::from(*header_len)),
                Words("."),
            ]),
            TranslationError::HeaderChecksum => ErrorText::from_words(
                "Translation Error: the checksum of the IPv4 header is wrong.",
            ),
            TranslationError::Fragment => ErrorText::from_words(
                "Translation Error: the packet is a fragment.",
            ),
            TranslationError::SourceRoute => ErrorText::from_words(
                "Translation Error: the IPv4 options contain a source route.",
            ),
            TranslationError::ExtensionHeader(number) => ErrorText::from_parts(&[
                Words("Translation Error: the IPv6 extension header "),
                Number(usize::from(*number)),
                Words(" is not translated."),
            ]),
            TranslationError::PayloadLength(payload_len) => ErrorText::from_parts(&[
                Words("Translation Error: the payload length "),
                Number(usize::from(*payload_len)),
                Words(" is above 65515."),
            ]),
            TranslationError::TimeExceeded => ErrorText::from_words(
                "Translation Error: the time to live is exceeded.",
            ),
            TranslationError::IllegalSource => ErrorText::from_words(
                "Translation Error: the source is no address of a host.",
            ),
            TranslationError::IllegalDestination => ErrorText::from_words(
                "Translation Error: the destination is no address of a host.",
            ),
            TranslationError::Source(error) => error.text(),
            TranslationError::Destination(error) => error.text(),
        }
    }
}
