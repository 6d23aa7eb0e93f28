ghost use Rattle.std.specs.Prelude.{◌≡◌};
ghost use Rattle.ip_translation.specs.ErrorTexts.{mapping_text};
ghost use Rattle.net_base.specs.TextParts.{reads_as};

use net_base::err::ErrorText;
use net_base::err::TextPart::{Number, Words};
use thiserror::Error;

/// Why two prefixes do not define an explicit address mapping (RFC 7757, section 3).
#[derive(Clone, Debug, PartialEq, Eq, Hash, Drop, Error)]
#[error("{}", self.text())]
pub enum AddressMappingError {
    /// The length of the IPv4 prefix is above 32 bits.
    Ipv4Len(u8),
    /// The length of the IPv6 prefix is above 128 bits.
    Ipv6Len(u8),
    /// Fewer bits follow the IPv6 prefix than the IPv4 prefix.
    Suffix,
    /// A bit after the IPv4 prefix is not 0.
    Ipv4Bits,
    /// A bit after the IPv6 prefix is not 0.
    Ipv6Bits,
}

impl AddressMappingError {
    /// The text that `Display` writes.
    pub fn text(&self) -> ErrorText
        ensures { reads_as result ≡ mapping_text self.now }
    {
        match self {
            AddressMappingError::Ipv4Len(len) => ErrorText::from_parts(&[
                Words("Mapping Error: the length of the IPv4 prefix is "),
                Number(usize::from(*len)),
                Words(" bits, and at most 32 are allowed."),
            ]),
            AddressMappingError::Ipv6Len(len) => ErrorText::from_parts(&[
                Words("Mapping Error: the length of the IPv6 prefix is "),
                Number(usize::from(*len)),
                Words(" bits, and at most 128 are allowed."),
            ]),
            AddressMappingError::Suffix => ErrorText::from_words(
                "Mapping Error: the IPv6 prefix leaves fewer bits than the IPv4 prefix.",
            ),
            AddressMappingError::Ipv4Bits => ErrorText::from_words(
                "Mapping Error: a bit after the IPv4 prefix is not 0.",
            ),
            AddressMappingError::Ipv6Bits => ErrorText::from_words(
                "Mapping Error: a bit after the IPv6 prefix is not 0.",
            ),
        }
    }
}
