ghost use Rattle.std.specs.Prelude.{◌≡◌};
ghost use Rattle.ip_translation.specs.ErrorTexts.{prefix_text};
ghost use Rattle.net_base.specs.TextParts.{reads_as};

use net_base::err::ErrorText;
use net_base::err::TextPart::{Number, Words};
use thiserror::Error;

/// Why an address and a length do not define a prefix (RFC 6052, section 2.2).
#[derive(Clone, Debug, PartialEq, Eq, Hash, Drop, Error)]
#[error("{}", self.text())]
pub enum Prefix64Error {
    /// The length in bits is not 32, 40, 48, 56, 64 or 96.
    Len(u8),
    /// Bits 64 to 71 of the address, which are reserved, are not all 0.
    ReservedOctet,
    /// A bit after the prefix is not 0.
    SuffixBits,
}

impl Prefix64Error {
    /// The text that `Display` writes.
    pub fn text(&self) -> ErrorText
        ensures { reads_as result ≡ prefix_text self.now }
    {
        match self {
            Prefix64Error::Len(len) => ErrorText::from_parts(&[
                Words("Prefix Error: the length is "),
                Number(usize::from(*len)),
                Words(" bits, and only 32, 40, 48, 56, 64 and 96 are allowed."),
            ]),
            Prefix64Error::ReservedOctet => ErrorText::from_words(
                "Prefix Error: bits 64 to 71 are not 0.",
            ),
            Prefix64Error::SuffixBits => ErrorText::from_words(
                "Prefix Error: a bit after the prefix is not 0.",
            ),
        }
    }
}
