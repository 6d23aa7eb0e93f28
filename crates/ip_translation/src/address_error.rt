ghost use Rattle.std.specs.Prelude.{◌≡◌};
ghost use Rattle.ip_translation.specs.ErrorTexts.{address_text};
ghost use Rattle.net_base.specs.TextParts.{reads_as};

use net_base::err::ErrorText;
use thiserror::Error;

/// Why an address has no translation.
#[derive(Clone, Debug, PartialEq, Eq, Hash, Drop, Error)]
#[error("{}", self.text())]
pub enum AddressError {
    /// The IPv6 address contains no IPv4 address: it has another prefix, or bits 64 to 71 are not 0 (RFC 6052, section 2.2).
    NotEmbedded,
    /// The IPv4 address is not global, and the prefix is the well-known prefix (RFC 6052, section 3.1).
    NotGlobal,
}

impl AddressError {
    /// The text that `Display` writes.
    pub fn text(&self) -> ErrorText
        ensures { reads_as result ≡ address_text self.now }
    {
        match self {
            AddressError::NotEmbedded => ErrorText::from_words(
                "Address Error: the IPv6 address contains no IPv4 address.",
            ),
            AddressError::NotGlobal => ErrorText::from_words(
                "Address Error: the well-known prefix allows only global IPv4 addresses.",
            ),
        }
    }
}
