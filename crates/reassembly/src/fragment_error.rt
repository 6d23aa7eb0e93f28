ghost use Rattle.std.specs.Prelude.{◌≡◌};
ghost use Rattle.net_base.specs.TextParts.{reads_as};
ghost use Rattle.reassembly.specs.ErrorTexts.{fragment_text};

use ip_part::IpError;
use net_base::err::ErrorText;
use net_base::err::TextPart::{Number, Words};
use thiserror::Error;

/// Why the contents of a fragment were not read.
#[derive(Clone, Copy, Debug, PartialEq, Eq, Error)]
#[error("{}", self.text())]
pub enum FragmentError {
    /// The headers of the packet can't be read, or the packet is cut off.
    Ip(IpError),
    /// The first fragment over IPv6 ends within the header of its transport (RFC 7112, section 5).
    HeaderChainCutOff {
        /// The length of the transport header, in bytes. For TCP it is 20 if the fragment contains fewer than 20 bytes of the header.
        required_len: usize,
        /// The number of bytes in the fragment from the start of the transport header on.
        len: usize,
    },
}

impl FragmentError {
    /// The text that `Display` writes.
    pub fn text(&self) -> ErrorText
        ensures { reads_as result ≡ fragment_text self.now }
    {
        match self {
            FragmentError::Ip(error) => error.text(),
            FragmentError::HeaderChainCutOff { required_len, len } => ErrorText::from_parts(&[
                Words("Fragment Error: the transport header has at least "),
                Number(*required_len),
                Words(" bytes, and the first fragment has "),
                Number(*len),
                Words("."),
            ]),
        }
    }
}
