ghost use Rattle.std.specs.Prelude.{◌≡◌};
ghost use Rattle.tcp_part.specs.ErrorTexts.{raw_option_text};
ghost use Rattle.net_base.specs.TextParts.{reads_as};

use crate::err::ErrorText;
use crate::err::TextPart::{Number, Words};
use thiserror::Error;

/// Why an option of any kind can't be read: its length byte is missing, is below 2, or counts more bytes than are left
/// (RFC 9293, section 3.1).
///
/// ```
/// use etherparse_transport::{TcpRawOptionError, TcpRawOptionsIterator};
///
/// // A maximum segment size without its last byte.
/// let mut options = TcpRawOptionsIterator::from_slice(&[2, 4, 0x05]);
/// let error = TcpRawOptionError::LengthBeyondEnd { kind: 2, len: 4, available: 3 };
/// assert_eq!(rt; options.next(), Some(Err(error)));
/// ```
#[derive(Clone, Debug, PartialEq, Eq, Drop, Error)]
#[error("{}", self.text())]
pub enum TcpRawOptionError {
    /// The kind is the last byte, so the option has no length byte (RFC 9293, section 3.1).
    NoLengthByte {
        /// The kind of the option.
        kind: u8,
    },
    /// The length byte, which also counts the kind and itself, is 0 or 1 (RFC 9293, section 3.1).
    LengthBelowTwo {
        /// The kind of the option.
        kind: u8,
        /// The length byte.
        len: u8,
    },
    /// Fewer bytes are left than the length byte counts (RFC 9293, section 3.1).
    LengthBeyondEnd {
        /// The kind of the option.
        kind: u8,
        /// The length byte.
        len: u8,
        /// The number of bytes that are left, including the kind.
        available: usize,
    },
}

impl TcpRawOptionError {
    /// The text that `Display` writes.
    pub fn text(&self) -> ErrorText
        ensures { reads_as result ≡ raw_option_text self.now }
    {
        match self {
            TcpRawOptionError::NoLengthByte { kind } => ErrorText::from_parts(&[
                Words("TcpRawOptionError: The option of kind "),
                Number(usize::from(*kind)),
                Words(" has no length byte."),
            ]),
            TcpRawOptionError::LengthBelowTwo { kind, len } => ErrorText::from_parts(&[
                Words("TcpRawOptionError: The length of the option of kind "),
                Number(usize::from(*kind)),
                Words(" is "),
                Number(usize::from(*len)),
                Words(", which is below 2."),
            ]),
            TcpRawOptionError::LengthBeyondEnd {
                kind,
                len,
                available,
            } => ErrorText::from_parts(&[
                Words("TcpRawOptionError: The length of the option of kind "),
                Number(usize::from(*kind)),
                Words(" is "),
                Number(usize::from(*len)),
                Words(", and only "),
                Number(*available),
                Words(" bytes are left."),
            ]),
        }
    }
}
