ghost use Rattle.std.specs.Prelude.{◌≡◌};
ghost use Rattle.net_base.specs.ErrorTexts.{option_text};
ghost use Rattle.net_base.specs.TextParts.{reads_as};

use crate::err::ErrorText;
use crate::err::TextPart::{Number, Words};
use thiserror::Error;

/// Why the option at the front of some bytes can't be read.
///
/// ```
/// use etherparse_transport::{TcpOptionReadError, TcpOptionsIterator};
///
/// // The option for the maximum segment size has the length 4, not 3.
/// let mut options = TcpOptionsIterator::from_slice(&[2, 3, 0x05, 0xB4]);
/// let error = TcpOptionReadError::UnexpectedSize { option_id: 2, size: 3 };
/// assert_eq!(rt; options.next(), Some(Err(error)));
/// ```
#[derive(Clone, Debug, PartialEq, Eq, Drop, Error)]
#[error("{}", self.text())]
pub enum TcpOptionReadError {
    /// Fewer bytes are left than the option needs (RFC 9293, section 3.1).
    UnexpectedEndOfSlice {
        /// The kind of the option.
        option_id: u8,
        /// The number of bytes that the option needs, including kind and length byte. It is the fixed length of the kind. For a selective
        /// acknowledgement it is the value of the length byte, or 2 if the length byte is missing.
        expected_len: u8,
        /// The number of bytes that are left, including the kind.
        actual_len: usize,
    },
    /// An option of this kind cannot have this length byte (RFC 9293, section 3.1).
    UnexpectedSize {
        /// The kind of the option.
        option_id: u8,
        /// The length byte.
        size: u8,
    },
    /// The kind is unknown. `TcpRawOption::element` also returns this error for kind 0, which ends the list. The options after an unknown
    /// kind are not read. A host, however, must skip an unknown option by its length byte (RFC 1122, section 4.2.2.5).
    UnknownId(u8),
}

impl TcpOptionReadError {
    /// The text that `Display` writes.
    pub fn text(&self) -> ErrorText
        ensures { reads_as result ≡ option_text self.now }
    {
        match self {
            TcpOptionReadError::UnexpectedEndOfSlice {
                option_id,
                expected_len,
                actual_len,
            } => ErrorText::from_parts(&[
                Words(
                    "TcpOptionReadError: Not enough memory left in slice to read option of kind ",
                ),
                Number(usize::from(*option_id)),
                Words(" (expected at least "),
                Number(usize::from(*expected_len)),
                Words(" bytes, only "),
                Number(*actual_len),
                Words(" bytes available)."),
            ]),
            TcpOptionReadError::UnexpectedSize { option_id, size } => ErrorText::from_parts(&[
                Words("TcpOptionReadError: Length value of the option of kind "),
                Number(usize::from(*option_id)),
                Words(" had unexpected value "),
                Number(usize::from(*size)),
                Words("."),
            ]),
            TcpOptionReadError::UnknownId(option_id) => ErrorText::from_parts(&[
                Words("TcpOptionReadError: Unknown tcp option kind value "),
                Number(usize::from(*option_id)),
                Words("."),
            ]),
        }
    }
}
