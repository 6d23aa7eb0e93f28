ghost use Rattle.std.specs.Prelude.{◌≡◌};
ghost use Rattle.net_base.specs.ErrorTexts.{header_text};
ghost use Rattle.net_base.specs.TextParts.{reads_as};

use crate::err::ErrorText;
use crate::err::TextPart::{Number, Words};
use thiserror::Error;

/// The error in the bytes of a TCP header (RFC 9293, section 3.1).
///
/// ```
/// use etherparse_transport::TcpHeader;
/// use etherparse_transport::err::tcp::{HeaderError, HeaderSliceError};
///
/// let mut bytes = [0; 20];
/// // The data offset is the upper half of this byte.
/// bytes[12] = 0x40;
/// let error = HeaderError::DataOffsetTooSmall { data_offset: 4 };
/// assert_eq!(rt; TcpHeader::from_slice(&bytes), Err(HeaderSliceError::Content(error)));
/// ```
#[derive(Clone, Debug, PartialEq, Eq, Hash, Drop, Error)]
#[error("{}", self.text())]
pub enum HeaderError {
    /// The data offset is below five words, the length of a header without options.
    DataOffsetTooSmall {
        /// The data offset that was read, in words of four bytes.
        data_offset: u8,
    },
}

impl HeaderError {
    /// The text that `Display` writes.
    pub fn text(&self) -> ErrorText
        ensures { reads_as result ≡ header_text self.now }
    {
        match self {
            HeaderError::DataOffsetTooSmall { data_offset } => ErrorText::from_parts(&[
                Words("TCP Header Error: 'data offset' too small ("),
                Number(usize::from(*data_offset)),
                Words(
                    "). The 'data offset' must be at least 5 so the data is not overlapping with the TCP header itself.",
                ),
            ]),
        }
    }
}
