ghost use Rattle.std.specs.Prelude.{◌≡◌};
ghost use Rattle.net_base.specs.ErrorTexts.{options_text};
ghost use Rattle.net_base.specs.TextParts.{reads_as};

use crate::err::ErrorText;
use crate::err::TextPart::{Number, Words};
use thiserror::Error;

/// Why options can't be stored in a TCP header.
///
/// ```
/// use etherparse_transport::{TcpHeader, TcpOptionWriteError};
///
/// let mut header = TcpHeader::new(50_000, 80, 1, 65_535);
/// assert_eq!(rt; header.set_options_raw(&[1; 41]), Err(TcpOptionWriteError::NotEnoughSpace(41)));
/// ```
#[derive(Clone, Debug, PartialEq, Eq, Drop, Error)]
#[error("{}", self.text())]
pub enum TcpOptionWriteError {
    /// The options are too long. The number is their length, in bytes. If it is `usize::MAX`, the length may be greater. A header has room
    /// for 40 bytes of options, since its data offset is at most 15 (RFC 9293, section 3.1).
    NotEnoughSpace(usize),
}

impl TcpOptionWriteError {
    /// The text that `Display` writes.
    pub fn text(&self) -> ErrorText
        ensures { reads_as result ≡ options_text self.now }
    {
        match self {
            TcpOptionWriteError::NotEnoughSpace(len) => ErrorText::from_parts(&[
                Words(
                    "TcpOptionWriteError: Not enough memory to store all options in the options section of a tcp header ",
                ),
                Words("(maximum 40 bytes can be stored, the options would have needed "),
                Number(*len),
                Words(" bytes)."),
            ]),
        }
    }
}
