ghost use Rattle.std.specs.Prelude.{◌≡◌};
ghost use Rattle.etherparse_transport.specs.ErrorTexts.{lower_hop_limit_text};
ghost use Rattle.net_base.specs.TextParts.{reads_as};

use crate::err::ErrorText;
use crate::err::TextPart::{Number, Words};
use crate::ip::IpError;
use thiserror::Error;

/// Why the hop limit of a packet was not lowered.
///
/// ```
/// use etherparse_transport::err::packet::LowerHopLimitError;
/// use etherparse_transport::ip::lower_hop_limit;
///
/// let mut packet = [0x45, 0, 0, 20, 0, 0, 0, 0, 1, 17, 0, 0, 192, 168, 1, 1, 192, 168, 1, 2];
/// let error = LowerHopLimitError::Expired { hop_limit: 1 };
/// assert_eq!(rt; lower_hop_limit(&mut packet), Err(error));
/// ```
#[derive(Clone, Copy, Debug, PartialEq, Eq, Error)]
#[error("{}", self.text())]
pub enum LowerHopLimitError {
    /// The IP header is cut off or invalid.
    Ip(IpError),
    /// The hop limit is 0 or 1, so a router discards the packet (RFC 1812, section 5.3.1; RFC 4443, section 3.3).
    Expired {
        /// The hop limit.
        hop_limit: u8,
    },
}

impl LowerHopLimitError {
    /// The text that `Display` writes.
    pub fn text(&self) -> ErrorText
        ensures { reads_as result ≡ lower_hop_limit_text self.now }
    {
        match self {
            LowerHopLimitError::Ip(error) => error.text(),
            LowerHopLimitError::Expired { hop_limit } => ErrorText::from_parts(&[
                Words("Hop Limit Error: the hop limit is "),
                Number(usize::from(*hop_limit)),
                Words("."),
            ]),
        }
    }
}
