ghost use Rattle.std.specs.Prelude.{◌≡◌};
ghost use Rattle.etherparse_transport.specs.ErrorTexts.{lower_maximum_segment_size_text};
ghost use Rattle.net_base.specs.TextParts.{reads_as};

use crate::err::ErrorText;
use crate::err::TextPart::{Number, Words};
use crate::err::tcp::HeaderSliceError;
use crate::ip::IpError;
use crate::{IpNumber, TcpRawOptionError};
use thiserror::Error;

/// Why the maximum segment size of a packet was not lowered.
///
/// ```
/// use etherparse_transport::IpNumber;
/// use etherparse_transport::err::packet::LowerMaximumSegmentSizeError;
/// use etherparse_transport::ip::lower_maximum_segment_size;
///
/// let mut packet = [0x45, 0, 0, 20, 0, 0, 0, 0, 64, 17, 0, 0, 192, 168, 1, 1, 192, 168, 1, 2];
/// let error = LowerMaximumSegmentSizeError::Protocol(IpNumber(17));
/// assert_eq!(rt; lower_maximum_segment_size(&mut packet, 1360), Err(error));
/// ```
#[derive(Clone, Debug, PartialEq, Eq, Drop, Error)]
#[error("{}", self.text())]
pub enum LowerMaximumSegmentSizeError {
    /// The packet is refused by `transport_in_ip_lax`.
    Ip(IpError),
    /// The protocol of the packet is not TCP.
    Protocol(IpNumber),
    /// The packet is a later fragment, so it contains no TCP header.
    LaterFragment,
    /// The TCP header is cut off or invalid.
    Header(HeaderSliceError),
    /// The segment is not a SYN. Only a SYN contains a maximum segment size (RFC 9293, section 3.2).
    NoSyn,
    /// An option before the maximum segment size, or its own option, can't be read.
    Options(TcpRawOptionError),
    /// The length of the option is not 4 (RFC 9293, section 3.2).
    OptionLength {
        /// The length byte of the option. It counts the kind and itself too.
        len: u8,
    },
    /// The list of options contains no maximum segment size.
    NoOption,
}

impl LowerMaximumSegmentSizeError {
    /// The text that `Display` writes.
    pub fn text(&self) -> ErrorText
        ensures { reads_as result ≡ lower_maximum_segment_size_text self.now }
    {
        match self {
            LowerMaximumSegmentSizeError::Ip(error) => error.text(),
            LowerMaximumSegmentSizeError::Protocol(protocol) => ErrorText::from_parts(&[
                Words("Maximum Segment Size Error: the protocol "),
                Number(usize::from(protocol.0)),
                Words(" is not TCP."),
            ]),
            LowerMaximumSegmentSizeError::LaterFragment => {
                ErrorText::from_words("Maximum Segment Size Error: the packet is a later fragment.")
            }
            LowerMaximumSegmentSizeError::Header(error) => error.text(),
            LowerMaximumSegmentSizeError::NoSyn => {
                ErrorText::from_words("Maximum Segment Size Error: the segment is not a SYN.")
            }
            LowerMaximumSegmentSizeError::Options(error) => error.text(),
            LowerMaximumSegmentSizeError::OptionLength { len } => ErrorText::from_parts(&[
                Words("Maximum Segment Size Error: the length of the option is "),
                Number(usize::from(*len)),
                Words("."),
            ]),
            LowerMaximumSegmentSizeError::NoOption => {
                ErrorText::from_words(
                    "Maximum Segment Size Error: the segment contains no maximum segment size.",
                )
            }
        }
    }
}
