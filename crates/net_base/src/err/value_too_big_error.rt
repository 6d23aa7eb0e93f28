ghost use Rattle.std.specs.Prelude.{◌≡◌};
ghost use Rattle.net_base.specs.ErrorTexts.{value_text};
ghost use Rattle.net_base.specs.TextParts.{reads_as};

use crate::err::TextPart::{Number, Words};
use crate::err::{ErrorText, ValueType};
use std::fmt::Display;
use thiserror::Error;

/// A value is above the greatest value that can be stored or sent.
///
/// ```
/// use etherparse_transport::UdpHeader;
/// use etherparse_transport::err::{ValueTooBigError, ValueType};
///
/// let value_type = ValueType::UdpPayloadLengthIpv4;
/// let error = ValueTooBigError { actual: 70_000, max_allowed: 65_527, value_type };
/// assert_eq!(rt; UdpHeader::without_ipv4_checksum(21, 1234, 70_000), Err(error));
/// ```
#[derive(Clone, Debug, PartialEq, Eq, Hash, Drop, Error)]
#[error("Value Error: {value_type} {actual} is above {max_allowed}.", value_type = .value_type.word())]
#[error_bound(T: Display)]
pub struct ValueTooBigError<T> {
    /// The value that was passed.
    pub actual: T,
    /// The greatest value that is allowed.
    pub max_allowed: T,
    /// The kind of the value that is too big.
    pub value_type: ValueType,
}

impl ValueTooBigError<usize> {
    /// The text that `Display` writes.
    pub fn text(&self) -> ErrorText
        ensures { reads_as result ≡ value_text self.now }
    {
        ErrorText::from_parts(&[
            Words("Value Error: "),
            Words(self.value_type.word()),
            Words(" "),
            Number(self.actual),
            Words(" is above "),
            Number(self.max_allowed),
            Words("."),
        ])
    }
}
