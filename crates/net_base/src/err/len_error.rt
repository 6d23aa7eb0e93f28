ghost use Rattle.std.specs.Prelude.{◌≡◌, ◌+◌, ◌<◌, ◌^◌};
ghost use Rattle.net_base.specs.ErrorTexts.{len_text};
ghost use Rattle.net_base.specs.TextParts.{reads_as};

use crate::err::TextPart::{Number, Words};
use crate::err::{ErrorText, Layer, LenSource};
use thiserror::Error;

/// A slice, or a length that a packet states, is too short or too long for a layer.
///
/// ```
/// use etherparse_transport::UdpHeader;
/// use etherparse_transport::err::{Layer, LenError, LenSource};
///
/// let (layer, len_source) = (Layer::UdpHeader, LenSource::Slice);
/// let error = LenError { required_len: 8, len: 7, len_source, layer, layer_start_offset: 0 };
/// assert_eq!(rt; UdpHeader::from_slice(&[0; 7]), Err(error));
/// ```
#[derive(Clone, Debug, PartialEq, Eq, Hash, Drop, Error)]
#[error("{}", self.text())]
pub struct LenError {
    /// The least length that would have been accepted, in bytes. If there were too many bytes, it is the greatest length that would have
    /// been accepted.
    pub required_len: usize,
    /// The actual length, in bytes.
    pub len: usize,
    /// The source of the length `len`: the slice, or a length field.
    pub len_source: LenSource,
    /// The layer that could not be read.
    pub layer: Layer,
    /// The start of the layer, in bytes from the start of the bytes that were read.
    pub layer_start_offset: usize,
}

impl LenError {
    /// The error with `offset` added to the start of its layer. A caller that reads a part of a packet adds the start
    /// of this part. The sum must fit `usize`.
    pub fn add_offset(self, offset: usize) -> LenError
        requires { self.layer_start_offset + offset < 2 ^ 64 }
        ensures { result ≡ record self { layer_start_offset = self.layer_start_offset + offset } }
    {
        LenError {
            layer_start_offset: self.layer_start_offset + offset,
            ..self
        }
    }

    /// The text that `Display` writes.
    pub fn text(&self) -> ErrorText
        ensures { reads_as result ≡ len_text self.now }
    {
        ErrorText::from_parts(&[
            Words("Length Error: layer "),
            Words(self.layer.word()),
            Words(" at offset "),
            Number(self.layer_start_offset),
            Words(" requires length "),
            Number(self.required_len),
            Words(", the length is "),
            Number(self.len),
            Words(" (from "),
            Words(self.len_source.word()),
            Words(")."),
        ])
    }
}
