ghost use Rattle.std.specs.Prelude.{◌≡◌};
ghost use Rattle.net_base.specs.ErrorTexts.{header_slice_text};
ghost use Rattle.net_base.specs.TextParts.{reads_as};
ghost use Rattle.net_base.specs.TcpErrors.{OffsetFits, with_slice_offset};

use crate::err::tcp::HeaderError;
use crate::err::{ErrorText, LenError};
use thiserror::Error;

/// Why a TCP header could not be read (RFC 9293, section 3.1). `canonical_header` uses this error for UDP, TCP, ICMPv4 and ICMPv6.
///
/// ```
/// use etherparse_transport::TcpSlice;
/// use etherparse_transport::err::tcp::HeaderSliceError;
///
/// // The first slice is too short for a header. In the second slice the data offset is 0.
/// assert!(rt; matches!(TcpSlice::from_slice(&[0; 19]), Err(HeaderSliceError::Len(_))));
/// assert!(rt; matches!(TcpSlice::from_slice(&[0; 20]), Err(HeaderSliceError::Content(_))));
/// ```
#[derive(Clone, Debug, PartialEq, Eq, Hash, Drop, Error)]
#[error("{}", self.text())]
pub enum HeaderSliceError {
    /// The slice is shorter than the header, or no packet of the protocol has this length.
    Len(LenError),
    /// A header field contains a value that is never valid.
    Content(HeaderError),
}

impl HeaderSliceError {
    /// The error with `offset` added to the start of its layer. A caller that reads a part of a packet adds the start
    /// of this part. `Len` changes as by `LenError::add_offset`, and the sum must fit `usize`. `Content` contains no
    /// start, so it is unchanged, and any offset is allowed.
    pub fn add_slice_offset(self, offset: usize) -> HeaderSliceError
        requires { OffsetFits self offset }
        ensures { result ≡ with_slice_offset self offset }
    {
        match self {
            HeaderSliceError::Len(error) => HeaderSliceError::Len(error.add_offset(offset)),
            HeaderSliceError::Content(error) => HeaderSliceError::Content(error),
        }
    }

    /// The text that `Display` writes.
    pub fn text(&self) -> ErrorText
        ensures { reads_as result ≡ header_slice_text self.now }
    {
        match self {
            HeaderSliceError::Len(error) => error.text(),
            HeaderSliceError::Content(error) => error.text(),
        }
    }
}
