ghost use Rattle.std.specs.Prelude.{◌≡◌};
ghost use Rattle.net_base.specs.TextParts.{reads_as};
ghost use Rattle.reassembly.specs.ErrorTexts.{reassembly_text};

use net_base::err::ErrorText;
use net_base::err::TextPart::{Number, Words};
use thiserror::Error;

/// Why a fragment was not added.
#[derive(Clone, Copy, Debug, PartialEq, Eq, Error)]
#[error("{}", self.text())]
pub enum ReassemblyError {
    /// The fragment belongs to another packet.
    OtherKey,
    /// The fragment has no payload.
    Empty,
    /// More fragments follow, and the length of the fragment is not a multiple of 8 (RFC 791, section 3.2; RFC 8200, section 4.5).
    LengthNotMultipleOf8 {
        /// The length of the payload of this fragment, in bytes.
        len: usize,
    },
    /// The fragment ends beyond 65,535 bytes, the longest payload.
    TooLong {
        /// The place after the last byte of the fragment.
        end: usize,
    },
    /// The fragment ends beyond the buffer.
    BufferTooSmall {
        /// The place after the last byte of the fragment.
        required_len: usize,
        /// The length of the buffer after its room for headers, in bytes.
        len: usize,
    },
    /// The fragment is the last, but a last fragment with a different end was added before.
    OtherEnd,
    /// A fragment that is not the last reaches the end of the last fragment, or goes beyond this end.
    BehindEnd,
    /// The fragment overlaps another fragment, but does not repeat it (RFC 5722, section 3). Both contain a byte at the same place.
    Overlap,
    /// The fragment is new, but the maximum number of fragments was added before.
    TooManyFragments,
}

impl ReassemblyError {
    /// The text that `Display` writes.
    pub fn text(&self) -> ErrorText
        ensures { reads_as result ≡ reassembly_text self.now }
    {
        match self {
            ReassemblyError::OtherKey => {
                ErrorText::from_words("Reassembly Error: the fragment is of another packet.")
            }
            ReassemblyError::Empty => {
                ErrorText::from_words("Reassembly Error: the fragment has no payload.")
            }
            ReassemblyError::LengthNotMultipleOf8 { len } => ErrorText::from_parts(&[
                Words("Reassembly Error: more fragments follow, and the length "),
                Number(*len),
                Words(" is no multiple of 8."),
            ]),
            ReassemblyError::TooLong { end } => ErrorText::from_parts(&[
                Words("Reassembly Error: the fragment ends at "),
                Number(*end),
                Words(", which is above 65535."),
            ]),
            ReassemblyError::BufferTooSmall { required_len, len } => ErrorText::from_parts(&[
                Words("Reassembly Error: the fragment ends at "),
                Number(*required_len),
                Words(", and the buffer has room for "),
                Number(*len),
                Words(" bytes."),
            ]),
            ReassemblyError::OtherEnd => {
                ErrorText::from_words(
                    "Reassembly Error: two last fragments end at different places.",
                )
            }
            ReassemblyError::BehindEnd => {
                ErrorText::from_words("Reassembly Error: a fragment does not end before the last.")
            }
            ReassemblyError::Overlap => {
                ErrorText::from_words("Reassembly Error: the fragment overlaps another.")
            }
            ReassemblyError::TooManyFragments => {
                ErrorText::from_words("Reassembly Error: no more fragments fit.")
            }
        }
    }
}
