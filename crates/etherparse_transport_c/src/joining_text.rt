ghost use Rattle.std.specs.Prelude.{◌≡◌};
ghost use Rattle.net_base.specs.TextParts.{reads_as};
ghost use Rattle.etherparse_transport_c.specs.ReassemblyTexts as specs;

use crate::error::EtherparseError;
use crate::status;
use etherparse_transport::err::ErrorText;
use etherparse_transport::err::TextPart::{Number, Words};
use reassembly::{FragmentError, ReassemblyError};

/// Returns the text of an error whose status begins with `REASSEMBLY`. Most texts are the same as in the crate `reassembly`.
#[tactic(auto, unfolding(crate::specs::ReassemblyTexts::joining_text))]
pub(crate) fn joining_text(error: &EtherparseError) -> ErrorText
    ensures { reads_as result ≡ specs.joining_text error.now }
{
    let (required_len, len) = (error.required_len, error.len);
    match error.status {
        status::REASSEMBLY_NO_FRAGMENT => {
            ErrorText::from_words("Reassembly Error: the packet is not a fragment.")
        }
        status::REASSEMBLY_HEADER_CHAIN_CUT_OFF => {
            FragmentError::HeaderChainCutOff { required_len, len }.text()
        }
        status::REASSEMBLY_OTHER_KEY => ReassemblyError::OtherKey.text(),
        status::REASSEMBLY_EMPTY => ReassemblyError::Empty.text(),
        status::REASSEMBLY_FRAGMENT_LENGTH => ReassemblyError::LengthNotMultipleOf8 { len }.text(),
        status::REASSEMBLY_TOO_LONG => ReassemblyError::TooLong { end: len }.text(),
        status::REASSEMBLY_ROOM => ReassemblyError::BufferTooSmall { required_len, len }.text(),
        status::REASSEMBLY_OTHER_END => ReassemblyError::OtherEnd.text(),
        status::REASSEMBLY_BEHIND_END => ReassemblyError::BehindEnd.text(),
        status::REASSEMBLY_OVERLAP => ReassemblyError::Overlap.text(),
        status::REASSEMBLY_TOO_MANY_FRAGMENTS => ReassemblyError::TooManyFragments.text(),
        status::REASSEMBLY_INCOMPLETE => {
            ErrorText::from_words("Reassembly Error: bytes of the payload are missing.")
        }
        status::REASSEMBLY_HEADER => {
            ErrorText::from_words("Reassembly Error: the whole packet has no room for its headers.")
        }
        status::REASSEMBLY_LENGTHS => ErrorText::from_parts(&[
            Words("Reassembly Error: the next packet has "),
            Number(required_len),
            Words(" bytes, and "),
            Number(len),
            Words(" bytes are left."),
        ]),
        _ => ErrorText::from_words("Unknown error."),
    }
}
