ghost use Rattle.std.specs.Prelude.{◌≡◌, ◌≤◌, length};
ghost use Rattle.etherparse_transport_c.specs.ReassemblyWords as specs;
ghost use Rattle.etherparse_transport_c.specs.StatusName.{max_status_name_len};
ghost use Rattle.etherparse_transport_c.specs.StatusText.{max_status_text_len};

use crate::status;

/// Returns the name of a status that begins with `REASSEMBLY`, as the C header spells it.
#[tactic(auto, unfolding(crate::specs::ReassemblyWords::joining_status_name))]
pub(crate) fn joining_status_name(status: u32) -> &'static str
    ensures name { result.now ≡ specs.joining_status_name status }
    ensures fits { length result.now ≤ max_status_name_len }
{
    match status {
        status::REASSEMBLY_NO_FRAGMENT => "ETHERPARSE_STATUS_REASSEMBLY_NO_FRAGMENT",
        status::REASSEMBLY_HEADER_CHAIN_CUT_OFF => {
            "ETHERPARSE_STATUS_REASSEMBLY_HEADER_CHAIN_CUT_OFF"
        }
        status::REASSEMBLY_OTHER_KEY => "ETHERPARSE_STATUS_REASSEMBLY_OTHER_KEY",
        status::REASSEMBLY_EMPTY => "ETHERPARSE_STATUS_REASSEMBLY_EMPTY",
        status::REASSEMBLY_FRAGMENT_LENGTH => "ETHERPARSE_STATUS_REASSEMBLY_FRAGMENT_LENGTH",
        status::REASSEMBLY_TOO_LONG => "ETHERPARSE_STATUS_REASSEMBLY_TOO_LONG",
        status::REASSEMBLY_ROOM => "ETHERPARSE_STATUS_REASSEMBLY_ROOM",
        status::REASSEMBLY_OTHER_END => "ETHERPARSE_STATUS_REASSEMBLY_OTHER_END",
        status::REASSEMBLY_BEHIND_END => "ETHERPARSE_STATUS_REASSEMBLY_BEHIND_END",
        status::REASSEMBLY_OVERLAP => "ETHERPARSE_STATUS_REASSEMBLY_OVERLAP",
        status::REASSEMBLY_TOO_MANY_FRAGMENTS => "ETHERPARSE_STATUS_REASSEMBLY_TOO_MANY_FRAGMENTS",
        status::REASSEMBLY_INCOMPLETE => "ETHERPARSE_STATUS_REASSEMBLY_INCOMPLETE",
        status::REASSEMBLY_HEADER => "ETHERPARSE_STATUS_REASSEMBLY_HEADER",
        status::REASSEMBLY_LENGTHS => "ETHERPARSE_STATUS_REASSEMBLY_LENGTHS",
        _ => "unknown status",
    }
}

/// Returns the meaning of such a status in a few words.
#[tactic(auto, unfolding(crate::specs::ReassemblyWords::joining_status_text))]
pub(crate) fn joining_status_text(status: u32) -> &'static str
    ensures text { result.now ≡ specs.joining_status_text status }
    ensures fits { length result.now ≤ max_status_text_len }
{
    match status {
        status::REASSEMBLY_NO_FRAGMENT => "the packet is whole, so it is not a fragment",
        status::REASSEMBLY_HEADER_CHAIN_CUT_OFF => {
            "the first fragment ends within its transport header"
        }
        status::REASSEMBLY_OTHER_KEY => "the fragment belongs to another packet",
        status::REASSEMBLY_EMPTY => "the fragment has no payload",
        status::REASSEMBLY_FRAGMENT_LENGTH => {
            "more fragments follow, and the length is not a multiple of 8"
        }
        status::REASSEMBLY_TOO_LONG => "the fragment ends beyond 65535 bytes",
        status::REASSEMBLY_ROOM => "the fragment ends beyond the room for the payload",
        status::REASSEMBLY_OTHER_END => "two last fragments end at different places",
        status::REASSEMBLY_BEHIND_END => "a fragment does not end before the last fragment",
        status::REASSEMBLY_OVERLAP => "the fragment overlaps another fragment",
        status::REASSEMBLY_TOO_MANY_FRAGMENTS => "no more fragments fit",
        status::REASSEMBLY_INCOMPLETE => "bytes of the payload are missing",
        status::REASSEMBLY_HEADER => "the whole packet has no room for its headers",
        status::REASSEMBLY_LENGTHS => "the lengths of the packets count more bytes than there are",
        _ => "unknown status",
    }
}
