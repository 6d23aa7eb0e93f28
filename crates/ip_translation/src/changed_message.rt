ghost use Rattle.std.specs.Prelude.{◌≡◌, ◌≢◌, ◌≤◌, ◌+◌, ◌%◌, ◌↔◌, length};
ghost use Rattle.net_base.specs.StoredChecksum.{icmp_checksum_place, with_checksum};
ghost use Rattle.word_sum.specs.Checksum.{Verifies, all_ones, total};
ghost use Rattle.ip_translation.specs.EchoMessages as specs;

use crate::message_translation::{ICMP_CHECKSUM_AT, number, store_checksum};
use word_sum::checksum_change::ChecksumChange;

/// Writes the checksum of an ICMP message that replaces another message. The checksum of the old message is updated for all words of both
/// messages, and for the change from the old to the new pseudo header. The pseudo header of ICMPv4 is empty.
pub(crate) fn store_changed_checksum(changed: &mut [u8], message: &[u8], old: &[u8], new: &[u8])
    requires there { 4 ≤ length message.now }
    requires new_there { 4 ≤ length changed.old }
    requires some { specs.total_without_checksum message.now + total old.now ≢ 0 }
    requires new_some { specs.total_without_checksum changed.old + total new.now ≢ 0 }
    ensures written { changed.new
        ≡ with_checksum icmp_checksum_place changed.old (specs.changed_checksum old.now new.now message.now changed.old) }
    // A receiver accepts the new message exactly if it accepted the old message.
    ensures alike { (Verifies new.now changed.new) ↔ (Verifies old.now message.now) }
{
    let checksum = changed_checksum(changed, message, old, new);
    store_checksum(changed, ICMP_CHECKSUM_AT, checksum);
}

/// The checksum of the new message.
fn changed_checksum(changed: &[u8], message: &[u8], old: &[u8], new: &[u8]) -> u16
    requires there { 4 ≤ length message.now }
    requires new_there { 4 ≤ length changed.now }
    ensures checksum { result ≡ specs.changed_checksum old.now new.now message.now changed.now }
    ensures remainder { (specs.total_without_checksum changed.now + total new.now + result) % all_ones
        ≡ (specs.total_without_checksum message.now + total old.now + specs.icmp_checksum message.now) % all_ones }
{
    let checksum = number(message, ICMP_CHECKSUM_AT);
    ChecksumChange::new()
        .replace_2bytes([message[0], message[1]], [changed[0], changed[1]])
        .replace_slice(
            &message[ICMP_CHECKSUM_AT + 2..],
            &changed[ICMP_CHECKSUM_AT + 2..],
        )
        .replace_slice(old, new)
        .apply(checksum)
}
