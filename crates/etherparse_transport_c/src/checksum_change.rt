ghost use Rattle.std.specs.Prelude.{◌≡◌, ◌≢◌, ◌↔◌, ◌+◌, List, ℕ};
ghost use Rattle.word_sum.specs.Checksum.{IsAllOnes, checksum_of, folded, total, udp_checksum_of};
ghost use Rattle.word_sum.specs.ChecksumChange.{added_value, removed_value};
ghost use Rattle.word_sum.specs.UpdatedChecksum.{PartReplaced, TurnsIntoBy, updated_checksum_of, updated_udp_checksum_of};

use crate::sum::added;
use etherparse_transport::checksum_change::ChecksumChange;

/// A replacement of some of the bytes that a checksum covers (RFC 1624). Every pair of numbers is a valid change.
#[repr(C)]
#[derive(Clone, Copy)]
pub struct EtherparseChecksumChange {
    /// The one's complement sum of the removed bytes.
    pub removed: u16,
    /// The one's complement sum of the added bytes.
    pub added: u16,
}

/// Converts the change to the type of `etherparse_transport`.
fn change_of(change: EtherparseChecksumChange) -> ChecksumChange
    ensures removed { removed_value result ≡ change.removed }
    ensures added { added_value result ≡ change.added }
{
    ChecksumChange::new().replace_2bytes(change.removed.to_be_bytes(), change.added.to_be_bytes())
}

/// Returns a change that replaces nothing.
#[unsafe(no_mangle)]
pub extern "C" fn etherparse_checksum_change_new() -> EtherparseChecksumChange
    ensures { result ≡ record { removed = 0; added = 0 } }
{
    EtherparseChecksumChange {
        removed: 0,
        added: 0,
    }
}

/// Returns `change` with one more replacement: `new` replaces `old` (RFC 1624). The replaced bytes must begin at an even place in the bytes
/// that the checksum covers. Both lengths must be even, or both must be odd. The lengths can differ, for example if a pseudo header of IPv4
/// replaces a pseudo header of IPv6.
#[unsafe(no_mangle)]
pub extern "C" fn etherparse_checksum_change_replace(
    change: EtherparseChecksumChange,
    old: &[u8],
    new: &[u8],
) -> EtherparseChecksumChange
    ensures value { result ≡ record { removed = folded (change.removed + total old.now); added = folded (change.added + total new.now) } }
    // If `change` describes how a packet changed so far, the result also describes this replacement. The replacement can be at any even
    // place.
    ensures replaces { (packet : ℕ) (between changed : List ℕ) → PartReplaced old.now new.now between changed
        → TurnsIntoBy change.removed change.added packet (total between) → TurnsIntoBy result.removed result.added packet (total changed) }
{
    EtherparseChecksumChange {
        removed: added(change.removed, old),
        added: added(change.added, new),
    }
}

/// Returns the change that restores the old bytes. An address translator applies it to packets in the opposite direction.
#[unsafe(no_mangle)]
pub extern "C" fn etherparse_checksum_change_reversed(
    change: EtherparseChecksumChange,
) -> EtherparseChecksumChange
    ensures value { result ≡ record { removed = change.added; added = change.removed } }
    ensures reverses { (packet changed : ℕ) → TurnsIntoBy change.removed change.added packet changed → TurnsIntoBy result.removed result.added changed packet }
{
    EtherparseChecksumChange {
        removed: change.added,
        added: change.removed,
    }
}

/// Returns the checksum of the changed packet (RFC 1624, section 3, equation 3). `checksum` is the checksum before the change. It must be
/// in the form that TCP, ICMP and the IPv4 header use. If it is right, the result is right too, with one exception. If all bytes that the
/// checksum covers are zeros after the change, the result is 0 instead of 65535.
#[unsafe(no_mangle)]
pub extern "C" fn etherparse_checksum_change_apply(
    change: EtherparseChecksumChange,
    checksum: u16,
) -> u16
    ensures equation { result ≡ updated_checksum_of checksum change.removed change.added }
    // A right checksum becomes the right checksum of the changed packet, unless all bytes of the changed packet are zeros.
    ensures updated { (packet changed : ℕ) → TurnsIntoBy change.removed change.added packet changed → checksum ≡ checksum_of packet →
        (result ≡ checksum_of changed) ↔ (changed ≢ 0) }
    // A receiver that accepts the packet also accepts the changed packet. The exception is a changed packet that consists of zeros,
    // checksum included.
    ensures verifies { (packet changed : ℕ) → TurnsIntoBy change.removed change.added packet changed → IsAllOnes (packet + checksum) →
        (IsAllOnes (changed + result)) ↔ (changed + result ≢ 0) }
{
    change_of(change).apply(checksum)
}

/// Returns the checksum of the changed packet. `checksum` is the checksum before the change, in the form that UDP uses (RFC 768). A
/// checksum of 0 means that the packet has no checksum, and stays 0. No other checksum becomes 0.
#[unsafe(no_mangle)]
pub extern "C" fn etherparse_checksum_change_apply_udp(
    change: EtherparseChecksumChange,
    checksum: u16,
) -> u16
    ensures equation { result ≡ updated_udp_checksum_of checksum change.removed change.added }
    ensures none { (result ≡ 0) ↔ (checksum ≡ 0) }
    // The new checksum is right exactly if the old checksum was right.
    ensures updated { (packet changed : ℕ) → TurnsIntoBy change.removed change.added packet changed →
        (result ≡ udp_checksum_of changed) ↔ (checksum ≡ udp_checksum_of packet) }
    // If the checksum is not 0, a receiver accepts the changed packet exactly if it accepted the original packet.
    ensures verifies { (packet changed : ℕ) → TurnsIntoBy change.removed change.added packet changed → checksum ≢ 0 →
        (IsAllOnes (changed + result)) ↔ (IsAllOnes (packet + checksum)) }
{
    change_of(change).apply_udp(checksum)
}
