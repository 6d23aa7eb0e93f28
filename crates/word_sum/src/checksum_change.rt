//! The incremental update of a checksum (RFC 1624). If some bytes of a packet are replaced, the new checksum is computed from these bytes,
//! without summing the packet again.
//!
//! ```
//! let change = ChecksumChange::new()
//!     .replace_4bytes([192, 168, 1, 1], [203, 0, 113, 7])
//!     .replace_2bytes(50_000u16.to_be_bytes(), 12_345u16.to_be_bytes());
//! header.checksum = change.apply(header.checksum);
//! // A packet that comes back.
//! reply.checksum = change.reversed().apply(reply.checksum);
//! ```

ghost use Rattle.std.specs.Prelude.{◌≡◌, ◌≢◌, ◌+◌, ◌%◌, ◌↔◌, List, ℕ};
ghost use Rattle.word_sum.specs.Checksum.{IsAllOnes, all_ones, checksum_of, folded, total, udp_checksum_of};
ghost use Rattle.word_sum.specs.SumValue.{sum_value};
ghost use Rattle.word_sum.specs.UpdatedChecksum.{PartReplaced, updated_checksum_of, updated_udp_checksum_of};

use crate::checksum::Sum16BitWords;
use std::fmt;

/// A change of the data that a checksum covers: some bytes are replaced by others (RFC 1624).
///
/// For example, a router lowers a time to live. An address translator replaces a port and an address, which is part of the pseudo header.
/// Make one change of all replacements, and apply it to the checksum of each packet in which these replacements are made. A translator can
/// keep one change for each flow.
///
/// Each replaced part begins at an even place of the data that the checksum covers. To replace a byte at an odd place, replace its whole
/// word. For example, one word of an IPv4 header contains time to live and protocol.
///
/// Two changes are equal if the sums of their old words are equal, and the sums of their new words are equal. Equal changes give equal
/// updated checksums.
///
/// ```
/// use etherparse_transport::checksum::Sum16BitWords;
/// use etherparse_transport::checksum_change::ChecksumChange;
///
/// let old = Sum16BitWords::new().add_slice(&[192, 168, 1, 1, 0xC3, 0x50]).ones_complement();
/// let new = Sum16BitWords::new().add_slice(&[192, 168, 1, 1, 0x9C, 0x40]).ones_complement();
/// let change = ChecksumChange::new().replace_2bytes([0xC3, 0x50], [0x9C, 0x40]);
/// assert_eq!(rt; change.apply(old), new);
/// assert_eq!(rt; change.reversed().apply(new), old);
/// ```
#[derive(Clone, Copy)]
pub struct ChecksumChange {
    removed: Sum16BitWords,
    added: Sum16BitWords,
}

impl ChecksumChange {
    ghost use Rattle.word_sum.specs.Checksum.{complement};
    ghost use Rattle.word_sum.specs.ChecksumChange.{added_value, removed_value, IsExtendedBy, Replaces, TurnsInto};

    /// The change that replaces nothing.
    pub fn new() -> ChecksumChange
        ensures removed { removed_value result ≡ 0 }
        ensures added { added_value result ≡ 0 }
        ensures unchanged { (packet : ℕ) → TurnsInto result packet packet }
    {
        ChecksumChange {
            removed: Sum16BitWords::new(),
            added: Sum16BitWords::new(),
        }
    }

    /// Replaces one word, for example a port.
    pub fn replace_2bytes(self, old: [u8; 2], new: [u8; 2]) -> ChecksumChange
        ensures removed { removed_value result ≡ folded (removed_value self + total old) }
        ensures added { added_value result ≡ folded (added_value self + total new) }
        ensures extends { IsExtendedBy self old new result }
        ensures replaces { Replaces self old new result }
    {
        ChecksumChange {
            removed: self.removed.add_2bytes(old),
            added: self.added.add_2bytes(new),
        }
    }

    /// Replaces two words, for example an IPv4 address.
    pub fn replace_4bytes(self, old: [u8; 4], new: [u8; 4]) -> ChecksumChange
        ensures removed { removed_value result ≡ folded (removed_value self + total old) }
        ensures added { added_value result ≡ folded (added_value self + total new) }
        ensures extends { IsExtendedBy self old new result }
        ensures replaces { Replaces self old new result }
    {
        ChecksumChange {
            removed: self.removed.add_4bytes(old),
            added: self.added.add_4bytes(new),
        }
    }

    /// Replaces eight words, for example an IPv6 address.
    #[inline(always)]
    pub fn replace_16bytes(self, old: [u8; 16], new: [u8; 16]) -> ChecksumChange
        ensures removed { removed_value result ≡ folded (removed_value self + total old) }
        ensures added { added_value result ≡ folded (added_value self + total new) }
        ensures extends { IsExtendedBy self old new result }
        ensures replaces { Replaces self old new result }
    {
        ChecksumChange {
            removed: self.removed.add_16bytes(old),
            added: self.added.add_16bytes(new),
        }
    }

    /// Replaces the bytes of a slice by the bytes of another slice. Both lengths are even, or both are odd. They can differ, for example if
    /// a pseudo header of IPv4 replaces a pseudo header of IPv6.
    pub fn replace_slice(self, old: &[u8], new: &[u8]) -> ChecksumChange
        ensures removed { removed_value result ≡ folded (removed_value self + total old.now) }
        ensures added { added_value result ≡ folded (added_value self + total new.now) }
        ensures extends { IsExtendedBy self old.now new.now result }
        ensures replaces { Replaces self old.now new.now result }
    {
        ChecksumChange {
            removed: self.removed.add_slice(old),
            added: self.added.add_slice(new),
        }
    }

    /// The change that makes the replacements of both changes, for example the addresses of a flow and its ports. The order does not
    /// matter.
    pub fn and(self, other: ChecksumChange) -> ChecksumChange
        ensures removed { removed_value result ≡ folded (removed_value self + removed_value other) }
        ensures added { added_value result ≡ folded (added_value self + added_value other) }
        // The joined change turns a packet into the packet that results from this change and then the other change.
        ensures joins { (packet between changed : ℕ) → TurnsInto self packet between → TurnsInto other between changed →
            TurnsInto result packet changed }
    {
        ChecksumChange {
            removed: sum_of_both(self.removed, other.removed),
            added: sum_of_both(self.added, other.added),
        }
    }

    /// The change that restores the old bytes. A translator applies it to packets in the opposite direction.
    pub fn reversed(self) -> ChecksumChange
        ensures removed { removed_value result ≡ added_value self }
        ensures added { added_value result ≡ removed_value self }
        ensures reverses { (packet changed : ℕ) → TurnsInto self packet changed → TurnsInto result changed packet }
    {
        ChecksumChange {
            removed: self.added,
            added: self.removed,
        }
    }

    /// The checksum of the changed packet, computed from the old checksum. It is stored as in TCP, ICMP and the IPv4 header (RFC 1624,
    /// section 3, equation 3).
    ///
    /// The result is wrong in one case: if all covered bytes are zeros after the change, the result is 0 instead of 65535. Only an ICMPv4
    /// echo reply can consist of zeros, with identifier, sequence number and data. Compute the checksum of such a reply from all its bytes.
    #[inline(always)]
    pub fn apply(self, checksum: u16) -> u16
        ensures equation { result ≡ updated_checksum_of checksum (removed_value self) (added_value self) }
        // A right checksum becomes the right checksum of the changed packet, unless all bytes of the changed packet are zeros.
        ensures updated { (packet changed : ℕ) → TurnsInto self packet changed → checksum ≡ checksum_of packet →
            (result ≡ checksum_of changed) ↔ (changed ≢ 0) }
        // If all bytes of the changed packet are zeros, the result is 0, while the right checksum is 65535.
        ensures zeros { (packet changed : ℕ) → TurnsInto self packet changed → checksum ≡ checksum_of packet →
            changed ≡ 0 → result ≡ 0 }
        // For any checksum, the sum of the packet and its checksum keeps its remainder modulo 65535. So the error of a wrong checksum stays
        // the same.
        ensures remainder { (packet changed : ℕ) → TurnsInto self packet changed →
            (changed + result) % 65535 ≡ (packet + checksum) % 65535 }
        // If a receiver accepts the packet, it accepts the changed packet, unless all bytes of the changed packet, checksum included, are
        // zeros.
        ensures verifies { (packet changed : ℕ) → TurnsInto self packet changed → IsAllOnes (packet + checksum) →
            (IsAllOnes (changed + result)) ↔ (changed + result ≢ 0) }
        // The reversed change restores the checksum, except for 65535. The checksum 65535 becomes 0, the other zero of the one's
        // complement.
        ensures reversed { (updated_checksum_of result (added_value self) (removed_value self) ≡ checksum) ↔ (checksum ≢ all_ones) }
    {
        self.updated_sum(checksum).ones_complement()
    }

    /// The checksum of the changed packet, computed from the old checksum. It is stored as in UDP (RFC 768), and is right for every packet.
    ///
    /// A value of 0 means that the packet has no checksum, and it stays 0. No other value becomes 0. IPv6 requires a checksum. So if a
    /// packet has none, a translator from IPv4 to IPv6 has to compute the checksum.
    #[inline(always)]
    pub fn apply_udp(self, checksum: u16) -> u16
        ensures equation { result ≡ updated_udp_checksum_of checksum (removed_value self) (added_value self) }
        ensures none { (result ≡ 0) ↔ (checksum ≡ 0) }
        // A right checksum becomes the right checksum of the changed packet, and a wrong checksum stays wrong.
        ensures updated { (packet changed : ℕ) → TurnsInto self packet changed →
            (result ≡ udp_checksum_of changed) ↔ (checksum ≡ udp_checksum_of packet) }
        // For any checksum other than 0, the sum of the packet and its checksum keeps its remainder modulo 65535.
        ensures remainder { (packet changed : ℕ) → TurnsInto self packet changed → checksum ≢ 0 →
            (changed + result) % 65535 ≡ (packet + checksum) % 65535 }
        // For any checksum other than 0, a receiver accepts the changed packet exactly if it accepts the packet.
        ensures verifies { (packet changed : ℕ) → TurnsInto self packet changed → checksum ≢ 0 →
            (IsAllOnes (changed + result)) ↔ (IsAllOnes (packet + checksum)) }
        // The reversed change restores the checksum.
        ensures reversed { updated_udp_checksum_of result (added_value self) (removed_value self) ≡ checksum }
    {
        if checksum == 0 {
            return 0;
        }
        self.updated_sum(checksum).to_ones_complement_with_no_zero()
    }

    /// The sum of the changed data that a checksum covers, computed from the old checksum.
    #[inline(always)]
    fn updated_sum(self, checksum: u16) -> Sum16BitWords
        ensures { sum_value result ≡ folded (complement checksum + complement (removed_value self) + added_value self) }
    {
        self.added
            .add_2bytes((!checksum).to_be_bytes())
            .add_2bytes(self.removed.ones_complement().to_be_bytes())
    }
}

impl PartialEq for ChecksumChange {
    ghost use Rattle.std.specs.Prelude.{◌≡◌, ◌↔◌, IsTrue, nat_eq};
    ghost use Rattle.std.specs.Cmp.Rules.{comparing};
    ghost use Rattle.std.specs.Ordering.{eq_of_both, on};
    ghost use Rattle.std.proofs.Common.{rules};
    ghost use Rattle.word_sum.specs.ChecksumChange.{added_value, removed_value};

    ghost eq = { eq_of_both (on removed_value nat_eq) (on added_value nat_eq) };

    ghost laws = { Prim.search (comparing, rules) };

    fn eq(&self, other: &ChecksumChange) -> bool
        ensures computes { result ≡ eq_of_both (on removed_value nat_eq) (on added_value nat_eq) self.now other.now }
        ensures same { IsTrue result ↔
            ((removed_value self.now ≡ removed_value other.now) × (added_value self.now ≡ added_value other.now)) }
    {
        value_of(self.removed) == value_of(other.removed)
            && value_of(self.added) == value_of(other.added)
    }
}

impl Eq for ChecksumChange {
    ghost use Rattle.std.specs.Cmp.Rules.{comparing};
    ghost use Rattle.std.proofs.Common.{rules};

    ghost laws = { Prim.search (comparing, rules) };
}

impl fmt::Debug for ChecksumChange {
    // A sum has no debug text, so its value is shown.
    fn fmt<W: fmt::Write>(&self, f: &mut fmt::Formatter<W>) -> fmt::Result {
        f.debug_struct("ChecksumChange")
            .field("removed", &value_of(self.removed))
            .field("added", &value_of(self.added))
            .finish()
    }
}

/// The value of a sum, 0 to 65535.
fn value_of(sum: Sum16BitWords) -> u16
    ensures { result ≡ sum_value sum }
{
    !sum.ones_complement()
}

/// The sum of all words that were added to the first sum or to the second sum.
fn sum_of_both(first: Sum16BitWords, second: Sum16BitWords) -> Sum16BitWords
    ensures { sum_value result ≡ folded (sum_value first + sum_value second) }
{
    first.add_2bytes(value_of(second).to_be_bytes())
}

/// The checksum of a packet after the bytes at one even place were replaced. It is stored as in TCP, ICMP and the IPv4 header.
///
/// Both lengths are even, or both are odd. `ChecksumChange` replaces several parts. `ChecksumChange::apply` describes the only packet for
/// which the result is wrong.
pub fn updated_checksum(checksum: u16, old: &[u8], new: &[u8]) -> u16
    ensures equation { result ≡ updated_checksum_of checksum (folded (total old.now)) (folded (total new.now)) }
    // A right checksum becomes the right checksum of the changed packet, unless all bytes of the changed packet are zeros.
    ensures updated { (packet changed : List ℕ) → PartReplaced old.now new.now packet changed →
        checksum ≡ checksum_of (total packet) → (result ≡ checksum_of (total changed)) ↔ (total changed ≢ 0) }
    // If all bytes of the changed packet are zeros, the result is 0, while the right checksum is 65535.
    ensures zeros { (packet changed : List ℕ) → PartReplaced old.now new.now packet changed →
        checksum ≡ checksum_of (total packet) → total changed ≡ 0 → result ≡ 0 }
    // For any checksum, the sum of the packet and its checksum keeps its remainder modulo 65535. So the error of a wrong checksum stays the
    // same.
    ensures remainder { (packet changed : List ℕ) → PartReplaced old.now new.now packet changed →
        (total changed + result) % 65535 ≡ (total packet + checksum) % 65535 }
    // If a receiver accepts the packet, it accepts the changed packet, unless all bytes of the changed packet, checksum included, are
    // zeros.
    ensures verifies { (packet changed : List ℕ) → PartReplaced old.now new.now packet changed →
        IsAllOnes (total packet + checksum) → (IsAllOnes (total changed + result)) ↔ (total changed + result ≢ 0) }
{
    ChecksumChange::new()
        .replace_slice(old, new)
        .apply(checksum)
}

/// The checksum of a packet after the bytes at one even place were replaced. It is stored as in UDP (RFC 768). A value of 0 means that the
/// packet has no checksum, and it stays 0. No other value becomes 0.
///
/// Both lengths are even, or both are odd. `ChecksumChange` replaces several parts.
pub fn updated_udp_checksum(checksum: u16, old: &[u8], new: &[u8]) -> u16
    ensures equation { result ≡ updated_udp_checksum_of checksum (folded (total old.now)) (folded (total new.now)) }
    ensures none { (result ≡ 0) ↔ (checksum ≡ 0) }
    // A right checksum becomes the right checksum of the changed packet, and a wrong checksum stays wrong.
    ensures updated { (packet changed : List ℕ) → PartReplaced old.now new.now packet changed →
        (result ≡ udp_checksum_of (total changed)) ↔ (checksum ≡ udp_checksum_of (total packet)) }
    // For any checksum other than 0, the sum of the packet and its checksum keeps its remainder modulo 65535.
    ensures remainder { (packet changed : List ℕ) → PartReplaced old.now new.now packet changed → checksum ≢ 0 →
        (total changed + result) % 65535 ≡ (total packet + checksum) % 65535 }
    // For any checksum other than 0, a receiver accepts the changed packet exactly if it accepts the packet.
    ensures verifies { (packet changed : List ℕ) → PartReplaced old.now new.now packet changed → checksum ≢ 0 →
        (IsAllOnes (total changed + result)) ↔ (IsAllOnes (total packet + checksum)) }
{
    ChecksumChange::new()
        .replace_slice(old, new)
        .apply_udp(checksum)
}
