ghost use Rattle.std.specs.Prelude.{◌≡◌, ◌≢◌, ◌+◌, ◌↔◌, List, ℕ, IfNone, IfSome};
ghost use Rattle.std.specs.Int.{to_be_bytes, w16};
ghost use Rattle.word_sum.specs.Checksum.{IsAllOnes, checksum_of, folded, total};
ghost use Rattle.word_sum.specs.UpdatedChecksum.{updated_checksum_of};

use crate::{Icmpv4Header, Icmpv4Type};
use std::mem;
use word_sum::checksum_change::ChecksumChange;

/// Changes of an ICMPv4 header by an address translator (RFC 3022, section 4). The payload is not needed.
impl Icmpv4Header {
    ghost use Rattle.icmp_part.specs.EchoIdentifier.{icmpv4_echo_id, icmpv4_with_echo_id};
    ghost use Rattle.icmp_part.specs.Icmpv4Format.{checksummed};

    /// Replaces the identifier of an echo request or echo reply, updates the checksum, and returns the old identifier. For any other
    /// message the call returns `None`, and the header is unchanged.
    ///
    /// If the old checksum is right, the new checksum is right too, except in one case. If all bytes of header and payload are zeros after
    /// the change, the new checksum is 0 instead of 65535. This is possible only for an echo reply. Call `update_checksum` to correct it.
    ///
    /// In a fragmented packet only the first fragment contains the header, and its checksum covers all fragments (RFC 791).
    pub fn translate_echo_id(&mut self, id: u16) -> Option<u16>
        ensures was { result ≡ icmpv4_echo_id self.old.icmp_type }
        ensures replaced { self.new.icmp_type ≡ icmpv4_with_echo_id self.old.icmp_type id }
        ensures unchanged { IfNone result (self.new ≡ self.old) }
        // A right checksum becomes the right checksum of the new header, unless all bytes of the changed packet are zeros.
        ensures updated { IfSome result (λ _. (payload : List ℕ) → self.old.checksum ≡ checksum_of (checksummed self.old payload) →
            (self.new.checksum ≡ checksum_of (checksummed self.new payload)) ↔ (checksummed self.new payload ≢ 0)) }
        // If all bytes of the changed packet are zeros, the new checksum is 0, while the right checksum is 65535.
        ensures zeros { IfSome result (λ _. (payload : List ℕ) → self.old.checksum ≡ checksum_of (checksummed self.old payload) →
            checksummed self.new payload ≡ 0 → self.new.checksum ≡ 0) }
        // If a receiver accepts the packet, it accepts the changed packet, unless all bytes of the changed packet, checksum included, are
        // zeros.
        ensures verifies { IfSome result (λ _. (payload : List ℕ) → IsAllOnes (checksummed self.old payload + self.old.checksum) →
            (IsAllOnes (checksummed self.new payload + self.new.checksum)) ↔ (checksummed self.new payload + self.new.checksum ≢ 0)) }
        // The new checksum is the result of equation 3 in RFC 1624, section 3. If both 0 and 65535 are possible, this equation determines
        // which of them is stored.
        ensures equation { IfSome result (λ was. self.new.checksum
            ≡ updated_checksum_of self.old.checksum (folded (total (to_be_bytes w16 was))) (folded (total (to_be_bytes w16 id)))) }
    {
        let old = self.icmp_type.replace_echo_id(id)?;
        let change = ChecksumChange::new().replace_2bytes(old.to_be_bytes(), id.to_be_bytes());
        self.checksum = change.apply(self.checksum);
        Some(old)
    }
}

impl Icmpv4Type {
    ghost use Rattle.icmp_part.specs.EchoIdentifier.{icmpv4_echo_id, icmpv4_with_echo_id};

    /// Replaces the identifier of an echo request or echo reply, and returns the old identifier. `None` for any other message.
    fn replace_echo_id(&mut self, id: u16) -> Option<u16>
        ensures was { result ≡ icmpv4_echo_id self.old }
        ensures replaced { self.new ≡ icmpv4_with_echo_id self.old id }
    {
        match self {
            Self::EchoRequest(echo) => Some(mem::replace(&mut echo.id, id)),
            Self::EchoReply(echo) => Some(mem::replace(&mut echo.id, id)),
            _ => None,
        }
    }
}
