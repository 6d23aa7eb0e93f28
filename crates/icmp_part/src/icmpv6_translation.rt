ghost use Rattle.std.specs.Prelude.{◌≡◌, ◌+◌, ◌↔◌, List, ℕ, length, IfNone, IfSome};
ghost use Rattle.std.specs.Int.{to_be_bytes, w16};
ghost use Rattle.word_sum.specs.Checksum.{IsAllOnes, checksum_of, folded, total};
ghost use Rattle.word_sum.specs.UpdatedChecksum.{updated_checksum_of};

use crate::{Icmpv6Header, Icmpv6Type};
use std::mem;
use word_sum::checksum_change::ChecksumChange;

/// Changes of an ICMPv6 header by an address translator (RFC 3022, section 4). The payload is not needed.
impl Icmpv6Header {
    ghost use Rattle.icmp_part.specs.EchoIdentifier.{icmpv6_echo_id, icmpv6_with_echo_id};
    ghost use Rattle.icmp_part.specs.Icmpv6Format.{checksummed};

    /// Replaces the identifier of an echo request or echo reply, updates the checksum, and returns the old identifier. For any other
    /// message the call returns `None`, and the header is unchanged.
    ///
    /// In a fragmented packet only the first fragment contains the header, and its checksum covers all fragments (RFC 8200, section 4.5).
    pub fn translate_echo_id(&mut self, id: u16) -> Option<u16>
        ensures was { result ≡ icmpv6_echo_id self.old.icmp_type }
        ensures replaced { self.new.icmp_type ≡ icmpv6_with_echo_id self.old.icmp_type id }
        ensures unchanged { IfNone result (self.new ≡ self.old) }
        // A right checksum becomes the right checksum of the new header.
        ensures updated { (source destination payload : List ℕ) → length source ≡ 16 → length destination ≡ 16 →
            self.old.checksum ≡ checksum_of (checksummed source destination self.old payload) →
            self.new.checksum ≡ checksum_of (checksummed source destination self.new payload) }
        // For any checksum, a receiver accepts the new packet exactly if it accepts the old packet.
        ensures verifies { (source destination payload : List ℕ) → length source ≡ 16 → length destination ≡ 16 →
            (IsAllOnes (checksummed source destination self.new payload + self.new.checksum))
            ↔ (IsAllOnes (checksummed source destination self.old payload + self.old.checksum)) }
        // The new checksum is the result of equation 3 in RFC 1624, section 3. If both 0 and 65535 are possible, this equation determines
        // which of them is stored.
        ensures equation { IfSome result (λ was. self.new.checksum
            ≡ updated_checksum_of self.old.checksum (folded (total (to_be_bytes w16 was))) (folded (total (to_be_bytes w16 id)))) }
    {
        let old = self.icmp_type.replace_echo_id(id)?;
        let change = ChecksumChange::new().replace_2bytes(old.to_be_bytes(), id.to_be_bytes());
        self.checksum = change.apply(self.checksum);
        Some(old)
    }

    /// Updates the checksum of any message after its source or destination address changed from `old` to `new`. If the packet has a routing
    /// header, the checksum covers the final destination.
    ///
    /// The checksum of a packet covers the unused bits of its header, but an `Icmpv6Header` does not contain these bits. If they may be
    /// set, change the bytes of the packet instead of the header. Update the checksum in these bytes with `ChecksumChange`.
    ///
    /// In a fragmented packet only the first fragment contains the header, and its checksum covers all fragments (RFC 8200, section 4.5).
    pub fn translate_address(&mut self, old: [u8; 16], new: [u8; 16])
        ensures unchanged { self.new ≡ record self.old { checksum = self.new.checksum } }
        // If the source was replaced, a right checksum becomes the right checksum for the new source. The next clause states this for the
        // destination.
        ensures source { (destination payload : List ℕ) → length destination ≡ 16 →
            self.old.checksum ≡ checksum_of (checksummed old destination self.old payload) →
            self.new.checksum ≡ checksum_of (checksummed new destination self.new payload) }
        ensures destination { (source payload : List ℕ) → length source ≡ 16 →
            self.old.checksum ≡ checksum_of (checksummed source old self.old payload) →
            self.new.checksum ≡ checksum_of (checksummed source new self.new payload) }
        // For any checksum, a receiver accepts the new packet exactly if it accepts the old packet.
        ensures source_verifies { (destination payload : List ℕ) → length destination ≡ 16 →
            (IsAllOnes (checksummed new destination self.new payload + self.new.checksum))
            ↔ (IsAllOnes (checksummed old destination self.old payload + self.old.checksum)) }
        ensures destination_verifies { (source payload : List ℕ) → length source ≡ 16 →
            (IsAllOnes (checksummed source new self.new payload + self.new.checksum))
            ↔ (IsAllOnes (checksummed source old self.old payload + self.old.checksum)) }
        // The new checksum is the result of equation 3 in RFC 1624, section 3. If both 0 and 65535 are possible, this equation determines
        // which of them is stored.
        ensures equation { self.new.checksum ≡ updated_checksum_of self.old.checksum (folded (total old)) (folded (total new)) }
    {
        self.checksum = ChecksumChange::new()
            .replace_16bytes(old, new)
            .apply(self.checksum);
    }
}

impl Icmpv6Type {
    ghost use Rattle.icmp_part.specs.EchoIdentifier.{icmpv6_echo_id, icmpv6_with_echo_id};

    /// Replaces the identifier of an echo request or echo reply, and returns the old identifier. `None` for any other message.
    fn replace_echo_id(&mut self, id: u16) -> Option<u16>
        ensures was { result ≡ icmpv6_echo_id self.old }
        ensures replaced { self.new ≡ icmpv6_with_echo_id self.old id }
    {
        match self {
            Self::EchoRequest(echo) => Some(mem::replace(&mut echo.id, id)),
            Self::EchoReply(echo) => Some(mem::replace(&mut echo.id, id)),
            _ => None,
        }
    }
}
