ghost use Rattle.std.specs.Prelude.{◌≡◌, ◌≢◌, ◌+◌, ◌↔◌, List, ℕ, length};
ghost use Rattle.word_sum.specs.Checksum.{IsAllOnes, checksum_of};
ghost use Rattle.word_sum.specs.ChecksumChange.{TurnsInto};

use crate::TcpHeader;
use word_sum::checksum_change::ChecksumChange;

/// Changes of a TCP header by an address translator (RFC 3022, section 4). A call replaces a port, and updates the checksum, which also
/// covers the addresses. The payload is not needed.
impl TcpHeader {
    ghost use Rattle.tcp_part.specs.TcpFormat.{checksummed_ipv4, checksummed_ipv6, wire};
    ghost use Rattle.tcp_part.specs.TcpTranslation.{checksummed_by};

    /// Replaces the source port of a packet over IPv4 whose source address changes from `old` to `new`. The checksum is updated for the new
    /// port and for the new address. The call does not change the IP header, which contains the address and a checksum of its own.
    ///
    /// The checksum of a packet covers the unused bits of its header, but a `TcpHeader` does not contain these bits. If they may be set,
    /// change the bytes of the packet instead of the header. Update the checksum in these bytes with `ChecksumChange`.
    ///
    /// In a fragmented packet only the first fragment contains the header, and its checksum covers all fragments (RFC 791).
    pub fn translate_source_ipv4(&mut self, old: [u8; 4], new: [u8; 4], port: u16)
        ensures unchanged { self.new ≡ record self.old { source_port = port; checksum = self.new.checksum } }
        // A right checksum becomes the right checksum of the new header.
        ensures updated { (destination payload : List ℕ) → length destination ≡ 4 →
            self.old.checksum ≡ checksum_of (checksummed_ipv4 old destination (wire self.old) payload) →
            self.new.checksum ≡ checksum_of (checksummed_ipv4 new destination (wire self.new) payload) }
        // For any checksum, a receiver accepts the new packet exactly if it accepts the old packet.
        ensures verifies { (destination payload : List ℕ) → length destination ≡ 4 →
            (IsAllOnes (checksummed_ipv4 new destination (wire self.new) payload + self.new.checksum))
            ↔ (IsAllOnes (checksummed_ipv4 old destination (wire self.old) payload + self.old.checksum)) }
    {
        self.replace_source_port(ChecksumChange::new().replace_4bytes(old, new), port);
    }

    /// Replaces the destination port of a packet over IPv4 whose destination address changes from `old` to `new`. Otherwise the call is
    /// like `translate_source_ipv4`.
    ///
    /// In a fragmented packet only the first fragment contains the header, and its checksum covers all fragments (RFC 791).
    pub fn translate_destination_ipv4(&mut self, old: [u8; 4], new: [u8; 4], port: u16)
        ensures unchanged { self.new ≡ record self.old { destination_port = port; checksum = self.new.checksum } }
        // A right checksum becomes the right checksum of the new header.
        ensures updated { (source payload : List ℕ) → length source ≡ 4 →
            self.old.checksum ≡ checksum_of (checksummed_ipv4 source old (wire self.old) payload) →
            self.new.checksum ≡ checksum_of (checksummed_ipv4 source new (wire self.new) payload) }
        // For any checksum, a receiver accepts the new packet exactly if it accepts the old packet.
        ensures verifies { (source payload : List ℕ) → length source ≡ 4 →
            (IsAllOnes (checksummed_ipv4 source new (wire self.new) payload + self.new.checksum))
            ↔ (IsAllOnes (checksummed_ipv4 source old (wire self.old) payload + self.old.checksum)) }
    {
        self.replace_destination_port(ChecksumChange::new().replace_4bytes(old, new), port);
    }

    /// Replaces the source port of a packet over IPv6 whose source address changes from `old` to `new`. Otherwise the call is like
    /// `translate_source_ipv4`.
    ///
    /// In a fragmented packet only the first fragment contains the header, and its checksum covers all fragments (RFC 8200, section 4.5).
    pub fn translate_source_ipv6(&mut self, old: [u8; 16], new: [u8; 16], port: u16)
        ensures unchanged { self.new ≡ record self.old { source_port = port; checksum = self.new.checksum } }
        // A right checksum becomes the right checksum of the new header.
        ensures updated { (destination payload : List ℕ) → length destination ≡ 16 →
            self.old.checksum ≡ checksum_of (checksummed_ipv6 old destination (wire self.old) payload) →
            self.new.checksum ≡ checksum_of (checksummed_ipv6 new destination (wire self.new) payload) }
        // For any checksum, a receiver accepts the new packet exactly if it accepts the old packet.
        ensures verifies { (destination payload : List ℕ) → length destination ≡ 16 →
            (IsAllOnes (checksummed_ipv6 new destination (wire self.new) payload + self.new.checksum))
            ↔ (IsAllOnes (checksummed_ipv6 old destination (wire self.old) payload + self.old.checksum)) }
    {
        self.replace_source_port(ChecksumChange::new().replace_16bytes(old, new), port);
    }

    /// Replaces the destination port of a packet over IPv6 whose destination address changes from `old` to `new`. Otherwise the call is
    /// like `translate_source_ipv4`. If the packet has a routing header, pass final destinations, since the checksum covers the final
    /// destination (RFC 8200, section 8.1).
    ///
    /// In a fragmented packet only the first fragment contains the header, and its checksum covers all fragments (RFC 8200, section 4.5).
    pub fn translate_destination_ipv6(&mut self, old: [u8; 16], new: [u8; 16], port: u16)
        ensures unchanged { self.new ≡ record self.old { destination_port = port; checksum = self.new.checksum } }
        // A right checksum becomes the right checksum of the new header.
        ensures updated { (source payload : List ℕ) → length source ≡ 16 →
            self.old.checksum ≡ checksum_of (checksummed_ipv6 source old (wire self.old) payload) →
            self.new.checksum ≡ checksum_of (checksummed_ipv6 source new (wire self.new) payload) }
        // For any checksum, a receiver accepts the new packet exactly if it accepts the old packet.
        ensures verifies { (source payload : List ℕ) → length source ≡ 16 →
            (IsAllOnes (checksummed_ipv6 source new (wire self.new) payload + self.new.checksum))
            ↔ (IsAllOnes (checksummed_ipv6 source old (wire self.old) payload + self.old.checksum)) }
    {
        self.replace_destination_port(ChecksumChange::new().replace_16bytes(old, new), port);
    }

    /// Replaces the source port. Updates the checksum for the new port and for this change of the pseudo header.
    fn replace_source_port(&mut self, pseudo_header: ChecksumChange, port: u16)
        ensures unchanged { self.new ≡ record self.old { source_port = port; checksum = self.new.checksum } }
        // A right checksum becomes the right checksum of the new header if the new sum is not 0. `old` and `new` are functions that return
        // the pseudo header for the length of the TCP header.
        ensures updated { (old new : ℕ → List ℕ) (payload : List ℕ) →
            TurnsInto pseudo_header (checksummed_by old self.old payload) (checksummed_by new self.old payload) →
            checksummed_by new self.new payload ≢ 0 →
            self.old.checksum ≡ checksum_of (checksummed_by old self.old payload) →
            self.new.checksum ≡ checksum_of (checksummed_by new self.new payload) }
        ensures verifies { (old new : ℕ → List ℕ) (payload : List ℕ) →
            TurnsInto pseudo_header (checksummed_by old self.old payload) (checksummed_by new self.old payload) →
            checksummed_by old self.old payload ≢ 0 → checksummed_by new self.new payload ≢ 0 →
            (IsAllOnes (checksummed_by new self.new payload + self.new.checksum))
            ↔ (IsAllOnes (checksummed_by old self.old payload + self.old.checksum)) }
    {
        let change = pseudo_header.replace_2bytes(
            self.source_port.to_be_bytes(),
            port.to_be_bytes(),
        );
        self.source_port = port;
        self.checksum = change.apply(self.checksum);
    }

    /// Replaces the destination port. Updates the checksum for the new port and for this change of the pseudo header.
    fn replace_destination_port(&mut self, pseudo_header: ChecksumChange, port: u16)
        ensures unchanged { self.new ≡ record self.old { destination_port = port; checksum = self.new.checksum } }
        // A right checksum becomes the right checksum of the new header if the new sum is not 0. `old` and `new` are functions that return
        // the pseudo header for the length of the TCP header.
        ensures updated { (old new : ℕ → List ℕ) (payload : List ℕ) →
            TurnsInto pseudo_header (checksummed_by old self.old payload) (checksummed_by new self.old payload) →
            checksummed_by new self.new payload ≢ 0 →
            self.old.checksum ≡ checksum_of (checksummed_by old self.old payload) →
            self.new.checksum ≡ checksum_of (checksummed_by new self.new payload) }
        ensures verifies { (old new : ℕ → List ℕ) (payload : List ℕ) →
            TurnsInto pseudo_header (checksummed_by old self.old payload) (checksummed_by new self.old payload) →
            checksummed_by old self.old payload ≢ 0 → checksummed_by new self.new payload ≢ 0 →
            (IsAllOnes (checksummed_by new self.new payload + self.new.checksum))
            ↔ (IsAllOnes (checksummed_by old self.old payload + self.old.checksum)) }
    {
        let change = pseudo_header.replace_2bytes(
            self.destination_port.to_be_bytes(),
            port.to_be_bytes(),
        );
        self.destination_port = port;
        self.checksum = change.apply(self.checksum);
    }
}
