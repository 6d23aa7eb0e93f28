ghost use Rattle.std.specs.Prelude.{◌≡◌, ◌≢◌, ◌+◌, ◌↔◌, List, ℕ, length};
ghost use Rattle.word_sum.specs.Checksum.{IsAllOnes, udp_checksum_of};
ghost use Rattle.word_sum.specs.ChecksumChange.{TurnsInto};

use crate::UdpHeader;
use word_sum::checksum_change::ChecksumChange;

/// Changes of a UDP header by an address translator (RFC 3022, section 4). A call replaces a port, and updates the checksum, which also
/// covers the addresses. The call does not need the payload.
impl UdpHeader {
    ghost use Rattle.udp_part.specs.UdpFormat.{checksummed, checksummed_ipv4, checksummed_ipv6};

    /// Replaces the source of a packet over IPv4. The call stores the port `port`, and updates the checksum from the old and the new port
    /// and address. It does not change the IP header, which contains the address and a checksum of its own. A UDP checksum of 0 means that
    /// there is none, and it stays 0.
    ///
    /// In a fragmented packet only the first fragment contains the header. The checksum in the header covers all fragments (RFC 791).
    pub fn translate_source_ipv4(&mut self, old: [u8; 4], new: [u8; 4], port: u16)
        ensures unchanged { self.new ≡ record self.old { source_port = port; checksum = self.new.checksum } }
        ensures none { (self.new.checksum ≡ 0) ↔ (self.old.checksum ≡ 0) }
        // A right checksum becomes the right checksum of the new header, and a wrong checksum stays wrong.
        ensures updated { (destination payload : List ℕ) → length destination ≡ 4 →
            (self.new.checksum ≡ udp_checksum_of (checksummed_ipv4 new destination self.new payload))
            ↔ (self.old.checksum ≡ udp_checksum_of (checksummed_ipv4 old destination self.old payload)) }
        // For any checksum other than 0, a receiver accepts the new packet exactly if it accepts the old packet.
        ensures verifies { (destination payload : List ℕ) → length destination ≡ 4 → self.old.checksum ≢ 0 →
            (IsAllOnes (checksummed_ipv4 new destination self.new payload + self.new.checksum))
            ↔ (IsAllOnes (checksummed_ipv4 old destination self.old payload + self.old.checksum)) }
    {
        self.replace_source_port(ChecksumChange::new().replace_4bytes(old, new), port);
    }

    /// Replaces the destination of a packet over IPv4, as `translate_source_ipv4` replaces the source.
    ///
    /// In a fragmented packet only the first fragment contains the header. The checksum in the header covers all fragments (RFC 791).
    pub fn translate_destination_ipv4(&mut self, old: [u8; 4], new: [u8; 4], port: u16)
        ensures unchanged { self.new ≡ record self.old { destination_port = port; checksum = self.new.checksum } }
        ensures none { (self.new.checksum ≡ 0) ↔ (self.old.checksum ≡ 0) }
        // A right checksum becomes the right checksum of the new header, and a wrong checksum stays wrong.
        ensures updated { (source payload : List ℕ) → length source ≡ 4 →
            (self.new.checksum ≡ udp_checksum_of (checksummed_ipv4 source new self.new payload))
            ↔ (self.old.checksum ≡ udp_checksum_of (checksummed_ipv4 source old self.old payload)) }
        // For any checksum other than 0, a receiver accepts the new packet exactly if it accepts the old packet.
        ensures verifies { (source payload : List ℕ) → length source ≡ 4 → self.old.checksum ≢ 0 →
            (IsAllOnes (checksummed_ipv4 source new self.new payload + self.new.checksum))
            ↔ (IsAllOnes (checksummed_ipv4 source old self.old payload + self.old.checksum)) }
    {
        self.replace_destination_port(ChecksumChange::new().replace_4bytes(old, new), port);
    }

    /// Replaces the source of a packet over IPv6, as `translate_source_ipv4` replaces the source over IPv4.
    ///
    /// In a fragmented packet only the first fragment contains the header. The checksum in the header covers all fragments (RFC 8200,
    /// section 4.5).
    pub fn translate_source_ipv6(&mut self, old: [u8; 16], new: [u8; 16], port: u16)
        ensures unchanged { self.new ≡ record self.old { source_port = port; checksum = self.new.checksum } }
        ensures none { (self.new.checksum ≡ 0) ↔ (self.old.checksum ≡ 0) }
        // A right checksum becomes the right checksum of the new header, and a wrong checksum stays wrong.
        ensures updated { (destination payload : List ℕ) → length destination ≡ 16 →
            (self.new.checksum ≡ udp_checksum_of (checksummed_ipv6 new destination self.new payload))
            ↔ (self.old.checksum ≡ udp_checksum_of (checksummed_ipv6 old destination self.old payload)) }
        // For any checksum other than 0, a receiver accepts the new packet exactly if it accepts the old packet.
        ensures verifies { (destination payload : List ℕ) → length destination ≡ 16 → self.old.checksum ≢ 0 →
            (IsAllOnes (checksummed_ipv6 new destination self.new payload + self.new.checksum))
            ↔ (IsAllOnes (checksummed_ipv6 old destination self.old payload + self.old.checksum)) }
    {
        self.replace_source_port(ChecksumChange::new().replace_16bytes(old, new), port);
    }

    /// Replaces the destination of a packet over IPv6, as `translate_source_ipv4` replaces the source over IPv4. If the packet has a
    /// routing header, the checksum covers the final destination (RFC 8200, section 8.1).
    ///
    /// In a fragmented packet only the first fragment contains the header. The checksum in the header covers all fragments (RFC 8200,
    /// section 4.5).
    pub fn translate_destination_ipv6(&mut self, old: [u8; 16], new: [u8; 16], port: u16)
        ensures unchanged { self.new ≡ record self.old { destination_port = port; checksum = self.new.checksum } }
        ensures none { (self.new.checksum ≡ 0) ↔ (self.old.checksum ≡ 0) }
        // A right checksum becomes the right checksum of the new header, and a wrong checksum stays wrong.
        ensures updated { (source payload : List ℕ) → length source ≡ 16 →
            (self.new.checksum ≡ udp_checksum_of (checksummed_ipv6 source new self.new payload))
            ↔ (self.old.checksum ≡ udp_checksum_of (checksummed_ipv6 source old self.old payload)) }
        // For any checksum other than 0, a receiver accepts the new packet exactly if it accepts the old packet.
        ensures verifies { (source payload : List ℕ) → length source ≡ 16 → self.old.checksum ≢ 0 →
            (IsAllOnes (checksummed_ipv6 source new self.new payload + self.new.checksum))
            ↔ (IsAllOnes (checksummed_ipv6 source old self.old payload + self.old.checksum)) }
    {
        self.replace_destination_port(ChecksumChange::new().replace_16bytes(old, new), port);
    }

    /// Replaces the source port. Updates the checksum from the port and from this change of the pseudo header.
    fn replace_source_port(&mut self, pseudo_header: ChecksumChange, port: u16)
        ensures unchanged { self.new ≡ record self.old { source_port = port; checksum = self.new.checksum } }
        ensures none { (self.new.checksum ≡ 0) ↔ (self.old.checksum ≡ 0) }
        // A right checksum becomes the right checksum of the new header, and a wrong checksum stays wrong. `old` and `new` return the
        // pseudo header for the length field.
        ensures updated { (old new : ℕ → List ℕ) (payload : List ℕ) →
            TurnsInto pseudo_header (checksummed (old self.old.length) self.old payload) (checksummed (new self.old.length) self.old payload) →
            (self.new.checksum ≡ udp_checksum_of (checksummed (new self.new.length) self.new payload))
            ↔ (self.old.checksum ≡ udp_checksum_of (checksummed (old self.old.length) self.old payload)) }
        ensures verifies { (old new : ℕ → List ℕ) (payload : List ℕ) →
            TurnsInto pseudo_header (checksummed (old self.old.length) self.old payload) (checksummed (new self.old.length) self.old payload) →
            self.old.checksum ≢ 0 →
            (IsAllOnes (checksummed (new self.new.length) self.new payload + self.new.checksum))
            ↔ (IsAllOnes (checksummed (old self.old.length) self.old payload + self.old.checksum)) }
    {
        let change = pseudo_header.replace_2bytes(
            self.source_port.to_be_bytes(),
            port.to_be_bytes(),
        );
        self.source_port = port;
        self.checksum = change.apply_udp(self.checksum);
    }

    /// Replaces the destination port. Updates the checksum from the port and from this change of the pseudo header.
    fn replace_destination_port(&mut self, pseudo_header: ChecksumChange, port: u16)
        ensures unchanged { self.new ≡ record self.old { destination_port = port; checksum = self.new.checksum } }
        ensures none { (self.new.checksum ≡ 0) ↔ (self.old.checksum ≡ 0) }
        // A right checksum becomes the right checksum of the new header, and a wrong checksum stays wrong. `old` and `new` return the
        // pseudo header for the length field.
        ensures updated { (old new : ℕ → List ℕ) (payload : List ℕ) →
            TurnsInto pseudo_header (checksummed (old self.old.length) self.old payload) (checksummed (new self.old.length) self.old payload) →
            (self.new.checksum ≡ udp_checksum_of (checksummed (new self.new.length) self.new payload))
            ↔ (self.old.checksum ≡ udp_checksum_of (checksummed (old self.old.length) self.old payload)) }
        ensures verifies { (old new : ℕ → List ℕ) (payload : List ℕ) →
            TurnsInto pseudo_header (checksummed (old self.old.length) self.old payload) (checksummed (new self.old.length) self.old payload) →
            self.old.checksum ≢ 0 →
            (IsAllOnes (checksummed (new self.new.length) self.new payload + self.new.checksum))
            ↔ (IsAllOnes (checksummed (old self.old.length) self.old payload + self.old.checksum)) }
    {
        let change = pseudo_header.replace_2bytes(
            self.destination_port.to_be_bytes(),
            port.to_be_bytes(),
        );
        self.destination_port = port;
        self.checksum = change.apply_udp(self.checksum);
    }
}
