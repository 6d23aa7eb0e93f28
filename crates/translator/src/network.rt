ghost use Rattle.std.specs.Prelude.{◌≡◌, ◌≢◌, IfNone, IfSome, bit_and};
ghost use Rattle.translator.specs.Merging.{overlap};
ghost use Rattle.translator.specs.Replacements.{HasHostBits, host_mask, in_network, is_in};

/// A network: all addresses of one IP version that begin with the same prefix. An address is a number of 32 or 128 bits.
#[derive(Clone, Copy, Debug, PartialEq, Eq)]
pub struct Network {
    /// The address of the network whose bits after the prefix are 0.
    pub first: u128,
    /// The number whose bits after the prefix are 1, and whose other bits are 0.
    pub host_mask: u128,
}

impl Network {
    /// The network of all addresses that differ from this address only in the last `host_bits` bits. `None` if one of these bits is 1 in
    /// the address.
    pub fn new(address: u128, host_bits: u32) -> Option<Network>
        ensures accepted { IfSome result (HasHostBits address host_bits) }
        ensures refused { IfNone result (bit_and address (host_mask host_bits) ≢ 0) }
    {
        let host_mask = match 2u128.checked_pow(host_bits) {
            Some(count) => count.saturating_sub(1),
            None => u128::MAX,
        };
        if address & host_mask != 0 {
            return None;
        }
        Some(Network {
            first: address,
            host_mask,
        })
    }

    /// Whether the network contains this address.
    pub fn contains(&self, address: u128) -> bool
        ensures { result ≡ is_in self.now address }
    {
        address | self.host_mask == self.first | self.host_mask
    }

    /// Whether the networks have an address in common: their first addresses agree in every bit that is a host bit of neither network.
    pub fn overlaps(&self, other: &Network) -> bool
        ensures { result ≡ overlap self.now other.now }
    {
        let host_mask = self.host_mask | other.host_mask;
        self.first | host_mask == other.first | host_mask
    }

    /// The address in this network that has the host bits of the given address.
    pub fn with_host_of(&self, address: u128) -> u128
        ensures { result ≡ in_network self.now address }
    {
        self.first | address & self.host_mask
    }
}
