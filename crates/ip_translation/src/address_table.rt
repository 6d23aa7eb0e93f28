ghost use Rattle.std.specs.Prelude.{◌≡◌, [], IfOk, IfSome, None, Some, length};
ghost use Rattle.ip_translation.specs.declared.prefix64.Prefix64.TheVariants.{Bits96};
ghost use Rattle.std.specs.Int.{from_be_bytes, to_be_bytes, w128, w32};
ghost use Rattle.net_base.specs.Refusals.{RefusesExactly};
ghost use Rattle.ip_translation.specs.AddressMappings as specs;
ghost use Rattle.ip_translation.specs.AddressTables as tables;

use crate::{AddressError, AddressMapping, Prefix64};

/// How addresses are translated: by the explicit mapping with the longest prefix, or by a prefix if no mapping applies (RFC 7757, section
/// 3.3).
///
/// An IPv4 address is compared with the IPv4 prefixes of the mappings, and an IPv6 address with the IPv6 prefixes. If several mappings have
/// the same prefix, the first mapping applies.
#[derive(Clone, Copy, Debug, PartialEq, Eq)]
pub struct AddressTable<'a> {
    /// The explicit mappings, in any order.
    pub mappings: &'a [AddressMapping],
    /// The prefix for all addresses without a mapping.
    pub prefix: Prefix64,
}

impl<'a> AddressTable<'a> {
    /// The IPv6 address for an IPv4 address.
    #[inline(always)]
    pub fn embed(&self, ipv4: [u8; 4]) -> [u8; 16]
        ensures embedded { result ≡ tables.embedded self.now ipv4 }
        // If there are no mappings, this is true for every address.
        ensures extracted { tables.ComesBack self.now ipv4 → tables.extracted self.now result ≡ ipv4 }
    {
        match self.mapping_of_ipv4(ipv4) {
            Some(mapping) => mapping.to_ipv6(u32::from_be_bytes(ipv4)).to_be_bytes(),
            None => self.prefix.embed(ipv4),
        }
    }

    /// The IPv4 address for an IPv6 address. If no mapping applies, these are the bits after the prefix, even if the address does not begin
    /// with the prefix.
    #[inline(always)]
    pub(crate) fn ipv4_of(&self, address: &[u8; 16]) -> [u8; 4]
        ensures ipv4 { result ≡ tables.extracted self.now address.now }
    {
        match self.mapping_of_ipv6(address) {
            Some(mapping) => mapping.to_ipv4(u128::from_be_bytes(*address)).to_be_bytes(),
            None => self.prefix.ipv4_after(address),
        }
    }

    /// Translates an address of an IPv4 packet to IPv6, as `embed` does.
    ///
    /// # Errors
    ///
    /// The error of `Prefix64::to_ipv6`, if no mapping applies. An address with a mapping is never refused.
    #[inline(always)]
    pub fn to_ipv6(&self, ipv4: [u8; 4]) -> Result<[u8; 16], AddressError>
        ensures refused { RefusesExactly result (tables.to_ipv6_refusal self.now ipv4) }
        ensures embedded { IfOk result (λ address. address ≡ tables.embedded self.now ipv4) }
    {
        let mut address = [0; 16];
        self.write_ipv6(ipv4, &mut address)?;
        Ok(address)
    }

    /// Writes the IPv6 address that `to_ipv6` returns. An address in a `Result` would be put together octet by octet.
    #[inline(always)]
    pub(crate) fn write_ipv6(
        &self,
        ipv4: [u8; 4],
        address: &mut [u8; 16],
    ) -> Result<(), AddressError>
        ensures refused { RefusesExactly result (tables.to_ipv6_refusal self.now ipv4) }
        ensures written { IfOk result (λ _. address.new ≡ tables.embedded self.now ipv4) }
    {
        match self.mapping_of_ipv4(ipv4) {
            Some(mapping) => {
                write_mapped(mapping, ipv4, address);
                Ok(())
            }
            None => self.prefix.write_ipv6(ipv4, address),
        }
    }

    /// Refuses an IPv4 address that `to_ipv6` refuses.
    #[inline(always)]
    pub(crate) fn check_ipv4(&self, ipv4: [u8; 4]) -> Result<(), AddressError>
        ensures { RefusesExactly result (tables.to_ipv6_refusal self.now ipv4) }
    {
        match self.mapping_of_ipv4(ipv4) {
            Some(_) => Ok(()),
            None => self.prefix.check_ipv4(ipv4),
        }
    }

    /// Writes the IPv6 address that `embed` returns.
    #[inline(always)]
    pub(crate) fn write_embedded(&self, ipv4: [u8; 4], place: &mut [u8])
        requires { length place.old ≡ 16 }
        ensures { place.new ≡ tables.embedded self.now ipv4 }
    {
        if let Some(address) = place.first_chunk_mut::<16>() {
            match self.mapping_of_ipv4(ipv4) {
                Some(mapping) => write_mapped(mapping, ipv4, address),
                None => self.prefix.write(ipv4, address),
            }
        }
    }

    /// Translates an address of an IPv6 packet to IPv4.
    ///
    /// # Errors
    ///
    /// The error of `Prefix64::to_ipv4`, if no mapping applies. An address with a mapping is never refused.
    #[inline(always)]
    pub fn to_ipv4(&self, address: &[u8; 16]) -> Result<[u8; 4], AddressError>
        ensures refused { RefusesExactly result (tables.to_ipv4_refusal self.now address.now) }
        ensures extracted { IfOk result (λ ipv4. ipv4 ≡ tables.extracted self.now address.now) }
    {
        let mut ipv4 = [0; 4];
        self.write_ipv4(address, &mut ipv4)?;
        Ok(ipv4)
    }

    /// Writes the IPv4 address that `to_ipv4` returns.
    #[inline(always)]
    pub(crate) fn write_ipv4(
        &self,
        address: &[u8; 16],
        ipv4: &mut [u8; 4],
    ) -> Result<(), AddressError>
        ensures refused { RefusesExactly result (tables.to_ipv4_refusal self.now address.now) }
        ensures written { IfOk result (λ _. ipv4.new ≡ tables.extracted self.now address.now) }
    {
        match self.mapping_of_ipv6(address) {
            Some(mapping) => {
                *ipv4 = mapping.to_ipv4(u128::from_be_bytes(*address)).to_be_bytes();
                Ok(())
            }
            None => self.prefix.write_ipv4(address, ipv4),
        }
    }

    /// Whether addresses are translated by a prefix of 96 bits that is not the well-known prefix.
    #[inline(always)]
    pub(crate) fn is_plain(&self) -> bool {
        self.mappings.is_empty() && self.prefix.is_plain()
    }

    /// The octets of the prefix, if addresses are translated by a prefix of 96 bits.
    #[inline(always)]
    pub(crate) fn octets_of_96(&self) -> Option<&[u8; 11]>
        ensures { IfSome result (λ start. (self.now.mappings.now ≡ []) × (self.now.prefix ≡ Bits96 start.now)) }
    {
        if !self.mappings.is_empty() {
            return None;
        }
        self.prefix.octets_of_96()
    }

    /// The mapping of an IPv4 address.
    #[inline(always)]
    fn mapping_of_ipv4(&self, ipv4: [u8; 4]) -> Option<AddressMapping>
        ensures { result ≡ tables.mapping_of_ipv4 self.now ipv4 }
    {
        if self.mappings.is_empty() {
            return None;
        }
        longest_ipv4(self.mappings, u32::from_be_bytes(ipv4))
    }

    /// The mapping of an IPv6 address.
    #[inline(always)]
    fn mapping_of_ipv6(&self, address: &[u8; 16]) -> Option<AddressMapping>
        ensures { result ≡ tables.mapping_of_ipv6 self.now address.now }
    {
        // A number of 128 bits is made only for mappings, since this is slow.
        if self.mappings.is_empty() {
            return None;
        }
        longest_ipv6(self.mappings, u128::from_be_bytes(*address))
    }
}

/// Writes the IPv6 address for this IPv4 address, by its mapping.
// perf: in a function of its own, so that the compiler does not split the address for a prefix into octets.
#[inline(never)]
fn write_mapped(mapping: AddressMapping, ipv4: [u8; 4], address: &mut [u8; 16])
    ensures { address.new ≡ to_be_bytes w128 (specs.mapped_to_ipv6 mapping (from_be_bytes w32 ipv4)) }
{
    *address = mapping.to_ipv6(u32::from_be_bytes(ipv4)).to_be_bytes();
}

/// The mapping with the longest IPv4 prefix that the IPv4 address with this number begins with.
#[inline(never)]
fn longest_ipv4(mappings: &[AddressMapping], address: u32) -> Option<AddressMapping>
    ensures { result ≡ specs.longest_ipv4 mappings.now address }
{
    let mut found = None;
    let mut left = mappings;
    while let [first, rest @ ..] = left {
        found = first.better_ipv4(found, address);
        left = rest;
    }
    found
}

/// The mapping with the longest IPv6 prefix that the IPv6 address with this number begins with.
#[inline(never)]
fn longest_ipv6(mappings: &[AddressMapping], address: u128) -> Option<AddressMapping>
    ensures { result ≡ specs.longest_ipv6 mappings.now address }
{
    let mut found = None;
    let mut left = mappings;
    while let [first, rest @ ..] = left {
        found = first.better_ipv6(found, address);
        left = rest;
    }
    found
}
