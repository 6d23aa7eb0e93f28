ghost use Rattle.std.specs.Prelude.{◌≡◌, ◌≤◌, ◌<◌, ◌-◌, ◌*◌, ◌/◌, ◌%◌, ◌^◌, ℕ};

use crate::AddressMappingError;

/// An explicit address mapping: an IPv4 prefix and an IPv6 prefix (RFC 7757, section 3).
///
/// An address that begins with one of the prefixes is translated to the address that begins with the other prefix and has the same suffix.
#[derive(Clone, Copy, Debug, PartialEq, Eq, Hash)]
pub struct AddressMapping {
    /// The bits of the IPv4 prefix, as a number.
    ipv4: u32,
    /// The length of the IPv4 prefix in bits.
    ipv4_len: u32,
    /// The bits of the IPv6 prefix, as a number.
    ipv6: u128,
    /// The length of the IPv6 prefix in bits.
    ipv6_len: u32,
    ghost ipv4_counted: { ipv4_len ≤ 32 },
    ghost ipv6_counted: { ipv6_len ≤ 128 },
    ghost suffix_fits: { 32 - ipv4_len ≤ 128 - ipv6_len },
    ghost ipv4_fits: { ipv4 < 2 ^ ipv4_len },
    ghost ipv6_fits: { ipv6 < 2 ^ ipv6_len },
}

impl AddressMapping {
    ghost use Rattle.std.specs.Prelude.{IfOk};
    ghost use Rattle.std.specs.Int.{from_be_bytes, w32, w128};
    ghost use Rattle.net_base.specs.Refusals.{RefusesExactly};
    ghost use Rattle.ip_translation.specs.AddressMappings as specs;

    /// Returns the mapping of these two prefixes. Each address must begin with its prefix, and all its other bits must be 0.
    ///
    /// # Errors
    ///
    /// The call checks these cases, in this order:
    /// - `Ipv4Len` if the length of the IPv4 prefix is above 32, and `Ipv6Len` if the length of the IPv6 prefix is above 128.
    /// - `Suffix` if fewer bits follow the IPv6 prefix than the IPv4 prefix (RFC 7757, section 3).
    /// - `Ipv4Bits` or `Ipv6Bits` if a bit after this prefix is not 0.
    pub fn new(
        ipv4: [u8; 4],
        ipv4_len: u8,
        ipv6: [u8; 16],
        ipv6_len: u8,
    ) -> Result<AddressMapping, AddressMappingError>
        ensures refused { RefusesExactly result (specs.mapping_refusal ipv4 ipv4_len ipv6 ipv6_len) }
        ensures ipv4 { IfOk result (λ mapping. mapping.ipv4 ≡ from_be_bytes w32 ipv4 / 2 ^ (32 - ipv4_len)) }
        ensures ipv4_len { IfOk result (λ mapping. mapping.ipv4_len ≡ ipv4_len) }
        ensures ipv6 { IfOk result (λ mapping. mapping.ipv6 ≡ from_be_bytes w128 ipv6 / 2 ^ (128 - ipv6_len)) }
        ensures ipv6_len { IfOk result (λ mapping. mapping.ipv6_len ≡ ipv6_len) }
    {
        let ipv4_number = u128::from(u32::from_be_bytes(ipv4));
        let ipv6_number = u128::from_be_bytes(ipv6);
        if ipv4_len > 32 {
            return Err(AddressMappingError::Ipv4Len(ipv4_len));
        }
        if ipv6_len > 128 {
            return Err(AddressMappingError::Ipv6Len(ipv6_len));
        }
        let ipv4_suffix_len = 32 - u32::from(ipv4_len);
        let ipv6_suffix_len = 128 - u32::from(ipv6_len);
        if ipv6_suffix_len < ipv4_suffix_len {
            return Err(AddressMappingError::Suffix);
        }
        if low_bits(ipv4_number, ipv4_suffix_len) != 0 {
            return Err(AddressMappingError::Ipv4Bits);
        }
        if low_bits(ipv6_number, ipv6_suffix_len) != 0 {
            return Err(AddressMappingError::Ipv6Bits);
        }
        Ok(AddressMapping {
            ipv4: high_bits(ipv4_number, ipv4_suffix_len) as u32,
            ipv4_len: u32::from(ipv4_len),
            ipv6: high_bits(ipv6_number, ipv6_suffix_len),
            ipv6_len: u32::from(ipv6_len),
        })
    }

    /// Whether the IPv4 address with this number begins with the IPv4 prefix.
    fn is_ipv4_of(&self, address: u32) -> bool
        ensures { result ≡ specs.is_ipv4_of address self.now }
    {
        high_bits(u128::from(address), 32 - self.ipv4_len) == u128::from(self.ipv4)
    }

    /// Whether the IPv6 address with this number begins with the IPv6 prefix.
    fn is_ipv6_of(&self, address: u128) -> bool
        ensures { result ≡ specs.is_ipv6_of address self.now }
    {
        high_bits(address, 128 - self.ipv6_len) == self.ipv6
    }

    /// This mapping, if the IPv4 address begins with its IPv4 prefix, and if this prefix is longer than the prefix of `found`. Otherwise
    /// `found`.
    pub(crate) fn better_ipv4(
        &self,
        found: Option<AddressMapping>,
        address: u32,
    ) -> Option<AddressMapping>
        ensures { result ≡ specs.better_of (specs.is_ipv4_of address) specs.ipv4_len found self.now }
    {
        match found {
            Some(other) if !(self.is_ipv4_of(address) && other.ipv4_len < self.ipv4_len) => Some(
                other,
            ),
            None if !self.is_ipv4_of(address) => None,
            _ => Some(*self),
        }
    }

    /// This mapping, if the IPv6 address begins with its IPv6 prefix, and if this prefix is longer than the prefix of `found`. Otherwise
    /// `found`.
    pub(crate) fn better_ipv6(
        &self,
        found: Option<AddressMapping>,
        address: u128,
    ) -> Option<AddressMapping>
        ensures { result ≡ specs.better_of (specs.is_ipv6_of address) specs.ipv6_len found self.now }
    {
        match found {
            Some(other) if !(self.is_ipv6_of(address) && other.ipv6_len < self.ipv6_len) => Some(
                other,
            ),
            None if !self.is_ipv6_of(address) => None,
            _ => Some(*self),
        }
    }

    /// How many bits longer the IPv6 suffix is than the IPv4 suffix.
    fn ignored_len(&self) -> u32
        ensures { result ≡ specs.ignored_len self.now }
    {
        (128 - self.ipv6_len) - (32 - self.ipv4_len)
    }

    /// The IPv6 address for an IPv4 address that begins with the IPv4 prefix (RFC 7757, section 3.3.1).
    pub(crate) fn to_ipv6(&self, address: u32) -> u128
        ensures { result ≡ specs.mapped_to_ipv6 self.now address }
    {
        let suffix_len = 32 - self.ipv4_len;
        let suffix = low_bits(u128::from(address), suffix_len);
        with_zeros(
            with_zeros(self.ipv6, suffix_len) + suffix,
            self.ignored_len(),
        )
    }

    /// The IPv4 address for an IPv6 address that begins with the IPv6 prefix (RFC 7757, section 3.3.2).
    pub(crate) fn to_ipv4(&self, address: u128) -> u32
        ensures { result ≡ specs.mapped_to_ipv4 self.now address }
    {
        let suffix_len = 32 - self.ipv4_len;
        let suffix = low_bits(high_bits(address, self.ignored_len()), suffix_len);
        (with_zeros(u128::from(self.ipv4), suffix_len) + suffix) as u32
    }
}

/// The bits of a number, without the last `len` bits.
fn high_bits(number: u128, len: u32) -> u128
    ensures { result ≡ number / 2 ^ len }
{
    match number.checked_shr(len) {
        Some(bits) => bits,
        None => 0,
    }
}

/// The last `len` bits of a number.
fn low_bits(number: u128, len: u32) -> u128
    ensures { result ≡ number % 2 ^ len }
{
    // A remainder of 128 bits would need a function of the compiler's library.
    number - with_zeros(high_bits(number, len), len)
}

/// A number with `len` more bits at its end, which are 0.
fn with_zeros(number: u128, len: u32) -> u128
    requires { number * 2 ^ len < 2 ^ 128 }
    ensures { result ≡ number * 2 ^ len }
{
    match 2u128.checked_pow(len) {
        Some(count) => number * count,
        None => 0,
    }
}
