ghost use Rattle.std.specs.Prelude.{◌≡◌, ◌≤◌, ◌↔◌, ◌∷◌, IfOk, IfSome, IsTrue, MatchOption, drop, false, length, nat_eq, replicate, slice_index, take, true};
ghost use Rattle.std.specs.Cmp.Lexicographic.{pointwise};
ghost use Rattle.std.specs.Int.{from_be_bytes, w32, w64};
ghost use Rattle.net_base.specs.Refusals.{RefusesExactly};
ghost use Rattle.ip_translation.specs.Prefixes as specs;
ghost use Rattle.ip_translation.specs.declared.prefix64.Prefix64.TheVariants.{Bits96};

use crate::address_change::address_at;
use crate::{AddressError, Prefix64Error};

/// A prefix of IPv6 addresses that contain an IPv4 address (RFC 6052, section 2.2).
///
/// Octet 8 of these addresses (bits 64 to 71) is reserved and is 0. The variants do not contain it.
#[derive(Clone, Copy, Debug, PartialEq, Eq, Hash)]
pub enum Prefix64 {
    /// 32 bits: octets 0 to 3.
    Bits32([u8; 4]),
    /// 40 bits: octets 0 to 4.
    Bits40([u8; 5]),
    /// 48 bits: octets 0 to 5.
    Bits48([u8; 6]),
    /// 56 bits: octets 0 to 6.
    Bits56([u8; 7]),
    /// 64 bits: octets 0 to 7.
    Bits64([u8; 8]),
    /// 96 bits: octets 0 to 7, and octets 9 to 11.
    Bits96([u8; 11]),
}

impl Prefix64 {
    /// The well-known prefix, 64:ff9b::/96 (RFC 6052, section 2.1).
    pub const WELL_KNOWN: Prefix64 = Prefix64::Bits96(WELL_KNOWN_OCTETS);

    /// Returns the prefix with this length in bits. `address` must begin with the prefix, and all its other bits must be 0.
    ///
    /// # Errors
    ///
    /// The call checks these cases, in this order:
    /// - `Len` if the length is not 32, 40, 48, 56, 64 or 96.
    /// - `ReservedOctet` if bits 64 to 71 are not all 0 (RFC 6052, section 2.2).
    /// - `SuffixBits` if a bit after the prefix is not 0.
    #[inline(always)]
    pub fn new(address: [u8; 16], len: u8) -> Result<Prefix64, Prefix64Error>
        ensures refused { RefusesExactly result (specs.prefix_refusal address len) }
        ensures kept { IfOk result (λ prefix. specs.prefix_address prefix ≡ address) }
        ensures len { IfOk result (λ prefix. specs.prefix_len prefix ≡ len) }
    {
        if len == 96 && address[RESERVED_AT] == 0 && is_zero(last_four(&address)) {
            return Ok(Prefix64::Bits96(front_96(&address)));
        }
        Prefix64::checked(address, len)
    }

    /// The prefix with this length, or the error, as `new` returns it. It is a function of its own, so that the code for a prefix of 96 bits
    /// is not mixed with it.
    #[inline(never)]
    fn checked(address: [u8; 16], len: u8) -> Result<Prefix64, Prefix64Error>
        ensures refused { RefusesExactly result (specs.prefix_refusal address len) }
        ensures kept { IfOk result (λ prefix. specs.prefix_address prefix ≡ address) }
        ensures len { IfOk result (λ prefix. specs.prefix_len prefix ≡ len) }
    {
        let Some(prefix) = prefix_of(&address, len) else {
            return Err(Prefix64Error::Len(len));
        };
        if address[RESERVED_AT] != 0 {
            return Err(Prefix64Error::ReservedOctet);
        }
        if prefix.address() != address {
            return Err(Prefix64Error::SuffixBits);
        }
        Ok(prefix)
    }

    /// The length of the prefix in bits: 32, 40, 48, 56, 64 or 96.
    pub fn len(&self) -> u8
        ensures { result ≡ specs.prefix_len self.now }
    {
        match self {
            Prefix64::Bits32(_) => 32,
            Prefix64::Bits40(_) => 40,
            Prefix64::Bits48(_) => 48,
            Prefix64::Bits56(_) => 56,
            Prefix64::Bits64(_) => 64,
            Prefix64::Bits96(_) => 96,
        }
    }

    /// The address that begins with the prefix, and whose other bits are 0.
    pub fn address(&self) -> [u8; 16]
        ensures { result ≡ specs.prefix_address self.now }
    {
        self.embed([0; 4])
    }

    /// The IPv6 address that contains an IPv4 address: the prefix, the address, and a suffix of zeros (RFC 6052, section 2.3).
    #[inline(always)]
    pub fn embed(&self, ipv4: [u8; 4]) -> [u8; 16]
        ensures embedded { result ≡ specs.embedded self.now ipv4 }
        // If `extract` is called with the result, it returns the same IPv4 address.
        ensures is_embedded { specs.is_embedded self.now result ≡ true }
        ensures extracted { specs.extracted self.now result ≡ ipv4 }
    {
        self.join(ipv4)
    }

    /// The IPv6 address that consists of the prefix, this IPv4 address and a suffix of zeros. The reserved octet is 0.
    #[inline(always)]
    fn join(&self, ipv4: [u8; 4]) -> [u8; 16]
        ensures joined { result ≡ specs.embedded self.now ipv4 }
        ensures len { length (specs.octets self.now) ≡ specs.octet_count self.now }
    {
        match self {
            Prefix64::Bits96(start) => join_96(start, ipv4),
            _ => self.join_any(ipv4),
        }
    }

    /// The same address, for a prefix of any length. It is a function of its own, so that the code for 96 bits is not mixed with it.
    #[inline(never)]
    fn join_any(&self, ipv4: [u8; 4]) -> [u8; 16]
        ensures joined { result ≡ specs.embedded self.now ipv4 }
        ensures len { length (specs.octets self.now) ≡ specs.octet_count self.now }
    {
        let [w, x, y, z] = ipv4;
        match self {
            Prefix64::Bits32(start) => {
                let [a, b, c, d] = *start;
                [a, b, c, d, w, x, y, z, 0, 0, 0, 0, 0, 0, 0, 0]
            }
            Prefix64::Bits40(start) => {
                let [a, b, c, d, e] = *start;
                [a, b, c, d, e, w, x, y, 0, z, 0, 0, 0, 0, 0, 0]
            }
            Prefix64::Bits48(start) => {
                let [a, b, c, d, e, f] = *start;
                [a, b, c, d, e, f, w, x, 0, y, z, 0, 0, 0, 0, 0]
            }
            Prefix64::Bits56(start) => {
                let [a, b, c, d, e, f, g] = *start;
                [a, b, c, d, e, f, g, w, 0, x, y, z, 0, 0, 0, 0]
            }
            Prefix64::Bits64(start) => {
                let [a, b, c, d, e, f, g, h] = *start;
                [a, b, c, d, e, f, g, h, 0, w, x, y, z, 0, 0, 0]
            }
            Prefix64::Bits96(start) => join_96(start, ipv4),
        }
    }

    /// The IPv4 address in an IPv6 address (RFC 6052, section 2.3). `None` if the IPv6 address does not begin with the prefix, or if bits
    /// 64 to 71 are not 0, as section 2.2 requires. Any suffix is allowed, since a translator ignores it (section 2.2).
    #[inline(always)]
    pub fn extract(&self, address: &[u8; 16]) -> Option<[u8; 4]>
        ensures extracted { MatchOption result (specs.is_embedded self.now address.now ≡ false)
            (λ ipv4. (specs.is_embedded self.now address.now ≡ true) × (ipv4 ≡ specs.extracted self.now address.now)) }
        // If `embed` is called with the result, it returns the same IPv6 address, but with a suffix of zeros.
        ensures embedded { IfSome result (λ ipv4. specs.embedded self.now ipv4 ≡ specs.with_zero_suffix self.now address.now) }
    {
        let is_prefix = self.is_front_of(address);
        if address[RESERVED_AT] == 0 && is_prefix {
            Some(self.ipv4_after(address))
        } else {
            None
        }
    }

    /// Translates an address of an IPv4 packet to IPv6, as `embed` does.
    ///
    /// # Errors
    ///
    /// `NotGlobal` if the prefix is the well-known prefix, and the address is not global (RFC 6052, section 3.1).
    #[inline(always)]
    pub fn to_ipv6(&self, ipv4: [u8; 4]) -> Result<[u8; 16], AddressError>
        ensures refused { RefusesExactly result (specs.to_ipv6_refusal self.now ipv4) }
        ensures embedded { IfOk result (λ address. address ≡ specs.embedded self.now ipv4) }
    {
        let mut address = [0; 16];
        self.write_ipv6(ipv4, &mut address)?;
        Ok(address)
    }

    /// Writes the IPv6 address that `to_ipv6` returns.
    #[inline(always)]
    pub(crate) fn write_ipv6(
        &self,
        ipv4: [u8; 4],
        address: &mut [u8; 16],
    ) -> Result<(), AddressError>
        ensures refused { RefusesExactly result (specs.to_ipv6_refusal self.now ipv4) }
        ensures written { IfOk result (λ _. address.new ≡ specs.embedded self.now ipv4) }
    {
        if self.is_excluded(ipv4) {
            return Err(AddressError::NotGlobal);
        }
        self.write(ipv4, address);
        Ok(())
    }

    /// Refuses an IPv4 address that `to_ipv6` refuses.
    #[inline(always)]
    pub(crate) fn check_ipv4(&self, ipv4: [u8; 4]) -> Result<(), AddressError>
        ensures refused { RefusesExactly result (specs.to_ipv6_refusal self.now ipv4) }
    {
        if self.is_excluded(ipv4) {
            return Err(AddressError::NotGlobal);
        }
        Ok(())
    }

    /// Writes the IPv6 address that `embed` returns.
    #[inline(always)]
    pub(crate) fn write(&self, ipv4: [u8; 4], address: &mut [u8; 16])
        ensures written { address.new ≡ specs.embedded self.now ipv4 }
    {
        match self {
            Prefix64::Bits96(start) => write_96(start, ipv4, address),
            _ => *address = self.join_any(ipv4),
        }
    }

    /// Translates an address of an IPv6 packet to IPv4, as `extract` does.
    ///
    /// # Errors
    ///
    /// The call checks these cases, in this order:
    /// - `NotEmbedded` if `extract` returns `None`.
    /// - `NotGlobal` if the prefix is the well-known prefix, and the IPv4 address is not global (RFC 6052, section 3.1).
    #[inline(always)]
    pub fn to_ipv4(&self, address: &[u8; 16]) -> Result<[u8; 4], AddressError>
        ensures refused { RefusesExactly result (specs.to_ipv4_refusal self.now address.now) }
        ensures extracted { IfOk result (λ ipv4. ipv4 ≡ specs.extracted self.now address.now) }
    {
        let mut ipv4 = [0; 4];
        self.write_ipv4(address, &mut ipv4)?;
        Ok(ipv4)
    }

    /// Writes the IPv4 address that `to_ipv4` returns.
    #[inline(always)]
    pub(crate) fn write_ipv4(
        &self,
        address: &[u8; 16],
        ipv4: &mut [u8; 4],
    ) -> Result<(), AddressError>
        ensures refused { RefusesExactly result (specs.to_ipv4_refusal self.now address.now) }
        ensures written { IfOk result (λ _. ipv4.new ≡ specs.extracted self.now address.now) }
    {
        let is_prefix = self.is_front_of(address);
        if address[RESERVED_AT] != 0 || !is_prefix {
            return Err(AddressError::NotEmbedded);
        }
        *ipv4 = self.ipv4_after(address);
        if self.is_excluded(*ipv4) {
            return Err(AddressError::NotGlobal);
        }
        Ok(())
    }

    /// Whether the prefix must not embed this address, since the prefix is the well-known prefix and the address is not global.
    #[inline(always)]
    fn is_excluded(&self, ipv4: [u8; 4]) -> bool
        ensures { result ≡ specs.is_excluded self.now ipv4 }
    {
        match self {
            Prefix64::Bits96(start) => are_equal(start, &WELL_KNOWN_OCTETS) && is_not_global(ipv4),
            _ => false,
        }
    }

    /// The octets of a prefix of 96 bits.
    #[inline(always)]
    pub(crate) fn octets_of_96(&self) -> Option<&[u8; 11]>
        ensures { IfSome result (λ start. self.now ≡ Bits96 start.now) }
    {
        match self {
            Prefix64::Bits96(start) => Some(start),
            _ => None,
        }
    }

    /// Whether this is a prefix of 96 bits, and its first eight octets differ from the well-known prefix.
    #[inline(always)]
    pub(crate) fn is_plain(&self) -> bool {
        match self {
            Prefix64::Bits96(start) => numbers_of(start).0 != numbers_of(&WELL_KNOWN_OCTETS).0,
            _ => false,
        }
    }

    /// Whether an address begins with the prefix. The reserved octet of the address is skipped.
    #[inline(always)]
    fn is_front_of(&self, address: &[u8; 16]) -> bool
        ensures { result ≡ pointwise nat_eq (take (specs.octet_count self.now) (specs.without_reserved address.now)) (specs.octets self.now) }
    {
        match self {
            Prefix64::Bits96(start) => is_front_96(start, address),
            _ => self.is_any_front_of(address),
        }
    }

    /// The same test, for a prefix of any length.
    #[inline(never)]
    fn is_any_front_of(&self, address: &[u8; 16]) -> bool
        ensures { result ≡ pointwise nat_eq (take (specs.octet_count self.now) (specs.without_reserved address.now)) (specs.octets self.now) }
    {
        let [a, b, c, d, e, f, g, h, _, _, _, _, _, _, _, _] = *address;
        match self {
            Prefix64::Bits32(start) => [a, b, c, d] == *start,
            Prefix64::Bits40(start) => [a, b, c, d, e] == *start,
            Prefix64::Bits48(start) => [a, b, c, d, e, f] == *start,
            Prefix64::Bits56(start) => [a, b, c, d, e, f, g] == *start,
            Prefix64::Bits64(start) => [a, b, c, d, e, f, g, h] == *start,
            Prefix64::Bits96(start) => is_front_96(start, address),
        }
    }

    /// The IPv4 address after the prefix of an address, whatever prefix the address begins with. The reserved octet is skipped.
    #[inline(always)]
    pub(crate) fn ipv4_after(&self, address: &[u8; 16]) -> [u8; 4]
        ensures { result ≡ specs.extracted self.now address.now }
    {
        match self {
            Prefix64::Bits96(_) => last_four(address),
            _ => self.ipv4_after_any(address),
        }
    }

    /// The same IPv4 address, for a prefix of any length.
    #[inline(never)]
    fn ipv4_after_any(&self, address: &[u8; 16]) -> [u8; 4]
        ensures { result ≡ specs.extracted self.now address.now }
    {
        match self {
            Prefix64::Bits32(_) => [address[4], address[5], address[6], address[7]],
            Prefix64::Bits40(_) => [address[5], address[6], address[7], address[9]],
            Prefix64::Bits48(_) => [address[6], address[7], address[9], address[10]],
            Prefix64::Bits56(_) => [address[7], address[9], address[10], address[11]],
            Prefix64::Bits64(_) => [address[9], address[10], address[11], address[12]],
            Prefix64::Bits96(_) => last_four(address),
        }
    }
}

/// The place of the reserved octet, which contains bits 64 to 71 (RFC 6052, section 2.2).
const RESERVED_AT: usize = 8;

/// The octets that precede the IPv4 address if the prefix has 96 bits, without the reserved octet.
#[inline(always)]
fn front_96(address: &[u8; 16]) -> [u8; 11]
    ensures { result ≡ take 11 (specs.without_reserved address.now) }
{
    // Slices are copied, as in `write_96`.
    let mut octets = [0; 11];
    octets[..8].copy_from_slice(&address[..8]);
    octets[8..].copy_from_slice(&address[9..12]);
    octets
}

/// The last four octets of an address.
#[inline(always)]
fn last_four(address: &[u8; 16]) -> [u8; 4]
    ensures { result ≡ drop 12 address.now }
{
    [address[12], address[13], address[14], address[15]]
}

/// The IPv6 address that consists of these octets of a prefix of 96 bits and of this IPv4 address.
#[inline(always)]
fn join_96(start: &[u8; 11], ipv4: [u8; 4]) -> [u8; 16]
    ensures joined { result ≡ specs.embedded (Bits96 start.now) ipv4 }
    ensures len { length start.now ≡ 11 }
{
    let mut address = [0; 16];
    write_96(start, ipv4, &mut address);
    address
}

/// Writes this IPv6 address.
#[inline(always)]
fn write_96(start: &[u8; 11], ipv4: [u8; 4], address: &mut [u8; 16])
    ensures written { address.new ≡ specs.embedded (Bits96 start.now) ipv4 }
    ensures len { length start.now ≡ 11 }
{
    // Slices are copied, since an array of single octets is put together octet by octet.
    *address = [0; 16];
    address[..8].copy_from_slice(&start[..8]);
    address[9..12].copy_from_slice(&start[8..]);
    address[12..].copy_from_slice(&ipv4);
}

/// Whether an address begins with these octets of a prefix of 96 bits. The reserved octet of the address is skipped.
#[inline(always)]
fn is_front_96(start: &[u8; 11], address: &[u8; 16]) -> bool
    ensures { result ≡ pointwise nat_eq (take 11 (specs.without_reserved address.now)) start.now }
{
    let (front, rest) = numbers_before_ipv4(address);
    let (start_front, start_rest) = numbers_of(start);
    front == start_front && rest == start_rest
}

/// Whether these octets are equal. They are compared as two numbers, which is faster than octet by octet.
#[inline(always)]
fn are_equal(octets: &[u8; 11], others: &[u8; 11]) -> bool
    ensures { result ≡ pointwise nat_eq octets.now others.now }
{
    let (front, rest) = numbers_of(octets);
    let (other_front, other_rest) = numbers_of(others);
    front == other_front && rest == other_rest
}

/// The number in the first eight octets, and the number in the last three.
#[inline(always)]
fn numbers_of(octets: &[u8; 11]) -> (u64, u32)
    ensures front { result.0 ≡ from_be_bytes w64 (take 8 octets.now) }
    ensures rest { result.1 ≡ from_be_bytes w32 (0 ∷ drop 8 octets.now) }
{
    // perf: four octets are read at once, three are not.
    (
        u64::from_be_bytes(address_at::<8>(octets, 0)),
        u32::from_be_bytes(address_at::<4>(octets, 7)) % THREE_OCTETS,
    )
}

/// The number of different values of three octets.
const THREE_OCTETS: u32 = 0x100_0000;

/// The same two numbers of the octets that precede the IPv4 address if the prefix has 96 bits, without the reserved octet.
#[inline(always)]
fn numbers_before_ipv4(address: &[u8; 16]) -> (u64, u32)
    ensures front { result.0 ≡ from_be_bytes w64 (take 8 (take 11 (specs.without_reserved address.now))) }
    ensures rest { result.1 ≡ from_be_bytes w32 (0 ∷ drop 8 (take 11 (specs.without_reserved address.now))) }
{
    (
        u64::from_be_bytes(address_at::<8>(address, 0)),
        u32::from_be_bytes(address_at::<4>(address, RESERVED_AT)) % THREE_OCTETS,
    )
}

/// Whether these octets are zeros.
#[inline(always)]
fn is_zero(octets: [u8; 4]) -> bool
    ensures { IsTrue result ↔ (octets ≡ replicate 4 0) }
{
    u32::from_be_bytes(octets) == 0
}

/// The prefix with this length at the front of an address, whatever bits follow the prefix. `None` if no prefix has this length.
fn prefix_of(address: &[u8; 16], len: u8) -> Option<Prefix64>
    ensures { MatchOption result (specs.is_prefix_len len ≡ false) (λ prefix. (specs.is_prefix_len len ≡ true) × (specs.prefix_len prefix ≡ len)
        × (slice_index address.now 8 ≡ 0 → specs.prefix_address prefix ≡ specs.network address.now len)) }
{
    let [a, b, c, d, e, f, g, h, _, _, _, _, _, _, _, _] = *address;
    match len {
        32 => Some(Prefix64::Bits32([a, b, c, d])),
        40 => Some(Prefix64::Bits40([a, b, c, d, e])),
        48 => Some(Prefix64::Bits48([a, b, c, d, e, f])),
        56 => Some(Prefix64::Bits56([a, b, c, d, e, f, g])),
        64 => Some(Prefix64::Bits64([a, b, c, d, e, f, g, h])),
        96 => Some(Prefix64::Bits96(front_96(address))),
        _ => None,
    }
}

/// The octets of 64:ff9b::/96 (RFC 6052, section 2.1).
const WELL_KNOWN_OCTETS: [u8; 11] = [0, 0x64, 0xff, 0x9b, 0, 0, 0, 0, 0, 0, 0];

/// Whether an address is special (RFC 5735, section 4) or shared (RFC 6598).
#[inline(never)]
fn is_not_global(ipv4: [u8; 4]) -> bool
    ensures { result ≡ specs.is_not_global ipv4 }
{
    is_in([0, 0, 0, 0], 8, ipv4)
        || is_in([10, 0, 0, 0], 8, ipv4)
        || is_in([100, 64, 0, 0], 10, ipv4)
        || is_in([127, 0, 0, 0], 8, ipv4)
        || is_in([169, 254, 0, 0], 16, ipv4)
        || is_in([172, 16, 0, 0], 12, ipv4)
        || is_in([192, 0, 0, 0], 24, ipv4)
        || is_in([192, 0, 2, 0], 24, ipv4)
        || is_in([192, 88, 99, 0], 24, ipv4)
        || is_in([192, 168, 0, 0], 16, ipv4)
        || is_in([198, 18, 0, 0], 15, ipv4)
        || is_in([198, 51, 100, 0], 24, ipv4)
        || is_in([203, 0, 113, 0], 24, ipv4)
        || is_in([224, 0, 0, 0], 4, ipv4)
        || is_in([240, 0, 0, 0], 4, ipv4)
}

/// Whether an address is in a block: its first `bits` bits are equal to the first `bits` bits of the block.
fn is_in(block: [u8; 4], bits: u32, ipv4: [u8; 4]) -> bool
    requires { (1 ≤ bits) × (bits ≤ 32) }
    ensures { result ≡ specs.is_in block bits ipv4 }
{
    u32::from_be_bytes(ipv4) >> (32 - bits) == u32::from_be_bytes(block) >> (32 - bits)
}
