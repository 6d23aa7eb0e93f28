//! Laws of addresses that are translated to IPv6 and back. Each law is the contract of a function, so that it is checked with the calls.

ghost use Rattle.std.specs.Prelude.{◌≡◌, None, Some, true};
ghost use Rattle.std.specs.Int.{from_be_bytes, w32, w128};
ghost use Rattle.net_base.specs.Bytes.{IsBytes};
ghost use Rattle.ip_translation.specs.AddressMappings.{HasNoLonger, ipv4_len, ipv6_len, is_ipv4_of, is_ipv6_of};
ghost use Rattle.ip_translation.specs.AddressTables.{embedded, extracted, mapping_of_ipv4, mapping_of_ipv6};
ghost use Rattle.ip_translation.specs.declared.address_mapping.AddressMapping.{AddressMapping};

use crate::AddressTable;

/// Assume an IPv4 address that is translated to IPv6 and back. If both ways use the same mapping, the result is the same address. This is
/// also true if both ways use the prefix.
pub fn address_there_and_back(table: &AddressTable<'_>, ipv4: [u8; 4])
    ensures mapped { (mapping : AddressMapping) → mapping_of_ipv4 table.now ipv4 ≡ Some mapping →
        mapping_of_ipv6 table.now (embedded table.now ipv4) ≡ Some mapping → extracted table.now (embedded table.now ipv4) ≡ ipv4 }
    ensures unmapped { mapping_of_ipv4 table.now ipv4 ≡ None → mapping_of_ipv6 table.now (embedded table.now ipv4) ≡ None →
        extracted table.now (embedded table.now ipv4) ≡ ipv4 }
{
    expect_octets(ipv4);
    let _ = table.prefix.embed(ipv4);
}

/// An address begins with the prefix of its mapping, and with no longer prefix of another mapping.
pub fn longest_prefix_applies(table: &AddressTable<'_>, ipv4: [u8; 4], address: &[u8; 16])
    ensures ipv4 { (mapping : AddressMapping) → mapping_of_ipv4 table.now ipv4 ≡ Some mapping →
        (is_ipv4_of (from_be_bytes w32 ipv4) mapping ≡ true)
        × HasNoLonger (is_ipv4_of (from_be_bytes w32 ipv4)) ipv4_len mapping.ipv4_len table.now.mappings.now }
    ensures ipv6 { (mapping : AddressMapping) → mapping_of_ipv6 table.now address.now ≡ Some mapping →
        (is_ipv6_of (from_be_bytes w128 address.now) mapping ≡ true)
        × HasNoLonger (is_ipv6_of (from_be_bytes w128 address.now)) ipv6_len mapping.ipv6_len table.now.mappings.now }
{
    let _ = table;
    let _ = ipv4;
    let _ = address;
}

/// The octets of an address are bytes.
fn expect_octets(ipv4: [u8; 4])
    ensures { IsBytes ipv4 }
{
    let _ = ipv4;
}
