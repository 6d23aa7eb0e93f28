ghost use Rattle.std.specs.Prelude.{◌≡◌, ◌≤◌, ◌<◌, ◌+◌, ◌^◌, ◌⊎◌, IfSome, MatchOption, None, Some, length, true};
ghost use Rattle.std.specs.List.{find};
ghost use Rattle.ip_part.specs.Options as specs;

use crate::address::ipv6_address;

/// The type of the padding option of one byte, which has no length byte (RFC 8200, section 4.2).
const PAD_1: u8 = 0;

/// The type of the home address option (RFC 6275, section 6.3).
const HOME_ADDRESS: u8 = 0xC9;

/// The type of the jumbo payload option (RFC 2675, section 2).
const JUMBO_PAYLOAD: u8 = 0xC2;

/// The length of a home address, in bytes (RFC 6275, section 6.3).
const HOME_ADDRESS_LEN: usize = 16;

/// The last home address in these destination options. If they contain no home address, this is `source`.
pub(crate) fn home_address_after<'a>(source: &'a [u8; 16], header: &'a [u8]) -> &'a [u8; 16]
    requires { 8 ≤ length header.now }
    ensures { result.now ≡ specs.home_address_after source.now header.now }
{
    let mut address = source;
    let mut rest = &header[2..];
    while let Some(option) = option_with_room(rest, 2 + HOME_ADDRESS_LEN) {
        address = home_address_or(address, option);
        rest = &rest[option.len()..];
    }
    address
}

/// The home address in this option. If the option contains no home address, this is `source`.
fn home_address_or<'a>(source: &'a [u8; 16], option: &'a [u8]) -> &'a [u8; 16]
    requires { 1 ≤ length option.now }
    ensures { result.now ≡ specs.home_address_or source.now option.now }
{
    if !is_option(option, HOME_ADDRESS, HOME_ADDRESS_LEN) {
        return source;
    }
    ipv6_address(option, 2)
}

/// The jumbo payload length in hop-by-hop options. `None` if they contain no jumbo payload option.
pub(crate) fn jumbo_payload_len(header: &[u8]) -> Option<usize>
    requires { 8 ≤ length header.now }
    ensures len { result ≡ specs.jumbo_payload_len header.now }
    ensures most { IfSome result (λ len. len < 2 ^ 32) }
{
    match find_option(&header[2..], JUMBO_PAYLOAD, 4) {
        Some(option) => {
            let len = u32::from_be_bytes([option[2], option[3], option[4], option[5]]);
            Some(len as usize)
        }
        None => None,
    }
}

/// The first option that has this type and this number of bytes of data.
fn find_option(options: &[u8], kind: u8, len: usize) -> Option<&[u8]>
    requires { len ≤ 255 }
    ensures found { MatchOption result
        (find (specs.is_ipv6_option kind len) (specs.options_of specs.ipv6_option options.now) ≡ None)
        (λ option. find (specs.is_ipv6_option kind len) (specs.options_of specs.ipv6_option options.now) ≡ Some option.now) }
    ensures len { IfSome result (λ option. length option.now ≡ 2 + len) }
{
    let mut rest = options;
    while let Some(option) = option_with_room(rest, 2 + len) {
        if is_option(option, kind, len) {
            return Some(option);
        }
        rest = &rest[option.len()..];
    }
    None
}

/// The option at the front of some bytes. `None` if there is no whole option. `None` also for fewer bytes than `len`, the length of the
/// option that the caller looks for.
// perf: most destination options have eight bytes, and a home address needs 18. So the search usually ends at once (25 Nov 2026).
fn option_with_room(bytes: &[u8], len: usize) -> Option<&[u8]>
    ensures front { MatchOption result ((length bytes.now < len) ⊎ (specs.ipv6_option bytes.now ≡ None))
        (λ option. specs.ipv6_option bytes.now ≡ Some option.now) }
    ensures within { IfSome result (λ option. (1 ≤ length option.now) × (length option.now ≤ length bytes.now)) }
{
    if bytes.len() < len {
        return None;
    }
    first_option(bytes)
}

/// Whether an option has this type and this number of bytes of data.
fn is_option(option: &[u8], kind: u8, len: usize) -> bool
    requires shortest { 1 ≤ length option.now }
    requires longest { len ≤ 255 }
    ensures is { result ≡ specs.is_ipv6_option kind len option.now }
    ensures len { result ≡ true → length option.now ≡ 2 + len }
{
    option[0] == kind && option.len() == 2 + len
}

/// The option at the front of some bytes. `None` at the end of the options, or if the option goes beyond the bytes.
fn first_option(bytes: &[u8]) -> Option<&[u8]>
    ensures front { MatchOption result (specs.ipv6_option bytes.now ≡ None) (λ option. specs.ipv6_option bytes.now ≡ Some option.now) }
    ensures within { IfSome result (λ option. (1 ≤ length option.now) × (length option.now ≤ length bytes.now)) }
{
    if bytes.is_empty() {
        return None;
    }
    if bytes[0] == PAD_1 {
        return Some(&bytes[..1]);
    }
    if bytes.len() < 2 {
        return None;
    }
    let len = 2 + usize::from(bytes[1]);
    if bytes.len() < len {
        return None;
    }
    Some(&bytes[..len])
}
