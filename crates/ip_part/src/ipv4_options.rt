ghost use Rattle.std.specs.Prelude.{◌≡◌, ◌≤◌, ◌-◌, IfSome, MatchOption, None, Some, is_some, length, nat_lt, slice_index, slice_range, true};
ghost use Rattle.std.specs.List.{find};
ghost use Rattle.ip_part.specs.Ip as ip;
ghost use Rattle.ip_part.specs.Options as specs;

use crate::address::ipv4_address;
use net_base::Ipv4Header;

/// The place of the receiver's address, in bytes from the start of an IPv4 header (RFC 791, section 3.1).
const DESTINATION_AT: usize = Ipv4Header::DESTINATION_AT;

/// The place of the options, in bytes from the start of an IPv4 header (RFC 791, section 3.1).
const OPTIONS_AT: usize = Ipv4Header::MIN_LEN;

/// The kind that ends the list of options (RFC 791, section 3.1).
const END_OF_LIST: u8 = 0;

/// The kind of the option "no operation", which has no length byte (RFC 791, section 3.1).
const NO_OPERATION: u8 = 1;

/// The kind of a loose source route (RFC 791, section 3.1).
const LOOSE_SOURCE_ROUTE: u8 = 131;

/// The kind of a strict source route (RFC 791, section 3.1).
const STRICT_SOURCE_ROUTE: u8 = 137;

/// The final destination of a packet. If its source route has an address left, this is the last address of the route (RFC 1122, section
/// 3.2.1.8). Otherwise it is the destination in the header.
pub(crate) fn final_destination(header: &[u8]) -> &[u8; 4]
    requires { 20 ≤ length header.now }
    ensures { result.now ≡ ip.ipv4_destination header.now }
{
    match source_route(&header[OPTIONS_AT..]) {
        Some(route) if is_route_left(route) => last_address(route),
        _ => ipv4_address(header, DESTINATION_AT),
    }
}

/// Whether the options of an IPv4 header contain a loose or strict source route, option 131 or 137, that is not at its end (RFC 791, section
/// 3.1). A route is at its end if its pointer is greater than its length. A route of two bytes has no pointer, and is not at its end. Reading
/// stops at the end of the list of options, or at an option that states a length below 2 or goes beyond the bytes.
pub fn has_unexpired_source_route(options: &[u8]) -> bool
    ensures { result ≡ is_some (find specs.is_unexpired_route (specs.options_of specs.ipv4_option options.now)) }
{
    let mut rest = options;
    while let Some(option) = first_option(rest) {
        if is_unexpired_route(option) {
            return true;
        }
        rest = &rest[option.len()..];
    }
    false
}

/// The first source route among these options.
fn source_route(options: &[u8]) -> Option<&[u8]>
    ensures found { MatchOption result
        (find specs.is_source_route (specs.options_of specs.ipv4_option options.now) ≡ None)
        (λ route. find specs.is_source_route (specs.options_of specs.ipv4_option options.now) ≡ Some route.now) }
{
    let mut rest = options;
    while let Some(option) = first_option(rest) {
        if is_source_route(option) {
            return Some(option);
        }
        rest = &rest[option.len()..];
    }
    None
}

/// The option at the front of some bytes. `None` at the end of the list, or if the option states a length below 2 or goes beyond the bytes.
fn first_option(bytes: &[u8]) -> Option<&[u8]>
    ensures front { MatchOption result (specs.ipv4_option bytes.now ≡ None) (λ option. specs.ipv4_option bytes.now ≡ Some option.now) }
    ensures within { IfSome result (λ option. (1 ≤ length option.now) × (length option.now ≤ length bytes.now)) }
{
    if bytes.is_empty() || bytes[0] == END_OF_LIST {
        return None;
    }
    if bytes[0] == NO_OPERATION {
        return Some(&bytes[..1]);
    }
    if bytes.len() < 2 {
        return None;
    }
    let len = usize::from(bytes[1]);
    if len < 2 || bytes.len() < len {
        return None;
    }
    Some(&bytes[..len])
}

/// Whether an option is a source route.
fn is_source_route(option: &[u8]) -> bool
    requires { 1 ≤ length option.now }
    ensures { result ≡ specs.is_source_route option.now }
{
    option[0] == LOOSE_SOURCE_ROUTE || option[0] == STRICT_SOURCE_ROUTE
}

/// Whether an option is a source route that is not at its end.
fn is_unexpired_route(option: &[u8]) -> bool
    requires { 1 ≤ length option.now }
    ensures { result ≡ specs.is_unexpired_route option.now }
{
    is_source_route(option) && !is_at_end(option)
}

/// Whether a source route is at its end: its pointer is greater than its length. A route of two bytes has no pointer.
fn is_at_end(route: &[u8]) -> bool
    ensures { result ≡ nat_lt (length route.now) (slice_index route.now 2) }
{
    let len = route.len();
    len > 2 && usize::from(route[2]) > len
}

/// Whether a source route contains an address that the packet has not reached yet. Then the pointer of the route states the place of an
/// address. The first byte of the route has the place 1.
fn is_route_left(route: &[u8]) -> bool
    ensures left { result ≡ specs.is_route_left route.now }
    ensures shortest { result ≡ true → 7 ≤ length route.now }
{
    let len = route.len();
    if len < 7 || len % 4 != 3 {
        return false;
    }
    let pointer = usize::from(route[2]);
    pointer >= 4 && pointer % 4 == 0 && pointer <= len
}

/// The last address of a source route.
fn last_address(route: &[u8]) -> &[u8; 4]
    requires { 7 ≤ length route.now }
    ensures { result.now ≡ slice_range route.now (length route.now - 4) (length route.now) }
{
    ipv4_address(route, route.len() - 4)
}
