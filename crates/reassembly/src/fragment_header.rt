ghost use Rattle.std.specs.Prelude.{◌≡◌, ◌≤◌, ◌<◌, ◌+◌, IfSome, length};
ghost use Rattle.ip_part.specs.ExtensionHeaders as extensions;
ghost use Rattle.reassembly.specs.Fragments.{fragment_header_bytes, fragment_header_in};

use net_base::{IpNumber, Ipv6Header, ip_number};

/// The length of a fragment header, which is also the length of the shortest extension header, in bytes (RFC 8200, sections 4 and 4.5).
pub(crate) const FRAGMENT_HEADER_LEN: usize = 8;

/// Where a fragment header is in a packet.
#[derive(Clone, Copy, Debug, PartialEq, Eq)]
pub(crate) struct FragmentPlace {
    /// The place of the byte that contains the number of the fragment header. This byte is in the header before the fragment header.
    pub number_at: usize,
    /// The place of the first byte of the fragment header.
    pub place: usize,
}

/// The place of the byte with the number of the first header after the IPv6 header (RFC 8200, section 3).
const NEXT_HEADER_AT: usize = 6;

/// The first fragment header of an IPv6 packet (RFC 8200, section 4.5). `None` if the packet is not an IPv6 packet or has no fragment
/// header. `None` also if the fragment header or an extension header before it is cut off. Pass only the bytes that the IP header counts.
/// An atomic fragment has a fragment header too (RFC 6946).
///
/// Bytes 2 and 3 of the header contain the fragment offset, in the high 13 bits, and bytes 4 to 7 the identification.
pub fn ipv6_fragment_header(packet: &[u8]) -> Option<[u8; FRAGMENT_HEADER_LEN]>
    ensures { result ≡ fragment_header_bytes packet.now }
{
    if packet.len() < Ipv6Header::LEN || packet[0] >> 4 != 6 {
        return None;
    }
    let place = fragment_header_at(packet)?.place;
    let mut header = [0; FRAGMENT_HEADER_LEN];
    header.copy_from_slice(&packet[place..place + FRAGMENT_HEADER_LEN]);
    Some(header)
}

/// The place of the first fragment header in the counted bytes of an IPv6 packet (RFC 8200, section 4.5). `None` if there is no whole
/// fragment header.
pub(crate) fn fragment_header_at(counted: &[u8]) -> Option<FragmentPlace>
    requires { 40 ≤ length counted.now }
    ensures found { result ≡ fragment_header_in counted.now }
    ensures within { IfSome result (λ found. found.place + 8 ≤ length counted.now) }
    ensures before { IfSome result (λ found. found.number_at < found.place) }
    ensures shortest { IfSome result (λ found. 40 ≤ found.place) }
{
    let mut number = IpNumber(counted[NEXT_HEADER_AT]);
    let mut number_at = NEXT_HEADER_AT;
    let mut place = Ipv6Header::LEN;
    while is_extension(number) && place + FRAGMENT_HEADER_LEN <= counted.len() {
        if number == ip_number::IPV6_FRAGMENTATION_HEADER {
            return Some(FragmentPlace { number_at, place });
        }
        let rest = &counted[place..];
        let len = extension_len(number, rest);
        if rest.len() < len {
            return None;
        }
        number = IpNumber(rest[0]);
        number_at = place;
        place += len;
    }
    None
}

/// Whether this is the number of an extension header that `transport_in_ip` skips.
fn is_extension(number: IpNumber) -> bool
    ensures { result ≡ extensions.is_extension number.0 }
{
    number == ip_number::IPV6_HEADER_HOP_BY_HOP
        || number == ip_number::IPV6_ROUTE_HEADER
        || number == ip_number::IPV6_FRAGMENTATION_HEADER
        || number == ip_number::AUTHENTICATION_HEADER
        || number == ip_number::IPV6_DESTINATION_OPTIONS
        || number == ip_number::MOBILITY_HEADER
        || number == ip_number::HIP
        || number == ip_number::SHIM6
}

/// The length of an extension header, in bytes.
fn extension_len(number: IpNumber, rest: &[u8]) -> usize
    requires { 8 ≤ length rest.now }
    ensures len { result ≡ extensions.extension_len number.0 rest.now }
    ensures shortest { 8 ≤ result }
{
    let words = usize::from(rest[1]);
    if number == ip_number::IPV6_FRAGMENTATION_HEADER {
        FRAGMENT_HEADER_LEN
    } else if number == ip_number::AUTHENTICATION_HEADER {
        (words + 2) * 4
    } else {
        (words + 1) * 8
    }
}
