ghost use Rattle.std.specs.Prelude.{◌≡◌, ◌≢◌, ◌≤◌, ◌+◌, ◌<◌, ◌^◌, ◌&&◌, IfSome, MatchOption, None, Some, true, false, length, slice_index, is_some};
ghost use Rattle.std.specs.List.{find};
ghost use Rattle.ip_part.specs.ExtensionHeaders as extensions;
ghost use Rattle.ip_part.specs.Options.{ipv6_option, options_of};
ghost use Rattle.etherparse_transport.specs.SkippedHeaders as specs;

use crate::ip::ip_header::IPV6_LEN;
use crate::{IpNumber, ip_number};

/// The length of the shortest extension header, in bytes. A fragment header also has this length (RFC 8200, section 4).
const MIN_LEN: usize = 8;

/// The type of the option Pad1, which has no length byte (RFC 8200, section 4.2).
const PAD_1: u8 = 0;

/// The type of the home address option (RFC 6275, section 6.3).
const HOME_ADDRESS: u8 = 0xC9;

/// The IPv6 header of a packet, and the extension headers after it that are skipped, since they contain no other address of the packet.
#[derive(Clone, Copy)]
pub(crate) struct SkippedHeaders {
    /// The number of the header or protocol after these headers.
    pub(crate) protocol: IpNumber,
    /// The length of these headers, in bytes.
    pub(crate) len: usize,
    /// Whether the last of these headers is the fragment header of a later fragment.
    pub(crate) is_later_fragment: bool,
}

/// Skips the extension headers of a packet that contain no other address of the packet. `protocol` is the next header in the IPv6 header.
#[inline(always)]
pub(crate) fn skip_headers(packet: &[u8], protocol: IpNumber) -> SkippedHeaders
    requires header { 40 ≤ length packet.now }
    requires next { protocol.0 ≡ slice_index packet.now 6 }
    ensures skipped { result ≡ specs.skipped_headers packet.now }
    ensures within { (40 ≤ result.len) × (result.len ≤ length packet.now) }
{
    let mut skipped = SkippedHeaders {
        protocol,
        len: IPV6_LEN,
        is_later_fragment: false,
    };
    while let Some(header) = skipped_header(&skipped, &packet[skipped.len..]) {
        skipped = SkippedHeaders {
            protocol: IpNumber(header[0]),
            len: skipped.len + header.len(),
            is_later_fragment: is_later_fragment(skipped.protocol, header),
        };
    }
    skipped
}

/// The extension header at the front of these bytes, if it is skipped.
#[inline(always)]
fn skipped_header<'a>(skipped: &SkippedHeaders, rest: &'a [u8]) -> Option<&'a [u8]>
    ensures found { MatchOption result (specs.is_skipped skipped.now rest.now ≡ false) (λ header. specs.is_skipped skipped.now rest.now ≡ true) }
    ensures header { IfSome result (λ header. header.now ≡ specs.header_at skipped.now.protocol.0 rest.now) }
    ensures within { IfSome result (λ header. (8 ≤ length header.now) × (length header.now ≤ length rest.now)) }
{
    if skipped.is_later_fragment || !may_be_skipped(skipped.protocol) {
        return None;
    }
    header_without_address(skipped.protocol, rest)
}

/// The extension header of this number at the front of these bytes, if it is whole and adds no address.
fn header_without_address(protocol: IpNumber, rest: &[u8]) -> Option<&[u8]>
    requires { specs.may_be_skipped protocol.0 ≡ true }
    ensures found { MatchOption result (specs.adds_none protocol.0 rest.now ≡ false) (λ header. specs.adds_none protocol.0 rest.now ≡ true) }
    ensures header { IfSome result (λ header. header.now ≡ specs.header_at protocol.0 rest.now) }
    ensures within { IfSome result (λ header. (8 ≤ length header.now) × (length header.now ≤ length rest.now)) }
{
    if rest.len() < MIN_LEN {
        return None;
    }
    let len = extension_len(protocol, rest);
    if rest.len() < len {
        return None;
    }
    let header = &rest[..len];
    if adds_address(protocol, header) {
        return None;
    }
    Some(header)
}

/// Whether this is the number of an extension header that may be skipped (RFC 8200, section 4).
#[inline(always)]
fn may_be_skipped(number: IpNumber) -> bool
    ensures { result ≡ specs.may_be_skipped number.0 }
{
    number == ip_number::IPV6_HEADER_HOP_BY_HOP
        || number == ip_number::IPV6_ROUTE_HEADER
        || number == ip_number::IPV6_FRAGMENTATION_HEADER
        || number == ip_number::IPV6_DESTINATION_OPTIONS
}

/// The length of an extension header that may be skipped, in bytes.
fn extension_len(number: IpNumber, rest: &[u8]) -> usize
    requires number { specs.may_be_skipped number.0 ≡ true }
    requires there { 8 ≤ length rest.now }
    ensures len { result ≡ extensions.extension_len number.0 rest.now }
    ensures shortest { 8 ≤ result }
{
    if number == ip_number::IPV6_FRAGMENTATION_HEADER {
        return MIN_LEN;
    }
    (usize::from(rest[1]) + 1) * 8
}

/// Whether an extension header is a routing header with segments left, or a destination options header with a home address.
fn adds_address(number: IpNumber, header: &[u8]) -> bool
    requires { 8 ≤ length header.now }
    ensures { result ≡ specs.adds_address number.0 header.now }
{
    number == ip_number::IPV6_ROUTE_HEADER && header[3] != 0
        || number == ip_number::IPV6_DESTINATION_OPTIONS && contain_home_address(&header[2..])
}

/// Whether there is a home address among these options (RFC 6275, section 6.3).
fn contain_home_address(options: &[u8]) -> bool
    ensures { result ≡ is_some (find specs.is_home_address (options_of ipv6_option options.now)) }
{
    let mut rest = options;
    while let Some(option) = option_at(rest) {
        if option[0] == HOME_ADDRESS {
            return true;
        }
        rest = &rest[option.len()..];
    }
    false
}

/// The option at the front of these bytes (RFC 8200, section 4.2). `None` at the end of the options, or if the option goes beyond the end.
fn option_at(bytes: &[u8]) -> Option<&[u8]>
    ensures front { MatchOption result (ipv6_option bytes.now ≡ None) (λ option. ipv6_option bytes.now ≡ Some option.now) }
    ensures within { IfSome result (λ option. (1 ≤ length option.now) × (length option.now ≤ length bytes.now)) }
{
    if bytes.is_empty() {
        return None;
    }
    if bytes[0] == PAD_1 {
        return Some(&bytes[..1]);
    }
    if bytes.len() < 2 {
        return None;
    }
    let len = 2 + usize::from(bytes[1]);
    if bytes.len() < len {
        return None;
    }
    Some(&bytes[..len])
}

/// Whether an extension header is the fragment header of a later fragment (RFC 8200, section 4.5).
fn is_later_fragment(number: IpNumber, header: &[u8]) -> bool
    requires { 8 ≤ length header.now }
    ensures { result ≡ extensions.is_later_fragment number.0 header.now }
{
    let offset = u16::from_be_bytes([header[2], header[3]]) >> 3;
    number == ip_number::IPV6_FRAGMENTATION_HEADER && offset != 0
}
