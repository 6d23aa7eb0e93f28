ghost use Rattle.std.specs.Prelude.{◌≡◌, ◌≤◌, ◌+◌, ◌*◌, ◌<◌, ◌^◌, IfOk, false, length, slice_index, suc};
ghost use Rattle.net_base.specs.Refusals.{RefusesExactly};
ghost use Rattle.ip_part.specs.Addresses.{address_by_value, by_value};
ghost use Rattle.ip_part.specs.Headers.{headers_by_value, result_by_value};
ghost use Rattle.ip_part.specs.Ip as specs;
ghost use Rattle.ip_part.specs.ExtensionHeaders as extensions;
ghost use Rattle.ip_part.specs.ExtensionHeaders.{extension_len, max_extension_len};
ghost use Rattle.ip_part.specs.Ip.{extension_refusal, headers_to_transport, jumbogram_refusal};

use crate::address::ipv6_address;
use crate::headers::Headers;
use crate::ip_header::IPV6_LEN;
use crate::ipv6_options::{home_address_after, jumbo_payload_len};
use crate::{IpAddresses, IpError};
use net_base::{IpNumber, ip_number};

/// The length of the shortest extension header, which is also the length of a fragment header, in bytes (RFC 8200, section 4).
pub(crate) const MIN_LEN: usize = 8;

/// The routing type of RFC 2460, section 4.4, which RFC 5095 deprecates.
const ROUTING_TYPE_SOURCE_ROUTE: u8 = 0;

/// The routing type for a mobile node (RFC 6275, section 6.4).
const ROUTING_TYPE_MOBILITY: u8 = 2;

/// The routing type for segment routing (RFC 8754, section 2).
const ROUTING_TYPE_SEGMENTS: u8 = 4;

/// Reads the extension headers that follow the headers in `first`, up to the transport. `counted` contains the bytes that the IP header
/// counts.
#[inline(always)]
pub(crate) fn read_extension_headers<'a>(
    counted: &'a [u8],
    first: Headers<'a>,
) -> Result<Headers<'a>, IpError>
    requires { first.len ≤ length counted.now }
    ensures read { result_by_value result ≡ headers_to_transport (suc (length counted.now)) (headers_by_value first.entry) counted.now }
    ensures ended { IfOk result (λ headers. specs.is_extended (headers_by_value headers) ≡ false) }
    ensures within { IfOk result (λ headers. headers.len ≤ length counted.now) }
{
    let mut headers = first;
    while is_extended(&headers) {
        let header = extension_header(&headers, &counted[headers.len..])?;
        headers = headers_after(&headers, header);
    }
    Ok(headers)
}

/// Whether an extension header comes next.
#[inline(always)]
fn is_extended(headers: &Headers<'_>) -> bool
    ensures { result ≡ specs.is_extended (headers_by_value headers.now) }
{
    headers.may_be_extended && is_extension(headers.protocol)
}

/// Whether this is the number of an extension header that `transport_in_ip` skips.
#[inline(always)]
fn is_extension(protocol: IpNumber) -> bool
    ensures { result ≡ extensions.is_extension protocol.0 }
{
    protocol == ip_number::IPV6_HEADER_HOP_BY_HOP
        || protocol == ip_number::IPV6_ROUTE_HEADER
        || protocol == ip_number::IPV6_FRAGMENTATION_HEADER
        || protocol == ip_number::AUTHENTICATION_HEADER
        || protocol == ip_number::IPV6_DESTINATION_OPTIONS
        || protocol == ip_number::MOBILITY_HEADER
        || protocol == ip_number::HIP
        || protocol == ip_number::SHIM6
}

/// The extension header at the front of `rest`, the bytes after the headers that were read.
#[inline(always)]
fn extension_header<'a>(headers: &Headers<'_>, rest: &'a [u8]) -> Result<&'a [u8], IpError>
    ensures refused { RefusesExactly result (extension_refusal (headers_by_value headers.now) rest.now) }
    ensures kept { IfOk result (λ header. header.now ≡ specs.extension_header (headers_by_value headers.now) rest.now) }
    ensures whole { IfOk result (λ header. length header.now ≡ extension_len headers.now.protocol.0 header.now) }
    ensures shortest { IfOk result (λ header. 8 ≤ length header.now) }
    ensures within { IfOk result (λ header. length header.now ≤ length rest.now) }
{
    let len = rest.len();
    let required_len = if len < MIN_LEN {
        MIN_LEN
    } else {
        extension_len(headers.protocol, rest)
    };
    if len < required_len {
        return Err(IpError::ExtensionHeaderCutOff {
            protocol: headers.protocol,
            offset: headers.len,
            required_len,
            len,
        });
    }
    let header = &rest[..required_len];
    check_jumbo_payload(headers, header)?;
    Ok(header)
}

/// Refuses an extension header that breaks the rules for jumbograms (RFC 2675, section 3).
#[inline(always)]
fn check_jumbo_payload(headers: &Headers<'_>, header: &[u8]) -> Result<(), IpError>
    requires { 8 ≤ length header.now }
    ensures { RefusesExactly result (jumbogram_refusal (headers_by_value headers.now) header.now) }
{
    if headers.payload_len != 0
        && is_first_options(headers)
        && jumbo_payload_len(header).is_some()
    {
        return Err(IpError::JumboPayloadUnexpected {
            payload_len: headers.payload_len,
        });
    }
    if headers.is_jumbogram && headers.protocol == ip_number::IPV6_FRAGMENTATION_HEADER {
        return Err(IpError::JumboPayloadFragment {
            offset: headers.len,
        });
    }
    Ok(())
}

/// Whether hop-by-hop options follow the IPv6 header directly.
#[inline(always)]
fn is_first_options(headers: &Headers<'_>) -> bool
    ensures { result ≡ specs.is_first_options (headers_by_value headers.now) }
{
    headers.len == IPV6_LEN && headers.protocol == ip_number::IPV6_HEADER_HOP_BY_HOP
}

/// The length of the extension header at the front of `rest`, in bytes.
#[inline(always)]
pub(crate) fn extension_len(protocol: IpNumber, rest: &[u8]) -> usize
    requires { 8 ≤ length rest.now }
    ensures len { result ≡ extensions.extension_len protocol.0 rest.now }
    ensures shortest { 8 ≤ result }
    ensures most { result ≤ max_extension_len }
{
    let words = usize::from(rest[1]);
    if protocol == ip_number::IPV6_FRAGMENTATION_HEADER {
        MIN_LEN
    } else if protocol == ip_number::AUTHENTICATION_HEADER {
        (words + 2) * 4
    } else {
        (words + 1) * 8
    }
}

/// Adds this extension header to the contents of the headers read so far.
#[inline(always)]
fn headers_after<'a>(headers: &Headers<'a>, header: &'a [u8]) -> Headers<'a>
    requires whole { length header.now ≡ extension_len headers.now.protocol.0 header.now }
    requires shortest { 8 ≤ length header.now }
    requires within { headers.now.len + length header.now < 2 ^ 64 }
    ensures { headers_by_value result ≡ specs.headers_after (headers_by_value headers.now) header.now }
{
    let is_over_ipv6 = matches!(headers.addresses, IpAddresses::Ipv6 { .. });
    let is_later = is_later_fragment(headers.protocol, header);
    Headers {
        fixed_header: headers.fixed_header,
        addresses: addresses_after(headers, header),
        protocol: IpNumber(header[0]),
        len: headers.len + header.len(),
        is_fragment: headers.is_fragment || is_one_of_fragments(headers.protocol, header),
        is_later_fragment: headers.is_later_fragment || is_later,
        may_be_extended: is_over_ipv6 && !is_later,
        payload_len: headers.payload_len,
        is_jumbogram: headers.is_jumbogram,
    }
}

/// Whether an extension header is the fragment header of a later fragment.
#[inline(always)]
fn is_later_fragment(number: IpNumber, header: &[u8]) -> bool
    requires { 8 ≤ length header.now }
    ensures { result ≡ extensions.is_later_fragment number.0 header.now }
{
    let offset = u16::from_be_bytes([header[2], header[3]]) >> 3;
    number == ip_number::IPV6_FRAGMENTATION_HEADER && offset != 0
}

/// Whether an extension header is a fragment header that belongs to one of several fragments.
#[inline(always)]
fn is_one_of_fragments(number: IpNumber, header: &[u8]) -> bool
    requires { 8 ≤ length header.now }
    ensures { result ≡ extensions.is_one_of_fragments number.0 header.now }
{
    is_later_fragment(number, header) || has_more_fragments(number, header)
}

/// Whether an extension header is a fragment header after which more fragments follow.
#[inline(always)]
fn has_more_fragments(number: IpNumber, header: &[u8]) -> bool
    requires { 8 ≤ length header.now }
    ensures { result ≡ extensions.has_more_fragments number.0 header.now }
{
    number == ip_number::IPV6_FRAGMENTATION_HEADER && header[3] & 1 != 0
}

/// The addresses, updated by this extension header.
#[inline(always)]
fn addresses_after<'a>(headers: &Headers<'a>, header: &'a [u8]) -> IpAddresses<'a>
    requires whole { length header.now ≡ extension_len headers.now.protocol.0 header.now }
    requires shortest { 8 ≤ length header.now }
    ensures { by_value result ≡ specs.addresses_after (headers_by_value headers.now) header.now }
{
    match headers.addresses {
        IpAddresses::Ipv6 {
            source,
            destination,
        } => IpAddresses::Ipv6 {
            source: source_after(source, headers.protocol, header),
            destination: destination_after(destination, headers.protocol, header),
        },
        addresses => addresses,
    }
}

/// The source, updated by this extension header.
#[inline(always)]
fn source_after<'a>(source: &'a [u8; 16], number: IpNumber, header: &'a [u8]) -> &'a [u8; 16]
    requires { 8 ≤ length header.now }
    ensures { result.now ≡ extensions.source_after source.now number.0 header.now }
{
    if number != ip_number::IPV6_DESTINATION_OPTIONS {
        return source;
    }
    home_address_after(source, header)
}

/// The final destination, updated by this extension header.
#[inline(always)]
fn destination_after<'a>(
    destination: Option<&'a [u8; 16]>,
    number: IpNumber,
    header: &'a [u8],
) -> Option<&'a [u8; 16]>
    requires whole { length header.now ≡ extension_len number.0 header.now }
    requires shortest { 8 ≤ length header.now }
    ensures { address_by_value result ≡ extensions.destination_after (address_by_value destination.entry) number.0 header.now }
{
    if number != ip_number::IPV6_ROUTE_HEADER || header[3] == 0 {
        return destination;
    }
    final_destination(header)
}

/// The final destination in a routing header that has segments left. `None` if its type is unknown, or if it contains no address.
fn final_destination(header: &[u8]) -> Option<&[u8; 16]>
    requires whole { length header.now ≡ (slice_index header.now 1 + 1) * 8 }
    requires shortest { 8 ≤ length header.now }
    ensures { address_by_value result ≡ extensions.final_destination header.now }
{
    let words = usize::from(header[1]);
    if words < 2 {
        return None;
    }
    match header[2] {
        ROUTING_TYPE_SOURCE_ROUTE => Some(entry(header, words / 2 - 1)),
        ROUTING_TYPE_MOBILITY | ROUTING_TYPE_SEGMENTS => Some(entry(header, 0)),
        _ => None,
    }
}

/// The entry at this index in a routing header. An entry is an address, and the first entry follows the first eight bytes.
fn entry(header: &[u8], index: usize) -> &[u8; 16]
    requires { 24 + index * 16 ≤ length header.now }
    ensures { result.now ≡ extensions.entry header.now index }
{
    ipv6_address(header, MIN_LEN + index * 16)
}
