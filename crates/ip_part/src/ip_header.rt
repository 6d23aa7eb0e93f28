ghost use Rattle.std.specs.Prelude.{◌≡◌, ◌≤◌, ◌<◌, ◌^◌, ◌==◌, ◌&&◌, IfOk, IfSome, Some, false, length, true};
ghost use Rattle.net_base.specs.IpHeaders.{BeginsWithIpv4Header, ipv4_header_len, version};
ghost use Rattle.net_base.specs.Refusals.{RefusesExactly};
ghost use Rattle.ip_part.specs.Addresses.{by_value, is_ipv6};
ghost use Rattle.ip_part.specs.FixedHeaders.{fixed_by_value, fixed_header, fixed_ipv4};
ghost use Rattle.ip_part.specs.Headers.{headers_by_value};
ghost use Rattle.ip_part.specs.Ip as specs;
ghost use Rattle.ip_part.specs.Ip.{counted_len, first_headers, header_refusal, ipv4_header_refusal, ipv4_headers, ipv4_refusal, ipv4_stated_len, ipv6_headers, ipv6_refusal, ipv6_stated_len, is_jumbogram, jumbo_refusal, len_in_options_refusal, missing_len_refusal, next_header, options_refusal, payload_len, strict_header_refusal};

use crate::address::{ipv4_address, ipv6_address};
use crate::extension_headers::{MIN_LEN, extension_len};
use crate::fixed_part::{
    IPV4_SOURCE_AT, IPV6_DESTINATION_AT, IPV6_SOURCE_AT, ipv4_fixed_header, ipv6_fixed_header,
};
use crate::headers::Headers;
use crate::ipv4_options::final_destination;
use crate::ipv6_options::jumbo_payload_len;
use crate::{IpAddresses, IpError};
use net_base::{IpNumber, Ipv4Header, Ipv4HeaderSlice, Ipv6Header, Ipv6HeaderSlice, ip_number};

/// The length of the shortest IPv4 header, in bytes (RFC 791, section 3.1).
pub(crate) const IPV4_MIN_LEN: usize = Ipv4Header::MIN_LEN;

/// The length of an IPv6 header, in bytes (RFC 8200, section 3).
pub(crate) const IPV6_LEN: usize = Ipv6Header::LEN;

/// The greatest length that the payload length field of IPv6 can state, in bytes (RFC 2675, section 2).
const MAX_PAYLOAD_LEN: usize = 65_535;

/// Reads the IP header, and returns the number of bytes that it counts, including the header itself. Refuses a header that states no length
/// although it must state one. Any other header without a length counts only its own bytes.
#[inline(always)]
pub(crate) fn read_ip_header_with_len(packet: &[u8]) -> Result<(Headers<'_>, usize), IpError>
    ensures refused { RefusesExactly result (strict_header_refusal packet.now) }
    ensures fixed { IfOk result (λ read. fixed_header packet.now ≡ Some (fixed_by_value read.0.fixed_header)) }
    ensures first { IfOk result (λ read. headers_by_value read.0 ≡ first_headers packet.now) }
    ensures counted { IfOk result (λ read. read.1 ≡ counted_len false packet.now) }
    ensures within { IfOk result (λ read. (read.0.len ≤ read.1) × (read.0.len ≤ length packet.now)) }
{
    if !packet.is_empty() && packet[0] >> 4 == 4 {
        return read_ipv4_header_with_len(packet);
    }
    let (headers, stated_len) = read_ip_header(packet)?;
    match stated_len {
        Some(counted_len) => Ok((headers, counted_len)),
        None => Ok((headers, len_of_header(&headers)?)),
    }
}

/// The number of bytes that an IPv6 header counts if it states no length: its own 40 bytes. Refuses a header that hop-by-hop options
/// follow, since these options must then contain the length (RFC 2675, section 3).
fn len_of_header(headers: &Headers<'_>) -> Result<usize, IpError>
    requires { is_ipv6 (by_value headers.now.addresses) ≡ true }
    ensures refused { RefusesExactly result (missing_len_refusal (headers_by_value headers.now)) }
    ensures len { IfOk result (λ len. len ≡ headers.now.len) }
{
    if headers.protocol == ip_number::IPV6_HEADER_HOP_BY_HOP {
        return Err(IpError::JumboPayloadMissing);
    }
    Ok(headers.len)
}

/// Reads the IP header, and returns the packet length that it states, including the header itself. The length is `None` if the header
/// states none.
#[inline(always)]
pub(crate) fn read_ip_header(packet: &[u8]) -> Result<(Headers<'_>, Option<usize>), IpError>
    ensures refused { RefusesExactly result (header_refusal packet.now) }
    ensures fixed { IfOk result (λ read. fixed_header packet.now ≡ Some (fixed_by_value read.0.fixed_header)) }
    ensures first { IfOk result (λ read. headers_by_value read.0 ≡ first_headers packet.now) }
    ensures stated { IfOk result (λ read. read.1 ≡ specs.stated_len packet.now) }
    ensures within { IfOk result (λ read. read.0.len ≤ length packet.now) }
    ensures counted { IfOk result (λ read. IfSome read.1 (λ len. read.0.len ≤ len)) }
{
    if packet.is_empty() {
        return Err(IpError::HeaderCutOff {
            required_len: 1,
            len: 0,
        });
    }
    match packet[0] >> 4 {
        4 => read_ipv4_header(packet),
        6 => read_ipv6_header(packet),
        version => Err(IpError::Version { version }),
    }
}

/// Reads an IPv4 header, and returns its total length. Refuses a total length of 0 too, since it is below the length of the header.
#[inline(always)]
fn read_ipv4_header_with_len(packet: &[u8]) -> Result<(Headers<'_>, usize), IpError>
    requires { version packet.now ≡ 4 }
    ensures refused { RefusesExactly result (strict_header_refusal packet.now) }
    ensures fixed { IfOk result (λ read. fixed_header packet.now ≡ Some (fixed_by_value read.0.fixed_header)) }
    ensures first { IfOk result (λ read. headers_by_value read.0 ≡ first_headers packet.now) }
    ensures counted { IfOk result (λ read. read.1 ≡ counted_len false packet.now) }
    ensures within { IfOk result (λ read. (read.0.len ≤ read.1) × (read.0.len ≤ length packet.now)) }
{
    let header = ipv4_header(packet)?;
    let header_len = header.slice().len();
    let total_len = usize::from(header.total_len());
    if total_len < header_len {
        return Err(IpError::TotalLength {
            total_len,
            header_len,
        });
    }
    Ok((ipv4_headers(&header), total_len))
}

/// Whether an authentication header follows this IPv4 header directly. In a later fragment, payload follows the header instead.
#[inline(always)]
fn has_authentication(header: &Ipv4HeaderSlice<'_>) -> bool
    ensures { result ≡ specs.has_authentication header.now }
{
    header.protocol() == ip_number::AUTHENTICATION_HEADER && header.fragments_offset() == 0
}

/// The contents of an IPv4 header.
#[inline(always)]
fn ipv4_headers<'a>(header: &Ipv4HeaderSlice<'a>) -> Headers<'a>
    requires { 20 ≤ length header.now }
    ensures contents { headers_by_value result ≡ specs.ipv4_headers (length header.now) header.now }
    ensures fixed { fixed_by_value result.fixed_header ≡ fixed_ipv4 header.now }
{
    let bytes = header.slice();
    Headers {
        fixed_header: ipv4_fixed_header(bytes),
        addresses: IpAddresses::Ipv4 {
            source: ipv4_address(bytes, IPV4_SOURCE_AT),
            destination: final_destination(bytes),
        },
        protocol: header.protocol(),
        len: bytes.len(),
        is_fragment: header.is_fragmenting_payload(),
        is_later_fragment: header.fragments_offset() != 0,
        may_be_extended: has_authentication(header),
        payload_len: 0,
        is_jumbogram: false,
    }
}

/// Reads an IPv4 header, and returns its total length. The length is `None` if the field contains 0.
#[inline(always)]
fn read_ipv4_header(packet: &[u8]) -> Result<(Headers<'_>, Option<usize>), IpError>
    requires { version packet.now ≡ 4 }
    ensures refused { RefusesExactly result (ipv4_refusal packet.now) }
    ensures fixed { IfOk result (λ read. fixed_header packet.now ≡ Some (fixed_by_value read.0.fixed_header)) }
    ensures first { IfOk result (λ read. headers_by_value read.0 ≡ ipv4_headers (ipv4_header_len packet.now) (specs.ipv4_header packet.now)) }
    ensures stated { IfOk result (λ read. read.1 ≡ ipv4_stated_len packet.now) }
    ensures within { IfOk result (λ read. read.0.len ≤ length packet.now) }
    ensures counted { IfOk result (λ read. IfSome read.1 (λ len. read.0.len ≤ len)) }
{
    let header = ipv4_header(packet)?;
    let header_len = header.slice().len();
    let total_len = usize::from(header.total_len());
    if total_len != 0 && total_len < header_len {
        return Err(IpError::TotalLength {
            total_len,
            header_len,
        });
    }
    let headers = ipv4_headers(&header);
    let stated_len = if total_len == 0 {
        None
    } else {
        Some(total_len)
    };
    Ok((headers, stated_len))
}

/// The IPv4 header at the front of a packet.
#[inline(always)]
fn ipv4_header(packet: &[u8]) -> Result<Ipv4HeaderSlice<'_>, IpError>
    requires { version packet.now ≡ 4 }
    ensures refused { RefusesExactly result (ipv4_header_refusal packet.now) }
    ensures kept { IfOk result (λ header. header ≡ specs.ipv4_header packet.now) }
    ensures len { IfOk result (λ header. length header ≡ ipv4_header_len packet.now) }
    ensures shortest { IfOk result (λ header. 20 ≤ length header) }
    ensures within { IfOk result (λ header. length header ≤ length packet.now) }
{
    match Ipv4HeaderSlice::from_slice(packet) {
        Some(header) => Ok(header),
        None => Err(ipv4_header_error(packet)),
    }
}

/// Why a packet of version 4 begins with no IPv4 header.
fn ipv4_header_error(packet: &[u8]) -> IpError
    requires version { version packet.now ≡ 4 }
    requires none { BeginsWithIpv4Header packet.now → ⊥ }
    ensures { Some result ≡ ipv4_header_refusal packet.now }
{
    let len = packet.len();
    if len < IPV4_MIN_LEN {
        return IpError::HeaderCutOff {
            required_len: IPV4_MIN_LEN,
            len,
        };
    }
    let header_len = usize::from(packet[0] & 0xf) * 4;
    if header_len < IPV4_MIN_LEN {
        return IpError::HeaderLength { header_len };
    }
    IpError::HeaderCutOff {
        required_len: header_len,
        len,
    }
}

/// Reads an IPv6 header, and returns the packet length that it states, including the header itself. The length is `None` if the header
/// states none.
#[inline(always)]
fn read_ipv6_header(packet: &[u8]) -> Result<(Headers<'_>, Option<usize>), IpError>
    requires { version packet.now ≡ 6 }
    ensures refused { RefusesExactly result (ipv6_refusal packet.now) }
    ensures fixed { IfOk result (λ read. fixed_header packet.now ≡ Some (fixed_by_value read.0.fixed_header)) }
    ensures first { IfOk result (λ read. headers_by_value read.0 ≡ ipv6_headers (is_jumbogram packet.now) (specs.ipv6_header packet.now)) }
    ensures stated { IfOk result (λ read. read.1 ≡ ipv6_stated_len (specs.jumbo_len packet.now) (payload_len packet.now) (next_header packet.now)) }
    ensures within { IfOk result (λ read. read.0.len ≤ length packet.now) }
    ensures counted { IfOk result (λ read. IfSome read.1 (λ len. read.0.len ≤ len)) }
{
    let Some(header) = Ipv6HeaderSlice::from_slice(packet) else {
        return Err(IpError::HeaderCutOff {
            required_len: IPV6_LEN,
            len: packet.len(),
        });
    };
    let payload_len = usize::from(header.payload_length());
    let jumbo_len = jumbo_len(packet, payload_len, header.next_header())?;
    let headers = Headers {
        fixed_header: ipv6_fixed_header(header.slice()),
        addresses: IpAddresses::Ipv6 {
            source: ipv6_address(header.slice(), IPV6_SOURCE_AT),
            destination: Some(ipv6_address(header.slice(), IPV6_DESTINATION_AT)),
        },
        protocol: header.next_header(),
        len: IPV6_LEN,
        is_fragment: false,
        is_later_fragment: false,
        may_be_extended: true,
        payload_len,
        is_jumbogram: jumbo_len.is_some(),
    };
    let stated_len = ipv6_stated_len(jumbo_len, payload_len, header.next_header());
    Ok((headers, stated_len))
}

/// The jumbo payload length of an IPv6 packet. `None` if the packet has no jumbo payload length.
#[inline(always)]
fn jumbo_len(
    packet: &[u8],
    payload_len: usize,
    next_header: IpNumber,
) -> Result<Option<usize>, IpError>
    requires there { 40 ≤ length packet.now }
    requires payload_len { payload_len ≡ specs.payload_len packet.now }
    requires next_header { next_header.0 ≡ specs.next_header packet.now }
    ensures refused { RefusesExactly result (jumbo_refusal packet.now) }
    ensures len { IfOk result (λ len. len ≡ specs.jumbo_len packet.now) }
    ensures most { IfOk result (λ len. IfSome len (λ len. len < 2 ^ 32)) }
{
    if has_len_in_options(payload_len, next_header) {
        return len_in_options(&packet[IPV6_LEN..]);
    }
    Ok(None)
}

/// Whether the hop-by-hop options after an IPv6 header must contain the length of the packet.
#[inline(always)]
fn has_len_in_options(payload_len: usize, next_header: IpNumber) -> bool
    ensures { result ≡ (payload_len == 0 && next_header.0 == 0) }
{
    payload_len == 0 && next_header == ip_number::IPV6_HEADER_HOP_BY_HOP
}

/// The jumbo payload length in the hop-by-hop options at the front of `rest`, the bytes after an IPv6 header. `None` if the options contain
/// no jumbo payload option.
fn len_in_options(rest: &[u8]) -> Result<Option<usize>, IpError>
    ensures refused { RefusesExactly result (len_in_options_refusal rest.now) }
    ensures len { IfOk result (λ len. len ≡ specs.len_in_options rest.now) }
    ensures most { IfOk result (λ len. IfSome len (λ len. len < 2 ^ 32)) }
{
    match jumbo_payload_len(first_options(rest)?) {
        Some(jumbo_payload_len) if jumbo_payload_len <= MAX_PAYLOAD_LEN => {
            Err(IpError::JumboPayloadLength { jumbo_payload_len })
        }
        jumbo_len => Ok(jumbo_len),
    }
}

/// The hop-by-hop options at the front of `rest`, the bytes after an IPv6 header.
fn first_options(rest: &[u8]) -> Result<&[u8], IpError>
    ensures refused { RefusesExactly result (options_refusal rest.now) }
    ensures kept { IfOk result (λ options. options.now ≡ specs.options_at rest.now) }
    ensures shortest { IfOk result (λ options. 8 ≤ length options.now) }
{
    let len = IPV6_LEN + rest.len();
    if rest.len() < MIN_LEN {
        return Err(IpError::HeaderCutOff {
            required_len: IPV6_LEN + MIN_LEN,
            len,
        });
    }
    let options_len = extension_len(ip_number::IPV6_HEADER_HOP_BY_HOP, rest);
    if rest.len() < options_len {
        return Err(IpError::HeaderCutOff {
            required_len: IPV6_LEN + options_len,
            len,
        });
    }
    Ok(&rest[..options_len])
}

/// The packet length that an IPv6 header states, including the header itself. `None` if the header states no length.
#[inline(always)]
fn ipv6_stated_len(
    jumbo_len: Option<usize>,
    payload_len: usize,
    next_header: IpNumber,
) -> Option<usize>
    requires jumbo { IfSome jumbo_len (λ len. len < 2 ^ 32) }
    requires payload { payload_len < 2 ^ 16 }
    ensures stated { result ≡ specs.ipv6_stated_len jumbo_len payload_len next_header.0 }
    ensures least { IfSome result (λ len. 40 ≤ len) }
{
    match jumbo_len {
        Some(jumbo_len) => Some(IPV6_LEN + jumbo_len),
        None if payload_len == 0 && next_header != ip_number::IPV6_NO_NEXT_HEADER => None,
        None => Some(IPV6_LEN + payload_len),
    }
}
