ghost use Rattle.std.specs.Prelude.{◌≡◌, ◌≤◌, ◌*◌, IfOk, IfSome, IsSome, None, length, take};
ghost use Rattle.std.specs.Option.{option_map};
ghost use Rattle.net_base.specs.Bytes.{flag};
ghost use Rattle.net_base.specs.IpHeaders.{BeginsWithIpv4Header, BeginsWithIpv6Header};
ghost use Rattle.net_base.specs.Refusals.{RefusesExactly};
ghost use Rattle.reassembly.specs.Fragments.{by_value, first_refusal, fragment_of, fragment_refusal, ipv4_fragment_in, ipv6_fragment_by, ipv6_fragment_in, transport_header_len};
ghost use Rattle.ip_part.specs.ExtensionHeaders as specs;

use crate::fragment_header::{FRAGMENT_HEADER_LEN, fragment_header_at};
use crate::{FragmentError, FragmentKey};
use ip_part::transport_in_ip;
use net_base::{IpNumber, Ipv4HeaderSlice, Ipv6HeaderSlice, ip_number};

/// The shortest TCP header, in bytes (RFC 9293, section 3.1).
const TCP_MIN_LEN: usize = 20;

/// The length of a UDP header, in bytes (RFC 768).
const UDP_LEN: usize = 8;

/// The length of the header of an ICMPv6 message: type, code and checksum (RFC 4443, section 2.1).
const ICMPV6_LEN: usize = 4;

/// A fragment of an IP packet (RFC 791, section 3.2; RFC 8200, section 4.5).
#[derive(Clone, Copy, Debug, PartialEq, Eq)]
pub struct Fragment<'a> {
    /// The key, which all fragments of the packet share.
    pub key: FragmentKey,
    /// The place of the first byte in the payload of the whole packet, in bytes.
    pub offset: u16,
    /// Whether more fragments of the packet come after this fragment.
    pub more_fragments: bool,
    /// The bytes after the IPv4 header, or after the fragment header of IPv6, without padding.
    pub payload: &'a [u8],
    /// The bytes before the payload: the IPv4 header, or the IPv6 header and all headers up to the fragment header.
    pub header: &'a [u8],
}

impl<'a> Fragment<'a> {
    /// Reads the fragment in an IP packet. `None` if the packet is whole. A whole IPv4 packet has a fragment offset of 0 and no more
    /// fragments. A whole IPv6 packet has no fragment header, or is an atomic fragment (RFC 6946). If an IPv6 packet has several fragment
    /// headers, the first is read.
    ///
    /// # Errors
    ///
    /// The call checks these cases, in this order:
    /// - `Ip` with the error of `transport_in_ip`, for example if the fragment is cut off.
    /// - `HeaderChainCutOff` if the first fragment over IPv6 ends within the header of TCP, UDP or ICMPv6 (RFC 7112, section 5).
    #[inline(always)]
    pub fn of(packet: &'a [u8]) -> Result<Option<Fragment<'a>>, FragmentError>
        ensures refused { RefusesExactly result (fragment_refusal packet.now) }
        ensures found { IfOk result (λ found. option_map by_value found ≡ fragment_of packet.now) }
    {
        // Most packets are over IPv4 and have no authentication header. Then no other header is read. The second match makes the result
        // anew, which keeps the fragment in registers.
        match ipv4_len(packet) {
            Some(len) => match fragment_over_ipv4(&packet[..len]) {
                Some(fragment) => Ok(Some(fragment)),
                None => Ok(None),
            },
            None => fragment_in(packet),
        }
    }
}

/// The total length of an IPv4 packet that is not cut off and has no authentication header. `None` for any other packet.
#[inline(always)]
fn ipv4_len(packet: &[u8]) -> Option<usize>
    ensures accepted { IsSome result → fragment_refusal packet.now ≡ None }
    ensures found { IfSome result (λ len. fragment_of packet.now ≡ ipv4_fragment_in (take len packet.now)) }
    ensures begins { IfSome result (λ len. BeginsWithIpv4Header (take len packet.now)) }
    ensures within { IfSome result (λ len. len ≤ length packet.now) }
{
    let header = Ipv4HeaderSlice::from_slice(packet)?;
    let total_len = usize::from(header.total_len());
    let is_extended = header.protocol() == ip_number::AUTHENTICATION_HEADER;
    if total_len < header.slice().len() || packet.len() < total_len || is_extended {
        return None;
    }
    Some(total_len)
}

/// The fragment in an IP packet of either version, which is read with all its headers.
fn fragment_in(packet: &[u8]) -> Result<Option<Fragment<'_>>, FragmentError>
    ensures refused { RefusesExactly result (fragment_refusal packet.now) }
    ensures found { IfOk result (λ found. option_map by_value found ≡ fragment_of packet.now) }
{
    let transport = match transport_in_ip(packet) {
        Ok(transport) => transport,
        Err(error) => return Err(FragmentError::Ip(error)),
    };
    let counted = &packet[..transport.counted_len];
    if packet[0] >> 4 == 4 {
        return Ok(fragment_over_ipv4(counted));
    }
    let fragment = fragment_over_ipv6(counted);
    check_header_chain(&fragment, transport.protocol, transport.payload)?;
    Ok(fragment)
}

/// The fragment in an IPv4 packet without padding, or `None` if the packet is not a fragment.
#[inline(always)]
fn fragment_over_ipv4(counted: &[u8]) -> Option<Fragment<'_>>
    requires { BeginsWithIpv4Header counted.now }
    ensures { option_map by_value result ≡ ipv4_fragment_in counted.now }
{
    let header = Ipv4HeaderSlice::from_slice(counted)?;
    if !header.is_fragmenting_payload() {
        return None;
    }
    Some(Fragment {
        key: FragmentKey::Ipv4 {
            source: header.source(),
            destination: header.destination(),
            protocol: header.protocol(),
            identification: header.identification(),
        },
        offset: header.fragments_offset() * 8,
        more_fragments: header.more_fragments(),
        payload: &counted[header.slice().len()..],
        header: header.slice(),
    })
}

/// The fragment in an IPv6 packet without padding, or `None` if the packet is whole.
fn fragment_over_ipv6(counted: &[u8]) -> Option<Fragment<'_>>
    requires { BeginsWithIpv6Header counted.now }
    ensures { option_map by_value result ≡ ipv6_fragment_in counted.now }
{
    let place = fragment_header_at(counted)?.place;
    let header = Ipv6HeaderSlice::from_slice(counted)?;
    fragment_at(
        &header,
        &counted[..place + FRAGMENT_HEADER_LEN],
        &counted[place..],
    )
}

/// The fragment in an IPv6 packet with this header. `headers` ends with the fragment header, and `rest` begins with it. `None` for an
/// atomic fragment.
fn fragment_at<'a>(
    header: &Ipv6HeaderSlice<'_>,
    headers: &'a [u8],
    rest: &'a [u8],
) -> Option<Fragment<'a>>
    requires { 8 ≤ length rest.now }
    ensures { option_map by_value result ≡ ipv6_fragment_by header.now headers.now rest.now }
{
    let offset = fragment_offset(rest);
    let more_fragments = has_more_fragments(rest);
    if offset == 0 && !more_fragments {
        return None;
    }
    Some(Fragment {
        key: FragmentKey::Ipv6 {
            source: header.source(),
            destination: header.destination(),
            identification: u32::from_be_bytes([rest[4], rest[5], rest[6], rest[7]]),
        },
        offset,
        more_fragments,
        payload: &rest[FRAGMENT_HEADER_LEN..],
        header: headers,
    })
}

/// The offset in this fragment header, in bytes. The header counts units of 8 bytes.
fn fragment_offset(fragment_header: &[u8]) -> u16
    requires { 8 ≤ length fragment_header.now }
    ensures { result ≡ specs.fragment_offset fragment_header.now * 8 }
{
    u16::from_be_bytes([fragment_header[2], fragment_header[3]]) / 8 * 8
}

/// Whether this fragment header states that more fragments follow.
fn has_more_fragments(fragment_header: &[u8]) -> bool
    requires { 8 ≤ length fragment_header.now }
    ensures { result ≡ flag fragment_header.now 3 1 }
{
    fragment_header[3] & 1 != 0
}

/// Refuses a first fragment if the bytes of its transport are fewer than the transport header (RFC 7112, section 5).
fn check_header_chain(
    fragment: &Option<Fragment<'_>>,
    protocol: IpNumber,
    bytes: &[u8],
) -> Result<(), FragmentError>
    ensures { RefusesExactly result (first_refusal (option_map by_value fragment.now) protocol.0 bytes.now) }
{
    let Some(Fragment { offset: 0, .. }) = fragment else {
        return Ok(());
    };
    let required_len = transport_header_len(protocol, bytes);
    if bytes.len() < required_len {
        return Err(FragmentError::HeaderChainCutOff {
            required_len,
            len: bytes.len(),
        });
    }
    Ok(())
}

/// The length of the transport header at the front of these bytes. For TCP it is 20 if there are fewer than 20 bytes. For a protocol other
/// than TCP, UDP and ICMPv6 it is 0.
fn transport_header_len(protocol: IpNumber, bytes: &[u8]) -> usize
    ensures { result ≡ transport_header_len protocol.0 bytes.now }
{
    if protocol == ip_number::UDP {
        return UDP_LEN;
    }
    if protocol == ip_number::IPV6_ICMP {
        return ICMPV6_LEN;
    }
    if protocol != ip_number::TCP {
        return 0;
    }
    if bytes.len() < TCP_MIN_LEN {
        return TCP_MIN_LEN;
    }
    usize::from(bytes[12] >> 4) * 4
}
