ghost use Rattle.std.specs.Prelude.{◌≡◌, ◌-◌, IfErr, IfOk, IsOkAnd, None, false, length};
ghost use Rattle.net_base.specs.IpHeaders.{version};
ghost use Rattle.net_base.specs.Refusals.{RefusesExactly};
ghost use Rattle.ip_part.specs.Addresses.{by_value};
ghost use Rattle.ip_part.specs.Ip.{Carries, IsAfterHeaders, IsOverIpv4, IsOverIpv6, IsRefusedAfterHeaders, first_headers, header_refusal, is_cut_off, is_extended, lacks_len, lax_refusal, refusal, strict_header_refusal};
ghost use Rattle.ip_part.specs.Protocols as specs;

use crate::extension_headers::read_extension_headers;
use crate::ip_header::{read_ip_header, read_ip_header_with_len};
use crate::{FixedHeader, IpAddresses, IpError, Proto, proto_over};
use net_base::IpNumber;

/// A transport that was found in an IP packet (RFC 791, section 3.1; RFC 8200, sections 3 and 4).
///
/// ```
/// use etherparse_transport::Proto;
/// use etherparse_transport::ip::transport_in_ip;
///
/// let packet = [
///     0x45, 0, 0, 29, 0, 0, 0, 0, 64, 17, 0, 0, 192, 168, 1, 1, 192, 168, 1, 2, // IPv4
///     0x00, 0x15, 0x04, 0xD2, 0x00, 0x09, 0x00, 0x00, b'a', 0, 0, // UDP and padding
/// ];
/// let found = transport_in_ip(&packet)?;
/// assert_eq!(rt; (found.proto(), found.payload_offset), (Some(Proto::Udp), 20));
/// assert_eq!(rt; found.payload, &packet[20..29]);
/// ```
#[derive(Clone, Copy, Debug, PartialEq, Eq)]
pub struct TransportInIp<'a> {
    /// The addresses that a checksum covers.
    pub addresses: IpAddresses<'a>,
    /// The protocol of the payload.
    pub protocol: IpNumber,
    /// The bytes after all headers, up to the end that the IP header states. Padding is not part of the payload. If the IP header states no
    /// length, these are all bytes after the headers.
    pub payload: &'a [u8],
    /// The start of the payload, in bytes from the start of the packet: the length of all headers.
    pub payload_offset: usize,
    /// Whether the payload is only a part of the payload of the original packet: more fragments follow, or the fragment offset is above 0.
    /// Then the transport checksum can't be checked. If neither is true for a fragment header, the packet is whole (RFC 6946).
    pub is_fragment: bool,
    /// Whether the packet is a later fragment: its fragment offset is above 0. Then the payload does not begin with a transport header,
    /// since it is a later part of the original payload.
    pub is_later_fragment: bool,
    /// Whether the IP header counts more bytes than the slice contains. It is always false after `transport_in_ip`.
    pub is_cut_off: bool,
    /// Whether the IP header states no length, so that all bytes of the slice are counted. An IPv4 header states none if the total length
    /// is 0. An IPv6 header states none if the payload length is 0, there is no jumbo payload option, and the next header is not "no next
    /// header". This is always false after `transport_in_ip`.
    pub is_length_missing: bool,
    /// The fixed part of the IP header, with its addresses and its hop limit.
    pub fixed_header: FixedHeader<'a>,
    /// The length of the IP header, in bytes. Over IPv4 it is 20 to 60, and includes the options. Over IPv6 it is 40, and excludes
    /// extension headers.
    pub header_len: usize,
    /// The number of bytes that the IP header counts, including the header itself. If the packet is cut off, the slice contains fewer
    /// bytes. If the IP header states no length, all bytes of the slice are counted.
    pub counted_len: usize,
}

impl<'a> TransportInIp<'a> {
    /// The protocol of the payload: `proto_over` of the fields `addresses` and `protocol`. A fragment has a protocol too.
    #[inline(always)]
    pub fn proto(&self) -> Option<Proto>
        ensures { result ≡ specs.proto_over (by_value self.now.addresses) self.now.protocol.0 }
    {
        proto_over(self.addresses, self.protocol)
    }

    /// The number of bytes that the IP header counts but the slice does not contain. It is above 0 only if the packet is cut off.
    pub fn missing_len(&self) -> usize
        ensures { result ≡ self.now.counted_len - self.now.payload_offset - length self.now.payload.now }
    {
        self.counted_len
            .saturating_sub(self.payload_offset)
            .saturating_sub(self.payload.len())
    }
}

/// Finds the transport in the IP packet at the front of the slice. Bytes that the IP header does not count are padding, and are left out.
/// No checksum is checked.
///
/// Over IPv4 the call skips the options and an authentication header directly after them (RFC 4302, section 3.1). A second authentication
/// header is not skipped: its number is the protocol. In a later fragment no header follows the IPv4 header. Option 131 is a loose source
/// route, and option 137 is a strict one. If the pointer of the first route is not past the end of the route, the last address of the route
/// is the destination (RFC 791, section 3.1; RFC 1122, section 3.2.1.8). Reading stops at the end of the list of options, or at an option
/// that states a length below 2 or goes beyond the header. A route is ignored if it does not contain whole addresses, or if its pointer is
/// not at the first byte of an address.
///
/// Over IPv6 the call skips these extension headers, in any order: hop-by-hop options, routing, fragment, destination options (RFC 8200,
/// section 4), authentication (RFC 4302, section 2), mobility (RFC 6275, section 6.1), Host Identity Protocol (RFC 7401, section 5.1) and
/// Shim6 (RFC 5533, section 5.1). Any other number is the protocol, including Encapsulating Security Payload, "no next header", and the two
/// experimental numbers, 253 and 254. In a later fragment no header follows the fragment header, which states the protocol. The last
/// routing header with segments left states the final destination (RFC 8200, sections 4.4 and 8.1). If destination options contain home
/// addresses, option 0xC9 with 16 bytes of data, the last home address is the source (RFC 6275, sections 6.3 and 9.3.1). An option 0xC9 of
/// another length is ignored. No option is read after an option that goes beyond its header.
///
/// If the payload length is 0, no bytes after the IPv6 header are counted. There is one exception: if hop-by-hop options follow the IPv6
/// header directly, they must contain the length, as in a jumbogram. The number in their first option 0xC2 with 4 bytes of data counts the
/// bytes after the IPv6 header (RFC 2675, section 2). The option is only read in hop-by-hop options directly after the IPv6 header.
///
/// # Errors
///
/// The call checks these cases, in this order:
/// - `HeaderCutOff` with a `required_len` of 1 if the slice is empty.
/// - `Version` if the version is neither 4 nor 6.
/// - Over IPv4:
///   - `HeaderCutOff` if the slice is shorter than 20 bytes.
///   - `HeaderLength` if the stated header length is below 20 bytes.
///   - `HeaderCutOff` if the slice is shorter than the stated header length.
///   - `TotalLength` if the total length is below the header length.
/// - Over IPv6: `HeaderCutOff` if the slice is shorter than 40 bytes.
/// - Over IPv6 with payload length 0 and next header 0 (RFC 2675, section 3):
///   - `HeaderCutOff` if the slice ends before the end of the hop-by-hop options.
///   - `JumboPayloadLength` if the jumbo payload length is at most 65,535.
///   - `JumboPayloadMissing` if the options contain no jumbo payload option.
/// - `PacketCutOff` if the slice contains fewer bytes than the header counts.
/// - For each extension header in turn:
///   - `ExtensionHeaderCutOff` if the header ends beyond the counted bytes.
///   - `JumboPayloadUnexpected` if the header is hop-by-hop options with a jumbo payload option, directly after an IPv6 header whose
///     payload length is not 0 (RFC 2675, section 3).
///   - `JumboPayloadFragment` if the header is a fragment header in a jumbogram (RFC 2675, section 3).
#[inline(always)]
pub fn transport_in_ip(packet: &[u8]) -> Result<TransportInIp<'_>, IpError>
    ensures refused { RefusesExactly result (refusal packet.now) }
    ensures refused_after { strict_header_refusal packet.now ≡ None → is_cut_off false packet.now ≡ false →
        IfErr result (λ error. IsRefusedAfterHeaders false packet.now error) }
    ensures found { IfOk result (λ transport. Carries packet.now transport) }
    ensures whole { IfOk result (λ transport. transport.is_cut_off ≡ false) }
    ensures stated { IfOk result (λ transport. transport.is_length_missing ≡ false) }
    ensures parts { IfOk result (λ transport. IsAfterHeaders packet.now transport) }
    ensures over_ipv4 { version packet.now ≡ 4 → IfOk result (λ transport. IsOverIpv4 packet.now transport) }
    ensures over_ipv6 { version packet.now ≡ 6 → is_extended (first_headers packet.now) ≡ false →
        IfOk result (λ transport. IsOverIpv6 packet.now transport) }
{
    let (first, counted_len) = read_ip_header_with_len(packet)?;
    if packet.len() < counted_len {
        return Err(IpError::PacketCutOff {
            required_len: counted_len,
            len: packet.len(),
        });
    }
    let counted = &packet[..counted_len];
    let headers = read_extension_headers(counted, first)?;
    Ok(TransportInIp {
        addresses: headers.addresses,
        protocol: headers.protocol,
        payload: &counted[headers.len..],
        payload_offset: headers.len,
        is_fragment: headers.is_fragment,
        is_later_fragment: headers.is_later_fragment,
        is_cut_off: false,
        is_length_missing: false,
        fixed_header: first.fixed_header,
        header_len: first.len,
        counted_len,
    })
}

/// Finds the transport in an IP packet that may be cut off or state no length. Captures often keep only the first bytes of each packet, and
/// a host may leave the length to its network card. The call differs from `transport_in_ip` only for these packets, which it accepts:
/// - If the slice contains fewer bytes than the header counts, `payload` contains the bytes that are present, and `is_cut_off` is true.
/// - An IPv4 packet states no length if its total length is 0. An IPv6 packet states no length if its payload length is 0 and it has no
///   jumbo payload length. Then all bytes of the slice are counted, including padding, and `is_length_missing` is true. The exception is an
///   IPv6 packet with payload length 0 and "no next header", which ends with its header (RFC 8200, section 4.7). No byte after this header
///   is counted, and `is_length_missing` is false.
///
/// # Errors
///
/// The errors of `transport_in_ip`, except `PacketCutOff`, `JumboPayloadMissing`, and `TotalLength` with a total length of 0.
/// `ExtensionHeaderCutOff` is also returned if the slice ends within an extension header.
#[inline(always)]
pub fn transport_in_ip_lax(packet: &[u8]) -> Result<TransportInIp<'_>, IpError>
    ensures refused { RefusesExactly result (lax_refusal packet.now) }
    ensures refused_after { header_refusal packet.now ≡ None →
        IfErr result (λ error. IsRefusedAfterHeaders (lacks_len packet.now) packet.now error) }
    ensures found { IfOk result (λ transport. Carries packet.now transport) }
    ensures stated { IfOk result (λ transport. transport.is_length_missing ≡ lacks_len packet.now) }
    ensures parts { IfOk result (λ transport. IsAfterHeaders packet.now transport) }
    ensures over_ipv4 { version packet.now ≡ 4 → IfOk result (λ transport. IsOverIpv4 packet.now transport) }
    ensures over_ipv6 { version packet.now ≡ 6 → is_extended (first_headers packet.now) ≡ false →
        IfOk result (λ transport. IsOverIpv6 packet.now transport) }
    ensures as_strict { refusal packet.now ≡ None → IsOkAnd result (λ transport. transport.is_cut_off ≡ false) }
{
    let (first, stated_len) = read_ip_header(packet)?;
    let counted_len = stated_len.unwrap_or(packet.len());
    let counted = &packet[..counted_len.min(packet.len())];
    let headers = read_extension_headers(counted, first)?;
    Ok(TransportInIp {
        addresses: headers.addresses,
        protocol: headers.protocol,
        payload: &counted[headers.len..],
        payload_offset: headers.len,
        is_fragment: headers.is_fragment,
        is_later_fragment: headers.is_later_fragment,
        is_cut_off: packet.len() < counted_len,
        is_length_missing: stated_len.is_none(),
        fixed_header: first.fixed_header,
        header_len: first.len,
        counted_len,
    })
}
