ghost use Rattle.std.specs.Prelude.{◌≡◌, ◌≤◌, ◌+◌, ◌++◌, [], IfErr, IfOk, None, Some, drop, length, slice_range, take};
ghost use Rattle.std.specs.Option.{option_map};
ghost use Rattle.icmp_part.specs.QuotedPackets.{quoted_by_icmpv4, quoted_by_icmpv6};
ghost use Rattle.ip_part.specs.Addresses as addresses;
ghost use Rattle.ip_part.specs.FixedHeaders.{fixed_by_value};
ghost use Rattle.ip_part.specs.Ip as ip;
ghost use Rattle.net_base.specs.Refusals.{RefusesExactly};
ghost use Rattle.word_sum.specs.Checksum.{Verifies};
ghost use Rattle.etherparse_transport.specs.IcmpErrors as specs;
ghost use Rattle.etherparse_transport.specs.IcmpErrors.{HasGateway, IsFromIpv4, IsFromIpv6, about_refusal, icmpv4_error, icmpv4_header, icmpv4_refusal, icmpv6_error, icmpv6_header, icmpv6_refusal, ipv4_quote, ipv4_rules, ipv6_quote, ipv6_rules};
ghost use Rattle.etherparse_transport.specs.Packets.{IsReadAs, sent_over_ipv4, sent_over_ipv6};
ghost use Rattle.etherparse_transport.specs.declared.err.packet.error_about_error.ErrorAboutError.TheVariants.{Ip};

use crate::err::packet::{BuildSliceWriteError, ErrorAboutError};
use crate::icmpv4::RedirectHeader;
use crate::icmpv6::CODE_PARAM_PROBLEM_UNRECOG_IPV6_OPTION;
use crate::ip::echo_reply::{is_group_ipv4, is_group_ipv6, is_host_ipv4, is_host_ipv6};
use crate::ip::ip_header::{IPV4_LEN, IPV6_LEN};
use crate::ip::{
    FixedHeader, TransportInIp, transport_in_ip_lax, write_packet_ipv4, write_packet_ipv6,
};
use crate::{
    Icmpv4Header, Icmpv4Type, Icmpv6Header, Icmpv6Type, TransportHeader, icmpv4, icmpv6, ip_number,
};

/// The greatest length of an ICMP error over IPv4, in bytes (RFC 1812, section 4.3.2.3).
const MAX_ERROR_LEN_IPV4: usize = 576;

/// The greatest length of an ICMP error over IPv6, in bytes: the minimum MTU (RFC 4443, section 2.4, rule c).
const MAX_ERROR_LEN_IPV6: usize = 1280;

/// The length of IPv4 header and ICMPv4 header, in bytes.
const FRONT_LEN_IPV4: usize = IPV4_LEN + Icmpv4Header::MIN_LEN;

/// The length of IPv6 header and ICMPv6 header, in bytes.
const FRONT_LEN_IPV6: usize = IPV6_LEN + Icmpv6Header::MIN_LEN;

/// Writes an ICMPv4 error about a packet to the front of the slice, and returns its length in bytes (RFC 792; RFC 1122, section 3.2.2). The
/// error is an IPv4 packet from the passed source to the source of the packet, with both checksums. The rest of the slice is unchanged.
///
/// The error quotes the packet from its first byte on: all bytes that its IP header counts and that are present, but at most 548. So the
/// error has at most 576 bytes (RFC 1812, section 4.3.2.3). If the IP header states no length, all bytes of the packet are counted. Pass
/// the packet as it was received, before its hop limit is lowered (RFC 1812, section 4.3.2.3).
///
/// ```
/// let icmp_type = Icmpv4Type::TimeExceeded(icmpv4::TimeExceededCode::TtlExceededInTransit);
/// let len = ip::icmpv4_error_about(&mut buffer, &packet, icmp_type, [192, 168, 1, 254], 64)?;
/// send(&buffer[..len]);
/// ```
///
/// The call knows neither the link layer nor the network. The caller must not send an error about a broadcast or multicast of the link
/// layer, or about a packet to the broadcast address of a network (RFC 1122, section 3.2.2). The caller must also limit the rate of errors
/// (RFC 1812, section 4.3.2.8).
///
/// # Errors
///
/// The call checks these cases, in this order, and changes nothing after an error:
/// - `NoErrorType` unless the message is `DestinationUnreachable`, `Redirect`, `TimeExceeded` or `ParameterProblem`, or if the gateway of
///   a redirect is not the address of one host.
/// - `Ip` if `transport_in_ip_lax` refuses the packet, and `OtherVersion` for an IPv6 packet.
/// - `LaterFragment` for a fragment with an offset above 0.
/// - `IcmpError` if the packet contains an ICMPv4 error (type 3, 4, 5, 11 or 12) or an ICMPv4 message whose type is cut off.
/// - `GroupDestination` if the destination in the IP header is 255.255.255.255 or a multicast address.
/// - `PacketSource` if the source in the IP header is 0.0.0.0, 255.255.255.255, a loopback address or a multicast address.
/// - `ErrorSource` if the passed source is an address that `PacketSource` lists.
/// - `Space` if the slice is shorter than the error.
pub fn icmpv4_error_about(
    slice: &mut [u8],
    packet: &[u8],
    icmp_type: Icmpv4Type,
    source: [u8; 4],
    time_to_live: u8,
) -> Result<usize, ErrorAboutError>
    ensures refused { RefusesExactly result (icmpv4_refusal icmp_type source packet.now (length slice.old)) }
    ensures unchanged { IfErr result (λ _. slice.new ≡ slice.old) }
    ensures len { IfOk result (λ len. len ≡ specs.ipv4_front_len + length (ipv4_quote packet.now)) }
    ensures most { IfOk result (λ len. len ≤ specs.max_error_len_ipv4) }
    ensures written { IfOk result (λ len. slice.new ≡ icmpv4_error icmp_type source time_to_live packet.now ++ drop len slice.old) }
    // The error is read back with the beginning of the packet as its payload, and its checksum is right.
    ensures read { IfOk result (λ _. IsReadAs slice.new (addresses.Ipv4 source (slice_range packet.now 12 16))
        (sent_over_ipv4 source (slice_range packet.now 12 16) (icmpv4_header icmp_type) (ipv4_quote packet.now)) (ipv4_quote packet.now)) }
    // The checksum of the IP header is also right.
    ensures verifies { IfOk result (λ _. Verifies [] (ip.ipv4_header slice.new)) }
    // `quoted_packet` finds the beginning of the packet in the error.
    ensures quoted { IfOk result (λ len. quoted_by_icmpv4 (slice_range slice.new 20 len) ≡ Some (ipv4_quote packet.now)) }
{
    if !is_icmpv4_error_type(&icmp_type) {
        return Err(ErrorAboutError::NoErrorType);
    }
    let (destination, quote) = quoted_ipv4(packet)?;
    if !is_host_ipv4(source) {
        return Err(ErrorAboutError::ErrorSource);
    }
    let len = FRONT_LEN_IPV4 + quote.len();
    if slice.len() < len {
        return Err(ErrorAboutError::Space {
            required_len: len,
            len: slice.len(),
        });
    }
    let header = TransportHeader::Icmpv4(Icmpv4Header {
        icmp_type,
        checksum: 0,
    });
    write_packet_ipv4(slice, source, destination, time_to_live, &header, quote).unwrap();
    Ok(len)
}

/// Writes an ICMPv6 error about a packet to the front of the slice, and returns its length in bytes (RFC 4443, sections 2.4 and 3). The
/// error is an IPv6 packet from the passed source to the source of the packet, with its checksum. The rest of the slice is unchanged.
///
/// The error quotes the packet from its first byte on: all bytes that its IP header counts and that are present, but at most 1,232. So the
/// error has at most 1,280 bytes, the minimum MTU (RFC 4443, section 2.4, rule c). If the IP header states no length, all bytes of the
/// packet are counted.
///
/// ```
/// let len = ip::icmpv6_error_about(&mut buffer, &packet, Icmpv6Type::PacketTooBig { mtu: 1280 }, source, 64)?;
/// send(&buffer[..len]);
/// ```
///
/// The call knows neither the link layer nor anycast addresses. The caller must not send an error about a broadcast or multicast of the
/// link layer, or about a packet from an anycast address (RFC 4443, section 2.4, rules e.4 to e.6). The caller must also limit the rate of
/// errors (rule f).
///
/// # Errors
///
/// The call checks these cases, in this order, and changes nothing after an error:
/// - `NoErrorType` unless the message is `DestinationUnreachable`, `PacketTooBig`, `TimeExceeded` or `ParameterProblem`.
/// - `Ip` if `transport_in_ip_lax` refuses the packet, and `OtherVersion` for an IPv4 packet.
/// - `LaterFragment` for a fragment with an offset above 0.
/// - `IcmpError` if the packet contains an ICMPv6 error (type below 128), a redirect (type 137), or an ICMPv6 message whose type is cut
///   off.
/// - `GroupDestination` if the destination in the IP header is a multicast address, and the message is neither `PacketTooBig` nor a
///   parameter problem with code 2. Send such a parameter problem only if the high two bits of the option type are 10 (rule e.3).
/// - `PacketSource` if the source in the IP header is the unspecified address, ::1 or a multicast address.
/// - `ErrorSource` if the passed source is an address that `PacketSource` lists.
/// - `Space` if the slice is shorter than the error.
pub fn icmpv6_error_about(
    slice: &mut [u8],
    packet: &[u8],
    icmp_type: Icmpv6Type,
    source: [u8; 16],
    hop_limit: u8,
) -> Result<usize, ErrorAboutError>
    ensures refused { RefusesExactly result (icmpv6_refusal icmp_type source packet.now (length slice.old)) }
    ensures unchanged { IfErr result (λ _. slice.new ≡ slice.old) }
    ensures len { IfOk result (λ len. len ≡ specs.ipv6_front_len + length (ipv6_quote packet.now)) }
    ensures most { IfOk result (λ len. len ≤ specs.max_error_len_ipv6) }
    ensures written { IfOk result (λ len. slice.new ≡ icmpv6_error icmp_type source hop_limit packet.now ++ drop len slice.old) }
    // The error is read back with the beginning of the packet as its payload, and its checksum is right.
    ensures read { IfOk result (λ _. IsReadAs slice.new (addresses.Ipv6 source (Some (slice_range packet.now 8 24)))
        (sent_over_ipv6 source (slice_range packet.now 8 24) (icmpv6_header icmp_type) (ipv6_quote packet.now)) (ipv6_quote packet.now)) }
    // `quoted_packet` finds the beginning of the packet in the error.
    ensures quoted { IfOk result (λ len. quoted_by_icmpv6 (slice_range slice.new 40 len) ≡ Some (ipv6_quote packet.now)) }
{
    if !is_icmpv6_error_type(&icmp_type) {
        return Err(ErrorAboutError::NoErrorType);
    }
    let (destination, quote) = quoted_ipv6(packet, &icmp_type)?;
    if !is_host_ipv6(source) {
        return Err(ErrorAboutError::ErrorSource);
    }
    let len = FRONT_LEN_IPV6 + quote.len();
    if slice.len() < len {
        return Err(ErrorAboutError::Space {
            required_len: len,
            len: slice.len(),
        });
    }
    let header = TransportHeader::Icmpv6(Icmpv6Header {
        icmp_type,
        checksum: 0,
    });
    write_packet_ipv6(slice, source, destination, hop_limit, &header, quote).unwrap();
    Ok(len)
}

// ---- the message

/// Whether this is the message of an ICMPv4 error. A redirect is one only if its gateway is the address of one host.
fn is_icmpv4_error_type(icmp_type: &Icmpv4Type) -> bool
    ensures is { result ≡ specs.is_icmpv4_error_type icmp_type.now }
    ensures gateway { HasGateway icmp_type.now }
{
    match icmp_type {
        Icmpv4Type::Redirect(redirect) => is_host_ipv4(gateway(redirect)),
        Icmpv4Type::DestinationUnreachable(_)
        | Icmpv4Type::TimeExceeded(_)
        | Icmpv4Type::ParameterProblem(_) => true,
        Icmpv4Type::Unknown { .. }
        | Icmpv4Type::EchoReply(_)
        | Icmpv4Type::EchoRequest(_)
        | Icmpv4Type::TimestampRequest(_)
        | Icmpv4Type::TimestampReply(_) => false,
    }
}

/// The address of the gateway in a redirect.
fn gateway(redirect: &RedirectHeader) -> [u8; 4]
    ensures { result ≡ redirect.now.gateway_internet_address }
{
    redirect.gateway_internet_address
}

/// Whether this is the message of an ICMPv6 error.
fn is_icmpv6_error_type(icmp_type: &Icmpv6Type) -> bool
    ensures { result ≡ specs.is_icmpv6_error_type icmp_type.now }
{
    match icmp_type {
        Icmpv6Type::DestinationUnreachable(_)
        | Icmpv6Type::PacketTooBig { .. }
        | Icmpv6Type::TimeExceeded(_)
        | Icmpv6Type::ParameterProblem(_) => true,
        Icmpv6Type::Unknown { .. }
        | Icmpv6Type::EchoRequest(_)
        | Icmpv6Type::EchoReply(_)
        | Icmpv6Type::RouterSolicitation
        | Icmpv6Type::RouterAdvertisement(_)
        | Icmpv6Type::NeighborSolicitation
        | Icmpv6Type::NeighborAdvertisement(_)
        | Icmpv6Type::Redirect => false,
    }
}

/// Whether this error is also sent about a packet to a multicast address.
fn may_be_about_group(icmp_type: &Icmpv6Type) -> bool
    ensures { result ≡ specs.may_be_about_group icmp_type.now }
{
    match icmp_type {
        Icmpv6Type::PacketTooBig { .. } => true,
        Icmpv6Type::ParameterProblem(problem) => {
            problem.code.code_u8() == CODE_PARAM_PROBLEM_UNRECOG_IPV6_OPTION
        }
        _ => false,
    }
}

// ---- the packet

/// The source of an IPv4 packet, which is the destination of an error about it, and the beginning of the packet that the error quotes.
fn quoted_ipv4(packet: &[u8]) -> Result<([u8; 4], &[u8]), ErrorAboutError>
    ensures refused { RefusesExactly result (about_refusal ipv4_rules packet.now) }
    ensures source { IfOk result (λ quoted. quoted.0 ≡ slice_range packet.now 12 16) }
    ensures quote { IfOk result (λ quoted. quoted.1.now ≡ ipv4_quote packet.now) }
{
    let found = find_lax(packet)?;
    let source = source_ipv4(&found)?;
    let max_len = MAX_ERROR_LEN_IPV4 - FRONT_LEN_IPV4;
    Ok((source, beginning(packet, found.counted_len, max_len)))
}

/// The source of an IPv6 packet, which is the destination of an error about it, and the beginning of the packet that the error quotes.
fn quoted_ipv6<'a>(
    packet: &'a [u8],
    icmp_type: &Icmpv6Type,
) -> Result<([u8; 16], &'a [u8]), ErrorAboutError>
    ensures refused { RefusesExactly result (about_refusal (ipv6_rules (specs.may_be_about_group icmp_type.now)) packet.now) }
    ensures source { IfOk result (λ quoted. quoted.0 ≡ slice_range packet.now 8 24) }
    ensures quote { IfOk result (λ quoted. quoted.1.now ≡ ipv6_quote packet.now) }
{
    let found = find_lax(packet)?;
    let source = source_ipv6(&found, icmp_type)?;
    let max_len = MAX_ERROR_LEN_IPV6 - FRONT_LEN_IPV6;
    Ok((source, beginning(packet, found.counted_len, max_len)))
}

/// Finds the transport in an IP packet. The packet may be cut off or state no length.
#[inline(always)]
fn find_lax(packet: &[u8]) -> Result<TransportInIp<'_>, ErrorAboutError>
    ensures refused { RefusesExactly result (option_map Ip (ip.lax_refusal packet.now)) }
    ensures accepted { IfOk result (λ _. ip.lax_refusal packet.now ≡ None) }
    ensures found { IfOk result (λ transport. ip.Carries packet.now transport) }
    ensures stated { IfOk result (λ transport. transport.is_length_missing ≡ ip.lacks_len packet.now) }
{
    match transport_in_ip_lax(packet) {
        Ok(found) => Ok(found),
        Err(error) => Err(ErrorAboutError::Ip(error)),
    }
}

/// The source in the IPv4 header of a packet. Refuses a packet about which no error is sent.
fn source_ipv4(found: &TransportInIp<'_>) -> Result<[u8; 4], ErrorAboutError>
    ensures refused { RefusesExactly result (ipv4_rules (fixed_by_value found.now.fixed_header) found.now.is_later_fragment
        found.now.protocol.0 found.now.payload.now) }
    ensures source { IfOk result (λ source. IsFromIpv4 source (fixed_by_value found.now.fixed_header)) }
{
    let FixedHeader::Ipv4 {
        source,
        destination,
        ..
    } = found.fixed_header
    else {
        return Err(ErrorAboutError::OtherVersion);
    };
    if found.is_later_fragment {
        return Err(ErrorAboutError::LaterFragment);
    }
    if found.protocol == ip_number::ICMP && may_be_icmpv4_error(found.payload) {
        return Err(ErrorAboutError::IcmpError);
    }
    if is_group_ipv4(*destination) {
        return Err(ErrorAboutError::GroupDestination);
    }
    if !is_host_ipv4(*source) {
        return Err(ErrorAboutError::PacketSource);
    }
    Ok(*source)
}

/// The source in the IPv6 header of a packet. Refuses a packet about which this error is not sent.
fn source_ipv6(
    found: &TransportInIp<'_>,
    icmp_type: &Icmpv6Type,
) -> Result<[u8; 16], ErrorAboutError>
    ensures refused { RefusesExactly result (ipv6_rules (specs.may_be_about_group icmp_type.now) (fixed_by_value found.now.fixed_header)
        found.now.is_later_fragment found.now.protocol.0 found.now.payload.now) }
    ensures source { IfOk result (λ source. IsFromIpv6 source (fixed_by_value found.now.fixed_header)) }
{
    let FixedHeader::Ipv6 {
        source,
        destination,
        ..
    } = found.fixed_header
    else {
        return Err(ErrorAboutError::OtherVersion);
    };
    if found.is_later_fragment {
        return Err(ErrorAboutError::LaterFragment);
    }
    if found.protocol == ip_number::IPV6_ICMP && may_be_icmpv6_error(found.payload) {
        return Err(ErrorAboutError::IcmpError);
    }
    if !may_be_about_group(icmp_type) && is_group_ipv6(*destination) {
        return Err(ErrorAboutError::GroupDestination);
    }
    if !is_host_ipv6(*source) {
        return Err(ErrorAboutError::PacketSource);
    }
    Ok(*source)
}

/// Whether an ICMPv4 message is an error, or its type is cut off.
fn may_be_icmpv4_error(message: &[u8]) -> bool
    ensures { result ≡ specs.may_be_icmpv4_error message.now }
{
    if message.is_empty() {
        return true;
    }
    matches!(
        message[0],
        icmpv4::TYPE_DEST_UNREACH
            | icmpv4::TYPE_SOURCE_QUENCH
            | icmpv4::TYPE_REDIRECT
            | icmpv4::TYPE_TIME_EXCEEDED
            | icmpv4::TYPE_PARAMETER_PROBLEM
    )
}

/// The first type of ICMPv6 that is no error (RFC 4443, section 2.1).
const FIRST_INFORMATIONAL_TYPE: u8 = 128;

/// Whether an ICMPv6 message is an error or a redirect, or its type is cut off.
fn may_be_icmpv6_error(message: &[u8]) -> bool
    ensures { result ≡ specs.may_be_icmpv6_error message.now }
{
    if message.is_empty() {
        return true;
    }
    message[0] < FIRST_INFORMATIONAL_TYPE || message[0] == icmpv6::TYPE_REDIRECT_MESSAGE
}

/// The first `counted_len` bytes of a packet, but at most `max_len` bytes.
fn beginning(packet: &[u8], counted_len: usize, max_len: usize) -> &[u8]
    ensures { result.now ≡ take max_len (take counted_len packet.now) }
{
    &packet[..counted_len.min(max_len).min(packet.len())]
}
