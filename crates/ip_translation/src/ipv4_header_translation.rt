ghost use Rattle.std.specs.Prelude.{◌≡◌, ◌≤◌, ◌<◌, ◌+◌, [], ℕ, IfOk, length, slice_range};
ghost use Rattle.net_base.specs.Refusals.{RefusesExactly};
ghost use Rattle.word_sum.specs.Checksum.{Verifies, checksum_of, total};
ghost use Rattle.word_sum.specs.ChecksumChange.{added_value, removed_value};
ghost use Rattle.ip_translation.specs.AddressTables.{extracted};
ghost use Rattle.ip_translation.specs.Fragments as fragments;
ghost use Rattle.ip_translation.specs.HeadersToIpv4 as specs;
ghost use Rattle.ip_translation.specs.PseudoHeaders.{AreTurned};
ghost use Rattle.ip_translation.specs.TranslatedAddresses.{HasIpv4Addresses};

use crate::address_change::{address_at, address_change};
use crate::fragment_fields::FragmentFields;
use crate::header_translation::is_illegal;
use crate::{Prefixes, TranslationError};
use arrayvec::ArrayVec;
use net_base::{IpNumber, Ipv6HeaderSlice, ip_number};
use word_sum::checksum::Sum16BitWords;
use word_sum::checksum_change::ChecksumChange;

/// The length of the translated header, in bytes: an IPv4 header without options (RFC 791, section 3.1).
const IPV4_LEN: u16 = 20;

/// Translates the header of an IPv6 packet without extension headers to an IPv4 header (RFC 7915, section 5.1).
///
/// | Field | Value |
/// |---|---|
/// | type of service | traffic class |
/// | total length | payload length plus 20 |
/// | identification | the argument `identification` |
/// | "don't fragment" | set if the total length is above 1260 |
/// | time to live | hop limit, lowered by 1, since a translator is a router |
/// | protocol | next header, but ICMP for ICMPv6 |
/// | checksum | over this header |
/// | source, destination | the IPv4 addresses that the IPv6 addresses contain, by `AddressTable::to_ipv4` |
///
/// More fragments and the fragment offset are 0, and there are no options. A packet with a total length of at most 1260 bytes may be
/// fragmented on its way. So two of these packets with the same addresses and protocol must not have the same identification at the same
/// time (RFC 6864).
///
/// # Errors
///
/// The call checks these cases, in this order:
/// - `ExtensionHeader` if the next header is an extension header: hop-by-hop options, routing, fragment or destination options.
/// - `PayloadLength` if the payload length is above 65,515.
/// - `TimeExceeded` if the hop limit is 0 or 1.
/// - `Source` or `Destination` if `AddressTable::to_ipv4` refuses this address.
/// - `IllegalSource` if the first byte of the IPv4 source is 0, 127, or above 223, and `IllegalDestination` if this is true for the IPv4
///   destination.
pub fn header_to_ipv4(
    header: &Ipv6HeaderSlice<'_>,
    prefixes: &Prefixes,
    identification: u16,
) -> Result<ArrayVec<u8, 20>, TranslationError>
    ensures refused { RefusesExactly result (specs.header_refusal prefixes.now header.now) }
    ensures written { IfOk result (λ translated. translated.items ≡ specs.translated_header prefixes.now (fragments.whole identification) header.now) }
    ensures verifies { IfOk result (λ translated. Verifies [] translated.items) }
    ensures len { IfOk result (λ translated. length translated.items ≡ 20) }
{
    part_header_to_ipv4(header, prefixes, FragmentFields::whole(identification))
}

/// Translates the header of a packet without further extension headers. These fields describe the fragment.
#[inline(always)]
pub(crate) fn part_header_to_ipv4(
    header: &Ipv6HeaderSlice<'_>,
    prefixes: &Prefixes,
    fields: FragmentFields,
) -> Result<ArrayVec<u8, 20>, TranslationError>
    ensures refused { RefusesExactly result (specs.header_refusal prefixes.now header.now) }
    ensures written { IfOk result (λ translated. translated.items ≡ specs.translated_header prefixes.now fields header.now) }
    ensures verifies { IfOk result (λ translated. Verifies [] translated.items) }
    ensures len { IfOk result (λ translated. length translated.items ≡ 20) }
    ensures addresses { IfOk result (λ translated. HasIpv4Addresses prefixes.now header.now translated.items) }
{
    let total_len = check_fields(header)?;
    let mut source = [0; 4];
    let mut destination = [0; 4];
    write_addresses(header, prefixes, &mut source, &mut destination)?;
    let addresses = (source, destination);
    let time_to_live = header.hop_limit().saturating_sub(1);
    Ok(header_between(header, addresses, fields, total_len, time_to_live))
}

/// The change of the pseudo header of UDP and TCP (RFC 7915, section 5.5): the IPv4 addresses that the prefixes extract replace the IPv6
/// addresses. The protocol, the length and the rest of the packet are unchanged.
pub fn pseudo_header_change_to_ipv4(
    header: &Ipv6HeaderSlice<'_>,
    prefixes: &Prefixes,
) -> ChecksumChange
    ensures removed { removed_value result ≡ specs.removed_addresses header.now }
    ensures added { added_value result ≡ specs.added_addresses prefixes.now header.now }
    // The contracts of `ChecksumChange` use this to state what a receiver accepts.
    ensures turned { (protocol : ℕ) → 0 < protocol →
        AreTurned result (specs.old_pseudo_header header.now protocol) (specs.new_pseudo_header prefixes.now header.now protocol) }
{
    let source = header.source();
    let destination = header.destination();
    let new_source = prefixes.source.ipv4_of(&source);
    let new_destination = prefixes.destination.ipv4_of(&destination);
    address_change(new_source, new_destination, source, destination).reversed()
}

/// The change of the pseudo header for a packet whose translation begins with this IPv4 header.
#[inline(always)]
pub(crate) fn change_by_ipv4_header(
    header: &Ipv6HeaderSlice<'_>,
    prefixes: &Prefixes,
    front: &[u8],
) -> ChecksumChange
    requires there { 20 ≤ length front.now }
    requires addresses { HasIpv4Addresses prefixes.now header.now front.now }
    ensures removed { removed_value result ≡ specs.removed_addresses header.now }
    ensures added { added_value result ≡ specs.added_addresses prefixes.now header.now }
    ensures turned { (protocol : ℕ) → 0 < protocol →
        AreTurned result (specs.old_pseudo_header header.now protocol) (specs.new_pseudo_header prefixes.now header.now protocol) }
{
    // The prefixes are not used, since the header contains the translated addresses.
    let _ = prefixes;
    address_change(
        address_at::<4>(front, SOURCE_AT),
        address_at::<4>(front, DESTINATION_AT),
        header.source(),
        header.destination(),
    )
    .reversed()
}

/// The place of the source in an IPv4 header, in bytes (RFC 791, section 3.1).
const SOURCE_AT: usize = 12;

/// The place of the destination in an IPv4 header, in bytes.
const DESTINATION_AT: usize = 16;

/// Checks all fields except the addresses, and returns the total length of the translated packet.
fn check_fields(header: &Ipv6HeaderSlice<'_>) -> Result<u16, TranslationError>
    ensures refused { RefusesExactly result (specs.field_refusal header.now) }
    ensures total_len { IfOk result (λ len. len ≡ specs.payload_len header.now + 20) }
{
    let total_len = check_quoted_fields(header)?;
    if header.hop_limit() <= 1 {
        return Err(TranslationError::TimeExceeded);
    }
    Ok(total_len)
}

/// Translates the header of a packet that an ICMPv6 error quotes, without further extension headers. These fields describe the fragment.
/// The time to live is the hop limit, and it is not lowered.
pub(crate) fn quoted_header_to_ipv4(
    header: &Ipv6HeaderSlice<'_>,
    prefixes: &Prefixes,
    fields: FragmentFields,
) -> Result<ArrayVec<u8, 20>, TranslationError>
    ensures refused { RefusesExactly result (specs.quoted_header_refusal prefixes.now header.now) }
    ensures written { IfOk result (λ translated. translated.items ≡ specs.quoted_header prefixes.now fields header.now) }
    ensures len { IfOk result (λ translated. length translated.items ≡ 20) }
{
    let total_len = check_quoted_fields(header)?;
    check_addresses(header, prefixes)?;
    Ok(header_with(header, prefixes, fields, total_len, header.hop_limit()))
}

/// Checks the fields of the header of a quoted packet, and returns the total length of the translated packet.
fn check_quoted_fields(header: &Ipv6HeaderSlice<'_>) -> Result<u16, TranslationError>
    ensures refused { RefusesExactly result (specs.quoted_field_refusal header.now) }
    ensures total_len { IfOk result (λ len. len ≡ specs.payload_len header.now + 20) }
{
    let next_header = header.next_header();
    if is_extension(next_header) {
        return Err(TranslationError::ExtensionHeader(next_header.0));
    }
    let payload_len = header.payload_length();
    if u16::MAX - IPV4_LEN < payload_len {
        return Err(TranslationError::PayloadLength(payload_len));
    }
    Ok(payload_len + IPV4_LEN)
}

/// The IPv4 header for this IPv6 header, with these fields of a fragment, this total length and this time to live. The prefixes extract the
/// addresses.
pub(crate) fn header_with(
    header: &Ipv6HeaderSlice<'_>,
    prefixes: &Prefixes,
    fields: FragmentFields,
    total_len: u16,
    time_to_live: u8,
) -> ArrayVec<u8, 20>
    ensures written { result.items ≡ specs.header_with prefixes.now fields total_len time_to_live header.now }
    ensures verifies { Verifies [] result.items }
    ensures len { length result.items ≡ 20 }
{
    let source = prefixes.source.ipv4_of(&header.source());
    let destination = prefixes.destination.ipv4_of(&header.destination());
    header_between(
        header,
        (source, destination),
        fields,
        total_len,
        time_to_live,
    )
}

/// The IPv4 header for this IPv6 header, with this source and this destination.
#[inline(always)]
fn header_between(
    header: &Ipv6HeaderSlice<'_>,
    addresses: ([u8; 4], [u8; 4]),
    fields: FragmentFields,
    total_len: u16,
    time_to_live: u8,
) -> ArrayVec<u8, 20>
    ensures written { result.items ≡ specs.ipv4_header
        (specs.start_of_ipv4 (specs.traffic_class header.now) total_len fields time_to_live (specs.protocol_of (specs.next_header header.now)))
        addresses.0 addresses.1 }
    ensures verifies { Verifies [] result.items }
    ensures len { length result.items ≡ 20 }
    ensures source { slice_range result.items 12 16 ≡ addresses.0 }
    ensures destination { slice_range result.items 16 20 ≡ addresses.1 }
{
    let (source, destination) = addresses;
    let [total_high, total_low] = total_len.to_be_bytes();
    let [high, low] = fields.identification.to_be_bytes();
    let [flags, offset] = fields.flags_and_offset(total_len).to_be_bytes();
    let start = [
        0x45,
        header.traffic_class(),
        total_high,
        total_low,
        high,
        low,
        flags,
        offset,
        time_to_live,
        protocol_of(header.next_header()),
    ];
    ipv4_header(start, source, destination)
}

/// Whether this is the number of hop-by-hop options, or of a routing, fragment or destination options header.
pub(crate) fn is_extension(number: IpNumber) -> bool
    ensures { result ≡ specs.is_extension number.0 }
{
    number.0 == ip_number::IPV6_HEADER_HOP_BY_HOP.0
        || number.0 == ip_number::IPV6_ROUTE_HEADER.0
        || number.0 == ip_number::IPV6_FRAGMENTATION_HEADER.0
        || number.0 == ip_number::IPV6_DESTINATION_OPTIONS.0
}

/// Refuses an address that has no translation, or whose translation is not the address of a host.
fn check_addresses(
    header: &Ipv6HeaderSlice<'_>,
    prefixes: &Prefixes,
) -> Result<(), TranslationError>
    ensures refused { RefusesExactly result (specs.addresses_refusal prefixes.now header.now) }
{
    write_addresses(header, prefixes, &mut [0; 4], &mut [0; 4])
}

/// Writes the IPv4 addresses for the source and the destination.
#[inline(always)]
fn write_addresses(
    header: &Ipv6HeaderSlice<'_>,
    prefixes: &Prefixes,
    source: &mut [u8; 4],
    destination: &mut [u8; 4],
) -> Result<(), TranslationError>
    ensures refused { RefusesExactly result (specs.addresses_refusal prefixes.now header.now) }
    ensures source { IfOk result (λ _. source.new ≡ extracted prefixes.now.source (specs.source header.now)) }
    ensures destination { IfOk result (λ _. destination.new ≡ extracted prefixes.now.destination (specs.destination header.now)) }
{
    match prefixes.source.write_ipv4(&header.source(), source) {
        Ok(()) => {}
        Err(error) => return Err(TranslationError::Source(error)),
    }
    match prefixes
        .destination
        .write_ipv4(&header.destination(), destination)
    {
        Ok(()) => {}
        Err(error) => return Err(TranslationError::Destination(error)),
    }
    if is_illegal(*source) {
        return Err(TranslationError::IllegalSource);
    }
    if is_illegal(*destination) {
        return Err(TranslationError::IllegalDestination);
    }
    Ok(())
}

/// The protocol of the translated packet, if this is the next header of the IPv6 packet.
fn protocol_of(number: IpNumber) -> u8
    ensures { result ≡ specs.protocol_of number.0 }
{
    if number.0 == ip_number::IPV6_ICMP.0 {
        ip_number::ICMP.0
    } else {
        number.0
    }
}

/// An IPv4 header with these first ten bytes and these addresses, and with its checksum.
#[inline(always)]
fn ipv4_header(start: [u8; 10], source: [u8; 4], destination: [u8; 4]) -> ArrayVec<u8, 20>
    ensures bytes { result.items ≡ specs.ipv4_header start source destination }
    ensures verifies { Verifies [] result.items }
    ensures len { length result.items ≡ 20 }
    ensures source { slice_range result.items 12 16 ≡ source }
    ensures destination { slice_range result.items 16 20 ≡ destination }
{
    let checksum = header_checksum(start, source, destination);
    with_checksum(start, checksum, source, destination)
}

/// An IPv4 header with these first ten bytes, this checksum and these addresses.
#[inline(always)]
fn with_checksum(
    start: [u8; 10],
    checksum: u16,
    source: [u8; 4],
    destination: [u8; 4],
) -> ArrayVec<u8, 20>
    ensures bytes { result.items ≡ specs.with_header_checksum start checksum source destination }
    ensures len { length result.items ≡ 20 }
{
    let mut header = ArrayVec::new();
    header.try_extend_from_slice(&start).unwrap();
    header
        .try_extend_from_slice(&checksum.to_be_bytes())
        .unwrap();
    header.try_extend_from_slice(&source).unwrap();
    header.try_extend_from_slice(&destination).unwrap();
    header
}

/// The checksum of an IPv4 header with these first ten bytes and these addresses. The parts are added one by one, so that no header is built
/// for its checksum.
#[inline(always)]
fn header_checksum(start: [u8; 10], source: [u8; 4], destination: [u8; 4]) -> u16
    ensures { result ≡ checksum_of (total (specs.with_header_checksum start 0 source destination)) }
{
    let [a, b, c, d, e, f, g, h, i, j] = start;
    Sum16BitWords::new()
        .add_4bytes([a, b, c, d])
        .add_4bytes([e, f, g, h])
        .add_2bytes([i, j])
        .add_4bytes(source)
        .add_4bytes(destination)
        .ones_complement()
}
