ghost use Rattle.std.specs.List.{find};
ghost use Rattle.std.specs.Prelude.{◌≡◌, ◌≤◌, ◌<◌, ◌+◌, ◌↔◌, [], ◌∷◌, ℕ, IfOk, IsTrue, is_some, length, slice_index, slice_range};
ghost use Rattle.ip_part.specs.Options.{ipv4_option, is_unexpired_route, options_of};
ghost use Rattle.net_base.specs.IpHeaders.{ipv4_header_len};
ghost use Rattle.net_base.specs.PseudoHeader.{max_len_over_ipv4};
ghost use Rattle.net_base.specs.Refusals.{RefusesExactly};
ghost use Rattle.word_sum.specs.Checksum.{Verifies, folded, total};
ghost use Rattle.word_sum.specs.ChecksumChange.{IsExtendedBy, TurnsInto, added_value, removed_value};
ghost use Rattle.ip_translation.specs.AddressTables.{embedded};
ghost use Rattle.ip_translation.specs.HeadersToIpv6 as specs;
ghost use Rattle.ip_translation.specs.Prefixes as prefixes;
ghost use Rattle.ip_translation.specs.declared.prefix64.Prefix64.TheVariants.{Bits96};
ghost use Rattle.ip_translation.specs.PacketsToIpv6.{added_addresses, removed_addresses};
ghost use Rattle.ip_translation.specs.PseudoHeaders.{AreTurned};
ghost use Rattle.ip_translation.specs.TranslatedAddresses.{HasIpv6Addresses};

use crate::address_change::{address_at, address_change};
use crate::{AddressTable, Prefixes, TranslationError};
use arrayvec::ArrayVec;
use ip_part::has_unexpired_source_route;
use net_base::{IpNumber, Ipv4HeaderSlice, Ipv6Header, ip_number};
use word_sum::checksum::Sum16BitWords;
use word_sum::checksum_change::ChecksumChange;

/// Translates the header of an unfragmented IPv4 packet to an IPv6 header (RFC 7915, section 4.1).
///
/// | Field | Value |
/// |---|---|
/// | traffic class | type of service |
/// | flow label | 0 |
/// | payload length | total length minus the length of the header with its options |
/// | next header | protocol, but ICMPv6 for ICMP |
/// | hop limit | time to live, lowered by 1, since a translator is a router |
/// | source, destination | the IPv6 addresses that contain the IPv4 addresses, by `AddressTable::to_ipv6` |
///
/// Options are left out. If the checksum of the transport covers a pseudo header, the caller updates this checksum.
///
/// # Errors
///
/// The call checks these cases, in this order:
/// - `Fragment` if more fragments follow, or if the fragment offset is not 0.
/// - `TotalLength` if the total length is below the header length, and `HeaderChecksum` if the checksum of the header is wrong.
/// - `SourceRoute` if the options contain a source route that is not at its end: its pointer is at most its length (RFC 791, section 3.1).
/// - `TimeExceeded` if the time to live is 0 or 1.
/// - `IllegalSource` if the first byte of the source is 0, 127, or above 223, and `IllegalDestination` if this is true for the destination.
/// - `Source` or `Destination` if `AddressTable::to_ipv6` refuses this address.
pub fn header_to_ipv6(
    header: &Ipv4HeaderSlice<'_>,
    prefixes: &Prefixes,
) -> Result<ArrayVec<u8, 40>, TranslationError>
    ensures refused { RefusesExactly result (specs.header_refusal prefixes.now header.now) }
    ensures written { IfOk result (λ translated. translated.items ≡ specs.translated_header prefixes.now header.now) }
    ensures len { IfOk result (λ translated. length translated.items ≡ 40) }
    ensures total_len { IfOk result (λ _. ipv4_header_len header.now ≤ specs.total_len header.now) }
{
    checked_ipv6_header(header, prefixes)
}

/// Checks an IPv4 header, and returns the IPv6 header for it, as `header_to_ipv6` does. Callers read the translated addresses from the result.
#[inline(always)]
pub(crate) fn checked_ipv6_header(
    header: &Ipv4HeaderSlice<'_>,
    prefixes: &Prefixes,
) -> Result<ArrayVec<u8, IPV6_LEN>, TranslationError>
    ensures refused { RefusesExactly result (specs.header_refusal prefixes.now header.now) }
    ensures written { IfOk result (λ translated. translated.items ≡ specs.translated_header prefixes.now header.now) }
    ensures len { IfOk result (λ translated. length translated.items ≡ 40) }
    ensures total_len { IfOk result (λ _. ipv4_header_len header.now ≤ specs.total_len header.now) }
    ensures addresses { IfOk result (λ translated. HasIpv6Addresses prefixes.now header.now translated.items) }
{
    let payload_len = check_header(header)?;
    let mut source = [0; 16];
    let mut destination = [0; 16];
    write_addresses(header, prefixes, &mut source, &mut destination)?;
    let hop_limit = header.ttl().saturating_sub(1);
    Ok(header_between(header, source, destination, payload_len, hop_limit))
}

/// The change of the pseudo header of UDP and TCP (RFC 7915, section 4.5): the IPv6 addresses replace the IPv4 addresses. The rest of the
/// pseudo header and of the packet is unchanged.
///
/// `ChecksumChange::apply_udp` updates the checksum of a UDP packet, and `apply` updates the checksum of a TCP segment. IPv6 requires a
/// checksum, so a UDP packet with checksum 0 can't be updated. ICMPv4 has no pseudo header.
pub fn pseudo_header_change(header: &Ipv4HeaderSlice<'_>, prefixes: &Prefixes) -> ChecksumChange
    ensures removed { removed_value result ≡ removed_addresses header.now }
    ensures added { added_value result ≡ added_addresses prefixes.now header.now }
    // Neither pseudo header sums up to 0.
    ensures some { (protocol len : ℕ) → 0 < protocol → (0 < total (specs.old_pseudo_header header.now protocol len))
        × (0 < total (specs.new_pseudo_header prefixes.now header.now protocol len)) }
    // The contracts of `ChecksumChange` use this to state what a receiver accepts.
    ensures turns { (protocol len rest : ℕ) → len ≤ max_len_over_ipv4 → TurnsInto result
        (total (specs.old_pseudo_header header.now protocol len) + rest)
        (total (specs.new_pseudo_header prefixes.now header.now protocol len) + rest) }
{
    let source = header.source();
    let destination = header.destination();
    let new_source = prefixes.source.embed(source);
    let new_destination = prefixes.destination.embed(destination);
    address_change(source, destination, new_source, new_destination)
}

/// The change of the pseudo header for a packet whose translation begins with these headers.
#[inline(always)]
pub(crate) fn change_by_headers(
    header: &Ipv4HeaderSlice<'_>,
    prefixes: &Prefixes,
    front: &[u8],
) -> ChecksumChange
    requires there { 40 ≤ length front.now }
    requires addresses { HasIpv6Addresses prefixes.now header.now front.now }
    ensures removed { removed_value result ≡ removed_addresses header.now }
    ensures added { added_value result ≡ added_addresses prefixes.now header.now }
    ensures turned { (protocol : ℕ) → 0 < protocol →
        AreTurned result (specs.old_pseudo_header header.now protocol) (specs.new_pseudo_header prefixes.now header.now protocol) }
{
    let change = ChecksumChange::new();
    let change = replace_address(
        change,
        &prefixes.source,
        header.source(),
        &front[SOURCE_AT..DESTINATION_AT],
    );
    replace_address(
        change,
        &prefixes.destination,
        header.destination(),
        &front[DESTINATION_AT..IPV6_LEN],
    )
}

/// The change that also replaces this IPv4 address by its translation, `translated`.
#[inline(always)]
fn replace_address(
    change: ChecksumChange,
    table: &AddressTable,
    ipv4: [u8; 4],
    translated: &[u8],
) -> ChecksumChange
    requires there { length translated.now ≡ 16 }
    requires translated { translated.now ≡ embedded table.now ipv4 }
    ensures removed { removed_value result ≡ folded (removed_value change + total ipv4) }
    ensures added { added_value result ≡ folded (added_value change + total (embedded table.now ipv4)) }
    ensures extends { IsExtendedBy change ipv4 (embedded table.now ipv4) result }
{
    match table.octets_of_96() {
        Some(start) => replace_by_96(change, start, ipv4),
        None => replace_by_any(change, ipv4, translated),
    }
}

/// The change that also replaces this IPv4 address by the address that consists of these octets of a prefix of 96 bits and of the IPv4
/// address.
// perf: four octets of a prefix are read at once, since they are in memory. The octets of a translated address are put together one by one
// (1 Dec 2026).
#[inline(always)]
fn replace_by_96(change: ChecksumChange, start: &[u8; 11], ipv4: [u8; 4]) -> ChecksumChange
    ensures removed { removed_value result ≡ folded (removed_value change + total ipv4) }
    ensures added { added_value result ≡ folded (added_value change + total (prefixes.embedded (Bits96 start.now) ipv4)) }
    ensures extends { IsExtendedBy change ipv4 (prefixes.embedded (Bits96 start.now) ipv4) result }
{
    change
        .replace_4bytes(ipv4, ipv4)
        .replace_4bytes([0; 4], address_at::<4>(start, 0))
        .replace_4bytes([0; 4], address_at::<4>(start, 4))
        .replace_4bytes([0; 4], [0, start[8], start[9], start[10]])
}

/// The change that also replaces this IPv4 address by this IPv6 address.
#[inline(never)]
fn replace_by_any(change: ChecksumChange, ipv4: [u8; 4], translated: &[u8]) -> ChecksumChange
    requires there { length translated.now ≡ 16 }
    ensures removed { removed_value result ≡ folded (removed_value change + total ipv4) }
    ensures added { added_value result ≡ folded (added_value change + total translated.now) }
    ensures extends { IsExtendedBy change ipv4 translated.now result }
{
    change.replace_slice(ipv4.as_slice(), translated)
}

/// The place of the source in an IPv6 header, in bytes (RFC 8200, section 3).
const SOURCE_AT: usize = 8;

/// The place of the destination in an IPv6 header, in bytes.
const DESTINATION_AT: usize = 24;

/// The length of an IPv6 header, in bytes (RFC 8200, section 3).
pub(crate) const IPV6_LEN: usize = Ipv6Header::LEN;

/// The length of an IPv4 header without options, in bytes (RFC 791, section 3.1).
pub(crate) const LEN_WITHOUT_OPTIONS: usize = 20;

/// The first byte of an IPv4 header without options: version 4, and a length of five words (RFC 791, section 3.1).
pub(crate) const FIRST_BYTE_WITHOUT_OPTIONS: u8 = 0x45;

/// The place of the type of service, in bytes from the start of an IPv4 header (RFC 791, section 3.1).
pub(crate) const TYPE_OF_SERVICE_AT: usize = 1;

/// The byte at the offset `place`, or 0 if the bytes end before this offset.
#[inline(always)]
pub(crate) fn byte_at(bytes: &[u8], place: usize) -> u8
    ensures { result ≡ slice_index bytes.now place }
{
    if bytes.len() <= place {
        return 0;
    }
    bytes[place]
}

/// Checks the fields of the header of a whole packet, and returns the length of the payload. It does not check whether the prefixes may embed
/// the addresses.
#[inline(always)]
fn check_header(header: &Ipv4HeaderSlice<'_>) -> Result<u16, TranslationError>
    ensures refused { RefusesExactly result (specs.field_refusal header.now) }
    ensures payload_len { IfOk result (λ len. len ≡ specs.payload_len header.now) }
    ensures total_len { IfOk result (λ _. ipv4_header_len header.now ≤ specs.total_len header.now) }
{
    if header.is_fragmenting_payload() {
        return Err(TranslationError::Fragment);
    }
    check_any_fields(header)
}

/// Checks the fields of a header, which may be the header of a fragment, and returns the length of the payload.
#[inline(always)]
pub(crate) fn check_any_fields(header: &Ipv4HeaderSlice<'_>) -> Result<u16, TranslationError>
    ensures refused { RefusesExactly result (specs.any_field_refusal header.now) }
    ensures payload_len { IfOk result (λ len. len ≡ specs.payload_len header.now) }
    ensures total_len { IfOk result (λ _. ipv4_header_len header.now ≤ specs.total_len header.now) }
    ensures counted { IfOk result (λ _. specs.total_len header.now ≤ max_len_over_ipv4) }
{
    let total_len = header.total_len();
    let header_len = u16::from(header.ihl()) * 4;
    if total_len < header_len {
        return Err(TranslationError::TotalLength {
            total_len,
            header_len,
        });
    }
    if !is_checksum_valid(header) {
        return Err(TranslationError::HeaderChecksum);
    }
    if has_source_route(header.options()) {
        return Err(TranslationError::SourceRoute);
    }
    if header.ttl() <= 1 {
        return Err(TranslationError::TimeExceeded);
    }
    check_addresses(header)?;
    Ok(total_len - header_len)
}

/// Whether options contain a source route that is not at its end. Most headers have no options.
#[inline(always)]
fn has_source_route(options: &[u8]) -> bool
    ensures { result ≡ is_some (find is_unexpired_route (options_of ipv4_option options.now)) }
{
    if options.is_empty() {
        return false;
    }
    has_unexpired_source_route(options)
}

/// Checks the header of a whole packet.
#[inline(always)]
pub(crate) fn check_whole_header(
    header: &Ipv4HeaderSlice<'_>,
    prefixes: &Prefixes,
) -> Result<(), TranslationError>
    ensures refused { RefusesExactly result (specs.header_refusal prefixes.now header.now) }
    ensures total_len { IfOk result (λ _. ipv4_header_len header.now ≤ specs.total_len header.now) }
{
    check_header(header)?;
    check_embedding(header, prefixes)
}

/// Writes the IPv6 header for this IPv4 header.
// perf: each field is written to its place. A header that is returned is copied several times (1 Dec 2026).
#[inline(always)]
pub(crate) fn write_header(front: &mut [u8], header: &Ipv4HeaderSlice<'_>, prefixes: &Prefixes)
    requires len { length front.old ≡ 40 }
    requires ordered { ipv4_header_len header.now ≤ specs.total_len header.now }
    ensures written { front.new ≡ specs.translated_header prefixes.now header.now }
    ensures addresses { HasIpv6Addresses prefixes.now header.now front.new }
{
    let (start, addresses) = front.split_at_mut(SOURCE_AT);
    let (source, destination) = addresses.split_at_mut(16);
    start.copy_from_slice(&start_of_ipv6(header));
    prefixes.source.write_embedded(header.source(), source);
    prefixes
        .destination
        .write_embedded(header.destination(), destination);
}

/// The first eight bytes of the IPv6 header for this IPv4 header.
#[inline(always)]
fn start_of_ipv6(header: &Ipv4HeaderSlice<'_>) -> [u8; 8]
    requires ordered { ipv4_header_len header.now ≤ specs.total_len header.now }
    ensures { result ≡ specs.start_of_ipv6 header.now }
{
    let service = byte_at(header.slice(), TYPE_OF_SERVICE_AT);
    let payload_len = header.total_len() - u16::from(header.ihl()) * 4;
    let [high, low] = payload_len.to_be_bytes();
    let time_to_live = header.ttl();
    [
        0x60 + service / 16,
        service % 16 * 16,
        0,
        0,
        high,
        low,
        next_header(header.protocol()).0,
        time_to_live.saturating_sub(1),
    ]
}

/// Whether the checksum of a header is right.
#[inline(always)]
fn is_checksum_valid(header: &Ipv4HeaderSlice<'_>) -> bool
    ensures { IsTrue result ↔ Verifies [] header.now }
{
    let bytes = header.slice();
    if bytes.len() != LEN_WITHOUT_OPTIONS {
        return header.is_checksum_valid();
    }
    // perf: five numbers are added faster than a slice of any length.
    Sum16BitWords::new()
        .add_4bytes(address_at::<4>(bytes, 0))
        .add_4bytes(address_at::<4>(bytes, 4))
        .add_4bytes(address_at::<4>(bytes, 8))
        .add_4bytes(address_at::<4>(bytes, 12))
        .add_4bytes(address_at::<4>(bytes, 16))
        .ones_complement()
        == 0
}

/// Checks the header of a packet that an ICMP error quotes, which may be a fragment. Returns the length of the payload.
pub(crate) fn quoted_payload_len(
    header: &Ipv4HeaderSlice<'_>,
    prefixes: &Prefixes,
) -> Result<u16, TranslationError>
    ensures refused { RefusesExactly result (specs.quoted_header_refusal prefixes.now header.now) }
    ensures payload_len { IfOk result (λ len. len ≡ specs.payload_len header.now) }
    ensures counted { IfOk result (λ len. len + ipv4_header_len header.now ≤ max_len_over_ipv4) }
    ensures total_len { IfOk result (λ _. ipv4_header_len header.now ≤ specs.total_len header.now) }
{
    let payload_len = check_quoted_header(header)?;
    check_embedding(header, prefixes)?;
    Ok(payload_len)
}

/// Checks the fields of the header of a quoted packet, and returns the length of the payload.
fn check_quoted_header(header: &Ipv4HeaderSlice<'_>) -> Result<u16, TranslationError>
    ensures refused { RefusesExactly result (specs.quoted_field_refusal header.now) }
    ensures payload_len { IfOk result (λ len. len ≡ specs.payload_len header.now) }
    ensures counted { IfOk result (λ len. len + ipv4_header_len header.now ≤ max_len_over_ipv4) }
    ensures total_len { IfOk result (λ _. ipv4_header_len header.now ≤ specs.total_len header.now) }
{
    let total_len = header.total_len();
    let header_len = u16::from(header.ihl()) * 4;
    if total_len < header_len {
        return Err(TranslationError::TotalLength {
            total_len,
            header_len,
        });
    }
    check_addresses(header)?;
    Ok(total_len - header_len)
}

/// Refuses a header if one of its addresses has no translation.
#[inline(always)]
pub(crate) fn check_embedding(
    header: &Ipv4HeaderSlice<'_>,
    prefixes: &Prefixes,
) -> Result<(), TranslationError>
    ensures refused { RefusesExactly result (specs.embedding_refusal prefixes.now header.now) }
{
    match prefixes.source.check_ipv4(header.source()) {
        Ok(()) => {}
        Err(error) => return Err(TranslationError::Source(error)),
    }
    match prefixes.destination.check_ipv4(header.destination()) {
        Ok(()) => Ok(()),
        Err(error) => Err(TranslationError::Destination(error)),
    }
}

/// Writes the IPv6 addresses for the source and the destination.
#[inline(always)]
fn write_addresses(
    header: &Ipv4HeaderSlice<'_>,
    prefixes: &Prefixes,
    source: &mut [u8; 16],
    destination: &mut [u8; 16],
) -> Result<(), TranslationError>
    ensures refused { RefusesExactly result (specs.embedding_refusal prefixes.now header.now) }
    ensures source { IfOk result (λ _. source.new ≡ embedded prefixes.now.source (specs.source header.now)) }
    ensures destination { IfOk result (λ _. destination.new ≡ embedded prefixes.now.destination (specs.destination header.now)) }
{
    match prefixes.source.write_ipv6(header.source(), source) {
        Ok(()) => {}
        Err(error) => return Err(TranslationError::Source(error)),
    }
    match prefixes
        .destination
        .write_ipv6(header.destination(), destination)
    {
        Ok(()) => Ok(()),
        Err(error) => Err(TranslationError::Destination(error)),
    }
}

/// The IPv6 header for this IPv4 header, with this payload length and this hop limit. The prefixes embed the addresses.
pub(crate) fn header_with(
    header: &Ipv4HeaderSlice<'_>,
    prefixes: &Prefixes,
    payload_len: u16,
    hop_limit: u8,
) -> ArrayVec<u8, IPV6_LEN>
    ensures written { result.items ≡ specs.header_with prefixes.now payload_len hop_limit header.now }
    ensures len { length result.items ≡ 40 }
{
    let source = prefixes.source.embed(header.source());
    let destination = prefixes.destination.embed(header.destination());
    header_between(header, source, destination, payload_len, hop_limit)
}

/// The IPv6 header for this IPv4 header, with these addresses, this payload length and this hop limit.
#[inline(always)]
fn header_between(
    header: &Ipv4HeaderSlice<'_>,
    source: [u8; 16],
    destination: [u8; 16],
    payload_len: u16,
    hop_limit: u8,
) -> ArrayVec<u8, IPV6_LEN>
    ensures written { result.items ≡ specs.ipv6_header (specs.type_of_service header.now) payload_len
        (specs.next_header (specs.protocol header.now) ∷ hop_limit ∷ []) source destination }
    ensures len { length result.items ≡ 40 }
    ensures source { slice_range result.items 8 24 ≡ source }
    ensures destination { slice_range result.items 24 40 ≡ destination }
{
    let service = byte_at(header.slice(), TYPE_OF_SERVICE_AT);
    let next_header = next_header(header.protocol());
    ipv6_header(
        service,
        payload_len,
        [next_header.0, hop_limit],
        source,
        destination,
    )
}

/// Refuses a header if one of its addresses is not the address of a host.
#[inline(always)]
fn check_addresses(header: &Ipv4HeaderSlice<'_>) -> Result<(), TranslationError>
    ensures refused { RefusesExactly result (specs.addresses_refusal header.now) }
{
    if is_illegal(header.source()) {
        return Err(TranslationError::IllegalSource);
    }
    if is_illegal(header.destination()) {
        return Err(TranslationError::IllegalDestination);
    }
    Ok(())
}

/// Whether this is not the address of a host, but an address of network 0 or 127, a multicast address, or a reserved address.
#[inline(always)]
pub(crate) fn is_illegal(address: [u8; 4]) -> bool
    ensures { result ≡ specs.is_illegal address }
{
    address[0] == 0 || address[0] == 127 || address[0] > 223
}

/// The next header of the translated packet, if this is the protocol of the IPv4 packet.
#[inline(always)]
pub(crate) fn next_header(protocol: IpNumber) -> IpNumber
    ensures { result.0 ≡ specs.next_header protocol.0 }
{
    if protocol.0 == ip_number::ICMP.0 {
        ip_number::IPV6_ICMP
    } else {
        protocol
    }
}

/// An IPv6 header with these fields. `next` contains the next header and the hop limit. The flow label is 0.
#[inline(always)]
pub(crate) fn ipv6_header(
    traffic_class: u8,
    payload_len: u16,
    next: [u8; 2],
    source: [u8; 16],
    destination: [u8; 16],
) -> ArrayVec<u8, IPV6_LEN>
    ensures bytes { result.items ≡ specs.ipv6_header traffic_class payload_len next source destination }
    ensures len { length result.items ≡ 40 }
{
    let mut header = ArrayVec::new();
    header
        .try_extend_from_slice(&[0x60 + traffic_class / 16, traffic_class % 16 * 16, 0, 0])
        .unwrap();
    header
        .try_extend_from_slice(&payload_len.to_be_bytes())
        .unwrap();
    header.try_extend_from_slice(&next).unwrap();
    header.try_extend_from_slice(&source).unwrap();
    header.try_extend_from_slice(&destination).unwrap();
    header
}
