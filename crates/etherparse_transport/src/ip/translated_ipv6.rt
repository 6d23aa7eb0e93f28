ghost use Rattle.std.specs.Prelude.{◌≡◌, ◌≢◌, ◌↔◌, ◌≤◌, ◌+◌, ◌%◌, ◌&&◌, ◌||◌, is_none, ℕ, Bool, IfErr, IfOk, IfSome, None, Some, drop, length, slice_index, slice_range, take, unwrap_or, IsTrue};
ghost use Rattle.ip_part.specs.ExtensionHeaders.{is_extension};
ghost use Rattle.net_base.specs.Bytes.{IsBytes};
ghost use Rattle.net_base.specs.IpHeaders.{BeginsWithIpv6Header, ipv6_header_of};
ghost use Rattle.net_base.specs.Refusals.{RefusesExactly};
ghost use Rattle.word_sum.specs.Checksum.{all_ones, total};
ghost use Rattle.word_sum.specs.ChecksumChange.{TurnsInto, added_value, removed_value};
ghost use Rattle.word_sum.specs.UpdatedChecksum.{TurnsIntoBy};
ghost use Rattle.etherparse_transport.specs.Translations.{AreUpdatedAlike, IsAcceptedAlike, IsReadWith, has_port, with_bytes, with_quote};
ghost use Rattle.etherparse_transport.specs.WaysBack.{IsIpv6Restored, IsIpv6RestoredWith, IsIpv6Translation, ipv6_flow_back, ipv6_quoted_back, ipv6_way_back};
ghost use Rattle.etherparse_transport.specs.Ipv6Translations as specs;

use crate::checksum_change::ChecksumChange;
use crate::err::packet::TranslateError;
use crate::ip::ip_header::IPV6_LEN;
use crate::ip::message_place::{ICMP_LEN, Place, quoted_len, replace_bytes, translate_flow};
use crate::ip::skipped_headers::skip_headers;
use crate::ip::translated_ipv4::{DCCP, UDP_LITE, VRRP};
use crate::ip::translated_message::update_checksum;
use crate::ip::{Ipv6Translation, proto_over, transport_in_ip_lax};
use crate::{IpNumber, Ipv6Header, Ipv6HeaderSlice, Proto, ip_number};

/// Translates an IPv6 packet in place, as an address translator does (RFC 3022; RFC 5508). The call replaces addresses, and ports or the
/// identifier of an ICMPv6 query, which is an echo message. It updates the checksums. The other bytes of the packet and the bytes after the
/// packet are unchanged.
///
/// ```
/// let inbound = Ipv6Translation { destination: Some(inside), destination_port: Some(5000), ..Default::default() };
/// ip::translate_ipv6(&mut packet, &inbound)?;
/// ```
///
/// The checksums are updated from the replaced bytes (RFC 1624). So a receiver accepts the packet exactly if it accepted the packet before.
/// The call treats ICMP errors, packets that are cut off, packets that state no length, and partial checksums as `translate_ipv4` does.
///
/// Extension headers that contain no other address of the packet are skipped, and stay: hop-by-hop options, fragment headers, routing
/// headers without segments left, and destination options without a home address (RFC 8200, section 4; RFC 6275, section 6.3). In a first
/// fragment and in an atomic fragment (RFC 6946), the ports are replaced too. In a later fragment only the addresses are replaced. In a
/// packet of another protocol only the addresses are replaced, if no port is passed.
///
/// # Errors
///
/// The call checks these cases, in this order, and changes nothing after an error:
/// - `Ip` if `transport_in_ip_lax` refuses the packet.
/// - `OtherVersion` for an IPv4 packet.
/// - `Protocol` if the number after the skipped headers is not UDP, TCP or ICMPv6, and a port is passed. If no port is passed, only these
///   numbers are refused: DCCP, OSPF, PIM, UDP-Lite and VRRP, which cover the addresses, ICMPv4, and an extension header that is not
///   skipped. Segments left and a home address would contain another address that a checksum covers (RFC 8200, section 8.1; RFC 6275,
///   section 6.3).
/// - `HeaderCutOff` if fewer than 8 bytes of UDP, TCP or ICMP are present.
/// - `IcmpMessage` for an ICMP message that is neither a query nor an error, for example a redirect.
/// - `QuotedPacket` if one of the first three cases is true of the packet that an ICMP error quotes.
pub fn translate_ipv6(packet: &mut [u8], new: &Ipv6Translation) -> Result<(), TranslateError>
    ensures refused { RefusesExactly result (specs.ipv6_refusal new.now packet.old) }
    ensures unchanged { IfErr result (λ _. packet.new ≡ packet.old) }
    ensures translated { IfOk result (λ _. packet.new ≡ specs.ipv6_translated new.now packet.old) }
    // The translated packet is read like the packet, with the new addresses and the translated message.
    ensures read { IfOk result (λ _. IsReadWith packet.old packet.new (specs.ipv6_between new.now packet.old)
        (specs.ipv6_translated_message new.now packet.old)) }
    // A receiver accepts the translated message exactly if it accepts the message. This holds also if some bytes are in other fragments or
    // are cut off. It does not cover a message without a checksum.
    ensures verifies { IfOk result (λ _. specs.IsIpv6Accepted new.now packet.old (specs.ipv6_translated_message new.now packet.old)) }
    ensures error { IfOk result (λ _. specs.IsIpv6ErrorAccepted new.now packet.old (specs.ipv6_translated_message new.now packet.old)) }
    // The translated packet can be translated again. The way back restores the packet, with two exceptions. A checksum can be lost (RFC
    // 1624), or an ICMP error and the packet that it quotes have different addresses.
    ensures again { IfOk result (λ _. specs.ipv6_refusal new.now packet.new ≡ None) }
    ensures there_and_back { IfOk result (λ _. (specs.ipv6_translated (ipv6_way_back new.now packet.old) packet.new ≡ packet.old) ↔
        IsIpv6Restored new.now packet.old) }
{
    translate_ipv6_by(packet, new, None)
}

/// Translates an IPv6 packet as `translate_ipv6` does, except that `quoted` translates the packet that an ICMP error quotes. In `quoted`,
/// source and destination are those of the quoted packet, which went in the other direction (RFC 5508, section 4). Use this call if a
/// router behind the translator can send the error. Then the source of the error and the destination of the quoted packet have different
/// mappings.
///
/// ```
/// let new = Ipv6Translation { source: Some(router), ..Default::default() };
/// let quoted = Ipv6Translation { destination: Some(host), destination_port: Some(40_000), ..Default::default() };
/// ip::translate_ipv6_with_quoted(&mut packet, &new, &quoted)?;
/// ```
///
/// A packet that is not an ICMP error is translated only by `new`.
///
/// # Errors
///
/// The errors of `translate_ipv6`. For the packet that an ICMP error quotes, the ports of `quoted` are the passed ports.
pub fn translate_ipv6_with_quoted(
    packet: &mut [u8],
    new: &Ipv6Translation,
    quoted: &Ipv6Translation,
) -> Result<(), TranslateError>
    ensures refused { RefusesExactly result (specs.ipv6_refusal_with new.now quoted.now packet.old) }
    ensures unchanged { IfErr result (λ _. packet.new ≡ packet.old) }
    ensures translated { IfOk result (λ _. packet.new ≡ specs.ipv6_translated_with new.now quoted.now packet.old) }
    // The translated packet is read like the packet, with the new addresses and the translated message.
    ensures read { IfOk result (λ _. IsReadWith packet.old packet.new (specs.ipv6_between new.now packet.old)
        (specs.ipv6_message_of_both new.now quoted.now packet.old)) }
    // A receiver accepts the translated message exactly if it accepts the message. This holds also if some bytes are in other fragments or
    // are cut off. It does not cover a message without a checksum.
    ensures verifies { IfOk result (λ _. specs.IsIpv6Accepted new.now packet.old (specs.ipv6_message_of_both new.now quoted.now packet.old)) }
    ensures error { IfOk result (λ _. specs.IsIpv6ErrorAccepted new.now packet.old (specs.ipv6_message_of_both new.now quoted.now packet.old)) }
    // The translated packet can be translated again.
    ensures again { IfOk result (λ _. specs.ipv6_refusal_with new.now quoted.now packet.new ≡ None) }
    // The ways back of both translations restore the packet, unless a checksum is lost (RFC 1624).
    ensures there_and_back { IfOk result (λ _. (specs.ipv6_translated_with (ipv6_flow_back new.now packet.old)
        (ipv6_quoted_back (specs.ipv6_quoted packet.old) quoted.now) packet.new ≡ packet.old) ↔ IsIpv6RestoredWith packet.old) }
{
    translate_ipv6_by(packet, new, Some(quoted))
}

/// Translates an IPv6 packet, and the packet that it quotes if it is an ICMP error.
#[inline(always)]
fn translate_ipv6_by(
    packet: &mut [u8],
    new: &Ipv6Translation,
    passed: Option<&Ipv6Translation>,
) -> Result<(), TranslateError>
    ensures refused { RefusesExactly result (specs.ipv6_refusal_with new.now (specs.ipv6_of_quoted new.now passed.entry) packet.old) }
    ensures unchanged { IfErr result (λ _. packet.new ≡ packet.old) }
    ensures translated { IfOk result (λ _. packet.new ≡ specs.ipv6_translated_with new.now (specs.ipv6_of_quoted new.now passed.entry) packet.old) }
    // The translated packet is read like the packet, with the new addresses and the translated message.
    ensures read { IfOk result (λ _. IsReadWith packet.old packet.new (specs.ipv6_between new.now packet.old)
        (specs.ipv6_message_of_both new.now (specs.ipv6_of_quoted new.now passed.entry) packet.old)) }
    // A receiver accepts the translated message exactly if it accepts the message. This holds also if some bytes are in other fragments or
    // are cut off. It does not cover a message without a checksum.
    ensures verifies { IfOk result (λ _. specs.IsIpv6Accepted new.now packet.old (specs.ipv6_message_of_both new.now (specs.ipv6_of_quoted new.now passed.entry) packet.old)) }
    ensures error { IfOk result (λ _. specs.IsIpv6ErrorAccepted new.now packet.old (specs.ipv6_message_of_both new.now (specs.ipv6_of_quoted new.now passed.entry) packet.old)) }
    // The translated packet can be translated again.
    ensures again { IfOk result (λ _. specs.ipv6_refusal_with new.now (specs.ipv6_of_quoted new.now passed.entry) packet.new ≡ None) }
    ensures bytes { IfOk result (λ _. IsBytes packet.old) }
    ensures types { IfOk result (λ _. IsIpv6Translation new.now × IfSome (specs.ipv6_quoted packet.old)
        (λ _. IsIpv6Translation (specs.ipv6_of_quoted new.now passed.entry))) }
{
    let place = ipv6_place(packet, new)?;
    match quoted_len(&place, &packet[place.start..place.end])? {
        Some(len) => translate_ipv6_error(packet, &place, len, new, passed),
        None => {
            translate_ipv6_flow(packet, &place, new);
            Ok(())
        }
    }
}

/// The place of the source in an IPv6 header (RFC 8200, section 3).
const SOURCE_AT: usize = Ipv6Header::SOURCE_AT;

/// The place of the destination in an IPv6 header.
const DESTINATION_AT: usize = Ipv6Header::DESTINATION_AT;

/// The place of the message in an IPv6 packet. The message begins after the skipped headers.
// perf: the IPv6 header is read first, so that no code for IPv4 is compiled into the rest. All steps of the translation are compiled into
// one function, which keeps the new addresses in registers. Together with `replaced_ipv6_change` this takes 160 instead of 239 instructions
// for a UDP packet (27 Nov 2026).
#[inline(always)]
fn ipv6_place(packet: &[u8], new: &Ipv6Translation) -> Result<Place, TranslateError>
    ensures refused { RefusesExactly result (specs.ipv6_place_refusal (has_port new.now.source_port new.now.destination_port) packet.now) }
    ensures place { IfOk result (λ place. specs.IsIpv6Place packet.now place) }
    ensures bytes { IsBytes packet.now }
{
    let Some(header) = Ipv6HeaderSlice::from_slice(packet) else {
        return Err(no_ipv6_header(packet));
    };
    let found = match transport_in_ip_lax(packet) {
        Ok(found) => found,
        Err(error) => return Err(TranslateError::Ip(error)),
    };
    let headers = skip_headers(packet, header.next_header());
    let proto = proto_over(found.addresses, headers.protocol);
    if is_ipv6_refused(proto, headers.protocol, new) {
        return Err(TranslateError::Protocol(headers.protocol));
    }
    Ok(Place {
        start: headers.len,
        end: headers.len + found.payload.len(),
        proto,
        is_later_fragment: headers.is_later_fragment,
    })
}

/// The error for a packet that does not begin with an IPv6 header.
// perf: the memory for the result of the call below is filled with zeros in this function. Without this function, that takes time for each
// packet (27 Nov 2026).
#[inline(always)]
fn no_ipv6_header(packet: &[u8]) -> TranslateError
    requires { ¬ BeginsWithIpv6Header packet.now }
    ensures { (has_port : Bool) → specs.ipv6_place_refusal has_port packet.now ≡ Some result }
{
    error_or_other_version(packet)
}

/// The error of `transport_in_ip_lax`, or `OtherVersion` for a packet that does not begin with an IPv6 header.
#[inline(never)]
fn error_or_other_version(packet: &[u8]) -> TranslateError
    requires { ¬ BeginsWithIpv6Header packet.now }
    ensures { (has_port : Bool) → specs.ipv6_place_refusal has_port packet.now ≡ Some result }
{
    match transport_in_ip_lax(packet) {
        Ok(_) => TranslateError::OtherVersion,
        Err(error) => TranslateError::Ip(error),
    }
}

/// The place of the message in the packet that an ICMP error over IPv6 quotes.
// perf: `ipv6_place` is inlined only once in a function, or not at all (27 Nov 2026).
#[inline(never)]
fn quoted_ipv6_place(quoted: &[u8], new: &Ipv6Translation) -> Result<Place, TranslateError>
    ensures refused { RefusesExactly result (specs.ipv6_place_refusal (has_port new.now.source_port new.now.destination_port) quoted.now) }
    ensures place { IfOk result (λ place. specs.IsIpv6Place quoted.now place) }
{
    ipv6_place(quoted, new)
}

/// Whether a packet is refused because of its protocol: it is not UDP, TCP or ICMPv6, and a port is replaced or the protocol covers the
/// addresses.
#[inline(always)]
fn is_ipv6_refused(proto: Option<Proto>, number: IpNumber, new: &Ipv6Translation) -> bool
    ensures { result ≡ (is_none proto && (has_port new.now.source_port new.now.destination_port || specs.covers_ipv6_addresses number.0)) }
{
    proto.is_none() && (new.has_port() || covers_ipv6_addresses(number))
}

/// The protocol number of OSPF (RFC 5340).
const OSPF: IpNumber = IpNumber(89);

/// The protocol number of PIM (RFC 7761).
const PIM: IpNumber = IpNumber(103);

/// Whether this is the number of an extension header, of ICMPv4, or of a protocol whose checksum covers the addresses and is not updated.
/// ICMPv4 has no meaning over IPv6.
fn covers_ipv6_addresses(number: IpNumber) -> bool
    ensures { result ≡ specs.covers_ipv6_addresses number.0 }
{
    is_extension(number)
        || number == ip_number::ICMP
        || number == DCCP
        || number == OSPF
        || number == PIM
        || number == VRRP
        || number == UDP_LITE
}

/// Whether this is the number of an extension header that `transport_in_ip_lax` skips.
fn is_extension(number: IpNumber) -> bool
    ensures { result ≡ is_extension number.0 }
{
    number == ip_number::IPV6_HEADER_HOP_BY_HOP
        || number == ip_number::IPV6_ROUTE_HEADER
        || number == ip_number::IPV6_FRAGMENTATION_HEADER
        || number == ip_number::AUTHENTICATION_HEADER
        || number == ip_number::IPV6_DESTINATION_OPTIONS
        || number == ip_number::MOBILITY_HEADER
        || number == ip_number::HIP
        || number == ip_number::SHIM6
}

/// Translates an ICMP error over IPv6, and the packet that it quotes.
#[inline(always)]
fn translate_ipv6_error(
    packet: &mut [u8],
    place: &Place,
    quoted_len: usize,
    new: &Ipv6Translation,
    passed: Option<&Ipv6Translation>,
) -> Result<(), TranslateError>
    requires place { specs.IsIpv6Place packet.old place.now }
    requires room { 8 + quoted_len ≤ length (specs.message_in_ipv6 packet.old) }
    ensures refused { RefusesExactly result
        (specs.ipv6_quoted_refusal (has_port (specs.ipv6_of_quoted new.now passed.entry).source_port (specs.ipv6_of_quoted new.now passed.entry).destination_port) (Some (slice_range (specs.message_in_ipv6 packet.old) 8 (8 + quoted_len)))) }
    ensures unchanged { IfErr result (λ _. packet.new ≡ packet.old) }
    ensures translated { IfOk result (λ _. packet.new ≡ specs.ipv6_with_message new.now
        (specs.ipv6_message_by (Some (slice_range (specs.message_in_ipv6 packet.old) 8 (8 + quoted_len))) new.now
        (specs.ipv6_of_quoted new.now passed.entry) packet.old) packet.old) }
    ensures len { IfOk result (λ _. length
        (specs.ipv6_message_by (Some (slice_range (specs.message_in_ipv6 packet.old) 8 (8 + quoted_len))) new.now
        (specs.ipv6_of_quoted new.now passed.entry) packet.old)
        ≡ length (specs.message_in_ipv6 packet.old)) }
    ensures verifies { IfOk result (λ _. (before after : ℕ) →
        TurnsIntoBy (specs.sum_of_ipv6 (ipv6_header_of packet.old)) (specs.sum_of_ipv6 (specs.ipv6_addresses new.now packet.old)) before after →
        before ≢ 0 → after ≢ 0 → IsAcceptedAlike before after (specs.message_in_ipv6 packet.old)
        (specs.ipv6_message_by (Some (slice_range (specs.message_in_ipv6 packet.old) 8 (8 + quoted_len))) new.now
        (specs.ipv6_of_quoted new.now passed.entry) packet.old)) }
    ensures addresses { IfOk result (λ _. specs.AreIpv6Addresses (specs.ipv6_addresses new.now packet.old)) }
    ensures types { IfOk result (λ _. IsIpv6Translation new.now × IsIpv6Translation (specs.ipv6_of_quoted new.now passed.entry)) }
{
    let for_quoted = new.of_quoted(passed);
    let message = &packet[place.start..place.end];
    let Ok(quoted) = quoted_ipv6_place(&message[ICMP_LEN..ICMP_LEN + quoted_len], &for_quoted)
    else {
        return Err(TranslateError::QuotedPacket);
    };
    let addresses = new_ipv6_addresses(packet, new);
    let change = ipv6_change(packet, &addresses);
    translate_ipv6_quoted(
        &mut packet[place.start..place.end],
        quoted_len,
        &quoted,
        &for_quoted,
        change,
    );
    replace_ipv6_addresses(packet, new);
    Ok(())
}

/// Translates the packet that an ICMP error over IPv6 quotes, and updates the checksum of the error.
#[inline(always)]
fn translate_ipv6_quoted(
    message: &mut [u8],
    quoted_len: usize,
    place: &Place,
    new: &Ipv6Translation,
    addresses: ChecksumChange,
)
    requires room { 8 + quoted_len ≤ length message.old }
    requires place { specs.IsIpv6Place (slice_range message.old 8 (8 + quoted_len)) place.now }
    ensures translated { message.new ≡ with_quote (removed_value addresses) (added_value addresses) (slice_range message.old 8 (8 + quoted_len))
        (specs.ipv6_translated_flow new.now (slice_range message.old 8 (8 + quoted_len))) message.old }
    ensures verifies { (before after : ℕ) → TurnsInto addresses before after → before ≢ 0 → after ≢ 0 →
        IsAcceptedAlike before after message.old message.new }
    ensures types { IsIpv6Translation new.now }
{
    let quoted = &mut message[ICMP_LEN..ICMP_LEN + quoted_len];
    // The change also replaces the first word by itself. This word is not 0, so neither sum of the change is 0.
    let first = [quoted[0], quoted[1]];
    let change = translate_ipv6_flow(quoted, place, new);
    update_checksum(message, addresses.and(change.replace_2bytes(first, first)));
}

/// Translates an IPv6 packet. Its message may be cut off. The returned change contains all replaced words.
#[inline(always)]
fn translate_ipv6_flow(packet: &mut [u8], place: &Place, new: &Ipv6Translation) -> ChecksumChange
    requires place { specs.IsIpv6Place packet.old place.now }
    ensures translated { packet.new ≡ specs.ipv6_translated_flow new.now packet.old }
    // The old and the new packet differ only by the replaced words.
    ensures turns { (total packet.old + added_value result) % all_ones ≡ (total packet.new + removed_value result) % all_ones }
    ensures version { slice_index packet.new 0 ≡ slice_index packet.old 0 }
    ensures verifies { specs.IsIpv6Accepted new.now packet.old (specs.ipv6_flow_message new.now packet.old) }
    ensures addresses { specs.AreIpv6Addresses (specs.ipv6_addresses new.now packet.old) }
    ensures types { IsIpv6Translation new.now }
{
    let addresses = new_ipv6_addresses(packet, new);
    let change = replaced_ipv6_change(packet, new, &addresses);
    let change = translate_flow(
        &mut packet[place.start..place.end],
        place,
        change,
        new.source_port,
        new.destination_port,
    );
    replace_ipv6_addresses(packet, new);
    change
}

/// The new addresses of an IPv6 packet.
#[inline(always)]
fn new_ipv6_addresses(packet: &[u8], new: &Ipv6Translation) -> Ipv6Header
    requires header { 40 ≤ length packet.now }
    ensures new { result ≡ specs.ipv6_addresses new.now packet.now }
    ensures addresses { specs.AreIpv6Addresses result }
{
    let old = ipv6_addresses(packet);
    Ipv6Header {
        source: new.source.unwrap_or(old.source),
        destination: new.destination.unwrap_or(old.destination),
    }
}

/// Replaces the addresses in the header of an IPv6 packet.
#[inline(always)]
fn replace_ipv6_addresses(packet: &mut [u8], new: &Ipv6Translation)
    requires header { 40 ≤ length packet.old }
    ensures replaced { packet.new ≡ specs.with_ipv6_addresses (specs.ipv6_addresses new.now packet.old) packet.old }
    ensures total { total packet.new + specs.total_of_ipv6 (ipv6_header_of packet.old) ≡
        total packet.old + specs.total_of_ipv6 (specs.ipv6_addresses new.now packet.old) }
    ensures version { slice_index packet.new 0 ≡ slice_index packet.old 0 }
{
    replace_if_passed(packet, SOURCE_AT, new.source);
    replace_if_passed(packet, DESTINATION_AT, new.destination);
}

/// Writes an address to this place, if an address is passed.
#[inline(always)]
fn replace_if_passed(packet: &mut [u8], place: usize, new: Option<[u8; 16]>)
    requires room { place + 16 ≤ length packet.old }
    ensures written { packet.new ≡ with_bytes place (unwrap_or new (take 16 (drop place packet.old))) packet.old }
    ensures len { IfSome new (λ address. length address ≡ 16) }
{
    if let Some(new) = new {
        replace_bytes(packet, place, &new);
    }
}

/// A change of the addresses of an IPv6 packet that updates each checksum as `ipv6_change` does. If only one address is replaced, the other
/// address is left out. If the new address is the unspecified address, the other address is included, since otherwise all new words would
/// be 0.
#[inline(always)]
fn replaced_ipv6_change(
    packet: &[u8],
    new: &Ipv6Translation,
    addresses: &Ipv6Header,
) -> ChecksumChange
    requires header { 40 ≤ length packet.now }
    requires addresses { addresses.now ≡ specs.ipv6_addresses new.now packet.now }
    ensures { AreUpdatedAlike (removed_value result) (added_value result) (specs.sum_of_ipv6 (ipv6_header_of packet.now))
        (specs.sum_of_ipv6 (specs.ipv6_addresses new.now packet.now)) }
{
    let old = ipv6_addresses(packet);
    match (new.source, new.destination) {
        (Some(source), None) if is_specified(source) => {
            ChecksumChange::new().replace_16bytes(old.source, source)
        }
        (None, Some(destination)) if is_specified(destination) => {
            ChecksumChange::new().replace_16bytes(old.destination, destination)
        }
        _ => ipv6_change(packet, addresses),
    }
}

/// Whether this is not the unspecified address. Only the words of the unspecified address have the sum 0 (RFC 4291, section 2.5.2).
fn is_specified(address: [u8; 16]) -> bool
    ensures { IsTrue result → total address ≢ 0 }
{
    u128::from_be_bytes(address) != 0
}

/// The change of the addresses of an IPv6 packet.
#[inline(always)]
fn ipv6_change(packet: &[u8], new: &Ipv6Header) -> ChecksumChange
    requires header { 40 ≤ length packet.now }
    ensures removed { removed_value result ≡ specs.sum_of_ipv6 (ipv6_header_of packet.now) }
    ensures added { added_value result ≡ specs.sum_of_ipv6 new.now }
{
    let old = ipv6_addresses(packet);
    ChecksumChange::new()
        .replace_16bytes(old.source, new.source)
        .replace_16bytes(old.destination, new.destination)
}

/// The addresses in the header of an IPv6 packet.
#[inline(always)]
fn ipv6_addresses(packet: &[u8]) -> Ipv6Header
    requires header { 40 ≤ length packet.now }
    ensures { result ≡ ipv6_header_of packet.now }
{
    let mut source = [0; 16];
    source.copy_from_slice(&packet[SOURCE_AT..DESTINATION_AT]);
    let mut destination = [0; 16];
    destination.copy_from_slice(&packet[DESTINATION_AT..IPV6_LEN]);
    Ipv6Header {
        source,
        destination,
    }
}
