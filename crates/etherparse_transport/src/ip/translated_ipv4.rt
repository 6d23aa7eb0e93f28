ghost use Rattle.std.specs.Prelude.{◌≡◌, ◌≢◌, ◌↔◌, ◌==◌, Bool, ℕ, slice_index, ◌≤◌, ◌+◌, ◌%◌, ◌&&◌, ◌||◌, is_none, IfErr, IfOk, IfSome, MatchOption, None, Some, false, true, length, nat_lt, not, slice_range};
ghost use Rattle.std.specs.Option.{option_map};
ghost use Rattle.ip_part.specs.Ip.{ipv4_header, lax_refusal};
ghost use Rattle.net_base.specs.Bytes.{IsBytes, be_number};
ghost use Rattle.net_base.specs.IpHeaders.{BeginsWithIpv4Header, ipv4_header_len, ipv4_header_of};
ghost use Rattle.net_base.specs.Refusals.{RefusesExactly};
ghost use Rattle.word_sum.specs.Checksum.{all_ones, total};
ghost use Rattle.word_sum.specs.ChecksumChange.{added_value, removed_value};
ghost use Rattle.etherparse_transport.specs.Translations.{IsAcceptedAlike, IsReadWith, has_port, with_bytes, with_quote};
ghost use Rattle.etherparse_transport.specs.WaysBack.{IsIpv4Restored, IsIpv4RestoredWith, IsIpv4Translation, ipv4_flow_back, ipv4_quoted_back, ipv4_way_back};
ghost use Rattle.etherparse_transport.specs.Ipv4Translations as specs;
ghost use Rattle.etherparse_transport.specs.declared.err.packet.translate_error.TranslateError.TheVariants.{Ip};

use crate::checksum_change::ChecksumChange;
use crate::err::packet::TranslateError;
use crate::ip::ip_header::{IPV4_CHECKSUM_AT, IPV4_DESTINATION_AT, IPV4_LEN, IPV4_SOURCE_AT};
use crate::ip::message_place::{ICMP_LEN, Place, quoted_len, replace_bytes, translate_flow};
use crate::ip::source_route::contain_source_route;
use crate::ip::translated_message::{number, update_checksum};
use crate::ip::{IpAddresses, Ipv4Translation, proto_over, transport_in_ip_lax};
use crate::{IpNumber, Ipv4Header, Ipv4HeaderSlice, Proto, ip_number};

/// Translates an IPv4 packet in place, as an address translator does (RFC 3022; RFC 5508). The call replaces addresses, and ports or the
/// identifier of an ICMP query. It updates the checksums. The other bytes of the packet and the bytes after the packet are unchanged.
///
/// ```
/// let outbound = Ipv4Translation { source: Some([203, 0, 113, 7]), source_port: Some(40_000), ..Default::default() };
/// ip::translate_ipv4(&mut packet, &outbound)?;
/// ```
///
/// The checksums of the IP header, of UDP, TCP and ICMP are updated from the replaced bytes (RFC 1624). So a receiver accepts the packet
/// exactly if it accepted the packet before. The only exception is an ICMPv4 echo reply that consists of zeros, checksum included. Its old
/// checksum is wrong, and its new checksum is right. A UDP checksum of 0 means that there is none (RFC 768), and stays 0. No other UDP
/// checksum becomes 0.
///
/// - **ICMP queries** are echo, timestamp, information and address mask messages, with any code (RFC 5508, section 3). Their identifier is
///   replaced.
/// - **Other protocols**, such as GRE, ESP and SCTP: only the addresses are replaced, if no port is passed (RFC 3022, section 2.1).
/// - **ICMP errors**: the packet that an error quotes went in the other direction. So it is translated with source and destination
///   exchanged (RFC 5508, section 4). It is translated as far as the error contains it, and its total length is ignored. Its checksums and
///   the checksum of the error are updated too.
/// - **Fragments**: in a first fragment the ports are replaced too. In a later fragment only the addresses are replaced. If the first
///   fragment ends before the TCP checksum, this checksum is not updated. So the reassembled packet usually has a wrong checksum.
/// - **Packets that are cut off, or state no length**, are translated as `transport_in_ip_lax` reads them.
/// - **Partial checksums**, which a host leaves to its network card, become wrong, since they contain no ports. If `is_checksum_partial` of
///   the transport was true before, store the new `partial_checksum` afterwards.
///
/// # Errors
///
/// The call checks these cases, in this order, and changes nothing after an error:
/// - `Ip` if `transport_in_ip_lax` refuses the packet.
/// - `OtherVersion` for an IPv6 packet.
/// - `SourceRoute` if the options contain a loose or strict source route, option 131 or 137, of any form and any length. A source route
///   contains other addresses of the packet (RFC 791, section 3.1). Any other option stays as it is.
/// - `Protocol` if the protocol is not UDP, TCP or ICMPv4, and a port is passed. If no port is passed, only these protocols are refused:
///   AH, DCCP, HIP, UDP-Lite and VRRP, which cover the addresses, and ICMPv6.
/// - `HeaderCutOff` if fewer than 8 bytes of UDP, TCP or ICMP are present.
/// - `IcmpMessage` for an ICMP message that is neither a query nor an error, and for a redirect, which contains another address.
/// - `QuotedPacket` if one of the first four cases is true of the packet that an ICMP error quotes. The total length of the quoted packet
///   is ignored.
pub fn translate_ipv4(packet: &mut [u8], new: &Ipv4Translation) -> Result<(), TranslateError>
    ensures refused { RefusesExactly result (specs.ipv4_refusal new.now packet.old) }
    ensures unchanged { IfErr result (λ _. packet.new ≡ packet.old) }
    ensures translated { IfOk result (λ _. packet.new ≡ specs.ipv4_translated new.now packet.old) }
    // The translated packet is read like the packet, with the new addresses and the translated message.
    ensures read { IfOk result (λ _. IsReadWith packet.old packet.new (specs.ipv4_between new.now packet.old)
        (specs.ipv4_translated_message new.now packet.old)) }
    // A receiver accepts the translated message exactly if it accepts the message. This holds also if some bytes are in other fragments or
    // are cut off. It does not cover a message without a checksum, or an ICMPv4 echo reply of zeros.
    ensures verifies { IfOk result (λ _. specs.IsIpv4Accepted new.now packet.old (specs.ipv4_translated_message new.now packet.old)) }
    ensures error { IfOk result (λ _. specs.IsIpv4ErrorAccepted packet.old (specs.ipv4_translated_message new.now packet.old)) }
    ensures header { IfOk result (λ _. specs.IsHeaderAccepted packet.old packet.new) }
    // The translated packet can be translated again. The way back restores the packet, with two exceptions. A checksum can be lost (RFC
    // 1624), or an ICMP error and the packet that it quotes have different addresses.
    ensures again { IfOk result (λ _. specs.ipv4_refusal new.now packet.new ≡ None) }
    ensures there_and_back { IfOk result (λ _. (specs.ipv4_translated (ipv4_way_back new.now packet.old) packet.new ≡ packet.old) ↔
        IsIpv4Restored new.now packet.old) }
{
    translate_ipv4_by(packet, new, None)
}

/// Translates an IPv4 packet as `translate_ipv4` does, except that `quoted` translates the packet that an ICMP error quotes. In `quoted`,
/// source and destination are those of the quoted packet, which went in the other direction (RFC 5508, section 4). Use this call if a
/// router behind the translator can send the error. Then the source of the error and the destination of the quoted packet have different
/// mappings.
///
/// ```
/// let new = Ipv4Translation { source: Some(router), ..Default::default() };
/// let quoted = Ipv4Translation { destination: Some(host), destination_port: Some(40_000), ..Default::default() };
/// ip::translate_ipv4_with_quoted(&mut packet, &new, &quoted)?;
/// ```
///
/// A packet that is not an ICMP error is translated only by `new`.
///
/// # Errors
///
/// The errors of `translate_ipv4`. For the packet that an ICMP error quotes, the ports of `quoted` are the passed ports.
pub fn translate_ipv4_with_quoted(
    packet: &mut [u8],
    new: &Ipv4Translation,
    quoted: &Ipv4Translation,
) -> Result<(), TranslateError>
    ensures refused { RefusesExactly result (specs.ipv4_refusal_with new.now quoted.now packet.old) }
    ensures unchanged { IfErr result (λ _. packet.new ≡ packet.old) }
    ensures translated { IfOk result (λ _. packet.new ≡ specs.ipv4_translated_with new.now quoted.now packet.old) }
    // The translated packet is read like the packet, with the new addresses and the translated message.
    ensures read { IfOk result (λ _. IsReadWith packet.old packet.new (specs.ipv4_between new.now packet.old)
        (specs.ipv4_message_of_both new.now quoted.now packet.old)) }
    // A receiver accepts the translated message exactly if it accepts the message. This holds also if some bytes are in other fragments or
    // are cut off. It does not cover a message without a checksum, or an ICMPv4 echo reply of zeros.
    ensures verifies { IfOk result (λ _. specs.IsIpv4Accepted new.now packet.old (specs.ipv4_message_of_both new.now quoted.now packet.old)) }
    ensures error { IfOk result (λ _. specs.IsIpv4ErrorAccepted packet.old (specs.ipv4_message_of_both new.now quoted.now packet.old)) }
    ensures header { IfOk result (λ _. specs.IsHeaderAccepted packet.old packet.new) }
    // The translated packet can be translated again.
    ensures again { IfOk result (λ _. specs.ipv4_refusal_with new.now quoted.now packet.new ≡ None) }
    // The ways back of both translations restore the packet, unless a checksum is lost (RFC 1624).
    ensures there_and_back { IfOk result (λ _. (specs.ipv4_translated_with (ipv4_flow_back new.now (specs.message_in_ipv4 false packet.old) packet.old)
        (ipv4_quoted_back (specs.ipv4_quoted packet.old) quoted.now) packet.new ≡ packet.old) ↔ IsIpv4RestoredWith packet.old) }
{
    translate_ipv4_by(packet, new, Some(quoted))
}

/// Translates an IPv4 packet, and the packet that it quotes if it is an ICMP error.
#[inline(always)]
fn translate_ipv4_by(
    packet: &mut [u8],
    new: &Ipv4Translation,
    passed: Option<&Ipv4Translation>,
) -> Result<(), TranslateError>
    ensures refused { RefusesExactly result (specs.ipv4_refusal_with new.now (specs.ipv4_of_quoted new.now passed.entry) packet.old) }
    ensures unchanged { IfErr result (λ _. packet.new ≡ packet.old) }
    ensures translated { IfOk result (λ _. packet.new ≡ specs.ipv4_translated_with new.now (specs.ipv4_of_quoted new.now passed.entry) packet.old) }
    // The translated packet is read like the packet, with the new addresses and the translated message.
    ensures read { IfOk result (λ _. IsReadWith packet.old packet.new (specs.ipv4_between new.now packet.old)
        (specs.ipv4_message_of_both new.now (specs.ipv4_of_quoted new.now passed.entry) packet.old)) }
    // A receiver accepts the translated message exactly if it accepts the message. This holds also if some bytes are in other fragments or
    // are cut off. It does not cover a message without a checksum, or an ICMPv4 echo reply of zeros.
    ensures verifies { IfOk result (λ _. specs.IsIpv4Accepted new.now packet.old (specs.ipv4_message_of_both new.now (specs.ipv4_of_quoted new.now passed.entry) packet.old)) }
    ensures error { IfOk result (λ _. specs.IsIpv4ErrorAccepted packet.old (specs.ipv4_message_of_both new.now (specs.ipv4_of_quoted new.now passed.entry) packet.old)) }
    ensures header { IfOk result (λ _. specs.IsHeaderAccepted packet.old packet.new) }
    // The translated packet can be translated again.
    ensures again { IfOk result (λ _. specs.ipv4_refusal_with new.now (specs.ipv4_of_quoted new.now passed.entry) packet.new ≡ None) }
    ensures bytes { IfOk result (λ _. IsBytes packet.old) }
    ensures types { IfOk result (λ _. IsIpv4Translation new.now × IfSome (specs.ipv4_quoted packet.old)
        (λ _. IsIpv4Translation (specs.ipv4_of_quoted new.now passed.entry))) }
{
    let place = ipv4_place(packet, new)?;
    match quoted_len(&place, &packet[place.start..place.end])? {
        Some(len) => translate_ipv4_error(packet, &place, len, new, passed),
        None => {
            translate_ipv4_flow(packet, &place, new);
            Ok(())
        }
    }
}

/// The place of the message in an IPv4 packet. The message begins after the IP header.
// perf: the steps of the translation are compiled into one function, which takes 25.6 instead of 34.3 ns for a UDP packet, and 42.4 instead
// of 57.4 ns for an ICMP error (27 Nov 2026). The IPv4 header is read once. `transport_in_ip_lax` also looks for the final destination, so
// it is called only for a packet that it may refuse.
#[inline(always)]
fn ipv4_place(packet: &[u8], new: &Ipv4Translation) -> Result<Place, TranslateError>
    ensures refused { RefusesExactly result (specs.ipv4_place_refusal false (has_port new.now.source_port new.now.destination_port) packet.now) }
    ensures place { IfOk result (λ place. specs.IsIpv4Place (specs.message_in_ipv4 false packet.now) packet.now place) }
    ensures bytes { IsBytes packet.now }
{
    let Some(header) = Ipv4HeaderSlice::from_slice(packet) else {
        return Err(no_ipv4_header(packet));
    };
    check_after_header(packet, &header)?;
    if contain_source_route(header.options()) {
        return Err(TranslateError::SourceRoute);
    }
    let protocol = header.protocol();
    let proto = ipv4_proto(&header);
    if is_ipv4_refused(proto, protocol, new) {
        return Err(TranslateError::Protocol(protocol));
    }
    let start = header.slice().len();
    let is_later_fragment = header.fragments_offset() != 0;
    Ok(Place {
        start,
        end: message_end(packet, &header),
        proto,
        is_later_fragment,
    })
}

/// The error for a packet that does not begin with an IPv4 header.
// perf: the memory for the result of the call below is filled with zeros in this function. Without this function, that takes time for each
// packet.
#[inline(always)]
fn no_ipv4_header(packet: &[u8]) -> TranslateError
    requires { ¬ BeginsWithIpv4Header packet.now }
    ensures { (has_port : Bool) → specs.ipv4_place_refusal false has_port packet.now ≡ Some result }
{
    error_or_other_version(packet)
}

/// The error of `transport_in_ip_lax`, or `OtherVersion` for a packet that does not begin with an IPv4 header.
#[inline(never)]
fn error_or_other_version(packet: &[u8]) -> TranslateError
    requires { ¬ BeginsWithIpv4Header packet.now }
    ensures { (has_port : Bool) → specs.ipv4_place_refusal false has_port packet.now ≡ Some result }
{
    match transport_in_ip_lax(packet) {
        Ok(_) => TranslateError::OtherVersion,
        Err(error) => TranslateError::Ip(error),
    }
}

/// Refuses a packet that begins with this IPv4 header, if `transport_in_ip_lax` refuses the packet.
#[inline(always)]
fn check_after_header(packet: &[u8], header: &Ipv4HeaderSlice<'_>) -> Result<(), TranslateError>
    requires begins { BeginsWithIpv4Header packet.now }
    requires header { header.now ≡ ipv4_header packet.now }
    ensures { RefusesExactly result (option_map Ip (lax_refusal packet.now)) }
{
    if is_total_len_too_short(header) || header.protocol() == ip_number::AUTHENTICATION_HEADER {
        return check_headers(packet);
    }
    Ok(())
}

/// Whether the total length is below the length of the header, and not 0.
#[inline(always)]
fn is_total_len_too_short(header: &Ipv4HeaderSlice<'_>) -> bool
    ensures { result ≡ (not (be_number header.now 2 2 == 0) && nat_lt (be_number header.now 2 2) (length header.now)) }
{
    let total_len = usize::from(header.total_len());
    total_len != 0 && total_len < header.slice().len()
}

/// Refuses a packet that `transport_in_ip_lax` refuses.
#[inline(always)]
fn check_headers(packet: &[u8]) -> Result<(), TranslateError>
    ensures { RefusesExactly result (option_map Ip (lax_refusal packet.now)) }
{
    check_all_headers(packet)
}

/// Refuses a packet that `transport_in_ip_lax` refuses.
#[inline(never)]
fn check_all_headers(packet: &[u8]) -> Result<(), TranslateError>
    ensures { RefusesExactly result (option_map Ip (lax_refusal packet.now)) }
{
    match transport_in_ip_lax(packet) {
        Ok(_) => Ok(()),
        Err(error) => Err(TranslateError::Ip(error)),
    }
}

/// The end of the message after this IPv4 header: the total length, or the end of the packet if the packet is cut off or states no length.
#[inline(always)]
fn message_end(packet: &[u8], header: &Ipv4HeaderSlice<'_>) -> usize
    requires begins { BeginsWithIpv4Header packet.now }
    requires header { header.now ≡ ipv4_header packet.now }
    requires read { lax_refusal packet.now ≡ None }
    ensures message { slice_range packet.now (ipv4_header_len packet.now) result ≡ specs.message_in_ipv4 false packet.now }
    ensures ordered { ipv4_header_len packet.now ≤ result }
    ensures there { result ≤ length packet.now }
{
    let total_len = usize::from(header.total_len());
    if total_len == 0 || packet.len() < total_len {
        return packet.len();
    }
    total_len
}

/// Whether a packet is refused because of its protocol: it is not UDP, TCP or ICMPv4, and a port is passed or the protocol covers the
/// addresses.
#[inline(always)]
fn is_ipv4_refused(proto: Option<Proto>, number: IpNumber, new: &Ipv4Translation) -> bool
    ensures { result ≡ (is_none proto && (has_port new.now.source_port new.now.destination_port || specs.covers_ipv4_addresses number.0)) }
{
    proto.is_none() && (new.has_port() || covers_ipv4_addresses(number))
}

/// The protocol number of DCCP (RFC 4340).
pub(crate) const DCCP: IpNumber = IpNumber(33);

/// The protocol number of VRRP (RFC 5798).
pub(crate) const VRRP: IpNumber = IpNumber(112);

/// The protocol number of UDP-Lite (RFC 3828).
pub(crate) const UDP_LITE: IpNumber = IpNumber(136);

/// Whether this protocol, other than UDP and TCP, has a checksum or an authentication that covers the addresses of an IPv4 packet. This is
/// also true of ICMPv6, which has no meaning over IPv4.
fn covers_ipv4_addresses(number: IpNumber) -> bool
    ensures { result ≡ specs.covers_ipv4_addresses number.0 }
{
    number == ip_number::AUTHENTICATION_HEADER
        || number == ip_number::IPV6_ICMP
        || number == DCCP
        || number == VRRP
        || number == UDP_LITE
        || number == ip_number::HIP
}

/// Translates an ICMP error over IPv4, and the packet that it quotes.
fn translate_ipv4_error(
    packet: &mut [u8],
    place: &Place,
    quoted_len: usize,
    new: &Ipv4Translation,
    passed: Option<&Ipv4Translation>,
) -> Result<(), TranslateError>
    requires place { specs.IsIpv4Place (specs.message_in_ipv4 false packet.old) packet.old place.now }
    requires room { 8 + quoted_len ≤ length (specs.message_in_ipv4 false packet.old) }
    ensures refused { RefusesExactly result
        (specs.ipv4_quoted_refusal (has_port (specs.ipv4_of_quoted new.now passed.entry).source_port (specs.ipv4_of_quoted new.now passed.entry).destination_port) (Some (slice_range (specs.message_in_ipv4 false packet.old) 8 (8 + quoted_len)))) }
    ensures unchanged { IfErr result (λ _. packet.new ≡ packet.old) }
    ensures translated { IfOk result (λ _. packet.new ≡ specs.ipv4_with_message new.now
        (specs.ipv4_message_by (Some (slice_range (specs.message_in_ipv4 false packet.old) 8 (8 + quoted_len))) new.now
        (specs.ipv4_of_quoted new.now passed.entry) packet.old) packet.old) }
    ensures len { IfOk result (λ _. length
        (specs.ipv4_message_by (Some (slice_range (specs.message_in_ipv4 false packet.old) 8 (8 + quoted_len))) new.now
        (specs.ipv4_of_quoted new.now passed.entry) packet.old)
        ≡ length (specs.message_in_ipv4 false packet.old)) }
    ensures verifies { IfOk result (λ _. slice_index (specs.message_in_ipv4 false packet.old) 0 ≢ 0 → (sum : ℕ) → IsAcceptedAlike sum sum (specs.message_in_ipv4 false packet.old)
        (specs.ipv4_message_by (Some (slice_range (specs.message_in_ipv4 false packet.old) 8 (8 + quoted_len))) new.now
        (specs.ipv4_of_quoted new.now passed.entry) packet.old)) }
    ensures addresses { IfOk result (λ _. specs.AreIpv4Addresses (specs.ipv4_addresses new.now packet.old)) }
    ensures header { IfOk result (λ _. specs.IsHeaderAccepted packet.old packet.new) }
    ensures types { IfOk result (λ _. IsIpv4Translation new.now × IsIpv4Translation (specs.ipv4_of_quoted new.now passed.entry)) }
{
    let for_quoted = new.of_quoted(passed);
    let message = &packet[place.start..place.end];
    let Some(quoted) = quoted_ipv4_place(&message[ICMP_LEN..ICMP_LEN + quoted_len], &for_quoted)
    else {
        return Err(TranslateError::QuotedPacket);
    };
    let addresses = new_ipv4_addresses(packet, new);
    let change = ipv4_change(packet, &addresses);
    translate_ipv4_quoted(
        &mut packet[place.start..place.end],
        quoted_len,
        &quoted,
        &for_quoted,
    );
    replace_ipv4_addresses(packet, &addresses, change);
    Ok(())
}

/// The place of the message in the packet that an ICMP error over IPv4 quotes. `None` if the packet can't be translated. The message
/// extends to the end of the quote, since hosts that follow BSD quote a packet with a total length that leaves out the header.
fn quoted_ipv4_place(quoted: &[u8], new: &Ipv4Translation) -> Option<Place>
    ensures found { MatchOption result
        (specs.ipv4_place_refusal true (has_port new.now.source_port new.now.destination_port) quoted.now ≢ None)
        (λ place. specs.ipv4_place_refusal true (has_port new.now.source_port new.now.destination_port) quoted.now ≡ None) }
    ensures place { IfSome result (λ place. specs.IsIpv4Place (specs.message_in_ipv4 true quoted.now) quoted.now place) }
{
    let header = Ipv4HeaderSlice::from_slice(quoted)?;
    let options = header.options();
    if contain_source_route(options) {
        return None;
    }
    let protocol = header.protocol();
    let proto = ipv4_proto(&header);
    if is_ipv4_refused(proto, protocol, new) {
        return None;
    }
    Some(Place {
        start: header.slice().len(),
        end: quoted.len(),
        proto,
        is_later_fragment: header.fragments_offset() != 0,
    })
}

/// The protocol of an IPv4 packet with this header.
fn ipv4_proto(header: &Ipv4HeaderSlice<'_>) -> Option<Proto>
    ensures { result ≡ specs.ipv4_proto header.now }
{
    let (source, destination) = (&header.source(), &header.destination());
    proto_over(
        IpAddresses::Ipv4 {
            source,
            destination,
        },
        header.protocol(),
    )
}

/// Translates the packet that an ICMP error over IPv4 quotes, and updates the checksum of the error.
#[inline(always)]
fn translate_ipv4_quoted(
    message: &mut [u8],
    quoted_len: usize,
    place: &Place,
    new: &Ipv4Translation,
)
    requires room { 8 + quoted_len ≤ length message.old }
    requires place { specs.IsIpv4Place (specs.message_in_ipv4 true (slice_range message.old 8 (8 + quoted_len))) (slice_range message.old 8 (8 + quoted_len)) place.now }
    ensures translated { message.new ≡ with_quote 0 0 (slice_range message.old 8 (8 + quoted_len))
        (specs.ipv4_translated_flow new.now (specs.message_in_ipv4 true (slice_range message.old 8 (8 + quoted_len)))
        (slice_range message.old 8 (8 + quoted_len))) message.old }
    ensures verifies { slice_index message.old 0 ≢ 0 → (sum : ℕ) → IsAcceptedAlike sum sum message.old message.new }
    ensures types { IsIpv4Translation new.now }
{
    let quoted = &mut message[ICMP_LEN..ICMP_LEN + quoted_len];
    // The change also replaces the first word by itself. This word is not 0, so neither sum of the change is 0.
    let first = [quoted[0], quoted[1]];
    let change = translate_ipv4_flow(quoted, place, new);
    update_checksum(message, change.replace_2bytes(first, first));
}

/// Translates an IPv4 packet. Its message may be cut off. The returned change contains all replaced words.
#[inline(always)]
fn translate_ipv4_flow(packet: &mut [u8], place: &Place, new: &Ipv4Translation) -> ChecksumChange
    requires place { specs.IsIpv4Place (slice_range packet.old place.now.start place.now.end) packet.old place.now }
    ensures translated { packet.new ≡ specs.ipv4_translated_flow new.now (slice_range packet.old place.now.start place.now.end) packet.old }
    // The old and the new packet differ only by the replaced words.
    ensures turns { (total packet.old + added_value result) % all_ones ≡ (total packet.new + removed_value result) % all_ones }
    ensures version { slice_index packet.new 0 ≡ slice_index packet.old 0 }
    ensures verifies { specs.IsAcceptedByIpv4 new.now (slice_range packet.old place.now.start place.now.end) packet.old
        (specs.ipv4_flow_message new.now (slice_range packet.old place.now.start place.now.end) packet.old) }
    ensures header { specs.IsHeaderAccepted packet.old packet.new }
    ensures addresses { specs.AreIpv4Addresses (specs.ipv4_addresses new.now packet.old) }
    ensures types { IsIpv4Translation new.now }
{
    let addresses = new_ipv4_addresses(packet, new);
    let change = ipv4_change(packet, &addresses);
    let all = translate_flow(
        &mut packet[place.start..place.end],
        place,
        change,
        new.source_port,
        new.destination_port,
    );
    let (old, new) = replace_ipv4_addresses(packet, &addresses, change);
    all.replace_2bytes(old.to_be_bytes(), new.to_be_bytes())
}

/// The new addresses of an IPv4 packet.
fn new_ipv4_addresses(packet: &[u8], new: &Ipv4Translation) -> Ipv4Header
    requires header { 20 ≤ length packet.now }
    ensures new { result ≡ specs.ipv4_addresses new.now packet.now }
    ensures addresses { specs.AreIpv4Addresses result }
{
    let old = ipv4_addresses(packet);
    Ipv4Header {
        source: new.source.unwrap_or(old.source),
        destination: new.destination.unwrap_or(old.destination),
    }
}

/// Replaces the addresses in the header of an IPv4 packet, and updates the checksum of the header by this change (RFC 1624). Returns the
/// old and the new checksum.
#[inline(always)]
fn replace_ipv4_addresses(packet: &mut [u8], new: &Ipv4Header, change: ChecksumChange) -> (u16, u16)
    requires header { 20 ≤ length packet.old }
    requires removed { removed_value change ≡ specs.sum_of_ipv4 (ipv4_header_of packet.old) }
    requires added { added_value change ≡ specs.sum_of_ipv4 new.now }
    ensures replaced { packet.new ≡ specs.with_ipv4_addresses new.now packet.old }
    ensures total { total packet.new + (result.0 + specs.total_of_ipv4 (ipv4_header_of packet.old)) ≡
        total packet.old + (result.1 + specs.total_of_ipv4 new.now) }
    ensures version { slice_index packet.new 0 ≡ slice_index packet.old 0 }
    ensures header { 20 ≤ ipv4_header_len packet.old → ipv4_header_len packet.old ≤ length packet.old →
        specs.IsHeaderAccepted packet.old packet.new }
{
    let old = number(packet, IPV4_CHECKSUM_AT);
    let checksum = change.apply(old);
    replace_bytes(packet, IPV4_CHECKSUM_AT, &checksum.to_be_bytes());
    replace_bytes(packet, IPV4_SOURCE_AT, &new.source);
    replace_bytes(packet, IPV4_DESTINATION_AT, &new.destination);
    (old, checksum)
}

/// The change of the addresses of an IPv4 packet.
fn ipv4_change(packet: &[u8], new: &Ipv4Header) -> ChecksumChange
    requires header { 20 ≤ length packet.now }
    ensures removed { removed_value result ≡ specs.sum_of_ipv4 (ipv4_header_of packet.now) }
    ensures added { added_value result ≡ specs.sum_of_ipv4 new.now }
{
    let old = ipv4_addresses(packet);
    ChecksumChange::new()
        .replace_4bytes(old.source, new.source)
        .replace_4bytes(old.destination, new.destination)
}

/// The addresses in the header of an IPv4 packet.
fn ipv4_addresses(packet: &[u8]) -> Ipv4Header
    requires header { 20 ≤ length packet.now }
    ensures { result ≡ ipv4_header_of packet.now }
{
    let mut source = [0; 4];
    source.copy_from_slice(&packet[IPV4_SOURCE_AT..IPV4_DESTINATION_AT]);
    let mut destination = [0; 4];
    destination.copy_from_slice(&packet[IPV4_DESTINATION_AT..IPV4_LEN]);
    Ipv4Header {
        source,
        destination,
    }
}
