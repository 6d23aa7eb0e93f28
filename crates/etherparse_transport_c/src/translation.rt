ghost use Rattle.std.specs.Prelude.{◌≡◌, unwrap_or};
ghost use Rattle.etherparse_transport.specs.Ipv4Translations.{ipv4_translated, ipv4_translated_with};
ghost use Rattle.etherparse_transport.specs.Ipv6Translations.{ipv6_translated, ipv6_translated_with};
ghost use Rattle.etherparse_transport_c.specs.Errors.{Leaves, status_of, unless_refused};
ghost use Rattle.etherparse_transport_c.specs.Translations as specs;
ghost use Rattle.etherparse_transport_c.specs.Translations.{ipv4_refusal, ipv4_refusal_with, ipv4_translation, ipv6_refusal, ipv6_refusal_with, ipv6_translation};

use crate::answer::{Answer, ErrorPlace, accept, refuse};
use crate::error::of_translate;
use etherparse_transport::ip::{
    Ipv4Translation, Ipv6Translation, translate_ipv4, translate_ipv4_with_quoted, translate_ipv6,
    translate_ipv6_with_quoted,
};

/// The values that an address translator replaces in an IPv4 packet (RFC 3022). If the flag of a value is 0, the value is not replaced.
#[repr(C)]
#[derive(Clone, Copy)]
pub struct EtherparseIpv4Translation {
    /// The new source address.
    pub source: [u8; 4],
    /// The new destination address.
    pub destination: [u8; 4],
    /// The new source port of UDP and TCP, and the new identifier of an ICMP request (RFC 5508, section 3.1).
    pub source_port: u16,
    /// The new destination port of UDP and TCP, and the new identifier of an ICMP reply.
    pub destination_port: u16,
    /// Not 0 if the source address is replaced.
    pub has_source: u8,
    /// Not 0 if the destination address is replaced.
    pub has_destination: u8,
    /// Not 0 if the source port is replaced.
    pub has_source_port: u8,
    /// Not 0 if the destination port is replaced.
    pub has_destination_port: u8,
}

/// The values that an address translator replaces in an IPv6 packet. If the flag of a value is 0, the value is not replaced.
#[repr(C)]
#[derive(Clone, Copy)]
pub struct EtherparseIpv6Translation {
    /// The new source address.
    pub source: [u8; 16],
    /// The new destination address.
    pub destination: [u8; 16],
    /// The new source port of UDP and TCP, and the new identifier of an ICMP request (RFC 5508, section 3.1).
    pub source_port: u16,
    /// The new destination port of UDP and TCP, and the new identifier of an ICMP reply.
    pub destination_port: u16,
    /// Not 0 if the source address is replaced.
    pub has_source: u8,
    /// Not 0 if the destination address is replaced.
    pub has_destination: u8,
    /// Not 0 if the source port is replaced.
    pub has_source_port: u8,
    /// Not 0 if the destination port is replaced.
    pub has_destination_port: u8,
}

/// Returns the value, or `None` if its flag is 0.
fn if_set<T: Copy>(flag: u8, value: T) -> Option<T>
    ensures { result ≡ specs.if_set flag value }
{
    if flag == 0 { None } else { Some(value) }
}

/// Converts a translation of IPv4 to the type of `etherparse_transport`.
fn of_ipv4(translation: &EtherparseIpv4Translation) -> Ipv4Translation
    ensures { result ≡ ipv4_translation translation.now }
{
    Ipv4Translation {
        source: if_set(translation.has_source, translation.source),
        destination: if_set(translation.has_destination, translation.destination),
        source_port: if_set(translation.has_source_port, translation.source_port),
        destination_port: if_set(
            translation.has_destination_port,
            translation.destination_port,
        ),
    }
}

/// Converts a translation of IPv6 to the type of `etherparse_transport`.
fn of_ipv6(translation: &EtherparseIpv6Translation) -> Ipv6Translation
    ensures { result ≡ ipv6_translation translation.now }
{
    Ipv6Translation {
        source: if_set(translation.has_source, translation.source),
        destination: if_set(translation.has_destination, translation.destination),
        source_port: if_set(translation.has_source_port, translation.source_port),
        destination_port: if_set(
            translation.has_destination_port,
            translation.destination_port,
        ),
    }
}

/// Translates an IPv4 packet in place (RFC 3022; RFC 5508). The call replaces addresses, and ports or the identifier of an ICMP query. It
/// updates the checksums (RFC 1624). In the packet that an ICMP error quotes, the new source replaces the destination, and the new
/// destination replaces the source. In a later fragment the call replaces only the addresses.
///
/// # Errors
///
/// The status is `OK`, or the first of these that applies:
/// - An error of `etherparse_transport_in_ip_lax`.
/// - `IP_VERSION` for an IPv6 packet.
/// - `TRANSLATE_SOURCE_ROUTE` for a loose or strict source route.
/// - `TRANSLATE_PROTOCOL` if the protocol is not UDP, TCP or ICMPv4, and a port is replaced. The call also returns it for ICMPv6, and for a
///   protocol that covers the addresses with a checksum or an authentication.
/// - `TRANSLATE_HEADER_CUT_OFF` if the packet contains fewer than 8 bytes of UDP, TCP or ICMP.
/// - `TRANSLATE_ICMP_MESSAGE` for a redirect, and for an ICMP message that is neither a query nor an error.
/// - `TRANSLATE_QUOTED_PACKET` if the packet that an ICMP error quotes can't be translated.
///
/// After an error `error` contains the reason, and `packet` is unchanged.
#[unsafe(no_mangle)]
pub extern "C" fn etherparse_translate_ipv4(
    packet: &mut [u8],
    translation: &EtherparseIpv4Translation,
    error: ErrorPlace,
) -> Answer
    ensures status { result.status ≡ status_of (ipv4_refusal translation.now packet.old) }
    ensures error { Leaves error result (unwrap_or (ipv4_refusal translation.now packet.old) error.before) }
    ensures packet { packet.new ≡
        unless_refused (ipv4_refusal translation.now packet.old) (ipv4_translated (ipv4_translation translation.now) packet.old) packet.old }
{
    match translate_ipv4(packet, &of_ipv4(translation)) {
        Ok(()) => accept(error),
        Err(refused) => refuse(error, of_translate(&refused, 6)),
    }
}

/// Translates an IPv6 packet in place, like `etherparse_translate_ipv4`.
///
/// # Errors
///
/// The statuses of `etherparse_translate_ipv4`, except `TRANSLATE_SOURCE_ROUTE`. The call returns `IP_VERSION` for an IPv4 packet. It
/// translates ICMPv6, and returns `TRANSLATE_PROTOCOL` for ICMPv4. It skips hop-by-hop options, fragment headers, routing headers without
/// segments left, and destination options without a home address. For any other extension header it returns `TRANSLATE_PROTOCOL`.
#[unsafe(no_mangle)]
pub extern "C" fn etherparse_translate_ipv6(
    packet: &mut [u8],
    translation: &EtherparseIpv6Translation,
    error: ErrorPlace,
) -> Answer
    ensures status { result.status ≡ status_of (ipv6_refusal translation.now packet.old) }
    ensures error { Leaves error result (unwrap_or (ipv6_refusal translation.now packet.old) error.before) }
    ensures packet { packet.new ≡
        unless_refused (ipv6_refusal translation.now packet.old) (ipv6_translated (ipv6_translation translation.now) packet.old) packet.old }
{
    match translate_ipv6(packet, &of_ipv6(translation)) {
        Ok(()) => accept(error),
        Err(refused) => refuse(error, of_translate(&refused, 4)),
    }
}

/// Translates an IPv4 packet in place, like `etherparse_translate_ipv4`. If the packet is an ICMP error, `quoted` contains the values to
/// replace in the packet that it quotes. `quoted.source` is the new source of the quoted packet, which went in the other direction (RFC
/// 5508, section 4). If no packet is quoted, `quoted` is not used.
///
/// # Errors
///
/// The statuses of `etherparse_translate_ipv4`. If `quoted` replaces a port, and the quoted packet is not UDP, TCP or ICMP, the status is
/// `TRANSLATE_QUOTED_PACKET`. After an error `error` contains the reason, and `packet` is unchanged.
#[unsafe(no_mangle)]
pub extern "C" fn etherparse_translate_ipv4_with_quoted(
    packet: &mut [u8],
    translation: &EtherparseIpv4Translation,
    quoted: &EtherparseIpv4Translation,
    error: ErrorPlace,
) -> Answer
    ensures status { result.status ≡ status_of (ipv4_refusal_with translation.now quoted.now packet.old) }
    ensures error { Leaves error result (unwrap_or (ipv4_refusal_with translation.now quoted.now packet.old) error.before) }
    ensures packet { packet.new ≡ unless_refused (ipv4_refusal_with translation.now quoted.now packet.old)
        (ipv4_translated_with (ipv4_translation translation.now) (ipv4_translation quoted.now) packet.old) packet.old }
{
    match translate_ipv4_with_quoted(packet, &of_ipv4(translation), &of_ipv4(quoted)) {
        Ok(()) => accept(error),
        Err(refused) => refuse(error, of_translate(&refused, 6)),
    }
}

/// Translates an IPv6 packet in place, like `etherparse_translate_ipv6`. If the packet is an ICMP error, `quoted` contains the values to
/// replace in the packet that it quotes, as in `etherparse_translate_ipv4_with_quoted`.
///
/// # Errors
///
/// The statuses of `etherparse_translate_ipv6`. If `quoted` replaces a port, and the quoted packet is not UDP, TCP or ICMP, the status is
/// `TRANSLATE_QUOTED_PACKET`. After an error `error` contains the reason, and `packet` is unchanged.
#[unsafe(no_mangle)]
pub extern "C" fn etherparse_translate_ipv6_with_quoted(
    packet: &mut [u8],
    translation: &EtherparseIpv6Translation,
    quoted: &EtherparseIpv6Translation,
    error: ErrorPlace,
) -> Answer
    ensures status { result.status ≡ status_of (ipv6_refusal_with translation.now quoted.now packet.old) }
    ensures error { Leaves error result (unwrap_or (ipv6_refusal_with translation.now quoted.now packet.old) error.before) }
    ensures packet { packet.new ≡ unless_refused (ipv6_refusal_with translation.now quoted.now packet.old)
        (ipv6_translated_with (ipv6_translation translation.now) (ipv6_translation quoted.now) packet.old) packet.old }
{
    match translate_ipv6_with_quoted(packet, &of_ipv6(translation), &of_ipv6(quoted)) {
        Ok(()) => accept(error),
        Err(refused) => refuse(error, of_translate(&refused, 4)),
    }
}
