ghost use Rattle.std.specs.Prelude.{◌≡◌, ◌≤◌, ◌<◌, ◌+◌, IfOk, length, slice_index};
ghost use Rattle.net_base.specs.Refusals.{RefusesExactly};
ghost use Rattle.ip_translation.specs.ErrorsToIpv4 as specs;
ghost use Rattle.ip_translation.specs.Extensions as extensions;

use crate::extensions::{
    IPV4_UNIT, IPV6_UNIT, MIN_QUOTE_LEN, extended, first_bytes, is_wrong_len, split_extension,
};
use crate::packet_to_ipv4::front_header;
use crate::quoted_packet::{ERROR_LEN, MAX_ERROR_LEN, joined};
use crate::quoted_to_ipv4::quoted_to_ipv4;
use crate::{PacketTranslationError, Prefixes, icmpv4_error, icmpv4_mtu, icmpv4_pointer};
use arrayvec::ArrayVec;
use net_base::Ipv6HeaderSlice;

/// The place of the length of the quoted packet in an ICMPv6 error, in bytes (RFC 4884, section 4).
const QUOTE_LENGTH_AT: usize = 4;

/// The greatest length of a quoted packet before an extension, in bytes: the length field is a byte (RFC 4884, section 4).
const MAX_STATED_LEN: usize = u8::MAX as usize * IPV4_UNIT;

/// The type of the ICMPv6 message "destination unreachable" (RFC 4443, section 3.1).
const UNREACHABLE: u8 = 1;

/// The type of the ICMPv6 message "time exceeded" (RFC 4443, section 3.3).
const TIME_EXCEEDED: u8 = 3;

/// The type of the ICMP message "destination unreachable" (RFC 792).
const IPV4_UNREACHABLE: u8 = 3;

/// The code of the ICMP message "fragmentation needed" (RFC 792).
const FRAGMENTATION_NEEDED: u8 = 4;

/// The type of the ICMP message "parameter problem" (RFC 792).
const IPV4_PARAMETER_PROBLEM: u8 = 12;

/// The ICMP error for an ICMPv6 error, with 0 instead of its checksum.
pub(crate) fn error_to_ipv4(
    message: &[u8],
    prefixes: &Prefixes,
) -> Result<ArrayVec<u8, MAX_ERROR_LEN>, PacketTranslationError>
    requires there { 8 ≤ length message.now }
    ensures refused { RefusesExactly result (specs.error_refusal prefixes.now message.now) }
    ensures written { IfOk result (λ error. error.items ≡ specs.error_without_checksum prefixes.now message.now) }
    ensures there { IfOk result (λ error. 28 ≤ length error.items) }
    ensures some { IfOk result (λ error. 0 < slice_index error.items 0) }
{
    let kind = kind_to_ipv4(message)?;
    let (quoting, extension) = split_extension(stated_len(message), message);
    let Some(quoted) = front_header(&quoting[ERROR_LEN..]) else {
        return Err(PacketTranslationError::NoQuotedHeader);
    };
    let exchanged = Prefixes {
        source: prefixes.destination,
        destination: prefixes.source,
    };
    let error = error_about(&quoted, kind, quoting, &exchanged)?;
    Ok(with_extension(kind, extension, error))
}

/// The ICMP error of this kind with this extension. `error` is the error without the extension.
fn with_extension(
    kind: (u8, u8),
    extension: &[u8],
    error: ArrayVec<u8, MAX_ERROR_LEN>,
) -> ArrayVec<u8, MAX_ERROR_LEN>
    requires there { 28 ≤ length error.items }
    requires kind { 0 < kind.0 }
    requires some { 0 < slice_index error.items 0 }
    ensures bytes { result.items ≡ specs.with_extension kind extension.now error.items }
    ensures there { 28 ≤ length result.items }
    ensures some { 0 < slice_index result.items 0 }
{
    if extension.is_empty() {
        return error;
    }
    let quote = first_bytes(&error.as_slice()[ERROR_LEN..], MAX_STATED_LEN);
    extended_error(kind, quote, extension)
}

/// The ICMP error of this kind about this quoted packet with this extension.
fn extended_error(kind: (u8, u8), quote: &[u8], extension: &[u8]) -> ArrayVec<u8, MAX_ERROR_LEN>
    requires short { length quote.now ≤ specs.max_stated_len }
    requires kind { 0 < kind.0 }
    ensures bytes { result.items ≡ specs.extended_error kind quote.now extension.now }
    ensures there { 28 ≤ length result.items }
    ensures some { 0 < slice_index result.items 0 }
{
    let len = padded_len(quote.len());
    extended(
        kind,
        [0, (len / IPV4_UNIT) as u8, 0, 0],
        quote,
        len,
        extension,
    )
}

/// This length with zeros after it: a multiple of four bytes, and at least 128.
fn padded_len(len: usize) -> usize
    requires short { len ≤ specs.max_stated_len }
    ensures value { result ≡ extensions.padded_len 4 len }
    ensures least { (len ≤ result) × (128 ≤ result) }
    ensures greatest { (result ≤ len + 128) × (result ≤ specs.max_stated_len) }
{
    MIN_QUOTE_LEN.max((len + (IPV4_UNIT - 1)) / IPV4_UNIT * IPV4_UNIT)
}

/// The length of the quoted packet that an ICMPv6 error states, in bytes. 0 if it states no length. Only "destination unreachable" and "time
/// exceeded" state one.
fn stated_len(message: &[u8]) -> usize
    requires there { 8 ≤ length message.now }
    ensures len { result ≡ specs.stated_len message.now }
    ensures short { result ≤ extensions.greatest_stated_len }
{
    if message[0] == UNREACHABLE || message[0] == TIME_EXCEEDED {
        return usize::from(message[QUOTE_LENGTH_AT]) * IPV6_UNIT;
    }
    0
}

/// The ICMP type and code of an error. Refuses a message that is dropped, or that states a wrong length of the quoted packet.
fn kind_to_ipv4(message: &[u8]) -> Result<(u8, u8), PacketTranslationError>
    requires there { 8 ≤ length message.now }
    ensures refused { RefusesExactly result (specs.kind_refusal message.now) }
    ensures kind { IfOk result (λ kind. kind ≡ specs.kind message.now) }
    ensures some { IfOk result (λ kind. 0 < kind.0) }
{
    let Some(kind) = icmpv4_error(message[0], message[1]) else {
        return Err(PacketTranslationError::IcmpMessage {
            type_u8: message[0],
            code_u8: message[1],
        });
    };
    if is_wrong_len(stated_len(message), message) {
        return Err(PacketTranslationError::IcmpExtension(message[QUOTE_LENGTH_AT]));
    }
    Ok(kind)
}

/// The ICMP error of this kind about a packet with this header. The prefixes are those of the quoted packet.
fn error_about(
    quoted: &Ipv6HeaderSlice<'_>,
    kind: (u8, u8),
    message: &[u8],
    prefixes: &Prefixes,
) -> Result<ArrayVec<u8, MAX_ERROR_LEN>, PacketTranslationError>
    requires there { 8 ≤ length message.now }
    requires some { 0 < kind.0 }
    ensures refused { RefusesExactly result (specs.refusal_about quoted.now kind prefixes.now message.now) }
    ensures written { IfOk result (λ error. error.items ≡ specs.error_about quoted.now kind prefixes.now message.now) }
    ensures there { IfOk result (λ error. 28 ≤ length error.items) }
    ensures some { IfOk result (λ error. 0 < slice_index error.items 0) }
{
    let packet = quoted_to_ipv4(quoted, &message[ERROR_LEN..], prefixes)?;
    let word = error_word(kind, message)?;
    Ok(joined(kind, word, packet.as_slice()))
}

/// The four bytes after the checksum of the ICMP error.
fn error_word(kind: (u8, u8), message: &[u8]) -> Result<[u8; 4], PacketTranslationError>
    requires there { 8 ≤ length message.now }
    ensures refused { RefusesExactly result (specs.pointer_refusal kind message.now) }
    ensures word { IfOk result (λ word. word ≡ specs.word kind message.now) }
{
    let number = number_of(message);
    if kind.0 == IPV4_PARAMETER_PROBLEM {
        return match icmpv4_pointer(number) {
            Some(pointer) => Ok([pointer, 0, 0, 0]),
            None => Err(PacketTranslationError::IcmpPointer(number)),
        };
    }
    if kind.0 == IPV4_UNREACHABLE && kind.1 == FRAGMENTATION_NEEDED {
        let [high, low] = icmpv4_mtu(number).to_be_bytes();
        return Ok([0, 0, high, low]);
    }
    Ok([0; 4])
}

/// The number after the checksum of an ICMPv6 error: the pointer of a parameter problem, or the MTU of "packet too big".
fn number_of(message: &[u8]) -> u32
    requires there { 8 ≤ length message.now }
    ensures { result ≡ specs.number_of message.now }
{
    u32::from_be_bytes([message[4], message[5], message[6], message[7]])
}
