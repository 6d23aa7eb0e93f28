ghost use Rattle.std.specs.Prelude.{◌≡◌, ◌≤◌, ◌+◌, IfOk, length};
ghost use Rattle.net_base.specs.IpHeaders.{ipv4_header_len};
ghost use Rattle.net_base.specs.Refusals.{RefusesExactly};
ghost use Rattle.ip_translation.specs.ErrorsToIpv6 as specs;
ghost use Rattle.ip_translation.specs.Extensions as extensions;
ghost use Rattle.ip_translation.specs.QuotedPackets.{max_error_len, min_error_len};

use crate::extensions::{
    IPV4_UNIT, IPV6_UNIT, MIN_QUOTE_LEN, extended, is_wrong_len, split_extension,
};
use crate::message_translation::number;
use crate::packet_translation::front_header;
use crate::quoted_packet::{ERROR_LEN, MAX_ERROR_LEN, joined};
use crate::quoted_to_ipv6::quoted_to_ipv6;
use crate::{PacketTranslationError, Prefixes, icmpv6_error, icmpv6_mtu, icmpv6_pointer};
use arrayvec::ArrayVec;
use net_base::Ipv4HeaderSlice;

/// The place of the pointer in a parameter problem of ICMP, in bytes (RFC 792).
const POINTER_AT: usize = 4;

/// The place of the length of the quoted packet in an ICMP error, in bytes (RFC 4884, section 4).
const QUOTE_LENGTH_AT: usize = 5;

/// The type of the ICMPv6 message "destination unreachable" (RFC 4443, section 3.1).
const UNREACHABLE: u8 = 1;

/// The type of the ICMPv6 message "time exceeded" (RFC 4443, section 3.3).
const TIME_EXCEEDED: u8 = 3;

/// The place of the MTU in an ICMP message "fragmentation needed", in bytes (RFC 1191, section 4).
const MTU_AT: usize = 6;

/// The type of the ICMPv6 message "packet too big" (RFC 4443, section 3.2).
const TOO_BIG: u8 = 2;

/// The type of the ICMPv6 message "parameter problem" (RFC 4443, section 3.4).
const PARAMETER_PROBLEM: u8 = 4;

/// The place of the next header in an IPv6 header, in bytes (RFC 8200, section 3).
const NEXT_HEADER_AT: u32 = 6;

/// The ICMPv6 error for an ICMP error, with 0 instead of its checksum.
pub(crate) fn error_to_ipv6(
    message: &[u8],
    prefixes: &Prefixes,
) -> Result<ArrayVec<u8, MAX_ERROR_LEN>, PacketTranslationError>
    requires there { 8 ≤ length message.now }
    ensures refused { RefusesExactly result (specs.error_refusal prefixes.now message.now) }
    ensures written { IfOk result (λ error. error.items ≡ specs.error_without_checksum prefixes.now message.now) }
    ensures there { IfOk result (λ error. min_error_len ≤ length error.items) }
{
    let kind = kind_to_ipv6(message)?;
    let (quoting, extension) = split_extension(stated_len(message), message);
    let Some(quoted) = front_header(&quoting[ERROR_LEN..]) else {
        return Err(PacketTranslationError::NoQuotedHeader);
    };
    let exchanged = Prefixes {
        source: prefixes.destination,
        destination: prefixes.source,
    };
    let error = error_about(&quoted, kind, quoting, &exchanged)?;
    Ok(with_extension(kind, extension, error))
}

/// The ICMPv6 error of this kind with this extension. `error` is the error without the extension.
fn with_extension(
    kind: (u8, u8),
    extension: &[u8],
    error: ArrayVec<u8, MAX_ERROR_LEN>,
) -> ArrayVec<u8, MAX_ERROR_LEN>
    requires there { min_error_len ≤ length error.items }
    ensures bytes { result.items ≡ specs.with_extension kind extension.now error.items }
    ensures there { min_error_len ≤ length result.items }
{
    if !may_be_extended(kind) {
        return error;
    }
    if extension.is_empty() {
        return error;
    }
    extended_error(kind, &error.as_slice()[ERROR_LEN..], extension)
}

/// Whether ICMPv6 errors of this kind may have an extension.
fn may_be_extended(kind: (u8, u8)) -> bool
    ensures { result ≡ specs.may_be_extended kind }
{
    kind.0 == UNREACHABLE || kind.0 == TIME_EXCEEDED
}

/// The ICMPv6 error of this kind about this quoted packet with this extension.
fn extended_error(kind: (u8, u8), quote: &[u8], extension: &[u8]) -> ArrayVec<u8, MAX_ERROR_LEN>
    requires short { length quote.now + 8 ≤ max_error_len }
    ensures bytes { result.items ≡ specs.extended_error kind quote.now extension.now }
    ensures there { min_error_len ≤ length result.items }
{
    let len = padded_len(quote.len());
    extended(
        kind,
        [(len / IPV6_UNIT) as u8, 0, 0, 0],
        quote,
        len,
        extension,
    )
}

/// This length with zeros after it: a multiple of eight bytes, and at least 128.
fn padded_len(len: usize) -> usize
    requires short { len + 8 ≤ max_error_len }
    ensures value { result ≡ extensions.padded_len 8 len }
    ensures least { (len ≤ result) × (128 ≤ result) }
    ensures greatest { (result ≤ len + 128) × (result + 8 ≤ max_error_len) }
{
    MIN_QUOTE_LEN.max((len + (IPV6_UNIT - 1)) / IPV6_UNIT * IPV6_UNIT)
}

/// The length of the quoted packet that an ICMP error states, in bytes. 0 if it states no length.
fn stated_len(message: &[u8]) -> usize
    requires there { 8 ≤ length message.now }
    ensures len { result ≡ specs.stated_len message.now }
    ensures short { result ≤ extensions.greatest_stated_len }
{
    usize::from(message[QUOTE_LENGTH_AT]) * IPV4_UNIT
}

/// The ICMPv6 type and code of an error. Refuses a message that is dropped, or that states a wrong length of the quoted packet.
fn kind_to_ipv6(message: &[u8]) -> Result<(u8, u8), PacketTranslationError>
    requires there { 8 ≤ length message.now }
    ensures refused { RefusesExactly result (specs.kind_refusal message.now) }
    ensures kind { IfOk result (λ kind. kind ≡ specs.kind message.now) }
{
    let Some(kind) = icmpv6_error(message[0], message[1]) else {
        return Err(PacketTranslationError::IcmpMessage {
            type_u8: message[0],
            code_u8: message[1],
        });
    };
    if is_wrong_len(stated_len(message), message) {
        return Err(PacketTranslationError::IcmpExtension(message[QUOTE_LENGTH_AT]));
    }
    Ok(kind)
}

/// The ICMPv6 error of this kind about a packet with this header. The prefixes are those of the quoted packet.
fn error_about(
    quoted: &Ipv4HeaderSlice<'_>,
    kind: (u8, u8),
    message: &[u8],
    prefixes: &Prefixes,
) -> Result<ArrayVec<u8, MAX_ERROR_LEN>, PacketTranslationError>
    requires there { 8 ≤ length message.now }
    requires long { 20 ≤ ipv4_header_len quoted.now }
    ensures refused { RefusesExactly result (specs.refusal_about quoted.now kind prefixes.now message.now) }
    ensures written { IfOk result (λ error. error.items ≡ specs.error_about quoted.now kind prefixes.now message.now) }
    ensures there { IfOk result (λ error. min_error_len ≤ length error.items) }
{
    let packet = quoted_to_ipv6(quoted, &message[ERROR_LEN..], prefixes)?;
    let word = error_word(kind, message, quoted.total_len())?;
    Ok(joined(kind, word.to_be_bytes(), packet.as_slice()))
}

/// The word after the checksum of the ICMPv6 error. `total_len` is the total length of the quoted packet.
fn error_word(kind: (u8, u8), message: &[u8], total_len: u16) -> Result<u32, PacketTranslationError>
    requires there { 8 ≤ length message.now }
    ensures refused { RefusesExactly result (specs.pointer_refusal kind message.now) }
    ensures word { IfOk result (λ word. word ≡ specs.word kind message.now total_len) }
{
    if kind.0 == TOO_BIG {
        return Ok(icmpv6_mtu(number(message, MTU_AT), total_len));
    }
    if kind.0 != PARAMETER_PROBLEM {
        return Ok(0);
    }
    if kind.1 != 0 {
        return Ok(NEXT_HEADER_AT);
    }
    match icmpv6_pointer(message[POINTER_AT]) {
        Some(pointer) => Ok(u32::from(pointer)),
        None => Err(PacketTranslationError::IcmpPointer(u32::from(message[POINTER_AT]))),
    }
}
