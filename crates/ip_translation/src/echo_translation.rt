ghost use Rattle.std.specs.Prelude.{◌≡◌, ◌≢◌, ◌⊎◌, ◌≤◌, ◌<◌, ◌+◌, ◌%◌, ◌↔◌, [], ℕ, IfOk, length, slice_index};
ghost use Rattle.net_base.specs.IpNumbers.{icmpv6_number};
ghost use Rattle.net_base.specs.PseudoHeader.{ipv6_pseudo_header};
ghost use Rattle.net_base.specs.Refusals.{RefusesExactly};
ghost use Rattle.word_sum.specs.Checksum.{Verifies, all_ones, total};
ghost use Rattle.ip_translation.specs.EchoMessages as specs;

use crate::PacketTranslationError;
use crate::message_translation::{
    ICMP_CHECKSUM_AT, ICMP_LEN, check_header_len, number, store_checksum,
};
use arrayvec::ArrayVec;
use net_base::ip_number;
use word_sum::checksum_change::ChecksumChange;

/// The type of an echo request over IPv4 (RFC 792).
const ECHO_REQUEST: u8 = 8;

/// The type of an echo reply over IPv4 (RFC 792).
const ECHO_REPLY: u8 = 0;

/// The type of an echo request over IPv6 (RFC 4443, section 4.1).
const IPV6_ECHO_REQUEST: u8 = 128;

/// The type of an echo reply over IPv6 (RFC 4443, section 4.2).
const IPV6_ECHO_REPLY: u8 = 129;

/// Refuses a quoted ICMP message that is shorter than an echo header, or is not an echo message.
pub(crate) fn check_quoted_echo(message: &[u8]) -> Result<(), PacketTranslationError>
    ensures refused { RefusesExactly result (specs.quoted_echo_refusal specs.type_over_ipv6 message.now) }
    ensures there { IfOk result (λ _. 8 ≤ length message.now) }
{
    check_header_len(message, ICMP_LEN)?;
    match type_over_ipv6(message[0]) {
        Some(_) => Ok(()),
        None => Err(PacketTranslationError::QuotedIcmp {
            type_u8: message[0],
            code_u8: message[1],
        }),
    }
}

/// The ICMPv6 type for the type of an ICMPv4 echo message (RFC 7915, section 4.2). `None` for any other type.
pub(crate) fn type_over_ipv6(type_u8: u8) -> Option<u8>
    ensures { result ≡ specs.type_over_ipv6 type_u8 }
{
    match type_u8 {
        ECHO_REQUEST => Some(IPV6_ECHO_REQUEST),
        ECHO_REPLY => Some(IPV6_ECHO_REPLY),
        _ => None,
    }
}

/// Refuses a quoted ICMPv6 message that is shorter than an echo header, or is not an echo message.
pub(crate) fn check_quoted_ipv6_echo(message: &[u8]) -> Result<(), PacketTranslationError>
    ensures refused { RefusesExactly result (specs.quoted_echo_refusal specs.type_over_ipv4 message.now) }
    ensures there { IfOk result (λ _. 8 ≤ length message.now) }
{
    check_header_len(message, ICMP_LEN)?;
    match type_over_ipv4(message[0]) {
        Some(_) => Ok(()),
        None => Err(PacketTranslationError::QuotedIcmp {
            type_u8: message[0],
            code_u8: message[1],
        }),
    }
}

/// The ICMPv4 type for the type of an ICMPv6 echo message (RFC 7915, section 5.2). `None` for any other type.
pub(crate) fn type_over_ipv4(type_u8: u8) -> Option<u8>
    ensures { result ≡ specs.type_over_ipv4 type_u8 }
{
    match type_u8 {
        IPV6_ECHO_REQUEST => Some(ECHO_REQUEST),
        IPV6_ECHO_REPLY => Some(ECHO_REPLY),
        _ => None,
    }
}

/// The pseudo header of an ICMPv6 message of this length between these addresses (RFC 8200, section 8.1).
pub(crate) fn icmpv6_pseudo_header(
    source: [u8; 16],
    destination: [u8; 16],
    len: u32,
) -> ArrayVec<u8, 40>
    ensures bytes { result.items ≡ ipv6_pseudo_header source destination icmpv6_number len }
    ensures some { 0 < total result.items }
{
    pseudo_header_bytes(source, destination, len)
}

/// The bytes of the pseudo header of an ICMPv6 message.
fn pseudo_header_bytes(source: [u8; 16], destination: [u8; 16], len: u32) -> ArrayVec<u8, 40>
    ensures { result.items ≡ ipv6_pseudo_header source destination icmpv6_number len }
{
    let mut bytes = ArrayVec::new();
    bytes.try_extend_from_slice(&source).unwrap();
    bytes.try_extend_from_slice(&destination).unwrap();
    bytes.try_extend_from_slice(&len.to_be_bytes()).unwrap();
    bytes
        .try_extend_from_slice(&[0, 0, 0, ip_number::IPV6_ICMP.0])
        .unwrap();
    bytes
}

/// Writes an echo message with this type. Updates the checksum for the new type and for the change from the old to the new pseudo header.
/// The pseudo header of ICMPv4 is empty.
pub(crate) fn write_echo(translated: &mut [u8], message: &[u8], type_u8: u8, old: &[u8], new: &[u8])
    requires room { length translated.old ≡ length message.now }
    requires there { 8 ≤ length message.now }
    requires new { (new.now ≡ []) ⊎ (0 < total new.now) }
    ensures written { translated.new ≡ specs.translated_echo type_u8 old.now new.now message.now }
    // A receiver accepts the message exactly if it accepted the old message, unless the old message and its pseudo header consist of zeros.
    ensures alike { total old.now + total message.now ≢ 0 → (Verifies new.now translated.new) ↔ (Verifies old.now message.now) }
{
    let checksum = echo_checksum(message, type_u8, old, new);
    translated.copy_from_slice(message);
    translated[0] = type_u8;
    store_checksum(translated, ICMP_CHECKSUM_AT, checksum);
}

/// The checksum of an echo message after its type and its pseudo header were replaced. For ICMPv4 it is 65,535 instead of 0.
fn echo_checksum(message: &[u8], type_u8: u8, old: &[u8], new: &[u8]) -> u16
    requires there { 8 ≤ length message.now }
    ensures checksum { result ≡ specs.new_checksum type_u8 old.now new.now message.now }
    ensures remainder { (rest : ℕ) → (total new.now + (specs.first_word type_u8 (slice_index message.now 1) + rest + result)) % all_ones
        ≡ (total old.now + (specs.type_and_code message.now + rest + specs.icmp_checksum message.now)) % all_ones }
    ensures some { new.now ≡ [] → result ≢ 0 }
{
    let checksum = updated_checksum(message, type_u8, old, new);
    if checksum == 0 && new.is_empty() {
        return u16::MAX;
    }
    checksum
}

/// The checksum, updated for the new type and for the new pseudo header.
fn updated_checksum(message: &[u8], type_u8: u8, old: &[u8], new: &[u8]) -> u16
    requires there { 8 ≤ length message.now }
    ensures checksum { result ≡ specs.updated_checksum type_u8 old.now new.now message.now }
    ensures remainder { (rest : ℕ) → (total new.now + (specs.first_word type_u8 (slice_index message.now 1) + rest + result)) % all_ones
        ≡ (total old.now + (specs.type_and_code message.now + rest + specs.icmp_checksum message.now)) % all_ones }
{
    let code = message[1];
    ChecksumChange::new()
        .replace_2bytes([message[0], code], [type_u8, code])
        .replace_slice(old, new)
        .apply(number(message, ICMP_CHECKSUM_AT))
}
