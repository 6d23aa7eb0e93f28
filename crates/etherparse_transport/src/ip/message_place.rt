ghost use Rattle.std.specs.Prelude.{ℕ, false, ◌≡◌, ◌≤◌, ◌+◌, IfOk, IfSome, Some, length, slice_range};
ghost use Rattle.std.specs.Option.{option_map};
ghost use Rattle.icmp_part.specs.QuotedPackets.{quoted_by_icmpv4, quoted_by_icmpv6};
ghost use Rattle.ip_part.specs.declared.proto.Proto.TheVariants as protos;
ghost use Rattle.net_base.specs.Refusals.{RefusesExactly};
ghost use Rattle.word_sum.specs.Checksum.{total};
ghost use Rattle.word_sum.specs.ChecksumChange.{TurnsInto, added_value, removed_value};
ghost use Rattle.etherparse_transport.specs.Translations as specs;
ghost use Rattle.etherparse_transport.specs.Translations.{HaveSums, IsAcceptedAlike, IsUpdated};
ghost use Rattle.etherparse_transport.specs.WaysBack.{ArePorts};

use crate::checksum_change::ChecksumChange;
use crate::err::packet::TranslateError;
use crate::ip::translated_message::{is_icmpv4_query, is_icmpv6_query, translate_message};
use crate::{Icmpv4Header, Icmpv4Slice, Icmpv6Slice, Proto, icmpv4};

/// The length of an ICMP header, in bytes (RFC 792; RFC 4443, section 2.1).
pub(crate) const ICMP_LEN: usize = Icmpv4Header::MIN_LEN;

/// The number of bytes of a transport header that a translation needs. They contain the ports or the identifier (RFC 792).
const NEEDED_LEN: usize = 8;

/// Where the message of a packet begins and ends, and which protocol it has.
#[derive(Clone, Copy)]
pub(crate) struct Place {
    // perf: the small fields are first, as in `TranslateError`. If `end` is first, the caller of a function that returns `Place` or
    // `TranslateError` waits for it: a UDP packet takes 37.8 instead of 32.5 ns (27 Nov 2026).
    /// The protocol. `None` if only the addresses of the packet are replaced.
    pub(crate) proto: Option<Proto>,
    /// Whether the packet is a later fragment.
    pub(crate) is_later_fragment: bool,
    /// The start of the message, in bytes from the start of the packet.
    pub(crate) start: usize,
    /// The end of the message, in bytes from the start of the packet.
    pub(crate) end: usize,
}

/// Translates the message of a packet. The message may be cut off. A later fragment is unchanged, since its first bytes are not a transport
/// header. The returned change replaces the addresses and the words of the message.
#[inline(always)]
pub(crate) fn translate_flow(
    message: &mut [u8],
    place: &Place,
    addresses: ChecksumChange,
    source_port: Option<u16>,
    destination_port: Option<u16>,
) -> ChecksumChange
    ensures translated { message.new ≡ specs.translated_in place.now.is_later_fragment place.now.proto (removed_value addresses)
        (added_value addresses) source_port destination_port message.old }
    ensures turns { (before after : ℕ) → TurnsInto addresses before (after + total message.old) → TurnsInto result before (after + total message.new) }
    ensures verifies { place.now.is_later_fragment ≡ false → (proto : Proto) → place.now.proto ≡ Some proto →
        (before after : ℕ) → HaveSums proto (removed_value addresses) (added_value addresses) before after →
        IsUpdated proto message.old → IsAcceptedAlike before after message.old message.new }
    ensures ports { ArePorts source_port destination_port }
{
    if place.is_later_fragment {
        return addresses;
    }
    match place.proto {
        Some(proto) => {
            translate_message(message, proto, addresses, source_port, destination_port)
        }
        None => addresses,
    }
}

/// The length of the packet that an ICMP error quotes. `None` for any other message that can be translated.
#[inline(always)]
pub(crate) fn quoted_len(place: &Place, message: &[u8]) -> Result<Option<usize>, TranslateError>
    ensures refused { RefusesExactly result (specs.message_refusal place.now.is_later_fragment place.now.proto message.now) }
    ensures quoted { IfOk result (λ len. specs.quoted_in place.now.is_later_fragment place.now.proto message.now ≡
        option_map (λ len. slice_range message.now 8 (8 + len)) len) }
    ensures within { IfOk result (λ len. IfSome len (λ len. 8 + len ≤ length message.now)) }
{
    let Some(proto) = place.proto else {
        return Ok(None);
    };
    if place.is_later_fragment {
        return Ok(None);
    }
    if message.len() < NEEDED_LEN {
        return Err(TranslateError::HeaderCutOff {
            required_len: NEEDED_LEN,
            len: message.len(),
        });
    }
    match proto {
        Proto::Udp | Proto::Tcp => Ok(None),
        Proto::Icmpv4 => quoted_len_icmpv4(message),
        Proto::Icmpv6 => quoted_len_icmpv6(message),
    }
}

/// The length of the packet that an ICMPv4 error quotes. `None` for a query.
#[inline(never)]
fn quoted_len_icmpv4(message: &[u8]) -> Result<Option<usize>, TranslateError>
    requires header { 8 ≤ length message.now }
    ensures refused { RefusesExactly result (specs.icmp_refusal protos.Icmpv4 message.now) }
    ensures quoted { IfOk result (λ len. quoted_by_icmpv4 message.now ≡ option_map (λ len. slice_range message.now 8 (8 + len)) len) }
    ensures within { IfOk result (λ len. IfSome len (λ len. 8 + len ≤ length message.now)) }
{
    if is_icmpv4_query(message) {
        return Ok(None);
    }
    if message[0] == icmpv4::TYPE_REDIRECT {
        return Err(TranslateError::IcmpMessage);
    }
    let Ok(message) = Icmpv4Slice::from_slice(message) else {
        return Err(TranslateError::IcmpMessage);
    };
    match message.quoted_packet() {
        Some(quoted) => Ok(Some(quoted.len())),
        None => Err(TranslateError::IcmpMessage),
    }
}

/// The length of the packet that an ICMPv6 error quotes. `None` for a query.
#[inline(always)]
fn quoted_len_icmpv6(message: &[u8]) -> Result<Option<usize>, TranslateError>
    requires header { 8 ≤ length message.now }
    ensures refused { RefusesExactly result (specs.icmp_refusal protos.Icmpv6 message.now) }
    ensures quoted { IfOk result (λ len. quoted_by_icmpv6 message.now ≡ option_map (λ len. slice_range message.now 8 (8 + len)) len) }
    ensures within { IfOk result (λ len. IfSome len (λ len. 8 + len ≤ length message.now)) }
{
    if is_icmpv6_query(message) {
        return Ok(None);
    }
    let Ok(message) = Icmpv6Slice::from_slice(message) else {
        return Err(TranslateError::IcmpMessage);
    };
    match message.quoted_packet() {
        Some(quoted) => Ok(Some(quoted.len())),
        None => Err(TranslateError::IcmpMessage),
    }
}

/// Writes these bytes to this place.
pub(crate) fn replace_bytes(bytes: &mut [u8], place: usize, new: &[u8])
    requires room { place + length new.now ≤ length bytes.old }
    ensures { bytes.new ≡ specs.with_bytes place new.now bytes.old }
{
    bytes[place..place + new.len()].copy_from_slice(new);
}
