ghost use Rattle.std.specs.Prelude.{◌≡◌, ◌≤◌, IfOk, length};
ghost use Rattle.ip_part.specs.ExtensionHeaders as extensions;
ghost use Rattle.net_base.specs.PseudoHeader.{max_len_over_ipv4};
ghost use Rattle.net_base.specs.Refusals.{RefusesExactly};
ghost use Rattle.ip_translation.specs.SkippedHeaders as specs;

use crate::fragment_fields::{FragmentFields, MORE_FRAGMENTS};
use crate::header_translation::IPV6_LEN;
use crate::message_translation::number;
use crate::{PacketTranslationError, TranslationError};
use net_base::ip_number;

/// Extension headers after an IPv6 header: those that a translation to IPv4 skips, and then a fragment header (RFC 7915, section 5.1).
#[derive(Clone, Copy)]
pub(crate) struct SkippedHeaders {
    /// The number of the header or protocol after these headers.
    pub(crate) number: u8,
    /// The length of these headers, in bytes.
    pub(crate) len: usize,
    /// The fields of the IPv4 header for the fragment header, if there is one.
    pub(crate) fragment: Option<FragmentFields>,
}

/// The length of the shortest extension header, in bytes (RFC 8200, section 4).
const MIN_LEN: usize = 8;

/// The place of the number of segments left in a routing header, in bytes (RFC 8200, section 4.4).
const SEGMENTS_LEFT_AT: usize = 3;

/// The place of the fragment offset in a fragment header, in bytes (RFC 8200, section 4.5).
const OFFSET_AT: usize = 2;

/// The place of the low 16 bits of the identification in a fragment header, in bytes.
const IDENTIFICATION_AT: usize = 6;

/// All headers between an IPv6 header and the message in this payload. `first` is the next header of the IPv6 header.
pub(crate) fn headers_before(
    first: u8,
    payload: &[u8],
) -> Result<SkippedHeaders, PacketTranslationError>
    requires counted { length payload.now ≤ max_len_over_ipv4 }
    ensures skipped { result ≡ specs.headers_before first payload.now }
    ensures within { IfOk result (λ skipped. skipped.len ≤ length payload.now) }
{
    let skipped = skip_headers(first, payload)?;
    if skipped.number != ip_number::IPV6_FRAGMENTATION_HEADER.0 {
        return Ok(skipped);
    }
    let rest = &payload[skipped.len..];
    check_fragment_header(rest)?;
    Ok(fragment_after(skipped, rest))
}

/// Refuses a fragment header at the front of `rest` if it is cut off, or if another extension header follows it.
fn check_fragment_header(rest: &[u8]) -> Result<(), PacketTranslationError>
    ensures refused { RefusesExactly result (specs.fragment_header_refusal rest.now) }
    ensures there { IfOk result (λ _. 8 ≤ length rest.now) }
{
    if rest.len() < MIN_LEN {
        return Err(PacketTranslationError::ExtensionHeaderCutOff {
            number: ip_number::IPV6_FRAGMENTATION_HEADER.0,
            required_len: MIN_LEN,
            len: rest.len(),
        });
    }
    if is_extension(rest[0]) {
        return Err(PacketTranslationError::Header(TranslationError::ExtensionHeader(rest[0])));
    }
    Ok(())
}

/// Whether this is the number of an extension header. Encapsulating Security Payload is none.
fn is_extension(number: u8) -> bool
    ensures { result ≡ extensions.is_extension number }
{
    is_skipped(number)
        || number == ip_number::IPV6_FRAGMENTATION_HEADER.0
        || number == ip_number::AUTHENTICATION_HEADER.0
        || number == ip_number::MOBILITY_HEADER.0
        || number == ip_number::HIP.0
        || number == ip_number::SHIM6.0
}

/// These headers and the fragment header at the front of `rest`.
fn fragment_after(skipped: SkippedHeaders, rest: &[u8]) -> SkippedHeaders
    requires counted { skipped.len ≤ max_len_over_ipv4 }
    requires there { 8 ≤ length rest.now }
    ensures { result ≡ specs.fragment_after skipped rest.now }
{
    SkippedHeaders {
        number: rest[0],
        len: skipped.len + MIN_LEN,
        fragment: Some(fields_by(rest)),
    }
}

/// The fields of the IPv4 header for the fragment header at the front of `rest` (RFC 7915, section 5.1.1).
fn fields_by(rest: &[u8]) -> FragmentFields
    requires there { 8 ≤ length rest.now }
    ensures { result ≡ specs.fields_by rest.now }
{
    let offset = number(rest, OFFSET_AT);
    FragmentFields {
        identification: number(rest, IDENTIFICATION_AT),
        flags_and_offset: Some(offset % 2 * MORE_FRAGMENTS + offset / 8),
    }
}

/// The headers that are skipped in the payload after an IPv6 header. `first` is the next header of the IPv6 header.
fn skip_headers(first: u8, payload: &[u8]) -> Result<SkippedHeaders, PacketTranslationError>
    requires counted { length payload.now ≤ max_len_over_ipv4 }
    ensures skipped { result ≡ specs.skipped_headers first payload.now }
    ensures within { IfOk result (λ skipped. skipped.len ≤ length payload.now) }
{
    let mut skipped = SkippedHeaders {
        number: first,
        len: 0,
        fragment: None,
    };
    while is_skipped(skipped.number) {
        let header = skipped_header(skipped, &payload[skipped.len..])?;
        skipped = skipped_after(skipped, header);
    }
    Ok(skipped)
}

/// Whether this is the number of hop-by-hop options, of a routing header, or of destination options.
fn is_skipped(number: u8) -> bool
    ensures { result ≡ specs.is_skipped number }
{
    number == ip_number::IPV6_HEADER_HOP_BY_HOP.0
        || number == ip_number::IPV6_ROUTE_HEADER.0
        || number == ip_number::IPV6_DESTINATION_OPTIONS.0
}

/// The header after these headers, at the front of `rest`. Refuses a header that is cut off, and a routing header with segments left.
fn skipped_header<'a>(
    skipped: SkippedHeaders,
    rest: &'a [u8],
) -> Result<&'a [u8], PacketTranslationError>
    requires counted { skipped.len ≤ max_len_over_ipv4 }
    ensures refused { RefusesExactly result (specs.skipped_refusal skipped rest.now) }
    ensures kept { IfOk result (λ header. header.now ≡ specs.skipped_header rest.now) }
    ensures shortest { IfOk result (λ header. 8 ≤ length header.now) }
    ensures within { IfOk result (λ header. length header.now ≤ length rest.now) }
{
    let len = rest.len();
    let required_len = if len < MIN_LEN {
        MIN_LEN
    } else {
        skipped_len(rest)
    };
    if len < required_len {
        return Err(PacketTranslationError::ExtensionHeaderCutOff {
            number: skipped.number,
            required_len,
            len,
        });
    }
    if has_segments_left(skipped.number, rest) {
        return Err(PacketTranslationError::SegmentsLeft {
            pointer: IPV6_LEN + (skipped.len + SEGMENTS_LEFT_AT),
        });
    }
    Ok(&rest[..required_len])
}

/// The length of the header at the front of `rest`, in bytes.
fn skipped_len(rest: &[u8]) -> usize
    requires there { 8 ≤ length rest.now }
    ensures len { result ≡ specs.skipped_len rest.now }
    ensures shortest { 8 ≤ result }
{
    (usize::from(rest[1]) + 1) * MIN_LEN
}

/// Whether the header at the front of `rest` is a routing header with segments left. `number` is its number.
fn has_segments_left(number: u8, rest: &[u8]) -> bool
    requires there { 8 ≤ length rest.now }
    ensures { result ≡ extensions.has_segments_left number rest.now }
{
    number == ip_number::IPV6_ROUTE_HEADER.0 && rest[SEGMENTS_LEFT_AT] != 0
}

/// These headers and one more.
fn skipped_after(skipped: SkippedHeaders, header: &[u8]) -> SkippedHeaders
    requires counted { skipped.len ≤ max_len_over_ipv4 }
    requires there { 8 ≤ length header.now }
    ensures { result ≡ specs.skipped_after skipped header.now }
{
    SkippedHeaders {
        number: header[0],
        len: skipped.len + header.len(),
        fragment: skipped.fragment,
    }
}
