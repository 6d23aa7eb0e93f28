ghost use Rattle.std.specs.Prelude.{◌≡◌, IfOk, IfSome, None, Some, [], length};
ghost use Rattle.net_base.specs.Refusals.{RefusesExactly};
ghost use Rattle.ip_translation.specs.ErrorTexts.{address_text, prefix_text};
ghost use Rattle.ip_translation.specs.PacketsToIpv4 as to_ipv4;
ghost use Rattle.ip_translation.specs.FragmentsToIpv6 as to_ipv6;
ghost use Rattle.ip_translation.specs.declared.prefixes.Prefixes.{Prefixes};
ghost use Rattle.etherparse_transport_c.specs.ErrorText.{siit_header_text_in_c, siit_text_in_c, text_of};
ghost use Rattle.etherparse_transport_c.specs.Siit as specs;
ghost use Rattle.etherparse_transport_c.specs.Siit.{ArePrefixes, IsAnswer, IsPrefix, prefixes_refusal};
ghost use Rattle.etherparse_transport_c.specs.declared.error.EtherparseError.{EtherparseError};

use crate::answer::{Answer, ErrorPlace, accept, refuse};
use crate::error::{EtherparseError, NONE, of_buffer, of_ip, of_status};
use crate::status;
use etherparse_transport::ip::{
    AddressError, IpError, PacketTranslationError, Prefix64, Prefix64Error, Prefixes,
    TranslationError, ipv4_to_ipv6, ipv6_to_ipv4,
};

/// A prefix of IPv6 addresses that contain an IPv4 address (RFC 6052, section 2.2).
#[repr(C)]
#[derive(Clone, Copy)]
pub struct EtherparsePrefix64 {
    /// The address that begins with the prefix, and whose other bits are 0.
    pub address: [u8; 16],
    /// The length of the prefix in bits: 32, 40, 48, 56, 64 or 96.
    pub len: u8,
}

/// The place of an address in the error about it: the source.
const SOURCE: usize = 0;

/// The place of an address in the error about it: the destination.
const DESTINATION: usize = 1;

/// Returns the prefix.
#[inline(always)]
fn prefix_of(prefix: &EtherparsePrefix64) -> Result<Prefix64, EtherparseError>
    ensures refused { RefusesExactly result (specs.prefix_refusal prefix.now) }
    ensures kept { IfOk result (λ found. IsPrefix prefix.now found) }
{
    match Prefix64::new(prefix.address, prefix.len) {
        Ok(found) => Ok(found),
        Err(refused) => Err(of_prefix(&refused)),
    }
}

/// Returns the error for a refused prefix.
#[tactic(auto, unfolding(crate::specs::ErrorText::later_text, crate::specs::ErrorText::siit_header_text))]
fn of_prefix(error: &Prefix64Error) -> EtherparseError
    ensures numbers { result ≡ specs.of_prefix error.now }
    ensures text { text_of result ≡ prefix_text error.now }
{
    match error {
        Prefix64Error::Len(len) => of_number(status::PREFIX_LENGTH, usize::from(*len)),
        Prefix64Error::ReservedOctet => of_status(status::PREFIX_RESERVED_OCTET),
        Prefix64Error::SuffixBits => of_status(status::PREFIX_SUFFIX),
    }
}

/// Returns the prefix if it has 96 bits. `None` for any other prefix, and for a refused prefix.
#[inline(always)]
fn prefix_of_96_bits(prefix: &EtherparsePrefix64) -> Option<Prefix64>
    ensures accepted { IfSome result (λ _. specs.prefix_refusal prefix.now ≡ None) }
    ensures kept { IfSome result (λ found. IsPrefix prefix.now found) }
{
    let address = prefix.address;
    let last = [address[12], address[13], address[14], address[15]];
    if prefix.len != 96 || address[8] != 0 || u32::from_be_bytes(last) != 0 {
        return None;
    }
    prefix_of(prefix).ok()
}

/// Returns both prefixes. The error is about the first refused prefix.
// perf: most callers pass prefixes of 96 bits. They are read here, so that the compiler does not mix this code with the code for other
// prefixes (1 Dec 2026).
#[inline(always)]
fn prefixes_of(
    source: &EtherparsePrefix64,
    destination: &EtherparsePrefix64,
) -> Result<Prefixes<'static>, EtherparseError>
    ensures refused { RefusesExactly result (prefixes_refusal source.now destination.now) }
    ensures source { IfOk result (λ found. IsPrefix source.now found.source.prefix) }
    ensures source_mappings { IfOk result (λ found. found.source.mappings.now ≡ []) }
    ensures destination { IfOk result (λ found. IsPrefix destination.now found.destination.prefix) }
    ensures destination_mappings { IfOk result (λ found. found.destination.mappings.now ≡ []) }
{
    if let Some(first) = prefix_of_96_bits(source) {
        if let Some(second) = prefix_of_96_bits(destination) {
            return Ok(Prefixes::new(first, second));
        }
    }
    prefixes_of_any(source, destination)
}

/// Returns both prefixes, of any length.
#[inline(never)]
fn prefixes_of_any(
    source: &EtherparsePrefix64,
    destination: &EtherparsePrefix64,
) -> Result<Prefixes<'static>, EtherparseError>
    ensures refused { RefusesExactly result (prefixes_refusal source.now destination.now) }
    ensures source { IfOk result (λ found. IsPrefix source.now found.source.prefix) }
    ensures source_mappings { IfOk result (λ found. found.source.mappings.now ≡ []) }
    ensures destination { IfOk result (λ found. IsPrefix destination.now found.destination.prefix) }
    ensures destination_mappings { IfOk result (λ found. found.destination.mappings.now ≡ []) }
{
    let source = prefix_of(source)?;
    let destination = prefix_of(destination)?;
    Ok(Prefixes::new(source, destination))
}

/// Translates an IPv4 packet to IPv6 (RFC 7915, section 4). Writes the IPv6 packet to the front of `buffer`, and its length to `written`.
/// The prefix `source` embeds the source, and `destination` embeds the destination. A receiver accepts the message of the translated packet
/// exactly if it accepts the message of the original packet.
///
/// A fragment becomes a fragment with a fragment header, which contains the identification, the offset and "more fragments" (section 4.1). A
/// later fragment is copied behind its new headers.
///
/// # Errors
///
/// The status is `OK`, or the first of these that applies:
/// - `PREFIX_LENGTH`, `PREFIX_RESERVED_OCTET` or `PREFIX_SUFFIX` if a prefix is refused (RFC 6052, section 2.2).
/// - `SIIT_NO_HEADER` if the packet does not begin with a whole IPv4 header.
/// - `IP_TOTAL_LENGTH` if the total length is below the length of the header.
/// - `SIIT_HEADER_CHECKSUM`, `TRANSLATE_SOURCE_ROUTE`, `SIIT_TIME_EXCEEDED`, `SIIT_SOURCE`, `SIIT_DESTINATION` or `SIIT_NOT_GLOBAL` if the
///   header is not translated.
/// - `IP_PACKET_CUT_OFF` if there are fewer bytes than the total length.
/// - `SIIT_ICMP_FRAGMENT` if a fragment is part of an ICMP message (section 1.2).
/// - `SIIT_TRANSPORT_HEADER` if the packet ends within its transport header.
/// - `SIIT_ICMP_MESSAGE`, `SIIT_ICMP_EXTENSION` or `SIIT_ICMP_POINTER` if an ICMP message is not translated.
/// - `SIIT_QUOTED_PACKET` or `SIIT_TRANSPORT_HEADER` if the packet that an ICMP error quotes can't be translated.
/// - `SIIT_FRAGMENT_CHECKSUM` if the first fragment of a UDP packet has no checksum (section 4.5).
/// - `SIIT_UDP_LENGTH` if a UDP packet has no checksum, and a wrong length field.
/// - `BUFFER_TOO_SMALL` if the buffer is shorter than the translated packet.
///
/// After an error `error` contains the reason, and `buffer` and `written` are unchanged.
#[unsafe(no_mangle)]
pub extern "C" fn etherparse_ipv4_to_ipv6(
    packet: &[u8],
    source: &EtherparsePrefix64,
    destination: &EtherparsePrefix64,
    buffer: &mut [u8],
    written: &mut usize,
    error: ErrorPlace,
) -> Answer
    ensures pointer { result.pointer ≡ error.pointer }
    ensures refused { (why : EtherparseError) → prefixes_refusal source.now destination.now ≡ Some why →
        IsAnswer (Some why) [] 0 error.before result written.old written.new buffer.old buffer.new }
    // The two prefixes are determined by their addresses and lengths.
    ensures translated { prefixes_refusal source.now destination.now ≡ None →
        (prefixes : Prefixes) × ArePrefixes source.now destination.now prefixes ×
        IsAnswer (specs.ipv4_refusal prefixes packet.now (length buffer.old)) (to_ipv6.translated_packet prefixes packet.now)
        (specs.ipv6_len prefixes packet.now) error.before result written.old written.new buffer.old buffer.new }
{
    let prefixes = match prefixes_of(source, destination) {
        Ok(prefixes) => prefixes,
        Err(refused) => return refuse(error, refused),
    };
    match ipv4_to_ipv6(packet, &prefixes, buffer) {
        Ok(len) => {
            *written = len;
            accept(error)
        }
        Err(refused) => refuse(error, of_siit(&refused)),
    }
}

/// Translates an IPv6 packet to IPv4 (RFC 7915, section 5), like `etherparse_ipv4_to_ipv6`. The prefix `source` is removed from the source,
/// and `destination` from the destination. Hop-by-hop options, destination options and routing headers without segments left are skipped
/// (section 5.1). `identification` is the identification of the IPv4 packet.
///
/// If the packet has a fragment header, this header determines the identification, the fragment offset and "more fragments", and the
/// argument `identification` is not used (section 5.1.1). A later fragment is copied behind its new header. An atomic fragment is
/// translated as a whole packet.
///
/// # Errors
///
/// The status is `OK`, or the first of these that applies:
/// - `PREFIX_LENGTH`, `PREFIX_RESERVED_OCTET` or `PREFIX_SUFFIX` if a prefix is refused (RFC 6052, section 2.2).
/// - `SIIT_NO_HEADER` if the packet does not begin with a whole IPv6 header.
/// - `IP_PACKET_CUT_OFF` if there are fewer bytes than the header and its payload length.
/// - `SIIT_EXTENSION_HEADER_CUT_OFF` if an extension header ends after the packet, and `SIIT_SEGMENTS_LEFT` if a routing header has
///   segments left. These two are checked for each extension header that is skipped.
/// - `SIIT_EXTENSION_HEADER_CUT_OFF` if a fragment header ends after the packet, and `SIIT_EXTENSION_HEADER` if another extension header
///   follows it.
/// - `SIIT_PAYLOAD_LENGTH`, `SIIT_TIME_EXCEEDED`, `SIIT_SOURCE`, `SIIT_DESTINATION`, `SIIT_NOT_EMBEDDED` or `SIIT_NOT_GLOBAL` if the header
///   of the packet without these extension headers is not translated.
/// - `SIIT_ICMP_FRAGMENT` if one of several fragments is part of an ICMPv6 message (section 1.2).
/// - `SIIT_TRANSPORT_HEADER` if the packet ends within its transport header.
/// - `SIIT_ICMP_MESSAGE`, `SIIT_ICMP_EXTENSION` or `SIIT_ICMP_POINTER` if an ICMPv6 message is not translated.
/// - `SIIT_QUOTED_PACKET` or `SIIT_TRANSPORT_HEADER` if the packet that an ICMPv6 error quotes can't be translated.
/// - `SIIT_NO_UDP_CHECKSUM` if a UDP packet has no checksum.
/// - `BUFFER_TOO_SMALL` if the buffer is shorter than the translated packet.
///
/// After an error `error` contains the reason, and `buffer` and `written` are unchanged.
#[unsafe(no_mangle)]
pub extern "C" fn etherparse_ipv6_to_ipv4(
    packet: &[u8],
    source: &EtherparsePrefix64,
    destination: &EtherparsePrefix64,
    identification: u16,
    buffer: &mut [u8],
    written: &mut usize,
    error: ErrorPlace,
) -> Answer
    ensures pointer { result.pointer ≡ error.pointer }
    ensures refused { (why : EtherparseError) → prefixes_refusal source.now destination.now ≡ Some why →
        IsAnswer (Some why) [] 0 error.before result written.old written.new buffer.old buffer.new }
    // The two prefixes are determined by their addresses and lengths.
    ensures translated { prefixes_refusal source.now destination.now ≡ None →
        (prefixes : Prefixes) × ArePrefixes source.now destination.now prefixes ×
        IsAnswer (specs.ipv6_refusal prefixes packet.now (length buffer.old)) (to_ipv4.translated_packet prefixes identification packet.now)
        (specs.ipv4_len prefixes identification packet.now) error.before result written.old written.new buffer.old buffer.new }
{
    let prefixes = match prefixes_of(source, destination) {
        Ok(prefixes) => prefixes,
        Err(refused) => return refuse(error, refused),
    };
    match ipv6_to_ipv4(packet, &prefixes, identification, buffer) {
        Ok(len) => {
            *written = len;
            accept(error)
        }
        Err(refused) => refuse(error, of_siit(&refused)),
    }
}

/// Returns an error that consists of a status and a refused value.
fn of_number(status: u32, actual: usize) -> EtherparseError
    ensures { result ≡ specs.of_number status actual }
{
    EtherparseError {
        status,
        actual,
        ..NONE
    }
}

/// Returns the error for an ICMP message with this type and code.
fn of_icmp_message(type_u8: u8, code_u8: u8) -> EtherparseError
    ensures { result ≡ specs.of_icmp_message type_u8 code_u8 }
{
    let kind = u16::from_be_bytes([type_u8, code_u8]);
    of_number(status::SIIT_ICMP_MESSAGE, usize::from(kind))
}

/// Returns the error for a packet that is not translated between IPv4 and IPv6.
#[tactic(auto, unfolding(crate::specs::ErrorText::later_text, crate::specs::ErrorText::siit_header_text, crate::specs::ErrorText::siit_message_text))]
fn of_siit(error: &PacketTranslationError) -> EtherparseError
    ensures numbers { result ≡ specs.of_siit error.now }
    ensures text { text_of result ≡ siit_text_in_c error.now }
{
    match error {
        PacketTranslationError::NoIpv4Header => of_number(status::SIIT_NO_HEADER, 4),
        PacketTranslationError::NoIpv6Header => of_number(status::SIIT_NO_HEADER, 6),
        PacketTranslationError::Header(error) => of_header(error),
        PacketTranslationError::CutOff { total_len, len } => of_ip(&IpError::PacketCutOff {
            required_len: *total_len,
            len: *len,
        }),
        PacketTranslationError::IcmpMessage { type_u8, code_u8 } => {
            of_icmp_message(*type_u8, *code_u8)
        }
        PacketTranslationError::IcmpExtension(length) => {
            of_number(status::SIIT_ICMP_EXTENSION, usize::from(*length))
        }
        PacketTranslationError::IcmpPointer(pointer) => {
            of_number(status::SIIT_ICMP_POINTER, *pointer as usize)
        }
        PacketTranslationError::NoQuotedHeader
        | PacketTranslationError::QuotedHeader(_)
        | PacketTranslationError::QuotedIcmp { .. } => of_status(status::SIIT_QUOTED_PACKET),
        PacketTranslationError::TransportHeader { required_len, len } => EtherparseError {
            status: status::SIIT_TRANSPORT_HEADER,
            required_len: *required_len,
            len: *len,
            ..NONE
        },
        PacketTranslationError::UdpLength { length, len } => EtherparseError {
            len: *len,
            ..of_number(status::SIIT_UDP_LENGTH, *length)
        },
        PacketTranslationError::NoUdpChecksum => of_status(status::SIIT_NO_UDP_CHECKSUM),
        PacketTranslationError::Space { required_len, len } => of_buffer(*required_len, *len),
        PacketTranslationError::ExtensionHeaderCutOff {
            number,
            required_len,
            len,
        } => EtherparseError {
            required_len: *required_len,
            len: *len,
            ..of_number(status::SIIT_EXTENSION_HEADER_CUT_OFF, usize::from(*number))
        },
        PacketTranslationError::SegmentsLeft { pointer } => {
            of_number(status::SIIT_SEGMENTS_LEFT, *pointer)
        }
        PacketTranslationError::IcmpFragment => of_status(status::SIIT_ICMP_FRAGMENT),
        PacketTranslationError::FragmentChecksum => of_status(status::SIIT_FRAGMENT_CHECKSUM),
    }
}

/// Returns the error for a header that is not translated between IPv4 and IPv6.
#[tactic(auto, unfolding(crate::specs::ErrorText::later_text, crate::specs::ErrorText::siit_header_text))]
fn of_header(error: &TranslationError) -> EtherparseError
    ensures numbers { result ≡ specs.of_header error.now }
    ensures text { text_of result ≡ siit_header_text_in_c error.now }
{
    match error {
        TranslationError::TotalLength {
            total_len,
            header_len,
        } => of_ip(&IpError::TotalLength {
            total_len: usize::from(*total_len),
            header_len: usize::from(*header_len),
        }),
        TranslationError::HeaderChecksum => of_status(status::SIIT_HEADER_CHECKSUM),
        // No call returns this error, since both translate fragments.
        TranslationError::Fragment => of_status(status::SIIT_FRAGMENT_CHECKSUM),
        TranslationError::SourceRoute => of_status(status::TRANSLATE_SOURCE_ROUTE),
        TranslationError::ExtensionHeader(number) => {
            of_number(status::SIIT_EXTENSION_HEADER, usize::from(*number))
        }
        TranslationError::PayloadLength(payload_len) => {
            of_number(status::SIIT_PAYLOAD_LENGTH, usize::from(*payload_len))
        }
        TranslationError::TimeExceeded => of_status(status::SIIT_TIME_EXCEEDED),
        TranslationError::IllegalSource => of_status(status::SIIT_SOURCE),
        TranslationError::IllegalDestination => of_status(status::SIIT_DESTINATION),
        TranslationError::Source(error) => of_address(error, SOURCE),
        TranslationError::Destination(error) => of_address(error, DESTINATION),
    }
}

/// Returns the error for an address that has no translation. `place` is `SOURCE` or `DESTINATION`.
#[tactic(auto, unfolding(crate::specs::ErrorText::later_text, crate::specs::ErrorText::siit_header_text))]
fn of_address(error: &AddressError, place: usize) -> EtherparseError
    ensures numbers { result ≡ specs.of_address place error.now }
    ensures text { text_of result ≡ address_text error.now }
{
    match error {
        AddressError::NotEmbedded => of_number(status::SIIT_NOT_EMBEDDED, place),
        AddressError::NotGlobal => of_number(status::SIIT_NOT_GLOBAL, place),
    }
}
