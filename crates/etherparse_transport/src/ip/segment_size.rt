ghost use Rattle.std.specs.Prelude.{◌≡◌, ◌≢◌, ◌+◌, ◌≤◌, ◌<◌, IfErr, IfOk, MatchResult, length, slice_index};
ghost use Rattle.net_base.specs.Bytes.{IsBytes};
ghost use Rattle.tcp_part.specs.TcpRawOptions.{raw_spelling};
ghost use Rattle.etherparse_transport.specs.SegmentSizes as specs;
ghost use Rattle.etherparse_transport.specs.SegmentSizes.{Finds, FindsBehind, IsLowered, IsRefusedFor, IsSegmentAccepted, IsSizeAt};
ghost use Rattle.etherparse_transport.specs.Translations.{number as number_in};
ghost use Rattle.etherparse_transport.specs.declared.err.packet.lower_maximum_segment_size_error.LowerMaximumSegmentSizeError.{LowerMaximumSegmentSizeError as Error};

use crate::checksum_change::ChecksumChange;
use crate::err::packet::LowerMaximumSegmentSizeError;
use crate::ip::translated_message::{TCP_CHECKSUM_AT, number, store_number};
use crate::ip::{TransportInIp, transport_in_ip_lax};
use crate::{
    TcpHeader, TcpHeaderSlice, TcpRawOption, TcpRawOptionsIterator, ip_number, tcp_option,
};

/// The length of the kind and the length byte of a TCP option (RFC 9293, section 3.1).
const KIND_AND_LEN: usize = 2;

/// Where the segment of a packet begins and ends, and where its maximum segment size is.
#[derive(Clone, Copy)]
struct SizePlace {
    /// The start of the segment, in bytes from the start of the packet.
    start: usize,
    /// The end of the segment, in bytes from the start of the packet.
    end: usize,
    /// The place of the size, in bytes from the start of the segment.
    size_at: usize,
}

/// Lowers the maximum segment size of a SYN to at most `most`, and returns the size that the packet contained. A router in front of a tunnel
/// does this, so that the segments of the connection fit into the tunnel (RFC 9293, section 3.7.1; RFC 6691). If the returned size is at
/// most `most`, the packet is unchanged.
///
/// ```
/// let mut packet = [
///     0x45, 0, 0, 44, 0, 0, 0, 0, 64, 6, 0xF7, 0x78, 192, 168, 1, 1, 192, 168, 1, 2, // IPv4
///     0xC3, 0x50, 0, 80, 0, 0, 0, 1, 0, 0, 0, 0, 0x60, 2, 0x20, 0, 0x31, 0x31, 0, 0, // TCP
///     2, 4, 0x05, 0xB4, // the maximum segment size 1460
/// ];
/// let size = ip::lower_maximum_segment_size(&mut packet, 1360)?;
/// assert_eq!(rt; (size, [packet[42], packet[43]]), (1460, [0x05, 0x50]));
/// ```
///
/// The checksum of TCP is updated from the replaced bytes (RFC 1624, section 3, equation 3). So a receiver accepts the packet exactly if it
/// accepted the packet before. The option may begin at an odd place, for example after an option "no operation". No other byte changes.
///
/// - **Several options**: the first maximum segment size counts, and the options after it are not read.
/// - **First fragments**, packets that are cut off, and packets that state no length are accepted if they contain the whole TCP header.
/// - **Partial checksums**, which a host leaves to its network card, become wrong, since they contain no options. If `is_checksum_partial` of
///   the transport was true before, store the old checksum again afterwards.
///
/// # Errors
///
/// The call checks these cases, in this order, and changes nothing after an error:
/// - `Ip` if `transport_in_ip_lax` refuses the packet.
/// - `Protocol` if the protocol is not TCP.
/// - `LaterFragment` if the packet is a later fragment.
/// - `Header` if `TcpHeaderSlice` refuses the segment. For example, the options are cut off.
/// - `NoSyn` if the flag SYN is not set.
/// - For each option in turn, up to the first option of kind 2:
///   - `Options` if the option can't be read, as `TcpRawOptionsIterator` returns it. Options of unknown kinds are skipped.
///   - `OptionLength` if the option has kind 2 and its length is not 4.
/// - `NoOption` if the list of options ends without an option of kind 2.
pub fn lower_maximum_segment_size(
    packet: &mut [u8],
    most: u16,
) -> Result<u16, LowerMaximumSegmentSizeError>
    ensures refused { MatchResult result (λ _. (error : Error) → ¬ IsRefusedFor packet.old error) (λ error. IsRefusedFor packet.old error) }
    ensures unchanged { IfErr result (λ _. packet.new ≡ packet.old) }
    ensures lowered { IfOk result (λ size. IsLowered most packet.old size packet.new) }
{
    let place = size_place(packet)?;
    let segment = &mut packet[place.start..place.end];
    Ok(lower_size(segment, place.size_at, most))
}

/// The place of the maximum segment size in a packet.
fn size_place(packet: &[u8]) -> Result<SizePlace, LowerMaximumSegmentSizeError>
    ensures refused { MatchResult result (λ _. (error : Error) → ¬ IsRefusedFor packet.now error) (λ error. IsRefusedFor packet.now error) }
    ensures place { IfOk result (λ place. IsSizeAt packet.now place.start place.end place.size_at) }
{
    let found = match transport_in_ip_lax(packet) {
        Ok(found) => found,
        Err(error) => return Err(LowerMaximumSegmentSizeError::Ip(error)),
    };
    let size_at = size_place_in(&found)?;
    Ok(SizePlace {
        start: found.payload_offset,
        end: found.payload_offset + found.payload.len(),
        size_at,
    })
}

/// The place of the maximum segment size in a transport, in bytes from the start of the segment.
fn size_place_in(found: &TransportInIp<'_>) -> Result<usize, LowerMaximumSegmentSizeError>
    ensures found { FindsBehind found.now.protocol found.now.is_later_fragment found.now.payload.now result }
    ensures there { IfOk result (λ place. (20 ≤ place) × (place + 2 ≤ length found.now.payload.now)) }
    ensures header { IfOk result (λ _. 80 ≤ slice_index found.now.payload.now 12) }
{
    if found.protocol != ip_number::TCP {
        return Err(LowerMaximumSegmentSizeError::Protocol(found.protocol));
    }
    if found.is_later_fragment {
        return Err(LowerMaximumSegmentSizeError::LaterFragment);
    }
    let header = match TcpHeaderSlice::from_slice(found.payload) {
        Ok(header) => header,
        Err(error) => return Err(LowerMaximumSegmentSizeError::Header(error)),
    };
    if !header.syn() {
        return Err(LowerMaximumSegmentSizeError::NoSyn);
    }
    size_place_in_options(header.options())
}

/// The place of the maximum segment size in the options of a header, in bytes from the start of the header.
fn size_place_in_options(options: &[u8]) -> Result<usize, LowerMaximumSegmentSizeError>
    requires bound { length options.now ≤ 40 }
    ensures found { Finds options.now result }
    ensures there { IfOk result (λ place. (20 ≤ place) × (place + 2 ≤ 20 + length options.now)) }
{
    let mut rest = TcpRawOptionsIterator::from_slice(options);
    let mut start = TcpHeader::MIN_LEN;
    while let Some(option) = rest.next() {
        let option = match option {
            Ok(option) => option,
            Err(error) => return Err(LowerMaximumSegmentSizeError::Options(error)),
        };
        let len = option_len(&option);
        if option.kind == tcp_option::KIND_MAXIMUM_SEGMENT_SIZE {
            return size_place_in_option(start, len);
        }
        start += len;
    }
    Err(LowerMaximumSegmentSizeError::NoOption)
}

/// The place of the size in an option of this length that begins at `start`.
fn size_place_in_option(start: usize, len: usize) -> Result<usize, LowerMaximumSegmentSizeError>
    requires bound { start + len ≤ 60 }
    ensures place { result ≡ specs.size_in start len }
    ensures there { IfOk result (λ place. (place ≡ start + 2) × (len ≡ 4)) }
{
    if len != usize::from(tcp_option::LEN_MAXIMUM_SEGMENT_SIZE) {
        return Err(LowerMaximumSegmentSizeError::OptionLength { len: len as u8 });
    }
    Ok(start + KIND_AND_LEN)
}

/// The length of an option, including kind and length byte.
fn option_len(option: &TcpRawOption<'_>) -> usize
    ensures { result ≡ length (raw_spelling option.now) }
{
    if option.kind == tcp_option::KIND_NOOP {
        return usize::from(tcp_option::LEN_NOOP);
    }
    KIND_AND_LEN + option.value.len()
}

/// Lowers the size at this place to at most `most`, and updates the checksum. Returns the size that the segment contained.
fn lower_size(segment: &mut [u8], place: usize, most: u16) -> u16
    requires after { 20 ≤ place }
    requires there { place + 2 ≤ length segment.old }
    requires header { 80 ≤ slice_index segment.old 12 }
    requires bytes { IsBytes segment.old }
    ensures size { result ≡ number_in place segment.old }
    ensures lowered { segment.new ≡ specs.lowered_segment most place segment.old }
    ensures verifies { IsSegmentAccepted segment.old segment.new }
{
    let size = number(segment, place);
    if size <= most {
        return size;
    }
    let change = ChecksumChange::new().replace_2bytes(
        word_bytes(place, size),
        word_bytes(place, most),
    );
    let checksum = change.apply(number(segment, TCP_CHECKSUM_AT));
    store_number(segment, TCP_CHECKSUM_AT, checksum);
    store_number(segment, place, most);
    size
}

/// The bytes of a number at this place, as the words of a checksum contain them. At an odd place the bytes are exchanged (RFC 1071, section
/// 2).
fn word_bytes(place: usize, value: u16) -> [u8; 2]
    ensures { result ≡ specs.word_bytes place value }
{
    if place % 2 == 0 {
        value.to_be_bytes()
    } else {
        value.to_le_bytes()
    }
}
