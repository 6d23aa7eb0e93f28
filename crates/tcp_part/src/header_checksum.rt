ghost use Rattle.std.specs.Prelude.{◌≡◌, ◌≤◌, ◌+◌, ◌-◌, ◌*◌, ◌%◌, ◌↔◌, ◌++◌, IfOk, IsTrue, length};
ghost use Rattle.net_base.specs.Bytes.{IsBytes};
ghost use Rattle.net_base.specs.IpNumbers.{tcp_number};
ghost use Rattle.net_base.specs.PseudoHeader.{ipv4_pseudo_header, ipv6_pseudo_header, max_len_over_ipv4, max_len_over_ipv6};
ghost use Rattle.net_base.specs.Refusals.{RefusesExactly, too_big};
ghost use Rattle.net_base.specs.StoredChecksum.{tcp_checksum_place, with_checksum};
ghost use Rattle.word_sum.specs.Checksum.{IsAllOnes, checksum_of, folded, total};
ghost use Rattle.word_sum.specs.SumValue.{sum_value};
ghost use Rattle.tcp_part.specs.TcpFormat.{UnusedBitsAreZero, checksummed_ipv4, checksummed_ipv6, data_offset, header_of, max_header_len, max_payload_len_ipv4, max_payload_len_ipv6, min_data_offset, min_header_len, wire, without_checksum};
ghost use Rattle.tcp_part.specs.TcpValidity.{IsValidTcpIpv4, IsValidTcpIpv6};

use net_base::err::{ValueTooBigError, ValueType};
use net_base::{check_payload_len, ip_number, pseudo_header_ipv4, pseudo_header_ipv6};
use word_sum::checksum::Sum16BitWords;

/// The checksum of a header and a payload over IPv4. The checksum in the bytes of the header is ignored (RFC 9293, section 3.1).
#[inline(always)]
pub(crate) fn checksum_ipv4(
    source: [u8; 4],
    destination: [u8; 4],
    header: &[u8],
    payload: &[u8],
) -> Result<u16, ValueTooBigError<usize>>
    requires { (min_header_len ≤ length header.now) × (length header.now ≤ max_header_len) }
    ensures refused { RefusesExactly result (too_big ValueType.TcpPayloadLengthIpv4 (max_payload_len_ipv4 header.now) (length payload.now)) }
    ensures sum { IfOk result (λ checksum. checksum ≡ checksum_of (checksummed_ipv4 source destination header.now payload.now)) }
    ensures verifies { IfOk result (λ checksum. IsAllOnes (checksummed_ipv4 source destination header.now payload.now + checksum)) }
    ensures agrees { min_data_offset ≤ data_offset header.now → length header.now ≡ data_offset header.now * 4 → IfOk result (λ checksum.
        (checksum ≡ checksum_of (checksummed_ipv4 source destination (wire (header_of header.now)) payload.now))
        ↔ UnusedBitsAreZero header.now) }
    ensures valid { length header.now % 2 ≡ 0 → IfOk result (λ checksum.
        IsValidTcpIpv4 source destination (with_checksum tcp_checksum_place header.now checksum ++ payload.now)) }
{
    let len = len_over_ipv4(header.len(), payload.len())?;
    let pseudo_header = pseudo_header_ipv4(source, destination, ip_number::TCP, len);
    Ok(checksum_post_ip(pseudo_header, header, payload))
}

/// The checksum of a header and a payload over IPv6. The checksum in the bytes of the header is ignored (RFC 9293, section 3.1; RFC 8200,
/// section 8.1).
#[inline(always)]
pub(crate) fn checksum_ipv6(
    source: [u8; 16],
    destination: [u8; 16],
    header: &[u8],
    payload: &[u8],
) -> Result<u16, ValueTooBigError<usize>>
    requires { (min_header_len ≤ length header.now) × (length header.now ≤ max_header_len) }
    ensures refused { RefusesExactly result (too_big ValueType.TcpPayloadLengthIpv6 (max_payload_len_ipv6 header.now) (length payload.now)) }
    ensures sum { IfOk result (λ checksum. checksum ≡ checksum_of (checksummed_ipv6 source destination header.now payload.now)) }
    ensures verifies { IfOk result (λ checksum. IsAllOnes (checksummed_ipv6 source destination header.now payload.now + checksum)) }
    ensures agrees { min_data_offset ≤ data_offset header.now → length header.now ≡ data_offset header.now * 4 → IfOk result (λ checksum.
        (checksum ≡ checksum_of (checksummed_ipv6 source destination (wire (header_of header.now)) payload.now))
        ↔ UnusedBitsAreZero header.now) }
    ensures valid { length header.now % 2 ≡ 0 → IfOk result (λ checksum.
        IsValidTcpIpv6 source destination (with_checksum tcp_checksum_place header.now checksum ++ payload.now)) }
{
    let len = len_over_ipv6(header.len(), payload.len())?;
    let pseudo_header = pseudo_header_ipv6(source, destination, ip_number::TCP, len);
    Ok(checksum_post_ip(pseudo_header, header, payload))
}

/// Whether the one's complement sum of the pseudo header over IPv4, the header and the payload is all ones (RFC 9293, section 3.1). A
/// segment that is too long for the pseudo header is never valid.
#[inline]
pub(crate) fn is_valid_ipv4(
    source: [u8; 4],
    destination: [u8; 4],
    header: &[u8],
    payload: &[u8],
) -> bool
    requires { (min_header_len ≤ length header.now) × (length header.now ≤ max_header_len) }
    ensures valid { length header.now % 2 ≡ 0 → (IsTrue result ↔ IsValidTcpIpv4 source destination (header.now ++ payload.now)) }
    ensures bytes { IsBytes header.now × IsBytes (header.now ++ payload.now) }
{
    match len_over_ipv4(header.len(), payload.len()) {
        Ok(len) => verifies(
            pseudo_header_ipv4(source, destination, ip_number::TCP, len),
            header,
            payload,
        ),
        Err(_) => false,
    }
}

/// Whether the one's complement sum of the pseudo header over IPv6, the header and the payload is all ones (RFC 9293, section 3.1; RFC
/// 8200, section 8.1). A segment that is too long for the pseudo header is never valid.
#[inline]
pub(crate) fn is_valid_ipv6(
    source: [u8; 16],
    destination: [u8; 16],
    header: &[u8],
    payload: &[u8],
) -> bool
    requires { (min_header_len ≤ length header.now) × (length header.now ≤ max_header_len) }
    ensures valid { length header.now % 2 ≡ 0 → (IsTrue result ↔ IsValidTcpIpv6 source destination (header.now ++ payload.now)) }
    ensures bytes { IsBytes header.now × IsBytes (header.now ++ payload.now) }
{
    match len_over_ipv6(header.len(), payload.len()) {
        Ok(len) => verifies(
            pseudo_header_ipv6(source, destination, ip_number::TCP, len),
            header,
            payload,
        ),
        Err(_) => false,
    }
}

/// Whether the one's complement sum of the pseudo header over IPv4 and the segment is all ones (RFC 9293, section 3.1). A segment that is
/// too long for the pseudo header is never valid.
#[inline]
pub(crate) fn is_segment_valid_ipv4(source: [u8; 4], destination: [u8; 4], segment: &[u8]) -> bool
    ensures valid { IsTrue result ↔ IsValidTcpIpv4 source destination segment.now }
    ensures bytes { IsBytes segment.now }
{
    match u16::try_from(segment.len()) {
        Ok(len) => sums_up(
            pseudo_header_ipv4(source, destination, ip_number::TCP, len),
            segment,
        ),
        Err(_) => false,
    }
}

/// Whether the one's complement sum of the pseudo header over IPv6 and the segment is all ones (RFC 9293, section 3.1; RFC 8200, section
/// 8.1). A segment that is too long for the pseudo header is never valid.
#[inline]
pub(crate) fn is_segment_valid_ipv6(source: [u8; 16], destination: [u8; 16], segment: &[u8]) -> bool
    ensures valid { IsTrue result ↔ IsValidTcpIpv6 source destination segment.now }
    ensures bytes { IsBytes segment.now }
{
    match u32::try_from(segment.len()) {
        Ok(len) => sums_up(
            pseudo_header_ipv6(source, destination, ip_number::TCP, len),
            segment,
        ),
        Err(_) => false,
    }
}

/// The length of header and payload together, as the pseudo header over IPv4 contains it (RFC 9293, section 3.1). Returns an error if this
/// length does not fit 16 bits.
#[inline]
pub(crate) fn len_over_ipv4(
    header_len: usize,
    payload_len: usize,
) -> Result<u16, ValueTooBigError<usize>>
    requires { header_len ≤ max_header_len }
    ensures refused { RefusesExactly result (too_big ValueType.TcpPayloadLengthIpv4 (max_len_over_ipv4 - header_len) payload_len) }
    ensures len { IfOk result (λ len. len ≡ header_len + payload_len) }
{
    let max_allowed = u16::MAX as usize - header_len;
    check_payload_len(payload_len, max_allowed, ValueType::TcpPayloadLengthIpv4)?;
    Ok((header_len + payload_len) as u16)
}

/// The length of header and payload together, as the pseudo header over IPv6 contains it (RFC 8200, section 8.1). Returns an error if this
/// length does not fit 32 bits.
#[inline]
pub(crate) fn len_over_ipv6(
    header_len: usize,
    payload_len: usize,
) -> Result<u32, ValueTooBigError<usize>>
    requires { header_len ≤ max_header_len }
    ensures refused { RefusesExactly result (too_big ValueType.TcpPayloadLengthIpv6 (max_len_over_ipv6 - header_len) payload_len) }
    ensures len { IfOk result (λ len. len ≡ header_len + payload_len) }
{
    let max_allowed = u32::MAX as usize - header_len;
    check_payload_len(payload_len, max_allowed, ValueType::TcpPayloadLengthIpv6)?;
    Ok((header_len + payload_len) as u32)
}

/// Computes the checksum from the sum of the pseudo header, the bytes of the header, and the payload. The two bytes of the stored checksum
/// count as zeros, so they are not added.
#[inline]
fn checksum_post_ip(pseudo_header: Sum16BitWords, header: &[u8], payload: &[u8]) -> u16
    requires { min_header_len ≤ length header.now }
    ensures { result ≡ checksum_of (sum_value pseudo_header + (total (without_checksum header.now) + total payload.now)) }
{
    let (front, back) = header.split_first_chunk::<16>().unwrap();
    let fields = pseudo_header
        .add_16bytes(*front)
        .add_2bytes([back[2], back[3]]);
    add_options(fields, &back[4..])
        .add_slice(payload)
        .ones_complement()
}

/// Adds the words of the options. Most headers have no options.
// perf: without the test for no options, adding an empty slice is a call of 21 instructions (27 Nov 2026).
#[inline(always)]
pub(crate) fn add_options(sum: Sum16BitWords, options: &[u8]) -> Sum16BitWords
    ensures { sum_value result ≡ folded (sum_value sum + total options.now) }
{
    if options.is_empty() {
        sum
    } else {
        sum.add_slice(options)
    }
}

/// Whether the sum of header and payload, added to the sum of the pseudo header, is all ones.
#[inline]
fn verifies(pseudo_header: Sum16BitWords, header: &[u8], payload: &[u8]) -> bool
    ensures { length header.now % 2 ≡ 0 → (IsTrue result ↔ IsAllOnes (sum_value pseudo_header + total (header.now ++ payload.now))) }
{
    pseudo_header
        .add_slice(header)
        .add_slice(payload)
        .ones_complement()
        == 0
}

/// Whether the sum of a segment, added to the sum of the pseudo header, is all ones.
#[inline]
fn sums_up(pseudo_header: Sum16BitWords, segment: &[u8]) -> bool
    ensures { IsTrue result ↔ IsAllOnes (sum_value pseudo_header + total segment.now) }
{
    pseudo_header.add_slice(segment).ones_complement() == 0
}
