ghost use Rattle.std.specs.Prelude.{◌≡◌, ◌≤◌, ◌+◌, length, replicate, slice_index, take};
ghost use Rattle.ip_translation.specs.Extensions as specs;
ghost use Rattle.ip_translation.specs.QuotedPackets.{max_error_len};

use crate::quoted_packet::{ERROR_LEN, MAX_ERROR_LEN};
use arrayvec::ArrayVec;

/// The least length of the packet that an error with an extension quotes, in bytes (RFC 4884, section 3).
pub(crate) const MIN_QUOTE_LEN: usize = 128;

/// The unit of the length attribute in an ICMP error, in bytes (RFC 4884, section 4).
pub(crate) const IPV4_UNIT: usize = 4;

/// The unit of the length attribute in an ICMPv6 error, in bytes (RFC 4884, section 4).
pub(crate) const IPV6_UNIT: usize = 8;

/// Whether an error states a wrong length of its quoted packet, in bytes: below 128, or above the rest of the message.
pub(crate) fn is_wrong_len(len: usize, message: &[u8]) -> bool
    requires short { len ≤ specs.greatest_stated_len }
    ensures { result ≡ specs.is_wrong_len len message.now }
{
    len != 0 && (len < MIN_QUOTE_LEN || message.len() < ERROR_LEN + len)
}

/// An error without its extension, and the extension. The error states this length of its quoted packet, in bytes.
pub(crate) fn split_extension<'a>(len: usize, message: &'a [u8]) -> (&'a [u8], &'a [u8])
    requires there { 8 ≤ length message.now }
    requires short { len ≤ specs.greatest_stated_len }
    ensures quoting { result.0.now ≡ specs.without_extension len message.now }
    ensures extension { result.1.now ≡ specs.extension_of len message.now }
    ensures there { 8 ≤ length result.0.now }
{
    let end = end_of_quote(len, message).min(message.len());
    message.split_at(end)
}

/// The place after the quoted packet, if the error states this length of the quoted packet, in bytes.
fn end_of_quote(len: usize, message: &[u8]) -> usize
    requires there { 8 ≤ length message.now }
    requires short { len ≤ specs.greatest_stated_len }
    ensures end { result ≡ specs.end_of_quote len message.now }
    ensures there { 8 ≤ result }
{
    if len == 0 {
        message.len()
    } else {
        ERROR_LEN + len
    }
}

/// An error with an extension, and with 0 instead of its checksum: type and code, the word that contains the length attribute, the quoted
/// packet with zeros up to the length `len`, and the extension. An extension that is too long is cut.
pub(crate) fn extended(
    kind: (u8, u8),
    word: [u8; 4],
    quote: &[u8],
    len: usize,
    extension: &[u8],
) -> ArrayVec<u8, MAX_ERROR_LEN>
    requires padded { length quote.now ≤ len }
    requires zeros { len ≤ length quote.now + 128 }
    requires short { len + 8 ≤ max_error_len }
    ensures bytes { result.items ≡ specs.extended kind word len quote.now extension.now }
    ensures len { len + 8 ≤ length result.items }
    ensures kind { slice_index result.items 0 ≡ kind.0 }
{
    let extension = first_bytes(extension, MAX_ERROR_LEN - (ERROR_LEN + len));
    let mut bytes = ArrayVec::new();
    bytes
        .try_extend_from_slice(&[kind.0, kind.1, 0, 0])
        .unwrap();
    bytes.try_extend_from_slice(&word).unwrap();
    bytes.try_extend_from_slice(quote).unwrap();
    bytes
        .try_extend_from_slice(zeros(&[0; MIN_QUOTE_LEN], len - quote.len()))
        .unwrap();
    bytes.try_extend_from_slice(extension).unwrap();
    bytes
}

/// The first `len` bytes, or all bytes if there are fewer.
pub(crate) fn first_bytes<'a>(bytes: &'a [u8], len: usize) -> &'a [u8]
    ensures bytes { result.now ≡ take len bytes.now }
    ensures len { length result.now ≤ len }
    ensures short { length result.now ≤ length bytes.now }
{
    let end = len.min(bytes.len());
    &bytes[..end]
}

/// This number of zeros.
fn zeros<'a>(zeros: &'a [u8; 128], len: usize) -> &'a [u8]
    requires there { len ≤ 128 }
    requires all { zeros.now ≡ replicate 128 0 }
    ensures zeros { result.now ≡ replicate len 0 }
    ensures len { length result.now ≡ len }
{
    &zeros[..len]
}
