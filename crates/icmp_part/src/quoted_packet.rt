ghost use Rattle.std.specs.Prelude.{◌≡◌};
ghost use Rattle.icmp_part.specs.QuotedPackets as specs;

/// The least number of bytes that an extended error quotes (RFC 4884, section 3).
const MIN_EXTENDED_LEN: usize = 128;

/// The first `len` of these bytes, where `len` is the number of bytes that a length field counts. If fewer bytes are present, or `len` is
/// below 128, the result is all bytes. A sender that does not use the length field writes 0 (RFC 4884, section 5.4).
pub(crate) fn counted(len: usize, bytes: &[u8]) -> &[u8]
    ensures { result.now ≡ specs.counted len bytes.now }
{
    if len < MIN_EXTENDED_LEN {
        return bytes;
    }
    match bytes.get(..len) {
        Some(counted) => counted,
        None => bytes,
    }
}
