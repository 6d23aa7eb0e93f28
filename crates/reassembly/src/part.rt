ghost use Rattle.std.specs.Prelude.{◌≡◌, ◌≤◌, ◌+◌, length};
ghost use Rattle.std.specs.List.{All, list_any};
ghost use Rattle.reassembly.specs.Parts.{EndsWithin, Fits, part_overlaps, part_reaches, piece_in};
ghost use Rattle.reassembly.specs.Pieces as pieces;

/// A part of the buffer that contains bytes of the payload, at their place in the payload. The length fields of IP limit both numbers to 16
/// bits.
#[derive(Clone, Copy, Debug, Default, PartialEq, Eq)]
pub(crate) struct Part {
    /// The place of the first byte in the payload.
    pub offset: u16,
    /// The number of bytes.
    pub len: u16,
}

impl Part {
    /// The place after the last byte.
    fn end(self) -> usize
        ensures { result ≡ self.offset + self.len }
    {
        usize::from(self.offset) + usize::from(self.len)
    }
}

/// Whether one of the parts ends at or after this place. No part ends after the place `reach`.
#[tactic(auto, using(crate::proofs::PartLemmas::none_reaches))]
pub(crate) fn is_reached(parts: &[Part], reach: usize, place: usize) -> bool
    requires { All (EndsWithin reach) parts.now }
    ensures { result ≡ part_reaches place parts.now }
{
    // Most fragments arrive in order, and then no part is read.
    if reach < place {
        return false;
    }
    let mut is_reached = false;
    for part in parts {
        is_reached = is_reached || place <= part.end();
    }
    is_reached
}

/// Whether one of the parts contains bytes from `offset` on that are before `end`. No part ends after the place `reach`.
#[tactic(auto, using(crate::proofs::PartLemmas::none_overlaps))]
pub(crate) fn is_overlapped(parts: &[Part], reach: usize, offset: usize, end: usize) -> bool
    requires { All (EndsWithin reach) parts.now }
    ensures { result ≡ list_any (part_overlaps offset end) parts.now }
{
    // Most fragments arrive in order, and then no part is read.
    if reach <= offset {
        return false;
    }
    let mut is_overlapped = false;
    for part in parts {
        is_overlapped = is_overlapped || (offset < part.end() && usize::from(part.offset) < end);
    }
    is_overlapped
}

/// The greater of `reach` and the place at which this part ends.
pub(crate) fn reach_with(reach: usize, part: Part) -> usize
    ensures before { reach ≤ result }
    ensures part { part.offset + part.len ≤ result }
{
    reach.max(part.end())
}

/// Whether one of the parts is equal to this piece: the same bytes at the same place.
pub(crate) fn is_repeated(buffer: &[u8], parts: &[Part], offset: usize, bytes: &[u8]) -> bool
    requires { All (Fits buffer.now) parts.now }
    ensures { result ≡ list_any (λ part. pieces.is_same (record { offset = offset; bytes = bytes.now }) (piece_in buffer.now part)) parts.now }
{
    let mut is_repeated = false;
    for part in parts {
        is_repeated = is_repeated || is_same(buffer, *part, offset, bytes);
    }
    is_repeated
}

/// Whether a part is equal to this piece: the same bytes at the same place.
fn is_same(buffer: &[u8], part: Part, offset: usize, bytes: &[u8]) -> bool
    requires { Fits buffer.now part }
    ensures { result ≡ pieces.is_same (record { offset = offset; bytes = bytes.now }) (piece_in buffer.now part) }
{
    let start = usize::from(part.offset);
    offset == start && bytes == &buffer[start..part.end()]
}
