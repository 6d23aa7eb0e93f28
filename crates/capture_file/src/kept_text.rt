ghost use Rattle.std.specs.Prelude.{◌≡◌, ◌<◌, ◌≤◌, length};
ghost use Rattle.capture_file.specs.Texts as specs;

use arrayvec::ArrayVec;

/// The maximum number of bytes that are kept of a text.
pub const MAX_TEXT_LEN: usize = 128;

/// A text of a block, cut to at most `MAX_TEXT_LEN` bytes. It should be UTF-8, but it may consist of any bytes.
#[derive(Clone, Debug, Default, Drop)]
pub struct KeptText {
    /// The first bytes of the text. They are empty if the block does not contain the text.
    pub bytes: ArrayVec<u8, MAX_TEXT_LEN>,
    /// Whether the text has more bytes than are kept. If it has, the kept bytes end before the first character that does not fit in
    /// `MAX_TEXT_LEN` bytes.
    pub is_cut: bool,
}

impl KeptText {
    /// Keeps the first bytes of this text.
    pub fn new(text: &[u8]) -> KeptText
        ensures { result ≡ specs.kept_text text.now }
    {
        let len = kept_len(text);
        let mut bytes = ArrayVec::new();
        bytes.try_extend_from_slice(&text[..len]).unwrap();
        let is_cut = len < text.len();
        KeptText { bytes, is_cut }
    }

    /// Returns a copy of the text. Unlike `clone`, the call can't fail.
    pub(crate) fn copy(&self) -> KeptText
        ensures { result ≡ self.now }
    {
        let mut bytes = ArrayVec::new();
        bytes.try_extend_from_slice(self.bytes.as_slice()).unwrap();
        KeptText {
            bytes,
            is_cut: self.is_cut,
        }
    }
}

/// The number of bytes that are kept of a text.
fn kept_len(text: &[u8]) -> usize
    ensures len { result ≡ specs.kept_len text.now }
    ensures within { result ≤ length text.now }
    ensures most { result ≤ MAX_TEXT_LEN }
{
    if text.len() <= MAX_TEXT_LEN {
        text.len()
    } else {
        char_start(text, MAX_TEXT_LEN)
    }
}

/// The place of the first byte of the character to which the byte at `place` belongs.
fn char_start(text: &[u8], place: usize) -> usize
    requires { place < length text.now }
    ensures start { result ≡ specs.char_start text.now place }
    ensures within { result ≤ place }
{
    let mut start = place;
    while start > 0 && is_continuation(text[start]) {
        start -= 1;
    }
    start
}

/// Whether a byte of UTF-8 is not the first byte of its character (RFC 3629, section 3).
fn is_continuation(byte: u8) -> bool
    ensures { result ≡ specs.is_continuation byte }
{
    byte / 64 == 2
}
