ghost use Rattle.std.specs.Prelude.{◌≡◌, length};
ghost use Rattle.report_page.specs.Text.{with_text};

use arrayvec::ArrayVec;

/// The maximum length of a text, in bytes.
const MAX_TEXT_LEN: usize = 16_384;

/// A text that is written for the page. Writing fails if it has no room.
pub(crate) type Text = ArrayVec<u8, MAX_TEXT_LEN>;

/// Copies a text to the front of a buffer, and returns the length of the text. If the buffer is too short, nothing is copied.
pub(crate) fn put(text: &[u8], buffer: &mut [u8]) -> usize
    ensures len { result ≡ length text.now }
    ensures buffer { buffer.new ≡ with_text text.now buffer.old }
{
    if text.len() <= buffer.len() {
        buffer[..text.len()].copy_from_slice(text);
    }
    text.len()
}
