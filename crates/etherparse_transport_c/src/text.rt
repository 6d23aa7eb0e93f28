ghost use Rattle.std.specs.Fmt.{decimal};
ghost use Rattle.std.specs.Prelude.{◌≡◌, ◌<◌, ◌+◌, ℕ, List, [], ◌∷◌, ◌++◌, length, take};
ghost use Rattle.etherparse_transport_c.specs.Text.{IsCut, with_string};
ghost use Rattle.net_base.specs.TextParts.{reads_as};

use arrayvec::ArrayVec;
use etherparse_transport::err::{ErrorText, TextPart};

/// The maximum length of a text, in bytes.
const MAX_TEXT_LEN: usize = 256;

/// The bytes of a text. A text that does not fit is truncated.
pub(crate) type Text = ArrayVec<u8, MAX_TEXT_LEN>;

/// A byte of a text. In C its type is `char`.
pub(crate) type Char = u8;

/// Returns the first `room` bytes, or all bytes if there are fewer.
#[tactic(auto, using(std::proofs::lemmas::List::take_all))]
fn fitting(bytes: &[u8], room: usize) -> &[u8]
    ensures { result.now ≡ take room bytes.now }
{
    if bytes.len() <= room {
        bytes
    } else {
        &bytes[..room]
    }
}

/// Appends bytes to a text. Bytes for which the text has no room are left out.
fn put_bytes(text: &mut Text, bytes: &[u8])
    ensures { (before : List ℕ) → IsCut text.old.items before → IsCut text.new.items (before ++ bytes.now) }
{
    let room = text.remaining_capacity();
    // This does not fail, since the bytes fit.
    let _ = text.try_extend_from_slice(fitting(bytes, room));
}

/// Appends words to a text. Bytes for which the text has no room are left out.
fn put(text: &mut Text, words: &str)
    ensures { (before : List ℕ) → IsCut text.old.items before → IsCut text.new.items (before ++ words.now) }
{
    put_bytes(text, words.as_bytes());
}

/// Appends a digit, if the text has room for it.
fn put_digit(text: &mut Text, digit: usize)
    requires { digit < 10 }
    ensures { (before : List ℕ) → IsCut text.old.items before → IsCut text.new.items (before ++ ((48 + digit) ∷ [])) }
{
    put_bytes(text, &[b'0' + digit as u8]);
}

/// Appends a number in decimal. Digits for which the text has no room are left out.
fn put_number(text: &mut Text, number: usize)
    ensures { (before : List ℕ) → IsCut text.old.items before → IsCut text.new.items (before ++ decimal number) }
{
    if number < 10 {
        put_digit(text, number);
        return;
    }
    put_number(text, number / 10);
    put_digit(text, number % 10);
}

/// Returns the text of an error. A text that does not fit is truncated.
pub(crate) fn cut(error: &ErrorText) -> Text
    ensures { IsCut result.items (reads_as error.now) }
{
    let mut text = Text::new();
    for part in error.parts() {
        match part {
            TextPart::Words(words) => put(&mut text, words),
            TextPart::Number(number) => put_number(&mut text, *number),
        }
    }
    text
}

/// Writes a text and a zero byte to a buffer, and returns the length of the whole text. If the buffer is too small, the function writes the
/// beginning of the text and the zero byte. It writes nothing to an empty buffer.
pub(crate) fn put_string(text: &[u8], buffer: &mut [Char]) -> usize
    ensures len { result ≡ length text.now }
    ensures buffer { buffer.new ≡ with_string text.now buffer.old }
{
    if !buffer.is_empty() {
        let front = fitting(text, buffer.len() - 1);
        buffer[..front.len()].copy_from_slice(front);
        buffer[front.len()] = 0;
    }
    text.len()
}
