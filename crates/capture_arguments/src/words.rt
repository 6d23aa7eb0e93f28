//! The words of the command line.

ghost use Rattle.std.specs.Prelude.{◌≡◌, IfErr, IfOk, OnErr, map, option_map, string_bytes};
ghost use Rattle.capture_arguments.specs.Words.{AreNoWords, AreWordsOf, escaped_option, escaped_option_text, is_escaped_option, word_of};

use crate::memory::Memory;
use capture_request::{ESCAPED, without_mark};
use capture_words::EscapedBytes;
use std::alloc::AllocError;
use std::env::{Env, FillError};
use std::io;
use std::io::ErrorKind;

/// The greatest length of an argument that Linux accepts, in bytes (`MAX_ARG_STRLEN`).
const MAX_ARGUMENT_LEN: usize = 1 << 17;

/// The arguments of a program.
pub trait Arguments {
    ghost use Rattle.std.specs.Prelude.{◌≡◌, ◌≤◌, ℕ, Err, List, IfOk, length, take};
    ghost use Rattle.std.specs.declared.env.FillError.TheVariants.{NotPresent, TooLong};

    /// A statement about a place and the bytes of the argument at this place.
    ghost holds: { Self → ℕ → List ℕ → Type 0 };
    /// A statement about a place after the last argument.
    ghost ends: { Self → ℕ → Type 0 };

    /// A statement about a place and a length, which holds if the argument at this place is longer than this length.
    ghost exceeds: { Self → ℕ → ℕ → Type 0 };

    /// Writes the argument at this place to the front of `buffer`, and returns its length.
    ///
    /// # Errors
    ///
    /// `NotPresent` if the place is after the last argument, and `TooLong` if the argument is longer than the buffer.
    fn argument(&self, place: usize, buffer: &mut [u8]) -> Result<usize, FillError>
        ensures len { IfOk result (λ len. len ≤ length buffer.new) }
        ensures given { IfOk result (λ len. holds self.now place (take len buffer.new)) }
        ensures missing { result ≡ Err NotPresent → ends self.now place }
        ensures long { result ≡ Err TooLong → exceeds self.now place (length buffer.old) };
}

/// The arguments of this program.
#[derive(Drop)]
pub struct OwnArguments<'a> {
    /// The runtime that provides the arguments.
    pub rt: &'a HostRuntime,
}

impl<'a> Arguments for OwnArguments<'a> {
    ghost holds = { λ arguments place bytes. Unit {0} };

    ghost ends = { λ arguments place. Unit {0} };

    ghost exceeds = { λ arguments place len. Unit {0} };

    fn argument(&self, place: usize, buffer: &mut [u8]) -> Result<usize, FillError> {
        self.rt.arg(place, buffer)
    }
}

/// All arguments of a program as words, beginning with the name of the program. An argument that is not UTF-8 becomes an escaped word,
/// which begins with [`ESCAPED`]. [`requested_options`](crate::requested_options) accepts it as a value or as the name of a file, but not
/// as an option.
///
/// # Errors
///
/// `ArgumentListTooLong` if an argument is longer than Linux accepts, or if there are 2^64 - 1 arguments. `OutOfMemory` if no memory is
/// left.
pub fn words_of<M: Memory, A: Arguments>(memory: &M, arguments: &A) -> io::Result<Vec<String>>
    ensures words { IfOk result (λ words. AreWordsOf (A.holds arguments.now) (A.ends arguments.now) (map (λ word. string_bytes word) words.items)) }
    ensures refusal { IfErr result (AreNoWords (A.holds arguments.now) (A.exceeds arguments.now) (M.ran_out memory.now)) }
{
    let mut buffer = memory.buffer(MAX_ARGUMENT_LEN)?;
    let room = buffer.as_mut_slice();
    let mut words = Vec::new(memory.alloc());
    for place in 0..usize::MAX {
        match arguments.argument(place, room) {
            Ok(len) => memory.push(&mut words, word_of(memory, &room[..len])?)?,
            Err(FillError::NotPresent) => return Ok(words),
            Err(FillError::TooLong) => return Err(io::Error::from(ErrorKind::ArgumentListTooLong)),
        }
    }
    Err(io::Error::from(ErrorKind::ArgumentListTooLong))
}

/// An argument as a word. If its bytes are not UTF-8, the word is the mark [`ESCAPED`] and the escaped bytes.
fn word_of<M: Memory>(memory: &M, bytes: &[u8]) -> Result<String, AllocError>
    ensures word { IfOk result (λ word. string_bytes word ≡ word_of bytes.now) }
    ensures ran_out { OnErr result (M.ran_out memory.now) }
{
    match str::from_utf8(bytes) {
        Ok(text) => memory.text(text),
        Err(_) => memory.text(format_args!("{ESCAPED}{}", EscapedBytes(bytes))),
    }
}

/// The first option that is not UTF-8, in its escaped form, if there is one. The name of the program, which is the first word, and the
/// words after `--` are not options.
pub fn escaped_option(words: &[String]) -> Option<&str>
    ensures { option_map (λ word. word.now) result ≡ escaped_option (map (λ word. string_bytes word) words.now) }
{
    let [_, arguments @ ..] = words else {
        return None;
    };
    let mut left = arguments;
    while let [word, others @ ..] = left {
        if word.as_str() == "--" {
            return None;
        }
        if is_escaped_option(word.as_str()) {
            return Some(word.as_str());
        }
        left = others;
    }
    None
}

/// Whether a word is the escaped form of an argument that begins with `-`.
fn is_escaped_option(word: &str) -> bool
    ensures { result ≡ is_escaped_option word.now }
{
    matches!(word.as_bytes(), [0, b'-', ..])
}

/// The message about an option that is not UTF-8.
pub fn escaped_option_text<M: Memory>(memory: &M, word: &str) -> Result<String, AllocError>
    ensures text { IfOk result (λ text. string_bytes text ≡ escaped_option_text word.now) }
    ensures ran_out { OnErr result (M.ran_out memory.now) }
{
    let option = without_mark(word);
    memory.text(format_args!("the argument '{option}' is not UTF-8"))
}
