//! Words that look like options but are not options of the program.

ghost use Rattle.std.specs.Prelude.{◌≡◌, IfOk, OnErr, map, option_map, string_bytes};
ghost use Rattle.capture_arguments.specs.Unknown.{has_unknown_letter, is_unknown, option_name, unknown_option, unknown_text};

use crate::memory::Memory;
use std::alloc::AllocError;

/// The long names of the options.
static LONG_OPTIONS: [&str; 27] = [
    "--summary",
    "--packets",
    "--wrong",
    "--verbose",
    "--absolute",
    "--check",
    "--json",
    "--top",
    "--timeline",
    "--interval",
    "--tunnels",
    "--host",
    "--source",
    "--destination",
    "--not-host",
    "--port",
    "--not-port",
    "--protocol",
    "--from",
    "--to",
    "--count",
    "--write",
    "--line-buffered",
    "--numeric",
    "--read",
    "--help",
    "--version",
];

/// The letters of the options that have no value.
const FLAGS: &[u8] = b"vlnhV";

/// The letters of the options that have a value. The value can follow in the same word.
const VALUED: &[u8] = b"cwr";

/// The first word that looks like an option but is not an option of the program. The name of the program, which is the first word, and the
/// words after `--` are not checked.
pub fn unknown_option(words: &[String]) -> Option<&str>
    ensures { option_map (λ word. word.now) result ≡ unknown_option (map (λ word. string_bytes word) words.now) }
{
    let [_, arguments @ ..] = words else {
        return None;
    };
    let mut left = arguments;
    while let [word, others @ ..] = left {
        if word.as_str() == "--" {
            return None;
        }
        if is_unknown(word.as_str()) {
            return Some(word.as_str());
        }
        left = others;
    }
    None
}

/// Whether a word begins with `-` but is not an option of the program. The word `-` is the name of a capture.
fn is_unknown(word: &str) -> bool
    ensures { result ≡ is_unknown word.now }
{
    match word.as_bytes() {
        [b'-', b'-', ..] => !LONG_OPTIONS.contains(&option_name(word)),
        [b'-', letters @ ..] => has_unknown_letter(letters),
        _ => false,
    }
}

/// The part of a word before its first `=`, or the whole word.
fn option_name(word: &str) -> &str
    ensures { result.now ≡ option_name word.now }
{
    match word.split_once('=') {
        Some((name, _)) => name,
        None => word,
    }
}

/// Whether one of these letters is not an option. If an option has a value, the letters after the option are the value.
fn has_unknown_letter(letters: &[u8]) -> bool
    ensures { result ≡ has_unknown_letter letters.now }
{
    let mut left = letters;
    while let [letter, others @ ..] = left {
        if VALUED.contains(letter) {
            return false;
        }
        if !FLAGS.contains(letter) {
            return true;
        }
        left = others;
    }
    false
}

/// The message about a word that looks like an option but is not an option of the program.
pub fn unknown_text<M: Memory>(memory: &M, word: &str) -> Result<String, AllocError>
    ensures text { IfOk result (λ text. string_bytes text ≡ unknown_text word.now) }
    ensures ran_out { OnErr result (M.ran_out memory.now) }
{
    memory.text(format_args!("unexpected argument '{word}' found"))
}
