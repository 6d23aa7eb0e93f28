//! The options that can't be used together.

ghost use Rattle.std.specs.Prelude.{◌≡◌, IfOk, OnErr, option_map, string_bytes};
ghost use Rattle.clap.specs.Words.{found_of, rows_of};
ghost use Rattle.capture_arguments.specs.Conflicts.{conflict_in, conflict_text, is_from_words, is_given, shown_value};

use crate::memory::Memory;
use clap::ArgMatches;
use clap::parser::ValueSource;
use std::alloc::AllocError;

/// The names of options that can't be used together, in pairs. The pairs are tested in this order.
static EXCLUSIVE: [(&str, &str); 14] = [
    ("summary", "packets"),
    ("wrong", "summary"),
    ("absolute", "summary"),
    ("top", "packets"),
    ("timeline", "packets"),
    ("interval", "packets"),
    ("write", "summary"),
    ("write", "packets"),
    ("write", "absolute"),
    ("write", "check"),
    ("write", "json"),
    ("write", "top"),
    ("write", "timeline"),
    ("write", "interval"),
];

/// The first pair of options that can't be used together and that both occur on the command line.
pub fn conflict_in(matches: &ArgMatches<'_>) -> Option<(&'static str, &'static str)>
    ensures { option_map (λ pair. (pair.0.now, pair.1.now)) result ≡ conflict_in (rows_of (found_of matches.now)) }
{
    let mut left = EXCLUSIVE.as_slice();
    while let [pair, others @ ..] = left {
        if is_given(matches, pair.0) && is_given(matches, pair.1) {
            return Some(*pair);
        }
        left = others;
    }
    None
}

/// Whether the command line contains the option with this name.
fn is_given(matches: &ArgMatches<'_>, name: &str) -> bool
    ensures { result ≡ is_given (rows_of (found_of matches.now)) name.now }
{
    is_from_words(matches.value_source(name))
}

/// Whether a value comes from the command line. A default does not.
fn is_from_words(source: Option<ValueSource>) -> bool
    ensures { result ≡ is_from_words source }
{
    matches!(source, Some(ValueSource::CommandLine))
}

/// The message about two options that can't be used together.
pub fn conflict_text<M: Memory>(memory: &M, first: &str, second: &str) -> Result<String, AllocError>
    ensures text { IfOk result (λ text. string_bytes text ≡ conflict_text first.now second.now) }
    ensures ran_out { OnErr result (M.ran_out memory.now) }
{
    let (value, other) = (shown_value(first), shown_value(second));
    memory.text(format_args!(
        "the argument '--{first}{value}' cannot be used with '--{second}{other}'"
    ))
}

/// The value of an option as a message shows it. The text is empty for an option without a value.
fn shown_value(name: &str) -> &'static str
    ensures { result.now ≡ shown_value name.now }
{
    match name {
        "top" => " <N>",
        "write" => " <FILE>",
        "interval" => " <SECONDS>",
        _ => "",
    }
}
