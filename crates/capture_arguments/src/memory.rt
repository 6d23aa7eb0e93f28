//! The calls by which this crate allocates memory.

use clap::error::ErrorKind;
use clap::{Arg, ArgMatches, Command, Error};
use std::alloc::{AllocError, Global};
use std::fmt::Display;
use streams::new_buffer;

/// The calls by which this crate allocates memory and asks `clap`. Only these calls fail if no memory is left. So the contract of a
/// function over any `Memory` can state that an error about memory follows a failed allocation. Only these calls return errors of `clap`.
/// So the contract can also state which errors of `clap` the function returns.
pub trait Memory {
    ghost use Rattle.std.specs.Prelude.{◌≡◌, ◌++◌, ◌∷◌, [], ℕ, IfErr, IfOk, IfSome, List, OnErr, OnOk, length, map, string_bytes, true};
    ghost use Rattle.clap.specs.Words.{AddsArg, App, FailsBy, HasMatchesOf, app_of, fault_of as faults_of, is_simple_and_free, kind_of, takes};
    ghost use Rattle.clap.specs.declared.error.Error.{Error};
    ghost use Rattle.clap.specs.declared.error.kind.ErrorKind.{ErrorKind};
    ghost use Rattle.clap.specs.declared.error.kind.ErrorKind.TheVariants.{OutOfMemory};

    /// A statement that holds if an allocation failed.
    ghost ran_out: { Self → Type 0 };

    /// A statement about a command line, words, and the error that `matches` returns for them.
    ghost refuses: { Self → App → List (List ℕ) → Error → Type 0 };

    /// A statement about a command line, a kind, a message, and the error that `usage_error` makes of them.
    ghost explains: { Self → App → ErrorKind → List ℕ → Error → Type 0 };

    /// The allocator, for calls that need an allocator but do not allocate.
    fn alloc(&self) -> Global;

    /// A buffer of this length, in bytes.
    ///
    /// # Errors
    ///
    /// `AllocError` if no memory is left. The calls below return it too.
    fn buffer(&self, len: usize) -> Result<Vec<u8>, AllocError>
        ensures len { IfOk result (λ buffer. length buffer.items ≡ len) }
        ensures ran_out { OnErr result (ran_out self.now) };

    /// The text of a value.
    fn text<D: Display + Drop>(&self, shown: D) -> Result<String, AllocError>
        ensures text { IfOk result (λ text. IfSome (D.output shown) (λ bytes. string_bytes text ≡ bytes)) }
        ensures ran_out { OnErr result (ran_out self.now) };

    /// Adds a word to the end of a list.
    fn push(&self, words: &mut Vec<String>, word: String) -> Result<(), AllocError>
        ensures items { OnOk result (words.new.items ≡ words.old.items ++ word ∷ []) }
        ensures ran_out { OnErr result (ran_out self.now) };

    /// Adds names to the end of a list.
    fn extend<'a>(&self, names: &mut Vec<&'a str>, more: &[&'a str]) -> Result<(), AllocError>
        ensures items { OnOk result (names.new.items ≡ names.old.items ++ more.now) }
        ensures ran_out { OnErr result (ran_out self.now) };

    /// The command with this argument added.
    fn with_arg<'a>(&self, command: Command<'a>, arg: Arg<'a>) -> Result<Command<'a>, AllocError>
        ensures adds { IfOk result (AddsArg command.entry arg.entry) }
        ensures ran_out { OnErr result (ran_out self.now) };

    /// The matches of these words, from `try_get_matches_from` of the command. An error of a kind other than `OutOfMemory` is about the
    /// words.
    fn matches<'a>(
        &self,
        command: Command<'a>,
        words: &'a [String],
    ) -> Result<ArgMatches<'a>, Error>
        ensures matches { IfOk result (HasMatchesOf (app_of command.entry) (map (λ word. string_bytes word) words.now)) }
        ensures passes { IfErr result (λ error.
            takes (app_of command.entry) (map (λ word. string_bytes word) words.now) ≡ true → kind_of error ≡ OutOfMemory) }
        ensures kinds { is_simple_and_free (app_of command.entry) ≡ true
            → FailsBy (faults_of (app_of command.entry) (map (λ word. string_bytes word) words.now)) result }
        ensures refuses { IfErr result (refuses self.now (app_of command.entry) (map (λ word. string_bytes word) words.now)) }
        ensures ran_out { IfErr result (λ error. kind_of error ≡ OutOfMemory → ran_out self.now) };

    /// An error of this kind with this message and the usage of the command.
    fn usage_error(
        &self,
        command: &mut Command<'_>,
        kind: ErrorKind,
        message: &str,
    ) -> Result<Error, AllocError>
        ensures kind { IfOk result (λ error. kind_of error ≡ kind) }
        ensures explains { IfOk result (explains self.now (app_of command.old) kind message.now) }
        ensures ran_out { OnErr result (ran_out self.now) };
}

/// The memory of the program. Nothing is stated about when an allocation fails, or about the texts of errors.
impl Memory for Global {
    ghost ran_out = { λ memory. Unit {0} };

    ghost refuses = { λ memory app words error. Unit {0} };

    ghost explains = { λ memory app kind message error. Unit {0} };

    fn alloc(&self) -> Global {
        *self
    }

    fn buffer(&self, len: usize) -> Result<Vec<u8>, AllocError> {
        new_buffer(*self, len)
    }

    fn text<D: Display + Drop>(&self, shown: D) -> Result<String, AllocError> {
        String::format(*self, shown)
    }

    fn push(&self, words: &mut Vec<String>, word: String) -> Result<(), AllocError> {
        Ok(words.push(word)?)
    }

    fn extend<'a>(&self, names: &mut Vec<&'a str>, more: &[&'a str]) -> Result<(), AllocError> {
        names.extend_from_slice(more)
    }

    fn with_arg<'a>(&self, command: Command<'a>, arg: Arg<'a>) -> Result<Command<'a>, AllocError> {
        command.arg(arg)
    }

    fn matches<'a>(
        &self,
        command: Command<'a>,
        words: &'a [String],
    ) -> Result<ArgMatches<'a>, Error> {
        command.try_get_matches_from(words)
    }

    fn usage_error(
        &self,
        command: &mut Command<'_>,
        kind: ErrorKind,
        message: &str,
    ) -> Result<Error, AllocError> {
        command.error(kind, message)
    }
}
