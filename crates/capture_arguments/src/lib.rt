//! The arguments of the program `capture_report`.
//!
//! `words_of` returns the words of the command line, and `requested_options` the options in these words. If a word is refused, the text of
//! the error names it. The kind of the error decides the exit status.
//!
//! ```
//! let words = words_of(&rt.alloc(), &OwnArguments { rt })?;
//! match requested_options(&rt.alloc(), words.as_slice()) {
//!     Ok(options) => report(&options.parts, options.files.as_slice()),
//!     Err(error) => error.print(rt),
//! }
//! ```
#![tactic(auto)]

mod arguments;
mod chosen;
mod conflicts;
mod date_time;
mod filters;
mod interval;
mod memory;
mod names;
mod unknown;
mod words;

pub use arguments::{Options, no_capture, output_is_capture, requested_options};
pub use memory::Memory;
pub use words::{Arguments, OwnArguments, words_of};
