//! Copies a capture with only those packets that a report lists.
//!
//! `write_selected` reads a capture, and writes the packets that have a line in the report with the same options. The record or block of
//! each of these packets is written as it was read. So is the rest of the capture: the header of a classic capture, and the other blocks of
//! a pcapng file. Only the length of a section becomes -1, which means that the length is not specified.
//!
//! ```
//! let parts = Parts { lines: Lines::Wrong, ..Parts::from_flags(false, true, true, false) };
//! let mut counts = Counts::NONE;
//! let mut copier = Copier::new(input, output, buffer);
//! let reached = write_selected(&mut copier, &parts, &mut counts)?;
//! ```
#![tactic(auto)]

mod capture;
mod counts;
mod outcome;
mod selection_error;
mod selector;

pub use capture::write_selected;
pub use capture_copy::Copier;
pub use counts::Counts;
pub use outcome::{Outcome, outcome_of};
pub use selection_error::SelectionError;
