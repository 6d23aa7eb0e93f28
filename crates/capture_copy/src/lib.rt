//! Copies a capture, and asks a `Visitor` about each packet: whether it is written, and with which bytes.
//!
//! `copy_records` copies the records of a classic capture, after `Copier::copy_header` has copied its header. `copy_blocks` copies the
//! blocks of a pcapng file. A part is a record of a classic capture or a block of a pcapng file. `specs/Passing` states what a copier does
//! with each part.
//!
//! ```
//! let mut copier = Copier::new(input, output, buffer);
//! let header = copier.copy_header(begin)??;
//! let extent = copy_records(&mut copier, &mut Records::after(header), &visitor, &mut counts)?;
//! ```
#![tactic(auto)]

mod begin;
mod blocks;
mod copier;
mod extent;
mod part_error;
mod place;
mod records;
mod transfer;
mod visitor;

pub use begin::is_pcapng;
pub use blocks::{Blocks, copy_blocks};
pub use copier::{BUFFER_LEN, Buffer, Copier, CopyError};
pub use extent::Extent;
pub use part_error::PartError;
pub use place::Place;
pub use records::{Records, copy_records};
pub use visitor::Visitor;
