//! What the programs do with files: they open captures, create the file to write, and show the progress of reading.
//!
//! The calls of the operating system are the trait `FileSystem`. A function of this crate is proved for every implementation of the trait.
//! Hence its contract states which name is passed to the operating system, and what the program makes of the answer.
//!
//! ```
//! let system = Computer { rt };
//! let input = open_input(&system, "capture.pcap")?;
//! match NewFile::unless_input(&system, &input, "new.pcap") {
//!     Some(mut output) => output.write_all(b"bytes")?,
//!     None => return Err(output_is_capture()),
//! }
//! ```
#![tactic(auto)]

mod computer;
mod file_facts;
mod file_system;
mod flushes;
mod input;
mod new_file;
mod progress;

pub use computer::Computer;
pub use file_facts::{FileFacts, FileId};
pub use file_system::FileSystem;
pub use flushes::Flushes;
pub use input::{Input, STANDARD_STREAM, is_named, len_of, missing_file, open_input};
pub use new_file::NewFile;
pub use progress::{Progress, is_shown, with_progress};
