//! What the programs ask of the operating system about files.

use crate::file_facts::FileFacts;
use std::io;
use std::io::{Read, Write};

/// The files of a computer, and what its operating system states about them.
pub trait FileSystem {
    /// Standard input.
    type Standard: Read + Drop;
    /// A file that is open for reading.
    type File: Read + Drop;
    /// A file that was created for writing.
    type Created: Write + Drop;

    ghost use Rattle.std.specs.Prelude.{ℕ, List, Result};
    ghost use Rattle.std.specs.declared.io.Error.{Error};
    ghost use Rattle.program_files.specs.declared.file_facts.FileFacts.{FileFacts};

    /// What holds for standard input.
    ghost is_standard: { Self → Self.Standard → Type 0 };
    /// What holds for a name and the result of opening the file with this name.
    ghost opens: { Self → List ℕ → Result Self.File Error → Type 0 };
    /// What holds for a name and the result of creating the file with this name.
    ghost creates: { Self → List ℕ → Result Self.Created Error → Type 0 };
    /// What holds for a name and the facts about the file with this name.
    ghost describes: { Self → List ℕ → Result FileFacts Error → Type 0 };
    /// What holds for an open file and the facts about it.
    ghost describes_open: { Self → Self.File → Result FileFacts Error → Type 0 };

    /// Returns standard input.
    fn stdin(&self) -> Self::Standard
        ensures { is_standard self.now result };

    /// Opens the file with this name for reading.
    ///
    /// # Errors
    ///
    /// The error of the operating system if the file can't be opened.
    fn open_file(&self, name: &str) -> io::Result<Self::File>
        ensures { opens self.now name.now result };

    /// Creates the file with this name for writing. An existing file becomes empty.
    ///
    /// # Errors
    ///
    /// The error of the operating system if the file can't be created.
    fn create_file(&self, name: &str) -> io::Result<Self::Created>
        ensures { creates self.now name.now result };

    /// Returns the facts about the file with this name.
    ///
    /// # Errors
    ///
    /// The error of the operating system if no file has this name, or if its facts can't be read.
    fn facts(&self, name: &str) -> io::Result<FileFacts>
        ensures { describes self.now name.now result };

    /// Returns the facts about an open file.
    ///
    /// # Errors
    ///
    /// The error of the operating system if the facts can't be read.
    fn facts_of_open(&self, file: &Self::File) -> io::Result<FileFacts>
        ensures { describes_open self.now file.now result };
}
