//! The file to which a program writes.

ghost use Rattle.std.specs.Prelude.{◌≡◌, None, is_err};
ghost use Rattle.program_files.specs.NewFiles.{IsCreated, MakesUnlessInput, file_of, is_refused};

use crate::file_system::FileSystem;
use crate::input::{Input, is_named};
use std::io;
use std::io::Write;

/// A file that is created when its first byte is written. Until then, an existing file with this name is unchanged.
#[derive(Drop)]
pub struct NewFile<'a, S, F> {
    system: &'a S,
    name: &'a str,
    /// The file, or `None` until it is created.
    file: Option<F>,
    is_refused: bool,
}

impl<'a, S: FileSystem> NewFile<'a, S, S::Created> {
    /// Returns the file with this name, which is not created yet. `None` if it is the file from which the input is read, since creating it
    /// would destroy the capture.
    pub fn unless_input(
        system: &'a S,
        input: &Input<S::Standard, S::File>,
        name: &'a str,
    ) -> Option<NewFile<'a, S, S::Created>>
        ensures { MakesUnlessInput (S.describes system.now) (S.describes_open system.now) input.now system.entry name.entry result }
    {
        if is_named(system, input, name) {
            return None;
        }
        Some(NewFile {
            system,
            name,
            file: None,
            is_refused: false,
        })
    }

    /// Whether the system refused to create the file.
    pub fn is_refused(&self) -> bool
        ensures { result ≡ is_refused self.now }
    {
        self.is_refused
    }

    /// Returns the file, and creates it first if necessary.
    fn created(&mut self) -> io::Result<S::Created>
        ensures created { IsCreated S.creates self.old result }
        ensures taken { file_of self.new ≡ None }
        ensures refused { is_refused self.new ≡ is_err result }
    {
        let created = match self.file.take() {
            Some(file) => Ok(file),
            None => self.system.create_file(self.name),
        };
        self.is_refused = created.is_err();
        created
    }
}

impl<'a, S: FileSystem> Write for NewFile<'a, S, S::Created> {
    ghost use Rattle.std.specs.Io.{WritesAtMost};
    ghost use Rattle.std.specs.Io.KnownBytes.{WriteAppends};
    ghost use Rattle.program_files.specs.NewFiles.{WritesFile, bytes_held};

    ghost contents = { bytes_held S.Created.contents };

    fn write(&mut self, bytes: &[u8]) -> io::Result<usize>
        ensures bound { WritesAtMost result bytes.now }
        ensures bytes { WriteAppends (bytes_held S.Created.contents self.old) (bytes_held S.Created.contents self.new) result bytes.now }
        ensures file { WritesFile S.creates S.Created.contents self.old self.new bytes.now result }
    {
        let mut file = self.created()?;
        let written = file.write(bytes);
        self.file = Some(file);
        written
    }

    /// Does nothing, since `write` writes directly to the file.
    fn flush(&mut self) -> io::Result<()> {
        Ok(())
    }
}
