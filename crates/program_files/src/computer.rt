//! The files of this computer.

ghost use Rattle.std.specs.Prelude.{◌≡◌};
ghost use Rattle.std.specs.Fs.{metadata_len};

use crate::file_facts::{FileFacts, FileId};
use crate::file_system::FileSystem;
use std::fs::{File, Metadata};
use std::io::Stdin;
use std::os::unix::fs::MetadataExt;
use std::{fs, io};

/// The files of this computer. What the operating system answers is stated by no clause.
#[derive(Drop)]
pub struct Computer<'a> {
    /// The runtime that opens files.
    pub rt: &'a HostRuntime,
}

impl<'a> FileSystem for Computer<'a> {
    type Standard = Stdin;

    type File = File;

    type Created = File;

    ghost is_standard = { λ computer stdin. Unit {0} };

    ghost opens = { λ computer name file. Unit {0} };

    ghost creates = { λ computer name file. Unit {0} };

    ghost describes = { λ computer name told. Unit {0} };

    ghost describes_open = { λ computer file told. Unit {0} };

    fn stdin(&self) -> Stdin {
        self.rt.stdin()
    }

    fn open_file(&self, name: &str) -> io::Result<File> {
        File::open(self.rt, name)
    }

    /// Creates the file with this name. The file is cloned, since the number of a clone is above the numbers of the standard streams.
    /// Without the clone, the file would get the number of standard error if that is closed, and then error messages would be written into
    /// the file.
    fn create_file(&self, name: &str) -> io::Result<File> {
        File::create(self.rt, name)?.try_clone()
    }

    fn facts(&self, name: &str) -> io::Result<FileFacts> {
        Ok(facts_in(&fs::metadata(self.rt, name)?))
    }

    fn facts_of_open(&self, file: &File) -> io::Result<FileFacts> {
        Ok(facts_in(&file.metadata()?))
    }
}

/// The facts in the metadata of a file.
fn facts_in(metadata: &Metadata) -> FileFacts
    ensures len { result.len ≡ metadata_len metadata.now }
{
    FileFacts {
        id: FileId {
            device: metadata.dev(),
            number: metadata.ino(),
        },
        len: metadata.len(),
    }
}
