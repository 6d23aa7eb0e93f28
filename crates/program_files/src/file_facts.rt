//! What the operating system states about a file.

ghost use Rattle.std.specs.Prelude.{◌≡◌};
ghost use Rattle.program_files.specs.Facts.{id_in, is_same_file, len_in};

use std::io;

/// The number of a device, and the number of a file on it. Together they identify the file.
#[derive(Clone, Copy, Debug, PartialEq, Eq)]
pub struct FileId {
    /// The number of the device that contains the file.
    pub device: u64,
    /// The number of the file on the device, its inode.
    pub number: u64,
}

/// What the operating system states about a file.
#[derive(Clone, Copy, Debug)]
pub struct FileFacts {
    /// The numbers that identify the file.
    pub id: FileId,
    /// The length in bytes. It is 0 for a file without a length, such as a terminal.
    pub len: u64,
}

impl FileId {
    /// Returns the numbers of a file, or `None` if the operating system returned an error instead of its facts.
    pub fn of(told: io::Result<FileFacts>) -> Option<FileId>
        ensures { result ≡ id_in told }
    {
        match told {
            Ok(facts) => Some(facts.id),
            Err(_) => None,
        }
    }

    /// Whether two files are the same file. If the numbers of a file are unknown, the result is `false`.
    pub fn is_same(file: Option<FileId>, other: Option<FileId>) -> bool
        ensures { result ≡ is_same_file file other }
    {
        match (file, other) {
            (Some(file), Some(other)) => {
                file.device == other.device && file.number == other.number
            }
            _ => false,
        }
    }
}

/// The length in the facts of a file, in bytes. It is 0 if the operating system returned an error instead of the facts.
pub(crate) fn len_in(told: io::Result<FileFacts>) -> u64
    ensures { result ≡ len_in told }
{
    match told {
        Ok(facts) => facts.len,
        Err(_) => 0,
    }
}
