//! The input from which a capture is read.

ghost use Rattle.std.specs.Prelude.{◌≡◌, IfErr, IfOk};
ghost use Rattle.program_files.specs.Inputs.{ComparesFiles, FindsMissing, HasLen, HasId, IsRequestedBy, IsUnopened, is_escaped};

use crate::file_facts::{FileId, len_in};
use crate::file_system::FileSystem;
use std::io;
use std::io::{ErrorKind, Read};

/// The name that stands for standard input as a capture, and for standard output as the file to write.
pub const STANDARD_STREAM: &str = "-";

/// The name of the file that is standard input, on Linux.
const STANDARD_INPUT_FILE: &str = "/dev/stdin";

/// The error for a name that is not UTF-8.
const NOT_UTF8: &str = "The name is not UTF-8, and no file is opened by such a name.";

/// The input from which a capture is read.
#[derive(Drop)]
pub enum Input<G, F> {
    /// Standard input.
    Standard(G),
    /// A file.
    File(F),
}

/// Opens the file with this name, or standard input if the name is `-`.
///
/// # Errors
///
/// The error of the operating system if the file can't be opened, and `InvalidFilename` if the name is escaped because it is not UTF-8. A
/// file can be opened only if its name is UTF-8.
pub fn open_input<S: FileSystem>(system: &S, name: &str) -> io::Result<Input<S::Standard, S::File>>
    ensures opened { IfOk result (IsRequestedBy (S.is_standard system.now) (S.opens system.now) name.now) }
    ensures refused { IfErr result (IsUnopened (S.opens system.now) name.now) }
{
    if name == STANDARD_STREAM {
        return Ok(Input::Standard(system.stdin()));
    }
    if is_escaped(name) {
        return Err(io::Error::new(ErrorKind::InvalidFilename, NOT_UTF8));
    }
    match system.open_file(name) {
        Ok(file) => Ok(Input::File(file)),
        Err(error) => Err(error),
    }
}

/// Returns the length of a file in bytes. It is 0 for standard input, and if the operating system does not report a length.
pub fn len_of<S: FileSystem>(system: &S, input: &Input<S::Standard, S::File>) -> u64
    ensures { HasLen (S.describes_open system.now) input.now result }
{
    match input {
        Input::Standard(_) => 0,
        Input::File(file) => len_in(system.facts_of_open(file)),
    }
}

/// Whether an input is the file with this name. The numbers of the devices and of the files are compared. If they can't be read, the result
/// is `false`.
pub fn is_named<S: FileSystem>(system: &S, input: &Input<S::Standard, S::File>, name: &str) -> bool
    ensures { ComparesFiles (S.describes system.now) (S.describes_open system.now) input.now name.now result }
{
    FileId::is_same(id_of(system, input), FileId::of(system.facts(name)))
}

/// The numbers of the file from which an input is read, or `None` if they can't be read.
fn id_of<S: FileSystem>(system: &S, input: &Input<S::Standard, S::File>) -> Option<FileId>
    ensures { HasId (S.describes system.now) (S.describes_open system.now) input.now result }
{
    match input {
        Input::Standard(_) => FileId::of(system.facts(STANDARD_INPUT_FILE)),
        Input::File(file) => FileId::of(system.facts_of_open(file)),
    }
}

/// Returns the error of the operating system if there is no file with this name, or if its facts can't be read.
pub fn missing_file<S: FileSystem>(system: &S, name: &str) -> Option<io::Error>
    ensures { FindsMissing (S.describes system.now) name.now result }
{
    match system.facts(name) {
        Ok(_) => None,
        Err(error) => Some(error),
    }
}

/// Whether a name is escaped: it begins with NUL, which no name of a file contains.
fn is_escaped(name: &str) -> bool
    ensures { result ≡ is_escaped name.now }
{
    matches!(name.as_bytes(), [0, ..])
}

impl<G: Read, F: Read> Read for Input<G, F> {
    ghost use Rattle.program_files.specs.Inputs.{bytes_left};

    ghost remaining = { bytes_left G.remaining F.remaining };

    fn read(&mut self, buffer: &mut [u8]) -> io::Result<usize> {
        match self {
            Input::Standard(stdin) => stdin.read(buffer),
            Input::File(file) => file.read(buffer),
        }
    }
}
