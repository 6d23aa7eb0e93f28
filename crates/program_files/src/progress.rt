//! The progress line of a long capture, on standard error.

ghost use Rattle.std.specs.Prelude.{◌≡◌, ◌≢◌, ◌<◌, ◌≤◌, ◌+◌, ◌-◌, ◌^◌, ℕ, IfOk, IsTrue, if◌then◌else◌, min, false, true};
ghost use Rattle.program_files.specs.Inputs.{HasLen};
ghost use Rattle.program_files.specs.Progress.{inner_of, is_shown, is_written, len_of, next_of, percent_of, read_of, step_of};

use crate::file_system::FileSystem;
use crate::input::{Input, len_of};
use std::io;
use std::io::{IsTerminal, Read, Stderr, Write};

/// A progress line is shown for a file with more bytes than this.
const LONG: u64 = 100_000_000;

/// Spaces that erase the longest progress line, and a return to the start of the line.
const ERASED: &str = "                     \r";

/// A reader of a capture that shows its progress on standard error, in percent. The line is not part of what a program reports. It is
/// erased at the end of the capture, and a failure to write it is ignored.
///
/// The progress line ends with a carriage return, and is shorter than any error line. So an error line overwrites it.
pub struct Progress<R> {
    inner: R,
    errors: Stderr,
    /// The name of the program, with which the line begins.
    program: &'static str,
    /// The length of the capture in bytes.
    len: u64,
    /// The number of bytes that were read, but at most `u64::MAX`.
    read: u64,
    /// The number of bytes after which the line is written next. It is `u64::MAX` if no line is shown.
    next: u64,
    /// Whether the line was written and must be erased.
    is_written: bool,
}

/// Whether a progress line is shown for a file with this length in bytes. `lines_on_terminal` states whether other output is written to the
/// terminal while the file is read. Progress lines would be mixed with it.
pub fn is_shown(len: u64, stderr_is_terminal: bool, lines_on_terminal: bool) -> bool
    ensures { result ≡ is_shown len stderr_is_terminal lines_on_terminal }
{
    len > LONG && stderr_is_terminal && !lines_on_terminal
}

/// The percentage of the length that was read, as a whole number. It is at most 100, even if the file has become longer since it was
/// opened.
fn percent(read: u64, len: u64) -> u8
    ensures { result ≡ percent_of read len }
{
    if read >= len {
        return 100;
    }
    (u128::from(read) * 100 / u128::from(len)) as u8
}

/// The number of bytes after which the percentage is shown again: the next whole number above a hundredth of the length.
fn step(len: u64) -> u64
    ensures { result ≡ step_of len }
{
    len / 100 + 1
}

/// Returns an input that shows the progress of reading if the input is a long file and standard error is a terminal. `lines_on_terminal`
/// states whether other output is written to the terminal at the same time. Then no progress is shown. `program` is the name of the
/// program.
pub fn with_progress<S: FileSystem>(
    rt: &HostRuntime,
    system: &S,
    input: Input<S::Standard, S::File>,
    program: &'static str,
    lines_on_terminal: bool,
) -> Progress<Input<S::Standard, S::File>>
    ensures inner { inner_of result ≡ input }
    ensures mixed { IsTrue lines_on_terminal → next_of result ≡ 2 ^ 64 - 1 }
    ensures short { (len : ℕ) × HasLen (S.describes_open system.now) input len × (len ≤ LONG → next_of result ≡ 2 ^ 64 - 1) }
{
    let len = len_of(system, &input);
    let shown = is_shown(len, rt.stderr().is_terminal(), lines_on_terminal);
    Progress::new(input, len, shown, program, rt.stderr())
}

impl<R> Progress<R> {
    /// Wraps the reader of a capture with a length of `len` bytes. If `shown` is set, a line that begins with the name of the program is
    /// written to `errors` after each percent of these bytes.
    pub fn new(
        inner: R,
        len: u64,
        shown: bool,
        program: &'static str,
        errors: Stderr,
    ) -> Progress<R>
        ensures inner { inner_of result ≡ inner }
        ensures read { read_of result ≡ 0 }
        ensures next { next_of result ≡ (if shown then step_of len else 2 ^ 64 - 1) }
    {
        Progress {
            inner,
            errors,
            program,
            len,
            read: 0,
            next: if shown { step(len) } else { u64::MAX },
            is_written: false,
        }
    }

    /// Counts the bytes of a read, and writes the line if another percent was read. At the end of the capture a read returns no bytes, and
    /// the line is erased.
    fn count(&mut self, bytes: usize)
        ensures inner { inner_of self.new ≡ inner_of self.old }
        ensures read { read_of self.new ≡ min (2 ^ 64 - 1) (read_of self.old + bytes) }
        ensures due { bytes ≢ 0 → next_of self.old ≤ read_of self.new → is_written self.new ≡ true }
        ensures early { read_of self.new < next_of self.old → is_written self.old ≡ false → is_written self.new ≡ false }
        ensures end { bytes ≡ 0 → is_written self.new ≡ false }
    {
        self.read = self.read.saturating_add(bytes as u64);
        if bytes == 0 {
            self.erase();
        } else if self.read >= self.next {
            self.write();
        }
    }

    /// Writes the line, and calculates when it is written next.
    fn write(&mut self)
        ensures inner { inner_of self.new ≡ inner_of self.old }
        ensures read { read_of self.new ≡ read_of self.old }
        ensures next { next_of self.new ≡ min (2 ^ 64 - 1) (next_of self.old + step_of (len_of self.old)) }
        ensures written { is_written self.new ≡ true }
    {
        let (program, percent) = (self.program, percent(self.read, self.len));
        let _ = write!(self.errors, "{program}: {percent} %\r");
        self.next = self.next.saturating_add(step(self.len));
        self.is_written = true;
    }

    /// Erases the line if there is one.
    fn erase(&mut self)
        ensures inner { inner_of self.new ≡ inner_of self.old }
        ensures read { read_of self.new ≡ read_of self.old }
        ensures erased { is_written self.new ≡ false }
    {
        if self.is_written {
            let _ = self.errors.write_all(ERASED.as_bytes());
            self.is_written = false;
        }
    }
}

impl<R: Read> Read for Progress<R> {
    ghost use Rattle.std.specs.Io.{ReadsAtMost};
    ghost use Rattle.std.specs.Io.KnownBytes.{ReadConsumes};

    ghost remaining = { λ progress. R.remaining (inner_of progress) };

    fn read(&mut self, buffer: &mut [u8]) -> io::Result<usize>
        ensures bound { ReadsAtMost result buffer.new }
        ensures bytes { ReadConsumes (R.remaining (inner_of self.old)) (R.remaining (inner_of self.new)) result buffer.new }
        ensures counted { IfOk result (λ bytes. read_of self.new ≡ min (2 ^ 64 - 1) (read_of self.old + bytes)) }
    {
        let result = self.inner.read(buffer);
        match &result {
            Ok(bytes) => self.count(*bytes),
            Err(_) => self.erase(),
        }
        result
    }
}

impl<R: Drop> Drop for Progress<R> {
    /// Erases the line of a capture that was not read to its end.
    fn drop(mut self) {
        self.erase();
        let Progress {
            inner: _,
            errors: _,
            program: _,
            len: _,
            read: _,
            next: _,
            is_written: _,
        } = self;
    }
}
