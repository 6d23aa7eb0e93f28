ghost use Rattle.std.specs.Prelude.{◌≡◌, ◌<◌, ◌≤◌, IfOk, length};
ghost use Rattle.std.specs.Io.KnownBytes.{IsAtEnd};
ghost use Rattle.capture_copy.specs.Copies.{CopiesUpTo};
ghost use Rattle.capture_copy.specs.declared.copier.TheConstants.{BUFFER_LEN};

use std::io;
use std::io::{Read, Write};
use streams::fill;

/// The length of a copier's buffer, in bytes. It is the maximum length of a packet that is read.
pub const BUFFER_LEN: usize = 524_288;

/// The memory of a copier's buffer.
pub type Buffer = [u8; BUFFER_LEN];

/// The input and the output of a copier, and its buffer.
#[derive(Drop)]
pub struct Copier<'a, R, W> {
    /// The capture that is read.
    pub input: R,
    /// The capture that is written.
    pub output: W,
    /// Memory for the captured bytes of a packet, for a block of a pcapng file, or for a piece of the bytes that `copy` copies. It has
    /// `BUFFER_LEN` bytes.
    pub buffer: &'a mut [u8],
    ghost room: { length buffer.now ≡ BUFFER_LEN },
}

impl<'a, R, W> Copier<'a, R, W> {
    /// Returns a copier that reads from `input` and writes to `output`.
    pub fn new(input: R, output: W, buffer: &'a mut Buffer) -> Copier<'a, R, W>
        ensures input { result.input ≡ input }
        ensures output { result.output ≡ output }
    {
        Copier {
            input,
            output,
            buffer: &mut buffer[..],
        }
    }
}

/// The reason why bytes were not copied.
#[derive(Debug, Drop)]
pub enum CopyError {
    /// Reading failed.
    Read(io::Error),
    /// Writing failed.
    Write(io::Error),
}

impl<R: Read, W: Write> Copier<'_, R, W> {
    /// Copies `count` bytes, or all bytes up to the end of input if there are fewer, and returns the number of bytes copied.
    ///
    /// # Errors
    ///
    /// The error of the first read or write that fails.
    pub fn copy(&mut self, count: usize) -> Result<usize, CopyError>
        ensures copies { CopiesUpTo count result (R.remaining self.old.input) (R.remaining self.new.input)
            (W.contents self.old.output) (W.contents self.new.output) }
        ensures within { IfOk result (λ len. len ≤ count) }
        ensures end { IfOk result (λ len. len < count → IsAtEnd (R.remaining self.new.input)) }
    {
        let mut copied = 0;
        while copied < count {
            let room = BUFFER_LEN.min(count - copied);
            let piece = &mut self.buffer[..room];
            let len = match fill(&mut self.input, piece) {
                Ok(len) => len,
                Err(error) => return Err(CopyError::Read(error)),
            };
            if len == 0 {
                return Ok(copied);
            }
            if let Err(error) = self.output.write_all(&piece[..len]) {
                return Err(CopyError::Write(error));
            }
            copied += len;
        }
        Ok(copied)
    }
}
