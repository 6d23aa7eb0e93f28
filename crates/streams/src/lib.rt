//! Fills buffers from a stream, skips bytes of a stream, and writes whole texts, for the programs.
#![tactic(auto)]

ghost use Rattle.std.specs.Prelude.{◌≡◌, ◌<◌, ◌≤◌, ◌-◌, IfOk, IfSome, OnErr, OnOk, length, take};
ghost use Rattle.std.specs.Io.KnownBytes.{Appends, Consumes, IsAtEnd};
ghost use Rattle.streams.specs.Streams.{AppendsBeginning, FillsAfter, ReadsFewer, Skips};

use std::alloc::{AllocError, Global};
use std::io;
use std::io::{ErrorKind, Read, Write};

/// A buffer with this length in bytes, on the heap.
///
/// # Errors
///
/// `AllocError` if no memory is left.
pub fn new_buffer(alloc: Global, len: usize) -> Result<Vec<u8>, AllocError>
    ensures { IfOk result (λ buffer. length buffer.items ≡ len) }
{
    vec![in alloc; 0u8; len]
}

/// Reads until the end of input or until `buffer` is full, and returns the number of bytes read.
///
/// # Errors
///
/// The error of the first read that fails.
pub fn fill<R: Read>(input: &mut R, buffer: &mut [u8]) -> io::Result<usize>
    ensures len { IfOk result (λ len. len ≤ length buffer.new) }
    ensures consumed { IfOk result (λ len.
        Consumes (R.remaining input.old) (R.remaining input.new) (take len buffer.new)) }
    ensures bytes { IfOk result (λ len. IfSome (R.remaining input.old)
        (λ all. take len buffer.new ≡ take (length buffer.old) all)) }
    ensures end { IfOk result (λ len. len < length buffer.new → IsAtEnd (R.remaining input.new)) }
    ensures fails { OnErr result (ReadsFewer (R.remaining input.old) (R.remaining input.new) (length buffer.old)) }
{
    let mut filled = 0;
    while filled < buffer.len() {
        match input.read(&mut buffer[filled..])? {
            0 => return Ok(filled),
            len => filled += len,
        }
    }
    Ok(filled)
}

/// Copies `first` to the front of `buffer`, and fills the rest of `buffer` from the input, as `fill` does. Returns the number of bytes in
/// `buffer`, including `first`. If `first` is longer than `buffer`, only its front is copied, and nothing is read.
///
/// # Errors
///
/// The error of the first read that fails.
pub fn fill_after<R: Read>(input: &mut R, first: &[u8], buffer: &mut [u8]) -> io::Result<usize>
    ensures fills { IfOk result (FillsAfter (take (length buffer.old) first.now) (R.remaining input.old) (R.remaining input.new) buffer.new) }
    ensures fails { OnErr result (ReadsFewer (R.remaining input.old) (R.remaining input.new) (length buffer.old - length first.now)) }
{
    let room = buffer.len();
    if room < first.len() {
        fill_behind(input, &first[..room], buffer)
    } else {
        fill_behind(input, first, buffer)
    }
}

/// Does what `fill_after` does, for a `first` that is not longer than `buffer`.
fn fill_behind<R: Read>(input: &mut R, first: &[u8], buffer: &mut [u8]) -> io::Result<usize>
    requires { length first.now ≤ length buffer.old }
    ensures fills { IfOk result (FillsAfter first.now (R.remaining input.old) (R.remaining input.new) buffer.new) }
    ensures fails { OnErr result (ReadsFewer (R.remaining input.old) (R.remaining input.new) (length buffer.old - length first.now)) }
{
    let first_len = first.len();
    buffer[..first_len].copy_from_slice(first);
    let len = fill(input, &mut buffer[first_len..])?;
    Ok(first_len + len)
}

/// The maximum number of bytes that `skip` reads at once.
const PART_LEN: usize = 4096;

/// Reads `count` bytes, or all bytes up to the end of input if there are fewer, and returns the number of bytes read. The bytes are
/// discarded.
///
/// # Errors
///
/// The error of the first read that fails.
pub fn skip<R: Read>(input: &mut R, count: usize) -> io::Result<usize>
    ensures skips { IfOk result (Skips (R.remaining input.old) (R.remaining input.new) count) }
    ensures fails { OnErr result (ReadsFewer (R.remaining input.old) (R.remaining input.new) count) }
{
    let mut part = [0u8; PART_LEN];
    let mut skipped = 0;
    while skipped < count {
        let room = PART_LEN.min(count - skipped);
        match input.read(&mut part[..room])? {
            0 => return Ok(skipped),
            len => skipped += len,
        }
    }
    Ok(skipped)
}

/// Writes the whole text. If writing fails, a beginning of the text was written.
///
/// # Errors
///
/// The error of the first write that fails, or `WriteZero` if a write accepts no byte.
pub fn write_whole<W: Write>(output: &mut W, text: &[u8]) -> io::Result<()>
    ensures written { OnOk result (Appends (W.contents output.old) (W.contents output.new) text.now) }
    ensures begun { AppendsBeginning (W.contents output.old) (W.contents output.new) text.now }
{
    let mut rest = text;
    while !rest.is_empty() {
        match output.write(rest)? {
            0 => return Err(io::Error::from(ErrorKind::WriteZero)),
            len => rest = &rest[len..],
        }
    }
    Ok(())
}
