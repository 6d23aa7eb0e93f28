//! Reading and writing, with errors of the type `PartError`.

ghost use Rattle.std.specs.Prelude.{◌≡◌, ◌<◌, ◌≤◌, ◌++◌, IfErr, IfOk, OnOk, length, take};
ghost use Rattle.std.specs.Io.KnownBytes.{Appends, Consumes, IsAtEnd};
ghost use Rattle.streams.specs.Streams.{FillsAfter};
ghost use Rattle.capture_copy.specs.Parts.{IsReadError, IsWriteError, PassesLong};
ghost use Rattle.capture_copy.specs.Visits.{written_if};

use crate::{Copier, CopyError, PartError, Place};
use std::io::{Read, Write};
use streams::{fill, fill_after, skip};

/// Reads into a buffer until it is full or the input ends, and returns the number of bytes read.
pub(crate) fn read_into<R: Read>(
    input: &mut R,
    buffer: &mut [u8],
    place: Place,
) -> Result<usize, PartError>
    ensures len { IfOk result (λ len. len ≤ length buffer.new) }
    ensures consumed { IfOk result (λ len. Consumes (R.remaining input.old) (R.remaining input.new) (take len buffer.new)) }
    ensures end { IfOk result (λ len. len < length buffer.new → IsAtEnd (R.remaining input.new)) }
    ensures failed { IfErr result (IsReadError place) }
{
    match fill(input, buffer) {
        Ok(len) => Ok(len),
        Err(error) => Err(PartError::Read { place, error }),
    }
}

/// Copies `first` to the front of a buffer, and then reads from the input until the buffer is full or the input ends. Returns the number of
/// bytes in the buffer.
pub(crate) fn read_after<R: Read>(
    input: &mut R,
    first: &[u8],
    buffer: &mut [u8],
    place: Place,
) -> Result<usize, PartError>
    requires { length first.now ≤ length buffer.old }
    ensures fills { IfOk result (FillsAfter first.now (R.remaining input.old) (R.remaining input.new) buffer.new) }
    ensures within { IfOk result (λ len. len ≤ length buffer.new) }
    ensures failed { IfErr result (IsReadError place) }
{
    match fill_after(input, first, buffer) {
        Ok(len) => Ok(len),
        Err(error) => Err(PartError::Read { place, error }),
    }
}

/// Writes these bytes.
fn write<W: Write>(output: &mut W, bytes: &[u8]) -> Result<(), PartError>
    ensures appends { OnOk result (Appends (W.contents output.old) (W.contents output.new) bytes.now) }
    ensures failed { IfErr result IsWriteError }
{
    match output.write_all(bytes) {
        Ok(()) => Ok(()),
        Err(error) => Err(PartError::Write(error)),
    }
}

/// Writes a part, or its first bytes, if `is_written` is true. The bytes are `first` followed by `rest`.
pub(crate) fn write_if<W: Write>(
    output: &mut W,
    first: &[u8],
    rest: &[u8],
    is_written: bool,
) -> Result<(), PartError>
    ensures appends { OnOk result (Appends (W.contents output.old) (W.contents output.new) (written_if is_written (first.now ++ rest.now))) }
    ensures failed { IfErr result IsWriteError }
{
    if !is_written {
        return Ok(());
    }
    write(output, first)?;
    write(output, rest)
}

/// Reads the rest of a part, and writes the part if `is_written` is true. `first` contains the bytes that were already read. The rest has
/// `count` bytes, or fewer if the input ends before. Returns the number of bytes read.
pub(crate) fn pass_long<R: Read, W: Write>(
    copier: &mut Copier<'_, R, W>,
    first: &[u8],
    count: usize,
    is_written: bool,
    place: Place,
) -> Result<usize, PartError>
    ensures within { IfOk result (λ len. len ≤ count) }
    ensures end { IfOk result (λ len. len < count → IsAtEnd (R.remaining copier.new.input)) }
    ensures passes { PassesLong place count is_written result first.now (R.remaining copier.old.input) (R.remaining copier.new.input)
        (W.contents copier.old.output) (W.contents copier.new.output) }
{
    if !is_written {
        return match skip(&mut copier.input, count) {
            Ok(len) => Ok(len),
            Err(error) => Err(PartError::Read { place, error }),
        };
    }
    write(&mut copier.output, first)?;
    match copier.copy(count) {
        Ok(len) => Ok(len),
        Err(CopyError::Read(error)) => Err(PartError::Read { place, error }),
        Err(CopyError::Write(error)) => Err(PartError::Write(error)),
    }
}
