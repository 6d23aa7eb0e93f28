//! The translation of a capture in either format.

ghost use Rattle.std.specs.Prelude.{ℕ, List, OnOk, Option};
ghost use Rattle.std.specs.Io.KnownBytes.{Consumes, IsAtEnd};
ghost use Rattle.capture_file.specs.PcapngReading.{AreFirst};
ghost use Rattle.capture_copy.specs.Captures.{IsNoPcapng};
ghost use Rattle.translator.specs.Captures.{TranslatesCapture};

use crate::capture_error::CaptureError;
use crate::counts::Counts;
use crate::table::Table;
use crate::translation::{Translation, of_blocks, of_records};
use capture_copy::{Blocks, Copier, CopyError, Records, copy_blocks, copy_records, is_pcapng};
use capture_file::pcapng::MIN_BLOCK_LEN;
use std::io::{Read, Write};
use streams::fill;

/// Translates the packets of a capture, and writes the capture. Every byte outside of the translated packets is written as it was read.
///
/// # Errors
///
/// The reason why the capture is not translated to its end. Nothing is written if the header of a classic capture is refused, or if the
/// first block of a pcapng file is refused or cut off. If another block is refused, or the capture ends within it or within a record, all
/// bytes that were read are written. If reading fails, the beginning of the capture is written. `TooManyParts` is returned only after
/// 2^64 - 1 records or blocks.
pub fn translate_capture<R: Read, W: Write>(
    copier: &mut Copier<'_, R, W>,
    table: &Table,
    counts: &mut Counts,
) -> Result<(), CaptureError>
    ensures translates { TranslatesCapture table.now result (R.remaining copier.old.input) (R.remaining copier.new.input)
        (W.contents copier.old.output) (W.contents copier.new.output) counts.old counts.new }
    ensures ends { OnOk result (IsAtEnd (R.remaining copier.new.input)) }
{
    let mut begin = [0u8; MIN_BLOCK_LEN];
    let len = match fill(&mut copier.input, &mut begin) {
        Ok(len) => len,
        Err(error) => return Err(CaptureError::Read { offset: 0, error }),
    };
    let begin = &begin[..len];
    if !is_pcapng(begin) {
        return translate_classic(copier, begin, table, counts);
    }
    let mut blocks = Blocks::start();
    of_blocks(copy_blocks(copier, begin, &mut blocks, &Translation { table }, counts))
}

/// Translates the packets of a classic capture that begins with these bytes.
fn translate_classic<R: Read, W: Write>(
    copier: &mut Copier<'_, R, W>,
    begin: &[u8],
    table: &Table,
    counts: &mut Counts,
) -> Result<(), CaptureError>
    requires begin { AreFirst begin.now (R.remaining copier.old.input) }
    ensures translates { (left : Option (List ℕ)) → Consumes left (R.remaining copier.old.input) begin.now → IsNoPcapng left
        → TranslatesCapture table.now result left (R.remaining copier.new.input)
        (W.contents copier.old.output) (W.contents copier.new.output)
        counts.old counts.new }
    ensures ends { OnOk result (IsAtEnd (R.remaining copier.new.input)) }
{
    let header = match copier.copy_header(begin) {
        Ok(Ok(header)) => header,
        Ok(Err(error)) => return Err(CaptureError::Header(error)),
        Err(CopyError::Read(error)) => return Err(CaptureError::Read { offset: 0, error }),
        Err(CopyError::Write(error)) => return Err(CaptureError::Write(error)),
    };
    let mut records = Records::after(header);
    of_records(copy_records(copier, &mut records, &Translation { table }, counts))
}
