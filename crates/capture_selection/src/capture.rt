//! The selection of a capture.

ghost use Rattle.std.specs.Prelude.{◌≡◌, ℕ, List, Ok, Option, true};
ghost use Rattle.std.specs.Io.KnownBytes.{Consumes, IsAtEnd};
ghost use Rattle.capture_copy.specs.Captures.{IsNoPcapng};
ghost use Rattle.capture_file.specs.PcapngReading.{AreFirst};
ghost use Rattle.capture_request.specs.Limits.{IsWithin, is_full};
ghost use Rattle.capture_request.specs.declared.reached.Reached.TheVariants.{End};
ghost use Rattle.capture_selection.specs.Captures.{EndsAtLimit, SelectsCapture};

use crate::selector::{Selector, selected, selected_blocks};
use crate::{Counts, SelectionError};
use capture_copy::{Blocks, Copier, CopyError, Records, copy_blocks, copy_records, is_pcapng};
use capture_file::pcapng::MIN_BLOCK_LEN;
use capture_file::reader::OpenError;
use capture_request::{CaptureError, Parts, Reached};
use std::io::{Read, Write};
use streams::fill;

/// Copies a capture, but leaves out each packet for which a report with the options `parts` has no line. Each packet that is read is
/// counted in `counts`.
///
/// The header of a classic capture is copied unchanged, and so is each record that is written. In a pcapng file, each block is copied
/// unchanged unless it contains a packet that is left out. The only change is that each section length is set to -1, which means that it is
/// not specified (draft-ietf-opsawg-pcapng, section 4.1).
///
/// If a number of lines is requested, the capture is read up to the packet with the last of them. The result states how far it was read.
///
/// # Errors
///
/// `Capture` states why the capture is refused, or where it can't be read further. `TooManyPackets` is returned only after 2^64 - 2 records
/// or blocks. If the header of a classic capture is refused, nothing is written. If the first block of a pcapng file is refused, the error
/// is `Header`, as in the report. An error within a later record or block contains its place. After this error the output is a whole
/// capture, unless that record or block does not fit in the buffer. `Write` is the error of the first write that fails.
pub fn write_selected<R: Read, W: Write>(
    copier: &mut Copier<'_, R, W>,
    parts: &Parts,
    counts: &mut Counts,
) -> Result<Reached, SelectionError>
    ensures selects { SelectsCapture parts.now result (R.remaining copier.old.input) (R.remaining copier.new.input)
        (W.contents copier.old.output) (W.contents copier.new.output)
        counts.old counts.new }
    ensures ends { result ≡ Ok End → IsAtEnd (R.remaining copier.new.input) }
    ensures limit { EndsAtLimit parts.now.limit counts.new.written result }
    ensures full { is_full parts.now.limit counts.old.written ≡ true → counts.new ≡ counts.old }
    ensures within { IsWithin parts.now.limit counts.old.written → IsWithin parts.now.limit counts.new.written }
{
    let mut begin = [0u8; MIN_BLOCK_LEN];
    let len = match fill(&mut copier.input, &mut begin) {
        Ok(len) => len,
        Err(error) => return Err(SelectionError::Capture(CaptureError::ReadHeader(error))),
    };
    let begin = &begin[..len];
    if !is_pcapng(begin) {
        return select_capture(copier, begin, parts, counts);
    }
    if counts.is_full(parts.limit) {
        return Ok(Reached::Limit);
    }
    let mut blocks = Blocks::start();
    selected_blocks(copy_blocks(copier, begin, &mut blocks, &Selector { parts }, counts))
}

/// Writes a classic capture that begins with these bytes, without the packets that have no line.
fn select_capture<R: Read, W: Write>(
    copier: &mut Copier<'_, R, W>,
    begin: &[u8],
    parts: &Parts,
    counts: &mut Counts,
) -> Result<Reached, SelectionError>
    requires begin { AreFirst begin.now (R.remaining copier.old.input) }
    ensures selects { (left : Option (List ℕ)) → Consumes left (R.remaining copier.old.input) begin.now
        → IsNoPcapng left → SelectsCapture parts.now result left (R.remaining copier.new.input)
        (W.contents copier.old.output) (W.contents copier.new.output)
        counts.old counts.new }
    ensures ends { result ≡ Ok End → IsAtEnd (R.remaining copier.new.input) }
    ensures limit { EndsAtLimit parts.now.limit counts.new.written result }
    ensures full { is_full parts.now.limit counts.old.written ≡ true → counts.new ≡ counts.old }
    ensures within { IsWithin parts.now.limit counts.old.written → IsWithin parts.now.limit counts.new.written }
{
    let header = match copier.copy_header(begin) {
        Ok(Ok(header)) => header,
        Ok(Err(error)) => {
            let refused = OpenError::Classic(error);
            return Err(SelectionError::Capture(CaptureError::Header(refused)));
        }
        Err(CopyError::Read(error)) => {
            return Err(SelectionError::Capture(CaptureError::ReadHeader(error)));
        }
        Err(CopyError::Write(error)) => return Err(SelectionError::Write(error)),
    };
    let mut records = Records::after(header);
    selected(copy_records(copier, &mut records, &Selector { parts }, counts))
}
