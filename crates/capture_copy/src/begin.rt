ghost use Rattle.std.specs.Prelude.{◌≡◌, ◌≤◌, ℕ, IfOk, List, Option, length, take, true};
ghost use Rattle.std.specs.Io.KnownBytes.{Consumes};
ghost use Rattle.capture_copy.specs.Captures.{BeginsCapture};
ghost use Rattle.capture_file.specs.Opening.{SaysHeader};
ghost use Rattle.capture_file.specs.Pcapng.{is_section_header};
ghost use Rattle.capture_file.specs.PcapngReading.{AreFirst};

use crate::{Copier, CopyError};
use capture_file::ByteOrder;
use capture_file::classic::{CaptureHeader, CaptureHeaderError, read_capture_header};
use capture_file::pcapng::SECTION_HEADER;
use std::io;
use std::io::{Read, Write};
use streams::fill_after;

/// Returns whether these bytes begin with the type of a section header block, as each pcapng file does.
pub fn is_pcapng(bytes: &[u8]) -> bool
    ensures is { result ≡ is_section_header bytes.now }
    ensures some { result ≡ true → 1 ≤ length bytes.now }
{
    match bytes {
        [a, b, c, d, ..] => ByteOrder::BigEndian.number([*a, *b, *c, *d]) == SECTION_HEADER,
        _ => false,
    }
}

/// Returns the header of a classic capture in the first 24 of these bytes, or the error that refuses it. If there are fewer than 24 bytes,
/// the capture ends with them.
fn header_in(bytes: &[u8]) -> io::Result<Result<CaptureHeader, CaptureHeaderError>>
    ensures { IfOk result (SaysHeader (take 24 bytes.now)) }
{
    let mut rest = bytes;
    read_capture_header(&mut rest)
}

impl<R: Read, W: Write> Copier<'_, R, W> {
    /// Copies the header of a classic capture. `begin` contains the first bytes of the capture, which the caller has already read. Returns
    /// the header, or the error that refuses it. A refused header is not written.
    ///
    /// # Errors
    ///
    /// The error of the first read or write that fails.
    pub fn copy_header(
        &mut self,
        begin: &[u8],
    ) -> Result<Result<CaptureHeader, CaptureHeaderError>, CopyError>
        ensures begins { (left : Option (List ℕ)) → AreFirst begin.now (R.remaining self.old.input)
            → Consumes left (R.remaining self.old.input) begin.now
            → BeginsCapture result left (R.remaining self.new.input) (W.contents self.old.output) (W.contents self.new.output) }
    {
        let mut first = [0u8; CaptureHeader::LEN];
        let len = match fill_after(&mut self.input, begin, &mut first) {
            Ok(len) => len,
            Err(error) => return Err(CopyError::Read(error)),
        };
        let header = match header_in(&first[..len]) {
            Ok(Ok(header)) => header,
            Ok(Err(error)) => return Ok(Err(error)),
            Err(error) => return Err(CopyError::Read(error)),
        };
        if let Err(error) = self.output.write_all(&first) {
            return Err(CopyError::Write(error));
        }
        Ok(Ok(header))
    }
}
