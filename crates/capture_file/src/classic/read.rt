ghost use Rattle.std.specs.Prelude.{IfOk, OnErr};
ghost use Rattle.capture_file.specs.Opening.{ReadsRestOfHeader};
ghost use Rattle.capture_file.specs.PcapngReading.{AreFirst};
ghost use Rattle.capture_file.specs.Reading.{FailsInRecord, ReadsCaptured, ReadsHeader, ReadsNext};
ghost use Rattle.streams.specs.Streams.{ReadsFewer};

use crate::ByteOrder;
use crate::classic::{CaptureHeader, CaptureHeaderError, RecordHeader};
use crate::pcapng::MIN_BLOCK_LEN;
use std::io::{self, Read};
use streams::{fill, fill_after, skip};

/// The maximum captured length of a record that libpcap writes, in bytes (`MAXIMUM_SNAPLEN`). A buffer of this length is long enough for
/// all these records.
pub const MAX_CAPTURED_LEN: usize = 262_144;

/// The next item in a capture.
#[derive(Clone, Copy, Debug, PartialEq, Eq)]
pub enum NextRecord {
    /// A record. Its captured bytes are the first bytes of the buffer.
    Whole(RecordHeader),
    /// A record that is longer than the buffer. Its captured bytes were skipped.
    TooLong(RecordHeader),
    /// The end of the capture. No byte is left.
    End,
    /// The first bytes of a record within which the capture ends.
    CutOff {
        /// The length of the record in bytes, with its header. It is 16 if the header is incomplete.
        required_len: usize,
        /// The number of bytes of the record that are present.
        len: usize,
    },
}

/// Reads the header of a capture. The inner result is the header, or the error that refuses it. At most 24 bytes are read.
///
/// # Errors
///
/// The error of the first read that fails.
pub fn read_capture_header<R: Read>(
    input: &mut R,
) -> io::Result<Result<CaptureHeader, CaptureHeaderError>>
    ensures { IfOk result (ReadsHeader (R.remaining input.old) (R.remaining input.new)) }
{
    let mut first = [0u8; MIN_BLOCK_LEN];
    let len = fill(input, &mut first)?;
    read_header_after(input, &first[..len])
}

/// Reads the rest of the header of a capture, after its first bytes. If `first` has fewer than 12 bytes, nothing is read.
pub(crate) fn read_header_after<R: Read>(
    input: &mut R,
    first: &[u8],
) -> io::Result<Result<CaptureHeader, CaptureHeaderError>>
    requires { AreFirst first.now (R.remaining input.old) }
    ensures { IfOk result (ReadsRestOfHeader first.now (R.remaining input.old) (R.remaining input.new)) }
{
    if first.len() < MIN_BLOCK_LEN {
        return Ok(CaptureHeader::from_slice(first));
    }
    let mut bytes = [0u8; CaptureHeader::LEN];
    let len = fill_after(input, first, &mut bytes)?;
    Ok(CaptureHeader::from_slice(&bytes[..len]))
}

/// Reads the next record of a capture, and its captured bytes into the buffer. `order` is the byte order of the capture.
///
/// A record that is longer than the buffer is skipped, so that the next record can be read. A buffer of `MAX_CAPTURED_LEN` bytes is long
/// enough for every record that libpcap writes.
///
/// # Errors
///
/// The error of the first read that fails.
pub fn read_record<R: Read>(
    input: &mut R,
    order: ByteOrder,
    buffer: &mut [u8],
) -> io::Result<NextRecord>
    ensures reads { IfOk result (ReadsNext order (R.remaining input.old) (R.remaining input.new) buffer.new) }
    ensures fails { OnErr result (FailsInRecord order (R.remaining input.old) (R.remaining input.new)) }
{
    let mut bytes = [0u8; RecordHeader::LEN];
    let len = fill(input, &mut bytes)?;
    if len == 0 {
        return Ok(NextRecord::End);
    }
    let required_len = RecordHeader::LEN;
    if len < required_len {
        return Ok(NextRecord::CutOff { required_len, len });
    }
    read_captured(input, RecordHeader::from_bytes(order, &bytes), buffer)
}

/// Reads the captured bytes of a record, after its header.
fn read_captured<R: Read>(
    input: &mut R,
    header: RecordHeader,
    buffer: &mut [u8],
) -> io::Result<NextRecord>
    ensures reads { IfOk result (ReadsCaptured header (R.remaining input.old) (R.remaining input.new) buffer.new) }
    ensures fails { OnErr result (ReadsFewer (R.remaining input.old) (R.remaining input.new) header.captured_len) }
{
    let captured_len = header.captured_len as usize;
    let required_len = RecordHeader::LEN + captured_len;
    let (read, next) = if captured_len > buffer.len() {
        (skip(input, captured_len)?, NextRecord::TooLong(header))
    } else {
        let captured = &mut buffer[..captured_len];
        (fill(input, captured)?, NextRecord::Whole(header))
    };
    let len = RecordHeader::LEN + read;
    if len < required_len {
        return Ok(NextRecord::CutOff { required_len, len });
    }
    Ok(next)
}
