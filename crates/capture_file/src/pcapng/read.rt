ghost use Rattle.std.specs.Prelude.{◌<◌, ℕ, IfOk, List, OnErr, length};
ghost use Rattle.capture_file.specs.PcapngReading.{AreFirst, BeginsBlock, FailsAfter, FailsInBlock, ReadsAfter, ReadsNextBlock};

use crate::ByteOrder;
use crate::pcapng::{Block, BlockError, BlockHeader, MIN_BLOCK_LEN};
use capture_numbers::block::LAST_LEN;
use std::io::{self, Read};
use streams::{fill, fill_after, skip};

/// The next item in a pcapng file.
#[derive(Clone, Copy, Debug, PartialEq, Eq)]
pub enum NextBlock {
    /// A block. It is at the front of the buffer.
    Whole(BlockHeader),
    /// A block that is longer than the buffer. It was skipped.
    TooLong(BlockHeader),
    /// The end of the file. No byte is left.
    End,
    /// Bytes that are refused as a block. If the block is cut off, the file was read to its end.
    Refused(BlockError),
}

/// Reads the next block of a pcapng file into the buffer, in a section with this byte order. Use `Block::from_slice` on the buffer to get
/// the block with its body.
///
/// A block that is longer than the buffer is skipped, so that the next block can be read.
///
/// # Errors
///
/// The error of the first read that fails.
pub fn read_block<R: Read>(
    input: &mut R,
    section: ByteOrder,
    buffer: &mut [u8],
) -> io::Result<NextBlock>
    ensures reads { IfOk result (ReadsNextBlock section (R.remaining input.old) (R.remaining input.new) buffer.new) }
    ensures fails { OnErr result (FailsInBlock section (R.remaining input.old) (R.remaining input.new)) }
{
    let mut first = [0u8; MIN_BLOCK_LEN];
    let len = fill(input, &mut first)?;
    read_rest(input, section, &first[..len], buffer)
}

/// Reads the rest of a block, after its first bytes. If `first` has fewer than 12 bytes, nothing is read.
pub(crate) fn read_rest<R: Read>(
    input: &mut R,
    section: ByteOrder,
    first: &[u8],
    buffer: &mut [u8],
) -> io::Result<NextBlock>
    requires { AreFirst first.now (R.remaining input.old) }
    ensures reads { IfOk result (ReadsAfter section first.now (R.remaining input.old) (R.remaining input.new) buffer.new) }
    ensures fails { OnErr result (FailsAfter section first.now (R.remaining input.old) (R.remaining input.new)) }
{
    if first.is_empty() {
        return Ok(NextBlock::End);
    }
    let header = match BlockHeader::from_slice(section, first) {
        Ok(header) => header,
        Err(error) => return Ok(NextBlock::Refused(error)),
    };
    let total_len = header.total_len as usize;
    if buffer.len() < total_len {
        return pass_over(input, section, header, first);
    }
    let len = fill_after(input, first, &mut buffer[..total_len])?;
    match Block::from_slice(section, &buffer[..len]) {
        Ok(_) => Ok(NextBlock::Whole(header)),
        Err(error) => Ok(NextBlock::Refused(error)),
    }
}

/// Skips the rest of a block that is longer than the buffer, after its first bytes.
fn pass_over<R: Read>(
    input: &mut R,
    section: ByteOrder,
    header: BlockHeader,
    first: &[u8],
) -> io::Result<NextBlock>
    requires { BeginsBlock section first.now header }
    ensures reads { IfOk result (λ next. (buffer : List ℕ) → length buffer < header.total_len
        → ReadsAfter section first.now (R.remaining input.old) (R.remaining input.new) buffer next) }
    ensures fails { OnErr result (FailsAfter section first.now (R.remaining input.old) (R.remaining input.new)) }
{
    let required_len = header.total_len as usize;
    if required_len == MIN_BLOCK_LEN {
        return match Block::from_slice(section, first) {
            Ok(_) => Ok(NextBlock::TooLong(header)),
            Err(error) => Ok(NextBlock::Refused(error)),
        };
    }
    let middle_len = required_len - MIN_BLOCK_LEN - LAST_LEN;
    let skipped = skip(input, middle_len)?;
    if skipped < middle_len {
        let len = MIN_BLOCK_LEN + skipped;
        return Ok(NextBlock::Refused(BlockError::CutOff { required_len, len }));
    }
    let mut last = [0u8; LAST_LEN];
    let len = fill(input, &mut last)?;
    if len < LAST_LEN {
        let len = MIN_BLOCK_LEN + middle_len + len;
        return Ok(NextBlock::Refused(BlockError::CutOff { required_len, len }));
    }
    let last_len = header.byte_order.number(last);
    if last_len != header.total_len {
        return Ok(NextBlock::Refused(BlockError::LastLength {
            total_len: header.total_len,
            last_len,
        }));
    }
    Ok(NextBlock::TooLong(header))
}
