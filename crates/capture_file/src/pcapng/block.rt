ghost use Rattle.std.specs.Prelude.{◌≡◌, ◌+◌, ◌%◌, ◌≤◌, IfErr, IfOk, IfSome, Some, false, length, true};
ghost use Rattle.net_base.specs.Refusals.{RefusesExactly};
ghost use Rattle.std.specs.Iterator.{UpTo, at_most};
ghost use Rattle.std.specs.Iterator.Runs.{EachRunFrom};
ghost use Rattle.std.specs.Iterator.SizeHint.{IsWithinCount};
ghost use Rattle.capture_file.specs.PcapngBlocks.{AreItems, GivesBlock, UnreadFile};
ghost use Rattle.capture_numbers.specs.declared.byte_order.ByteOrder.TheVariants.{BigEndian};
ghost use Rattle.capture_file.specs.Pcapng as specs;

use crate::ByteOrder;
use crate::pcapng::BlockError;
use capture_numbers::block::{BODY_AT, LAST_LEN, SECTION_HEADER, SECTION_HEADER_LEN};
use std::marker::Model;
use thiserror::Error;

/// A block (draft-ietf-opsawg-pcapng, section 3.1).
#[derive(Clone, Copy, Debug, PartialEq, Eq)]
pub struct Block<'a> {
    /// The header at the front of the block.
    pub header: BlockHeader,
    /// The bytes between the two total lengths of the block, padding included.
    pub body: &'a [u8],
}

impl<'a> Block<'a> {
    /// Returns the block at the front of these bytes, and the bytes after it. `section` is the byte order of the section. For the first
    /// block of a file, any byte order works.
    ///
    /// # Errors
    ///
    /// The errors of `BlockHeader::from_slice`, and then in this order:
    /// - `CutOff` if there are fewer bytes than the block contains
    /// - `LastLength` if the total length in the last four bytes of the block differs from the total length in bytes 4 to 7
    pub fn from_slice(
        section: ByteOrder,
        bytes: &'a [u8],
    ) -> Result<(Block<'a>, &'a [u8]), BlockError>
        ensures refused { RefusesExactly result (specs.block_refusal section bytes.now) }
        ensures read { IfOk result (λ read. specs.ReadsBlock section bytes.now read.0 read.1.now) }
        ensures shorter { IfOk result (λ read. length read.1.now + 12 ≤ length bytes.now) }
    {
        let header = BlockHeader::from_slice(section, bytes)?;
        let (required_len, len) = (header.total_len as usize, bytes.len());
        if len < required_len {
            return Err(BlockError::CutOff { required_len, len });
        }
        let last_len = header.byte_order.number_in(bytes, required_len - LAST_LEN);
        if last_len != header.total_len {
            return Err(BlockError::LastLength {
                total_len: header.total_len,
                last_len,
            });
        }
        let body = &bytes[BODY_AT..required_len - LAST_LEN];
        Ok((Block { header, body }, &bytes[required_len..]))
    }
}

/// The length of the shortest block, in bytes: its type and its two total lengths (draft-ietf-opsawg-pcapng, section 3.1).
pub const MIN_BLOCK_LEN: usize = BODY_AT + LAST_LEN;

/// The length of a section header block without options, in bytes (section 4.1).
const MIN_SECTION_HEADER_LEN: u32 = (MIN_BLOCK_LEN + SECTION_HEADER_LEN) as u32;

/// The byte-order magic of a section header block (section 4.1).
const BYTE_ORDER_MAGIC: u32 = 0x1A2B_3C4D;

/// The first 12 bytes of a block (section 3.1).
#[derive(Clone, Copy, Debug, PartialEq, Eq)]
pub struct BlockHeader {
    /// The byte order of the numbers in the block. All blocks of a section have the byte order that the magic of its section header block
    /// states.
    pub byte_order: ByteOrder,
    /// The type of the block, in bytes 0 to 3.
    pub block_type: u32,
    /// The length of the block in bytes. The block states it in bytes 4 to 7 and in its last four bytes. It is at least 12, and a multiple
    /// of 4.
    pub total_len: u32,
}

impl BlockHeader {
    /// Reads the header of the block at the front of these bytes, in a section with this byte order.
    ///
    /// # Errors
    ///
    /// In this order:
    /// - `CutOff` if there are fewer than 12 bytes
    /// - `Magic` if a section header block has no byte-order magic
    /// - `TotalLength` if the number in bytes 4 to 7 is below 12, or is not a multiple of 4
    /// - `SectionLength` if a section header block is too short for its fields
    pub fn from_slice(section: ByteOrder, bytes: &[u8]) -> Result<BlockHeader, BlockError>
        ensures refused { RefusesExactly result (specs.block_header_refusal section bytes.now) }
        ensures read { IfOk result (λ header. header ≡ specs.block_header section bytes.now) }
        ensures within { IfOk result (λ header. 12 ≤ length bytes.now) }
        ensures len { IfOk result (λ header. (12 ≤ header.total_len) × (header.total_len % 4 ≡ 0)) }
    {
        let (required_len, len) = (MIN_BLOCK_LEN, bytes.len());
        if len < required_len {
            return Err(BlockError::CutOff { required_len, len });
        }
        let byte_order = order_of(section, bytes)?;
        let total_len = byte_order.number_in(bytes, 4);
        if total_len < MIN_BLOCK_LEN as u32 || total_len % 4 != 0 {
            return Err(BlockError::TotalLength { total_len });
        }
        if total_len < MIN_SECTION_HEADER_LEN && is_section_header(bytes) {
            return Err(BlockError::SectionLength { total_len });
        }
        Ok(BlockHeader {
            byte_order,
            block_type: byte_order.number_in(bytes, 0),
            total_len,
        })
    }
}

/// The byte order of a block, or the error `Magic` for a section header block without a byte-order magic.
fn order_of(section: ByteOrder, bytes: &[u8]) -> Result<ByteOrder, BlockError>
    requires { 12 ≤ length bytes.now }
    ensures order { IfOk result (λ order. (specs.lacks_magic bytes.now ≡ false) × (order ≡ specs.order_of section bytes.now)) }
    ensures refused { IfErr result (λ error. specs.block_header_refusal section bytes.now ≡ Some error) }
{
    let magic = ByteOrder::BigEndian.number_in(bytes, 8);
    if !is_section_header(bytes) {
        return Ok(section);
    }
    if magic == BYTE_ORDER_MAGIC {
        return Ok(ByteOrder::BigEndian);
    }
    if ByteOrder::LittleEndian.number_in(bytes, 8) == BYTE_ORDER_MAGIC {
        return Ok(ByteOrder::LittleEndian);
    }
    Err(BlockError::Magic { magic })
}

/// Whether these bytes begin with the type of a section header block.
pub(crate) fn is_section_header(bytes: &[u8]) -> bool
    ensures { result ≡ specs.is_section_header bytes.now }
{
    bytes.len() >= 4 && ByteOrder::BigEndian.number_in(bytes, 0) == SECTION_HEADER
}

/// The reason why a block of a file is refused, and its place.
#[derive(Clone, Copy, Debug, PartialEq, Eq, Error)]
#[error("At byte {offset} of the file: {error}")]
pub struct PlacedBlockError {
    /// The start of the block, in bytes from the start of the file.
    pub offset: usize,
    /// The reason why the block is refused.
    pub error: BlockError,
}

/// An iterator over the blocks of a pcapng file in memory. It ends at the end of the file or after the first refused block.
///
/// After `None` or an error no bytes are left, and `next` returns `None`.
#[derive(Clone, Drop)]
pub struct Blocks<'a> {
    section: ByteOrder,
    rest: &'a [u8],
    file_len: usize,
}

impl<'a> Model for Blocks<'a> {
    ghost Value = { UnreadFile };

    ghost view = { λ blocks. record { section = blocks.section; rest = blocks.rest.now; file_len = blocks.file_len } };
}

impl<'a> Blocks<'a> {
    /// Begins at the first block of this file.
    pub fn new(file: &'a [u8]) -> Blocks<'a>
        ensures section { result.section ≡ BigEndian }
        ensures rest { result.rest ≡ file.now }
        ensures file_len { result.file_len ≡ length file.now }
        ensures reads { EachRunFrom GivesBlock result (λ run. run.whole ≡ true → AreItems result.section file.now run.items) }
    {
        Blocks {
            section: ByteOrder::BigEndian,
            rest: file,
            file_len: file.len(),
        }
    }
}

impl<'a> Iterator for Blocks<'a> {
    type Item = Result<Block<'a>, PlacedBlockError>;

    ghost next_gives = { GivesBlock };

    ghost remaining = { λ blocks. at_most (length blocks.rest) };

    fn next(&mut self) -> Option<Result<Block<'a>, PlacedBlockError>> {
        let bytes = self.rest;
        if bytes.is_empty() {
            return None;
        }
        match Block::from_slice(self.section, bytes) {
            Ok((block, rest)) => {
                self.section = block.header.byte_order;
                self.rest = rest;
                Some(Ok(block))
            }
            Err(error) => {
                let offset = self.file_len.saturating_sub(bytes.len());
                self.rest = &bytes[bytes.len()..];
                Some(Err(PlacedBlockError { offset, error }))
            }
        }
    }

    /// The number of blocks is not known in advance.
    fn size_hint(&self) -> (usize, Option<usize>)
        ensures lower { IsWithinCount result.0 (at_most (length self.now.rest)) }
        ensures upper { IfSome result.1 (UpTo (at_most (length self.now.rest))) }
        ensures none_promised { result.0 ≡ 0 }
    {
        (0, None)
    }
}
