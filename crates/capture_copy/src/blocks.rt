//! The blocks of a pcapng file (draft-ietf-opsawg-pcapng, section 3.1).

ghost use Rattle.std.specs.Prelude.{◌≡◌, ◌<◌, ◌≤◌, ℕ, IfErr, IfOk, IfSome, List, Ok, OnErr, Option, false, length, true};
ghost use Rattle.std.specs.Io.KnownBytes.{Consumes, IsAtEnd};
ghost use Rattle.capture_copy.specs.Blocks.{EndsWithLast, HasLongOutcome, IsFileStart, IsRefusedBy, Takes, VisitsTaken, blocks_of, copy_of, place_after, refused_by, writes_front};
ghost use Rattle.capture_copy.specs.Passing.{PassesAny, PassesGiven, PassesTo};
ghost use Rattle.capture_copy.specs.Visits.{EndsWithEnough, is_written_with};
ghost use Rattle.capture_copy.specs.declared.copier.TheConstants.{BUFFER_LEN};
ghost use Rattle.capture_copy.specs.declared.extent.Extent.TheVariants.{Whole};
ghost use Rattle.capture_file.specs.Packets.{IsWithin};
ghost use Rattle.capture_file.specs.Pcapng.{is_section_header};
ghost use Rattle.capture_file.specs.PcapngReading.{AreFirst, BeginsBlock};

use crate::transfer::{pass_long, read_after, read_into, write_if};
use crate::visitor::{count_if, is_written};
use crate::{BUFFER_LEN, Copier, Extent, PartError, Place, Visitor, is_pcapng};
use capture_file::ByteOrder;
use capture_file::pcapng::{Block, BlockError, BlockHeader, MIN_BLOCK_LEN};
use capture_file::reader::{CapturedPacket, PacketError, PlacedPacketError, Section};
use capture_numbers::block::{
    BODY_AT, ENHANCED_PACKET, INTERFACE_DESCRIPTION, LAST_LEN, OBSOLETE_PACKET, SECTION_HEADER,
    SECTION_HEADER_LEN, SIMPLE_PACKET,
};
use std::io::{Read, Write};

/// The offset of the section length in a section header block (section 4.1).
const SECTION_LEN_AT: usize = 16;

/// The offset of the options in a section header block (section 4.1).
const SECTION_OPTIONS_AT: usize = BODY_AT + SECTION_HEADER_LEN;

/// The section length -1, which means that a section header block does not state the length of its section (section 4.1).
const NOT_SPECIFIED: [u8; 8] = [0xFF; 8];

/// The state of a copy after some blocks of a pcapng file.
#[derive(Drop)]
pub struct Blocks {
    /// The section that contains the next block.
    pub section: Section,
    /// The place of the next block.
    pub place: Place,
}

impl Blocks {
    /// Returns the state at the start of a file. The byte order does not matter, since the section header block states its own.
    pub fn start() -> Blocks
        ensures { IsFileStart result }
    {
        Blocks {
            section: Section::new(ByteOrder::BigEndian),
            place: Place {
                number: 1,
                offset: 0,
            },
        }
    }

    /// If the copy ends within the next block: whether its first bytes are written. Nothing is written of the first block of a file.
    fn writes_front<V: Visitor>(&self, visitor: &V) -> bool
        ensures { result ≡ writes_front (V.visits visitor.now) self.now.place }
    {
        visitor.writes_all() && self.place.offset != 0
    }
}

impl Place {
    /// The place after a block with this header. The block contains a packet or not.
    fn after_block(self, header: &BlockHeader, has_packet: bool) -> Place
        ensures { result ≡ place_after self header.now has_packet }
    {
        let number = if has_packet {
            self.number.saturating_add(1)
        } else {
            self.number
        };
        Place {
            number,
            offset: self.offset.saturating_add(u64::from(header.total_len)),
        }
    }
}

/// The error of a copy if this error refuses the block at this place, or if the block is cut off.
fn refused(place: Place, error: PacketError) -> PartError
    ensures { result ≡ refused_by place error }
{
    match error {
        PacketError::Block(BlockError::CutOff { required_len, len }) => PartError::CutOff {
            place,
            required_len,
            len,
        },
        error => PartError::Refused(PlacedPacketError {
            offset: place.offset,
            error,
        }),
    }
}

/// Copies the blocks of a pcapng file, and visits the packet of each block that contains one. Returns how far the file was copied.
///
/// `begin` contains the first 12 bytes of the file, or fewer if the file ends before, which the caller has already read. It is not empty.
/// `visitor.is_enough(counts)` is `false` before the call.
///
/// # Errors
///
/// `CutOff`, `Refused` and `Read` contain the place of the block in which the copy ended. `Write` is the error of the first write that
/// fails. `TooManyParts` is returned only after `Visitor::max_parts` blocks.
pub fn copy_blocks<R: Read, W: Write, V: Visitor>(
    copier: &mut Copier<'_, R, W>,
    begin: &[u8],
    blocks: &mut Blocks,
    visitor: &V,
    counts: &mut V::Counts,
) -> Result<Extent, PartError>
    requires begin { AreFirst begin.now (R.remaining copier.old.input) }
    requires some { 1 ≤ length begin.now }
    requires below { V.is_enough visitor.now counts.old ≡ false }
    ensures passes { (left : Option (List ℕ)) → Consumes left (R.remaining copier.old.input) begin.now
        → PassesTo (blocks_of (V.visits visitor.now)) result blocks.old blocks.new left (R.remaining copier.new.input)
        (W.contents copier.old.output) (W.contents copier.new.output) counts.old counts.new }
    ensures ends { result ≡ Ok Whole → IsAtEnd (R.remaining copier.new.input) }
    ensures enough { EndsWithEnough (V.is_enough visitor.now counts.new) result }
    ensures holds { V.holds visitor.now counts.old → V.holds visitor.now counts.new }
{
    let outcome = copy_block(copier, begin, blocks, visitor)?;
    count_if(visitor, counts, outcome);
    copy_others(copier, blocks, visitor, counts)
}

/// Copies the blocks of a pcapng file after its first block, and visits their packets. Returns how far the file was copied.
fn copy_others<R: Read, W: Write, V: Visitor>(
    copier: &mut Copier<'_, R, W>,
    blocks: &mut Blocks,
    visitor: &V,
    counts: &mut V::Counts,
) -> Result<Extent, PartError>
    ensures passes { PassesTo (blocks_of (V.visits visitor.now)) result blocks.old blocks.new (R.remaining copier.old.input)
        (R.remaining copier.new.input) (W.contents copier.old.output) (W.contents copier.new.output) counts.old counts.new }
    ensures ends { result ≡ Ok Whole → IsAtEnd (R.remaining copier.new.input) }
    ensures enough { EndsWithEnough (V.is_enough visitor.now counts.new) result }
    ensures holds { V.holds visitor.now counts.old → V.holds visitor.now counts.new }
{
    for _block in 0..visitor.max_parts() {
        if visitor.is_enough(counts) {
            return Ok(Extent::Enough);
        }
        let is_block = copy_next(copier, blocks, visitor, counts)?;
        if !is_block {
            return Ok(Extent::Whole);
        }
    }
    Err(PartError::TooManyParts)
}

/// Copies the next block, and visits its packet. Returns `false` if there is no next block.
fn copy_next<R: Read, W: Write, V: Visitor>(
    copier: &mut Copier<'_, R, W>,
    blocks: &mut Blocks,
    visitor: &V,
    counts: &mut V::Counts,
) -> Result<bool, PartError>
    ensures passes { PassesAny (blocks_of (V.visits visitor.now)) result blocks.old blocks.new (R.remaining copier.old.input)
        (R.remaining copier.new.input) (W.contents copier.old.output) (W.contents copier.new.output) counts.old counts.new }
    ensures ends { result ≡ Ok false → IsAtEnd (R.remaining copier.new.input) }
    ensures holds { V.is_enough visitor.now counts.old ≡ false → V.holds visitor.now counts.old → V.holds visitor.now counts.new }
{
    let mut first = [0u8; MIN_BLOCK_LEN];
    let len = read_into(&mut copier.input, &mut first, blocks.place)?;
    if len == 0 {
        return Ok(false);
    }
    let outcome = copy_block(copier, &first[..len], blocks, visitor)?;
    count_if(visitor, counts, outcome);
    Ok(true)
}

/// Copies a block whose first bytes were already read, and returns the outcome of its packet, if it contains one.
fn copy_block<R: Read, W: Write, V: Visitor>(
    copier: &mut Copier<'_, R, W>,
    first: &[u8],
    blocks: &mut Blocks,
    visitor: &V,
) -> Result<Option<V::Outcome>, PartError>
    requires first { AreFirst first.now (R.remaining copier.old.input) }
    requires some { 1 ≤ length first.now }
    ensures passes { (left : Option (List ℕ)) → Consumes left (R.remaining copier.old.input) first.now
        → PassesGiven (blocks_of (V.visits visitor.now)) result
        blocks.old blocks.new left (R.remaining copier.new.input) (W.contents copier.old.output) (W.contents copier.new.output) }
{
    let header = match BlockHeader::from_slice(blocks.section.byte_order, first) {
        Ok(header) => header,
        Err(error) => {
            let writes_front = blocks.writes_front(visitor);
            write_if(&mut copier.output, first, &[], writes_front)?;
            return Err(refused(blocks.place, PacketError::Block(error)));
        }
    };
    if header.total_len as usize > BUFFER_LEN {
        copy_long(copier, first, &header, blocks, visitor)
    } else {
        copy_kept(copier, first, &header, blocks, visitor)
    }
}

/// Reads the rest of a block into the buffer after its first bytes, and visits its packet.
fn copy_kept<R: Read, W: Write, V: Visitor>(
    copier: &mut Copier<'_, R, W>,
    first: &[u8],
    header: &BlockHeader,
    blocks: &mut Blocks,
    visitor: &V,
) -> Result<Option<V::Outcome>, PartError>
    requires header { BeginsBlock blocks.old.section.byte_order first.now header.now }
    requires room { header.now.total_len ≤ BUFFER_LEN }
    ensures passes { (left : Option (List ℕ)) → Consumes left (R.remaining copier.old.input) first.now
        → PassesGiven (blocks_of (V.visits visitor.now)) result
        blocks.old blocks.new left (R.remaining copier.new.input) (W.contents copier.old.output) (W.contents copier.new.output) }
{
    let writes_front = blocks.writes_front(visitor);
    let block = &mut copier.buffer[..header.total_len as usize];
    let len = read_after(&mut copier.input, first, block, blocks.place)?;
    let taken = match take_block(&mut blocks.section, &block[..len]) {
        Ok(taken) => taken,
        Err(error) => {
            write_if(&mut copier.output, &block[..len], &[], writes_front)?;
            return Err(refused(blocks.place, error));
        }
    };
    let outcome = visit_taken(block, taken, visitor);
    write_if(&mut copier.output, block, &[], is_written(visitor, outcome))?;
    blocks.place = blocks.place.after_block(header, outcome.is_some());
    Ok(outcome)
}

/// Updates the section with the block in these bytes. Returns the packet in the block, if it contains one.
fn take_block(section: &mut Section, bytes: &[u8]) -> Result<Option<CapturedPacket>, PacketError>
    ensures takes { IfOk result (Takes section.old bytes.now section.new) }
    ensures within { IfOk result (λ taken. IfSome taken (IsWithin (length bytes.now))) }
    ensures refused { IfErr result (IsRefusedBy section.old bytes.now) }
{
    match Block::from_slice(section.byte_order, bytes) {
        Ok((block, _)) => section.take(&block),
        Err(error) => Err(PacketError::Block(error)),
    }
}

/// Visits the packet in a block, and returns its outcome. If the block contains no packet, its copy is prepared.
fn visit_taken<V: Visitor>(
    block: &mut [u8],
    taken: Option<CapturedPacket>,
    visitor: &V,
) -> Option<V::Outcome>
    requires within { IfSome taken (IsWithin (length block.old)) }
    requires len { is_section_header block.old ≡ true → 24 ≤ length block.old }
    ensures visits { VisitsTaken (V.visits visitor.now) taken block.old block.new result }
{
    match taken {
        Some(packet) => {
            let frame = &mut block[packet.start..packet.start + packet.captured_len];
            Some(visitor.visit(&packet, frame))
        }
        None => {
            if !visitor.writes_all() {
                forget_section_len(block);
            }
            None
        }
    }
}

/// Sets the section length of a section header block to -1, since blocks of the section may be left out. Any other block is unchanged.
fn forget_section_len(block: &mut [u8])
    requires len { is_section_header block.old ≡ true → 24 ≤ length block.old }
    ensures copy { block.new ≡ copy_of false block.old }
{
    if is_pcapng(block) {
        block[SECTION_LEN_AT..SECTION_OPTIONS_AT].copy_from_slice(&NOT_SPECIFIED);
    }
}

/// Copies a block that does not fit in the buffer, and visits its packet. If the file ends within the block, the bytes before the end may
/// have been written.
fn copy_long<R: Read, W: Write, V: Visitor>(
    copier: &mut Copier<'_, R, W>,
    first: &[u8],
    header: &BlockHeader,
    blocks: &mut Blocks,
    visitor: &V,
) -> Result<Option<V::Outcome>, PartError>
    requires header { BeginsBlock blocks.old.section.byte_order first.now header.now }
    requires room { BUFFER_LEN < header.now.total_len }
    ensures passes { (left : Option (List ℕ)) → Consumes left (R.remaining copier.old.input) first.now
        → PassesGiven (blocks_of (V.visits visitor.now)) result
        blocks.old blocks.new left (R.remaining copier.new.input) (W.contents copier.old.output) (W.contents copier.new.output) }
{
    let place = blocks.place;
    let writes_front = blocks.writes_front(visitor);
    let visited = visit_long(header, visitor);
    let is_written = is_long_written(&visited, visitor, writes_front);
    let middle_len = header.total_len as usize - MIN_BLOCK_LEN - LAST_LEN;
    let len = pass_long(copier, first, middle_len, is_written, place)?;
    if len < middle_len {
        return Err(PartError::CutOff {
            place,
            required_len: header.total_len as usize,
            len: MIN_BLOCK_LEN + len,
        });
    }
    let last = read_last(copier, header, place, writes_front)?;
    write_if(&mut copier.output, &last, &[], is_written)?;
    match visited {
        Ok(outcome) => {
            blocks.place = place.after_block(header, outcome.is_some());
            Ok(outcome)
        }
        Err(error) => Err(refused(place, error)),
    }
}

/// The outcome of a block that does not fit in the buffer, or `None` if the block contains no packet.
///
/// # Errors
///
/// `TooLong` if later packets can't be read without the block.
fn visit_long<V: Visitor>(
    header: &BlockHeader,
    visitor: &V,
) -> Result<Option<V::Outcome>, PacketError>
    ensures { HasLongOutcome (V.visits visitor.now) header.now result }
{
    match header.block_type {
        SECTION_HEADER | INTERFACE_DESCRIPTION => Err(PacketError::TooLong {
            block_type: header.block_type,
            total_len: header.total_len,
        }),
        ENHANCED_PACKET | OBSOLETE_PACKET | SIMPLE_PACKET => {
            Ok(Some(visitor.visit_long(header.total_len, None)))
        }
        _ => Ok(None),
    }
}

/// Whether a block that does not fit in the buffer is written. `writes_front` states whether a refused block is written.
fn is_long_written<V: Visitor>(
    visited: &Result<Option<V::Outcome>, PacketError>,
    visitor: &V,
    writes_front: bool,
) -> bool
    requires all { writes_front ≡ true → (V.visits visitor.now).writes_all ≡ true }
    ensures kept { IfOk visited.now (λ outcome. result ≡ is_written_with (V.visits visitor.now) outcome) }
    ensures refused { OnErr visited.now (result ≡ writes_front) }
    ensures each { writes_front ≡ true → result ≡ true }
{
    match visited {
        Ok(outcome) => is_written(visitor, *outcome),
        Err(_) => writes_front,
    }
}

/// Reads the last field of a block that does not fit in the buffer. If the file ends within the field, or the field differs from the total
/// length of the block, `writes_front` states whether the bytes of the field are written.
fn read_last<R: Read, W: Write>(
    copier: &mut Copier<'_, R, W>,
    header: &BlockHeader,
    place: Place,
    writes_front: bool,
) -> Result<[u8; LAST_LEN], PartError>
    requires room { BUFFER_LEN < header.now.total_len }
    ensures ends { EndsWithLast header.now place writes_front result (R.remaining copier.old.input) (R.remaining copier.new.input)
        (W.contents copier.old.output) (W.contents copier.new.output) }
{
    let total_len = header.total_len;
    let mut last = [0u8; LAST_LEN];
    let len = read_into(&mut copier.input, &mut last, place)?;
    if len < LAST_LEN {
        write_if(&mut copier.output, &last[..len], &[], writes_front)?;
        return Err(PartError::CutOff {
            place,
            required_len: total_len as usize,
            len: total_len as usize - LAST_LEN + len,
        });
    }
    let last_len = header.byte_order.number(last);
    if last_len != total_len {
        write_if(&mut copier.output, &last, &[], writes_front)?;
        let error = BlockError::LastLength {
            total_len,
            last_len,
        };
        return Err(refused(place, PacketError::Block(error)));
    }
    Ok(last)
}
