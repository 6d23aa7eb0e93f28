ghost use Rattle.std.specs.Prelude.{◌≡◌, ◌+◌, ◌-◌, ℕ, IfOk, IfSome, OnErr, [], length};
ghost use Rattle.capture_file.specs.Opening.{ReadsRestOfBlock};
ghost use Rattle.capture_file.specs.Packets.{IsNextWithin, IsWithin};
ghost use Rattle.capture_file.specs.PcapngReading.{AreFirst, FailsInBlock};
ghost use Rattle.capture_file.specs.PcapngSteps.{FailsToPass, ReadsBlockPacket, ReadsStep, next_by_too_long};
ghost use Rattle.capture_file.specs.Sections.{TakesBlock};

use crate::pcapng::{
    Block, BlockBody, BlockError, BlockHeader, InterfaceDescription, MIN_BLOCK_LEN, NextBlock,
    SectionHeader, read_block, read_rest,
};
use crate::reader::{CapturedPacket, NextPacket, PacketError, PlacedPacketError, TooLongPacket};
use crate::{ByteOrder, FileTexts};
use arrayvec::ArrayVec;
use capture_numbers::block::{
    BODY_AT, ENHANCED_PACKET, INTERFACE_DESCRIPTION, LAST_LEN, OBSOLETE_PACKET, SECTION_HEADER,
    SIMPLE_PACKET,
};
use std::io::{self, ErrorKind, Read};

/// A reader of the packets of a pcapng file.
#[derive(Clone, Debug, Drop)]
pub struct PcapngReader {
    /// The section that contains the next block.
    pub section: Section,
    /// The place at which the next block begins, in bytes from the start of the file. The count stops at 2^64 - 1.
    pub offset: u64,
    /// The texts of the section, and the number of packets with a comment.
    pub texts: FileTexts,
}

impl PcapngReader {
    /// Reads the section header block at the start of a pcapng file. `first` contains the first bytes of this block, which were already
    /// read.
    pub(crate) fn open<R: Read>(
        input: &mut R,
        first: &[u8],
        buffer: &mut [u8],
    ) -> io::Result<Result<PcapngReader, PacketError>>
        requires { AreFirst first.now (R.remaining input.old) }
        ensures { IfOk result (ReadsRestOfBlock first.now (R.remaining input.old) (R.remaining input.new) buffer.new) }
    {
        Ok(
            match read_rest(input, ByteOrder::BigEndian, first, buffer)? {
                NextBlock::Whole(header) => {
                    let body = &buffer[BODY_AT..header.total_len as usize - LAST_LEN];
                    let section = Section::new(header.byte_order);
                    let offset = u64::from(header.total_len);
                    let mut texts = FileTexts::new();
                    texts.note(header.byte_order, header.block_type, body);
                    match SectionHeader::from_body(header.byte_order, body) {
                        Ok(_) => Ok(PcapngReader {
                            section,
                            offset,
                            texts,
                        }),
                        Err(error) => Err(PacketError::Body(error)),
                    }
                }
                NextBlock::TooLong(header) => Err(PacketError::TooLong {
                    block_type: header.block_type,
                    total_len: header.total_len,
                }),
                NextBlock::End => Err(PacketError::Block(BlockError::CutOff {
                    required_len: MIN_BLOCK_LEN,
                    len: 0,
                })),
                NextBlock::Refused(error) => Err(PacketError::Block(error)),
            },
        )
    }

    /// Reads blocks until a block contains a packet or is refused, or until the file ends. If the item is a whole packet, the buffer
    /// contains its captured bytes after the call.
    ///
    /// # Errors
    ///
    /// The error of the first read that fails, and `FileTooLarge` after 2^64 - 1 blocks without a packet.
    pub fn next_packet<R: Read>(
        &mut self,
        input: &mut R,
        buffer: &mut [u8],
    ) -> io::Result<NextPacket>
        ensures reads { IfOk result (ReadsBlockPacket self.old (R.remaining input.old) (R.remaining input.new) self.new buffer.new) }
        ensures within { IfOk result (IsNextWithin (length buffer.new)) }
        ensures fails { OnErr result (FailsToPass (length buffer.old) self.old (R.remaining input.old) (R.remaining input.new) self.new) }
    {
        for _passed in 0..u64::MAX {
            if let Some(next) = self.read_step(input, buffer)? {
                return Ok(next);
            }
        }
        Err(io::Error::from(ErrorKind::FileTooLarge))
    }

    /// Reads one block. Returns `None` if the block contains no packet and is not refused. Then the caller reads the next block.
    fn read_step<R: Read>(
        &mut self,
        input: &mut R,
        buffer: &mut [u8],
    ) -> io::Result<Option<NextPacket>>
        ensures reads { IfOk result (ReadsStep self.old (R.remaining input.old) (R.remaining input.new) self.new buffer.new) }
        ensures within { IfOk result (λ next. IfSome next (IsNextWithin (length buffer.new))) }
        ensures unchanged { OnErr result (self.new ≡ self.old) }
        ensures fails { OnErr result (FailsInBlock self.old.section.byte_order (R.remaining input.old) (R.remaining input.new)) }
    {
        let offset = self.offset;
        let refused = |error| Some(NextPacket::Refused(PlacedPacketError { offset, error }));
        match read_block(input, self.section.byte_order, buffer)? {
            NextBlock::Whole(header) => {
                self.offset = offset.saturating_add(u64::from(header.total_len));
                let body = &buffer[BODY_AT..header.total_len as usize - LAST_LEN];
                match self.section.take(&Block { header, body }) {
                    Ok(packet) => {
                        self.texts.note(header.byte_order, header.block_type, body);
                        match packet {
                            Some(packet) => Ok(Some(NextPacket::Whole(packet))),
                            None => Ok(None),
                        }
                    }
                    Err(error) => Ok(refused(error)),
                }
            }
            NextBlock::TooLong(header) => {
                self.offset = offset.saturating_add(u64::from(header.total_len));
                Ok(next_by_too_long(offset, header))
            }
            NextBlock::End => Ok(Some(NextPacket::End)),
            NextBlock::Refused(BlockError::CutOff { required_len, len }) => {
                Ok(Some(NextPacket::CutOff { required_len, len }))
            }
            NextBlock::Refused(error) => Ok(refused(PacketError::Block(error))),
        }
    }
}

/// Returns the next item after a block that is longer than the buffer. The result is `None` if the block is skipped, since it contains no
/// packet, and later packets can be read without it.
fn next_by_too_long(offset: u64, header: BlockHeader) -> Option<NextPacket>
    ensures next { result ≡ next_by_too_long offset header }
    ensures within { (len : ℕ) → IfSome result (IsNextWithin len) }
{
    match header.block_type {
        SECTION_HEADER | INTERFACE_DESCRIPTION => Some(NextPacket::Refused(PlacedPacketError {
            offset,
            error: PacketError::TooLong {
                block_type: header.block_type,
                total_len: header.total_len,
            },
        })),
        OBSOLETE_PACKET | SIMPLE_PACKET | ENHANCED_PACKET => {
            Some(NextPacket::TooLong(TooLongPacket {
                link_type: None,
                time: None,
                required_len: header.total_len,
                original_len: None,
            }))
        }
        _ => None,
    }
}

/// The greatest number of interfaces of a section. A further interface description is refused.
pub const MAX_INTERFACES: usize = 1024;

/// The current section of a pcapng file, as the blocks read so far describe it. Reading the later packets of the section depends on this
/// state.
#[derive(Clone, Debug, Drop)]
pub struct Section {
    /// The byte order of the numbers in the section.
    pub byte_order: ByteOrder,
    /// The interfaces of the section, in the order in which the file describes them.
    pub interfaces: ArrayVec<InterfaceDescription, MAX_INTERFACES>,
}

impl Section {
    /// Returns a section that describes no interface yet.
    pub fn new(byte_order: ByteOrder) -> Section
        ensures byte_order { result.byte_order ≡ byte_order }
        ensures interfaces { result.interfaces.items ≡ [] }
    {
        Section {
            byte_order,
            interfaces: ArrayVec::new(),
        }
    }

    /// Updates the section with the next block of the file. A section header block begins a new section. An interface description adds an
    /// interface. If the block is a packet block, the call returns its packet.
    ///
    /// # Errors
    ///
    /// - `Body` if the body of the block is refused.
    /// - `Interfaces` if the block describes an interface, and the section already has `MAX_INTERFACES` interfaces.
    pub fn take(&mut self, block: &Block<'_>) -> Result<Option<CapturedPacket>, PacketError>
        ensures takes { TakesBlock self.old block.now.header block.now.body.now self.new result }
        ensures within { IfOk result (λ given. IfSome given (IsWithin (8 + length block.now.body.now))) }
    {
        let interfaces = self.interfaces.as_slice();
        match BlockBody::from_block(block, interfaces).map_err(PacketError::Body)? {
            BlockBody::SectionHeader(_) => {
                self.byte_order = block.header.byte_order;
                self.interfaces.clear();
            }
            BlockBody::InterfaceDescription(interface) => {
                let max = MAX_INTERFACES;
                if self.interfaces.is_full() {
                    return Err(PacketError::Interfaces { max });
                }
                self.interfaces.push(interface);
            }
            BlockBody::Packet(packet) => {
                let interface = interfaces[packet.interface as usize];
                return Ok(Some(CapturedPacket::from_block(block.header, interface, &packet)));
            }
            BlockBody::Other => {}
        }
        Ok(None)
    }
}
