ghost use Rattle.std.specs.Prelude.{◌≡◌, ◌+◌, ◌<◌, ◌≤◌, IfOk, length};
ghost use Rattle.net_base.specs.Refusals.{RefusesExactly};
ghost use Rattle.capture_file.specs.PcapngBody.{IsBody, body_refusal};
ghost use Rattle.capture_file.specs.Sections.{IsBodyWithin, IsInterfaceThere};
ghost use Rattle.capture_file.specs.PcapngBodies.{section_header, section_header_refusal};
ghost use Rattle.capture_numbers.specs.Numbers.{number_at, short_at};
ghost use Rattle.capture_file.specs.PcapngPackets.{IsSimplePacket, IsTimedPacket, captured_refusal, simple_refusal, timed_refusal};

use crate::ByteOrder;
use crate::pcapng::{Block, BodyError, InterfaceDescription};
use capture_numbers::block::{
    ENHANCED_PACKET, INTERFACE_DESCRIPTION, OBSOLETE_PACKET, SECTION_HEADER, SECTION_HEADER_LEN,
    SIMPLE_CAPTURED_AT, SIMPLE_PACKET, TIMED_CAPTURED_AT, TIMED_CAPTURED_LEN_AT,
};

/// The content of the body of a block.
#[derive(Clone, Copy, Debug, PartialEq, Eq)]
pub enum BlockBody<'a> {
    /// The block begins a section, which has no interface yet.
    SectionHeader(SectionHeader),
    /// The block describes an interface. The number of the interface is the number of interfaces before it in the section.
    InterfaceDescription(InterfaceDescription),
    /// The block contains a packet. It is an enhanced, a simple or an obsolete packet block.
    Packet(PacketBlock<'a>),
    /// The block has another type, and contains no packet.
    Other,
}

impl<'a> BlockBody<'a> {
    /// Reads the body of a block. `interfaces` are the interfaces before the block in its section.
    ///
    /// # Errors
    ///
    /// The errors of the call that reads a body of this type, such as `SectionHeader::from_body`. A block of another type is not refused.
    pub fn from_block(
        block: &Block<'a>,
        interfaces: &[InterfaceDescription],
    ) -> Result<BlockBody<'a>, BodyError>
        ensures refused { RefusesExactly result (body_refusal block.now.header interfaces.now block.now.body.now) }
        ensures read { IfOk result (IsBody block.now.header interfaces.now block.now.body.now) }
        ensures interface { IfOk result (IsInterfaceThere (length interfaces.now)) }
        ensures within { IfOk result (IsBodyWithin block.now.header.block_type (length block.now.body.now)) }
    {
        let order = block.header.byte_order;
        let body = block.body;
        Ok(match block.header.block_type {
            SECTION_HEADER => Self::SectionHeader(SectionHeader::from_body(order, body)?),
            INTERFACE_DESCRIPTION => {
                Self::InterfaceDescription(InterfaceDescription::from_body(order, body)?)
            }
            ENHANCED_PACKET => Self::Packet(PacketBlock::from_enhanced(order, interfaces, body)?),
            OBSOLETE_PACKET => Self::Packet(PacketBlock::from_obsolete(order, interfaces, body)?),
            SIMPLE_PACKET => Self::Packet(PacketBlock::from_simple(order, interfaces, body)?),
            _ => Self::Other,
        })
    }
}

/// The content of a section header block (draft-ietf-opsawg-pcapng, section 4.1). The header of the block contains the byte order.
#[derive(Clone, Copy, Debug, PartialEq, Eq)]
pub struct SectionHeader {
    /// The major version of the section. It is always 1.
    pub major_version: u16,
    /// The minor version of the section.
    pub minor_version: u16,
}

/// The major version that is read (draft-ietf-opsawg-pcapng, section 4.1).
const MAJOR_VERSION: u16 = 1;

impl SectionHeader {
    /// The length of the body without options, in bytes: magic, versions, and the length of the section.
    pub const LEN: usize = SECTION_HEADER_LEN;

    /// Reads the body of a section header block. The length of the section and the options are not checked.
    ///
    /// # Errors
    ///
    /// In this order: `CutOff` if there are fewer than 16 bytes, and `Version` if the major version is not 1.
    pub fn from_body(order: ByteOrder, body: &[u8]) -> Result<SectionHeader, BodyError>
        ensures refused { RefusesExactly result (section_header_refusal order body.now) }
        ensures read { IfOk result (λ header. header ≡ section_header order body.now) }
    {
        BodyError::check_len(body, SectionHeader::LEN)?;
        let (major, minor) = (order.short_in(body, 4), order.short_in(body, 6));
        if major != MAJOR_VERSION {
            return Err(BodyError::Version { major, minor });
        }
        Ok(SectionHeader {
            major_version: major,
            minor_version: minor,
        })
    }
}

/// A packet of a pcapng file (draft-ietf-opsawg-pcapng, sections 4.3 and 4.4, and appendix A).
#[derive(Clone, Copy, Debug, PartialEq, Eq)]
pub struct PacketBlock<'a> {
    /// The number of the packet's interface. The interfaces of a section are numbered from 0.
    pub interface: u32,
    /// The time at which the packet was captured, in units of the interface's resolution. The offset of the interface is not added yet.
    /// `None` in a simple packet block.
    pub timestamp: Option<u64>,
    /// The length of the packet on its link, in bytes.
    pub original_len: u32,
    /// The captured bytes of the packet.
    pub captured: &'a [u8],
}

impl<'a> PacketBlock<'a> {
    /// Reads the body of an enhanced packet block (section 4.3). `interfaces` are the interfaces before the block in its section.
    ///
    /// # Errors
    ///
    /// In this order:
    /// - `CutOff` if there are fewer than 20 bytes
    /// - `Interface` if `interfaces` does not contain the packet's interface
    /// - `CutOff` if the body ends within the captured bytes
    pub fn from_enhanced(
        order: ByteOrder,
        interfaces: &[InterfaceDescription],
        body: &'a [u8],
    ) -> Result<PacketBlock<'a>, BodyError>
        ensures refused { RefusesExactly result (timed_refusal order (number_at order body.now 0) (length interfaces.now) body.now) }
        ensures read { IfOk result (IsTimedPacket order (number_at order body.now 0) body.now) }
        ensures interface { IfOk result (λ packet. packet.interface < length interfaces.now) }
        ensures within { IfOk result (λ packet. 20 + length packet.captured.now ≤ length body.now) }
    {
        BodyError::check_len(body, TIMED_CAPTURED_AT)?;
        timed_packet(order, order.number_in(body, 0), interfaces.len(), body)
    }

    /// Reads the body of an obsolete packet block (appendix A), as `from_enhanced` does. The number of the interface has two bytes.
    ///
    /// # Errors
    ///
    /// The errors of `from_enhanced`.
    pub fn from_obsolete(
        order: ByteOrder,
        interfaces: &[InterfaceDescription],
        body: &'a [u8],
    ) -> Result<PacketBlock<'a>, BodyError>
        ensures refused { RefusesExactly result (timed_refusal order (short_at order body.now 0) (length interfaces.now) body.now) }
        ensures read { IfOk result (IsTimedPacket order (short_at order body.now 0) body.now) }
        ensures interface { IfOk result (λ packet. packet.interface < length interfaces.now) }
        ensures within { IfOk result (λ packet. 20 + length packet.captured.now ≤ length body.now) }
    {
        BodyError::check_len(body, TIMED_CAPTURED_AT)?;
        let interface = u32::from(order.short_in(body, 0));
        timed_packet(order, interface, interfaces.len(), body)
    }

    /// Reads the body of a simple packet block (section 4.4). The packet was captured on the first interface. The number of captured bytes
    /// is the smaller of the original length and the snap length of this interface. A snap length of 0 means that there is no limit.
    ///
    /// # Errors
    ///
    /// In this order:
    /// - `CutOff` if there are fewer than 4 bytes
    /// - `Interface` if `interfaces` is empty
    /// - `CutOff` if the body ends within the captured bytes
    pub fn from_simple(
        order: ByteOrder,
        interfaces: &[InterfaceDescription],
        body: &'a [u8],
    ) -> Result<PacketBlock<'a>, BodyError>
        ensures refused { RefusesExactly result (simple_refusal order interfaces.now body.now) }
        ensures read { IfOk result (IsSimplePacket order interfaces.now body.now) }
        ensures interface { IfOk result (λ packet. packet.interface < length interfaces.now) }
        ensures within { IfOk result (λ packet. 4 + length packet.captured.now ≤ length body.now) }
    {
        BodyError::check_len(body, SIMPLE_CAPTURED_AT)?;
        let (interface, count) = (0, interfaces.len());
        let Some(first) = interfaces.first() else {
            return Err(BodyError::Interface { interface, count });
        };
        let original_len = order.number_in(body, 0);
        let captured_len = match first.snap_len {
            // A snap length of 0 means that there is no limit.
            0 => original_len,
            snap_len => original_len.min(snap_len),
        };
        let end = SIMPLE_CAPTURED_AT + captured_len as usize;
        BodyError::check_len(body, end)?;
        Ok(PacketBlock {
            interface,
            timestamp: None,
            original_len,
            captured: &body[SIMPLE_CAPTURED_AT..end],
        })
    }
}

/// The packet of an enhanced or obsolete packet block. `interface` is the number of the packet's interface, and `count` is the number of
/// interfaces of the section.
fn timed_packet(
    order: ByteOrder,
    interface: u32,
    count: usize,
    body: &[u8],
) -> Result<PacketBlock<'_>, BodyError>
    requires { 20 ≤ length body.now }
    ensures refused { RefusesExactly result (captured_refusal order interface count body.now) }
    ensures read { IfOk result (IsTimedPacket order interface body.now) }
    ensures interface { IfOk result (λ packet. packet.interface < count) }
    ensures within { IfOk result (λ packet. 20 + length packet.captured.now ≤ length body.now) }
{
    if interface as usize >= count {
        return Err(BodyError::Interface { interface, count });
    }
    let end = TIMED_CAPTURED_AT + order.number_in(body, TIMED_CAPTURED_LEN_AT) as usize;
    BodyError::check_len(body, end)?;
    let high = u64::from(order.number_in(body, 4));
    let low = u64::from(order.number_in(body, 8));
    Ok(PacketBlock {
        interface,
        timestamp: Some(high * 0x1_0000_0000 + low),
        original_len: order.number_in(body, 16),
        captured: &body[TIMED_CAPTURED_AT..end],
    })
}
