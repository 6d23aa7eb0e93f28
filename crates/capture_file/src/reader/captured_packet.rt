ghost use Rattle.std.specs.Prelude.{◌≡◌, nat_lt};
ghost use Rattle.capture_file.specs.Packets.{packet_of_block, packet_of_record};

use crate::classic::{CaptureHeader, RecordHeader};
use crate::pcapng::{BlockHeader, InterfaceDescription, PacketBlock};
use crate::{ByteOrder, LinkType, PacketTime};
use capture_numbers::block::{BODY_AT, SIMPLE_CAPTURED_AT, SIMPLE_PACKET, TIMED_CAPTURED_AT};

/// The place of the captured bytes in a simple packet block, in bytes from the start of the block (draft-ietf-opsawg-pcapng, section 4.4).
const SIMPLE_START: usize = BODY_AT + SIMPLE_CAPTURED_AT;

/// The place of the captured bytes in an enhanced or obsolete packet block, in bytes from the start of the block (section 4.3; appendix A).
const TIMED_START: usize = BODY_AT + TIMED_CAPTURED_AT;

/// What a capture states about a packet. The struct is the same for both file formats.
#[derive(Clone, Copy, Debug, PartialEq, Eq)]
pub struct CapturedPacket {
    /// The link type of the packet, or its number if the link type is unknown.
    pub link_type: Result<LinkType, u16>,
    /// The byte order of the numbers in a classic capture, or in the packet's section of a pcapng file.
    pub byte_order: ByteOrder,
    /// The capture time. `None` for a simple packet block, which has no time.
    pub time: Option<PacketTime>,
    /// The place in the buffer at which the captured bytes begin.
    pub start: usize,
    /// The number of captured bytes.
    pub captured_len: usize,
    /// The original length: the length of the packet on its link, in bytes.
    pub original_len: u32,
    /// The number of the interface on which the packet was captured. A section of a pcapng file numbers its interfaces from 0, and the packet
    /// of a simple packet block belongs to interface 0. `None` for a classic capture.
    pub interface: Option<u32>,
}

impl CapturedPacket {
    /// Returns the packet of a record of a classic capture. Its captured bytes are at the front of the buffer.
    pub fn from_record(capture: CaptureHeader, header: RecordHeader) -> CapturedPacket
        ensures { result ≡ packet_of_record capture header }
    {
        CapturedPacket {
            link_type: capture.link_type,
            byte_order: capture.byte_order,
            time: Some(PacketTime::from_record(capture.resolution, header.time)),
            start: 0,
            captured_len: header.captured_len as usize,
            original_len: header.original_len,
            interface: None,
        }
    }

    /// Returns the packet in a block of a pcapng file. The packet was captured on `interface`. The whole block is at the front of the
    /// buffer.
    pub fn from_block(
        header: BlockHeader,
        interface: InterfaceDescription,
        packet: &PacketBlock<'_>,
    ) -> CapturedPacket
        ensures { result ≡ packet_of_block header interface packet.now }
    {
        let time_of = |timestamp| PacketTime::from_timestamp(interface, timestamp);
        let start = match header.block_type {
            SIMPLE_PACKET => SIMPLE_START,
            _ => TIMED_START,
        };
        CapturedPacket {
            link_type: LinkType::from_number(interface.link_type).ok_or(interface.link_type),
            byte_order: header.byte_order,
            time: packet.timestamp.map(time_of),
            start,
            captured_len: packet.captured.len(),
            original_len: packet.original_len,
            interface: Some(packet.interface),
        }
    }

    /// Returns whether the packet is truncated: its original length is above its captured length.
    pub fn is_cut(&self) -> bool
        ensures { result ≡ nat_lt self.now.captured_len self.now.original_len }
    {
        self.captured_len < self.original_len as usize
    }
}
