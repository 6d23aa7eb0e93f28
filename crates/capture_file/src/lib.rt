//! Capture files, read packet by packet. Nothing is allocated.
//!
//! A capture is a file in the classic format of libpcap (draft-ietf-opsawg-pcap), or in the newer format pcapng (draft-ietf-opsawg-pcapng).
//! `reader` reads the packets of both formats, `classic` the records of a classic capture, and `pcapng` the blocks of a pcapng file.
//! `FileTexts` keeps the names, descriptions and comments of a section, the comments of the last packet, and the newest statistics of each
//! interface (pcapng, sections 3.5, 4.1, 4.2, 4.3 and 4.6). It keeps up to `MAX_TEXT_LEN` bytes of each text.
//!
//! ```
//! let mut capture = CaptureReader::read_header(&mut input, buffer.as_mut_slice())??;
//! for _ in 0..u64::MAX {
//!     let packet = match capture.next_packet(&mut input, buffer.as_mut_slice())? {
//!         NextPacket::Whole(packet) => packet,
//!         NextPacket::TooLong(_) => continue,
//!         NextPacket::End | NextPacket::CutOff { .. } | NextPacket::Refused(_) => break,
//!     };
//!     let frame = &buffer.as_slice()[packet.start..packet.start + packet.captured_len];
//! }
//! ```
#![tactic(auto)]

pub mod classic;
mod file_texts;
mod interface_statistics;
mod kept_text;
mod packet_comments;
mod packet_time;
pub mod pcapng;
pub mod reader;

pub use capture_numbers::{ByteOrder, LinkType};
pub use file_texts::{FileTexts, InterfaceTexts, MAX_INTERFACES_WITH_TEXTS};
pub use interface_statistics::InterfaceStatistics;
pub use kept_text::{KeptText, MAX_TEXT_LEN};
pub use packet_comments::{MAX_COMMENTS, PacketComments};
pub use packet_time::{NANOSECONDS_PER_SECOND, PacketTime, nanoseconds_of};
