//! The packets of a capture in one common form, for both file formats, classic and pcapng.

mod capture_reader;
mod captured_packet;
#[doc(hidden)]
pub mod laws;
mod next_packet;
mod open_error;
mod packet_error;
mod packet_interface;
mod packet_texts;
mod pcapng_reader;

pub use capture_reader::{CaptureReader, ClassicReader};
pub use captured_packet::CapturedPacket;
pub use next_packet::{NextPacket, TooLongPacket};
pub use open_error::OpenError;
pub use packet_error::{PacketError, PlacedPacketError};
pub use packet_interface::PacketInterface;
pub use packet_texts::PacketTexts;
pub use pcapng_reader::{MAX_INTERFACES, PcapngReader, Section};
