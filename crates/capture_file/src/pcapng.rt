//! The pcapng format of capture files, as written by Wireshark and dumpcap (draft-ietf-opsawg-pcapng): blocks, one after the other.
//!
//! `Blocks` iterates over the blocks of a file in memory, and `read_block` reads blocks from a stream. A section header block begins a
//! section, and states the byte order of all blocks in the section. `BlockBody` is the content of a block. Interfaces are numbered from 0
//! in each section.
//!
//! ```
//! for block in Blocks::new(file) {
//!     match BlockBody::from_block(&block?, &interfaces)? {
//!         BlockBody::SectionHeader(_) => interfaces.clear(),
//!         BlockBody::InterfaceDescription(interface) => interfaces.push(interface)?,
//!         BlockBody::Packet(packet) => ..
//!         BlockBody::Other => {}
//!     }
//! }
//! ```

mod block;
mod block_body;
mod errors;
mod interface_description;
#[doc(hidden)]
pub mod laws;
mod read;
mod time_resolution;

pub(crate) use block::is_section_header;
pub use block::{Block, BlockHeader, Blocks, MIN_BLOCK_LEN, PlacedBlockError};
pub use block_body::{BlockBody, PacketBlock, SectionHeader};
pub use capture_numbers::block::SECTION_HEADER;
pub use errors::{BlockError, BodyError};
pub use interface_description::InterfaceDescription;
pub(crate) use read::read_rest;
pub use read::{NextBlock, read_block};
pub use time_resolution::TimeResolution;
