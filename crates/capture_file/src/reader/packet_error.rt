use crate::pcapng::{BlockError, BodyError};
use thiserror::Error;

/// The reason why a block of a pcapng file is refused.
#[derive(Clone, Copy, Debug, PartialEq, Eq, Error)]
pub enum PacketError {
    /// The bytes are not a block.
    #[error(transparent)]
    Block(BlockError),
    /// The body of the block is refused.
    #[error(transparent)]
    Body(BodyError),
    /// The block is longer than the buffer, and later packets can't be read without it.
    #[error("The block has type {block_type:#x} and {total_len} bytes, for which the buffer has no room.")]
    TooLong {
        /// The type of the block: a section header or an interface description.
        block_type: u32,
        /// The length of the block in bytes.
        total_len: u32,
    },
    /// The section has more interfaces than a reader keeps.
    #[error("The section has more than {max} interfaces.")]
    Interfaces {
        /// The greatest number of interfaces that a reader keeps.
        max: usize,
    },
}

/// The reason why a block of a pcapng file is refused, and the place of the block.
#[derive(Clone, Copy, Debug, PartialEq, Eq, Error)]
#[error("At byte {offset} of the file: {error}")]
pub struct PlacedPacketError {
    /// The place at which the block begins, in bytes from the start of the file.
    pub offset: u64,
    /// The reason why the block is refused.
    pub error: PacketError,
}
