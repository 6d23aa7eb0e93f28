ghost use Rattle.std.specs.Prelude.{◌≤◌, IfOk, length};
ghost use Rattle.net_base.specs.Refusals.{RefusesExactly};
ghost use Rattle.capture_file.specs.PcapngBodies.{below};

use thiserror::Error;

/// Why bytes are refused as a block.
#[derive(Clone, Copy, Debug, PartialEq, Eq, Error)]
pub enum BlockError {
    /// The bytes end within the block.
    #[error("The block has at least {required_len} bytes, and {len} are left.")]
    CutOff {
        /// The length of the block in bytes. It is 12 if the first 12 bytes are incomplete.
        required_len: usize,
        /// The number of bytes of the block that are present.
        len: usize,
    },
    /// Bytes 8 to 11 of a section header block are not the byte-order magic in either byte order (draft-ietf-opsawg-pcapng, section 4.1).
    #[error("The byte-order magic of the section, its bytes 8 to 11, is {magic:#010x}.")]
    Magic {
        /// Bytes 8 to 11, as a big-endian number.
        magic: u32,
    },
    /// The total length in bytes 4 to 7 is below 12, or is not a multiple of 4 (section 3.1).
    #[error("The total length of the block, in its bytes 4 to 7, is {total_len}, which is below 12 or no multiple of 4.")]
    TotalLength {
        /// The total length.
        total_len: u32,
    },
    /// The total length of a section header block is below 28, so the block is too short for its fields (section 4.1).
    #[error("The section header block has {total_len} bytes, and needs at least 28.")]
    SectionLength {
        /// The total length.
        total_len: u32,
    },
    /// The total length in the last four bytes differs from the total length in bytes 4 to 7 (section 3.1).
    #[error("The total length of the block is {total_len} in its bytes 4 to 7, and {last_len} in its last four bytes.")]
    LastLength {
        /// The total length in bytes 4 to 7.
        total_len: u32,
        /// The total length in the last four bytes.
        last_len: u32,
    },
}

/// Why the body of a block is refused. Places are counted from the start of the body. The body begins after 8 bytes of the block.
#[derive(Clone, Copy, Debug, PartialEq, Eq, Error)]
pub enum BodyError {
    /// The body ends within its fields, or within the captured bytes of a packet.
    #[error("The body of the block has at least {required_len} bytes, and {len} are left.")]
    CutOff {
        /// The least number of bytes that the body needs.
        required_len: usize,
        /// The number of bytes of the body that are present.
        len: usize,
    },
    /// The version of the section is not read: its major version is not 1 (draft-ietf-opsawg-pcapng, section 4.1).
    #[error("The section has version {major}.{minor}, which is not read.")]
    Version {
        /// The major version, in bytes 4 and 5.
        major: u16,
        /// The minor version, in bytes 6 and 7.
        minor: u16,
    },
    /// No earlier block of the section describes the interface of the packet (section 4.3).
    #[error("The packet is of interface {interface}, and the section has {count}.")]
    Interface {
        /// The number of the interface, from 0.
        interface: u32,
        /// The number of interfaces that the section describes before the packet.
        count: usize,
    },
}

impl BodyError {
    /// Refuses a body that has fewer bytes than this length.
    pub(crate) fn check_len(body: &[u8], required_len: usize) -> Result<(), BodyError>
        ensures refused { RefusesExactly result (below required_len body.now) }
        ensures len { IfOk result (λ checked. required_len ≤ length body.now) }
    {
        let len = body.len();
        if len < required_len {
            return Err(BodyError::CutOff { required_len, len });
        }
        Ok(())
    }
}
