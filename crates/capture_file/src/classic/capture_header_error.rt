use thiserror::Error;

/// Why the header of a capture is refused.
#[derive(Clone, Copy, Debug, PartialEq, Eq, Error)]
pub enum CaptureHeaderError {
    /// The file is a pcapng file (draft-ietf-opsawg-pcapng, section 4.1). The reader of classic captures does not read this newer format.
    #[error("The input is a pcapng file, which `CaptureReader` reads.")]
    Pcapng,
    /// The input ends within the header.
    #[error("The header of a capture has 24 bytes, and the input contains {len}.")]
    CutOff {
        /// The length of the input, in bytes.
        len: usize,
    },
    /// The input does not begin with a magic number of a capture (draft-ietf-opsawg-pcap, section 4).
    #[error("The input is no capture: its first four bytes are {magic:#010x}.")]
    Magic {
        /// The first four bytes, as a big-endian number.
        magic: u32,
    },
    /// The capture has the modified format of older Linux systems, in which the headers of records are longer (magic number A1B2CD34).
    #[error("The capture is in the modified form of older Linux systems, which is not read.")]
    Modified,
    /// The version is not read: the major version is not 2, or the minor version is below 4 (draft-ietf-opsawg-pcap, section 4).
    #[error("The capture has version {major}.{minor}, which is not read.")]
    Version {
        /// The major version, in bytes 4 and 5.
        major: u16,
        /// The minor version, in bytes 6 and 7.
        minor: u16,
    },
}
