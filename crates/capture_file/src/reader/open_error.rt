use crate::classic::CaptureHeaderError;
use crate::reader::PacketError;
use thiserror::Error;

/// The reason why a capture can't be opened.
#[derive(Clone, Copy, Debug, PartialEq, Eq, Error)]
pub enum OpenError {
    /// The input does not begin like a pcapng file, and its first bytes are not an accepted header of a classic capture.
    #[error(transparent)]
    Classic(CaptureHeaderError),
    /// The input begins like a pcapng file, but its first block is refused.
    #[error(transparent)]
    Pcapng(PacketError),
}
