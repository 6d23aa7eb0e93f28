use capture_request::CaptureError;
use std::io;
use thiserror::Error;

/// Why a capture is not read to its end.
#[derive(Debug, Error, Drop)]
pub enum SelectionError {
    /// The capture is refused, or can't be read further.
    #[error(transparent)]
    Capture(CaptureError),
    /// Writing failed.
    #[error(transparent)]
    Write(io::Error),
}
