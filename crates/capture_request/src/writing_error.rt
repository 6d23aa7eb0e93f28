use std::alloc::AllocError;
use std::io;
use thiserror::Error;

/// The reason why a report can't be written.
#[derive(Debug, Error, Drop)]
pub enum WriteError {
    /// Writing failed.
    #[error("Writing failed: {0}.")]
    Write(io::Error),
    /// No memory is left.
    #[error("No memory is left.")]
    NoMemory,
}

impl From<AllocError> for WriteError {
    ghost use Rattle.std.specs.Prelude.{◌≡◌};
    ghost use Rattle.capture_request.specs.declared.writing_error.WriteError.TheVariants as variants;

    ghost from_gives = { λ error write_error. write_error ≡ variants.NoMemory };

    /// Returns the error `NoMemory`.
    fn from(_error: AllocError) -> WriteError {
        WriteError::NoMemory
    }
}

impl From<io::Error> for WriteError {
    ghost use Rattle.std.specs.Prelude.{◌≡◌};
    ghost use Rattle.capture_request.specs.declared.writing_error.WriteError.TheVariants as variants;

    ghost from_gives = { λ error write_error. write_error ≡ variants.Write error };

    /// Returns the error `Write`, which contains `error`.
    fn from(error: io::Error) -> WriteError {
        WriteError::Write(error)
    }
}
