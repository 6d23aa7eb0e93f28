//! Outputs that are flushed before a program ends.

use std::io;
use std::io::{BufWriter, Write};

/// An output that can hold bytes back until it is flushed.
pub trait Flushes: Write {
    ghost use Rattle.std.specs.Prelude.{OnOk};
    ghost use Rattle.std.specs.Io.KnownBytes.{Keeps};

    /// What holds for an output after it was flushed.
    ghost is_flushed: { Self → Type 0 };

    /// Passes on all bytes that the output holds back.
    ///
    /// # Errors
    ///
    /// The error of the write or flush that fails.
    fn flush_all(&mut self) -> io::Result<()>
        ensures kept { Keeps (Self.contents self.old) (Self.contents self.new) }
        ensures flushed { OnOk result (is_flushed self.new) };
}

/// A flushed buffer is empty: the writer below it accepted each byte.
impl<W: Write + Drop> Flushes for BufWriter<W> {
    ghost use Rattle.std.specs.Prelude.{◌≡◌, []};
    ghost use Rattle.std.specs.Io.Buffered.{writer_buffer};

    ghost is_flushed = { λ writer. writer_buffer writer ≡ [] };

    fn flush_all(&mut self) -> io::Result<()> {
        self.flush()
    }
}
