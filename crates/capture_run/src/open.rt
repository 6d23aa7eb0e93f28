use std::io;
use std::io::Read;

/// Opens the captures of a run by their names.
pub trait Open {
    /// The input from which a capture is read.
    type Input: Read + Drop;

    ghost use Rattle.std.specs.Prelude.{ℕ, List, IfErr, IfOk};

    /// What holds for an input that was opened by this name. Each implementation chooses it.
    ghost opens: { Self → List ℕ → Self.Input → Type 0 };
    /// What holds for a name if it can't be opened. Each implementation chooses it.
    ghost misses: { Self → List ℕ → Type 0 };

    /// Opens the capture with this name. [`STANDARD_INPUT`](crate::STANDARD_INPUT) is the name of standard input.
    ///
    /// # Errors
    ///
    /// An error if the capture can't be opened.
    fn open(&self, name: &str) -> io::Result<Self::Input>
        ensures opened { IfOk result (opens self.now name.now) }
        ensures missing { IfErr result (λ error. misses self.now name.now) };
}
