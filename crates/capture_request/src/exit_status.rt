ghost use Rattle.std.specs.Prelude.{◌≡◌};
ghost use Rattle.capture_request.specs.ExitStatuses.{exit_number};

/// The result of a run, as the exit status of the program. If several results apply, the exit status is the greatest of their numbers.
#[derive(Clone, Copy, Debug, PartialEq, Eq)]
pub enum ExitStatus {
    /// 0: all captures were read to their ends, or as far as was requested.
    Success,
    /// 1: a capture can't be read to its end.
    Unfinished,
    /// 2: an input is not a capture.
    NoCapture,
    /// 3: opening, reading or writing failed, or no memory was left.
    Failed,
    /// 4: a check was requested, and a packet has a wrong checksum or was refused.
    Fault,
}

impl ExitStatus {
    /// Returns the exit status of the program as a number.
    pub fn number(self) -> u8
        ensures { result ≡ exit_number self }
    {
        self as u8
    }
}
