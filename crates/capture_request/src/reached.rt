/// How far a capture was read, if its report ended without an error.
#[derive(Clone, Copy, Debug, PartialEq, Eq)]
pub enum Reached {
    /// The end of the capture.
    End,
    /// The packet with the last requested line. The rest of the capture is not read.
    Limit,
}
