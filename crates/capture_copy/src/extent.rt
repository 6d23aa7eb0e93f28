/// How far a capture was copied, if the copy ended without an error.
#[derive(Clone, Copy, Debug, PartialEq, Eq)]
pub enum Extent {
    /// To its end.
    Whole,
    /// Up to the packet after which enough packets were read. The rest of the capture is not read.
    Enough,
}
