/// The place of a record or block in a capture.
#[derive(Clone, Copy, Debug, PartialEq, Eq)]
pub struct Place {
    /// The number of the next packet. The first packet of a capture is number 1.
    pub number: u64,
    /// The start of the record or block, in bytes from the start of the capture.
    pub offset: u64,
}
