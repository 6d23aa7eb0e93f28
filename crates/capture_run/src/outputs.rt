use std::alloc::Global;

/// The writers of a run, and its allocator.
#[derive(Drop)]
pub struct Outputs<W, E> {
    /// The allocator of the memory that a run needs.
    pub alloc: Global,
    /// The writer of the report.
    pub report: W,
    /// The writer of the lines for errors.
    pub errors: E,
}
