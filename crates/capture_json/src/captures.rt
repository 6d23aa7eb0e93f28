use capture_file::reader::CaptureReader;
use capture_summary::FileTable;

/// The captures of a summary.
#[derive(Drop)]
pub struct Captures<'a, 'n> {
    /// The reader of the only capture, after its packets. `None` if the summary is not of exactly one capture.
    pub only: &'a Option<CaptureReader>,
    /// The table of files. It has no rows if at most one capture is named.
    pub files: &'a FileTable<'n>,
}
