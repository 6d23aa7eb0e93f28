//! The classic format of a capture file: a header, and a record for each packet (draft-ietf-opsawg-pcap, sections 4 and 5).

mod capture_header;
mod capture_header_error;
#[doc(hidden)]
pub mod laws;
mod read;
mod record_header;

pub use capture_header::CaptureHeader;
pub use capture_header_error::CaptureHeaderError;
pub(crate) use read::read_header_after;
pub use read::{MAX_CAPTURED_LEN, NextRecord, read_capture_header, read_record};
pub use record_header::{RecordHeader, Resolution, Time};
