//! The errors of calls on whole packets, header and payload.

mod answer_echo_error;
mod build_slice_write_error;
mod error_about_error;
mod lower_hop_limit_error;
mod lower_maximum_segment_size_error;
mod translate_error;
mod transport_checksum_error;
mod write_checksum_error;

pub use answer_echo_error::AnswerEchoError;
pub use build_slice_write_error::BuildSliceWriteError;
pub use error_about_error::ErrorAboutError;
pub use lower_hop_limit_error::LowerHopLimitError;
pub use lower_maximum_segment_size_error::LowerMaximumSegmentSizeError;
pub use translate_error::TranslateError;
pub use transport_checksum_error::TransportChecksumError;
pub use write_checksum_error::WriteChecksumError;
