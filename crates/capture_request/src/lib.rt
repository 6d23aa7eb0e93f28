//! The options of the report of a capture, the packets that the report reads, and the result with which it ends.
//!
//! `Parts` are the options of a report. `packet_in_frame` reads the packet of a record or block. `Reached` and `CaptureError` state how a
//! report ends, and `WriteError` is the reason why a report can't be written. `ExitStatus` is the exit status of the program. `capture_run`
//! writes the report. If a packet has a line in the report, `capture_selection` can copy it to another capture.
//!
//! ```
//! let parts = Parts::from_flags(false, false, true, false);
//! let packet = packet_in_frame(&captured, frame, parts.choice.udp_tunnels);
//! let has_line = parts.choice.includes(&packet, captured.time) && parts.lines.include(&packet.verdict);
//! ```
#![tactic(auto)]

mod capture_error;
mod captured;
mod compression;
mod exit_status;
mod filter;
mod parts;
mod reached;
mod shown_name;
mod writing_error;

pub use capture_error::{CaptureError, write_end, write_error, write_open_error};
pub use capture_packet::MAX_PACKET_LEN;
pub use capture_summary::Choice;
pub use capture_words::Times;
pub use captured::{captured_info, packet_in_frame, packet_without_room, too_long_info};
pub use compression::Compression;
pub use exit_status::ExitStatus;
pub use filter::is_filter;
pub use parts::{Format, Lines, Parts};
pub use reached::Reached;
pub use shown_name::{ESCAPED, STANDARD_INPUT, without_mark};
pub use writing_error::WriteError;
