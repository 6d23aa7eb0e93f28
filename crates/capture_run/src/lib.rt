//! The report of a capture as text or as JSON: a line for each packet, and then a summary of tables.
//!
//! The program `capture_report` reads its arguments and calls `run`, which opens each capture through the trait `Open`. Another program can
//! use the parts separately: `capture_summary` counts packets, `capture_text` writes the line of a packet and the tables, and
//! `capture_json` writes both as JSON.
#![tactic(auto)]

mod capture_reports;
mod named_capture;
mod open;
mod outputs;
mod packet_place;
mod packet_report;
mod packets;
mod report;
mod sources;

pub use capture_request::{
    CaptureError, Choice, Compression, ESCAPED, ExitStatus, Format, Lines, MAX_PACKET_LEN, Parts,
    Reached, STANDARD_INPUT, Times, WriteError, packet_in_frame, packet_without_room, write_error,
    write_open_error,
};
pub use open::Open;
pub use outputs::Outputs;
pub use report::run;
pub use sources::Sources;
