//! The report as text: the line of a packet, and the tables of a summary. Nothing is allocated.
//!
//! `write_packet_line` writes the line of a packet. It contains the number of the packet, its time, its interface, the length of its frame, its
//! addresses and its content, and then the verdict on its checksum. `write_summary` writes the tables. Bytes and checksums are hex digits in upper
//! case. All other numbers are decimal.
#![tactic(auto)]

mod addresses;
mod arp;
mod comments;
mod endpoints;
mod files;
mod fragment;
mod interface;
#[doc(hidden)]
pub mod laws;
mod packet_line;
mod tables;
mod timeline_table;
mod totals;
mod verdict;

pub use endpoints::write_endpoints;
pub use files::write_files;
pub use packet_line::write_packet_line;
pub use tables::{write_conversations, write_summary};
pub use timeline_table::write_timeline;
