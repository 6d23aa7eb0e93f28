//! Packets and the summary as JSON (RFC 8259), each as an object on its own line.
//!
//! Names are whole words joined by underscores, and numbers are whole numbers. A member that does not apply is left out. Members are
//! written in the order of their definitions, into the memory of one `Line`. The contracts state the text that is written.
//!
//! ```text
//! {"type":"packet","number":1,"source":"192.0.2.1","udp":{"length":40}}
//! ```
#![tactic(auto)]

mod addresses;
mod arp;
mod captures;
mod comments;
mod endpoints;
mod facts;
mod file_name;
mod files;
mod flows;
mod fragment;
mod icmp;
mod icmpv6_fields;
mod interface;
mod intervals;
#[doc(hidden)]
pub mod laws;
mod line;
mod network;
mod packet;
mod protocol;
mod quoted;
mod summary;
mod tcp;
mod tcp_options;
mod text;
mod texts;
mod times;
mod totals;
mod tunnels;
mod verdict;

pub use captures::Captures;
pub use file_name::write_file_name;
use line::Line;
pub use packet::write_packet;
pub use summary::write_summary;
