//! Counts of the packets of captures.
//!
//! A `Summary` counts each packet by its protocol, its verdict, its link type and its flow. A `FileTable` has a row for each of several
//! captures. The crates `capture_text` and `capture_json` write the tables.
#![tactic(auto)]

mod busiest;
mod capture_info;
mod choice;
mod conversation_count;
mod count;
mod endpoint_count;
mod endpoints;
mod event;
mod file_count;
mod file_table;
mod flow;
mod flows;
#[doc(hidden)]
pub mod laws;
mod link_kind;
mod network;
mod packet_flow;
mod packet_info;
mod protocol;
mod protocol_names;
mod protocol_rows;
mod ranking;
mod rates;
mod refusal_kind;
mod summary;
mod time_range;
mod time_span;
mod verdict_kind;

pub use busiest::Busiest;
pub use capture_info::{CaptureInfo, FrameLen};
pub use choice::{Choice, ChosenProtocol, Hosts, MAX_CHOSEN, PortRange, Ports, Protocols};
pub use conversation_count::ConversationCount;
pub use count::Count;
pub use endpoint_count::EndpointCount;
pub use file_count::FileCount;
pub use file_table::{FileRow, FileTable, MAX_FILES};
pub use flow::{Flow, FlowProtocol};
pub use flows::{Flows, MAX_CONVERSATIONS};
pub use link_kind::LinkKind;
pub use network::{Network, NetworkError};
pub use packet_flow::flow_of;
pub use packet_info::PacketInfo;
pub use protocol::Protocol;
pub use protocol_names::{ip_protocol_name, network_protocol_name};
pub use ranking::BUSIEST;
pub use rates::Rates;
pub use refusal_kind::RefusalKind;
pub use summary::Summary;
pub use time_range::TimeRange;
pub use time_span::TimeSpan;
pub use verdict_kind::VerdictKind;
