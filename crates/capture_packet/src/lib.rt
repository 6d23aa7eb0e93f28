//! The content of a packet in a capture, and the verdict on its checksum. Nothing is allocated.
//!
//! `network_packet` finds the network packet in a frame. `read_packet` reads its IP headers, and the header of its transport: UDP (RFC 768),
//! TCP (RFC 9293), ICMPv4 (RFC 792) or ICMPv6 (RFC 4443). If an IP packet contains another one, `read_packet` reads the inner packet. It
//! opens up to four such tunnels: IP in IP (RFC 2003; RFC 4213; RFC 2473) and GRE (RFC 2784), and on request VXLAN (RFC 7348) and Geneve
//! (RFC 8926).
//!
//! ```
//! let packet = read_packet(link_type, captured.byte_order, frame, captured.is_cut(), false);
//! match packet.verdict {
//!     Verdict::Checksum(ChecksumVerdict::Right) => ..
//!     Verdict::Checksum(ChecksumVerdict::Wrong { expected }) => ..
//!     _ => ..
//! }
//! ```
#![tactic(auto)]

mod addresses;
mod arp;
mod content;
mod fixed_header;
mod fragment_fields;
mod geneve;
mod gre;
mod hop_limit;
mod inner_frame;
pub mod link;
mod network_protocol;
mod packet;
mod payload;
mod quoted_packet;
mod read;
mod refusal;
mod transport;
mod tunnel;
mod udp_tunnel;
mod verdict;
mod virtual_network;
mod vxlan;

pub use addresses::{destination_of, source_of};
pub use arp::{Arp, ArpAddresses};
pub use content::Content;
pub use fragment_fields::{FragmentFields, Identification};
pub use hop_limit::HopLimit;
pub use link::{Frame, LinkHeaderCutOff, NetworkBytes, network_packet};
pub use network_protocol::NetworkProtocol;
pub use packet::Packet;
pub use quoted_packet::QuotedPacket;
pub use read::{MAX_PACKET_LEN, read_packet};
pub use refusal::Refusal;
pub use transport::{Transport, ports_in};
pub use tunnel::{MAX_TUNNELS, Tunnel, Tunnels};
pub use verdict::Verdict;
pub use virtual_network::{NetworkKind, VirtualNetwork};
