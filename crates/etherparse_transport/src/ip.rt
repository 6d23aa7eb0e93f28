//! Calls on IP packets. `transport_in_ip` finds the transport of a packet (RFC 791, section 3.1; RFC 8200, sections 3 and 4).
//! `transport_slice` returns it as a typed slice, and `checksum_verdict` returns the verdict on its checksum. `write_packet_ipv4` and
//! `write_packet_ipv6` write a packet from a transport header and a payload. `answer_echo` turns an echo request into its reply, and
//! `is_reply_to` recognises the reply. `flow` returns addresses and ports. `translate_ipv4` and `translate_ipv6` replace addresses and
//! ports. `write_checksum` writes the right checksum into a packet, `lower_hop_limit` lowers its hop limit, and `lower_maximum_segment_size`
//! lowers the maximum segment size of a SYN. `icmpv4_error_about` and `icmpv6_error_about` write an ICMP error about a packet.
//! `ipv4_to_ipv6` and `ipv6_to_ipv4` translate packets between IPv4 and IPv6. The module `reassembly` puts packets together from their
//! fragments.

mod echo_reply;
mod flow_ends;
mod hop_limit;
mod icmp_error;
mod ip_header;
mod ipv4_translation;
mod ipv6_translation;
mod message_place;
mod packet_flow;
mod partial_checksum;
mod reply_to;
mod segment_size;
mod skipped_headers;
mod source_route;
mod translated_ipv4;
mod translated_ipv6;
mod translated_message;
mod without_options;
mod write_packet;
mod written_checksum;

pub use echo_reply::{answer_echo, answer_echo_ipv4, answer_echo_ipv6};
pub use flow_ends::FlowEnds;
pub use hop_limit::lower_hop_limit;
pub use icmp_error::{icmpv4_error_about, icmpv6_error_about};
pub use ip_part::{
    FixedHeader, IpAddresses, IpError, TransportInIp, fixed_header, proto_over, transport_in_ip,
    transport_in_ip_lax,
};
pub use ip_translation::{
    AddressError, AddressMapping, AddressMappingError, AddressTable, PacketTranslationError,
    Prefix64, Prefix64Error, Prefixes, TranslationError, header_to_ipv4, header_to_ipv6,
    icmpv4_error, icmpv4_mtu, icmpv4_pointer, icmpv6_error, icmpv6_mtu, icmpv6_pointer,
    ipv4_to_ipv6, ipv6_to_ipv4, pseudo_header_change, pseudo_header_change_to_ipv4,
};
pub use ipv4_translation::Ipv4Translation;
pub use ipv6_translation::Ipv6Translation;
pub use packet_flow::{PacketFlow, flow};
pub use partial_checksum::is_checksum_partial;
pub use reassembly;
pub use reply_to::{is_reply_from_any, is_reply_to};
pub use segment_size::lower_maximum_segment_size;
pub use translated_ipv4::{translate_ipv4, translate_ipv4_with_quoted};
pub use translated_ipv6::{translate_ipv6, translate_ipv6_with_quoted};
pub use transport_part::ip::{checksum_verdict, proto_in_ip, transport_slice};
pub use write_packet::{write_packet_ipv4, write_packet_ipv6};
pub use written_checksum::write_checksum;
