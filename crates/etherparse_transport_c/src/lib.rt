//! The transport layer for C and for every language that calls C: UDP, TCP, ICMPv4, ICMPv6, the Internet checksum, and the transport in an
//! IP packet.
//!
//! Each export is a thin wrapper of a call of `etherparse_transport`. The contract of the export uses the definitions of that call. It
//! states the status, the error, and everything that the export writes. No export has a precondition: for each wrong input it returns a
//! status. The caller passes a pointer to an error, or NULL, as an `ErrorPlace`. The `Answer` gives the error back to the caller.
//! `include/etherparse_transport.h` declares the exports, and describes what a caller in C must ensure.
#![tactic(auto)]

mod answer;
mod canonical;
mod checksum_change;
mod echo_reply;
mod error;
mod error_text;
mod fragment;
mod hop_limit;
mod icmp_error;
mod icmpv4;
mod icmpv4_kind;
mod icmpv6;
mod icmpv6_flag;
mod icmpv6_kind;
mod ip;
mod ip_addresses;
mod ipv4_header;
mod joining_text;
mod joining_words;
mod layer;
mod len_source;
mod packet_checksum;
mod packet_flow;
mod packet_verdict;
mod protocol;
mod quoted_packet;
mod reassembled;
mod segment_size;
mod siit;
mod siit_words;
mod status;
mod status_name;
mod status_text;
mod store;
mod sum;
mod tcp;
mod tcp_flag;
mod tcp_option;
mod tcp_option_kind;
mod text;
mod translation;
mod udp;
mod value_type;
mod verdict;
mod verdict_kind;
mod verdict_name;
mod version;
mod write;
mod write_packet;
