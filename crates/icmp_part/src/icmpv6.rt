//! The parts of ICMPv6 messages, and the numbers of types and codes.

mod dest_unreachable_code;
mod neighbor_advertisement_header;
mod parameter_problem_code;
mod parameter_problem_header;
mod router_advertisement_header;
mod time_exceeded_code;

pub use dest_unreachable_code::DestUnreachableCode;
pub use neighbor_advertisement_header::NeighborAdvertisementHeader;
pub use parameter_problem_code::ParameterProblemCode;
pub use parameter_problem_header::ParameterProblemHeader;
pub use router_advertisement_header::RouterAdvertisementHeader;
pub use time_exceeded_code::TimeExceededCode;

/// The length of the longest packet, header and payload, in bytes. The pseudo header counts these bytes in 32 bits (RFC 8200, section 8.1).
pub const MAX_ICMPV6_BYTE_LEN: usize = u32::MAX as usize;

/// The type of a destination unreachable message (RFC 4443, section 3.1).
pub const TYPE_DST_UNREACH: u8 = 1;
/// The type of a packet too big message (RFC 4443, section 3.2).
pub const TYPE_PACKET_TOO_BIG: u8 = 2;
/// The type of a time exceeded message (RFC 4443, section 3.3).
pub const TYPE_TIME_EXCEEDED: u8 = 3;
/// The type of a parameter problem message (RFC 4443, section 3.4).
pub const TYPE_PARAMETER_PROBLEM: u8 = 4;
/// The type of an echo request message (RFC 4443, section 4.1).
pub const TYPE_ECHO_REQUEST: u8 = 128;
/// The type of an echo reply message (RFC 4443, section 4.2).
pub const TYPE_ECHO_REPLY: u8 = 129;
/// The type of a multicast listener query message (RFC 2710, section 3). It is read as `Unknown`.
pub const TYPE_MULTICAST_LISTENER_QUERY: u8 = 130;
/// The type of a multicast listener report message (RFC 2710, section 3). It is read as `Unknown`.
pub const TYPE_MULTICAST_LISTENER_REPORT: u8 = 131;
/// The type of a multicast listener done message (RFC 2710, section 3). It is read as `Unknown`.
pub const TYPE_MULTICAST_LISTENER_REDUCTION: u8 = 132;
/// The type of a router solicitation message (RFC 4861, section 4.1).
pub const TYPE_ROUTER_SOLICITATION: u8 = 133;
/// The type of a router advertisement message (RFC 4861, section 4.2).
pub const TYPE_ROUTER_ADVERTISEMENT: u8 = 134;
/// The type of a neighbor solicitation message (RFC 4861, section 4.3).
pub const TYPE_NEIGHBOR_SOLICITATION: u8 = 135;
/// The type of a neighbor advertisement message (RFC 4861, section 4.4).
pub const TYPE_NEIGHBOR_ADVERTISEMENT: u8 = 136;
/// The type of a redirect message (RFC 4861, section 4.5).
pub const TYPE_REDIRECT_MESSAGE: u8 = 137;
/// The type of a router renumbering message (RFC 2894, section 3). It is read as `Unknown`.
pub const TYPE_ROUTER_RENUMBERING: u8 = 138;
/// The type of an inverse neighbor discovery solicitation message (RFC 3122, section 2). It is read as `Unknown`.
pub const TYPE_INVERSE_NEIGHBOR_DISCOVERY_SOLICITATION: u8 = 141;
/// The type of an inverse neighbor discovery advertisement message (RFC 3122, section 2). It is read as `Unknown`.
pub const TYPE_INVERSE_NEIGHBOR_DISCOVERY_ADVERTISEMENT: u8 = 142;
/// The type of an extended echo request message (RFC 8335, section 2). It is read as `Unknown`.
pub const TYPE_EXT_ECHO_REQUEST: u8 = 160;
/// The type of an extended echo reply message (RFC 8335, section 3). It is read as `Unknown`.
pub const TYPE_EXT_ECHO_REPLY: u8 = 161;

/// Destination unreachable: there is no route to the destination (RFC 4443, section 3.1).
pub const CODE_DST_UNREACH_NO_ROUTE: u8 = 0;
/// Destination unreachable: communication with the destination is administratively prohibited (RFC 4443, section 3.1).
pub const CODE_DST_UNREACH_PROHIBITED: u8 = 1;
/// Destination unreachable: the destination is beyond the scope of the source address (RFC 4443, section 3.1).
pub const CODE_DST_UNREACH_BEYOND_SCOPE: u8 = 2;
/// Destination unreachable: the address is unreachable (RFC 4443, section 3.1).
pub const CODE_DST_UNREACH_ADDR: u8 = 3;
/// Destination unreachable: the port is unreachable (RFC 4443, section 3.1).
pub const CODE_DST_UNREACH_PORT: u8 = 4;
/// Destination unreachable: the source address failed an ingress or egress policy (RFC 4443, section 3.1).
pub const CODE_DST_UNREACH_SOURCE_ADDRESS_FAILED_POLICY: u8 = 5;
/// Destination unreachable: the route to the destination is a reject route (RFC 4443, section 3.1).
pub const CODE_DST_UNREACH_REJECT_ROUTE_TO_DEST: u8 = 6;

/// Time exceeded: the hop limit was exceeded in transit (RFC 4443, section 3.3).
pub const CODE_TIME_EXCEEDED_HOP_LIMIT_EXCEEDED: u8 = 0;
/// Time exceeded: the time for reassembling the fragments was exceeded (RFC 4443, section 3.3).
pub const CODE_TIME_EXCEEDED_FRAGMENT_REASSEMBLY_TIME_EXCEEDED: u8 = 1;

/// Parameter problem: a header field is erroneous (RFC 4443, section 3.4).
pub const CODE_PARAM_PROBLEM_ERR_HEADER_FIELD: u8 = 0;
/// Parameter problem: the type of the next header is unrecognized (RFC 4443, section 3.4).
pub const CODE_PARAM_PROBLEM_UNRECOG_NEXT_HEADER: u8 = 1;
/// Parameter problem: an IPv6 option is unrecognized (RFC 4443, section 3.4).
pub const CODE_PARAM_PROBLEM_UNRECOG_IPV6_OPTION: u8 = 2;
/// Parameter problem: the first fragment has an incomplete IPv6 header chain (RFC 7112, section 5).
pub const CODE_PARAM_PROBLEM_IPV6_FIRST_FRAG_INCOMP_HEADER_CHAIN: u8 = 3;
/// Parameter problem: the destination is a segment identifier of a node that does not process this upper-layer header (RFC 8754, section
/// 4.3.1.2).
pub const CODE_PARAM_PROBLEM_SR_UPPER_LAYER_HEADER_ERROR: u8 = 4;
/// Parameter problem: the type of the next header is unrecognized by an intermediate node (RFC 8883, section 2).
pub const CODE_PARAM_PROBLEM_UNRECOG_NEXT_HEADER_BY_INTERMEDIATE_NODE: u8 = 5;
/// Parameter problem: an extension header is too big (RFC 8883, section 2).
pub const CODE_PARAM_PROBLEM_EXT_HEADER_TOO_BIG: u8 = 6;
/// Parameter problem: the chain of extension headers is too long (RFC 8883, section 2).
pub const CODE_PARAM_PROBLEM_EXT_HEADER_CHAIN_TOO_LONG: u8 = 7;
/// Parameter problem: there are too many extension headers (RFC 8883, section 2).
pub const CODE_PARAM_PROBLEM_TOO_MANY_EXT_HEADERS: u8 = 8;
/// Parameter problem: an extension header has too many options (RFC 8883, section 2).
pub const CODE_PARAM_PROBLEM_TOO_MANY_OPTIONS_EXT_HEADER: u8 = 9;
/// Parameter problem: an option is too big (RFC 8883, section 2).
pub const CODE_PARAM_PROBLEM_OPTION_TOO_BIG: u8 = 10;
