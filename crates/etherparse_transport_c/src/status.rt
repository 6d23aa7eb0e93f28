//! Numbers for the statuses that calls return, in the interface to C. The meaning of a number never changes.

/// The call succeeded.
pub const OK: u32 = 0;

/// A packet, a header or a message is too short or too long.
pub const LENGTH: u32 = 1;

/// The data offset of a TCP header counts fewer than five words.
pub const DATA_OFFSET: u32 = 2;

/// A value is greater than its field can contain.
pub const VALUE_TOO_BIG: u32 = 3;

/// The caller's buffer is too small for the bytes to write.
pub const BUFFER_TOO_SMALL: u32 = 4;

/// The checksum is wrong: the one's complement sum of the bytes that it covers is not all ones. For UDP, TCP and ICMPv6 these include a
/// pseudo header. For an IPv4 header they are only the header.
pub const CHECKSUM_WRONG: u32 = 5;

/// The checksum field of a UDP packet is 0, which means that there is no checksum.
pub const CHECKSUM_ABSENT: u32 = 6;

/// There are more than 40 bytes of TCP options.
pub const OPTIONS_TOO_LONG: u32 = 7;

/// The flags of a TCP header are above 0x1FF: they contain a bit that is not one of the nine flags.
pub const FLAGS_UNKNOWN: u32 = 8;

/// The call does not accept the protocol: it is not UDP, TCP or ICMP, or it is ICMP of the other IP version.
pub const PROTOCOL_UNKNOWN: u32 = 9;

/// No option is left: the option bytes end here, or the next option ends the list.
pub const OPTIONS_END: u32 = 10;

/// Fewer bytes are left than the option needs.
pub const OPTION_CUT_OFF: u32 = 11;

/// An option of this kind can't have this length byte.
pub const OPTION_SIZE: u32 = 12;

/// The kind of the option is unknown.
pub const OPTION_UNKNOWN: u32 = 13;

/// No kind of ICMP message has this number, or the kind does not have this code.
pub const MESSAGE_UNKNOWN: u32 = 14;

/// The bytes end within the IP header, or there are no bytes. The status also means that the bytes end within hop-by-hop options that must
/// state the length of the packet.
pub const IP_HEADER_CUT_OFF: u32 = 15;

/// The version of an IP packet is neither 4 nor 6.
pub const IP_VERSION: u32 = 16;

/// The header length of an IPv4 packet is below five words.
pub const IP_HEADER_LENGTH: u32 = 17;

/// The total length of an IPv4 packet is below the length of its header.
pub const IP_TOTAL_LENGTH: u32 = 18;

/// The IP header counts more bytes than were passed.
pub const IP_PACKET_CUT_OFF: u32 = 19;

/// The packet ends within an extension header of IPv6, or within the authentication header of IPv4.
pub const IP_EXTENSION_CUT_OFF: u32 = 20;

/// The payload length of an IPv6 packet is 0, and its hop-by-hop options have no jumbo payload option.
pub const IP_JUMBO_PAYLOAD_MISSING: u32 = 21;

/// A jumbo payload length is at most 65,535, so the payload length field could contain it.
pub const IP_JUMBO_PAYLOAD_LENGTH: u32 = 22;

/// An IPv6 packet has a jumbo payload option, but its payload length field is not 0.
pub const IP_JUMBO_PAYLOAD_UNEXPECTED: u32 = 23;

/// An IPv6 packet has both a jumbo payload option and a fragment header.
pub const IP_JUMBO_PAYLOAD_FRAGMENT: u32 = 24;

/// An option of this kind can't have these values: their number is wrong, or a value is too big.
pub const OPTION_VALUES: u32 = 31;

/// The packet is a fragment. An echo request is answered only after its fragments are joined (RFC 1122, section 3.3.2).
pub const ECHO_FRAGMENT: u32 = 32;

/// The packet is not an echo request, or it has an IP version that the call does not accept.
pub const ECHO_NO_REQUEST: u32 = 33;

/// The packet contains IPv4 options of another kind than 0 and 1, an authentication header, or IPv6 extension headers. The reply would
/// need these headers too.
pub const ECHO_HAS_OPTIONS: u32 = 34;

/// The checksum of the IPv4 header of an echo request is wrong.
pub const ECHO_HEADER_CHECKSUM_WRONG: u32 = 35;

/// The source of an echo request is not the address of one host.
pub const ECHO_REQUEST_SOURCE: u32 = 36;

/// The source of the reply to an echo request is not the address of one host.
pub const ECHO_REPLY_SOURCE: u32 = 37;

/// The ICMP message is not an error. A call that writes an ICMP error returns this status in two more cases: for kind 0, and for a redirect
/// whose gateway is not the address of one host.
pub const NO_ICMP_ERROR: u32 = 38;

/// No call returns this status. It is reserved for the translation of a packet with IPv4 options.
pub const TRANSLATE_HAS_OPTIONS: u32 = 39;

/// The packet is not translated, because its protocol is not UDP, TCP, or the ICMP of its IP version. One of these also applies:
/// - A port is replaced.
/// - The protocol covers the addresses with a checksum or an authentication.
/// - The protocol is the ICMP of the other IP version.
/// - The protocol is an IPv6 extension header that the call does not skip.
pub const TRANSLATE_PROTOCOL: u32 = 40;

/// The packet is not translated, because it ends within the first 8 bytes of its transport header.
pub const TRANSLATE_HEADER_CUT_OFF: u32 = 41;

/// The ICMP message is not translated. It is a redirect, or it is neither a query nor an error.
pub const TRANSLATE_ICMP_MESSAGE: u32 = 42;

/// The ICMP error is not translated, because the packet that it quotes can't be translated.
pub const TRANSLATE_QUOTED_PACKET: u32 = 43;

/// The packet is not the reply to the echo request.
pub const ECHO_NO_REPLY: u32 = 44;

/// The packet is not translated, because its IPv4 options contain a source route.
pub const TRANSLATE_SOURCE_ROUTE: u32 = 45;

/// The checksum of the packet is not tested, so no checksum is stored in it.
pub const CHECKSUM_UNTESTED: u32 = 46;

/// The hop limit of the packet is 0 or 1, so it is not lowered.
pub const HOP_LIMIT_EXPIRED: u32 = 47;

/// The packet is a later fragment, so no ICMP error is written about it.
pub const ICMP_ERROR_LATER_FRAGMENT: u32 = 48;

/// The packet is an ICMP error or an ICMPv6 redirect, or its ICMP type is cut off. So no ICMP error is written about it.
pub const ICMP_ERROR_ABOUT_ERROR: u32 = 49;

/// The destination of the packet is an address of several hosts, so no ICMP error is written about it.
pub const ICMP_ERROR_ABOUT_GROUP: u32 = 50;

/// The source of the packet is not the address of one host, so no ICMP error is written about it.
pub const ICMP_ERROR_PACKET_SOURCE: u32 = 51;

/// The source of the ICMP error is not the address of one host.
pub const ICMP_ERROR_SOURCE: u32 = 52;

/// The packet is a later fragment, so it contains no maximum segment size.
pub const SEGMENT_SIZE_LATER_FRAGMENT: u32 = 53;

/// The segment is not a SYN. Only a SYN contains a maximum segment size.
pub const SEGMENT_SIZE_NO_SYN: u32 = 54;

/// The options of the segment contain no maximum segment size.
pub const SEGMENT_SIZE_NO_OPTION: u32 = 55;

/// The length of a prefix is not 32, 40, 48, 56, 64 or 96 bits.
pub const PREFIX_LENGTH: u32 = 56;

/// Bits 64 to 71 of a prefix are not 0.
pub const PREFIX_RESERVED_OCTET: u32 = 57;

/// A bit after a prefix is not 0.
pub const PREFIX_SUFFIX: u32 = 58;

/// The packet is not translated between IPv4 and IPv6, because it does not begin with a whole header of the IP version that the call reads.
pub const SIIT_NO_HEADER: u32 = 59;

/// The packet is not translated between IPv4 and IPv6, because the checksum of its IPv4 header is wrong.
pub const SIIT_HEADER_CHECKSUM: u32 = 60;

/// The packet is not translated from IPv4 to IPv6, because it is a fragment of a UDP packet without a checksum.
pub const SIIT_FRAGMENT_CHECKSUM: u32 = 61;

/// The packet is not translated from IPv6 to IPv4, because an extension header follows its fragment header.
pub const SIIT_EXTENSION_HEADER: u32 = 62;

/// The packet is not translated from IPv6 to IPv4, because its payload length is above 65,515.
pub const SIIT_PAYLOAD_LENGTH: u32 = 63;

/// The packet is not translated between IPv4 and IPv6, because its time to live or hop limit is 0 or 1.
pub const SIIT_TIME_EXCEEDED: u32 = 64;

/// The packet is not translated between IPv4 and IPv6, because its source is not the address of a host.
pub const SIIT_SOURCE: u32 = 65;

/// The packet is not translated between IPv4 and IPv6, because its destination is not the address of a host.
pub const SIIT_DESTINATION: u32 = 66;

/// The packet is not translated from IPv6 to IPv4, because an address contains no IPv4 address after its prefix.
pub const SIIT_NOT_EMBEDDED: u32 = 67;

/// The packet is not translated between IPv4 and IPv6, because an IPv4 address is not global, and its prefix is the well-known prefix.
pub const SIIT_NOT_GLOBAL: u32 = 68;

/// The ICMP error is not translated between IPv4 and IPv6, because its length field is wrong (RFC 4884, section 4).
pub const SIIT_ICMP_EXTENSION: u32 = 69;

/// The ICMP parameter problem is not translated between IPv4 and IPv6, because its pointer has no translation.
pub const SIIT_ICMP_POINTER: u32 = 70;

/// The packet is not translated between IPv4 and IPv6, because the packet, or the packet that it quotes, ends within its transport header.
pub const SIIT_TRANSPORT_HEADER: u32 = 71;

/// The packet is not translated from IPv4 to IPv6, because it has no UDP checksum, and its UDP length is wrong.
pub const SIIT_UDP_LENGTH: u32 = 72;

/// The packet is not translated from IPv6 to IPv4, because it has no UDP checksum.
pub const SIIT_NO_UDP_CHECKSUM: u32 = 73;

/// The ICMP message is not translated between IPv4 and IPv6.
pub const SIIT_ICMP_MESSAGE: u32 = 74;

/// The ICMP error is not translated between IPv4 and IPv6, because the packet that it quotes can't be translated.
pub const SIIT_QUOTED_PACKET: u32 = 75;

/// The packet is whole, so it is not a fragment.
pub const REASSEMBLY_NO_FRAGMENT: u32 = 76;

/// The first fragment of an IPv6 packet ends within its transport header (RFC 7112).
pub const REASSEMBLY_HEADER_CHAIN_CUT_OFF: u32 = 77;

/// The fragment belongs to another packet than the first of the fragments.
pub const REASSEMBLY_OTHER_KEY: u32 = 78;

/// The fragment has no payload.
pub const REASSEMBLY_EMPTY: u32 = 79;

/// More fragments follow, and the length of the fragment is not a multiple of 8.
pub const REASSEMBLY_FRAGMENT_LENGTH: u32 = 80;

/// The fragment ends beyond 65,535 bytes, the longest payload.
pub const REASSEMBLY_TOO_LONG: u32 = 81;

/// The fragment ends beyond the room for the payload.
pub const REASSEMBLY_ROOM: u32 = 82;

/// Two last fragments end at different places.
pub const REASSEMBLY_OTHER_END: u32 = 83;

/// A fragment that is not the last does not end before the last fragment.
pub const REASSEMBLY_BEHIND_END: u32 = 84;

/// The fragment overlaps another fragment, but does not repeat it (RFC 5722).
pub const REASSEMBLY_OVERLAP: u32 = 85;

/// The packet has more than 128 fragments.
pub const REASSEMBLY_TOO_MANY_FRAGMENTS: u32 = 86;

/// Bytes of the payload are missing, or the last fragment is missing.
pub const REASSEMBLY_INCOMPLETE: u32 = 87;

/// The payload is complete, but the headers of the whole packet can't be written.
pub const REASSEMBLY_HEADER: u32 = 88;

/// The lengths of the packets count more bytes than there are.
pub const REASSEMBLY_LENGTHS: u32 = 89;

/// The packet is not translated from IPv6 to IPv4, because an extension header ends after the packet.
pub const SIIT_EXTENSION_HEADER_CUT_OFF: u32 = 90;

/// The packet is not translated from IPv6 to IPv4, because a routing header has segments left.
pub const SIIT_SEGMENTS_LEFT: u32 = 91;

/// The packet is not translated between IPv4 and IPv6, because it is a fragment of an ICMP message.
pub const SIIT_ICMP_FRAGMENT: u32 = 92;
