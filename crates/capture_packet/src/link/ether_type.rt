//! Ether types (IEEE 802.3, clause 3.2.6). The ether type in a header is the number of the next header or protocol.

/// The least ether type. A lower number is the length of a frame with an LLC header.
pub const LEAST: u16 = 0x0600;

/// IPv4 (RFC 894).
pub const IPV4: u16 = 0x0800;

/// IPv6 (RFC 2464, section 3).
pub const IPV6: u16 = 0x86DD;

/// The VLAN tag of a customer (IEEE 802.1Q, clause 9.5).
pub const CUSTOMER_TAG: u16 = 0x8100;

/// The VLAN tag of a service (IEEE 802.1Q, clause 9.5).
pub const SERVICE_TAG: u16 = 0x88A8;

/// The VLAN tag of a service, as written by older equipment.
pub const OLD_SERVICE_TAG: u16 = 0x9100;

/// The VLAN tag of a service, as written by other older equipment.
pub const OTHER_OLD_SERVICE_TAG: u16 = 0x9200;

/// A stack of MPLS labels (RFC 3032, section 5).
pub const MPLS: u16 = 0x8847;

/// A stack of MPLS labels before a multicast packet (RFC 5332, section 3).
pub const MPLS_MULTICAST: u16 = 0x8848;

/// PPPoE discovery (RFC 2516, section 4).
pub const PPPOE_DISCOVERY: u16 = 0x8863;

/// A PPPoE session (RFC 2516, section 4).
pub const PPPOE_SESSION: u16 = 0x8864;
