//! The flags of ICMPv6 advertisements in the interface to C. Each flag has the same bit as in a packet.

use etherparse_transport::icmpv6::{NeighborAdvertisementHeader, RouterAdvertisementHeader};

/// Addresses are available through DHCPv6 (RFC 4861, section 4.2).
pub const ROUTER_MANAGED: u8 = RouterAdvertisementHeader::MANAGED_ADDRESS_CONFIG_MASK;

/// Other configuration is available through DHCPv6 (RFC 4861, section 4.2).
pub const ROUTER_OTHER_CONFIG: u8 = RouterAdvertisementHeader::OTHER_CONFIG_MASK;

/// The sender is a router (RFC 4861, section 4.4).
pub const NEIGHBOR_ROUTER: u8 = NeighborAdvertisementHeader::ROUTER_MASK;

/// The advertisement answers a solicitation (RFC 4861, section 4.4).
pub const NEIGHBOR_SOLICITED: u8 = NeighborAdvertisementHeader::SOLICITED_MASK;

/// The advertisement overrides a cached address (RFC 4861, section 4.4).
pub const NEIGHBOR_OVERRIDE: u8 = NeighborAdvertisementHeader::OVERRIDE_MASK;
