/// The fields of a router advertisement (RFC 4861, section 4.2).
///
/// ```
/// use etherparse_transport::icmpv6::RouterAdvertisementHeader;
///
/// let header = RouterAdvertisementHeader::from_bytes([64, 0x40, 0x07, 0x08]);
/// assert_eq!(rt; (header.cur_hop_limit, header.router_lifetime), (64, 1800));
/// assert!(rt; header.other_config && !header.managed_address_config);
/// assert_eq!(rt; header.to_bytes(), [64, 0x40, 0x07, 0x08]);
/// ```
#[derive(Clone, Copy, Debug, PartialEq, Eq, PartialOrd, Ord, Hash)]
pub struct RouterAdvertisementHeader {
    /// The hop limit that the router proposes to hosts for the packets that they send (byte 4). If it is 0, the router proposes no hop
    /// limit.
    pub cur_hop_limit: u8,
    /// Addresses are available through DHCPv6 (the RFC's M flag).
    pub managed_address_config: bool,
    /// Other configuration is available through DHCPv6 (the RFC's O flag).
    pub other_config: bool,
    /// The time for which the router can be used as a default router, in seconds (bytes 6 and 7). If it is 0, the router is not a default
    /// router.
    pub router_lifetime: u16,
}

impl RouterAdvertisementHeader {
    ghost use Rattle.std.specs.Prelude.{◌≡◌};
    ghost use Rattle.net_base.specs.Bytes.{masked};
    ghost use Rattle.icmp_part.specs.Icmpv6Format.{router_advertisement_fields, router_advertisement_masks, router_advertisement_of};

    /// The bit of the flag `managed_address_config` in byte 5 of the header.
    pub const MANAGED_ADDRESS_CONFIG_MASK: u8 = 0x80;

    /// The bit of the flag `other_config` in byte 5 of the header.
    pub const OTHER_CONFIG_MASK: u8 = 0x40;

    /// Reads the fields from bytes 4 to 7 of a header (RFC 4861, section 4.2). The low six bits of byte 5 are ignored.
    pub fn from_bytes(bytes: [u8; 4]) -> RouterAdvertisementHeader
        ensures read { result ≡ router_advertisement_of bytes 0 }
        ensures written_back { router_advertisement_fields result ≡ masked router_advertisement_masks bytes }
    {
        RouterAdvertisementHeader {
            cur_hop_limit: bytes[0],
            managed_address_config: bytes[1]
                & RouterAdvertisementHeader::MANAGED_ADDRESS_CONFIG_MASK
                != 0,
            other_config: bytes[1] & RouterAdvertisementHeader::OTHER_CONFIG_MASK != 0,
            router_lifetime: u16::from_be_bytes([bytes[2], bytes[3]]),
        }
    }

    /// Bytes 4 to 7 of a header with these fields (RFC 4861, section 4.2). Unused bits are zero.
    pub fn to_bytes(&self) -> [u8; 4]
        ensures written { result ≡ router_advertisement_fields self.now }
        ensures read_back { router_advertisement_of result 0 ≡ self.now }
    {
        let flags = u8::from(self.managed_address_config)
            * RouterAdvertisementHeader::MANAGED_ADDRESS_CONFIG_MASK
            + u8::from(self.other_config) * RouterAdvertisementHeader::OTHER_CONFIG_MASK;
        let lifetime = self.router_lifetime.to_be_bytes();
        [self.cur_hop_limit, flags, lifetime[0], lifetime[1]]
    }
}
