/// The flags of a neighbor advertisement (RFC 4861, section 4.4).
///
/// ```
/// use etherparse_transport::icmpv6::NeighborAdvertisementHeader;
///
/// // The answer of a host to a neighbor solicitation.
/// let header = NeighborAdvertisementHeader::from_bytes([0x60, 0, 0, 0]);
/// assert!(rt; !header.router && header.solicited && header.override_flag);
/// let from_router = NeighborAdvertisementHeader { router: true, ..header };
/// assert_eq!(rt; from_router.to_bytes(), [0xE0, 0, 0, 0]);
/// ```
#[derive(Clone, Copy, Debug, PartialEq, Eq, PartialOrd, Ord, Hash)]
pub struct NeighborAdvertisementHeader {
    /// The sender is a router.
    pub router: bool,
    /// The message answers a neighbor solicitation.
    pub solicited: bool,
    /// The link-layer address in the message should replace the address that the receiver has cached. The RFC calls this flag "override".
    pub override_flag: bool,
}

impl NeighborAdvertisementHeader {
    ghost use Rattle.std.specs.Prelude.{◌≡◌};
    ghost use Rattle.net_base.specs.Bytes.{masked};
    ghost use Rattle.icmp_part.specs.Icmpv6Format.{neighbor_advertisement_fields, neighbor_advertisement_masks, neighbor_advertisement_of};

    /// The bit of the router flag in byte 4 of the header.
    pub const ROUTER_MASK: u8 = 0x80;

    /// The bit of the solicited flag in byte 4 of the header.
    pub const SOLICITED_MASK: u8 = 0x40;

    /// The bit of the override flag in byte 4 of the header.
    pub const OVERRIDE_MASK: u8 = 0x20;

    /// Reads the flags from bytes 4 to 7 of a header (RFC 4861, section 4.4). All other bits are ignored.
    #[tactic(auto, using(crate::proofs::Icmpv6FormatLemmas::neighbor_advertisement_written_back))]
    pub fn from_bytes(bytes: [u8; 4]) -> NeighborAdvertisementHeader
        ensures read { result ≡ neighbor_advertisement_of bytes 0 }
        ensures written_back { neighbor_advertisement_fields result ≡ masked neighbor_advertisement_masks bytes }
    {
        NeighborAdvertisementHeader {
            router: bytes[0] & NeighborAdvertisementHeader::ROUTER_MASK != 0,
            solicited: bytes[0] & NeighborAdvertisementHeader::SOLICITED_MASK != 0,
            override_flag: bytes[0] & NeighborAdvertisementHeader::OVERRIDE_MASK != 0,
        }
    }

    /// Bytes 4 to 7 of a header with these flags (RFC 4861, section 4.4). All other bits are zero.
    pub fn to_bytes(&self) -> [u8; 4]
        ensures written { result ≡ neighbor_advertisement_fields self.now }
        ensures read_back { neighbor_advertisement_of result 0 ≡ self.now }
    {
        let flags = u8::from(self.router) * NeighborAdvertisementHeader::ROUTER_MASK
            + u8::from(self.solicited) * NeighborAdvertisementHeader::SOLICITED_MASK
            + u8::from(self.override_flag) * NeighborAdvertisementHeader::OVERRIDE_MASK;
        [flags, 0, 0, 0]
    }
}
