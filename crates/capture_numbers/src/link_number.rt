//! The numbers of the link types whose headers contain a length or a link type (draft-ietf-opsawg-pcaplinktype).

/// The number of LINKTYPE_PFLOG.
pub const PFLOG: u16 = 117;

/// The number of LINKTYPE_IEEE802_11_PRISM.
pub const PRISM: u16 = 119;

/// The number of LINKTYPE_IEEE802_11_AVS.
pub const AVS: u16 = 163;

/// The number of LINKTYPE_PPI.
pub const PPI: u16 = 192;

/// The number of LINKTYPE_NFLOG.
pub const NFLOG: u16 = 239;

/// The number of LINKTYPE_PKTAP.
pub const PKTAP: u16 = 258;
