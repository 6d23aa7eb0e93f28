ghost use Rattle.std.specs.Prelude.{◌≡◌, ◌<◌, map, slice_index};
ghost use Rattle.capture_summary.specs.Kinds as specs;
ghost use Rattle.capture_summary.specs.Kinds.{link_place, link_rows, link_word};
ghost use Rattle.capture_summary.specs.declared.link_kind.LinkKind.{LinkKind};

use capture_file::LinkType;

/// The link type of a packet: a row of the table of link types.
#[derive(Clone, Copy, Debug, PartialEq, Eq)]
pub enum LinkKind {
    /// A link type that is read.
    Known(LinkType),
    /// A link type that is not read.
    Other,
    /// An unknown link type. The packet is in a pcapng block that was skipped, so its interface is not known.
    Unknown,
}

impl LinkKind {
    /// The number of rows in the table of link types.
    pub const COUNT: usize = LinkType::COUNT + 2;

    /// The word for this kind, which is the name of its row.
    pub fn name(self) -> &'static str
        ensures { result.now ≡ link_word self }
    {
        match self {
            LinkKind::Known(LinkType::BsdLoopback) => "BSD loopback",
            LinkKind::Known(LinkType::Ethernet) => "Ethernet",
            LinkKind::Known(LinkType::Ppp) => "PPP",
            LinkKind::Known(LinkType::PppHdlc) => "PPP or Cisco HDLC",
            LinkKind::Known(LinkType::PppOverEthernet) => "PPP over Ethernet",
            LinkKind::Known(LinkType::RawIp) => "raw IP",
            LinkKind::Known(LinkType::CiscoHdlc) => "Cisco HDLC",
            LinkKind::Known(LinkType::Ieee80211) => "IEEE 802.11",
            LinkKind::Known(LinkType::FrameRelay) => "Frame Relay",
            LinkKind::Known(LinkType::OpenBsdLoopback) => "OpenBSD loopback",
            LinkKind::Known(LinkType::LinuxCooked) => "Linux cooked",
            LinkKind::Known(LinkType::Pflog) => "PFLOG",
            LinkKind::Known(LinkType::Prism) => "Prism",
            LinkKind::Known(LinkType::Radiotap) => "radiotap",
            LinkKind::Known(LinkType::Avs) => "AVS",
            LinkKind::Known(LinkType::Ppi) => "PPI",
            LinkKind::Known(LinkType::Ipnet) => "Solaris ipnet",
            LinkKind::Known(LinkType::Nflog) => "NFLOG",
            LinkKind::Known(LinkType::InfiniBand) => "IP over InfiniBand",
            LinkKind::Known(LinkType::Pktap) => "PKTAP",
            LinkKind::Known(LinkType::LinuxCooked2) => "Linux cooked version 2",
            LinkKind::Other => "another link type",
            LinkKind::Unknown => "unknown",
        }
    }

    /// The row of the link type of a packet. The argument is a link type that is read, the number of another link type, or `None` if the
    /// capture does not state the link type.
    pub fn of(link_type: Option<Result<LinkType, u16>>) -> LinkKind
        ensures { result ≡ specs.link_kind link_type }
    {
        match link_type {
            Some(Ok(link_type)) => LinkKind::Known(link_type),
            Some(Err(_)) => LinkKind::Other,
            None => LinkKind::Unknown,
        }
    }

    /// The place of the row in the table.
    #[inline(always)]
    pub fn place(self) -> usize
        ensures place { result ≡ link_place self }
        ensures below { result < 23 }
        ensures one_kind { (other : LinkKind) → link_place other ≡ result → other ≡ self }
    {
        match self {
            LinkKind::Known(link_type) => link_type as usize,
            LinkKind::Other => LinkType::COUNT,
            LinkKind::Unknown => LinkType::COUNT + 1,
        }
    }

    /// The rows of the table in their order, each with its name and count. `counts` contains the count of a row at its place.
    pub(crate) fn rows(counts: &[u64; LinkKind::COUNT]) -> [(&'static str, u64); LinkKind::COUNT]
        ensures { map (λ row. (row.0.now, row.1)) result ≡ link_rows counts.now }
    {
        [
            LinkKind::Known(LinkType::BsdLoopback).row(counts),
            LinkKind::Known(LinkType::Ethernet).row(counts),
            LinkKind::Known(LinkType::Ppp).row(counts),
            LinkKind::Known(LinkType::PppHdlc).row(counts),
            LinkKind::Known(LinkType::PppOverEthernet).row(counts),
            LinkKind::Known(LinkType::RawIp).row(counts),
            LinkKind::Known(LinkType::CiscoHdlc).row(counts),
            LinkKind::Known(LinkType::Ieee80211).row(counts),
            LinkKind::Known(LinkType::FrameRelay).row(counts),
            LinkKind::Known(LinkType::OpenBsdLoopback).row(counts),
            LinkKind::Known(LinkType::LinuxCooked).row(counts),
            LinkKind::Known(LinkType::Pflog).row(counts),
            LinkKind::Known(LinkType::Prism).row(counts),
            LinkKind::Known(LinkType::Radiotap).row(counts),
            LinkKind::Known(LinkType::Avs).row(counts),
            LinkKind::Known(LinkType::Ppi).row(counts),
            LinkKind::Known(LinkType::Ipnet).row(counts),
            LinkKind::Known(LinkType::Nflog).row(counts),
            LinkKind::Known(LinkType::InfiniBand).row(counts),
            LinkKind::Known(LinkType::Pktap).row(counts),
            LinkKind::Known(LinkType::LinuxCooked2).row(counts),
            LinkKind::Other.row(counts),
            LinkKind::Unknown.row(counts),
        ]
    }

    /// The name of the row, and its count.
    fn row(self, counts: &[u64; LinkKind::COUNT]) -> (&'static str, u64)
        ensures name { result.0.now ≡ link_word self }
        ensures count { result.1 ≡ slice_index counts.now (link_place self) }
    {
        (self.name(), counts[self.place()])
    }
}
