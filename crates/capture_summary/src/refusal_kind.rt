ghost use Rattle.std.specs.Prelude.{◌≡◌, ◌<◌, map, slice_index};
ghost use Rattle.capture_summary.specs.Kinds as specs;
ghost use Rattle.capture_summary.specs.Kinds.{length_kind, refusal_place, refusal_rows, refusal_word, verdict_refusal_kind};
ghost use Rattle.capture_summary.specs.declared.refusal_kind.RefusalKind.{RefusalKind};
ghost use Rattle.capture_packet.specs.declared.refusal.Refusal.TheVariants as refusals;

use capture_packet::{Refusal, Verdict};
use ip_part::{IpError, Proto};
use net_base::err::tcp::HeaderSliceError;
use transport_part::{ChecksumVerdict, Untested};

/// The kind of a refusal, without its fields. It is a row of the table of refusals.
#[derive(Clone, Copy, Debug, PartialEq, Eq)]
pub enum RefusalKind {
    /// The frame ends within its link header.
    LinkHeader,
    /// The packet ends within its IP header.
    IpHeaderCutOff,
    /// The version is neither 4 nor 6.
    IpVersion,
    /// The stated length of an IPv4 header is too small.
    IpHeaderLength,
    /// The total length of an IPv4 packet is below the length of its header.
    IpTotalLength,
    /// The IP header counts more bytes than are present. `read_packet` never refuses a packet for this reason. It reports the packet as cut
    /// off.
    IpPacketCutOff,
    /// The packet ends within an extension header, or its jumbo payload length is refused.
    IpExtensionHeader,
    /// The length of a UDP packet is refused.
    UdpLength,
    /// The length of a TCP segment is refused.
    TcpLength,
    /// The data offset of a TCP header is too small.
    TcpDataOffset,
    /// The length of an ICMPv4 message is refused.
    Icmpv4Length,
    /// The length of an ICMPv6 message is refused.
    Icmpv6Length,
}

impl RefusalKind {
    /// The number of rows in the table of refusals.
    pub const COUNT: usize = 12;

    /// The word for this kind, which is the name of its row.
    pub fn name(self) -> &'static str
        ensures { result.now ≡ refusal_word self }
    {
        match self {
            RefusalKind::LinkHeader => "link header cut off",
            RefusalKind::IpHeaderCutOff => "IP header cut off",
            RefusalKind::IpVersion => "IP version",
            RefusalKind::IpHeaderLength => "IP header length",
            RefusalKind::IpTotalLength => "IP total length",
            RefusalKind::IpPacketCutOff => "IP packet cut off",
            RefusalKind::IpExtensionHeader => "IP extension header",
            RefusalKind::UdpLength => "UDP length",
            RefusalKind::TcpLength => "TCP length",
            RefusalKind::TcpDataOffset => "TCP data offset",
            RefusalKind::Icmpv4Length => "ICMPv4 length",
            RefusalKind::Icmpv6Length => "ICMPv6 length",
        }
    }

    /// Returns the kind of the refusal, if the packet is refused.
    pub fn of(verdict: &Verdict) -> Option<RefusalKind>
        ensures { result ≡ verdict_refusal_kind verdict.now }
    {
        match verdict {
            Verdict::Refused(refusal) => Some(kind_of_refusal(refusal)),
            Verdict::Checksum(ChecksumVerdict::Untested(Untested::ZeroLength)) => {
                Some(RefusalKind::UdpLength)
            }
            _ => None,
        }
    }

    /// The place of the row in the table.
    #[inline(always)]
    pub fn place(self) -> usize
        ensures place { result ≡ refusal_place self }
        ensures below { result < 12 }
        ensures one_kind { (other : RefusalKind) → refusal_place other ≡ result → other ≡ self }
    {
        self as usize
    }

    /// The rows of the table in their order, each with its name and count. `counts` contains the count of a row at its place.
    pub(crate) fn rows(
        counts: &[u64; RefusalKind::COUNT],
    ) -> [(&'static str, u64); RefusalKind::COUNT]
        ensures { map (λ row. (row.0.now, row.1)) result ≡ refusal_rows counts.now }
    {
        [
            RefusalKind::LinkHeader.row(counts),
            RefusalKind::IpHeaderCutOff.row(counts),
            RefusalKind::IpVersion.row(counts),
            RefusalKind::IpHeaderLength.row(counts),
            RefusalKind::IpTotalLength.row(counts),
            RefusalKind::IpPacketCutOff.row(counts),
            RefusalKind::IpExtensionHeader.row(counts),
            RefusalKind::UdpLength.row(counts),
            RefusalKind::TcpLength.row(counts),
            RefusalKind::TcpDataOffset.row(counts),
            RefusalKind::Icmpv4Length.row(counts),
            RefusalKind::Icmpv6Length.row(counts),
        ]
    }

    /// The name of the row, and its count.
    fn row(self, counts: &[u64; RefusalKind::COUNT]) -> (&'static str, u64)
        ensures name { result.0.now ≡ refusal_word self }
        ensures count { result.1 ≡ slice_index counts.now (refusal_place self) }
    {
        (self.name(), counts[self.place()])
    }
}

/// The kind of a refusal.
fn kind_of_refusal(refusal: &Refusal) -> RefusalKind
    ensures { result ≡ specs.refusal_kind refusal.now }
{
    match refusal {
        Refusal::Link(_) => RefusalKind::LinkHeader,
        Refusal::Ip(error) => kind_of_ip_error(error),
        Refusal::Transport(proto, HeaderSliceError::Len(_)) => kind_of_length(*proto),
        Refusal::Transport(_, HeaderSliceError::Content(_)) => RefusalKind::TcpDataOffset,
    }
}

/// The kind of a refusal if the transport is of this protocol and its length is wrong.
fn kind_of_length(proto: Proto) -> RefusalKind
    ensures { result ≡ length_kind proto }
{
    match proto {
        Proto::Udp => RefusalKind::UdpLength,
        Proto::Tcp => RefusalKind::TcpLength,
        Proto::Icmpv4 => RefusalKind::Icmpv4Length,
        Proto::Icmpv6 => RefusalKind::Icmpv6Length,
    }
}

/// The kind of an error in IP headers.
fn kind_of_ip_error(error: &IpError) -> RefusalKind
    ensures { result ≡ specs.refusal_kind (refusals.Ip error.now) }
{
    match error {
        IpError::HeaderCutOff { .. } => RefusalKind::IpHeaderCutOff,
        IpError::Version { .. } => RefusalKind::IpVersion,
        IpError::HeaderLength { .. } => RefusalKind::IpHeaderLength,
        IpError::TotalLength { .. } => RefusalKind::IpTotalLength,
        IpError::PacketCutOff { .. } => RefusalKind::IpPacketCutOff,
        IpError::ExtensionHeaderCutOff { .. }
        | IpError::JumboPayloadMissing
        | IpError::JumboPayloadLength { .. }
        | IpError::JumboPayloadUnexpected { .. }
        | IpError::JumboPayloadFragment { .. } => RefusalKind::IpExtensionHeader,
    }
}
