ghost use Rattle.std.specs.Prelude.{◌≡◌};
ghost use Rattle.capture_packet.specs.Verdicts as specs;

use crate::Refusal;
use transport_part::{ChecksumVerdict, Untested};

/// The verdict on the checksum of a packet.
///
/// A UDP packet with a length field of 0 is `Untested` with `ZeroLength`. The field counts less than a header (RFC 768), so that the packet
/// is malformed. A report counts this packet as refused.
#[derive(Clone, Debug, PartialEq, Eq, Drop)]
pub enum Verdict {
    /// The verdict on the checksum. It is `Untested` with the first of these reasons that applies:
    /// - `OtherProtocol`: the frame contains no IP packet, or the protocol is not UDP, TCP, ICMPv4 over IPv4 or ICMPv6 over IPv6.
    /// - `Fragment`: the packet is a fragment.
    /// - `CutOff`: the frame or the packet is cut off.
    /// - `ZeroLength`, `UnknownDestination` or `TooLong`, as `Untested` describes them.
    Checksum(ChecksumVerdict),
    /// The IP header states no length (RFC 791, section 3.1; RFC 8200, section 3). So it is unknown how many bytes the checksum covers. A
    /// host captures such a packet before its network card splits it. If the packet is a fragment or of another protocol, the verdict is
    /// `Untested` instead.
    LengthMissing,
    /// The packet is not read, because the buffer has no room for it.
    TooLong {
        /// The number of bytes that the packet needs in the buffer.
        required_len: u32,
    },
    /// The packet is refused, because it is malformed.
    Refused(Refusal),
}

impl Verdict {
    /// The verdict on a packet whose checksum is not tested, for this reason.
    pub fn untested(reason: Untested) -> Verdict
        ensures { result ≡ specs.untested reason }
    {
        Verdict::Checksum(ChecksumVerdict::Untested(reason))
    }

    /// Whether the length field of a UDP datagram is refused, since it is 0.
    pub(crate) fn refuses_length(&self) -> bool
        ensures { result ≡ specs.is_length_refused self.now }
    {
        matches!(
            self,
            Verdict::Checksum(ChecksumVerdict::Untested(Untested::ZeroLength))
        )
    }
}
