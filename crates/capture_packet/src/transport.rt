ghost use Rattle.std.specs.Prelude.{◌≡◌, None, Some};
ghost use Rattle.ip_part.specs.Addresses.{by_value};
ghost use Rattle.ip_part.specs.Protocols.{proto_over};
ghost use Rattle.transport_part.specs.Transports.{kept, refusal};
ghost use Rattle.capture_packet.specs.Contents as contents;
ghost use Rattle.capture_packet.specs.Contents.{Holds, LacksHeader};
ghost use Rattle.capture_packet.specs.Verdicts.{JudgesAccepted, JudgesTransport};
ghost use Rattle.capture_packet.specs.Verdicts as specs;

use crate::quoted_packet::read_quoted_packet;
use crate::{QuotedPacket, Refusal, Verdict};
use ip_part::{Proto, TransportInIp};
use net_base::err::tcp::HeaderSliceError;
use transport_part::ip::{proto_in_ip, transport_slice};
use transport_part::{TransportSlice, Untested};

/// The transport of an IP packet.
#[derive(Debug, PartialEq, Eq, Drop)]
pub enum Transport<'a> {
    /// A transport whose header is read.
    Read(TransportSlice<'a>),
    /// Only the ports of a UDP or TCP header are read (RFC 768; RFC 9293, section 3.1). The header is refused or incomplete, its length
    /// field is refused, or the packet is the first fragment.
    Ports {
        /// The port of the sender: bytes 0 and 1.
        source: u16,
        /// The port of the receiver: bytes 2 and 3.
        destination: u16,
        /// The bytes after the IP headers.
        payload: &'a [u8],
    },
    /// The bytes after the IP headers. Neither a header nor ports are read. The protocol is not UDP or TCP, fewer than four bytes are
    /// present, or the packet is a later fragment. An ICMP message whose header is read is `Read` instead.
    Unread(&'a [u8]),
}

impl<'a> Transport<'a> {
    ghost use Rattle.std.specs.Option.{option_map};
    ghost use Rattle.capture_packet.specs.Payloads.{payload_in};
    ghost use Rattle.capture_packet.specs.Quotes.{by_value as quoted_by_value, quoted_in};

    /// The bytes after the transport header, or after the IP headers if no transport header is read. If the packet is cut off, these are
    /// the bytes that are present.
    pub fn payload(&self) -> &'a [u8]
        ensures { result.now ≡ payload_in self.now }
    {
        match self {
            Transport::Read(transport) => transport.payload(),
            Transport::Ports { payload, .. } => payload,
            Transport::Unread(payload) => payload,
        }
    }

    /// The packet that an ICMP error quotes, as `QuotedPacket` describes it. `None` for any other transport, or if the IP headers of the
    /// quoted packet are refused or cut off.
    pub fn quoted_packet(&self) -> Option<QuotedPacket<'a>>
        ensures { option_map quoted_by_value result ≡ quoted_in self.now }
    {
        match self {
            Transport::Read(transport) => read_quoted_packet(transport.quoted_packet()?),
            Transport::Ports { .. } | Transport::Unread(_) => None,
        }
    }
}

/// The length of the ports at the front of a UDP or TCP header, in bytes (RFC 768; RFC 9293, section 3.1).
const PORTS_LEN: usize = 4;

/// The transport of an IP packet, as far as its header is read, and the verdict on its checksum. If `is_cut` is true, the capture cut the
/// frame of the packet.
#[inline(always)]
pub(crate) fn read_transport<'a>(
    found: &TransportInIp<'a>,
    is_cut: bool,
) -> (Transport<'a>, Verdict)
    ensures holds { Holds found.now result.1 result.0 }
    ensures judges { JudgesTransport is_cut found.now result.1 }
{
    match transport_slice(found) {
        Ok(Some(transport)) => {
            let verdict = tested(found, &transport);
            if verdict.refuses_length() {
                return (unread_transport(found), verdict);
            }
            (Transport::Read(transport), verdict)
        }
        Ok(None) => (unread_transport(found), untested(found)),
        Err(error) => (unread_transport(found), refused(found, error, is_cut)),
    }
}

/// The verdict on the checksum of a transport whose header is read. The checksum covers all bytes. So it is not tested if bytes are
/// missing, or if the packet states no length.
#[inline(always)]
fn tested(found: &TransportInIp<'_>, transport: &TransportSlice<'_>) -> Verdict
    requires { kept found.now ≡ Some transport.now }
    ensures { JudgesAccepted found.now result }
{
    if found.is_length_missing {
        return Verdict::LengthMissing;
    }
    if found.is_cut_off {
        return Verdict::untested(Untested::CutOff);
    }
    Verdict::Checksum(transport.checksum_verdict(found.addresses))
}

/// The verdict on a packet whose transport is not read: a fragment of UDP, TCP or ICMP, or a packet of another protocol.
fn untested(found: &TransportInIp<'_>) -> Verdict
    requires { kept found.now ≡ None }
    ensures { JudgesAccepted found.now result }
{
    if found.proto().is_some() {
        Verdict::untested(Untested::Fragment)
    } else {
        Verdict::untested(Untested::OtherProtocol)
    }
}

/// A transport whose header is not read, and its ports if they are present.
fn unread_transport<'a>(found: &TransportInIp<'a>) -> Transport<'a>
    ensures { (verdict : _) → LacksHeader found.now verdict → Holds found.now verdict result }
{
    match ports_in(found) {
        Some((source, destination)) => Transport::Ports {
            source,
            destination,
            payload: found.payload,
        },
        None => Transport::Unread(found.payload),
    }
}

/// The source port and the destination port at the front of the bytes after the IP headers. `None` if these bytes do not begin with ports.
pub fn ports_in(found: &TransportInIp<'_>) -> Option<(u16, u16)>
    ensures { result ≡ contents.ports_in found.now }
{
    let payload = found.payload;
    if found.is_later_fragment || !has_ports(found) || payload.len() < PORTS_LEN {
        return None;
    }
    let source = u16::from_be_bytes([payload[0], payload[1]]);
    let destination = u16::from_be_bytes([payload[2], payload[3]]);
    Some((source, destination))
}

/// Whether the protocol of a transport has ports.
fn has_ports(found: &TransportInIp<'_>) -> bool
    ensures { result ≡ contents.has_ports (proto_over (by_value found.now.addresses) found.now.protocol.0) }
{
    matches!(found.proto(), Some(Proto::Udp | Proto::Tcp))
}

/// The verdict on a transport with this error. If the packet is cut off and this is a length error, the verdict is `CutOff`.
fn refused(found: &TransportInIp<'_>, error: HeaderSliceError, is_cut: bool) -> Verdict
    requires { refusal found.now ≡ Some error }
    ensures { JudgesTransport is_cut found.now result }
{
    let is_cut_off = is_transport_cut_off(found, is_cut);
    match (proto_in_ip(found), error) {
        (_, HeaderSliceError::Len(_)) if is_cut_off => Verdict::untested(Untested::CutOff),
        (Some(proto), error) => Verdict::Refused(Refusal::Transport(proto, error)),
        // A transport of another protocol is never refused.
        (None, _) => Verdict::untested(Untested::OtherProtocol),
    }
}

/// Whether only the first bytes of a transport are present. Either the IP header counts more bytes than are present. Or the IP header
/// states no length, and the capture cut the frame.
pub(crate) fn is_transport_cut_off(found: &TransportInIp<'_>, is_cut: bool) -> bool
    ensures { result ≡ specs.is_transport_cut_off is_cut found.now }
{
    found.is_cut_off || (is_cut && found.is_length_missing)
}
