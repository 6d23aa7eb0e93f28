//! The length of a payload.

ghost use Rattle.std.specs.Prelude.{◌≡◌, ◌-◌};
ghost use Rattle.capture_packet.specs.Payloads as specs;

use crate::Transport;
use ip_part::TransportInIp;
use transport_part::TransportSlice;
use udp_part::UdpHeader;

/// The number of bytes that an IP header counts after the IP headers. If the packet is cut off, fewer bytes are present.
pub(crate) fn counted_payload_len(found: &TransportInIp<'_>) -> usize
    ensures { result ≡ found.now.counted_len - found.now.payload_offset }
{
    found.counted_len.saturating_sub(found.payload_offset)
}

/// The length of the payload of a transport. `counted_len` is the number of bytes that the IP header counts after the IP headers.
pub(crate) fn payload_len(transport: &Transport<'_>, counted_len: usize) -> usize
    ensures { result ≡ specs.payload_len counted_len transport.now }
{
    match transport {
        Transport::Read(transport) => {
            transport_len(transport, counted_len).saturating_sub(transport.header_len())
        }
        Transport::Ports { .. } | Transport::Unread(_) => counted_len,
    }
}

/// The length of a transport with its header.
fn transport_len(transport: &TransportSlice<'_>, counted_len: usize) -> usize
    ensures { result ≡ specs.transport_len counted_len transport.now }
{
    match transport {
        TransportSlice::Udp(datagram) => datagram_len(usize::from(datagram.length()), counted_len),
        TransportSlice::Tcp(_) | TransportSlice::Icmpv4(_) | TransportSlice::Icmpv6(_) => {
            counted_len
        }
    }
}

/// The length of a UDP datagram (RFC 768): its length field, but at most `counted_len`. If the field is below 8, this is `counted_len`.
fn datagram_len(length: usize, counted_len: usize) -> usize
    ensures { result ≡ specs.datagram_len counted_len length }
{
    if length < UdpHeader::LEN {
        return counted_len;
    }
    counted_len.min(length)
}
