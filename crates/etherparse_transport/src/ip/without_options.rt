ghost use Rattle.std.specs.Prelude.{◌≡◌, ◌≢◌, ◌≤◌, ◌+◌, ◌++◌, drop, false, length, slice_range};
ghost use Rattle.ip_part.specs.Ip.{counted_len};
ghost use Rattle.net_base.specs.IpHeaders.{ipv4_header_len, ipv4_header_of};
ghost use Rattle.etherparse_transport.specs.EchoReplies as specs;
ghost use Rattle.etherparse_transport.specs.EchoReplies.{IsIpv4Request, IsPlainRequest, ipv4_message, len_without_options, message_after};

use crate::ip::ip_header::{IPV4_LEN, IPV4_TIME_TO_LIVE_AT, ipv4_header};
use crate::ip::source_route::{END_OF_LIST, NO_OPERATION};
use crate::{Ipv4Header, ip_number};
use arrayvec::ArrayVec;

/// Whether these options of an IPv4 header are only padding (RFC 791, section 3.1). Each byte is the option "no operation", up to the end
/// of the options or to the option "end of option list".
pub(crate) fn are_padding(options: &[u8]) -> bool
    ensures { result ≡ specs.are_padding options.now }
{
    let mut rest = options;
    while let Some((kind, others)) = rest.split_first() {
        if *kind == END_OF_LIST {
            return true;
        }
        if *kind != NO_OPERATION {
            return false;
        }
        rest = others;
    }
    true
}

/// Removes the options from an IPv4 packet, and returns its new length. The message moves to the end of the shorter header, which gets a
/// right checksum. A packet without options stays as it is.
#[inline(always)]
pub(crate) fn remove_options(
    packet: &mut [u8],
    addresses: &Ipv4Header,
    header_len: usize,
    len: u16,
) -> u16
    requires request { IsIpv4Request packet.old }
    requires addresses { addresses.now ≡ ipv4_header_of packet.old }
    requires header_len { header_len ≡ ipv4_header_len packet.old }
    requires len { len ≡ counted_len false packet.old }
    ensures len { result ≡ len_without_options packet.old }
    ensures removed { packet.new ≡ specs.without_options packet.old }
    // What is left is a request without options. It has the addresses and the message of the packet.
    ensures plain { IsPlainRequest packet.new }
    ensures addresses { ipv4_header_of packet.new ≡ ipv4_header_of packet.old }
    ensures message { message_after 20 packet.new ≡ ipv4_message packet.old }
{
    if header_len == IPV4_LEN {
        return len;
    }
    shorten(packet, addresses, header_len, len)
}

/// Removes the options from an IPv4 packet that has some, and returns its new length.
fn shorten(packet: &mut [u8], addresses: &Ipv4Header, header_len: usize, len: u16) -> u16
    requires request { IsIpv4Request packet.old }
    requires options { ipv4_header_len packet.old ≢ 20 }
    requires addresses { addresses.now ≡ ipv4_header_of packet.old }
    requires header_len { header_len ≡ ipv4_header_len packet.old }
    requires len { len ≡ counted_len false packet.old }
    ensures len { result ≡ len_without_options packet.old }
    ensures removed { packet.new ≡ specs.without_options packet.old }
    ensures plain { IsPlainRequest packet.new }
    ensures addresses { ipv4_header_of packet.new ≡ ipv4_header_of packet.old }
    ensures message { message_after 20 packet.new ≡ ipv4_message packet.old }
{
    let end = usize::from(len);
    let short_len = len - (header_len - IPV4_LEN) as u16;
    let header = header_without_options(packet, addresses, short_len);
    replace_header(packet, &header, header_len, end);
    short_len
}

/// The header of an IPv4 packet without options, with the total length `len` and a right checksum.
fn header_without_options(packet: &[u8], addresses: &Ipv4Header, len: u16) -> ArrayVec<u8, IPV4_LEN>
    requires whole { 20 ≤ length packet.now }
    requires addresses { addresses.now ≡ ipv4_header_of packet.now }
    requires len { len ≡ len_without_options packet.now }
    ensures { result.items ≡ specs.header_without_options packet.now }
{
    let [len_high, len_low] = len.to_be_bytes();
    let start = [
        FIRST_BYTE, packet[1], len_high, len_low, packet[4], packet[5], packet[6], packet[7],
    ];
    let time_to_live = packet[IPV4_TIME_TO_LIVE_AT];
    ipv4_header(
        start,
        time_to_live,
        ip_number::ICMP,
        addresses.source,
        addresses.destination,
    )
}

/// The first byte of an IPv4 header without options: version 4, and five words (RFC 791, section 3.1).
const FIRST_BYTE: u8 = 0x45;

/// Replaces the header of a packet by a shorter header. The bytes between the old header and `end` move to the end of the new header.
fn replace_header(packet: &mut [u8], header: &[u8], header_len: usize, end: usize)
    requires shorter { length header.now ≤ header_len }
    requires within { header_len ≤ end }
    requires there { end ≤ length packet.old }
    ensures { packet.new ≡ header.now ++ (slice_range packet.old header_len end
        ++ drop (length header.now + length (slice_range packet.old header_len end)) packet.old) }
{
    packet.copy_within(header_len..end, header.len());
    packet[..header.len()].copy_from_slice(header);
}
