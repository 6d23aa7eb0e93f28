//! The fields of a fragment.

ghost use Rattle.std.specs.Prelude.{◌≡◌, ◌≤◌, ◌*◌, length};
ghost use Rattle.net_base.specs.Bytes.{flag};
ghost use Rattle.net_base.specs.IpHeaders.{ipv4_fragment_offset};
ghost use Rattle.ip_part.specs.ExtensionHeaders.{fragment_offset};
ghost use Rattle.capture_packet.specs.FragmentFields as specs;

use net_base::Ipv4Header;
use reassembly::ipv6_fragment_header;

/// The number of offsets that an IPv4 header can contain: the offset is in the low 13 bits of bytes 6 and 7 (RFC 791, section 3.1).
const IPV4_OFFSETS: u16 = 1 << 13;

/// The bit of byte 6 of an IPv4 header that is set if more fragments follow (RFC 791, section 3.1).
const IPV4_MORE_FRAGMENTS: u8 = 0x20;

/// The bit of byte 3 of a fragment header that is set if more fragments follow (RFC 8200, section 4.5).
const IPV6_MORE_FRAGMENTS: u8 = 1;

/// The unit of a fragment offset in bytes (RFC 791, section 3.1; RFC 8200, section 4.5).
const OFFSET_UNIT: u16 = 8;

/// The fields that state the place of a fragment in its packet. A fragment contains only a part of the packet's payload.
#[derive(Clone, Copy, Debug, PartialEq, Eq)]
pub struct FragmentFields {
    /// The identification, which all fragments of the packet share.
    pub identification: Identification,
    /// The place of the fragment in the payload of the packet, in bytes: a multiple of 8, at most 65,528.
    pub offset: u16,
    /// Whether more fragments of the packet follow.
    pub more_fragments: bool,
}

/// The identification of a packet that is sent in fragments.
#[derive(Clone, Copy, Debug, PartialEq, Eq)]
pub enum Identification {
    /// Bytes 4 and 5 of an IPv4 header (RFC 791, section 3.1).
    Ipv4(u16),
    /// Bytes 4 to 7 of a fragment header over IPv6 (RFC 8200, section 4.5).
    Ipv6(u32),
}

/// The fields of the fragment in an IP packet. `None` if the packet is whole: an IPv4 packet with the fragment offset 0 and no more
/// fragments, an IPv6 packet without a fragment header, or an atomic fragment (RFC 6946).
pub(crate) fn fragment_fields(packet: &[u8]) -> Option<FragmentFields>
    ensures { result ≡ specs.fragment_fields packet.now }
{
    if packet.len() >= Ipv4Header::MIN_LEN && packet[0] >> 4 == 4 {
        return ipv4_fields(packet);
    }
    ipv6_fields(&ipv6_fragment_header(packet)?)
}

/// The fields in an IPv4 header. `None` if the packet is whole.
fn ipv4_fields(header: &[u8]) -> Option<FragmentFields>
    requires { 20 ≤ length header.now }
    ensures { result ≡ specs.ipv4_fields header.now }
{
    let offset = ipv4_offset(header);
    let more_fragments = header[6] & IPV4_MORE_FRAGMENTS != 0;
    if offset == 0 && !more_fragments {
        return None;
    }
    Some(FragmentFields {
        identification: Identification::Ipv4(u16::from_be_bytes([header[4], header[5]])),
        offset,
        more_fragments,
    })
}

/// The fragment offset in an IPv4 header, in bytes.
fn ipv4_offset(header: &[u8]) -> u16
    requires { 20 ≤ length header.now }
    ensures { result ≡ ipv4_fragment_offset header.now * 8 }
{
    u16::from_be_bytes([header[6], header[7]]) % IPV4_OFFSETS * OFFSET_UNIT
}

/// The fields in a fragment header of IPv6. `None` for an atomic fragment.
fn ipv6_fields(header: &[u8; 8]) -> Option<FragmentFields>
    ensures { result ≡ specs.ipv6_fields header.now }
{
    let offset = ipv6_offset(header);
    let more_fragments = header[3] & IPV6_MORE_FRAGMENTS != 0;
    if offset == 0 && !more_fragments {
        return None;
    }
    let identification = u32::from_be_bytes([header[4], header[5], header[6], header[7]]);
    Some(FragmentFields {
        identification: Identification::Ipv6(identification),
        offset,
        more_fragments,
    })
}

/// The fragment offset in a fragment header of IPv6, in bytes. It is in the high 13 bits of bytes 2 and 3.
fn ipv6_offset(header: &[u8; 8]) -> u16
    ensures { result ≡ fragment_offset header.now * 8 }
{
    u16::from_be_bytes([header[2], header[3]]) / OFFSET_UNIT * OFFSET_UNIT
}
