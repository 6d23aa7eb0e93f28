//! The network packet in the bytes of a record, after the headers of the link layer.

ghost use Rattle.std.specs.Prelude.{◌≡◌, ◌+◌, ◌≤◌, IfErr, IfOk, length};
ghost use Rattle.capture_packet.specs.AddressFamilies as families;
ghost use Rattle.capture_packet.specs.EtherHeaders.{ethernet_at};
ghost use Rattle.capture_packet.specs.Link as specs;
ghost use Rattle.capture_packet.specs.Link.{AreBytesAfter, HasEtherHeader, HasLinkHeader, IsFoundAfter, NeedsEtherHeader, NeedsLinkHeader, by_ether_type};
ghost use Rattle.capture_packet.specs.LinkHeaders.{Fits, IsHeaderWithin, max_frame_place};

mod cisco_hdlc;
pub mod ether_type;
mod frame_relay;
mod header;
mod ieee80211;
#[doc(hidden)]
pub mod laws;
mod linux_cooked;
mod llc;
mod metadata;
mod mpls;
mod nflog;
mod ppp;

use crate::NetworkProtocol;
use crate::link::cisco_hdlc::{cisco_header, is_cisco_hdlc};
use crate::link::ether_type::{
    CUSTOMER_TAG, IPV4, IPV6, MPLS, MPLS_MULTICAST, OLD_SERVICE_TAG, OTHER_OLD_SERVICE_TAG,
    PPPOE_SESSION, SERVICE_TAG,
};
use crate::link::frame_relay::frame_relay;
use crate::link::header::{EtherHeader, FirstHeader, LinkHeader, expect_len, number_at, short_at};
use crate::link::ieee80211::{after_radiotap, frame_at};
use crate::link::linux_cooked::{linux_cooked, linux_cooked_2};
use crate::link::llc::llc_at;
use crate::link::metadata::{
    after_avs, after_ppi, after_prism, after_tap, filter_header, ipnet_header,
};
use crate::link::mpls::stack_at;
use crate::link::nflog::log_header;
use crate::link::ppp::{ppp_header, pppoe_frame, session_at};
use capture_numbers::{ByteOrder, LinkType};

/// The content of a frame after its link header.
#[derive(Debug, PartialEq, Eq, Drop)]
pub enum Frame<'a> {
    /// The frame contains an IPv4 or IPv6 packet, at the front of these bytes.
    Ip(NetworkBytes<'a>),
    /// The frame contains another network protocol, and these bytes after its link header.
    Other(NetworkProtocol, NetworkBytes<'a>),
}

/// The bytes of a frame after its link header.
#[derive(Debug, PartialEq, Eq, Drop)]
pub struct NetworkBytes<'a> {
    /// The bytes after the link header, up to the end that the header states, or otherwise up to the end of the frame. They begin with the
    /// packet of the network protocol. Padding may follow the packet.
    pub bytes: &'a [u8],
    /// The place of these bytes, in bytes from the start of the frame: the length of the link header.
    pub start: usize,
    /// Whether the link header states the end of these bytes. If it does, none of them is missing, even if the capture cut the frame.
    pub is_end_stated: bool,
}

/// The frame ends within its link header.
#[derive(Clone, Copy, Debug, PartialEq, Eq)]
pub struct LinkHeaderCutOff {
    /// The least length of the link header, in bytes.
    pub required_len: usize,
    /// The length of the frame, in bytes.
    pub len: usize,
}

/// The place of the ether type in the header of an Ethernet frame, after two addresses (IEEE 802.3, clause 3.2).
const ETHER_TYPE_AT: usize = 12;

/// The length of the header of an Ethernet frame, in bytes.
const ETHERNET_LEN: usize = 14;

/// The layout of a LINKTYPE_IPOIB header: a global routing header, and the encapsulation header with the protocol and two reserved bytes
/// (RFC 4391, section 6).
const INFINIBAND: EtherHeader = EtherHeader {
    len: 44,
    ether_type_at: 40,
};

/// The length of a VLAN tag (IEEE 802.1Q, clause 9.5), in bytes: two bytes of control information, and the next ether type.
const TAG_LEN: usize = 4;

/// The length of the header of a loopback frame, in bytes: the address family.
const FAMILY_LEN: usize = 4;

/// The address family of IPv4 in a loopback header (LINKTYPE_NULL).
const IPV4_FAMILY: u32 = 2;

/// The address family of IPv6 in a loopback header on NetBSD and OpenBSD.
const IPV6_FAMILY_NETBSD: u32 = 24;

/// The address family of IPv6 in a loopback header on FreeBSD.
const IPV6_FAMILY_FREEBSD: u32 = 28;

/// The address family of IPv6 in a loopback header on Darwin.
const IPV6_FAMILY_DARWIN: u32 = 30;

/// The network packet in a frame of this link type. `order` is the byte order of the numbers in the capture.
///
/// The call skips these headers:
/// - Ethernet, 14 bytes
/// - LINKTYPE_LINUX_SLL, 16 bytes, and LINKTYPE_LINUX_SLL2, 20 bytes
/// - Cisco HDLC, 4 bytes, and IP over InfiniBand, 44 bytes
/// - radiotap, the header of an IEEE 802.11 data frame, and the LLC and SNAP headers after it
/// - a Prism header or a header of AVS, and the IEEE 802.11 data frame's headers after it
/// - PPP, PPP over Ethernet, and Frame Relay
/// - LINKTYPE_PFLOG, LINKTYPE_NFLOG, and LINKTYPE_IPNET, 24 bytes
/// - LINKTYPE_PPI and LINKTYPE_PKTAP, and the header of the Ethernet, raw IP, loopback or IEEE 802.11 frame after it
/// - the address family of a loopback frame, 4 bytes
///
/// Ethernet and Linux cooked frames can also contain LLC and SNAP headers.
///
/// A raw IP frame is the packet itself.
///
/// After an ether type the call skips VLAN tags of 4 bytes each. A tag follows the ether types 8100 and 88A8 (IEEE 802.1Q, clause 9), and
/// their older forms 9100 and 9200. After a tag, a number below 1536 is a length, and LLC and SNAP headers follow. Then the call skips the
/// header of a PPPoE session (RFC 2516) or a stack of MPLS labels (RFC 3032). A stack of MPLS labels is also skipped after the PPP
/// protocols 0281 and 0283.
///
/// A PPPoE header states the length of its payload, and LINKTYPE_NFLOG states the length of the packet. Bytes after this length do not
/// belong to the packet. If the frame is shorter, the packet ends with the frame. If a PPPoE payload is too short for its PPP header, the
/// protocol is the ether type 8864. For a PPPoE discovery packet of LINKTYPE_PPP_ETHER the protocol is the ether type 8863.
///
/// These numbers identify an IP packet:
/// - the ether types 0800 and 86DD
/// - the address families 2, 24, 28 and 30, in either byte order, 2 and 26 of LINKTYPE_IPNET, and 2 and 10 of LINKTYPE_NFLOG
/// - the PPP protocols 0021 and 0057
/// - the network layer protocol IDs CC and 8E
/// - the LLC header 06 06 03
///
/// An ether type follows the organization codes 000000 and 0000F8 of a SNAP header. In Cisco HDLC the numbers 8035 and 2000 are not ether
/// types. In a Linux cooked frame from a netlink device no number is an ether type.
///
/// # Errors
///
/// `LinkHeaderCutOff` if the frame ends within its link header.
pub fn network_packet(
    link_type: LinkType,
    order: ByteOrder,
    frame: &[u8],
) -> Result<Frame<'_>, LinkHeaderCutOff>
    ensures found { IfOk result (λ found. IsFoundAfter (HasLinkHeader link_type order frame.now) frame.now found) }
    ensures refused { IfErr result (λ error. NeedsLinkHeader link_type order frame.now error.required_len) }
    ensures len { IfErr result (λ error. error.len ≡ length frame.now) }
{
    let header = link_header(link_type, order, frame)?;
    let bytes = bytes_after(header, frame);
    match header.next {
        None => Ok(Frame::Ip(bytes)),
        Some(protocol) => Ok(Frame::Other(protocol, bytes)),
    }
}

/// The bytes after a link header, up to the end that the header states, or otherwise up to the end of the frame.
fn bytes_after(header: LinkHeader, frame: &[u8]) -> NetworkBytes<'_>
    requires { IsHeaderWithin frame.now header }
    ensures { AreBytesAfter frame.now header.len header.end result }
{
    let end = header.end.unwrap_or(frame.len());
    NetworkBytes {
        bytes: &frame[header.len..end],
        start: header.len,
        is_end_stated: header.end.is_some(),
    }
}

/// The link header of a frame, with its tags.
fn link_header(
    link_type: LinkType,
    order: ByteOrder,
    frame: &[u8],
) -> Result<LinkHeader, LinkHeaderCutOff>
    ensures found { IfOk result (λ header. HasLinkHeader link_type order frame.now header.len header.next header.end) }
    ensures within { IfOk result (IsHeaderWithin frame.now) }
    ensures refused { IfErr result (λ error. NeedsLinkHeader link_type order frame.now error.required_len) }
    ensures len { IfErr result (λ error. error.len ≡ length frame.now) }
{
    match first_header(link_type, order, frame)? {
        FirstHeader::Whole(header) => Ok(header),
        FirstHeader::EtherType(header) => tagged_header(header, frame),
    }
}

/// The first header of a frame.
fn first_header(
    link_type: LinkType,
    order: ByteOrder,
    frame: &[u8],
) -> Result<FirstHeader, LinkHeaderCutOff>
    ensures is { result ≡ specs.first_header link_type order frame.now }
    ensures fits { IfOk result (Fits frame.now) }
    ensures len { IfErr result (λ error. error.len ≡ length frame.now) }
{
    match link_type {
        LinkType::BsdLoopback => family_at(order, frame, 0),
        LinkType::Ethernet => ethernet_at(frame, 0),
        LinkType::Ppp => Ok(FirstHeader::Whole(ppp_header(frame)?)),
        LinkType::PppHdlc if is_cisco_hdlc(frame) => cisco_header(frame),
        LinkType::PppHdlc => Ok(FirstHeader::Whole(ppp_header(frame)?)),
        LinkType::PppOverEthernet => Ok(FirstHeader::Whole(pppoe_frame(frame)?)),
        LinkType::RawIp => Ok(FirstHeader::Whole(LinkHeader {
            len: 0,
            next: None,
            end: None,
        })),
        LinkType::CiscoHdlc => cisco_header(frame),
        LinkType::Ieee80211 => frame_at(frame, 0),
        LinkType::FrameRelay => frame_relay(frame),
        LinkType::OpenBsdLoopback => family_at(ByteOrder::BigEndian, frame, 0),
        LinkType::LinuxCooked => linux_cooked(frame),
        LinkType::Pflog => filter_header(frame),
        LinkType::Prism => after_prism(frame),
        LinkType::Radiotap => after_radiotap(frame),
        LinkType::Avs => after_avs(frame),
        LinkType::Ppi => after_ppi(frame),
        LinkType::Ipnet => ipnet_header(frame),
        LinkType::Nflog => log_header(frame),
        LinkType::InfiniBand => Ok(FirstHeader::EtherType(INFINIBAND)),
        LinkType::Pktap => after_tap(frame),
        LinkType::LinuxCooked2 => linux_cooked_2(frame),
    }
}

/// The link header that begins with this header, and contains its tags and the headers after them.
fn tagged_header(header: EtherHeader, frame: &[u8]) -> Result<LinkHeader, LinkHeaderCutOff>
    requires { header.ether_type_at + 2 ≤ header.len }
    ensures found { IfOk result (λ found. HasEtherHeader header frame.now found.len found.next found.end) }
    ensures within { IfOk result (IsHeaderWithin frame.now) }
    ensures refused { IfErr result (λ error. NeedsEtherHeader header frame.now error.required_len) }
    ensures len { IfErr result (λ error. error.len ≡ length frame.now) }
{
    let mut len = header.len;
    expect_len(frame, len)?;
    let mut ether_type = short_at(frame, header.ether_type_at);
    while is_vlan_tag(ether_type) {
        len += TAG_LEN;
        expect_len(frame, len)?;
        ether_type = short_at(frame, len - 2);
    }
    after_tags(header, frame, len, ether_type)
}

/// The link header that consists of `header`, its tags, and the headers after them. The last ether type ends at `place`. After a tag, a
/// number below 1536 is a length, and an LLC header follows.
fn after_tags(
    header: EtherHeader,
    frame: &[u8],
    place: usize,
    ether_type: u16,
) -> Result<LinkHeader, LinkHeaderCutOff>
    requires { place ≤ length frame.now }
    ensures is { result ≡ specs.after_tags header frame.now place ether_type }
    ensures within { IfOk result (IsHeaderWithin frame.now) }
    ensures len { IfErr result (λ error. error.len ≡ length frame.now) }
{
    if place <= header.len || ether_type >= ether_type::LEAST {
        return after_ether_type(frame, place, ether_type);
    }
    match llc_at(frame, place)? {
        FirstHeader::Whole(header) => Ok(header),
        FirstHeader::EtherType(header) => {
            after_ether_type(frame, header.len, short_at(frame, header.ether_type_at))
        }
    }
}

/// The link header whose last ether type ends at `len`. A PPPoE header or a stack of MPLS labels after this ether type belongs to the link
/// header.
fn after_ether_type(
    frame: &[u8],
    len: usize,
    ether_type: u16,
) -> Result<LinkHeader, LinkHeaderCutOff>
    requires { len ≤ length frame.now }
    ensures is { result ≡ specs.after_ether_type frame.now len ether_type }
    ensures within { IfOk result (IsHeaderWithin frame.now) }
    ensures len { IfErr result (λ error. error.len ≡ length frame.now) }
{
    match ether_type {
        PPPOE_SESSION => session_at(frame, len),
        MPLS | MPLS_MULTICAST => stack_at(frame, NetworkProtocol::EtherType(ether_type), len),
        _ => Ok(LinkHeader {
            len,
            next: protocol_of(ether_type),
            end: None,
        }),
    }
}

/// The header of the loopback frame at this place: its address family.
fn family_at(order: ByteOrder, frame: &[u8], place: usize) -> Result<FirstHeader, LinkHeaderCutOff>
    requires { place ≤ max_frame_place }
    ensures is { result ≡ families.family_at order frame.now place }
    ensures fits { IfOk result (Fits frame.now) }
    ensures len { IfErr result (λ error. error.len ≡ length frame.now) }
{
    let len = place + FAMILY_LEN;
    expect_len(frame, len)?;
    Ok(FirstHeader::Whole(LinkHeader {
        len,
        next: by_family(order, frame, place),
        end: None,
    }))
}

/// The network protocol of the loopback frame at this place. `None` is IP. An address family of IP is accepted in either byte order.
fn by_family(order: ByteOrder, frame: &[u8], place: usize) -> Option<NetworkProtocol>
    requires { place + 4 ≤ length frame.now }
    ensures { result ≡ families.by_family order frame.now place }
{
    if is_ip_family(number_at(ByteOrder::BigEndian, frame, place))
        || is_ip_family(number_at(ByteOrder::LittleEndian, frame, place))
    {
        return None;
    }
    Some(NetworkProtocol::AddressFamily(number_at(order, frame, place)))
}

/// Whether this is an address family of IP.
fn is_ip_family(number: u32) -> bool
    ensures { result ≡ families.is_ip_family number }
{
    matches!(
        number,
        IPV4_FAMILY | IPV6_FAMILY_NETBSD | IPV6_FAMILY_FREEBSD | IPV6_FAMILY_DARWIN
    )
}

/// The header of the Ethernet frame at this place. It contains an ether type, or a length and then an LLC header.
fn ethernet_at(frame: &[u8], place: usize) -> Result<FirstHeader, LinkHeaderCutOff>
    requires { place ≤ max_frame_place }
    ensures is { result ≡ ethernet_at frame.now place }
    ensures fits { IfOk result (Fits frame.now) }
    ensures len { IfErr result (λ error. error.len ≡ length frame.now) }
{
    let (len, ether_type_at) = (place + ETHERNET_LEN, place + ETHER_TYPE_AT);
    expect_len(frame, len)?;
    if short_at(frame, ether_type_at) < ether_type::LEAST {
        llc_at(frame, len)
    } else {
        Ok(FirstHeader::EtherType(EtherHeader { len, ether_type_at }))
    }
}

/// The network protocol with this ether type. `None` is IP.
fn protocol_of(ether_type: u16) -> Option<NetworkProtocol>
    ensures { result ≡ by_ether_type ether_type }
{
    match ether_type {
        IPV4 | IPV6 => None,
        _ => Some(NetworkProtocol::EtherType(ether_type)),
    }
}

/// Whether a VLAN tag follows this ether type. It is the ether type of a customer tag or of a service tag, in its current or an older form.
fn is_vlan_tag(ether_type: u16) -> bool
    ensures { result ≡ specs.is_vlan_tag ether_type }
{
    matches!(
        ether_type,
        CUSTOMER_TAG | SERVICE_TAG | OLD_SERVICE_TAG | OTHER_OLD_SERVICE_TAG
    )
}
