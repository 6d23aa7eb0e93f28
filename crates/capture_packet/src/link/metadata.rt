//! Headers with metadata. A system writes such a header before each packet or frame that it captures.

ghost use Rattle.std.specs.Prelude.{◌≡◌, ◌≤◌, IfErr, IfOk, length};
ghost use Rattle.capture_packet.specs.Metadata as specs;
ghost use Rattle.capture_packet.specs.LinkHeaders.{Fits, max_frame_place};

use crate::NetworkProtocol;
use crate::link::header::{FirstHeader, LinkHeader, expect_len, little_endian_short_at, number_at};
use crate::link::ieee80211::frame_at;
use crate::link::{LinkHeaderCutOff, ethernet_at, family_at, is_ip_family};
use capture_numbers::link_number::{AVS, PFLOG, PKTAP, PPI, PRISM};
use capture_numbers::{ByteOrder, LinkType};

/// The length of the first fields of a LINKTYPE_PFLOG header, in bytes: the length of the header, and the address family.
const FILTER_FIELDS_LEN: usize = 2;

/// The least number in the length field of a LINKTYPE_PFLOG header: the length of the fields, the last of which is the direction of the
/// packet.
const LEAST_FILTER_LEN: u8 = 45;

/// The length of a LINKTYPE_IPNET header, in bytes.
const IPNET_LEN: usize = 24;

/// The address family of IPv4 on Solaris.
const SOLARIS_IPV4: u8 = 2;

/// The address family of IPv6 on Solaris.
const SOLARIS_IPV6: u8 = 26;

/// The length of a Prism header, in bytes: two numbers of four bytes each, the name of a device in 16 bytes, and ten items of 12 bytes.
const PRISM_LEN: usize = 144;

/// The number that begins a header of AVS of version 1.
const AVS_1: u32 = 0x8021_1001;

/// The number that begins a header of AVS of version 2.
const AVS_2: u32 = 0x8021_1002;

/// The length of the first fields of a header of AVS, in bytes: the number, and the length of the header.
const AVS_FIELDS_LEN: usize = 8;

/// The length of the first fields of a LINKTYPE_PPI header, in bytes: version, flags, length and link type.
const PPI_FIELDS_LEN: usize = 8;

/// The length of the first fields of a LINKTYPE_PKTAP header, in bytes: length, type of the record, and link type.
const TAP_FIELDS_LEN: usize = 12;

/// The type of a record with a packet, in a LINKTYPE_PKTAP header.
const PACKET_RECORD: u32 = 1;

/// The first header of a LINKTYPE_PFLOG frame. Padding after the fields of the header extends it to a multiple of four bytes.
pub(super) fn filter_header(frame: &[u8]) -> Result<FirstHeader, LinkHeaderCutOff>
    ensures is { result ≡ specs.filter_header frame.now }
    ensures fits { IfOk result (Fits frame.now) }
{
    expect_len(frame, FILTER_FIELDS_LEN)?;
    if frame[0] < LEAST_FILTER_LEN {
        return Ok(FirstHeader::unread(FILTER_FIELDS_LEN, PFLOG));
    }
    let len = padded(u16::from(frame[0]));
    expect_len(frame, len)?;
    let family = u32::from(frame[1]);
    Ok(with_family(len, family, is_ip_family(family)))
}

/// The length after padding to a multiple of four.
pub(super) fn padded(len: u16) -> usize
    ensures { result ≡ specs.padded len }
{
    (usize::from(len) + 3) / 4 * 4
}

/// The first header of a LINKTYPE_IPNET frame.
pub(super) fn ipnet_header(frame: &[u8]) -> Result<FirstHeader, LinkHeaderCutOff>
    ensures is { result ≡ specs.ipnet_header frame.now }
    ensures fits { IfOk result (Fits frame.now) }
{
    expect_len(frame, IPNET_LEN)?;
    let is_ip = matches!(frame[1], SOLARIS_IPV4 | SOLARIS_IPV6);
    Ok(with_family(IPNET_LEN, u32::from(frame[1]), is_ip))
}

/// A whole header of this length with this address family, which is a family of IP if `is_ip` is true.
pub(super) fn with_family(len: usize, family: u32, is_ip: bool) -> FirstHeader
    ensures { result ≡ specs.with_family len family is_ip }
{
    FirstHeader::Whole(LinkHeader {
        len,
        next: family_protocol(family, is_ip),
        end: None,
    })
}

/// The next network protocol according to an address family. If `is_ip` is true, this is `None`, which means IP. Otherwise it is the number
/// of the family.
pub(super) fn family_protocol(family: u32, is_ip: bool) -> Option<NetworkProtocol>
    ensures { result ≡ specs.family_protocol family is_ip }
{
    if is_ip {
        None
    } else {
        Some(NetworkProtocol::AddressFamily(family))
    }
}

/// The first header of an IEEE 802.11 frame after a Prism header, or after a header of AVS.
pub(super) fn after_prism(frame: &[u8]) -> Result<FirstHeader, LinkHeaderCutOff>
    ensures is { result ≡ specs.after_prism frame.now }
    ensures fits { IfOk result (Fits frame.now) }
    ensures len { IfErr result (λ error. error.len ≡ length frame.now) }
{
    expect_len(frame, AVS_FIELDS_LEN)?;
    if is_avs(number_at(ByteOrder::BigEndian, frame, 0)) {
        by_avs_len(frame, PRISM, number_at(ByteOrder::BigEndian, frame, 4))
    } else {
        frame_at(frame, PRISM_LEN)
    }
}

/// Whether this number begins a header of AVS.
fn is_avs(magic: u32) -> bool
    ensures { result ≡ specs.is_avs magic }
{
    matches!(magic, AVS_1 | AVS_2)
}

/// The first header of an IEEE 802.11 frame after a header of AVS. Each version of this header states its length at the same place.
pub(super) fn after_avs(frame: &[u8]) -> Result<FirstHeader, LinkHeaderCutOff>
    ensures is { result ≡ specs.after_avs frame.now }
    ensures fits { IfOk result (Fits frame.now) }
    ensures len { IfErr result (λ error. error.len ≡ length frame.now) }
{
    expect_len(frame, AVS_FIELDS_LEN)?;
    by_avs_len(frame, AVS, number_at(ByteOrder::BigEndian, frame, 4))
}

/// The first header of an IEEE 802.11 frame after a header of AVS of this length. `number` is the number of the link type. If `len` is
/// below the length of the first fields, the header of AVS is not read.
fn by_avs_len(frame: &[u8], number: u16, len: u32) -> Result<FirstHeader, LinkHeaderCutOff>
    requires { 8 ≤ length frame.now }
    ensures is { result ≡ specs.by_avs_len frame.now number len }
    ensures fits { IfOk result (Fits frame.now) }
    ensures len { IfErr result (λ error. error.len ≡ length frame.now) }
{
    let len = len as usize;
    if len >= AVS_FIELDS_LEN {
        frame_at(frame, len)
    } else {
        Ok(FirstHeader::unread(AVS_FIELDS_LEN, number))
    }
}

/// The first header of a frame after a LINKTYPE_PPI header. The numbers of the header are little-endian.
pub(super) fn after_ppi(frame: &[u8]) -> Result<FirstHeader, LinkHeaderCutOff>
    ensures is { result ≡ specs.after_ppi frame.now }
    ensures fits { IfOk result (Fits frame.now) }
    ensures len { IfErr result (λ error. error.len ≡ length frame.now) }
{
    expect_len(frame, PPI_FIELDS_LEN)?;
    let len = usize::from(little_endian_short_at(frame, 2));
    if frame[0] != 0 || len < PPI_FIELDS_LEN {
        return Ok(FirstHeader::unread(PPI_FIELDS_LEN, PPI));
    }
    enclosed_at(frame, len, little_endian_short_at(frame, 4))
}

/// The first header of a frame after a LINKTYPE_PKTAP header. The numbers of the header are little-endian.
pub(super) fn after_tap(frame: &[u8]) -> Result<FirstHeader, LinkHeaderCutOff>
    ensures is { result ≡ specs.after_tap frame.now }
    ensures fits { IfOk result (Fits frame.now) }
    ensures len { IfErr result (λ error. error.len ≡ length frame.now) }
{
    expect_len(frame, TAP_FIELDS_LEN)?;
    let len = number_at(ByteOrder::LittleEndian, frame, 0) as usize;
    if len < TAP_FIELDS_LEN || number_at(ByteOrder::LittleEndian, frame, 4) != PACKET_RECORD {
        return Ok(FirstHeader::unread(TAP_FIELDS_LEN, PKTAP));
    }
    enclosed_at(frame, len, little_endian_short_at(frame, 8))
}

/// The first header of the inner frame at this place. `number` is the number of its link type. Frames of four link types are read.
fn enclosed_at(frame: &[u8], place: usize, number: u16) -> Result<FirstHeader, LinkHeaderCutOff>
    requires { place ≤ max_frame_place }
    ensures is { result ≡ specs.enclosed_at frame.now place number }
    ensures fits { IfOk result (Fits frame.now) }
    ensures len { IfErr result (λ error. error.len ≡ length frame.now) }
{
    expect_len(frame, place)?;
    let raw_ip = LinkHeader {
        len: place,
        next: None,
        end: None,
    };
    match LinkType::from_number(number) {
        Some(LinkType::BsdLoopback) => family_at(ByteOrder::LittleEndian, frame, place),
        Some(LinkType::Ethernet) => ethernet_at(frame, place),
        Some(LinkType::RawIp) => Ok(FirstHeader::Whole(raw_ip)),
        Some(LinkType::Ieee80211) => frame_at(frame, place),
        _ => Ok(FirstHeader::unread(place, number)),
    }
}
