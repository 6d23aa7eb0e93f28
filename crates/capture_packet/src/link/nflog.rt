//! Packets that the packet filter of Linux logged (LINKTYPE_NFLOG).

ghost use Rattle.std.specs.Prelude.{◌≡◌, ◌+◌, ◌≤◌, ◌<◌, IfErr, IfOk, length};
ghost use Rattle.capture_numbers.specs.Numbers as numbers;
ghost use Rattle.capture_packet.specs.LinkHeaders.{Fits};
ghost use Rattle.capture_packet.specs.Nflog as specs;
ghost use Rattle.capture_packet.specs.Nflog.{IsWithin};

use crate::link::LinkHeaderCutOff;
use crate::link::header::{FirstHeader, LinkHeader, expect_len, little_endian_short_at, short_at};
use crate::link::metadata::{family_protocol, padded};
use capture_numbers::ByteOrder;
use capture_numbers::link_number::NFLOG;

/// The place of the first attribute, after the address family, the version and the number of the group.
const ATTRIBUTES_AT: usize = 4;

/// The length of the first fields of an attribute, in bytes: its length and its type.
const ATTRIBUTE_FIELDS_LEN: usize = 4;

/// The length of the header up to the type of its first attribute, in bytes.
const SHORTEST_LEN: usize = 8;

/// The type of the attribute with the packet.
const PAYLOAD: u16 = 9;

/// The address family of IPv4 on Linux.
const LINUX_IPV4: u8 = 2;

/// The address family of IPv6 on Linux.
const LINUX_IPV6: u8 = 10;

/// The result of reading an attribute.
#[derive(Clone, Copy)]
enum Attribute {
    /// The whole link header. No attribute after this one is read.
    Last(FirstHeader),
    /// The end of an attribute without the packet: the place of the next attribute.
    Other(usize),
}

/// The header of a LINKTYPE_NFLOG frame. It ends where the packet begins.
pub(super) fn log_header(frame: &[u8]) -> Result<FirstHeader, LinkHeaderCutOff>
    ensures is { result ≡ specs.log_header frame.now }
    ensures fits { IfOk result (Fits frame.now) }
    ensures len { IfErr result (λ error. error.len ≡ length frame.now) }
{
    expect_len(frame, SHORTEST_LEN)?;
    if frame[1] != 0 {
        return Ok(FirstHeader::unread(SHORTEST_LEN, NFLOG));
    }
    match attribute_order(frame) {
        Some(order) => attributes(order, frame),
        None => Ok(FirstHeader::unread(SHORTEST_LEN, NFLOG)),
    }
}

/// The byte order of the attributes. The type of the first attribute is above 0 and below 256. So one of its two bytes is 0, and this byte
/// is the most significant one. `None` if both bytes are 0 or neither is.
fn attribute_order(frame: &[u8]) -> Option<ByteOrder>
    requires { 8 ≤ length frame.now }
    ensures { result ≡ specs.attribute_order frame.now }
{
    match (frame[6] == 0, frame[7] == 0) {
        (true, false) => Some(ByteOrder::BigEndian),
        (false, true) => Some(ByteOrder::LittleEndian),
        _ => None,
    }
}

/// The header with attributes in this byte order. If no attribute contains a packet, the header is not read.
fn attributes(order: ByteOrder, frame: &[u8]) -> Result<FirstHeader, LinkHeaderCutOff>
    requires { 8 ≤ length frame.now }
    ensures is { result ≡ specs.attributes order frame.now }
    ensures fits { IfOk result (Fits frame.now) }
    ensures len { IfErr result (λ error. error.len ≡ length frame.now) }
{
    let mut place = ATTRIBUTES_AT;
    while place < frame.len() {
        match attribute_at(order, frame, place)? {
            Attribute::Last(header) => return Ok(header),
            Attribute::Other(end) => place = end,
        }
    }
    Ok(FirstHeader::unread(place, NFLOG))
}

/// Reads the attribute at this place.
fn attribute_at(order: ByteOrder, frame: &[u8], place: usize) -> Result<Attribute, LinkHeaderCutOff>
    requires { place < length frame.now }
    ensures is { result ≡ specs.attribute_at order frame.now place }
    ensures within { IfOk result (IsWithin frame.now place) }
    ensures len { IfErr result (λ error. error.len ≡ length frame.now) }
{
    let value_at = place + ATTRIBUTE_FIELDS_LEN;
    expect_len(frame, value_at)?;
    let len = number_at(order, frame, place);
    if usize::from(len) < ATTRIBUTE_FIELDS_LEN {
        return Ok(Attribute::Last(FirstHeader::unread(value_at, NFLOG)));
    }
    if number_at(order, frame, place + 2) == PAYLOAD {
        return Ok(Attribute::Last(payload_at(frame, place, len)));
    }
    let end = place + padded(len);
    expect_len(frame, end)?;
    Ok(Attribute::Other(end))
}

/// The header from the start of the frame to the packet. The attribute at `place` has `len` bytes and contains the packet. If the packet
/// ends within the frame, the header states this end.
fn payload_at(frame: &[u8], place: usize, len: u16) -> FirstHeader
    requires { (place + 4 ≤ length frame.now) × (4 ≤ len) }
    ensures is { result ≡ specs.payload_at frame.now place len }
    ensures fits { Fits frame.now result }
{
    let end = place + usize::from(len);
    let is_ip = matches!(frame[0], LINUX_IPV4 | LINUX_IPV6);
    FirstHeader::Whole(LinkHeader {
        len: place + ATTRIBUTE_FIELDS_LEN,
        next: family_protocol(u32::from(frame[0]), is_ip),
        end: if end <= frame.len() { Some(end) } else { None },
    })
}

/// The number in the two bytes at this place, in this byte order.
fn number_at(order: ByteOrder, frame: &[u8], place: usize) -> u16
    requires { place + 2 ≤ length frame.now }
    ensures { result ≡ numbers.short_at order frame.now place }
{
    match order {
        ByteOrder::BigEndian => short_at(frame, place),
        ByteOrder::LittleEndian => little_endian_short_at(frame, place),
    }
}
