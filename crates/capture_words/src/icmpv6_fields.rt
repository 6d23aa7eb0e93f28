//! The fields of an ICMPv6 message after its first eight bytes.

ghost use Rattle.std.specs.Prelude.{◌≡◌, ◌≤◌, OnOk, length, slice_range};
ghost use Rattle.std.specs.Io.KnownBytes.{Appends};
ghost use Rattle.capture_words.specs.Icmpv6Fields as specs;

use crate::hardware_address::write_hardware_address;
use icmp_part::{Icmpv6Slice, Icmpv6Type};
use std::io;
use std::io::Write;
use std::net::Ipv6Addr;

/// The place of the target or of the multicast address in a message, in bytes.
const ADDRESS_AT: usize = 8;

/// The place of the destination in a redirect, in bytes (RFC 4861, section 4.5).
const DESTINATION_AT: usize = 24;

/// The length of an IPv6 address, in bytes.
const ADDRESS_LEN: usize = 16;

/// The unit of the length of an option, in bytes (RFC 4861, section 4.6).
const OPTION_UNIT: usize = 8;

/// The type of a query for multicast listeners (RFC 2710, section 3.1; RFC 3810, section 5.1).
pub const LISTENER_QUERY: u8 = 130;

/// The type of a report of a multicast listener (RFC 2710, section 3.1).
pub(crate) const LISTENER_REPORT: u8 = 131;

/// The type of the message of a multicast listener that is done (RFC 2710, section 3.1).
pub(crate) const LISTENER_DONE: u8 = 132;

/// The type of a version 2 report of multicast listeners (RFC 3810, section 5.2).
pub const LISTENER_REPORT_2: u8 = 143;

/// The fields of an ICMPv6 message after its first eight bytes: of neighbor discovery (RFC 4861), and of the messages about multicast
/// listeners (RFC 2710; RFC 3810). A field is `None` if the message does not have it, or if it is cut off.
#[derive(Clone, Copy, Debug, PartialEq, Eq)]
pub struct Icmpv6Fields {
    /// The target of a neighbor solicitation, a neighbor advertisement or a redirect: bytes 8 to 23 (RFC 4861, sections 4.3 to 4.5).
    pub target: Option<[u8; 16]>,
    /// The destination that a redirect is about: bytes 24 to 39 (RFC 4861, section 4.5).
    pub destination: Option<[u8; 16]>,
    /// The multicast address of a query, a report or a message that a listener is done, of the types 130 to 132: bytes 8 to 23 (RFC 2710,
    /// section 3).
    pub group: Option<[u8; 16]>,
    /// The first link-layer address of six bytes in the options of neighbor discovery, of the source or of the target (RFC 4861, section
    /// 4.6.1).
    pub link_layer_address: Option<[u8; 6]>,
}

impl Icmpv6Fields {
    ghost use Rattle.std.specs.Prelude.{◌≡◌};
    ghost use Rattle.capture_words.specs.Icmpv6Fields.{fields_of};

    /// The fields of a message after its first eight bytes.
    pub fn of(message: &Icmpv6Slice) -> Icmpv6Fields
        ensures { result ≡ fields_of message.now }
    {
        let bytes = message.slice();
        let icmp_type = message.icmp_type();
        Icmpv6Fields {
            target: target_in(&icmp_type, bytes),
            destination: destination_in(&icmp_type, bytes),
            group: group_in(bytes),
            link_layer_address: link_layer_address_at(options_at(&icmp_type), bytes),
        }
    }
}

/// The target in a message of this type.
fn target_in(icmp_type: &Icmpv6Type, message: &[u8]) -> Option<[u8; 16]>
    ensures { result ≡ specs.target_in icmp_type.now message.now }
{
    match icmp_type {
        Icmpv6Type::NeighborSolicitation
        | Icmpv6Type::NeighborAdvertisement(_)
        | Icmpv6Type::Redirect => address_at(ADDRESS_AT, message),
        _ => None,
    }
}

/// The destination in a message of this type.
fn destination_in(icmp_type: &Icmpv6Type, message: &[u8]) -> Option<[u8; 16]>
    ensures { result ≡ specs.destination_in icmp_type.now message.now }
{
    match icmp_type {
        Icmpv6Type::Redirect => address_at(DESTINATION_AT, message),
        _ => None,
    }
}

/// The multicast address in a message.
fn group_in(message: &[u8]) -> Option<[u8; 16]>
    requires { 8 ≤ length message.now }
    ensures { result ≡ specs.group_in message.now }
{
    match message[0] {
        LISTENER_QUERY | LISTENER_REPORT | LISTENER_DONE => address_at(ADDRESS_AT, message),
        _ => None,
    }
}

/// The IPv6 address at this place in a message. `None` if the message ends before the end of the address.
fn address_at(place: usize, message: &[u8]) -> Option<[u8; 16]>
    requires { place ≤ 24 }
    ensures { result ≡ specs.address_at place message.now }
{
    let end = place + ADDRESS_LEN;
    if message.len() < end {
        return None;
    }
    let mut address = [0; ADDRESS_LEN];
    address.copy_from_slice(&message[place..end]);
    Some(address)
}

/// The place of the options in a message of this type. `None` if messages of this type have no options.
fn options_at(icmp_type: &Icmpv6Type) -> Option<usize>
    ensures { result ≡ specs.options_at icmp_type.now }
{
    match icmp_type {
        Icmpv6Type::RouterSolicitation => Some(8),
        Icmpv6Type::RouterAdvertisement(_) => Some(16),
        Icmpv6Type::NeighborSolicitation | Icmpv6Type::NeighborAdvertisement(_) => Some(24),
        Icmpv6Type::Redirect => Some(40),
        _ => None,
    }
}

/// The link-layer address in the options of a message, which begin at this place.
fn link_layer_address_at(place: Option<usize>, message: &[u8]) -> Option<[u8; 6]>
    ensures { result ≡ specs.link_layer_address_at place message.now }
{
    let place = place?;
    if message.len() < place {
        return None;
    }
    link_layer_address_in(&message[place..])
}

/// The first link-layer address of six bytes in these options.
fn link_layer_address_in(options: &[u8]) -> Option<[u8; 6]>
    ensures { result ≡ specs.link_layer_address_in options.now }
{
    let mut rest = options;
    while rest.len() >= OPTION_UNIT {
        if is_link_layer_address(rest) {
            return Some(link_layer_address(rest));
        }
        let len = usize::from(rest[1]) * OPTION_UNIT;
        if len == 0 {
            return None;
        }
        if rest.len() < len {
            return None;
        }
        rest = &rest[len..];
    }
    None
}

/// Whether the option at the front of these bytes is a link-layer address of six bytes.
fn is_link_layer_address(options: &[u8]) -> bool
    requires { 8 ≤ length options.now }
    ensures { result ≡ specs.is_link_layer_address options.now }
{
    (options[0] == 1 || options[0] == 2) && options[1] == 1
}

/// The address in the option at the front of these bytes.
fn link_layer_address(options: &[u8]) -> [u8; 6]
    requires { 8 ≤ length options.now }
    ensures { result ≡ slice_range options.now 2 8 }
{
    [
        options[2], options[3], options[4], options[5], options[6], options[7],
    ]
}

/// Writes the fields that a message has.
pub(crate) fn write_fields<W: Write>(output: &mut W, fields: &Icmpv6Fields) -> io::Result<()>
    ensures { OnOk result (Appends (W.contents output.old) (W.contents output.new) (specs.fields_text fields.now)) }
{
    write_address(output, "target", fields.target)?;
    write_address(output, "destination", fields.destination)?;
    write_address(output, "group", fields.group)?;
    write_link_layer_address(output, fields.link_layer_address)
}

/// Writes an address with its name, if there is one.
fn write_address<W: Write>(output: &mut W, name: &str, address: Option<[u8; 16]>) -> io::Result<()>
    ensures { OnOk result (Appends (W.contents output.old) (W.contents output.new) (specs.address_text name.now address)) }
{
    let Some(address) = address else {
        return Ok(());
    };
    let address = Ipv6Addr::from_octets(address);
    write!(output, ", {name} {address}")
}

/// Writes a link-layer address, if there is one.
fn write_link_layer_address<W: Write>(output: &mut W, address: Option<[u8; 6]>) -> io::Result<()>
    ensures { OnOk result (Appends (W.contents output.old) (W.contents output.new) (specs.link_layer_text address)) }
{
    let Some(address) = address else {
        return Ok(());
    };
    write!(output, ", link-layer address ")?;
    write_hardware_address(output, address)
}
