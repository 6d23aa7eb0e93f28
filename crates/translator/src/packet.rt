//! The translation of the packet in a frame.

ghost use Rattle.std.specs.Prelude.{◌≡◌, IfErr, IfOk, length};
ghost use Rattle.std.specs.Option.{option_map};
ghost use Rattle.translator.specs.Given as specs;
ghost use Rattle.translator.specs.Packets.{HasNoPacket, IsPacketIn, TranslatesCaptured, TranslatesFrame, TranslatesPacket};

use crate::done::{Done, of_ipv4, of_ipv6};
use crate::ipv4_packet::translate_ipv4_packet;
use crate::ipv6_packet::translate_ipv6_packet;
use crate::reason::Reason;
use crate::table::Table;
use capture_file::{ByteOrder, LinkType};
use capture_packet::{Frame, network_packet};
use etherparse_transport::ip::TransportInIp;
use etherparse_transport::{Icmpv4Slice, Icmpv6Slice, Ipv6HeaderSlice, Proto};

/// Translates the packet in a frame of this link type, in place. `order` is the byte order of the capture. Returns the IP version of
/// the packet and whether a replacement applies to it. If no replacement applies, or after an error, the frame is unchanged.
///
/// # Errors
///
/// The reason why the packet can't be translated.
pub fn translate_frame(
    link_type: LinkType,
    order: ByteOrder,
    frame: &mut [u8],
    table: &Table,
) -> Result<Done, Reason>
    ensures translates { TranslatesFrame table.now link_type order frame.old frame.new result }
    ensures len { length frame.new ≡ length frame.old }
{
    let (start, end) = packet_place(link_type, order, frame)?;
    translate_packet(&mut frame[start..end], table)
}

/// Translates the packet in a frame, as `translate_frame` does. `link_type` is an error if the program does not read this link type.
///
/// # Errors
///
/// `LinkType` if the link type is not read, and the errors of `translate_frame`.
pub fn translate_captured_frame(
    link_type: Result<LinkType, u16>,
    order: ByteOrder,
    frame: &mut [u8],
    table: &Table,
) -> Result<Done, Reason>
    ensures translates { TranslatesCaptured table.now link_type order frame.old frame.new result }
    ensures len { length frame.new ≡ length frame.old }
{
    match link_type {
        Ok(link_type) => translate_frame(link_type, order, frame, table),
        Err(_) => Err(Reason::LinkType),
    }
}

/// The IP packet in a frame: the place of its first byte, and the place after its last byte.
fn packet_place(
    link_type: LinkType,
    order: ByteOrder,
    frame: &[u8],
) -> Result<(usize, usize), Reason>
    ensures found { IfOk result (λ place. IsPacketIn link_type order frame.now place.0 place.1) }
    ensures refused { IfErr result (HasNoPacket link_type order frame.now) }
{
    match network_packet(link_type, order, frame) {
        Ok(Frame::Ip(found)) => Ok((found.start, found.start + found.bytes.len())),
        Ok(Frame::Other(_, _)) => Err(Reason::NotIp),
        Err(_) => Err(Reason::LinkHeader),
    }
}

/// Translates an IP packet in place.
fn translate_packet(packet: &mut [u8], table: &Table) -> Result<Done, Reason>
    ensures { TranslatesPacket table.now packet.old packet.new result }
{
    if Ipv6HeaderSlice::from_slice(packet).is_some() {
        of_ipv6(translate_ipv6_packet(packet, table))
    } else {
        of_ipv4(translate_ipv4_packet(packet, table))
    }
}

/// The packet that an ICMP error quotes. `None` if the IP packet contains no ICMP error.
pub(crate) fn quoted_in<'a>(found: &TransportInIp<'a>) -> Option<&'a [u8]>
    ensures { option_map (λ quoted. quoted.now) result ≡ specs.quoted_in found.now }
{
    if found.is_later_fragment {
        return None;
    }
    match found.proto()? {
        Proto::Icmpv4 => Icmpv4Slice::from_slice(found.payload).ok()?.quoted_packet(),
        Proto::Icmpv6 => Icmpv6Slice::from_slice(found.payload).ok()?.quoted_packet(),
        Proto::Udp | Proto::Tcp => None,
    }
}
