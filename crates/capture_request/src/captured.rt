//! The packet in a record or block of a capture, and what the capture states about it.

ghost use Rattle.std.specs.Prelude.{◌≡◌};
ghost use Rattle.capture_request.specs.Report.{IsReadAs, IsTooLong, captured_info, too_long_info};

use capture_file::reader::{CapturedPacket, TooLongPacket};
use capture_packet::{Content, NetworkProtocol, Packet, Verdict, read_packet};
use capture_summary::{CaptureInfo, FrameLen};
use transport_part::Untested;

/// Returns a packet that is not read, since its `required_len` bytes do not fit in the buffer.
pub fn packet_without_room<'a>(required_len: u32) -> Packet<'a>
    ensures { IsTooLong required_len result }
{
    Packet::in_no_tunnel(Content::Unread, Verdict::TooLong { required_len })
}

/// Reads the packet in a frame. If the link type of the capture or interface is unknown, the result is a frame without an IP packet.
/// `udp_tunnels` states whether tunnels in UDP are read.
pub fn packet_in_frame<'a>(
    captured: &CapturedPacket,
    frame: &'a [u8],
    udp_tunnels: bool,
) -> Packet<'a>
    ensures { IsReadAs udp_tunnels captured.now.link_type captured.now frame.now result }
{
    match captured.link_type {
        Ok(link_type) => read_packet(
            link_type,
            captured.byte_order,
            frame,
            captured.is_cut(),
            udp_tunnels,
        ),
        Err(number) => Packet::in_no_tunnel(
            Content::NotIp(NetworkProtocol::LinkType(number)),
            Verdict::untested(Untested::OtherProtocol),
        ),
    }
}

/// Returns what the capture states about a packet.
pub fn captured_info(captured: &CapturedPacket) -> CaptureInfo
    ensures { result ≡ captured_info captured.now }
{
    CaptureInfo {
        link_type: Some(captured.link_type),
        time: captured.time,
        len: Some(FrameLen {
            original: u64::from(captured.original_len),
            captured: captured.captured_len as u64,
        }),
    }
}

/// Returns what the capture states about a packet that is longer than the buffer.
pub fn too_long_info(captured: &TooLongPacket) -> CaptureInfo
    ensures { result ≡ too_long_info captured.now }
{
    let frame_len = |original| FrameLen {
        original: u64::from(original),
        captured: u64::from(captured.required_len),
    };
    CaptureInfo {
        link_type: captured.link_type,
        time: captured.time,
        len: captured.original_len.map(frame_len),
    }
}
