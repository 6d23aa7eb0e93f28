ghost use Rattle.std.specs.Prelude.{IfSome, length};
ghost use Rattle.capture_text.specs.PacketLine.{IsLine};
ghost use Rattle.report_page.specs.Lines.{IsFirstLine, is_set, times_of};
ghost use Rattle.report_page.specs.Text.{WritesText};
ghost use Rattle.report_page.specs.Times.{time_of};

use crate::piece::{first_item, is_set};
use crate::text::{Text, put};
use crate::time::{PageTime, time_of};
use capture_file::reader::{NextPacket, PacketTexts};
use capture_packet::Packet;
use capture_request::{captured_info, packet_in_frame, packet_without_room, too_long_info};
use capture_summary::{CaptureInfo, PacketInfo};
use capture_text::write_packet_line;
use capture_words::Times;

/// How the line of a packet is written.
#[repr(C)]
#[derive(Clone, Copy)]
pub struct PageLine {
    /// The number of the packet. The first packet of the capture is number 1.
    pub number: u64,
    /// The first known capture time of the packets before this packet.
    pub first: PageTime,
    /// 0 if the line shows the time since the first packet. Otherwise it shows the date and the time of day, in UTC.
    pub is_absolute: u8,
    /// 0 if the line does not show the hop limit and the comments, as without `--verbose`.
    pub is_verbose: u8,
    /// 0 if tunnels in UDP are not opened, as without `--tunnels`.
    pub opens_udp_tunnels: u8,
}

/// Writes the line of the first packet of a piece to `text`, and returns the length of the line. The line is the line of the program
/// `capture_report`, with its line feed. `buffer` is room for a packet, as long as `report_page_rows` has it. The result is 0, and nothing
/// is written, if the piece does not begin with a packet. If the line is longer than `text`, nothing is written either.
#[unsafe(no_mangle)]
pub extern "C" fn report_page_line(
    piece: &[u8],
    buffer: &mut [u8],
    request: &PageLine,
    text: &mut [u8],
) -> usize
    ensures { WritesText (IsFirstLine piece.now (length buffer.old) request.now) text.old text.new result }
{
    match first_line(piece, buffer, request) {
        Some(line) => put(line.as_slice(), text),
        None => 0,
    }
}

/// Returns the line of the first packet of a piece. The result is `None` if the piece does not begin with a packet, or if the line has no
/// room.
fn first_line(piece: &[u8], buffer: &mut [u8], request: &PageLine) -> Option<Text>
    ensures { IfSome result (λ line. IsFirstLine piece.now (length buffer.old) request.now line.items) }
{
    let (reader, next) = first_item(piece, buffer)?;
    match next {
        NextPacket::Whole(captured) => {
            let frame = &buffer[captured.start..captured.start + captured.captured_len];
            let packet = packet_in_frame(&captured, frame, is_set(request.opens_udp_tunnels));
            let texts = reader.texts_of(&captured);
            written(request, texts, captured_info(&captured), &packet)
        }
        NextPacket::TooLong(captured) => {
            let packet = packet_without_room(captured.required_len);
            let texts = PacketTexts::new();
            written(request, texts, too_long_info(&captured), &packet)
        }
        _ => None,
    }
}

/// Returns the line of a packet, or `None` if the line has no room.
fn written(
    request: &PageLine,
    texts: PacketTexts,
    capture: CaptureInfo,
    packet: &Packet<'_>,
) -> Option<Text>
    ensures { IfSome result (λ line. IsLine (times_of request.now.is_absolute) (is_set request.now.is_verbose) request.now.number texts
        (time_of request.now.first) capture.time capture.len packet.now line.items) }
{
    let info = PacketInfo {
        number: request.number,
        texts,
        first: time_of(&request.first),
        capture,
    };
    let times = match request.is_absolute {
        0 => Times::SinceFirst,
        _ => Times::Absolute,
    };
    let mut line = Text::new();
    match write_packet_line(&mut line, times, is_set(request.is_verbose), &info, packet) {
        Ok(()) => Some(line),
        Err(_) => None,
    }
}
