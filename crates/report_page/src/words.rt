ghost use Rattle.std.specs.Prelude.{◌≡◌, IfSome, length};
ghost use Rattle.report_page.specs.Lines.{AreFirstWords, words_of};
ghost use Rattle.report_page.specs.Text.{WritesText};

use crate::piece::{first_item, is_set};
use crate::text::{Text, put};
use capture_file::reader::NextPacket;
use capture_packet::Packet;
use capture_request::{packet_in_frame, packet_without_room};
use capture_summary::{Protocol, VerdictKind};
use std::io::Write;

/// Writes the words for the verdict and for the protocol of the first packet of a piece to `text`, each with a line feed, and returns their
/// length. They are the names of the rows that the summary counts the packet in. The result is 0, and nothing is written, if the piece does
/// not begin with a packet. If the words are longer than `text`, nothing is written either.
#[unsafe(no_mangle)]
pub extern "C" fn report_page_words(
    piece: &[u8],
    buffer: &mut [u8],
    opens_udp_tunnels: u8,
    text: &mut [u8],
) -> usize
    ensures { WritesText (AreFirstWords piece.now (length buffer.old) opens_udp_tunnels) text.old text.new result }
{
    match first_words(piece, buffer, opens_udp_tunnels) {
        Some(words) => put(words.as_slice(), text),
        None => 0,
    }
}

/// Returns the words for the first packet of a piece, or `None` if the piece does not begin with a packet.
fn first_words(piece: &[u8], buffer: &mut [u8], opens_udp_tunnels: u8) -> Option<Text>
    ensures { IfSome result (λ words. AreFirstWords piece.now (length buffer.old) opens_udp_tunnels words.items) }
{
    let (_, next) = first_item(piece, buffer)?;
    match next {
        NextPacket::Whole(captured) => {
            let frame = &buffer[captured.start..captured.start + captured.captured_len];
            words_of(&packet_in_frame(&captured, frame, is_set(opens_udp_tunnels)))
        }
        NextPacket::TooLong(captured) => words_of(&packet_without_room(captured.required_len)),
        _ => None,
    }
}

/// Returns the words for a packet, or `None` if they have no room.
fn words_of(packet: &Packet<'_>) -> Option<Text>
    ensures { IfSome result (λ words. words.items ≡ words_of packet.now) }
{
    let verdict = VerdictKind::of(&packet.verdict).name();
    let protocol = Protocol::of(&packet.content).name();
    let mut words = Text::new();
    match write!(words, "{verdict}\n{protocol}\n") {
        Ok(()) => Some(words),
        Err(_) => None,
    }
}
