ghost use Rattle.std.specs.Prelude.{◌≡◌, IfSome, length};
ghost use Rattle.report_page.specs.EndTexts.{IsRefused, cut_off_text, moved};
ghost use Rattle.report_page.specs.Text.{WritesText};

use crate::piece::first_item;
use crate::text::{Text, put};
use capture_file::reader::{CaptureReader, NextPacket, PlacedPacketError};
use std::fmt::Display;
use std::io::Write;

/// The place of a piece in its file.
#[repr(C)]
#[derive(Clone, Copy)]
pub struct PagePlace {
    /// The length of the head in the piece, in bytes.
    pub head_len: u64,
    /// The place of the bytes after the head, in bytes from the start of the file.
    pub offset: u64,
}

/// A record or block within which a capture ends.
#[repr(C)]
#[derive(Clone, Copy)]
pub struct PageCut {
    /// The number of the packet in the record or block. The first packet of a capture is number 1.
    pub number: u64,
    /// The start of the record or block, in bytes from the start of the file.
    pub offset: u64,
    /// The length of the record or block in bytes, or the length of its header if the header is incomplete.
    pub required_len: u64,
    /// The number of bytes of the record or block that are present.
    pub len: u64,
}

/// Writes the text of the error that refuses a piece to `text`, and returns its length. It is the text that the program prints after the
/// name of the capture. The refused beginning or block has to be the first item of the piece. The result is 0, and nothing is written, if
/// it is not refused. If the text is longer than `text`, nothing is written either.
#[unsafe(no_mangle)]
pub extern "C" fn report_page_refusal(
    piece: &[u8],
    buffer: &mut [u8],
    place: &PagePlace,
    text: &mut [u8],
) -> usize
    ensures { WritesText (λ words. IsRefused piece.now (length buffer.old)) text.old text.new result }
{
    let mut input = piece;
    match CaptureReader::read_header(&mut input, buffer) {
        Ok(Ok(_)) => put_refused(piece, buffer, place, text),
        Ok(Err(error)) => put_error(&error, text),
        Err(_) => 0,
    }
}

/// Writes the text of the error for a capture that ends within a record or block to `text`, and returns its length. It is the text that the
/// program prints after the name of the capture. If the text is longer than `text`, nothing is written.
#[unsafe(no_mangle)]
pub extern "C" fn report_page_cut_off(cut: &PageCut, text: &mut [u8]) -> usize
    ensures { WritesText (λ words. words ≡ cut_off_text cut.now) text.old text.new result }
{
    match cut_off_text(cut) {
        Some(words) => put(words.as_slice(), text),
        None => 0,
    }
}

/// Returns the text for a capture that ends within a record or block, or `None` if the text has no room.
fn cut_off_text(cut: &PageCut) -> Option<Text>
    ensures { IfSome result (λ words. words.items ≡ cut_off_text cut.now) }
{
    let PageCut {
        number,
        offset,
        required_len,
        len,
    } = *cut;
    let mut words = Text::new();
    let written = write!(
        words,
        "At byte {offset} of the capture, in or before packet {number}: The record or block has at least {required_len} bytes, and {len} are left."
    );
    match written {
        Ok(()) => Some(words),
        Err(_) => None,
    }
}

/// Writes the text of an error to `text`, and returns its length.
fn put_error<E: Display>(error: &E, text: &mut [u8]) -> usize
    ensures { WritesText (λ words. Unit {0}) text.old text.new result }
{
    let mut words = Text::new();
    match write!(words, "{error}") {
        Ok(()) => put(words.as_slice(), text),
        Err(_) => 0,
    }
}

/// Writes the text of the error that refuses the first item of a piece to `text`, and returns its length. Returns 0 if it is not refused.
fn put_refused(piece: &[u8], buffer: &mut [u8], place: &PagePlace, text: &mut [u8]) -> usize
    ensures { WritesText (λ words. IsRefused piece.now (length buffer.old)) text.old text.new result }
{
    match first_item(piece, buffer) {
        Some((_, NextPacket::Refused(refused))) => put_error(&moved(refused, place), text),
        _ => 0,
    }
}

/// Returns an error with its place in the file, for an error with its place in the piece.
fn moved(refused: PlacedPacketError, place: &PagePlace) -> PlacedPacketError
    ensures { result ≡ moved place.now refused }
{
    let behind_head = refused.offset.saturating_sub(place.head_len);
    PlacedPacketError {
        offset: place.offset.saturating_add(behind_head),
        error: refused.error,
    }
}
