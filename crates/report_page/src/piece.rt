//! The first item of a piece.

ghost use Rattle.std.specs.Prelude.{◌≡◌, IfSome, length};
ghost use Rattle.capture_file.specs.Packets.{IsNextWithin};
ghost use Rattle.report_page.specs.Lines.{is_set};
ghost use Rattle.report_page.specs.Pieces.{IsFirstItem};

use capture_file::reader::{CaptureReader, NextPacket};

/// Reads the first item of a piece into a buffer, and returns it with the reader after it. The result is `None` if the beginning of the
/// piece is refused.
pub(crate) fn first_item(piece: &[u8], buffer: &mut [u8]) -> Option<(CaptureReader, NextPacket)>
    ensures item { IfSome result (λ found. IsFirstItem piece.now buffer.new found.0 found.1) }
    ensures within { IfSome result (λ found. IsNextWithin (length buffer.new) found.1) }
{
    let mut input = piece;
    let Ok(Ok(mut reader)) = CaptureReader::read_header(&mut input, buffer) else {
        return None;
    };
    match reader.next_packet(&mut input, buffer) {
        Ok(next) => Some((reader, next)),
        Err(_) => None,
    }
}

/// Returns whether a flag of the page is set: whether its number is not 0.
pub(crate) fn is_set(flag: u8) -> bool
    ensures { result ≡ is_set flag }
{
    flag != 0
}
