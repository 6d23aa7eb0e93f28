ghost use Rattle.std.specs.Prelude.{IfSome};
ghost use Rattle.report_page.specs.Facts.{AreFacts};
ghost use Rattle.report_page.specs.Text.{WritesText};

use crate::piece::first_item;
use crate::text::{Text, put};
use capture_words::write_facts;

/// Writes the facts of a capture to `text`, as the summary of the program states them, and returns their length. `piece` is the head after
/// the packets, with no bytes after it. The result is 0, and nothing is written, if its beginning is refused. If the facts are longer than
/// `text`, nothing is written either.
#[unsafe(no_mangle)]
pub extern "C" fn report_page_facts(piece: &[u8], buffer: &mut [u8], text: &mut [u8]) -> usize
    ensures { WritesText (AreFacts piece.now) text.old text.new result }
{
    match facts_of(piece, buffer) {
        Some(facts) => put(facts.as_slice(), text),
        None => 0,
    }
}

/// Returns the facts of a capture, or `None` if its beginning is refused or the facts have no room.
fn facts_of(piece: &[u8], buffer: &mut [u8]) -> Option<Text>
    ensures { IfSome result (λ facts. AreFacts piece.now facts.items) }
{
    let (reader, _) = first_item(piece, buffer)?;
    let mut facts = Text::new();
    match write_facts(&mut facts, &Some(reader)) {
        Ok(()) => Some(facts),
        Err(_) => None,
    }
}
