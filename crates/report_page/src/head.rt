ghost use Rattle.std.specs.Prelude.{◌≡◌, ◌≤◌, ◌++◌, IfSome, length, take};
ghost use Rattle.report_page.specs.Heads.{HasHead, with_block};

use capture_file::ByteOrder;
use capture_file::pcapng::Block;
use capture_numbers::block::{INTERFACE_DESCRIPTION, SECTION_HEADER};

/// Writes the head of the next piece to `head`: the last section header among the blocks of a piece of a pcapng file, and the interface
/// descriptions after it. The piece has to end with a whole block. Returns the length of the head. The result is 0 if the head is longer
/// than `head`, which then contains some of the blocks.
#[unsafe(no_mangle)]
pub extern "C" fn report_page_head(piece: &[u8], head: &mut [u8]) -> usize
    ensures { HasHead piece.now head.new result }
{
    let mut section = ByteOrder::BigEndian;
    let mut rest = piece;
    let mut len = 0;
    while let Ok((block, others)) = Block::from_slice(section, rest) {
        let bytes = &rest[..rest.len() - others.len()];
        len = match with_block(head, len, block.header.block_type, bytes) {
            Some(len) => len,
            None => return 0,
        };
        section = block.header.byte_order;
        rest = others;
    }
    len
}

/// Adds a block to the head, of which the first `len` bytes are filled, and returns the length of the head. A section header begins a new
/// head. Other blocks than a section header or an interface description change nothing. The result is `None` if the block has no room.
fn with_block(head: &mut [u8], len: usize, block_type: u32, bytes: &[u8]) -> Option<usize>
    requires { len ≤ length head.old }
    ensures within { IfSome result (λ after. after ≤ length head.new) }
    ensures head { IfSome result (λ after. take after head.new ≡ with_block block_type bytes.now (take len head.old)) }
{
    match block_type {
        SECTION_HEADER => added(head, 0, bytes),
        INTERFACE_DESCRIPTION => added(head, len, bytes),
        _ => Some(len),
    }
}

/// Copies bytes into the head after its first `len` bytes, and returns its new length, or `None` if there is no room.
fn added(head: &mut [u8], len: usize, bytes: &[u8]) -> Option<usize>
    requires { len ≤ length head.old }
    ensures within { IfSome result (λ after. after ≤ length head.new) }
    ensures head { IfSome result (λ after. take after head.new ≡ take len head.old ++ bytes.now) }
{
    if head.len() - len < bytes.len() {
        return None;
    }
    head[len..len + bytes.len()].copy_from_slice(bytes);
    Some(len + bytes.len())
}
