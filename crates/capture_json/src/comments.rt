//! The comments of a packet, as members of the object of the packet.

ghost use Rattle.std.specs.Prelude.{◌≡◌, OnOk, map};
ghost use Rattle.capture_json.specs.JsonComments.{comment_data, comments_members, more_comments_members};
ghost use Rattle.capture_json.specs.Tokens.{push, tokens_in, with_items, with_members};

use crate::Line;
use crate::text::push_written;
use capture_file::{KeptText, PacketComments};
use capture_words::write_shown;
use std::alloc::AllocError;
use std::io;

/// Writes the kept comments of a packet as an array of texts, and the number of its other comments. It writes nothing if there is no comment.
pub fn put_comments(
    line: &mut Line,
    room: &mut Vec<u8>,
    comments: &PacketComments,
) -> io::Result<()>
    ensures { OnOk result (tokens_in line.new ≡ with_members (comments_members comments.now) (tokens_in line.old)) }
{
    if comments.texts.is_empty() {
        return Ok(());
    }
    line.begin_array("comments")?;
    push_comments(line, room, comments.texts.as_slice())?;
    line.end_array()?;
    Ok(put_more(line, comments.more)?)
}

/// Writes each of these comments as an item of an array.
fn push_comments(line: &mut Line, room: &mut Vec<u8>, comments: &[KeptText]) -> io::Result<()>
    ensures { OnOk result (tokens_in line.new ≡ with_items (map comment_data comments.now) (tokens_in line.old)) }
{
    for comment in comments {
        push_comment(line, room, comment)?;
    }
    Ok(())
}

/// Writes a comment as an item of an array.
fn push_comment(line: &mut Line, room: &mut Vec<u8>, comment: &KeptText) -> io::Result<()>
    ensures { OnOk result (tokens_in line.new ≡ push (comment_data comment.now) (tokens_in line.old)) }
{
    room.clear();
    write_shown(room, comment)?;
    push_written(line, room.as_slice())
}

/// Writes the number of comments that are not written, unless it is 0.
fn put_more(line: &mut Line, count: u64) -> Result<(), AllocError>
    ensures { OnOk result (tokens_in line.new ≡ with_members (more_comments_members count) (tokens_in line.old)) }
{
    if count == 0 {
        return Ok(());
    }
    line.put_number("more_comments", count)
}
