//! The comments of a packet.

ghost use Rattle.std.specs.Prelude.{OnOk};
ghost use Rattle.std.specs.Io.KnownBytes.{Appends};
ghost use Rattle.std.specs.List.{flat_map};
ghost use Rattle.capture_text.specs.CommentsText.{comment_text, comments_part, comments_text, more_comments_text};

use capture_file::{KeptText, PacketComments};
use capture_words::write_shown;
use std::io;
use std::io::Write;

/// Writes the comments of a packet at the end of a verbose line, or nothing if the line is not verbose.
pub(crate) fn write_comments_part<W: Write>(
    output: &mut W,
    verbose: bool,
    comments: &PacketComments,
) -> io::Result<()>
    ensures { OnOk result (Appends (W.contents output.old) (W.contents output.new) (comments_part verbose comments.now)) }
{
    if verbose {
        write_comments(output, comments)
    } else {
        Ok(())
    }
}

/// Writes the kept comments of a packet, and the number of its other comments.
fn write_comments<W: Write>(output: &mut W, comments: &PacketComments) -> io::Result<()>
    ensures { OnOk result (Appends (W.contents output.old) (W.contents output.new) (comments_text comments.now)) }
{
    write_each(output, comments.texts.as_slice())?;
    write_more(output, comments.more)
}

/// Writes each of these comments in quotation marks, after a semicolon.
fn write_each<W: Write>(output: &mut W, comments: &[KeptText]) -> io::Result<()>
    ensures { OnOk result (Appends (W.contents output.old) (W.contents output.new) (flat_map comment_text comments.now)) }
{
    for comment in comments {
        write_comment(output, comment)?;
    }
    Ok(())
}

/// Writes a comment in quotation marks, after a semicolon.
fn write_comment<W: Write>(output: &mut W, comment: &KeptText) -> io::Result<()>
    ensures { OnOk result (Appends (W.contents output.old) (W.contents output.new) (comment_text comment.now)) }
{
    write!(output, "; comment \"")?;
    write_shown(output, comment)?;
    write!(output, "\"")
}

/// Writes the number of comments that are not shown, after a semicolon. It writes nothing if all comments are shown.
fn write_more<W: Write>(output: &mut W, count: u64) -> io::Result<()>
    ensures { OnOk result (Appends (W.contents output.old) (W.contents output.new) (more_comments_text count)) }
{
    if count == 0 {
        return Ok(());
    }
    write!(output, "; more comments {count}")
}
