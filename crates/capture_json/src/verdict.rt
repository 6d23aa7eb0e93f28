//! The verdict on a packet or its checksum.

ghost use Rattle.std.specs.Prelude.{◌≡◌, OnOk, codes};
ghost use Rattle.capture_json.specs.JsonPacket.{checksum_members, not_tested_members, refused_member, untested_members, verdict_members, word_member};
ghost use Rattle.capture_json.specs.Tokens.{put, tokens_in, with_members};
ghost use Rattle.capture_packet.specs.Verdicts.{zero_length};

use crate::Line;
use crate::text::{fill_with_underscores, put_written};
use capture_packet::{Refusal, Verdict};
use capture_summary::VerdictKind;
use capture_words::{write_refusal, write_zero_length};
use std::io;
use transport_part::{ChecksumVerdict, Untested};

/// Writes the verdict on a packet.
pub fn put_verdict(line: &mut Line, room: &mut Vec<u8>, verdict: &Verdict) -> io::Result<()>
    ensures { OnOk result (tokens_in line.new ≡ with_members (verdict_members verdict.now) (tokens_in line.old)) }
{
    match verdict {
        Verdict::Checksum(verdict) => put_checksum(line, room, *verdict),
        Verdict::LengthMissing => put_not_tested(line, room, VerdictKind::LengthMissing),
        Verdict::TooLong { required_len } => {
            put_not_tested(line, room, VerdictKind::TooLong)?;
            Ok(line.put_number("required_length", u64::from(*required_len))?)
        }
        Verdict::Refused(refusal) => put_refusal(line, room, refusal),
    }
}

/// Writes the verdict on a checksum.
fn put_checksum(line: &mut Line, room: &mut Vec<u8>, verdict: ChecksumVerdict) -> io::Result<()>
    ensures { OnOk result (tokens_in line.new ≡ with_members (checksum_members verdict) (tokens_in line.old)) }
{
    match verdict {
        ChecksumVerdict::Right => put_word(line, room, "checksum", VerdictKind::Right),
        ChecksumVerdict::Wrong { expected } => {
            put_word(line, room, "checksum", VerdictKind::Wrong)?;
            Ok(line.put_number("expected_checksum", u64::from(expected))?)
        }
        ChecksumVerdict::Partial { .. } => put_word(line, room, "checksum", VerdictKind::Partial),
        ChecksumVerdict::Absent => put_word(line, room, "checksum", VerdictKind::Absent),
        ChecksumVerdict::Untested(reason) => put_untested(line, room, reason),
    }
}

/// Writes that a checksum is not tested, and the reason. For a UDP packet with length field 0, it writes a refusal instead.
fn put_untested(line: &mut Line, room: &mut Vec<u8>, reason: Untested) -> io::Result<()>
    ensures { OnOk result (tokens_in line.new ≡ with_members (untested_members reason) (tokens_in line.old)) }
{
    match reason {
        Untested::ZeroLength => put_zero_length(line, room),
        reason => put_not_tested(line, room, VerdictKind::of_untested(reason)),
    }
}

/// Writes that a checksum is not tested, and the reason.
fn put_not_tested(line: &mut Line, room: &mut Vec<u8>, reason: VerdictKind) -> io::Result<()>
    ensures { OnOk result (tokens_in line.new ≡ with_members (not_tested_members reason) (tokens_in line.old)) }
{
    line.put_text("checksum", "not_looked_at")?;
    put_word(line, room, "reason", reason)
}

/// Writes a member with this name and the word for a kind of verdict.
fn put_word(line: &mut Line, room: &mut Vec<u8>, name: &str, kind: VerdictKind) -> io::Result<()>
    ensures { OnOk result (tokens_in line.new ≡ put (word_member name.now kind).0 (word_member name.now kind).1 (tokens_in line.old)) }
{
    fill_with_underscores(room, kind.name())?;
    put_written(line, name, room.as_slice())
}

/// Writes the reason why a packet is refused.
fn put_refusal(line: &mut Line, room: &mut Vec<u8>, refusal: &Refusal) -> io::Result<()>
    ensures { OnOk result (tokens_in line.new ≡ put (codes "refused") (refused_member refusal.now).1 (tokens_in line.old)) }
{
    room.clear();
    write_refusal(room, refusal)?;
    put_written(line, "refused", room.as_slice())
}

/// Writes the reason why a UDP packet with length field 0 is refused.
fn put_zero_length(line: &mut Line, room: &mut Vec<u8>) -> io::Result<()>
    ensures { OnOk result (tokens_in line.new ≡ put (codes "refused") (refused_member zero_length).1 (tokens_in line.old)) }
{
    room.clear();
    write_zero_length(room)?;
    put_written(line, "refused", room.as_slice())
}
