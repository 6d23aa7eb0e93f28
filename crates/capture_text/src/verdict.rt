//! The verdict on a packet or its checksum.

ghost use Rattle.std.specs.Prelude.{◌≡◌, OnOk};
ghost use Rattle.std.specs.Io.KnownBytes.{Appends};
ghost use Rattle.capture_text.specs.VerdictText as specs;
ghost use Rattle.capture_text.specs.VerdictText.{checksum_text, untested_text, verdict_text, word_text};

use capture_packet::{MAX_PACKET_LEN, Verdict};
use capture_summary::VerdictKind;
use capture_words::{write_refusal, write_zero_length};
use std::io;
use std::io::Write;
use transport_part::{ChecksumVerdict, Untested};

/// Writes a verdict, for example `checksum right`.
pub fn write_verdict<W: Write>(output: &mut W, verdict: &Verdict) -> io::Result<()>
    ensures { OnOk result (Appends (W.contents output.old) (W.contents output.new) (verdict_text verdict.now)) }
{
    match verdict {
        Verdict::Checksum(verdict) => write_checksum(output, *verdict),
        Verdict::LengthMissing => write!(output, "checksum not looked at: no length stated"),
        Verdict::TooLong { required_len } => write!(
            output,
            "checksum not looked at: {required_len} bytes, more than {MAX_PACKET_LEN}"
        ),
        Verdict::Refused(refusal) => {
            write!(output, "refused: ")?;
            write_refusal(output, refusal)
        }
    }
}

/// Whether this is the verdict on a packet whose protocol is not read.
pub fn is_other_protocol(verdict: &Verdict) -> bool
    ensures { result ≡ specs.is_other_protocol verdict.now }
{
    matches!(
        verdict,
        Verdict::Checksum(ChecksumVerdict::Untested(Untested::OtherProtocol))
    )
}

/// Writes the verdict on a checksum.
fn write_checksum<W: Write>(output: &mut W, verdict: ChecksumVerdict) -> io::Result<()>
    ensures { OnOk result (Appends (W.contents output.old) (W.contents output.new) (checksum_text verdict)) }
{
    match verdict {
        ChecksumVerdict::Right => write_word(output, VerdictKind::Right),
        ChecksumVerdict::Wrong { expected } => {
            write_word(output, VerdictKind::Wrong)?;
            write!(output, ", {expected:04X} expected")
        }
        ChecksumVerdict::Partial { .. } => write_word(output, VerdictKind::Partial),
        ChecksumVerdict::Absent => write_word(output, VerdictKind::Absent),
        ChecksumVerdict::Untested(reason) => write_untested(output, reason),
    }
}

/// Writes the word `checksum`, and then the word for the verdict.
fn write_word<W: Write>(output: &mut W, kind: VerdictKind) -> io::Result<()>
    ensures { OnOk result (Appends (W.contents output.old) (W.contents output.new) (word_text kind)) }
{
    write!(output, "checksum {}", kind.name())
}

/// Writes the reason why a checksum is not tested. For a UDP packet with a length field of 0, it writes that the packet is refused.
fn write_untested<W: Write>(output: &mut W, reason: Untested) -> io::Result<()>
    ensures { OnOk result (Appends (W.contents output.old) (W.contents output.new) (untested_text reason)) }
{
    match reason {
        Untested::Fragment => write!(output, "checksum not looked at: a fragment"),
        Untested::CutOff => write!(output, "checksum not looked at: cut off"),
        Untested::UnknownDestination => write!(
            output,
            "checksum not looked at: the final destination is not known"
        ),
        Untested::OtherProtocol => write!(output, "checksum not looked at: another protocol"),
        Untested::ZeroLength => {
            write!(output, "refused: ")?;
            write_zero_length(output)
        }
        Untested::TooLong => write!(output, "checksum not looked at: too long"),
    }
}
