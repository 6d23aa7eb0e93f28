//! Reading the packets of a capture, counting them and writing their lines.

ghost use Rattle.std.specs.Prelude.{◌≡◌, ◌<◌, ◌-◌, ◌^◌, ℕ, List, Err, IfErr, IfOk, IfSome, IsNone, Some, length, take};
ghost use Rattle.capture_file.specs.CapturePackets.{ArePacketsBeforeCut, BeginsInput, HasPackets, FilePacket, ReadsOne};
ghost use Rattle.capture_file.specs.declared.reader.next_packet.NextPacket.{NextPacket};
ghost use Rattle.capture_packet.specs.Frames.{max_packet_len};
ghost use Rattle.capture_request.specs.Limits.{EndsByLimit, EndsWithoutLimit, IsWithin, limited};
ghost use Rattle.capture_run.specs.PacketsText.{IsCaptureReport, WritesPacket, WritesPackets};
ghost use Rattle.capture_request.specs.Report.{CountsEach, IsReadToEnd, ReadsWholePackets, ReportsNext};
ghost use Rattle.capture_run.specs.Runs.{RejectsBeginning};
ghost use Rattle.capture_words.specs.Written.{AppendsOne};
ghost use Rattle.capture_request.specs.declared.parts.Lines.TheVariants as Lines;

use crate::packet_place::PacketPlace;
use crate::packet_report::PacketReport;
use crate::{CaptureError, MAX_PACKET_LEN, Reached, WriteError};
use capture_file::reader::{CaptureReader, NextPacket};
use std::io::{Read, Write};

/// Reads a capture, counts its chosen packets, and writes the line of each chosen packet that has a line. The inner error is the reason why
/// the capture is refused, or why no further packet can be read. After the last requested line no byte is read. `capture` becomes the
/// reader after the packets, or `None` if the beginning of the capture is not accepted.
pub(crate) fn report_packets<R: Read, W: Write>(
    packets: &mut PacketReport,
    capture: &mut Option<CaptureReader>,
    input: &mut R,
    buffer: &mut [u8; MAX_PACKET_LEN],
    output: &mut W,
) -> Result<Result<Reached, CaptureError>, WriteError>
    ensures report { IfOk result (λ ended. AppendsOne (W.contents output.old) (W.contents output.new)
        (IsCaptureReport packets.old.parts (R.remaining input.old) (R.remaining input.new) ended packets.old.summary packets.new.summary capture.new)) }
    ensures limit { IfOk result (EndsByLimit packets.old.parts.limit (limited packets.old.parts.lines packets.new.summary)) }
    ensures within { IsWithin packets.old.parts.limit (limited packets.old.parts.lines packets.old.summary)
        → IfOk result (λ ended. IsWithin packets.old.parts.limit (limited packets.old.parts.lines packets.new.summary)) }
    ensures silent { packets.old.parts.lines ≡ Lines.None → output.new ≡ output.old }
{
    *capture = None;
    let mut reader = match read_header(input, buffer) {
        Ok(reader) => reader,
        Err(error) => return Ok(Err(error)),
    };
    packets.start_capture();
    let ended = report_each_packet(packets, &mut reader, input, buffer, output)?;
    *capture = Some(reader);
    Ok(ended)
}

/// Reads the beginning of a capture, and returns a reader of its packets.
fn read_header<R: Read>(input: &mut R, buffer: &mut [u8]) -> Result<CaptureReader, CaptureError>
    requires buffer { length buffer.old ≡ MAX_PACKET_LEN }
    ensures begins { IfOk result (λ reader. BeginsInput max_packet_len reader (R.remaining input.old) (R.remaining input.new)) }
    ensures rejects { IfErr result (λ error. RejectsBeginning (R.remaining input.old) (Err error)) }
{
    match CaptureReader::read_header(input, buffer) {
        Ok(Ok(reader)) => Ok(reader),
        Ok(Err(error)) => Err(CaptureError::Header(error)),
        Err(error) => Err(CaptureError::ReadHeader(error)),
    }
}

/// Counts each chosen packet, and writes the line of each chosen packet that has a line. Returns how far the capture was read. The inner
/// error is the reason why no further packet can be read. After an outer error nothing more can be written or counted.
///
/// If a capture file was truncated, only packets whose record or block ends at or before the cut are counted. This holds for both file
/// formats.
fn report_each_packet<R: Read, W: Write>(
    packets: &mut PacketReport,
    reader: &mut CaptureReader,
    input: &mut R,
    buffer: &mut [u8],
    output: &mut W,
) -> Result<Result<Reached, CaptureError>, WriteError>
    requires buffer { length buffer.old ≡ MAX_PACKET_LEN }
    ensures report { IfOk result (λ ended. AppendsOne (W.contents output.old) (W.contents output.new)
        (WritesPackets reader.old reader.new packets.old.parts packets.old.first (R.remaining input.old) (R.remaining input.new) ended
        packets.old.summary packets.new.summary)) }
    ensures cut { IfOk result (λ ended. IsReadToEnd ended → (whole : List ℕ) (all : List FilePacket) (next : NextPacket) (cut : ℕ)
        → R.remaining input.old ≡ Some (take cut whole) → HasPackets max_packet_len reader.old whole all next
        → (before_cut : List FilePacket) × ArePacketsBeforeCut max_packet_len reader.old whole cut all before_cut
        × CountsEach packets.old.parts.choice packets.old.summary before_cut packets.new.summary) }
    ensures limit { IfOk result (EndsByLimit packets.old.parts.limit (limited packets.old.parts.lines packets.new.summary)) }
    ensures within { IsWithin packets.old.parts.limit (limited packets.old.parts.lines packets.old.summary)
        → IfOk result (λ ended. IsWithin packets.old.parts.limit (limited packets.old.parts.lines packets.new.summary)) }
    ensures after_packets { IfErr result (λ error.
        ReadsWholePackets reader.old (R.remaining input.old) (R.remaining input.new) reader.new) }
    ensures silent { packets.old.parts.lines ≡ Lines.None → output.new ≡ output.old }
{
    let room = u64::MAX - packets.summary().packets();
    for number in 1..room {
        if packets.is_full() {
            return Ok(Ok(Reached::Limit));
        }
        if let Some(ended) = report_next(input, output, buffer, reader, packets, number)? {
            return Ok(ended);
        }
    }
    Ok(Err(CaptureError::TooManyPackets))
}

/// Reads the next packet, and counts it if it is chosen. Then the function writes the line of the packet, if it has a line. Returns `None`
/// if a packet was read. Otherwise the result states how the report of the capture ends.
fn report_next<R: Read, W: Write>(
    input: &mut R,
    output: &mut W,
    buffer: &mut [u8],
    reader: &mut CaptureReader,
    packets: &mut PacketReport,
    number: u64,
) -> Result<Option<Result<Reached, CaptureError>>, WriteError>
    requires buffer { length buffer.old ≡ MAX_PACKET_LEN }
    requires room { packets.old.summary.packets < 2 ^ 64 - 1 }
    ensures next { IfOk result (ReportsNext packets.old.parts.choice number reader.old (R.remaining input.old) (R.remaining input.new) reader.new
        packets.old.summary packets.new.summary) }
    ensures text { IfOk result (λ ended. IsNone ended → AppendsOne (W.contents output.old) (W.contents output.new)
        (WritesPacket packets.old.parts number packets.old.first packets.new.first reader.old
        (R.remaining input.old) (R.remaining input.new) reader.new packets.old.summary packets.new.summary)) }
    ensures nothing { IfOk result (λ ended. IfSome ended (λ done. output.new ≡ output.old)) }
    ensures unlimited { IfOk result (λ ended. IfSome ended EndsWithoutLimit) }
    ensures after_packet { IfErr result (λ error. (packet : FilePacket)
        × ReadsOne max_packet_len reader.old (R.remaining input.old) (R.remaining input.new) reader.new packet) }
    ensures silent { packets.old.parts.lines ≡ Lines.None → output.new ≡ output.old }
    ensures parts { packets.new.parts ≡ packets.old.parts }
    ensures buffer { length buffer.new ≡ length buffer.old }
{
    match reader.next_packet(input, buffer) {
        Ok(NextPacket::Whole(packet)) => {
            let frame = &buffer[packet.start..packet.start + packet.captured_len];
            let texts = reader.texts_of(&packet);
            let place = PacketPlace { number, texts };
            packets.add(output, place, &packet, frame)?;
            Ok(None)
        }
        Ok(NextPacket::TooLong(packet)) => {
            packets.add_too_long(output, number, &packet)?;
            Ok(None)
        }
        Ok(NextPacket::End) => Ok(Some(Ok(Reached::End))),
        Ok(NextPacket::CutOff { required_len, len }) => Ok(Some(Err(CaptureError::RecordCutOff {
            number,
            offset: reader.offset(),
            required_len,
            len,
        }))),
        Ok(NextPacket::Refused(error)) => Ok(Some(Err(CaptureError::Refused(error)))),
        Err(error) => Ok(Some(Err(CaptureError::Read {
            number,
            offset: reader.offset(),
            error,
        }))),
    }
}
