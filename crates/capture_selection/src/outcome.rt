ghost use Rattle.std.specs.Prelude.{Some};
ghost use Rattle.capture_file.specs.CapturePackets.{kept};
ghost use Rattle.capture_request.specs.Report.{IsPacketOf};
ghost use Rattle.capture_selection.specs.Outcomes.{HasOutcome, IsOutcomeOf};

use capture_file::PacketTime;
use capture_file::reader::CapturedPacket;
use capture_packet::Packet;
use capture_request::{Parts, packet_in_frame};

/// Whether a packet of a capture is counted and written.
#[derive(Clone, Copy, Debug, PartialEq, Eq)]
pub enum Outcome {
    /// The packet is not chosen. It is left out.
    Excluded,
    /// The packet is chosen and counted, but has no line in the report. It is left out.
    Unlisted,
    /// The packet is chosen and has a line in the report. It is written.
    Written,
}

/// The outcome of this packet, according to the options of a report. `time` is the time of the packet, or `None` if the time is unknown.
pub fn outcome_of(parts: &Parts, packet: &Packet<'_>, time: Option<PacketTime>) -> Outcome
    ensures { IsOutcomeOf parts.now packet.now time result }
{
    if !parts.choice.includes(packet, time) {
        return Outcome::Excluded;
    }
    if parts.lines.include(&packet.verdict) {
        Outcome::Written
    } else {
        Outcome::Unlisted
    }
}

/// The outcome of the packet in this frame, according to the options of a report.
pub(crate) fn outcome_in_frame(parts: &Parts, captured: &CapturedPacket, frame: &[u8]) -> Outcome
    ensures { HasOutcome parts.now (IsPacketOf parts.now.choice.udp_tunnels (kept captured.now frame.now)) captured.now.time
        (Some result) }
{
    let packet = packet_in_frame(captured, frame, parts.choice.udp_tunnels);
    outcome_of(parts, &packet, captured.time)
}
