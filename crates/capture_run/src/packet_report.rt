ghost use Rattle.std.specs.Prelude.{◌≡◌, ◌-◌, ◌^◌, ◌<◌, None, OnOk, false};
ghost use Rattle.std.specs.Option.{option_or};
ghost use Rattle.capture_file.specs.PacketTexts.{no_packet_texts};
ghost use Rattle.capture_request.specs.Limits.{is_full, limited};
ghost use Rattle.capture_request.specs.Lines.{HasNoLine, IfNoLine, has_line};
ghost use Rattle.capture_request.specs.Report.{CountsChosen, CountsRead, CountsPacket, IsReadAs, IsTooLong, captured_info, too_long_info};
ghost use Rattle.capture_run.specs.ReportText.{IsLineIn, IsTextOf, IsTextOfChosen, IsTextOfOne};
ghost use Rattle.capture_summary.specs.SummaryTables.{file_started};
ghost use Rattle.capture_words.specs.Written.{AppendsOne};
ghost use Rattle.capture_request.specs.declared.parts.Lines.TheVariants as Lines;

use crate::packet_place::PacketPlace;
use crate::{Format, Lines, Parts, WriteError, packet_in_frame, packet_without_room};
use capture_file::PacketTime;
use capture_file::reader::{CapturedPacket, PacketTexts, TooLongPacket};
use capture_json::write_packet;
use capture_packet::Packet;
use capture_request::{captured_info, too_long_info};
use capture_summary::{
    CaptureInfo, PacketInfo, Protocol, RefusalKind, Summary, VerdictKind, flow_of,
};
use capture_text::write_packet_line;
use std::alloc::Global;
use std::io::Write;

/// The state of a report between two packets.
#[derive(Drop)]
pub struct PacketReport {
    alloc: Global,
    parts: Parts,
    first: Option<PacketTime>,
    summary: Summary,
}

impl PacketReport {
    /// Returns the state before the first packet. Packets are added to the counts of `summary`.
    pub fn new(alloc: Global, summary: Summary, parts: Parts) -> PacketReport
        ensures parts { result.parts ≡ parts }
        ensures first { result.first ≡ None }
        ensures summary { result.summary ≡ summary }
    {
        PacketReport {
            alloc,
            parts,
            first: None,
            summary,
        }
    }

    /// Begins a new capture. Times since the first packet are counted from the first packet of this capture that has a time. `file` of the
    /// counts counts only the packets of this capture.
    pub fn start_capture(&mut self)
        ensures { self.new ≡ record self.old { first = None; summary = file_started self.old.summary } }
    {
        self.first = None;
        self.summary.start_file();
    }

    /// Returns the counts so far.
    pub fn summary(&self) -> &Summary
        ensures { result.now ≡ self.now.summary }
    {
        &self.summary
    }

    /// Returns whether the requested number of lines is reached. The result is `false` if no number is requested.
    pub fn is_full(&self) -> bool
        ensures { result ≡ is_full self.now.parts.limit (limited self.now.parts.lines self.now.summary) }
    {
        is_full(&self.parts, &self.summary)
    }

    /// Returns the counts at the end of the report.
    pub fn into_summary(self) -> Summary
        ensures { result ≡ self.summary }
    {
        self.summary
    }

    /// Counts the packet in this frame, if the packet is chosen. Then the call writes the line of the packet, if it has a line. `place` is
    /// the place of the packet in the capture.
    pub fn add<W: Write>(
        &mut self,
        output: &mut W,
        place: PacketPlace,
        captured: &CapturedPacket,
        frame: &[u8],
    ) -> Result<(), WriteError>
        requires room { self.old.summary.packets < 2 ^ 64 - 1 }
        ensures none { self.old.parts.lines ≡ Lines.None → output.new ≡ output.old }
        ensures silent { IfNoLine (IsReadAs self.old.parts.choice.udp_tunnels captured.now.link_type captured.now frame.now)
            self.old.parts captured.now.time (output.new ≡ output.old) }
        ensures text { OnOk result (AppendsOne (W.contents output.old) (W.contents output.new)
            (IsTextOfOne (IsReadAs self.old.parts.choice.udp_tunnels captured.now.link_type captured.now frame.now)
            self.old.parts place.number place.texts self.old.first (captured_info captured.now))) }
        ensures counted { OnOk result (CountsPacket self.old.parts.choice
            (IsReadAs self.old.parts.choice.udp_tunnels captured.now.link_type captured.now frame.now)
            (captured_info captured.now) self.old.summary self.new.summary) }
        ensures parts { self.new.parts ≡ self.old.parts }
        ensures first { self.new.first ≡ option_or self.old.first captured.now.time }
    {
        let packet = packet_in_frame(captured, frame, self.parts.choice.udp_tunnels);
        self.add_packet(output, place, &captured_info(captured), &packet)
    }

    /// Counts a packet that does not fit in the buffer, if the packet is chosen. Then the call writes the line of the packet, if it has a
    /// line. The checksum of this packet is not tested, and its texts are not known.
    pub fn add_too_long<W: Write>(
        &mut self,
        output: &mut W,
        number: u64,
        captured: &TooLongPacket,
    ) -> Result<(), WriteError>
        requires room { self.old.summary.packets < 2 ^ 64 - 1 }
        ensures none { self.old.parts.lines ≡ Lines.None → output.new ≡ output.old }
        ensures silent { IfNoLine (IsTooLong captured.now.required_len) self.old.parts captured.now.time (output.new ≡ output.old) }
        ensures text { OnOk result (AppendsOne (W.contents output.old) (W.contents output.new)
            (IsTextOfOne (IsTooLong captured.now.required_len) self.old.parts number no_packet_texts self.old.first (too_long_info captured.now))) }
        ensures counted { OnOk result (CountsPacket self.old.parts.choice (IsTooLong captured.now.required_len)
            (too_long_info captured.now) self.old.summary self.new.summary) }
        ensures parts { self.new.parts ≡ self.old.parts }
        ensures first { self.new.first ≡ option_or self.old.first captured.now.time }
    {
        let packet = packet_without_room(captured.required_len);
        let texts = PacketTexts::new();
        let place = PacketPlace { number, texts };
        self.add_packet(output, place, &too_long_info(captured), &packet)
    }

    /// Counts a packet, if it is chosen. Then the function writes the line of the packet, if it has a line.
    fn add_packet<W: Write>(
        &mut self,
        output: &mut W,
        place: PacketPlace,
        info: &CaptureInfo,
        packet: &Packet<'_>,
    ) -> Result<(), WriteError>
        requires room { self.old.summary.packets < 2 ^ 64 - 1 }
        ensures counted { OnOk result (CountsChosen self.old.parts.choice packet.now info.now self.old.summary self.new.summary) }
        ensures text { OnOk result (AppendsOne (W.contents output.old) (W.contents output.new)
            (IsTextOf self.old.parts place.number place.texts self.old.first info.now packet.now)) }
        ensures silent { HasNoLine self.old.parts packet.now info.now.time → output.new ≡ output.old }
        ensures parts { self.new.parts ≡ self.old.parts }
        ensures first { self.new.first ≡ option_or self.old.first info.now.time }
    {
        let first = self.first;
        self.first = first.or(info.time);
        if !self.parts.choice.includes(packet, info.time) {
            return Ok(());
        }
        count(&mut self.summary, info, packet)?;
        let placed = PacketInfo {
            number: place.number,
            texts: place.texts,
            first,
            capture: *info,
        };
        self.write_if_included(output, &placed, packet)
    }

    /// Writes the line of a chosen packet, if the packet has a line.
    fn write_if_included<W: Write>(
        &self,
        output: &mut W,
        info: &PacketInfo,
        packet: &Packet<'_>,
    ) -> Result<(), WriteError>
        ensures text { OnOk result (AppendsOne (W.contents output.old) (W.contents output.new)
            (IsTextOfChosen self.now.parts info.now.number info.now.texts info.now.first info.now.capture packet.now)) }
        ensures silent { has_line self.now.parts.lines packet.now.verdict ≡ false → output.new ≡ output.old }
    {
        if !self.parts.lines.include(&packet.verdict) {
            return Ok(());
        }
        self.write_line(output, info, packet)
    }

    /// Writes the line of a packet in the requested format.
    fn write_line<W: Write>(
        &self,
        output: &mut W,
        info: &PacketInfo,
        packet: &Packet<'_>,
    ) -> Result<(), WriteError>
        ensures { OnOk result (AppendsOne (W.contents output.old) (W.contents output.new)
            (IsLineIn self.now.parts.format self.now.parts.times self.now.parts.verbose info.now.number info.now.texts info.now.first info.now.capture packet.now)) }
    {
        let (times, verbose) = (self.parts.times, self.parts.verbose);
        match self.parts.format {
            Format::Text => Ok(write_packet_line(output, times, verbose, info, packet)?),
            Format::Json => write_packet(output, self.alloc, times, info, packet),
        }
    }
}

/// Returns whether the number of lines has reached the requested number. The result is `false` if no number is requested. If no lines are
/// requested, the number of counted packets is compared.
pub(crate) fn is_full(parts: &Parts, summary: &Summary) -> bool
    ensures { result ≡ is_full parts.now.limit (limited parts.now.lines summary.now) }
{
    match parts.limit {
        Some(limit) => limited(parts.lines, summary) >= u128::from(limit),
        None => false,
    }
}

/// Returns the number that a requested number limits: how many of the counted packets have a line. If no lines are requested, it is the
/// number of counted packets.
fn limited(lines: Lines, summary: &Summary) -> u128
    ensures { result ≡ limited lines summary.now }
{
    match lines {
        Lines::All | Lines::None => u128::from(summary.packets()),
        Lines::Wrong => {
            let wrong = summary.verdict(VerdictKind::Wrong);
            u128::from(wrong) + u128::from(summary.verdict(VerdictKind::Refused))
        }
    }
}

/// Counts a packet by its protocol, its verdict, its flow, and what the capture states about it.
fn count(summary: &mut Summary, info: &CaptureInfo, packet: &Packet<'_>) -> Result<(), WriteError>
    requires room { summary.old.packets < 2 ^ 64 - 1 }
    ensures counted { OnOk result (CountsRead packet.now info.now summary.old summary.new) }
{
    summary.add(
        Protocol::of(&packet.content),
        VerdictKind::of(&packet.verdict),
        RefusalKind::of(&packet.verdict),
        flow_of(packet),
        info,
    )?;
    Ok(())
}
