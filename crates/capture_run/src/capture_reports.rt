ghost use Rattle.std.specs.Prelude.{◌≡◌, ◌↔◌, ◌++◌, IfOk, IsNone, IsOk, IsTrue, None, OnOk, Option, [], if◌then◌else◌, true};
ghost use Rattle.std.specs.Io.KnownBytes.{Appends};
ghost use Rattle.capture_file.specs.declared.reader.capture_reader.CaptureReader.{CaptureReader};
ghost use Rattle.std.specs.Option.{option_map};
ghost use Rattle.capture_json.specs.JsonPacket.{json_line};
ghost use Rattle.capture_json.specs.JsonSummary.{summary_members};
ghost use Rattle.capture_run.specs.Captures.{files_after, only_capture, progress_of};
ghost use Rattle.capture_request.specs.Endings.{status_of};
ghost use Rattle.capture_request.specs.Intervals.{width_of};
ghost use Rattle.capture_run.specs.PacketsText.{IsCaptureReport, empty_line, end_text, has_headings, has_packet_line, summary_in, timeline_part};
ghost use Rattle.capture_summary.specs.Endpoints.{busiest_endpoints};
ghost use Rattle.capture_summary.specs.Ranking.{busiest_of};
ghost use Rattle.capture_request.specs.ExitStatuses.{final_status, greater};
ghost use Rattle.capture_request.specs.Limits.{EndsByLimit, IsWithin, is_full, limited};
ghost use Rattle.capture_run.specs.Runs.{EndsAtHeader};
ghost use Rattle.capture_request.specs.declared.exit_status.ExitStatus.TheVariants as ExitStatus;
ghost use Rattle.capture_summary.specs.Files.{no_files};
ghost use Rattle.capture_summary.specs.SummaryTables.{empty_tables};
ghost use Rattle.capture_words.specs.FactsText.{facts_text};
ghost use Rattle.capture_text.specs.FilesText.{files_table};
ghost use Rattle.capture_text.specs.SummaryText.{tables_text};
ghost use Rattle.capture_words.specs.Written.{AppendsOne};
ghost use Rattle.capture_request.specs.declared.parts.Lines.TheVariants as Lines;

use crate::packet_report::{PacketReport, is_full};
use crate::packets::report_packets;
use crate::{CaptureError, ExitStatus, Format, Lines, MAX_PACKET_LEN, Parts, Reached, WriteError};
use capture_file::reader::CaptureReader;
use capture_json::Captures;
use capture_summary::{Busiest, FileCount, FileTable, Summary};
use capture_text::{write_files, write_summary, write_timeline};
use capture_words::write_facts;
use std::alloc::{AllocError, Global};
use std::hash::RandomState;
use std::io;
use std::io::{Read, Write};

/// The state of a run between two captures.
#[derive(Drop)]
pub(crate) struct CaptureReports<'a> {
    parts: Parts,
    summary: Summary,
    /// The greatest exit status of the reports so far.
    status: ExitStatus,
    /// True until the beginning of a capture is accepted.
    is_empty: bool,
    /// The reader of the only capture whose beginning was accepted, after the packets were read. `None` if no beginning or several
    /// beginnings were accepted.
    capture: Option<CaptureReader>,
    /// The table of files. It has no rows if at most one capture is named.
    files: FileTable<'a>,
    /// The last failure to write the line of an error, if writing a line failed.
    unwritten: Option<io::Error>,
}

impl<'a> CaptureReports<'a> {
    /// Returns the state before the first capture. `state` provides the keys for hashing flows. With random keys, no capture can be crafted
    /// to slow down the search for a flow.
    ///
    /// # Errors
    ///
    /// `AllocError` if no memory is left, and for no other reason.
    pub fn new(
        alloc: Global,
        state: RandomState,
        parts: Parts,
    ) -> Result<CaptureReports<'a>, AllocError>
        ensures parts { IfOk result (λ reports. reports.parts ≡ parts) }
        ensures summary { IfOk result (λ reports. reports.summary ≡ empty_tables (width_of parts)) }
        ensures status { IfOk result (λ reports. reports.status ≡ ExitStatus.Success) }
        ensures empty { IfOk result (λ reports. reports.is_empty ≡ true) }
        ensures capture { IfOk result (λ reports. reports.capture ≡ None) }
        ensures files { IfOk result (λ reports. reports.files ≡ no_files) }
        ensures unwritten { IfOk result (λ reports. reports.unwritten ≡ None) }
    {
        Ok(CaptureReports {
            parts,
            summary: Summary::new(alloc, state, parts.interval)?,
            status: ExitStatus::Success,
            is_empty: true,
            capture: None,
            files: FileTable::new(),
            unwritten: None,
        })
    }

    /// Reads a capture, and adds its chosen packets to the counts of the captures before it. The call writes the line of each chosen packet
    /// that has a line. In each capture the first packet has number 1, and times are counted from the first packet that has a time. Packets
    /// that are not chosen have a number too, and can be the first packet.
    ///
    /// `row` is the name in the row of the capture, or `None` if it has no row. The row counts the chosen packets of this capture. If the
    /// beginning of the capture is not accepted, it has no row.
    ///
    /// The inner error is the reason why the capture is refused, or why no further packet can be read. Packets before the error are
    /// counted, and another capture can follow.
    ///
    /// # Errors
    ///
    /// `Write` if writing fails, and `NoMemory` if no memory is left. After these errors nothing more can be reported.
    pub fn add<R: Read, W: Write>(
        self,
        row: Option<&'a str>,
        input: &mut R,
        buffer: &mut [u8; MAX_PACKET_LEN],
        alloc: Global,
        output: &mut W,
    ) -> Result<(CaptureReports<'a>, Result<Reached, CaptureError>), WriteError>
        ensures report { IfOk result (λ given. (reader : Option CaptureReader)
            × (given.0.capture ≡ only_capture self.entry.is_empty self.entry.capture reader)
            × (given.0.files ≡ files_after (option_map (λ text. text.now) row.entry) reader given.0.summary.file self.entry.files)
            × AppendsOne (W.contents output.old) (W.contents output.new)
            (IsCaptureReport self.entry.parts (R.remaining input.old) (R.remaining input.new) given.1 self.entry.summary given.0.summary reader)) }
        ensures status { IfOk result (λ given. given.0.status ≡ greater self.entry.status (status_of given.1)) }
        ensures parts { IfOk result (λ given. given.0.parts ≡ self.entry.parts) }
        ensures unwritten { IfOk result (λ given. given.0.unwritten ≡ self.entry.unwritten) }
        ensures empty { IfOk result (λ given. IsTrue given.0.is_empty ↔ (IsTrue self.entry.is_empty × EndsAtHeader given.1)) }
        ensures limit { IfOk result (λ given. EndsByLimit self.entry.parts.limit (limited self.entry.parts.lines given.0.summary) given.1) }
        ensures within { IsWithin self.entry.parts.limit (limited self.entry.parts.lines self.entry.summary)
            → IfOk result (λ given. IsWithin self.entry.parts.limit (limited self.entry.parts.lines given.0.summary)) }
        ensures silent { self.entry.parts.lines ≡ Lines.None → output.new ≡ output.old }
    {
        let CaptureReports {
            parts,
            summary,
            status,
            is_empty,
            capture,
            files,
            unwritten,
        } = self;
        let mut packets = PacketReport::new(alloc, summary, parts);
        let mut reader = None;
        let ended = report_packets(&mut packets, &mut reader, input, buffer, output)?;
        let status = greater(status, status_of(&ended));
        let summary = packets.into_summary();
        let files = files_after(row, &reader, summary.file(), files);
        let reports = CaptureReports {
            parts,
            summary,
            status,
            is_empty: is_empty && ends_at_header(&ended),
            capture: only_capture(is_empty, capture, reader),
            files,
            unwritten,
        };
        Ok((reports, ended))
    }

    /// Returns the options of the report.
    pub fn parts(&self) -> &Parts
        ensures { result.now ≡ self.now.parts }
    {
        &self.parts
    }

    /// Returns whether the requested number of lines is reached. In that case no further capture is read. The result is `false` if no
    /// number is requested.
    pub fn is_full(&self) -> bool
        ensures { result ≡ is_full self.now.parts.limit (limited self.now.parts.lines self.now.summary) }
    {
        is_full(&self.parts, &self.summary)
    }

    /// Notes that a capture can't be opened. The status becomes at least `Failed`.
    pub fn add_unopened(self) -> CaptureReports<'a>
        ensures { result ≡ record self.entry { status = greater self.entry.status ExitStatus.Failed } }
    {
        CaptureReports {
            status: greater(self.status, ExitStatus::Failed),
            ..self
        }
    }

    /// Notes the result of writing the line of an error. The last failure is kept until the end of the run.
    pub fn after_line(self, written: io::Result<()>) -> CaptureReports<'a>
        ensures progress { progress_of result ≡ progress_of self.entry }
        ensures parts { result.parts ≡ self.entry.parts }
        ensures unwritten { IsNone result.unwritten ↔ (IsNone self.entry.unwritten × IsOk written) }
    {
        match written {
            Ok(()) => self,
            Err(error) => CaptureReports {
                unwritten: Some(error),
                ..self
            },
        }
    }

    /// Returns the last failure to write the line of an error, if there is one.
    pub fn into_unwritten(self) -> Option<io::Error>
        ensures { result ≡ self.entry.unwritten }
    {
        self.unwritten
    }

    /// Writes the summary of all captures, if a summary is requested and the beginning of a capture was accepted. `count` is the number of
    /// named captures. Then the call flushes the output, and returns the exit status. The exit status is `Fault` if a check is requested, and
    /// a packet has a wrong checksum or was refused. Otherwise the exit status is the greatest status of the reports.
    ///
    /// # Errors
    ///
    /// `Write` if writing fails, and `NoMemory` if no memory is left.
    pub fn finish<W: Write>(
        &self,
        count: usize,
        alloc: Global,
        output: &mut W,
    ) -> Result<ExitStatus, WriteError>
        ensures status { IfOk result (λ status. status ≡ final_status self.now.parts.check self.now.status self.now.summary) }
        ensures text { OnOk result (Appends (W.contents output.old) (W.contents output.new)
            (if self.now.is_empty then [] else end_text self.now.parts count self.now.capture self.now.files self.now.summary)) }
    {
        self.write_end(count, alloc, output)?;
        output.flush()?;
        Ok(self.final_status())
    }

    /// Writes the summary, if a summary is requested and the beginning of a capture was accepted.
    fn write_end<W: Write>(
        &self,
        count: usize,
        alloc: Global,
        output: &mut W,
    ) -> Result<(), WriteError>
        ensures { OnOk result (Appends (W.contents output.old) (W.contents output.new)
            (if self.now.is_empty then [] else end_text self.now.parts count self.now.capture self.now.files self.now.summary)) }
    {
        if self.is_empty || !self.parts.summary {
            return Ok(());
        }
        let busiest = Busiest::of(self.summary.flows(), alloc, self.parts.top)?;
        self.write_summary(count, &busiest, alloc, output)
    }

    /// Writes the summary in the requested format. The summary lists the conversations and endpoints in `busiest`.
    fn write_summary<W: Write>(
        &self,
        count: usize,
        busiest: &Busiest,
        alloc: Global,
        output: &mut W,
    ) -> Result<(), WriteError>
        ensures { busiest.now.conversations.items ≡ busiest_of self.now.parts.top self.now.summary.flows.rows
            → busiest.now.endpoints.items ≡ busiest_endpoints self.now.parts.top self.now.summary.flows.rows
            → OnOk result (Appends (W.contents output.old) (W.contents output.new)
            (summary_in self.now.parts.format self.now.parts count self.now.capture self.now.files self.now.summary)) }
    {
        match self.parts.format {
            Format::Text => self.write_text_summary(count, busiest, output),
            Format::Json => self.write_json_summary(busiest, alloc, output),
        }
    }

    /// Writes the summary as JSON.
    fn write_json_summary<W: Write>(
        &self,
        busiest: &Busiest,
        alloc: Global,
        output: &mut W,
    ) -> Result<(), WriteError>
        ensures { OnOk result (Appends (W.contents output.old) (W.contents output.new)
            (json_line (summary_members self.now.capture self.now.files busiest.now.conversations.items busiest.now.endpoints.items self.now.summary))) }
    {
        let captures = Captures {
            only: &self.capture,
            files: &self.files,
        };
        capture_json::write_summary(output, alloc, &captures, &self.summary, busiest)
    }

    /// Writes the summary as text: the facts about the capture if only one capture was read, the tables, the table of the timeline if it is
    /// requested, and the table of files. An empty line can come first, as `write_empty_line` describes. `count` is the number of named
    /// captures.
    fn write_text_summary<W: Write>(
        &self,
        count: usize,
        busiest: &Busiest,
        output: &mut W,
    ) -> Result<(), WriteError>
        ensures { OnOk result (Appends (W.contents output.old) (W.contents output.new)
            (empty_line self.now.parts.lines count self.now.summary ++ (facts_text self.now.capture
            ++ (tables_text busiest.now.conversations.items busiest.now.endpoints.items self.now.summary
            ++ (timeline_part self.now.parts self.now.summary ++ files_table self.now.files))))) }
    {
        write_empty_line(output, self.parts.lines, count, &self.summary)?;
        Ok(self.write_facts_and_tables(busiest, output)?)
    }

    /// Writes the facts about the capture, if only one capture was read, then the tables, the table of the timeline if it is requested, and
    /// the table of files.
    fn write_facts_and_tables<W: Write>(&self, busiest: &Busiest, output: &mut W) -> io::Result<()>
        ensures { OnOk result (Appends (W.contents output.old) (W.contents output.new) (facts_text self.now.capture
            ++ (tables_text busiest.now.conversations.items busiest.now.endpoints.items self.now.summary
            ++ (timeline_part self.now.parts self.now.summary ++ files_table self.now.files)))) }
    {
        write_facts(output, &self.capture)?;
        write_summary(output, &self.summary, busiest)?;
        self.write_timeline(output)?;
        write_files(output, &self.files)
    }

    /// Writes the table of the timeline, if it is requested.
    fn write_timeline<W: Write>(&self, output: &mut W) -> io::Result<()>
        ensures { OnOk result (Appends (W.contents output.old) (W.contents output.new) (timeline_part self.now.parts self.now.summary)) }
    {
        if !self.parts.timeline {
            return Ok(());
        }
        write_timeline(output, self.summary.timeline())
    }

    /// Returns the exit status of the run. It is `Fault` if a check is requested, and a packet has a wrong checksum or was refused.
    /// Otherwise it is the greatest status of the reports.
    fn final_status(&self) -> ExitStatus
        ensures { result ≡ final_status self.now.parts.check self.now.status self.now.summary }
    {
        if self.parts.check && self.summary.has_fault() {
            return ExitStatus::Fault;
        }
        self.status
    }
}

/// Writes the empty line before the summary, if a packet has a line, or if `has_headings` is true.
fn write_empty_line<W: Write>(
    output: &mut W,
    lines: Lines,
    count: usize,
    summary: &Summary,
) -> Result<(), WriteError>
    ensures { OnOk result (Appends (W.contents output.old) (W.contents output.new) (empty_line lines count summary.now)) }
{
    if has_packet_line(lines, summary) || has_headings(lines, count) {
        return Ok(writeln!(output)?);
    }
    Ok(())
}

/// Returns whether at least one of the counted packets has a line.
fn has_packet_line(lines: Lines, summary: &Summary) -> bool
    ensures { result ≡ has_packet_line lines summary.now }
{
    match lines {
        Lines::All => summary.packets() > 0,
        Lines::Wrong => summary.has_fault(),
        Lines::None => false,
    }
}

/// Returns whether captures have headings: lines of packets are requested, and several captures are named. `count` is the number of named
/// captures.
pub(crate) fn has_headings(lines: Lines, count: usize) -> bool
    ensures { result ≡ has_headings lines count }
{
    lines != Lines::None && count > 1
}

/// Returns the status with the greater number.
fn greater(status: ExitStatus, other: ExitStatus) -> ExitStatus
    ensures { result ≡ greater status other }
{
    if status.number() < other.number() {
        other
    } else {
        status
    }
}

/// Returns the reader of the only capture whose beginning was accepted, or `None` if no beginning or several beginnings were accepted.
/// `capture` is the result for the captures before the new capture. `reader` is the reader of the new capture, or `None` if its beginning
/// was not accepted. `is_empty` is true if no beginning was accepted before.
fn only_capture(
    is_empty: bool,
    capture: Option<CaptureReader>,
    reader: Option<CaptureReader>,
) -> Option<CaptureReader>
    ensures { result ≡ only_capture is_empty capture reader }
{
    match reader {
        Some(reader) if is_empty => Some(reader),
        Some(_) => None,
        None => capture,
    }
}

/// Returns the table of files after a capture with these packets. `row` is the name in its row, or `None` if it has no row. `reader` is
/// `None` if the beginning of the capture was not accepted.
fn files_after<'a>(
    row: Option<&'a str>,
    reader: &Option<CaptureReader>,
    count: FileCount,
    mut files: FileTable<'a>,
) -> FileTable<'a>
    ensures { result ≡ files_after (option_map (λ text. text.now) row.entry) reader.now count files.entry }
{
    let Some(name) = row else {
        return files;
    };
    match reader {
        Some(_) => {
            files.add(name, count);
            files
        }
        None => files,
    }
}

/// Returns whether the report of a capture ended within the beginning of the capture.
fn ends_at_header(ended: &Result<Reached, CaptureError>) -> bool
    ensures { IsTrue result ↔ EndsAtHeader ended.now }
{
    matches!(
        ended,
        Err(CaptureError::Header(_) | CaptureError::ReadHeader(_))
    )
}

/// Returns the exit status of a report that ended with this result.
fn status_of(ended: &Result<Reached, CaptureError>) -> ExitStatus
    ensures { result ≡ status_of ended.now }
{
    match ended {
        Ok(_) => ExitStatus::Success,
        Err(error) => error.status(),
    }
}
