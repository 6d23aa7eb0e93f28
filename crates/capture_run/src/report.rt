//! The report of a run: the packets of each capture, and then the summary of all captures.

ghost use Rattle.std.specs.Prelude.{◌≡◌, IfErr, IfOk, IsNone, OnErr, OnOk, length, map};
ghost use Rattle.std.specs.Io.KnownBytes.{Appends};
ghost use Rattle.std.specs.Option.{option_map};
ghost use Rattle.capture_run.specs.Captures as specs;
ghost use Rattle.capture_run.specs.Captures.{Gives, IsRun, ReportsEach, ReportsHeaded, ReportsNamed, TellsFirst, WritesReport, WritesRun, at_start, heading_in, heading_of, progress_of, row_name, text_heading};
ghost use Rattle.capture_request.specs.ErrorLines.{line_name};
ghost use Rattle.capture_request.specs.Names.{shown_name};

use crate::capture_reports::{CaptureReports, has_headings};
use crate::named_capture::NamedCapture;
use crate::{
    ExitStatus, Format, MAX_PACKET_LEN, Open, Outputs, Parts, STANDARD_INPUT, Sources, WriteError,
};
use capture_json::write_file_name;
use capture_request::{without_mark, write_end, write_open_error};
use capture_words::ShownText;
use std::alloc::Global;
use std::hash::RandomState;
use std::io;
use std::io::Write;

/// Reports the captures of `sources` in their order. Then the call writes the summary of all captures, and returns the exit status. `state`
/// provides the keys for hashing flows. With random keys, no capture can be crafted to slow down the search for a flow. Packets are read
/// into `buffer`. A packet that is longer than the buffer is not read, but it is counted if it is chosen.
///
/// If a number of lines is requested, the run ends after the last requested line, and reads no further capture.
///
/// If a capture can't be opened, or can't be read to its end, the call writes a line with its name and the error to `outputs.errors`. Then
/// the call reports the next capture. The exit status is `Fault` if a check is requested, and a packet has a wrong checksum or was refused.
/// This holds even if a capture can't be opened or can't be read to its end. Otherwise the exit status is the greatest status of all
/// captures.
///
/// # Errors
///
/// `Write` if writing to `outputs.report` fails, and `NoMemory` if no memory is left. After these errors nothing more can be reported. If
/// writing to `outputs.errors` fails, all captures and the summary are reported first, and then `Write` is returned.
pub fn run<O: Open, W: Write, E: Write>(
    sources: &Sources<'_, O>,
    parts: Parts,
    state: RandomState,
    buffer: &mut [u8; MAX_PACKET_LEN],
    outputs: &mut Outputs<W, E>,
) -> Result<ExitStatus, WriteError>
    ensures report { IfOk result (λ status. WritesRun (W.contents outputs.old.report) (W.contents outputs.new.report)
        (E.contents outputs.old.errors) (E.contents outputs.new.errors)
        (IsRun (Gives (O.misses sources.now.opener.now) (O.opens sources.now.opener.now) O.Input.remaining) parts
        (map (λ name. name.now) sources.now.names.now) status)) }
    ensures errors { IfErr result (λ error. TellsFirst (Gives (O.misses sources.now.opener.now) (O.opens sources.now.opener.now) O.Input.remaining) parts
        (length sources.now.names.now) (specs.captures_of (map (λ name. name.now) sources.now.names.now)) (at_start parts)
        (E.contents outputs.old.errors) (E.contents outputs.new.errors)) }
{
    let start = CaptureReports::new(outputs.alloc, state, parts)?;
    let reports = report_captures(sources, start, buffer, outputs)?;
    let status = reports.finish(sources.names.len(), outputs.alloc, &mut outputs.report)?;
    match reports.into_unwritten() {
        Some(error) => Err(WriteError::Write(error)),
        None => Ok(status),
    }
}

/// Reports the captures with these names. If there is no name, it reports standard input.
fn report_captures<'a, O: Open, W: Write, E: Write>(
    sources: &Sources<'a, O>,
    reports: CaptureReports<'a>,
    buffer: &mut [u8; MAX_PACKET_LEN],
    outputs: &mut Outputs<W, E>,
) -> Result<CaptureReports<'a>, WriteError>
    ensures report { IfOk result (λ after. WritesReport (W.contents outputs.old.report) (W.contents outputs.new.report)
        (E.contents outputs.old.errors) (E.contents outputs.new.errors) (IsNone after.unwritten)
        (ReportsEach (Gives (O.misses sources.now.opener.now) (O.opens sources.now.opener.now) O.Input.remaining) reports.entry.parts
        (length sources.now.names.now) 0 (specs.captures_of (map (λ name. name.now) sources.now.names.now)) (progress_of reports.entry) (progress_of after))) }
    ensures told { IfOk result (λ after. IsNone after.unwritten → IsNone reports.entry.unwritten) }
    ensures errors { IfErr result (λ error. TellsFirst (Gives (O.misses sources.now.opener.now) (O.opens sources.now.opener.now) O.Input.remaining) reports.entry.parts
        (length sources.now.names.now) (specs.captures_of (map (λ name. name.now) sources.now.names.now)) (progress_of reports.entry)
        (E.contents outputs.old.errors) (E.contents outputs.new.errors)) }
    ensures parts { IfOk result (λ after. after.parts ≡ reports.entry.parts) }
{
    if sources.names.is_empty() {
        let input = NamedCapture {
            count: 0,
            place: 0,
            name: STANDARD_INPUT,
        };
        report_headed(&input, sources.opener, reports, buffer, outputs)
    } else {
        report_each_capture(sources, reports, buffer, outputs)
    }
}

/// Reports each of these captures, in their order.
fn report_each_capture<'a, O: Open, W: Write, E: Write>(
    sources: &Sources<'a, O>,
    reports: CaptureReports<'a>,
    buffer: &mut [u8; MAX_PACKET_LEN],
    outputs: &mut Outputs<W, E>,
) -> Result<CaptureReports<'a>, WriteError>
    ensures report { IfOk result (λ after. WritesReport (W.contents outputs.old.report) (W.contents outputs.new.report)
        (E.contents outputs.old.errors) (E.contents outputs.new.errors) (IsNone after.unwritten)
        (ReportsEach (Gives (O.misses sources.now.opener.now) (O.opens sources.now.opener.now) O.Input.remaining) reports.entry.parts
        (length sources.now.names.now) 0 (map (λ name. name.now) sources.now.names.now) (progress_of reports.entry) (progress_of after))) }
    ensures told { IfOk result (λ after. IsNone after.unwritten → IsNone reports.entry.unwritten) }
    ensures errors { IfErr result (λ error. TellsFirst (Gives (O.misses sources.now.opener.now) (O.opens sources.now.opener.now) O.Input.remaining) reports.entry.parts
        (length sources.now.names.now) (map (λ name. name.now) sources.now.names.now) (progress_of reports.entry)
        (E.contents outputs.old.errors) (E.contents outputs.new.errors)) }
    ensures parts { IfOk result (λ after. after.parts ≡ reports.entry.parts) }
{
    let mut reports = reports;
    for (place, name) in sources.names.iter().enumerate() {
        let capture = NamedCapture {
            count: sources.names.len(),
            place,
            name,
        };
        reports = report_headed(&capture, sources.opener, reports, buffer, outputs)?;
    }
    Ok(reports)
}

/// Reports a capture. A heading precedes its packets if several captures are named and packets may have lines. The capture is skipped if
/// the requested number was already reached.
fn report_headed<'a, O: Open, W: Write, E: Write>(
    capture: &NamedCapture<'a>,
    opener: &O,
    reports: CaptureReports<'a>,
    buffer: &mut [u8; MAX_PACKET_LEN],
    outputs: &mut Outputs<W, E>,
) -> Result<CaptureReports<'a>, WriteError>
    ensures report { IfOk result (λ after. WritesReport (W.contents outputs.old.report) (W.contents outputs.new.report)
        (E.contents outputs.old.errors) (E.contents outputs.new.errors) (IsNone after.unwritten)
        (ReportsHeaded (Gives (O.misses opener.now) (O.opens opener.now) O.Input.remaining) reports.entry.parts capture.now.count capture.now.place
        capture.now.name.now (progress_of reports.entry) (progress_of after))) }
    ensures told { IfOk result (λ after. IsNone after.unwritten → IsNone reports.entry.unwritten) }
    ensures errors { OnErr result (outputs.new.errors ≡ outputs.old.errors) }
    ensures parts { IfOk result (λ after. after.parts ≡ reports.entry.parts) }
{
    if reports.is_full() {
        return Ok(reports);
    }
    let parts = *reports.parts();
    write_heading_if_any(capture, &parts, outputs.alloc, &mut outputs.report)?;
    report_capture(capture, opener, reports, buffer, outputs)
}

/// Returns the name of the capture in the line of an error. The result is `None` if standard input is read without a name.
fn line_name<'a>(count: usize, name: &'a str) -> Option<&'a str>
    ensures { option_map (λ text. shown_name text.now) result ≡ line_name count name.now }
{
    if count == 0 {
        return None;
    }
    Some(name)
}

/// Returns the name in the row of the capture. The result is `None` if at most one capture is named.
fn row_name<'a>(count: usize, name: &'a str) -> Option<&'a str>
    ensures { option_map (λ text. text.now) result ≡ row_name count name.now }
{
    if count > 1 {
        return Some(without_mark(name));
    }
    None
}

/// Reports a capture without its heading, and writes the line of its error if there is an error.
fn report_capture<'a, O: Open, W: Write, E: Write>(
    capture: &NamedCapture<'a>,
    opener: &O,
    reports: CaptureReports<'a>,
    buffer: &mut [u8; MAX_PACKET_LEN],
    outputs: &mut Outputs<W, E>,
) -> Result<CaptureReports<'a>, WriteError>
    ensures report { IfOk result (λ after. WritesReport (W.contents outputs.old.report) (W.contents outputs.new.report)
        (E.contents outputs.old.errors) (E.contents outputs.new.errors) (IsNone after.unwritten)
        (ReportsNamed (Gives (O.misses opener.now) (O.opens opener.now) O.Input.remaining) reports.entry.parts
        (line_name capture.now.count capture.now.name.now) (row_name capture.now.count capture.now.name.now) capture.now.name.now
        (progress_of reports.entry) (progress_of after))) }
    ensures told { IfOk result (λ after. IsNone after.unwritten → IsNone reports.entry.unwritten) }
    ensures errors { OnErr result (outputs.new.errors ≡ outputs.old.errors) }
    ensures parts { IfOk result (λ after. after.parts ≡ reports.entry.parts) }
{
    let (name, alloc) = (capture.name, outputs.alloc);
    let mut input = match opener.open(name) {
        Ok(input) => input,
        Err(error) => {
            let written = write_open_error(&mut outputs.errors, alloc, name, &error);
            return Ok(reports.add_unopened().after_line(written));
        }
    };
    let row = row_name(capture.count, name);
    let (reports, ended) = reports.add(row, &mut input, buffer, alloc, &mut outputs.report)?;
    let shown = line_name(capture.count, name);
    let written = write_end(&mut outputs.errors, alloc, shown, &ended);
    Ok(reports.after_line(written))
}

/// Writes the heading of a capture. If at most one capture is named, or if no packet may have a line, nothing is written.
fn write_heading_if_any<W: Write>(
    capture: &NamedCapture<'_>,
    parts: &Parts,
    alloc: Global,
    output: &mut W,
) -> Result<(), WriteError>
    ensures { OnOk result (Appends (W.contents output.old) (W.contents output.new)
        (heading_of parts.now capture.now.count capture.now.place capture.now.name.now)) }
{
    if !has_headings(parts.lines, capture.count) {
        return Ok(());
    }
    write_heading(output, alloc, parts.format, capture.place, capture.name)
}

/// Writes the heading of a capture, which contains its name, in the requested format.
fn write_heading<W: Write>(
    output: &mut W,
    alloc: Global,
    format: Format,
    place: usize,
    name: &str,
) -> Result<(), WriteError>
    ensures { OnOk result (Appends (W.contents output.old) (W.contents output.new) (heading_in format place name.now)) }
{
    match format {
        Format::Text => Ok(write_text_heading(output, place, name)?),
        Format::Json => write_file_name(output, alloc, without_mark(name)),
    }
}

/// Writes the heading of a capture as text: its name between arrows. An empty line precedes it, except before the first capture.
fn write_text_heading<W: Write>(output: &mut W, place: usize, name: &str) -> io::Result<()>
    ensures { OnOk result (Appends (W.contents output.old) (W.contents output.new) (text_heading place name.now)) }
{
    if place > 0 {
        writeln!(output)?;
    }
    writeln!(output, "==> {} <==", ShownText(without_mark(name)))
}
