//! Reads captures, and reports the content of every packet and whether its checksum is right.
//!
//! A capture is a file in the classic format of libpcap (draft-ietf-opsawg-pcap) or a pcapng file (draft-ietf-opsawg-pcapng). A packet is
//! read down to its transport: UDP (RFC 768), TCP (RFC 9293), ICMPv4 (RFC 792) or ICMPv6 (RFC 4443), over IPv4 or IPv6. The report has a
//! line for each packet, and then a summary. A capture is read as a stream, one packet at a time, so that the memory does not grow with the
//! capture.
//!
//! ```text
//! $ capture_report capture.pcap
//! ```
#![tactic(auto)]

ghost use Rattle.std.specs.Prelude.{◌≡◌, IfOk, IsOk, Ok, map, option_map, string_bytes};
ghost use Rattle.std.specs.Io.Buffered.{reader_remaining};
ghost use Rattle.std.specs.IoError.{error_kind};
ghost use Rattle.clap.specs.Words.{kind_of};
ghost use Rattle.capture_request.specs.ErrorLines.{IsOneLine, IsOpenErrorLine, WritesSome};
ghost use Rattle.capture_request.specs.ExitStatuses.{exit_number};
ghost use Rattle.capture_request.specs.Names.{shown_name};
ghost use Rattle.capture_report.specs.Failures.{failure_number, write_failure_number};
ghost use Rattle.capture_report.specs.Outputs.{AreErrorLines, AreSelectionLines, FailsFirst, IsStatusOf, WritesSelection, counts_line, written_status};
ghost use Rattle.capture_report.specs.Reports.{EndsReport, IsMissed, IsOpened};
ghost use Rattle.capture_arguments.specs.Rejections.{answer_number};
ghost use Rattle.capture_run.specs.Captures.{Gives, IsRun, WritesRun};
ghost use Rattle.program_files.specs.Inputs.{bytes_left};
ghost use Rattle.program_files.specs.Progress.{inner_of};

mod filters;
mod task;

use capture_arguments::{
    Options, OwnArguments, no_capture, output_is_capture, requested_options, words_of,
};
use capture_request::{
    ExitStatus, Lines, MAX_PACKET_LEN, Parts, Reached, STANDARD_INPUT, write_error,
    write_open_error,
};
use capture_run::{Open, Outputs, Sources, WriteError, run};
use capture_selection::{Copier, Counts, SelectionError, write_selected};
use filters::missing_filter;
use program_files::{
    Computer, FileSystem, Flushes, Input, NewFile, Progress, open_input, with_progress,
};
use std::alloc::{AllocError, Global};
use std::hash::RandomState;
use std::io;
use std::io::{BufReader, BufWriter, ErrorKind, IsTerminal, LineWriter, Read, Stderr, Write};
use std::process::ExitCode;
use streams::{new_buffer, write_whole};
use task::{Task, first_name, task_of};

/// The name of the program in its progress line.
const PROGRAM: &str = "capture_report";

/// The size of the input buffer of a capture and of the buffer of standard output, in bytes.
const BUFFER_LEN: usize = 1 << 16;

/// The exit status if the reader of standard output or standard error ended first. A shell reports the same status for a program that ended
/// by SIGPIPE.
const BROKEN_PIPE: u8 = 128 + 13;

fn main(rt: HostRuntime) -> ExitCode {
    match status(&rt) {
        Ok(status) => ExitCode::from(status),
        Err(error) => ExitCode::from(failure(&rt, &error)),
    }
}

/// Writes the error that ends the program, and returns the exit status. It writes nothing if the reader of standard output or standard
/// error ended first, as `head` does.
fn failure(rt: &HostRuntime, error: &io::Error) -> u8
    ensures { result ≡ failure_number (error_kind error.now) }
{
    if error.kind() == ErrorKind::BrokenPipe {
        return BROKEN_PIPE;
    }
    // If writing to standard error fails, the exit status still reports the failure.
    let _ = writeln!(rt.stderr(), "capture_report: {error}");
    ExitStatus::Failed.number()
}

/// Reads the arguments, runs the request in them, and returns the exit status.
fn status(rt: &HostRuntime) -> io::Result<u8> {
    let words = words_of(&rt.alloc(), &OwnArguments { rt })?;
    let options = match requested_options(&rt.alloc(), words.as_slice()) {
        Ok(options) => options,
        Err(error) => return answer(rt, error),
    };
    let system = Computer { rt };
    if let Some((name, error)) = missing_filter(&system, options.files.as_slice()) {
        let status = ExitStatus::NoCapture;
        return unopened(&mut rt.stderr(), rt.alloc(), name, &error, status);
    }
    match task_of(
        &options,
        rt.stdin().is_terminal(),
        rt.stdout().is_terminal(),
    ) {
        Task::Refuse => answer(rt, no_capture(&rt.alloc())),
        Task::Write(name) => write_to(rt, &options, name),
        Task::ReportByLine => {
            let output = LineWriter::with_capacity(rt.alloc(), BUFFER_LEN, rt.stdout())?;
            report_to(rt, &system, &options, &mut outputs_with(rt, output))
        }
        Task::Report => {
            let output = BufWriter::with_capacity(rt.alloc(), BUFFER_LEN, rt.stdout())?;
            report_to(rt, &system, &options, &mut outputs_with(rt, output))
        }
    }
}

/// The outputs of a run that writes its report to this output.
fn outputs_with<W>(rt: &HostRuntime, report: W) -> Outputs<W, Stderr>
    ensures { result.report ≡ report }
{
    Outputs {
        alloc: rt.alloc(),
        report,
        errors: rt.stderr(),
    }
}

/// Writes the error in the arguments, or the text that they request, and returns the exit status.
fn answer(rt: &HostRuntime, error: clap::Error) -> io::Result<u8>
    ensures { IfOk result (λ status. status ≡ answer_number (kind_of error)) }
{
    error.print(rt)?;
    if error.kind() == clap::error::ErrorKind::OutOfMemory {
        return Ok(ExitStatus::Failed.number());
    }
    Ok(error.exit_code() as u8)
}

/// Reports the captures that the options name, and returns the exit status.
///
/// # Errors
///
/// The error of the operating system if it returns no random number.
fn report_to<S: FileSystem, W: Write, E: Write>(
    rt: &HostRuntime,
    system: &S,
    options: &Options<'_>,
    outputs: &mut Outputs<W, E>,
) -> io::Result<u8>
    ensures { IfOk result (EndsReport (λ status. WritesRun (W.contents outputs.old.report) (W.contents outputs.new.report)
        (E.contents outputs.old.errors) (E.contents outputs.new.errors)
        (IsRun (Gives (IsMissed (S.opens system.now)) (IsOpened (S.is_standard system.now) (S.opens system.now))
        (reader_remaining (λ progress. bytes_left S.Standard.remaining S.File.remaining (inner_of progress)))) options.now.parts
        (map (λ name. name.now) options.now.files.items) status))) }
{
    let state = RandomState::new(rt)?;
    let lines_on_terminal = rt.stdout().is_terminal() && options.parts.lines != Lines::None;
    let files = Files {
        rt,
        system,
        lines_on_terminal,
    };
    // The limit of the program: a packet above `MAX_PACKET_LEN`, 524,288 bytes, is counted, but not read.
    let Ok(mut bytes) = new_buffer(rt.alloc(), MAX_PACKET_LEN) else {
        return Ok(write_failure(rt, &WriteError::NoMemory));
    };
    let buffer = bytes.as_mut_slice().as_mut_array().unwrap();
    match report(options, &files, state, buffer, outputs) {
        Ok(status) => Ok(status.number()),
        Err(error) => Ok(write_failure(rt, &error)),
    }
}

/// Reports the captures that the options name, in their order, and returns the exit status. The report has the parts that the options
/// request. `state` provides the keys for hashing flows. Packets are read into `buffer`.
///
/// # Errors
///
/// `Write` if writing fails, and `NoMemory` if no memory is left, as `run` states.
fn report<O: Open, W: Write, E: Write>(
    options: &Options<'_>,
    opener: &O,
    state: RandomState,
    buffer: &mut [u8; MAX_PACKET_LEN],
    outputs: &mut Outputs<W, E>,
) -> Result<ExitStatus, WriteError>
    ensures { IfOk result (λ status. WritesRun (W.contents outputs.old.report) (W.contents outputs.new.report)
        (E.contents outputs.old.errors) (E.contents outputs.new.errors)
        (IsRun (Gives (O.misses opener.now) (O.opens opener.now) O.Input.remaining) options.now.parts
        (map (λ name. name.now) options.now.files.items) status)) }
{
    let sources = Sources {
        names: options.files.as_slice(),
        opener,
    };
    run(&sources, options.parts, state, buffer, outputs)
}

/// Writes the packets of the capture to the file with this name, or to standard output, and returns the exit status. The file is created
/// when its first byte is written. So it is created only if the beginning of the capture was accepted.
fn write_to(rt: &HostRuntime, options: &Options<'_>, name: &str) -> io::Result<u8> {
    let system = Computer { rt };
    let capture = first_name(options);
    let input = match open_input(&system, capture.unwrap_or(STANDARD_INPUT)) {
        Ok(input) => input,
        Err(error) => {
            let name = capture.unwrap_or(STANDARD_INPUT);
            return unopened(
                &mut rt.stderr(),
                rt.alloc(),
                name,
                &error,
                ExitStatus::Failed,
            );
        }
    };
    if name == STANDARD_INPUT {
        let mixed = rt.stdout().is_terminal();
        let input = with_progress(rt, &system, input, PROGRAM, mixed);
        return write_packets(rt, &options.parts, capture, input, rt.stdout());
    }
    let Some(mut output) = NewFile::unless_input(&system, &input, name) else {
        return answer(rt, output_is_capture(&rt.alloc()));
    };
    let input = with_progress(rt, &system, input, PROGRAM, false);
    match write_packets(rt, &options.parts, capture, input, &mut output) {
        Err(error) if output.is_refused() => {
            unopened(
                &mut rt.stderr(),
                rt.alloc(),
                name,
                &error,
                ExitStatus::Failed,
            )
        }
        result => result,
    }
}

/// Writes the error of a file that can't be opened or created, and returns this exit status.
fn unopened<E: Write>(
    errors: &mut E,
    alloc: Global,
    name: &str,
    error: &io::Error,
    status: ExitStatus,
) -> io::Result<u8>
    ensures status { IfOk result (λ number. number ≡ exit_number status) }
    ensures line { WritesSome (E.contents errors.old) (E.contents errors.new) (IsOk result) (IsOneLine (IsOpenErrorLine name.now)) }
{
    write_open_error(errors, alloc, name, error)?;
    Ok(status.number())
}

/// Writes the packets for which the report has a line, as a capture, to `output`. Then writes the counts of packets to standard error.
/// Returns the exit status. If the capture has a name, errors contain the name.
fn write_packets<R: Read + Drop, W: Write + Drop>(
    rt: &HostRuntime,
    parts: &Parts,
    name: Option<&str>,
    input: R,
    output: W,
) -> io::Result<u8> {
    let input = BufReader::with_capacity(rt.alloc(), BUFFER_LEN, input)?;
    let output = BufWriter::with_capacity(rt.alloc(), BUFFER_LEN, output)?;
    let mut bytes = new_buffer(rt.alloc(), MAX_PACKET_LEN)?;
    let buffer = bytes.as_mut_slice().as_mut_array().unwrap();
    let mut copier = Copier::new(input, output, buffer);
    write_selection(rt.alloc(), parts, name, &mut copier, &mut rt.stderr())
}

/// Writes the packets for which the report has a line to the output, and then writes the counts of packets to `errors`. Returns the exit
/// status. If the capture can't be read to its end, the error is written before the counts. If the capture has a name, errors contain the
/// name.
///
/// # Errors
///
/// The error of writing or flushing the output, or the error of writing to `errors`. It is also an error if no memory is left. All packets
/// are written before anything is written to `errors`.
fn write_selection<R: Read, W: Flushes, E: Write>(
    alloc: Global,
    parts: &Parts,
    name: Option<&str>,
    copier: &mut Copier<'_, R, W>,
    errors: &mut E,
) -> io::Result<u8>
    ensures writes { WritesSelection parts.now (option_map (λ text. shown_name text.now) name.entry) (R.remaining copier.old.input)
        (R.remaining copier.new.input)
        (W.contents copier.old.output) (W.contents copier.new.output) (E.contents errors.old) (E.contents errors.new) result }
    ensures flushed { IfOk result (λ status. W.is_flushed copier.new.output) }
{
    let mut counts = Counts::NONE;
    let ended = write_selected(copier, parts, &mut counts);
    // Packets that were written before an error are part of the output.
    let flushed = copier.output.flush_all();
    let written = Written {
        ended,
        flushed,
        counts,
    };
    finished(errors, alloc, name, written)
}

/// The result of writing the packets of a capture.
#[derive(Drop)]
struct Written {
    /// How far the capture was read, or why it was not read further.
    ended: Result<Reached, SelectionError>,
    /// The result of flushing the output after the last packet.
    flushed: io::Result<()>,
    /// The counts of the packets that were read, chosen and written.
    counts: Counts,
}

/// Writes the error of a capture if there is one, and then the counts of packets. Returns the exit status. The counts are left out if the
/// output could not be written or flushed. If the capture has a name, the error contains the name.
fn finished<E: Write>(
    errors: &mut E,
    alloc: Global,
    name: Option<&str>,
    written: Written,
) -> io::Result<u8>
    ensures status { IfOk result (IsStatusOf written.ended) }
    ensures flushed { IfOk result (λ status. IsOk written.flushed) }
    ensures failure { FailsFirst written.ended result }
    ensures lines { WritesSome (E.contents errors.old) (E.contents errors.new) (IsOk result)
        (AreSelectionLines (option_map (λ text. shown_name text.now) name.entry) written.ended written.counts) }
{
    let status = written_status(errors, alloc, name, written.ended)?;
    written.flushed?;
    write_counts(errors, alloc, &written.counts)?;
    Ok(status.number())
}

/// Writes the error of a capture if there is one, and returns the exit status. If the capture has a name, the error contains the name.
fn written_status<E: Write>(
    errors: &mut E,
    alloc: Global,
    name: Option<&str>,
    ended: Result<Reached, SelectionError>,
) -> io::Result<ExitStatus>
    ensures status { IfOk result (λ status. written_status ended ≡ Ok status) }
    ensures failure { FailsFirst ended result }
    ensures lines { WritesSome (E.contents errors.old) (E.contents errors.new) (IsOk result)
        (AreErrorLines (option_map (λ text. shown_name text.now) name.entry) ended) }
{
    match ended {
        Ok(_) => Ok(ExitStatus::Success),
        Err(SelectionError::Capture(error)) => {
            write_error(errors, alloc, name, &error)?;
            Ok(error.status())
        }
        Err(SelectionError::Write(error)) => Err(error),
    }
}

/// Writes how many packets were read, and how many were written.
fn write_counts<E: Write>(errors: &mut E, alloc: Global, counts: &Counts) -> io::Result<()>
    ensures { WritesSome (E.contents errors.old) (E.contents errors.new) (IsOk result) (IsOneLine (λ line. line ≡ counts_line counts.now)) }
{
    let line = counts_line(alloc, counts)?;
    write_whole(errors, line.as_bytes())
}

/// The line that states how many packets were read and how many were written.
fn counts_line(alloc: Global, counts: &Counts) -> Result<String, AllocError>
    ensures { IfOk result (λ line. string_bytes line ≡ counts_line counts.now) }
{
    let Counts { read, written, .. } = *counts;
    format!(in alloc; "capture_report: {read} packets read, {written} written\n")
}

/// Writes the error that ends the report, and returns the exit status. It writes nothing if the reader of standard output or standard error
/// ended first.
fn write_failure(rt: &HostRuntime, error: &WriteError) -> u8
    ensures { result ≡ write_failure_number error.now }
{
    if let WriteError::Write(error) = error {
        return failure(rt, error);
    }
    let _ = writeln!(rt.stderr(), "capture_report: {error}");
    ExitStatus::Failed.number()
}

/// The source of captures: the files of a computer, and standard input.
#[derive(Drop)]
struct Files<'a, S> {
    rt: &'a HostRuntime,
    system: &'a S,
    lines_on_terminal: bool,
}

impl<'a, S: FileSystem> Open for Files<'a, S> {
    type Input = BufReader<Progress<Input<S::Standard, S::File>>>;

    ghost use Rattle.capture_report.specs.Reports.{IsMissed, IsOpened};

    ghost opens = { λ files name input. IsOpened (S.is_standard files.system.now) (S.opens files.system.now) name input };

    ghost misses = { λ files name. IsMissed (S.opens files.system.now) name };

    /// Opens a file, or standard input.
    fn open(&self, name: &str) -> io::Result<BufReader<Progress<Input<S::Standard, S::File>>>> {
        let input = open_input(self.system, name)?;
        let input = with_progress(self.rt, self.system, input, PROGRAM, self.lines_on_terminal);
        Ok(BufReader::with_capacity(self.rt.alloc(), BUFFER_LEN, input)?)
    }
}
