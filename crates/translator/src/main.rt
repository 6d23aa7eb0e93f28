//! Rewrites addresses and ports in a capture, as a table of replacements requires, and updates the checksums of the changed packets.
//!
//! The capture is read from a file or from standard input, and is written to a file or to standard output. The classic format of libpcap and
//! pcapng are read. The output has the format of the input, and every byte outside of the translated packets stays. A capture is read as a stream, one
//! record or block at a time. The memory needed does not grow with the capture.
//!
//! ```text
//! $ translator --both 10.1.2.0/24=192.0.2.0/24 --source-port 80=8080 -w translated.pcap capture.pcap
//! ```
#![tactic(auto)]

ghost use Rattle.std.specs.Prelude.{◌≡◌, IfErr, IfOk, IsOk, string_bytes};
ghost use Rattle.std.specs.IoError.{error_kind};
ghost use Rattle.std.specs.Option.{option_map};
ghost use Rattle.clap.specs.Words.{kind_of};
ghost use Rattle.program_files.specs.Inputs.{IsRequestedBy, IsUnopened};
ghost use Rattle.translator.specs.ErrorTexts.{IsOpenErrorLine};
ghost use Rattle.translator.specs.Inputs.{input_name};
ghost use Rattle.translator.specs.Outputs.{WritesText, WritesTranslation, answer_number, failure_number};

mod arguments;
mod capture;
mod capture_error;
mod compression;
mod counts;
mod done;
mod ending;
mod ipv4_packet;
mod ipv6_packet;
mod merging;
mod network;
mod packet;
mod reason;
mod replacement_error;
mod replacement_text;
mod replacements;
mod table;
mod translation;

use arguments::Options;
use capture::translate_capture;
use capture_copy::Copier;
use capture_packet::MAX_PACKET_LEN;
use counts::Counts;
use ending::{Translated, finished};
use program_files::{
    Computer, FileSystem, Flushes, Input, NewFile, STANDARD_STREAM, open_input, with_progress,
};
use std::alloc::{AllocError, Global};
use std::io::{BufReader, BufWriter, ErrorKind, IsTerminal, Read, Write};
use std::process::ExitCode;
use std::{env, io};
use streams::{new_buffer, write_whole};
use table::Table;

/// The name of the program in its progress line.
const PROGRAM: &str = "translator";

/// The size of the buffers of input and output, in bytes.
const STREAM_LEN: usize = 1 << 16;

/// The exit status if opening, reading or writing failed, or if no memory was left.
const FAILED: u8 = 3;

/// The exit status if the reader of standard output or standard error ended first. A shell reports this status for a program that SIGPIPE
/// ended.
const BROKEN_PIPE: u8 = 128 + 13;

fn main(rt: HostRuntime) -> ExitCode {
    match status(&rt) {
        Ok(status) => ExitCode::from(status),
        Err(error) => ExitCode::from(failure(&rt, &error)),
    }
}

/// Writes the error that ends the program, and returns the exit status. Nothing is written if the reader of standard output or standard
/// error ended first, as `head` does.
fn failure(rt: &HostRuntime, error: &io::Error) -> u8
    ensures { result ≡ failure_number (error_kind error.now) }
{
    if error.kind() == ErrorKind::BrokenPipe {
        return BROKEN_PIPE;
    }
    // If writing to standard error fails, the exit status still reports the failure.
    let _ = writeln!(rt.stderr(), "translator: {error}");
    FAILED
}

/// Writes the error of a failed write, and returns the exit status. Nothing is written if the reader of standard output or standard error
/// ended first.
fn write_failure(rt: &HostRuntime, error: io::Error) -> u8
    ensures { result ≡ failure_number (error_kind error) }
{
    if error.kind() == ErrorKind::BrokenPipe {
        return BROKEN_PIPE;
    }
    let _ = writeln!(rt.stderr(), "translator: Writing failed: {error}.");
    FAILED
}

/// Reads the arguments, translates the capture, and returns the exit status. A capture is not written to a terminal.
fn status(rt: &HostRuntime) -> io::Result<u8> {
    let words: Vec<String> = env::args(rt)?.collect(rt.alloc())?;
    let options = match arguments::requested_options(rt.alloc(), words.as_slice()) {
        Ok(options) => options,
        Err(error) => return answer(rt, error),
    };
    if options.file.is_none() && rt.stdin().is_terminal() {
        return answer(rt, arguments::no_capture(rt.alloc()));
    }
    if let Some(name) = options.write
        && name != STANDARD_STREAM
    {
        return translate_to(rt, &options, name);
    }
    if rt.stdout().is_terminal() {
        return answer(rt, arguments::output_is_terminal(rt.alloc()));
    }
    translate_to_standard_output(rt, &options)
}

/// Writes the text of an error in the arguments, or the help or version that they request. Returns the exit status.
fn answer(rt: &HostRuntime, error: clap::Error) -> io::Result<u8>
    ensures { IfOk result (λ status. status ≡ answer_number (kind_of error)) }
{
    error.print(rt)?;
    if error.kind() == clap::error::ErrorKind::OutOfMemory {
        return Ok(FAILED);
    }
    Ok(error.exit_code() as u8)
}

/// Translates the capture to standard output, and returns the exit status.
fn translate_to_standard_output(rt: &HostRuntime, options: &Options<'_>) -> io::Result<u8> {
    let system = Computer { rt };
    let input = match opened(&system, options.file) {
        Ok(input) => input,
        Err(error) => return unopened_input(rt, options, &error),
    };
    let input = with_progress(rt, &system, input, PROGRAM, false);
    match translate(rt, options, input, rt.stdout())? {
        Ok(status) => Ok(status),
        Err(error) => Ok(write_failure(rt, error)),
    }
}

/// Translates the capture to the file with this name, and returns the exit status. The file is created when its first byte is written. So
/// it is created only if the beginning of the capture was accepted. The file may not be the capture.
fn translate_to(rt: &HostRuntime, options: &Options<'_>, name: &str) -> io::Result<u8> {
    let system = Computer { rt };
    let input = match opened(&system, options.file) {
        Ok(input) => input,
        Err(error) => return unopened_input(rt, options, &error),
    };
    let Some(mut output) = NewFile::unless_input(&system, &input, name) else {
        return answer(rt, arguments::output_is_capture(rt.alloc()));
    };
    let input = with_progress(rt, &system, input, PROGRAM, false);
    match translate(rt, options, input, &mut output)? {
        Ok(status) => Ok(status),
        Err(error) if output.is_refused() => unopened(&mut rt.stderr(), rt.alloc(), name, &error),
        Err(error) => Ok(write_failure(rt, error)),
    }
}

/// Opens the capture with this name, or standard input if there is no name.
fn opened<S: FileSystem>(system: &S, name: Option<&str>) -> io::Result<Input<S::Standard, S::File>>
    ensures opened { IfOk result (IsRequestedBy (S.is_standard system.now) (S.opens system.now) (input_name name.entry)) }
    ensures refused { IfErr result (IsUnopened (S.opens system.now) (input_name name.entry)) }
{
    open_input(system, name.unwrap_or(STANDARD_STREAM))
}

/// Writes the error for a capture that can't be opened, and returns the exit status.
fn unopened_input(rt: &HostRuntime, options: &Options<'_>, error: &io::Error) -> io::Result<u8>
    ensures { IfOk result (λ status. status ≡ 3) }
{
    let name = options.file.unwrap_or(STANDARD_STREAM);
    unopened(&mut rt.stderr(), rt.alloc(), name, error)
}

/// Writes the error for a file that can't be opened or created, and returns the exit status.
fn unopened<E: Write>(
    errors: &mut E,
    alloc: Global,
    name: &str,
    error: &io::Error,
) -> io::Result<u8>
    ensures status { IfOk result (λ status. status ≡ 3) }
    ensures line { WritesText (E.contents errors.old) (E.contents errors.new) (IsOk result) (IsOpenErrorLine name.now) }
{
    let line = open_error_line(alloc, name, error)?;
    write_whole(errors, line.as_bytes())?;
    Ok(FAILED)
}

/// The line for a file that can't be opened or created: the name of the program, the name of the file, and the text of the error.
fn open_error_line(alloc: Global, name: &str, error: &io::Error) -> Result<String, AllocError>
    ensures { IfOk result (λ line. IsOpenErrorLine name.now (string_bytes line)) }
{
    let text = format!(in alloc; "{error}")?;
    format!(in alloc; "translator: {name}: {text}\n")
}

/// Translates a capture from the input to the output. Returns the exit status, or the error of `write_translation`.
///
/// # Errors
///
/// `OutOfMemory` if no memory is left for the buffers.
fn translate<R: Read + Drop, W: Write + Drop>(
    rt: &HostRuntime,
    options: &Options<'_>,
    input: R,
    output: W,
) -> io::Result<io::Result<u8>> {
    let input = BufReader::with_capacity(rt.alloc(), STREAM_LEN, input)?;
    let output = BufWriter::with_capacity(rt.alloc(), STREAM_LEN, output)?;
    let mut errors = rt.stderr();
    let mut bytes = new_buffer(rt.alloc(), MAX_PACKET_LEN)?;
    let buffer = bytes.as_mut_slice().as_mut_array().unwrap();
    let mut copier = Copier::new(input, output, buffer);
    let (table, name) = (&options.table, options.file);
    Ok(write_translation(rt.alloc(), table, name, &mut copier, &mut errors))
}

/// Translates a capture to the output, and then writes the counts of packets to `errors`. Returns the exit status. If the capture can't be
/// read to its end, the error is written before the counts. If the capture has a name, the error contains the name. If two addresses can
/// become one, a warning is written after the counts.
///
/// # Errors
///
/// The error of writing or flushing the output, or the error of writing to `errors`. It is also an error if no memory is left. The output
/// is written and flushed before `errors`.
fn write_translation<R: Read, W: Flushes, E: Write>(
    alloc: Global,
    table: &Table,
    name: Option<&str>,
    copier: &mut Copier<'_, R, W>,
    errors: &mut E,
) -> io::Result<u8>
    ensures writes { WritesTranslation table.now (option_map (λ text. text.now) name.entry) (R.remaining copier.old.input)
        (R.remaining copier.new.input) (W.contents copier.old.output) (W.contents copier.new.output)
        (E.contents errors.old) (E.contents errors.new) result }
    ensures flushed { IfOk result (λ status. W.is_flushed copier.new.output) }
{
    let mut counts = Counts::NONE;
    let ended = translate_capture(copier, table, &mut counts);
    // What was written before an error is part of the output.
    let flushed = copier.output.flush_all();
    let translated = Translated {
        ended,
        flushed,
        counts,
    };
    finished(errors, alloc, name, translated, table)
}
