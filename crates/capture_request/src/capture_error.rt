ghost use Rattle.std.specs.Prelude.{◌≡◌, IfOk, IsOk, string_bytes};
ghost use Rattle.std.specs.Option.{option_map};
ghost use Rattle.capture_request.specs.Compressions.{compression_of};
ghost use Rattle.capture_request.specs.Endings.{exit_status};
ghost use Rattle.capture_request.specs.ErrorLines.{AreEndLines, IsErrorText, IsLineOf, IsOneLine, IsOpenErrorLine, WritesSome, hint_of};
ghost use Rattle.capture_request.specs.Names.{shown_name};

use crate::compression::Compression;
use crate::filter::is_filter;
use crate::shown_name::without_mark;
use crate::{ExitStatus, Reached};
use capture_file::classic::CaptureHeaderError;
use capture_file::reader::{OpenError, PacketError, PlacedPacketError};
use capture_words::ShownText;
use std::alloc::{AllocError, Global};
use std::io;
use std::io::Write;
use streams::write_whole;
use thiserror::Error;

/// The reason why a capture can't be read further.
#[derive(Debug, Error, Drop)]
pub enum CaptureError {
    /// The beginning of the input is refused. The input is not a capture, or it is a capture that this library can't read. For example, its
    /// version is unknown.
    #[error(transparent)]
    Header(OpenError),
    /// The input ends within a record, or within a block of a pcapng file.
    #[error("At byte {offset} of the capture, in or before packet {number}: The record or block has at least {required_len} bytes, and {len} are left.")]
    RecordCutOff {
        /// The number of the packet in the record or block. The first packet of a capture has number 1. If the block contains no packet,
        /// this is the number of the next packet.
        number: u64,
        /// The start of the record or block, in bytes from the start of the capture.
        offset: u64,
        /// The length of the record or block in bytes, or the length of its header if the header is incomplete.
        required_len: usize,
        /// The number of bytes of the record or block that are present.
        len: usize,
    },
    /// A block of a pcapng file can't be read.
    #[error(transparent)]
    Refused(PlacedPacketError),
    /// Reading failed within the beginning of the capture.
    #[error("Reading the header of the capture failed: {0}.")]
    ReadHeader(io::Error),
    /// Reading failed within a record, or within a block of a pcapng file.
    #[error("Reading at byte {offset} of the capture, in or before packet {number}, failed: {error}.")]
    Read {
        /// The number of the packet in the record or block. The first packet of a capture has number 1. If the block contains no packet,
        /// this is the number of the next packet.
        number: u64,
        /// The start of the record or block, in bytes from the start of the capture.
        offset: u64,
        /// The error of the operating system.
        error: io::Error,
    },
    /// The sum of two numbers has reached the limit of 2^64 - 2: the number of packets read from this capture, and the number of packets
    /// counted in the captures before it.
    #[error("The limit of 2^64 - 2 packets is reached, and no further packet is read.")]
    TooManyPackets,
}

impl CaptureError {
    /// Returns the exit status of a report that ends with this error.
    pub fn status(&self) -> ExitStatus
        ensures { result ≡ exit_status self.now }
    {
        match self {
            CaptureError::Header(OpenError::Classic(error)) => match error {
                CaptureHeaderError::Pcapng
                | CaptureHeaderError::Modified
                | CaptureHeaderError::Version { .. } => { ExitStatus::Unfinished }
                CaptureHeaderError::CutOff { .. } | CaptureHeaderError::Magic { .. } => {
                    ExitStatus::NoCapture
                }
            },
            CaptureError::Header(OpenError::Pcapng(PacketError::Block(_))) => ExitStatus::NoCapture,
            CaptureError::Header(OpenError::Pcapng(_)) => ExitStatus::Unfinished,
            CaptureError::RecordCutOff { .. }
            | CaptureError::Refused(_)
            | CaptureError::TooManyPackets => ExitStatus::Unfinished,
            CaptureError::ReadHeader(_) | CaptureError::Read { .. } => ExitStatus::Failed,
        }
    }

    /// Returns the compression of the input, or `None` if the input does not begin like a compressed file.
    fn compression(&self) -> Option<Compression>
        ensures { result ≡ compression_of self.now }
    {
        match self {
            CaptureError::Header(OpenError::Classic(CaptureHeaderError::Magic { magic })) =>
                Compression::from_magic(*magic),
            _ => None,
        }
    }
}

/// Writes the line of the error that ended the report of a capture. If the capture was read to its end, or as far as was requested, the
/// call writes nothing.
pub fn write_end<E: Write>(
    errors: &mut E,
    alloc: Global,
    name: Option<&str>,
    ended: &Result<Reached, CaptureError>,
) -> io::Result<()>
    ensures { WritesSome (E.contents errors.old) (E.contents errors.new) (IsOk result)
        (AreEndLines (option_map (λ text. shown_name text.now) name.entry) ended.now) }
{
    match ended {
        Ok(_) => Ok(()),
        Err(error) => write_error(errors, alloc, name, error),
    }
}

/// Writes the line of an error: the name of the program, the name of the capture if it has a name, and the text of the error.
///
/// # Errors
///
/// The error of the first write that fails, and `OutOfMemory` if no memory is left. If a write fails, only the beginning of the line may
/// have been written.
pub fn write_error<E: Write>(
    errors: &mut E,
    alloc: Global,
    name: Option<&str>,
    error: &CaptureError,
) -> io::Result<()>
    ensures { WritesSome (E.contents errors.old) (E.contents errors.new) (IsOk result)
        (IsOneLine (IsLineOf (option_map (λ text. shown_name text.now) name.entry) (IsErrorText error.now))) }
{
    let line = error_line(alloc, name, error)?;
    write_whole(errors, line.as_bytes())
}

/// Returns the line of an error: the name of the program, the name of the capture if it has a name, and the text of the error.
fn error_line(alloc: Global, name: Option<&str>, error: &CaptureError) -> Result<String, AllocError>
    ensures { IfOk result (λ line. IsLineOf (option_map (λ text. shown_name text.now) name.entry) (IsErrorText error.now) (string_bytes line)) }
{
    let text = text_of(alloc, error)?;
    match name {
        Some(name) => {
            let shown = ShownText(without_mark(name));
            format!(in alloc; "capture_report: {shown}: {text}\n")
        }
        None => format!(in alloc; "capture_report: {text}\n"),
    }
}

/// Returns the text of an error. If the capture is compressed, the text contains the command that decompresses it.
fn text_of(alloc: Global, error: &CaptureError) -> Result<String, AllocError>
    ensures { IfOk result (λ text. IsErrorText error.now (string_bytes text)) }
{
    match error.compression() {
        Some(compression) => {
            let command = compression.command();
            format!(in alloc;
                "The capture is compressed, and is read by {command} -dc FILE | capture_report."
            )
        }
        None => format!(in alloc; "{error}"),
    }
}

/// The hint that follows the error if a capture can't be opened, and its name begins like a filter of tcpdump.
const FILTER_HINT: &str = "; filters are --host, --port and --protocol";

/// Writes the line for a capture that can't be opened: the name of the program, the name of the capture, and the text of the error. If the
/// name begins like a filter, for example `tcp port 80`, the line also lists the options that select packets.
///
/// # Errors
///
/// The error of the first write that fails, and `OutOfMemory` if no memory is left. If a write fails, only the beginning of the line may
/// have been written.
pub fn write_open_error<E: Write>(
    errors: &mut E,
    alloc: Global,
    name: &str,
    error: &io::Error,
) -> io::Result<()>
    ensures { WritesSome (E.contents errors.old) (E.contents errors.new) (IsOk result) (IsOneLine (IsOpenErrorLine name.now)) }
{
    let line = open_error_line(alloc, name, error)?;
    write_whole(errors, line.as_bytes())
}

/// Returns the line for a capture that can't be opened. If the name begins like a filter, the line also lists the options that select
/// packets.
fn open_error_line(alloc: Global, name: &str, error: &io::Error) -> Result<String, AllocError>
    ensures { IfOk result (λ line. IsOpenErrorLine name.now (string_bytes line)) }
{
    let text = format!(in alloc; "{error}")?;
    let shown = ShownText(without_mark(name));
    let hint = hint_of(name);
    format!(in alloc; "capture_report: {shown}: {text}{hint}\n")
}

/// Returns the hint for a name, which lists the options that select packets. The hint is empty unless the name begins like a filter.
fn hint_of(name: &str) -> &'static str
    ensures { result.now ≡ hint_of name.now }
{
    if is_filter(name) {
        return FILTER_HINT;
    }
    ""
}
