//! The arguments of the program.

ghost use Rattle.std.specs.Prelude.{◌≡◌, ◌++◌, Bool, IfErr, IfOk, None, OnErr, Some, codes, false, if◌then◌else◌, map, option_map, string_bytes};
ghost use Rattle.clap.specs.Words.{IsPlainArg, app_of, kind_of, rule_of};
ghost use Rattle.clap.specs.declared.error.kind.ErrorKind.TheVariants as ErrorKind;
ghost use Rattle.capture_arguments.specs.Arguments.{HasFlag, HasNumberOr};
ghost use Rattle.capture_arguments.specs.Options.{IsOptionsOf, IsRefusedBy, names_of};
ghost use Rattle.capture_arguments.specs.Chosen.{choice_text};
ghost use Rattle.capture_arguments.specs.Conflicts.{conflict_in, conflict_text};
ghost use Rattle.capture_arguments.specs.Intervals.{interval_text};
ghost use Rattle.capture_arguments.specs.OutputFaults.{fault_of, is_capture_text};
ghost use Rattle.capture_arguments.specs.Words.{escaped_option_text};
ghost use Rattle.capture_arguments.specs.Unknown.{unknown_text};
ghost use Rattle.capture_arguments.specs.Rejections.{AreRejectedBy, IsExplainedUnless, IsShownFor, no_capture_text};
ghost use Rattle.capture_arguments.specs.CommandLine.{AreRequestedBy, IsCommandLine, IsDescribed, bare_command, choice_rules, count_rule, end_rules, file_rule, file_rules, flag_rule, form_rules, host_rules, line_buffered_rule, line_rules, numeric_rule, output_rules, read_rule, repeated, time_rules, top_rule, value_rule, verbose_rule, with_rules, write_rule};
ghost use Rattle.capture_summary.specs.Ranking.{default_top};
ghost use Rattle.capture_words.specs.TimeText.{times_by};
ghost use Rattle.capture_request.specs.declared.parts.Format.TheVariants as Format;

use crate::chosen::{ChoiceError, choice_of, choice_text, port_items};
use crate::conflicts::{conflict_in, conflict_text};
use crate::filters::has_filter;
use crate::interval::{interval_of, interval_text};
use crate::memory::Memory;
use crate::unknown::{unknown_option, unknown_text};
use crate::words::{escaped_option, escaped_option_text};
use capture_request::{Format, Parts, STANDARD_INPUT, Times};
use capture_summary::BUSIEST;
use clap::error::ErrorKind;
use clap::{Arg, ArgAction, ArgMatches, Command, Error, value_parser};
use std::alloc::{AllocError, Global};

/// The version of the program. It is the version of the library, `ETHERPARSE_VERSION` in the C header.
const VERSION: &str = "0.5.0";

/// The text of the help after the options.
const AFTER_HELP: &str = "\
--wrong and --check are about packets whose checksum is wrong, and packets that
are refused. A checksum that is not filled in is normal for packets that this
host sent, since its network card fills it in. --json writes the packets and
then the summary, each as an object in a line.

Exit status: 0 all was read, or as much as -c requests; 1 a capture ends early;
2 no capture, or a wrong argument; 3 opening, reading or writing failed;
4 a packet has a fault, with --check; 141 the reader of the output ended first

Examples:
  capture_report --host 10.0.0.0/8 --port 53 --wrong capture.pcap
  gzip -dc capture.pcap.gz | capture_report --summary";

/// The error if the file to write is the capture.
const OUTPUT_IS_CAPTURE: &str = "the FILE of '--write <FILE>' is the capture";

/// The error if several captures are named.
const SEVERAL_CAPTURES: &str = "'--write <FILE>' is used with more than one capture";

/// The error if several captures are named, and one of the names begins like a filter.
const SEVERAL_OR_FILTER: &str =
    "'--write <FILE>' is used with more than one capture; filters are --host, --port and --protocol";

/// The options that the arguments give.
#[derive(Drop)]
pub struct Options<'a> {
    /// The options of the report.
    pub parts: Parts,
    /// Whether each line is written out as soon as it is complete.
    pub line_buffered: bool,
    /// The name of the file to which packets are written instead of a report. `-` is standard output. `None` if a report is requested.
    pub write: Option<&'a str>,
    /// The names of the captures, in their order.
    pub files: Vec<&'a str>,
}

/// Reads the options from the arguments after the name of the program.
///
/// # Errors
///
/// If an argument is wrong, the text of the error names it, and the exit status is 2. It can be an unknown argument, an option that is not
/// UTF-8, two options that can't be used together, the first wrong host, port, protocol or time, a wrong width of intervals, or a file that
/// can't be written. If no memory is left, the exit status is 3. A request for help or for the version is also returned as an error. Its
/// text goes to standard output, and its exit status is 0.
pub fn requested_options<'a, M: Memory>(
    memory: &M,
    words: &'a [String],
) -> Result<Options<'a>, Error>
    ensures options { IfOk result (AreRequestedBy (map (λ word. string_bytes word) words.now)) }
    ensures writable { IfOk result (λ options. fault_of options ≡ None) }
    ensures rejected { IfErr result (AreRejectedBy (M.ran_out memory.now) (M.refuses memory.now) (M.explains memory.now)
        (map (λ word. string_bytes word) words.now)) }
{
    let options = given_options(memory, words)?;
    match output_fault(&options) {
        Some(fault) => Err(invalid_output(memory, fault)),
        None => Ok(options),
    }
}

/// Reads the options from the arguments, without checking whether the requested file can be written.
fn given_options<'a, M: Memory>(memory: &M, words: &'a [String]) -> Result<Options<'a>, Error>
    ensures options { IfOk result (AreRequestedBy (map (λ word. string_bytes word) words.now)) }
    ensures rejected { IfErr result (AreRejectedBy (M.ran_out memory.now) (M.refuses memory.now) (M.explains memory.now)
        (map (λ word. string_bytes word) words.now)) }
{
    let command = command(memory)?;
    let matches = match memory.matches(command, words) {
        Ok(matches) => matches,
        Err(error) => return Err(without_tips(memory, words, error)),
    };
    match escaped_option(words) {
        Some(word) => Err(invalid_option(memory, word)),
        None => match options_of(memory, &matches) {
            Ok(options) => Ok(options),
            Err(OptionsError::Conflict(first, second)) => Err(invalid_pair(memory, first, second)),
            Err(OptionsError::Choice(error)) => Err(invalid_choice(memory, error)),
            Err(OptionsError::Interval(text)) => Err(invalid_interval(memory, text)),
            Err(OptionsError::NoMemory(error)) => Err(error.into()),
        },
    }
}

/// The error that is shown for an error that clap found in these words. An error about an unknown option is replaced by an error without
/// the tips of clap, which name other options.
fn without_tips<M: Memory>(memory: &M, words: &[String], error: Error) -> Error
    ensures { IsShownFor (M.ran_out memory.now) (M.explains memory.now) (map (λ word. string_bytes word) words.now) error result }
{
    if error.kind() != ErrorKind::UnknownArgument {
        return error;
    }
    match unknown_option(words) {
        Some(word) => invalid_word(memory, word),
        None => error,
    }
}

/// Why options can't be read from matches of clap.
pub enum OptionsError<'a> {
    /// The options with these two names can't be used together.
    Conflict(&'static str, &'static str),
    /// A value of an option that chooses packets is wrong.
    Choice(ChoiceError<'a>),
    /// This value of the option `interval` is not a width of intervals.
    Interval(&'a str),
    /// No memory is left.
    NoMemory(AllocError),
}

/// Reads the options from these matches.
fn options_of<'a, M: Memory>(
    memory: &M,
    matches: &ArgMatches<'a>,
) -> Result<Options<'a>, OptionsError<'a>>
    ensures options { IfOk result (IsOptionsOf matches.now) }
    ensures refusal { IfErr result (IsRefusedBy (M.ran_out memory.now) matches.now) }
{
    if let Some((first, second)) = conflict_in(matches) {
        return Err(OptionsError::Conflict(first, second));
    }
    let ports = match port_items(memory, matches) {
        Ok(ports) => ports,
        Err(error) => return Err(OptionsError::NoMemory(error)),
    };
    let choice = match choice_of(matches, &ports) {
        Ok(choice) => choice,
        Err(error) => return Err(OptionsError::Choice(error)),
    };
    let interval = match interval_of(matches) {
        Ok(interval) => interval,
        Err(text) => return Err(OptionsError::Interval(text)),
    };
    let files = match files_of(memory, matches) {
        Ok(files) => files,
        Err(error) => return Err(OptionsError::NoMemory(error)),
    };
    let asked = Parts::from_flags(
        flag_of(matches, "summary"),
        flag_of(matches, "packets"),
        flag_of(matches, "wrong"),
        flag_of(matches, "check"),
    );
    Ok(Options {
        parts: Parts {
            choice,
            times: times_of(matches),
            verbose: flag_of(matches, "verbose"),
            format: format_of(matches),
            top: top_of(matches),
            timeline: flag_of(matches, "timeline") || interval.is_some(),
            interval,
            limit: count_of(matches),
            ..asked
        },
        line_buffered: flag_of(matches, "line-buffered"),
        write: matches.get_str("write"),
        files,
    })
}

/// The names of the captures, in their order.
fn files_of<'a, M: Memory>(memory: &M, matches: &ArgMatches<'a>) -> Result<Vec<&'a str>, AllocError>
    ensures names { IfOk result (λ files. map (λ name. name.now) files.items ≡ names_of matches.now) }
    ensures ran_out { OnErr result (M.ran_out memory.now) }
{
    let mut files = Vec::new(memory.alloc());
    if let Some(names) = matches.get_strs("read") {
        memory.extend(&mut files, names)?;
    }
    if let Some(names) = matches.get_strs("file") {
        memory.extend(&mut files, names)?;
    }
    Ok(files)
}

/// Whether this flag is set.
fn flag_of(matches: &ArgMatches<'_>, id: &str) -> bool
    ensures { (flag : Bool) → HasFlag matches.now id.now flag → result ≡ flag }
{
    matches.get_flag(id)
}

/// The form of the times in the lines of packets.
fn times_of(matches: &ArgMatches<'_>) -> Times
    ensures { (absolute : Bool) → HasFlag matches.now (codes "absolute") absolute → result ≡ times_by absolute }
{
    if flag_of(matches, "absolute") {
        Times::Absolute
    } else {
        Times::SinceFirst
    }
}

/// The requested format.
fn format_of(matches: &ArgMatches<'_>) -> Format
    ensures { (flag : Bool) → HasFlag matches.now (codes "json") flag → result ≡ (if flag then Format.Json else Format.Text) }
{
    if flag_of(matches, "json") {
        Format::Json
    } else {
        Format::Text
    }
}

/// The requested number of busiest conversations and endpoints.
fn top_of(matches: &ArgMatches<'_>) -> usize
    ensures { HasNumberOr matches.now (codes "top") 64 (λ given. given) default_top result }
{
    matches.get_one("top").unwrap_or(BUSIEST)
}

/// The number of lines after which the report ends, if a number is requested.
fn count_of(matches: &ArgMatches<'_>) -> Option<u64>
    ensures { HasNumberOr matches.now (codes "count") 64 Some None result }
{
    matches.get_one("count")
}

/// The error for an option that is not UTF-8. Its text contains the usage. If no memory is left, it is an error about memory.
fn invalid_option<M: Memory>(memory: &M, word: &str) -> Error
    ensures { IsExplainedUnless (M.ran_out memory.now) (M.explains memory.now) ErrorKind.UnknownArgument (escaped_option_text word.now) result }
{
    match escaped_option_text(memory, word) {
        Ok(message) => error_with_usage(memory, ErrorKind::UnknownArgument, message.as_str()),
        Err(error) => error.into(),
    }
}

/// The error for a word that looks like an option but is unknown. Its text contains the usage. If no memory is left, it is an error about
/// memory.
fn invalid_word<M: Memory>(memory: &M, word: &str) -> Error
    ensures { IsExplainedUnless (M.ran_out memory.now) (M.explains memory.now) ErrorKind.UnknownArgument (unknown_text word.now) result }
{
    match unknown_text(memory, word) {
        Ok(message) => error_with_usage(memory, ErrorKind::UnknownArgument, message.as_str()),
        Err(error) => error.into(),
    }
}

/// The error for two options that can't be used together. Its text contains the usage. If no memory is left, it is an error about memory.
fn invalid_pair<M: Memory>(memory: &M, first: &str, second: &str) -> Error
    ensures { IsExplainedUnless (M.ran_out memory.now) (M.explains memory.now) ErrorKind.ArgumentConflict (conflict_text first.now second.now) result }
{
    match conflict_text(memory, first, second) {
        Ok(message) => error_with_usage(memory, ErrorKind::ArgumentConflict, message.as_str()),
        Err(error) => error.into(),
    }
}

/// The error for a wrong choice of packets. Its text contains the usage. If no memory is left, it is an error about memory.
fn invalid_choice<M: Memory>(memory: &M, error: ChoiceError<'_>) -> Error
    ensures { IsExplainedUnless (M.ran_out memory.now) (M.explains memory.now) ErrorKind.ValueValidation (choice_text error.entry) result }
{
    match choice_text(memory, error) {
        Ok(message) => error_with_usage(memory, ErrorKind::ValueValidation, message.as_str()),
        Err(error) => error.into(),
    }
}

/// The reason why packets can't be written to the requested file: several captures are named, or the file is the capture. `None` if packets
/// can be written to the file, or if no file is requested.
fn output_fault(options: &Options<'_>) -> Option<&'static str>
    ensures { option_map (λ text. text.now) result ≡ fault_of options.now }
{
    let name = options.write?;
    match options.files.as_slice() {
        [] => None,
        [file] if *file != name || name == STANDARD_INPUT => None,
        [_] => Some(OUTPUT_IS_CAPTURE),
        files if has_filter(files) => Some(SEVERAL_OR_FILTER),
        _ => Some(SEVERAL_CAPTURES),
    }
}

/// The error for a wrong width of intervals. Its text contains the usage. If no memory is left, it is an error about memory.
fn invalid_interval<M: Memory>(memory: &M, text: &str) -> Error
    ensures { IsExplainedUnless (M.ran_out memory.now) (M.explains memory.now) ErrorKind.ValueValidation (interval_text text.now) result }
{
    match interval_text(memory, text) {
        Ok(text) => error_with_usage(memory, ErrorKind::ValueValidation, text.as_str()),
        Err(error) => error.into(),
    }
}

/// The error for a file that can't be written. Its text contains the usage. If no memory is left, it is an error about memory.
fn invalid_output<M: Memory>(memory: &M, fault: &str) -> Error
    ensures { IsExplainedUnless (M.ran_out memory.now) (M.explains memory.now) ErrorKind.ArgumentConflict fault.now result }
{
    error_with_usage(memory, ErrorKind::ArgumentConflict, fault)
}

/// The error if the file to write is the capture. Its text contains the usage. If no memory is left, it is an error about memory.
pub fn output_is_capture<M: Memory>(memory: &M) -> Error
    ensures { IsExplainedUnless (M.ran_out memory.now) (M.explains memory.now) ErrorKind.ArgumentConflict is_capture_text result }
{
    invalid_output(memory, OUTPUT_IS_CAPTURE)
}

/// The error if there is no capture to read. Its text contains the usage. If no memory is left, it is an error about memory.
pub fn no_capture<M: Memory>(memory: &M) -> Error
    ensures { IsExplainedUnless (M.ran_out memory.now) (M.explains memory.now) ErrorKind.MissingRequiredArgument no_capture_text result }
{
    error_with_usage(
        memory,
        ErrorKind::MissingRequiredArgument,
        "no FILE is named, and standard input is a terminal",
    )
}

/// An error of this kind with this message and the usage. If no memory is left, it is an error about memory.
fn error_with_usage<M: Memory>(memory: &M, kind: ErrorKind, message: &str) -> Error
    ensures { IsExplainedUnless (M.ran_out memory.now) (M.explains memory.now) kind message.now result }
{
    match command(memory) {
        Ok(mut command) => error_of(memory, &mut command, kind, message),
        Err(error) => error.into(),
    }
}

/// An error of this kind with this message and the usage of this command, or an error about memory.
fn error_of<M: Memory>(
    memory: &M,
    command: &mut Command<'_>,
    kind: ErrorKind,
    message: &str,
) -> Error
    ensures { IsCommandLine (app_of command.old)
        → IsExplainedUnless (M.ran_out memory.now) (M.explains memory.now) kind message.now result }
{
    match memory.usage_error(command, kind, message) {
        Ok(error) => error,
        Err(error) => error.into(),
    }
}

/// The command line that the program accepts.
fn command<'a, M: Memory>(memory: &M) -> Result<Command<'a>, AllocError>
    ensures line { IfOk result (λ command. IsCommandLine (app_of command)) }
    ensures ran_out { OnErr result (M.ran_out memory.now) }
{
    let command = with_lines(memory, bare(memory.alloc()))?;
    let command = with_form(memory, command)?;
    let command = with_hosts(memory, command)?;
    let command = with_choice(memory, command)?;
    let command = with_times(memory, command)?;
    with_files(memory, command)
}

/// The command line without options. An option that occurs again replaces its earlier use, unless it accepts several
/// values. So `-nn` means `-n`.
fn bare<'a>(alloc: Global) -> Command<'a>
    ensures app { app_of result ≡ bare_command }
    ensures described { IsDescribed result }
{
    Command::new(alloc, "capture_report")
        .version(VERSION)
        .about("Reads captures, and reports what each packet is and whether its checksum is right")
        .after_help(AFTER_HELP)
        .args_override_self(true)
}

/// The command line with the options for what is reported: the summary, the lines, and the details of lines.
fn with_lines<'a, M: Memory>(memory: &M, command: Command<'a>) -> Result<Command<'a>, AllocError>
    ensures rules { IfOk result (λ more. app_of more ≡ with_rules (app_of command.entry) line_rules) }
    ensures ran_out { OnErr result (M.ran_out memory.now) }
{
    let alloc = memory.alloc();
    let command = memory.with_arg(command, summary(alloc))?;
    let command = memory.with_arg(command, packets(alloc))?;
    let command = memory.with_arg(command, wrong(alloc))?;
    memory.with_arg(command, verbose(alloc))
}

/// The option that requests only the summary.
fn summary<'a>(alloc: Global) -> Arg<'a>
    ensures rule { rule_of result ≡ flag_rule (codes "summary") }
    ensures local { result.global ≡ false }
{
    flag(alloc, "summary", "Write only the summary")
}

/// The option that requests only the lines of packets.
fn packets<'a>(alloc: Global) -> Arg<'a>
    ensures rule { rule_of result ≡ flag_rule (codes "packets") }
    ensures local { result.global ≡ false }
{
    flag(alloc, "packets", "Write only the lines of packets")
}

/// The option that requests only the lines of packets with a fault.
fn wrong<'a>(alloc: Global) -> Arg<'a>
    ensures rule { rule_of result ≡ flag_rule (codes "wrong") }
    ensures local { result.global ≡ false }
{
    flag(
        alloc,
        "wrong",
        "Write a line only if the checksum is wrong or the packet is refused",
    )
}

/// The option that requests more fields in each line.
fn verbose<'a>(alloc: Global) -> Arg<'a>
    ensures rule { rule_of result ≡ verbose_rule }
    ensures local { result.global ≡ false }
{
    flag(
        alloc,
        "verbose",
        "Also write the time to live or the hop limit and the comments of each packet, which JSON always has",
    )
    .short('v')
}

/// The command line with the options for the form of the report and for its exit status.
fn with_form<'a, M: Memory>(memory: &M, command: Command<'a>) -> Result<Command<'a>, AllocError>
    ensures rules { IfOk result (λ more. app_of more ≡ with_rules (app_of command.entry) form_rules) }
    ensures ran_out { OnErr result (M.ran_out memory.now) }
{
    let alloc = memory.alloc();
    let command = memory.with_arg(command, absolute(alloc))?;
    let command = memory.with_arg(command, check(alloc))?;
    let command = memory.with_arg(command, json(alloc))?;
    let command = memory.with_arg(command, top(alloc))?;
    let command = memory.with_arg(command, timeline(alloc))?;
    let command = memory.with_arg(command, interval(alloc))?;
    memory.with_arg(command, tunnels(alloc))
}

/// The option that requests the date and time of packets.
fn absolute<'a>(alloc: Global) -> Arg<'a>
    ensures rule { rule_of result ≡ flag_rule (codes "absolute") }
    ensures local { result.global ≡ false }
{
    flag(
        alloc,
        "absolute",
        "Write the date and time of each packet, in UTC, instead of the time since the first packet",
    )
}

/// The option that requests exit status 4 if a packet has a fault.
fn check<'a>(alloc: Global) -> Arg<'a>
    ensures rule { rule_of result ≡ flag_rule (codes "check") }
    ensures local { result.global ≡ false }
{
    flag(
        alloc,
        "check",
        "End with status 4 if a checksum is wrong or a packet is refused",
    )
}

/// The option that requests JSON.
fn json<'a>(alloc: Global) -> Arg<'a>
    ensures rule { rule_of result ≡ flag_rule (codes "json") }
    ensures local { result.global ≡ false }
{
    flag(
        alloc,
        "json",
        "Write JSON: an object in a line for each packet, and an object for the summary",
    )
}

/// The option that states how many conversations the summary lists.
fn top<'a>(alloc: Global) -> Arg<'a>
    ensures rule { rule_of result ≡ top_rule }
    ensures local { result.global ≡ false }
{
    valued(
        alloc,
        "top",
        "N",
        "Name the N busiest conversations and endpoints in the summary instead of 10",
    )
    .value_parser(value_parser!(usize))
}

/// The option that requests the table of the timeline in the summary.
fn timeline<'a>(alloc: Global) -> Arg<'a>
    ensures rule { rule_of result ≡ flag_rule (codes "timeline") }
    ensures local { result.global ≡ false }
{
    flag(
        alloc,
        "timeline",
        "Also write a table of the packets by time in the summary, which JSON always has",
    )
}

/// The option that fixes the width of the intervals of the timeline.
fn interval<'a>(alloc: Global) -> Arg<'a>
    ensures rule { rule_of result ≡ value_rule (codes "interval") }
    ensures local { result.global ≡ false }
{
    valued(
        alloc,
        "interval",
        "SECONDS",
        "Count packets in intervals of this width, such as 0.5, and write --timeline with a row for each interval",
    )
}

/// The option that requests the packets in tunnels of UDP.
fn tunnels<'a>(alloc: Global) -> Arg<'a>
    ensures rule { rule_of result ≡ flag_rule (codes "tunnels") }
    ensures local { result.global ≡ false }
{
    flag(
        alloc,
        "tunnels",
        "Report the packet inside VXLAN (UDP port 4789) and Geneve (UDP port 6081)",
    )
}

/// The command line with the options that choose packets by hosts.
fn with_hosts<'a, M: Memory>(memory: &M, command: Command<'a>) -> Result<Command<'a>, AllocError>
    ensures rules { IfOk result (λ more. app_of more ≡ with_rules (app_of command.entry) host_rules) }
    ensures ran_out { OnErr result (M.ran_out memory.now) }
{
    let alloc = memory.alloc();
    let command = memory.with_arg(command, host(alloc))?;
    let command = memory.with_arg(command, source(alloc))?;
    let command = memory.with_arg(command, destination(alloc))?;
    memory.with_arg(command, other_host(alloc))
}

/// The option that chooses packets by a host.
fn host<'a>(alloc: Global) -> Arg<'a>
    ensures rule { rule_of result ≡ repeated (value_rule (codes "host")) }
    ensures local { result.global ≡ false }
{
    several(
        alloc,
        "host",
        "ADDRESS",
        "Report only packets from or to this address, or a network such as 10.0.0.0/8; repeat it for several addresses",
    )
}

/// The option that chooses packets by a source address.
fn source<'a>(alloc: Global) -> Arg<'a>
    ensures rule { rule_of result ≡ repeated (value_rule (codes "source")) }
    ensures local { result.global ≡ false }
{
    several(
        alloc,
        "source",
        "ADDRESS",
        "Report only packets from this address or network",
    )
}

/// The option that chooses packets by a destination address.
fn destination<'a>(alloc: Global) -> Arg<'a>
    ensures rule { rule_of result ≡ repeated (value_rule (codes "destination")) }
    ensures local { result.global ≡ false }
{
    several(
        alloc,
        "destination",
        "ADDRESS",
        "Report only packets to this address or network",
    )
}

/// The option that leaves out the packets of a host.
fn other_host<'a>(alloc: Global) -> Arg<'a>
    ensures rule { rule_of result ≡ repeated (value_rule (codes "not-host")) }
    ensures local { result.global ≡ false }
{
    several(
        alloc,
        "not-host",
        "ADDRESS",
        "Leave out the packets that --host with this value reports",
    )
}

/// The command line with the options that choose packets by ports and protocols.
fn with_choice<'a, M: Memory>(memory: &M, command: Command<'a>) -> Result<Command<'a>, AllocError>
    ensures rules { IfOk result (λ more. app_of more ≡ with_rules (app_of command.entry) choice_rules) }
    ensures ran_out { OnErr result (M.ran_out memory.now) }
{
    let alloc = memory.alloc();
    let command = memory.with_arg(command, port(alloc))?;
    let command = memory.with_arg(command, other_port(alloc))?;
    memory.with_arg(command, protocol(alloc))
}

/// The option that chooses packets by a port.
fn port<'a>(alloc: Global) -> Arg<'a>
    ensures rule { rule_of result ≡ repeated (value_rule (codes "port")) }
    ensures local { result.global ≡ false }
{
    several(
        alloc,
        "port",
        "N",
        "Report only packets from or to this port, one of a list such as 80,443, or one of a range such as 8000-8100",
    )
}

/// The option that leaves out the packets of a port.
fn other_port<'a>(alloc: Global) -> Arg<'a>
    ensures rule { rule_of result ≡ repeated (value_rule (codes "not-port")) }
    ensures local { result.global ≡ false }
{
    several(
        alloc,
        "not-port",
        "N",
        "Leave out the packets that --port with this value reports",
    )
}

/// The option that chooses packets by a protocol.
fn protocol<'a>(alloc: Global) -> Arg<'a>
    ensures rule { rule_of result ≡ repeated (value_rule (codes "protocol")) }
    ensures local { result.global ≡ false }
{
    several(
        alloc,
        "protocol",
        "NAME",
        "Report only packets of this protocol: icmp, or a name in the table `protocol` of the summary, with - for a space; repeat it for several",
    )
}

/// The command line with the options that choose packets by times, and with the option for the end of the report.
fn with_times<'a, M: Memory>(memory: &M, command: Command<'a>) -> Result<Command<'a>, AllocError>
    ensures rules { IfOk result (λ more. app_of more ≡ with_rules (app_of command.entry) (time_rules ++ end_rules)) }
    ensures ran_out { OnErr result (M.ran_out memory.now) }
{
    let alloc = memory.alloc();
    let command = memory.with_arg(command, from_time(alloc))?;
    let command = memory.with_arg(command, to_time(alloc))?;
    memory.with_arg(command, count(alloc))
}

/// The option that leaves out the packets before a time.
fn from_time<'a>(alloc: Global) -> Arg<'a>
    ensures rule { rule_of result ≡ value_rule (codes "from") }
    ensures local { result.global ≡ false }
{
    valued(
        alloc,
        "from",
        "TIME",
        "Report only packets at or after this date and time, such as 2023-11-14T22:13:20Z",
    )
}

/// The option that leaves out the packets from a time on.
fn to_time<'a>(alloc: Global) -> Arg<'a>
    ensures rule { rule_of result ≡ value_rule (codes "to") }
    ensures local { result.global ≡ false }
{
    valued(
        alloc,
        "to",
        "TIME",
        "Report only packets before this date and time",
    )
}

/// The option that ends the report after a number of lines.
fn count<'a>(alloc: Global) -> Arg<'a>
    ensures rule { rule_of result ≡ count_rule }
    ensures local { result.global ≡ false }
{
    valued(
        alloc,
        "count",
        "N",
        "End after N lines, also of --wrong; with --summary after N selected packets",
    )
    .short('c')
    .value_parser(value_parser!(u64).range(1..))
}

/// The command line with the names of the captures, and with the options for the output.
fn with_files<'a, M: Memory>(memory: &M, command: Command<'a>) -> Result<Command<'a>, AllocError>
    ensures rules { IfOk result (λ more. app_of more ≡ with_rules (app_of command.entry) (output_rules ++ file_rules)) }
    ensures ran_out { OnErr result (M.ran_out memory.now) }
{
    let alloc = memory.alloc();
    let command = memory.with_arg(command, write(alloc))?;
    let command = memory.with_arg(command, line_buffered(alloc))?;
    let command = memory.with_arg(command, numeric(alloc))?;
    let command = memory.with_arg(command, read(alloc))?;
    memory.with_arg(command, file(alloc))
}

/// The option that writes the packets to a file instead of a report.
fn write<'a>(alloc: Global) -> Arg<'a>
    ensures rule { rule_of result ≡ write_rule }
    ensures local { result.global ≡ false }
{
    valued(
        alloc,
        "write",
        "FILE",
        "Write the packets that have a line to a capture of the same format instead of the report; `-` is standard output",
    )
    .short('w')
}

/// The option that writes out each line as soon as it is complete.
fn line_buffered<'a>(alloc: Global) -> Arg<'a>
    ensures rule { rule_of result ≡ line_buffered_rule }
    ensures local { result.global ≡ false }
{
    flag(
        alloc,
        "line-buffered",
        "Write each line out as soon as it is complete, as on a terminal",
    )
    .short('l')
}

/// The option `-n`, which stops other programs from looking up names. It has no effect here, since this program looks up no names.
fn numeric<'a>(alloc: Global) -> Arg<'a>
    ensures rule { rule_of result ≡ numeric_rule }
    ensures local { result.global ≡ false }
{
    flag(
        alloc,
        "numeric",
        "Has no effect: names of hosts and ports are never looked up",
    )
    .short('n')
}

/// The option `-r`, which names a capture as in tcpdump.
fn read<'a>(alloc: Global) -> Arg<'a>
    ensures rule { rule_of result ≡ read_rule }
    ensures local { result.global ≡ false }
{
    several(alloc, "read", "FILE", "A capture, like FILE").short('r')
}

/// The argument that names a capture without an option.
fn file<'a>(alloc: Global) -> Arg<'a>
    ensures rule { rule_of result ≡ file_rule }
    ensures local { result.global ≡ false }
{
    Arg::new(alloc, "file")
        .value_name("FILE")
        .help("A capture; `-`, or none, is standard input")
        .action(ArgAction::Append)
}

/// An option with a value that may occur several times.
fn several<'a>(alloc: Global, name: &'a str, value: &'a str, help: &'a str) -> Arg<'a>
    ensures rule { rule_of result ≡ repeated (value_rule name.entry.now) }
    ensures plain { IsPlainArg result }
    ensures local { result.global ≡ false }
{
    valued(alloc, name, value, help).action(ArgAction::Append)
}

/// An option with a value.
fn valued<'a>(alloc: Global, name: &'a str, value: &'a str, help: &'a str) -> Arg<'a>
    ensures rule { rule_of result ≡ value_rule name.entry.now }
    ensures plain { IsPlainArg result }
    ensures local { result.global ≡ false }
{
    Arg::new(alloc, name)
        .long(name)
        .value_name(value)
        .help(help)
        .action(ArgAction::Set)
}

/// An option without a value.
fn flag<'a>(alloc: Global, name: &'a str, help: &'a str) -> Arg<'a>
    ensures rule { rule_of result ≡ flag_rule name.entry.now }
    ensures plain { IsPlainArg result }
    ensures local { result.global ≡ false }
{
    Arg::new(alloc, name)
        .long(name)
        .help(help)
        .action(ArgAction::SetTrue)
}
