//! The arguments of the program.

ghost use Rattle.std.specs.Prelude.{◌≡◌, ◌++◌, IfOk, OnOk, codes, false, map, string_bytes};
ghost use Rattle.clap.specs.Words.{IsPlainArg, app_of, kind_of, rule_of};
ghost use Rattle.clap.specs.declared.error.kind.ErrorKind.TheVariants as ErrorKind;
ghost use Rattle.translator.specs.Arguments.{AddsNetworks, AddsOne, AddsPorts, AreReplacements, IsTableOf, values_of};
ghost use Rattle.translator.specs.CommandLine.{AreRequestedBy, IsCommandLine, IsKind, bare_command, file_rule, file_rules, named_file_rule, network_rules, port_rules, read_rule, replacement_rule, with_rules, write_rule};
ghost use Rattle.translator.specs.Replacements.{is_empty_table};

use crate::replacement_error::ReplacementError;
use crate::replacement_text::{network_replacement, port_replacement};
use crate::replacements::{NetworkReplacement, Replacements};
use crate::table::Table;
use clap::error::ErrorKind;
use clap::{Arg, ArgAction, ArgMatches, Command, Error};
use std::alloc::{AllocError, Global};

/// The version of the program. It is the version of the library, `ETHERPARSE_VERSION` in the C header.
const VERSION: &str = "0.5.0";

/// The example and the exit statuses in the help.
const AFTER_HELP: &str = "\
A replacement of a network, as in 10.1.2.0/24=192.0.2.0/24 or 2001:db8::/32=fd00::/32, keeps the bits of an address after the new
prefix. The new prefix is as long as the old one, or longer. An option may occur more than once, and the first replacement that
applies counts. Those of --both come after those of --source and --destination. If two addresses can become one, standard error says so.

It is no anonymiser. Addresses in ARP, tunnels, payloads, options, name resolution blocks and link headers stay, and so does a packet
that can't be translated. Standard error counts these packets by reason.

Example:
  translator --both 10.1.2.0/24=192.0.2.0/24 -w translated.pcap capture.pcap

Exit status:
  0  The capture was read to its end. Standard error counts the packets.
  1  The capture can't be read to its end, or its version or form is not read.
  2  The input is no capture, an argument is wrong, or the output is a terminal.
  3  Opening, reading or writing failed, or no memory was left.
  141  The reader of standard output or standard error ended first.";

/// The error if the file to write is the capture.
const OUTPUT_IS_CAPTURE: &str = "the FILE of '--write <FILE>' is the capture";

/// The error if a capture is named by an option and another one without an option.
const SEVERAL_CAPTURES: &str = "'--read <FILE>' is used with another FILE";

/// The options that the arguments give.
#[derive(Drop)]
pub struct Options<'a> {
    /// The replacements.
    pub table: Table,
    /// The name of the capture. The program reads standard input if the name is `-`, or if there is no name.
    pub file: Option<&'a str>,
    /// The name of the file to which the translated capture is written. The program writes standard output if the name is `-`, or if there
    /// is no name.
    pub write: Option<&'a str>,
}

/// Reads the options from the arguments after the name of the program.
///
/// # Errors
///
/// The exit status is 2 if an argument is unknown or wrong, if no replacement is given, or if two captures are named. The text of the error names the argument. The
/// exit status is 3 if no memory is left. A request for help or for the version is also returned as an error. Its text goes to standard
/// output, and its exit status is 0.
pub fn requested_options<'a>(alloc: Global, words: &'a [String]) -> Result<Options<'a>, Error>
    ensures options { IfOk result (AreRequestedBy (map (λ word. string_bytes word) words.now)) }
    ensures some { IfOk result (λ options. is_empty_table options.table ≡ false) }
{
    let command = command(alloc)?;
    let matches = command.try_get_matches_from(words)?;
    let table = table_of(alloc, &matches)?;
    if table.is_empty() {
        return Err(missing(alloc, "no replacement is given"));
    }
    let read = matches.get_str("read");
    let file = matches.get_str("file");
    if read.is_some() && file.is_some() {
        return Err(conflict(alloc, SEVERAL_CAPTURES));
    }
    let write = matches.get_str("write");
    Ok(Options {
        table,
        file: read.or(file),
        write,
    })
}

/// The error if there is no capture to read. Its text contains the usage.
pub fn no_capture(alloc: Global) -> Error
    ensures { IsKind ErrorKind.MissingRequiredArgument result }
{
    missing(alloc, "no FILE is named, and standard input is a terminal")
}

/// The error if the capture would be written to a terminal. Its text contains the usage.
pub fn output_is_terminal(alloc: Global) -> Error
    ensures { IsKind ErrorKind.MissingRequiredArgument result }
{
    missing(
        alloc,
        "standard output is a terminal, and a capture is binary: redirect it, or name a file by '--write <FILE>'",
    )
}

/// The error if the file to write is the capture. Its text contains the usage.
pub fn output_is_capture(alloc: Global) -> Error
    ensures { IsKind ErrorKind.ArgumentConflict result }
{
    conflict(alloc, OUTPUT_IS_CAPTURE)
}

/// The error for arguments that can't be used together. Its text contains the usage. If no memory is left for the text, the result is an
/// error about memory.
fn conflict(alloc: Global, message: &str) -> Error
    ensures { IsKind ErrorKind.ArgumentConflict result }
{
    match error_with_usage(alloc, ErrorKind::ArgumentConflict, message) {
        Ok(error) => error,
        Err(error) => error.into(),
    }
}

/// The error for an argument that is missing. Its text contains the usage. If no memory is left for the text, the result is an error about
/// memory.
fn missing(alloc: Global, message: &str) -> Error
    ensures { IsKind ErrorKind.MissingRequiredArgument result }
{
    match error_with_usage(alloc, ErrorKind::MissingRequiredArgument, message) {
        Ok(error) => error,
        Err(error) => error.into(),
    }
}

/// An error with this message and with the usage of the program.
fn error_with_usage(alloc: Global, kind: ErrorKind, message: &str) -> Result<Error, AllocError>
    ensures { IfOk result (λ error. kind_of error ≡ kind) }
{
    let mut command = command(alloc)?;
    command.error(kind, message)
}

/// Reads the table of replacements from these matches.
fn table_of(alloc: Global, matches: &ArgMatches<'_>) -> Result<Table, Error>
    ensures { IfOk result (IsTableOf matches.now) }
{
    let source = replacements_of(alloc, matches, "source", "source-port")?;
    let destination = replacements_of(alloc, matches, "destination", "destination-port")?;
    Ok(Table {
        source,
        destination,
    })
}

/// Reads the replacements for one side of packets. `networks` and `ports` are the names of the options for this side. The networks of the
/// option for both sides come last.
fn replacements_of(
    alloc: Global,
    matches: &ArgMatches<'_>,
    networks: &str,
    ports: &str,
) -> Result<Replacements, Error>
    ensures { IfOk result (AreReplacements (values_of matches.now networks.now ++ values_of matches.now (codes "both"))
        (values_of matches.now ports.now)) }
{
    let mut replacements = Replacements::new(alloc);
    add_networks(alloc, matches, networks, &mut replacements)?;
    add_networks(alloc, matches, "both", &mut replacements)?;
    add_ports(alloc, matches, ports, &mut replacements)?;
    Ok(replacements)
}

/// Adds the replacements of networks that the option with this name gives.
fn add_networks(
    alloc: Global,
    matches: &ArgMatches<'_>,
    id: &str,
    replacements: &mut Replacements,
) -> Result<(), Error>
    ensures { OnOk result (AddsNetworks (values_of matches.now id.now) replacements.old replacements.new) }
{
    match matches.get_strs(id) {
        Some(values) => add_network_values(alloc, id, values, replacements),
        None => Ok(()),
    }
}

/// Adds the replacements of networks that these values give. `id` is the name of their option.
fn add_network_values(
    alloc: Global,
    id: &str,
    values: &[&str],
    replacements: &mut Replacements,
) -> Result<(), Error>
    ensures { OnOk result (AddsNetworks (map (λ value. value.now) values.now) replacements.old replacements.new) }
{
    for value in values {
        match network_replacement(value) {
            Ok((replacement, is_ipv6)) => add_network(replacements, replacement, is_ipv6)?,
            Err(error) => return Err(invalid(alloc, id, value, error)?),
        }
    }
    Ok(())
}

/// Adds a replacement of a network to those of its IP version.
fn add_network(
    replacements: &mut Replacements,
    replacement: NetworkReplacement,
    is_ipv6: bool,
) -> Result<(), AllocError>
    ensures { OnOk result (AddsOne (replacement, is_ipv6) replacements.old replacements.new) }
{
    if is_ipv6 {
        replacements.ipv6.push(replacement)?;
    } else {
        replacements.ipv4.push(replacement)?;
    }
    Ok(())
}

/// Adds the replacements of ports that the option with this name gives.
fn add_ports(
    alloc: Global,
    matches: &ArgMatches<'_>,
    id: &str,
    replacements: &mut Replacements,
) -> Result<(), Error>
    ensures { OnOk result (AddsPorts (values_of matches.now id.now) replacements.old replacements.new) }
{
    match matches.get_strs(id) {
        Some(values) => add_port_values(alloc, id, values, replacements),
        None => Ok(()),
    }
}

/// Adds the replacements of ports that these values give. `id` is the name of their option.
fn add_port_values(
    alloc: Global,
    id: &str,
    values: &[&str],
    replacements: &mut Replacements,
) -> Result<(), Error>
    ensures { OnOk result (AddsPorts (map (λ value. value.now) values.now) replacements.old replacements.new) }
{
    for value in values {
        match port_replacement(value) {
            Ok(replacement) => replacements.ports.push(replacement)?,
            Err(error) => return Err(invalid(alloc, id, value, error)?),
        }
    }
    Ok(())
}

/// The error for a value that is not a replacement. The text of the error contains the usage.
fn invalid(
    alloc: Global,
    id: &str,
    text: &str,
    error: ReplacementError,
) -> Result<Error, AllocError>
    ensures { IfOk result (λ error. kind_of error ≡ ErrorKind.ValueValidation) }
{
    let message = format!(in alloc; "invalid value '{text}' for '--{id} <OLD=NEW>': {error}")?;
    error_with_usage(alloc, ErrorKind::ValueValidation, message.as_str())
}

/// The command line that the program accepts.
fn command<'a>(alloc: Global) -> Result<Command<'a>, AllocError>
    ensures { IfOk result (λ command. IsCommandLine (app_of command)) }
{
    let command = with_networks(alloc, bare(alloc))?;
    let command = with_ports(alloc, command)?;
    with_files(alloc, command)
}

/// The command line without options.
fn bare<'a>(alloc: Global) -> Command<'a>
    ensures { app_of result ≡ bare_command }
{
    Command::new(alloc, "translator")
        .version(VERSION)
        .about("Rewrites addresses and ports in a capture, with right checksums")
        .after_help(AFTER_HELP)
}

/// The command line with the options that replace networks of addresses.
fn with_networks<'a>(alloc: Global, command: Command<'a>) -> Result<Command<'a>, AllocError>
    ensures { IfOk result (λ more. app_of more ≡ with_rules (app_of command.entry) network_rules) }
{
    let both = replacement(
        alloc,
        "both",
        "Replace a network of addresses, as source and as destination",
    );
    let command = command.arg(both)?;
    let source = replacement(alloc, "source", "Replace a network of source addresses");
    let command = command.arg(source)?;
    let destination = replacement(
        alloc,
        "destination",
        "Replace a network of destination addresses",
    );
    command.arg(destination)
}

/// The command line with the options that replace ports.
fn with_ports<'a>(alloc: Global, command: Command<'a>) -> Result<Command<'a>, AllocError>
    ensures { IfOk result (λ more. app_of more ≡ with_rules (app_of command.entry) port_rules) }
{
    let source = replacement(alloc, "source-port", "Replace a source port of UDP and TCP");
    let command = command.arg(source)?;
    let destination = replacement(
        alloc,
        "destination-port",
        "Replace a destination port of UDP and TCP",
    );
    command.arg(destination)
}

/// An option that gives replacements. It may occur more than once.
fn replacement<'a>(alloc: Global, name: &'a str, help: &'a str) -> Arg<'a>
    ensures rule { rule_of result ≡ replacement_rule name.entry.now }
    ensures local { result.global ≡ false }
{
    Arg::new(alloc, name)
        .long(name)
        .value_name("OLD=NEW")
        .help(help)
        .action(ArgAction::Append)
}

/// The command line with the names of the files.
fn with_files<'a>(alloc: Global, command: Command<'a>) -> Result<Command<'a>, AllocError>
    ensures { IfOk result (λ more. app_of more ≡ with_rules (app_of command.entry) file_rules) }
{
    let command = command.arg(read(alloc))?;
    let command = command.arg(write(alloc))?;
    command.arg(file(alloc))
}

/// The option that names the capture.
fn read<'a>(alloc: Global) -> Arg<'a>
    ensures rule { rule_of result ≡ read_rule }
    ensures local { result.global ≡ false }
{
    named_file(alloc, "read", "The capture, like FILE").short('r')
}

/// The option that names the file to write.
fn write<'a>(alloc: Global) -> Arg<'a>
    ensures rule { rule_of result ≡ write_rule }
    ensures local { result.global ≡ false }
{
    named_file(
        alloc,
        "write",
        "Write the translated capture to this file; `-`, or none, is standard output",
    )
    .short('w')
}

/// An option that names a file.
fn named_file<'a>(alloc: Global, name: &'a str, help: &'a str) -> Arg<'a>
    ensures rule { rule_of result ≡ named_file_rule name.entry.now }
    ensures plain { IsPlainArg result }
    ensures local { result.global ≡ false }
{
    Arg::new(alloc, name)
        .long(name)
        .value_name("FILE")
        .help(help)
        .action(ArgAction::Set)
}

/// The argument that is the name of the capture.
fn file<'a>(alloc: Global) -> Arg<'a>
    ensures rule { rule_of result ≡ file_rule }
    ensures local { result.global ≡ false }
{
    Arg::new(alloc, "file")
        .value_name("FILE")
        .help("The capture; `-`, or none, is standard input")
        .action(ArgAction::Set)
}
