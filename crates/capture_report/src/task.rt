//! What the options request of the program.

ghost use Rattle.std.specs.Prelude.{◌≡◌};
ghost use Rattle.capture_report.specs.Tasks.{first_name, task_of};

use capture_arguments::Options;

/// What the options request of the program.
#[derive(Clone, Copy)]
pub enum Task<'a> {
    /// Nothing, since no capture is named and standard input is a terminal.
    Refuse,
    /// Write the packets to the file with this name instead of a report. `-` is standard output.
    Write(&'a str),
    /// Write the report, each line as soon as it is complete.
    ReportByLine,
    /// Write the report, in pieces.
    Report,
}

/// What these options request. `input_is_terminal` states whether standard input is a terminal, and `output_is_terminal` whether standard
/// output is one.
pub fn task_of<'a>(
    options: &Options<'a>,
    input_is_terminal: bool,
    output_is_terminal: bool,
) -> Task<'a>
    ensures { result ≡ task_of options.now input_is_terminal output_is_terminal }
{
    if options.files.is_empty() && input_is_terminal {
        return Task::Refuse;
    }
    match options.write {
        Some(name) => Task::Write(name),
        None if options.line_buffered || output_is_terminal => Task::ReportByLine,
        None => Task::Report,
    }
}

/// The name of the first capture, or `None` if no capture is named.
pub fn first_name<'a>(options: &Options<'a>) -> Option<&'a str>
    ensures { result ≡ first_name options.now.files.items }
{
    match options.files.as_slice() {
        [name, ..] => Some(*name),
        [] => None,
    }
}
