//! The totals of the summary, before its tables.

ghost use Rattle.std.specs.Prelude.{OnOk};
ghost use Rattle.std.specs.Io.KnownBytes.{Appends};
ghost use Rattle.capture_text.specs.TotalsText as specs;

use capture_file::PacketTime;
use capture_summary::{Rates, Summary, TimeSpan};
use capture_words::{write_absolute, write_elapsed};
use std::io;
use std::io::Write;

/// Writes the numbers of packets, bytes and conversations, and the average number of bytes of a packet. If a time is known, it also writes
/// the times of the earliest and the latest packet, the duration, and the rates per second. If the duration is 0, it writes no rates.
pub(crate) fn write_totals<W: Write>(output: &mut W, summary: &Summary) -> io::Result<()>
    ensures { OnOk result (Appends (W.contents output.old) (W.contents output.new) (specs.totals_text summary.now)) }
{
    let (packets, bytes) = (summary.packets(), summary.bytes());
    let conversations = summary.flows().counts().len();
    write!(output, "packets {packets}, bytes {bytes}")?;
    write_average(output, summary.average_len())?;
    writeln!(output, "\nconversations {conversations}")?;
    write_times(output, summary, summary.span())
}

/// Writes the average number of bytes of a packet, if there are packets.
fn write_average<W: Write>(output: &mut W, average: Option<u64>) -> io::Result<()>
    ensures { OnOk result (Appends (W.contents output.old) (W.contents output.new) (specs.average_text average)) }
{
    match average {
        Some(bytes) => write!(output, ", bytes a packet {bytes}"),
        None => Ok(()),
    }
}

/// Writes the times of the earliest and the latest packet, and the duration. If no time is known, it writes nothing.
fn write_times<W: Write>(
    output: &mut W,
    summary: &Summary,
    span: Option<TimeSpan>,
) -> io::Result<()>
    ensures { OnOk result (Appends (W.contents output.old) (W.contents output.new) (specs.times_text summary.now span)) }
{
    let Some(span) = span else {
        return Ok(());
    };
    write_named_time(output, "first", span.earliest)?;
    write_named_time(output, "last", span.latest)?;
    write_duration_line(output, summary, span)
}

/// Writes the line of the earliest or latest packet. `name` is the word `first` or `last`. The date and time of the packet follow it.
fn write_named_time<W: Write>(output: &mut W, name: &str, time: PacketTime) -> io::Result<()>
    ensures { OnOk result (Appends (W.contents output.old) (W.contents output.new) (specs.named_time_text name.now time)) }
{
    write!(output, "{name} packet ")?;
    write_absolute(output, time)?;
    writeln!(output)
}

/// Writes the time between the earliest and the latest packet, and the rates in this time.
fn write_duration_line<W: Write>(
    output: &mut W,
    summary: &Summary,
    span: TimeSpan,
) -> io::Result<()>
    ensures { OnOk result (Appends (W.contents output.old) (W.contents output.new) (specs.duration_line summary.now span)) }
{
    let rates = Rates::of(summary.packets(), summary.bytes(), span);
    write!(output, "duration ")?;
    write_elapsed(output, span.earliest, span.latest)?;
    write_rates(output, rates)?;
    writeln!(output)
}

/// Writes the numbers of packets and bits per second, unless the earliest and the latest time are equal.
fn write_rates<W: Write>(output: &mut W, rates: Option<Rates>) -> io::Result<()>
    ensures { OnOk result (Appends (W.contents output.old) (W.contents output.new) (specs.rates_text rates)) }
{
    match rates {
        Some(Rates { packets, bits }) => write!(
            output,
            ", packets a second {packets}, bits a second {bits}"
        ),
        None => Ok(()),
    }
}
