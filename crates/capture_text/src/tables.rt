//! The tables of the summary.

ghost use Rattle.std.specs.Prelude.{◌≡◌, ◌≤◌, ◌++◌, codes, length, map, IfOk, OnOk};
ghost use Rattle.std.specs.Io.KnownBytes.{Appends};
ghost use Rattle.std.specs.Net.Socket.{IsSocketAddr};
ghost use Rattle.capture_text.specs.SummaryText as specs;
ghost use Rattle.capture_text.specs.SummaryText.{conversations_table, counts_table, packets_table, tables_text};

use crate::endpoints::write_endpoints;
use crate::totals::write_totals;
use arrayvec::ArrayString;
use capture_summary::{
    Busiest, ConversationCount, Count, Flow, Flows, Rates, Summary, TimeSpan, VerdictKind,
};
use capture_words::{write_absolute, write_elapsed};
use std::fmt::Write as _;
use std::io;
use std::io::{ErrorKind, Write};

/// The width of the column of names. Every name fits into it, except names of conversations.
pub(crate) const NAME_WIDTH: usize = 25;

/// The room for the name of a conversation, in bytes. A name contains a protocol and two addresses with ports. An IPv6 address with its
/// port has at most 58 bytes.
const MOST_CONVERSATION_NAME_LEN: usize = 128;

/// Writes the numbers of packets, bytes and conversations, and the times of the packets. Then it writes the tables of link types,
/// protocols, checksums, refusals, conversations and endpoints. The rows of protocols are in the order of `Summary::protocols_by_packets`.
/// The last two tables list the conversations and the endpoints in `busiest`.
///
/// A table has a name and columns of numbers, which are aligned to the right. Rows that count no packet are left out. A table without rows
/// is left out too.
///
/// # Errors
///
/// The error of the writer, if writing fails.
pub fn write_summary<W: Write>(
    output: &mut W,
    summary: &Summary,
    busiest: &Busiest,
) -> io::Result<()>
    ensures { OnOk result (Appends (W.contents output.old) (W.contents output.new)
        (tables_text busiest.now.conversations.items busiest.now.endpoints.items summary.now)) }
{
    let (packets, refused) = (summary.packets(), summary.verdict(VerdictKind::Refused));
    let (without_ports, without_room) = uncounted(summary.flows());
    write_totals(output, summary)?;
    write_table(output, "link type", &summary.links(), packets)?;
    write_protocols(output, &summary.protocols_by_packets(), packets)?;
    write_table(output, "checksum", &summary.verdicts(), packets)?;
    write_table(output, "refused", &summary.refusals(), refused)?;
    let (conversations, endpoints) = (
        busiest.conversations.as_slice(),
        busiest.endpoints.as_slice(),
    );
    write_conversations(output, conversations, without_ports, without_room)?;
    write_endpoints(output, endpoints, without_ports, without_room)
}

/// The counts of the packets that belong to no conversation: the packets without ports, and the packets of other flows.
fn uncounted(flows: &Flows) -> (Count, Count)
    ensures { result ≡ (flows.now.without_ports, flows.now.without_room) }
{
    (flows.without_ports(), flows.without_room())
}

/// Writes an empty line and a table. `packets` is the number of packets that the table counts. If it is 0, nothing is written.
fn write_table<W: Write>(
    output: &mut W,
    title: &str,
    rows: &[(&str, u64)],
    packets: u64,
) -> io::Result<()>
    ensures { OnOk result (Appends (W.contents output.old) (W.contents output.new)
        (packets_table packets title.now (map (λ row. (row.0.now, row.1)) rows.now))) }
{
    if packets == 0 {
        return Ok(());
    }
    writeln!(output, "\n{title:<NAME_WIDTH$} {:>11}", "packets")?;
    for row in rows {
        write_row(output, row.0, row.1)?;
    }
    Ok(())
}

/// Writes a row of a table. If `packets` is 0, nothing is written.
fn write_row<W: Write>(output: &mut W, name: &str, packets: u64) -> io::Result<()>
    ensures { OnOk result (Appends (W.contents output.old) (W.contents output.new) (specs.packets_row (name.now, packets))) }
{
    if packets == 0 {
        return Ok(());
    }
    writeln!(output, "{name:<NAME_WIDTH$} {packets:>11}")
}

/// Writes an empty line and the table of protocols, with the packets and bytes of each protocol. If `packets` is 0, nothing is written.
fn write_protocols<W: Write>(output: &mut W, rows: &[(&str, Count)], packets: u64) -> io::Result<()>
    ensures { OnOk result (Appends (W.contents output.old) (W.contents output.new)
        (counts_table packets (codes "protocol") (map (λ row. (row.0.now, row.1)) rows.now))) }
{
    if packets == 0 {
        return Ok(());
    }
    let title = "protocol";
    writeln!(
        output,
        "\n{title:<NAME_WIDTH$} {:>11} {:>17}",
        "packets", "bytes"
    )?;
    for row in rows {
        write_count(output, row.0, row.1)?;
    }
    Ok(())
}

/// Writes a row of the table of protocols. If the row counts no packets, nothing is written.
fn write_count<W: Write>(output: &mut W, name: &str, count: Count) -> io::Result<()>
    ensures { OnOk result (Appends (W.contents output.old) (W.contents output.new) (specs.counts_row (name.now, count))) }
{
    let Count { packets, bytes } = count;
    if packets == 0 {
        return Ok(());
    }
    writeln!(output, "{name:<NAME_WIDTH$} {packets:>11} {bytes:>17}")
}

/// Writes an empty line and the table of the busiest conversations. Its last rows count the packets without ports, and the packets of
/// conversations for which the summary had no room. If the table has no rows, nothing is written.
///
/// # Errors
///
/// The error of the writer, if writing fails.
pub fn write_conversations<W: Write>(
    output: &mut W,
    busiest: &[ConversationCount],
    without_ports: Count,
    without_room: Count,
) -> io::Result<()>
    ensures { OnOk result (Appends (W.contents output.old) (W.contents output.new)
        (conversations_table busiest.now without_ports without_room)) }
{
    if is_without_rows(busiest, without_ports, without_room) {
        return Ok(());
    }
    let width = conversation_width(busiest)?;
    write_conversations_head(output, "busiest conversations", width)?;
    for conversation in busiest {
        write_conversation(output, conversation, width)?;
    }
    write_counted(output, "packets without ports", width, without_ports)?;
    write_counted(output, "packets of other flows", width, without_room)
}

/// Whether the table of conversations has no rows: there are no conversations, no packets without ports, and no packets of other flows.
fn is_without_rows(busiest: &[ConversationCount], without_ports: Count, without_room: Count) -> bool
    ensures { result ≡ specs.is_without_rows busiest.now without_ports without_room }
{
    busiest.is_empty() && without_ports.packets == 0 && without_room.packets == 0
}

/// The width of the column of names in the table of conversations: the width of the longest name, and at least the width in the other
/// tables.
fn conversation_width(conversations: &[ConversationCount]) -> io::Result<usize>
    ensures { IfOk result (λ width. width ≡ specs.conversation_width conversations.now) }
{
    let mut width = NAME_WIDTH;
    for conversation in conversations {
        width = width.max(conversation_name(&conversation.flow)?.as_str().len());
    }
    Ok(width)
}

/// Returns the name of a conversation, given one of its directions, for example `UDP 192.0.2.1:49152 <> 192.0.2.2:53`.
fn conversation_name(flow: &Flow) -> io::Result<ArrayString<MOST_CONVERSATION_NAME_LEN>>
    ensures name { IfOk result (λ name. name.bytes ≡ specs.conversation_name flow.now) }
    ensures fits { IsSocketAddr flow.now.source → IsSocketAddr flow.now.destination →
        length (specs.conversation_name flow.now) ≤ MOST_CONVERSATION_NAME_LEN }
{
    let Flow {
        protocol,
        source,
        destination,
    } = flow;
    let protocol = protocol.name();
    let mut name = ArrayString::new();
    match write!(name, "{protocol} {source} <> {destination}") {
        Ok(()) => Ok(name),
        Err(_) => Err(io::Error::from(ErrorKind::WriteZero)),
    }
}

/// Writes an empty line and the head of the table of conversations.
fn write_conversations_head<W: Write>(output: &mut W, title: &str, width: usize) -> io::Result<()>
    ensures { OnOk result (Appends (W.contents output.old) (W.contents output.new)
        (codes "\n" ++ specs.conversations_head width title.now)) }
{
    writeln!(
        output,
        "\n{title:<width$}   packets         bytes   packets >       bytes >   packets <       bytes < first packet                duration         bits a second"
    )
}

/// Writes the row of a conversation: the count of both directions, the count of each direction, and the times of its packets.
fn write_conversation<W: Write>(
    output: &mut W,
    conversation: &ConversationCount,
    width: usize,
) -> io::Result<()>
    ensures { OnOk result (Appends (W.contents output.old) (W.contents output.new) (specs.conversation_row width conversation.now)) }
{
    write_counts(output, conversation, width)?;
    write_span(output, conversation.both(), conversation.span)?;
    writeln!(output)
}

/// Writes the name of a conversation, the count of both directions, and the count of each direction.
fn write_counts<W: Write>(
    output: &mut W,
    conversation: &ConversationCount,
    width: usize,
) -> io::Result<()>
    ensures { OnOk result (Appends (W.contents output.old) (W.contents output.new) (specs.conversation_counts width conversation.now)) }
{
    let name = conversation_name(&conversation.flow)?;
    let (name, both) = (name.as_str(), conversation.both());
    let (forward, reverse) = (conversation.forward, conversation.reverse);
    write!(
        output,
        "{name:<width$} {:>9} {:>13} {:>11} {:>13} {:>11} {:>13}",
        both.packets, both.bytes, forward.packets, forward.bytes, reverse.packets, reverse.bytes
    )
}

/// Writes the time of the earliest packet of a count, the time from it to the latest packet, and the bits per second in this time. If no
/// time is known, it writes nothing. If the duration is 0, it writes no rate.
fn write_span<W: Write>(output: &mut W, count: Count, span: Option<TimeSpan>) -> io::Result<()>
    ensures { OnOk result (Appends (W.contents output.old) (W.contents output.new) (specs.times_cells count span)) }
{
    let Some(span) = span else {
        return Ok(());
    };
    write!(output, " ")?;
    write_absolute(output, span.earliest)?;
    write!(output, " ")?;
    write_elapsed(output, span.earliest, span.latest)?;
    write_rate(output, Rates::of(count.packets, count.bytes, span))
}

/// Writes the bits per second, unless the earliest and the latest time are equal.
fn write_rate<W: Write>(output: &mut W, rates: Option<Rates>) -> io::Result<()>
    ensures { OnOk result (Appends (W.contents output.old) (W.contents output.new) (specs.rate_cell rates)) }
{
    match rates {
        Some(Rates { bits, .. }) => write!(output, " {bits:>14}"),
        None => Ok(()),
    }
}

/// Writes a row for packets that are counted in no conversation: packets without ports, or packets of flows for which the summary had no
/// room. If their number is 0, nothing is written.
pub(crate) fn write_counted<W: Write>(
    output: &mut W,
    name: &str,
    width: usize,
    count: Count,
) -> io::Result<()>
    ensures { OnOk result (Appends (W.contents output.old) (W.contents output.new) (specs.counted_row width name.now count)) }
{
    let Count { packets, bytes } = count;
    if packets == 0 {
        return Ok(());
    }
    writeln!(output, "{name:<width$} {packets:>9} {bytes:>13}")
}
