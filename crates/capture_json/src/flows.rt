//! The table of conversations, and counts.

ghost use Rattle.std.specs.Prelude.{◌≡◌, OnOk};
ghost use Rattle.std.specs.Io.KnownBytes.{Appends};
ghost use Rattle.std.specs.Net.Socket.{socket_ip, socket_port};
ghost use Rattle.std.specs.Net.Text.{ip_text};
ghost use Rattle.capture_json.specs.JsonCounts.{count_members};
ghost use Rattle.capture_json.specs.Members.{object_of, whole_number};
ghost use Rattle.capture_json.specs.Tokens.{later_row, push, put, rows_text, tokens_in, with_members};
ghost use Rattle.serde_json.specs.Data.{string};
ghost use Rattle.serde_json.specs.Written.{compact_text};
ghost use Rattle.capture_json.specs.JsonSummary as specs;
ghost use Rattle.capture_json.specs.JsonSummary.{conversation_data, conversation_members, uncounted_members};

use crate::Line;
use crate::protocol::put_ip_protocol;
use crate::text::{put_written, write_bytes, write_part};
use crate::totals::put_times;
use capture_request::WriteError;
use capture_summary::{ConversationCount, Count, Flow};
use std::alloc::{AllocError, Global};
use std::io;
use std::io::Write;
use std::net::SocketAddr;

/// Writes a row for each of these conversations, with commas between the rows. A row is in memory only until it is written.
pub fn write_rows<W: Write>(
    output: &mut W,
    alloc: Global,
    conversations: &[ConversationCount],
) -> Result<(), WriteError>
    ensures { OnOk result (Appends (W.contents output.old) (W.contents output.new) (rows_text conversation_data conversations.now)) }
{
    let Some((first, others)) = conversations.split_first() else {
        return Ok(());
    };
    write_row(output, alloc, first)?;
    for conversation in others {
        write_later_row(output, alloc, conversation)?;
    }
    Ok(())
}

/// Writes a comma and then the row of a conversation.
fn write_later_row<W: Write>(
    output: &mut W,
    alloc: Global,
    conversation: &ConversationCount,
) -> Result<(), WriteError>
    ensures { OnOk result (Appends (W.contents output.old) (W.contents output.new) (later_row conversation_data conversation.now)) }
{
    write_bytes(output, b",")?;
    write_row(output, alloc, conversation)
}

/// Writes the row of a conversation.
fn write_row<W: Write>(
    output: &mut W,
    alloc: Global,
    conversation: &ConversationCount,
) -> Result<(), WriteError>
    ensures { OnOk result (Appends (W.contents output.old) (W.contents output.new) (compact_text (conversation_data conversation.now))) }
{
    let mut line = Line::new(alloc)?;
    let mut room = Vec::new(alloc);
    match push_row(&mut line, &mut room, conversation) {
        Ok(()) => write_part(output, line),
        Err(_) => Err(WriteError::NoMemory),
    }
}

/// Writes the row of a conversation as an item of the array.
fn push_row(line: &mut Line, room: &mut Vec<u8>, row: &ConversationCount) -> io::Result<()>
    ensures { OnOk result (tokens_in line.new ≡ push (conversation_data row.now) (tokens_in line.old)) }
{
    line.begin_item()?;
    put_conversation(line, room, row)?;
    Ok(line.end_object()?)
}

/// Writes a conversation: its flow in the direction that was seen first, the count of all its packets, the count of each direction, and the
/// times of its packets.
fn put_conversation(line: &mut Line, room: &mut Vec<u8>, row: &ConversationCount) -> io::Result<()>
    ensures { OnOk result (tokens_in line.new ≡ with_members (conversation_members row.now) (tokens_in line.old)) }
{
    put_flow(line, room, &row.flow)?;
    put_packets_and_bytes(line, row.both())?;
    put_count(line, "forward", row.forward)?;
    put_count(line, "reverse", row.reverse)?;
    put_times(line, room, row.both(), row.span)
}

/// Writes the protocol of a flow, its source and its destination.
fn put_flow(line: &mut Line, room: &mut Vec<u8>, flow: &Flow) -> io::Result<()>
    ensures { OnOk result (tokens_in line.new ≡ with_members (specs.flow_members flow.now) (tokens_in line.old)) }
{
    put_ip_protocol(line, flow.protocol.number(), Some(flow.protocol.proto()))?;
    put_socket(line, room, "source", "source_port", &flow.source)?;
    put_socket(
        line,
        room,
        "destination",
        "destination_port",
        &flow.destination,
    )
}

/// Writes an address and a port under these names.
fn put_socket(
    line: &mut Line,
    room: &mut Vec<u8>,
    address_name: &str,
    port_name: &str,
    socket: &SocketAddr,
) -> io::Result<()>
    ensures { OnOk result (tokens_in line.new ≡ put port_name.now (whole_number (socket_port socket.now))
        (put address_name.now (string (ip_text (socket_ip socket.now))) (tokens_in line.old))) }
{
    room.clear();
    write!(room, "{}", socket.ip())?;
    put_written(line, address_name, room.as_slice())?;
    Ok(line.put_number(port_name, u64::from(socket.port()))?)
}

/// Writes the counts of packets that belong to no row: packets without ports, and packets of conversations for which the table had no room.
pub fn put_uncounted(
    line: &mut Line,
    without_ports: Count,
    without_room: Count,
) -> Result<(), AllocError>
    ensures { OnOk result (tokens_in line.new ≡ with_members (uncounted_members without_ports without_room) (tokens_in line.old)) }
{
    put_count(line, "packets_without_ports", without_ports)?;
    put_count(line, "packets_of_other_flows", without_room)
}

/// Writes a count under a name.
pub fn put_count(line: &mut Line, name: &str, count: Count) -> Result<(), AllocError>
    ensures { OnOk result (tokens_in line.new ≡ put name.now (object_of (count_members count)) (tokens_in line.old)) }
{
    line.begin_object(name)?;
    put_packets_and_bytes(line, count)?;
    line.end_object()
}

/// Writes the packets and bytes of a count.
pub(crate) fn put_packets_and_bytes(line: &mut Line, count: Count) -> Result<(), AllocError>
    ensures { OnOk result (tokens_in line.new ≡ with_members (count_members count) (tokens_in line.old)) }
{
    line.put_number("packets", count.packets)?;
    line.put_number("bytes", count.bytes)
}
