//! The table of endpoints.

ghost use Rattle.std.specs.Prelude.{◌≡◌, ◌∷◌, ◌++◌, [], OnOk, codes};
ghost use Rattle.std.specs.Io.KnownBytes.{Appends};
ghost use Rattle.json.specs.Print.{print};
ghost use Rattle.json.specs.Token.{end_array};
ghost use Rattle.serde_json.specs.Written.{compact_text};
ghost use Rattle.capture_json.specs.Tokens.{array_begun, later_row, push, rows_text, tokens_in, with_members};
ghost use Rattle.capture_json.specs.JsonSummary.{endpoint_data, endpoint_members};

use crate::Line;
use crate::flows::put_packets_and_bytes;
use crate::text::{put_written, write_bytes, write_part};
use capture_request::WriteError;
use capture_summary::EndpointCount;
use std::alloc::Global;
use std::io;
use std::io::Write;

/// Writes the end of the array of conversations, and the array of these endpoints without its end. A row is in memory only until it is
/// written.
pub fn write_endpoints<W: Write>(
    output: &mut W,
    alloc: Global,
    endpoints: &[EndpointCount],
) -> Result<(), WriteError>
    ensures { OnOk result (Appends (W.contents output.old) (W.contents output.new)
        (print (array_begun (codes "endpoints") (end_array ∷ [])) ++ rows_text endpoint_data endpoints.now)) }
{
    write_beginning(output, alloc)?;
    write_rows(output, alloc, endpoints)
}

/// Writes the end of the array of conversations, and the beginning of the array of endpoints.
fn write_beginning<W: Write>(output: &mut W, alloc: Global) -> Result<(), WriteError>
    ensures { OnOk result (Appends (W.contents output.old) (W.contents output.new)
        (print (array_begun (codes "endpoints") (end_array ∷ [])))) }
{
    let mut line = Line::new(alloc)?;
    line.end_array()?;
    line.begin_array("endpoints")?;
    write_part(output, line)
}

/// Writes a row for each of these endpoints, with commas between the rows.
fn write_rows<W: Write>(
    output: &mut W,
    alloc: Global,
    endpoints: &[EndpointCount],
) -> Result<(), WriteError>
    ensures { OnOk result (Appends (W.contents output.old) (W.contents output.new) (rows_text endpoint_data endpoints.now)) }
{
    let Some((first, others)) = endpoints.split_first() else {
        return Ok(());
    };
    write_row(output, alloc, first)?;
    for endpoint in others {
        write_later_row(output, alloc, endpoint)?;
    }
    Ok(())
}

/// Writes a comma and then the row of an endpoint.
fn write_later_row<W: Write>(
    output: &mut W,
    alloc: Global,
    endpoint: &EndpointCount,
) -> Result<(), WriteError>
    ensures { OnOk result (Appends (W.contents output.old) (W.contents output.new) (later_row endpoint_data endpoint.now)) }
{
    write_bytes(output, b",")?;
    write_row(output, alloc, endpoint)
}

/// Writes the row of an endpoint.
fn write_row<W: Write>(
    output: &mut W,
    alloc: Global,
    endpoint: &EndpointCount,
) -> Result<(), WriteError>
    ensures { OnOk result (Appends (W.contents output.old) (W.contents output.new) (compact_text (endpoint_data endpoint.now))) }
{
    let mut line = Line::new(alloc)?;
    let mut room = Vec::new(alloc);
    match push_row(&mut line, &mut room, endpoint) {
        Ok(()) => write_part(output, line),
        Err(_) => Err(WriteError::NoMemory),
    }
}

/// Writes the row of an endpoint as an item of the array.
fn push_row(line: &mut Line, room: &mut Vec<u8>, row: &EndpointCount) -> io::Result<()>
    ensures { OnOk result (tokens_in line.new ≡ push (endpoint_data row.now) (tokens_in line.old)) }
{
    line.begin_item()?;
    put_endpoint(line, room, row)?;
    Ok(line.end_object()?)
}

/// Writes an endpoint: its address, and the count of its packets.
fn put_endpoint(line: &mut Line, room: &mut Vec<u8>, row: &EndpointCount) -> io::Result<()>
    ensures { OnOk result (tokens_in line.new ≡ with_members (endpoint_members row.now) (tokens_in line.old)) }
{
    room.clear();
    write!(room, "{}", row.address)?;
    put_written(line, "address", room.as_slice())?;
    Ok(put_packets_and_bytes(line, row.count)?)
}
