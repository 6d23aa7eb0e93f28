//! The facts of a capture, as members of the summary.

ghost use Rattle.std.specs.Prelude.{◌≡◌, OnOk, codes};
ghost use Rattle.capture_words.specs.FactsText.{resolution_text};
ghost use Rattle.capture_json.specs.JsonFacts.{facts_members, form_members, interface_data, interfaces_data, limits_members};
ghost use Rattle.capture_json.specs.Members.{array_of};
ghost use Rattle.capture_json.specs.Tokens.{push, put, tokens_in, with_items, with_members};
ghost use Rattle.serde_json.specs.Data.{string};

use crate::Line;
use crate::text::put_written;
use crate::texts::{put_interface_texts, put_texts};
use capture_file::pcapng::{InterfaceDescription, TimeResolution};
use capture_file::reader::CaptureReader;
use capture_file::{ByteOrder, InterfaceTexts};
use capture_words::{byte_order_word, time_resolution, write_resolution};
use std::alloc::AllocError;
use std::io;

/// Writes the facts that `capture_words::write_facts` writes, or nothing if there is no capture.
pub fn put_facts(
    line: &mut Line,
    room: &mut Vec<u8>,
    capture: &Option<CaptureReader>,
) -> io::Result<()>
    ensures { OnOk result (tokens_in line.new ≡ with_members (facts_members capture.now) (tokens_in line.old)) }
{
    match capture {
        Some(CaptureReader::Classic(reader)) => {
            let header = reader.header;
            put_form(line, "classic", header.byte_order)?;
            put_limits(
                line,
                room,
                header.snap_len,
                time_resolution(header.resolution),
            )
        }
        Some(CaptureReader::Pcapng(reader)) => {
            put_form(line, "pcapng", reader.section.byte_order)?;
            put_texts(line, room, &reader.texts)?;
            let texts = reader.texts.interfaces.as_slice();
            put_interfaces(line, room, reader.section.interfaces.as_slice(), texts)
        }
        None => Ok(()),
    }
}

/// Writes the type and the byte order of a file.
fn put_form(line: &mut Line, file_type: &str, order: ByteOrder) -> Result<(), AllocError>
    ensures { OnOk result (tokens_in line.new ≡ with_members (form_members file_type.now order) (tokens_in line.old)) }
{
    line.put_text("file_type", file_type)?;
    line.put_text("byte_order", byte_order_word(order))
}

/// Writes the snap length, which limits the captured bytes of a packet, and the unit of the times.
fn put_limits(
    line: &mut Line,
    room: &mut Vec<u8>,
    snap_len: u32,
    resolution: TimeResolution,
) -> io::Result<()>
    ensures { OnOk result (tokens_in line.new ≡ with_members (limits_members snap_len resolution) (tokens_in line.old)) }
{
    line.put_number("snap_length", u64::from(snap_len))?;
    put_resolution(line, room, resolution)
}

/// Writes the unit of the times.
fn put_resolution(line: &mut Line, room: &mut Vec<u8>, resolution: TimeResolution) -> io::Result<()>
    ensures { OnOk result (tokens_in line.new ≡ put (codes "time_resolution") (string (resolution_text resolution)) (tokens_in line.old)) }
{
    room.clear();
    write_resolution(room, resolution)?;
    put_written(line, "time_resolution", room.as_slice())
}

/// Writes the interfaces of a section, as an array of objects. `texts` contains the texts of the first interfaces, and later interfaces may
/// have no texts.
fn put_interfaces(
    line: &mut Line,
    room: &mut Vec<u8>,
    interfaces: &[InterfaceDescription],
    texts: &[InterfaceTexts],
) -> io::Result<()>
    ensures { OnOk result (tokens_in line.new
        ≡ put (codes "interfaces") (array_of (interfaces_data texts.now 0 interfaces.now)) (tokens_in line.old)) }
{
    line.begin_array("interfaces")?;
    push_interfaces(line, room, interfaces, texts)?;
    Ok(line.end_array()?)
}

/// Writes an object for each of these interfaces.
fn push_interfaces(
    line: &mut Line,
    room: &mut Vec<u8>,
    interfaces: &[InterfaceDescription],
    texts: &[InterfaceTexts],
) -> io::Result<()>
    ensures { OnOk result (tokens_in line.new ≡ with_items (interfaces_data texts.now 0 interfaces.now) (tokens_in line.old)) }
{
    for (number, interface) in interfaces.iter().enumerate() {
        push_interface(line, room, texts, number, interface)?;
    }
    Ok(())
}

/// Writes the interface with this number as an object. The object includes the texts of the interface if `texts` contains them.
fn push_interface(
    line: &mut Line,
    room: &mut Vec<u8>,
    texts: &[InterfaceTexts],
    number: usize,
    interface: &InterfaceDescription,
) -> io::Result<()>
    ensures { OnOk result (tokens_in line.new ≡ push (interface_data texts.now number interface.now) (tokens_in line.old)) }
{
    line.begin_item()?;
    put_limits(line, room, interface.snap_len, interface.time_resolution)?;
    put_interface_texts(line, room, texts, number)?;
    Ok(line.end_object()?)
}
