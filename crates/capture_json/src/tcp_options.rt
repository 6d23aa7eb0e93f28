//! The options of a TCP header (RFC 9293, section 3.1).

ghost use Rattle.std.specs.Prelude.{◌≡◌, IfOk, OnOk, codes};
ghost use Rattle.std.specs.List.{flat_map};
ghost use Rattle.capture_json.specs.JsonOptions.{AreOptionFields, AreOptionMembers, IsOptionObject, block_data, blocks_data, data_fields, element_fields, fault_members, kind_object, other_block};
ghost use Rattle.capture_json.specs.Tokens.{PushesItem, PushesOptions, PutsOne, push, put, tokens_in, with_items, with_members};
ghost use Rattle.capture_words.specs.Numbers.{hex_bytes};
ghost use Rattle.tcp_part.specs.TcpFormat.{options_of};

use crate::Line;
use crate::text::put_written;
use capture_words::write_fault;
use std::alloc::AllocError;
use std::io;
use std::io::Write;
use tcp_part::{TcpOptionElement, TcpRawOption, TcpRawOptionError, TcpSlice, tcp_option};

/// Writes the options of a header as an array with an object for each option. If an option can't be read, it also writes the reason.
pub fn put_options(line: &mut Line, room: &mut Vec<u8>, segment: &TcpSlice) -> io::Result<()>
    ensures { OnOk result (PutsOne (AreOptionMembers (options_of segment.now)) (tokens_in line.old) (tokens_in line.new)) }
{
    line.begin_array("options")?;
    let fault = push_options(line, room, segment)?;
    line.end_array()?;
    put_fault(line, room, fault)
}

/// Writes each option as an object in an array, up to the end of the list or the first fault. Returns the fault, if there is a fault.
fn push_options(
    line: &mut Line,
    room: &mut Vec<u8>,
    segment: &TcpSlice,
) -> io::Result<Option<TcpRawOptionError>>
    ensures { IfOk result (λ fault. PushesOptions (options_of segment.now) fault (tokens_in line.old) (tokens_in line.new)) }
{
    let mut options = segment.raw_options_iterator();
    let mut rest = options.rest();
    while let Some(option) = options.next() {
        match option {
            Ok(option) => push_option(line, room, &option)?,
            Err(error) => return Ok(Some(error)),
        }
        rest = options.rest();
    }
    if rest.is_empty() {
        return Ok(None);
    }
    // Bytes are left after the last option that was read, so an option of kind 0 ends the list.
    push_kind(line, tcp_option::KIND_END)?;
    Ok(None)
}

/// Writes an option of this kind without fields as an item.
fn push_kind(line: &mut Line, kind: u8) -> Result<(), AllocError>
    ensures { OnOk result (tokens_in line.new ≡ push (kind_object kind) (tokens_in line.old)) }
{
    line.begin_item()?;
    line.put_number("kind", u64::from(kind))?;
    line.end_object()
}

/// Writes an option as an item: its kind, and its fields.
fn push_option(line: &mut Line, room: &mut Vec<u8>, option: &TcpRawOption) -> io::Result<()>
    ensures { OnOk result (PushesItem (IsOptionObject option.now) (tokens_in line.old) (tokens_in line.new)) }
{
    line.begin_item()?;
    line.put_number("kind", u64::from(option.kind))?;
    put_fields(line, room, option)?;
    Ok(line.end_object()?)
}

/// Writes the fields of an option of a known kind with a valid length, or the data of any other option.
fn put_fields(line: &mut Line, room: &mut Vec<u8>, option: &TcpRawOption) -> io::Result<()>
    ensures { OnOk result (PutsOne (AreOptionFields option.now) (tokens_in line.old) (tokens_in line.new)) }
{
    match option.element() {
        Ok(element) => Ok(put_element(line, &element)?),
        Err(_) => put_data(line, room, option),
    }
}

/// Writes the fields of an option of a known kind.
fn put_element(line: &mut Line, element: &TcpOptionElement) -> Result<(), AllocError>
    ensures { OnOk result (tokens_in line.new ≡ with_members (element_fields element.now) (tokens_in line.old)) }
{
    match element {
        TcpOptionElement::Noop => Ok(()),
        TcpOptionElement::MaximumSegmentSize(size) => {
            line.put_number("maximum_segment_size", u64::from(*size))
        }
        TcpOptionElement::WindowScale(shift) => line.put_number("shift", u64::from(*shift)),
        TcpOptionElement::SelectiveAcknowledgementPermitted => Ok(()),
        TcpOptionElement::SelectiveAcknowledgement(first, more) => put_blocks(line, *first, more),
        TcpOptionElement::Timestamp(value, echo_reply) => {
            line.put_number("value", u64::from(*value))?;
            line.put_number("echo_reply", u64::from(*echo_reply))
        }
    }
}

/// Writes the blocks of a selective acknowledgment.
fn put_blocks(
    line: &mut Line,
    first: (u32, u32),
    more: &[Option<(u32, u32)>],
) -> Result<(), AllocError>
    ensures { OnOk result (tokens_in line.new ≡ put (codes "selective_acknowledgment") (blocks_data first more.now) (tokens_in line.old)) }
{
    line.begin_array("selective_acknowledgment")?;
    push_block(line, first)?;
    push_other_blocks(line, more)?;
    line.end_array()
}

/// Writes the blocks after the first block as items, if there are any.
fn push_other_blocks(line: &mut Line, blocks: &[Option<(u32, u32)>]) -> Result<(), AllocError>
    ensures { OnOk result (tokens_in line.new ≡ with_items (flat_map other_block blocks.now) (tokens_in line.old)) }
{
    for block in blocks {
        push_other_block(line, block)?;
    }
    Ok(())
}

/// Writes a block as an item. Writes nothing for `None`.
fn push_other_block(line: &mut Line, block: &Option<(u32, u32)>) -> Result<(), AllocError>
    ensures { OnOk result (tokens_in line.new ≡ with_items (other_block block.now) (tokens_in line.old)) }
{
    match block {
        Some(block) => push_block(line, *block),
        None => Ok(()),
    }
}

/// Writes the edges of a block as an item.
fn push_block(line: &mut Line, block: (u32, u32)) -> Result<(), AllocError>
    ensures { OnOk result (tokens_in line.new ≡ push (block_data block) (tokens_in line.old)) }
{
    let (left, right) = block;
    line.begin_item()?;
    line.put_number("left", u64::from(left))?;
    line.put_number("right", u64::from(right))?;
    line.end_object()
}

/// Writes the value of an option as hex digits.
fn put_data(line: &mut Line, room: &mut Vec<u8>, option: &TcpRawOption) -> io::Result<()>
    ensures { OnOk result (tokens_in line.new ≡ with_members (data_fields option.now) (tokens_in line.old)) }
{
    fill_with_hex(room, option.value)?;
    put_written(line, "data", room.as_slice())
}

/// Fills `room` with bytes as hex digits in upper case, two digits for each byte.
fn fill_with_hex(room: &mut Vec<u8>, bytes: &[u8]) -> io::Result<()>
    ensures { OnOk result (room.new.items ≡ hex_bytes bytes.now) }
{
    room.clear();
    for byte in bytes {
        write!(room, "{byte:02X}")?;
    }
    Ok(())
}

/// Writes the reason why an option can't be read, if there is a fault.
fn put_fault(
    line: &mut Line,
    room: &mut Vec<u8>,
    fault: Option<TcpRawOptionError>,
) -> io::Result<()>
    ensures { OnOk result (tokens_in line.new ≡ with_members (fault_members fault) (tokens_in line.old)) }
{
    match fault {
        Some(fault) => {
            room.clear();
            write_fault(room, &fault)?;
            put_written(line, "options_fault", room.as_slice())
        }
        None => Ok(()),
    }
}
