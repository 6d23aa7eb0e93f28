//! A TCP segment (RFC 9293, section 3.1).

ghost use Rattle.std.specs.Prelude.{◌≡◌, OnOk, codes, map};
ghost use Rattle.capture_json.specs.Members.{texts_data};
ghost use Rattle.capture_json.specs.Tokens.{PutsOne, put, tokens_in, with_items, with_members};
ghost use Rattle.serde_json.specs.Data.{string};
ghost use Rattle.capture_json.specs.JsonPacket.{AreTcpHeaderMembers, AreTcpMembers, name_if_set, names_of_set, tcp_number_members, urgent_members};
ghost use Rattle.capture_words.specs.TcpText.{tcp_flags};

use crate::Line;
use crate::addresses::put_ports;
use crate::tcp_options::put_options;
use capture_words::tcp::named_flags;
use std::alloc::AllocError;
use std::io;
use tcp_part::TcpSlice;

/// Writes the ports and the header of a segment.
pub fn put_tcp(line: &mut Line, room: &mut Vec<u8>, segment: &TcpSlice) -> io::Result<()>
    ensures { OnOk result (PutsOne (AreTcpMembers segment.now) (tokens_in line.old) (tokens_in line.new)) }
{
    put_ports(line, segment.source_port(), segment.destination_port())?;
    line.begin_object("tcp")?;
    put_header(line, room, segment)?;
    Ok(line.end_object()?)
}

/// Writes the flags, the sequence and acknowledgment numbers, the window and the options. If the flag URG is set, it also writes the urgent
/// pointer.
fn put_header(line: &mut Line, room: &mut Vec<u8>, segment: &TcpSlice) -> io::Result<()>
    ensures { OnOk result (PutsOne (AreTcpHeaderMembers segment.now) (tokens_in line.old) (tokens_in line.new)) }
{
    put_flags(line, segment)?;
    put_numbers(line, segment)?;
    put_urgent_pointer(line, segment)?;
    put_options(line, room, segment)
}

/// Writes the names of the flags that are set.
fn put_flags(line: &mut Line, segment: &TcpSlice) -> Result<(), AllocError>
    ensures { OnOk result (tokens_in line.new ≡ put (codes "flags") (texts_data (names_of_set (λ flag. flag) (tcp_flags segment.now))) (tokens_in line.old)) }
{
    line.begin_array("flags")?;
    push_names_of_set(line, &named_flags(segment))?;
    line.end_array()
}

/// Writes an item with the name of each flag that is set, in the order of the flags.
fn push_names_of_set(line: &mut Line, flags: &[(bool, &str)]) -> Result<(), AllocError>
    ensures { OnOk result (tokens_in line.new ≡ with_items (map string (names_of_set (λ flag. (flag.0, flag.1.now)) flags.now)) (tokens_in line.old)) }
{
    for flag in flags {
        push_if_set(line, flag.0, flag.1)?;
    }
    Ok(())
}

/// Writes the name of a flag as an item, if the flag is set.
fn push_if_set(line: &mut Line, is_set: bool, name: &str) -> Result<(), AllocError>
    ensures { OnOk result (tokens_in line.new ≡ with_items (map string (name_if_set (is_set, name.now))) (tokens_in line.old)) }
{
    if is_set { line.push_text(name) } else { Ok(()) }
}

/// Writes the sequence number, the acknowledgment number and the window.
fn put_numbers(line: &mut Line, segment: &TcpSlice) -> Result<(), AllocError>
    ensures { OnOk result (tokens_in line.new ≡ with_members (tcp_number_members segment.now) (tokens_in line.old)) }
{
    line.put_number("sequence", u64::from(segment.sequence_number()))?;
    line.put_number("acknowledgment", u64::from(segment.acknowledgment_number()))?;
    line.put_number("window", u64::from(segment.window_size()))
}

/// Writes the urgent pointer, if the flag URG is set.
fn put_urgent_pointer(line: &mut Line, segment: &TcpSlice) -> Result<(), AllocError>
    ensures { OnOk result (tokens_in line.new ≡ with_members (urgent_members segment.now) (tokens_in line.old)) }
{
    if segment.urg() {
        line.put_number("urgent_pointer", u64::from(segment.urgent_pointer()))
    } else {
        Ok(())
    }
}
