//! The facts of a capture, as text.

ghost use Rattle.std.specs.Prelude.{OnOk};
ghost use Rattle.std.specs.Io.KnownBytes.{Appends};
ghost use Rattle.capture_words.specs.FactsText as specs;

use crate::texts::{write_interface_texts, write_texts};
use crate::{byte_order_word, time_resolution, write_resolution};
use capture_file::InterfaceTexts;
use capture_file::classic::CaptureHeader;
use capture_file::pcapng::{InterfaceDescription, TimeResolution};
use capture_file::reader::{CaptureReader, PcapngReader};
use std::io;
use std::io::Write;

/// Writes the facts of a capture, or nothing if there is no capture. The facts of a classic capture are its file type, byte order, snap
/// length and time resolution. The facts of a pcapng file are its file type, byte order, number of interfaces and texts. They also contain
/// the snap length, the time resolution, the texts and the statistics of each interface.
///
/// `capture` is the reader after it has read the packets. In a pcapng file, only the last section that was read counts, with the interfaces
/// that were described so far.
///
/// # Errors
///
/// The error of the writer, if writing fails.
pub fn write_facts<W: Write>(output: &mut W, capture: &Option<CaptureReader>) -> io::Result<()>
    ensures { OnOk result (Appends (W.contents output.old) (W.contents output.new) (specs.facts_text capture.now)) }
{
    match capture {
        Some(CaptureReader::Classic(reader)) => write_classic(output, reader.header),
        Some(CaptureReader::Pcapng(reader)) => write_section(output, reader),
        None => Ok(()),
    }
}

/// Writes the line of a classic capture with this header.
fn write_classic<W: Write>(output: &mut W, header: CaptureHeader) -> io::Result<()>
    ensures { OnOk result (Appends (W.contents output.old) (W.contents output.new) (specs.classic_text header)) }
{
    let order = byte_order_word(header.byte_order);
    write!(output, "file type classic, byte order {order}")?;
    write_limits(output, header.snap_len, time_resolution(header.resolution))?;
    writeln!(output)
}

/// Writes the lines of the section that this reader read last: its byte order, the number of its interfaces, its texts, and its interfaces.
fn write_section<W: Write>(output: &mut W, reader: &PcapngReader) -> io::Result<()>
    ensures { OnOk result (Appends (W.contents output.old) (W.contents output.new) (specs.section_text reader.now)) }
{
    let order = byte_order_word(reader.section.byte_order);
    let interfaces = reader.section.interfaces.as_slice();
    let count = interfaces.len();
    writeln!(
        output,
        "file type pcapng, byte order {order}, interfaces {count}"
    )?;
    write_texts(output, &reader.texts)?;
    write_interfaces(output, interfaces, reader.texts.interfaces.as_slice())
}

/// Writes the line of each interface, and the lines of its texts. `texts` contains the texts of only the first interfaces.
fn write_interfaces<W: Write>(
    output: &mut W,
    interfaces: &[InterfaceDescription],
    texts: &[InterfaceTexts],
) -> io::Result<()>
    ensures { OnOk result (Appends (W.contents output.old) (W.contents output.new) (specs.interfaces_text texts.now 0 interfaces.now)) }
{
    for (number, interface) in interfaces.iter().enumerate() {
        write_described(output, texts, number, interface)?;
    }
    Ok(())
}

/// Writes the line of the interface with this number, and the lines of its texts if `texts` contains them.
fn write_described<W: Write>(
    output: &mut W,
    texts: &[InterfaceTexts],
    number: usize,
    interface: &InterfaceDescription,
) -> io::Result<()>
    ensures { OnOk result (Appends (W.contents output.old) (W.contents output.new) (specs.described_text texts.now number interface.now)) }
{
    write_interface(output, number, interface)?;
    write_interface_texts(output, number, texts)
}

/// Writes the line of the interface with this number.
fn write_interface<W: Write>(
    output: &mut W,
    number: usize,
    interface: &InterfaceDescription,
) -> io::Result<()>
    ensures { OnOk result (Appends (W.contents output.old) (W.contents output.new) (specs.interface_text number interface.now)) }
{
    write!(output, "interface {number}")?;
    write_limits(output, interface.snap_len, interface.time_resolution)?;
    writeln!(output)
}

/// Writes the snap length, which is the maximum number of captured bytes of a packet, and the unit of the times.
fn write_limits<W: Write>(
    output: &mut W,
    snap_len: u32,
    resolution: TimeResolution,
) -> io::Result<()>
    ensures { OnOk result (Appends (W.contents output.old) (W.contents output.new) (specs.limits_text snap_len resolution)) }
{
    write!(output, ", snap length {snap_len}, time resolution ")?;
    write_resolution(output, resolution)
}
