//! The header of a TCP segment (RFC 9293, section 3.1).

ghost use Rattle.std.specs.Prelude.{◌≡◌, OnOk, map};
ghost use Rattle.std.specs.Io.KnownBytes.{Appends};
ghost use Rattle.capture_words.specs.TcpText.{IsHeaderText, numbers_text, tcp_flags, urgent_text};
ghost use Rattle.capture_words.specs.Written.{AppendsOne};

use crate::flags::write_flags;
use crate::tcp_options::write_options;
use std::io;
use std::io::Write;
use tcp_part::TcpSlice;

/// Writes the flags, the sequence number, the acknowledgment number and the window of a header. If the flag URG is set, it also writes the
/// urgent pointer. Then it writes the options, if the header contains options.
///
/// # Errors
///
/// The error of the writer, if writing fails.
pub fn write_header<W: Write>(output: &mut W, segment: &TcpSlice) -> io::Result<()>
    ensures { OnOk result (AppendsOne (W.contents output.old) (W.contents output.new) (IsHeaderText segment.now)) }
{
    write_flags(output, &named_flags(segment))?;
    write_numbers(output, segment)?;
    write_urgent_pointer(output, segment)?;
    write_options(output, segment)
}

/// The flags and their names, in the order in which tcpdump and Wireshark show them. The order begins with FIN, which is the lowest bit.
pub fn named_flags(segment: &TcpSlice) -> [(bool, &'static str); 9]
    ensures { map (λ flag. (flag.0, flag.1.now)) result ≡ tcp_flags segment.now }
{
    [
        (segment.fin(), "FIN"),
        (segment.syn(), "SYN"),
        (segment.rst(), "RST"),
        (segment.psh(), "PSH"),
        (segment.ack(), "ACK"),
        (segment.urg(), "URG"),
        (segment.ece(), "ECE"),
        (segment.cwr(), "CWR"),
        (segment.ns(), "NS"),
    ]
}

/// Writes the sequence number, the acknowledgment number and the window.
fn write_numbers<W: Write>(output: &mut W, segment: &TcpSlice) -> io::Result<()>
    ensures { OnOk result (Appends (W.contents output.old) (W.contents output.new) (numbers_text segment.now)) }
{
    write!(
        output,
        ", sequence {}, acknowledgment {}, window {}",
        segment.sequence_number(),
        segment.acknowledgment_number(),
        segment.window_size()
    )
}

/// Writes the urgent pointer, if the flag URG is set.
fn write_urgent_pointer<W: Write>(output: &mut W, segment: &TcpSlice) -> io::Result<()>
    ensures { OnOk result (Appends (W.contents output.old) (W.contents output.new) (urgent_text segment.now)) }
{
    if segment.urg() {
        write!(output, ", urgent pointer {}", segment.urgent_pointer())
    } else {
        Ok(())
    }
}
