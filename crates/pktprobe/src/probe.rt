ghost use Rattle.std.specs.Prelude.{◌≡◌, ◌≢◌, ◌≤◌, ◌+◌, ◌*◌, ◌++◌, ◌⊎◌, IfOk, IsNone, IsSomeAnd, MatchResult, OnErr, OnOk, length, take, decimal};
ghost use Rattle.std.specs.Option.{option_map};
ghost use Rattle.std.specs.Io.KnownBytes.{Appends, Keeps};
ghost use Rattle.arrayvec.specs.ArrayVec.{array_vec_len};
ghost use Rattle.hex.specs.Hex.{decode_of};
ghost use Rattle.pktprobe.specs.Report.{accepted_text, bad_input, line_of, max_input_len, packet_report, request_of, refused_text, report};
ghost use Rattle.pktprobe.specs.Run.{WritesBeginningOfReport, WritesReport};
ghost use Rattle.streams.specs.Streams.{AppendsBeginning};

use arrayvec::ArrayVec;
use etherparse_transport::err::LenError;
use etherparse_transport::err::tcp::{HeaderError, HeaderSliceError};
use etherparse_transport::{Proto, canonical_header};
use itoa::Buffer;
use std::io;
use std::io::{Read, Write};
use streams::{fill, write_whole};

/// The maximum length of a line, in bytes.
const MAX_LINE_LEN: usize = 8192;

/// The maximum number of bytes that `run` reads: the longest line, its line feed, and one more byte, which shows that a line is too long.
const MAX_INPUT_LEN: usize = MAX_LINE_LEN + 2;

/// The maximum length of the packet in a line, in bytes. The line contains two digits for each byte, after the shortest word and a space.
const MAX_PACKET_LEN: usize = (MAX_LINE_LEN - 4) / 2;

/// The length of the longest header, which is a TCP header, in bytes.
const MAX_HEADER_LEN: usize = 60;

/// The capacity for an answer, in bytes.
const MAX_TEXT_LEN: usize = 160;

/// The status of an accepted packet.
const ACCEPTED: u8 = 0;

/// The status of a refused packet.
const REFUSED: u8 = 1;

/// The status if the input is not a line of the form that the program reads.
const BAD_INPUT: u8 = 2;

/// The status of a run in which reading or writing failed.
const FAULT: u8 = 3;

/// Reads an input, writes the text of its answer, and returns a status.
///
/// The result is the status of the answer. If a read, a write or the flush failed, or if a write accepted no byte, the result is 3 instead.
/// After a failed read nothing is written.
pub fn run<R: Read, W: Write>(input: &mut R, output: &mut W) -> u8
    ensures written { result ≢ 3 → WritesReport (R.remaining input.old) (R.remaining input.new)
        (W.contents output.old) (W.contents output.new) result }
    ensures failed { result ≡ 3 → Keeps (W.contents output.old) (W.contents output.new)
        ⊎ WritesBeginningOfReport (R.remaining input.old) (R.remaining input.new) (W.contents output.old) (W.contents output.new) }
{
    match respond(input, output) {
        Ok(status) => status,
        Err(_) => FAULT,
    }
}

/// Reads an input, writes the text of its answer, and returns the status of the answer.
fn respond<R: Read, W: Write>(input: &mut R, output: &mut W) -> io::Result<u8>
    ensures written { IfOk result (λ status. WritesReport (R.remaining input.old) (R.remaining input.new)
        (W.contents output.old) (W.contents output.new) status) }
    ensures failed { OnErr result (Keeps (W.contents output.old) (W.contents output.new)
        ⊎ WritesBeginningOfReport (R.remaining input.old) (R.remaining input.new) (W.contents output.old) (W.contents output.new)) }
{
    let mut buffer = [0u8; MAX_INPUT_LEN];
    let len = fill(input, &mut buffer)?;
    let (text, status) = answer(&buffer[..len]);
    write_out(output, text.as_slice())?;
    Ok(status)
}

/// The answer to a whole input: its text, and its status, which is 0, 1 or 2. It depends only on the first 8,194 bytes of the input.
#[tactic(auto, using(crate::proofs::ReportLemmas::first_bytes_decide))]
pub fn answer(input: &[u8]) -> (ArrayVec<u8, 160>, u8)
    ensures text { result.0.items ≡ (report input.now).0 }
    ensures status { result.1 ≡ (report input.now).1 }
    ensures first_bytes { report (take max_input_len input.now) ≡ report input.now }
{
    let line = line_of(input);
    if line.len() > MAX_LINE_LEN {
        return bad_input();
    }
    let Some((protocol, digits)) = request_of(line) else {
        return bad_input();
    };
    let mut bytes = [0u8; MAX_PACKET_LEN];
    let Some(len) = decode_digits(digits, &mut bytes) else {
        return bad_input();
    };
    packet_answer(protocol, &bytes[..len])
}

/// The input without the line feed at its end, or the whole input if it does not end with a line feed.
fn line_of(input: &[u8]) -> &[u8]
    ensures { result.now ≡ line_of input.now }
{
    input.strip_suffix(b"\n").unwrap_or(input)
}

/// The protocol whose name begins a line, and the digits after this name and one space. `None` if the line does not begin with the name of
/// a protocol and a space.
fn request_of(line: &[u8]) -> Option<(Proto, &[u8])>
    ensures { option_map (λ request. (request.0, request.1.now)) result ≡ request_of line.now }
{
    if let Some(digits) = line.strip_prefix(b"udp ") {
        return Some((Proto::Udp, digits));
    }
    if let Some(digits) = line.strip_prefix(b"tcp ") {
        return Some((Proto::Tcp, digits));
    }
    if let Some(digits) = line.strip_prefix(b"icmpv4 ") {
        return Some((Proto::Icmpv4, digits));
    }
    if let Some(digits) = line.strip_prefix(b"icmpv6 ") {
        return Some((Proto::Icmpv6, digits));
    }
    None
}

/// The answer if the input is not a line of the form that the program reads.
fn bad_input() -> (ArrayVec<u8, 160>, u8)
    ensures text { result.0.items ≡ bad_input.0 }
    ensures status { result.1 ≡ bad_input.1 }
{
    let mut text = ArrayVec::new();
    text.try_extend_from_slice(b"bad input\n").unwrap();
    (text, BAD_INPUT)
}

/// Decodes hex digits into the front of `bytes`, and returns the number of bytes. `None` if one of the digits is not a hex digit, or if the
/// number of digits is odd.
fn decode_digits(digits: &[u8], bytes: &mut [u8]) -> Option<usize>
    requires { length digits.now ≤ 2 * length bytes.old }
    ensures { MatchResult (decode_of digits.now)
        (λ packet. IsSomeAnd result (λ len. (len ≤ length bytes.new) × (take len bytes.new ≡ packet)))
        (λ _. IsNone result) }
{
    let len = digits.len() / 2;
    if hex::decode_to_slice(digits, &mut bytes[..len]).is_ok() {
        Some(len)
    } else {
        None
    }
}

/// The answer to the bytes of a packet.
fn packet_answer(protocol: Proto, bytes: &[u8]) -> (ArrayVec<u8, 160>, u8)
    ensures text { result.0.items ≡ (packet_report protocol bytes.now).0 }
    ensures status { result.1 ≡ (packet_report protocol bytes.now).1 }
{
    match canonical_header(protocol, bytes) {
        Ok((header, rest)) => (accepted_text(header.as_slice(), rest.len()), ACCEPTED),
        Err(error) => (refused_text(&error), REFUSED),
    }
}

/// The text for an accepted packet: its header, and the number of bytes after the header.
fn accepted_text(header: &[u8], rest_len: usize) -> ArrayVec<u8, 160>
    requires { length header.now ≤ MAX_HEADER_LEN }
    ensures { result.items ≡ accepted_text header.now rest_len }
{
    let mut digits = [0u8; 2 * MAX_HEADER_LEN];
    let digits = &mut digits[..2 * header.len()];
    hex::encode_to_slice(header, digits).unwrap();
    let mut text = ArrayVec::new();
    text.try_extend_from_slice(b"ok ").unwrap();
    text.try_extend_from_slice(digits).unwrap();
    text.push(b' ');
    push_decimal(&mut text, rest_len);
    text.push(b'\n');
    text
}

/// The text for a refused packet.
fn refused_text(error: &HeaderSliceError) -> ArrayVec<u8, 160>
    ensures { result.items ≡ refused_text error.now }
{
    match error {
        HeaderSliceError::Len(error) => refused_len_text(error),
        HeaderSliceError::Content(HeaderError::DataOffsetTooSmall { data_offset }) => {
            refused_offset_text(*data_offset)
        }
    }
}

/// The text for a packet whose length is refused.
fn refused_len_text(error: &LenError) -> ArrayVec<u8, 160>
    ensures { result.items ≡ refused_text (HeaderSliceError.Len error.now) }
{
    let mut text = ArrayVec::new();
    text.try_extend_from_slice(b"refused len ").unwrap();
    text.try_extend_from_slice(error.layer.word().as_bytes())
        .unwrap();
    text.push(b' ');
    push_decimal(&mut text, error.required_len);
    text.push(b' ');
    push_decimal(&mut text, error.len);
    text.push(b'\n');
    text
}

/// The text for a TCP header whose data offset is refused.
fn refused_offset_text(data_offset: u8) -> ArrayVec<u8, 160>
    ensures { result.items ≡ refused_text (HeaderSliceError.Content (HeaderError.DataOffsetTooSmall data_offset)) }
{
    let mut text = ArrayVec::new();
    text.try_extend_from_slice(b"refused offset ").unwrap();
    push_decimal(&mut text, usize::from(data_offset));
    text.push(b'\n');
    text
}

/// Appends a number in decimal.
fn push_decimal(text: &mut ArrayVec<u8, 160>, number: usize)
    requires { array_vec_len text.old + 20 ≤ MAX_TEXT_LEN }
    ensures digits { text.new.items ≡ text.old.items ++ decimal number }
    ensures len { array_vec_len text.new ≤ array_vec_len text.old + 20 }
{
    let mut buffer = Buffer::new();
    text.try_extend_from_slice(buffer.format(number).as_bytes())
        .unwrap();
}

/// Writes the whole text and flushes.
fn write_out<W: Write>(output: &mut W, text: &[u8]) -> io::Result<()>
    ensures written { OnOk result (Appends (W.contents output.old) (W.contents output.new) text.now) }
    ensures begun { AppendsBeginning (W.contents output.old) (W.contents output.new) text.now }
{
    write_whole(output, text)?;
    output.flush()
}

#[cfg(test)]
mod tests;
