use super::run;
use crate::expect::{bytes_to, expect_at, expect_equal, expect_ok};
use arrayvec::ArrayVec;
use std::io;
use std::io::{ErrorKind, Read, Write};
use std::ops::Range;
use std::process::Abort;

/// A line with a TCP header of 60 bytes, in which every bit is set, and 20 zero bytes after the header.
const LONGEST_TCP_LINE: &str =
    "tcp FFFFFFFFFFFFFFFFFFFFFFFFFFFFFFFFFFFFFFFFFFFFFFFFFFFFFFFFFFFFFFFFFFFFFFFFFFFFFFFFFFFFFFFFFFFFFFFFFFFFFFFFFFFFFFFFFFFFFFFF0000000000000000000000000000000000000000\n";

/// The answer to `LONGEST_TCP_LINE`: the reserved bits of byte 12 are cleared.
const LONGEST_TCP_TEXT: &str =
    "ok fffffffffffffffffffffffff1ffffffffffffffffffffffffffffffffffffffffffffffffffffffffffffffffffffffffffffffffffffffffffffff 20\n";

/// Lines with an accepted packet, each with its answer.
static ACCEPTED: [(&str, &str); 2] = [
    ("udp 003504D200080000AA\n", "ok 003504d200080000 1\n"),
    (LONGEST_TCP_LINE, LONGEST_TCP_TEXT),
];

/// Hex digits in lower and upper case, which `long_input` repeats.
const DIGITS: [u8; 32] = *b"0123456789abcdefFEDCBA9876543210";

/// A line of the maximum length that repeats `DIGITS`, and three more digits.
fn long_input() -> [u8; 8195] {
    let mut input = [b'u'; 8195];
    input[..4].copy_from_slice(b"udp ");
    for place in 4..8195usize {
        input[place] = DIGITS[(place - 4) % 32];
    }
    input
}

fn expect_answer(rt: &impl Abort, mut input: &[u8], text: &str, status: u8) {
    let mut output: ArrayVec<u8, 160> = ArrayVec::new();
    let answered = run(&mut input, &mut output);
    expect_equal(rt, &output.as_slice(), &text.as_bytes());
    expect_equal(rt, &answered, &status);
}

/// Stops the test unless the first `len` bytes of the input have this answer.
fn expect_beginning(rt: &impl Abort, input: &[u8], len: usize, text: &str, status: u8) {
    expect_answer(rt, bytes_to(rt, input, len), text, status);
}

/// Stops the test unless the UDP packet in this line, which has `len` bytes, is refused for its length.
fn expect_refused_len(rt: &(impl Abort + AllocGlobal), line: &[u8], len: usize) {
    let text = expect_ok(
        rt,
        format!(in rt.alloc(); "refused len UdpHeader 8 {len}\n"),
    );
    expect_answer(rt, line, text.as_str(), 1);
}

/// Stops the test unless the UDP packet in this line is accepted, with `rest_len` bytes after its header.
fn expect_accepted_len(rt: &(impl Abort + AllocGlobal), line: &[u8], rest_len: usize) {
    let text = expect_ok(
        rt,
        format!(in rt.alloc(); "ok 0123456789abcdef {rest_len}\n"),
    );
    expect_answer(rt, line, text.as_str(), 0);
}

/// Stops the test unless UDP packets of these lengths, in bytes, are answered correctly: accepted from 8 bytes on, and otherwise refused.
fn expect_lens(rt: &(impl Abort + AllocGlobal), input: &[u8], lens: Range<u16>) {
    for len in lens {
        let len = usize::from(len);
        let line = bytes_to(rt, input, 4 + 2 * len);
        match len.checked_sub(8) {
            Some(rest_len) => expect_accepted_len(rt, line, rest_len),
            None => expect_refused_len(rt, line, len),
        }
    }
}

/// Lines, each with its answer and status.
static LINES: [(&str, &str, u8); 42] = [
    ("udp 003504D200080000AA\n", "ok 003504d200080000 1\n", 0),
    ("udp 003504D200080000AA", "ok 003504d200080000 1\n", 0),
    ("udp FFFFFFFFFFFFFFFF", "ok ffffffffffffffff 0\n", 0),
    ("udp ffffFFFFffffFFFFaB", "ok ffffffffffffffff 1\n", 0),
    (
        "udp 14E90035000BcA85616263deADBEef0123456789abcdefABCDEF\n",
        "ok 14e90035000bca85 18\n",
        0,
    ),
    ("udp ", "refused len UdpHeader 8 0\n", 1),
    ("udp 00000000000000\n", "refused len UdpHeader 8 7\n", 1),
    ("udp 00350", "bad input\n", 2),
    ("", "bad input\n", 2),
    ("\n", "bad input\n", 2),
    ("udp", "bad input\n", 2),
    ("udp 0", "bad input\n", 2),
    ("udp 0G", "bad input\n", 2),
    ("udp 00 ", "bad input\n", 2),
    ("udp 00\r\n", "bad input\n", 2),
    ("udp  0000000000000000", "bad input\n", 2),
    ("UDP 0000000000000000", "bad input\n", 2),
    ("udp 0000000000000000\n\n", "bad input\n", 2),
    ("udp 0000000000000000\r\n", "bad input\n", 2),
    ("udp 00000000000000G0", "bad input\n", 2),
    (
        "udp 14E90035000BCA85616263deADBEef0123456789abcdefABCDEg\n",
        "bad input\n",
        2,
    ),
    (
        "udp 14E90035000BCA85616263deADBEef0123456789abcdefABCDE\n",
        "bad input\n",
        2,
    ),
    (
        "tcp 0000000000000000000000004000000000000000",
        "refused offset 4\n",
        1,
    ),
    (
        "tcp 0000000000000000000000005F00000000000000",
        "ok 0000000000000000000000005100000000000000 0\n",
        0,
    ),
    (
        "tcp 00000000000000000000000050",
        "refused len TcpHeader 20 13\n",
        1,
    ),
    (
        "tcp 0000000000000000000000006000000000000000\n",
        "refused len TcpHeader 24 20\n",
        1,
    ),
    (LONGEST_TCP_LINE, LONGEST_TCP_TEXT, 0),
    ("icmpv4 0D00", "refused len Icmpv4 8 2\n", 1),
    ("icmpv4 03040000010205DC", "ok 03040000000005dc 0\n", 0),
    (
        "icmpv4 0D0000000000000000000000000000000000000000",
        "refused len Icmpv4Timestamp 20 21\n",
        1,
    ),
    (
        "icmpv4 0E0000000000000000",
        "refused len Icmpv4TimestampReply 20 9\n",
        1,
    ),
    (
        "icmpv4 0D000000000100020000000300000004000000FF\n",
        "ok 0d000000000100020000000300000004000000ff 0\n",
        0,
    ),
    ("icmpv6 88000000FFFFFFFF", "ok 88000000e0000000 0\n", 0),
    ("icmpv6 8500000001020304AA", "ok 8500000000000000 1\n", 0),
    ("icmpv6 ", "refused len Icmpv6 8 0\n", 1),
    ("TCP 00", "bad input\n", 2),
    ("tcp  00", "bad input\n", 2),
    ("tcp", "bad input\n", 2),
    ("icmp 0000000000000000", "bad input\n", 2),
    ("icmpv40000000000000000", "bad input\n", 2),
    ("icmpv5 0000000000000000", "bad input\n", 2),
    (" udp 0000000000000000", "bad input\n", 2),
];

/// Stops the test unless the line in this row has the answer and the status in this row.
fn expect_row(rt: &impl Abort, row: &(&str, &str, u8)) {
    expect_answer(rt, row.0.as_bytes(), row.1, row.2);
}

#[test]
fn lines_are_answered(rt: HostRuntime) {
    for row in &LINES {
        expect_row(&rt, row);
    }
}

#[test]
fn the_longest_line_is_answered(rt: HostRuntime) {
    let mut input = long_input();
    expect_without_line_feed(&rt, &input);
    input[8192] = b'\n';
    expect_with_line_feed(&rt, &input);
    // The last byte of the longest line is not a digit.
    input[8191] = b'x';
    expect_beginning(&rt, &input, 8192, "bad input\n", 2);
    expect_beginning(&rt, &input, 8193, "bad input\n", 2);
}

/// `long_input` with its last seven digits replaced by this digit.
fn long_input_ending_in(digit: u8) -> [u8; 8195] {
    let mut input = long_input();
    input[8188..8195].copy_from_slice(&[digit; 7]);
    input
}

/// Stops the test unless lines without a line feed are answered correctly. A line of the maximum length is accepted, and three longer lines
/// are bad input.
fn expect_without_line_feed(rt: &impl Abort, input: &[u8]) {
    expect_beginning(rt, input, 8192, "ok 0123456789abcdef 4086\n", 0);
    expect_beginning(rt, input, 8193, "bad input\n", 2);
    expect_beginning(rt, input, 8194, "bad input\n", 2);
    expect_beginning(rt, input, 8195, "bad input\n", 2);
}

/// Stops the test unless lines with a line feed are answered correctly. A line of the maximum length is accepted. With a byte after its
/// line feed, it is bad input.
fn expect_with_line_feed(rt: &impl Abort, input: &[u8]) {
    expect_beginning(rt, input, 8193, "ok 0123456789abcdef 4086\n", 0);
    expect_beginning(rt, input, 8194, "bad input\n", 2);
}

#[test]
fn the_longest_line_ends_in_every_digit(rt: HostRuntime) {
    for digit in *b"0123456789ABCDEFabcdef" {
        let mut input = long_input_ending_in(digit);
        expect_without_line_feed(&rt, &input);
        input[8192] = b'\n';
        expect_with_line_feed(&rt, &input);
    }
}

#[test]
fn long_lines_of_zeros_are_answered(rt: HostRuntime) {
    let mut input = [b'0'; 8194];
    input[..4].copy_from_slice(b"udp ");
    expect_beginning(&rt, &input, 8192, "ok 0000000000000000 4086\n", 0);
    expect_answer(&rt, &input, "bad input\n", 2);
    input[8192] = b'\n';
    expect_beginning(&rt, &input, 8193, "ok 0000000000000000 4086\n", 0);
    // The input has one byte more than the longest line.
    let mut input = [b'0'; 8193];
    input[..7].copy_from_slice(b"icmpv4 ");
    expect_answer(&rt, &input, "bad input\n", 2);
}

#[test]
fn packets_of_many_lengths_are_answered(rt: HostRuntime) {
    let input = long_input();
    expect_lens(&rt, &input, 0..259);
    expect_lens(&rt, &input, 510..515);
    expect_lens(&rt, &input, 1022..1027);
    expect_lens(&rt, &input, 2046..2051);
    expect_lens(&rt, &input, 4086..4095);
}

/// A reader that returns one byte per read. After `reads` successful reads, the next read fails once.
#[derive(Drop)]
struct FaultyReader<'a> {
    rest: &'a [u8],
    reads: usize,
}

impl<'a> Read for FaultyReader<'a> {
    fn read(&mut self, buf: &mut [u8]) -> io::Result<usize> {
        if self.reads == 0 {
            self.reads = usize::MAX;
            return Err(io::Error::from(ErrorKind::BrokenPipe));
        }
        self.reads -= 1;
        match (self.rest.split_first(), buf.is_empty()) {
            (Some((byte, rest)), false) => {
                buf[0] = *byte;
                self.rest = rest;
                Ok(1)
            }
            _ => Ok(0),
        }
    }
}

/// A writer that accepts one byte per write. After `calls` successful writes and flushes, the next write or flush fails once. If
/// `takes_nothing` is set, a write accepts no bytes instead of failing. The flush still fails.
#[derive(Drop)]
struct FaultyWriter {
    written: ArrayVec<u8, 160>,
    calls: usize,
    takes_nothing: bool,
}

impl FaultyWriter {
    fn call(&mut self) -> io::Result<()> {
        if self.calls == 0 {
            self.calls = usize::MAX;
            return Err(io::Error::from(ErrorKind::BrokenPipe));
        }
        self.calls -= 1;
        Ok(())
    }
}

impl Write for FaultyWriter {
    fn write(&mut self, buf: &[u8]) -> io::Result<usize> {
        if self.takes_nothing && self.calls == 0 {
            self.calls = usize::MAX;
            return Ok(0);
        }
        self.call()?;
        match buf.first() {
            Some(byte) if self.written.try_push(*byte).is_ok() => Ok(1),
            _ => Ok(0),
        }
    }

    fn flush(&mut self) -> io::Result<()> {
        self.call()
    }
}

/// Returns a `FaultyWriter` to which nothing was written.
fn faulty_writer(calls: usize, takes_nothing: bool) -> FaultyWriter {
    FaultyWriter {
        written: ArrayVec::new(),
        calls,
        takes_nothing,
    }
}

/// In each row: the number of bytes of the input, the number of bytes that are not read, the answer, and its status.
static BYTE_BY_BYTE: [(usize, usize, &str, u8); 5] = [
    (20, 0, "ok 0123456789abcdef 0\n", 0),
    (8192, 0, "ok 0123456789abcdef 4086\n", 0),
    (8193, 0, "bad input\n", 2),
    (8194, 0, "bad input\n", 2),
    (8195, 1, "bad input\n", 2),
];

/// Stops the test unless the beginning of the input has the answer in this row, if it is read and answered byte by byte.
fn expect_byte_by_byte(rt: &impl Abort, input: &[u8], row: &(usize, usize, &str, u8)) {
    let mut reader = FaultyReader {
        rest: bytes_to(rt, input, row.0),
        reads: usize::MAX,
    };
    let mut writer = faulty_writer(usize::MAX, false);
    expect_at(rt, row, &run(&mut reader, &mut writer), &row.3);
    expect_at(rt, row, &writer.written.as_slice(), &row.2.as_bytes());
    expect_at(rt, row, &reader.rest.len(), &row.1);
}

#[test]
fn inputs_and_answers_come_byte_by_byte(rt: HostRuntime) {
    let input = long_input();
    for row in &BYTE_BY_BYTE {
        expect_byte_by_byte(&rt, &input, row);
    }
}

/// Stops the test unless this text is written, with this status, if the reader fails after `reads` successful reads.
fn expect_after_reads(rt: &impl Abort, line: &[u8], reads: usize, text: &str, status: u8) {
    let mut input = FaultyReader { rest: line, reads };
    let mut output: ArrayVec<u8, 160> = ArrayVec::new();
    expect_at(rt, &reads, &run(&mut input, &mut output), &status);
    expect_at(rt, &reads, &output.as_slice(), &text.as_bytes());
}

/// Stops the test unless this text is written if no read fails. Also stops the test unless nothing is written if a read fails.
fn expect_read_faults(rt: &impl Abort, line: &[u8], text: &str) {
    // Each byte needs a read, and the end of input needs another.
    for reads in 0..line.len() + 1 {
        expect_after_reads(rt, line, reads, "", 3);
    }
    expect_after_reads(rt, line, line.len() + 1, text, 0);
}

#[test]
fn read_faults_write_nothing(rt: HostRuntime) {
    for row in &ACCEPTED {
        expect_read_faults(&rt, row.0.as_bytes(), row.1);
    }
}

/// Stops the test unless this text is written to this writer, and the result is this status.
fn expect_written(rt: &impl Abort, line: &[u8], mut output: FaultyWriter, text: &[u8], status: u8) {
    let mut input = line;
    let calls = output.calls;
    expect_at(rt, &calls, &run(&mut input, &mut output), &status);
    expect_at(rt, &calls, &output.written.as_slice(), &text);
}

/// Stops the test unless exactly the bytes before a fault are written. Each write is faulty in turn, and then the flush. Without a fault
/// the whole text is written.
fn expect_write_faults(rt: &impl Abort, line: &[u8], text: &[u8], takes_nothing: bool) {
    // Each byte needs a write.
    for calls in 0..text.len() {
        let output = faulty_writer(calls, takes_nothing);
        expect_written(rt, line, output, &text[..calls], 3);
    }
    // The flush is the last call.
    let output = faulty_writer(text.len(), takes_nothing);
    expect_written(rt, line, output, text, 3);
    let output = faulty_writer(text.len() + 1, takes_nothing);
    expect_written(rt, line, output, text, 0);
}

#[test]
fn write_faults_leave_a_beginning(rt: HostRuntime) {
    for row in &ACCEPTED {
        expect_write_faults(&rt, row.0.as_bytes(), row.1.as_bytes(), false);
        expect_write_faults(&rt, row.0.as_bytes(), row.1.as_bytes(), true);
    }
}
