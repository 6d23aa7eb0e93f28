ghost use Rattle.std.specs.Prelude.{◌≡◌, IfErr, IfOk, length};
ghost use Rattle.report_page.specs.Lines.{is_set};
ghost use Rattle.report_page.specs.Reading.{FillsRows, ReadsPiece, ReadsRow, StopsWith, end_at};

use crate::piece::is_set;
use crate::row::{PageRow, row_of};
use capture_file::reader::{CaptureReader, NextPacket};
use capture_request::{captured_info, packet_in_frame, packet_without_room, too_long_info};
use std::io::Read;

/// Every row was filled, and the piece can contain further packets.
const FULL: u32 = 0;

/// The piece ends after the last row.
const END: u32 = 1;

/// The piece ends within a record or block.
const CUT_OFF: u32 = 2;

/// A block of a pcapng file is refused.
const REFUSED: u32 = 3;

/// The beginning of the piece is refused.
const BEGINNING_REFUSED: u32 = 4;

/// Reading failed, which no piece in memory does.
const FAILED: u32 = 5;

/// How the rows of a piece end.
#[repr(C)]
#[derive(Clone, Copy)]
pub struct PageEnd {
    /// The number of rows that were filled.
    pub count: u64,
    /// The place of the next record or block, in bytes from the start of the piece.
    pub offset: u64,
    /// If the status is 2: the length of the record or block in bytes, or the length of its header if the header is incomplete.
    pub required_len: u64,
    /// If the status is 2: the number of bytes of the record or block in the piece.
    pub len: u64,
    /// - 0 if every row was filled
    /// - 1 if the piece ends after the last row
    /// - 2 if the piece ends within a record or block
    /// - 3 if a block of a pcapng file is refused
    /// - 4 if the beginning of the piece is refused
    /// - 5 if reading failed, which no piece in memory does
    pub status: u32,
    /// 1 if the piece begins like a pcapng file, and 0 if it is a classic capture, or its beginning is refused.
    pub is_pcapng: u32,
}

/// The end if the beginning of a piece is refused.
const AT_BEGINNING: PageEnd = PageEnd {
    count: 0,
    offset: 0,
    required_len: 0,
    len: 0,
    status: BEGINNING_REFUSED,
    is_pcapng: 0,
};

/// Why the next row can't be filled.
#[derive(Clone, Copy)]
enum Stop {
    End,
    CutOff(u64, u64),
    Refused,
    Failed,
}

/// Reads the packets of a piece into rows, until every row is filled or no packet follows. `end` states how many rows were filled, and why
/// the others were not. `buffer` is room for a packet: a packet that is longer than the buffer is not read, as in the program.
/// `opens_udp_tunnels` is 0 if tunnels in UDP are not opened.
#[unsafe(no_mangle)]
pub extern "C" fn report_page_rows(
    piece: &[u8],
    buffer: &mut [u8],
    opens_udp_tunnels: u8,
    rows: &mut [PageRow],
    end: &mut PageEnd,
)
    ensures { ReadsPiece piece.now (length buffer.old) opens_udp_tunnels rows.old rows.new end.new }
{
    let mut input = piece;
    *end = match CaptureReader::read_header(&mut input, buffer) {
        Ok(Ok(mut reader)) => fill_rows(
            &mut reader,
            &mut input,
            buffer,
            is_set(opens_udp_tunnels),
            rows,
        ),
        Ok(Err(_)) => AT_BEGINNING,
        Err(_) => PageEnd {
            status: FAILED,
            ..AT_BEGINNING
        },
    };
}

/// Reads packets into rows, until every row is filled or no packet follows.
fn fill_rows<R: Read>(
    reader: &mut CaptureReader,
    input: &mut R,
    buffer: &mut [u8],
    opens_udp_tunnels: bool,
    rows: &mut [PageRow],
) -> PageEnd
    ensures { FillsRows (length buffer.old) opens_udp_tunnels reader.old (R.remaining input.old) (R.remaining input.new) reader.new
        rows.new result }
{
    let mut count = 0;
    while count < rows.len() {
        match next_row(reader, input, buffer, opens_udp_tunnels) {
            Ok(row) => {
                rows[count] = row;
                count += 1;
            }
            Err(stop) => return end_at(reader, count, &stop),
        }
    }
    PageEnd {
        status: FULL,
        ..end_at(reader, count, &Stop::End)
    }
}

/// Reads the next packet, and returns its row, or the reason why there is none.
fn next_row<R: Read>(
    reader: &mut CaptureReader,
    input: &mut R,
    buffer: &mut [u8],
    opens_udp_tunnels: bool,
) -> Result<PageRow, Stop>
    ensures row { IfOk result (ReadsRow (length buffer.old) opens_udp_tunnels reader.old (R.remaining input.old) (R.remaining input.new)
        reader.new) }
    ensures stop { IfErr result (StopsWith (length buffer.old) reader.old (R.remaining input.old) (R.remaining input.new) reader.new) }
{
    match reader.next_packet(input, buffer) {
        Ok(NextPacket::Whole(captured)) => {
            let frame = &buffer[captured.start..captured.start + captured.captured_len];
            let packet = packet_in_frame(&captured, frame, opens_udp_tunnels);
            Ok(row_of(reader.offset(), &captured_info(&captured), &packet))
        }
        Ok(NextPacket::TooLong(captured)) => {
            let packet = packet_without_room(captured.required_len);
            Ok(row_of(reader.offset(), &too_long_info(&captured), &packet))
        }
        Ok(NextPacket::End) => Err(Stop::End),
        Ok(NextPacket::CutOff { required_len, len }) => {
            Err(Stop::CutOff(required_len as u64, len as u64))
        }
        Ok(NextPacket::Refused(_)) => Err(Stop::Refused),
        Err(_) => Err(Stop::Failed),
    }
}

/// Returns the end after this number of rows.
fn end_at(reader: &CaptureReader, count: usize, stop: &Stop) -> PageEnd
    ensures { result ≡ end_at reader.now count stop.now }
{
    let (status, required_len, len) = match stop {
        Stop::End => (END, 0, 0),
        Stop::CutOff(required_len, len) => (CUT_OFF, *required_len, *len),
        Stop::Refused => (REFUSED, 0, 0),
        Stop::Failed => (FAILED, 0, 0),
    };
    PageEnd {
        count: count as u64,
        offset: reader.offset(),
        required_len,
        len,
        status,
        is_pcapng: match reader {
            CaptureReader::Classic(_) => 0,
            CaptureReader::Pcapng(_) => 1,
        },
    }
}
