ghost use Rattle.std.specs.Prelude.{◌≡◌, IfOk, OnErr, length};
ghost use Rattle.capture_file.specs.CapturePackets.{FailsToRead, IfCutOff, Seeks, offset_of};
ghost use Rattle.capture_file.specs.Opening.{ReadsBeginning};
ghost use Rattle.capture_file.specs.Packets.{IsNextWithin, ReadsRecordPacket, begins_records};
ghost use Rattle.capture_file.specs.PcapngSteps.{ReadsPacket};
ghost use Rattle.capture_file.specs.Reading.{FailsInRecord};

use crate::PacketTime;
use crate::classic::{CaptureHeader, NextRecord, RecordHeader, read_header_after, read_record};
use crate::pcapng::{MIN_BLOCK_LEN, is_section_header};
use crate::reader::{CapturedPacket, NextPacket, OpenError, PcapngReader, TooLongPacket};
use std::io::{self, Read};
use streams::fill;

/// A reader of the packets of a capture in either format.
#[derive(Clone, Debug, Drop)]
pub enum CaptureReader {
    /// A reader of a classic capture.
    Classic(ClassicReader),
    /// A reader of a pcapng file.
    Pcapng(PcapngReader),
}

impl CaptureReader {
    /// Reads the beginning of a capture: the header of a classic capture, or the first block of a pcapng file. The block is read into the
    /// buffer. If the beginning is refused, the inner result is the reason.
    ///
    /// # Errors
    ///
    /// The error of the first read that fails.
    pub fn read_header<R: Read>(
        input: &mut R,
        buffer: &mut [u8],
    ) -> io::Result<Result<CaptureReader, OpenError>>
        ensures { IfOk result (ReadsBeginning (R.remaining input.old) (R.remaining input.new) buffer.new) }
    {
        let mut first = [0u8; MIN_BLOCK_LEN];
        let len = fill(input, &mut first)?;
        if is_section_header(&first[..len]) {
            return match PcapngReader::open(input, &first[..len], buffer)? {
                Ok(reader) => Ok(Ok(CaptureReader::Pcapng(reader))),
                Err(error) => Ok(Err(OpenError::Pcapng(error))),
            };
        }
        match read_header_after(input, &first[..len])? {
            Ok(header) => Ok(Ok(CaptureReader::Classic(ClassicReader::new(header)))),
            Err(error) => Ok(Err(OpenError::Classic(error))),
        }
    }

    /// Reads the next item of the capture. If the item is a whole packet, the buffer contains its captured bytes after the call.
    ///
    /// # Errors
    ///
    /// The error of the first read that fails. For a pcapng file it can also be `FileTooLarge`, as `PcapngReader::next_packet` describes.
    pub fn next_packet<R: Read>(
        &mut self,
        input: &mut R,
        buffer: &mut [u8],
    ) -> io::Result<NextPacket>
        ensures reads { IfOk result (ReadsPacket self.old (R.remaining input.old) (R.remaining input.new) self.new buffer.new) }
        ensures within { IfOk result (IsNextWithin (length buffer.new)) }
        // If reading fails within a record or block, or the capture ends within it, the reader is at the start of this record or block.
        ensures fails { OnErr result (FailsToRead (length buffer.old) self.old (R.remaining input.old) (R.remaining input.new) self.new) }
        ensures cut_off { IfOk result (λ next. IfCutOff next (Seeks (length buffer.new) self.old (R.remaining input.old) self.new)) }
    {
        match self {
            CaptureReader::Classic(reader) => reader.next_packet(input, buffer),
            CaptureReader::Pcapng(reader) => reader.next_packet(input, buffer),
        }
    }

    /// Returns the place at which the next record or block begins, in bytes from the start of the file. The count stops at 2^64 - 1.
    pub fn offset(&self) -> u64
        ensures { result ≡ offset_of self.now }
    {
        match self {
            CaptureReader::Classic(reader) => reader.offset,
            CaptureReader::Pcapng(reader) => reader.offset,
        }
    }
}

/// A reader of the packets of a classic capture.
#[derive(Clone, Debug, Drop)]
pub struct ClassicReader {
    /// The header of the capture.
    pub header: CaptureHeader,
    /// The place at which the next record begins, in bytes from the start of the file. The count stops at 2^64 - 1.
    pub offset: u64,
}

impl ClassicReader {
    /// Returns a reader at the first record of a capture, directly after this header.
    pub fn new(header: CaptureHeader) -> ClassicReader
        ensures { result ≡ begins_records header }
    {
        let offset = CaptureHeader::LEN as u64;
        ClassicReader { header, offset }
    }

    /// Reads the next item of the capture. If the item is a whole packet, its captured bytes are at the front of the buffer after the call.
    ///
    /// # Errors
    ///
    /// The error of the first read that fails.
    pub fn next_packet<R: Read>(
        &mut self,
        input: &mut R,
        buffer: &mut [u8],
    ) -> io::Result<NextPacket>
        ensures reads { IfOk result (ReadsRecordPacket self.old (R.remaining input.old) (R.remaining input.new) self.new buffer.new) }
        ensures within { IfOk result (IsNextWithin (length buffer.new)) }
        ensures unchanged { OnErr result (self.new ≡ self.old) }
        ensures fails { OnErr result (FailsInRecord self.old.header.byte_order (R.remaining input.old) (R.remaining input.new)) }
    {
        let next = read_record(input, self.header.byte_order, buffer)?;
        if let NextRecord::Whole(record) | NextRecord::TooLong(record) = next {
            let len = RecordHeader::LEN as u64 + u64::from(record.captured_len);
            self.offset = self.offset.saturating_add(len);
        }
        Ok(match next {
            NextRecord::Whole(record) => {
                NextPacket::Whole(CapturedPacket::from_record(self.header, record))
            }
            NextRecord::TooLong(record) => NextPacket::TooLong(TooLongPacket {
                link_type: Some(self.header.link_type),
                time: Some(PacketTime::from_record(self.header.resolution, record.time)),
                required_len: record.captured_len,
                original_len: Some(record.original_len),
            }),
            NextRecord::End => NextPacket::End,
            NextRecord::CutOff { required_len, len } => NextPacket::CutOff { required_len, len },
        })
    }
}
