//! The records of a classic capture (draft-ietf-opsawg-pcap, section 5).

ghost use Rattle.std.specs.Prelude.{◌≡◌, ◌<◌, ◌≤◌, ℕ, List, Ok, Option, false, true};
ghost use Rattle.std.specs.Io.KnownBytes.{Consumes, IsAtEnd};
ghost use Rattle.capture_copy.specs.Passing.{PassesAny, PassesGiven, PassesTo};
ghost use Rattle.capture_copy.specs.Records.{first_records, passed, records_of};
ghost use Rattle.capture_copy.specs.Visits.{EndsWithEnough};
ghost use Rattle.capture_copy.specs.declared.copier.TheConstants.{BUFFER_LEN};
ghost use Rattle.capture_copy.specs.declared.part_error.PartError.TheVariants.{CutOff};
ghost use Rattle.capture_copy.specs.declared.extent.Extent.TheVariants.{Whole};
ghost use Rattle.capture_file.specs.Classic.{record_header};

use crate::transfer::{pass_long, read_into, write_if};
use crate::visitor::count_if;
use crate::{BUFFER_LEN, Copier, Extent, PartError, Place, Visitor};
use capture_file::PacketTime;
use capture_file::classic::{CaptureHeader, RecordHeader};
use capture_file::reader::CapturedPacket;
use std::io::{Read, Write};

/// The state of a copy after some records of a classic capture.
#[derive(Clone, Copy, Debug, PartialEq, Eq)]
pub struct Records {
    /// The header of the capture.
    pub header: CaptureHeader,
    /// The place of the next record.
    pub place: Place,
}

impl Records {
    /// Returns the state before the first record of a capture with this header.
    pub fn after(header: CaptureHeader) -> Records
        ensures { result ≡ first_records header }
    {
        Records {
            header,
            place: Place {
                number: 1,
                offset: CaptureHeader::LEN as u64,
            },
        }
    }

    /// Moves the place past a record with this header.
    fn pass(&mut self, header: &RecordHeader)
        ensures { self.new ≡ passed self.old header.now }
    {
        let len = RecordHeader::LEN as u64 + u64::from(header.captured_len);
        self.place.number = self.place.number.saturating_add(1);
        self.place.offset = self.place.offset.saturating_add(len);
    }

    /// The error of a capture that ends within the next record.
    fn cut_off(&self, required_len: usize, len: usize) -> PartError
        ensures { result ≡ CutOff self.now.place required_len len }
    {
        PartError::CutOff {
            place: self.place,
            required_len,
            len,
        }
    }
}

/// Copies the records of a classic capture, and visits the packet of each record. Returns how far the capture was copied.
///
/// # Errors
///
/// `CutOff` and `Read` contain the place of the record in which the copy ended. `Write` is the error of the first write that fails.
/// `TooManyParts` is returned only after `Visitor::max_parts` records.
pub fn copy_records<R: Read, W: Write, V: Visitor>(
    copier: &mut Copier<'_, R, W>,
    records: &mut Records,
    visitor: &V,
    counts: &mut V::Counts,
) -> Result<Extent, PartError>
    ensures passes { PassesTo (records_of (V.visits visitor.now)) result records.old records.new (R.remaining copier.old.input)
        (R.remaining copier.new.input) (W.contents copier.old.output) (W.contents copier.new.output) counts.old counts.new }
    ensures ends { result ≡ Ok Whole → IsAtEnd (R.remaining copier.new.input) }
    ensures enough { EndsWithEnough (V.is_enough visitor.now counts.new) result }
    ensures none { V.is_enough visitor.now counts.old ≡ true → counts.new ≡ counts.old }
    ensures holds { V.holds visitor.now counts.old → V.holds visitor.now counts.new }
{
    for _record in 0..visitor.max_parts() {
        if visitor.is_enough(counts) {
            return Ok(Extent::Enough);
        }
        let is_record = copy_record(copier, records, visitor, counts)?;
        if !is_record {
            return Ok(Extent::Whole);
        }
    }
    Err(PartError::TooManyParts)
}

/// Copies the next record, and visits its packet. Returns `false` if there is no next record.
fn copy_record<R: Read, W: Write, V: Visitor>(
    copier: &mut Copier<'_, R, W>,
    records: &mut Records,
    visitor: &V,
    counts: &mut V::Counts,
) -> Result<bool, PartError>
    ensures passes { PassesAny (records_of (V.visits visitor.now)) result records.old records.new (R.remaining copier.old.input)
        (R.remaining copier.new.input) (W.contents copier.old.output) (W.contents copier.new.output) counts.old counts.new }
    ensures ends { result ≡ Ok false → IsAtEnd (R.remaining copier.new.input) }
    ensures holds { V.is_enough visitor.now counts.old ≡ false → V.holds visitor.now counts.old → V.holds visitor.now counts.new }
{
    let mut first = [0u8; RecordHeader::LEN];
    let len = read_into(&mut copier.input, &mut first, records.place)?;
    if len == 0 {
        return Ok(false);
    }
    if len < RecordHeader::LEN {
        write_if(&mut copier.output, &first[..len], &[], visitor.writes_all())?;
        return Err(records.cut_off(RecordHeader::LEN, len));
    }
    let outcome = copy_headed(copier, records, &first, visitor)?;
    count_if(visitor, counts, outcome);
    Ok(true)
}

/// Copies a record whose header was already read, and returns the outcome of its packet.
fn copy_headed<R: Read, W: Write, V: Visitor>(
    copier: &mut Copier<'_, R, W>,
    records: &mut Records,
    first: &[u8; RecordHeader::LEN],
    visitor: &V,
) -> Result<Option<V::Outcome>, PartError>
    ensures passes { (left : Option (List ℕ)) → Consumes left (R.remaining copier.old.input) first.now
        → PassesGiven (records_of (V.visits visitor.now)) result
        records.old records.new left (R.remaining copier.new.input) (W.contents copier.old.output) (W.contents copier.new.output) }
{
    let header = RecordHeader::from_bytes(records.header.byte_order, first);
    if header.captured_len as usize > BUFFER_LEN {
        copy_long(copier, records, first, &header, visitor)
    } else {
        copy_kept(copier, records, first, &header, visitor)
    }
}

/// Reads the captured bytes of a record into the buffer, and visits its packet.
fn copy_kept<R: Read, W: Write, V: Visitor>(
    copier: &mut Copier<'_, R, W>,
    records: &mut Records,
    first: &[u8; RecordHeader::LEN],
    header: &RecordHeader,
    visitor: &V,
) -> Result<Option<V::Outcome>, PartError>
    requires header { header.now ≡ record_header records.old.header.byte_order first.now }
    requires room { header.now.captured_len ≤ BUFFER_LEN }
    ensures passes { (left : Option (List ℕ)) → Consumes left (R.remaining copier.old.input) first.now
        → PassesGiven (records_of (V.visits visitor.now)) result
        records.old records.new left (R.remaining copier.new.input) (W.contents copier.old.output) (W.contents copier.new.output) }
{
    let writes_all = visitor.writes_all();
    let frame = &mut copier.buffer[..header.captured_len as usize];
    let len = match read_into(&mut copier.input, frame, records.place) {
        Ok(len) => len,
        Err(error) => {
            write_if(&mut copier.output, first, &[], writes_all)?;
            return Err(error);
        }
    };
    if len < frame.len() {
        write_if(&mut copier.output, first, &frame[..len], writes_all)?;
        let required_len = RecordHeader::LEN + frame.len();
        return Err(records.cut_off(required_len, RecordHeader::LEN + len));
    }
    let packet = CapturedPacket::from_record(records.header, *header);
    let outcome = visitor.visit(&packet, frame);
    let is_written = visitor.is_written(outcome);
    write_if(&mut copier.output, first, frame, is_written)?;
    records.pass(header);
    Ok(Some(outcome))
}

/// Reads the captured bytes of a record that do not fit in the buffer. If the capture ends within the record, the bytes before the end may
/// have been written.
fn copy_long<R: Read, W: Write, V: Visitor>(
    copier: &mut Copier<'_, R, W>,
    records: &mut Records,
    first: &[u8; RecordHeader::LEN],
    header: &RecordHeader,
    visitor: &V,
) -> Result<Option<V::Outcome>, PartError>
    requires header { header.now ≡ record_header records.old.header.byte_order first.now }
    requires room { BUFFER_LEN < header.now.captured_len }
    ensures passes { (left : Option (List ℕ)) → Consumes left (R.remaining copier.old.input) first.now
        → PassesGiven (records_of (V.visits visitor.now)) result
        records.old records.new left (R.remaining copier.new.input) (W.contents copier.old.output) (W.contents copier.new.output) }
{
    let time = PacketTime::from_record(records.header.resolution, header.time);
    let outcome = visitor.visit_long(header.captured_len, Some(time));
    let captured_len = header.captured_len as usize;
    let is_written = visitor.is_written(outcome);
    let len = pass_long(copier, first, captured_len, is_written, records.place)?;
    if len < captured_len {
        let required_len = RecordHeader::LEN + captured_len;
        return Err(records.cut_off(required_len, RecordHeader::LEN + len));
    }
    records.pass(header);
    Ok(Some(outcome))
}
