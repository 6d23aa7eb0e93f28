//! Laws of the records of a capture. Each law is the contract of a function, so that the law is checked together with the calls. All
//! functions except `count_records` do nothing.
ghost use Rattle.std.specs.Prelude.{◌≡◌, ℕ, IfOk, IfSome, List, length};
ghost use Rattle.capture_file.specs.Classic.{AreBeforeCut, IsReading};
ghost use Rattle.capture_file.specs.Laws.{AreUnique, Exist, RemainAtCut};
ghost use Rattle.capture_numbers.specs.declared.byte_order.ByteOrder.{ByteOrder};

use crate::ByteOrder;
use crate::classic::{NextRecord, read_record};
use std::io::{self, ErrorKind, Read};

/// Any bytes can be divided into records, one after the other, and a rest that does not begin with a whole record. Only one division
/// exists.
pub fn one_reading()
    ensures exists { (order : ByteOrder) (bytes : List ℕ) → Exist (IsReading order bytes) }
    ensures unique { (order : ByteOrder) (bytes : List ℕ) → AreUnique (IsReading order bytes) }
{}

/// If a capture is cut after any number of bytes, it contains exactly the records that end at or before the cut.
pub fn cut_captures()
    ensures before { (order : ByteOrder) → RemainAtCut (IsReading order) (λ _. AreBeforeCut) }
{}

/// Reads records to the end of a capture, and returns their number. The records are read into the buffer, which may have any length.
///
/// # Errors
///
/// The error of the first read that fails, and `FileTooLarge` after 2^64 - 1 records.
pub fn count_records<R: Read>(input: &mut R, order: ByteOrder, buffer: &mut [u8]) -> io::Result<u64>
    ensures { IfOk result (λ count. IfSome (R.remaining input.old) (λ all.
        (records : List (List ℕ)) × (rest : List ℕ) × IsReading order all records rest × (count ≡ length records))) }
{
    for count in 0..u64::MAX {
        match read_record(input, order, buffer)? {
            NextRecord::Whole(_) | NextRecord::TooLong(_) => {}
            NextRecord::End | NextRecord::CutOff { .. } => return Ok(count),
        }
    }
    Err(io::Error::from(ErrorKind::FileTooLarge))
}
