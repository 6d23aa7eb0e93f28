//! Laws of the blocks of a pcapng file. Each law is the contract of a function that does nothing, so that the law is checked together with
//! the calls.
ghost use Rattle.std.specs.Prelude.{◌≡◌, ◌++◌, ℕ, List, None, take};
ghost use Rattle.capture_file.specs.Classic.{AreBeforeCut};
ghost use Rattle.capture_file.specs.Laws.{AreUnique, Exist, RemainAtCut};
ghost use Rattle.capture_file.specs.Pcapng.{IsBlock, IsBlockReading, block_len, block_refusal};
ghost use Rattle.capture_numbers.specs.declared.byte_order.ByteOrder.{ByteOrder};

/// Bytes that `Block::from_slice` accepts begin with a block. If bytes begin with a block, `Block::from_slice` accepts them, whatever
/// follows the block.
pub fn accepted_blocks()
    ensures begins { (section : ByteOrder) (bytes : List ℕ) → block_refusal section bytes ≡ None
        → IsBlock section (take (block_len section bytes) bytes) }
    ensures accepted { (section : ByteOrder) (block more : List ℕ) → IsBlock section block
        → block_refusal section (block ++ more) ≡ None }
{}

/// Any bytes can be divided into blocks, one after the other, and a rest that is refused as a block. Only one division exists.
pub fn one_reading()
    ensures exists { (section : ByteOrder) (bytes : List ℕ) → Exist (IsBlockReading section bytes) }
    ensures unique { (section : ByteOrder) (bytes : List ℕ) → AreUnique (IsBlockReading section bytes) }
{}

/// If a file is cut after any number of bytes, it contains exactly the blocks that end at or before the cut.
pub fn cut_files()
    ensures before { (section : ByteOrder) → RemainAtCut (IsBlockReading section) (λ _. AreBeforeCut) }
{}
