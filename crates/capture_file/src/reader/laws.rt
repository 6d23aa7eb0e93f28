//! Laws of the packets of a capture. Each law is the contract of a function that does nothing. So the prover checks the law together with
//! the calls.
ghost use Rattle.std.specs.Prelude.{◌<◌, ◌^◌, ℕ, List, length};
ghost use Rattle.capture_file.specs.CapturePackets.{AreFirstPackets, ArePacketsBeforeCut, HasPackets};
ghost use Rattle.capture_file.specs.Interfaces.{KeepsOwnTexts};
ghost use Rattle.capture_file.specs.Laws.{AreUnique, Exist, RemainAtCut};
ghost use Rattle.capture_file.specs.PacketTexts.{KeepsOwnComments};
ghost use Rattle.capture_file.specs.PacketsOfBlocks.{FilesHavePacketsOfBlocks, ReadPacketsOfBlocks};
ghost use Rattle.capture_file.specs.Places.{OffsetsArePlaces};
ghost use Rattle.capture_file.specs.Readers.{LeavesOneReader};
ghost use Rattle.capture_file.specs.declared.reader.capture_reader.CaptureReader.{CaptureReader};

/// A capture consists of its beginning, exactly one list of packets, and exactly one item that ends the list. The packets that a reader
/// returns are the first packets of this list.
pub fn one_list()
    ensures exists { (room : ℕ) (reader : CaptureReader) (bytes : List ℕ) → Exist (HasPackets room reader bytes) }
    ensures unique { (room : ℕ) (reader : CaptureReader) (bytes : List ℕ) → AreUnique (HasPackets room reader bytes) }
    ensures first { (room : ℕ) (reader : CaptureReader) (bytes : List ℕ) → AreFirstPackets room reader bytes }
{}

/// If a capture is cut after its beginning, it contains exactly the packets whose record or block ends at or before the cut.
pub fn cut_packets()
    ensures before { (room : ℕ) (reader : CaptureReader) → RemainAtCut (HasPackets room reader) (ArePacketsBeforeCut room reader) }
{}

/// The packets of a pcapng file are the packets in its blocks. Each packet belongs to an interface that its section describes before the
/// packet.
pub fn packets_of_blocks()
    ensures read { (room : ℕ) → ReadPacketsOfBlocks room }
    ensures file { (room : ℕ) → FilesHavePacketsOfBlocks room }
{}

/// Each interface of the current section and the texts with its number come from the same block. So the name of an interface never comes
/// from an earlier section. This holds at the beginning of a file and after each packet.
pub fn own_texts()
    ensures { (room : ℕ) → KeepsOwnTexts room }
{}

/// After each packet of a pcapng file the reader keeps the comments of exactly the block that contains the packet.
pub fn own_comments()
    ensures { KeepsOwnComments }
{}

/// If a file has fewer than 2^64 bytes, the offset of a reader is the number of bytes before the next record or block.
pub fn places()
    ensures { (room : ℕ) (file : List ℕ) → length file < 2 ^ 64 → OffsetsArePlaces room file }
{}

/// After any number of packets, the state of the reader depends only on the bytes of the capture. This is also true after the item that
/// ends the packets. The state contains the interfaces, the texts, and the number of packets with a comment.
pub fn one_reader()
    ensures { (room : ℕ) (reader : CaptureReader) (bytes : List ℕ) → LeavesOneReader room reader bytes }
{}
