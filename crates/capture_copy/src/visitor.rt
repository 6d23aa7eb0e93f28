//! What is done with the packets of a capture that is copied.

ghost use Rattle.std.specs.Prelude.{◌≡◌, Option, false, fold, true};
ghost use Rattle.std.specs.Option.{option_to_list};
ghost use Rattle.capture_copy.specs.Visits.{is_written_with};

use capture_file::PacketTime;
use capture_file::reader::CapturedPacket;

/// Decides about each packet of a capture that is copied: whether the packet is written, and with which bytes.
pub trait Visitor {
    /// What became of a packet.
    type Outcome: Copy;
    /// How many packets had each outcome.
    type Counts;

    ghost use Rattle.std.specs.Prelude.{◌≡◌, Bool, true, false};
    ghost use Rattle.capture_copy.specs.Visits.{Visits};

    /// What holds for the outcomes of packets, and what the outcomes mean.
    ghost visits: { Self → Visits Self.Outcome Self.Counts };
    /// Whether enough packets were read, after these counts.
    ghost is_enough: { Self → Self.Counts → Bool };
    /// What stays true of the counts while packets are counted.
    ghost holds: { Self → Self.Counts → Type 0 };

    /// Returns the outcome of the packet with these captured bytes. The visitor can change the bytes. If the packet is written, the changed
    /// bytes are written.
    fn visit(&self, packet: &CapturedPacket, frame: &mut [u8]) -> Self::Outcome
        ensures { (visits self.now).visits packet.now frame.old frame.new result };

    /// Returns the outcome of a packet that does not fit in the buffer, which needs `required_len` bytes. `time` is the time of the packet,
    /// or `None` if the time is unknown. If the packet is written, it is written as it was read.
    fn visit_long(&self, required_len: u32, time: Option<PacketTime>) -> Self::Outcome
        ensures { (visits self.now).visits_long required_len time result };

    /// Returns whether a packet with this outcome is written. If every packet is written, this packet is.
    fn is_written(&self, outcome: Self::Outcome) -> bool
        ensures written { result ≡ (visits self.now).is_written outcome }
        ensures each { (visits self.now).writes_all ≡ true → result ≡ true };

    /// Returns whether every packet is written. Then the first bytes of a packet are also written if the capture ends within the packet.
    fn writes_all(&self) -> bool
        ensures { result ≡ (visits self.now).writes_all };

    /// Returns the maximum number of records or blocks that are read.
    fn max_parts(&self) -> u64
        ensures { result ≡ (visits self.now).max_parts };

    /// Counts a packet with this outcome. What holds of the counts stays true, unless enough packets were read before.
    fn count(&self, counts: &mut Self::Counts, outcome: Self::Outcome)
        ensures counted { counts.new ≡ (visits self.now).counted counts.old outcome }
        ensures holds { is_enough self.now counts.old ≡ false → holds self.now counts.old → holds self.now counts.new };

    /// Returns whether enough packets were read. Then no other packet is read.
    fn is_enough(&self, counts: &Self::Counts) -> bool
        ensures { result ≡ is_enough self.now counts.now };
}

/// Counts a packet with this outcome, or nothing if the outcome is `None`.
pub(crate) fn count_if<V: Visitor>(visitor: &V, counts: &mut V::Counts, outcome: Option<V::Outcome>)
    ensures counted { counts.new ≡ fold (V.visits visitor.now).counted counts.old (option_to_list outcome) }
    ensures holds { V.is_enough visitor.now counts.old ≡ false → V.holds visitor.now counts.old → V.holds visitor.now counts.new }
{
    if let Some(outcome) = outcome {
        visitor.count(counts, outcome);
    }
}

/// Whether a block whose packet has this outcome is written. A block without a packet is written, and its outcome is `None`.
pub(crate) fn is_written<V: Visitor>(visitor: &V, outcome: Option<V::Outcome>) -> bool
    ensures written { result ≡ is_written_with (V.visits visitor.now) outcome }
    ensures each { (V.visits visitor.now).writes_all ≡ true → result ≡ true }
{
    match outcome {
        Some(outcome) => visitor.is_written(outcome),
        None => true,
    }
}
