ghost use Rattle.std.specs.Prelude.{◌≡◌, ◌↔◌, ◌<◌, IsSome, map, slice_index};
ghost use Rattle.capture_summary.specs.Kinds as specs;
ghost use Rattle.capture_summary.specs.Kinds.{verdict_place, verdict_refusal_kind, verdict_rows, verdict_word};
ghost use Rattle.capture_summary.specs.declared.verdict_kind.VerdictKind.{VerdictKind};
ghost use Rattle.capture_summary.specs.declared.verdict_kind.VerdictKind.TheVariants as kinds;

use capture_packet::Verdict;
use transport_part::{ChecksumVerdict, Untested};

/// The kind of a verdict, without its fields. It is a row of the table of checksums.
#[derive(Clone, Copy, Debug, PartialEq, Eq)]
pub enum VerdictKind {
    /// The stored checksum is right.
    Right,
    /// The stored checksum is wrong.
    Wrong,
    /// The stored checksum is the sum of only the pseudo header.
    Partial,
    /// The packet has no checksum.
    Absent,
    /// The packet is a fragment.
    Fragment,
    /// Only the first bytes of the packet are present.
    CutOff,
    /// The IP header states no length.
    LengthMissing,
    /// The final destination is not known.
    UnknownDestination,
    /// The packet is of another protocol.
    OtherProtocol,
    /// The packet has more bytes than the buffer can contain, or more bytes than a pseudo header can count.
    TooLong,
    /// The packet is refused.
    Refused,
}

impl VerdictKind {
    /// The number of rows in the table of checksums.
    pub const COUNT: usize = 11;

    /// The word for this kind, which is the name of its row.
    pub fn name(self) -> &'static str
        ensures { result.now ≡ verdict_word self }
    {
        match self {
            VerdictKind::Right => "right",
            VerdictKind::Wrong => "wrong",
            VerdictKind::Partial => "not filled in",
            VerdictKind::Absent => "none",
            VerdictKind::Fragment => "fragment",
            VerdictKind::CutOff => "cut off",
            VerdictKind::LengthMissing => "no length stated",
            VerdictKind::UnknownDestination => "final destination unknown",
            VerdictKind::OtherProtocol => "another protocol",
            VerdictKind::TooLong => "too long",
            VerdictKind::Refused => "refused",
        }
    }

    /// The kind of a verdict.
    pub fn of(verdict: &Verdict) -> VerdictKind
        ensures kind { result ≡ specs.verdict_kind verdict.now }
        ensures refused { IsSome (verdict_refusal_kind verdict.now) ↔ (result ≡ kinds.Refused) }
    {
        match verdict {
            Verdict::Checksum(verdict) => match verdict {
                ChecksumVerdict::Right => VerdictKind::Right,
                ChecksumVerdict::Wrong { .. } => VerdictKind::Wrong,
                ChecksumVerdict::Partial { .. } => VerdictKind::Partial,
                ChecksumVerdict::Absent => VerdictKind::Absent,
                ChecksumVerdict::Untested(reason) => VerdictKind::of_untested(*reason),
            },
            Verdict::LengthMissing => VerdictKind::LengthMissing,
            Verdict::TooLong { .. } => VerdictKind::TooLong,
            Verdict::Refused(_) => VerdictKind::Refused,
        }
    }

    /// Returns the kind of a verdict on a checksum that is not tested. A UDP packet whose length field is 0 is refused, unless it is a
    /// jumbogram.
    pub fn of_untested(reason: Untested) -> VerdictKind
        ensures { result ≡ specs.untested_kind reason }
    {
        match reason {
            Untested::Fragment => VerdictKind::Fragment,
            Untested::CutOff => VerdictKind::CutOff,
            Untested::UnknownDestination => VerdictKind::UnknownDestination,
            Untested::OtherProtocol => VerdictKind::OtherProtocol,
            Untested::ZeroLength => VerdictKind::Refused,
            Untested::TooLong => VerdictKind::TooLong,
        }
    }

    /// The place of the row in the table.
    #[inline(always)]
    pub fn place(self) -> usize
        ensures place { result ≡ verdict_place self }
        ensures below { result < 11 }
        ensures one_kind { (other : VerdictKind) → verdict_place other ≡ result → other ≡ self }
    {
        self as usize
    }

    /// The rows of the table in their order, each with its name and count. `counts` contains the count of a row at its place.
    pub(crate) fn rows(
        counts: &[u64; VerdictKind::COUNT],
    ) -> [(&'static str, u64); VerdictKind::COUNT]
        ensures { map (λ row. (row.0.now, row.1)) result ≡ verdict_rows counts.now }
    {
        [
            VerdictKind::Right.row(counts),
            VerdictKind::Wrong.row(counts),
            VerdictKind::Partial.row(counts),
            VerdictKind::Absent.row(counts),
            VerdictKind::Fragment.row(counts),
            VerdictKind::CutOff.row(counts),
            VerdictKind::LengthMissing.row(counts),
            VerdictKind::UnknownDestination.row(counts),
            VerdictKind::OtherProtocol.row(counts),
            VerdictKind::TooLong.row(counts),
            VerdictKind::Refused.row(counts),
        ]
    }

    /// The name of the row, and its count.
    fn row(self, counts: &[u64; VerdictKind::COUNT]) -> (&'static str, u64)
        ensures name { result.0.now ≡ verdict_word self }
        ensures count { result.1 ≡ slice_index counts.now (verdict_place self) }
    {
        (self.name(), counts[self.place()])
    }
}
