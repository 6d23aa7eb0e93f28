ghost use Rattle.std.specs.Prelude.{◌≡◌, ◌<◌, ◌≤◌, ◌+◌, ◌-◌, ◌^◌};
ghost use Rattle.capture_summary.specs.Files.{file_counted, file_sum};

use crate::{Count, VerdictKind};

/// The counted packets of a capture, which are a row of the table of files.
#[derive(Clone, Copy, Debug, Default, PartialEq, Eq)]
pub struct FileCount {
    /// The number of packets, and the sum of their lengths.
    pub all: Count,
    /// How many of the packets have a wrong checksum.
    pub wrong: u64,
    /// How many of the packets are refused.
    pub refused: u64,
}

impl FileCount {
    /// The count without packets.
    pub const NONE: FileCount = FileCount {
        all: Count::NONE,
        wrong: 0,
        refused: 0,
    };

    /// Counts one packet with a verdict of this kind, and of this length in bytes.
    pub(crate) fn add(&mut self, verdict: VerdictKind, len: u64)
        requires room { self.old.all.packets < 2 ^ 64 - 1 }
        requires faults { self.old.wrong + self.old.refused ≤ self.old.all.packets }
        ensures counted { self.new ≡ file_counted verdict len self.old }
        ensures faults { self.new.wrong + self.new.refused ≤ self.new.all.packets }
    {
        self.all.add(len);
        match verdict {
            VerdictKind::Wrong => self.wrong += 1,
            VerdictKind::Refused => self.refused += 1,
            _ => {}
        }
    }

    /// The count of the packets of both counts. Each number saturates at `u64::MAX`.
    pub(crate) fn plus(self, other: FileCount) -> FileCount
        ensures { result ≡ file_sum self other }
    {
        FileCount {
            all: Count {
                packets: self.all.packets.saturating_add(other.all.packets),
                bytes: self.all.bytes.saturating_add(other.all.bytes),
            },
            wrong: self.wrong.saturating_add(other.wrong),
            refused: self.refused.saturating_add(other.refused),
        }
    }
}
