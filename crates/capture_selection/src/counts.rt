ghost use Rattle.std.specs.Prelude.{◌≡◌, ◌≤◌, ◌+◌};
ghost use Rattle.capture_request.specs.Limits.{is_full};
ghost use Rattle.capture_selection.specs.Outcomes.{counted};

use crate::Outcome;

/// How many packets of a capture were read, chosen and written. A number that has reached 2^64 - 1 does not change.
#[derive(Clone, Copy, Debug, PartialEq, Eq)]
pub struct Counts {
    /// The packets that were read.
    pub read: u64,
    /// The packets that are chosen, with or without a line in the report.
    pub chosen: u64,
    /// The packets that were written. A requested number of lines limits this number.
    pub written: u64,
}

impl Counts {
    /// The counts before the first packet.
    pub const NONE: Counts = Counts {
        read: 0,
        chosen: 0,
        written: 0,
    };

    /// Counts a packet with this outcome.
    pub fn add(&mut self, outcome: Outcome)
        ensures counted { self.new ≡ counted self.old outcome }
        ensures one { self.new.written ≤ self.old.written + 1 }
    {
        self.read = self.read.saturating_add(1);
        if outcome != Outcome::Excluded {
            self.chosen = self.chosen.saturating_add(1);
        }
        if outcome == Outcome::Written {
            self.written = self.written.saturating_add(1);
        }
    }

    /// Whether the number of written packets has reached this limit. If there is no limit, the result is `false`.
    pub fn is_full(&self, limit: Option<u64>) -> bool
        ensures { result ≡ is_full limit self.now.written }
    {
        match limit {
            Some(limit) => self.written >= limit,
            None => false,
        }
    }
}
