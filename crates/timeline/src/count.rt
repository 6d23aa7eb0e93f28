ghost use Rattle.std.specs.Prelude.{◌≡◌};
ghost use Rattle.timeline.specs.Counts.{count_sum, counted};

/// A number of packets, and the sum of their lengths in bytes. Both numbers saturate at `u64::MAX`.
#[derive(Clone, Copy, Debug, Default, PartialEq, Eq)]
pub struct Count {
    /// The number of packets.
    pub packets: u64,
    /// The number of bytes.
    pub bytes: u64,
}

impl Count {
    /// The count without packets.
    pub const NONE: Count = Count {
        packets: 0,
        bytes: 0,
    };

    /// The count of the packets of both counts.
    pub fn plus(self, other: Count) -> Count
        ensures { result ≡ count_sum self other }
    {
        Count {
            packets: self.packets.saturating_add(other.packets),
            bytes: self.bytes.saturating_add(other.bytes),
        }
    }

    /// Counts one packet of this length in bytes.
    pub(crate) fn add(&mut self, len: u64)
        ensures { self.new ≡ counted len self.old }
    {
        self.packets = self.packets.saturating_add(1);
        self.bytes = self.bytes.saturating_add(len);
    }
}
