ghost use Rattle.std.specs.Prelude.{◌≡◌, ◌<◌, ◌-◌, ◌^◌};
ghost use Rattle.capture_summary.specs.Tables.{counted, no_packets};

/// A number of packets, and the sum of their lengths in bytes.
#[derive(Clone, Copy, Debug, Default, PartialEq, Eq)]
pub struct Count {
    /// The number of packets.
    pub packets: u64,
    /// The number of bytes. The sum saturates at `u64::MAX`.
    pub bytes: u64,
}

impl Count {
    /// The count without packets.
    pub const NONE: Count = Count {
        packets: 0,
        bytes: 0,
    };

    /// Counts one packet of this length in bytes.
    #[inline(always)]
    pub fn add(&mut self, len: u64)
        requires { self.old.packets < 2 ^ 64 - 1 }
        ensures { self.new ≡ counted len self.old }
    {
        self.packets += 1;
        self.bytes = self.bytes.saturating_add(len);
    }
}
