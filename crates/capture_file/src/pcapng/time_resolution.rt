ghost use Rattle.std.specs.Prelude.{◌≡◌, ◌^◌, ◌<◌, None};
ghost use Rattle.std.specs.Option.{SomeIff};
ghost use Rattle.capture_file.specs.PcapngBodies.{resolution_by, time_resolution, units_per_second};

/// The unit of the timestamps of an interface, which the option `if_tsresol` states: a second divided by a power of ten or of two.
#[derive(Clone, Copy, Debug, PartialEq, Eq)]
pub enum TimeResolution {
    /// A second divided by ten to this power: 6 for microseconds, 9 for nanoseconds.
    PowerOfTen(u8),
    /// A second divided by two to this power.
    PowerOfTwo(u8),
}

/// Microseconds, the resolution of an interface without the option `if_tsresol`. The unused places of an `ArrayVec` contain default
/// interfaces.
impl Default for TimeResolution {
    ghost is_default = { λ resolution. resolution ≡ resolution_by None };

    fn default() -> TimeResolution {
        TimeResolution::PowerOfTen(6)
    }
}

impl TimeResolution {
    /// The resolution that the byte of the option states. Its low seven bits are the exponent. Its high bit is 1 for a power of two.
    pub fn from_byte(byte: u8) -> TimeResolution
        ensures { result ≡ time_resolution byte }
    {
        if byte < 128 {
            TimeResolution::PowerOfTen(byte)
        } else {
            TimeResolution::PowerOfTwo(byte - 128)
        }
    }

    /// The number of these units in a second, or `None` if it is 2^64 or more.
    pub fn units_per_second(self) -> Option<u64>
        ensures { SomeIff result (units_per_second self < 2 ^ 64) (units_per_second self) }
    {
        match self {
            TimeResolution::PowerOfTen(exponent) => 10u64.checked_pow(u32::from(exponent)),
            TimeResolution::PowerOfTwo(exponent) => 2u64.checked_pow(u32::from(exponent)),
        }
    }
}
