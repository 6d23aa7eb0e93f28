ghost use Rattle.std.specs.Prelude.{◌≡◌};
ghost use Rattle.report_page.specs.Times.{page_time, time_of};

use capture_file::PacketTime;
use capture_file::pcapng::TimeResolution;

/// The capture time of a packet, as numbers: the fields of a `PacketTime`.
#[repr(C)]
#[derive(Clone, Copy)]
pub struct PageTime {
    /// Whole seconds since the beginning of 1970, before the offset is added.
    pub seconds: u64,
    /// The remaining fraction of a second, in units of the resolution.
    pub fraction: u64,
    /// The number of seconds to add.
    pub offset: i64,
    /// The unit of the fraction is a second divided by the base to this power.
    pub exponent: u8,
    /// 1 if the base is two, and 0 if it is ten.
    pub is_power_of_two: u8,
    /// 1 if the time is known, otherwise 0. Then every other field is 0.
    pub is_known: u8,
}

/// A time that is not known.
pub(crate) const UNKNOWN: PageTime = PageTime {
    seconds: 0,
    fraction: 0,
    offset: 0,
    exponent: 0,
    is_power_of_two: 0,
    is_known: 0,
};

/// Returns a time as numbers.
pub(crate) fn page_time(time: Option<PacketTime>) -> PageTime
    ensures { result ≡ page_time time }
{
    let Some(time) = time else {
        return UNKNOWN;
    };
    let (is_power_of_two, exponent) = match time.resolution {
        TimeResolution::PowerOfTen(exponent) => (0, exponent),
        TimeResolution::PowerOfTwo(exponent) => (1, exponent),
    };
    PageTime {
        seconds: time.seconds,
        fraction: time.fraction,
        offset: time.offset,
        exponent,
        is_power_of_two,
        is_known: 1,
    }
}

/// Returns the time that these numbers state.
pub(crate) fn time_of(time: &PageTime) -> Option<PacketTime>
    ensures { result ≡ time_of time.now }
{
    if time.is_known == 0 {
        return None;
    }
    let resolution = if time.is_power_of_two == 0 {
        TimeResolution::PowerOfTen(time.exponent)
    } else {
        TimeResolution::PowerOfTwo(time.exponent)
    };
    Some(PacketTime {
        seconds: time.seconds,
        fraction: time.fraction,
        resolution,
        offset: time.offset,
    })
}
