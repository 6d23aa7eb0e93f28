ghost use Rattle.std.specs.Prelude.{◌≡◌, OnOk};
ghost use Rattle.std.specs.Io.KnownBytes.{Appends};
ghost use Rattle.capture_words.specs.FactsText as specs;
ghost use Rattle.capture_file.specs.Packets.{power_of_ten};

use capture_file::ByteOrder;
use capture_file::classic::Resolution;
use capture_file::pcapng::TimeResolution;
use std::io;
use std::io::Write;

/// The word for a byte order, as summaries show it.
pub fn byte_order_word(order: ByteOrder) -> &'static str
    ensures { result.now ≡ specs.byte_order_word order }
{
    match order {
        ByteOrder::BigEndian => "big-endian",
        ByteOrder::LittleEndian => "little-endian",
    }
}

/// Converts the resolution of a classic capture to the type that an interface of a pcapng file uses.
pub fn time_resolution(resolution: Resolution) -> TimeResolution
    ensures { result ≡ power_of_ten resolution }
{
    match resolution {
        Resolution::Microseconds => TimeResolution::PowerOfTen(6),
        Resolution::Nanoseconds => TimeResolution::PowerOfTen(9),
    }
}

/// Writes the unit of times in seconds, as a power of ten or of two: `10^-6 s` for microseconds.
///
/// # Errors
///
/// The error of the writer, if writing fails.
pub fn write_resolution<W: Write>(output: &mut W, resolution: TimeResolution) -> io::Result<()>
    ensures { OnOk result (Appends (W.contents output.old) (W.contents output.new) (specs.resolution_text resolution)) }
{
    match resolution {
        TimeResolution::PowerOfTen(exponent) => write!(output, "10^-{exponent} s"),
        TimeResolution::PowerOfTwo(exponent) => write!(output, "2^-{exponent} s"),
    }
}
