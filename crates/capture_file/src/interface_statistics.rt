ghost use Rattle.std.specs.Prelude.{◌≡◌};
ghost use Rattle.capture_file.specs.Texts as specs;

use crate::ByteOrder;
use capture_numbers::option_value;

/// The code of the number of packets that were received from the interface (draft-ietf-opsawg-pcapng, section 4.6).
const ISB_IFRECV: u16 = 4;

/// The code of the number of packets that the interface dropped.
const ISB_IFDROP: u16 = 5;

/// The code of the number of packets that the operating system dropped.
const ISB_OSDROP: u16 = 7;

/// The length of each of these numbers, in bytes.
const COUNT_LEN: u16 = 8;

/// The numbers of packets that an interface statistics block states (draft-ietf-opsawg-pcapng, section 4.6). They are counted from the
/// beginning of the capture. A number is `None` if the block does not state it.
#[derive(Clone, Copy, Debug, Default, PartialEq, Eq)]
pub struct InterfaceStatistics {
    /// The number of packets that were received from the interface: the option `isb_ifrecv`.
    pub received: Option<u64>,
    /// The number of packets that the interface dropped for lack of resources: the option `isb_ifdrop`.
    pub dropped: Option<u64>,
    /// The number of packets that the operating system dropped: the option `isb_osdrop`.
    pub dropped_by_system: Option<u64>,
}

impl InterfaceStatistics {
    /// Returns the statistics among the options of an interface statistics block.
    pub(crate) fn from_options(order: ByteOrder, options: &[u8]) -> InterfaceStatistics
        ensures { result ≡ specs.interface_statistics order options.now }
    {
        let count_of = |code| count_in(order, options, code);
        InterfaceStatistics {
            received: count_of(ISB_IFRECV),
            dropped: count_of(ISB_IFDROP),
            dropped_by_system: count_of(ISB_OSDROP),
        }
    }
}

/// Returns the number in the first option with this code and a value of eight bytes, or `None` if there is no such option.
fn count_in(order: ByteOrder, options: &[u8], code: u16) -> Option<u64>
    ensures { result ≡ specs.count_in order code options.now }
{
    match option_value(order, options, code, Some(COUNT_LEN)) {
        Some(value) => Some(order.long_in(value, 0)),
        None => None,
    }
}
