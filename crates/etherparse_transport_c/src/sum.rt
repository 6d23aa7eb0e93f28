ghost use Rattle.std.specs.Prelude.{◌≡◌, ◌+◌, ◌%◌, ◌++◌, List, length, ℕ};
ghost use Rattle.word_sum.specs.Checksum.{complement, folded, total, zero_as_all_ones};
ghost use Rattle.word_sum.specs.SumValue.{sum_value};
ghost use Rattle.etherparse_transport_c.specs.Sums.{total_at};

use etherparse_transport::checksum::Sum16BitWords;

/// A running one's complement sum of 16 bit big-endian words (RFC 1071, section 1). Every number is a possible sum.
#[repr(C)]
#[derive(Clone, Copy)]
pub struct EtherparseSum {
    /// The sum. It is 0 exactly if all added bytes are zeros.
    pub value: u16,
}

/// Converts the sum to the type of `etherparse_transport`.
fn sum_of(value: u16) -> Sum16BitWords
    ensures { sum_value result ≡ value }
{
    Sum16BitWords::new().add_2bytes(value.to_be_bytes())
}

/// Returns the sum after adding the words of some bytes.
pub(crate) fn added(value: u16, bytes: &[u8]) -> u16
    ensures { result ≡ folded (value + total bytes.now) }
{
    !sum_of(value).add_slice(bytes).ones_complement()
}

/// Returns the sum of no bytes.
#[unsafe(no_mangle)]
pub extern "C" fn etherparse_sum_new() -> EtherparseSum
    ensures { result.value ≡ 0 }
{
    EtherparseSum { value: 0 }
}

/// Adds the words of some bytes (RFC 1071, section 1). If the number of bytes is odd, the last byte is the high half of a word. So only the
/// last part that is added may have an odd length.
#[unsafe(no_mangle)]
pub extern "C" fn etherparse_sum_add(sum: EtherparseSum, bytes: &[u8]) -> EtherparseSum
    ensures { result.value ≡ folded (sum.value + total bytes.now) }
{
    EtherparseSum {
        value: added(sum.value, bytes),
    }
}

/// Adds the words of some bytes. The sum already contains the `offset` bytes before them. If `offset` is odd, the first byte is the low
/// half of a word. So each part that is added may have any length (RFC 1071, section 2 (B)).
#[unsafe(no_mangle)]
pub extern "C" fn etherparse_sum_add_at(
    sum: EtherparseSum,
    offset: usize,
    bytes: &[u8],
) -> EtherparseSum
    ensures value { result.value ≡ folded (sum.value + total_at offset bytes.now) }
    // If `sum` covers all bytes before this part, the result covers those bytes and this part.
    ensures joins { (before : List ℕ) → length before % 2 ≡ offset % 2 → sum.value ≡ folded (total before) →
        result.value ≡ folded (total (before ++ bytes.now)) }
{
    if offset % 2 == 0 {
        return etherparse_sum_add(sum, bytes);
    }
    // If the part begins at an odd place, each byte is in the other half of its word. So the two bytes of the part's sum are swapped.
    EtherparseSum {
        value: added(sum.value, &added(0, bytes).to_le_bytes()),
    }
}

/// Returns the checksum of the added bytes, as TCP and ICMP store it (RFC 1071, section 1).
#[unsafe(no_mangle)]
pub extern "C" fn etherparse_sum_checksum(sum: EtherparseSum) -> u16
    ensures { result ≡ complement sum.value }
{
    !sum.value
}

/// Returns the checksum of the added bytes, as UDP stores it: 65535 instead of 0 (RFC 768).
#[unsafe(no_mangle)]
pub extern "C" fn etherparse_sum_udp_checksum(sum: EtherparseSum) -> u16
    ensures { result ≡ zero_as_all_ones (complement sum.value) }
{
    sum_of(sum.value).to_ones_complement_with_no_zero()
}
