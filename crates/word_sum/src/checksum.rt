//! The running sum from which checksums are computed (RFC 1071).

#[cfg(test)]
mod tests;

ghost use Rattle.std.specs.Int.{from_bool};
ghost use Rattle.std.specs.Prelude.{◌≡◌, ◌+◌, ◌*◌, ◌<◌, ◌^◌, length};
ghost use Rattle.word_sum.specs.Checksum.{folded, total};

/// A running one's complement sum of 16 bit big-endian words (RFC 1071, section 1).
///
/// The sum is stored in 64 bits, and is folded to 16 bits only when a checksum is computed. 2^16 is 1 modulo 65535, so a number of any
/// width is equivalent to the sum of its words. Hence bytes can be added eight at a time (RFC 1071, section 2 (C)). The numbers are
/// little-endian, as most machines read them. So the two bytes of the folded sum are swapped once (RFC 1071, section 2 (B)).
///
/// ```
/// use etherparse_transport::checksum::Sum16BitWords;
///
/// let bytes = [0x00, 0x01, 0xF2, 0x03, 0xF4, 0xF5, 0xF6, 0xF7];
/// let sum = Sum16BitWords::new().add_slice(&bytes);
/// assert_eq!(rt; sum.ones_complement(), 0x220D);
/// // A receiver adds the checksum too, and the result is 0.
/// assert_eq!(rt; sum.add_2bytes([0x22, 0x0D]).ones_complement(), 0);
/// ```
#[derive(Clone, Copy)]
pub struct Sum16BitWords {
    // perf: little-endian numbers save a byte swap for each number.
    word: u64,
}

/// The length of a block, in bytes. The numbers of a block are added with one chain of carries.
// perf: a chain adds eight bytes by one instruction. In Rust, compiled by rustc 1.95 for x86-64-v2, the sum of 64, 200
// and 256 bytes executes 58, 84 and 94 instructions. With a carry for each number up to 192 bytes, and above that two
// sums without a carry, it executed 70, 161 and 174. With blocks of 64 bytes, 9,000 bytes take a seventh longer (27
// Nov 2026).
const BLOCK_LEN: usize = 128;

impl Sum16BitWords {
    ghost use Rattle.std.specs.Prelude.{◌%◌, ◌-◌, ◌++◌, List, ℕ, drop};
    ghost use Rattle.std.specs.List.{concat};
    ghost use Rattle.word_sum.specs.Checksum.{complement, sum_of_pieces, zero_as_all_ones, AllEvenButLast};
    ghost use Rattle.word_sum.specs.SumValue.{sum_value};

    /// An empty sum.
    pub fn new() -> Sum16BitWords
        ensures { sum_value result ≡ 0 }
    {
        Sum16BitWords { word: 0 }
    }

    /// Adds one word.
    pub fn add_2bytes(self, value: [u8; 2]) -> Sum16BitWords
        ensures { sum_value result ≡ folded (sum_value self + total value) }
    {
        self.add_number(u64::from(u16::from_le_bytes(value)))
    }

    /// Adds two words.
    pub fn add_4bytes(self, value: [u8; 4]) -> Sum16BitWords
        ensures { sum_value result ≡ folded (sum_value self + total value) }
    {
        self.add_number(u64::from(u32::from_le_bytes(value)))
    }

    /// Adds eight words, for example an IPv6 address.
    pub fn add_16bytes(self, value: [u8; 16]) -> Sum16BitWords
        ensures { sum_value result ≡ folded (sum_value self + total value) }
    {
        let [a, b, c, d, e, f, g, h, i, j, k, l, m, n, o, p] = value;
        self.add_8bytes([a, b, c, d, e, f, g, h])
            .add_8bytes([i, j, k, l, m, n, o, p])
    }

    /// Adds the words of a slice. If the length is odd, the last byte is the high half of a word whose low half is zero. So only the last
    /// of several slices may have an odd length. Otherwise it does not matter where the data is cut into slices (RFC 1071, section 2 (A)).
    pub fn add_slice(self, slice: &[u8]) -> Sum16BitWords
        ensures sum { sum_value result ≡ folded (sum_value self + total slice.now) }
        // If the length of the front is even, adding the front and then the back gives the same sum as adding the slice.
        ensures cuts { (front : List ℕ) → (back : List ℕ) → slice.now ≡ front ++ back → length front % 2 ≡ 0 →
            sum_value result ≡ folded (folded (sum_value self + total front) + total back) }
        // If all pieces except the last have an even length, adding them one after the other gives the same sum as adding the slice.
        ensures pieces { (pieces : List (List ℕ)) → slice.now ≡ concat pieces → AllEvenButLast pieces →
            sum_value result ≡ sum_of_pieces (sum_value self) pieces }
    {
        self.add_bytes(slice)
    }

    /// The checksum of the added data, as TCP and ICMP store it.
    pub fn ones_complement(&self) -> u16
        ensures { result ≡ complement (sum_value self.now) }
    {
        !fold_to_16_bits(fold_to_32_bits(self.word)).swap_bytes()
    }

    /// The checksum of the added data, as UDP stores it: 65535 instead of 0 (RFC 768).
    pub fn to_ones_complement_with_no_zero(&self) -> u16
        ensures { result ≡ zero_as_all_ones (complement (sum_value self.now)) }
    {
        match self.ones_complement() {
            0 => u16::MAX,
            checksum => checksum,
        }
    }

    /// Adds four words.
    #[inline]
    fn add_8bytes(self, value: [u8; 8]) -> Sum16BitWords
        ensures { sum_value result ≡ folded (sum_value self + total value) }
    {
        self.add_number(u64::from_le_bytes(value))
    }

    /// Adds a little-endian number. It is equivalent to the sum of its four words, whose bytes are swapped.
    fn add_number(self, number: u64) -> Sum16BitWords
        ensures { sum_value result ≡ folded (sum_value self + number * 256) }
    {
        let sum = self.word.wrapping_add(number);
        // If the sum wrapped, it is below `number`. So adding the carry at the low end cannot overflow.
        Sum16BitWords {
            word: sum + u64::from(sum < number),
        }
    }

    /// Adds the words of a slice: its numbers of eight bytes, and the bytes after the last number.
    #[inline(always)]
    fn add_bytes(self, slice: &[u8]) -> Sum16BitWords
        ensures { sum_value result ≡ folded (sum_value self + total slice.now) }
    {
        match slice.last_chunk::<8>() {
            Some(last) => {
                let end_len = slice.len() % 8;
                self.add_end(last, end_len)
                    .add_numbers(&slice[..slice.len() - end_len])
            }
            None => self.add_up_to_7bytes(slice),
        }
    }

    /// Adds the last `count` bytes of eight bytes.
    #[inline(always)]
    fn add_end(self, bytes: &[u8; 8], count: usize) -> Sum16BitWords
        requires { count < 8 }
        ensures { sum_value result ≡ folded (sum_value self + total (drop (8 - count) bytes.now)) }
    {
        // `count` is at most 7, so the first byte is never added. Two shifts are used, since one shift by 64 bits is not possible.
        let number = u64::from_le_bytes(*bytes) >> 8;
        self.add_number(number >> (56 - 8 * count))
    }

    /// Adds the words of a slice that consists of numbers of eight bytes.
    #[inline(always)]
    fn add_numbers(self, numbers: &[u8]) -> Sum16BitWords
        requires { length numbers.now % 8 ≡ 0 }
        ensures { sum_value result ≡ folded (sum_value self + total numbers.now) }
    {
        let mut sum = self;
        let mut rest = numbers;
        while let Some((block, others)) = rest.split_first_chunk::<BLOCK_LEN>() {
            // The sum of a block begins at 0, so that it does not wait for the blocks before it.
            let block_sum = Sum16BitWords::new().add_block(block);
            sum = sum.add_number(block_sum.word);
            rest = others;
        }
        sum.add_short(rest)
    }

    /// Adds the words of a slice that consists of numbers of eight bytes, and is shorter than a block.
    #[inline(always)]
    fn add_short(self, numbers: &[u8]) -> Sum16BitWords
        requires whole { length numbers.now % 8 ≡ 0 }
        requires short { length numbers.now < BLOCK_LEN }
        ensures { sum_value result ≡ folded (sum_value self + total numbers.now) }
    {
        let (sum, rest) = self.add_front::<64>(numbers);
        let (sum, rest) = sum.add_front::<32>(rest);
        let (sum, rest) = sum.add_front::<16>(rest);
        let (sum, _) = sum.add_front::<8>(rest);
        sum
    }

    /// Adds the first `N` bytes if the slice has at least `N` bytes. Returns the sum and the bytes that are left.
    #[inline(always)]
    fn add_front<const N: usize>(self, numbers: &[u8]) -> (Sum16BitWords, &[u8])
        requires whole { N % 8 ≡ 0 }
        requires small { N < BLOCK_LEN }
        requires twice { length numbers.now < 2 * N }
        ensures sum { folded (sum_value result.0 + total result.1.now) ≡ folded (sum_value self + total numbers.now) }
        ensures shorter { length result.1.now < N }
        ensures whole { length result.1.now % 8 ≡ length numbers.now % 8 }
    {
        match numbers.split_first_chunk::<N>() {
            Some((block, others)) => (self.add_block(block), others),
            None => (self, numbers),
        }
    }

    /// Adds the numbers of a block. Each carry is added to the next number. The last carry is added at the low end.
    #[inline(always)]
    fn add_block<const N: usize>(self, block: &[u8; N]) -> Sum16BitWords
        requires { N % 8 ≡ 0 }
        ensures { sum_value result ≡ folded (sum_value self + total block.now) }
    {
        let mut word = self.word;
        let mut carry = false;
        let mut rest = block.as_slice();
        while let Some((chunk, others)) = rest.split_first_chunk::<8>() {
            let (sum, carried) = add_with_carry(word, u64::from_le_bytes(*chunk), carry);
            word = sum;
            carry = carried;
            rest = others;
        }
        // After a carry the word is at most 2^64 - 2, so this cannot overflow.
        Sum16BitWords {
            word: word + u64::from(carry),
        }
    }

    /// Adds the last 0 to 7 bytes.
    #[inline]
    fn add_up_to_7bytes(self, bytes: &[u8]) -> Sum16BitWords
        requires { length bytes.now < 8 }
        ensures { sum_value result ≡ folded (sum_value self + total bytes.now) }
    {
        match bytes.split_first_chunk::<4>() {
            Some((words, others)) => self.add_4bytes(*words).add_up_to_3bytes(others),
            None => self.add_up_to_3bytes(bytes),
        }
    }

    /// Adds the last 0 to 3 bytes.
    #[inline]
    fn add_up_to_3bytes(self, bytes: &[u8]) -> Sum16BitWords
        requires { length bytes.now < 4 }
        ensures { sum_value result ≡ folded (sum_value self + total bytes.now) }
    {
        match bytes {
            [high, low, odd] => self.add_2bytes([*high, *low]).add_2bytes([*odd, 0]),
            [high, low] => self.add_2bytes([*high, *low]),
            [odd] => self.add_2bytes([*odd, 0]),
            _ => self,
        }
    }
}

/// Adds a number and a carry. Returns the sum and the new carry.
// perf: for `u64::carrying_add` the toolchain stores each carry in a register. For these comparisons it emits one instruction that adds
// with carry (27 Nov 2026).
#[inline(always)]
fn add_with_carry(word: u64, number: u64, carry: bool) -> (u64, bool)
    ensures { result.0 + from_bool result.1 * 2 ^ 64 ≡ word + number + from_bool carry }
{
    let sum = word.wrapping_add(number);
    let next = sum.wrapping_add(u64::from(carry));
    (next, (sum < number) | (next < sum))
}

/// Adds the upper 32 bits of a number to its lower 32 bits, and then the carry at the low end.
fn fold_to_32_bits(number: u64) -> u32
    ensures { folded result ≡ folded number }
{
    let upper = (number >> 32) as u32;
    let lower = (number & 0xffff_ffff) as u32;
    let sum = upper.wrapping_add(lower);
    sum + u32::from(sum < lower)
}

/// Adds the upper 16 bits of a number to its lower 16 bits, and then the carry at the low end.
fn fold_to_16_bits(number: u32) -> u16
    ensures { folded result ≡ folded number }
{
    let upper = (number >> 16) as u16;
    let lower = (number & 0xffff) as u16;
    let sum = upper.wrapping_add(lower);
    sum + u16::from(sum < lower)
}
