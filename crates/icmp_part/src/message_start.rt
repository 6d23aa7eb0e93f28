ghost use Rattle.std.specs.Prelude.{◌≡◌, ◌+◌, ◌≤◌, ◌++◌, IfErr, IfOk, drop, length};
ghost use Rattle.net_base.specs.Refusals as specs;
ghost use Rattle.net_base.specs.Refusals.{RefusesExactly, no_room};

use arrayvec::ArrayVec;
use net_base::err::{Layer, LenError};
use net_base::wrong_length;
use std::marker::Model;
use word_sum::checksum::Sum16BitWords;

/// The first eight bytes of a header without the checksum: type, code, and bytes 4 to 7.
///
/// Type and code are stored as one number, and bytes 4 to 7 as another number. The lowest byte of each number is the first byte. So each
/// kind of message makes numbers of the same width, and the eight bytes become one number that is stored at once.
#[derive(Drop)]
pub(crate) struct MessageStart {
    type_and_code: u32,
    bytes5to8: u32,
}

impl Model for MessageStart {
    ghost use Rattle.std.specs.Prelude.{◌<◌, ◌%◌, ◌/◌, ◌^◌};
    ghost use Rattle.std.specs.Int.{to_le_bytes, w32};
    ghost use Rattle.icmp_part.specs.MessageFormat.{Written};

    ghost Value = { Written };

    ghost view = { λ start. record {
      type = start.type_and_code % 256;
      code = start.type_and_code / 256;
      fields = to_le_bytes w32 start.bytes5to8;
    } };

    ghost invariant = { λ start. (start.type_and_code < 2 ^ 16) × (start.bytes5to8 < 2 ^ 32) };
}

impl MessageStart {
    ghost use Rattle.word_sum.specs.Checksum.{folded, total};
    ghost use Rattle.word_sum.specs.SumValue.{sum_value};
    ghost use Rattle.icmp_part.specs.MessageFormat.{header_bytes};

    /// The start with these fields.
    #[inline(always)]
    #[tactic(auto, using(std::proofs::lemmas::Nat::le_bytes_4))]
    pub(crate) fn new(type_u8: u8, code_u8: u8, bytes5to8: [u8; 4]) -> MessageStart
        ensures made { result ≡ record { type = type_u8; code = code_u8; fields = bytes5to8 } }
        ensures fits { length bytes5to8 ≡ 4 }
    {
        MessageStart {
            type_and_code: u32::from(type_u8) + u32::from(code_u8) * 0x100,
            bytes5to8: u32::from_le_bytes(bytes5to8),
        }
    }

    /// The type (byte 0).
    #[inline(always)]
    pub(crate) fn type_u8(self) -> u8
        ensures { result ≡ self.type }
    {
        (self.type_and_code % 0x100) as u8
    }

    /// The code (byte 1).
    #[inline(always)]
    pub(crate) fn code_u8(self) -> u8
        ensures { result ≡ self.code }
    {
        (self.type_and_code / 0x100) as u8
    }

    /// The eight bytes of the header with this checksum.
    #[inline(always)]
    pub(crate) fn to_array(self, checksum: u16) -> [u8; 8]
        ensures { result ≡ header_bytes self checksum }
    {
        // perf: the header is one number, so that it is stored by one instruction. As eight single bytes it took eight moves, or sixteen
        // instructions to join the bytes (27 Nov 2026).
        let number = u64::from(self.type_and_code)
            + u64::from(checksum.swap_bytes()) * 0x1_0000
            + u64::from(self.bytes5to8) * 0x1_0000_0000;
        number.to_le_bytes()
    }

    /// The eight bytes of the header with this checksum, as a list with room for more bytes.
    // perf: each byte is pushed by itself, and the compiler writes all of them together. Extending by a slice first stores the bytes
    // elsewhere, and takes twice as long.
    #[inline(always)]
    pub(crate) fn to_bytes<const CAPACITY: usize>(self, checksum: u16) -> ArrayVec<u8, CAPACITY>
        requires { 8 ≤ CAPACITY }
        ensures { result.items ≡ header_bytes self checksum }
    {
        let [type_u8, code_u8, high, low, a, b, c, d] = self.to_array(checksum);
        let mut bytes = ArrayVec::new();
        bytes.push(type_u8);
        bytes.push(code_u8);
        bytes.push(high);
        bytes.push(low);
        bytes.push(a);
        bytes.push(b);
        bytes.push(c);
        bytes.push(d);
        bytes
    }

    /// Adds the words of the eight bytes to a sum. The checksum counts as zero.
    #[inline(always)]
    pub(crate) fn add_to(self, sum: Sum16BitWords) -> Sum16BitWords
        ensures { sum_value result ≡ folded (sum_value sum + total (header_bytes self 0)) }
    {
        sum.add_2bytes((self.type_and_code as u16).to_le_bytes())
            .add_4bytes(self.bytes5to8.to_le_bytes())
    }
}

/// Writes these bytes to the front of the slice, and returns their number. The rest of the slice is not changed. Returns a `LenError` of
/// this layer if the slice is too short.
#[inline(always)]
pub(crate) fn write_array<const N: usize>(
    slice: &mut [u8],
    layer: Layer,
    bytes: [u8; N],
) -> Result<usize, LenError>
    ensures refused { RefusesExactly result (no_room layer bytes.entry (length slice.old)) }
    ensures len { IfOk result (λ len. len ≡ length bytes.entry) }
    ensures written { IfOk result (λ len. slice.new ≡ bytes.entry ++ drop len slice.old) }
    ensures unchanged { IfErr result (λ _. slice.new ≡ slice.old) }
{
    let len = slice.len();
    let Some(front) = slice.first_chunk_mut::<N>() else {
        return Err(wrong_length(layer, N, len));
    };
    *front = bytes;
    Ok(N)
}

/// The error for a packet of length `len` whose layer requires another length. Both lengths are in bytes.
// perf: as a call, the refusal is out of the way of accepted packets, as in `UdpHeader::from_slice` (27 Nov 2026).
#[cold]
#[inline(never)]
pub(crate) fn wrong_packet_length(layer: Layer, required_len: usize, len: usize) -> LenError
    ensures { result ≡ specs.wrong_length layer required_len len }
{
    wrong_length(layer, required_len, len)
}
