ghost use Rattle.std.specs.Prelude.{◌≡◌, ◌+◌, ◌%◌, ◌≤◌, ◌++◌, length};
ghost use Rattle.tcp_part.specs.TcpOptions.{max_options_len};

use arrayvec::ArrayVec;

/// Appends options: at most 40 bytes, whose number is a multiple of 4.
///
/// Each arm copies constant lengths, so it is compiled to a few moves. A copy of a length that is unknown at compile
/// time would be a call. The parts of all arms begin at the same places, so that the numbers stay in registers. Bytes
/// that were stored in parts of one length take long to load in parts of another length.
#[inline(always)]
pub(crate) fn append_words<const CAP: usize>(bytes: &mut ArrayVec<u8, CAP>, words: &[u8])
    requires room { length bytes.old.items + length words.now ≤ CAP }
    requires bound { length words.now ≤ max_options_len }
    requires whole_words { length words.now % 4 ≡ 0 }
    ensures { bytes.new.items ≡ bytes.old.items ++ words.now }
{
    match words.len() {
        0 => {}
        4 => append_parts::<CAP, 4, 0, 0>(bytes, words),
        8 => append_parts::<CAP, 8, 0, 0>(bytes, words),
        12 => append_parts::<CAP, 8, 4, 0>(bytes, words),
        16 => append_parts::<CAP, 16, 0, 0>(bytes, words),
        20 => append_parts::<CAP, 16, 4, 0>(bytes, words),
        24 => append_parts::<CAP, 16, 8, 0>(bytes, words),
        28 => append_parts::<CAP, 16, 8, 4>(bytes, words),
        32 => append_parts::<CAP, 16, 16, 0>(bytes, words),
        36 => append_parts::<CAP, 16, 16, 4>(bytes, words),
        _ => append_parts::<CAP, 16, 16, 8>(bytes, words),
    }
}

/// Appends bytes in three parts, of `A`, `B` and `C` bytes.
#[inline(always)]
fn append_parts<const CAP: usize, const A: usize, const B: usize, const C: usize>(
    bytes: &mut ArrayVec<u8, CAP>,
    added: &[u8],
)
    requires len { length added.now ≡ A + B + C }
    requires room { length bytes.old.items + (A + B + C) ≤ CAP }
    ensures { bytes.new.items ≡ bytes.old.items ++ added.now }
{
    let (first, others) = added.split_at(A);
    let (second, third) = others.split_at(B);
    append_array::<CAP, A>(bytes, first);
    append_array::<CAP, B>(bytes, second);
    append_array::<CAP, C>(bytes, third);
}

/// Appends `N` bytes.
#[inline(always)]
fn append_array<const CAP: usize, const N: usize>(bytes: &mut ArrayVec<u8, CAP>, added: &[u8])
    requires len { length added.now ≡ N }
    requires room { length bytes.old.items + N ≤ CAP }
    ensures { bytes.new.items ≡ bytes.old.items ++ added.now }
{
    let array = added.first_chunk::<N>().unwrap();
    bytes.try_extend_from_slice(array).unwrap();
}
