ghost use Rattle.std.specs.Prelude.{◌≡◌, ◌≤◌, ◌<◌, ◌+◌, ◌%◌, ◌==◌, ◌↔◌, IsTrue, MatchBool, MatchOption, List, length, ℕ};
ghost use Rattle.net_base.specs.Bytes.{be_number};
ghost use Rattle.net_base.specs.StoredChecksum.{icmp_checksum_place};
ghost use Rattle.word_sum.specs.Checksum.{IsAllOnes, folded, total};
ghost use Rattle.word_sum.specs.SumValue.{sum_value};
ghost use Rattle.transport_part.specs.Verdicts.{JudgesBy, VerifiesUpTo, sum_without};
ghost use Rattle.transport_part.specs.declared.checksum_verdict.ChecksumVerdict.TheVariants as verdicts;

use crate::ChecksumVerdict;
use word_sum::checksum::Sum16BitWords;

/// The sum of an ICMPv4 message. Its checksum, in bytes 2 and 3, counts as zeros.
#[inline(always)]
pub(crate) fn sum_but_checksum(message: &[u8]) -> Sum16BitWords
    requires { 4 ≤ length message.now }
    ensures { sum_value result ≡ sum_without 0 icmp_checksum_place message.now }
{
    Sum16BitWords::new()
        .add_2bytes([message[0], message[1]])
        .add_slice(&message[4..])
}

/// The sum of a pseudo header and a packet. The checksum, stored in the two bytes at `place`, counts as zeros. `None` if the stored
/// checksum is right, which means that the sum with it is all ones. All bytes are summed once, and then the stored checksum is subtracted.
/// This requires a pseudo header whose sum is not 0. The function is inlined, since each caller knows the place.
#[inline(always)]
pub(crate) fn sum_unless_right(
    pseudo_header: Sum16BitWords,
    packet: &[u8],
    place: usize,
) -> Option<Sum16BitWords>
    requires some { 0 < sum_value pseudo_header }
    requires there { place + 2 ≤ length packet.now }
    requires even { place % 2 ≡ 0 }
    ensures { MatchOption result
        (IsAllOnes (sum_without (sum_value pseudo_header) place packet.now + be_number packet.now place 2))
        (λ sum. (sum_value sum ≡ sum_without (sum_value pseudo_header) place packet.now)
        × (¬ IsAllOnes (sum_without (sum_value pseudo_header) place packet.now + be_number packet.now place 2))) }
{
    let sum = pseudo_header.add_slice(packet);
    if sum.ones_complement() == 0 {
        return None;
    }
    let stored = u16::from_be_bytes([packet[place], packet[place + 1]]);
    Some(sum.add_2bytes((!stored).to_be_bytes()))
}

/// Whether the stored checksum is right: it gives all ones together with this sum, which does not include it.
#[inline(always)]
pub(crate) fn is_all_ones_with(sum: Sum16BitWords, stored: u16) -> bool
    ensures { IsTrue result ↔ IsAllOnes (sum_value sum + stored) }
{
    sum.add_2bytes(stored.to_be_bytes()).ones_complement() == 0
}

/// The verdict on a wrong checksum: `Partial` if it is the sum of only the pseudo header, otherwise `Wrong`.
#[inline(always)]
pub(crate) fn wrong_or_partial(
    pseudo_header: Sum16BitWords,
    stored: u16,
    expected: u16,
) -> ChecksumVerdict
    ensures { MatchBool (stored == sum_value pseudo_header) (result ≡ verdicts.Partial expected) (result ≡ verdicts.Wrong expected) }
{
    let partial = u16::MAX - pseudo_header.ones_complement();
    if stored == partial {
        ChecksumVerdict::Partial { expected }
    } else {
        ChecksumVerdict::Wrong { expected }
    }
}

/// The verdict on a packet that stores its checksum in the two bytes at `place`. The sum of its pseudo header is given. The function is
/// inlined, since each caller knows the place.
#[inline(always)]
pub(crate) fn judged(pseudo_header: Sum16BitWords, packet: &[u8], place: usize) -> ChecksumVerdict
    requires some { 0 < sum_value pseudo_header }
    requires there { place + 2 ≤ length packet.now }
    requires even { place % 2 ≡ 0 }
    ensures { (max_len : ℕ) (pseudo_header_of : ℕ → List ℕ) → length packet.now ≤ max_len
        → sum_value pseudo_header ≡ folded (total (pseudo_header_of (length packet.now)))
        → JudgesBy (VerifiesUpTo max_len pseudo_header_of) (folded (total (pseudo_header_of (length packet.now)))) place packet.now result }
{
    match sum_unless_right(pseudo_header, packet, place) {
        Some(sum) => {
            let stored = u16::from_be_bytes([packet[place], packet[place + 1]]);
            wrong_or_partial(pseudo_header, stored, sum.ones_complement())
        }
        None => ChecksumVerdict::Right,
    }
}
