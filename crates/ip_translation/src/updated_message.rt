ghost use Rattle.std.specs.Prelude.{◌≡◌, ◌≢◌, ◌≤◌, List, ℕ, length};
ghost use Rattle.net_base.specs.StoredChecksum.{with_checksum};
ghost use Rattle.word_sum.specs.ChecksumChange.{added_value, removed_value};
ghost use Rattle.word_sum.specs.UpdatedChecksum.{updated_checksum_of, updated_udp_checksum_of};
ghost use Rattle.ip_translation.specs.PacketsToIpv6 as specs;
ghost use Rattle.ip_translation.specs.PseudoHeaders.{AreTurned};

use crate::message_translation::{TCP_CHECKSUM_AT, UDP_CHECKSUM_AT, number, store_checksum};
use word_sum::checksum_change::ChecksumChange;

/// Writes a UDP packet with its checksum updated for this change of the pseudo header.
#[inline(always)]
pub(crate) fn write_updated_udp(translated: &mut [u8], packet: &[u8], change: ChecksumChange)
    requires room { length translated.old ≡ length packet.now }
    requires there { 8 ≤ length packet.now }
    ensures written { translated.new
        ≡ with_checksum 6 packet.now (updated_udp_checksum_of (specs.udp_checksum packet.now) (removed_value change) (added_value change)) }
    // Assume that the old packet has a checksum, and that the change turns the old pseudo headers into the new ones. Then a receiver
    // accepts the packet exactly if it accepted the old packet.
    ensures alike { specs.udp_checksum packet.now ≢ 0 → (old new : ℕ → List ℕ) → AreTurned change old new →
        specs.VerifiesAlike 8 old new packet.now translated.new }
{
    let checksum = change.apply_udp(number(packet, UDP_CHECKSUM_AT));
    translated.copy_from_slice(packet);
    store_checksum(translated, UDP_CHECKSUM_AT, checksum);
}

/// Writes a TCP segment with its checksum updated for this change of the pseudo header.
#[inline(always)]
pub(crate) fn write_updated_tcp(translated: &mut [u8], segment: &[u8], change: ChecksumChange)
    requires room { length translated.old ≡ length segment.now }
    requires there { 18 ≤ length segment.now }
    ensures written { translated.new
        ≡ with_checksum 16 segment.now (updated_checksum_of (specs.tcp_checksum segment.now) (removed_value change) (added_value change)) }
    // Assume that the change turns the old pseudo headers into the new ones. Then a receiver accepts the segment exactly if it accepted the
    // old segment.
    ensures alike { (old new : ℕ → List ℕ) → AreTurned change old new → specs.VerifiesAlike 18 old new segment.now translated.new }
{
    let checksum = change.apply(number(segment, TCP_CHECKSUM_AT));
    translated.copy_from_slice(segment);
    store_checksum(translated, TCP_CHECKSUM_AT, checksum);
}
