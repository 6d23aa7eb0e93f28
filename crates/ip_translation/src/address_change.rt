ghost use Rattle.std.specs.Prelude.{◌≡◌, ◌≤◌, ◌+◌, ℕ, length, slice_range};
ghost use Rattle.net_base.specs.PseudoHeader.{ipv4_pseudo_header, ipv6_pseudo_header, max_len_over_ipv4};
ghost use Rattle.word_sum.specs.Checksum.{folded, total};
ghost use Rattle.word_sum.specs.ChecksumChange.{TurnsInto, added_value, removed_value};

use word_sum::checksum_change::ChecksumChange;

/// The change of the pseudo header of UDP and TCP if these IPv6 addresses replace these IPv4 addresses.
#[inline(always)]
pub(crate) fn address_change(
    old_source: [u8; 4],
    old_destination: [u8; 4],
    new_source: [u8; 16],
    new_destination: [u8; 16],
) -> ChecksumChange
    ensures removed { removed_value result ≡ folded (total old_source + total old_destination) }
    ensures added { added_value result ≡ folded (total new_source + total new_destination) }
    ensures turns { (protocol len rest : ℕ) → len ≤ max_len_over_ipv4 → TurnsInto result
        (total (ipv4_pseudo_header old_source old_destination protocol len) + rest)
        (total (ipv6_pseudo_header new_source new_destination protocol len) + rest) }
{
    // Zeros stand in for the addresses of the other version, since they add nothing to a sum.
    ChecksumChange::new()
        .replace_4bytes(old_source, [0; 4])
        .replace_4bytes(old_destination, [0; 4])
        .replace_16bytes([0; 16], new_source)
        .replace_16bytes([0; 16], new_destination)
}

/// The address in the bytes from this place on.
#[inline(always)]
pub(crate) fn address_at<const N: usize>(bytes: &[u8], place: usize) -> [u8; N]
    requires there { place + N ≤ length bytes.now }
    ensures { result ≡ slice_range bytes.now place (place + N) }
{
    *bytes[place..].first_chunk::<N>().unwrap()
}
