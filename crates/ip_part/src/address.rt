ghost use Rattle.std.specs.Prelude.{◌≡◌, ◌≤◌, ◌+◌, length, slice_range};

/// The IPv4 address that begins at the offset `place`.
#[inline(always)]
pub(crate) fn ipv4_address(bytes: &[u8], place: usize) -> &[u8; 4]
    requires { place + 4 ≤ length bytes.now }
    ensures { result.now ≡ slice_range bytes.now place (place + 4) }
{
    bytes[place..place + 4].as_array().unwrap()
}

/// The IPv6 address that begins at the offset `place`.
#[inline(always)]
pub(crate) fn ipv6_address(bytes: &[u8], place: usize) -> &[u8; 16]
    requires { place + 16 ≤ length bytes.now }
    ensures { result.now ≡ slice_range bytes.now place (place + 16) }
{
    bytes[place..place + 16].as_array().unwrap()
}
