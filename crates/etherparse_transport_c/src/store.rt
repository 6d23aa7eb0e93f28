ghost use Rattle.std.specs.Prelude.{◌≡◌, ◌+◌, ◌≤◌, length};
ghost use Rattle.etherparse_transport_c.specs.Checksums.{with_checksum};

/// Stores a checksum in the two bytes that begin at `place`, high byte first.
#[tactic(auto, unfolding(crate::specs::Checksums::with_checksum))]
pub(crate) fn store(bytes: &mut [u8], place: usize, checksum: u16)
    requires { place + 2 ≤ length bytes.old }
    ensures { bytes.new ≡ with_checksum place bytes.old checksum }
{
    bytes[place..place + 2].copy_from_slice(&checksum.to_be_bytes());
}
