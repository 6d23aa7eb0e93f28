ghost use Rattle.std.specs.Prelude.{◌≡◌};
ghost use Rattle.etherparse_transport_c.specs.Version.{version};

/// Returns the version of the interface to C: major times 65536, plus minor times 256, plus patch.
#[unsafe(no_mangle)]
pub extern "C" fn etherparse_version() -> u32
    ensures { result ≡ version }
{
    0x00_05_00
}
