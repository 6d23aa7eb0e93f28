ghost use Rattle.std.specs.Prelude.{◌≡◌};
ghost use Rattle.std.specs.Option.{option_map};
ghost use Rattle.translator.specs.ErrorTexts.{decompressor};

/// The first two bytes of a file of `gzip` (RFC 1952, section 2.3.1).
const GZIP_MAGIC: u32 = 0x1F8B;

/// The first four bytes of a Zstandard frame (RFC 8878, section 3.1.1).
const ZSTANDARD_MAGIC: u32 = 0x28B5_2FFD;

/// The command that decompresses a file whose first four bytes are this big-endian number. `None` if they are not those of a file of `gzip`
/// or `zstd`.
pub(crate) fn decompressor(magic: u32) -> Option<&'static str>
    ensures { option_map (λ command. command.now) result ≡ decompressor magic }
{
    if magic / 0x1_0000 == GZIP_MAGIC {
        return Some("gzip");
    }
    if magic == ZSTANDARD_MAGIC {
        return Some("zstd");
    }
    None
}
