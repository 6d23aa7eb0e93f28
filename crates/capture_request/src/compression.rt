ghost use Rattle.std.specs.Prelude.{◌≡◌};
ghost use Rattle.capture_request.specs.Compressions.{compression_name, compression_with};

/// A compression format of files. The report refuses a compressed capture.
#[derive(Clone, Copy, Debug, PartialEq, Eq)]
pub enum Compression {
    /// The format of `gzip` (RFC 1952).
    Gzip,
    /// The format of `compress`, which `gzip` can decompress.
    Compress,
    /// The format of `zstd` (RFC 8878).
    Zstandard,
    /// The format of `xz`.
    Xz,
    /// The format of `bzip2`.
    Bzip2,
    /// The frame format of `lz4`.
    Lz4,
}

/// The first two bytes of a file of `gzip` (RFC 1952, section 2.3.1).
const GZIP_MAGIC: u32 = 0x1F8B;

/// The first two bytes of a file of `compress`.
const COMPRESS_MAGIC: u32 = 0x1F9D;

/// The first four bytes of a Zstandard frame (RFC 8878, section 3.1.1).
const ZSTANDARD_MAGIC: u32 = 0x28B5_2FFD;

/// The first four of the six bytes that begin a file of `xz` (the .xz file format, section 2.1.1.1).
const XZ_MAGIC: u32 = 0xFD37_7A58;

/// The first four bytes of an LZ4 frame: 184D2204, with the least significant byte first (LZ4 frame format, general structure).
const LZ4_MAGIC: u32 = 0x0422_4D18;

/// The first four bytes of a file of `bzip2` with the smallest blocks: `BZh1`. The digit is the size of the blocks.
const FIRST_BZIP2_MAGIC: u32 = 0x425A_6831;

/// The first four bytes of a file of `bzip2` with the largest blocks: `BZh9`.
const LAST_BZIP2_MAGIC: u32 = 0x425A_6839;

impl Compression {
    /// Returns the compression of a file. `magic` contains its first four bytes as a big-endian number. The result is `None` if the file
    /// has none of these formats.
    pub fn from_magic(magic: u32) -> Option<Compression>
        ensures { result ≡ compression_with magic }
    {
        match magic / 0x1_0000 {
            GZIP_MAGIC => return Some(Compression::Gzip),
            COMPRESS_MAGIC => return Some(Compression::Compress),
            _ => {}
        }
        match magic {
            ZSTANDARD_MAGIC => Some(Compression::Zstandard),
            XZ_MAGIC => Some(Compression::Xz),
            LZ4_MAGIC => Some(Compression::Lz4),
            _ if magic >= FIRST_BZIP2_MAGIC && magic <= LAST_BZIP2_MAGIC => {
                Some(Compression::Bzip2)
            }
            _ => None,
        }
    }

    /// Returns the name of the command that decompresses the file.
    pub fn command(self) -> &'static str
        ensures { result.now ≡ compression_name self }
    {
        match self {
            Compression::Gzip | Compression::Compress => "gzip",
            Compression::Zstandard => "zstd",
            Compression::Xz => "xz",
            Compression::Bzip2 => "bzip2",
            Compression::Lz4 => "lz4",
        }
    }
}
