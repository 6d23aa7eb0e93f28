ghost use Rattle.std.specs.Prelude.{◌≡◌, ◌≤◌, length, IfOk};
ghost use Rattle.net_base.specs.Refusals.{RefusesExactly};
ghost use Rattle.capture_file.specs.Classic.{form_of, header_refusal, magic_error, IsHeaderOf};

use crate::classic::{CaptureHeaderError, Resolution};
use crate::pcapng::is_section_header;
use crate::{ByteOrder, LinkType};

/// The header of a capture (draft-ietf-opsawg-pcap, section 4).
#[derive(Clone, Copy, Debug, PartialEq, Eq)]
pub struct CaptureHeader {
    /// The byte order of the numbers in the capture.
    pub byte_order: ByteOrder,
    /// The unit of the fractions in the times of the records.
    pub resolution: Resolution,
    /// The maximum number of captured bytes of a packet (`SnapLen`). A record with more captured bytes is read too.
    pub snap_len: u32,
    /// The link type of each record, or the number of a link type that is not read.
    pub link_type: Result<LinkType, u16>,
}

/// The magic number of the modified format of older Linux systems (libpcap's `KUZNETZOV_TCPDUMP_MAGIC`).
const MODIFIED_MAGIC: u32 = 0xA1B2_CD34;

/// The major version that is read (draft-ietf-opsawg-pcap, section 4).
const MAJOR_VERSION: u16 = 2;

/// The least minor version that is read (draft-ietf-opsawg-pcap, section 4).
const LEAST_MINOR_VERSION: u16 = 4;

impl CaptureHeader {
    /// The length of the header, in bytes.
    pub const LEN: usize = 24;

    /// Reads a header: the magic number in bytes 0 to 3, the version in bytes 4 to 7, and the snap length in bytes 16 to 19. The link type
    /// is in the low 16 bits of bytes 20 to 23.
    ///
    /// # Errors
    ///
    /// In this order:
    /// - `Pcapng` if the bytes begin a pcapng file
    /// - `Modified` if the bytes begin with the magic number of the modified format, in either byte order
    /// - `Magic` if the first four bytes are not a magic number in either byte order
    /// - `Version` if the major version is not 2, or the minor version is below 4
    pub fn from_bytes(bytes: &[u8; 24]) -> Result<CaptureHeader, CaptureHeaderError>
        ensures refused { RefusesExactly result (header_refusal bytes.now) }
        ensures read { IfOk result (IsHeaderOf bytes.now) }
    {
        CaptureHeader::from_slice(bytes)
    }

    /// Reads a header as `from_bytes` does. Fewer than 24 bytes are refused with `CutOff`, or with `Pcapng` if they begin a pcapng file.
    pub(crate) fn from_slice(bytes: &[u8]) -> Result<CaptureHeader, CaptureHeaderError>
        ensures refused { RefusesExactly result (header_refusal bytes.now) }
        ensures read { IfOk result (IsHeaderOf bytes.now) }
    {
        if is_section_header(bytes) {
            return Err(CaptureHeaderError::Pcapng);
        }
        let len = bytes.len();
        if len < CaptureHeader::LEN {
            return Err(CaptureHeaderError::CutOff { len });
        }
        let Some((byte_order, resolution)) = form_of(bytes) else {
            return Err(magic_error(bytes));
        };
        let (major, minor) = (byte_order.short_in(bytes, 4), byte_order.short_in(bytes, 6));
        if major != MAJOR_VERSION || minor < LEAST_MINOR_VERSION {
            return Err(CaptureHeaderError::Version { major, minor });
        }
        let number = (byte_order.number_in(bytes, 20) % 0x1_0000) as u16;
        Ok(CaptureHeader {
            byte_order,
            resolution,
            snap_len: byte_order.number_in(bytes, 16),
            link_type: LinkType::from_number(number).ok_or(number),
        })
    }
}

/// The error for a file whose first four bytes are not a magic number that is read.
fn magic_error(bytes: &[u8]) -> CaptureHeaderError
    requires { 4 ≤ length bytes.now }
    ensures { result ≡ magic_error bytes.now }
{
    let magic = ByteOrder::BigEndian.number_in(bytes, 0);
    if magic == MODIFIED_MAGIC || ByteOrder::LittleEndian.number_in(bytes, 0) == MODIFIED_MAGIC {
        return CaptureHeaderError::Modified;
    }
    CaptureHeaderError::Magic { magic }
}

/// The byte order and the resolution that the first four bytes of a capture state. `None` if the four bytes are not a magic number in
/// either byte order.
fn form_of(bytes: &[u8]) -> Option<(ByteOrder, Resolution)>
    requires { 4 ≤ length bytes.now }
    ensures { result ≡ form_of bytes.now }
{
    if let Some(resolution) = Resolution::from_magic(ByteOrder::BigEndian.number_in(bytes, 0)) {
        return Some((ByteOrder::BigEndian, resolution));
    }
    let resolution = Resolution::from_magic(ByteOrder::LittleEndian.number_in(bytes, 0))?;
    Some((ByteOrder::LittleEndian, resolution))
}
