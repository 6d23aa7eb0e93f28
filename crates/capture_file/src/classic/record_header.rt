ghost use Rattle.std.specs.Prelude.{◌≡◌, nat_lt};
ghost use Rattle.capture_file.specs.Classic.{record_header, resolution_with};

use crate::ByteOrder;

/// The header of a record (draft-ietf-opsawg-pcap, section 5).
#[derive(Clone, Copy, Debug, PartialEq, Eq)]
pub struct RecordHeader {
    /// The time at which the packet was captured.
    pub time: Time,
    /// The number of bytes of the packet that the record contains.
    pub captured_len: u32,
    /// The length of the packet, in bytes.
    pub original_len: u32,
}

impl RecordHeader {
    /// The length of the header, in bytes.
    pub const LEN: usize = 16;

    /// Reads a header. It consists of four numbers of four bytes each: the seconds and the fraction of the time, the captured length, and
    /// the original length.
    pub fn from_bytes(order: ByteOrder, bytes: &[u8; 16]) -> RecordHeader
        ensures { result ≡ record_header order bytes.now }
    {
        RecordHeader {
            time: Time {
                seconds: order.number([bytes[0], bytes[1], bytes[2], bytes[3]]),
                fraction: order.number([bytes[4], bytes[5], bytes[6], bytes[7]]),
            },
            captured_len: order.number([bytes[8], bytes[9], bytes[10], bytes[11]]),
            original_len: order.number([bytes[12], bytes[13], bytes[14], bytes[15]]),
        }
    }

    /// Whether the capture contains only the first bytes of the packet.
    pub fn is_cut(&self) -> bool
        ensures { result ≡ nat_lt self.now.captured_len self.now.original_len }
    {
        self.captured_len < self.original_len
    }
}

/// The unit of the fraction of a second in a time of a capture.
#[derive(Clone, Copy, Debug, PartialEq, Eq)]
pub enum Resolution {
    /// A millionth of a second.
    Microseconds,
    /// A billionth of a second.
    Nanoseconds,
}

impl Resolution {
    /// The resolution of a capture with this magic number. `None` if this is not a magic number of the classic format
    /// (draft-ietf-opsawg-pcap, section 4).
    pub fn from_magic(magic: u32) -> Option<Resolution>
        ensures { result ≡ resolution_with magic }
    {
        match magic {
            0xA1B2_C3D4 => Some(Resolution::Microseconds),
            0xA1B2_3C4D => Some(Resolution::Nanoseconds),
            _ => None,
        }
    }
}

/// The time at which a packet was captured, as its record states it.
#[derive(Clone, Copy, Debug, PartialEq, Eq)]
pub struct Time {
    /// Whole seconds since the beginning of 1970, UTC.
    pub seconds: u32,
    /// The fraction of a second, in units of the resolution of the capture.
    pub fraction: u32,
}
