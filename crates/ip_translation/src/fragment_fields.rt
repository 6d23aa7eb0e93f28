ghost use Rattle.std.specs.Prelude.{◌≡◌};
ghost use Rattle.ip_translation.specs.Fragments as specs;

/// The fields of an IPv4 header that describe a fragment (RFC 791, section 3.1).
#[derive(Clone, Copy)]
pub(crate) struct FragmentFields {
    /// The identification.
    pub(crate) identification: u16,
    /// The flags and the fragment offset, which are 16 bits. `None` if the IPv6 packet has no fragment header. Then the length of the packet
    /// determines the flags.
    pub(crate) flags_and_offset: Option<u16>,
}

/// The flag "more fragments" in the 16 bits that contain the flags and the fragment offset.
pub(crate) const MORE_FRAGMENTS: u16 = 0x2000;

/// The flag "don't fragment" in these 16 bits.
const DONT_FRAGMENT: u16 = 0x4000;

/// The greatest total length of a packet that may be fragmented, in bytes (RFC 7915, section 5.1).
const MAX_FRAGMENTED_LEN: u16 = 1260;

impl FragmentFields {
    /// A packet without a fragment header has this identification.
    pub(crate) fn whole(identification: u16) -> FragmentFields
        ensures { result ≡ specs.whole identification }
    {
        FragmentFields {
            identification,
            flags_and_offset: None,
        }
    }

    /// The flags and the fragment offset of a packet with this total length.
    pub(crate) fn flags_and_offset(self, total_len: u16) -> u16
        ensures { result ≡ specs.flags_and_offset self.flags_and_offset total_len }
    {
        match self.flags_and_offset {
            Some(value) => value,
            None => flags(total_len),
        }
    }

    /// Whether the packet is one of several fragments. An atomic fragment is a whole packet (RFC 6946).
    pub(crate) fn is_part(self) -> bool
        ensures { result ≡ specs.is_part self.flags_and_offset }
    {
        match self.flags_and_offset {
            Some(value) => value != 0,
            None => false,
        }
    }

    /// Whether the packet is a later fragment, whose offset is above 0.
    pub(crate) fn is_later(self) -> bool
        ensures { result ≡ specs.is_later self.flags_and_offset }
    {
        match self.flags_and_offset {
            Some(value) => value % MORE_FRAGMENTS != 0,
            None => false,
        }
    }
}

/// The flags of a packet without a fragment header, with this total length.
fn flags(total_len: u16) -> u16
    ensures { result ≡ specs.flags total_len }
{
    if total_len <= MAX_FRAGMENTED_LEN {
        0
    } else {
        DONT_FRAGMENT
    }
}
