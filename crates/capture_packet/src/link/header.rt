ghost use Rattle.std.specs.Prelude.{◌≡◌, ◌+◌, ◌≤◌, ◌<◌, MatchResult, length};
ghost use Rattle.net_base.specs.Bytes.{be_number};
ghost use Rattle.capture_numbers.specs.Numbers as specs;
ghost use Rattle.capture_numbers.specs.declared.byte_order.ByteOrder.TheVariants.{LittleEndian};
ghost use Rattle.capture_packet.specs.LinkHeaders.{cut_off, unread};

use crate::NetworkProtocol;
use crate::link::LinkHeaderCutOff;
use capture_numbers::ByteOrder;

/// A whole link header.
#[derive(Clone, Copy)]
pub(super) struct LinkHeader {
    /// The length of the header, in bytes.
    pub len: usize,
    /// The next network protocol. `None` is IP.
    pub next: Option<NetworkProtocol>,
    /// The end of the bytes after the header, in bytes from the start of the frame. `None` if the header does not state this end. Then the
    /// bytes end with the frame.
    pub end: Option<usize>,
}

/// A link header that contains an ether type.
#[derive(Clone, Copy)]
pub(super) struct EtherHeader {
    /// The length of the header without tags, in bytes.
    pub len: usize,
    /// The place of the ether type, in bytes from the start of the frame.
    pub ether_type_at: usize,
}

/// The first header of a frame.
#[derive(Clone, Copy)]
pub(super) enum FirstHeader {
    /// A whole link header.
    Whole(LinkHeader),
    /// A header that contains an ether type, the number of the next protocol or header. A VLAN tag may follow.
    EtherType(EtherHeader),
}

impl FirstHeader {
    /// A link header that is not read, so that the protocol after it is unknown. The number of a link type stands for this protocol. `len`
    /// is the number of bytes that were examined.
    pub fn unread(len: usize, number: u16) -> FirstHeader
        ensures { result ≡ unread len number }
    {
        FirstHeader::Whole(LinkHeader {
            len,
            next: Some(NetworkProtocol::LinkType(number)),
            end: None,
        })
    }
}

/// Refuses a frame that is shorter than its link header.
pub(super) fn expect_len(frame: &[u8], required_len: usize) -> Result<(), LinkHeaderCutOff>
    ensures { MatchResult result (λ _. required_len ≤ length frame.now)
        (λ error. (length frame.now < required_len) × (error ≡ cut_off frame.now required_len)) }
{
    let len = frame.len();
    if len < required_len {
        Err(LinkHeaderCutOff { required_len, len })
    } else {
        Ok(())
    }
}

/// The big-endian number in the two bytes at this place.
pub(super) fn short_at(frame: &[u8], place: usize) -> u16
    requires { place + 2 ≤ length frame.now }
    ensures { result ≡ be_number frame.now place 2 }
{
    u16::from_be_bytes([frame[place], frame[place + 1]])
}

/// The big-endian number in the three bytes at this place.
pub(super) fn three_at(frame: &[u8], place: usize) -> u32
    requires { place + 3 ≤ length frame.now }
    ensures { result ≡ be_number frame.now place 3 }
{
    u32::from_be_bytes([0, frame[place], frame[place + 1], frame[place + 2]])
}

/// The number in the four bytes at this place, in this byte order.
pub(super) fn number_at(order: ByteOrder, frame: &[u8], place: usize) -> u32
    requires { place + 4 ≤ length frame.now }
    ensures { result ≡ specs.number_at order frame.now place }
{
    order.number([
        frame[place],
        frame[place + 1],
        frame[place + 2],
        frame[place + 3],
    ])
}

/// The little-endian number in the two bytes at this place.
pub(super) fn little_endian_short_at(frame: &[u8], place: usize) -> u16
    requires { place + 2 ≤ length frame.now }
    ensures { result ≡ specs.short_at LittleEndian frame.now place }
{
    u16::from_le_bytes([frame[place], frame[place + 1]])
}
