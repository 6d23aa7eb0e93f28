//! Frame Relay frames (RFC 2427).

ghost use Rattle.std.specs.Prelude.{◌≡◌, ◌+◌, ◌≤◌, IfOk, length};
ghost use Rattle.net_base.specs.Bytes.{be_number};
ghost use Rattle.capture_packet.specs.FrameRelay as specs;
ghost use Rattle.capture_packet.specs.LinkHeaders.{Fits};

use crate::NetworkProtocol;
use crate::link::LinkHeaderCutOff;
use crate::link::ether_type::{IPV4, IPV6};
use crate::link::header::{EtherHeader, FirstHeader, LinkHeader, expect_len, short_at, three_at};
use crate::link::llc::snap_at;

/// The least length of a frame that is read, in bytes: the address, the control byte, and one byte, which is a pad byte or the network
/// layer protocol ID.
const SHORTEST_LEN: usize = 4;

/// The bits of the first three bytes that identify a two-byte address and the control byte. The lowest bits of the address bytes are 0 and
/// 1.
const ADDRESS_AND_CONTROL_MASK: u32 = 0x01_01_FF;

/// The value of the bits of `ADDRESS_AND_CONTROL_MASK` in a frame with a two-byte address and unnumbered information.
const UNNUMBERED: u32 = 0x00_01_03;

/// The bits of the first three bytes that identify a two-byte address.
const ADDRESS_MASK: u32 = 0x01_01_00;

/// The value of the bits of `ADDRESS_MASK` in a frame with a two-byte address.
const TWO_BYTE_ADDRESS: u32 = 0x00_01_00;

/// The layout of a header that Cisco's equipment writes: a two-byte address and an ether type, without a control byte.
const CISCO: EtherHeader = EtherHeader {
    len: 4,
    ether_type_at: 2,
};

/// The network layer protocol ID of a SNAP header (RFC 2427, section 3).
const SNAP_ID: u8 = 0x80;

/// The network layer protocol ID of IPv4 (RFC 2427, section 3).
const IPV4_ID: u8 = 0xCC;

/// The network layer protocol ID of IPv6 (RFC 2427, section 3).
const IPV6_ID: u8 = 0x8E;

/// The first header of a Frame Relay frame.
pub(super) fn frame_relay(frame: &[u8]) -> Result<FirstHeader, LinkHeaderCutOff>
    ensures is { result ≡ specs.frame_relay frame.now }
    ensures fits { IfOk result (Fits frame.now) }
{
    expect_len(frame, SHORTEST_LEN)?;
    let header = three_at(frame, 0);
    if header & ADDRESS_AND_CONTROL_MASK != UNNUMBERED {
        return Ok(without_control(frame, header));
    }
    if frame[3] == 0 {
        nlpid_at(frame, 4)
    } else {
        nlpid_at(frame, 3)
    }
}

/// The header of a frame that does not begin with a two-byte address and the control byte of unnumbered information. Such a header is read
/// only if it contains an ether type of IP.
fn without_control(frame: &[u8], header: u32) -> FirstHeader
    requires { (4 ≤ length frame.now) × (header ≡ be_number frame.now 0 3) }
    ensures is { result ≡ specs.without_control frame.now }
    ensures fits { Fits frame.now result }
{
    if has_ether_type(frame, header) {
        FirstHeader::EtherType(CISCO)
    } else {
        FirstHeader::Whole(LinkHeader {
            len: 3,
            next: Some(NetworkProtocol::FrameRelay { header }),
            end: None,
        })
    }
}

/// Whether the ether type of IPv4 or IPv6 follows a two-byte address directly.
fn has_ether_type(frame: &[u8], header: u32) -> bool
    requires { (4 ≤ length frame.now) × (header ≡ be_number frame.now 0 3) }
    ensures { result ≡ specs.has_ether_type frame.now }
{
    header & ADDRESS_MASK == TWO_BYTE_ADDRESS && matches!(short_at(frame, 2), IPV4 | IPV6)
}

/// The header with the network layer protocol ID at this place.
fn nlpid_at(frame: &[u8], place: usize) -> Result<FirstHeader, LinkHeaderCutOff>
    requires { place ≤ 4 }
    ensures is { result ≡ specs.nlpid_at frame.now place }
    ensures fits { IfOk result (Fits frame.now) }
{
    let len = place + 1;
    expect_len(frame, len)?;
    match frame[place] {
        SNAP_ID => snap_at(frame, len),
        IPV4_ID | IPV6_ID => Ok(FirstHeader::Whole(LinkHeader {
            len,
            next: None,
            end: None,
        })),
        nlpid => Ok(FirstHeader::Whole(LinkHeader {
            len,
            next: Some(NetworkProtocol::Nlpid(nlpid)),
            end: None,
        })),
    }
}
