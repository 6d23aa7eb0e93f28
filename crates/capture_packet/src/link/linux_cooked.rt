//! Linux cooked frames (LINKTYPE_LINUX_SLL and LINKTYPE_LINUX_SLL2).

ghost use Rattle.std.specs.Prelude.{◌≡◌, ◌+◌, ◌≤◌, IfErr, IfOk, length};
ghost use Rattle.capture_packet.specs.LinkHeaders.{Fits};
ghost use Rattle.capture_packet.specs.LinuxCooked as specs;

use crate::link::LinkHeaderCutOff;
use crate::link::header::{EtherHeader, FirstHeader, expect_len, short_at};
use crate::link::llc::llc_at;

/// The layout of a LINKTYPE_LINUX_SLL header, with the protocol at its end.
const LINUX_COOKED: EtherHeader = EtherHeader {
    len: 16,
    ether_type_at: 14,
};

/// The layout of a LINKTYPE_LINUX_SLL2 header, with the protocol at its front.
const LINUX_COOKED_2: EtherHeader = EtherHeader {
    len: 20,
    ether_type_at: 0,
};

/// The place of the device type in a LINKTYPE_LINUX_SLL header.
const DEVICE_TYPE_AT: usize = 2;

/// The place of the device type in a LINKTYPE_LINUX_SLL2 header.
const DEVICE_TYPE_AT_2: usize = 8;

/// The device type of netlink, ARPHRD_NETLINK.
const NETLINK_DEVICE: u16 = 824;

/// The number of LINKTYPE_NETLINK, whose frames have a LINKTYPE_LINUX_SLL header. This number stands for the next protocol of a frame from
/// a netlink device.
const NETLINK: u16 = 253;

/// The protocol number of a frame in which an LLC header follows.
const COOKED_LLC: u16 = 0x0004;

/// The first header of a LINKTYPE_LINUX_SLL frame.
pub(super) fn linux_cooked(frame: &[u8]) -> Result<FirstHeader, LinkHeaderCutOff>
    ensures is { result ≡ specs.cooked_header specs.linux_cooked specs.device_type_at frame.now }
    ensures fits { IfOk result (Fits frame.now) }
    ensures len { IfErr result (λ error. error.len ≡ length frame.now) }
{
    cooked_header(LINUX_COOKED, DEVICE_TYPE_AT, frame)
}

/// The first header of a LINKTYPE_LINUX_SLL2 frame.
pub(super) fn linux_cooked_2(frame: &[u8]) -> Result<FirstHeader, LinkHeaderCutOff>
    ensures is { result ≡ specs.cooked_header specs.linux_cooked_2 specs.device_type_at_2 frame.now }
    ensures fits { IfOk result (Fits frame.now) }
    ensures len { IfErr result (λ error. error.len ≡ length frame.now) }
{
    cooked_header(LINUX_COOKED_2, DEVICE_TYPE_AT_2, frame)
}

/// The first header of a frame with this layout. `device_type_at` is the place of the device type. A frame from a netlink device is not
/// read. In other frames an LLC header follows, or the protocol is an ether type.
fn cooked_header(
    header: EtherHeader,
    device_type_at: usize,
    frame: &[u8],
) -> Result<FirstHeader, LinkHeaderCutOff>
    requires { (header.ether_type_at + 2 ≤ header.len) × (device_type_at + 2 ≤ header.len) × (header.len ≤ 20) }
    ensures is { result ≡ specs.cooked_header header device_type_at frame.now }
    ensures fits { IfOk result (Fits frame.now) }
    ensures len { IfErr result (λ error. error.len ≡ length frame.now) }
{
    expect_len(frame, header.len)?;
    if short_at(frame, device_type_at) == NETLINK_DEVICE {
        Ok(FirstHeader::unread(header.len, NETLINK))
    } else if short_at(frame, header.ether_type_at) == COOKED_LLC {
        llc_at(frame, header.len)
    } else {
        Ok(FirstHeader::EtherType(header))
    }
}
