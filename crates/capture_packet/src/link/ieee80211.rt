//! IEEE 802.11 frames, and the radiotap header that a capture may contain before them.

ghost use Rattle.std.specs.Prelude.{◌≡◌, ◌+◌, ◌≤◌, IfErr, IfOk, length};
ghost use Rattle.net_base.specs.Bytes.{be_number};
ghost use Rattle.capture_packet.specs.Ieee80211 as specs;
ghost use Rattle.capture_packet.specs.LinkHeaders.{Fits, max_frame_place};

use crate::NetworkProtocol;
use crate::link::LinkHeaderCutOff;
use crate::link::header::{FirstHeader, LinkHeader, expect_len, little_endian_short_at, short_at};
use crate::link::llc::llc_at;

/// The length of the first fields of a radiotap header, in bytes: version, pad byte, length, and the bits for the fields that are present.
const RADIOTAP_LEN: usize = 8;

/// The length of the Frame Control field, in bytes.
const FRAME_CONTROL_LEN: usize = 2;

/// The length of the header of a data frame with three addresses, in bytes.
const ADDRESSES_LEN: usize = 24;

/// The length of a fourth address, in bytes.
const FOURTH_ADDRESS_LEN: usize = 6;

/// The length of the QoS Control field, in bytes.
const QOS_CONTROL_LEN: usize = 2;

/// The length of the HT Control field, in bytes.
const HT_CONTROL_LEN: usize = 4;

/// The bits of the first byte of the Frame Control field that contain the version and the type, and the bit that marks a frame without
/// data.
const KIND_MASK: u8 = 0x4F;

/// The value of the bits of `KIND_MASK` in a data frame with data: version 0 and type 2.
const DATA: u8 = 0x08;

/// The bit of the subtype of a data frame that is set if a QoS Control field is present.
const QOS: u8 = 0x80;

/// The bits To DS and From DS of the second byte of the Frame Control field.
const TWO_DISTRIBUTION_SYSTEMS: u8 = 0x03;

/// The bits More Fragments and Protected Frame of the second byte of the Frame Control field.
const FRAGMENTED_OR_PROTECTED: u8 = 0x44;

/// The bit +HTC/Order of the second byte of the Frame Control field.
const HT_CONTROL: u8 = 0x80;

/// The bits of the fragment number in byte 22.
const FRAGMENT_NUMBER: u8 = 0x0F;

/// The bit of the QoS Control field that is set if the body contains several data units.
const SEVERAL_UNITS: u8 = 0x80;

/// The first header of a frame after a radiotap header (LINKTYPE_IEEE802_11_RADIOTAP). The numbers of the radiotap header are
/// little-endian.
pub(super) fn after_radiotap(frame: &[u8]) -> Result<FirstHeader, LinkHeaderCutOff>
    ensures is { result ≡ specs.after_radiotap frame.now }
    ensures fits { IfOk result (Fits frame.now) }
{
    expect_len(frame, RADIOTAP_LEN)?;
    let version = frame[0];
    let len = little_endian_short_at(frame, 2);
    if version == 0 && len >= 8 {
        frame_at(frame, usize::from(len))
    } else {
        Ok(FirstHeader::Whole(LinkHeader {
            len: RADIOTAP_LEN,
            next: Some(NetworkProtocol::Radiotap { version, len }),
            end: None,
        }))
    }
}

/// The header of the IEEE 802.11 frame at this place (IEEE 802.11, clause 9.2).
pub(super) fn frame_at(frame: &[u8], place: usize) -> Result<FirstHeader, LinkHeaderCutOff>
    requires { place ≤ max_frame_place }
    ensures is { result ≡ specs.frame_at frame.now place }
    ensures fits { IfOk result (Fits frame.now) }
    ensures len { IfErr result (λ error. error.len ≡ length frame.now) }
{
    expect_len(frame, place + FRAME_CONTROL_LEN)?;
    if carries_data(frame, place) {
        data_frame(frame, place)
    } else {
        Ok(other_frame(frame, place))
    }
}

/// The header of a data frame.
fn data_frame(frame: &[u8], place: usize) -> Result<FirstHeader, LinkHeaderCutOff>
    requires { (place ≤ max_frame_place) × (place + 2 ≤ length frame.now) }
    ensures is { result ≡ specs.data_frame frame.now place }
    ensures fits { IfOk result (Fits frame.now) }
{
    let body_at = body_at(frame, place);
    expect_len(frame, body_at)?;
    if has_whole_unit(frame, place) {
        llc_at(frame, body_at)
    } else {
        Ok(other_frame(frame, place))
    }
}

/// The header of a frame whose body is not read.
fn other_frame(frame: &[u8], place: usize) -> FirstHeader
    requires { (place ≤ max_frame_place) × (place + 2 ≤ length frame.now) }
    ensures is { result ≡ specs.other_frame frame.now place }
    ensures fits { Fits frame.now result }
{
    FirstHeader::Whole(LinkHeader {
        len: place + FRAME_CONTROL_LEN,
        next: Some(NetworkProtocol::Ieee80211 {
            frame_control: short_at(frame, place),
        }),
        end: None,
    })
}

/// Whether the frame is a data frame with data that is not encrypted, and no more fragments follow.
fn carries_data(frame: &[u8], place: usize) -> bool
    requires { (place ≤ max_frame_place) × (place + 2 ≤ length frame.now) }
    ensures { result ≡ specs.carries_data frame.now place }
{
    frame[place] & KIND_MASK == DATA && frame[place + 1] & FRAGMENTED_OR_PROTECTED == 0
}

/// The place of the QoS Control field, after three or four addresses. If the field is absent, the body begins at this place.
fn qos_at(frame: &[u8], place: usize) -> usize
    requires { (place ≤ max_frame_place) × (place + 2 ≤ length frame.now) }
    ensures is { result ≡ specs.qos_at frame.now place }
    ensures least { place + 24 ≤ result }
    ensures most { result ≤ place + 30 }
{
    if frame[place + 1] & TWO_DISTRIBUTION_SYSTEMS == TWO_DISTRIBUTION_SYSTEMS {
        place + ADDRESSES_LEN + FOURTH_ADDRESS_LEN
    } else {
        place + ADDRESSES_LEN
    }
}

/// The start of the body. The QoS Control field and the HT Control field precede the body if they are present.
fn body_at(frame: &[u8], place: usize) -> usize
    requires { (place ≤ max_frame_place) × (place + 2 ≤ length frame.now) }
    ensures is { result ≡ specs.body_at frame.now place }
    ensures least { place + 24 ≤ result }
    ensures most { result ≤ place + 36 }
{
    let qos_at = qos_at(frame, place);
    if frame[place] & QOS == 0 {
        qos_at
    } else if frame[place + 1] & HT_CONTROL == 0 {
        qos_at + QOS_CONTROL_LEN
    } else {
        qos_at + QOS_CONTROL_LEN + HT_CONTROL_LEN
    }
}

/// Whether the body is one whole data unit: it is not a later fragment, and it does not contain several units.
fn has_whole_unit(frame: &[u8], place: usize) -> bool
    requires { (place ≤ max_frame_place) × (specs.body_at frame.now place ≤ length frame.now) }
    ensures { result ≡ specs.has_whole_unit frame.now place }
{
    let has_qos = frame[place] & QOS != 0;
    frame[place + 22] & FRAGMENT_NUMBER == 0
        && !(has_qos && frame[qos_at(frame, place)] & SEVERAL_UNITS != 0)
}
