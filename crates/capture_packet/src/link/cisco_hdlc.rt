//! Cisco HDLC frames (LINKTYPE_C_HDLC; RFC 1547, section 4.3.1).

ghost use Rattle.std.specs.Prelude.{◌≡◌, IfErr, IfOk, length};
ghost use Rattle.capture_packet.specs.CiscoHdlc as specs;
ghost use Rattle.capture_packet.specs.LinkHeaders.{Fits};

use crate::link::LinkHeaderCutOff;
use crate::link::header::{EtherHeader, FirstHeader, expect_len, short_at};

/// The number of LINKTYPE_C_HDLC. This number stands for the next protocol of a Cisco HDLC frame whose protocol is not read.
const LINK_TYPE: u16 = 104;

/// The layout of the header: an address, a control byte, and the number of a protocol. The number is an ether type, except for SLARP and
/// CDP.
const CISCO_HDLC: EtherHeader = EtherHeader {
    len: 4,
    ether_type_at: 2,
};

/// The first byte of a frame to one station.
const TO_ONE_STATION: u8 = 0x0F;

/// The first byte of a frame to all stations.
const TO_ALL_STATIONS: u8 = 0x8F;

/// The protocol number of SLARP, which resolves addresses and sends keepalives on serial lines. As an ether type this number is RARP.
const SLARP: u16 = 0x8035;

/// The protocol number of CDP, the Cisco Discovery Protocol. CDP has this number also in a SNAP header with Cisco's organization code.
const CDP: u16 = 0x2000;

/// The first header of a Cisco HDLC frame.
pub(super) fn cisco_header(frame: &[u8]) -> Result<FirstHeader, LinkHeaderCutOff>
    ensures is { result ≡ specs.cisco_header frame.now }
    ensures fits { IfOk result (Fits frame.now) }
    ensures len { IfErr result (λ error. error.len ≡ length frame.now) }
{
    expect_len(frame, CISCO_HDLC.len)?;
    let number = short_at(frame, CISCO_HDLC.ether_type_at);
    if matches!(number, SLARP | CDP) {
        Ok(FirstHeader::unread(CISCO_HDLC.len, LINK_TYPE))
    } else {
        Ok(FirstHeader::EtherType(CISCO_HDLC))
    }
}

/// Whether the address of a LINKTYPE_PPP_HDLC frame is an address of Cisco HDLC.
pub(super) fn is_cisco_hdlc(frame: &[u8]) -> bool
    ensures { result ≡ specs.is_cisco_hdlc frame.now }
{
    !frame.is_empty() && matches!(frame[0], TO_ONE_STATION | TO_ALL_STATIONS)
}
