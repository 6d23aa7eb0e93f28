//! PPP frames (RFC 1661 and RFC 1662), and frames of PPP over Ethernet (RFC 2516).

ghost use Rattle.std.specs.Prelude.{◌≡◌, ◌+◌, ◌≤◌, IfErr, IfOk, length, true};
ghost use Rattle.capture_packet.specs.LinkHeaders.{IsHeaderWithin};
ghost use Rattle.capture_packet.specs.Ppp as specs;

use crate::NetworkProtocol;
use crate::link::LinkHeaderCutOff;
use crate::link::ether_type::{PPPOE_DISCOVERY, PPPOE_SESSION};
use crate::link::header::{LinkHeader, expect_len, short_at};
use crate::link::mpls::stack_at;

/// The length of the Address and Control fields, in bytes.
const ADDRESS_LEN: usize = 2;

/// The length of a PPPoE header, in bytes: version and type, code, session and length.
const SESSION_LEN: usize = 6;

/// The place of the payload length in a PPPoE header, in bytes (RFC 2516, section 4).
const PAYLOAD_LEN_AT: usize = 4;

/// The Address and Control fields for all stations and unnumbered information (RFC 1662, section 3.1).
const ADDRESS_AND_CONTROL: u16 = 0xFF03;

/// The first byte of a PPPoE header: version 1 and type 1 (RFC 2516, section 4).
const VERSION_AND_TYPE: u8 = 0x11;

/// The first two bytes of the PPPoE header of a session: version 1, type 1, and code 0 (RFC 2516, section 6). Discovery packets have other
/// codes (section 5).
const SESSION_DATA: u16 = 0x1100;

/// The lowest bit of the first byte of a Protocol field. It is set if the field has no second byte (RFC 1661, section 2).
const LAST_BYTE: u8 = 0x01;

/// The PPP protocol of IPv4 (RFC 1332, section 2.1).
const IPV4: u16 = 0x0021;

/// The PPP protocol of IPv6 (RFC 5072, section 2).
const IPV6: u16 = 0x0057;

/// The PPP protocol of a stack of MPLS labels (RFC 3032, section 4.3).
const MPLS: u16 = 0x0281;

/// The PPP protocol of a stack of MPLS labels before a multicast packet (RFC 3032, section 4.3).
const MPLS_MULTICAST: u16 = 0x0283;

/// The header of a PPP frame.
pub(super) fn ppp_header(frame: &[u8]) -> Result<LinkHeader, LinkHeaderCutOff>
    ensures is { result ≡ specs.ppp_header frame.now }
    ensures within { IfOk result (IsHeaderWithin frame.now) }
    ensures len { IfErr result (λ error. error.len ≡ length frame.now) }
{
    if has_address(frame) {
        protocol_at(frame, ADDRESS_LEN)
    } else {
        protocol_at(frame, 0)
    }
}

/// The link header of a LINKTYPE_PPP_ETHER frame. For a session it ends where the packet begins. For discovery it is only the PPPoE header.
pub(super) fn pppoe_frame(frame: &[u8]) -> Result<LinkHeader, LinkHeaderCutOff>
    ensures is { result ≡ specs.pppoe_frame frame.now }
    ensures within { IfOk result (IsHeaderWithin frame.now) }
    ensures len { IfErr result (λ error. error.len ≡ length frame.now) }
{
    expect_len(frame, SESSION_LEN)?;
    if frame[0] != VERSION_AND_TYPE || short_at(frame, 0) == SESSION_DATA {
        return session_at(frame, 0);
    }
    Ok(LinkHeader {
        len: SESSION_LEN,
        next: Some(NetworkProtocol::EtherType(PPPOE_DISCOVERY)),
        end: None,
    })
}

/// The link header from the start of the frame to the packet in a PPPoE session. The PPPoE header begins at `place`.
pub(super) fn session_at(frame: &[u8], place: usize) -> Result<LinkHeader, LinkHeaderCutOff>
    requires { place ≤ length frame.now }
    ensures is { result ≡ specs.session_at frame.now place }
    ensures within { IfOk result (IsHeaderWithin frame.now) }
    ensures len { IfErr result (λ error. error.len ≡ length frame.now) }
{
    let len = place + SESSION_LEN;
    expect_len(frame, len)?;
    if short_at(frame, place) == SESSION_DATA {
        let payload_len = short_at(frame, place + PAYLOAD_LEN_AT);
        session_payload(frame, len, payload_len)
    } else {
        Ok(unread_session(len))
    }
}

/// The link header from the start of the frame to the packet in a PPPoE session. The PPPoE payload begins at `place` and has `payload_len`
/// bytes. If the frame is too short for this payload, the payload ends with the frame.
fn session_payload(
    frame: &[u8],
    place: usize,
    payload_len: u16,
) -> Result<LinkHeader, LinkHeaderCutOff>
    requires { place ≤ length frame.now }
    ensures is { result ≡ specs.session_payload frame.now place (place + payload_len) }
    ensures within { IfOk result (IsHeaderWithin frame.now) }
    ensures len { IfErr result (λ error. error.len ≡ length frame.now) }
{
    let end = place + usize::from(payload_len);
    if end <= frame.len() {
        Ok(whole_payload(&frame[..end], place))
    } else {
        protocol_at(frame, place)
    }
}

/// The link header from the start of the frame to the packet in a PPPoE session. `bytes` are the frame up to the end of the PPPoE payload,
/// which begins at `place`. If the payload is too short for its PPP header, it is not read.
fn whole_payload(bytes: &[u8], place: usize) -> LinkHeader
    requires { place ≤ length bytes.now }
    ensures is { result ≡ specs.in_payload place (length bytes.now) (specs.protocol_at bytes.now place) }
    ensures within { IsHeaderWithin bytes.now result }
{
    match protocol_at(bytes, place) {
        Ok(header) => LinkHeader {
            len: header.len,
            next: header.next,
            end: Some(bytes.len()),
        },
        Err(_) => unread_session(place),
    }
}

/// A PPPoE header that ends at this place. Its payload is not read, so that the next protocol is the ether type of a PPPoE session.
fn unread_session(place: usize) -> LinkHeader
    ensures { result ≡ specs.unread_session place }
{
    LinkHeader {
        len: place,
        next: Some(NetworkProtocol::EtherType(PPPOE_SESSION)),
        end: None,
    }
}

/// Whether the frame begins with the Address and Control fields.
fn has_address(frame: &[u8]) -> bool
    ensures is { result ≡ specs.has_address frame.now }
    ensures there { result ≡ true → 2 ≤ length frame.now }
{
    frame.len() >= ADDRESS_LEN && short_at(frame, 0) == ADDRESS_AND_CONTROL
}

/// The header that ends after the Protocol field at this place, or after the stack of MPLS labels after this field. If the first byte is
/// odd, the field has only one byte.
fn protocol_at(frame: &[u8], place: usize) -> Result<LinkHeader, LinkHeaderCutOff>
    requires { place ≤ length frame.now }
    ensures is { result ≡ specs.protocol_at frame.now place }
    ensures within { IfOk result (IsHeaderWithin frame.now) }
    ensures len { IfErr result (λ error. error.len ≡ length frame.now) }
{
    expect_len(frame, place + 1)?;
    let first = frame[place];
    if first & LAST_BYTE != 0 {
        return after_protocol(frame, place + 1, u16::from(first));
    }
    expect_len(frame, place + 2)?;
    after_protocol(frame, place + 2, short_at(frame, place))
}

/// The header that ends with this protocol number, or with the stack of MPLS labels after it.
fn after_protocol(frame: &[u8], place: usize, number: u16) -> Result<LinkHeader, LinkHeaderCutOff>
    requires { place ≤ length frame.now }
    ensures is { result ≡ specs.after_protocol frame.now place number }
    ensures within { IfOk result (IsHeaderWithin frame.now) }
    ensures len { IfErr result (λ error. error.len ≡ length frame.now) }
{
    match number {
        MPLS | MPLS_MULTICAST => stack_at(frame, NetworkProtocol::PppProtocol(number), place),
        _ => Ok(LinkHeader {
            len: place,
            next: protocol_of(number),
            end: None,
        }),
    }
}

/// The network protocol with this number. `None` is IP.
fn protocol_of(number: u16) -> Option<NetworkProtocol>
    ensures { result ≡ specs.by_ppp_protocol number }
{
    match number {
        IPV4 | IPV6 => None,
        _ => Some(NetworkProtocol::PppProtocol(number)),
    }
}
