//! LLC and SNAP headers (IEEE 802.2; RFC 1042).

ghost use Rattle.std.specs.Prelude.{◌≡◌, ◌+◌, ◌≤◌, IfOk, length};
ghost use Rattle.capture_packet.specs.Llc as specs;
ghost use Rattle.capture_packet.specs.LinkHeaders.{Fits, first_len};

use crate::NetworkProtocol;
use crate::link::LinkHeaderCutOff;
use crate::link::header::{EtherHeader, FirstHeader, LinkHeader, expect_len, short_at, three_at};

/// The length of an LLC header, in bytes: DSAP, SSAP and control.
const LLC_LEN: usize = 3;

/// The length of a SNAP header, in bytes: an organization code, and a protocol.
const SNAP_LEN: usize = 5;

/// The LLC header that precedes a SNAP header.
const SNAP_IS_NEXT: u32 = 0xAA_AA_03;

/// The LLC header that precedes a network layer protocol ID (ISO/IEC TR 9577).
const NLPID_IS_NEXT: u32 = 0xFE_FE_03;

/// The LLC header that precedes an IP packet (RFC 948).
const IP_IS_NEXT: u32 = 0x06_06_03;

/// The organization code of a SNAP header with an ether type (RFC 1042).
const ETHERNET_CODE: u32 = 0;

/// The organization code of a SNAP header with an ether type that a bridge writes (IEEE 802.1H).
const BRIDGE_TUNNEL_CODE: u32 = 0x00_00_F8;

/// The header that ends with the LLC header at this place, or with the SNAP header or the network layer protocol ID after it.
pub(super) fn llc_at(frame: &[u8], place: usize) -> Result<FirstHeader, LinkHeaderCutOff>
    requires { place ≤ specs.max_llc_place }
    ensures is { result ≡ specs.llc_at frame.now place }
    ensures fits { IfOk result (Fits frame.now) }
    ensures within { IfOk result (λ first. first_len first ≤ length frame.now) }
{
    expect_len(frame, place + LLC_LEN)?;
    match three_at(frame, place) {
        SNAP_IS_NEXT => snap_at(frame, place + LLC_LEN),
        NLPID_IS_NEXT => osi_at(frame, place + LLC_LEN),
        IP_IS_NEXT => Ok(FirstHeader::Whole(LinkHeader {
            len: place + LLC_LEN,
            next: None,
            end: None,
        })),
        _ => Ok(FirstHeader::Whole(LinkHeader {
            len: place + LLC_LEN,
            next: Some(NetworkProtocol::Llc {
                dsap: frame[place],
                ssap: frame[place + 1],
            }),
            end: None,
        })),
    }
}

/// The header that ends with the network layer protocol ID at this place.
fn osi_at(frame: &[u8], place: usize) -> Result<FirstHeader, LinkHeaderCutOff>
    requires { place ≤ specs.max_llc_place + 3 }
    ensures is { result ≡ specs.osi_at frame.now place }
    ensures fits { IfOk result (Fits frame.now) }
    ensures within { IfOk result (λ first. first_len first ≤ length frame.now) }
{
    let len = place + 1;
    expect_len(frame, len)?;
    Ok(FirstHeader::Whole(LinkHeader {
        len,
        next: Some(NetworkProtocol::Nlpid(frame[place])),
        end: None,
    }))
}

/// The header that ends with the SNAP header at this place. After the two organization codes above, the SNAP header contains an ether type.
pub(super) fn snap_at(frame: &[u8], place: usize) -> Result<FirstHeader, LinkHeaderCutOff>
    requires { place ≤ specs.max_llc_place + 3 }
    ensures is { result ≡ specs.snap_at frame.now place }
    ensures fits { IfOk result (Fits frame.now) }
    ensures within { IfOk result (λ first. first_len first ≤ length frame.now) }
{
    let len = place + SNAP_LEN;
    expect_len(frame, len)?;
    let organization_code = three_at(frame, place);
    if matches!(organization_code, ETHERNET_CODE | BRIDGE_TUNNEL_CODE) {
        return Ok(FirstHeader::EtherType(EtherHeader {
            len,
            ether_type_at: place + 3,
        }));
    }
    let protocol = short_at(frame, place + 3);
    Ok(FirstHeader::Whole(LinkHeader {
        len,
        next: Some(NetworkProtocol::Snap {
            organization_code,
            protocol,
        }),
        end: None,
    }))
}
