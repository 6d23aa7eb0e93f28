//! The protocol of a frame that contains no IP packet.

ghost use Rattle.std.specs.Prelude.{◌≡◌, OnOk};
ghost use Rattle.capture_json.specs.Tokens.{tokens_in, with_members};
ghost use Rattle.capture_json.specs.JsonPacket.{network_members, network_number_members};

use crate::Line;
use crate::protocol::put_name;
use capture_packet::NetworkProtocol;
use capture_summary::network_protocol_name;
use std::alloc::AllocError;

/// Writes the numbers that identify a protocol, and its name if it has a name.
pub fn put_network_protocol(line: &mut Line, protocol: NetworkProtocol) -> Result<(), AllocError>
    ensures { OnOk result (tokens_in line.new ≡ with_members (network_members protocol) (tokens_in line.old)) }
{
    put_network_number(line, protocol)?;
    put_name(line, network_protocol_name(protocol))
}

/// Writes the numbers that identify a protocol. The name of each member is the kind of the number, such as `ether_type`.
fn put_network_number(line: &mut Line, protocol: NetworkProtocol) -> Result<(), AllocError>
    ensures { OnOk result (tokens_in line.new ≡ with_members (network_number_members protocol) (tokens_in line.old)) }
{
    match protocol {
        NetworkProtocol::EtherType(number) => line.put_number("ether_type", u64::from(number)),
        NetworkProtocol::AddressFamily(number) => {
            line.put_number("address_family", u64::from(number))
        }
        NetworkProtocol::LinkType(number) => line.put_number("link_type", u64::from(number)),
        NetworkProtocol::Ieee80211 { frame_control } => {
            line.put_number("frame_control", u64::from(frame_control))
        }
        NetworkProtocol::Radiotap { version, len } => {
            line.put_number("radiotap_version", u64::from(version))?;
            line.put_number("radiotap_length", u64::from(len))
        }
        NetworkProtocol::Llc { dsap, ssap } => {
            line.put_number("llc_dsap", u64::from(dsap))?;
            line.put_number("llc_ssap", u64::from(ssap))
        }
        NetworkProtocol::Snap {
            organization_code,
            protocol,
        } => {
            line.put_number("snap_organization_code", u64::from(organization_code))?;
            line.put_number("snap_protocol", u64::from(protocol))
        }
        NetworkProtocol::PppProtocol(number) => {
            line.put_number("ppp_protocol", u64::from(number))
        }
        NetworkProtocol::FrameRelay { header } => {
            line.put_number("frame_relay_header", u64::from(header))
        }
        NetworkProtocol::Nlpid(number) => line.put_number("nlpid", u64::from(number)),
    }
}
