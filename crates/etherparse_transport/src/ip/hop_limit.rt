ghost use Rattle.std.specs.Prelude.{◌≡◌, ◌≢◌, ◌≤◌, ◌==◌, IfErr, IfOk, length, slice_index};
ghost use Rattle.net_base.specs.IpHeaders.{BeginsWithIpv4Header, version};
ghost use Rattle.net_base.specs.Refusals.{RefusesExactly};
ghost use Rattle.ip_part.specs.Ip.{ipv4_header_refusal};
ghost use Rattle.etherparse_transport.specs.HopLimits.{ipv4_lowered, ipv6_lowered, lower_refusal, lowered, own_header_refusal};
ghost use Rattle.etherparse_transport.specs.Ipv4Translations.{IsHeaderAccepted};

use crate::checksum_change::ChecksumChange;
use crate::err::packet::LowerHopLimitError;
use crate::ip::IpError;
use crate::ip::ip_header::{
    IPV4_CHECKSUM_AT, IPV4_LEN, IPV4_PROTOCOL_AT, IPV4_TIME_TO_LIVE_AT, IPV6_HOP_LIMIT_AT, IPV6_LEN,
};
use crate::ip::message_place::replace_bytes;
use crate::ip::translated_message::{number, store_number};

/// Lowers the time to live of an IPv4 packet or the hop limit of an IPv6 packet by one. A router does this before it forwards the packet
/// (RFC 1812, section 5.3.1; RFC 8200, section 3). No other byte changes, except the checksum of an IPv4 header.
///
/// The checksum of an IPv4 header is updated from the changed byte (RFC 1624, section 3, equation 3): a right checksum stays right, and a
/// wrong checksum stays wrong. An IPv6 header has no checksum. No checksum of a transport covers the hop limit.
///
/// ```
/// let mut packet = [
///     0x45, 0, 0, 28, 0, 0, 0, 0, 64, 17, 0xF7, 0x7D, 192, 168, 1, 1, 192, 168, 1, 2, // IPv4
///     0, 7, 0, 8, 0, 8, 0, 0, // UDP
/// ];
/// ip::lower_hop_limit(&mut packet)?;
/// assert_eq!(rt; (packet[8], [packet[10], packet[11]]), (63, [0xF8, 0x7D]));
/// ```
///
/// # Errors
///
/// The call reads only the IP header. It ignores total length, payload length and extension headers. It checks these cases, in this order,
/// and changes nothing after an error:
/// - `Ip` if the slice is empty (`HeaderCutOff`), or the version is neither 4 nor 6 (`Version`). An IPv4 packet is also refused if the
///   slice is shorter than 20 bytes (`HeaderCutOff`), the header length is below 20 bytes (`HeaderLength`), or the slice is shorter than
///   the header length (`HeaderCutOff`). An IPv6 packet is also refused if the slice is shorter than 40 bytes (`HeaderCutOff`).
/// - `Expired` if the hop limit is 0 or 1. A router then discards the packet, and reports it as time exceeded, code 0 (RFC 1812, section
///   5.3.1; RFC 4443, section 3.3).
pub fn lower_hop_limit(packet: &mut [u8]) -> Result<(), LowerHopLimitError>
    ensures refused { RefusesExactly result (lower_refusal packet.old) }
    ensures unchanged { IfErr result (λ _. packet.new ≡ packet.old) }
    ensures lowered { IfOk result (λ _. packet.new ≡ lowered packet.old) }
    // A receiver accepts the IPv4 header exactly if it accepted the header before.
    ensures header { version packet.old ≡ 4 → IfOk result (λ _. IsHeaderAccepted packet.old packet.new) }
{
    let is_ipv4 = match is_ipv4(packet) {
        Ok(is_ipv4) => is_ipv4,
        Err(error) => return Err(LowerHopLimitError::Ip(error)),
    };
    let place = if is_ipv4 {
        IPV4_TIME_TO_LIVE_AT
    } else {
        IPV6_HOP_LIMIT_AT
    };
    let hop_limit = packet[place];
    if hop_limit < 2 {
        return Err(LowerHopLimitError::Expired { hop_limit });
    }
    if is_ipv4 {
        lower_ipv4(packet);
    } else {
        replace_bytes(packet, IPV6_HOP_LIMIT_AT, &[hop_limit - 1]);
    }
    Ok(())
}

/// Whether the header at the front of a packet is an IPv4 header. If not, it is an IPv6 header. Refuses any other header.
fn is_ipv4(packet: &[u8]) -> Result<bool, IpError>
    ensures refused { RefusesExactly result (own_header_refusal packet.now) }
    ensures version { IfOk result (λ is_ipv4. is_ipv4 ≡ (version packet.now == 4)) }
    ensures ipv4 { version packet.now ≡ 4 → IfOk result (λ _. BeginsWithIpv4Header packet.now) }
    ensures ipv6 { version packet.now ≢ 4 → IfOk result (λ _. 40 ≤ length packet.now) }
{
    if packet.is_empty() {
        return Err(IpError::HeaderCutOff {
            required_len: 1,
            len: 0,
        });
    }
    match packet[0] >> 4 {
        4 => {
            check_ipv4(packet)?;
            Ok(true)
        }
        6 if packet.len() < IPV6_LEN => Err(IpError::HeaderCutOff {
            required_len: IPV6_LEN,
            len: packet.len(),
        }),
        6 => Ok(false),
        version => Err(IpError::Version { version }),
    }
}

/// Refuses a packet whose IPv4 header is cut off, or is shorter than five words.
fn check_ipv4(packet: &[u8]) -> Result<(), IpError>
    requires { version packet.now ≡ 4 }
    ensures refused { RefusesExactly result (ipv4_header_refusal packet.now) }
    ensures header { IfOk result (λ _. BeginsWithIpv4Header packet.now) }
{
    let len = packet.len();
    if len < IPV4_LEN {
        return Err(IpError::HeaderCutOff {
            required_len: IPV4_LEN,
            len,
        });
    }
    let header_len = usize::from(packet[0] & 0xf) * 4;
    if header_len < IPV4_LEN {
        return Err(IpError::HeaderLength { header_len });
    }
    if len < header_len {
        return Err(IpError::HeaderCutOff {
            required_len: header_len,
            len,
        });
    }
    Ok(())
}

/// Lowers the time to live of an IPv4 packet by one, and updates the checksum of its header.
fn lower_ipv4(packet: &mut [u8])
    requires header { BeginsWithIpv4Header packet.old }
    requires left { 2 ≤ slice_index packet.old 8 }
    ensures lowered { packet.new ≡ ipv4_lowered packet.old }
    ensures header { IsHeaderAccepted packet.old packet.new }
{
    let old = [packet[IPV4_TIME_TO_LIVE_AT], packet[IPV4_PROTOCOL_AT]];
    let new = [old[0] - 1, old[1]];
    let change = ChecksumChange::new().replace_2bytes(old, new);
    let checksum = change.apply(number(packet, IPV4_CHECKSUM_AT));
    store_number(packet, IPV4_CHECKSUM_AT, checksum);
    replace_bytes(packet, IPV4_TIME_TO_LIVE_AT, &new);
}
