//! The translation of an IPv6 packet as the table of replacements requires.

ghost use Rattle.std.specs.Prelude.{◌≡◌, IfOk, Some};
ghost use Rattle.net_base.specs.Refusals.{RefusesExactly};
ghost use Rattle.translator.specs.Given.{ipv6_by_quoted, ipv6_given};
ghost use Rattle.translator.specs.Packets.{TranslatesIpv6};
ghost use Rattle.translator.specs.Reasons.{ipv6_quoting_reason, ipv6_unknown_reason};

use crate::packet::quoted_in;
use crate::reason::Reason;
use crate::table::{Table, exchanged};
use capture_packet::ports_in;
use etherparse_transport::ip::{Ipv6Translation, translate_ipv6, transport_in_ip_lax};
use etherparse_transport::{Ipv6Header, Ipv6HeaderSlice};

/// Translates an IPv6 packet in place. Returns whether a replacement of the table applies to it.
pub(crate) fn translate_ipv6_packet(packet: &mut [u8], table: &Table) -> Result<bool, Reason>
    ensures { TranslatesIpv6 table.now packet.old packet.new result }
{
    let new = translation(packet, table)?;
    if new == Ipv6Translation::default() {
        return Ok(false);
    }
    match translate_ipv6(packet, &new) {
        Ok(()) => Ok(true),
        Err(error) => Err(Reason::of(&error)),
    }
}

/// What the table replaces in an IPv6 packet.
fn translation(packet: &[u8], table: &Table) -> Result<Ipv6Translation, Reason>
    ensures given { IfOk result (λ new. new ≡ ipv6_given table.now packet.now) }
    ensures refused { RefusesExactly result (ipv6_unknown_reason table.now packet.now) }
{
    let found = match transport_in_ip_lax(packet) {
        Ok(found) => found,
        Err(error) => return Err(Reason::IpHeaders(error)),
    };
    let Some(header) = Ipv6HeaderSlice::from_slice(packet) else {
        return Err(Reason::OtherVersion);
    };
    let new = table.ipv6_translation(&header.to_header(), ports_in(&found));
    match quoted_in(&found) {
        Some(quoted) => quoting_translation(quoted, table, &new),
        None => Ok(new),
    }
}

/// What the table replaces in an ICMP error that quotes this packet. `outer` is what the table gives for the addresses of the error itself.
/// The ports of the quoted packet are exchanged, since it went in the other direction. One translation replaces the addresses of both
/// packets, so both need the same replacements (RFC 5508, section 4).
fn quoting_translation(
    quoted: &[u8],
    table: &Table,
    outer: &Ipv6Translation,
) -> Result<Ipv6Translation, Reason>
    ensures given { IfOk result (λ new. new ≡ ipv6_by_quoted table.now quoted.now) }
    ensures refused { RefusesExactly result (ipv6_quoting_reason table.now outer.now (Some quoted.now)) }
{
    let Ok(found) = transport_in_ip_lax(quoted) else {
        return Err(Reason::QuotedPacket);
    };
    let Some(header) = Ipv6HeaderSlice::from_slice(quoted) else {
        return Err(Reason::QuotedPacket);
    };
    let opposite = Ipv6Header {
        source: header.destination(),
        destination: header.source(),
    };
    let inner = table.ipv6_translation(&opposite, exchanged(ports_in(&found)));
    let new = Ipv6Translation {
        source: outer.source,
        destination: outer.destination,
        ..inner
    };
    if new == inner {
        return Ok(new);
    }
    Err(Reason::QuotedAddresses)
}
