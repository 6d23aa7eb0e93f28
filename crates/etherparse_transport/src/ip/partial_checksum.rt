ghost use Rattle.std.specs.Prelude.{◌↔◌, IsTrue};
ghost use Rattle.transport_part.specs.StoredChecksums.{SaysWhetherPartial};
ghost use Rattle.transport_part.specs.declared.checksum_verdict.ChecksumVerdict.{ChecksumVerdict};
ghost use Rattle.etherparse_transport.specs.WrittenChecksums.{HasPartialChecksum, HasVerdict, IsPartialIn};

use crate::ip::{TransportInIp, transport_in_ip, transport_slice};

/// Whether the checksum of UDP, TCP or ICMPv6 in an IP packet is partial: the sum of only the pseudo header. A host stores this sum, and
/// leaves the rest to its network card (checksum offload). The payload is not read. In rare cases a partial checksum is also right.
///
/// A translation updates a partial checksum as if it were complete, so that it becomes wrong. Complete it before:
///
/// ```
/// if ip::is_checksum_partial(&packet) {
///     ip::write_checksum(&mut packet)?;
/// }
/// ip::translate_ipv4(&mut packet, &new)?;
/// ```
///
/// The result is false in these cases:
/// - `transport_in_ip` refuses the packet, or `transport_slice` refuses its transport.
/// - The packet is a fragment, or contains ICMPv4 or another protocol.
/// - There is no pseudo header: for an unknown final destination, or a packet that is too long for it.
pub fn is_checksum_partial(packet: &[u8]) -> bool
    ensures partial { IsTrue result ↔ HasPartialChecksum packet.now }
    // If `checksum_verdict` returns `Partial`, the checksum is partial. If it returns `Wrong`, the checksum is not partial.
    ensures verdict { (verdict : ChecksumVerdict) → HasVerdict packet.now verdict →
        SaysWhetherPartial (HasPartialChecksum packet.now) verdict }
{
    match transport_in_ip(packet) {
        Ok(found) => has_partial(&found),
        Err(_) => false,
    }
}

/// Whether the checksum of this transport is partial.
fn has_partial(found: &TransportInIp<'_>) -> bool
    ensures { IsTrue result ↔ IsPartialIn found.now }
{
    match transport_slice(found) {
        Ok(Some(transport)) => transport.is_checksum_partial(found.addresses),
        _ => false,
    }
}
