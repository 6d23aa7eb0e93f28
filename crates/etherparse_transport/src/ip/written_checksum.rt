ghost use Rattle.std.specs.Prelude.{◌≡◌, ◌≤◌, ◌<◌, ◌+◌, ◌^◌, IfErr, IfOk, MatchResult, false, length};
ghost use Rattle.net_base.specs.StoredChecksum.{with_checksum};
ghost use Rattle.transport_part.specs.Verdicts.{HasChecksum};
ghost use Rattle.transport_part.specs.declared.checksum_verdict.ChecksumVerdict.{ChecksumVerdict};
ghost use Rattle.transport_part.specs.declared.checksum_verdict.ChecksumVerdict.TheVariants as verdicts;
ghost use Rattle.etherparse_transport.specs.WrittenChecksums.{HasVerdict, IsRefusedFor, IsRefusedIn, IsRightIn, IsWritten, WritesBy};
ghost use Rattle.etherparse_transport.specs.declared.err.packet.write_checksum_error.WriteChecksumError.{WriteChecksumError as Error};

use crate::Untested;
use crate::err::packet::WriteChecksumError;
use crate::ip::translated_message::store_number;
use crate::ip::{TransportInIp, transport_in_ip, transport_slice};

/// Writes the right checksum of UDP, TCP or ICMP into an IP packet, whatever checksum it contains, and returns the checksum. Afterwards
/// `checksum_verdict` returns `Right`. A right checksum is unchanged. A wrong or partial checksum is replaced by the expected checksum. A
/// UDP packet over IPv4 without a checksum gets a checksum. No other byte changes, and the checksum of the IPv4 header is not tested.
///
/// ```
/// let mut packet = [
///     0x45, 0, 0, 31, 0, 0, 0, 0, 64, 17, 0, 0, 192, 168, 1, 1, 192, 168, 1, 2, // IPv4
///     0x00, 0x15, 0x04, 0xD2, 0x00, 0x0B, 0x12, 0x34, b'a', b'b', b'c', // UDP
/// ];
/// let checksum = ip::write_checksum(&mut packet)?; // 0xB33A
/// ```
///
/// # Errors
///
/// The call changes nothing after an error:
/// - `Ip` if `transport_in_ip` refuses the packet.
/// - `Transport` if `checksum_verdict` refuses the transport that `transport_in_ip` finds.
/// - `Untested` if `checksum_verdict` returns `Untested`, with the same reason. For example, a fragment is not tested, since its checksum
///   covers the other fragments too.
pub fn write_checksum(packet: &mut [u8]) -> Result<u16, WriteChecksumError>
    ensures refused { MatchResult result (λ _. (error : Error) → ¬ IsRefusedFor packet.old error) (λ error. IsRefusedFor packet.old error) }
    ensures unchanged { IfErr result (λ _. packet.new ≡ packet.old) }
    ensures written { IfOk result (λ checksum. IsWritten packet.old checksum packet.new) }
    // Afterwards the verdict is `Right`.
    ensures right { IfOk result (λ _. HasVerdict packet.new verdicts.Right) }
    ensures chosen { IfOk result (λ checksum. (verdict : ChecksumVerdict) → HasChecksum verdict → HasVerdict packet.old verdict →
        WritesBy verdict packet.old checksum packet.new) }
{
    let (place, checksum) = right_checksum(packet)?;
    store_number(packet, place, checksum);
    Ok(checksum)
}

/// The place of the checksum in an IP packet, in bytes from its start, and the right checksum.
fn right_checksum(packet: &[u8]) -> Result<(usize, u16), WriteChecksumError>
    ensures refused { MatchResult result (λ _. (error : Error) → ¬ IsRefusedFor packet.now error) (λ error. IsRefusedFor packet.now error) }
    ensures there { IfOk result (λ right. right.0 + 2 ≤ length packet.now) }
    ensures written { IfOk result (λ right. IsWritten packet.now right.1 (with_checksum right.0 packet.now right.1)) }
    ensures right { IfOk result (λ right. HasVerdict (with_checksum right.0 packet.now right.1) verdicts.Right) }
    ensures chosen { IfOk result (λ right. (verdict : ChecksumVerdict) → HasChecksum verdict → HasVerdict packet.now verdict →
        WritesBy verdict packet.now right.1 (with_checksum right.0 packet.now right.1)) }
{
    match transport_in_ip(packet) {
        Ok(found) => checksum_in(&found),
        Err(error) => Err(WriteChecksumError::Ip(error)),
    }
}

/// The place of the checksum of this transport, in bytes from the start of the IP packet, and the right checksum.
fn checksum_in(found: &TransportInIp<'_>) -> Result<(usize, u16), WriteChecksumError>
    requires whole { found.now.is_cut_off ≡ false }
    requires bounded { found.now.payload_offset < 2 ^ 63 }
    ensures { MatchResult result (λ right. IsRightIn found.now right.0 right.1) (λ error. IsRefusedIn found.now error) }
{
    match transport_slice(found) {
        Ok(Some(transport)) => match transport.right_checksum(found.addresses) {
            Ok(checksum) => Ok((found.payload_offset + transport.checksum_place(), checksum)),
            Err(why) => Err(WriteChecksumError::Untested(why)),
        },
        Ok(None) if found.is_fragment => Err(WriteChecksumError::Untested(Untested::Fragment)),
        Ok(None) => Err(WriteChecksumError::Untested(Untested::OtherProtocol)),
        Err(error) => Err(WriteChecksumError::Transport(error)),
    }
}
