ghost use Rattle.std.specs.Prelude.{◌≡◌, ◌↔◌, IfOk, IsTrue, None, unwrap_or};
ghost use Rattle.net_base.specs.Refusals.{RefusesExactly};
ghost use Rattle.transport_part.specs.Transports as transports;
ghost use Rattle.transport_part.specs.Verdicts.{HasChecksum};
ghost use Rattle.transport_part.specs.declared.checksum_verdict.ChecksumVerdict.{ChecksumVerdict};
ghost use Rattle.transport_part.specs.declared.checksum_verdict.ChecksumVerdict.TheVariants as verdicts;
ghost use Rattle.etherparse_transport.specs.WrittenChecksums.{HasVerdict, IsRefusedFor, IsWritten, WritesBy};
ghost use Rattle.etherparse_transport.specs.declared.err.packet.write_checksum_error.WriteChecksumError.{WriteChecksumError};
ghost use Rattle.etherparse_transport_c.specs.Errors.{Leaves, status_of};
ghost use Rattle.etherparse_transport_c.specs.PacketChecksum.{HasPartial, IsAccepted, StoreTells, TellsPartial};
ghost use Rattle.etherparse_transport_c.specs.PacketVerdict.{refusal};

use crate::answer::{Answer, ErrorPlace, accept, refuse};
use crate::error::{of_ip, of_write_checksum};
use crate::packet_verdict::of_transport;
use etherparse_transport::err::tcp::HeaderSliceError;
use etherparse_transport::ip::{TransportInIp, transport_in_ip, transport_slice, write_checksum};

/// Stores the right checksum of UDP, TCP or ICMP in an IPv4 or IPv6 packet, and writes it to `checksum`. The packet may contain any
/// checksum before the call. After the call `etherparse_packet_verdict` returns the verdict `RIGHT`. A partial checksum becomes a whole
/// checksum. A UDP packet over IPv4 without a checksum gets a checksum. No other byte changes. The checksum of the IPv4 header is not
/// tested.
///
/// # Errors
///
/// The status is `OK`, or the first of these that applies:
/// - An error of `etherparse_transport_in_ip`.
/// - `LENGTH` or `DATA_OFFSET` if the call that reads a packet of this protocol returns it.
/// - `CHECKSUM_UNTESTED` if `etherparse_packet_verdict` does not test the checksum. The error contains the verdict.
///
/// After an error `error` contains the reason, and `packet` and `checksum` are unchanged.
#[unsafe(no_mangle)]
pub extern "C" fn etherparse_packet_checksum_store(
    packet: &mut [u8],
    checksum: &mut u16,
    error: ErrorPlace,
) -> Answer
    ensures told { StoreTells packet.old result.status result.error error.before }
    ensures pointer { result.pointer ≡ error.pointer }
    ensures unchanged { (why : WriteChecksumError) → IsRefusedFor packet.old why → (packet.new ≡ packet.old) × (checksum.new ≡ checksum.old) }
    ensures written { IsAccepted packet.old → IsWritten packet.old checksum.new packet.new }
    // After the call the verdict is `RIGHT`.
    ensures right { IsAccepted packet.old → HasVerdict packet.new verdicts.Right }
    // A right checksum stays, and a wrong or partial checksum becomes the expected checksum.
    ensures chosen { IsAccepted packet.old → (verdict : ChecksumVerdict) → HasChecksum verdict → HasVerdict packet.old verdict →
        WritesBy verdict packet.old checksum.new packet.new }
{
    match write_checksum(packet) {
        Ok(written) => {
            *checksum = written;
            accept(error)
        }
        Err(refused) => refuse(error, of_write_checksum(&refused)),
    }
}

/// Returns whether the checksum of a transport is partial. Only UDP, TCP and ICMPv6 can have a partial checksum.
fn has_partial(carried: &TransportInIp<'_>) -> Result<bool, HeaderSliceError>
    ensures refused { RefusesExactly result (transports.refusal carried.now) }
    ensures partial { IfOk result (λ partial. IsTrue partial ↔ HasPartial carried.now) }
{
    match transport_slice(carried) {
        Ok(Some(transport)) => Ok(transport.is_checksum_partial(carried.addresses)),
        Ok(None) => Ok(false),
        Err(refused) => Err(refused),
    }
}

/// Tests whether the checksum of UDP, TCP or ICMPv6 in an IP packet is partial, and writes 1 or 0 to `is_partial`. A partial checksum is
/// the sum of only the pseudo header. A host leaves the rest of the sum to its network card (checksum offload). So a packet from a socket
/// of the same host often contains a partial checksum. Complete it with `etherparse_packet_checksum_store` before you change or forward the
/// packet. The payload is not read. The call writes 0 for a fragment, and for any other protocol.
///
/// # Errors
///
/// The statuses of `etherparse_packet_verdict`. After an error `error` contains the reason, and `is_partial` is unchanged.
#[unsafe(no_mangle)]
pub extern "C" fn etherparse_packet_checksum_is_partial(
    bytes: &[u8],
    is_partial: &mut u32,
    error: ErrorPlace,
) -> Answer
    ensures status { result.status ≡ status_of (refusal bytes.now) }
    ensures error { Leaves error result (unwrap_or (refusal bytes.now) error.before) }
    ensures partial { TellsPartial (refusal bytes.now) bytes.now is_partial.new is_partial.old }
{
    match transport_in_ip(bytes) {
        Ok(carried) => match has_partial(&carried) {
            Ok(partial) => {
                *is_partial = u32::from(partial);
                accept(error)
            }
            Err(refused) => refuse(error, of_transport(carried.payload_offset, &refused)),
        },
        Err(refused) => refuse(error, of_ip(&refused)),
    }
}
