ghost use Rattle.std.specs.Prelude.{◌≡◌, None, false, unwrap_or};
ghost use Rattle.transport_part.specs.Transports as transports;
ghost use Rattle.transport_part.specs.Transports.{kept};
ghost use Rattle.ip_part.specs.Ip.{Carries, lacks_len};
ghost use Rattle.etherparse_transport_c.specs.Errors.{Leaves, status_of};
ghost use Rattle.etherparse_transport_c.specs.PacketVerdict as specs;
ghost use Rattle.etherparse_transport_c.specs.PacketVerdict.{Judges, lax_refusal, refusal, refusal_of_carried};

use crate::answer::{Answer, ErrorPlace, accept, refuse};
use crate::error::{EtherparseError, number_of_untested, of_header_slice, of_ip};
use crate::ip::{EtherparseIpTransport, fields};
use crate::{protocol, verdict_kind};
use etherparse_transport::err::tcp::HeaderSliceError;
use etherparse_transport::ip::{
    TransportInIp, checksum_verdict, transport_in_ip, transport_in_ip_lax, transport_slice,
};
use etherparse_transport::{ChecksumVerdict, Proto};

/// An IP packet that was read (RFC 791, section 3.1; RFC 8200, sections 3 and 4), and the verdict on the checksum of its transport.
#[repr(C)]
#[derive(Clone, Copy)]
pub struct EtherparseIpPacket {
    /// The transport in the packet.
    pub transport: EtherparseIpTransport,
    /// The protocol of the header at the start of the payload, as its number in IP headers. It is 0 for a fragment, for a protocol other
    /// than UDP, TCP and ICMP, and for ICMP of the wrong IP version.
    pub header_protocol: u32,
    /// The verdict. The module `verdict_kind` lists the numbers.
    pub verdict: u32,
    /// The right checksum if the stored checksum is wrong or partial, otherwise 0.
    pub expected_checksum: u16,
}

/// Returns the number of a protocol.
fn number_of_proto(proto: Proto) -> u32
    ensures { result ≡ specs.proto_number proto }
{
    match proto {
        Proto::Udp => protocol::UDP,
        Proto::Tcp => protocol::TCP,
        Proto::Icmpv4 => protocol::ICMPV4,
        Proto::Icmpv6 => protocol::ICMPV6,
    }
}

/// Returns the number of the protocol whose header is at the start of the payload. It is 0 if the payload does not begin with a header of
/// UDP, TCP or ICMP.
fn header_protocol(carried: &TransportInIp<'_>) -> u32
    ensures { transports.refusal carried.now ≡ None → result ≡ specs.header_protocol (kept carried.now) }
{
    match transport_slice(carried) {
        Ok(Some(transport)) => number_of_proto(transport.proto()),
        _ => 0,
    }
}

/// Returns the number of a verdict.
fn number_of_verdict(verdict: ChecksumVerdict) -> u32
    ensures { result ≡ specs.verdict_number verdict }
{
    match verdict {
        ChecksumVerdict::Right => verdict_kind::RIGHT,
        ChecksumVerdict::Absent => verdict_kind::ABSENT,
        ChecksumVerdict::Wrong { .. } => verdict_kind::WRONG,
        ChecksumVerdict::Partial { .. } => verdict_kind::PARTIAL,
        ChecksumVerdict::Untested(why) => number_of_untested(why),
    }
}

/// Returns the right checksum if the verdict contains it, and 0 otherwise.
fn expected_checksum(verdict: ChecksumVerdict) -> u16
    ensures { result ≡ specs.expected_checksum verdict }
{
    match verdict {
        ChecksumVerdict::Wrong { expected } | ChecksumVerdict::Partial { expected } => expected,
        _ => 0,
    }
}

/// Returns the error for a refused transport header that begins at this place in the packet.
pub(crate) fn of_transport(place: usize, error: &HeaderSliceError) -> EtherparseError
    ensures { result ≡ specs.of_transport place error.now }
{
    match error {
        HeaderSliceError::Len(_) => EtherparseError {
            layer_start_offset: place,
            ..of_header_slice(error)
        },
        HeaderSliceError::Content(_) => of_header_slice(error),
    }
}

/// Writes the transport of a packet and the verdict on its checksum to `packet`. The strict and the lax call share this function.
fn judge(
    bytes: &[u8],
    carried: &TransportInIp<'_>,
    packet: &mut EtherparseIpPacket,
    error: ErrorPlace,
) -> Answer
    requires { Carries bytes.now carried.now }
    ensures status { result.status ≡ status_of (refusal_of_carried bytes.now carried.now) }
    ensures error { Leaves error result (unwrap_or (refusal_of_carried bytes.now carried.now) error.before) }
    ensures packet { Judges (refusal_of_carried bytes.now carried.now) carried.now.is_length_missing bytes.now packet.new packet.old }
{
    let transport = fields(bytes, carried);
    match checksum_verdict(carried) {
        Ok(verdict) => {
            *packet = EtherparseIpPacket {
                transport,
                header_protocol: header_protocol(carried),
                verdict: number_of_verdict(verdict),
                expected_checksum: expected_checksum(verdict),
            };
            accept(error)
        }
        Err(refused) => refuse(error, of_transport(transport.payload_offset, &refused)),
    }
}

/// Finds the transport in the IP packet at the front of some bytes, as `etherparse_transport_in_ip` does. Then the call tests the checksum.
/// After the call `packet` contains the verdict, and the right checksum if the stored checksum is wrong or partial.
///
/// # Errors
///
/// The status is a status of `etherparse_transport_in_ip`. It is `LENGTH` or `DATA_OFFSET` if the call that reads a packet of this protocol
/// returns it. After an error `error` contains the reason, and `packet` is unchanged.
#[unsafe(no_mangle)]
pub extern "C" fn etherparse_packet_verdict(
    bytes: &[u8],
    packet: &mut EtherparseIpPacket,
    error: ErrorPlace,
) -> Answer
    ensures status { result.status ≡ status_of (refusal bytes.now) }
    ensures error { Leaves error result (unwrap_or (refusal bytes.now) error.before) }
    ensures packet { Judges (refusal bytes.now) false bytes.now packet.new packet.old }
{
    match transport_in_ip(bytes) {
        Ok(carried) => judge(bytes, &carried, packet, error),
        Err(refused) => refuse(error, of_ip(&refused)),
    }
}

/// Finds the transport in a packet that may be cut off or state no length, as `etherparse_transport_in_ip_lax` does. Then the call tests
/// the checksum, unless the packet is cut off. It reads a UDP packet that is cut off as `etherparse_udp_packet_read_lax` does.
///
/// # Errors
///
/// The status is a status of `etherparse_transport_in_ip_lax`, or `LENGTH` or `DATA_OFFSET` as in `etherparse_packet_verdict`.
#[unsafe(no_mangle)]
pub extern "C" fn etherparse_packet_verdict_lax(
    bytes: &[u8],
    packet: &mut EtherparseIpPacket,
    error: ErrorPlace,
) -> Answer
    ensures status { result.status ≡ status_of (lax_refusal bytes.now) }
    ensures error { Leaves error result (unwrap_or (lax_refusal bytes.now) error.before) }
    ensures packet { Judges (lax_refusal bytes.now) (lacks_len bytes.now) bytes.now packet.new packet.old }
{
    match transport_in_ip_lax(bytes) {
        Ok(kept) => judge(bytes, &kept, packet, error),
        Err(refused) => refuse(error, of_ip(&refused)),
    }
}
