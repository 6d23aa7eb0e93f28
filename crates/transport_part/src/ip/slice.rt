ghost use Rattle.std.specs.Prelude.{◌≡◌, IfOk, Some, false};
ghost use Rattle.ip_part.specs.declared.proto.Proto.TheVariants as protos;
ghost use Rattle.net_base.specs.Refusals.{RefusesExactly};
ghost use Rattle.transport_part.specs.Transports.{kept, kept_by, refusal, refusal_by};

use crate::TransportSlice;
use crate::ip::proto_in_ip;
use icmp_part::{Icmpv4Slice, Icmpv6Slice};
use ip_part::{Proto, TransportInIp};
use net_base::err::tcp::HeaderSliceError;
use tcp_part::TcpSlice;
use udp_part::UdpSlice;

// The functions are inlined, so that the slice is not stored in memory and loaded again.

/// The transport that `transport_in_ip` found, as a slice of its protocol (RFC 768; RFC 9293, section 3.1; RFC 792; RFC 4443, section 2.1).
/// `None` if `proto_in_ip` returns `None`: for a fragment, for any other protocol, and for ICMP of the wrong IP version.
///
/// A packet that is cut off is accepted if its transport header is whole. If a UDP packet is cut off, `UdpSlice::from_slice_lax` reads it.
///
/// # Errors
///
/// The errors of `from_slice` for the slice of the protocol:
/// - `Len` if the payload is shorter than the header.
/// - `Len` if the length field of a UDP packet that is not cut off is 1 to 7, or above the length of the payload.
/// - `Len` if an ICMPv4 timestamp message or reply with code 0 is not 20 bytes long, or an ICMPv6 message is longer than 4,294,967,295
///   bytes.
/// - `DataOffsetTooSmall` if the data offset of a TCP header is below 5.
#[inline(always)]
pub fn transport_slice<'a>(
    found: &TransportInIp<'a>,
) -> Result<Option<TransportSlice<'a>>, HeaderSliceError>
    ensures refused { RefusesExactly result (refusal found.now) }
    ensures kept { IfOk result (λ transport. transport ≡ kept found.now) }
{
    match proto_in_ip(found) {
        Some(proto) => Ok(Some(slice_by(proto, found.payload, found.is_cut_off)?)),
        None => Ok(None),
    }
}

/// The payload as a slice of this protocol.
#[inline(always)]
pub(crate) fn slice_by<'a>(
    proto: Proto,
    payload: &'a [u8],
    is_cut_off: bool,
) -> Result<TransportSlice<'a>, HeaderSliceError>
    ensures refused { RefusesExactly result (refusal_by (Some proto) is_cut_off payload.now) }
    ensures kept { IfOk result (λ transport. Some transport ≡ kept_by (Some proto) payload.now) }
{
    match proto {
        Proto::Udp => udp_slice(payload, is_cut_off),
        Proto::Tcp => tcp_slice(payload),
        Proto::Icmpv4 => icmpv4_slice(payload),
        Proto::Icmpv6 => icmpv6_slice(payload),
    }
}

/// The payload as a UDP packet. If the packet is cut off, the length field may count more bytes than the slice contains.
#[inline(always)]
fn udp_slice<'a>(
    payload: &'a [u8],
    is_cut_off: bool,
) -> Result<TransportSlice<'a>, HeaderSliceError>
    ensures refused { RefusesExactly result (refusal_by (Some protos.Udp) is_cut_off payload.now) }
    ensures kept { IfOk result (λ transport. Some transport ≡ kept_by (Some protos.Udp) payload.now) }
{
    if is_cut_off {
        let packet = UdpSlice::from_slice_lax(payload).map_err(HeaderSliceError::Len)?;
        Ok(TransportSlice::Udp(packet))
    } else {
        let packet = UdpSlice::from_slice(payload).map_err(HeaderSliceError::Len)?;
        Ok(TransportSlice::Udp(packet))
    }
}

/// The payload as a TCP segment.
#[inline(always)]
fn tcp_slice(payload: &[u8]) -> Result<TransportSlice<'_>, HeaderSliceError>
    ensures refused { RefusesExactly result (refusal_by (Some protos.Tcp) false payload.now) }
    ensures kept { IfOk result (λ transport. Some transport ≡ kept_by (Some protos.Tcp) payload.now) }
{
    Ok(TransportSlice::Tcp(TcpSlice::from_slice(payload)?))
}

/// The payload as an ICMPv4 message.
#[inline(always)]
fn icmpv4_slice(payload: &[u8]) -> Result<TransportSlice<'_>, HeaderSliceError>
    ensures refused { RefusesExactly result (refusal_by (Some protos.Icmpv4) false payload.now) }
    ensures kept { IfOk result (λ transport. Some transport ≡ kept_by (Some protos.Icmpv4) payload.now) }
{
    let message = Icmpv4Slice::from_slice(payload).map_err(HeaderSliceError::Len)?;
    Ok(TransportSlice::Icmpv4(message))
}

/// The payload as an ICMPv6 message.
#[inline(always)]
fn icmpv6_slice(payload: &[u8]) -> Result<TransportSlice<'_>, HeaderSliceError>
    ensures refused { RefusesExactly result (refusal_by (Some protos.Icmpv6) false payload.now) }
    ensures kept { IfOk result (λ transport. Some transport ≡ kept_by (Some protos.Icmpv6) payload.now) }
{
    let message = Icmpv6Slice::from_slice(payload).map_err(HeaderSliceError::Len)?;
    Ok(TransportSlice::Icmpv6(message))
}
