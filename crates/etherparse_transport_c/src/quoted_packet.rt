ghost use Rattle.std.specs.Prelude.{◌≡◌, None, Some, drop, take, unwrap_or};
ghost use Rattle.icmp_part.specs.QuotedPackets.{quoted_by_icmpv4, quoted_by_icmpv6};
ghost use Rattle.etherparse_transport_c.specs.Errors.{Leaves, status_of, unless_refused};
ghost use Rattle.etherparse_transport_c.specs.QuotedPackets.{icmpv4_refusal, icmpv6_refusal, quoted_len};

use crate::answer::{Answer, ErrorPlace, accept, refuse};
use crate::error::{of_len, of_status};
use crate::status;
use etherparse_transport::{Icmpv4Header, Icmpv4Slice, Icmpv6Header, Icmpv6Slice};

/// Finds the packet that an ICMPv4 error quotes. The call writes the place of the quoted packet in the message to `offset`, and its length
/// to `len`. An error is a destination unreachable, source quench, redirect, time exceeded or parameter problem message. The quoted packet
/// ends with the message, or earlier if the length field of RFC 4884 states a smaller length. A length field below 128 bytes is ignored.
///
/// # Errors
///
/// The status is `OK`, a status of `etherparse_icmpv4_packet_read`, or `NO_ICMP_ERROR` if the message is not an error. After an error
/// `error` contains the reason, and `offset` and `len` are unchanged.
#[unsafe(no_mangle)]
#[tactic(auto, using(crate::proofs::QuotedPacketLemmas::found_in_icmpv4))]
pub extern "C" fn etherparse_icmpv4_quoted_packet(
    bytes: &[u8],
    offset: &mut usize,
    len: &mut usize,
    error: ErrorPlace,
) -> Answer
    ensures status { result.status ≡ status_of (icmpv4_refusal bytes.now) }
    ensures error { Leaves error result (unwrap_or (icmpv4_refusal bytes.now) error.before) }
    ensures offset { offset.new ≡ unless_refused (icmpv4_refusal bytes.now) 8 offset.old }
    ensures len { len.new ≡ unless_refused (icmpv4_refusal bytes.now) (quoted_len (quoted_by_icmpv4 bytes.now)) len.old }
    ensures quoted { icmpv4_refusal bytes.now ≡ None → quoted_by_icmpv4 bytes.now ≡ Some (take len.new (drop offset.new bytes.now)) }
{
    match Icmpv4Slice::from_slice(bytes) {
        Ok(slice) => match slice.quoted_packet() {
            Some(quoted) => {
                *offset = Icmpv4Header::MIN_LEN;
                *len = quoted.len();
                accept(error)
            }
            None => refuse(error, of_status(status::NO_ICMP_ERROR)),
        },
        Err(refused) => refuse(error, of_len(&refused)),
    }
}

/// Finds the packet that an ICMPv6 error quotes. The call writes the place of the quoted packet in the message to `offset`, and its length
/// to `len`. Each message with a type below 128 is an error. The quoted packet ends with the message, or earlier if the length field of RFC
/// 4884 states a smaller length. A length field below 128 bytes is ignored.
///
/// # Errors
///
/// The status is `OK`, a status of `etherparse_icmpv6_packet_read`, or `NO_ICMP_ERROR` if the message is not an error. After an error
/// `error` contains the reason, and `offset` and `len` are unchanged.
#[unsafe(no_mangle)]
#[tactic(auto, using(crate::proofs::QuotedPacketLemmas::found_in_icmpv6))]
pub extern "C" fn etherparse_icmpv6_quoted_packet(
    bytes: &[u8],
    offset: &mut usize,
    len: &mut usize,
    error: ErrorPlace,
) -> Answer
    ensures status { result.status ≡ status_of (icmpv6_refusal bytes.now) }
    ensures error { Leaves error result (unwrap_or (icmpv6_refusal bytes.now) error.before) }
    ensures offset { offset.new ≡ unless_refused (icmpv6_refusal bytes.now) 8 offset.old }
    ensures len { len.new ≡ unless_refused (icmpv6_refusal bytes.now) (quoted_len (quoted_by_icmpv6 bytes.now)) len.old }
    ensures quoted { icmpv6_refusal bytes.now ≡ None → quoted_by_icmpv6 bytes.now ≡ Some (take len.new (drop offset.new bytes.now)) }
{
    match Icmpv6Slice::from_slice(bytes) {
        Ok(slice) => match slice.quoted_packet() {
            Some(quoted) => {
                *offset = Icmpv6Header::MIN_LEN;
                *len = quoted.len();
                accept(error)
            }
            None => refuse(error, of_status(status::NO_ICMP_ERROR)),
        },
        Err(refused) => refuse(error, of_len(&refused)),
    }
}
