//! Laws of the types and constants of ICMPv4.
//!
//! # Errors
//!
//! No call returns an error: each clone succeeds.
ghost use Rattle.std.specs.Prelude.{◌≡◌, ◌↔◌, IsOkAnd, IsTrue};
ghost use Rattle.net_base.specs.StoredChecksum.{icmp_checksum_place};

use crate::icmpv4::*;
use crate::{Icmpv4Header, Icmpv4Slice, Icmpv4Type};
use std::alloc::AllocError;

/// A clone is the same value.
pub fn cloned_slice<'a>(slice: &Icmpv4Slice<'a>) -> Result<Icmpv4Slice<'a>, AllocError>
    ensures same { IsOkAnd result (λ copy. copy ≡ slice.now) }
{
    slice.clone()
}

/// `==` holds exactly if all bytes are the same.
pub fn equal_slice(a: &Icmpv4Slice<'_>, b: &Icmpv4Slice<'_>) -> bool
    ensures same { IsTrue result ↔ (a.now ≡ b.now) }
{
    a == b
}

/// A clone is the same value.
pub fn cloned_header(header: &Icmpv4Header) -> Result<Icmpv4Header, AllocError>
    ensures same { IsOkAnd result (λ copy. copy ≡ header.now) }
{
    header.clone()
}

/// `==` holds exactly if all fields are the same.
pub fn equal_header(a: &Icmpv4Header, b: &Icmpv4Header) -> bool
    ensures same { IsTrue result ↔ (a.now ≡ b.now) }
{
    a == b
}

/// A clone is the same value.
pub fn cloned_type(message: &Icmpv4Type) -> Result<Icmpv4Type, AllocError>
    ensures same { IsOkAnd result (λ copy. copy ≡ message.now) }
{
    message.clone()
}

/// `==` holds exactly if the kind and all fields are the same.
pub fn equal_type(a: &Icmpv4Type, b: &Icmpv4Type) -> bool
    ensures same { IsTrue result ↔ (a.now ≡ b.now) }
{
    a == b
}

/// A clone is the same value.
pub fn cloned_dest_unreachable_header(
    header: &DestUnreachableHeader,
) -> Result<DestUnreachableHeader, AllocError>
    ensures same { IsOkAnd result (λ copy. copy ≡ header.now) }
{
    header.clone()
}

/// `==` holds exactly if the code and the MTU are the same.
pub fn equal_dest_unreachable_header(a: &DestUnreachableHeader, b: &DestUnreachableHeader) -> bool
    ensures same { IsTrue result ↔ (a.now ≡ b.now) }
{
    a == b
}

/// A clone is the same value.
pub fn cloned_parameter_problem_header(
    header: &ParameterProblemHeader,
) -> Result<ParameterProblemHeader, AllocError>
    ensures same { IsOkAnd result (λ copy. copy ≡ header.now) }
{
    header.clone()
}

/// `==` holds exactly if the code and the pointer are the same.
pub fn equal_parameter_problem_header(
    a: &ParameterProblemHeader,
    b: &ParameterProblemHeader,
) -> bool
    ensures same { IsTrue result ↔ (a.now ≡ b.now) }
{
    a == b
}

/// A clone is the same value.
pub fn cloned_redirect_code(code: &RedirectCode) -> Result<RedirectCode, AllocError>
    ensures same { IsOkAnd result (λ copy. copy ≡ code.now) }
{
    code.clone()
}

/// `==` holds exactly if the codes are the same.
pub fn equal_redirect_code(a: &RedirectCode, b: &RedirectCode) -> bool
    ensures same { IsTrue result ↔ (a.now ≡ b.now) }
{
    a == b
}

/// A clone is the same value.
pub fn cloned_redirect_header(header: &RedirectHeader) -> Result<RedirectHeader, AllocError>
    ensures same { IsOkAnd result (λ copy. copy ≡ header.now) }
{
    header.clone()
}

/// `==` holds exactly if all fields are the same.
pub fn equal_redirect_header(a: &RedirectHeader, b: &RedirectHeader) -> bool
    ensures same { IsTrue result ↔ (a.now ≡ b.now) }
{
    a == b
}

/// A clone is the same value.
pub fn cloned_time_exceeded_code(code: &TimeExceededCode) -> Result<TimeExceededCode, AllocError>
    ensures same { IsOkAnd result (λ copy. copy ≡ code.now) }
{
    code.clone()
}

/// `==` holds exactly if the codes are the same.
pub fn equal_time_exceeded_code(a: &TimeExceededCode, b: &TimeExceededCode) -> bool
    ensures same { IsTrue result ↔ (a.now ≡ b.now) }
{
    a == b
}

/// A clone is the same value.
pub fn cloned_timestamp_message(message: &TimestampMessage) -> Result<TimestampMessage, AllocError>
    ensures same { IsOkAnd result (λ copy. copy ≡ message.now) }
{
    message.clone()
}

/// `==` holds exactly if all fields are the same.
pub fn equal_timestamp_message(a: &TimestampMessage, b: &TimestampMessage) -> bool
    ensures same { IsTrue result ↔ (a.now ≡ b.now) }
{
    a == b
}

/// The constants for lengths, for the place of the checksum, for types and for codes have these values.
pub fn constants()
    ensures header_lens { (Icmpv4Header.MIN_LEN ≡ 8) × (Icmpv4Header.MIN_SERIALIZED_SIZE ≡ 8) × (Icmpv4Header.MAX_LEN ≡ 20)
        × (Icmpv4Header.MAX_SERIALIZED_SIZE ≡ 20) }
    ensures checksum_place { Icmpv4Header.CHECKSUM_AT ≡ icmp_checksum_place }
    ensures timestamp_lens { (TimestampMessage.LEN ≡ 20) × (TimestampMessage.SERIALIZED_SIZE ≡ 20) }
    ensures types { (TYPE_ECHO_REPLY ≡ 0) × (TYPE_DEST_UNREACH ≡ 3) × (TYPE_SOURCE_QUENCH ≡ 4) × (TYPE_REDIRECT ≡ 5)
        × (TYPE_ALTERNATE_HOST_ADDRESS ≡ 6) × (TYPE_ECHO_REQUEST ≡ 8) × (TYPE_ROUTER_ADVERTISEMENT ≡ 9)
        × (TYPE_ROUTER_SOLICITATION ≡ 10) × (TYPE_TIME_EXCEEDED ≡ 11) × (TYPE_PARAMETER_PROBLEM ≡ 12) × (TYPE_TIMESTAMP ≡ 13)
        × (TYPE_TIMESTAMP_REPLY ≡ 14) × (TYPE_INFO_REQUEST ≡ 15) × (TYPE_INFO_REPLY ≡ 16) × (TYPE_ADDRESS ≡ 17)
        × (TYPE_ADDRESSREPLY ≡ 18) }
    ensures dest_unreachable_codes { (CODE_DST_UNREACH_NET ≡ 0) × (CODE_DST_UNREACH_HOST ≡ 1) × (CODE_DST_UNREACH_PROTOCOL ≡ 2)
        × (CODE_DST_UNREACH_PORT ≡ 3) × (CODE_DST_UNREACH_NEED_FRAG ≡ 4) × (CODE_DST_UNREACH_SOURCE_ROUTE_FAILED ≡ 5)
        × (CODE_DST_UNREACH_NET_UNKNOWN ≡ 6) × (CODE_DST_UNREACH_HOST_UNKNOWN ≡ 7) × (CODE_DST_UNREACH_ISOLATED ≡ 8)
        × (CODE_DST_UNREACH_NET_PROHIB ≡ 9) × (CODE_DST_UNREACH_HOST_PROHIB ≡ 10) × (CODE_DST_UNREACH_TOS_NET ≡ 11)
        × (CODE_DST_UNREACH_TOS_HOST ≡ 12) × (CODE_DST_UNREACH_FILTER_PROHIB ≡ 13) × (CODE_DST_UNREACH_HOST_PRECEDENCE_VIOLATION ≡ 14)
        × (CODE_DST_UNREACH_PRECEDENCE_CUTOFF ≡ 15) }
    ensures redirect_codes { (CODE_REDIRECT_FOR_NETWORK ≡ 0) × (CODE_REDIRECT_FOR_HOST ≡ 1)
        × (CODE_REDIRECT_TYPE_OF_SERVICE_AND_NETWORK ≡ 2) × (CODE_REDIRECT_TYPE_OF_SERVICE_AND_HOST ≡ 3) }
    ensures time_exceeded_codes { (CODE_TIME_EXCEEDED_TTL_EXCEEDED_IN_TRANSIT ≡ 0)
        × (CODE_TIME_EXCEEDED_FRAG_REASSEMBLY_TIME_EXCEEDED ≡ 1) }
    ensures parameter_problem_codes { (CODE_PARAMETER_PROBLEM_POINTER_INDICATES_ERROR ≡ 0)
        × (CODE_PARAMETER_PROBLEM_MISSING_REQUIRED_OPTION ≡ 1) × (CODE_PARAMETER_PROBLEM_BAD_LENGTH ≡ 2) }
{}
