//! Laws of the types and constants of ICMPv6.
//!
//! # Errors
//!
//! No call returns an error: each clone succeeds.
ghost use Rattle.std.specs.Prelude.{◌≡◌, ◌↔◌, IsOkAnd, IsTrue, fold};
ghost use Rattle.std.specs.Ordering.{nat_cmp};
ghost use Rattle.std.specs.Hash as fed;
ghost use Rattle.icmp_part.specs.Icmpv6Format.{dest_unreachable_code, managed_bit, max_packet_len, other_bit, override_bit, parameter_problem_code, router_bit, solicited_bit, time_exceeded_code};
ghost use Rattle.icmp_part.specs.Icmpv6Order.{message_cmp, message_writes, neighbor_advertisement_cmp, neighbor_advertisement_writes, parameter_problem_cmp, parameter_problem_writes, router_advertisement_cmp, router_advertisement_writes};
ghost use Rattle.net_base.specs.StoredChecksum.{icmp_checksum_place};

use crate::icmpv6::*;
use crate::{Icmpv6Header, Icmpv6Slice, Icmpv6Type};
use std::alloc::AllocError;
use std::cmp::Ordering;
use std::hash::{Hash, Hasher};

/// A clone is the same value.
pub fn cloned_slice<'a>(slice: &Icmpv6Slice<'a>) -> Result<Icmpv6Slice<'a>, AllocError>
    ensures same { IsOkAnd result (λ copy. copy ≡ slice.now) }
{
    slice.clone()
}

/// `==` holds exactly if all bytes are the same.
pub fn equal_slice(a: &Icmpv6Slice<'_>, b: &Icmpv6Slice<'_>) -> bool
    ensures same { IsTrue result ↔ (a.now ≡ b.now) }
{
    a == b
}

/// A clone is the same value.
pub fn cloned_header(header: &Icmpv6Header) -> Result<Icmpv6Header, AllocError>
    ensures same { IsOkAnd result (λ copy. copy ≡ header.now) }
{
    header.clone()
}

/// `==` holds exactly if all fields are the same.
pub fn equal_header(a: &Icmpv6Header, b: &Icmpv6Header) -> bool
    ensures same { IsTrue result ↔ (a.now ≡ b.now) }
{
    a == b
}

/// A clone is the same value.
pub fn cloned_type(message: &Icmpv6Type) -> Result<Icmpv6Type, AllocError>
    ensures same { IsOkAnd result (λ copy. copy ≡ message.now) }
{
    message.clone()
}

/// `==` holds exactly if the kind and all fields are the same.
pub fn equal_type(a: &Icmpv6Type, b: &Icmpv6Type) -> bool
    ensures same { IsTrue result ↔ (a.now ≡ b.now) }
{
    a == b
}

/// Messages are ordered by the kind, in the order of the variants, and then by the fields in their order.
pub fn ordered_type(a: &Icmpv6Type, b: &Icmpv6Type) -> Ordering
    ensures by_kind_and_fields { result ≡ message_cmp a.now b.now }
{
    a.cmp(b)
}

/// A hash covers the kind, and then the fields in their order.
pub fn hashed_type<H: Hasher>(message: &Icmpv6Type, state: &mut H)
    ensures kind_and_fields { state.new ≡ fold H.write state.old (message_writes message.now) }
{
    message.hash(state);
}

/// A clone is the same value.
pub fn cloned_dest_unreachable_code(
    code: &DestUnreachableCode,
) -> Result<DestUnreachableCode, AllocError>
    ensures same { IsOkAnd result (λ copy. copy ≡ code.now) }
{
    code.clone()
}

/// `==` holds exactly if the codes are the same.
pub fn equal_dest_unreachable_code(a: &DestUnreachableCode, b: &DestUnreachableCode) -> bool
    ensures same { IsTrue result ↔ (a.now ≡ b.now) }
{
    a == b
}

/// Values are ordered by the code.
pub fn ordered_dest_unreachable_code(a: &DestUnreachableCode, b: &DestUnreachableCode) -> Ordering
    ensures by_code { result ≡ nat_cmp (dest_unreachable_code a.now) (dest_unreachable_code b.now) }
{
    a.cmp(b)
}

/// A hash covers the code.
pub fn hashed_dest_unreachable_code<H: Hasher>(code: &DestUnreachableCode, state: &mut H)
    ensures code { state.new ≡ fold H.write state.old (fed.usize (dest_unreachable_code code.now)) }
{
    code.hash(state);
}

/// A clone is the same value.
pub fn cloned_neighbor_advertisement_header(
    header: &NeighborAdvertisementHeader,
) -> Result<NeighborAdvertisementHeader, AllocError>
    ensures same { IsOkAnd result (λ copy. copy ≡ header.now) }
{
    header.clone()
}

/// `==` holds exactly if all flags are the same.
pub fn equal_neighbor_advertisement_header(
    a: &NeighborAdvertisementHeader,
    b: &NeighborAdvertisementHeader,
) -> bool
    ensures same { IsTrue result ↔ (a.now ≡ b.now) }
{
    a == b
}

/// Values are ordered by the fields, in their order.
pub fn ordered_neighbor_advertisement_header(
    a: &NeighborAdvertisementHeader,
    b: &NeighborAdvertisementHeader,
) -> Ordering
    ensures by_fields { result ≡ neighbor_advertisement_cmp a.now b.now }
{
    a.cmp(b)
}

/// A hash covers the fields, in their order.
pub fn hashed_neighbor_advertisement_header<H: Hasher>(
    header: &NeighborAdvertisementHeader,
    state: &mut H,
)
    ensures fields { state.new ≡ fold H.write state.old (neighbor_advertisement_writes header.now) }
{
    header.hash(state);
}

/// A clone is the same value.
pub fn cloned_parameter_problem_code(
    code: &ParameterProblemCode,
) -> Result<ParameterProblemCode, AllocError>
    ensures same { IsOkAnd result (λ copy. copy ≡ code.now) }
{
    code.clone()
}

/// `==` holds exactly if the codes are the same.
pub fn equal_parameter_problem_code(a: &ParameterProblemCode, b: &ParameterProblemCode) -> bool
    ensures same { IsTrue result ↔ (a.now ≡ b.now) }
{
    a == b
}

/// Values are ordered by the code.
pub fn ordered_parameter_problem_code(
    a: &ParameterProblemCode,
    b: &ParameterProblemCode,
) -> Ordering
    ensures by_code { result ≡ nat_cmp (parameter_problem_code a.now) (parameter_problem_code b.now) }
{
    a.cmp(b)
}

/// A hash covers the code.
pub fn hashed_parameter_problem_code<H: Hasher>(code: &ParameterProblemCode, state: &mut H)
    ensures code { state.new ≡ fold H.write state.old (fed.usize (parameter_problem_code code.now)) }
{
    code.hash(state);
}

/// A clone is the same value.
pub fn cloned_parameter_problem_header(
    header: &ParameterProblemHeader,
) -> Result<ParameterProblemHeader, AllocError>
    ensures same { IsOkAnd result (λ copy. copy ≡ header.now) }
{
    header.clone()
}

/// `==` holds exactly if all fields are the same.
pub fn equal_parameter_problem_header(
    a: &ParameterProblemHeader,
    b: &ParameterProblemHeader,
) -> bool
    ensures same { IsTrue result ↔ (a.now ≡ b.now) }
{
    a == b
}

/// Values are ordered by the fields, in their order.
pub fn ordered_parameter_problem_header(
    a: &ParameterProblemHeader,
    b: &ParameterProblemHeader,
) -> Ordering
    ensures by_fields { result ≡ parameter_problem_cmp a.now b.now }
{
    a.cmp(b)
}

/// A hash covers the fields, in their order.
pub fn hashed_parameter_problem_header<H: Hasher>(header: &ParameterProblemHeader, state: &mut H)
    ensures fields { state.new ≡ fold H.write state.old (parameter_problem_writes header.now) }
{
    header.hash(state);
}

/// A clone is the same value.
pub fn cloned_router_advertisement_header(
    header: &RouterAdvertisementHeader,
) -> Result<RouterAdvertisementHeader, AllocError>
    ensures same { IsOkAnd result (λ copy. copy ≡ header.now) }
{
    header.clone()
}

/// `==` holds exactly if all fields are the same.
pub fn equal_router_advertisement_header(
    a: &RouterAdvertisementHeader,
    b: &RouterAdvertisementHeader,
) -> bool
    ensures same { IsTrue result ↔ (a.now ≡ b.now) }
{
    a == b
}

/// Values are ordered by the fields, in their order.
pub fn ordered_router_advertisement_header(
    a: &RouterAdvertisementHeader,
    b: &RouterAdvertisementHeader,
) -> Ordering
    ensures by_fields { result ≡ router_advertisement_cmp a.now b.now }
{
    a.cmp(b)
}

/// A hash covers the fields, in their order.
pub fn hashed_router_advertisement_header<H: Hasher>(
    header: &RouterAdvertisementHeader,
    state: &mut H,
)
    ensures fields { state.new ≡ fold H.write state.old (router_advertisement_writes header.now) }
{
    header.hash(state);
}

/// A clone is the same value.
pub fn cloned_time_exceeded_code(code: &TimeExceededCode) -> Result<TimeExceededCode, AllocError>
    ensures same { IsOkAnd result (λ copy. copy ≡ code.now) }
{
    code.clone()
}

/// `==` holds exactly if the codes are the same.
pub fn equal_time_exceeded_code(a: &TimeExceededCode, b: &TimeExceededCode) -> bool
    ensures same { IsTrue result ↔ (a.now ≡ b.now) }
{
    a == b
}

/// Values are ordered by the code.
pub fn ordered_time_exceeded_code(a: &TimeExceededCode, b: &TimeExceededCode) -> Ordering
    ensures by_code { result ≡ nat_cmp (time_exceeded_code a.now) (time_exceeded_code b.now) }
{
    a.cmp(b)
}

/// A hash covers the code.
pub fn hashed_time_exceeded_code<H: Hasher>(code: &TimeExceededCode, state: &mut H)
    ensures code { state.new ≡ fold H.write state.old (fed.usize (time_exceeded_code code.now)) }
{
    code.hash(state);
}

/// The constants for lengths, for the place of the checksum, for the bits of flags, for types and for codes have these values.
pub fn constants()
    ensures header_lens { (Icmpv6Header.MIN_LEN ≡ 8) × (Icmpv6Header.MIN_SERIALIZED_SIZE ≡ 8) × (Icmpv6Header.MAX_LEN ≡ 40)
        × (Icmpv6Header.MAX_SERIALIZED_SIZE ≡ 40) }
    ensures checksum_place { Icmpv6Header.CHECKSUM_AT ≡ icmp_checksum_place }
    ensures packet_len { (MAX_ICMPV6_BYTE_LEN ≡ max_packet_len) }
    ensures router_advertisement_flags { (RouterAdvertisementHeader.MANAGED_ADDRESS_CONFIG_MASK ≡ managed_bit)
        × (RouterAdvertisementHeader.OTHER_CONFIG_MASK ≡ other_bit) }
    ensures neighbor_advertisement_flags { (NeighborAdvertisementHeader.ROUTER_MASK ≡ router_bit)
        × (NeighborAdvertisementHeader.SOLICITED_MASK ≡ solicited_bit) × (NeighborAdvertisementHeader.OVERRIDE_MASK ≡ override_bit) }
    ensures types { (TYPE_DST_UNREACH ≡ 1) × (TYPE_PACKET_TOO_BIG ≡ 2) × (TYPE_TIME_EXCEEDED ≡ 3) × (TYPE_PARAMETER_PROBLEM ≡ 4)
        × (TYPE_ECHO_REQUEST ≡ 128) × (TYPE_ECHO_REPLY ≡ 129) × (TYPE_MULTICAST_LISTENER_QUERY ≡ 130)
        × (TYPE_MULTICAST_LISTENER_REPORT ≡ 131) × (TYPE_MULTICAST_LISTENER_REDUCTION ≡ 132) × (TYPE_ROUTER_SOLICITATION ≡ 133)
        × (TYPE_ROUTER_ADVERTISEMENT ≡ 134) × (TYPE_NEIGHBOR_SOLICITATION ≡ 135) × (TYPE_NEIGHBOR_ADVERTISEMENT ≡ 136)
        × (TYPE_REDIRECT_MESSAGE ≡ 137) × (TYPE_ROUTER_RENUMBERING ≡ 138) × (TYPE_INVERSE_NEIGHBOR_DISCOVERY_SOLICITATION ≡ 141)
        × (TYPE_INVERSE_NEIGHBOR_DISCOVERY_ADVERTISEMENT ≡ 142) × (TYPE_EXT_ECHO_REQUEST ≡ 160) × (TYPE_EXT_ECHO_REPLY ≡ 161) }
    ensures dest_unreachable_codes { (CODE_DST_UNREACH_NO_ROUTE ≡ 0) × (CODE_DST_UNREACH_PROHIBITED ≡ 1)
        × (CODE_DST_UNREACH_BEYOND_SCOPE ≡ 2) × (CODE_DST_UNREACH_ADDR ≡ 3) × (CODE_DST_UNREACH_PORT ≡ 4)
        × (CODE_DST_UNREACH_SOURCE_ADDRESS_FAILED_POLICY ≡ 5) × (CODE_DST_UNREACH_REJECT_ROUTE_TO_DEST ≡ 6) }
    ensures time_exceeded_codes { (CODE_TIME_EXCEEDED_HOP_LIMIT_EXCEEDED ≡ 0)
        × (CODE_TIME_EXCEEDED_FRAGMENT_REASSEMBLY_TIME_EXCEEDED ≡ 1) }
    ensures parameter_problem_codes { (CODE_PARAM_PROBLEM_ERR_HEADER_FIELD ≡ 0) × (CODE_PARAM_PROBLEM_UNRECOG_NEXT_HEADER ≡ 1)
        × (CODE_PARAM_PROBLEM_UNRECOG_IPV6_OPTION ≡ 2) × (CODE_PARAM_PROBLEM_IPV6_FIRST_FRAG_INCOMP_HEADER_CHAIN ≡ 3)
        × (CODE_PARAM_PROBLEM_SR_UPPER_LAYER_HEADER_ERROR ≡ 4) × (CODE_PARAM_PROBLEM_UNRECOG_NEXT_HEADER_BY_INTERMEDIATE_NODE ≡ 5)
        × (CODE_PARAM_PROBLEM_EXT_HEADER_TOO_BIG ≡ 6) × (CODE_PARAM_PROBLEM_EXT_HEADER_CHAIN_TOO_LONG ≡ 7)
        × (CODE_PARAM_PROBLEM_TOO_MANY_EXT_HEADERS ≡ 8) × (CODE_PARAM_PROBLEM_TOO_MANY_OPTIONS_EXT_HEADER ≡ 9)
        × (CODE_PARAM_PROBLEM_OPTION_TOO_BIG ≡ 10) }
{}
