//! Laws of the types: a clone is the same value, `==` holds exactly if two values are the same, and a hash covers every field. The laws
//! also state the protocol numbers. Each law is the contract of a function. The function makes only the call that the law describes, or no
//! call.
//!
//! # Errors
//!
//! No call returns an error: each clone succeeds.
ghost use Rattle.std.specs.Prelude.{◌≡◌, ◌↔◌, IsTrue, IsOkAnd, fold, map};
ghost use Rattle.std.specs.Hash as fed;
ghost use Rattle.net_base.specs.Hashes.{header_error_input, header_slice_error_input, layer_input, len_error_input, len_source_input, value_too_big_error_input, value_type_input};
ghost use Rattle.net_base.specs.TextParts.{part_by_value};

use crate::err::tcp::{HeaderError, HeaderSliceError};
use crate::err::{ErrorText, Layer, LenError, LenSource, TextPart, ValueTooBigError, ValueType};
use crate::ip_number::{
    AUTHENTICATION_HEADER, ENCAPSULATING_SECURITY_PAYLOAD, HIP, ICMP, IPV6_DESTINATION_OPTIONS,
    IPV6_FRAGMENTATION_HEADER, IPV6_HEADER_HOP_BY_HOP, IPV6_ICMP, IPV6_NO_NEXT_HEADER,
    IPV6_ROUTE_HEADER, MOBILITY_HEADER, SHIM6, TCP, UDP,
};
use crate::{
    IpNumber, Ipv4Header, Ipv4HeaderSlice, Ipv6Header, Ipv6HeaderSlice, TcpOptionReadError,
    TcpOptionWriteError,
};
use std::alloc::AllocError;
use std::hash::{Hash, Hasher};

/// A clone of a `Layer` is the same value.
pub fn cloned_layer(value: &Layer) -> Result<Layer, AllocError>
    ensures same { IsOkAnd result (λ copy. copy ≡ value.now) }
{
    value.clone()
}

/// `==` holds for two values of `Layer` exactly if they are the same.
pub fn equal_layer(a: &Layer, b: &Layer) -> bool
    ensures same { IsTrue result ↔ (a.now ≡ b.now) }
{
    a == b
}

/// A clone of a `LenSource` is the same value.
pub fn cloned_len_source(value: &LenSource) -> Result<LenSource, AllocError>
    ensures same { IsOkAnd result (λ copy. copy ≡ value.now) }
{
    value.clone()
}

/// `==` holds for two values of `LenSource` exactly if they are the same.
pub fn equal_len_source(a: &LenSource, b: &LenSource) -> bool
    ensures same { IsTrue result ↔ (a.now ≡ b.now) }
{
    a == b
}

/// A clone of a `ValueType` is the same value.
pub fn cloned_value_type(value: &ValueType) -> Result<ValueType, AllocError>
    ensures same { IsOkAnd result (λ copy. copy ≡ value.now) }
{
    value.clone()
}

/// `==` holds for two values of `ValueType` exactly if they are the same.
pub fn equal_value_type(a: &ValueType, b: &ValueType) -> bool
    ensures same { IsTrue result ↔ (a.now ≡ b.now) }
{
    a == b
}

/// A clone of a `LenError` is the same value.
pub fn cloned_len_error(value: &LenError) -> Result<LenError, AllocError>
    ensures same { IsOkAnd result (λ copy. copy ≡ value.now) }
{
    value.clone()
}

/// `==` holds for two values of `LenError` exactly if they are the same.
pub fn equal_len_error(a: &LenError, b: &LenError) -> bool
    ensures same { IsTrue result ↔ (a.now ≡ b.now) }
{
    a == b
}

/// A clone of a `ValueTooBigError` is the same value.
pub fn cloned_value_too_big_error(
    value: &ValueTooBigError<usize>,
) -> Result<ValueTooBigError<usize>, AllocError>
    ensures same { IsOkAnd result (λ copy. copy ≡ value.now) }
{
    value.clone()
}

/// `==` holds for two values of `ValueTooBigError` exactly if they are the same.
pub fn equal_value_too_big_error(a: &ValueTooBigError<usize>, b: &ValueTooBigError<usize>) -> bool
    ensures same { IsTrue result ↔ (a.now ≡ b.now) }
{
    a == b
}

/// A clone of a `HeaderError` is the same value.
pub fn cloned_header_error(value: &HeaderError) -> Result<HeaderError, AllocError>
    ensures same { IsOkAnd result (λ copy. copy ≡ value.now) }
{
    value.clone()
}

/// `==` holds for two values of `HeaderError` exactly if they are the same.
pub fn equal_header_error(a: &HeaderError, b: &HeaderError) -> bool
    ensures same { IsTrue result ↔ (a.now ≡ b.now) }
{
    a == b
}

/// A clone of a `HeaderSliceError` is the same value.
pub fn cloned_header_slice_error(value: &HeaderSliceError) -> Result<HeaderSliceError, AllocError>
    ensures same { IsOkAnd result (λ copy. copy ≡ value.now) }
{
    value.clone()
}

/// `==` holds for two values of `HeaderSliceError` exactly if they are the same.
pub fn equal_header_slice_error(a: &HeaderSliceError, b: &HeaderSliceError) -> bool
    ensures same { IsTrue result ↔ (a.now ≡ b.now) }
{
    a == b
}

/// A clone of a `TcpOptionReadError` is the same value.
pub fn cloned_option_read_error(
    value: &TcpOptionReadError,
) -> Result<TcpOptionReadError, AllocError>
    ensures same { IsOkAnd result (λ copy. copy ≡ value.now) }
{
    value.clone()
}

/// `==` holds for two values of `TcpOptionReadError` exactly if they are the same.
pub fn equal_option_read_error(a: &TcpOptionReadError, b: &TcpOptionReadError) -> bool
    ensures same { IsTrue result ↔ (a.now ≡ b.now) }
{
    a == b
}

/// A clone of a `TcpOptionWriteError` is the same value.
pub fn cloned_option_write_error(
    value: &TcpOptionWriteError,
) -> Result<TcpOptionWriteError, AllocError>
    ensures same { IsOkAnd result (λ copy. copy ≡ value.now) }
{
    value.clone()
}

/// `==` holds for two values of `TcpOptionWriteError` exactly if they are the same.
pub fn equal_option_write_error(a: &TcpOptionWriteError, b: &TcpOptionWriteError) -> bool
    ensures same { IsTrue result ↔ (a.now ≡ b.now) }
{
    a == b
}

/// A clone of a `TextPart` is the same value.
pub fn cloned_text_part(value: &TextPart) -> Result<TextPart, AllocError>
    ensures same { IsOkAnd result (λ copy. copy ≡ value.now) }
{
    value.clone()
}

/// `==` holds for two values of `TextPart` exactly if they are the same words or the same number.
pub fn equal_text_part(a: &TextPart, b: &TextPart) -> bool
    ensures same { IsTrue result ↔ (part_by_value a.now ≡ part_by_value b.now) }
{
    a == b
}

/// A clone of an `ErrorText` is the same value.
pub fn cloned_error_text(value: &ErrorText) -> Result<ErrorText, AllocError>
    ensures same { IsOkAnd result (λ copy. copy ≡ value.now) }
{
    value.clone()
}

/// `==` holds for two values of `ErrorText` exactly if they have the same parts.
pub fn equal_error_text(a: &ErrorText, b: &ErrorText) -> bool
    ensures same { IsTrue result ↔ (map part_by_value a.now ≡ map part_by_value b.now) }
{
    a == b
}

/// A clone of an `IpNumber` is the same value.
pub fn cloned_ip_number(value: &IpNumber) -> Result<IpNumber, AllocError>
    ensures same { IsOkAnd result (λ copy. copy ≡ value.now) }
{
    value.clone()
}

/// `==` holds for two values of `IpNumber` exactly if they are the same.
pub fn equal_ip_number(a: &IpNumber, b: &IpNumber) -> bool
    ensures same { IsTrue result ↔ (a.now ≡ b.now) }
{
    a == b
}

/// A clone of an `Ipv4Header` is the same value.
pub fn cloned_ipv4_header(value: &Ipv4Header) -> Result<Ipv4Header, AllocError>
    ensures same { IsOkAnd result (λ copy. copy ≡ value.now) }
{
    value.clone()
}

/// `==` holds for two values of `Ipv4Header` exactly if they are the same.
pub fn equal_ipv4_header(a: &Ipv4Header, b: &Ipv4Header) -> bool
    ensures same { IsTrue result ↔ (a.now ≡ b.now) }
{
    a == b
}

/// A clone of an `Ipv4HeaderSlice` is the same value.
pub fn cloned_ipv4_header_slice<'a>(
    value: &Ipv4HeaderSlice<'a>,
) -> Result<Ipv4HeaderSlice<'a>, AllocError>
    ensures same { IsOkAnd result (λ copy. copy ≡ value.now) }
{
    value.clone()
}

/// `==` holds for two values of `Ipv4HeaderSlice` exactly if they are the same.
pub fn equal_ipv4_header_slice<'a>(a: &Ipv4HeaderSlice<'a>, b: &Ipv4HeaderSlice<'a>) -> bool
    ensures same { IsTrue result ↔ (a.now ≡ b.now) }
{
    a == b
}

/// A clone of an `Ipv6Header` is the same value.
pub fn cloned_ipv6_header(value: &Ipv6Header) -> Result<Ipv6Header, AllocError>
    ensures same { IsOkAnd result (λ copy. copy ≡ value.now) }
{
    value.clone()
}

/// `==` holds for two values of `Ipv6Header` exactly if they are the same.
pub fn equal_ipv6_header(a: &Ipv6Header, b: &Ipv6Header) -> bool
    ensures same { IsTrue result ↔ (a.now ≡ b.now) }
{
    a == b
}

/// A clone of an `Ipv6HeaderSlice` is the same value.
pub fn cloned_ipv6_header_slice<'a>(
    value: &Ipv6HeaderSlice<'a>,
) -> Result<Ipv6HeaderSlice<'a>, AllocError>
    ensures same { IsOkAnd result (λ copy. copy ≡ value.now) }
{
    value.clone()
}

/// `==` holds for two values of `Ipv6HeaderSlice` exactly if they are the same.
pub fn equal_ipv6_header_slice<'a>(a: &Ipv6HeaderSlice<'a>, b: &Ipv6HeaderSlice<'a>) -> bool
    ensures same { IsTrue result ↔ (a.now ≡ b.now) }
{
    a == b
}

/// The protocol numbers have these values.
pub fn constants()
    ensures icmp { ICMP.0 ≡ 1 }
    ensures tcp { TCP.0 ≡ 6 }
    ensures udp { UDP.0 ≡ 17 }
    ensures ipv6_icmp { IPV6_ICMP.0 ≡ 58 }
    ensures hop_by_hop { IPV6_HEADER_HOP_BY_HOP.0 ≡ 0 }
    ensures routing { IPV6_ROUTE_HEADER.0 ≡ 43 }
    ensures fragment { IPV6_FRAGMENTATION_HEADER.0 ≡ 44 }
    ensures encapsulating_security { ENCAPSULATING_SECURITY_PAYLOAD.0 ≡ 50 }
    ensures authentication { AUTHENTICATION_HEADER.0 ≡ 51 }
    ensures no_next_header { IPV6_NO_NEXT_HEADER.0 ≡ 59 }
    ensures destination_options { IPV6_DESTINATION_OPTIONS.0 ≡ 60 }
    ensures mobility { MOBILITY_HEADER.0 ≡ 135 }
    ensures host_identity { HIP.0 ≡ 139 }
    ensures shim6 { SHIM6.0 ≡ 140 }
{}

/// The hash of a `Layer` covers the input that `layer_input` defines.
pub fn hashed_layer<H: Hasher>(value: &Layer, state: &mut H)
    ensures { state.new ≡ fold H.write state.old (layer_input value.now) }
{
    value.hash(state);
}

/// The hash of a `LenSource` covers the input that `len_source_input` defines.
pub fn hashed_len_source<H: Hasher>(value: &LenSource, state: &mut H)
    ensures { state.new ≡ fold H.write state.old (len_source_input value.now) }
{
    value.hash(state);
}

/// The hash of a `ValueType` covers the input that `value_type_input` defines.
pub fn hashed_value_type<H: Hasher>(value: &ValueType, state: &mut H)
    ensures { state.new ≡ fold H.write state.old (value_type_input value.now) }
{
    value.hash(state);
}

/// The hash of a `LenError` covers the input that `len_error_input` defines.
pub fn hashed_len_error<H: Hasher>(value: &LenError, state: &mut H)
    ensures { state.new ≡ fold H.write state.old (len_error_input value.now) }
{
    value.hash(state);
}

/// The hash of a `ValueTooBigError` covers the input that `value_too_big_error_input` defines.
pub fn hashed_value_too_big_error<H: Hasher>(value: &ValueTooBigError<usize>, state: &mut H)
    ensures { state.new ≡ fold H.write state.old (value_too_big_error_input value.now) }
{
    value.hash(state);
}

/// The hash of a `HeaderError` covers the input that `header_error_input` defines.
pub fn hashed_header_error<H: Hasher>(value: &HeaderError, state: &mut H)
    ensures { state.new ≡ fold H.write state.old (header_error_input value.now) }
{
    value.hash(state);
}

/// The hash of a `HeaderSliceError` covers the input that `header_slice_error_input` defines.
pub fn hashed_header_slice_error<H: Hasher>(value: &HeaderSliceError, state: &mut H)
    ensures { state.new ≡ fold H.write state.old (header_slice_error_input value.now) }
{
    value.hash(state);
}

/// The hash of an `IpNumber` covers its number.
pub fn hashed_ip_number<H: Hasher>(value: &IpNumber, state: &mut H)
    ensures { state.new ≡ fold H.write state.old (fed.u8 value.now.0) }
{
    value.hash(state);
}
