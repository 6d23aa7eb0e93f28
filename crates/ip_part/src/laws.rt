//! Laws of the types: a clone is the same value, and `==` holds exactly if two values are the same. Addresses and
//! payloads are compared by their bytes. Each law is the contract of a function, so that it is checked with the calls.
//!
//! # Errors
//!
//! No call returns an error: each clone succeeds.

ghost use Rattle.std.specs.Prelude.{◌≡◌, ◌↔◌, IsTrue, IsOkAnd};
ghost use Rattle.ip_part.specs.Addresses.{by_value};
ghost use Rattle.ip_part.specs.FixedHeaders.{fixed_by_value};
ghost use Rattle.ip_part.specs.Ip.{AreAlike};

use crate::{FixedHeader, IpAddresses, IpError, Proto, TransportInIp};
use std::alloc::AllocError;

/// A clone of `IpAddresses` is the same value.
pub fn cloned_ip_addresses<'a>(value: &IpAddresses<'a>) -> Result<IpAddresses<'a>, AllocError>
    ensures same { IsOkAnd result (λ copy. copy ≡ value.now) }
{
    value.clone()
}

/// `==` holds for two values of `IpAddresses` exactly if they have the same IP version and the same addresses. Addresses are compared by
/// their bytes.
pub fn equal_ip_addresses<'a>(a: &IpAddresses<'a>, b: &IpAddresses<'a>) -> bool
    ensures same { IsTrue result ↔ (by_value a.now ≡ by_value b.now) }
{
    a == b
}

/// A clone of a `FixedHeader` is the same value.
pub fn cloned_fixed_header<'a>(value: &FixedHeader<'a>) -> Result<FixedHeader<'a>, AllocError>
    ensures same { IsOkAnd result (λ copy. copy ≡ value.now) }
{
    value.clone()
}

/// `==` holds for two values of `FixedHeader` exactly if they have the same IP version and all their fields are equal. Addresses are
/// compared by their bytes.
pub fn equal_fixed_header<'a>(a: &FixedHeader<'a>, b: &FixedHeader<'a>) -> bool
    ensures same { IsTrue result ↔ (fixed_by_value a.now ≡ fixed_by_value b.now) }
{
    a == b
}

/// A clone of an `IpError` is the same value.
pub fn cloned_ip_error(value: &IpError) -> Result<IpError, AllocError>
    ensures same { IsOkAnd result (λ copy. copy ≡ value.now) }
{
    value.clone()
}

/// `==` holds for two values of `IpError` exactly if they are the same.
pub fn equal_ip_error(a: &IpError, b: &IpError) -> bool
    ensures same { IsTrue result ↔ (a.now ≡ b.now) }
{
    a == b
}

/// A clone of a `Proto` is the same value.
pub fn cloned_proto(proto: &Proto) -> Result<Proto, AllocError>
    ensures same { IsOkAnd result (λ copy. copy ≡ proto.now) }
{
    proto.clone()
}

/// `==` holds for two values of `Proto` exactly if they are the same.
pub fn equal_proto(a: &Proto, b: &Proto) -> bool
    ensures same { IsTrue result ↔ (a.now ≡ b.now) }
{
    a == b
}

/// A clone of a `TransportInIp` is the same value.
pub fn cloned_transport_in_ip<'a>(
    value: &TransportInIp<'a>,
) -> Result<TransportInIp<'a>, AllocError>
    ensures same { IsOkAnd result (λ copy. copy ≡ value.now) }
{
    value.clone()
}

/// `==` holds for two values of `TransportInIp` exactly if all their fields are equal. Payloads and fixed headers are
/// compared by their bytes.
pub fn equal_transport_in_ip<'a>(a: &TransportInIp<'a>, b: &TransportInIp<'a>) -> bool
    ensures same { IsTrue result ↔ AreAlike a.now b.now }
{
    a == b
}
