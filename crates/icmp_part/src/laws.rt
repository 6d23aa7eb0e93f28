//! Laws of the types and constants: the results of `clone`, `==`, `cmp` and `hash`, and the values of constants. Each law is the contract
//! of a function. The function makes only the call that the law describes, or no call.
//!
//! # Errors
//!
//! No call returns an error: each clone succeeds.

pub mod icmpv4;
pub mod icmpv6;

ghost use Rattle.std.specs.Prelude.{◌≡◌, ◌↔◌, IsOkAnd, IsTrue, fold};
ghost use Rattle.icmp_part.specs.Icmpv6Order.{echo_cmp, echo_writes};

use crate::IcmpEchoHeader;
use std::alloc::AllocError;
use std::cmp::Ordering;
use std::hash::{Hash, Hasher};

/// A clone is the same value.
pub fn cloned_echo(echo: &IcmpEchoHeader) -> Result<IcmpEchoHeader, AllocError>
    ensures same { IsOkAnd result (λ copy. copy ≡ echo.now) }
{
    echo.clone()
}

/// `==` holds exactly if all fields are the same.
pub fn equal_echo(a: &IcmpEchoHeader, b: &IcmpEchoHeader) -> bool
    ensures same { IsTrue result ↔ (a.now ≡ b.now) }
{
    a == b
}

/// Values are ordered by the identifier, and then by the sequence number.
pub fn ordered_echo(a: &IcmpEchoHeader, b: &IcmpEchoHeader) -> Ordering
    ensures by_fields { result ≡ echo_cmp a.now b.now }
{
    a.cmp(b)
}

/// A hash covers the identifier, and then the sequence number.
pub fn hashed_echo<H: Hasher>(echo: &IcmpEchoHeader, state: &mut H)
    ensures fields { state.new ≡ fold H.write state.old (echo_writes echo.now) }
{
    echo.hash(state);
}

/// The length and the place of the two fields.
pub fn constants()
    ensures echo_len { IcmpEchoHeader.LEN ≡ 4 }
    ensures id_place { IcmpEchoHeader.ID_AT ≡ 4 }
{}
