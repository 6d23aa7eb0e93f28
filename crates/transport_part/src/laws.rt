//! Laws of the types: a clone is the same value, and `==` holds exactly if two values are the same. Each law is the contract of a function,
//! so that it is checked with the calls.
//!
//! # Errors
//!
//! No call returns an error: each clone succeeds.

ghost use Rattle.std.specs.Prelude.{◌≡◌, ◌↔◌, IsTrue, IsOkAnd};

use crate::{ChecksumVerdict, TransportSlice, Untested};
use std::alloc::AllocError;

/// A clone of a `TransportSlice` is the same value.
pub fn cloned_transport_slice<'a>(
    transport: &TransportSlice<'a>,
) -> Result<TransportSlice<'a>, AllocError>
    ensures same { IsOkAnd result (λ copy. copy ≡ transport.now) }
{
    transport.clone()
}

/// `==` holds for two values of `TransportSlice` exactly if they are the same.
pub fn equal_transport_slice<'a>(a: &TransportSlice<'a>, b: &TransportSlice<'a>) -> bool
    ensures same { IsTrue result ↔ (a.now ≡ b.now) }
{
    a == b
}

/// A clone of a `ChecksumVerdict` is the same value.
pub fn cloned_checksum_verdict(verdict: &ChecksumVerdict) -> Result<ChecksumVerdict, AllocError>
    ensures same { IsOkAnd result (λ copy. copy ≡ verdict.now) }
{
    verdict.clone()
}

/// `==` holds for two values of `ChecksumVerdict` exactly if they are the same.
pub fn equal_checksum_verdict(a: &ChecksumVerdict, b: &ChecksumVerdict) -> bool
    ensures same { IsTrue result ↔ (a.now ≡ b.now) }
{
    a == b
}

/// A clone of an `Untested` is the same value.
pub fn cloned_untested(why: &Untested) -> Result<Untested, AllocError>
    ensures same { IsOkAnd result (λ copy. copy ≡ why.now) }
{
    why.clone()
}

/// `==` holds for two values of `Untested` exactly if they are the same.
pub fn equal_untested(a: &Untested, b: &Untested) -> bool
    ensures same { IsTrue result ↔ (a.now ≡ b.now) }
{
    a == b
}
