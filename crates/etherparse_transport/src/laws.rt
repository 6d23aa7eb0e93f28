//! Laws of the types: a clone is the same value, and `==` holds exactly if two values are the same. Also a law of packets that are put
//! together from their fragments. Each law is the contract of a function, so that it is checked with the calls.
//!
//! # Errors
//!
//! No call returns an error: each clone succeeds.

ghost use Rattle.std.specs.Prelude.{◌≡◌, ◌↔◌, IsTrue, IsOkAnd};
ghost use Rattle.etherparse_transport.specs.Reassembled.{KeepsVerdict};
ghost use Rattle.reassembly.specs.PacketCuts.{IsIpv4Cut, IsIpv6Cut};

use crate::TransportHeader;
use crate::err::packet::{AnswerEchoError, BuildSliceWriteError, TransportChecksumError};
use std::alloc::AllocError;

/// A clone of a `TransportHeader` is the same value.
pub fn cloned_transport_header(header: &TransportHeader) -> Result<TransportHeader, AllocError>
    ensures same { IsOkAnd result (λ copy. copy ≡ header.now) }
{
    header.clone()
}

/// `==` holds for two values of `TransportHeader` exactly if they are the same.
pub fn equal_transport_header(a: &TransportHeader, b: &TransportHeader) -> bool
    ensures same { IsTrue result ↔ (a.now ≡ b.now) }
{
    a == b
}

/// A clone of a `TransportChecksumError` is the same value.
pub fn cloned_transport_checksum_error(
    error: &TransportChecksumError,
) -> Result<TransportChecksumError, AllocError>
    ensures same { IsOkAnd result (λ copy. copy ≡ error.now) }
{
    error.clone()
}

/// `==` holds for two values of `TransportChecksumError` exactly if they are the same.
pub fn equal_transport_checksum_error(
    a: &TransportChecksumError,
    b: &TransportChecksumError,
) -> bool
    ensures same { IsTrue result ↔ (a.now ≡ b.now) }
{
    a == b
}

/// A clone of a `BuildSliceWriteError` is the same value.
pub fn cloned_build_slice_write_error(
    error: &BuildSliceWriteError,
) -> Result<BuildSliceWriteError, AllocError>
    ensures same { IsOkAnd result (λ copy. copy ≡ error.now) }
{
    error.clone()
}

/// `==` holds for two values of `BuildSliceWriteError` exactly if they are the same.
pub fn equal_build_slice_write_error(a: &BuildSliceWriteError, b: &BuildSliceWriteError) -> bool
    ensures same { IsTrue result ↔ (a.now ≡ b.now) }
{
    a == b
}

/// A clone of an `AnswerEchoError` is the same value.
pub fn cloned_answer_echo_error(error: &AnswerEchoError) -> Result<AnswerEchoError, AllocError>
    ensures { IsOkAnd result (λ copy. copy ≡ error.now) }
{
    error.clone()
}

/// `==` holds for two values of `AnswerEchoError` exactly if they are the same.
pub fn equal_answer_echo_error(a: &AnswerEchoError, b: &AnswerEchoError) -> bool
    ensures { IsTrue result ↔ (a.now ≡ b.now) }
{
    a == b
}

/// A packet that is put together from its fragments has the verdict of the packet that was fragmented (RFC 791, section 3.2; RFC 8200,
/// section 4.5). The fragments may arrive in any order and repeatedly.
pub fn reassembled_packets_keep_their_verdict()
    ensures ipv4 { KeepsVerdict IsIpv4Cut }
    ensures ipv6 { KeepsVerdict IsIpv6Cut }
{}
