//! Laws of types and constants that the contracts of the calls do not state. A clone is the same value. Headers are
//! equal exactly if all their fields are equal. The constants are those of the format.
//!
//! # Errors
//!
//! No call returns an error: each clone succeeds.
ghost use Rattle.std.specs.Prelude.{◌≡◌, ◌↔◌, IsTrue, IsOkAnd};
ghost use Rattle.udp_part.specs.UdpFormat.{layout};

use crate::{UdpHeader, UdpHeaderSlice, UdpSlice};
use std::alloc::AllocError;

/// A clone of a header is the same header.
pub fn cloned_header(header: &UdpHeader) -> Result<UdpHeader, AllocError>
    ensures same { IsOkAnd result (λ copy. copy ≡ header.now) }
{
    header.clone()
}

/// A clone of the slice of a header is the same value.
pub fn cloned_header_slice<'a>(
    header: &UdpHeaderSlice<'a>,
) -> Result<UdpHeaderSlice<'a>, AllocError>
    ensures same { IsOkAnd result (λ copy. copy ≡ header.now) }
{
    header.clone()
}

/// A clone of the slice of a packet is the same value.
pub fn cloned_slice<'a>(packet: &UdpSlice<'a>) -> Result<UdpSlice<'a>, AllocError>
    ensures same { IsOkAnd result (λ copy. copy ≡ packet.now) }
{
    packet.clone()
}

/// Headers are equal exactly if all their fields are equal.
pub fn equal_headers(a: &UdpHeader, b: &UdpHeader) -> bool
    ensures same { IsTrue result ↔ (a.now ≡ b.now) }
{
    a == b
}

/// Slices of headers are equal exactly if their bytes are equal.
pub fn equal_header_slices(a: &UdpHeaderSlice<'_>, b: &UdpHeaderSlice<'_>) -> bool
    ensures same { IsTrue result ↔ (a.now ≡ b.now) }
{
    a == b
}

/// Slices of packets are equal exactly if their bytes are equal.
pub fn equal_slices(a: &UdpSlice<'_>, b: &UdpSlice<'_>) -> bool
    ensures same { IsTrue result ↔ (a.now ≡ b.now) }
{
    a == b
}

/// The constants are the length of the header in the format.
pub fn constants()
    ensures len { UdpHeader.LEN ≡ layout.header_len }
    ensures len_u16 { UdpHeader.LEN_U16 ≡ layout.header_len }
    ensures older_name { UdpHeader.SERIALIZED_SIZE ≡ layout.header_len }
{}
