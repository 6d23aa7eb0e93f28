//! MPLS label stacks (RFC 3032).

ghost use Rattle.std.specs.Prelude.{◌≡◌, ◌+◌, ◌≤◌, ◌/◌, IfErr, IfOk, length, slice_index};
ghost use Rattle.net_base.specs.Bytes.{flag};
ghost use Rattle.capture_packet.specs.LinkHeaders.{IsHeaderWithin};
ghost use Rattle.capture_packet.specs.Mpls as specs;

use crate::NetworkProtocol;
use crate::link::LinkHeaderCutOff;
use crate::link::header::{LinkHeader, expect_len};

/// The length of a label, in bytes.
const LABEL_LEN: usize = 4;

/// The bit of the third byte of a label that marks the last label (RFC 3032, section 2.1).
const LAST_LABEL: u8 = 0x01;

/// The least length of an IPv4 header, in words of four bytes (RFC 791, section 3.1).
const MIN_IPV4_WORDS: u8 = 5;

/// The header that ends with the label stack at this place. If no IP packet follows the stack, the next protocol is `other`, whose number
/// precedes the stack.
pub(super) fn stack_at(
    frame: &[u8],
    other: NetworkProtocol,
    place: usize,
) -> Result<LinkHeader, LinkHeaderCutOff>
    requires { place ≤ length frame.now }
    ensures is { result ≡ specs.stack_at frame.now other place }
    ensures within { IfOk result (IsHeaderWithin frame.now) }
    ensures len { IfErr result (λ error. error.len ≡ length frame.now) }
{
    let mut label = place;
    expect_len(frame, label + LABEL_LEN)?;
    while !is_last(frame, label) {
        label += LABEL_LEN;
        expect_len(frame, label + LABEL_LEN)?;
    }
    after_stack(frame, other, label + LABEL_LEN)
}

/// Whether the label at this place is the last label of its stack.
fn is_last(frame: &[u8], place: usize) -> bool
    requires { place + 4 ≤ length frame.now }
    ensures { result ≡ flag frame.now (place + 2) 0x01 }
{
    frame[place + 2] & LAST_LABEL != 0
}

/// The header that ends with a label stack. The first byte after the stack shows whether an IP packet follows.
fn after_stack(
    frame: &[u8],
    other: NetworkProtocol,
    place: usize,
) -> Result<LinkHeader, LinkHeaderCutOff>
    requires { place ≤ length frame.now }
    ensures is { result ≡ specs.after_stack frame.now other place }
    ensures within { IfOk result (IsHeaderWithin frame.now) }
    ensures len { IfErr result (λ error. error.len ≡ length frame.now) }
{
    expect_len(frame, place + 1)?;
    Ok(LinkHeader {
        len: place,
        next: by_first_byte(other, frame[place]),
        end: None,
    })
}

/// The network protocol after a label stack. If an IP packet can have this first byte, this is `None`, which means IP. Otherwise it is
/// `other`.
fn by_first_byte(other: NetworkProtocol, first: u8) -> Option<NetworkProtocol>
    ensures { result ≡ specs.by_first_byte other first }
{
    if begins_ip(first) { None } else { Some(other) }
}

/// Whether an IP packet can have this first byte: version 4 and a header length of at least five words, or version 6.
fn begins_ip(first: u8) -> bool
    ensures { result ≡ specs.begins_ip first }
{
    let version = first / 16;
    (version == 4 && first % 16 >= MIN_IPV4_WORDS) || version == 6
}
