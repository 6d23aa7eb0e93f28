ghost use Rattle.std.specs.Prelude.{◌≡◌, ◌+◌, ◌∷◌, ◌⊎◌, IfOk, [], length};
ghost use Rattle.net_base.specs.Refusals.{RefusesExactly};
ghost use Rattle.net_base.specs.declared.tcp_option_read_error.TcpOptionReadError.TheVariants.{UnexpectedSize};
ghost use Rattle.tcp_part.specs.TcpOptionsReading.{BeginsWith};

use crate::tcp_options_iterator::pair_at;
use crate::{TcpOptionElement, TcpOptionReadError, tcp_option};
use std::marker::Model;

/// An option of a TCP header as received, of a known or an unknown kind (RFC 9293, section 3.1).
///
/// ```
/// use etherparse_transport::{TcpOptionElement, TcpOptionReadError, TcpRawOption};
///
/// let option = TcpRawOption { kind: 3, value: &[7] };
/// assert_eq!(rt; option.element(), Ok(TcpOptionElement::WindowScale(7)));
/// // A request for a TCP Fast Open cookie (RFC 7413).
/// let option = TcpRawOption { kind: 34, value: &[] };
/// assert_eq!(rt; option.element(), Err(TcpOptionReadError::UnknownId(34)));
/// ```
#[derive(Clone, Debug, Drop)]
pub struct TcpRawOption<'a> {
    /// The kind of the option, its first byte. Kind 0 ends the list of options, so an option that was read never has kind 0.
    pub kind: u8,
    /// The bytes of the value, which follow the length byte. Kind 1 has no length byte and no value.
    pub value: &'a [u8],
}

impl<'a> Model for TcpRawOption<'a> {
    ghost use Rattle.tcp_part.specs.TcpRawOptions.{RawOption};

    ghost Value = { RawOption };

    ghost view = { λ option. record { kind = option.kind; value = option.value.now } };
}

impl<'a> TcpRawOption<'a> {
    ghost use Rattle.tcp_part.specs.TcpRawOptions.{element_refusal, length_byte, raw_spelling};

    /// The element that `TcpOptionsIterator` returns in the place of this option (RFC 9293, section 3.2; RFC 7323; RFC 2018). An option of
    /// kind 1 is `Noop`, even if its value is not empty.
    ///
    /// # Errors
    ///
    /// - `UnknownId` if the kind is unknown, or is 0, which ends the list.
    /// - `UnexpectedSize` if the length is wrong for the kind. It contains the length byte, or 255 if the value is too long for a length
    ///   byte.
    ///
    /// `TcpOptionsIterator` returns the same errors, with one exception. If fewer bytes are left than the kind requires, the iterator
    /// returns `UnexpectedEndOfSlice`. A `TcpRawOption` does not contain the number of bytes left.
    #[inline(always)]
    pub fn element(&self) -> Result<TcpOptionElement, TcpOptionReadError>
        ensures refused { RefusesExactly result (element_refusal self.now) }
        ensures read { IfOk result (λ element. BeginsWith (raw_spelling self.now) element []) }
    {
        // perf: every arm returns. If the arms have a common end, the element is copied, and waits for the stores of the arm (23 Nov 2026).
        let value = self.value;
        match self.kind {
            tcp_option::KIND_NOOP => return Ok(TcpOptionElement::Noop),
            tcp_option::KIND_MAXIMUM_SEGMENT_SIZE => {
                if value.len() != 2 {
                    return Err(self.unexpected_size());
                }
                let size = u16::from_be_bytes([value[0], value[1]]);
                return Ok(TcpOptionElement::MaximumSegmentSize(size));
            }
            tcp_option::KIND_WINDOW_SCALE => {
                if value.len() != 1 {
                    return Err(self.unexpected_size());
                }
                return Ok(TcpOptionElement::WindowScale(value[0]));
            }
            tcp_option::KIND_SELECTIVE_ACK_PERMITTED => {
                if !value.is_empty() {
                    return Err(self.unexpected_size());
                }
                return Ok(TcpOptionElement::SelectiveAcknowledgementPermitted);
            }
            tcp_option::KIND_SELECTIVE_ACK => {
                let len = value.len();
                if len != 8 && len != 16 && len != 24 && len != 32 {
                    return Err(self.unexpected_size());
                }
                return Ok(selective_acknowledgement(value));
            }
            tcp_option::KIND_TIMESTAMP => {
                if value.len() != 8 {
                    return Err(self.unexpected_size());
                }
                let (value, echo) = pair_at(value, 0);
                return Ok(TcpOptionElement::Timestamp(value, echo));
            }
            kind => return Err(TcpOptionReadError::UnknownId(kind)),
        }
    }

    /// The error if the length is wrong for the kind.
    // perf: only the length byte comes from a call. An error that a call returns goes through memory, which is filled with zeros at every
    // option (27 Nov 2026).
    #[inline(always)]
    fn unexpected_size(&self) -> TcpOptionReadError
        ensures { result ≡ UnexpectedSize self.now.kind (length_byte self.now) }
    {
        TcpOptionReadError::UnexpectedSize {
            option_id: self.kind,
            size: self.size_byte(),
        }
    }

    /// The length byte of the option, or 255 if its value is too long.
    #[cold]
    #[inline(never)]
    fn size_byte(&self) -> u8
        ensures { result ≡ length_byte self.now }
    {
        u8::try_from(self.value.len() + 2).unwrap_or(u8::MAX)
    }
}

/// The selective acknowledgement with this value. The length of the value states the number of blocks.
#[inline(always)]
fn selective_acknowledgement(value: &[u8]) -> TcpOptionElement
    requires blocks { (length value.now ≡ 8) ⊎ ((length value.now ≡ 16) ⊎ ((length value.now ≡ 24) ⊎ (length value.now ≡ 32))) }
    ensures read { BeginsWith (5 ∷ (length value.now + 2) ∷ value.now) result [] }
{
    let first = pair_at(value, 0);
    if value.len() == 8 {
        return TcpOptionElement::SelectiveAcknowledgement(first, [None, None, None]);
    }
    let second = Some(pair_at(value, 8));
    if value.len() == 16 {
        return TcpOptionElement::SelectiveAcknowledgement(first, [second, None, None]);
    }
    let third = Some(pair_at(value, 16));
    if value.len() == 24 {
        return TcpOptionElement::SelectiveAcknowledgement(first, [second, third, None]);
    }
    let fourth = Some(pair_at(value, 24));
    TcpOptionElement::SelectiveAcknowledgement(first, [second, third, fourth])
}

impl<'a> PartialEq for TcpRawOption<'a> {
    ghost use Rattle.std.specs.Prelude.{◌≡◌, ◌↔◌, ◌&&◌, IsTrue, nat_eq};
    ghost use Rattle.std.specs.Cmp.Lexicographic.{pointwise};
    ghost use Rattle.std.specs.Cmp.Rules.{comparing};
    ghost use Rattle.std.proofs.Common.{rules};

    ghost eq = { λ option other. nat_eq option.kind other.kind && pointwise nat_eq option.value other.value };

    ghost laws = { Prim.search (comparing, rules) };

    fn eq(&self, other: &TcpRawOption<'a>) -> bool
        ensures computes { result ≡ (nat_eq self.now.kind other.now.kind && pointwise nat_eq self.now.value other.now.value) }
        ensures same { IsTrue result ↔ (self.now ≡ other.now) }
    {
        self.kind == other.kind && self.value == other.value
    }
}

impl<'a> Eq for TcpRawOption<'a> {
    ghost use Rattle.std.specs.Cmp.Rules.{comparing};
    ghost use Rattle.std.proofs.Common.{rules};

    ghost laws = { Prim.search (comparing, rules) };
}
