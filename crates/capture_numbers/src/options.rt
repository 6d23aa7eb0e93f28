ghost use Rattle.std.specs.Prelude.{◌≡◌, ◌+◌, ◌≤◌, IfSome, MatchOption, None, Some, length};
ghost use Rattle.capture_numbers.specs.Numbers.{short_at};
ghost use Rattle.capture_numbers.specs.Options as specs;

use crate::ByteOrder;

/// The code that ends the options of a block (draft-ietf-opsawg-pcapng, section 3.5).
const END: u16 = 0;

/// The length of the part before the value of an option, in bytes: its code and the length of the value.
const HEADER_LEN: usize = 4;

/// The value of the first option with this code among the options of a block. If `len` is given, only a value of this length counts.
pub fn option_value(order: ByteOrder, options: &[u8], code: u16, len: Option<u16>) -> Option<&[u8]>
    ensures value { MatchOption result (specs.option_value order code len options.now ≡ None)
        (λ value. specs.option_value order code len options.now ≡ Some value.now) }
    ensures len { IfSome len (λ len. IfSome result (λ value. length value.now ≡ len)) }
{
    let mut rest = options;
    while let Some(option) = first_option(order, rest) {
        let value_len = order.short_in(option, 2);
        if order.short_in(option, 0) == code && value_len == len.unwrap_or(value_len) {
            return Some(&option[HEADER_LEN..HEADER_LEN + usize::from(value_len)]);
        }
        rest = &rest[option.len()..];
    }
    None
}

/// The option at the front of these bytes, which are the rest of a block's options. `None` if the options end here with code 0, or if the
/// bytes are too short for an option.
fn first_option(order: ByteOrder, bytes: &[u8]) -> Option<&[u8]>
    ensures front { MatchOption result (specs.pcapng_option order bytes.now ≡ None)
        (λ option. specs.pcapng_option order bytes.now ≡ Some option.now) }
    ensures len { IfSome result (λ option. length option.now ≡ specs.option_len (short_at order option.now 2)) }
    ensures within { IfSome result (λ option. length option.now ≤ length bytes.now) }
{
    if bytes.len() < HEADER_LEN || order.short_in(bytes, 0) == END {
        return None;
    }
    bytes.get(..option_len(order.short_in(bytes, 2)))
}

/// The length in bytes of an option with a value of this length. The value is padded to a multiple of four bytes.
fn option_len(value_len: u16) -> usize
    ensures { result ≡ specs.option_len value_len }
{
    HEADER_LEN + (usize::from(value_len) + 3) / 4 * 4
}
