ghost use Rattle.std.specs.Prelude.{◌≡◌};
ghost use Rattle.net_base.specs.Refusals as specs;

use crate::err::{Layer, LenError, LenSource, ValueTooBigError, ValueType};

/// The error for a slice of length `len` whose layer requires another length. Both lengths are in bytes.
pub fn wrong_length(layer: Layer, required_len: usize, len: usize) -> LenError
    ensures { result ≡ specs.wrong_length layer required_len len }
{
    LenError {
        required_len,
        len,
        len_source: LenSource::Slice,
        layer,
        layer_start_offset: 0,
    }
}

/// Refuses a payload whose length is above the greatest allowed length. Both lengths are in bytes.
///
/// # Errors
///
/// `ValueTooBigError` if `len` is above `max_allowed`.
pub fn check_payload_len(
    len: usize,
    max_allowed: usize,
    value_type: ValueType,
) -> Result<(), ValueTooBigError<usize>>
    ensures { specs.RefusesExactly result (specs.too_big value_type max_allowed len) }
{
    if len <= max_allowed {
        Ok(())
    } else {
        Err(ValueTooBigError {
            actual: len,
            max_allowed,
            value_type,
        })
    }
}
