ghost use Rattle.std.specs.Prelude.{◌≡◌, ◌≤◌, length};
ghost use Rattle.etherparse_transport_c.specs.Text.{with_string};
ghost use Rattle.etherparse_transport_c.specs.VerdictName.{max_verdict_name_len, verdict_name};

use crate::text::{Char, put_string};
use crate::verdict_kind;

/// Returns the name of a verdict, as the C header spells it.
fn name(verdict: u32) -> &'static str
    ensures name { result.now ≡ verdict_name verdict }
    ensures fits { length result.now ≤ max_verdict_name_len }
{
    match verdict {
        verdict_kind::RIGHT => "ETHERPARSE_VERDICT_RIGHT",
        verdict_kind::ABSENT => "ETHERPARSE_VERDICT_ABSENT",
        verdict_kind::WRONG => "ETHERPARSE_VERDICT_WRONG",
        verdict_kind::PARTIAL => "ETHERPARSE_VERDICT_PARTIAL",
        verdict_kind::UNTESTED_FRAGMENT => "ETHERPARSE_VERDICT_UNTESTED_FRAGMENT",
        verdict_kind::UNTESTED_CUT_OFF => "ETHERPARSE_VERDICT_UNTESTED_CUT_OFF",
        verdict_kind::UNTESTED_UNKNOWN_DESTINATION =>
            "ETHERPARSE_VERDICT_UNTESTED_UNKNOWN_DESTINATION",
        verdict_kind::UNTESTED_OTHER_PROTOCOL => "ETHERPARSE_VERDICT_UNTESTED_OTHER_PROTOCOL",
        verdict_kind::UNTESTED_ZERO_LENGTH => "ETHERPARSE_VERDICT_UNTESTED_ZERO_LENGTH",
        verdict_kind::UNTESTED_TOO_LONG => "ETHERPARSE_VERDICT_UNTESTED_TOO_LONG",
        _ => "unknown verdict",
    }
}

/// Writes the name of a verdict, as the C header spells it, with a zero byte at its end. Returns the length of the whole name, without the
/// zero byte. If the buffer is too small, the call writes the beginning of the name and the zero byte. It writes nothing to an empty
/// buffer.
#[unsafe(no_mangle)]
pub extern "C" fn etherparse_verdict_name(verdict: u32, buffer: &mut [Char]) -> usize
    ensures len { result ≡ length (verdict_name verdict) }
    ensures name { buffer.new ≡ with_string (verdict_name verdict) buffer.old }
    ensures fits { result ≤ max_verdict_name_len }
{
    put_string(name(verdict).as_bytes(), buffer)
}
