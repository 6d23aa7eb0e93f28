ghost use Rattle.std.specs.Prelude.{◌≡◌, None, if◌then◌else◌};
ghost use Rattle.etherparse_transport_c.specs.Errors.{Leaves, test_error};
ghost use Rattle.etherparse_transport_c.specs.Numbers as numbers;

use crate::answer::{Answer, ErrorPlace, accept, refuse};
use crate::error::of_status;
use crate::status;

/// Returns `OK` if a tested checksum is right, and `CHECKSUM_WRONG` if it is wrong. If it is wrong, the function also writes the error.
pub(crate) fn verdict(valid: bool, error: ErrorPlace) -> Answer
    ensures status { result.status ≡ (if valid then numbers.status_ok else numbers.status_checksum_wrong) }
    ensures error { Leaves error result (test_error None result.status error.before) }
{
    if valid {
        accept(error)
    } else {
        refuse(error, of_status(status::CHECKSUM_WRONG))
    }
}
