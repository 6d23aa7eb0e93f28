ghost use Rattle.std.specs.Prelude.{◌≡◌};
ghost use Rattle.std.specs.Ptr.{Ptr};
ghost use denote.RawPtr.{Testable};
ghost use Rattle.etherparse_transport_c.specs.ErrorMemory.{holds};
ghost use Rattle.etherparse_transport_c.specs.Numbers as numbers;
ghost use Rattle.etherparse_transport_c.specs.declared.error.EtherparseError.{EtherparseError};

use crate::error::EtherparseError;
use crate::status;
use std::marker::Model;

/// The argument to which a call writes its error. In C it is `etherparse_error *error`. A caller that does not need the error passes NULL.
#[repr(C)]
pub struct ErrorPlace {
    /// A pointer to the caller's error, or NULL.
    pub pointer: *mut EtherparseError,
    ghost before: { EtherparseError },
    ghost testable: { Testable pointer },
}

impl Model for ErrorPlace {
    // If the pointer is not NULL, it points to an error that the caller lends. Before the call this error is `before`.
    ghost also_owns = { λ place. holds place.pointer place.before };
}

/// The result of a call. In C it is an `etherparse_status`.
#[repr(C)]
pub struct Answer {
    /// The status. The module `status` lists the numbers.
    pub status: u32,
    ghost pointer: { Ptr },
    ghost error: { EtherparseError },
}

impl Model for Answer {
    // If the pointer is not NULL, the caller gets back the error that it lent. After the call this error is `error`.
    ghost also_owns = { λ answer. holds answer.pointer answer.error };
}

/// Returns the status `OK`, and leaves the caller's error unchanged.
pub(crate) fn accept(place: ErrorPlace) -> Answer
    ensures status { result.status ≡ numbers.status_ok }
    ensures pointer { result.pointer ≡ place.pointer }
    ensures error { result.error ≡ place.before }
{
    let ErrorPlace { pointer: _ } = place;
    Answer { status: status::OK }
}

/// Returns the status of a refusal. If the pointer is not NULL, the function also writes the refusal to the caller's error.
pub(crate) fn refuse(place: ErrorPlace, refusal: EtherparseError) -> Answer
    ensures status { result.status ≡ refusal.status }
    ensures pointer { result.pointer ≡ place.pointer }
    ensures error { result.error ≡ refusal }
{
    let ErrorPlace { pointer } = place;
    unsafe {
        if !pointer.is_null() {
            *pointer = refusal;
        }
    }
    Answer {
        status: refusal.status,
    }
}
