use crate::icmpv6::*;

/// Which time was exceeded, by the code (RFC 4443, section 3.3).
///
/// ```
/// use etherparse_transport::icmpv6::TimeExceededCode;
///
/// assert_eq!(rt; TimeExceededCode::from_u8(0), Some(TimeExceededCode::HopLimitExceeded));
/// assert_eq!(rt; TimeExceededCode::FragmentReassemblyTimeExceeded.code_u8(), 1);
/// assert_eq!(rt; TimeExceededCode::from_u8(2), None);
/// ```
#[derive(Clone, Copy, Debug, PartialEq, Eq, PartialOrd, Ord, Hash)]
pub enum TimeExceededCode {
    /// The hop limit was exceeded in transit.
    HopLimitExceeded,
    /// The time for reassembling the fragments was exceeded.
    FragmentReassemblyTimeExceeded,
}

impl TimeExceededCode {
    ghost use Rattle.std.specs.Prelude.{◌≡◌, IfSome, Some, slice_get};
    ghost use Rattle.icmp_part.specs.Icmpv6Format.{time_exceeded_code, time_exceeded_codes};

    /// The variant of this code (RFC 4443, section 3.3). `None` if the code is above 1.
    #[tactic(auto, using(std::proofs::lemmas::Option::slice_get_past))]
    pub fn from_u8(code_u8: u8) -> Option<TimeExceededCode>
        ensures listed { result ≡ slice_get time_exceeded_codes code_u8 }
        ensures written_back { IfSome result (λ code. time_exceeded_code code ≡ code_u8) }
    {
        match code_u8 {
            CODE_TIME_EXCEEDED_HOP_LIMIT_EXCEEDED => Some(TimeExceededCode::HopLimitExceeded),
            CODE_TIME_EXCEEDED_FRAGMENT_REASSEMBLY_TIME_EXCEEDED => Some(
                TimeExceededCode::FragmentReassemblyTimeExceeded,
            ),
            _ => None,
        }
    }

    /// The code, 0 or 1.
    pub fn code_u8(&self) -> u8
        ensures written { result ≡ time_exceeded_code self.now }
        ensures read_back { slice_get time_exceeded_codes result ≡ Some self.now }
    {
        match self {
            TimeExceededCode::HopLimitExceeded => CODE_TIME_EXCEEDED_HOP_LIMIT_EXCEEDED,
            TimeExceededCode::FragmentReassemblyTimeExceeded =>
                CODE_TIME_EXCEEDED_FRAGMENT_REASSEMBLY_TIME_EXCEEDED,
        }
    }
}
