use crate::icmpv6::*;

/// Why a packet could not be delivered, by the code (RFC 4443, section 3.1).
///
/// ```
/// use etherparse_transport::icmpv6::DestUnreachableCode;
///
/// assert_eq!(rt; DestUnreachableCode::from_u8(4), Some(DestUnreachableCode::Port));
/// assert_eq!(rt; DestUnreachableCode::NoRoute.code_u8(), 0);
/// assert_eq!(rt; DestUnreachableCode::from_u8(7), None);
/// ```
#[derive(Clone, Copy, Debug, PartialEq, Eq, PartialOrd, Ord, Hash)]
pub enum DestUnreachableCode {
    /// There is no route to the destination.
    NoRoute,
    /// Communication with the destination is administratively prohibited.
    Prohibited,
    /// The destination is beyond the scope of the source address.
    BeyondScope,
    /// The address is unreachable.
    Address,
    /// The port is unreachable.
    Port,
    /// The source address failed an ingress or egress policy.
    SourceAddressFailedPolicy,
    /// The route to the destination is a reject route.
    RejectRoute,
}

impl DestUnreachableCode {
    ghost use Rattle.std.specs.Prelude.{◌≡◌, IfSome, Some, slice_get};
    ghost use Rattle.icmp_part.specs.Icmpv6Format.{dest_unreachable_code, dest_unreachable_codes};

    /// The variant of this code (RFC 4443, section 3.1). `None` if the code is above 6.
    #[tactic(auto, using(std::proofs::lemmas::Option::slice_get_past))]
    pub fn from_u8(code_u8: u8) -> Option<DestUnreachableCode>
        ensures listed { result ≡ slice_get dest_unreachable_codes code_u8 }
        ensures written_back { IfSome result (λ code. dest_unreachable_code code ≡ code_u8) }
    {
        match code_u8 {
            CODE_DST_UNREACH_NO_ROUTE => Some(DestUnreachableCode::NoRoute),
            CODE_DST_UNREACH_PROHIBITED => Some(DestUnreachableCode::Prohibited),
            CODE_DST_UNREACH_BEYOND_SCOPE => Some(DestUnreachableCode::BeyondScope),
            CODE_DST_UNREACH_ADDR => Some(DestUnreachableCode::Address),
            CODE_DST_UNREACH_PORT => Some(DestUnreachableCode::Port),
            CODE_DST_UNREACH_SOURCE_ADDRESS_FAILED_POLICY => Some(
                DestUnreachableCode::SourceAddressFailedPolicy,
            ),
            CODE_DST_UNREACH_REJECT_ROUTE_TO_DEST => Some(DestUnreachableCode::RejectRoute),
            _ => None,
        }
    }

    /// The code, 0 to 6.
    pub fn code_u8(&self) -> u8
        ensures written { result ≡ dest_unreachable_code self.now }
        ensures read_back { slice_get dest_unreachable_codes result ≡ Some self.now }
    {
        match self {
            DestUnreachableCode::NoRoute => CODE_DST_UNREACH_NO_ROUTE,
            DestUnreachableCode::Prohibited => CODE_DST_UNREACH_PROHIBITED,
            DestUnreachableCode::BeyondScope => CODE_DST_UNREACH_BEYOND_SCOPE,
            DestUnreachableCode::Address => CODE_DST_UNREACH_ADDR,
            DestUnreachableCode::Port => CODE_DST_UNREACH_PORT,
            DestUnreachableCode::SourceAddressFailedPolicy =>
                CODE_DST_UNREACH_SOURCE_ADDRESS_FAILED_POLICY,
            DestUnreachableCode::RejectRoute => CODE_DST_UNREACH_REJECT_ROUTE_TO_DEST,
        }
    }
}
