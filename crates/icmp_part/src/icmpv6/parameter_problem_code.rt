use crate::icmpv6::*;

/// The problem with the IPv6 header or an extension header of a packet, by the code (RFC 4443, section 3.4).
///
/// ```
/// use etherparse_transport::icmpv6::ParameterProblemCode;
///
/// let code = ParameterProblemCode::from_u8(1);
/// assert_eq!(rt; code, Some(ParameterProblemCode::UnrecognizedNextHeader));
/// assert_eq!(rt; ParameterProblemCode::OptionTooBig.code_u8(), 10);
/// assert_eq!(rt; ParameterProblemCode::from_u8(11), None);
/// ```
#[derive(Clone, Copy, Debug, PartialEq, Eq, PartialOrd, Ord, Hash)]
pub enum ParameterProblemCode {
    /// A header field is erroneous (RFC 4443, section 3.4).
    ErroneousHeaderField,
    /// The type of the next header is unrecognized (RFC 4443, section 3.4).
    UnrecognizedNextHeader,
    /// An IPv6 option is unrecognized (RFC 4443, section 3.4).
    UnrecognizedIpv6Option,
    /// The first fragment has an incomplete IPv6 header chain (RFC 7112, section 5).
    Ipv6FirstFragmentIncompleteHeaderChain,
    /// The destination is a segment identifier of a node that does not process this upper-layer header (RFC 8754, section 4.3.1.2).
    SrUpperLayerHeaderError,
    /// The type of the next header is unrecognized by an intermediate node (RFC 8883, section 2).
    UnrecognizedNextHeaderByIntermediateNode,
    /// An extension header is too big (RFC 8883, section 2).
    ExtensionHeaderTooBig,
    /// The chain of extension headers is too long (RFC 8883, section 2).
    ExtensionHeaderChainTooLong,
    /// There are too many extension headers (RFC 8883, section 2).
    TooManyExtensionHeaders,
    /// An extension header has too many options (RFC 8883, section 2).
    TooManyOptionsInExtensionHeader,
    /// An option is too big (RFC 8883, section 2).
    OptionTooBig,
}

impl ParameterProblemCode {
    ghost use Rattle.std.specs.Prelude.{◌≡◌, IfSome, Some, slice_get};
    ghost use Rattle.icmp_part.specs.Icmpv6Format.{parameter_problem_code, parameter_problem_codes};

    /// The variant of this code (RFC 4443, section 3.4; RFC 7112, section 5; RFC 8754, section 4.3.1.2; RFC 8883,
    /// section 2). `None` if the code is above 10.
    #[tactic(auto, using(std::proofs::lemmas::Option::slice_get_past))]
    pub fn from_u8(code_u8: u8) -> Option<ParameterProblemCode>
        ensures listed { result ≡ slice_get parameter_problem_codes code_u8 }
        ensures written_back { IfSome result (λ code. parameter_problem_code code ≡ code_u8) }
    {
        match code_u8 {
            CODE_PARAM_PROBLEM_ERR_HEADER_FIELD => Some(ParameterProblemCode::ErroneousHeaderField),
            CODE_PARAM_PROBLEM_UNRECOG_NEXT_HEADER => Some(
                ParameterProblemCode::UnrecognizedNextHeader,
            ),
            CODE_PARAM_PROBLEM_UNRECOG_IPV6_OPTION => Some(
                ParameterProblemCode::UnrecognizedIpv6Option,
            ),
            CODE_PARAM_PROBLEM_IPV6_FIRST_FRAG_INCOMP_HEADER_CHAIN => Some(
                ParameterProblemCode::Ipv6FirstFragmentIncompleteHeaderChain,
            ),
            CODE_PARAM_PROBLEM_SR_UPPER_LAYER_HEADER_ERROR => Some(
                ParameterProblemCode::SrUpperLayerHeaderError,
            ),
            CODE_PARAM_PROBLEM_UNRECOG_NEXT_HEADER_BY_INTERMEDIATE_NODE => Some(
                ParameterProblemCode::UnrecognizedNextHeaderByIntermediateNode,
            ),
            CODE_PARAM_PROBLEM_EXT_HEADER_TOO_BIG => Some(
                ParameterProblemCode::ExtensionHeaderTooBig,
            ),
            CODE_PARAM_PROBLEM_EXT_HEADER_CHAIN_TOO_LONG => Some(
                ParameterProblemCode::ExtensionHeaderChainTooLong,
            ),
            CODE_PARAM_PROBLEM_TOO_MANY_EXT_HEADERS => Some(
                ParameterProblemCode::TooManyExtensionHeaders,
            ),
            CODE_PARAM_PROBLEM_TOO_MANY_OPTIONS_EXT_HEADER => Some(
                ParameterProblemCode::TooManyOptionsInExtensionHeader,
            ),
            CODE_PARAM_PROBLEM_OPTION_TOO_BIG => Some(ParameterProblemCode::OptionTooBig),
            _ => None,
        }
    }

    /// The code, 0 to 10.
    pub fn code_u8(&self) -> u8
        ensures written { result ≡ parameter_problem_code self.now }
        ensures read_back { slice_get parameter_problem_codes result ≡ Some self.now }
    {
        match self {
            ParameterProblemCode::ErroneousHeaderField => CODE_PARAM_PROBLEM_ERR_HEADER_FIELD,
            ParameterProblemCode::UnrecognizedNextHeader => CODE_PARAM_PROBLEM_UNRECOG_NEXT_HEADER,
            ParameterProblemCode::UnrecognizedIpv6Option => CODE_PARAM_PROBLEM_UNRECOG_IPV6_OPTION,
            ParameterProblemCode::Ipv6FirstFragmentIncompleteHeaderChain =>
                CODE_PARAM_PROBLEM_IPV6_FIRST_FRAG_INCOMP_HEADER_CHAIN,
            ParameterProblemCode::SrUpperLayerHeaderError =>
                CODE_PARAM_PROBLEM_SR_UPPER_LAYER_HEADER_ERROR,
            ParameterProblemCode::UnrecognizedNextHeaderByIntermediateNode =>
                CODE_PARAM_PROBLEM_UNRECOG_NEXT_HEADER_BY_INTERMEDIATE_NODE,
            ParameterProblemCode::ExtensionHeaderTooBig => CODE_PARAM_PROBLEM_EXT_HEADER_TOO_BIG,
            ParameterProblemCode::ExtensionHeaderChainTooLong =>
                CODE_PARAM_PROBLEM_EXT_HEADER_CHAIN_TOO_LONG,
            ParameterProblemCode::TooManyExtensionHeaders =>
                CODE_PARAM_PROBLEM_TOO_MANY_EXT_HEADERS,
            ParameterProblemCode::TooManyOptionsInExtensionHeader =>
                CODE_PARAM_PROBLEM_TOO_MANY_OPTIONS_EXT_HEADER,
            ParameterProblemCode::OptionTooBig => CODE_PARAM_PROBLEM_OPTION_TOO_BIG,
        }
    }
}
