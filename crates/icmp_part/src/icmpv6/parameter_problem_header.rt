use crate::icmpv6::ParameterProblemCode;

/// The problem with a packet, and the place of the problem in the packet (RFC 4443, section 3.4).
///
/// ```
/// use etherparse_transport::icmpv6::{ParameterProblemCode, ParameterProblemHeader};
/// use etherparse_transport::{Icmpv6Header, Icmpv6Type};
///
/// // Byte 6 of an IPv6 header is the next header.
/// let (code, pointer) = (ParameterProblemCode::UnrecognizedNextHeader, 6);
/// let problem = ParameterProblemHeader { code, pointer };
/// // The checksum is 0 until `update_checksum` stores it.
/// let header = Icmpv6Header::new(Icmpv6Type::ParameterProblem(problem));
/// assert_eq!(rt; header.to_bytes().as_slice(), [4, 1, 0, 0, 0, 0, 0, 6].as_slice());
/// ```
#[derive(Clone, Copy, Debug, PartialEq, Eq, PartialOrd, Ord, Hash)]
pub struct ParameterProblemHeader {
    /// The problem.
    pub code: ParameterProblemCode,
    /// The place of the error, in bytes from the start of the packet that caused the message (bytes 4 to 7). It may be beyond the part of
    /// the packet that the message quotes (RFC 4443, section 3.4).
    pub pointer: u32,
}
