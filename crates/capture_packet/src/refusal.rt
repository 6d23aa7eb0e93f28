use crate::LinkHeaderCutOff;
use ip_part::{IpError, Proto};
use net_base::err::tcp::HeaderSliceError;

/// Why a packet is refused.
#[derive(Clone, Debug, PartialEq, Eq, Drop)]
pub enum Refusal {
    /// The frame ends within its link header.
    Link(LinkHeaderCutOff),
    /// The IP headers are refused.
    Ip(IpError),
    /// The transport of this protocol is refused with this error.
    Transport(Proto, HeaderSliceError),
}
