ghost use Rattle.std.specs.Prelude.{◌≡◌};
ghost use Rattle.capture_summary.specs.Endpoints.{endpoint_order};

use crate::Count;
use std::cmp::Ordering;
use std::net::IpAddr;

/// An address, and the count of the packets of its conversations.
#[derive(Clone, Copy, PartialEq, Eq)]
pub struct EndpointCount {
    /// The address.
    pub address: IpAddr,
    /// The count of the packets in all conversations that have this address, in both directions.
    pub count: Count,
}

impl EndpointCount {
    /// The order for sorting. The endpoint that is listed first is less.
    pub(crate) fn order(&self, other: &EndpointCount) -> Ordering
        ensures { result ≡ endpoint_order self.now other.now }
    {
        let packets = other.count.packets.cmp(&self.count.packets);
        let bytes = other.count.bytes.cmp(&self.count.bytes);
        let address = self.address.cmp(&other.address);
        packets.then(bytes.then(address))
    }
}
