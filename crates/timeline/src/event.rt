/// A packet, as a timeline counts it.
#[derive(Clone, Copy, Debug, PartialEq, Eq)]
pub struct Event {
    /// The time at which the packet was captured, or `None` if it is unknown. The times of all packets count the same unit from the same
    /// moment, for example nanoseconds since the beginning of 1970.
    pub time: Option<u128>,
    /// The length of the packet in bytes.
    pub len: u64,
    /// The transport protocol.
    pub transport: Transport,
    /// What is wrong with the packet, or `None` if nothing is known to be wrong.
    pub fault: Option<Fault>,
}

/// The transport protocol of a packet.
#[derive(Clone, Copy, Debug, PartialEq, Eq)]
pub enum Transport {
    /// UDP.
    Udp,
    /// TCP.
    Tcp,
    /// ICMP, for IPv4 or for IPv6.
    Icmp,
    /// Another protocol, or none.
    Other,
}

/// What is wrong with a packet.
#[derive(Clone, Copy, Debug, PartialEq, Eq)]
pub enum Fault {
    /// The checksum is wrong.
    Wrong,
    /// The packet is refused.
    Refused,
}
