ghost use Rattle.std.specs.Prelude.{◌≡◌};
ghost use Rattle.timeline.specs.Counts.{counts_sum, counts_with, fault_counted, sum_of, total, transport_counted};

use crate::{Count, Event, Fault, Transport};

/// The counts of some packets, by transport protocol and by fault.
///
/// Each packet is in the count of exactly one protocol. A packet with a fault is also in the count of its fault.
#[derive(Clone, Copy, Debug, Default, PartialEq, Eq)]
pub struct Counts {
    /// The packets of UDP.
    pub udp: Count,
    /// The packets of TCP.
    pub tcp: Count,
    /// The packets of ICMP.
    pub icmp: Count,
    /// The packets of another protocol, or of none.
    pub other: Count,
    /// The packets with a wrong checksum.
    pub wrong: Count,
    /// The refused packets.
    pub refused: Count,
}

impl Counts {
    /// The counts without packets.
    pub const NONE: Counts = Counts {
        udp: Count::NONE,
        tcp: Count::NONE,
        icmp: Count::NONE,
        other: Count::NONE,
        wrong: Count::NONE,
        refused: Count::NONE,
    };

    /// The count of all packets.
    pub fn total(&self) -> Count
        ensures { result ≡ total self.now }
    {
        self.udp.plus(self.tcp).plus(self.icmp).plus(self.other)
    }

    /// The counts of the packets of both.
    pub fn plus(&self, other: &Counts) -> Counts
        ensures { result ≡ counts_sum self.now other.now }
    {
        Counts {
            udp: self.udp.plus(other.udp),
            tcp: self.tcp.plus(other.tcp),
            icmp: self.icmp.plus(other.icmp),
            other: self.other.plus(other.other),
            wrong: self.wrong.plus(other.wrong),
            refused: self.refused.plus(other.refused),
        }
    }

    /// The counts of the packets of all.
    pub fn sum(all: &[Counts]) -> Counts
        ensures { result ≡ sum_of all.now }
    {
        let mut sum = Counts::NONE;
        for counts in all {
            sum = sum.plus(counts);
        }
        sum
    }

    /// Counts one packet.
    pub(crate) fn add(&mut self, event: &Event)
        ensures { self.new ≡ counts_with event.now self.old }
    {
        self.add_transport(event);
        self.add_fault(event);
    }

    /// Counts one packet by its protocol.
    fn add_transport(&mut self, event: &Event)
        ensures { self.new ≡ transport_counted event.now self.old }
    {
        match event.transport {
            Transport::Udp => self.udp.add(event.len),
            Transport::Tcp => self.tcp.add(event.len),
            Transport::Icmp => self.icmp.add(event.len),
            Transport::Other => self.other.add(event.len),
        }
    }

    /// Counts one packet by its fault.
    fn add_fault(&mut self, event: &Event)
        ensures { self.new ≡ fault_counted event.now self.old }
    {
        match event.fault {
            Some(Fault::Wrong) => self.wrong.add(event.len),
            Some(Fault::Refused) => self.refused.add(event.len),
            None => {}
        }
    }
}
