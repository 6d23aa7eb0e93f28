ghost use Rattle.std.specs.Prelude.{◌≡◌, ◌<◌, ◌-◌, ◌^◌, ◌+◌, IfOk, OnOk, OnErr};
ghost use Rattle.capture_summary.specs.FlowTable.{packets_counted, table_counted};

use crate::{ConversationCount, Count, EndpointCount, Flow, endpoints, ranking};
use capture_file::PacketTime;
use std::alloc::{AllocError, Global};
use std::collections::HashMap;
use std::hash::RandomState;
use std::marker::Model;

/// The greatest number of conversations with separate counts. It bounds the memory, which does not grow with the capture.
pub const MAX_CONVERSATIONS: usize = 65_536;

/// The counts of the packets by flow, in a row for each conversation.
///
/// Each packet is in exactly one count. A packet with a flow is counted in its direction, in the row of its conversation. If
/// `MAX_CONVERSATIONS` other conversations already have rows, the packet is in the count of packets without room. Packets without a flow
/// are counted apart: they have no ports, or an unknown final destination.
#[derive(Drop)]
pub struct Flows {
    /// The place of the row of a conversation, by its canonical direction. The hashes have random keys, since the author of a capture could
    /// choose flows with equal hashes.
    places: HashMap<Flow, usize, RandomState>,
    counts: Vec<ConversationCount>,
    without_ports: Count,
    without_room: Count,
    /// The number of packets in all counts.
    packets: u64,
}

impl Model for Flows {
    ghost use Rattle.capture_summary.specs.FlowTable.{FlowTable};
    ghost use Rattle.capture_summary.specs.FlowPlaces.{AreFound};

    ghost Value = { FlowTable };

    ghost view = { λ flows. record { rows = flows.counts.items; without_ports = flows.without_ports; without_room = flows.without_room } };

    ghost invariant = { λ flows. AreFound flows.places flows.packets
        record { rows = flows.counts.items; without_ports = flows.without_ports; without_room = flows.without_room } };
}

impl Flows {
    ghost use Rattle.std.specs.Prelude.{[], ◌∷◌, ◌++◌, length, None};
    ghost use Rattle.capture_summary.specs.Conversations.{new_row, row_counted};
    ghost use Rattle.capture_summary.specs.Endpoints.{AreBusiestEndpoints, busiest_endpoints};
    ghost use Rattle.capture_summary.specs.FlowTable.{max_conversations, place_of};
    ghost use Rattle.capture_summary.specs.Ranking.{AreBusiest, busiest_of};
    ghost use Rattle.capture_summary.specs.Tables.{no_packets};

    /// A table without packets. `state` provides the keys of the hashes.
    pub fn new(alloc: Global, state: RandomState) -> Flows
        ensures { result ≡ record { rows = []; without_ports = no_packets; without_room = no_packets } }
    {
        Flows {
            places: HashMap::with_hasher(alloc, state),
            counts: Vec::new(alloc),
            without_ports: Count::NONE,
            without_room: Count::NONE,
            packets: 0,
        }
    }

    /// Counts a packet of this length in bytes. `flow` is its flow, or `None` if it has no ports or an unknown final destination. `time` is
    /// its capture time, or `None` if that is unknown. The number that `packets` returns must be below `u64::MAX`.
    ///
    /// # Errors
    ///
    /// `AllocError` if no memory is left, and for no other reason. After this error all counts are unchanged.
    pub fn add(
        &mut self,
        flow: Option<Flow>,
        len: u64,
        time: Option<PacketTime>,
    ) -> Result<(), AllocError>
        requires room { packets_counted self.old < 2 ^ 64 - 1 }
        ensures ok { OnOk result (self.new ≡ table_counted flow len time self.old) }
        ensures counted { OnOk result (packets_counted self.new ≡ packets_counted self.old + 1) }
        ensures err { OnErr result (self.new ≡ self.old) }
    {
        let Some(flow) = flow else {
            self.without_ports.add(len);
            self.packets += 1;
            return Ok(());
        };
        if let Some(place) = self.places.get(&flow.canonical()) {
            let place = *place;
            self.counts[place].add(&flow, len, time);
            self.packets += 1;
        } else if self.counts.len() < MAX_CONVERSATIONS {
            self.add_row(flow, len, time)?;
        } else {
            self.without_room.add(len);
            self.packets += 1;
        }
        Ok(())
    }

    /// The number of counted packets. If it is below `u64::MAX`, `add` can count one more packet.
    pub fn packets(&self) -> u64
        ensures { result ≡ packets_counted self.now }
    {
        self.packets
    }

    /// The counts of the conversations that have a row, in the order in which the conversations were first seen.
    pub fn counts(&self) -> &[ConversationCount]
        ensures rows { result.now ≡ self.now.rows }
    {
        &self.counts
    }

    /// The count of the packets without a flow. They have no ports, or an unknown final destination.
    pub fn without_ports(&self) -> Count
        ensures { result ≡ self.now.without_ports }
    {
        self.without_ports
    }

    /// The count of the packets of conversations for which the table had no room.
    pub fn without_room(&self) -> Count
        ensures { result ≡ self.now.without_room }
    {
        self.without_room
    }

    /// The conversations with the most packets, at most `top` of them, the busiest first. Of two conversations with the same number of
    /// packets, the conversation with more bytes comes first. If these numbers are also equal, the conversation that was seen first comes
    /// first.
    ///
    /// # Errors
    ///
    /// `AllocError` if no memory is left, and for no other reason.
    pub fn busiest(&self, alloc: Global, top: usize) -> Result<Vec<ConversationCount>, AllocError>
        ensures busiest { IfOk result (λ busiest. busiest.items ≡ busiest_of top self.now.rows) }
        ensures ranked { IfOk result (λ busiest. AreBusiest top self.now.rows busiest.items) }
    {
        ranking::busiest(alloc, &self.counts, top)
    }

    /// The addresses of the conversations that have a row, at most `top` of them, each with the count of all packets of its conversations.
    /// A packet counts for both of its addresses, or once if they are equal. The address with the most packets comes first. Of two addresses
    /// with the same number of packets, the address with more bytes comes first. If these numbers are also equal, the lower address comes
    /// first. Every IPv4 address is lower than every IPv6 address.
    ///
    /// # Errors
    ///
    /// `AllocError` if no memory is left, and for no other reason.
    pub fn endpoints(&self, alloc: Global, top: usize) -> Result<Vec<EndpointCount>, AllocError>
        ensures busiest { IfOk result (λ endpoints. endpoints.items ≡ busiest_endpoints top self.now.rows) }
        ensures endpoints { IfOk result (λ endpoints. AreBusiestEndpoints top self.now.rows endpoints.items) }
    {
        endpoints::busiest(alloc, &self.counts, top)
    }

    /// Counts the first packet of a conversation.
    fn add_row(&mut self, flow: Flow, len: u64, time: Option<PacketTime>) -> Result<(), AllocError>
        requires absent { place_of flow self.old.rows ≡ None }
        requires room { length self.old.rows < max_conversations }
        requires packets { packets_counted self.old < 2 ^ 64 - 1 }
        ensures ok { OnOk result (self.new ≡ record self.old { rows = self.old.rows ++ row_counted flow len time (new_row flow) ∷ [] }) }
        ensures err { OnErr result (self.new ≡ self.old) }
    {
        let mut row = ConversationCount {
            flow,
            forward: Count::NONE,
            reverse: Count::NONE,
            span: None,
        };
        row.add(&flow, len, time);
        self.counts.try_reserve(1)?;
        self.places.insert(flow.canonical(), self.counts.len())?;
        self.counts.push(row)?;
        self.packets += 1;
        Ok(())
    }
}
