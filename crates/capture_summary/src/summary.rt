ghost use Rattle.std.specs.Int.NonZero.{non_zero_u128_get};
ghost use Rattle.std.specs.Prelude.{◌≡◌, ◌↔◌, ◌<◌, ◌-◌, ◌^◌, ◌+◌, map, slice_index, slice_index_or, IfOk, IsSome, OnOk, OnErr, option_map};
ghost use Rattle.capture_summary.specs.SummaryTables.{CountsOne, IsBalanced, empty_tables, file_started, has_fault};
ghost use Rattle.capture_summary.specs.Kinds.{link_place, link_rows, protocol_rows, refusal_place, refusal_rows, verdict_place, verdict_rows};
ghost use Rattle.capture_summary.specs.Protocols.{protocol_place};
ghost use Rattle.capture_summary.specs.Ranking.{IsRankingOf, by_packets, has_more_packets};
ghost use Rattle.capture_summary.specs.Rates.{average_len};
ghost use Rattle.capture_summary.specs.Tables.{no_packets};
ghost use Rattle.capture_summary.specs.declared.verdict_kind.VerdictKind.TheVariants.{Refused};

use crate::event::{count_event, empty_timeline};
use crate::{
    CaptureInfo, Count, FileCount, Flow, Flows, LinkKind, Protocol, RefusalKind, TimeSpan,
    VerdictKind, protocol_rows,
};
use arrayvec::ArrayVec;
use std::alloc::{AllocError, Global};
use std::hash::RandomState;
use std::marker::Model;
use std::num::NonZeroU128;
use timeline::Timeline;

/// The counts of the packets of captures.
///
/// Each packet is counted once by its protocol, once by its verdict, once by its link type, once by its flow, and once by its time. A refused
/// packet is also counted by the kind of its refusal. The packets of the capture that is being read are also counted on their own.
#[derive(Drop)]
pub struct Summary {
    bytes: u64,
    span: Option<TimeSpan>,
    protocols: [Count; Protocol::COUNT],
    verdicts: [u64; VerdictKind::COUNT],
    links: [u64; LinkKind::COUNT],
    refusals: [u64; RefusalKind::COUNT],
    flows: Flows,
    timeline: Timeline,
    file: FileCount,
}

impl Model for Summary {
    ghost use Rattle.capture_summary.specs.FlowTable.{packets_counted};
    ghost use Rattle.capture_summary.specs.SummaryTables.{IsBalanced, SummaryTables};

    ghost Value = { SummaryTables };

    ghost view = { λ summary. record {
      packets = packets_counted summary.flows;
      bytes = summary.bytes;
      span = summary.span;
      protocols = summary.protocols;
      verdicts = summary.verdicts;
      links = summary.links;
      refusals = summary.refusals;
      flows = summary.flows;
      timeline = summary.timeline;
      file = summary.file;
    } };

    ghost invariant = { λ summary. IsBalanced record {
      packets = packets_counted summary.flows;
      bytes = summary.bytes;
      span = summary.span;
      protocols = summary.protocols;
      verdicts = summary.verdicts;
      links = summary.links;
      refusals = summary.refusals;
      flows = summary.flows;
      timeline = summary.timeline;
      file = summary.file;
    } };
}

impl Summary {
    /// A summary without packets, with the memory of its timeline. `state` provides the keys of the hashes that find a flow. `interval` is
    /// the fixed width of the intervals of the timeline in nanoseconds. If it is `None`, the width grows.
    ///
    /// # Errors
    ///
    /// `AllocError` if no memory is left, and for no other reason.
    pub fn new(
        alloc: Global,
        state: RandomState,
        interval: Option<NonZeroU128>,
    ) -> Result<Summary, AllocError>
        ensures empty { IfOk result (λ summary. summary ≡ empty_tables (option_map non_zero_u128_get interval)) }
        ensures balanced { IfOk result (λ summary. IsBalanced summary) }
    {
        Ok(Summary {
            bytes: 0,
            span: None,
            protocols: [Count::NONE; Protocol::COUNT],
            verdicts: [0; VerdictKind::COUNT],
            links: [0; LinkKind::COUNT],
            refusals: [0; RefusalKind::COUNT],
            flows: Flows::new(alloc, state),
            timeline: empty_timeline(alloc, interval)?,
            file: FileCount::NONE,
        })
    }

    /// Begins another capture: `file` counts only the packets after this call.
    pub fn start_file(&mut self)
        ensures { self.new ≡ file_started self.old }
    {
        self.file = FileCount::NONE;
    }

    /// Counts a packet of these kinds. `flow` is its flow, or `None` if it has no ports or an unknown final destination. `info` is what the
    /// capture states about the packet. The number that `packets` returns must be below `u64::MAX`.
    ///
    /// # Errors
    ///
    /// `AllocError` if no memory is left, and for no other reason. Then the packet is not counted, and all counts are unchanged.
    pub fn add(
        &mut self,
        protocol: Protocol,
        verdict: VerdictKind,
        refusal: Option<RefusalKind>,
        flow: Option<Flow>,
        info: &CaptureInfo,
    ) -> Result<(), AllocError>
        requires room { self.old.packets < 2 ^ 64 - 1 }
        requires of_refused { IsSome refusal ↔ (verdict ≡ Refused) }
        ensures ok { OnOk result (CountsOne self.old protocol verdict refusal flow info.now self.new) }
        ensures one { OnOk result (self.new.packets ≡ self.old.packets + 1) }
        ensures err { OnErr result (self.new ≡ self.old) }
        ensures balanced { IsBalanced self.new }
    {
        let len = info.counted_len();
        self.flows.add(flow, len, info.time)?;
        count_event(&mut self.timeline, protocol, verdict, info);
        self.bytes = self.bytes.saturating_add(len);
        self.span = TimeSpan::with_time(self.span, info.time);
        self.protocols[protocol.place()].add(len);
        self.verdicts[verdict.place()] += 1;
        self.file.add(verdict, len);
        self.links[LinkKind::of(info.link_type).place()] += 1;
        if let Some(refusal) = refusal {
            self.refusals[refusal.place()] += 1;
        }
        Ok(())
    }

    /// The number of counted packets.
    pub fn packets(&self) -> u64
        ensures packets { result ≡ self.now.packets }
        ensures balanced { IsBalanced self.now }
    {
        self.flows.packets()
    }

    /// The number of bytes of the counted packets. The sum saturates at `u64::MAX`.
    pub fn bytes(&self) -> u64
        ensures { result ≡ self.now.bytes }
    {
        self.bytes
    }

    /// The packets that were counted since the last call of `start_file`.
    pub fn file(&self) -> FileCount
        ensures { result ≡ self.now.file }
    {
        self.file
    }

    /// The average number of bytes of a counted packet, rounded down, or `None` if no packet is counted.
    pub fn average_len(&self) -> Option<u64>
        ensures { result ≡ average_len self.now.packets self.now.bytes }
    {
        self.bytes.checked_div(self.packets())
    }

    /// The earliest and the latest of the known packet times, or `None` if no time is known.
    pub fn span(&self) -> Option<TimeSpan>
        ensures { result ≡ self.now.span }
    {
        self.span
    }

    /// The rows of the table of protocols: the name and the count of each row.
    pub fn protocols(&self) -> [(&'static str, Count); Protocol::COUNT]
        ensures { map (λ row. (row.0.now, row.1)) result ≡ protocol_rows self.now.protocols }
    {
        protocol_rows::rows(&self.protocols)
    }

    /// The rows of the table of protocols, beginning with the row that has the most packets. Rows with the same number of packets are in
    /// the order of the table.
    pub fn protocols_by_packets(&self) -> ArrayVec<(&'static str, Count), { Protocol::COUNT }>
        ensures rows { map (λ row. (row.0.now, row.1)) result.items ≡ by_packets (protocol_rows self.now.protocols) }
        ensures ranked { IsRankingOf has_more_packets (protocol_rows self.now.protocols) (map (λ row. (row.0.now, row.1)) result.items) }
    {
        protocol_rows::by_packets(&self.protocols())
    }

    /// The rows of the table of checksums: the name and the number of packets of each row.
    pub fn verdicts(&self) -> [(&'static str, u64); VerdictKind::COUNT]
        ensures { map (λ row. (row.0.now, row.1)) result ≡ verdict_rows self.now.verdicts }
    {
        VerdictKind::rows(&self.verdicts)
    }

    /// The rows of the table of link types: the name and the number of packets of each row.
    pub fn links(&self) -> [(&'static str, u64); LinkKind::COUNT]
        ensures { map (λ row. (row.0.now, row.1)) result ≡ link_rows self.now.links }
    {
        LinkKind::rows(&self.links)
    }

    /// The rows of the table of refusals: the name and the number of packets of each row.
    pub fn refusals(&self) -> [(&'static str, u64); RefusalKind::COUNT]
        ensures { map (λ row. (row.0.now, row.1)) result ≡ refusal_rows self.now.refusals }
    {
        RefusalKind::rows(&self.refusals)
    }

    /// The count of the packets of a protocol.
    pub fn protocol(&self, protocol: Protocol) -> Count
        ensures { result ≡ slice_index_or self.now.protocols (protocol_place protocol) no_packets }
    {
        self.protocols[protocol.place()]
    }

    /// The number of packets with a verdict of this kind.
    pub fn verdict(&self, verdict: VerdictKind) -> u64
        ensures { result ≡ slice_index self.now.verdicts (verdict_place verdict) }
    {
        self.verdicts[verdict.place()]
    }

    /// The number of packets with a link type of this kind.
    pub fn link(&self, link: LinkKind) -> u64
        ensures { result ≡ slice_index self.now.links (link_place link) }
    {
        self.links[link.place()]
    }

    /// Whether a packet with a wrong checksum, or a refused packet, was counted.
    pub fn has_fault(&self) -> bool
        ensures { result ≡ has_fault self.now }
    {
        self.verdict(VerdictKind::Wrong) > 0 || self.verdict(VerdictKind::Refused) > 0
    }

    /// The number of packets that were refused for a reason of this kind.
    pub fn refusal(&self, refusal: RefusalKind) -> u64
        ensures { result ≡ slice_index self.now.refusals (refusal_place refusal) }
    {
        self.refusals[refusal.place()]
    }

    /// The counts by flow.
    pub fn flows(&self) -> &Flows
        ensures { result.now ≡ self.now.flows }
    {
        &self.flows
    }

    /// The counts by time. The times are numbers of nanoseconds, counted from 2^63 seconds before the beginning of 1970.
    pub fn timeline(&self) -> &Timeline
        ensures { result.now ≡ self.now.timeline }
    {
        &self.timeline
    }
}
