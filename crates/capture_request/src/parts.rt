//! The options of a report.

ghost use Rattle.std.specs.Prelude.{◌≡◌, None, false, not};
ghost use Rattle.capture_summary.specs.Choice.{every_packet};
ghost use Rattle.capture_request.specs.Lines.{has_line, lines_by};
ghost use Rattle.capture_summary.specs.Ranking.{default_top};
ghost use Rattle.capture_words.specs.declared.times.Times.TheVariants.{SinceFirst};
ghost use Rattle.capture_request.specs.declared.parts.Format.TheVariants as Format;

use crate::{Choice, Times};
use capture_packet::Verdict;
use capture_summary::{BUSIEST, VerdictKind};
use std::num::NonZeroU128;

/// The options of a report.
#[derive(Clone, Copy, Debug, PartialEq, Eq)]
pub struct Parts {
    /// The chosen packets. Only chosen packets are counted, and only chosen packets can have a line.
    pub choice: Choice,
    /// Which of the chosen packets have a line.
    pub lines: Lines,
    /// How a line shows the time of its packet.
    pub times: Times,
    /// Whether a line of text also shows the details, such as the hop limit of the packet. A line of JSON always shows them.
    pub verbose: bool,
    /// Whether the summary is written.
    pub summary: bool,
    /// The format of lines and summary.
    pub format: Format,
    /// The greatest number of conversations that the summary lists. It lists the busiest conversations.
    pub top: usize,
    /// Whether a summary of text has the table of the timeline. A summary of JSON always has the timeline.
    pub timeline: bool,
    /// The fixed width of the intervals of the timeline in nanoseconds, or `None` if the width grows with the time of the packets.
    pub interval: Option<NonZeroU128>,
    /// Whether the exit status reports that a packet has a wrong checksum or was refused.
    pub check: bool,
    /// The requested number of lines, or `None` if no number is requested. The report ends after this many lines, and reads no further
    /// packet. If no lines are requested, it ends after this many chosen packets.
    pub limit: Option<u64>,
}

impl Parts {
    /// Returns the options that these flags request:
    /// - `summary_alone`: no packet has a line.
    /// - `packets_alone`: no summary is written.
    /// - `wrong_alone`: only packets with a wrong checksum and refused packets have a line.
    /// - `check`: the exit status reports packets with a wrong checksum and refused packets.
    ///
    /// All packets are chosen, without a limit. The report is text without details. It shows times since the first packet, and lists the
    /// ten busiest conversations, without the table of the timeline. The width of the intervals of the timeline grows.
    pub fn from_flags(
        summary_alone: bool,
        packets_alone: bool,
        wrong_alone: bool,
        check: bool,
    ) -> Parts
        ensures choice { result.choice ≡ every_packet }
        ensures lines { result.lines ≡ lines_by summary_alone wrong_alone }
        ensures times { result.times ≡ SinceFirst }
        ensures verbose { result.verbose ≡ false }
        ensures summary { result.summary ≡ not packets_alone }
        ensures format { result.format ≡ Format.Text }
        ensures top { result.top ≡ default_top }
        ensures timeline { result.timeline ≡ false }
        ensures interval { result.interval ≡ None }
        ensures check { result.check ≡ check }
        ensures limit { result.limit ≡ None }
    {
        let lines = match (summary_alone, wrong_alone) {
            (true, _) => Lines::None,
            (false, true) => Lines::Wrong,
            (false, false) => Lines::All,
        };
        Parts {
            choice: Choice::ALL,
            lines,
            times: Times::SinceFirst,
            verbose: false,
            summary: !packets_alone,
            format: Format::Text,
            top: BUSIEST,
            timeline: false,
            interval: None,
            check,
            limit: None,
        }
    }
}

/// The format of a report.
#[derive(Clone, Copy, Debug, PartialEq, Eq)]
pub enum Format {
    /// Lines and tables of text.
    Text,
    /// JSON: one line with an object for each packet, and one line with an object for the summary.
    Json,
}

/// Which packets have a line in the report.
#[derive(Clone, Copy, Debug, PartialEq, Eq)]
pub enum Lines {
    /// Every packet.
    All,
    /// Every packet with a wrong checksum, and every refused packet.
    Wrong,
    /// No packet.
    None,
}

impl Lines {
    /// Returns whether a chosen packet with this verdict has a line.
    pub fn include(self, verdict: &Verdict) -> bool
        ensures { result ≡ has_line self verdict.now }
    {
        match self {
            Lines::All => true,
            Lines::Wrong => matches!(
                VerdictKind::of(verdict),
                VerdictKind::Wrong | VerdictKind::Refused
            ),
            Lines::None => false,
        }
    }
}
