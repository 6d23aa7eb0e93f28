//! Laws of the texts. Each law is the contract of a function, so that it is checked together with the calls.

ghost use Rattle.std.specs.Prelude.{◌≡◌, ◌≤◌, ◌<◌, ℕ, Bool, List, Option};
ghost use Rattle.capture_packet.specs.declared.packet.Packet.{Packet};
ghost use Rattle.capture_file.specs.declared.packet_time.PacketTime.{PacketTime};
ghost use Rattle.capture_file.specs.declared.reader.packet_texts.PacketTexts.{PacketTexts};
ghost use Rattle.capture_summary.specs.declared.capture_info.FrameLen.{FrameLen};
ghost use Rattle.capture_text.specs.PacketLine.{HasOneLine};
ghost use Rattle.capture_text.specs.TimelineText.{AreRows, bar_len, row_width, rows};
ghost use Rattle.capture_words.specs.declared.times.Times.{Times};
ghost use Rattle.timeline.specs.Timelines.{IsTimelineOf, TimelineBins};
ghost use Rattle.timeline.specs.declared.event.Event.{Event as PacketEvent};

/// The line of a packet depends only on the packet, its number, its texts, its time, the time of the first packet, its frame length, `times`
/// and `verbose`.
pub fn one_line()
    ensures { (times : Times) (verbose : Bool) (number : ℕ) (texts : PacketTexts) (first time : Option PacketTime)
        (len : Option FrameLen) (packet : Packet) → HasOneLine times verbose number texts first time len packet }
{}

/// The rows of the table of a timeline contain exactly the packets that are in them by their times. If the width of the intervals is fixed,
/// it is the width of a row. If it grows, there are at most 20 rows.
pub fn timeline_rows()
    ensures { (width : Option ℕ) (packets : List PacketEvent) (timeline : TimelineBins) → IsTimelineOf width packets timeline
        → AreRows width timeline.start (row_width timeline) (rows timeline) packets }
{}

/// The bar of a row has at most 40 bytes, and the bar of the row with the most packets has 40. A row with packets has a bar.
pub fn timeline_bars()
    ensures longest { (most packets : ℕ) → packets ≤ most → 0 < most → bar_len most packets ≤ 40 }
    ensures most { (most : ℕ) → 0 < most → bar_len most most ≡ 40 }
    ensures least { (most packets : ℕ) → 0 < most → 0 < packets → 0 < bar_len most packets }
{}
