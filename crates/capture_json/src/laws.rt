//! Laws of the JSON format. Each law is the contract of a function, so that it is checked together with the calls.

ghost use Rattle.std.specs.Prelude.{ℕ, Option};
ghost use Rattle.capture_packet.specs.declared.packet.Packet.{Packet};
ghost use Rattle.capture_file.specs.declared.packet_time.PacketTime.{PacketTime};
ghost use Rattle.capture_file.specs.declared.reader.packet_texts.PacketTexts.{PacketTexts};
ghost use Rattle.capture_summary.specs.declared.capture_info.FrameLen.{FrameLen};
ghost use Rattle.capture_json.specs.JsonPacket.{HasOneJsonLine};
ghost use Rattle.capture_words.specs.declared.times.Times.{Times};

/// Two lines of JSON for the same packet, with the same number, texts, times and length, are equal.
pub fn one_json_line()
    ensures { (times : Times) (number : ℕ) (texts : PacketTexts) (first time : Option PacketTime)
        (len : Option FrameLen) (packet : Packet) → HasOneJsonLine times number texts first time len packet }
{}
