ghost use Rattle.std.specs.Prelude.{◌≡◌, OnOk, flat_map};
ghost use Rattle.std.specs.Io.KnownBytes.{Appends};
ghost use Rattle.capture_copy.specs.Passing.{one_more};
ghost use Rattle.net_base.specs.TextParts.{reads_as};
ghost use Rattle.translator.specs.Outcomes.{all_reasons, counted, counted_line, counted_reason, counts_text, protocol_line, protocol_lines, reason_line, first_refusal_text, numbered_line, refusal_after, refusal_line, refusal_text};

use crate::done::Done;
use crate::reason::Reason;
use etherparse_transport::IpNumber;
use etherparse_transport::err::ErrorText;
use etherparse_transport::ip::IpError;
use std::io;
use std::io::Write;

/// The number of protocols that an IP header can name.
const PROTOCOL_COUNT: usize = 256;

/// How many packets were translated, and how many were not, by reason.
#[derive(Clone, Copy, Debug, PartialEq, Eq)]
pub struct Counts {
    /// The IPv4 packets that were translated.
    pub translated_ipv4: u64,
    /// The IPv6 packets that were translated.
    pub translated_ipv6: u64,
    /// The IPv4 packets to which no replacement applies.
    pub unaffected_ipv4: u64,
    /// The IPv6 packets to which no replacement applies.
    pub unaffected_ipv6: u64,
    /// The packets that can't be translated, by the kind of the reason.
    pub by_reason: [u64; Reason::COUNT],
    /// The packets whose protocol is not translated, by the number of the protocol.
    pub by_protocol: [u64; PROTOCOL_COUNT],
    /// The error of the first packet whose IP headers are refused or cut off.
    pub first_refusal: Option<IpError>,
}

impl Counts {
    /// The counts before the first packet.
    pub const NONE: Counts = Counts {
        translated_ipv4: 0,
        translated_ipv6: 0,
        unaffected_ipv4: 0,
        unaffected_ipv6: 0,
        by_reason: [0; Reason::COUNT],
        by_protocol: [0; PROTOCOL_COUNT],
        first_refusal: None,
    };

    /// Counts a packet with this outcome of `translate_frame`. A count that has reached 2^64 - 1 does not change.
    pub fn add(&mut self, outcome: Result<Done, Reason>)
        ensures { self.new ≡ counted self.old outcome }
    {
        match outcome {
            Ok(Done::TranslatedIpv4) => one_more(&mut self.translated_ipv4),
            Ok(Done::TranslatedIpv6) => one_more(&mut self.translated_ipv6),
            Ok(Done::UnaffectedIpv4) => one_more(&mut self.unaffected_ipv4),
            Ok(Done::UnaffectedIpv6) => one_more(&mut self.unaffected_ipv6),
            Err(reason) => self.add_reason(reason),
        }
    }

    /// Counts a packet that can't be translated for this reason.
    fn add_reason(&mut self, reason: Reason)
        ensures { self.new ≡ counted_reason self.old reason }
    {
        let place = reason.place();
        self.by_reason[place] = self.by_reason[place].saturating_add(1);
        self.first_refusal = refusal_after(self.first_refusal, reason);
        if let Reason::Protocol(protocol) = reason {
            let place = usize::from(protocol.0);
            self.by_protocol[place] = self.by_protocol[place].saturating_add(1);
        }
    }

    /// Writes the counts as lines. A reason that applies to no packet has no line. The line of refused IP headers contains the error of the
    /// first of these packets. Each protocol that is not translated has a line of its own.
    ///
    /// # Errors
    ///
    /// The error of the first write that fails.
    pub fn write_to<W: Write>(&self, output: &mut W) -> io::Result<()>
        ensures { OnOk result (Appends (W.contents output.old) (W.contents output.new) (counts_text self.now)) }
    {
        writeln!(
            output,
            "translator: {} IPv4 and {} IPv6 packets translated, {} IPv4 and {} IPv6 packets without a replacement",
            self.translated_ipv4, self.translated_ipv6, self.unaffected_ipv4, self.unaffected_ipv6
        )?;
        self.write_reasons(output)?;
        self.write_refusal(output)?;
        self.write_protocols(output)
    }

    /// Writes the lines of the reasons without an error or a protocol.
    fn write_reasons<W: Write>(&self, output: &mut W) -> io::Result<()>
        ensures { OnOk result (Appends (W.contents output.old) (W.contents output.new) (flat_map (counted_line self.now) all_reasons)) }
    {
        for reason in Reason::PLAIN {
            self.write_reason(output, reason)?;
        }
        Ok(())
    }

    /// Writes the line of a reason. Nothing is written if the reason applies to no packet.
    fn write_reason<W: Write>(&self, output: &mut W, reason: Reason) -> io::Result<()>
        ensures { OnOk result (Appends (W.contents output.old) (W.contents output.new) (counted_line self.now reason)) }
    {
        write_line(output, reason.text(), self.by_reason[reason.place()])
    }

    /// Writes the line of refused IP headers. Nothing is written if no IP headers were refused.
    fn write_refusal<W: Write>(&self, output: &mut W) -> io::Result<()>
        ensures { OnOk result (Appends (W.contents output.old) (W.contents output.new) (refusal_line self.now)) }
    {
        write_first_refusal(output, self.by_reason[Reason::REFUSED], self.first_refusal)
    }

    /// Writes the lines of the protocols that are not translated.
    fn write_protocols<W: Write>(&self, output: &mut W) -> io::Result<()>
        ensures { OnOk result (Appends (W.contents output.old) (W.contents output.new) (protocol_lines 0 self.now.by_protocol)) }
    {
        let mut left = self.by_protocol.as_slice();
        let mut number: usize = 0;
        while let [count, rest @ ..] = left {
            write_protocol(output, IpNumber(number as u8), *count)?;
            number += 1;
            left = rest;
        }
        Ok(())
    }
}

/// The error of the first packet whose IP headers are refused, after another packet that can't be translated.
fn refusal_after(first: Option<IpError>, reason: Reason) -> Option<IpError>
    ensures { result ≡ refusal_after first reason }
{
    match (first, reason) {
        (None, Reason::IpHeaders(error)) => Some(error),
        _ => first,
    }
}

/// Counts another packet. A count that has reached 2^64 - 1 does not change.
fn one_more(count: &mut u64)
    ensures { count.new ≡ one_more count.old }
{
    *count = count.saturating_add(1);
}

/// Writes the line of the reason with this text. Nothing is written if the count is 0.
fn write_line<W: Write>(output: &mut W, reason: &str, count: u64) -> io::Result<()>
    ensures { OnOk result (Appends (W.contents output.old) (W.contents output.new) (reason_line reason.now count)) }
{
    if count == 0 {
        return Ok(());
    }
    writeln!(output, "translator: {count} not translated: {reason}")
}

/// Writes the line of refused IP headers, with the error of the first packet. Nothing is written if there is no error.
fn write_first_refusal<W: Write>(
    output: &mut W,
    count: u64,
    first: Option<IpError>,
) -> io::Result<()>
    ensures { OnOk result (Appends (W.contents output.old) (W.contents output.new) (first_refusal_text count first)) }
{
    match first {
        Some(error) => write_refusal(output, count, &error.text()),
        None => Ok(()),
    }
}

/// Writes the line of refused IP headers, with the text of an error.
fn write_refusal<W: Write>(output: &mut W, count: u64, text: &ErrorText) -> io::Result<()>
    ensures { OnOk result (Appends (W.contents output.old) (W.contents output.new) (refusal_text count (reads_as text.now))) }
{
    writeln!(
        output,
        "translator: {count} not translated: the IP headers are refused or cut off, first error: {text}"
    )
}

/// Writes the line of a protocol. Nothing is written if the count is 0.
fn write_protocol<W: Write>(output: &mut W, protocol: IpNumber, count: u64) -> io::Result<()>
    ensures { OnOk result (Appends (W.contents output.old) (W.contents output.new) (protocol_line protocol.0 count)) }
{
    let words = Reason::Protocol(protocol).text();
    write_numbered(output, words, protocol.0, count)
}

/// Writes the line of a protocol with this number, after these words. Nothing is written if the count is 0.
fn write_numbered<W: Write>(output: &mut W, words: &str, number: u8, count: u64) -> io::Result<()>
    ensures { OnOk result (Appends (W.contents output.old) (W.contents output.new) (numbered_line words.now number count)) }
{
    if count == 0 {
        return Ok(());
    }
    writeln!(
        output,
        "translator: {count} not translated: {words} {number}"
    )
}
