//! The reason why a packet is refused.

ghost use Rattle.std.specs.Prelude.{◌≡◌, OnOk};
ghost use Rattle.std.specs.Io.KnownBytes.{Appends};
ghost use Rattle.capture_words.specs.Refusals.{data_offset_text, ip_error_text, layer_word, len_error_text, len_source_word, needs_text, refusal_text, unit_word};
ghost use Rattle.capture_packet.specs.Verdicts.{zero_length};

use capture_packet::Refusal;
use ip_part::IpError;
use net_base::err::tcp::{HeaderError, HeaderSliceError};
use net_base::err::{Layer, LenError, LenSource};
use std::io;
use std::io::Write;
use udp_part::UdpHeader;

/// Writes the reason why a UDP packet with a length field of 0 is refused.
///
/// # Errors
///
/// The error of the writer, if writing fails.
pub fn write_zero_length<W: Write>(output: &mut W) -> io::Result<()>
    ensures { OnOk result (Appends (W.contents output.old) (W.contents output.new) (refusal_text zero_length)) }
{
    let error = LenError {
        required_len: UdpHeader::LEN,
        len: 0,
        len_source: LenSource::UdpHeaderLen,
        layer: Layer::UdpHeader,
        layer_start_offset: 0,
    };
    write_len_error(output, &error)
}

/// Writes the reason why a packet is refused, with the fields of the error. An offset of 0 is left out.
///
/// # Errors
///
/// The error of the writer, if writing fails.
pub fn write_refusal<W: Write>(output: &mut W, refusal: &Refusal) -> io::Result<()>
    ensures { OnOk result (Appends (W.contents output.old) (W.contents output.new) (refusal_text refusal.now)) }
{
    match refusal {
        Refusal::Link(error) => {
            write_needs(output, "link header", error.required_len, error.len)
        }
        Refusal::Ip(error) => write_ip_error(output, error),
        Refusal::Transport(_, HeaderSliceError::Len(error)) => write_len_error(output, error),
        Refusal::Transport(
            _,
            HeaderSliceError::Content(HeaderError::DataOffsetTooSmall { data_offset }),
        ) => write_data_offset(output, *data_offset),
    }
}

/// Writes the number of bytes that `what` needs, and the number of bytes that are present.
fn write_needs<W: Write>(
    output: &mut W,
    what: &str,
    required_len: usize,
    len: usize,
) -> io::Result<()>
    ensures { OnOk result (Appends (W.contents output.old) (W.contents output.new) (needs_text what.now required_len len)) }
{
    let unit = unit_word(required_len);
    write!(output, "{what} needs {required_len} {unit}, has {len}")
}

/// The word after a number of bytes: `byte` if the number is 1, otherwise `bytes`.
fn unit_word(bytes: usize) -> &'static str
    ensures { result.now ≡ unit_word bytes }
{
    if bytes == 1 { "byte" } else { "bytes" }
}

/// Writes the reason why a TCP data offset is refused.
fn write_data_offset<W: Write>(output: &mut W, data_offset: u8) -> io::Result<()>
    ensures { OnOk result (Appends (W.contents output.old) (W.contents output.new) (data_offset_text data_offset)) }
{
    write!(output, "TCP data offset {data_offset}, below 5")
}

/// Writes the reason why IP headers are refused.
fn write_ip_error<W: Write>(output: &mut W, error: &IpError) -> io::Result<()>
    ensures { OnOk result (Appends (W.contents output.old) (W.contents output.new) (ip_error_text error.now)) }
{
    match error {
        IpError::HeaderCutOff { required_len, len } => {
            write_needs(output, "IP header", *required_len, *len)
        }
        IpError::Version { version } => write!(output, "IP version {version}"),
        IpError::HeaderLength { header_len } => {
            write!(output, "IPv4 header length {header_len}, below 20")
        }
        IpError::TotalLength {
            total_len,
            header_len,
        } => write!(
            output,
            "IPv4 total length {total_len}, below the header length {header_len}"
        ),
        IpError::PacketCutOff { required_len, len } => {
            write_needs(output, "IP packet", *required_len, *len)
        }
        IpError::ExtensionHeaderCutOff {
            protocol,
            offset,
            required_len,
            len,
        } => write!(
            output,
            "IP extension header {} at byte {offset} needs {required_len} bytes, has {len}",
            protocol.0
        ),
        IpError::JumboPayloadMissing => write!(
            output,
            "IPv6 payload length 0 without a jumbo payload option"
        ),
        IpError::JumboPayloadLength { jumbo_payload_len } => write!(
            output,
            "IPv6 jumbo payload length {jumbo_payload_len}, not above 65535"
        ),
        IpError::JumboPayloadUnexpected { payload_len } => write!(
            output,
            "IPv6 payload length {payload_len} with a jumbo payload option"
        ),
        IpError::JumboPayloadFragment { offset } => write!(
            output,
            "IPv6 fragment header at byte {offset} with a jumbo payload option"
        ),
    }
}

/// Writes the reason why a length is refused. If the layer does not start at byte 0, the text contains the number of its first byte.
fn write_len_error<W: Write>(output: &mut W, error: &LenError) -> io::Result<()>
    ensures { OnOk result (Appends (W.contents output.old) (W.contents output.new) (len_error_text error.now)) }
{
    let layer = layer_word(error.layer);
    let source = len_source_word(error.len_source);
    match error.layer_start_offset {
        0 => write!(
            output,
            "{layer} needs {} bytes, {source} {}",
            error.required_len, error.len
        ),
        offset => write!(
            output,
            "{layer} at byte {offset} needs {} bytes, {source} {}",
            error.required_len, error.len
        ),
    }
}

/// The name of a layer, as in its RFC.
fn layer_word(layer: Layer) -> &'static str
    ensures { result.now ≡ layer_word layer }
{
    match layer {
        Layer::UdpHeader => "UDP header",
        Layer::UdpPayload => "UDP datagram",
        Layer::TcpHeader => "TCP header",
        Layer::Icmpv4 => "ICMPv4 message",
        Layer::Icmpv4Timestamp => "ICMPv4 timestamp message",
        Layer::Icmpv4TimestampReply => "ICMPv4 timestamp reply message",
        Layer::Icmpv6 => "ICMPv6 message",
    }
}

/// The words before a length. They state whether it is the number of bytes present, or the length field of UDP.
fn len_source_word(source: LenSource) -> &'static str
    ensures { result.now ≡ len_source_word source }
{
    match source {
        LenSource::Slice => "has",
        LenSource::UdpHeaderLen => "the UDP length is",
    }
}
