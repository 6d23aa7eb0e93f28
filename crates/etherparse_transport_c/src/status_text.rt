ghost use Rattle.std.specs.Prelude.{◌≡◌, ◌≤◌, length};
ghost use Rattle.etherparse_transport_c.specs.StatusText.{max_status_text_len, status_text};
ghost use Rattle.etherparse_transport_c.specs.Text.{with_string};

use crate::siit_words::siit_status_text;
use crate::status;
use crate::text::{Char, put_string};

/// Returns the meaning of a status in a few words.
fn meaning(status: u32) -> &'static str
    ensures text { result.now ≡ status_text status }
    ensures fits { length result.now ≤ max_status_text_len }
{
    match status {
        status::OK => "no error",
        status::LENGTH => "a length is too short or too long",
        status::DATA_OFFSET => "the data offset of a TCP header is below 5",
        status::VALUE_TOO_BIG => "a value is above its limit",
        status::BUFFER_TOO_SMALL => "the buffer is too small",
        status::CHECKSUM_WRONG => "the checksum is wrong",
        status::CHECKSUM_ABSENT => "the UDP packet has no checksum",
        status::OPTIONS_TOO_LONG => "more than 40 bytes of TCP options",
        status::FLAGS_UNKNOWN => "the TCP flags are above 0x1ff",
        status::PROTOCOL_UNKNOWN => "the call does not accept the protocol",
        status::OPTIONS_END => "no TCP option is left",
        status::OPTION_CUT_OFF => "the bytes end within a TCP option",
        status::OPTION_SIZE => "the length byte of a TCP option is wrong",
        status::OPTION_UNKNOWN => "the kind of a TCP option is unknown",
        status::MESSAGE_UNKNOWN => "the kind or the code of an ICMP message is unknown",
        status::IP_HEADER_CUT_OFF => "the bytes end within the IP header",
        status::IP_VERSION => "the call does not accept this version of IP",
        status::IP_HEADER_LENGTH => "the header length of an IPv4 packet is below 20 bytes",
        status::IP_TOTAL_LENGTH => "the total length of an IPv4 packet is below its header length",
        status::IP_PACKET_CUT_OFF => "the IP header counts more bytes than there are",
        status::IP_EXTENSION_CUT_OFF => "the packet ends within an extension header",
        status::IP_JUMBO_PAYLOAD_MISSING => {
            "an IPv6 packet has payload length 0 and no jumbo payload option"
        }
        status::IP_JUMBO_PAYLOAD_LENGTH => "the jumbo payload length is not above 65535",
        status::IP_JUMBO_PAYLOAD_UNEXPECTED => {
            "an IPv6 packet has a jumbo payload option and a payload length above 0"
        }
        status::IP_JUMBO_PAYLOAD_FRAGMENT => {
            "an IPv6 packet has a jumbo payload option and a fragment header"
        }
        status::OPTION_VALUES => "a TCP option of this kind cannot have these values",
        status::ECHO_FRAGMENT => "the packet is a fragment, which is not answered",
        status::ECHO_NO_REQUEST => "the packet is no echo request, or has another IP version",
        status::ECHO_HAS_OPTIONS => {
            "the packet has IPv4 options, an authentication header or extension headers"
        }
        status::ECHO_HEADER_CHECKSUM_WRONG => "the checksum of the IPv4 header is wrong",
        status::ECHO_REQUEST_SOURCE => "the source of the request is not the address of one host",
        status::ECHO_REPLY_SOURCE => "the source of the reply is not the address of one host",
        status::NO_ICMP_ERROR => "the ICMP message is not an error",
        status::TRANSLATE_HAS_OPTIONS => "the packet has IPv4 options, and is not translated",
        status::TRANSLATE_PROTOCOL => "the protocol is not translated",
        status::TRANSLATE_HEADER_CUT_OFF => {
            "the packet ends within a transport header that would be translated"
        }
        status::TRANSLATE_ICMP_MESSAGE => {
            "the ICMP message is no query and no error, or a redirect, and is not translated"
        }
        status::TRANSLATE_QUOTED_PACKET => {
            "the packet that the ICMP error is about cannot be translated"
        }
        status::ECHO_NO_REPLY => "the packet is not the reply to the echo request",
        status::TRANSLATE_SOURCE_ROUTE => "the packet has a source route, and is not translated",
        status::CHECKSUM_UNTESTED => "the checksum of the packet is not tested",
        status::HOP_LIMIT_EXPIRED => "the hop limit of the packet is 0 or 1",
        status::ICMP_ERROR_LATER_FRAGMENT =>
            "the packet is a later fragment, about which there is no ICMP error",
        status::ICMP_ERROR_ABOUT_ERROR =>
            "the packet may be an ICMP error, about which there is none",
        status::ICMP_ERROR_ABOUT_GROUP =>
            "the destination of the packet is an address of several hosts",
        status::ICMP_ERROR_PACKET_SOURCE =>
            "the source of the packet is not the address of one host",
        status::ICMP_ERROR_SOURCE => "the source of the ICMP error is not the address of one host",
        status::SEGMENT_SIZE_LATER_FRAGMENT => "a later fragment has no maximum segment size",
        status::SEGMENT_SIZE_NO_SYN => "the segment is not a SYN",
        status::SEGMENT_SIZE_NO_OPTION => "the segment contains no maximum segment size",
        _ => siit_status_text(status),
    }
}

/// Writes the meaning of a status in a few words, with a zero byte at its end. Returns the length of the whole text, without the zero byte.
/// If the buffer is too small, the call writes the beginning of the text and the zero byte. It writes nothing to an empty buffer.
#[unsafe(no_mangle)]
pub extern "C" fn etherparse_status_text(status: u32, buffer: &mut [Char]) -> usize
    ensures len { result ≡ length (status_text status) }
    ensures text { buffer.new ≡ with_string (status_text status) buffer.old }
    ensures fits { result ≤ max_status_text_len }
{
    put_string(meaning(status).as_bytes(), buffer)
}
