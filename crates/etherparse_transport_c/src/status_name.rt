ghost use Rattle.std.specs.Prelude.{◌≡◌, ◌≤◌, length};
ghost use Rattle.etherparse_transport_c.specs.StatusName.{max_status_name_len, status_name};
ghost use Rattle.etherparse_transport_c.specs.Text.{with_string};

use crate::siit_words::siit_status_name;
use crate::status;
use crate::text::{Char, put_string};

/// Returns the name of a status, as the C header spells it.
fn name(status: u32) -> &'static str
    ensures name { result.now ≡ status_name status }
    ensures fits { length result.now ≤ max_status_name_len }
{
    match status {
        status::OK => "ETHERPARSE_OK",
        status::LENGTH => "ETHERPARSE_STATUS_LENGTH",
        status::DATA_OFFSET => "ETHERPARSE_STATUS_DATA_OFFSET",
        status::VALUE_TOO_BIG => "ETHERPARSE_STATUS_VALUE_TOO_BIG",
        status::BUFFER_TOO_SMALL => "ETHERPARSE_STATUS_BUFFER_TOO_SMALL",
        status::CHECKSUM_WRONG => "ETHERPARSE_STATUS_CHECKSUM_WRONG",
        status::CHECKSUM_ABSENT => "ETHERPARSE_STATUS_CHECKSUM_ABSENT",
        status::OPTIONS_TOO_LONG => "ETHERPARSE_STATUS_OPTIONS_TOO_LONG",
        status::FLAGS_UNKNOWN => "ETHERPARSE_STATUS_FLAGS_UNKNOWN",
        status::PROTOCOL_UNKNOWN => "ETHERPARSE_STATUS_PROTOCOL_UNKNOWN",
        status::OPTIONS_END => "ETHERPARSE_STATUS_OPTIONS_END",
        status::OPTION_CUT_OFF => "ETHERPARSE_STATUS_OPTION_CUT_OFF",
        status::OPTION_SIZE => "ETHERPARSE_STATUS_OPTION_SIZE",
        status::OPTION_UNKNOWN => "ETHERPARSE_STATUS_OPTION_UNKNOWN",
        status::MESSAGE_UNKNOWN => "ETHERPARSE_STATUS_MESSAGE_UNKNOWN",
        status::IP_HEADER_CUT_OFF => "ETHERPARSE_STATUS_IP_HEADER_CUT_OFF",
        status::IP_VERSION => "ETHERPARSE_STATUS_IP_VERSION",
        status::IP_HEADER_LENGTH => "ETHERPARSE_STATUS_IP_HEADER_LENGTH",
        status::IP_TOTAL_LENGTH => "ETHERPARSE_STATUS_IP_TOTAL_LENGTH",
        status::IP_PACKET_CUT_OFF => "ETHERPARSE_STATUS_IP_PACKET_CUT_OFF",
        status::IP_EXTENSION_CUT_OFF => "ETHERPARSE_STATUS_IP_EXTENSION_CUT_OFF",
        status::IP_JUMBO_PAYLOAD_MISSING => "ETHERPARSE_STATUS_IP_JUMBO_PAYLOAD_MISSING",
        status::IP_JUMBO_PAYLOAD_LENGTH => "ETHERPARSE_STATUS_IP_JUMBO_PAYLOAD_LENGTH",
        status::IP_JUMBO_PAYLOAD_UNEXPECTED => "ETHERPARSE_STATUS_IP_JUMBO_PAYLOAD_UNEXPECTED",
        status::IP_JUMBO_PAYLOAD_FRAGMENT => "ETHERPARSE_STATUS_IP_JUMBO_PAYLOAD_FRAGMENT",
        status::OPTION_VALUES => "ETHERPARSE_STATUS_OPTION_VALUES",
        status::ECHO_FRAGMENT => "ETHERPARSE_STATUS_ECHO_FRAGMENT",
        status::ECHO_NO_REQUEST => "ETHERPARSE_STATUS_ECHO_NO_REQUEST",
        status::ECHO_HAS_OPTIONS => "ETHERPARSE_STATUS_ECHO_HAS_OPTIONS",
        status::ECHO_HEADER_CHECKSUM_WRONG => "ETHERPARSE_STATUS_ECHO_HEADER_CHECKSUM_WRONG",
        status::ECHO_REQUEST_SOURCE => "ETHERPARSE_STATUS_ECHO_REQUEST_SOURCE",
        status::ECHO_REPLY_SOURCE => "ETHERPARSE_STATUS_ECHO_REPLY_SOURCE",
        status::NO_ICMP_ERROR => "ETHERPARSE_STATUS_NO_ICMP_ERROR",
        status::TRANSLATE_HAS_OPTIONS => "ETHERPARSE_STATUS_TRANSLATE_HAS_OPTIONS",
        status::TRANSLATE_PROTOCOL => "ETHERPARSE_STATUS_TRANSLATE_PROTOCOL",
        status::TRANSLATE_HEADER_CUT_OFF => "ETHERPARSE_STATUS_TRANSLATE_HEADER_CUT_OFF",
        status::TRANSLATE_ICMP_MESSAGE => "ETHERPARSE_STATUS_TRANSLATE_ICMP_MESSAGE",
        status::TRANSLATE_QUOTED_PACKET => "ETHERPARSE_STATUS_TRANSLATE_QUOTED_PACKET",
        status::ECHO_NO_REPLY => "ETHERPARSE_STATUS_ECHO_NO_REPLY",
        status::TRANSLATE_SOURCE_ROUTE => "ETHERPARSE_STATUS_TRANSLATE_SOURCE_ROUTE",
        status::CHECKSUM_UNTESTED => "ETHERPARSE_STATUS_CHECKSUM_UNTESTED",
        status::HOP_LIMIT_EXPIRED => "ETHERPARSE_STATUS_HOP_LIMIT_EXPIRED",
        status::ICMP_ERROR_LATER_FRAGMENT => "ETHERPARSE_STATUS_ICMP_ERROR_LATER_FRAGMENT",
        status::ICMP_ERROR_ABOUT_ERROR => "ETHERPARSE_STATUS_ICMP_ERROR_ABOUT_ERROR",
        status::ICMP_ERROR_ABOUT_GROUP => "ETHERPARSE_STATUS_ICMP_ERROR_ABOUT_GROUP",
        status::ICMP_ERROR_PACKET_SOURCE => "ETHERPARSE_STATUS_ICMP_ERROR_PACKET_SOURCE",
        status::ICMP_ERROR_SOURCE => "ETHERPARSE_STATUS_ICMP_ERROR_SOURCE",
        status::SEGMENT_SIZE_LATER_FRAGMENT => "ETHERPARSE_STATUS_SEGMENT_SIZE_LATER_FRAGMENT",
        status::SEGMENT_SIZE_NO_SYN => "ETHERPARSE_STATUS_SEGMENT_SIZE_NO_SYN",
        status::SEGMENT_SIZE_NO_OPTION => "ETHERPARSE_STATUS_SEGMENT_SIZE_NO_OPTION",
        _ => siit_status_name(status),
    }
}

/// Writes the name of a status, as the C header spells it, with a zero byte at its end. Returns the length of the whole name, without the
/// zero byte. If the buffer is too small, the call writes the beginning of the name and the zero byte. It writes nothing to an empty
/// buffer.
#[unsafe(no_mangle)]
pub extern "C" fn etherparse_status_name(status: u32, buffer: &mut [Char]) -> usize
    ensures len { result ≡ length (status_name status) }
    ensures name { buffer.new ≡ with_string (status_name status) buffer.old }
    ensures fits { result ≤ max_status_name_len }
{
    put_string(name(status).as_bytes(), buffer)
}
