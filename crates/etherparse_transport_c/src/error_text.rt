ghost use Rattle.std.specs.Prelude.{◌≡◌, length, take};
ghost use Rattle.etherparse_transport_c.specs.ErrorText as specs;
ghost use Rattle.etherparse_transport_c.specs.ErrorText.{text_of};
ghost use Rattle.etherparse_transport_c.specs.Text.{max_text_len, with_string};
ghost use Rattle.net_base.specs.TextParts.{reads_as};

use crate::error::EtherparseError;
use crate::joining_text::joining_text;
use crate::text::{Char, cut, put_string};
use crate::{layer, len_source, status, value_type, verdict_kind};
use etherparse_transport::err::TextPart::{Number, Words};
use etherparse_transport::err::packet::{
    AnswerEchoError, BuildSliceWriteError, ErrorAboutError, LowerMaximumSegmentSizeError,
    TranslateError, WriteChecksumError,
};
use etherparse_transport::err::tcp::HeaderError;
use etherparse_transport::err::{ErrorText, Layer, LenError, ValueTooBigError, ValueType};
use etherparse_transport::ip::{
    AddressError, IpError, PacketTranslationError, Prefix64Error, TranslationError,
};
use etherparse_transport::{
    IpNumber, LenSource, TcpOptionReadError, TcpOptionWriteError, Untested,
};

/// Returns the layer with this number, or `None` if no layer has it.
fn layer(number: u32) -> Option<Layer>
    ensures { result ≡ specs.layer_at number }
{
    match number {
        layer::UDP_HEADER => Some(Layer::UdpHeader),
        layer::UDP_PAYLOAD => Some(Layer::UdpPayload),
        layer::TCP_HEADER => Some(Layer::TcpHeader),
        layer::ICMPV4 => Some(Layer::Icmpv4),
        layer::ICMPV4_TIMESTAMP => Some(Layer::Icmpv4Timestamp),
        layer::ICMPV4_TIMESTAMP_REPLY => Some(Layer::Icmpv4TimestampReply),
        layer::ICMPV6 => Some(Layer::Icmpv6),
        _ => None,
    }
}

/// Returns the source of a length with this number, or `None` if no source has it.
fn len_source(number: u32) -> Option<LenSource>
    ensures { result ≡ specs.len_source_at number }
{
    match number {
        len_source::SLICE => Some(LenSource::Slice),
        len_source::UDP_HEADER_LEN => Some(LenSource::UdpHeaderLen),
        _ => None,
    }
}

/// Returns the kind of value with this number, or `None` if no kind has it.
fn value_type(number: u32) -> Option<ValueType>
    ensures { result ≡ specs.value_type_at number }
{
    match number {
        value_type::UDP_PAYLOAD_LENGTH_IPV4 => Some(ValueType::UdpPayloadLengthIpv4),
        value_type::UDP_PAYLOAD_LENGTH_IPV6 => Some(ValueType::UdpPayloadLengthIpv6),
        value_type::TCP_PAYLOAD_LENGTH_IPV4 => Some(ValueType::TcpPayloadLengthIpv4),
        value_type::TCP_PAYLOAD_LENGTH_IPV6 => Some(ValueType::TcpPayloadLengthIpv6),
        value_type::ICMPV6_PAYLOAD_LENGTH => Some(ValueType::Icmpv6PayloadLength),
        _ => None,
    }
}

/// Returns the number as a byte, or `None` if it is above 255.
fn byte(number: usize) -> Option<u8>
    ensures { result ≡ specs.byte_in number }
{
    if number < 256 {
        Some(number as u8)
    } else {
        None
    }
}

/// Returns the `LenError` for this error, or `None` if the layer or the source of the length is unknown.
fn len_error(error: &EtherparseError) -> Option<LenError>
    ensures { result ≡ specs.len_error_in error.now }
{
    match (layer(error.layer), len_source(error.len_source)) {
        (Some(layer), Some(len_source)) => Some(LenError {
            required_len: error.required_len,
            len: error.len,
            len_source,
            layer,
            layer_start_offset: error.layer_start_offset,
        }),
        _ => None,
    }
}

/// Returns the `ValueTooBigError` for this error, or `None` if the kind of the value is unknown.
fn value_error(error: &EtherparseError) -> Option<ValueTooBigError<usize>>
    ensures { result ≡ specs.value_error_in error.now }
{
    match value_type(error.value_type) {
        Some(value_type) => Some(ValueTooBigError {
            actual: error.actual,
            max_allowed: error.max_allowed,
            value_type,
        }),
        None => None,
    }
}

/// Returns the reason why a TCP header was refused, or `None` if the data offset does not fit in a byte.
fn header_error(error: &EtherparseError) -> Option<HeaderError>
    ensures { result ≡ specs.header_error_in error.now }
{
    match byte(error.data_offset as usize) {
        Some(data_offset) => Some(HeaderError::DataOffsetTooSmall { data_offset }),
        None => None,
    }
}

/// Returns the reason why an option was refused, or `None` if a number that must fit in a byte is above 255.
fn option_error(error: &EtherparseError) -> Option<TcpOptionReadError>
    ensures { result ≡ specs.option_error_in error.now }
{
    let option_id = byte(error.option_kind as usize)?;
    match error.status {
        status::OPTION_CUT_OFF => {
            let expected_len = byte(error.required_len)?;
            Some(TcpOptionReadError::UnexpectedEndOfSlice {
                option_id,
                expected_len,
                actual_len: error.len,
            })
        }
        status::OPTION_SIZE => {
            let size = byte(error.option_size as usize)?;
            Some(TcpOptionReadError::UnexpectedSize { option_id, size })
        }
        _ => Some(TcpOptionReadError::UnknownId(option_id)),
    }
}

/// Returns the reason why an IP packet was refused. It is `None` for any other status, or if a number that must fit in a byte is above 255.
fn ip_error(error: &EtherparseError) -> Option<IpError>
    ensures { result ≡ specs.ip_error_in error.now }
{
    let required_len = error.required_len;
    let len = error.len;
    match error.status {
        status::IP_HEADER_CUT_OFF => Some(IpError::HeaderCutOff { required_len, len }),
        status::IP_VERSION => {
            let version = byte(error.actual)?;
            Some(IpError::Version { version })
        }
        status::IP_HEADER_LENGTH => Some(IpError::HeaderLength { header_len: len }),
        status::IP_TOTAL_LENGTH => Some(IpError::TotalLength {
            total_len: len,
            header_len: required_len,
        }),
        status::IP_PACKET_CUT_OFF => Some(IpError::PacketCutOff { required_len, len }),
        status::IP_EXTENSION_CUT_OFF => {
            let protocol = IpNumber(byte(error.actual)?);
            Some(IpError::ExtensionHeaderCutOff {
                protocol,
                offset: error.layer_start_offset,
                required_len,
                len,
            })
        }
        status::IP_JUMBO_PAYLOAD_MISSING => Some(IpError::JumboPayloadMissing),
        status::IP_JUMBO_PAYLOAD_LENGTH => Some(IpError::JumboPayloadLength {
            jumbo_payload_len: len,
        }),
        status::IP_JUMBO_PAYLOAD_UNEXPECTED => Some(IpError::JumboPayloadUnexpected {
            payload_len: error.actual,
        }),
        status::IP_JUMBO_PAYLOAD_FRAGMENT => Some(IpError::JumboPayloadFragment {
            offset: error.layer_start_offset,
        }),
        _ => None,
    }
}

/// Returns the reason why an echo request was refused, or `None` for any other status.
fn answer_echo_error(error: &EtherparseError) -> Option<AnswerEchoError>
    ensures { result ≡ specs.answer_echo_error_in error.now }
{
    match error.status {
        status::ECHO_FRAGMENT => Some(AnswerEchoError::Fragment),
        status::ECHO_NO_REQUEST => Some(AnswerEchoError::NoEchoRequest),
        status::ECHO_HAS_OPTIONS => Some(AnswerEchoError::Options),
        status::ECHO_HEADER_CHECKSUM_WRONG => Some(AnswerEchoError::HeaderChecksum),
        status::ECHO_REQUEST_SOURCE => Some(AnswerEchoError::RequestSource),
        status::ECHO_REPLY_SOURCE => Some(AnswerEchoError::ReplySource),
        _ => None,
    }
}

/// Returns the reason why a packet was not translated. It is `None` for any other status, or if the protocol does not fit in a byte.
fn translate_error(error: &EtherparseError) -> Option<TranslateError>
    ensures { result ≡ specs.translate_error_in error.now }
{
    match error.status {
        status::TRANSLATE_PROTOCOL => {
            let protocol = IpNumber(byte(error.actual)?);
            Some(TranslateError::Protocol(protocol))
        }
        status::TRANSLATE_HEADER_CUT_OFF => Some(TranslateError::HeaderCutOff {
            required_len: error.required_len,
            len: error.len,
        }),
        status::TRANSLATE_ICMP_MESSAGE => Some(TranslateError::IcmpMessage),
        status::TRANSLATE_QUOTED_PACKET => Some(TranslateError::QuotedPacket),
        _ => None,
    }
}

/// Returns the reason why a checksum was not tested. `number` is the number of the verdict. The result is `None` if no verdict with this
/// number states a reason.
fn untested(number: usize) -> Option<Untested>
    ensures { result ≡ specs.untested_at number }
{
    match u32::try_from(number) {
        Ok(verdict_kind::UNTESTED_FRAGMENT) => Some(Untested::Fragment),
        Ok(verdict_kind::UNTESTED_CUT_OFF) => Some(Untested::CutOff),
        Ok(verdict_kind::UNTESTED_UNKNOWN_DESTINATION) => Some(Untested::UnknownDestination),
        Ok(verdict_kind::UNTESTED_OTHER_PROTOCOL) => Some(Untested::OtherProtocol),
        Ok(verdict_kind::UNTESTED_ZERO_LENGTH) => Some(Untested::ZeroLength),
        Ok(verdict_kind::UNTESTED_TOO_LONG) => Some(Untested::TooLong),
        _ => None,
    }
}

/// Returns the text of the error for a checksum that was not tested. `number` is the number of the verdict.
fn untested_text(number: usize) -> ErrorText
    ensures { reads_as result ≡ specs.untested_text_at number }
{
    match untested(number) {
        Some(why) => WriteChecksumError::Untested(why).text(),
        None => ErrorText::from_words("Unknown error."),
    }
}

/// Returns the text for a packet whose message or extension header was not translated between IPv4 and IPv6: the text of each status from
/// 69 to 75 and from 90 to 92.
#[tactic(auto, unfolding(crate::specs::ErrorText::siit_message_text))]
fn siit_message_text(error: &EtherparseError) -> ErrorText
    ensures { reads_as result ≡ specs.siit_message_text error.now }
{
    match error.status {
        status::SIIT_ICMP_EXTENSION => ErrorText::from_parts(&[
            Words("Translation Error: the length field "),
            Number(error.actual),
            Words(" of an ICMP error with an extension is wrong."),
        ]),
        status::SIIT_ICMP_POINTER => ErrorText::from_parts(&[
            Words("Translation Error: the pointer "),
            Number(error.actual),
            Words(" has no translation."),
        ]),
        status::SIIT_TRANSPORT_HEADER => PacketTranslationError::TransportHeader {
            required_len: error.required_len,
            len: error.len,
        }
        .text(),
        status::SIIT_UDP_LENGTH => PacketTranslationError::UdpLength {
            length: error.actual,
            len: error.len,
        }
        .text(),
        status::SIIT_NO_UDP_CHECKSUM => PacketTranslationError::NoUdpChecksum.text(),
        status::SIIT_ICMP_MESSAGE => ErrorText::from_words(
            "Translation Error: the ICMP message is not translated.",
        ),
        status::SIIT_QUOTED_PACKET => ErrorText::from_words(
            "Translation Error: the packet that an ICMP error quotes can't be translated.",
        ),
        status::SIIT_EXTENSION_HEADER_CUT_OFF => ErrorText::from_parts(&[
            Words("Translation Error: the IPv6 extension header "),
            Number(error.actual),
            Words(" has "),
            Number(error.required_len),
            Words(" bytes, and there are "),
            Number(error.len),
            Words("."),
        ]),
        status::SIIT_SEGMENTS_LEFT => PacketTranslationError::SegmentsLeft {
            pointer: error.actual,
        }
        .text(),
        status::SIIT_ICMP_FRAGMENT => PacketTranslationError::IcmpFragment.text(),
        _ => joining_text(error),
    }
}

/// Returns the text for a packet whose header was not translated between IPv4 and IPv6, and for a refused prefix: the text of each status
/// from 56 to 68.
#[tactic(auto, unfolding(crate::specs::ErrorText::siit_header_text))]
fn siit_header_text(error: &EtherparseError) -> ErrorText
    ensures { reads_as result ≡ specs.siit_header_text error.now }
{
    match error.status {
        status::PREFIX_LENGTH => ErrorText::from_parts(&[
            Words("Prefix Error: the length is "),
            Number(error.actual),
            Words(" bits, and only 32, 40, 48, 56, 64 and 96 are allowed."),
        ]),
        status::PREFIX_RESERVED_OCTET => Prefix64Error::ReservedOctet.text(),
        status::PREFIX_SUFFIX => Prefix64Error::SuffixBits.text(),
        status::SIIT_NO_HEADER if error.actual == 4 => {
            PacketTranslationError::NoIpv4Header.text()
        }
        status::SIIT_NO_HEADER => PacketTranslationError::NoIpv6Header.text(),
        status::SIIT_HEADER_CHECKSUM => TranslationError::HeaderChecksum.text(),
        status::SIIT_FRAGMENT_CHECKSUM => PacketTranslationError::FragmentChecksum.text(),
        status::SIIT_EXTENSION_HEADER => ErrorText::from_parts(&[
            Words("Translation Error: the IPv6 extension header "),
            Number(error.actual),
            Words(" is not translated."),
        ]),
        status::SIIT_PAYLOAD_LENGTH => ErrorText::from_parts(&[
            Words("Translation Error: the payload length "),
            Number(error.actual),
            Words(" is above 65515."),
        ]),
        status::SIIT_TIME_EXCEEDED => TranslationError::TimeExceeded.text(),
        status::SIIT_SOURCE => TranslationError::IllegalSource.text(),
        status::SIIT_DESTINATION => TranslationError::IllegalDestination.text(),
        status::SIIT_NOT_EMBEDDED => AddressError::NotEmbedded.text(),
        status::SIIT_NOT_GLOBAL => AddressError::NotGlobal.text(),
        _ => siit_message_text(error),
    }
}

/// Returns the text of an error whose status is above 43. These statuses were added later, and the ranges in `text` do not include them.
#[tactic(auto, unfolding(crate::specs::ErrorText::later_text))]
fn later_text(error: &EtherparseError) -> ErrorText
    ensures { reads_as result ≡ specs.later_text error.now }
{
    match error.status {
        status::ECHO_NO_REPLY => ErrorText::from_words(
            "Echo Error: the packet is not the reply to the request.",
        ),
        status::TRANSLATE_SOURCE_ROUTE => TranslateError::SourceRoute.text(),
        status::CHECKSUM_UNTESTED => untested_text(error.actual),
        status::HOP_LIMIT_EXPIRED => ErrorText::from_parts(&[
            Words("Hop Limit Error: the hop limit is "),
            Number(error.actual),
            Words("."),
        ]),
        status::ICMP_ERROR_LATER_FRAGMENT => ErrorAboutError::LaterFragment.text(),
        status::ICMP_ERROR_ABOUT_ERROR => ErrorAboutError::IcmpError.text(),
        status::ICMP_ERROR_ABOUT_GROUP => ErrorAboutError::GroupDestination.text(),
        status::ICMP_ERROR_PACKET_SOURCE => ErrorAboutError::PacketSource.text(),
        status::ICMP_ERROR_SOURCE => ErrorAboutError::ErrorSource.text(),
        status::SEGMENT_SIZE_LATER_FRAGMENT => LowerMaximumSegmentSizeError::LaterFragment.text(),
        status::SEGMENT_SIZE_NO_SYN => LowerMaximumSegmentSizeError::NoSyn.text(),
        status::SEGMENT_SIZE_NO_OPTION => LowerMaximumSegmentSizeError::NoOption.text(),
        _ => siit_header_text(error),
    }
}

/// Returns the text of an error in each of these cases:
/// - The error exists only in the library for C.
/// - The status is above 43.
/// - No call returns an error with this status and these numbers.
fn own_text(error: &EtherparseError) -> ErrorText
    ensures { reads_as result ≡ specs.own_text error.now }
{
    match error.status {
        status::OK => ErrorText::from_words("No error."),
        status::BUFFER_TOO_SMALL => ErrorText::from_parts(&[
            Words("Buffer Error: "),
            Number(error.required_len),
            Words(" bytes are needed, the buffer has "),
            Number(error.len),
            Words("."),
        ]),
        status::CHECKSUM_WRONG => ErrorText::from_words("Checksum Error: the checksum is wrong."),
        status::CHECKSUM_ABSENT => ErrorText::from_words("Checksum Error: there is no checksum."),
        status::FLAGS_UNKNOWN => ErrorText::from_parts(&[
            Words("Flags Error: "),
            Number(error.actual),
            Words(" is above "),
            Number(error.max_allowed),
            Words(", which are all flags."),
        ]),
        status::PROTOCOL_UNKNOWN => ErrorText::from_parts(&[
            Words("Protocol Error: the call does not accept the protocol "),
            Number(error.actual),
            Words("."),
        ]),
        status::OPTIONS_END => ErrorText::from_words("Option Error: no option is left."),
        status::MESSAGE_UNKNOWN => {
            ErrorText::from_words(
                "Message Error: the kind of the message or its code is not known.",
            )
        }
        status::OPTION_UNKNOWN => ErrorText::from_parts(&[
            Words("Option Error: "),
            Number(error.option_kind as usize),
            Words(" is no kind of option."),
        ]),
        status::OPTION_VALUES => ErrorText::from_parts(&[
            Words("Option Error: no option of kind "),
            Number(error.option_kind as usize),
            Words(" has these values."),
        ]),
        status::NO_ICMP_ERROR => ErrorText::from_words("ICMP Error: the message is no error."),
        _ => later_text(error),
    }
}

/// Returns the text for a value that is too big.
fn value_text(error: &EtherparseError) -> ErrorText
    ensures { reads_as result ≡ specs.value_text_in error.now }
{
    if error.value_type == value_type::IP_PAYLOAD_LENGTH {
        let told = BuildSliceWriteError::PayloadLen {
            actual: error.actual,
            max_allowed: error.max_allowed,
        };
        return told.text();
    }
    match value_error(error) {
        Some(told) => told.text(),
        None => own_text(error),
    }
}

/// Returns the text of an error. Most texts are the same as in `etherparse_transport`. Every call has the same text for a wrong checksum,
/// for a small buffer, and for a refused protocol.
fn text(error: &EtherparseError) -> ErrorText
    ensures { reads_as result ≡ text_of error.now }
{
    match error.status {
        status::LENGTH => match len_error(error) {
            Some(told) => told.text(),
            None => own_text(error),
        },
        status::DATA_OFFSET => match header_error(error) {
            Some(told) => told.text(),
            None => own_text(error),
        },
        status::VALUE_TOO_BIG => value_text(error),
        status::OPTIONS_TOO_LONG => TcpOptionWriteError::NotEnoughSpace(error.len).text(),
        status::OPTION_CUT_OFF | status::OPTION_SIZE | status::OPTION_UNKNOWN => {
            match option_error(error) {
                Some(told) => told.text(),
                None => own_text(error),
            }
        }
        status::IP_HEADER_CUT_OFF..=status::IP_JUMBO_PAYLOAD_FRAGMENT => match ip_error(error) {
            Some(told) => told.text(),
            None => own_text(error),
        },
        status::ECHO_FRAGMENT..=status::ECHO_REPLY_SOURCE => match answer_echo_error(error) {
            Some(told) => told.text(),
            None => own_text(error),
        },
        status::TRANSLATE_PROTOCOL..=status::TRANSLATE_QUOTED_PACKET => {
            match translate_error(error) {
                Some(told) => told.text(),
                None => own_text(error),
            }
        }
        _ => own_text(error),
    }
}

/// Writes the text of an error in ASCII, with a zero byte at its end. Returns the length of the whole text, without the zero byte. It is at
/// most 256. If the buffer is too small, the call writes the beginning of the text and the zero byte. It writes nothing to an empty buffer.
#[unsafe(no_mangle)]
pub extern "C" fn etherparse_error_text(error: &EtherparseError, buffer: &mut [Char]) -> usize
    ensures len { result ≡ length (take max_text_len (text_of error.now)) }
    ensures text { buffer.new ≡ with_string (take max_text_len (text_of error.now)) buffer.old }
{
    put_string(cut(&text(error)).as_slice(), buffer)
}
