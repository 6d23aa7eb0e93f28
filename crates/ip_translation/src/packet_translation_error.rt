ghost use Rattle.std.specs.Prelude.{◌≡◌};
ghost use Rattle.ip_translation.specs.ErrorTexts.{packet_text};
ghost use Rattle.net_base.specs.TextParts.{reads_as};

use crate::TranslationError;
use net_base::err::ErrorText;
use net_base::err::TextPart::{Number, Words};
use thiserror::Error;

/// Why a packet was not translated between IPv4 and IPv6.
#[derive(Clone, Debug, PartialEq, Eq, Drop, Error)]
#[error("{}", self.text())]
pub enum PacketTranslationError {
    /// The bytes do not begin with a whole IPv4 header.
    NoIpv4Header,
    /// The bytes do not begin with a whole IPv6 header.
    NoIpv6Header,
    /// The IP header has no translation.
    Header(TranslationError),
    /// The packet has fewer bytes than its header counts.
    CutOff {
        /// The number of bytes that the header counts, including the header itself.
        total_len: usize,
        /// The number of bytes that the packet has.
        len: usize,
    },
    /// An ICMP message with this type and code is not translated. Echo messages are, and errors for which `icmpv6_error` or `icmpv4_error`
    /// returns a type and a code.
    IcmpMessage {
        /// The type of the message.
        type_u8: u8,
        /// The code of the message.
        code_u8: u8,
    },
    /// An ICMP error has this wrong length field, which counts units of four bytes of the quoted packet, and over IPv6 of eight (RFC 4884,
    /// section 4). The length is below 128 bytes, or above the rest of the message.
    IcmpExtension(u8),
    /// The pointer of an ICMP parameter problem points to this byte of the IP header, which has no place in the other version of IP.
    IcmpPointer(u32),
    /// The packet that an ICMP error quotes does not begin with a whole IP header of the same version.
    NoQuotedHeader,
    /// The IP header of the packet that an ICMP error quotes has no translation.
    QuotedHeader(TranslationError),
    /// An ICMP error is about an ICMP message with this type and code, which is no echo message.
    QuotedIcmp {
        /// The type of the quoted message.
        type_u8: u8,
        /// The code of the quoted message.
        code_u8: u8,
    },
    /// The message ends within its transport header, or a quoted message of UDP, TCP or ICMP is shorter than 8 bytes.
    TransportHeader {
        /// The length of the transport header without options, in bytes.
        required_len: usize,
        /// The length of the message, in bytes.
        len: usize,
    },
    /// A UDP packet over IPv4 has no checksum, and the checksum can't be computed. The length field is below 8, or above the length of the
    /// message.
    UdpLength {
        /// The value of the length field, in bytes.
        length: usize,
        /// The length of the message, in bytes.
        len: usize,
    },
    /// A UDP packet over IPv6 has no checksum, which IPv6 requires (RFC 8200, section 8.1).
    NoUdpChecksum,
    /// The buffer is shorter than the translated packet.
    Space {
        /// The length of the translated packet, in bytes.
        required_len: usize,
        /// The length of the buffer, in bytes.
        len: usize,
    },
    /// An IPv6 extension header ends after the packet.
    ExtensionHeaderCutOff {
        /// The number of the extension header.
        number: u8,
        /// The length of the extension header, in bytes. It is 8 if the packet ends within the first 8 bytes of the header.
        required_len: usize,
        /// The number of bytes that the packet has for this header.
        len: usize,
    },
    /// A routing header has segments left. The translator should report this to the sender: a parameter problem of ICMPv6 with code 0 and
    /// this pointer (RFC 7915, section 5.1).
    SegmentsLeft {
        /// The place of the field "segments left", in bytes from the start of the packet.
        pointer: usize,
    },
    /// The packet is a fragment of an ICMP message, or an ICMP error quotes such a fragment (RFC 7915, section 1.2).
    IcmpFragment,
    /// The first fragment of a UDP packet over IPv4 has no checksum. The checksum can't be computed, since it covers the other fragments
    /// (RFC 7915, section 4.5).
    FragmentChecksum,
}

impl PacketTranslationError {
    /// The text that `Display` writes.
    pub fn text(&self) -> ErrorText
        ensures { reads_as result ≡ packet_text self.now }
    {
        match self {
            PacketTranslationError::NoIpv4Header => {
                ErrorText::from_words(
                    "Translation Error: the bytes do not begin with an IPv4 header.",
                )
            }
            PacketTranslationError::NoIpv6Header => ErrorText::from_words(
                "Translation Error: the bytes do not begin with an IPv6 header.",
            ),
            PacketTranslationError::Header(error) => error.text(),
            PacketTranslationError::CutOff { total_len, len } => ErrorText::from_parts(&[
                Words("Translation Error: the total length is "),
                Number(*total_len),
                Words(", and there are "),
                Number(*len),
                Words(" bytes."),
            ]),
            PacketTranslationError::IcmpMessage { type_u8, code_u8 } => {
                ErrorText::from_parts(&[
                    Words("Translation Error: an ICMP message of type "),
                    Number(usize::from(*type_u8)),
                    Words(" and code "),
                    Number(usize::from(*code_u8)),
                    Words(" is not translated."),
                ])
            }
            PacketTranslationError::IcmpExtension(length) => ErrorText::from_parts(&[
                Words("Translation Error: the length field "),
                Number(usize::from(*length)),
                Words(" of an ICMP error with an extension is wrong."),
            ]),
            PacketTranslationError::IcmpPointer(pointer) => ErrorText::from_parts(&[
                Words("Translation Error: the pointer "),
                Number(*pointer as usize),
                Words(" has no translation."),
            ]),
            PacketTranslationError::NoQuotedHeader => ErrorText::from_words(
                "Translation Error: an ICMP error does not quote an IP header.",
            ),
            PacketTranslationError::QuotedHeader(error) => error.text(),
            PacketTranslationError::QuotedIcmp { type_u8, code_u8 } => {
                ErrorText::from_parts(&[
                    Words("Translation Error: an ICMP error quotes an ICMP message of type "),
                    Number(usize::from(*type_u8)),
                    Words(" and code "),
                    Number(usize::from(*code_u8)),
                    Words("."),
                ])
            }
            PacketTranslationError::TransportHeader { required_len, len } => {
                ErrorText::from_parts(&[
                    Words("Translation Error: the transport header has "),
                    Number(*required_len),
                    Words(" bytes, and there are "),
                    Number(*len),
                    Words("."),
                ])
            }
            PacketTranslationError::UdpLength { length, len } => ErrorText::from_parts(&[
                Words("Translation Error: a UDP packet of "),
                Number(*len),
                Words(" bytes without a checksum has the length field "),
                Number(*length),
                Words("."),
            ]),
            PacketTranslationError::NoUdpChecksum => {
                ErrorText::from_words("Translation Error: a UDP packet over IPv6 has no checksum.")
            }
            PacketTranslationError::Space { required_len, len } => ErrorText::from_parts(&[
                Words("Space Error: "),
                Number(*required_len),
                Words(" bytes are needed, and there is room for "),
                Number(*len),
                Words("."),
            ]),
            PacketTranslationError::ExtensionHeaderCutOff {
                number,
                required_len,
                len,
            } => ErrorText::from_parts(&[
                Words("Translation Error: the IPv6 extension header "),
                Number(usize::from(*number)),
                Words(" has "),
                Number(*required_len),
                Words(" bytes, and there are "),
                Number(*len),
                Words("."),
            ]),
            PacketTranslationError::SegmentsLeft { pointer } => ErrorText::from_parts(&[
                Words("Translation Error: a routing header has segments left at byte "),
                Number(*pointer),
                Words("."),
            ]),
            PacketTranslationError::IcmpFragment => ErrorText::from_words(
                "Translation Error: a fragment of an ICMP message is not translated.",
            ),
            PacketTranslationError::FragmentChecksum => ErrorText::from_words(
                "Translation Error: a fragment of a UDP packet has no checksum.",
            ),
        }
    }
}
