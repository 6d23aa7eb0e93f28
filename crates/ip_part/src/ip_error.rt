ghost use Rattle.std.specs.Prelude.{◌≡◌};
ghost use Rattle.ip_part.specs.ErrorTexts.{ip_text};
ghost use Rattle.net_base.specs.TextParts.{reads_as};

use net_base::IpNumber;
use net_base::err::ErrorText;
use net_base::err::TextPart::{Number, Words};
use thiserror::Error;

/// Why the transport in an IP packet was not found.
///
/// ```
/// use etherparse_transport::ip::{IpError, transport_in_ip};
///
/// assert_eq!(rt; transport_in_ip(&[0x50]), Err(IpError::Version { version: 5 }));
/// // The total length is 31, and only the header was captured.
/// let packet = [0x45, 0, 0, 31, 0, 0, 0, 0, 64, 17, 0, 0, 192, 168, 1, 1, 192, 168, 1, 2];
/// let error = IpError::PacketCutOff { required_len: 31, len: 20 };
/// assert_eq!(rt; transport_in_ip(&packet), Err(error));
/// ```
#[derive(Clone, Copy, Debug, PartialEq, Eq, Error)]
#[error("{}", self.text())]
pub enum IpError {
    /// The slice is empty, or ends within the IP header. Or it ends within hop-by-hop options that must contain the packet length (RFC
    /// 2675, section 3), so that the length is unknown.
    HeaderCutOff {
        /// The least number of bytes that are needed: 1 for an empty slice, 20 or the stated header length for IPv4, and 40 for IPv6. If
        /// the slice ends within hop-by-hop options that must contain the packet length, it is 48 or the offset of the end of these
        /// options.
        required_len: usize,
        /// The length of the slice, in bytes.
        len: usize,
    },
    /// The version is neither 4 nor 6 (the high four bits of byte 0).
    Version {
        /// The version.
        version: u8,
    },
    /// An IPv4 header states a length below the minimum of 20 bytes (the low four bits of byte 0, in words of four bytes).
    HeaderLength {
        /// The stated header length, in bytes.
        header_len: usize,
    },
    /// The total length of an IPv4 packet is below its header length (RFC 791, section 3.1). `transport_in_ip_lax` accepts a total length
    /// of 0.
    TotalLength {
        /// The total length, in bytes.
        total_len: usize,
        /// The length of the header, in bytes.
        header_len: usize,
    },
    /// The payload length of an IPv6 packet is 0, and the hop-by-hop options directly after its header contain no jumbo payload option (RFC
    /// 2675, section 3). `transport_in_ip_lax` accepts this packet.
    JumboPayloadMissing,
    /// A jumbo payload length is at most 65,535, so the payload length field could state it (RFC 2675, section 3).
    JumboPayloadLength {
        /// The jumbo payload length, in bytes.
        jumbo_payload_len: usize,
    },
    /// The header counts more bytes than the slice contains.
    PacketCutOff {
        /// The number of bytes that the header counts, including the header itself.
        required_len: usize,
        /// The length of the slice, in bytes.
        len: usize,
    },
    /// The packet ends within an extension header of IPv6, or within the authentication header of IPv4.
    ExtensionHeaderCutOff {
        /// The number of the extension header.
        protocol: IpNumber,
        /// The start of the extension header, in bytes from the start of the packet.
        offset: usize,
        /// The length of the extension header, in bytes. If fewer than 8 bytes are left, it is 8, the least length of an extension header.
        required_len: usize,
        /// The number of bytes that the packet contains from `offset` on, without padding.
        len: usize,
    },
    /// An IPv6 packet has a jumbo payload option, but the payload length in its header is not 0 (RFC 2675, section 3).
    JumboPayloadUnexpected {
        /// The payload length, in bytes.
        payload_len: usize,
    },
    /// An IPv6 packet has both a jumbo payload option and a fragment header (RFC 2675, section 3).
    JumboPayloadFragment {
        /// The start of the fragment header, in bytes from the start of the packet.
        offset: usize,
    },
}

impl IpError {
    /// The text that `Display` writes.
    pub fn text(&self) -> ErrorText
        ensures { reads_as result ≡ ip_text self.now }
    {
        match self {
            IpError::HeaderCutOff { required_len, len } => ErrorText::from_parts(&[
                Words("IP Error: the header has at least "),
                Number(*required_len),
                Words(" bytes, and "),
                Number(*len),
                Words(" are there."),
            ]),
            IpError::Version { version } => ErrorText::from_parts(&[
                Words("IP Error: the version is "),
                Number(usize::from(*version)),
                Words("."),
            ]),
            IpError::HeaderLength { header_len } => ErrorText::from_parts(&[
                Words("IP Error: the stated header length is "),
                Number(*header_len),
                Words("."),
            ]),
            IpError::TotalLength {
                total_len,
                header_len,
            } => ErrorText::from_parts(&[
                Words("IP Error: the total length "),
                Number(*total_len),
                Words(" is below the header length "),
                Number(*header_len),
                Words("."),
            ]),
            IpError::JumboPayloadMissing => ErrorText::from_words(
                "IP Error: the payload length is 0, and the hop-by-hop options have no jumbo payload option.",
            ),
            IpError::JumboPayloadLength { jumbo_payload_len } => ErrorText::from_parts(&[
                Words("IP Error: the jumbo payload length is "),
                Number(*jumbo_payload_len),
                Words(", which is not above 65535."),
            ]),
            IpError::PacketCutOff { required_len, len } => ErrorText::from_parts(&[
                Words("IP Error: the header counts "),
                Number(*required_len),
                Words(" bytes, and "),
                Number(*len),
                Words(" are there."),
            ]),
            IpError::ExtensionHeaderCutOff {
                protocol,
                offset,
                required_len,
                len,
            } => ErrorText::from_parts(&[
                Words("IP Error: the extension header with protocol number "),
                Number(usize::from(protocol.0)),
                Words(" at offset "),
                Number(*offset),
                Words(" has at least "),
                Number(*required_len),
                Words(" bytes, and "),
                Number(*len),
                Words(" are left."),
            ]),
            IpError::JumboPayloadUnexpected { payload_len } => ErrorText::from_parts(&[
                Words("IP Error: the payload length is "),
                Number(*payload_len),
                Words(", and the hop-by-hop options have a jumbo payload option."),
            ]),
            IpError::JumboPayloadFragment { offset } => ErrorText::from_parts(&[
                Words(
                    "IP Error: a packet with a jumbo payload option has a fragment header at offset ",
                ),
                Number(*offset),
                Words("."),
            ]),
        }
    }
}
