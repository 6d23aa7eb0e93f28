/// The kind of a value that was too big.
///
/// ```
/// use etherparse_transport::UdpHeader;
/// use etherparse_transport::err::ValueType;
///
/// let header = UdpHeader::without_ipv4_checksum(21, 1234, 70_000);
/// let value_type = header.map_err(|error| error.value_type);
/// assert_eq!(rt; value_type, Err(ValueType::UdpPayloadLengthIpv4));
/// ```
#[derive(Clone, Copy, Debug, PartialEq, Eq, Hash)]
pub enum ValueType {
    /// The length of a UDP payload sent over IPv4, in bytes (RFC 768).
    UdpPayloadLengthIpv4,
    /// The length of a UDP payload sent over IPv6, in bytes (RFC 768, RFC 8200, section 8.1).
    UdpPayloadLengthIpv6,
    /// The length of a TCP payload sent over IPv4, in bytes (RFC 9293, section 3.1).
    TcpPayloadLengthIpv4,
    /// The length of a TCP payload sent over IPv6, in bytes (RFC 9293, section 3.1; RFC 8200, section 8.1).
    TcpPayloadLengthIpv6,
    /// The length of an ICMPv6 payload, in bytes (RFC 4443, section 2.3).
    Icmpv6PayloadLength,
}

impl ValueType {
    ghost use Rattle.std.specs.Prelude.{◌≡◌};
    ghost use Rattle.net_base.specs.ErrorTexts.{value_type_word};

    /// The name of the variant, for example `UdpPayloadLengthIpv4`.
    pub fn word(&self) -> &'static str
        ensures { result.now ≡ value_type_word self.now }
    {
        match self {
            ValueType::UdpPayloadLengthIpv4 => "UdpPayloadLengthIpv4",
            ValueType::UdpPayloadLengthIpv6 => "UdpPayloadLengthIpv6",
            ValueType::TcpPayloadLengthIpv4 => "TcpPayloadLengthIpv4",
            ValueType::TcpPayloadLengthIpv6 => "TcpPayloadLengthIpv6",
            ValueType::Icmpv6PayloadLength => "Icmpv6PayloadLength",
        }
    }
}
