/// The part of a packet in which a length was wrong.
///
/// ```
/// use etherparse_transport::UdpSlice;
/// use etherparse_transport::err::Layer;
///
/// // The length field counts 12 bytes, and the slice contains 8.
/// let read = UdpSlice::from_slice(&[0x00, 0x15, 0x04, 0xD2, 0x00, 0x0C, 0x00, 0x00]);
/// assert_eq!(rt; read.map_err(|error| error.layer), Err(Layer::UdpPayload));
/// assert_eq!(rt; Layer::UdpPayload.word(), "UdpPayload");
/// ```
#[derive(Clone, Copy, Debug, PartialEq, Eq, Hash)]
pub enum Layer {
    /// A UDP header (RFC 768).
    UdpHeader,
    /// A UDP header with its payload. The length field counts both (RFC 768).
    UdpPayload,
    /// A TCP header with its options (RFC 9293, section 3.1).
    TcpHeader,
    /// An ICMPv4 message (RFC 792).
    Icmpv4,
    /// An ICMPv4 timestamp message (RFC 792).
    Icmpv4Timestamp,
    /// An ICMPv4 timestamp reply message (RFC 792).
    Icmpv4TimestampReply,
    /// An ICMPv6 message (RFC 4443, section 2.1).
    Icmpv6,
}

impl Layer {
    ghost use Rattle.std.specs.Prelude.{◌≡◌};
    ghost use Rattle.net_base.specs.Layer.{word_of};

    /// Returns the name of the variant, for example `UdpHeader`.
    // A copy of this function in each caller would need a table of addresses, which the loader must fill when the program starts.
    #[inline(never)]
    pub fn word(&self) -> &'static str
        ensures { result.now ≡ word_of self.now }
    {
        match self {
            Layer::UdpHeader => "UdpHeader",
            Layer::UdpPayload => "UdpPayload",
            Layer::TcpHeader => "TcpHeader",
            Layer::Icmpv4 => "Icmpv4",
            Layer::Icmpv4Timestamp => "Icmpv4Timestamp",
            Layer::Icmpv4TimestampReply => "Icmpv4TimestampReply",
            Layer::Icmpv6 => "Icmpv6",
        }
    }
}
