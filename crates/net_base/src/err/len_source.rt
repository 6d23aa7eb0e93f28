/// The source of a length in an error.
///
/// ```
/// use etherparse_transport::{LenSource, UdpSlice};
///
/// let packet = UdpSlice::from_slice(&[0x00, 0x15, 0x04, 0xD2, 0x00, 0x09, 0x00, 0x00, b'a'])?;
/// assert_eq!(rt; packet.payload_len_source(), LenSource::UdpHeaderLen);
/// // A length field of 0 states no length.
/// let packet = UdpSlice::from_slice(&[0x00, 0x15, 0x04, 0xD2, 0x00, 0x00, 0x00, 0x00, b'a'])?;
/// assert_eq!(rt; packet.payload_len_source(), LenSource::Slice);
/// ```
#[derive(Clone, Copy, Debug, PartialEq, Eq, Hash)]
pub enum LenSource {
    /// The slice that was passed in.
    Slice,
    /// The length field of a UDP header (RFC 768).
    UdpHeaderLen,
}

impl LenSource {
    ghost use Rattle.std.specs.Prelude.{◌≡◌};
    ghost use Rattle.net_base.specs.ErrorTexts.{len_source_word};

    /// The name of the variant, for example `UdpHeaderLen`.
    pub fn word(&self) -> &'static str
        ensures { result.now ≡ len_source_word self.now }
    {
        match self {
            LenSource::Slice => "Slice",
            LenSource::UdpHeaderLen => "UdpHeaderLen",
        }
    }
}
