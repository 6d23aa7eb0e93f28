ghost use Rattle.std.specs.Prelude.{◌≡◌};
ghost use Rattle.etherparse_transport.specs.ErrorTexts.{untested_text, write_checksum_text};
ghost use Rattle.net_base.specs.TextParts.{reads_as};

use crate::Untested;
use crate::err::ErrorText;
use crate::err::tcp::HeaderSliceError;
use crate::ip::IpError;
use thiserror::Error;

/// Why no checksum was written into a packet.
///
/// ```
/// use etherparse_transport::Untested;
/// use etherparse_transport::err::packet::WriteChecksumError;
/// use etherparse_transport::ip::write_checksum;
///
/// // 0x20 is the flag "more fragments".
/// let mut packet = [0x45, 0, 0, 20, 0, 0, 0x20, 0, 64, 17, 0, 0, 192, 168, 1, 1, 192, 168, 1, 2];
/// let error = WriteChecksumError::Untested(Untested::Fragment);
/// assert_eq!(rt; write_checksum(&mut packet), Err(error));
/// ```
#[derive(Clone, Debug, PartialEq, Eq, Drop, Error)]
#[error("{}", self.text())]
pub enum WriteChecksumError {
    /// The packet is refused by `transport_in_ip`.
    Ip(IpError),
    /// The transport header is invalid.
    Transport(HeaderSliceError),
    /// The checksum of the packet is not tested, for this reason.
    Untested(Untested),
}

impl WriteChecksumError {
    /// The text that `Display` writes.
    pub fn text(&self) -> ErrorText
        ensures { reads_as result ≡ write_checksum_text self.now }
    {
        match self {
            WriteChecksumError::Ip(error) => error.text(),
            WriteChecksumError::Transport(error) => error.text(),
            WriteChecksumError::Untested(why) => ErrorText::from_words(untested_words(*why)),
        }
    }
}

/// The text of the error for a checksum that is not tested.
fn untested_words(why: Untested) -> &'static str
    ensures { result.now ≡ untested_text why }
{
    match why {
        Untested::Fragment => "Checksum Error: the packet is a fragment.",
        Untested::CutOff => "Checksum Error: the packet is cut off.",
        Untested::UnknownDestination => "Checksum Error: the final destination is unknown.",
        Untested::OtherProtocol => "Checksum Error: the protocol has no known checksum.",
        Untested::ZeroLength => "Checksum Error: the length field of the UDP packet is 0.",
        Untested::TooLong => "Checksum Error: the packet is too long for its pseudo header.",
    }
}
