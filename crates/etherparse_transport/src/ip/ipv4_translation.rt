/// What an address translator replaces in an IPv4 packet (RFC 3022). If a value is `None`, the packet keeps its own value.
///
/// ```
/// use etherparse_transport::ip::{Ipv4Translation, translate_ipv4};
///
/// let mut packet = [
///     0x45, 0, 0, 28, 0, 0, 0, 0, 64, 17, 0x8E, 0xEC, 192, 168, 1, 2, 198, 51, 100, 7, // IPv4
///     0x13, 0x88, 0, 53, 0, 8, 0x00, 0x3C, // UDP, from port 5000
/// ];
/// let outbound = Ipv4Translation {
///     source: Some([203, 0, 113, 7]),
///     source_port: Some(40_000),
///     ..Ipv4Translation::default()
/// };
/// translate_ipv4(&mut packet, &outbound)?;
/// let translated = [
///     0x45, 0, 0, 28, 0, 0, 0, 0, 64, 17, 0x14, 0x8F, 203, 0, 113, 7, 198, 51, 100, 7, // IPv4
///     0x9C, 0x40, 0, 53, 0, 8, 0xFD, 0x25, // UDP, from port 40000
/// ];
/// assert_eq!(rt; packet, translated);
/// ```
#[derive(Clone, Copy, Debug, PartialEq, Eq, Default)]
pub struct Ipv4Translation {
    /// The new source address.
    pub source: Option<[u8; 4]>,
    /// The new destination address.
    pub destination: Option<[u8; 4]>,
    /// The new source port of UDP and TCP, and the new identifier of an ICMP request (RFC 5508, section 3.1).
    pub source_port: Option<u16>,
    /// The new destination port of UDP and TCP, and the new identifier of an ICMP reply.
    pub destination_port: Option<u16>,
}

impl Ipv4Translation {
    ghost use Rattle.std.specs.Prelude.{◌≡◌};
    ghost use Rattle.etherparse_transport.specs.Ipv4Translations.{ipv4_of_quoted, ipv4_opposite};
    ghost use Rattle.etherparse_transport.specs.Translations.{has_port};
    ghost use Rattle.etherparse_transport.specs.WaysBack.{IsIpv4Translation};

    /// Whether a port or an identifier is replaced.
    pub(crate) fn has_port(&self) -> bool
        ensures { result ≡ has_port self.now.source_port self.now.destination_port }
    {
        self.source_port.is_some() || self.destination_port.is_some()
    }

    /// The translation of the packet that an ICMP error quotes: `passed`, or the opposite of `self` if `passed` is `None`.
    pub(crate) fn of_quoted(self, passed: Option<&Ipv4Translation>) -> Ipv4Translation
        ensures passed { result ≡ ipv4_of_quoted self passed.entry }
        ensures types { IsIpv4Translation self }
    {
        match passed {
            Some(passed) => *passed,
            None => self.opposite(),
        }
    }

    /// The translation of the packet that an ICMP error quotes. Source and destination are exchanged, since the quoted packet went in the
    /// other direction (RFC 5508, section 4).
    fn opposite(&self) -> Ipv4Translation
        ensures { result ≡ ipv4_opposite self.now }
    {
        Ipv4Translation {
            source: self.destination,
            destination: self.source,
            source_port: self.destination_port,
            destination_port: self.source_port,
        }
    }
}
