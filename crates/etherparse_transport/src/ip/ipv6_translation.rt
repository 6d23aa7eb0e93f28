/// What an address translator replaces in an IPv6 packet (RFC 3022). If a value is `None`, the packet keeps its own value.
///
/// ```
/// use etherparse_transport::ip::{Ipv6Translation, translate_ipv6};
///
/// let mut packet = [
///     0x60, 0, 0, 0, 0, 8, 58, 64, // IPv6
///     0x20, 0x01, 0x0D, 0xB8, 0, 0, 0, 0, 0, 0, 0, 0, 0, 0, 0, 9, // from 2001:db8::9
///     0x20, 0x01, 0x0D, 0xB8, 0, 0, 0, 0, 0, 0, 0, 0, 0, 0, 0, 7, // to 2001:db8::7
///     129, 0, 0x86, 0xF9, 0x9C, 0x40, 0, 1, // an echo reply with the identifier 40000
/// ];
/// let inbound = Ipv6Translation {
///     destination: Some([0xFD, 0, 0, 0, 0, 0, 0, 0, 0, 0, 0, 0, 0, 0, 0, 2]),
///     destination_port: Some(7),
///     ..Ipv6Translation::default()
/// };
/// translate_ipv6(&mut packet, &inbound)?;
/// let translated = [
///     0x60, 0, 0, 0, 0, 8, 58, 64, // IPv6
///     0x20, 0x01, 0x0D, 0xB8, 0, 0, 0, 0, 0, 0, 0, 0, 0, 0, 0, 9, // from 2001:db8::9
///     0xFD, 0, 0, 0, 0, 0, 0, 0, 0, 0, 0, 0, 0, 0, 0, 2, // to fd00::2
///     129, 0, 0x53, 0xF0, 0, 7, 0, 1, // an echo reply with the identifier 7
/// ];
/// assert_eq!(rt; packet, translated);
/// ```
#[derive(Clone, Copy, Debug, PartialEq, Eq, Default)]
pub struct Ipv6Translation {
    /// The new source address.
    pub source: Option<[u8; 16]>,
    /// The new destination address.
    pub destination: Option<[u8; 16]>,
    /// The new source port of UDP and TCP, and the new identifier of an ICMP request (RFC 5508, section 3.1).
    pub source_port: Option<u16>,
    /// The new destination port of UDP and TCP, and the new identifier of an ICMP reply.
    pub destination_port: Option<u16>,
}

impl Ipv6Translation {
    ghost use Rattle.std.specs.Prelude.{◌≡◌};
    ghost use Rattle.etherparse_transport.specs.Ipv6Translations.{ipv6_of_quoted, ipv6_opposite};
    ghost use Rattle.etherparse_transport.specs.Translations.{has_port};
    ghost use Rattle.etherparse_transport.specs.WaysBack.{IsIpv6Translation};

    /// Whether a port or an identifier is replaced.
    pub(crate) fn has_port(&self) -> bool
        ensures { result ≡ has_port self.now.source_port self.now.destination_port }
    {
        self.source_port.is_some() || self.destination_port.is_some()
    }

    /// The translation of the packet that an ICMP error quotes: `passed`, or the opposite of `self` if `passed` is `None`.
    pub(crate) fn of_quoted(self, passed: Option<&Ipv6Translation>) -> Ipv6Translation
        ensures passed { result ≡ ipv6_of_quoted self passed.entry }
        ensures types { IsIpv6Translation self }
    {
        match passed {
            Some(passed) => *passed,
            None => self.opposite(),
        }
    }

    /// The translation of the packet that an ICMP error quotes. Source and destination are exchanged, since the quoted packet went in the
    /// other direction (RFC 5508, section 4).
    fn opposite(&self) -> Ipv6Translation
        ensures { result ≡ ipv6_opposite self.now }
    {
        Ipv6Translation {
            source: self.destination,
            destination: self.source,
            source_port: self.destination_port,
            destination_port: self.source_port,
        }
    }
}
