use crate::stored_checksum::{absent_checksum, pseudo_header_over, stored_at};
use crate::verdict::{
    ICMP_CHECKSUM_AT, TCP_CHECKSUM_AT, UDP_CHECKSUM_AT, lacks_length, verdict_over,
};
use crate::{ChecksumVerdict, Untested};
use icmp_part::{Icmpv4Slice, Icmpv6Slice};
use ip_part::{IpAddresses, Proto};
use tcp_part::TcpSlice;
use udp_part::UdpSlice;

/// The transport of an IP packet, header and payload in one slice.
///
/// ```
/// use etherparse_transport::TransportSlice;
/// use etherparse_transport::ip::{transport_in_ip, transport_slice};
///
/// let packet = [
///     0x45, 0, 0, 29, 0, 0, 0, 0, 64, 17, 0, 0, 192, 168, 1, 1, 192, 168, 1, 2, // IPv4
///     0x00, 0x15, 0x04, 0xD2, 0x00, 0x09, 0x00, 0x00, b'a', // UDP
/// ];
/// let transport = transport_slice(&transport_in_ip(&packet)?)?;
/// assert!(rt; matches!(&transport, Some(TransportSlice::Udp(udp)) if udp.source_port() == 21));
/// ```
#[derive(Clone, Debug, PartialEq, Eq, Drop)]
pub enum TransportSlice<'a> {
    /// A UDP packet (RFC 768).
    Udp(UdpSlice<'a>),
    /// A TCP segment (RFC 9293, section 3.1).
    Tcp(TcpSlice<'a>),
    /// An ICMPv4 message (RFC 792).
    Icmpv4(Icmpv4Slice<'a>),
    /// An ICMPv6 message (RFC 4443, section 2.1).
    Icmpv6(Icmpv6Slice<'a>),
}

impl<'a> TransportSlice<'a> {
    ghost use Rattle.std.specs.Prelude.{◌≡◌, ◌≤◌, ◌↔◌, IfOk, IfSome, IsTrue, MatchResult, length};
    ghost use Rattle.std.specs.Option.{option_map};
    ghost use Rattle.ip_part.specs.Addresses.{by_value};
    ghost use Rattle.net_base.specs.Bytes.{IsBytes};
    ghost use Rattle.word_sum.specs.Checksum.{folded, total};
    ghost use Rattle.transport_part.specs.Layouts.{layout_of};
    ghost use Rattle.transport_part.specs.StoredChecksums as specs;
    ghost use Rattle.transport_part.specs.StoredChecksums.{IsPartial, IsRightBy, SaysWhetherPartial, with_stored};
    ghost use Rattle.transport_part.specs.Transports.{bytes_of, min_len, payload_of, proto_of, quoted_by};
    ghost use Rattle.transport_part.specs.Verdicts.{AreOne, HasChecksum, IsValidOver, Judges, SaysWhether};
    ghost use Rattle.transport_part.specs.declared.checksum_verdict.ChecksumVerdict.{ChecksumVerdict as Verdict};
    ghost use Rattle.transport_part.specs.declared.checksum_verdict.ChecksumVerdict.TheVariants as verdicts;
    ghost use Rattle.transport_part.specs.declared.checksum_verdict.Untested.{Untested as Reason};

    /// The protocol of the transport.
    pub fn proto(&self) -> Proto
        ensures { result ≡ proto_of self.now }
    {
        match self {
            TransportSlice::Udp(_) => Proto::Udp,
            TransportSlice::Tcp(_) => Proto::Tcp,
            TransportSlice::Icmpv4(_) => Proto::Icmpv4,
            TransportSlice::Icmpv6(_) => Proto::Icmpv6,
        }
    }

    /// The bytes of header and payload.
    pub fn slice(&self) -> &'a [u8]
        ensures bytes { result.now ≡ bytes_of self.now }
        ensures long { min_len self.now ≤ length result.now }
    {
        match self {
            TransportSlice::Udp(packet) => packet.slice(),
            TransportSlice::Tcp(segment) => segment.slice(),
            TransportSlice::Icmpv4(message) => message.slice(),
            TransportSlice::Icmpv6(message) => message.slice(),
        }
    }

    /// The length of the header, in bytes. It is 20 to 60 for TCP, 20 for an ICMPv4 timestamp message or reply with code 0, and otherwise
    /// 8.
    pub fn header_len(&self) -> usize
        ensures { result ≡ (layout_of (proto_of self.now) (bytes_of self.now)).header_len }
    {
        match self {
            TransportSlice::Udp(packet) => packet.header_len(),
            TransportSlice::Tcp(segment) => segment.header_len(),
            TransportSlice::Icmpv4(message) => message.header_len(),
            TransportSlice::Icmpv6(message) => message.header_len(),
        }
    }

    /// The bytes after the header.
    pub fn payload(&self) -> &'a [u8]
        ensures { result.now ≡ payload_of self.now }
    {
        match self {
            TransportSlice::Udp(packet) => packet.payload(),
            TransportSlice::Tcp(segment) => segment.payload(),
            TransportSlice::Icmpv4(message) => message.payload(),
            TransportSlice::Icmpv6(message) => message.payload(),
        }
    }

    /// The packet that an ICMP error quotes, from its IP header on, as far as the error contains it. `None` if this is not an ICMP error.
    /// `ip::transport_in_ip_lax` reads the quoted packet, which usually is not complete.
    pub fn quoted_packet(&self) -> Option<&'a [u8]>
        ensures { option_map (λ packet. packet.now) result ≡ quoted_by self.now }
    {
        match self {
            TransportSlice::Udp(_) | TransportSlice::Tcp(_) => None,
            TransportSlice::Icmpv4(message) => message.quoted_packet(),
            TransportSlice::Icmpv6(message) => message.quoted_packet(),
        }
    }

    /// Whether the checksum over these addresses is right, and the right checksum if it is wrong (RFC 1071, section 1). The slice must
    /// contain the whole packet, and the packet must not be a fragment. `ip::checksum_verdict` checks both.
    #[inline(always)]
    #[tactic(auto, using(crate::proofs::ValidityLaw::says_over))]
    pub fn checksum_verdict(&self, addresses: IpAddresses<'_>) -> ChecksumVerdict
        ensures judged { Judges (by_value addresses.entry) self.now result }
        // In short: if the checksum is tested, a receiver accepts the packet exactly if the verdict is `Right` or `Absent`.
        ensures valid { SaysWhether (IsValidOver (by_value addresses.entry) self.now) result }
        // At most one verdict on the packet is true, and this is it.
        ensures one_verdict { AreOne (Judges (by_value addresses.entry) self.now) }
    {
        if lacks_length(self) {
            return ChecksumVerdict::Untested(Untested::ZeroLength);
        }
        verdict_over(addresses, self)
    }

    /// The place of the checksum in the slice, in bytes: 6 for UDP (RFC 768), 16 for TCP (RFC 9293, section 3.1), 2 for ICMP (RFC 792; RFC
    /// 4443, section 2.1).
    pub fn checksum_place(&self) -> usize
        ensures { result ≡ specs.checksum_place (proto_of self.now) }
    {
        match self {
            TransportSlice::Udp(_) => UDP_CHECKSUM_AT,
            TransportSlice::Tcp(_) => TCP_CHECKSUM_AT,
            TransportSlice::Icmpv4(_) | TransportSlice::Icmpv6(_) => ICMP_CHECKSUM_AT,
        }
    }

    /// The stored checksum. Over IPv4, a UDP checksum of 0 means that the packet has no checksum.
    pub fn stored_checksum(&self) -> u16
        ensures stored { result ≡ specs.stored_checksum self.now }
        ensures long { min_len self.now ≤ length (bytes_of self.now) }
        ensures bytes { IsBytes (bytes_of self.now) }
    {
        stored_at(self.slice(), self.checksum_place())
    }

    /// The partial checksum over these addresses: the sum of only the pseudo header, whose length is the length of the slice. A host stores
    /// the partial checksum, and leaves the rest to its network card (checksum offload). A translation changes a stored checksum as if it
    /// were complete. If the stored checksum was partial, write the partial checksum over the new addresses to `checksum_place` afterwards.
    ///
    /// `None` if there is no pseudo header: for an ICMPv4 message, ICMP of the wrong IP version, an unknown final destination, or a packet
    /// that is too long for it.
    pub fn partial_checksum(&self, addresses: IpAddresses<'_>) -> Option<u16>
        ensures sum { result ≡ option_map (λ header. folded (total header)) (specs.pseudo_header_over (by_value addresses.entry) self.now) }
        // With this checksum `is_checksum_partial` is true.
        ensures partial { IfSome result (λ checksum. IsPartial (by_value addresses.entry) (with_stored self.now checksum)) }
    {
        match pseudo_header_over(addresses, self) {
            Some(sum) => Some(u16::MAX - sum.ones_complement()),
            None => None,
        }
    }

    /// Whether the stored checksum is partial over these addresses: the sum of only the pseudo header, whose length is the length of the
    /// slice. A host leaves the rest to its network card (checksum offload). The payload is not read, so the call takes the same time for
    /// any length. In rare cases a partial checksum is also right. Then `checksum_verdict` returns `Right`, not `Partial`.
    ///
    /// The result is `false` if there is no pseudo header: for an ICMPv4 message, ICMP of the wrong IP version, an unknown final
    /// destination, or a packet that is too long for it.
    #[tactic(auto, using(crate::proofs::RightChecksumLaws::says_partial))]
    pub fn is_checksum_partial(&self, addresses: IpAddresses<'_>) -> bool
        ensures partial { IsTrue result ↔ IsPartial (by_value addresses.entry) self.now }
        // `checksum_verdict` returns `Partial` for a wrong checksum exactly if this is true.
        ensures verdict { (verdict : Verdict) → Judges (by_value addresses.entry) self.now verdict →
            SaysWhetherPartial (IsPartial (by_value addresses.entry) self.now) verdict }
    {
        match pseudo_header_over(addresses, self) {
            Some(sum) => self.stored_checksum() == u16::MAX - sum.ones_complement(),
            None => false,
        }
    }

    /// The right checksum of the packet over these addresses, whatever checksum the packet contains. If the stored checksum is right, the
    /// result is the stored checksum. Otherwise the result is the checksum that makes the packet valid. For UDP the result is never 0.
    ///
    /// # Errors
    ///
    /// The reason why `checksum_verdict` does not test the checksum.
    pub fn right_checksum(&self, addresses: IpAddresses<'_>) -> Result<u16, Untested>
        ensures refused { MatchResult result (λ _. (why : Reason) → ¬ Judges (by_value addresses.entry) self.now (verdicts.Untested why))
            (λ why. Judges (by_value addresses.entry) self.now (verdicts.Untested why)) }
        // With this checksum the verdict is `Right`.
        ensures right { IfOk result (λ checksum. Judges (by_value addresses.entry) (with_stored self.now checksum) verdicts.Right) }
        ensures chosen { IfOk result (λ checksum. (verdict : Verdict) → HasChecksum verdict → Judges (by_value addresses.entry) self.now verdict →
            IsRightBy verdict (specs.stored_checksum self.now) checksum) }
        ensures long { min_len self.now ≤ length (bytes_of self.now) }
    {
        let stored = self.stored_checksum();
        match self.checksum_verdict(addresses) {
            ChecksumVerdict::Right => Ok(stored),
            ChecksumVerdict::Absent => Ok(absent_checksum(addresses, self)),
            ChecksumVerdict::Wrong { expected } => Ok(expected),
            ChecksumVerdict::Partial { expected } => Ok(expected),
            ChecksumVerdict::Untested(why) => Err(why),
        }
    }
}
