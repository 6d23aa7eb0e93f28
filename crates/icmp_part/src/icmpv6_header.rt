ghost use Rattle.net_base.specs.Refusals.{RefusesExactly, no_room, too_big};

use crate::message_start::write_array;
use crate::{Icmpv6Slice, Icmpv6Type};
use arrayvec::ArrayVec;
use net_base::err::{Layer, LenError, ValueTooBigError, ValueType};

/// An ICMPv6 header (RFC 4443, section 2.1).
///
/// ```
/// use etherparse_transport::{IcmpEchoHeader, Icmpv6Header, Icmpv6Type};
///
/// let source = [0x20, 0x01, 0x0D, 0xB8, 0, 0, 0, 0, 0, 0, 0, 0, 0, 0, 0, 1];
/// let destination = [0x20, 0x01, 0x0D, 0xB8, 0, 0, 0, 0, 0, 0, 0, 0, 0, 0, 0, 2];
/// let request = Icmpv6Type::EchoRequest(IcmpEchoHeader { id: 7, seq: 1 });
/// let header = Icmpv6Header::with_checksum(request, source, destination, b"ping")?;
/// let bytes = header.to_bytes();
/// assert_eq!(rt; bytes.as_slice(), [128, 0, 0x45, 0x6B, 0, 7, 0, 1].as_slice());
/// assert_eq!(rt; Icmpv6Header::from_slice(&bytes)?, (header, [].as_slice()));
/// ```
#[derive(Clone, Debug, PartialEq, Eq, Drop)]
pub struct Icmpv6Header {
    /// The message with its fields.
    pub icmp_type: Icmpv6Type,
    /// The checksum over pseudo header, header and payload (bytes 2 and 3).
    pub checksum: u16,
}

impl Icmpv6Header {
    ghost use Rattle.std.specs.Prelude.{◌≡◌, List, ℕ, ◌+◌, ◌++◌, ◌↔◌, None, IfOk, IfErr, drop, length};
    ghost use Rattle.net_base.specs.Bytes.{IsBytes};
    ghost use Rattle.word_sum.specs.Checksum.{IsAllOnes, checksum_of, folded, total};
    ghost use Rattle.word_sum.specs.SumValue.{sum_value};
    ghost use Rattle.icmp_part.specs.Icmpv6ReadsBack.{IsReadAs, reads_back};
    ghost use Rattle.icmp_part.specs.Icmpv6Validity.{IsValidIcmpv6};
    ghost use Rattle.icmp_part.specs.Icmpv6Format.{DecodesAs, canonical, checksummed, max_payload_len, pseudo_header, refusal, wire};

    /// The length of the header, in bytes.
    pub const MIN_LEN: usize = 8;

    /// The length of the header, in bytes: an older name of `MIN_LEN`.
    pub const MIN_SERIALIZED_SIZE: usize = Icmpv6Header::MIN_LEN;

    /// The capacity of the `ArrayVec` that `to_bytes` returns, in bytes. It has room for a redirect header and the two addresses after it
    /// (RFC 4861, section 4.5). Every header has the length `MIN_LEN`.
    pub const MAX_LEN: usize = 40;

    /// An older name of `MAX_LEN`.
    pub const MAX_SERIALIZED_SIZE: usize = Icmpv6Header::MAX_LEN;

    /// The place of the checksum, in bytes from the start of the header.
    pub const CHECKSUM_AT: usize = 2;

    /// A header whose checksum field is 0. Call `update_checksum` to store the checksum.
    pub fn new(icmp_type: Icmpv6Type) -> Icmpv6Header
        ensures { result ≡ record { icmp_type = icmp_type; checksum = 0 } }
    {
        Icmpv6Header {
            icmp_type,
            checksum: 0,
        }
    }

    /// A header with the checksum over the pseudo header, the header and this payload (RFC 4443, section 2.3). If the
    /// packet has a routing header, pass the final destination.
    ///
    /// # Errors
    ///
    /// `ValueTooBigError` of `Icmpv6PayloadLength` if the payload is longer than 4,294,967,287 bytes.
    pub fn with_checksum(
        icmp_type: Icmpv6Type,
        source_ip: [u8; 16],
        destination_ip: [u8; 16],
        payload: &[u8],
    ) -> Result<Icmpv6Header, ValueTooBigError<usize>>
        ensures refused { RefusesExactly result (too_big ValueType.Icmpv6PayloadLength max_payload_len (length payload.now)) }
        ensures made { IfOk result (λ header. header.icmp_type ≡ icmp_type) }
        ensures sum { IfOk result (λ header. header.checksum ≡ checksum_of (checksummed source_ip destination_ip header payload.now)) }
        ensures verifies { IfOk result (λ header. IsAllOnes (checksummed source_ip destination_ip header payload.now + header.checksum)) }
        ensures valid { IfOk result (λ header. IsValidIcmpv6 source_ip destination_ip (wire header ++ payload.now)) }
    {
        let checksum = icmp_type.calc_checksum(source_ip, destination_ip, payload)?;
        Ok(Icmpv6Header {
            icmp_type,
            checksum,
        })
    }

    /// Stores the checksum over the pseudo header, this header and this payload (RFC 4443, section 2.3). If the packet
    /// has a routing header, pass the final destination.
    ///
    /// # Errors
    ///
    /// `ValueTooBigError` of `Icmpv6PayloadLength` if the payload is longer than 4,294,967,287 bytes. After this error
    /// the header is unchanged.
    pub fn update_checksum(
        &mut self,
        source_ip: [u8; 16],
        destination_ip: [u8; 16],
        payload: &[u8],
    ) -> Result<(), ValueTooBigError<usize>>
        ensures refused { RefusesExactly result (too_big ValueType.Icmpv6PayloadLength max_payload_len (length payload.now)) }
        ensures kept { self.new.icmp_type ≡ self.old.icmp_type }
        ensures unchanged { IfErr result (λ _. self.new ≡ self.old) }
        ensures sum { IfOk result (λ _. self.new.checksum ≡ checksum_of (checksummed source_ip destination_ip self.new payload.now)) }
        ensures verifies { IfOk result (λ _. IsAllOnes (checksummed source_ip destination_ip self.new payload.now + self.new.checksum)) }
        ensures valid { IfOk result (λ _. IsValidIcmpv6 source_ip destination_ip (wire self.new ++ payload.now)) }
    {
        self.checksum = self
            .icmp_type
            .calc_checksum(source_ip, destination_ip, payload)?;
        Ok(())
    }

    /// Reads a header (RFC 4443, section 2.1). Returns the header and the bytes after it. The slice must end at the end of the IP packet.
    /// Bits that this kind of message does not use are dropped, for example the length field of RFC 4884. The checksum is not checked.
    ///
    /// # Errors
    ///
    /// `LenError` of the layer `Icmpv6` if the slice is shorter than 8 bytes, or longer than 4,294,967,295 bytes.
    #[inline(always)]
    pub fn from_slice(slice: &[u8]) -> Result<(Icmpv6Header, &[u8]), LenError>
        ensures refused { RefusesExactly result (refusal slice.now) }
        ensures read { IfOk result (λ found. DecodesAs slice.now found.0 found.1.now) }
        ensures written_back { IfOk result (λ found. wire found.0 ++ found.1.now ≡ canonical slice.now) }
        ensures decode_alike { IfOk result (λ found. (other : List ℕ) → IsBytes other → refusal other ≡ None
            → (DecodesAs other found.0 found.1.now ↔ (canonical other ≡ canonical slice.now))) }
    {
        let packet = Icmpv6Slice::from_slice(slice)?;
        Ok((packet.header(), packet.payload()))
    }

    /// The bytes of the header (RFC 4443, section 2.1). Unused bits are zero.
    ///
    /// If a payload of at most 4,294,967,287 bytes follows these bytes, they are read back as the same header. There is one exception:
    /// `Unknown` with the type and code of another kind is read back as that kind.
    #[inline(always)]
    #[tactic(auto, using(crate::proofs::Icmpv6ReadsBackLemmas::written_reads_back))]
    pub fn to_bytes(&self) -> ArrayVec<u8, 40>
        ensures written { result.items ≡ wire self.now }
        ensures reads_back { (payload : List ℕ) → IsReadAs (wire self.now ++ payload) (reads_back self.now.icmp_type self.now.checksum payload) }
    {
        self.icmp_type.to_bytes(self.checksum)
    }

    /// Writes the bytes of the header (RFC 4443, section 2.1) to the front of the slice, and returns their number: 8.
    /// The rest of the slice is not changed.
    ///
    /// # Errors
    ///
    /// `LenError` of the layer `Icmpv6` if the slice is shorter than 8 bytes. After this error the slice is unchanged.
    #[inline(always)]
    pub fn write_to_slice(&self, slice: &mut [u8]) -> Result<usize, LenError>
        ensures refused { RefusesExactly result (no_room Layer.Icmpv6 (wire self.now) (length slice.old)) }
        ensures len { IfOk result (λ len. len ≡ length (wire self.now)) }
        ensures written { IfOk result (λ _. slice.new ≡ wire self.now ++ drop (length (wire self.now)) slice.old) }
        ensures unchanged { IfErr result (λ _. slice.new ≡ slice.old) }
    {
        write_array(
            slice,
            Layer::Icmpv6,
            self.icmp_type.start().to_array(self.checksum),
        )
    }

    /// The length of the header, in bytes: 8.
    pub fn header_len(&self) -> usize
        ensures { result ≡ length (wire self.now) }
    {
        self.icmp_type.header_len()
    }

    /// Always `None`: no kind of ICMPv6 message has a fixed number of bytes after its header.
    pub fn fixed_payload_size(&self) -> Option<usize>
        ensures { result ≡ None }
    {
        self.icmp_type.fixed_payload_size()
    }
}
