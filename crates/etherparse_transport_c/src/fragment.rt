ghost use Rattle.std.specs.Prelude.{◌≡◌, IfOk, Some, unwrap_or};
ghost use Rattle.net_base.specs.Refusals.{RefusesExactly};
ghost use Rattle.reassembly.specs.ErrorTexts.{fragment_text};
ghost use Rattle.reassembly.specs.Fragments.{by_value, fragment_of};
ghost use Rattle.etherparse_transport_c.specs.ErrorText.{text_of};
ghost use Rattle.etherparse_transport_c.specs.Errors.{Leaves, status_of, unless_refused};
ghost use Rattle.etherparse_transport_c.specs.Reassemblies as specs;
ghost use Rattle.etherparse_transport_c.specs.Reassemblies.{fields_or, key_fields, read_refusal};

use crate::answer::{Answer, ErrorPlace, accept, refuse};
use crate::error::{EtherparseError, of_ip, of_ip_length, of_status};
use crate::ip::ipv4_address;
use crate::status;
use reassembly::{Fragment, FragmentError, FragmentKey};

/// A fragment of an IP packet (RFC 791, section 3.2; RFC 8200, section 4.5). All fragments of one packet share the version, the protocol,
/// the identification and the addresses.
#[repr(C)]
#[derive(Clone, Copy)]
pub struct EtherparseFragment {
    /// The version, 4 or 6.
    pub version: u32,
    /// The protocol of the payload, as its number in the IPv4 header. It is 0 over IPv6, where the fragments of one packet may differ in
    /// it.
    pub protocol: u32,
    /// The identification: 16 bits over IPv4, 32 bits over IPv6.
    pub identification: u32,
    /// The place of the first byte in the payload of the whole packet, in bytes.
    pub offset: u32,
    /// 1 if more fragments follow, otherwise 0.
    pub more_fragments: u32,
    /// The source in the IP header. An IPv4 address is in the first four bytes, and the other bytes are 0.
    pub source: [u8; 16],
    /// The destination in the IP header. It has the same form as the source.
    pub destination: [u8; 16],
    /// The place at which the payload of the fragment begins, in bytes from the first byte of the packet.
    pub payload_offset: usize,
    /// The length of the payload of the fragment, in bytes, without padding.
    pub payload_len: usize,
}

/// The fields of a key in the form of C.
#[derive(Clone, Copy)]
struct KeyFields {
    version: u32,
    protocol: u32,
    identification: u32,
    source: [u8; 16],
    destination: [u8; 16],
}

/// Returns the fields of a key in the form of C.
fn fields_of_key(key: &FragmentKey) -> KeyFields
    ensures { result ≡ key_fields key.now }
{
    match key {
        FragmentKey::Ipv4 {
            source,
            destination,
            protocol,
            identification,
        } => KeyFields {
            version: 4,
            protocol: u32::from(protocol.0),
            identification: u32::from(*identification),
            source: ipv4_address(source),
            destination: ipv4_address(destination),
        },
        FragmentKey::Ipv6 {
            source,
            destination,
            identification,
        } => KeyFields {
            version: 6,
            protocol: 0,
            identification: *identification,
            source: *source,
            destination: *destination,
        },
    }
}

/// Returns a fragment in the form of the C struct.
fn fields_of(fragment: &Fragment<'_>) -> EtherparseFragment
    ensures { result ≡ specs.fragment_fields (by_value fragment.now) }
{
    let key = fields_of_key(&fragment.key);
    let (source, destination) = (key.source, key.destination);
    EtherparseFragment {
        version: key.version,
        protocol: key.protocol,
        identification: key.identification,
        offset: u32::from(fragment.offset),
        more_fragments: u32::from(fragment.more_fragments),
        source,
        destination,
        payload_offset: fragment.header.len(),
        payload_len: fragment.payload.len(),
    }
}

/// Returns the error for a fragment whose contents are not read.
#[tactic(auto, unfolding(crate::specs::ErrorText::later_text, crate::specs::ErrorText::siit_header_text, crate::specs::ErrorText::siit_message_text, crate::specs::ReassemblyTexts::joining_text))]
fn of_fragment(error: &FragmentError) -> EtherparseError
    ensures numbers { result ≡ specs.of_fragment error.now }
    ensures text { text_of result ≡ fragment_text error.now }
{
    match error {
        FragmentError::Ip(error) => of_ip(error),
        FragmentError::HeaderChainCutOff { required_len, len } => of_ip_length(
            status::REASSEMBLY_HEADER_CHAIN_CUT_OFF,
            *required_len,
            *len,
        ),
    }
}

/// Reads the fragment in a packet. A packet that is whole is refused.
#[tactic(auto, unfolding(crate::specs::Reassemblies::read_refusal))]
pub(crate) fn fragment_in(packet: &[u8]) -> Result<Fragment<'_>, EtherparseError>
    ensures refused { RefusesExactly result (read_refusal packet.now) }
    ensures read { IfOk result (λ fragment. fragment_of packet.now ≡ Some (by_value fragment)) }
{
    match Fragment::of(packet) {
        Ok(Some(fragment)) => Ok(fragment),
        Ok(None) => Err(of_status(status::REASSEMBLY_NO_FRAGMENT)),
        Err(refused) => Err(of_fragment(&refused)),
    }
}

/// Reads the fragment in an IP packet (RFC 791, section 3.2; RFC 8200, section 4.5): what identifies its packet, its place, and its payload.
/// If an IPv6 packet has several fragment headers, the call reads the first.
///
/// # Errors
///
/// The status is `OK`, or the first of these that applies:
/// - A status of `etherparse_transport_in_ip`, for example if the fragment is cut off.
/// - `REASSEMBLY_HEADER_CHAIN_CUT_OFF` if the first fragment over IPv6 ends within the header of TCP, UDP or ICMPv6 (RFC 7112, section 5).
/// - `REASSEMBLY_NO_FRAGMENT` if the packet is whole. An atomic fragment (RFC 6946) is a whole packet.
///
/// After an error `error` contains the reason, and `fragment` is unchanged.
#[unsafe(no_mangle)]
pub extern "C" fn etherparse_fragment_read(
    bytes: &[u8],
    fragment: &mut EtherparseFragment,
    error: ErrorPlace,
) -> Answer
    ensures status { result.status ≡ status_of (read_refusal bytes.now) }
    ensures error { Leaves error result (unwrap_or (read_refusal bytes.now) error.before) }
    ensures fragment { fragment.new ≡ unless_refused (read_refusal bytes.now) (fields_or (fragment_of bytes.now) fragment.old) fragment.old }
{
    match fragment_in(bytes) {
        Ok(found) => {
            *fragment = fields_of(&found);
            accept(error)
        }
        Err(refused) => refuse(error, refused),
    }
}
