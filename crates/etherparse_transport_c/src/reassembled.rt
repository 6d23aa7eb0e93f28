ghost use Rattle.std.specs.Prelude.{◌≡◌, ◌≤◌, IfOk, None, OnOk, Some, length, take};
ghost use Rattle.net_base.specs.Refusals.{RefusesExactly};
ghost use Rattle.reassembly.specs.ErrorTexts.{reassembly_text};
ghost use Rattle.reassembly.specs.Fragments.{fragment_of};
ghost use Rattle.etherparse_transport_c.specs.ErrorText.{text_of};
ghost use Rattle.reassembly.specs.Packets.{empty};
ghost use Rattle.reassembly.specs.declared.fragment_key.FragmentKey.{FragmentKey};
ghost use Rattle.etherparse_transport_c.specs.Reassemblies as specs;
ghost use Rattle.etherparse_transport_c.specs.Reassemblies.{TellsPacket, added, after_all, all_refusal, first_length_refusal, first_packet_refusal, length_refusal, packet_refusal};
ghost use Rattle.etherparse_transport_c.specs.declared.error.EtherparseError.{EtherparseError};

use crate::answer::{Answer, ErrorPlace, refuse};
use crate::error::{EtherparseError, of_ip_length, of_status};
use crate::fragment::fragment_in;
use crate::status;
use crate::write::write;
use reassembly::{FragmentKey, Reassembly, ReassemblyError};

/// The longest payload, in bytes.
const MAX_PAYLOAD_LEN: usize = 65_535;

/// Puts a packet together from its fragments (RFC 791, section 3.2; RFC 8200, section 4.5), and writes its length to `written`. The
/// fragments are one after another in `packets`, in any order and possibly repeated. `lens` contains the length of each fragment. `buffer`
/// then begins with the whole packet, as if it was never fragmented. `room` is memory for the work. 65,791 bytes are enough for every
/// packet: 60 bytes for headers over IPv4, 256 bytes over IPv6, and the payload. Its contents after the call are not specified.
///
/// A `Reassembly` borrows its buffer and has an invariant about it, so no struct of C can contain it. Hence the call takes all fragments at
/// once.
///
/// # Errors
///
/// The status is `OK`, or the first of these that applies. The cases from `LENGTHS` to `TOO_MANY_FRAGMENTS` are tested for each fragment.
/// - `REASSEMBLY_LENGTHS` if a length counts more bytes than are left.
/// - A status of `etherparse_fragment_read`.
/// - `REASSEMBLY_OTHER_KEY` if the fragment belongs to another packet than the first.
/// - `REASSEMBLY_EMPTY` if the fragment has no payload.
/// - `REASSEMBLY_FRAGMENT_LENGTH` if more fragments follow, and the length of the payload is not a multiple of 8.
/// - `REASSEMBLY_TOO_LONG` if the fragment ends beyond 65,535 bytes.
/// - `REASSEMBLY_ROOM` if the fragment ends beyond `room`, after the bytes for headers.
/// - `REASSEMBLY_OTHER_END` if two last fragments end at different places.
/// - `REASSEMBLY_BEHIND_END` if a fragment that is not the last does not end before the last fragment.
/// - `REASSEMBLY_OVERLAP` if the fragment overlaps another fragment, but does not repeat it (RFC 5722, section 3).
/// - `REASSEMBLY_TOO_MANY_FRAGMENTS` if the packet has more than 128 fragments.
/// - `REASSEMBLY_INCOMPLETE` if bytes of the payload are missing.
/// - `REASSEMBLY_HEADER` if the whole packet would be longer than its length field can count, or has too many bytes of headers.
/// - `BUFFER_TOO_SMALL` if `buffer` is shorter than the whole packet.
///
/// After an error `error` contains the reason, and `buffer` and `written` are unchanged.
#[unsafe(no_mangle)]
pub extern "C" fn etherparse_reassembly_packet(
    packets: &[u8],
    lens: &[usize],
    room: &mut [u8],
    buffer: &mut [u8],
    written: &mut usize,
    error: ErrorPlace,
) -> Answer
    ensures pointer { result.pointer ≡ error.pointer }
    // A refused first packet.
    ensures first { (refusal : EtherparseError) → first_packet_refusal lens.now packets.now ≡ Some refusal
        → (result.status ≡ refusal.status) × (result.error ≡ refusal) × (buffer.new ≡ buffer.old) × (written.new ≡ written.old) }
    // A fragment that is not added.
    ensures refused { (key : FragmentKey) (refusal : EtherparseError) → first_packet_refusal lens.now packets.now ≡ None
        → specs.first_key lens.now packets.now ≡ Some key → all_refusal (empty key (length room.old)) lens.now packets.now ≡ Some refusal
        → (result.status ≡ refusal.status) × (result.error ≡ refusal) × (buffer.new ≡ buffer.old) × (written.new ≡ written.old) }
    // All fragments are added.
    ensures told { (key : FragmentKey) → first_packet_refusal lens.now packets.now ≡ None → specs.first_key lens.now packets.now ≡ Some key
        → all_refusal (empty key (length room.old)) lens.now packets.now ≡ None
        → TellsPacket (after_all (empty key (length room.old)) lens.now packets.now) buffer.old buffer.new written.new written.old
        result.status result.error error.before }
{
    let key = match first_key(packets, lens) {
        Ok(key) => key,
        Err(refused) => return refuse(error, refused),
    };
    let mut reassembly = Reassembly::new(key, room);
    match add_all(&mut reassembly, packets, lens) {
        Ok(()) => write_packet(&reassembly, buffer, written, error),
        Err(refused) => refuse(error, refused),
    }
}

/// Returns the key of the first fragment.
fn first_key(packets: &[u8], lens: &[usize]) -> Result<FragmentKey, EtherparseError>
    ensures refused { RefusesExactly result (first_packet_refusal lens.now packets.now) }
    ensures key { IfOk result (λ key. specs.first_key lens.now packets.now ≡ Some key) }
{
    let first = first_packet(packets, lens)?;
    let fragment = fragment_in(first)?;
    Ok(fragment.key)
}

/// Returns the first packet.
fn first_packet<'a>(packets: &'a [u8], lens: &[usize]) -> Result<&'a [u8], EtherparseError>
    ensures refused { RefusesExactly result (first_length_refusal lens.now packets.now) }
    ensures first { IfOk result (λ packet. packet.now ≡ specs.first_packet lens.now packets.now) }
{
    match lens.first() {
        Some(len) => front(packets, *len),
        None => Err(of_status(status::REASSEMBLY_INCOMPLETE)),
    }
}

/// Returns the packet of this length at the front. A length that counts more bytes than there are is refused.
#[tactic(auto, unfolding(crate::specs::Reassemblies::length_refusal))]
fn front(packets: &[u8], len: usize) -> Result<&[u8], EtherparseError>
    ensures refused { RefusesExactly result (length_refusal len packets.now) }
    ensures front { IfOk result (λ packet. packet.now ≡ take len packets.now) }
    ensures fits { IfOk result (λ packet. len ≤ length packets.now) }
{
    if packets.len() < len {
        return Err(of_ip_length(status::REASSEMBLY_LENGTHS, len, packets.len()));
    }
    Ok(&packets[..len])
}

/// Adds the fragments in packets with these lengths, which are one after another. The first refusal ends the call.
fn add_all(
    reassembly: &mut Reassembly<'_>,
    packets: &[u8],
    lens: &[usize],
) -> Result<(), EtherparseError>
    ensures refused { RefusesExactly result (all_refusal reassembly.old lens.now packets.now) }
    ensures added { OnOk result (reassembly.new ≡ after_all reassembly.old lens.now packets.now) }
{
    let mut rest = packets;
    for len in lens {
        let packet = front(rest, *len)?;
        add_packet(reassembly, packet)?;
        rest = &rest[*len..];
    }
    Ok(())
}

/// Adds the fragment in a packet.
#[tactic(auto, unfolding(crate::specs::Reassemblies::packet_refusal))]
fn add_packet(reassembly: &mut Reassembly<'_>, packet: &[u8]) -> Result<(), EtherparseError>
    ensures refused { RefusesExactly result (packet_refusal reassembly.old packet.now) }
    ensures added { OnOk result (reassembly.new ≡ added reassembly.old (fragment_of packet.now)) }
{
    let fragment = fragment_in(packet)?;
    match reassembly.add(&fragment) {
        Ok(_) => Ok(()),
        Err(refused) => Err(of_reassembly(&refused)),
    }
}

/// Returns the error for a fragment that is not added.
#[tactic(auto, unfolding(crate::specs::ErrorText::later_text, crate::specs::ErrorText::siit_header_text, crate::specs::ErrorText::siit_message_text, crate::specs::ReassemblyTexts::joining_text))]
fn of_reassembly(error: &ReassemblyError) -> EtherparseError
    ensures numbers { result ≡ specs.of_reassembly error.now }
    ensures text { text_of result ≡ reassembly_text error.now }
{
    match error {
        ReassemblyError::OtherKey => of_status(status::REASSEMBLY_OTHER_KEY),
        ReassemblyError::Empty => of_status(status::REASSEMBLY_EMPTY),
        ReassemblyError::LengthNotMultipleOf8 { len } => {
            of_ip_length(status::REASSEMBLY_FRAGMENT_LENGTH, 0, *len)
        }
        ReassemblyError::TooLong { end } => {
            of_ip_length(status::REASSEMBLY_TOO_LONG, MAX_PAYLOAD_LEN, *end)
        }
        ReassemblyError::BufferTooSmall { required_len, len } => {
            of_ip_length(status::REASSEMBLY_ROOM, *required_len, *len)
        }
        ReassemblyError::OtherEnd => of_status(status::REASSEMBLY_OTHER_END),
        ReassemblyError::BehindEnd => of_status(status::REASSEMBLY_BEHIND_END),
        ReassemblyError::Overlap => of_status(status::REASSEMBLY_OVERLAP),
        ReassemblyError::TooManyFragments => of_status(status::REASSEMBLY_TOO_MANY_FRAGMENTS),
    }
}

/// Writes the whole packet to the caller's buffer, and its length to `written`. If there is no packet, or if the buffer is too small, the
/// function returns an error and writes nothing.
fn write_packet(
    reassembly: &Reassembly<'_>,
    buffer: &mut [u8],
    written: &mut usize,
    error: ErrorPlace,
) -> Answer
    ensures pointer { result.pointer ≡ error.pointer }
    ensures told { TellsPacket reassembly.now buffer.old buffer.new written.new written.old result.status result.error error.before }
{
    match reassembly.packet() {
        Some(packet) => write(packet, buffer, written, error),
        None if reassembly.payload().is_some() => {
            refuse(error, of_status(status::REASSEMBLY_HEADER))
        }
        None => refuse(error, of_status(status::REASSEMBLY_INCOMPLETE)),
    }
}
