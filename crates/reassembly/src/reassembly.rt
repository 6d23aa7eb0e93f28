ghost use Rattle.std.specs.Prelude.{◌≡◌, ◌≤◌, ◌<◌, ◌+◌, ◌↔◌, IfOk, IfSome, IsSome, OnErr, OnOk, Some, drop, length, nat_eq};
ghost use Rattle.std.specs.Cmp.Lexicographic.{pointwise};
ghost use Rattle.std.specs.List.{All};
ghost use Rattle.net_base.specs.Refusals.{RefusesExactly};
ghost use Rattle.reassembly.specs.Fragments.{by_value};
ghost use Rattle.reassembly.specs.Packets as packets;
ghost use Rattle.reassembly.specs.Parts.{AreApart, EndsWithin, Fits, part_reaches, pieces_in};
ghost use Rattle.reassembly.specs.Pieces as pieces;
ghost use Rattle.reassembly.specs.Reassembly as specs;
ghost use borrow.Rule.Slice.PartMut.{put_mid};

use crate::part::{Part, is_overlapped, is_reached, is_repeated, reach_with};
use crate::whole_header::{MAX_IPV4_HEADER_LEN, MAX_IPV6_HEADER_LEN, write_whole_header};
use crate::{Fragment, FragmentKey, ReassemblyError};
use arrayvec::ArrayVec;
use std::marker::Model;

/// The longest payload of a packet, in bytes: the length fields of IPv4 and IPv6 count at most this number (RFC 791, section 3.1; RFC 8200,
/// section 3).
const MAX_PAYLOAD_LEN: usize = 65_535;

/// The maximum number of fragments of a packet. On a link with an MTU of 576, a fragment over IPv4 has 552 bytes, and the longest packet
/// has 119 fragments.
pub const MAX_FRAGMENTS: usize = 128;

/// The length of each fragment except the last is a multiple of this number of bytes (RFC 791, section 3.2; RFC 8200, section 4.5).
const UNIT: usize = 8;

/// Whether the payload is complete.
#[derive(Clone, Copy, Debug, PartialEq, Eq)]
pub enum Progress {
    /// Bytes of the payload are missing.
    Incomplete,
    /// All bytes of the payload arrived.
    Complete,
}

/// One packet that is put together from its fragments, in a buffer that the caller lends.
///
/// The buffer has room for headers at its front, 60 bytes over IPv4 and 256 bytes over IPv6. The payload begins after this room, and the
/// headers of the whole packet are written directly before the payload. Hence 65,595 bytes hold every IPv4 packet.
#[derive(Drop)]
pub struct Reassembly<'a> {
    key: FragmentKey,
    buffer: &'a mut [u8],
    parts: ArrayVec<Part, MAX_FRAGMENTS>,
    /// A place in the payload. No part ends after this place.
    reach: usize,
    /// The number of bytes in all parts.
    received: usize,
    /// The length of the payload, or `None` if the last fragment did not arrive yet.
    end: Option<usize>,
    /// The headers of the first fragment, if it arrived.
    header: ArrayVec<u8, MAX_IPV6_HEADER_LEN>,
    /// The place of the whole packet in the buffer, if it is complete.
    start: Option<usize>,
}

impl<'a> Model for Reassembly<'a> {
    ghost use Rattle.std.specs.Prelude.{drop, length};
    ghost use Rattle.std.specs.List.{All};
    ghost use Rattle.reassembly.specs.Packets.{IsKept, PacketState, header_room};
    ghost use Rattle.reassembly.specs.Parts.{EndsWithin, pieces_in};

    ghost Value = { PacketState };

    ghost view = { λ r. record {
      len = length r.buffer.now;
      header = r.header.items;
      payload = record {
        key = r.key;
        room = length (drop (header_room r.key) r.buffer.now);
        pieces = pieces_in (drop (header_room r.key) r.buffer.now) r.parts.items;
        end = r.end;
      };
    } };

    ghost invariant = { λ r.
        IsKept r.key r.buffer.now r.parts.items r.received r.end r.header.items r.start × All (EndsWithin r.reach) r.parts.items };
}

impl<'a> Reassembly<'a> {
    /// Begins the reassembly of the packet with this key. The buffer holds the payload after the room for headers.
    pub fn new(key: FragmentKey, buffer: &'a mut [u8]) -> Reassembly<'a>
        ensures { result ≡ packets.empty key (length buffer.old) }
    {
        Reassembly {
            key,
            buffer,
            parts: ArrayVec::new(),
            reach: 0,
            received: 0,
            end: None,
            header: ArrayVec::new(),
            start: None,
        }
    }

    /// Drops the fragments that were added. Begins the reassembly of the packet with this key in the same buffer.
    pub fn restart(&mut self, key: FragmentKey)
        ensures { self.new ≡ packets.empty key self.old.len }
    {
        self.key = key;
        self.parts.clear();
        self.reach = 0;
        self.received = 0;
        self.end = None;
        self.header.clear();
        self.start = None;
    }

    /// The key of the packet.
    pub fn key(&self) -> FragmentKey
        ensures { result ≡ self.now.payload.key }
    {
        self.key
    }

    /// Adds a fragment of the packet. Fragments may come in any order. A fragment that repeats another fragment is accepted, and changes
    /// nothing.
    ///
    /// # Errors
    ///
    /// After an error the reassembly is unchanged. The call checks these cases, in this order:
    /// - `OtherKey` if the fragment belongs to another packet.
    /// - `Empty` if the fragment has no payload.
    /// - `LengthNotMultipleOf8` if more fragments follow, and the length of the fragment is not a multiple of 8.
    /// - `TooLong` if the fragment ends beyond 65,535 bytes.
    /// - `BufferTooSmall` if the fragment ends beyond the buffer, after its room for headers.
    /// - `OtherEnd` if the fragment is the last, but a last fragment with a different end was added before.
    /// - `BehindEnd` if a fragment that is not the last reaches the end of the last fragment, or goes beyond this end.
    /// - `Overlap` if the fragment overlaps another fragment, but does not repeat it (RFC 5722, section 3).
    /// - `TooManyFragments` if the fragment is new, but 128 fragments were added before.
    pub fn add(&mut self, fragment: &Fragment<'_>) -> Result<Progress, ReassemblyError>
        ensures refused { RefusesExactly result (specs.refusal self.old.payload (by_value fragment.now)) }
        ensures added { OnOk result (self.new ≡ packets.with_fragment self.old (by_value fragment.now)) }
        ensures unchanged { OnErr result (self.new ≡ self.old) }
        ensures progress { IfOk result (λ progress. (progress ≡ Progress.Complete) ↔ specs.IsComplete self.new.payload) }
    {
        let room = header_room(&self.key);
        let is_repetition = self.is_repetition(fragment)?;
        self.end = end_with(self.end, fragment);
        if is_repetition {
            self.start = write_front(self.buffer, room, &self.header, self.end, self.received);
            return Ok(progress_of(self.end, self.received));
        }
        let part = part_of(fragment);
        write_payload(
            self.buffer,
            room,
            usize::from(fragment.offset),
            fragment.payload,
        );
        self.parts.push(part);
        self.reach = reach_with(self.reach, part);
        self.received += fragment.payload.len();
        keep_header(&mut self.header, room, fragment);
        self.start = write_front(self.buffer, room, &self.header, self.end, self.received);
        Ok(progress_of(self.end, self.received))
    }

    /// Whether a fragment repeats another fragment. Refuses every fragment that `add` refuses.
    fn is_repetition(&self, fragment: &Fragment<'_>) -> Result<bool, ReassemblyError>
        ensures refused { RefusesExactly result (specs.refusal self.now.payload (by_value fragment.now)) }
        ensures repeated { IfOk result (λ is. is ≡ pieces.is_among self.now.payload.pieces (specs.piece_of (by_value fragment.now))) }
    {
        let payload = after_room(self.buffer, header_room(&self.key));
        check_fragment(&self.key, payload.len(), fragment)?;
        check_end(self.end, self.parts.as_slice(), self.reach, fragment)?;
        let offset = usize::from(fragment.offset);
        check_piece(
            payload,
            self.parts.as_slice(),
            self.reach,
            offset,
            fragment.payload,
        )
    }

    /// The payload of the packet, or `None` if it is not complete.
    pub fn payload(&self) -> Option<&[u8]>
        ensures found { IsSome result ↔ specs.IsComplete self.now.payload }
        ensures bytes { IfSome result (λ bytes. specs.IsPayload self.now.payload bytes.now) }
    {
        let len = self.end?;
        if self.received != len {
            return None;
        }
        Some(&after_room(self.buffer, header_room(&self.key))[..len])
    }

    /// The whole packet, as if it was never fragmented: the headers of the first fragment, and the payload. `None` if the payload is not
    /// complete. `None` also if `whole_ipv4_header` or `whole_ipv6_header` returns `None` for this packet, for example because the packet
    /// would be longer than its length field can count.
    pub fn packet(&self) -> Option<&[u8]>
        ensures found { IsSome result ↔ packets.HasPacket self.now }
        ensures bytes { IfSome result (λ packet. packets.IsPacket self.now packet.now) }
    {
        let start = self.start?;
        Some(&self.buffer[start..header_room(&self.key) + self.received])
    }
}

/// The length of the room for headers at the front of the buffer, in bytes.
fn header_room(key: &FragmentKey) -> usize
    ensures room { result ≡ packets.header_room key.now }
    ensures most { result ≤ 256 }
{
    match key {
        FragmentKey::Ipv4 { .. } => MAX_IPV4_HEADER_LEN,
        FragmentKey::Ipv6 { .. } => MAX_IPV6_HEADER_LEN,
    }
}

/// The part of the buffer for the payload. It is empty if the buffer is shorter than the room for headers.
fn after_room(buffer: &[u8], room: usize) -> &[u8]
    ensures { result.now ≡ drop room buffer.now }
{
    if buffer.len() < room {
        return &[];
    }
    &buffer[room..]
}

/// Refuses a fragment that can't be part of the packet with this key, or that ends beyond the `room` bytes for the payload.
fn check_fragment(
    key: &FragmentKey,
    room: usize,
    fragment: &Fragment<'_>,
) -> Result<(), ReassemblyError>
    ensures { RefusesExactly result (specs.own_refusal key.now room (by_value fragment.now)) }
{
    let len = fragment.payload.len();
    let end = usize::from(fragment.offset) + len;
    if !is_same_key(&fragment.key, key) {
        return Err(ReassemblyError::OtherKey);
    }
    if len == 0 {
        return Err(ReassemblyError::Empty);
    }
    if fragment.more_fragments && len % UNIT != 0 {
        return Err(ReassemblyError::LengthNotMultipleOf8 { len });
    }
    if end > MAX_PAYLOAD_LEN {
        return Err(ReassemblyError::TooLong { end });
    }
    if end > room {
        return Err(ReassemblyError::BufferTooSmall {
            required_len: end,
            len: room,
        });
    }
    Ok(())
}

/// Whether the two keys are equal.
pub(crate) fn is_same_key(a: &FragmentKey, b: &FragmentKey) -> bool
    ensures { result ≡ specs.is_same_key a.now b.now }
{
    match a {
        FragmentKey::Ipv4 {
            source,
            destination,
            protocol,
            identification,
        } => match b {
            FragmentKey::Ipv4 {
                source: other_source,
                destination: other_destination,
                protocol: other_protocol,
                identification: other_identification,
            } => {
                is_same_address(source, other_source)
                    && is_same_address(destination, other_destination)
                    && protocol.0 == other_protocol.0
                    && *identification == *other_identification
            }
            FragmentKey::Ipv6 { .. } => false,
        },
        FragmentKey::Ipv6 { .. } => a == b,
    }
}

/// Whether the two IPv4 addresses are equal. They are compared as numbers, which is faster than byte by byte.
#[inline(always)]
#[tactic(auto, using(crate::proofs::KeyLemmas::same_addresses))]
fn is_same_address(a: &[u8; 4], b: &[u8; 4]) -> bool
    ensures { result ≡ pointwise nat_eq a.now b.now }
{
    u32::from_be_bytes(*a) == u32::from_be_bytes(*b)
}

/// The part that the payload of this fragment becomes.
fn part_of(fragment: &Fragment<'_>) -> Part
    requires { length fragment.now.payload.now ≤ specs.max_payload_len }
    ensures { result ≡ record { offset = fragment.now.offset; len = length fragment.now.payload.now } }
{
    Part {
        offset: fragment.offset,
        len: fragment.payload.len() as u16,
    }
}

/// Refuses a fragment that does not agree with the known end of the payload. If the end is not known, refuses a last fragment whose end
/// another fragment reaches. No part ends after the place `reach`.
fn check_end(
    end: Option<usize>,
    parts: &[Part],
    reach: usize,
    fragment: &Fragment<'_>,
) -> Result<(), ReassemblyError>
    requires { All (EndsWithin reach) parts.now }
    ensures { RefusesExactly result (specs.end_refusal end (part_reaches (specs.end_of_fragment (by_value fragment.now)) parts.now) (by_value fragment.now)) }
{
    let fragment_end = usize::from(fragment.offset) + fragment.payload.len();
    match end {
        Some(end) if fragment.more_fragments && end <= fragment_end => Err(
            ReassemblyError::BehindEnd,
        ),
        Some(end) if !fragment.more_fragments && end != fragment_end => Err(
            ReassemblyError::OtherEnd,
        ),
        None if !fragment.more_fragments && is_reached(parts, reach, fragment_end) => {
            Err(ReassemblyError::BehindEnd)
        }
        _ => Ok(()),
    }
}

/// Whether this piece arrived before. Refuses a piece that overlaps another piece without being equal to it. Refuses a new piece if the
/// maximum number of pieces arrived before. No two parts overlap, and no part ends after the place `reach`.
fn check_piece(
    buffer: &[u8],
    parts: &[Part],
    reach: usize,
    offset: usize,
    bytes: &[u8],
) -> Result<bool, ReassemblyError>
    requires fit { All (Fits buffer.now) parts.now }
    requires apart { AreApart (pieces_in buffer.now parts.now) }
    requires within { All (EndsWithin reach) parts.now }
    requires room { offset + length bytes.now ≤ length buffer.now }
    requires some { 0 < length bytes.now }
    ensures refused { RefusesExactly result (specs.piece_refusal (pieces_in buffer.now parts.now) (record { offset = offset; bytes = bytes.now })) }
    ensures repeated { IfOk result (λ is. is ≡ pieces.is_among (pieces_in buffer.now parts.now) (record { offset = offset; bytes = bytes.now })) }
{
    if is_overlapped(parts, reach, offset, offset + bytes.len()) {
        // The parts do not overlap, so a piece that is equal to one of them overlaps no other.
        if is_repeated(buffer, parts, offset, bytes) {
            return Ok(true);
        }
        return Err(ReassemblyError::Overlap);
    }
    if parts.len() >= MAX_FRAGMENTS {
        return Err(ReassemblyError::TooManyFragments);
    }
    Ok(false)
}

/// Writes bytes to the buffer, from `offset` on.
fn write(buffer: &mut [u8], offset: usize, bytes: &[u8])
    requires { offset + length bytes.now ≤ length buffer.old }
    ensures { buffer.new ≡ put_mid offset (length bytes.now) buffer.old bytes.now }
{
    buffer[offset..offset + bytes.len()].copy_from_slice(bytes);
}

/// Writes bytes of the payload to the buffer, from `offset` on. The payload begins after the first `room` bytes.
fn write_payload(buffer: &mut [u8], room: usize, offset: usize, bytes: &[u8])
    requires { room + offset + length bytes.now ≤ length buffer.old }
    ensures { drop room buffer.new ≡ put_mid offset (length bytes.now) (drop room buffer.old) bytes.now }
{
    write(buffer, room + offset, bytes);
}

/// Stores the headers of the first fragment. If they are longer than `room`, no headers are stored. Any other fragment changes nothing.
fn keep_header(header: &mut ArrayVec<u8, MAX_IPV6_HEADER_LEN>, room: usize, fragment: &Fragment<'_>)
    requires { room ≤ 256 }
    ensures { header.new.items ≡ packets.header_of header.old.items room (by_value fragment.now) }
{
    if fragment.offset != 0 {
        return;
    }
    header.clear();
    if fragment.header.len() <= room {
        header.try_extend_from_slice(fragment.header).unwrap();
    }
}

/// Writes the headers of the whole packet before its payload, if the payload is complete. Returns the place of the packet in the buffer, or
/// `None` if nothing was written.
#[inline(always)]
#[tactic(auto, using(crate::proofs::WholeHeaderLemmas::payload_short))]
fn write_front(
    buffer: &mut [u8],
    room: usize,
    header: &ArrayVec<u8, MAX_IPV6_HEADER_LEN>,
    end: Option<usize>,
    received: usize,
) -> Option<usize>
    requires fits { length header.now.items ≤ room }
    requires long { end ≡ Some received → room ≤ length buffer.old }
    ensures payload { drop room buffer.new ≡ drop room buffer.old }
    ensures written { packets.IsFront room buffer.new header.now.items end received result }
{
    if end != Some(received) {
        return None;
    }
    let payload_len = u16::try_from(received).ok()?;
    write_whole_header(buffer, room, header.as_slice(), payload_len)
}

/// The length of the payload as it is known after this fragment. Only the last fragment determines it.
fn end_with(end: Option<usize>, fragment: &Fragment<'_>) -> Option<usize>
    ensures { result ≡ specs.end_with end (by_value fragment.now) }
{
    if fragment.more_fragments {
        end
    } else {
        Some(usize::from(fragment.offset) + fragment.payload.len())
    }
}

/// The progress: the payload is complete if its length is known, and all its bytes were received.
fn progress_of(end: Option<usize>, received: usize) -> Progress
    ensures { (result ≡ Progress.Complete) ↔ (end ≡ Some received) }
{
    if end == Some(received) {
        Progress::Complete
    } else {
        Progress::Incomplete
    }
}
