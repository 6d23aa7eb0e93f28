//! Laws of the definitions. Each law is the contract of a function, so that it is checked with the calls.

ghost use Rattle.std.specs.Prelude.{◌≡◌, ◌≤◌, ◌+◌, List, ℕ, length};
ghost use Rattle.reassembly.specs.Cuts.{AreAccepted, AreFrom, IsCut, IsFragmentOf, IsOneOf, after};
ghost use Rattle.reassembly.specs.Fragments.{FragmentValue};
ghost use Rattle.reassembly.specs.PacketCuts.{AreAdded, IsIpv4Cut, IsIpv6Cut, after_arrivals};
ghost use Rattle.reassembly.specs.Packets as packets;
ghost use Rattle.reassembly.specs.Packets.{HasPacket, IsPacket, header_room};
ghost use Rattle.reassembly.specs.Reassembly.{IsPayload, empty};
ghost use Rattle.reassembly.specs.declared.fragment_key.FragmentKey.{FragmentKey};

/// Assume that a payload fits in the buffer, and that it is cut into at most 128 fragments. They arrive in any order, each at least once.
/// Then all fragments are accepted, and they give the payload back.
pub fn fragments_give_the_payload_back()
    ensures accepted { (key : FragmentKey) (room : ℕ) (payload : List ℕ) (fragments arrivals : List FragmentValue)
        → IsCut key payload fragments → length payload ≤ 65535 → length payload ≤ room → length fragments ≤ 128
        → AreFrom fragments arrivals → AreAccepted (empty key room) arrivals }
    ensures given_back { (key : FragmentKey) (room : ℕ) (payload : List ℕ) (fragments arrivals : List FragmentValue)
        → IsCut key payload fragments → length payload ≤ room → AreFrom fragments arrivals → AreFrom arrivals fragments
        → IsPayload (after (empty key room) arrivals) payload }
{}

/// If the payload is complete, each accepted fragment is a fragment of this payload.
pub fn fragments_agree_with_the_payload()
    ensures { (key : FragmentKey) (room : ℕ) (payload : List ℕ) (arrivals : List FragmentValue) (fragment : FragmentValue)
        → AreAccepted (empty key room) arrivals → IsPayload (after (empty key room) arrivals) payload → IsOneOf arrivals fragment
        → IsFragmentOf key payload fragment }
{}

/// Assume that an IPv4 packet fits in the buffer, and that it is cut into at most 128 fragments. Then the fragments are accepted in any
/// order and repeatedly. If all of them arrive, they give the packet back.
pub fn fragments_give_the_ipv4_packet_back()
    ensures accepted { (key : FragmentKey) (len : ℕ) (packet : List ℕ) (fragments arrivals : List FragmentValue)
        → IsIpv4Cut key packet fragments → header_room key + length packet ≤ len → length fragments ≤ 128
        → AreFrom fragments arrivals → AreAdded (packets.empty key len) arrivals }
    ensures there { (key : FragmentKey) (len : ℕ) (packet : List ℕ) (fragments arrivals : List FragmentValue)
        → IsIpv4Cut key packet fragments → header_room key + length packet ≤ len → AreFrom fragments arrivals → AreFrom arrivals fragments
        → HasPacket (after_arrivals (packets.empty key len) arrivals) }
    ensures given_back { (key : FragmentKey) (len : ℕ) (packet result : List ℕ) (fragments arrivals : List FragmentValue)
        → IsIpv4Cut key packet fragments → header_room key + length packet ≤ len → AreFrom fragments arrivals → AreFrom arrivals fragments
        → IsPacket (after_arrivals (packets.empty key len) arrivals) result → result ≡ packet }
{}

/// Assume that an IPv6 packet fits in the buffer, and that it is cut into at most 128 fragments. Then the fragments are accepted in any
/// order and repeatedly. If all of them arrive, they give the packet back.
pub fn fragments_give_the_ipv6_packet_back()
    ensures accepted { (key : FragmentKey) (len : ℕ) (packet : List ℕ) (fragments arrivals : List FragmentValue)
        → IsIpv6Cut key packet fragments → header_room key + length packet ≤ len → length fragments ≤ 128
        → AreFrom fragments arrivals → AreAdded (packets.empty key len) arrivals }
    ensures there { (key : FragmentKey) (len : ℕ) (packet : List ℕ) (fragments arrivals : List FragmentValue)
        → IsIpv6Cut key packet fragments → header_room key + length packet ≤ len → AreFrom fragments arrivals → AreFrom arrivals fragments
        → HasPacket (after_arrivals (packets.empty key len) arrivals) }
    ensures given_back { (key : FragmentKey) (len : ℕ) (packet result : List ℕ) (fragments arrivals : List FragmentValue)
        → IsIpv6Cut key packet fragments → header_room key + length packet ≤ len → AreFrom fragments arrivals → AreFrom arrivals fragments
        → IsPacket (after_arrivals (packets.empty key len) arrivals) result → result ≡ packet }
{}
