//! Laws of link headers. Each law is the contract of a function that does nothing, so that the law is checked together with the calls.
ghost use Rattle.std.specs.Prelude.{◌≡◌, ℕ, List, Option};
ghost use Rattle.capture_packet.specs.Link.{HasLinkHeader, NeedsLinkHeader};
ghost use Rattle.capture_numbers.specs.declared.byte_order.ByteOrder.{ByteOrder};
ghost use Rattle.capture_numbers.specs.declared.link_type.LinkType.{LinkType};
ghost use Rattle.capture_packet.specs.declared.network_protocol.NetworkProtocol.{NetworkProtocol};

/// A frame has at most one link header. If the frame ends within its link header, it has no whole link header. The required length of the
/// link header does not depend on the byte order.
pub fn one_link_header()
    ensures unique { (link_type : LinkType) (order : ByteOrder) (frame : List ℕ) (len other_len : ℕ) (next other_next : Option NetworkProtocol)
        (end other_end : Option ℕ) → HasLinkHeader link_type order frame len next end
        → HasLinkHeader link_type order frame other_len other_next other_end
        → (len ≡ other_len) × (next ≡ other_next) × (end ≡ other_end) }
    ensures whole { (link_type : LinkType) (order : ByteOrder) (frame : List ℕ) (len required_len : ℕ) (next : Option NetworkProtocol)
        (end : Option ℕ) → HasLinkHeader link_type order frame len next end → ¬ NeedsLinkHeader link_type order frame required_len }
    ensures required { (link_type : LinkType) (order : ByteOrder) (frame : List ℕ) (required_len other_len : ℕ)
        → NeedsLinkHeader link_type order frame required_len → NeedsLinkHeader link_type order frame other_len → required_len ≡ other_len }
    ensures any_order { (link_type : LinkType) (order other : ByteOrder) (frame : List ℕ) (required_len : ℕ)
        → NeedsLinkHeader link_type order frame required_len → NeedsLinkHeader link_type other frame required_len }
{}
