ghost use Rattle.std.specs.Prelude.{◌≡◌};
ghost use Rattle.transport_part.specs.Transports as specs;

use ip_part::{Proto, TransportInIp};

/// The protocol of the header at the start of the payload. `None` for a fragment, whose payload is only a part, and for a protocol other
/// than UDP, TCP, and ICMP of the IP version.
#[inline(always)]
pub fn proto_in_ip(found: &TransportInIp<'_>) -> Option<Proto>
    ensures { result ≡ specs.proto_in found.now }
{
    if found.is_fragment {
        return None;
    }
    found.proto()
}
