use crate::{Fragment, FragmentError};
use net_base::IpNumber;

/// The fields that identify a packet. All fragments of one packet share them, and fragments of other packets at that time differ in them.
#[derive(Clone, Copy, Debug, PartialEq, Eq)]
pub enum FragmentKey {
    /// The key of a fragment over IPv4 (RFC 791, section 3.2).
    Ipv4 {
        /// The source address.
        source: [u8; 4],
        /// The destination address in the header.
        destination: [u8; 4],
        /// The protocol of the payload.
        protocol: IpNumber,
        /// The identification.
        identification: u16,
    },
    /// The key of a fragment over IPv6 (RFC 8200, section 4.5).
    Ipv6 {
        /// The source address.
        source: [u8; 16],
        /// The destination address in the header.
        destination: [u8; 16],
        /// The identification.
        identification: u32,
    },
}

impl FragmentKey {
    ghost use Rattle.std.specs.Prelude.{◌≡◌, IfOk};
    ghost use Rattle.std.specs.Option.{option_map};
    ghost use Rattle.net_base.specs.Refusals.{RefusesExactly};
    ghost use Rattle.reassembly.specs.Fragments.{fragment_of, fragment_refusal};

    /// Reads the key of the fragment in an IP packet. `None` if the packet is whole.
    ///
    /// # Errors
    ///
    /// The errors of `Fragment::of`.
    pub fn of(packet: &[u8]) -> Result<Option<FragmentKey>, FragmentError>
        ensures refused { RefusesExactly result (fragment_refusal packet.now) }
        ensures found { IfOk result (λ key. key ≡ option_map (λ fragment. fragment.key) (fragment_of packet.now)) }
    {
        match Fragment::of(packet)? {
            Some(fragment) => Ok(Some(fragment.key)),
            None => Ok(None),
        }
    }
}
