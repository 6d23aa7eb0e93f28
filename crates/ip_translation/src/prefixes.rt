ghost use Rattle.std.specs.Prelude.{◌≡◌, []};

use crate::{AddressMapping, AddressTable, Prefix64};

/// How the addresses of a packet are translated. For a packet in the other direction, exchange the two tables.
///
/// A stateless translator uses the same table for both addresses. A translator of 464XLAT uses one prefix for its own hosts, and the
/// prefix of the network for all other hosts (RFC 6877, section 6.3).
#[derive(Clone, Copy, Debug, PartialEq, Eq)]
pub struct Prefixes<'a> {
    /// The table for the source.
    pub source: AddressTable<'a>,
    /// The table for the destination.
    pub destination: AddressTable<'a>,
}

impl<'a> Prefixes<'a> {
    /// Two prefixes without explicit mappings. The prefix `source` embeds the source, and `destination` embeds the destination.
    #[inline(always)]
    pub fn new(source: Prefix64, destination: Prefix64) -> Prefixes<'a>
        ensures source { result.source.prefix ≡ source }
        ensures destination { result.destination.prefix ≡ destination }
        ensures source_mappings { result.source.mappings.now ≡ [] }
        ensures destination_mappings { result.destination.mappings.now ≡ [] }
    {
        Prefixes::with_mappings(source, destination, &[])
    }

    /// Two prefixes for the addresses without an explicit mapping. The mappings translate both addresses (RFC 7757, section 3.3).
    #[inline(always)]
    pub fn with_mappings(
        source: Prefix64,
        destination: Prefix64,
        mappings: &'a [AddressMapping],
    ) -> Prefixes<'a>
        ensures source { result.source.prefix ≡ source }
        ensures destination { result.destination.prefix ≡ destination }
        ensures source_mappings { result.source.mappings.now ≡ mappings.now }
        ensures destination_mappings { result.destination.mappings.now ≡ mappings.now }
    {
        Prefixes {
            source: AddressTable {
                mappings,
                prefix: source,
            },
            destination: AddressTable {
                mappings,
                prefix: destination,
            },
        }
    }
}
