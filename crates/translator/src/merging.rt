//! Whether replacements can give two addresses the same new address.

ghost use Rattle.std.specs.Prelude.{◌≡◌};
ghost use Rattle.std.specs.List.{list_any};
ghost use Rattle.translator.specs.Merging.{any_meet, can_merge, is_narrower, meet};

use crate::replacements::NetworkReplacement;

/// Whether two addresses of one IP version can become one address. `sources` are the replacements of source addresses, and `destinations`
/// those of destination addresses.
pub(crate) fn can_merge(sources: &[NetworkReplacement], destinations: &[NetworkReplacement]) -> bool
    ensures { result ≡ can_merge sources.now destinations.now }
{
    any_narrower(sources)
        || any_narrower(destinations)
        || any_meet(sources, sources)
        || any_meet(sources, destinations)
        || any_meet(destinations, destinations)
}

/// Whether the new network of one of these replacements is smaller than its old network.
fn any_narrower(replacements: &[NetworkReplacement]) -> bool
    ensures { result ≡ list_any is_narrower replacements.now }
{
    let mut left = replacements;
    while let [first, rest @ ..] = left {
        if first.old.host_mask != first.new.host_mask {
            return true;
        }
        left = rest;
    }
    false
}

/// Whether a replacement of the first list meets a replacement of the second list.
fn any_meet(replacements: &[NetworkReplacement], others: &[NetworkReplacement]) -> bool
    ensures { result ≡ any_meet replacements.now others.now }
{
    let mut left = replacements;
    while let [first, rest @ ..] = left {
        if meets_any(first, others) {
            return true;
        }
        left = rest;
    }
    false
}

/// Whether this replacement meets one of the others.
fn meets_any(one: &NetworkReplacement, others: &[NetworkReplacement]) -> bool
    ensures { result ≡ list_any (meet one.now) others.now }
{
    let mut left = others;
    while let [first, rest @ ..] = left {
        if meet(one, first) {
            return true;
        }
        left = rest;
    }
    false
}

/// Whether two replacements differ, and their new networks have an address in common.
fn meet(one: &NetworkReplacement, other: &NetworkReplacement) -> bool
    ensures { result ≡ meet one.now other.now }
{
    let is_same = one.old == other.old && one.new == other.new;
    !is_same && one.new.overlaps(&other.new)
}
