//! Names of captures that begin like a filter of tcpdump.

ghost use Rattle.std.specs.Prelude.{◌≡◌, map};
ghost use Rattle.capture_arguments.specs.Filters.{has_filter};

use capture_request::is_filter;

/// Whether one of these names begins like a filter.
pub fn has_filter(names: &[&str]) -> bool
    ensures { result ≡ has_filter (map (λ name. name.now) names.now) }
{
    let mut left = names;
    while let [name, others @ ..] = left {
        if is_filter(name) {
            return true;
        }
        left = others;
    }
    false
}
