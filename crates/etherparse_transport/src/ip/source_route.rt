ghost use Rattle.std.specs.Prelude.{◌≡◌, ◌≤◌, IfSome, MatchOption, None, Some, length};
ghost use Rattle.ip_part.specs.Options.{is_source_route};
ghost use Rattle.etherparse_transport.specs.SourceRoutes as specs;

/// The kind that ends the list of options (RFC 791, section 3.1).
pub(crate) const END_OF_LIST: u8 = 0;

/// The kind of the option "no operation", which has no length byte (RFC 791, section 3.1).
pub(crate) const NO_OPERATION: u8 = 1;

/// The kind of a loose source route (RFC 791, section 3.1).
const LOOSE_SOURCE_ROUTE: u8 = 131;

/// The kind of a strict source route (RFC 791, section 3.1).
const STRICT_SOURCE_ROUTE: u8 = 137;

/// Whether the options of an IPv4 header contain a loose or strict source route (RFC 791, section 3.1). A route counts even if its length
/// is below 2 or beyond the end of the options, since a router may still read it.
pub(crate) fn contain_source_route(options: &[u8]) -> bool
    ensures { result ≡ specs.contain_source_route options.now }
{
    let mut rest = options;
    while let Some(option) = option_or_rest(rest) {
        if is_source_route(option) {
            return true;
        }
        rest = &rest[option.len()..];
    }
    false
}

/// The option at the front of these bytes. If its length is missing or impossible, the option consists of all bytes. `None` at the end of
/// the list.
fn option_or_rest(bytes: &[u8]) -> Option<&[u8]>
    ensures front { MatchOption result (specs.option_or_rest bytes.now ≡ None) (λ option. specs.option_or_rest bytes.now ≡ Some option.now) }
    ensures within { IfSome result (λ option. (1 ≤ length option.now) × (length option.now ≤ length bytes.now)) }
{
    if bytes.is_empty() || bytes[0] == END_OF_LIST {
        return None;
    }
    if bytes[0] == NO_OPERATION {
        return Some(&bytes[..1]);
    }
    if bytes.len() < 2 {
        return Some(bytes);
    }
    let len = usize::from(bytes[1]);
    if len < 2 || bytes.len() < len {
        return Some(bytes);
    }
    Some(&bytes[..len])
}

/// Whether an option is a source route.
fn is_source_route(option: &[u8]) -> bool
    requires { 1 ≤ length option.now }
    ensures { result ≡ is_source_route option.now }
{
    option[0] == LOOSE_SOURCE_ROUTE || option[0] == STRICT_SOURCE_ROUTE
}
