ghost use Rattle.std.specs.Prelude.{◌≡◌, false, true};
ghost use Rattle.translator.specs.Outcomes.{outcome_of};

use crate::reason::Reason;

/// What was done with an IP packet that can be translated.
#[derive(Clone, Copy, Debug, PartialEq, Eq)]
pub enum Done {
    /// An IPv4 packet was translated.
    TranslatedIpv4,
    /// An IPv6 packet was translated.
    TranslatedIpv6,
    /// No replacement applies to an IPv4 packet.
    UnaffectedIpv4,
    /// No replacement applies to an IPv6 packet.
    UnaffectedIpv6,
}

/// The outcome of an IPv4 packet. `applies` states whether a replacement applies to it, or why it is not known.
pub(crate) fn of_ipv4(applies: Result<bool, Reason>) -> Result<Done, Reason>
    ensures { result ≡ outcome_of false applies }
{
    match applies {
        Ok(true) => Ok(Done::TranslatedIpv4),
        Ok(false) => Ok(Done::UnaffectedIpv4),
        Err(reason) => Err(reason),
    }
}

/// The outcome of an IPv6 packet. `applies` states whether a replacement applies to it, or why it is not known.
pub(crate) fn of_ipv6(applies: Result<bool, Reason>) -> Result<Done, Reason>
    ensures { result ≡ outcome_of true applies }
{
    match applies {
        Ok(true) => Ok(Done::TranslatedIpv6),
        Ok(false) => Ok(Done::UnaffectedIpv6),
        Err(reason) => Err(reason),
    }
}
