use thiserror::Error;

/// Why a text is not a replacement.
#[derive(Clone, Copy, Debug, PartialEq, Eq, Error)]
pub enum ReplacementError {
    /// The text contains no `=`.
    #[error("it is not of the form OLD=NEW")]
    Form,
    /// The text of an address is not an IPv4 or IPv6 address.
    #[error("a part before a prefix length is not an IPv4 or IPv6 address")]
    Address,
    /// A prefix length is not a number, or is above the number of bits of the address.
    #[error("a prefix length is not a number from 0 to 32 for IPv4, or to 128 for IPv6")]
    PrefixLength,
    /// An address has a bit that is 1 after its prefix.
    #[error("an address has bits other than 0 after its prefix")]
    HostBits,
    /// One network is an IPv4 network, and the other an IPv6 network.
    #[error("the networks have different IP versions")]
    Versions,
    /// The new prefix is shorter than the old prefix. The new addresses would keep bits of the old network.
    #[error("the new prefix is shorter than the old prefix, and would keep bits of the old network")]
    ShorterPrefix,
    /// The text of a port is not a number from 0 to 65535.
    #[error("a port is not a number from 0 to 65535")]
    Port,
}
