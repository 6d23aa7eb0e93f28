//! Replacements as texts: two networks or two ports, separated by `=`.

ghost use Rattle.std.specs.Prelude.{◌≡◌};
ghost use Rattle.translator.specs.ReplacementTexts.{ReadsHostBits, ReadsNetwork, ReadsNetworkReplacement, ReadsNetworks, ReadsPort, ReadsPortReplacement, ReadsPorts, ReadsPrefixed, replacement_of};

use crate::network::Network;
use crate::replacement_error::ReplacementError;
use crate::replacements::{NetworkReplacement, PortReplacement, Replacements};
use std::alloc::AllocError;
use std::net::IpAddr;

/// A network that was read from a text, and what its text states.
#[derive(Clone, Copy)]
struct NetworkText {
    network: Network,
    /// Whether the network is an IPv6 network.
    is_ipv6: bool,
    /// The number of bits after the prefix.
    host_bits: u32,
}

/// Reads a replacement of a network from its text. Also returns whether the networks are IPv6 networks.
///
/// # Errors
///
/// The reason why the text is not a replacement of a network.
pub(crate) fn network_replacement(
    text: &str,
) -> Result<(NetworkReplacement, bool), ReplacementError>
    ensures reads { ReadsNetworkReplacement text.now result }
{
    match text.split_once('=') {
        Some((old, new)) => networks(old, new),
        None => Err(ReplacementError::Form),
    }
}

/// The replacement of the network with the first text by the network with the second text.
fn networks(old: &str, new: &str) -> Result<(NetworkReplacement, bool), ReplacementError>
    ensures { ReadsNetworks old.now new.now result }
{
    let old = network(old)?;
    let new = network(new)?;
    replacement_of(&old, &new)
}

/// The replacement of the first network by the second network.
fn replacement_of(
    old: &NetworkText,
    new: &NetworkText,
) -> Result<(NetworkReplacement, bool), ReplacementError>
    ensures { result ≡ replacement_of old.now new.now }
{
    if old.is_ipv6 != new.is_ipv6 {
        return Err(ReplacementError::Versions);
    }
    if new.host_bits > old.host_bits {
        return Err(ReplacementError::ShorterPrefix);
    }
    let replacement = NetworkReplacement {
        old: old.network,
        new: new.network,
    };
    Ok((replacement, old.is_ipv6))
}

/// Reads a network: an address, `/` and the length of the prefix. An address without a length is a network of one address.
fn network(text: &str) -> Result<NetworkText, ReplacementError>
    ensures { ReadsNetwork text.now result }
{
    match text.split_once('/') {
        Some((address, prefix_len)) => prefixed(address, prefix_len),
        None => match text.parse::<IpAddr>() {
            Ok(address) => network_of(address, 0),
            Err(_) => Err(ReplacementError::Address),
        },
    }
}

/// Reads a network from the texts before and after its slash.
fn prefixed(address: &str, prefix_len: &str) -> Result<NetworkText, ReplacementError>
    ensures { ReadsPrefixed address.now prefix_len.now result }
{
    let address = match address.parse::<IpAddr>() {
        Ok(address) => address,
        Err(_) => return Err(ReplacementError::Address),
    };
    let prefix_len = match prefix_len.parse::<u32>() {
        Ok(prefix_len) => prefix_len,
        Err(_) => return Err(ReplacementError::PrefixLength),
    };
    let bits = if address.is_ipv6() { 128 } else { 32 };
    if prefix_len > bits {
        return Err(ReplacementError::PrefixLength);
    }
    network_of(address, bits - prefix_len)
}

/// The network that begins at this address and has this number of host bits.
fn network_of(address: IpAddr, host_bits: u32) -> Result<NetworkText, ReplacementError>
    ensures { ReadsHostBits address host_bits result }
{
    let (number, is_ipv6) = match address {
        IpAddr::V4(ip) => (u128::from(ip.to_bits()), false),
        IpAddr::V6(ip) => (ip.to_bits(), true),
    };
    match Network::new(number, host_bits) {
        Some(network) => Ok(NetworkText {
            network,
            is_ipv6,
            host_bits,
        }),
        None => Err(ReplacementError::HostBits),
    }
}

/// Reads a replacement of a port from its text.
///
/// # Errors
///
/// The reason why the text is not a replacement of a port.
pub(crate) fn port_replacement(text: &str) -> Result<PortReplacement, ReplacementError>
    ensures reads { ReadsPortReplacement text.now result }
{
    match text.split_once('=') {
        Some((old, new)) => ports(old, new),
        None => Err(ReplacementError::Form),
    }
}

/// The replacement of the port with the first text by the port with the second text.
fn ports(old: &str, new: &str) -> Result<PortReplacement, ReplacementError>
    ensures { ReadsPorts old.now new.now result }
{
    let old = port(old)?;
    let new = port(new)?;
    Ok(PortReplacement { old, new })
}

/// Reads a port from its text.
fn port(text: &str) -> Result<u16, ReplacementError>
    ensures { ReadsPort text.now result }
{
    match text.parse::<u16>() {
        Ok(port) => Ok(port),
        Err(_) => Err(ReplacementError::Port),
    }
}
