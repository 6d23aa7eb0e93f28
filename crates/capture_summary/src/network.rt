ghost use Rattle.std.specs.Prelude.{◌≡◌, ◌↔◌, ◌%◌, ◌/◌, ◌^◌, IsTrue, Some};
ghost use Rattle.capture_summary.specs.Networks.{IsIpv4In, IsIpv6In, ReadsNetwork, ReadsPrefixed, have_same_start, network_error_text, network_of, single_address};

use std::error::Error;
use std::fmt;
use std::net::IpAddr;
use std::str::FromStr;

/// A network: all addresses of one IP version that begin with the same bits as `address`. Only the last `host_bits` bits can differ.
#[derive(Clone, Copy, Debug, PartialEq, Eq)]
pub struct Network {
    /// An address of the network.
    pub address: IpAddr,
    /// The number of bits at the end that can differ. It is 0 for a single address.
    pub host_bits: u32,
}

impl Network {
    /// The network that contains only this address.
    pub fn single(address: IpAddr) -> Network
        ensures { result ≡ single_address address }
    {
        Network {
            address,
            host_bits: 0,
        }
    }

    /// The network of the addresses that begin with the first `prefix_len` bits of this address.
    ///
    /// # Errors
    ///
    /// `PrefixLength` if `prefix_len` is above 32 for IPv4 or above 128 for IPv6, and `HostBits` if a bit after the prefix is 1.
    pub fn new(address: IpAddr, prefix_len: u32) -> Result<Network, NetworkError>
        ensures { result ≡ network_of address prefix_len }
    {
        let (number, bits) = match address {
            IpAddr::V4(ip) => (u128::from(ip.to_bits()), u32::BITS),
            IpAddr::V6(ip) => (ip.to_bits(), u128::BITS),
        };
        if prefix_len > bits {
            return Err(NetworkError::PrefixLength);
        }
        let host_bits = bits - prefix_len;
        if !has_zeros_at_end(number, host_bits) {
            return Err(NetworkError::HostBits);
        }
        Ok(Network { address, host_bits })
    }

    /// Whether the network contains the IPv4 address with these octets.
    pub fn contains_ipv4(&self, octets: &[u8; 4]) -> bool
        ensures { IsTrue result ↔ IsIpv4In octets.now self.now }
    {
        match self.address {
            IpAddr::V4(ip) => has_same_start(
                u128::from(ip.to_bits()),
                u128::from(u32::from_be_bytes(*octets)),
                self.host_bits,
            ),
            IpAddr::V6(_) => false,
        }
    }

    /// Whether the network contains the IPv6 address with these octets.
    pub fn contains_ipv6(&self, octets: &[u8; 16]) -> bool
        ensures { IsTrue result ↔ IsIpv6In octets.now self.now }
    {
        match self.address {
            IpAddr::V4(_) => false,
            IpAddr::V6(ip) => {
                has_same_start(ip.to_bits(), u128::from_be_bytes(*octets), self.host_bits)
            }
        }
    }
}

/// Whether two numbers differ only in their last `host_bits` bits.
fn has_same_start(first: u128, second: u128, host_bits: u32) -> bool
    ensures { result ≡ have_same_start host_bits first second }
{
    start(first, host_bits) == start(second, host_bits)
}

/// The bits of a number, without the last `host_bits` bits.
fn start(number: u128, host_bits: u32) -> u128
    ensures { result ≡ number / 2 ^ host_bits }
{
    match number.checked_shr(host_bits) {
        Some(start) => start,
        None => 0,
    }
}

/// Whether the last `host_bits` bits of a number are 0.
fn has_zeros_at_end(number: u128, host_bits: u32) -> bool
    ensures { IsTrue result ↔ (number % 2 ^ host_bits ≡ 0) }
{
    match 2u128.checked_pow(host_bits) {
        Some(count) => number % count == 0,
        None => number == 0,
    }
}

/// The reason why a text is not a network.
#[derive(Clone, Copy, Debug, PartialEq, Eq)]
pub enum NetworkError {
    /// The text, or its part before `/`, is not an address.
    Address,
    /// The part after `/` is not a number, or is above the number of bits of the address.
    PrefixLength,
    /// The address has bits that are 1 after its prefix.
    HostBits,
}

impl NetworkError {
    /// The text of the error.
    fn text(self) -> &'static str
        ensures { result.now ≡ network_error_text self }
    {
        match self {
            NetworkError::Address => "not an IPv4 or IPv6 address",
            NetworkError::PrefixLength => {
                "the prefix length is not a number from 0 to 32 for IPv4, or to 128 for IPv6"
            }
            NetworkError::HostBits => "the address has bits other than 0 after its prefix",
        }
    }
}

impl fmt::Display for NetworkError {
    ghost output = { λ error. Some (network_error_text error) };

    fn fmt<W: fmt::Write>(&self, f: &mut fmt::Formatter<W>) -> fmt::Result {
        f.write_str(self.text())
    }
}

impl Error for NetworkError {}

impl FromStr for Network {
    type Err = NetworkError;

    ghost from_str_gives = { ReadsNetwork };

    /// Reads an address, or an address, `/` and the length of a prefix: `192.0.2.1`, `10.0.0.0/8` or `2001:db8::/32`.
    fn from_str(text: &str) -> Result<Network, NetworkError> {
        match text.split_once('/') {
            Some((address, prefix_len)) => prefixed(address, prefix_len),
            None => match text.parse::<IpAddr>() {
                Ok(address) => Ok(Network::single(address)),
                Err(_) => Err(NetworkError::Address),
            },
        }
    }
}

/// Reads a network from the texts before and after its slash.
fn prefixed(address: &str, prefix_len: &str) -> Result<Network, NetworkError>
    ensures { ReadsPrefixed address.now prefix_len.now result }
{
    let address = match address.parse::<IpAddr>() {
        Ok(address) => address,
        Err(_) => return Err(NetworkError::Address),
    };
    match prefix_len.parse::<u32>() {
        Ok(prefix_len) => Network::new(address, prefix_len),
        Err(_) => Err(NetworkError::PrefixLength),
    }
}
