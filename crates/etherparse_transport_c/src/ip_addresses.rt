ghost use Rattle.std.specs.Prelude.{◌≡◌, IfOk, unwrap_or};
ghost use Rattle.net_base.specs.Refusals.{RefusesExactly};
ghost use Rattle.etherparse_transport_c.specs.Errors.{Leaves, status_of, unless_refused};
ghost use Rattle.etherparse_transport_c.specs.IpAddresses as specs;
ghost use Rattle.etherparse_transport_c.specs.IpAddresses.{addresses_in, addresses_of_ipv4, addresses_of_ipv6, refusal};

use crate::answer::{Answer, ErrorPlace, accept, refuse};
use crate::error::{EtherparseError, of_ip};
use crate::ip::ipv4_address;
use crate::ipv4_header::header;
use etherparse_transport::ip::IpError;
use etherparse_transport::{Ipv4HeaderSlice, Ipv6Header, Ipv6HeaderSlice};

/// The addresses of an IP header (RFC 791, section 3.1; RFC 8200, section 3).
#[repr(C)]
#[derive(Clone, Copy)]
pub struct EtherparseIpAddresses {
    /// The version, 4 or 6.
    pub version: u32,
    /// The source. An IPv4 address is in the first four bytes, and the other bytes are 0.
    pub source: [u8; 16],
    /// The destination. An IPv4 address is in the first four bytes, and the other bytes are 0.
    pub destination: [u8; 16],
}

/// Returns the addresses of an IPv4 header.
fn of_ipv4(header: &Ipv4HeaderSlice<'_>) -> EtherparseIpAddresses
    ensures { result ≡ addresses_of_ipv4 header.now }
{
    EtherparseIpAddresses {
        version: 4,
        source: ipv4_address(&header.source()),
        destination: ipv4_address(&header.destination()),
    }
}

/// Returns the addresses of an IPv6 header.
fn of_ipv6(header: &Ipv6HeaderSlice<'_>) -> EtherparseIpAddresses
    ensures { result ≡ addresses_of_ipv6 header.now }
{
    EtherparseIpAddresses {
        version: 6,
        source: header.source(),
        destination: header.destination(),
    }
}

/// Returns the addresses of the IP header at the front of these bytes.
fn addresses(bytes: &[u8]) -> Result<EtherparseIpAddresses, EtherparseError>
    ensures refused { RefusesExactly result (refusal bytes.now) }
    ensures addresses { IfOk result (λ found. found ≡ addresses_in bytes.now) }
{
    if bytes.is_empty() || bytes[0] >> 4 != 6 {
        return match header(bytes) {
            Ok(header) => Ok(of_ipv4(&header)),
            Err(refused) => Err(refused),
        };
    }
    match Ipv6HeaderSlice::from_slice(bytes) {
        Some(header) => Ok(of_ipv6(&header)),
        None => Err(of_ip(&IpError::HeaderCutOff {
            required_len: Ipv6Header::LEN,
            len: bytes.len(),
        })),
    }
}

/// Reads the addresses of the IP header at the front of these bytes (RFC 791, section 3.1; RFC 8200, section 3). Options and extension
/// headers are not read. If the packet has a source route, a routing header or a home address, its checksum may cover other addresses.
/// `etherparse_transport_in_ip` returns the addresses that the checksum covers.
///
/// # Errors
///
/// The status is `OK`, or the first of these that applies:
/// - `IP_HEADER_CUT_OFF` if there are no bytes.
/// - `IP_VERSION` if the version is neither 4 nor 6.
/// - `IP_HEADER_CUT_OFF` if an IPv4 packet has fewer than 20 bytes, or an IPv6 packet fewer than 40 bytes.
/// - `IP_HEADER_LENGTH` if the header length of an IPv4 packet is below 20 bytes.
/// - `IP_HEADER_CUT_OFF` if an IPv4 packet has fewer bytes than its header length states.
#[unsafe(no_mangle)]
pub extern "C" fn etherparse_ip_header_addresses(
    bytes: &[u8],
    found: &mut EtherparseIpAddresses,
    error: ErrorPlace,
) -> Answer
    ensures status { result.status ≡ status_of (refusal bytes.now) }
    ensures error { Leaves error result (unwrap_or (refusal bytes.now) error.before) }
    ensures addresses { found.new ≡ unless_refused (refusal bytes.now) (addresses_in bytes.now) found.old }
{
    match addresses(bytes) {
        Ok(addresses) => {
            *found = addresses;
            accept(error)
        }
        Err(refused) => refuse(error, refused),
    }
}
