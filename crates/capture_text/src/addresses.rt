//! The addresses of an IP packet. IPv6 addresses are written in the format of RFC 5952.

ghost use Rattle.std.specs.Prelude.{OnOk};
ghost use Rattle.std.specs.Io.KnownBytes.{Appends};
ghost use Rattle.ip_part.specs.Addresses.{by_value};
ghost use Rattle.capture_text.specs.AddressText.{addresses_text, endpoints_text};

use capture_packet::{destination_of, source_of};
use ip_part::IpAddresses;
use std::io;
use std::io::Write;
use std::net::SocketAddr;

/// Writes the addresses of a packet, for example `192.0.2.1 > 192.0.2.2`. An unknown final destination is the word `unknown`.
pub fn write_addresses<W: Write>(output: &mut W, addresses: IpAddresses<'_>) -> io::Result<()>
    ensures { OnOk result (Appends (W.contents output.old) (W.contents output.new) (addresses_text (by_value addresses.entry))) }
{
    let source = source_of(addresses);
    match destination_of(addresses) {
        Some(destination) => write!(output, "{source} > {destination}"),
        None => write!(output, "{source} > unknown"),
    }
}

/// Writes the addresses of a packet with its ports, for example `192.0.2.1:49152 > 192.0.2.2:53`. An IPv6 address is in brackets. An
/// unknown final destination is the word `unknown`.
pub fn write_endpoints<W: Write>(
    output: &mut W,
    addresses: IpAddresses<'_>,
    source_port: u16,
    destination_port: u16,
) -> io::Result<()>
    ensures { OnOk result (Appends (W.contents output.old) (W.contents output.new)
        (endpoints_text (by_value addresses.entry) source_port destination_port)) }
{
    let source = SocketAddr::new(source_of(addresses), source_port);
    match destination_of(addresses) {
        Some(address) => {
            let destination = SocketAddr::new(address, destination_port);
            write!(output, "{source} > {destination}")
        }
        None => write!(output, "{source} > unknown:{destination_port}"),
    }
}
