//! The table of endpoints.

ghost use Rattle.std.specs.Prelude.{◌≡◌, ◌≤◌, ◌++◌, codes, length, IfOk, OnOk};
ghost use Rattle.std.specs.Io.KnownBytes.{Appends};
ghost use Rattle.std.specs.Net.Addr.{IsIpv4Addr, IsIpv6Addr, MatchIp};
ghost use Rattle.std.specs.Net.Text.{ip_text};
ghost use Rattle.capture_text.specs.SummaryText as specs;
ghost use Rattle.capture_text.specs.SummaryText.{endpoints_table};

use crate::tables::{NAME_WIDTH, write_counted};
use arrayvec::ArrayString;
use capture_summary::{Count, EndpointCount};
use std::fmt::Write as _;
use std::io;
use std::io::{ErrorKind, Write};
use std::net::IpAddr;

/// The room for the text of an address, in bytes. The text of an IPv6 address has at most 41 bytes.
const MOST_ADDRESS_LEN: usize = 48;

/// Writes an empty line and the table of the busiest endpoints. Its last rows count the packets without ports, and the packets of
/// conversations for which the summary had no room. No endpoint counts these packets. If there are no endpoints, nothing is written.
///
/// # Errors
///
/// The error of the writer, if writing fails.
pub fn write_endpoints<W: Write>(
    output: &mut W,
    endpoints: &[EndpointCount],
    without_ports: Count,
    without_room: Count,
) -> io::Result<()>
    ensures { OnOk result (Appends (W.contents output.old) (W.contents output.new)
        (endpoints_table endpoints.now without_ports without_room)) }
{
    if endpoints.is_empty() {
        return Ok(());
    }
    let width = endpoint_width(endpoints)?;
    write_endpoints_head(output, "busiest endpoints", width)?;
    for endpoint in endpoints {
        write_endpoint(output, endpoint, width)?;
    }
    write_counted(output, "packets without ports", width, without_ports)?;
    write_counted(output, "packets of other flows", width, without_room)
}

/// The width of the column of addresses: the width of the longest address, and at least the width in the other tables.
fn endpoint_width(endpoints: &[EndpointCount]) -> io::Result<usize>
    ensures { IfOk result (λ width. width ≡ specs.endpoint_width endpoints.now) }
{
    let mut width = NAME_WIDTH;
    for endpoint in endpoints {
        width = width.max(address_text(endpoint.address)?.as_str().len());
    }
    Ok(width)
}

/// Returns the text of an address.
fn address_text(address: IpAddr) -> io::Result<ArrayString<MOST_ADDRESS_LEN>>
    ensures text { IfOk result (λ text. text.bytes ≡ ip_text address) }
    ensures fits { MatchIp address IsIpv4Addr IsIpv6Addr → length (ip_text address) ≤ MOST_ADDRESS_LEN }
{
    let mut text = ArrayString::new();
    match write!(text, "{address}") {
        Ok(()) => Ok(text),
        Err(_) => Err(io::Error::from(ErrorKind::WriteZero)),
    }
}

/// Writes an empty line and the head of the table of endpoints.
fn write_endpoints_head<W: Write>(output: &mut W, title: &str, width: usize) -> io::Result<()>
    ensures { OnOk result (Appends (W.contents output.old) (W.contents output.new)
        (codes "\n" ++ specs.endpoints_head width title.now)) }
{
    writeln!(output, "\n{title:<width$}   packets         bytes")
}

/// Writes the row of an endpoint: its address, and the count of its packets.
fn write_endpoint<W: Write>(
    output: &mut W,
    endpoint: &EndpointCount,
    width: usize,
) -> io::Result<()>
    ensures { OnOk result (Appends (W.contents output.old) (W.contents output.new) (specs.endpoint_row width endpoint.now)) }
{
    let text = address_text(endpoint.address)?;
    let (address, count) = (text.as_str(), endpoint.count);
    writeln!(
        output,
        "{address:<width$} {:>9} {:>13}",
        count.packets, count.bytes
    )
}
