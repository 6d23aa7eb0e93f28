//! The addresses of the conversations.

ghost use Rattle.std.specs.Prelude.{◌≡◌, IfOk, OnOk, map};
ghost use Rattle.std.specs.BTreeMap.{IsOrdered};
ghost use Rattle.capture_summary.specs.Endpoints.{AreBusiestEndpoints, address_order, busiest_endpoints, conversation_added, count_added, endpoint_row, sum_of_counts};
ghost use Rattle.capture_summary.specs.Endpoints as specs;

use crate::{ConversationCount, Count, EndpointCount};
use std::alloc::{AllocError, Global};
use std::collections::BTreeMap;
use std::net::IpAddr;

/// The busiest endpoints, as `Flows::endpoints` returns them.
pub(crate) fn busiest(
    alloc: Global,
    rows: &[ConversationCount],
    top: usize,
) -> Result<Vec<EndpointCount>, AllocError>
    ensures busiest { IfOk result (λ endpoints. endpoints.items ≡ busiest_endpoints top rows.now) }
    ensures endpoints { IfOk result (λ endpoints. AreBusiestEndpoints top rows.now endpoints.items) }
{
    in_order(alloc, &address_table(alloc, rows)?, top)
}

/// The busiest endpoints of a table. They are sorted once, so that the time does not grow with the square of their number.
fn in_order(
    alloc: Global,
    table: &BTreeMap<IpAddr, Count>,
    top: usize,
) -> Result<Vec<EndpointCount>, AllocError>
    ensures { IfOk result (λ endpoints. endpoints.items ≡ specs.busiest_in_table top table.now.entries) }
{
    let mut endpoints = by_address(alloc, table)?;
    endpoints.sort_by(|row, other| row.order(other))?;
    endpoints.truncate(top);
    Ok(endpoints)
}

/// The rows of a table as endpoints, in the order of their addresses.
fn by_address(
    alloc: Global,
    table: &BTreeMap<IpAddr, Count>,
) -> Result<Vec<EndpointCount>, AllocError>
    ensures { IfOk result (λ endpoints. endpoints.items ≡ map endpoint_row table.now.entries) }
{
    let mut endpoints = Vec::new(alloc);
    for (address, count) in table.iter() {
        endpoints.push(EndpointCount {
            address: *address,
            count: *count,
        })?;
    }
    Ok(endpoints)
}

/// The counts by address. There are at most two addresses for each conversation.
fn address_table(
    alloc: Global,
    rows: &[ConversationCount],
) -> Result<BTreeMap<IpAddr, Count>, AllocError>
    ensures entries { IfOk result (λ table. table.entries ≡ specs.address_table rows.now) }
    ensures ordered { IfOk result (λ table. IsOrdered address_order table) }
{
    let mut table = BTreeMap::new(alloc);
    for row in rows {
        add_conversation(&mut table, row)?;
    }
    Ok(table)
}

/// Adds the packets of a conversation at its addresses.
fn add_conversation(
    table: &mut BTreeMap<IpAddr, Count>,
    row: &ConversationCount,
) -> Result<(), AllocError>
    ensures entries { OnOk result (table.new.entries ≡ conversation_added table.old.entries row.now) }
    ensures ordered { IsOrdered address_order table.new }
{
    let (source, destination) = (row.flow.source.ip(), row.flow.destination.ip());
    add(table, source, row.both())?;
    if source == destination {
        return Ok(());
    }
    add(table, destination, row.both())
}

/// Adds a count at an address.
fn add(table: &mut BTreeMap<IpAddr, Count>, address: IpAddr, count: Count) -> Result<(), AllocError>
    ensures entries { OnOk result (table.new.entries ≡ count_added address count table.old.entries) }
    ensures ordered { IsOrdered address_order table.new }
{
    let before = match table.get(&address) {
        Some(before) => *before,
        None => Count::NONE,
    };
    match table.insert(address, sum(before, count)) {
        Ok(_) => Ok(()),
        Err(_) => Err(AllocError),
    }
}

/// The sum of two counts. It saturates at `u64::MAX`.
fn sum(count: Count, other: Count) -> Count
    ensures { result ≡ sum_of_counts count other }
{
    Count {
        packets: count.packets.saturating_add(other.packets),
        bytes: count.bytes.saturating_add(other.bytes),
    }
}
