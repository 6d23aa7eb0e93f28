//! The protocol of a packet: its number and its name.

ghost use Rattle.std.specs.Prelude.{◌≡◌, OnOk};
ghost use Rattle.std.specs.Option.{option_map};
ghost use Rattle.capture_json.specs.JsonPacket.{ip_protocol_members, name_members};
ghost use Rattle.capture_json.specs.Tokens.{tokens_in, with_members};

use crate::Line;
use capture_summary::ip_protocol_name;
use ip_part::Proto;
use net_base::IpNumber;
use std::alloc::AllocError;

/// Writes the number of a protocol over IP, and its name if it has a name.
pub fn put_ip_protocol(
    line: &mut Line,
    protocol: IpNumber,
    proto: Option<Proto>,
) -> Result<(), AllocError>
    ensures { OnOk result (tokens_in line.new ≡ with_members (ip_protocol_members protocol.0 proto) (tokens_in line.old)) }
{
    line.put_number("protocol", u64::from(protocol.0))?;
    put_name(line, ip_protocol_name(protocol, proto))
}

/// Writes the name of a protocol, if it has a name.
pub fn put_name(line: &mut Line, name: Option<&str>) -> Result<(), AllocError>
    ensures { OnOk result (tokens_in line.new ≡ with_members (name_members (option_map (λ text. text.now) name.entry)) (tokens_in line.old)) }
{
    match name {
        Some(name) => line.put_text("protocol_name", name),
        None => Ok(()),
    }
}
