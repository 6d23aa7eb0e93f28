//! The fields of a fragment.

ghost use Rattle.std.specs.Prelude.{◌≡◌, OnOk};
ghost use Rattle.capture_json.specs.JsonPacket.{fragment_content, fragment_members};
ghost use Rattle.capture_json.specs.JsonPacket as specs;
ghost use Rattle.capture_json.specs.Tokens.{tokens_in, with_members};

use crate::Line;
use capture_packet::{FragmentFields, Identification};
use std::alloc::AllocError;

/// Writes an object with the fields of a fragment. Writes nothing if there is no fragment.
pub fn put_fragment(line: &mut Line, fragment: Option<FragmentFields>) -> Result<(), AllocError>
    ensures { OnOk result (tokens_in line.new ≡ with_members (fragment_members fragment) (tokens_in line.old)) }
{
    match fragment {
        Some(fragment) => {
            line.begin_object("fragment")?;
            put_fragment_content(line, fragment)?;
            line.end_object()
        }
        None => Ok(()),
    }
}

/// Writes the identification and the offset of a fragment, and whether more fragments follow.
fn put_fragment_content(line: &mut Line, fragment: FragmentFields) -> Result<(), AllocError>
    ensures { OnOk result (tokens_in line.new ≡ with_members (fragment_content fragment) (tokens_in line.old)) }
{
    line.put_number(
        "identification",
        identification_number(fragment.identification),
    )?;
    line.put_number("offset", u64::from(fragment.offset))?;
    line.put_boolean("more_fragments", fragment.more_fragments)
}

/// The number of an identification.
fn identification_number(identification: Identification) -> u64
    ensures { result ≡ specs.identification_number identification }
{
    match identification {
        Identification::Ipv4(number) => u64::from(number),
        Identification::Ipv6(number) => u64::from(number),
    }
}
