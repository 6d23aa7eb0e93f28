ghost use Rattle.std.specs.Prelude.{◌≡◌, IfOk};
ghost use Rattle.net_base.specs.Refusals.{RefusesExactly};
ghost use Rattle.capture_file.specs.PcapngBodies.{interface_description, interface_refusal};

use crate::ByteOrder;
use crate::pcapng::{BodyError, TimeResolution};
use capture_numbers::block::INTERFACE_DESCRIPTION_LEN;
use capture_numbers::option_value;

/// The code of the option `if_tsresol`, whose value has one byte (draft-ietf-opsawg-pcapng, section 4.2).
const IF_TSRESOL: u16 = 9;

/// The code of the option `if_tsoffset`, whose value is a number of eight bytes (section 4.2).
const IF_TSOFFSET: u16 = 14;

/// An interface description block (draft-ietf-opsawg-pcapng, section 4.2). The interfaces of a section are numbered from 0.
#[derive(Clone, Copy, Debug, Default, PartialEq, Eq)]
pub struct InterfaceDescription {
    /// The number of the packets' link type. `LinkType::from_number` returns the link type, if it is read.
    pub link_type: u16,
    /// The maximum number of captured bytes of a packet, or 0 if this number is not limited.
    pub snap_len: u32,
    /// The unit of the timestamps: microseconds, unless the option `if_tsresol` states another unit.
    pub time_resolution: TimeResolution,
    /// The number of seconds to add to each timestamp: 0, unless the option `if_tsoffset` states another number.
    pub time_offset: i64,
}

impl InterfaceDescription {
    /// The length of the body without options, in bytes: link type, two reserved bytes, and snap length.
    pub const LEN: usize = INTERFACE_DESCRIPTION_LEN;

    /// Reads the body of an interface description block. Two of its options are used: the first `if_tsresol` with a value of one byte, and
    /// the first `if_tsoffset` with a value of eight bytes.
    ///
    /// # Errors
    ///
    /// `CutOff` if there are fewer than 8 bytes.
    pub fn from_body(order: ByteOrder, body: &[u8]) -> Result<InterfaceDescription, BodyError>
        ensures refused { RefusesExactly result (interface_refusal body.now) }
        ensures read { IfOk result (λ interface. interface ≡ interface_description order body.now) }
    {
        BodyError::check_len(body, InterfaceDescription::LEN)?;
        let options = &body[InterfaceDescription::LEN..];
        let time_resolution = match option_value(order, options, IF_TSRESOL, Some(1)) {
            Some(value) => TimeResolution::from_byte(value[0]),
            None => TimeResolution::default(),
        };
        let time_offset = match option_value(order, options, IF_TSOFFSET, Some(8)) {
            Some(value) => order.long_in(value, 0).cast_signed(),
            None => 0,
        };
        Ok(InterfaceDescription {
            link_type: order.short_in(body, 0),
            snap_len: order.number_in(body, 4),
            time_resolution,
            time_offset,
        })
    }
}
