//! The numbers of a capture: byte orders, types of links and blocks, and options (draft-ietf-opsawg-pcapng, sections 3.1, 3.5 and 11.3.1).
//!
//! `ByteOrder` reads the numbers of a capture, `LinkType` is the kind of the frames in a capture, and `option_value` reads an option of a
//! block. Nothing is allocated.
//!
//! ```
//! let order = ByteOrder::BigEndian;
//! let comment = option_value(order, options, COMMENT, None);
//! ```
#![tactic(auto)]

pub mod block;
mod byte_order;
pub mod link_number;
mod link_type;
mod options;

pub use byte_order::ByteOrder;
pub use link_type::LinkType;
pub use options::option_value;
