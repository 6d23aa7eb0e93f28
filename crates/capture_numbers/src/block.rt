//! The blocks of a pcapng file by their types, and the lengths and places of their fields, in bytes (draft-ietf-opsawg-pcapng).

/// The type of a section header block, which is the same number in both byte orders (section 4.1).
pub const SECTION_HEADER: u32 = 0x0A0D_0D0A;

/// The type of an interface description block (section 4.2).
pub const INTERFACE_DESCRIPTION: u32 = 1;

/// The type of an obsolete packet block (appendix A).
pub const OBSOLETE_PACKET: u32 = 2;

/// The type of a simple packet block (section 4.4).
pub const SIMPLE_PACKET: u32 = 3;

/// The type of an enhanced packet block (section 4.3).
pub const ENHANCED_PACKET: u32 = 6;

/// The place of the body in a block: after the type and the first total length (section 3.1).
pub const BODY_AT: usize = 8;

/// The length of the last field of a block: the total length again (section 3.1).
pub const LAST_LEN: usize = 4;

/// The length of the body of a section header block without options: magic, versions, and the length of the section (section 4.1).
pub const SECTION_HEADER_LEN: usize = 16;

/// The length of the body of an interface description block without options: link type, two reserved bytes, and snap length (section 4.2).
pub const INTERFACE_DESCRIPTION_LEN: usize = 8;

/// The place of the captured bytes in the body of a simple packet block (section 4.4).
pub const SIMPLE_CAPTURED_AT: usize = 4;

/// The place of the captured bytes in the body of an enhanced or obsolete packet block (section 4.3 and appendix A).
pub const TIMED_CAPTURED_AT: usize = 20;

/// The place of the captured length in the body of an enhanced or obsolete packet block.
pub const TIMED_CAPTURED_LEN_AT: usize = 12;
