ghost use Rattle.std.specs.Prelude.{◌≡◌, drop};
ghost use Rattle.capture_file.specs.Texts as specs;

use crate::packet_comments::COMMENT;
use crate::{ByteOrder, InterfaceStatistics, KeptText, PacketComments};
use arrayvec::ArrayVec;
use capture_numbers::block::{
    ENHANCED_PACKET, INTERFACE_DESCRIPTION, INTERFACE_DESCRIPTION_LEN, OBSOLETE_PACKET,
    SECTION_HEADER, SECTION_HEADER_LEN, SIMPLE_PACKET, TIMED_CAPTURED_AT, TIMED_CAPTURED_LEN_AT,
};
use capture_numbers::option_value;

/// The maximum number of interfaces whose texts are kept, in each section.
pub const MAX_INTERFACES_WITH_TEXTS: usize = 32;

/// The type of an interface statistics block (draft-ietf-opsawg-pcapng, section 4.6).
const INTERFACE_STATISTICS: u32 = 5;

/// The length of the body of an interface statistics block without options: the number of the interface, and a time in two halves.
const INTERFACE_STATISTICS_LEN: usize = 12;

/// The code of the hardware in a section header block (section 4.1).
const SHB_HARDWARE: u16 = 2;

/// The code of the operating system in a section header block.
const SHB_OS: u16 = 3;

/// The code of the application in a section header block.
const SHB_USERAPPL: u16 = 4;

/// The code of the name in an interface description block (section 4.2).
const IF_NAME: u16 = 2;

/// The code of the description in an interface description block.
const IF_DESCRIPTION: u16 = 3;

/// The texts of an interface description block (section 4.2), and the newest statistics of the interface.
#[derive(Clone, Debug, Default, Drop)]
pub struct InterfaceTexts {
    /// The name of the interface: the option `if_name`.
    pub name: KeptText,
    /// The description of the interface: the option `if_description`.
    pub description: KeptText,
    /// The first comment of the block.
    pub comment: KeptText,
    /// The statistics in the last interface statistics block of the interface that was read. They state no number before such a block.
    pub statistics: InterfaceStatistics,
}

impl InterfaceTexts {
    /// The texts among the options of a block.
    fn from_options(order: ByteOrder, options: &[u8]) -> InterfaceTexts
        ensures { result ≡ specs.interface_texts order options.now }
    {
        let text_of = |code| KeptText::new(text_in(order, options, code));
        InterfaceTexts {
            name: text_of(IF_NAME),
            description: text_of(IF_DESCRIPTION),
            comment: text_of(COMMENT),
            statistics: InterfaceStatistics::default(),
        }
    }
}

/// The texts of the section that is read, the comments of the packet that was read last, and the number of packets with a comment.
#[derive(Clone, Debug, Default, Drop)]
pub struct FileTexts {
    /// The first comment of the section header block.
    pub comment: KeptText,
    /// The hardware that the section was written on: the option `shb_hardware` (section 4.1).
    pub hardware: KeptText,
    /// The operating system that the section was written on: the option `shb_os`.
    pub operating_system: KeptText,
    /// The application that wrote the section: the option `shb_userappl`.
    pub application: KeptText,
    /// The texts of the first interfaces of the section, in their order.
    pub interfaces: ArrayVec<InterfaceTexts, MAX_INTERFACES_WITH_TEXTS>,
    /// The comments of the packet in the last packet block that was read. A packet of a simple packet block has no comment.
    pub packet_comments: PacketComments,
    /// The number of packets with a comment, in all sections of the file, up to 2^64 - 1.
    pub commented_packets: u64,
}

impl FileTexts {
    /// The texts before the first block of a file: all of them are empty, and no packet is counted.
    pub fn new() -> FileTexts
        ensures { result ≡ specs.no_texts }
    {
        FileTexts::default()
    }

    /// Updates the texts with the next block, which has this type and body. `order` is the byte order of the block's section.
    pub fn note(&mut self, order: ByteOrder, block_type: u32, body: &[u8])
        ensures { self.new ≡ specs.texts_after order block_type body.now self.old }
    {
        match block_type {
            SECTION_HEADER => self.begin_section(order, after(body, SECTION_HEADER_LEN)),
            INTERFACE_DESCRIPTION => self.add_interface(
                order,
                after(body, INTERFACE_DESCRIPTION_LEN),
            ),
            INTERFACE_STATISTICS => self.add_statistics(order, body),
            ENHANCED_PACKET | OBSOLETE_PACKET => {
                self.add_packet(order, packet_options(order, body))
            }
            SIMPLE_PACKET => self.packet_comments = PacketComments::new(),
            _ => {}
        }
    }

    /// Begins a section whose header block has these options.
    fn begin_section(&mut self, order: ByteOrder, options: &[u8])
        ensures { self.new ≡ specs.section_begun order options.now self.old }
    {
        let text_of = |code| KeptText::new(text_in(order, options, code));
        self.comment = text_of(COMMENT);
        self.hardware = text_of(SHB_HARDWARE);
        self.operating_system = text_of(SHB_OS);
        self.application = text_of(SHB_USERAPPL);
        self.interfaces.clear();
    }

    /// Adds the texts of an interface whose block has these options, if there is room for them.
    fn add_interface(&mut self, order: ByteOrder, options: &[u8])
        ensures { self.new ≡ specs.interface_added order options.now self.old }
    {
        if !self.interfaces.is_full() {
            let texts = InterfaceTexts::from_options(order, options);
            self.interfaces.push(texts);
        }
    }

    /// Replaces the statistics of the interface that an interface statistics block with this body states. Nothing changes if the body is
    /// too short, or if there are no texts of the interface.
    fn add_statistics(&mut self, order: ByteOrder, body: &[u8])
        ensures { self.new ≡ specs.statistics_added order body.now self.old }
    {
        if body.len() < INTERFACE_STATISTICS_LEN {
            return;
        }
        let statistics = InterfaceStatistics::from_options(
            order,
            after(body, INTERFACE_STATISTICS_LEN),
        );
        if let Some(texts) = self.interfaces.get_mut(order.number_in(body, 0) as usize) {
            texts.statistics = statistics;
        }
    }

    /// Keeps the comments among the options of a packet block, and counts its packet if the block has a comment.
    fn add_packet(&mut self, order: ByteOrder, options: &[u8])
        ensures { self.new ≡ specs.packet_added order options.now self.old }
    {
        self.packet_comments = PacketComments::from_options(order, options);
        if !self.packet_comments.texts.is_empty() {
            self.commented_packets = self.commented_packets.saturating_add(1);
        }
    }
}

/// The options of an enhanced or obsolete packet block with this body. The options follow the captured bytes, which are padded to a multiple
/// of four bytes.
fn packet_options(order: ByteOrder, body: &[u8]) -> &[u8]
    ensures { result.now ≡ specs.packet_options order body.now }
{
    if body.len() <= TIMED_CAPTURED_AT {
        return &[];
    }
    let captured_len = order.number_in(body, TIMED_CAPTURED_LEN_AT) as usize;
    after(body, TIMED_CAPTURED_AT + (captured_len + 3) / 4 * 4)
}

/// The text in the first option with this code. The text is empty if no option has this code.
fn text_in(order: ByteOrder, options: &[u8], code: u16) -> &[u8]
    ensures { result.now ≡ specs.text_in order code options.now }
{
    match option_value(order, options, code, None) {
        Some(text) => text,
        None => &[],
    }
}

/// The bytes after the first `len` bytes. The result is empty if `bytes` has at most `len` bytes.
fn after(bytes: &[u8], len: usize) -> &[u8]
    ensures { result.now ≡ drop len bytes.now }
{
    if bytes.len() <= len {
        return &[];
    }
    &bytes[len..]
}
