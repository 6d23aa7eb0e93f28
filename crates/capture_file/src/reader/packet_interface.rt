ghost use Rattle.std.specs.Prelude.{◌≡◌};
ghost use Rattle.capture_file.specs.Interfaces.{interface_in, interface_of, name_in};

use crate::reader::{CaptureReader, CapturedPacket, PcapngReader};
use crate::{InterfaceTexts, KeptText};

/// The interface on which a packet was captured, in a section of a pcapng file that describes several interfaces.
#[derive(Clone, Debug, Drop)]
pub struct PacketInterface {
    /// The number of the interface. A section numbers its interfaces from 0.
    pub number: u32,
    /// The name of the interface: the option `if_name` (draft-ietf-opsawg-pcapng, section 4.2). The name is empty if the interface has no
    /// name, or if the section has `MAX_INTERFACES_WITH_TEXTS` interfaces before this interface.
    pub name: KeptText,
}

impl CaptureReader {
    /// Returns the interface of a packet. The packet must be the packet that was read last, since the interface belongs to the current
    /// section. The result is `None` for a classic capture, and if the section describes only one interface before the packet.
    pub fn interface_of(&self, packet: &CapturedPacket) -> Option<PacketInterface>
        ensures { result ≡ interface_of self.now packet.now.interface }
    {
        match (self, packet.interface) {
            (CaptureReader::Pcapng(reader), Some(number)) => interface_in(reader, number),
            _ => None,
        }
    }
}

/// Returns the interface with this number, or `None` if the section that is read describes only one interface so far.
fn interface_in(reader: &PcapngReader, number: u32) -> Option<PacketInterface>
    ensures { result ≡ interface_in reader.now number }
{
    if reader.section.interfaces.len() <= 1 {
        return None;
    }
    let name = name_in(reader.texts.interfaces.as_slice(), number as usize);
    Some(PacketInterface { number, name })
}

/// Returns the name of the interface with this number. The name is empty if `texts` does not contain the texts of the interface.
fn name_in(texts: &[InterfaceTexts], number: usize) -> KeptText
    ensures { result ≡ name_in texts.now number }
{
    match texts.get(number) {
        Some(texts) => texts.name.copy(),
        None => KeptText::new(&[]),
    }
}
