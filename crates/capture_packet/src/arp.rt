//! ARP, the Address Resolution Protocol (RFC 826).

ghost use Rattle.std.specs.Prelude.{◌≡◌, ◌≤◌, length};
ghost use Rattle.capture_packet.specs.ArpPackets as specs;

use crate::NetworkProtocol;
use crate::link::ether_type;

/// The ether type of ARP.
const ARP: u16 = 0x0806;

/// The length of the fields before the addresses, in bytes.
const FIELDS_LEN: usize = 8;

/// The hardware type of Ethernet.
const ETHERNET: u16 = 1;

/// The length of an address of Ethernet, in bytes.
const ETHERNET_ADDRESS_LEN: u8 = 6;

/// The length of an IPv4 address, in bytes.
const IPV4_ADDRESS_LEN: u8 = 4;

/// An ARP packet, as far as it can be read.
#[derive(Clone, Copy, Debug, PartialEq, Eq)]
pub enum Arp {
    /// The frame ends within the first eight bytes of the packet.
    CutOff,
    /// The operation is read, but no addresses.
    Operation {
        /// The operation: 1 is a request, and 2 is a reply.
        operation: u16,
        /// Whether the frame ends before the end of the packet. If it does not, the hardware type is not 1 with addresses of six bytes, or
        /// the protocol type is not IPv4 with addresses of four bytes.
        is_cut_off: bool,
    },
    /// The operation and the addresses are read.
    Addresses {
        /// The operation: 1 is a request, and 2 is a reply.
        operation: u16,
        /// The addresses of sender and target.
        addresses: ArpAddresses,
    },
}

/// The addresses in an ARP packet about IPv4 addresses in a network such as Ethernet.
#[derive(Clone, Copy, Debug, PartialEq, Eq)]
pub struct ArpAddresses {
    /// The hardware address of the sender: bytes 8 to 13.
    pub sender_hardware: [u8; 6],
    /// The IPv4 address of the sender: bytes 14 to 17.
    pub sender: [u8; 4],
    /// The hardware address of the target: bytes 18 to 23. In a request it has no meaning.
    pub target_hardware: [u8; 6],
    /// The IPv4 address of the target: bytes 24 to 27.
    pub target: [u8; 4],
}

/// The ARP packet in a frame of this protocol. `bytes` follow the link header. `None` if the protocol is not ARP.
pub(crate) fn arp_of(protocol: NetworkProtocol, bytes: &[u8]) -> Option<Arp>
    ensures { result ≡ specs.arp_of protocol bytes.now }
{
    match protocol {
        NetworkProtocol::EtherType(ARP) => Some(arp_packet(bytes)),
        _ => None,
    }
}

/// The ARP packet at the front of these bytes. Padding may follow it.
fn arp_packet(bytes: &[u8]) -> Arp
    ensures { result ≡ specs.arp_packet bytes.now }
{
    if bytes.len() < FIELDS_LEN {
        return Arp::CutOff;
    }
    let operation = u16::from_be_bytes([bytes[6], bytes[7]]);
    let is_cut_off = bytes.len() < packet_len(bytes);
    if is_cut_off || !is_ipv4_over_ethernet(bytes) {
        return Arp::Operation {
            operation,
            is_cut_off,
        };
    }
    Arp::Addresses {
        operation,
        addresses: addresses_in(bytes),
    }
}

/// The length of the packet with these fields, in bytes.
fn packet_len(fields: &[u8]) -> usize
    requires { 8 ≤ length fields.now }
    ensures { result ≡ specs.packet_len fields.now }
{
    FIELDS_LEN + 2 * (usize::from(fields[4]) + usize::from(fields[5]))
}

/// Whether the packet is about IPv4 addresses in a network such as Ethernet.
fn is_ipv4_over_ethernet(fields: &[u8]) -> bool
    requires { 8 ≤ length fields.now }
    ensures { result ≡ specs.is_ipv4_over_ethernet fields.now }
{
    u16::from_be_bytes([fields[0], fields[1]]) == ETHERNET
        && u16::from_be_bytes([fields[2], fields[3]]) == ether_type::IPV4
        && fields[4] == ETHERNET_ADDRESS_LEN
        && fields[5] == IPV4_ADDRESS_LEN
}

/// The addresses in a packet about IPv4 addresses.
fn addresses_in(bytes: &[u8]) -> ArpAddresses
    requires { 28 ≤ length bytes.now }
    ensures { result ≡ specs.addresses_in bytes.now }
{
    ArpAddresses {
        sender_hardware: [
            bytes[8], bytes[9], bytes[10], bytes[11], bytes[12], bytes[13],
        ],
        sender: [bytes[14], bytes[15], bytes[16], bytes[17]],
        target_hardware: [
            bytes[18], bytes[19], bytes[20], bytes[21], bytes[22], bytes[23],
        ],
        target: [bytes[24], bytes[25], bytes[26], bytes[27]],
    }
}
