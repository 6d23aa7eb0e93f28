/// The network protocol of a frame without an IP packet.
#[derive(Clone, Copy, Debug, PartialEq, Eq)]
pub enum NetworkProtocol {
    /// A protocol with this ether type (IEEE 802.3, clause 3.2.6).
    EtherType(u16),
    /// A protocol with this address family in a loopback header.
    AddressFamily(u32),
    /// An unknown protocol in a frame of the link type with this number. Either the link type or the link header is not read. The number is
    /// 104 for SLARP and CDP in Cisco HDLC, and 253 for netlink in a Linux cooked frame.
    LinkType(u16),
    /// An IEEE 802.11 frame whose body is not read. The frame is not a data frame, contains no data, is encrypted, or contains something
    /// other than one whole data unit.
    Ieee80211 {
        /// The Frame Control field (IEEE 802.11, clause 9.2.4.1), its first byte first.
        frame_control: u16,
    },
    /// A frame after a radiotap header that is not read. The version of this header is not 0, or its stated length is below 8.
    Radiotap {
        /// The version of the header.
        version: u8,
        /// The stated length of the header, in bytes.
        len: u16,
    },
    /// A protocol with these service access points in an LLC header (IEEE 802.2).
    Llc {
        /// The service access point of the destination.
        dsap: u8,
        /// The service access point of the source.
        ssap: u8,
    },
    /// A protocol in a SNAP header (RFC 1042) with an organization code other than 0 and 0000F8.
    Snap {
        /// The organization code, three bytes.
        organization_code: u32,
        /// The number of the protocol, assigned by this organization.
        protocol: u16,
    },
    /// A protocol with this number in the Protocol field of PPP (RFC 1661, section 2).
    PppProtocol(u16),
    /// A Frame Relay frame with an address longer than two bytes, or with a control byte other than unnumbered information.
    FrameRelay {
        /// The first three bytes of the frame: an address (ITU-T Q.922, annex A), and the control byte if the address is two bytes long.
        header: u32,
    },
    /// A protocol with this network layer protocol ID in a Frame Relay frame (RFC 2427, section 3), or after an LLC header (ISO/IEC TR
    /// 9577).
    Nlpid(u8),
}
