ghost use Rattle.std.specs.Prelude.{◌↔◌, IfSome, IsTrue};
ghost use Rattle.ip_part.specs.Addresses.{by_value};
ghost use Rattle.capture_summary.specs.Choice.{HasAny, HasChosenAddresses, HasChosenContent, HasHost, HasNone, HasPort, HasTunnelEnd, IsChosen, IsDestination, IsFrom, IsInRange, IsOfProtocol, IsPortOf, IsSource, IsSourceOrDestination, IsTo, MatchesHost, MatchesOn, QuotesHost, QuotesPort};
ghost use Rattle.capture_summary.specs.declared.choice.Side.TheVariants as Side;
ghost use Rattle.capture_packet.specs.Quotes.{quoted_in};
ghost use Rattle.capture_summary.specs.FlowOf.{ports_of};

use crate::packet_flow::ports;
use crate::{FlowProtocol, Network, Protocol, TimeRange};
use capture_file::PacketTime;
use capture_packet::{Content, Packet, Transport, Tunnel};
use ip_part::IpAddresses;

/// The greatest number of values in a field of a choice.
pub const MAX_CHOSEN: usize = 16;

/// At most `MAX_CHOSEN` hosts. Empty places are ignored.
pub type Hosts = [Option<Network>; MAX_CHOSEN];

/// At most `MAX_CHOSEN` ranges of ports. Empty places are ignored.
pub type Ports = [Option<PortRange>; MAX_CHOSEN];

/// At most `MAX_CHOSEN` protocols. Empty places are ignored.
pub type Protocols = [Option<ChosenProtocol>; MAX_CHOSEN];

/// The packets that are chosen. A packet is chosen if it matches every field that is set.
#[derive(Clone, Copy, Debug, PartialEq, Eq)]
pub struct Choice {
    /// If set, only packets from or to one of these networks are chosen. An ICMP error is also chosen if it quotes a packet from or to one
    /// of the networks. A packet in tunnels is also chosen if the outer packet of one of the tunnels is from or to one of the networks.
    pub hosts: Option<Hosts>,
    /// If set, only packets from one of these networks are chosen. Quoted packets and tunnels are not compared.
    pub sources: Option<Hosts>,
    /// If set, only packets to one of these networks are chosen. Quoted packets and tunnels are not compared.
    pub destinations: Option<Hosts>,
    /// If set, the packets that `hosts` with these networks would choose are left out.
    pub other_hosts: Option<Hosts>,
    /// If set, only packets from or to one of these ports are chosen. An ICMP error is also chosen if it quotes a packet from or to one of
    /// the ports.
    pub ports: Option<Ports>,
    /// If set, packets from or to one of these ports are left out, and so is each ICMP error that quotes such a packet.
    pub other_ports: Option<Ports>,
    /// If set, only packets of these protocols are chosen.
    pub protocols: Option<Protocols>,
    /// Whether tunnels in UDP are opened before packets are compared. Then the packet in the tunnel is compared with the other fields.
    pub udp_tunnels: bool,
    /// Only packets with a time in this range are chosen.
    pub time_range: TimeRange,
}

impl Choice {
    /// The choice of all packets. Tunnels in UDP are not opened.
    pub const ALL: Choice = Choice {
        hosts: None,
        sources: None,
        destinations: None,
        other_hosts: None,
        ports: None,
        other_ports: None,
        protocols: None,
        udp_tunnels: false,
        time_range: TimeRange::ALL,
    };

    /// Whether this packet is chosen. `time` is its time, or `None` if the time is unknown. A packet without addresses matches no host, and a packet without ports matches no port. If the final
    /// destination is not known, only the source is compared with the hosts. The description of each field states whether quoted packets
    /// and tunnels are also compared. An ICMP error does not match the protocol of the packet that it quotes.
    pub fn includes(&self, packet: &Packet<'_>, time: Option<PacketTime>) -> bool
        ensures { IsTrue result ↔ IsChosen self.now packet.now time }
    {
        self.time_range.includes(time)
            && self.includes_addresses(packet)
            && self.includes_content(&packet.content)
    }

    /// Whether a packet matches the fields about addresses.
    fn includes_addresses(&self, packet: &Packet<'_>) -> bool
        ensures { IsTrue result ↔ HasChosenAddresses self.now packet.now }
    {
        includes_hosts(&self.hosts, Side::Either, packet)
            && includes_hosts(&self.sources, Side::Source, packet)
            && includes_hosts(&self.destinations, Side::Destination, packet)
            && lacks_hosts(&self.other_hosts, packet)
    }

    /// Whether a packet matches the fields about ports and protocols.
    fn includes_content(&self, content: &Content<'_>) -> bool
        ensures { IsTrue result ↔ HasChosenContent self.now content.now }
    {
        includes_ports(&self.ports, content)
            && lacks_ports(&self.other_ports, content)
            && includes_protocols(&self.protocols, content)
    }
}

/// Which addresses of a packet are compared with a host.
#[derive(Clone, Copy, Debug, PartialEq, Eq)]
pub(crate) enum Side {
    /// The source and the final destination of the packet and of a quoted packet, and the ends of tunnels.
    Either,
    /// The source.
    Source,
    /// The final destination.
    Destination,
}

/// The ports from `first` to `last`. The range is empty if `first` is above `last`.
#[derive(Clone, Copy, Debug, PartialEq, Eq)]
pub struct PortRange {
    /// The least port.
    pub first: u16,
    /// The greatest port.
    pub last: u16,
}

impl PortRange {
    /// Whether a port is in the range.
    pub fn contains(&self, port: u16) -> bool
        ensures { IsTrue result ↔ IsInRange port self.now }
    {
        self.first <= port && port <= self.last
    }
}

/// A protocol by which packets are chosen.
#[derive(Clone, Copy, Debug, PartialEq, Eq)]
pub enum ChosenProtocol {
    /// A row of the table of protocols.
    One(Protocol),
    /// ICMPv4 and ICMPv6.
    Icmp,
}

impl ChosenProtocol {
    /// Whether a packet with this content is of this protocol.
    fn includes(self, content: &Content<'_>) -> bool
        ensures { IsTrue result ↔ IsOfProtocol content.now self }
    {
        let protocol = Protocol::of(content);
        match self {
            ChosenProtocol::One(chosen) => protocol.place() == chosen.place(),
            ChosenProtocol::Icmp => protocol == Protocol::Icmpv4 || protocol == Protocol::Icmpv6,
        }
    }
}

/// Whether a packet matches one of these hosts on this side. If no hosts are given, this is true.
fn includes_hosts(hosts: &Option<Hosts>, side: Side, packet: &Packet<'_>) -> bool
    ensures { IsTrue result ↔ IfSome hosts.now (HasAny (MatchesOn side packet.now)) }
{
    match hosts {
        Some(hosts) => matches_any_host(hosts.as_slice(), side, packet),
        None => true,
    }
}

/// Whether a packet matches none of these hosts. If no hosts are given, this is true.
fn lacks_hosts(hosts: &Option<Hosts>, packet: &Packet<'_>) -> bool
    ensures { IsTrue result ↔ IfSome hosts.now (HasNone (MatchesOn Side.Either packet.now)) }
{
    match hosts {
        Some(hosts) => !matches_any_host(hosts.as_slice(), Side::Either, packet),
        None => true,
    }
}

/// Whether a packet matches one of these hosts on this side.
fn matches_any_host(hosts: &[Option<Network>], side: Side, packet: &Packet<'_>) -> bool
    ensures { IsTrue result ↔ HasAny (MatchesOn side packet.now) hosts.now }
{
    let mut left = hosts;
    while let [first, others @ ..] = left {
        if let Some(host) = first
            && matches_on(side, packet, host)
        {
            return true;
        }
        left = others;
    }
    false
}

/// Whether a packet matches this host on this side.
fn matches_on(side: Side, packet: &Packet<'_>, host: &Network) -> bool
    ensures { IsTrue result ↔ MatchesOn side packet.now host.now }
{
    match side {
        Side::Either => matches_host(packet, host),
        Side::Source => is_from(&packet.content, host),
        Side::Destination => is_to(&packet.content, host),
    }
}

/// Whether a packet is from this host.
fn is_from(content: &Content<'_>, host: &Network) -> bool
    ensures { IsTrue result ↔ IsFrom content.now host.now }
{
    match content {
        Content::Ip { addresses, .. } | Content::IpHeader(addresses) => is_source(*addresses, host),
        Content::Unread | Content::NotIp(_) => false,
    }
}

/// Whether a packet is to this host.
fn is_to(content: &Content<'_>, host: &Network) -> bool
    ensures { IsTrue result ↔ IsTo content.now host.now }
{
    match content {
        Content::Ip { addresses, .. } | Content::IpHeader(addresses) => {
            is_destination(*addresses, host)
        }
        Content::Unread | Content::NotIp(_) => false,
    }
}

/// Whether the source is in this network.
fn is_source(addresses: IpAddresses<'_>, host: &Network) -> bool
    ensures { IsTrue result ↔ IsSource (by_value addresses.entry) host.now }
{
    match addresses {
        IpAddresses::Ipv4 { source, .. } => host.contains_ipv4(source),
        IpAddresses::Ipv6 { source, .. } => host.contains_ipv6(source),
    }
}

/// Whether the final destination is in this network.
fn is_destination(addresses: IpAddresses<'_>, host: &Network) -> bool
    ensures { IsTrue result ↔ IsDestination (by_value addresses.entry) host.now }
{
    match addresses {
        IpAddresses::Ipv4 { destination, .. } => host.contains_ipv4(destination),
        IpAddresses::Ipv6 {
            destination: Some(destination),
            ..
        } => host.contains_ipv6(destination),
        IpAddresses::Ipv6 {
            destination: None,
            ..
        } => false,
    }
}

/// Whether a packet, or the packet that it quotes, is from or to this host. This is also true if the host is an end of one of the packet's
/// tunnels.
fn matches_host(packet: &Packet<'_>, host: &Network) -> bool
    ensures { IsTrue result ↔ MatchesHost packet.now host.now }
{
    has_host(&packet.content, host) || has_tunnel_end(packet.tunnels.as_slice(), host)
}

/// Whether one of these tunnels has an end in this network.
fn has_tunnel_end(tunnels: &[Tunnel<'_>], host: &Network) -> bool
    ensures { IsTrue result ↔ HasTunnelEnd tunnels.now host.now }
{
    let mut left = tunnels;
    while let [first, others @ ..] = left {
        if is_source_or_destination(first.addresses, host) {
            return true;
        }
        left = others;
    }
    false
}

/// Whether a packet, or the packet that it quotes, is from or to this host.
fn has_host(content: &Content<'_>, host: &Network) -> bool
    ensures { IsTrue result ↔ HasHost content.now host.now }
{
    match content {
        Content::Ip {
            addresses,
            transport,
            ..
        } => is_source_or_destination(*addresses, host) || quotes_host(transport, host),
        Content::IpHeader(addresses) => is_source_or_destination(*addresses, host),
        Content::Unread | Content::NotIp(_) => false,
    }
}

/// Whether a transport is an ICMP error that quotes a packet from or to this host.
fn quotes_host(transport: &Transport<'_>, host: &Network) -> bool
    ensures { IsTrue result ↔ QuotesHost (quoted_in transport.now) host.now }
{
    match transport.quoted_packet() {
        Some(quoted) => is_source_or_destination(quoted.addresses, host),
        None => false,
    }
}

/// Whether the source or the final destination is in this network.
fn is_source_or_destination(addresses: IpAddresses<'_>, host: &Network) -> bool
    ensures { IsTrue result ↔ IsSourceOrDestination (by_value addresses.entry) host.now }
{
    is_source(addresses, host) || is_destination(addresses, host)
}

/// Whether a packet, or the packet that it quotes, is from or to one of these ports. If no ports are given, this is true.
fn includes_ports(ports: &Option<Ports>, content: &Content<'_>) -> bool
    ensures { IsTrue result ↔ IfSome ports.now (HasAny (HasPort content.now)) }
{
    match ports {
        Some(ports) => has_any_port(ports.as_slice(), content),
        None => true,
    }
}

/// Whether neither a packet nor the packet that it quotes is from or to one of these ports. If no ports are given, this is true.
fn lacks_ports(ports: &Option<Ports>, content: &Content<'_>) -> bool
    ensures { IsTrue result ↔ IfSome ports.now (HasNone (HasPort content.now)) }
{
    match ports {
        Some(ports) => !has_any_port(ports.as_slice(), content),
        None => true,
    }
}

/// Whether a packet, or the packet that it quotes, is from or to one of these ports.
fn has_any_port(ports: &[Option<PortRange>], content: &Content<'_>) -> bool
    ensures { IsTrue result ↔ HasAny (HasPort content.now) ports.now }
{
    let mut left = ports;
    while let [first, others @ ..] = left {
        if let Some(range) = first
            && has_port(content, range)
        {
            return true;
        }
        left = others;
    }
    false
}

/// Whether a packet, or the packet that it quotes, is from or to a port in this range.
fn has_port(content: &Content<'_>, range: &PortRange) -> bool
    ensures { IsTrue result ↔ HasPort content.now range.now }
{
    match content {
        Content::Ip {
            proto,
            transport,
            ..
        } => is_port_of(ports(*proto, transport), range) || quotes_port(transport, range),
        Content::Unread | Content::IpHeader(_) | Content::NotIp(_) => false,
    }
}

/// Whether the source port or the destination port is in a range.
fn is_port_of(ports: Option<(FlowProtocol, u16, u16)>, range: &PortRange) -> bool
    ensures { IsTrue result ↔ IsPortOf ports range.now }
{
    match ports {
        Some((_, source, destination)) => range.contains(source) || range.contains(destination),
        None => false,
    }
}

/// Whether a transport is an ICMP error that quotes a packet from or to a port in this range.
fn quotes_port(transport: &Transport<'_>, range: &PortRange) -> bool
    ensures { IsTrue result ↔ QuotesPort (quoted_in transport.now) range.now }
{
    let Some(quoted) = transport.quoted_packet() else {
        return false;
    };
    match quoted.ports {
        Some((source, destination)) => range.contains(source) || range.contains(destination),
        None => false,
    }
}

/// Whether a packet is of one of these protocols. If no protocols are given, this is true.
fn includes_protocols(protocols: &Option<Protocols>, content: &Content<'_>) -> bool
    ensures { IsTrue result ↔ IfSome protocols.now (HasAny (IsOfProtocol content.now)) }
{
    match protocols {
        Some(protocols) => has_any_protocol(protocols.as_slice(), content),
        None => true,
    }
}

/// Whether a packet is of one of these protocols.
fn has_any_protocol(protocols: &[Option<ChosenProtocol>], content: &Content<'_>) -> bool
    ensures { IsTrue result ↔ HasAny (IsOfProtocol content.now) protocols.now }
{
    let mut left = protocols;
    while let [first, others @ ..] = left {
        if let Some(chosen) = first
            && chosen.includes(content)
        {
            return true;
        }
        left = others;
    }
    false
}
