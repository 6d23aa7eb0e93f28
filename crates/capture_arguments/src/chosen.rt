//! The choice of packets that the arguments give.

ghost use Rattle.std.specs.Prelude.{◌≡◌, ◌≤◌, ◌<◌, ◌++◌, ◌∷◌, [], Bool, Err, IfErr, IfOk, IfSome, MatchOption, OnErr, OnOk, codes, length, map, option_map, string_bytes};
ghost use Rattle.std.specs.List.{flat_map};
ghost use Rattle.capture_arguments.specs.Chosen.{AreNoAddresses, AreNoBounds, AreNoHosts, AreNoPorts, AreNoProtocols, AreNoTimes, AreRead, HasAddressesOf, HasTimesOf, HaveAddresses, IsChoiceOf, IsFirstWrong, IsNoPort, IsNoProtocol, IsNoRange, IsNoSingle, IsNoTime, IsRefusal, IsSingle, IsTimeOf, ReadsBounds, ReadsHost, ReadsPlaces, ReadsPort, ReadsProtocol, ReadsRange, bounds_in, choice_text, items_in, list_items};
ghost use Rattle.capture_arguments.specs.Arguments.{HasFlag, values_of};
ghost use Rattle.capture_summary.specs.Networks.{ReadsNetwork};
ghost use Rattle.clap.specs.Words.{first_value, found_of};

use crate::date_time::time_in;
use crate::memory::Memory;
use crate::names::protocol_named;
use capture_request::Choice;
use capture_summary::{
    Hosts, MAX_CHOSEN, Network, NetworkError, PortRange, Ports, Protocols, TimeRange,
};
use clap::ArgMatches;
use std::alloc::AllocError;

/// Why matches of clap give no choice of packets.
#[derive(Clone, Copy)]
pub enum ChoiceError<'a> {
    /// A value of the option with this name is neither an address nor a network. The variant contains the name, the value and the reason.
    Host(&'static str, &'a str, NetworkError),
    /// A value of the option with this name is neither a port nor a range of ports. The variant contains the name and the value.
    Port(&'static str, &'a str),
    /// This value of the option `protocol` is not the name of a protocol.
    Protocol(&'a str),
    /// The value of the option with this name is not a date and time. The variant contains the name and the value.
    Time(&'static str, &'a str),
    /// More values than `MAX_CHOSEN` are given for the option with this name.
    TooMany(&'static str),
}

/// The items of the options for ports, in their order.
#[derive(Drop)]
pub struct PortItems<'a> {
    /// The ports that choose packets.
    pub chosen: Vec<&'a str>,
    /// The ports whose packets are left out.
    pub others: Vec<&'a str>,
}

/// The items of the options for ports in these matches. Each value of these options is a list with commas.
pub fn port_items<'a, M: Memory>(
    memory: &M,
    matches: &ArgMatches<'a>,
) -> Result<PortItems<'a>, AllocError>
    ensures chosen { IfOk result (λ items. map (λ item. item.now) items.chosen.items ≡ items_in matches.now (codes "port")) }
    ensures others { IfOk result (λ items. map (λ item. item.now) items.others.items ≡ items_in matches.now (codes "not-port")) }
    ensures ran_out { OnErr result (M.ran_out memory.now) }
{
    let chosen = items_of(memory, matches.get_strs("port").unwrap_or(&[]))?;
    let others = items_of(memory, matches.get_strs("not-port").unwrap_or(&[]))?;
    Ok(PortItems { chosen, others })
}

/// The items of these lists, in their order.
fn items_of<'a, M: Memory>(memory: &M, lists: &[&'a str]) -> Result<Vec<&'a str>, AllocError>
    ensures items { IfOk result (λ items. map (λ item. item.now) items.items ≡ flat_map list_items (map (λ list. list.now) lists.now)) }
    ensures ran_out { OnErr result (M.ran_out memory.now) }
{
    let mut items = Vec::new(memory.alloc());
    for list in lists {
        add_items(memory, &mut items, list)?;
    }
    Ok(items)
}

/// Adds the items of a list with commas to the end of `items`.
fn add_items<'a, M: Memory>(
    memory: &M,
    items: &mut Vec<&'a str>,
    list: &'a str,
) -> Result<(), AllocError>
    ensures items { OnOk result (map (λ item. item.now) items.new.items ≡ map (λ item. item.now) items.old.items ++ list_items list.now) }
    ensures ran_out { OnErr result (M.ran_out memory.now) }
{
    let mut left = list;
    while let Some((item, others)) = cut_item(left) {
        memory.extend(items, &[item])?;
        left = others;
    }
    memory.extend(items, &[left])
}

/// The first item of a list with commas, and the list of the items after it. `None` if the list contains no comma.
fn cut_item(list: &str) -> Option<(&str, &str)>
    ensures items { MatchOption result (list_items list.now ≡ list.now ∷ []) (λ cut. list_items list.now ≡ cut.0.now ∷ list_items cut.1.now) }
    ensures shorter { IfSome result (λ cut. length cut.1.now < length list.now) }
{
    list.split_once(',')
}

/// The choice of packets in these matches. `ports` are the items of their options for ports.
pub fn choice_of<'a>(
    matches: &ArgMatches<'a>,
    ports: &PortItems<'a>,
) -> Result<Choice, ChoiceError<'a>>
    requires chosen { map (λ item. item.now) ports.now.chosen.items ≡ items_in matches.now (codes "port") }
    requires others { map (λ item. item.now) ports.now.others.items ≡ items_in matches.now (codes "not-port") }
    ensures choice { IfOk result (IsChoiceOf matches.now) }
    ensures refusal { IfErr result (IsRefusal matches.now) }
{
    let addresses = match addresses_of(matches) {
        Ok(addresses) => addresses,
        Err(error) => return Err(error),
    };
    let chosen = match ports_of("port", ports.chosen.as_slice()) {
        Ok(chosen) => chosen,
        Err(error) => return Err(error),
    };
    let others = match ports_of("not-port", ports.others.as_slice()) {
        Ok(others) => others,
        Err(error) => return Err(error),
    };
    let protocols = match protocols_of(matches) {
        Ok(protocols) => protocols,
        Err(error) => return Err(error),
    };
    let time_range = match times_of(matches) {
        Ok(time_range) => time_range,
        Err(error) => return Err(error),
    };
    Ok(Choice {
        ports: chosen,
        other_ports: others,
        protocols,
        udp_tunnels: opens_udp_tunnels(matches),
        time_range,
        ..addresses
    })
}

/// Whether tunnels in UDP are opened.
fn opens_udp_tunnels(matches: &ArgMatches<'_>) -> bool
    ensures { (flag : Bool) → HasFlag matches.now (codes "tunnels") flag → result ≡ flag }
{
    matches.get_flag("tunnels")
}

/// The choice of packets by the addresses in these matches. The choice includes every port and every protocol.
fn addresses_of<'a>(matches: &ArgMatches<'a>) -> Result<Choice, ChoiceError<'a>>
    ensures addresses { IfOk result (HasAddressesOf matches.now) }
    ensures right { IfOk result (λ choice. HaveAddresses matches.now) }
    ensures refusal { IfErr result (AreNoAddresses matches.now) }
{
    let hosts = match hosts_of(matches, "host") {
        Ok(hosts) => hosts,
        Err(error) => return Err(error),
    };
    let sources = match hosts_of(matches, "source") {
        Ok(hosts) => hosts,
        Err(error) => return Err(error),
    };
    let destinations = match hosts_of(matches, "destination") {
        Ok(hosts) => hosts,
        Err(error) => return Err(error),
    };
    let other_hosts = match hosts_of(matches, "not-host") {
        Ok(hosts) => hosts,
        Err(error) => return Err(error),
    };
    Ok(Choice {
        hosts,
        sources,
        destinations,
        other_hosts,
        ..Choice::ALL
    })
}

/// The hosts that are the values of the option with this name, if hosts are given.
fn hosts_of<'a>(
    matches: &ArgMatches<'a>,
    name: &'static str,
) -> Result<Option<Hosts>, ChoiceError<'a>>
    ensures hosts { IfOk result (AreRead ReadsHost (values_of matches.now name.now)) }
    ensures few { IfOk result (λ hosts. length (values_of matches.now name.now) ≤ 16) }
    ensures refusal { IfErr result (AreNoHosts name.now (values_of matches.now name.now)) }
{
    let texts = matches.get_strs(name).unwrap_or(&[]);
    if texts.is_empty() {
        return Ok(None);
    }
    if texts.len() > MAX_CHOSEN {
        return Err(ChoiceError::TooMany(name));
    }
    match hosts_in(texts) {
        Ok(hosts) => Ok(Some(hosts)),
        Err((text, error)) => Err(ChoiceError::Host(name, text, error)),
    }
}

/// The hosts with these texts, in their order. The first text that is not a host is returned with its error.
fn hosts_in<'a>(texts: &[&'a str]) -> Result<Hosts, (&'a str, NetworkError)>
    requires { length texts.now ≤ 16 }
    ensures hosts { IfOk result (ReadsPlaces ReadsHost (map (λ text. text.now) texts.now)) }
    ensures refusal { IfErr result (λ refused.
        IsFirstWrong ReadsHost (λ wrong. ReadsNetwork wrong (Err refused.1)) (map (λ text. text.now) texts.now) refused.0.now) }
{
    let mut hosts = [None; MAX_CHOSEN];
    for (place, text) in texts.iter().enumerate() {
        match text.parse::<Network>() {
            Ok(host) => hosts[place] = Some(host),
            Err(error) => return Err((*text, error)),
        }
    }
    Ok(hosts)
}

/// The ranges of ports with these texts, if there are texts. `name` is the name of their option.
fn ports_of<'a>(name: &'static str, texts: &[&'a str]) -> Result<Option<Ports>, ChoiceError<'a>>
    ensures ports { IfOk result (AreRead ReadsRange (map (λ text. text.now) texts.now)) }
    ensures few { IfOk result (λ ports. length (map (λ text. text.now) texts.now) ≤ 16) }
    ensures refusal { IfErr result (AreNoPorts name.now (map (λ text. text.now) texts.now)) }
{
    if texts.is_empty() {
        return Ok(None);
    }
    if texts.len() > MAX_CHOSEN {
        return Err(ChoiceError::TooMany(name));
    }
    match ports_in(texts) {
        Ok(ports) => Ok(Some(ports)),
        Err(text) => Err(ChoiceError::Port(name, text)),
    }
}

/// The ranges of ports with these texts, in their order. The first text that is neither a port nor a range is returned as the error.
fn ports_in<'a>(texts: &[&'a str]) -> Result<Ports, &'a str>
    requires { length texts.now ≤ 16 }
    ensures ports { IfOk result (ReadsPlaces ReadsRange (map (λ text. text.now) texts.now)) }
    ensures refusal { IfErr result (λ wrong. IsFirstWrong ReadsRange IsNoRange (map (λ text. text.now) texts.now) wrong.now) }
{
    let mut ports = [None; MAX_CHOSEN];
    for (place, text) in texts.iter().enumerate() {
        match range_in(text) {
            Some(range) => ports[place] = Some(range),
            None => return Err(*text),
        }
    }
    Ok(ports)
}

/// The range of ports with this text: a port, or two ports with `-` between them. `None` for any other text.
fn range_in(text: &str) -> Option<PortRange>
    ensures { MatchOption result (IsNoRange text.now) (ReadsRange text.now) }
{
    match bounds_in(text) {
        Some((first, last)) => range_of(first, last),
        None => single_in(text),
    }
}

/// The texts before and after the first `-`, if there is one.
fn bounds_in(text: &str) -> Option<(&str, &str)>
    ensures { option_map (λ bounds. (bounds.0.now, bounds.1.now)) result ≡ bounds_in text.now }
{
    text.split_once('-')
}

/// The range that contains only the port with this text. `None` if the text is not a port.
fn single_in(text: &str) -> Option<PortRange>
    ensures { MatchOption result (IsNoSingle text.now) (IsSingle text.now) }
{
    match port_in(text) {
        Some(port) => Some(PortRange {
            first: port,
            last: port,
        }),
        None => None,
    }
}

/// The range whose first and last ports have these texts. `None` if a text is not a port, or if the first port is greater.
fn range_of(first: &str, last: &str) -> Option<PortRange>
    ensures { MatchOption result (AreNoBounds first.now last.now) (ReadsBounds first.now last.now) }
{
    let least = match port_in(first) {
        Some(port) => port,
        None => return None,
    };
    let greatest = match port_in(last) {
        Some(port) => port,
        None => return None,
    };
    if least > greatest {
        return None;
    }
    Some(PortRange {
        first: least,
        last: greatest,
    })
}

/// The port with this text. `None` if the text is not a port.
fn port_in(text: &str) -> Option<u16>
    ensures { MatchOption result (IsNoPort text.now) (ReadsPort text.now) }
{
    match text.parse::<u16>() {
        Ok(port) => Some(port),
        Err(_) => None,
    }
}

/// The protocols that choose packets, if protocols are given.
fn protocols_of<'a>(matches: &ArgMatches<'a>) -> Result<Option<Protocols>, ChoiceError<'a>>
    ensures protocols { IfOk result (AreRead ReadsProtocol (values_of matches.now (codes "protocol"))) }
    ensures few { IfOk result (λ protocols. length (values_of matches.now (codes "protocol")) ≤ 16) }
    ensures refusal { IfErr result (AreNoProtocols (values_of matches.now (codes "protocol"))) }
{
    let texts = matches.get_strs("protocol").unwrap_or(&[]);
    if texts.is_empty() {
        return Ok(None);
    }
    if texts.len() > MAX_CHOSEN {
        return Err(ChoiceError::TooMany("protocol"));
    }
    match protocols_in(texts) {
        Ok(protocols) => Ok(Some(protocols)),
        Err(text) => Err(ChoiceError::Protocol(text)),
    }
}

/// The protocols with these names, in their order. The first text that is not a name is returned as the error.
fn protocols_in<'a>(texts: &[&'a str]) -> Result<Protocols, &'a str>
    requires { length texts.now ≤ 16 }
    ensures protocols { IfOk result (ReadsPlaces ReadsProtocol (map (λ text. text.now) texts.now)) }
    ensures refusal { IfErr result (λ wrong. IsFirstWrong ReadsProtocol IsNoProtocol (map (λ text. text.now) texts.now) wrong.now) }
{
    let mut protocols = [None; MAX_CHOSEN];
    for (place, text) in texts.iter().enumerate() {
        match protocol_named(text) {
            Some(protocol) => protocols[place] = Some(protocol),
            None => return Err(*text),
        }
    }
    Ok(protocols)
}

/// The range of times of the packets that are chosen.
fn times_of<'a>(matches: &ArgMatches<'a>) -> Result<TimeRange, ChoiceError<'a>>
    ensures times { IfOk result (HasTimesOf matches.now) }
    ensures refusal { IfErr result (AreNoTimes matches.now) }
{
    let from = match time_of(matches, "from") {
        Ok(from) => from,
        Err(error) => return Err(error),
    };
    let to = match time_of(matches, "to") {
        Ok(to) => to,
        Err(error) => return Err(error),
    };
    Ok(TimeRange { from, to })
}

/// The time that is the value of the option with this name, if a time is given.
fn time_of<'a>(
    matches: &ArgMatches<'a>,
    name: &'static str,
) -> Result<Option<u128>, ChoiceError<'a>>
    ensures time { IfOk result (IsTimeOf (first_value (found_of matches.now) name.now)) }
    ensures refusal { IfErr result (IsNoTime name.now (first_value (found_of matches.now) name.now)) }
{
    let Some(text) = matches.get_str(name) else {
        return Ok(None);
    };
    match time_in(text) {
        Some(time) => Ok(Some(time)),
        None => Err(ChoiceError::Time(name, text)),
    }
}

/// The message about a wrong choice of packets.
pub fn choice_text<M: Memory>(memory: &M, error: ChoiceError<'_>) -> Result<String, AllocError>
    ensures text { IfOk result (λ text. string_bytes text ≡ choice_text error.entry) }
    ensures ran_out { OnErr result (M.ran_out memory.now) }
{
    match error {
        ChoiceError::Host(name, text, error) => memory.text(format_args!(
            "invalid value '{text}' for '--{name} <ADDRESS>': {error}"
        )),
        ChoiceError::Port(name, text) => memory.text(format_args!(
            "invalid value '{text}' for '--{name} <N>': not a number from 0 to 65535, and no range such as 8000-8100"
        )),
        ChoiceError::Protocol(text) => memory.text(format_args!(
            "invalid value '{text}' for '--protocol <NAME>': not the name of a protocol in the table `protocol` of the summary"
        )),
        ChoiceError::Time(name, text) => memory.text(format_args!(
            "invalid value '{text}' for '--{name} <TIME>': not a date and time such as 2023-11-14T22:13:20Z"
        )),
        ChoiceError::TooMany(name) => memory.text(format_args!(
            "'--{name}' is given more than {MAX_CHOSEN} values"
        )),
    }
}
