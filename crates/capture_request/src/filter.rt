//! Names of captures that begin like a filter of tcpdump.

ghost use Rattle.std.specs.Prelude.{◌≡◌};
ghost use Rattle.capture_request.specs.Filters.{first_word, is_filter};

/// The words with which a filter of tcpdump can begin (pcap-filter(7)).
static FILTER_WORDS: [&str; 20] = [
    "tcp",
    "udp",
    "icmp",
    "icmp6",
    "ip",
    "ip6",
    "arp",
    "ether",
    "host",
    "net",
    "port",
    "portrange",
    "src",
    "dst",
    "not",
    "proto",
    "vlan",
    "less",
    "greater",
    "sctp",
];

/// Returns whether the first word of a name is a word with which a filter of tcpdump can begin. Examples are `port` and `tcp port 80`.
pub fn is_filter(name: &str) -> bool
    ensures { result ≡ is_filter name.now }
{
    FILTER_WORDS.contains(&first_word(name))
}

/// Returns the part of a name before its first space, or the whole name if it contains no space.
fn first_word(name: &str) -> &str
    ensures { result.now ≡ first_word name.now }
{
    match name.split_once(' ') {
        Some((word, _)) => word,
        None => name,
    }
}
