ghost use Rattle.std.specs.Prelude.{◌≡◌, ◌≤◌, length};
ghost use Rattle.etherparse_transport_c.specs.SiitWords as specs;
ghost use Rattle.etherparse_transport_c.specs.StatusName.{max_status_name_len};
ghost use Rattle.etherparse_transport_c.specs.StatusText.{max_status_text_len};

use crate::joining_words::{joining_status_name, joining_status_text};
use crate::status;

/// Returns the name of a status that begins with `PREFIX`, `SIIT` or `REASSEMBLY`, as the C header spells it.
#[tactic(auto, unfolding(crate::specs::SiitWords::siit_status_name))]
pub(crate) fn siit_status_name(status: u32) -> &'static str
    ensures name { result.now ≡ specs.siit_status_name status }
    ensures fits { length result.now ≤ max_status_name_len }
{
    match status {
        status::PREFIX_LENGTH => "ETHERPARSE_STATUS_PREFIX_LENGTH",
        status::PREFIX_RESERVED_OCTET => "ETHERPARSE_STATUS_PREFIX_RESERVED_OCTET",
        status::PREFIX_SUFFIX => "ETHERPARSE_STATUS_PREFIX_SUFFIX",
        status::SIIT_NO_HEADER => "ETHERPARSE_STATUS_SIIT_NO_HEADER",
        status::SIIT_HEADER_CHECKSUM => "ETHERPARSE_STATUS_SIIT_HEADER_CHECKSUM",
        status::SIIT_FRAGMENT_CHECKSUM => "ETHERPARSE_STATUS_SIIT_FRAGMENT_CHECKSUM",
        status::SIIT_EXTENSION_HEADER => "ETHERPARSE_STATUS_SIIT_EXTENSION_HEADER",
        status::SIIT_PAYLOAD_LENGTH => "ETHERPARSE_STATUS_SIIT_PAYLOAD_LENGTH",
        status::SIIT_TIME_EXCEEDED => "ETHERPARSE_STATUS_SIIT_TIME_EXCEEDED",
        status::SIIT_SOURCE => "ETHERPARSE_STATUS_SIIT_SOURCE",
        status::SIIT_DESTINATION => "ETHERPARSE_STATUS_SIIT_DESTINATION",
        status::SIIT_NOT_EMBEDDED => "ETHERPARSE_STATUS_SIIT_NOT_EMBEDDED",
        status::SIIT_NOT_GLOBAL => "ETHERPARSE_STATUS_SIIT_NOT_GLOBAL",
        status::SIIT_ICMP_EXTENSION => "ETHERPARSE_STATUS_SIIT_ICMP_EXTENSION",
        status::SIIT_ICMP_POINTER => "ETHERPARSE_STATUS_SIIT_ICMP_POINTER",
        status::SIIT_TRANSPORT_HEADER => "ETHERPARSE_STATUS_SIIT_TRANSPORT_HEADER",
        status::SIIT_UDP_LENGTH => "ETHERPARSE_STATUS_SIIT_UDP_LENGTH",
        status::SIIT_NO_UDP_CHECKSUM => "ETHERPARSE_STATUS_SIIT_NO_UDP_CHECKSUM",
        status::SIIT_ICMP_MESSAGE => "ETHERPARSE_STATUS_SIIT_ICMP_MESSAGE",
        status::SIIT_QUOTED_PACKET => "ETHERPARSE_STATUS_SIIT_QUOTED_PACKET",
        status::SIIT_EXTENSION_HEADER_CUT_OFF => "ETHERPARSE_STATUS_SIIT_EXTENSION_HEADER_CUT_OFF",
        status::SIIT_SEGMENTS_LEFT => "ETHERPARSE_STATUS_SIIT_SEGMENTS_LEFT",
        status::SIIT_ICMP_FRAGMENT => "ETHERPARSE_STATUS_SIIT_ICMP_FRAGMENT",
        _ => joining_status_name(status),
    }
}

/// Returns the meaning of such a status in a few words.
#[tactic(auto, unfolding(crate::specs::SiitWords::siit_status_text))]
pub(crate) fn siit_status_text(status: u32) -> &'static str
    ensures text { result.now ≡ specs.siit_status_text status }
    ensures fits { length result.now ≤ max_status_text_len }
{
    match status {
        status::PREFIX_LENGTH => "the length of the prefix is not allowed",
        status::PREFIX_RESERVED_OCTET => "bits 64 to 71 of the prefix are not 0",
        status::PREFIX_SUFFIX => "a bit after the prefix is not 0",
        status::SIIT_NO_HEADER => "the packet does not begin with a whole IP header",
        status::SIIT_HEADER_CHECKSUM =>
            "the packet has a wrong header checksum, and is not translated",
        status::SIIT_FRAGMENT_CHECKSUM => "a fragment of a UDP packet has no checksum",
        status::SIIT_EXTENSION_HEADER => "an extension header follows the fragment header",
        status::SIIT_PAYLOAD_LENGTH => "the payload length is too great for IPv4",
        status::SIIT_TIME_EXCEEDED => "the time to live or the hop limit is 0 or 1",
        status::SIIT_SOURCE => "the source is not the address of a host",
        status::SIIT_DESTINATION => "the destination is not the address of a host",
        status::SIIT_NOT_EMBEDDED => "an IPv6 address contains no IPv4 address",
        status::SIIT_NOT_GLOBAL => "the well-known prefix allows only global addresses",
        status::SIIT_ICMP_EXTENSION => "the length field of the ICMP error is wrong",
        status::SIIT_ICMP_POINTER => "the pointer of the ICMP error has no translation",
        status::SIIT_TRANSPORT_HEADER => "the packet ends within its transport header",
        status::SIIT_UDP_LENGTH => "the packet has no UDP checksum and a wrong length",
        status::SIIT_NO_UDP_CHECKSUM => "the UDP packet over IPv6 has no checksum",
        status::SIIT_ICMP_MESSAGE => "the ICMP message is not translated",
        status::SIIT_QUOTED_PACKET => "the quoted packet can't be translated",
        status::SIIT_EXTENSION_HEADER_CUT_OFF => "an extension header ends after the packet",
        status::SIIT_SEGMENTS_LEFT => "a routing header has segments left",
        status::SIIT_ICMP_FRAGMENT => "a fragment of an ICMP message is not translated",
        _ => joining_status_text(status),
    }
}
