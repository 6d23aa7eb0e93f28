ghost use Rattle.std.specs.Prelude.{◌≡◌, None, unwrap_or};
ghost use Rattle.net_base.specs.IpHeaders.{version};
ghost use Rattle.etherparse_transport.specs.ErrorTexts.{lower_hop_limit_text};
ghost use Rattle.etherparse_transport.specs.HopLimits.{lowered};
ghost use Rattle.etherparse_transport.specs.Ipv4Translations.{IsHeaderAccepted};
ghost use Rattle.etherparse_transport_c.specs.ErrorText.{text_of};
ghost use Rattle.etherparse_transport_c.specs.Errors.{Leaves, status_of, unless_refused};
ghost use Rattle.etherparse_transport_c.specs.HopLimit as specs;
ghost use Rattle.etherparse_transport_c.specs.HopLimit.{refusal};

use crate::answer::{Answer, ErrorPlace, accept, refuse};
use crate::error::{EtherparseError, NONE, of_ip};
use crate::status;
use etherparse_transport::err::packet::LowerHopLimitError;
use etherparse_transport::ip::lower_hop_limit;

/// Lowers the time to live of an IPv4 packet, or the hop limit of an IPv6 packet, by one. A router does this before it forwards a packet
/// (RFC 1812, section 5.3.1; RFC 8200, section 3). The call updates the checksum of an IPv4 header (RFC 1624). A right checksum stays
/// right, and a wrong checksum stays wrong. No other byte changes. The call reads only the IP header, and ignores its total length or
/// payload length.
///
/// # Errors
///
/// The status is `OK`, or the first of these that applies:
/// - `IP_HEADER_CUT_OFF` if there are no bytes.
/// - `IP_VERSION` if the version is neither 4 nor 6.
/// - `IP_HEADER_CUT_OFF` if an IPv4 packet has fewer than 20 bytes, or an IPv6 packet fewer than 40 bytes.
/// - `IP_HEADER_LENGTH` if the header length of an IPv4 packet is below 20 bytes.
/// - `IP_HEADER_CUT_OFF` if an IPv4 packet has fewer bytes than its header length states.
/// - `HOP_LIMIT_EXPIRED` if the hop limit is 0 or 1. The error contains the hop limit.
///
/// After an error `error` contains the reason, and `packet` is unchanged.
#[unsafe(no_mangle)]
pub extern "C" fn etherparse_hop_limit_lower(packet: &mut [u8], error: ErrorPlace) -> Answer
    ensures status { result.status ≡ status_of (refusal packet.old) }
    ensures error { Leaves error result (unwrap_or (refusal packet.old) error.before) }
    ensures packet { packet.new ≡ unless_refused (refusal packet.old) (lowered packet.old) packet.old }
    // A receiver accepts the new IPv4 header exactly if it accepted the old header.
    ensures header { version packet.old ≡ 4 → refusal packet.old ≡ None → IsHeaderAccepted packet.old packet.new }
{
    match lower_hop_limit(packet) {
        Ok(()) => accept(error),
        Err(refused) => refuse(error, of_lower_hop_limit(&refused)),
    }
}

/// Returns the error for a packet whose hop limit is not lowered.
#[tactic(auto, unfolding(crate::specs::ErrorText::later_text))]
fn of_lower_hop_limit(error: &LowerHopLimitError) -> EtherparseError
    ensures numbers { result ≡ specs.of_lower_hop_limit error.now }
    ensures text { text_of result ≡ lower_hop_limit_text error.now }
{
    match error {
        LowerHopLimitError::Ip(error) => of_ip(error),
        LowerHopLimitError::Expired { hop_limit } => EtherparseError {
            status: status::HOP_LIMIT_EXPIRED,
            actual: usize::from(*hop_limit),
            ..NONE
        },
    }
}
