ghost use Rattle.std.specs.Prelude.{◌≡◌};
ghost use Rattle.etherparse_transport.specs.SegmentSizes.{IsLowered, IsRefusedFor};
ghost use Rattle.etherparse_transport.specs.declared.err.packet.lower_maximum_segment_size_error.LowerMaximumSegmentSizeError.{LowerMaximumSegmentSizeError};
ghost use Rattle.etherparse_transport_c.specs.SegmentSize as specs;
ghost use Rattle.etherparse_transport_c.specs.SegmentSize.{IsAccepted, LowerTells};

use crate::answer::{Answer, ErrorPlace, accept, refuse};
use crate::error::{
    EtherparseError, NONE, of_header_slice, of_ip, of_protocol, of_raw_option, of_status,
};
use crate::status;
use etherparse_transport::err::packet::LowerMaximumSegmentSizeError;
use etherparse_transport::ip::lower_maximum_segment_size;
use etherparse_transport::tcp_option;

/// Lowers the maximum segment size of a SYN to at most `most`, and writes the size that the packet contained to `size`. A router in front of
/// a tunnel does this, so that the segments of the connection fit into the tunnel (RFC 9293, section 3.7.1; RFC 6691). If the size is at
/// most `most`, the packet is unchanged. The checksum of TCP is updated (RFC 1624): a right checksum stays right, and a wrong checksum stays
/// wrong. No other byte changes. The packet may be a first fragment, be cut off or state no length, if it contains the whole TCP header. A
/// partial checksum becomes wrong, so store it again afterwards.
///
/// # Errors
///
/// The status is `OK`, or the first of these that applies:
/// - A status of `etherparse_transport_in_ip`, except `IP_PACKET_CUT_OFF` and `IP_JUMBO_PAYLOAD_MISSING`.
/// - `PROTOCOL_UNKNOWN` if the protocol is not TCP.
/// - `SEGMENT_SIZE_LATER_FRAGMENT` if the packet is a later fragment.
/// - `LENGTH` or `DATA_OFFSET`, as `etherparse_tcp_packet_read` returns it.
/// - `SEGMENT_SIZE_NO_SYN` if the segment is not a SYN.
/// - `OPTION_CUT_OFF` or `OPTION_SIZE` for an option up to the maximum segment size, as `etherparse_tcp_raw_option_next` returns it. A
///   maximum segment size of another length than 4 has the status `OPTION_SIZE` too.
/// - `SEGMENT_SIZE_NO_OPTION` if the options contain no maximum segment size.
///
/// After an error `error` contains the reason, and `packet` and `size` are unchanged.
#[unsafe(no_mangle)]
pub extern "C" fn etherparse_maximum_segment_size_lower(
    packet: &mut [u8],
    most: u16,
    size: &mut u16,
    error: ErrorPlace,
) -> Answer
    ensures told { LowerTells packet.old result.status result.error error.before }
    ensures pointer { result.pointer ≡ error.pointer }
    ensures unchanged { (why : LowerMaximumSegmentSizeError) → IsRefusedFor packet.old why → (packet.new ≡ packet.old) × (size.new ≡ size.old) }
    ensures lowered { IsAccepted packet.old → IsLowered most packet.old size.new packet.new }
{
    match lower_maximum_segment_size(packet, most) {
        Ok(found) => {
            *size = found;
            accept(error)
        }
        Err(refused) => refuse(error, of_segment_size(&refused)),
    }
}

/// Returns the error for a packet whose maximum segment size is not lowered.
fn of_segment_size(error: &LowerMaximumSegmentSizeError) -> EtherparseError
    ensures { result ≡ specs.of_segment_size error.now }
{
    match error {
        LowerMaximumSegmentSizeError::Ip(error) => of_ip(error),
        LowerMaximumSegmentSizeError::Protocol(protocol) => of_protocol(u32::from(protocol.0)),
        LowerMaximumSegmentSizeError::LaterFragment => {
            of_status(status::SEGMENT_SIZE_LATER_FRAGMENT)
        }
        LowerMaximumSegmentSizeError::Header(error) => of_header_slice(error),
        LowerMaximumSegmentSizeError::NoSyn => of_status(status::SEGMENT_SIZE_NO_SYN),
        LowerMaximumSegmentSizeError::Options(error) => of_raw_option(error),
        LowerMaximumSegmentSizeError::OptionLength { len } => EtherparseError {
            status: status::OPTION_SIZE,
            option_kind: u32::from(tcp_option::KIND_MAXIMUM_SEGMENT_SIZE),
            option_size: u32::from(*len),
            ..NONE
        },
        LowerMaximumSegmentSizeError::NoOption => of_status(status::SEGMENT_SIZE_NO_OPTION),
    }
}
