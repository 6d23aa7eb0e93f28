ghost use Rattle.std.specs.Prelude.{◌≡◌, ◌≢◌, ◌≤◌, IfOk, None, Some, [], length, unwrap_or};
ghost use Rattle.net_base.specs.IpHeaders.{ipv4_header_len};
ghost use Rattle.net_base.specs.Refusals.{RefusesExactly};
ghost use Rattle.word_sum.specs.Checksum.{Verifies, checksum_of, total};
ghost use Rattle.ip_part.specs.Ip.{ipv4_header};
ghost use Rattle.etherparse_transport_c.specs.Checksums.{with_checksum};
ghost use Rattle.etherparse_transport_c.specs.Errors.{Answers, Leaves, status_of, test_error, unless_refused};
ghost use Rattle.etherparse_transport_c.specs.Ipv4Header as specs;
ghost use Rattle.etherparse_transport_c.specs.Ipv4Header.{TestTells, header_refusal, refusal};
ghost use Rattle.etherparse_transport_c.specs.Numbers as numbers;

use crate::answer::{Answer, ErrorPlace, accept, refuse};
use crate::error::{EtherparseError, of_ip};
use crate::store::store;
use crate::verdict::verdict;
use etherparse_transport::checksum::Sum16BitWords;
use etherparse_transport::ip::IpError;
use etherparse_transport::{Ipv4Header, Ipv4HeaderSlice};

/// Returns the error for bytes that do not begin with an IPv4 header.
fn missing_header(bytes: &[u8]) -> IpError
    requires { header_refusal bytes.now ≢ None }
    ensures { header_refusal bytes.now ≡ Some result }
{
    let len = bytes.len();
    if len == 0 {
        return IpError::HeaderCutOff {
            required_len: 1,
            len,
        };
    }
    let version = bytes[0] >> 4;
    if version != 4 {
        return IpError::Version { version };
    }
    if len < Ipv4Header::MIN_LEN {
        return IpError::HeaderCutOff {
            required_len: Ipv4Header::MIN_LEN,
            len,
        };
    }
    let header_len = usize::from(bytes[0] & 0xf) * 4;
    if header_len < Ipv4Header::MIN_LEN {
        return IpError::HeaderLength { header_len };
    }
    IpError::HeaderCutOff {
        required_len: header_len,
        len,
    }
}

/// Returns the IPv4 header at the front of these bytes, options included.
pub(crate) fn header(bytes: &[u8]) -> Result<Ipv4HeaderSlice<'_>, EtherparseError>
    ensures refused { RefusesExactly result (refusal bytes.now) }
    ensures kept { IfOk result (λ header. header ≡ ipv4_header bytes.now) }
{
    match Ipv4HeaderSlice::from_slice(bytes) {
        Some(header) => Ok(header),
        None => Err(of_ip(&missing_header(bytes))),
    }
}

/// Computes the checksum of a header. The checksum in the header is ignored.
fn checksum_of_header(header: &[u8]) -> u16
    requires { 20 ≤ length header.now }
    ensures sum { result ≡ checksum_of (total (with_checksum 10 header.now 0)) }
    ensures valid { Verifies [] (with_checksum 10 header.now result) }
{
    Sum16BitWords::new()
        .add_slice(&header[..Ipv4Header::CHECKSUM_AT])
        .add_slice(&header[Ipv4Header::CHECKSUM_AT + 2..])
        .ones_complement()
}

/// Computes the checksum of the header at the front of these bytes. The checksum in the header is ignored.
fn computed(bytes: &[u8]) -> Result<u16, EtherparseError>
    ensures refused { RefusesExactly result (refusal bytes.now) }
    ensures room { IfOk result (λ _. 20 ≤ length bytes.now) }
    ensures sum { IfOk result (λ checksum. checksum ≡ specs.checksum bytes.now) }
    ensures valid { IfOk result (λ checksum. Verifies [] (with_checksum 10 (ipv4_header bytes.now) checksum)) }
    ensures passes { IfOk result (λ checksum. Answers (TestTells (with_checksum 10 bytes.now checksum)) numbers.status_ok) }
{
    match header(bytes) {
        Ok(header) => Ok(checksum_of_header(header.slice())),
        Err(refused) => Err(refused),
    }
}

/// Computes the right checksum of the IPv4 header at the front of these bytes (RFC 791, section 3.1). The call ignores the checksum in the
/// header, and the bytes after the header.
///
/// # Errors
///
/// The status is `OK`, or the first of these that applies:
/// - `IP_HEADER_CUT_OFF` if there are no bytes.
/// - `IP_VERSION` if the version is not 4.
/// - `IP_HEADER_CUT_OFF` if there are fewer than 20 bytes.
/// - `IP_HEADER_LENGTH` if the header length is below 20 bytes.
/// - `IP_HEADER_CUT_OFF` if there are fewer bytes than the header length.
#[unsafe(no_mangle)]
pub extern "C" fn etherparse_ipv4_header_checksum(
    bytes: &[u8],
    checksum: &mut u16,
    error: ErrorPlace,
) -> Answer
    ensures status { result.status ≡ status_of (refusal bytes.now) }
    ensures error { Leaves error result (unwrap_or (refusal bytes.now) error.before) }
    ensures checksum { checksum.new ≡ unless_refused (refusal bytes.now) (specs.checksum bytes.now) checksum.old }
    // With this checksum the header is valid.
    ensures built { refusal bytes.now ≡ None → Verifies [] (with_checksum 10 (ipv4_header bytes.now) checksum.new) }
    // With this checksum the test of the header returns `OK`.
    ensures passes { refusal bytes.now ≡ None → Answers (TestTells (with_checksum 10 bytes.now checksum.new)) numbers.status_ok }
{
    match computed(bytes) {
        Ok(computed) => {
            *checksum = computed;
            accept(error)
        }
        Err(refused) => refuse(error, refused),
    }
}

/// Stores the right checksum in bytes 10 and 11, as `etherparse_ipv4_header_checksum` computes it. No other byte changes.
///
/// # Errors
///
/// The statuses of `etherparse_ipv4_header_checksum`. After an error the bytes are unchanged.
#[unsafe(no_mangle)]
pub extern "C" fn etherparse_ipv4_header_checksum_store(
    bytes: &mut [u8],
    error: ErrorPlace,
) -> Answer
    ensures status { result.status ≡ status_of (refusal bytes.old) }
    ensures error { Leaves error result (unwrap_or (refusal bytes.old) error.before) }
    ensures stored { bytes.new ≡ unless_refused (refusal bytes.old) (with_checksum 10 bytes.old (specs.checksum bytes.old)) bytes.old }
    // After the call the test of the header returns `OK`.
    ensures passes { refusal bytes.old ≡ None → Answers (TestTells bytes.new) numbers.status_ok }
{
    match computed(bytes) {
        Ok(checksum) => {
            store(bytes, Ipv4Header::CHECKSUM_AT, checksum);
            accept(error)
        }
        Err(refused) => refuse(error, refused),
    }
}

/// Tests the checksum of the IPv4 header at the front of these bytes (RFC 791, section 3.1).
///
/// # Errors
///
/// If `etherparse_ipv4_header_checksum` refuses the bytes, this call returns the same status. Otherwise the status is `OK` if the checksum
/// is right, and `CHECKSUM_WRONG` if it is wrong.
#[unsafe(no_mangle)]
pub extern "C" fn etherparse_ipv4_header_checksum_test(bytes: &[u8], error: ErrorPlace) -> Answer
    ensures status { TestTells bytes.now result.status }
    ensures error { Leaves error result (test_error (refusal bytes.now) result.status error.before) }
{
    match header(bytes) {
        Ok(header) => verdict(header.is_checksum_valid(), error),
        Err(refused) => refuse(error, refused),
    }
}
