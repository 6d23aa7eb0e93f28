ghost use Rattle.std.specs.Prelude.{◌≡◌, ◌<◌, IfSome};
ghost use Rattle.ip_translation.specs.IcmpErrors as specs;

/// The ICMPv6 type and code for the type and code of an ICMP error (RFC 7915, section 4.2). `None` if a translator drops the message, or if
/// it is not an error.
///
/// | ICMP | ICMPv6 |
/// |---|---|
/// | type 3, codes 0, 1, 5 to 8, 11, 12: a network or a host is unreachable | type 1, code 0: no route |
/// | type 3, code 2: the protocol is unreachable | type 4, code 1: unrecognized next header |
/// | type 3, code 3: the port is unreachable | type 1, code 4: the port is unreachable |
/// | type 3, code 4: fragmentation is needed | type 2, code 0: packet too big |
/// | type 3, codes 9, 10, 13, 15: prohibited | type 1, code 1: prohibited |
/// | type 11, any code: time exceeded | type 3, the same code: time exceeded |
/// | type 12, codes 0 and 2: parameter problem | type 4, code 0: erroneous header field |
pub fn icmpv6_error(type_u8: u8, code_u8: u8) -> Option<(u8, u8)>
    ensures { result ≡ specs.error_in (specs.errors_to_ipv6 code_u8) type_u8 code_u8 }
{
    match type_u8 {
        3 => unreachable_over_ipv6(code_u8),
        11 => Some((3, code_u8)),
        12 => match code_u8 {
            0 | 2 => Some((4, 0)),
            _ => None,
        },
        _ => None,
    }
}

/// The ICMPv6 type and code for an ICMP message "destination unreachable" with this code.
fn unreachable_over_ipv6(code_u8: u8) -> Option<(u8, u8)>
    ensures { result ≡ specs.error_in (specs.errors_to_ipv6 code_u8) 3 code_u8 }
{
    match code_u8 {
        0 | 1 | 5 | 6 | 7 | 8 | 11 | 12 => Some((1, 0)),
        2 => Some((4, 1)),
        3 => Some((1, 4)),
        4 => Some((2, 0)),
        9 | 10 | 13 | 15 => Some((1, 1)),
        _ => None,
    }
}

/// The ICMP type and code for the type and code of an ICMPv6 error (RFC 7915, section 5.2). `None` if a translator drops the message, or if
/// it is not an error.
///
/// | ICMPv6 | ICMP |
/// |---|---|
/// | type 1, codes 0, 2, 3: no route, beyond the scope, an address is unreachable | type 3, code 1: the host is unreachable |
/// | type 1, code 1: prohibited | type 3, code 10: the host is prohibited |
/// | type 1, code 4: the port is unreachable | type 3, code 3: the port is unreachable |
/// | type 2, any code: packet too big | type 3, code 4: fragmentation is needed |
/// | type 3, any code: time exceeded | type 11, the same code: time exceeded |
/// | type 4, code 0: erroneous header field | type 12, code 0: parameter problem |
/// | type 4, code 1: unrecognized next header | type 3, code 2: the protocol is unreachable |
pub fn icmpv4_error(type_u8: u8, code_u8: u8) -> Option<(u8, u8)>
    ensures kind { result ≡ specs.error_in (specs.errors_to_ipv4 code_u8) type_u8 code_u8 }
    ensures some { IfSome result (λ kind. 0 < kind.0) }
{
    match type_u8 {
        1 => match code_u8 {
            0 | 2 | 3 => Some((3, 1)),
            1 => Some((3, 10)),
            4 => Some((3, 3)),
            _ => None,
        },
        2 => Some((3, 4)),
        3 => Some((11, code_u8)),
        4 => match code_u8 {
            0 => Some((12, 0)),
            1 => Some((3, 2)),
            _ => None,
        },
        _ => None,
    }
}

/// The place of an erroneous field in an IPv6 header, for the place of this field in an IPv4 header (RFC 7915, section 4.2, figure 3). Both
/// are in bytes from the start of the header. `None` if the field has no place in an IPv6 header, or if the place is not in an IPv4 header
/// without options.
pub fn icmpv6_pointer(pointer: u8) -> Option<u8>
    ensures { result ≡ specs.pointer_in specs.pointers_to_ipv6 pointer }
{
    match pointer {
        0 => Some(0),
        1 => Some(1),
        2..=3 => Some(4),
        8 => Some(7),
        9 => Some(6),
        12..=15 => Some(8),
        16..=19 => Some(24),
        _ => None,
    }
}

/// The place of an erroneous field in an IPv4 header, for the place of this field in an IPv6 header (RFC 7915, section 5.2, figure 6). Both
/// are in bytes from the start of the header. `None` if the field has no place in an IPv4 header, or if the place is not in an IPv6 header.
pub fn icmpv4_pointer(pointer: u32) -> Option<u8>
    ensures { result ≡ specs.pointer_in specs.pointers_to_ipv4 pointer }
{
    match pointer {
        0 => Some(0),
        1 => Some(1),
        4..=5 => Some(2),
        6 => Some(9),
        7 => Some(8),
        8..=23 => Some(12),
        24..=39 => Some(16),
        _ => None,
    }
}

/// The MTU for "packet too big", in bytes, from the MTU of "fragmentation needed" and the total length of the packet that was too big (RFC
/// 7915, section 4.2). The result is 20 bytes more than the MTU over IPv4, and at least 1280.
///
/// If the MTU over IPv4 is 0, the router that reports it does not implement RFC 1191. Then the MTU over IPv4 is the greatest plateau below
/// the total length (RFC 1191, section 7.1). The MTUs of the translator's own links are not considered.
pub fn icmpv6_mtu(mtu: u16, total_len: u16) -> u32
    ensures { result ≡ specs.mtu_to_ipv6 mtu total_len }
{
    let path_mtu = if mtu == 0 {
        plateau_below(total_len)
    } else {
        mtu
    };
    (u32::from(path_mtu) + HEADER_DIFFERENCE).max(MIN_IPV6_MTU)
}

/// The MTU for "fragmentation needed", in bytes, from the MTU of "packet too big" (RFC 7915, section 5.2). The result is 20 bytes less than
/// the MTU over IPv6, and at most 65,535. The MTUs of the translator's own links are not considered.
pub fn icmpv4_mtu(mtu: u32) -> u16
    ensures { result ≡ specs.mtu_to_ipv4 mtu }
{
    let path_mtu = mtu.saturating_sub(HEADER_DIFFERENCE);
    u16::try_from(path_mtu).unwrap_or(u16::MAX)
}

/// The number of bytes by which an IPv6 header is longer than an IPv4 header without options.
const HEADER_DIFFERENCE: u32 = 20;

/// The least MTU of IPv6, in bytes (RFC 8200, section 5).
pub(crate) const MIN_IPV6_MTU: u32 = 1280;

/// The greatest plateau below this total length, in bytes (RFC 1191, section 7.1). 0 if no plateau is below it.
fn plateau_below(total_len: u16) -> u16
    ensures { result ≡ specs.path_mtu 0 total_len }
{
    match total_len {
        32001..=u16::MAX => 32000,
        17915..=32000 => 17914,
        8167..=17914 => 8166,
        4353..=8166 => 4352,
        2003..=4352 => 2002,
        1493..=2002 => 1492,
        1007..=1492 => 1006,
        509..=1006 => 508,
        297..=508 => 296,
        69..=296 => 68,
        _ => 0,
    }
}
