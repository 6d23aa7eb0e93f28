//! Laws of the definitions in `specs/` and of the types. Each law is the contract of a function. The function does nothing, or makes only
//! the call that the law describes.
//!
//! # Errors
//!
//! No call returns an error: each clone succeeds.
ghost use Rattle.std.specs.Prelude.{◌≡◌, ◌↔◌, ◌++◌, List, [], ℕ, Option, None, IsOkAnd, IsTrue};
ghost use Rattle.std.specs.List.{fold};
ghost use Rattle.std.specs.Hash as fed;
ghost use Rattle.net_base.specs.Bytes.{IsBytes};
ghost use Rattle.net_base.specs.StoredChecksum.{tcp_checksum_place};
ghost use Rattle.tcp_part.specs.TcpFormat.{max_data_offset, max_header_len, min_data_offset, min_header_len};
ghost use Rattle.tcp_part.specs.TcpOptionKinds.{end_kind, maximum_segment_size_kind, maximum_segment_size_len, noop_kind, sack_kind, sack_permitted_kind, sack_permitted_len, timestamp_kind, timestamp_len, window_scale_kind, window_scale_len};
ghost use Rattle.tcp_part.specs.TcpOptions.{max_options_len};
ghost use Rattle.tcp_part.specs.TcpOptionsReading.{Item, ReadAlike, ReadsNext};
ghost use Rattle.tcp_part.specs.TcpRawOptions.{RawItem, ReadsRawNext, ReadsTheSameItems, ReadsTheSameOptions};

use crate::tcp_option::{
    KIND_END, KIND_MAXIMUM_SEGMENT_SIZE, KIND_NOOP, KIND_SELECTIVE_ACK,
    KIND_SELECTIVE_ACK_PERMITTED, KIND_TIMESTAMP, KIND_WINDOW_SCALE, LEN_END,
    LEN_MAXIMUM_SEGMENT_SIZE, LEN_NOOP, LEN_SELECTIVE_ACK_PERMITTED, LEN_TIMESTAMP,
    LEN_WINDOW_SCALE,
};
use crate::{
    TCP_MAXIMUM_DATA_OFFSET, TCP_MINIMUM_DATA_OFFSET, TCP_MINIMUM_HEADER_SIZE, TCP_OPTION_ID_END,
    TCP_OPTION_ID_MAXIMUM_SEGMENT_SIZE, TCP_OPTION_ID_NOP, TCP_OPTION_ID_SELECTIVE_ACK,
    TCP_OPTION_ID_SELECTIVE_ACK_PERMITTED, TCP_OPTION_ID_TIMESTAMP, TCP_OPTION_ID_WINDOW_SCALE,
    TcpHeader, TcpHeaderSlice, TcpOptionElement, TcpOptions, TcpOptionsIterator, TcpRawOption,
    TcpRawOptionError, TcpRawOptionsIterator, TcpSlice,
};
use std::alloc::AllocError;
use std::hash::{Hash, Hasher};

/// If no bytes are left, for example after the end of the list or a fault, `next` of `TcpOptionsIterator` returns `None`. Still no bytes
/// are left.
pub fn nothing_is_read_after_the_end()
    ensures { (item : Option Item) (rest : List ℕ) → ReadsNext [] item rest → (item ≡ None) × (rest ≡ []) }
{}

/// Assume that two lists of option bytes are read without a fault. They are read as the same elements exactly if the padded bytes of the
/// elements are the same.
pub fn options_read_alike()
    ensures { (options others : List ℕ) → ReadAlike options others }
{}

/// If no bytes are left, for example after the end of the list or a fault, `next` of `TcpRawOptionsIterator` returns `None`. Still no bytes
/// are left.
pub fn no_raw_option_is_read_after_the_end()
    ensures { (item : Option RawItem) (rest : List ℕ) → ReadsRawNext [] item rest → (item ≡ None) × (rest ≡ []) }
{}

/// `TcpOptionsIterator` returns elements up to a fault. `TcpRawOptionsIterator` returns an option with the same bytes in the place of each
/// element. If the first iterator finds no fault, the second iterator finds no fault either, and returns nothing more.
pub fn raw_options_are_the_elements()
    ensures { (options : List ℕ) → ReadsTheSameOptions options }
{}

/// For each option that `TcpRawOptionsIterator` returns before the first fault, `TcpOptionsIterator` returns the result of `element` in its
/// place. Assume that the length byte of the option with the fault counts only bytes that are present. Then the fault is the error of
/// `element`, except in one case. If fewer bytes are left than the kind requires, the fault contains both numbers, while `element` reports
/// a wrong length. If the length byte counts more bytes than are present, each iterator returns its own error.
pub fn elements_of_raw_options()
    ensures { (options : List ℕ) → IsBytes options → ReadsTheSameItems options }
{}

/// A clone of a header is the same value.
pub fn cloned_header(header: &TcpHeader) -> Result<TcpHeader, AllocError>
    ensures same { IsOkAnd result (λ copy. copy ≡ header.now) }
{
    header.clone()
}

/// A clone of the slice of a header is the same value.
pub fn cloned_header_slice<'a>(
    header: &TcpHeaderSlice<'a>,
) -> Result<TcpHeaderSlice<'a>, AllocError>
    ensures same { IsOkAnd result (λ copy. copy ≡ header.now) }
{
    header.clone()
}

/// A clone of the slice of a segment is the same value.
pub fn cloned_slice<'a>(segment: &TcpSlice<'a>) -> Result<TcpSlice<'a>, AllocError>
    ensures same { IsOkAnd result (λ copy. copy ≡ segment.now) }
{
    segment.clone()
}

/// A clone of options is the same value.
pub fn cloned_options(options: &TcpOptions) -> Result<TcpOptions, AllocError>
    ensures same { IsOkAnd result (λ copy. copy ≡ options.now) }
{
    options.clone()
}

/// A clone of an element is the same value.
pub fn cloned_element(element: &TcpOptionElement) -> Result<TcpOptionElement, AllocError>
    ensures same { IsOkAnd result (λ copy. copy ≡ element.now) }
{
    element.clone()
}

/// A clone of an iterator over elements has the same unread bytes.
pub fn cloned_iterator<'a>(
    iterator: &TcpOptionsIterator<'a>,
) -> Result<TcpOptionsIterator<'a>, AllocError>
    ensures same { IsOkAnd result (λ copy. copy ≡ iterator.now) }
{
    iterator.clone()
}

/// A clone of an option of any kind is the same value.
pub fn cloned_raw_option<'a>(option: &TcpRawOption<'a>) -> Result<TcpRawOption<'a>, AllocError>
    ensures same { IsOkAnd result (λ copy. copy ≡ option.now) }
{
    option.clone()
}

/// A clone of an iterator over options of any kind has the same unread bytes.
pub fn cloned_raw_iterator<'a>(
    iterator: &TcpRawOptionsIterator<'a>,
) -> Result<TcpRawOptionsIterator<'a>, AllocError>
    ensures same { IsOkAnd result (λ copy. copy ≡ iterator.now) }
{
    iterator.clone()
}

/// A clone of an error about an option of any kind is the same value.
pub fn cloned_raw_option_error(error: &TcpRawOptionError) -> Result<TcpRawOptionError, AllocError>
    ensures same { IsOkAnd result (λ copy. copy ≡ error.now) }
{
    error.clone()
}

/// Headers are equal exactly if all their fields are equal.
pub fn equal_headers(a: &TcpHeader, b: &TcpHeader) -> bool
    ensures same { IsTrue result ↔ (a.now ≡ b.now) }
{
    a == b
}

/// Slices of headers are equal exactly if their bytes are equal.
pub fn equal_header_slices(a: &TcpHeaderSlice<'_>, b: &TcpHeaderSlice<'_>) -> bool
    ensures same { IsTrue result ↔ (a.now ≡ b.now) }
{
    a == b
}

/// Slices of segments are equal exactly if their bytes are equal.
pub fn equal_slices(a: &TcpSlice<'_>, b: &TcpSlice<'_>) -> bool
    ensures same { IsTrue result ↔ (a.now ≡ b.now) }
{
    a == b
}

/// Options are equal exactly if their bytes are equal.
pub fn equal_options(a: &TcpOptions, b: &TcpOptions) -> bool
    ensures same { IsTrue result ↔ (a.now ≡ b.now) }
{
    a == b
}

/// Elements are equal exactly if their kinds and all their numbers are equal.
pub fn equal_elements(a: &TcpOptionElement, b: &TcpOptionElement) -> bool
    ensures same { IsTrue result ↔ (a.now ≡ b.now) }
{
    a == b
}

/// Iterators over elements are equal exactly if their unread bytes are equal.
pub fn equal_iterators(a: &TcpOptionsIterator<'_>, b: &TcpOptionsIterator<'_>) -> bool
    ensures same { IsTrue result ↔ (a.now ≡ b.now) }
{
    a == b
}

/// Options of any kind are equal exactly if their kinds and the bytes of their values are equal.
pub fn equal_raw_options(a: &TcpRawOption<'_>, b: &TcpRawOption<'_>) -> bool
    ensures same { IsTrue result ↔ (a.now ≡ b.now) }
{
    a == b
}

/// Iterators over options of any kind are equal exactly if their unread bytes are equal.
pub fn equal_raw_iterators(a: &TcpRawOptionsIterator<'_>, b: &TcpRawOptionsIterator<'_>) -> bool
    ensures same { IsTrue result ↔ (a.now ≡ b.now) }
{
    a == b
}

/// `==` holds for two errors about options of any kind exactly if they are the same.
pub fn equal_raw_option_errors(a: &TcpRawOptionError, b: &TcpRawOptionError) -> bool
    ensures same { IsTrue result ↔ (a.now ≡ b.now) }
{
    a == b
}

/// The hash of a header covers all fields, in their order.
pub fn hashed_header<H: Hasher>(header: &TcpHeader, state: &mut H)
    ensures fields { state.new ≡ fold H.write state.old (
        fed.u16 header.now.source_port ++ fed.u16 header.now.destination_port
        ++ fed.u32 header.now.sequence_number ++ fed.u32 header.now.acknowledgment_number
        ++ fed.bool header.now.ns ++ fed.bool header.now.fin ++ fed.bool header.now.syn ++ fed.bool header.now.rst ++ fed.bool header.now.psh
        ++ fed.bool header.now.ack ++ fed.bool header.now.urg ++ fed.bool header.now.ece ++ fed.bool header.now.cwr
        ++ fed.u16 header.now.window_size ++ fed.u16 header.now.checksum ++ fed.u16 header.now.urgent_pointer
        ++ fed.slice fed.u8 header.now.options) }
{
    header.hash(state);
}

/// The hash of options covers their bytes.
pub fn hashed_options<H: Hasher>(options: &TcpOptions, state: &mut H)
    ensures bytes { state.new ≡ fold H.write state.old (fed.slice fed.u8 options.now) }
{
    options.hash(state);
}

/// The public constants are the limits of the format (RFC 9293, section 3.1), and the older names have the same values.
pub fn limits()
    ensures header_len { (TcpHeader.MIN_LEN ≡ min_header_len) × (TcpHeader.MAX_LEN ≡ max_header_len) }
    ensures data_offset { (TcpHeader.MIN_DATA_OFFSET ≡ min_data_offset) × (TcpHeader.MAX_DATA_OFFSET ≡ max_data_offset) }
    ensures options_len { TcpOptions.MAX_LEN ≡ max_options_len }
    ensures places { (TcpHeader.SOURCE_PORT_AT ≡ 0) × (TcpHeader.DESTINATION_PORT_AT ≡ 2) × (TcpHeader.CHECKSUM_AT ≡ tcp_checksum_place) }
    ensures older_names { (TCP_MINIMUM_HEADER_SIZE ≡ min_header_len) × (TCP_MINIMUM_DATA_OFFSET ≡ min_data_offset)
        × (TCP_MAXIMUM_DATA_OFFSET ≡ max_data_offset) }
{}

/// The constants for the kinds of options, their older names, and the constants for fixed lengths have these values.
pub fn kinds()
    ensures kinds { (KIND_END ≡ end_kind) × (KIND_NOOP ≡ noop_kind) × (KIND_MAXIMUM_SEGMENT_SIZE ≡ maximum_segment_size_kind)
        × (KIND_WINDOW_SCALE ≡ window_scale_kind) × (KIND_SELECTIVE_ACK_PERMITTED ≡ sack_permitted_kind)
        × (KIND_SELECTIVE_ACK ≡ sack_kind) × (KIND_TIMESTAMP ≡ timestamp_kind) }
    ensures lengths { (LEN_END ≡ 1) × (LEN_NOOP ≡ 1) × (LEN_MAXIMUM_SEGMENT_SIZE ≡ maximum_segment_size_len)
        × (LEN_WINDOW_SCALE ≡ window_scale_len) × (LEN_SELECTIVE_ACK_PERMITTED ≡ sack_permitted_len)
        × (LEN_TIMESTAMP ≡ timestamp_len) }
    ensures older_names { (TCP_OPTION_ID_END ≡ end_kind) × (TCP_OPTION_ID_NOP ≡ noop_kind)
        × (TCP_OPTION_ID_MAXIMUM_SEGMENT_SIZE ≡ maximum_segment_size_kind) × (TCP_OPTION_ID_WINDOW_SCALE ≡ window_scale_kind)
        × (TCP_OPTION_ID_SELECTIVE_ACK_PERMITTED ≡ sack_permitted_kind) × (TCP_OPTION_ID_SELECTIVE_ACK ≡ sack_kind)
        × (TCP_OPTION_ID_TIMESTAMP ≡ timestamp_kind) }
{}
