ghost use Rattle.std.specs.Prelude.{◌≡◌};
ghost use Rattle.tcp_part.specs.TcpOptions.{pad};

use crate::words::append_words;
use crate::{TcpOptionElement, TcpOptionWriteError, TcpOptionsIterator};
use arrayvec::ArrayVec;
use net_base::err::{Layer, LenError};
use net_base::wrong_length;
use std::cmp::Ordering;
use std::fmt;
use std::hash::{Hash, Hasher};
use std::marker::Model;

/// The options of a TCP header (RFC 9293, section 3.1): their bytes, at most 40 and a multiple of 4.
///
/// The bytes may have any values. `elements_iter` reads them as elements. Comparisons and hashes use the bytes. So options with the same
/// elements need not be equal.
///
/// ```
/// use etherparse_transport::TcpOptionElement::{MaximumSegmentSize, Noop, WindowScale};
/// use etherparse_transport::TcpOptions;
///
/// let options = TcpOptions::try_from_elements(&[MaximumSegmentSize(1460), Noop, WindowScale(7)])?;
/// assert_eq!(rt; options.as_slice(), [2, 4, 0x05, 0xB4, 1, 3, 3, 7].as_slice());
/// assert_eq!(rt; options.elements_iter().next(), Some(Ok(MaximumSegmentSize(1460))));
/// ```
#[derive(Clone, Drop)]
pub struct TcpOptions {
    bytes: ArrayVec<u8, 40>,
}

impl Model for TcpOptions {
    ghost use Rattle.std.specs.Prelude.{◌≡◌, ◌≤◌, ◌%◌, List, ℕ, length};
    ghost use Rattle.tcp_part.specs.TcpOptions.{max_options_len};

    ghost Value = { List ℕ };

    ghost view = { λ options. options.bytes.items };

    ghost invariant = { λ options. (length options.bytes.items ≤ max_options_len) × (length options.bytes.items % 4 ≡ 0) };
}

impl TcpOptions {
    ghost use Rattle.std.specs.Prelude.{◌≡◌, ◌≤◌, ◌+◌, ◌/◌, ◌%◌, ◌++◌, ◌↔◌, List, ℕ, IsTrue, IfOk, IfErr, Ok, [], drop, length};
    ghost use Rattle.net_base.specs.Refusals.{RefusesExactly, no_room};
    ghost use Rattle.std.specs.Borrow.{sem};
    ghost use Rattle.tcp_part.specs.TcpFormat.{max_data_offset, min_data_offset};
    ghost use Rattle.tcp_part.specs.TcpOptions.{join, max_options_len, pad, saturated, too_long};
    ghost use Rattle.tcp_part.specs.TcpOptionsLending.{LendsBytes};
    ghost use Rattle.tcp_part.specs.TcpOptionsReading.{AreJoined, AreLeastFor, Reads, StandFor, as_items};

    /// The maximum length of the options of a header, in bytes. A header has at most 15 words of 4 bytes, and 20 of these bytes are not
    /// options (RFC 9293, section 3.1).
    pub const MAX_LEN: usize = 40;

    /// Empty options.
    pub fn new() -> TcpOptions
        ensures { result ≡ [] }
    {
        TcpOptions {
            bytes: ArrayVec::new(),
        }
    }

    /// The options with these bytes (RFC 9293, section 3.1), padded with zeros to a multiple of 4 bytes.
    ///
    /// # Errors
    ///
    /// `NotEnoughSpace` if the slice is longer than 40 bytes. It contains the length of the slice.
    pub fn try_from_slice(slice: &[u8]) -> Result<TcpOptions, TcpOptionWriteError>
        ensures refused { RefusesExactly result (too_long (length slice.now)) }
        ensures padded { IfOk result (λ options. options ≡ pad slice.now) }
    {
        if slice.len() > TcpOptions::MAX_LEN {
            return Err(TcpOptionWriteError::NotEnoughSpace(slice.len()));
        }
        Ok(TcpOptions::padded(slice))
    }

    /// The options with these elements (RFC 9293, section 3.2; RFC 7323; RFC 2018), padded with zeros to a multiple of 4 bytes. Other
    /// options may be read as these elements too. The result is the first of all these options in lexicographic order. The present blocks
    /// of a selective acknowledgement are read back before the absent blocks.
    ///
    /// # Errors
    ///
    /// `NotEnoughSpace` if the elements are longer than 40 bytes. It contains their length, or `usize::MAX` if their length is above
    /// `usize::MAX`. If the call returns this error, no options that fit a header are read as these elements.
    pub fn try_from_elements(
        elements: &[TcpOptionElement],
    ) -> Result<TcpOptions, TcpOptionWriteError>
        ensures refused { RefusesExactly result (too_long (saturated (length (join elements.now)))) }
        ensures padded { IfOk result (λ options. options ≡ pad (join elements.now)) }
        ensures least { IfOk result (λ options. AreLeastFor options elements.now) }
        ensures none { IfErr result (λ _. (options : List ℕ) → StandFor options elements.now → ⊥) }

        // Assume that options of at most 40 bytes are read as these elements without a fault. Then the options consist of the bytes of the
        // elements, and then nothing or the end of the list. This call then returns the padded bytes of the elements.
        ensures converse { (options : List ℕ) → length options ≤ max_options_len → Reads options (as_items elements.now)
            → AreJoined options elements.now × (result ≡ Ok (pad (join elements.now))) }
    {
        // perf: one pass writes the elements and adds their lengths. After 40 bytes it only adds lengths, since the error contains the
        // whole length (23 Nov 2026).
        let mut bytes: ArrayVec<u8, 40> = ArrayVec::new();
        let mut needed: usize = 0;
        for element in elements {
            needed = needed.saturating_add(element.append_to(&mut bytes));
        }
        if needed > TcpOptions::MAX_LEN {
            return Err(TcpOptionWriteError::NotEnoughSpace(needed));
        }
        append_padding(&mut bytes);
        Ok(TcpOptions { bytes })
    }

    /// The options with these bytes, of which there are at most 40, padded with zeros to a multiple of 4 bytes.
    // perf: `from_words` copies a constant length in each arm. A copy of another length is a call (27 Nov 2026).
    fn padded(slice: &[u8]) -> TcpOptions
        requires { length slice.now ≤ max_options_len }
        ensures { result ≡ pad slice.now }
    {
        if slice.len() % 4 == 0 {
            return TcpOptions::from_words(slice);
        }
        let mut bytes = ArrayVec::new();
        bytes.try_extend_from_slice(slice).unwrap();
        append_padding(&mut bytes);
        TcpOptions { bytes }
    }

    /// The options with these bytes. Their number is at most 40, and a multiple of 4.
    #[inline(always)]
    pub(crate) fn from_words(slice: &[u8]) -> TcpOptions
        requires room { length slice.now ≤ max_options_len }
        requires whole_words { length slice.now % 4 ≡ 0 }
        ensures { result ≡ slice.now }
    {
        let mut words = ArrayVec::new();
        append_words(&mut words, slice);
        TcpOptions { bytes: words }
    }

    /// The data offset of a header with these options, in words of 4 bytes (RFC 9293, section 3.1): 5 without options, and at most 15.
    pub fn data_offset(&self) -> u8
        ensures value { result ≡ min_data_offset + length self.now / 4 }
        ensures bound { result ≤ max_data_offset }
    {
        5 + self.len_u8() / 4
    }

    /// The length of the options, in bytes: at most 40, and a multiple of 4.
    pub fn len(&self) -> usize
        ensures value { result ≡ length self.now }
        ensures bound { result ≤ max_options_len }
        ensures whole_words { result % 4 ≡ 0 }
    {
        self.bytes.len()
    }

    /// The length of the options, in bytes, as a `u8`.
    pub fn len_u8(&self) -> u8
        ensures value { result ≡ length self.now }
        ensures bound { result ≤ max_options_len }
    {
        self.bytes.len() as u8
    }

    /// Whether there are no option bytes.
    pub fn is_empty(&self) -> bool
        ensures { IsTrue result ↔ (self.now ≡ []) }
    {
        self.bytes.is_empty()
    }

    /// The bytes of the options.
    pub fn as_slice(&self) -> &[u8]
        ensures value { result.now ≡ self.now }
        ensures bound { length result.now ≤ max_options_len }
        ensures whole_words { length result.now % 4 ≡ 0 }
    {
        self.bytes.as_slice()
    }

    /// Writes the bytes of the options (RFC 9293, section 3.1) to the front of the slice, and returns their number: at
    /// most 40. The rest of the slice is not changed.
    ///
    /// # Errors
    ///
    /// `LenError` of the layer `TcpHeader` if the slice is shorter than the options. After this error the slice is unchanged.
    pub fn write_to_slice(&self, slice: &mut [u8]) -> Result<usize, LenError>
        ensures refused { RefusesExactly result (no_room Layer.TcpHeader self.now (length slice.old)) }
        ensures len { IfOk result (λ len. len ≡ length self.now) }
        ensures written { IfOk result (λ _. slice.new ≡ self.now ++ drop (length self.now) slice.old) }
        ensures unchanged { IfErr result (λ _. slice.new ≡ slice.old) }
    {
        let bytes = self.bytes.as_slice();
        if slice.len() < bytes.len() {
            return Err(wrong_length(Layer::TcpHeader, bytes.len(), slice.len()));
        }
        slice[..bytes.len()].copy_from_slice(bytes);
        Ok(bytes.len())
    }

    /// The bytes of the options, for writing. What is written becomes part of the options. Their length cannot change.
    pub fn as_mut_slice(&mut self) -> &mut [u8]
        ensures* writes_back { sem 𝓛 (LendsBytes self.entry result) }
        ensures value { result.now ≡ self.old }
    {
        self.bytes.as_mut_slice()
    }

    /// An iterator over the elements of the options.
    pub fn elements_iter(&self) -> TcpOptionsIterator<'_>
        ensures begins { result ≡ self.now }

        // If the options are read without a fault, they consist of the bytes of the elements, and then nothing or the end of the list.
        ensures joined { (elements : List TcpOptionElement) → Reads self.now (as_items elements)
            → AreJoined self.now elements × (length (join elements) ≤ max_options_len) }
    {
        TcpOptionsIterator::from_slice(self.bytes.as_slice())
    }
}

/// Appends zeros up to a multiple of 4 bytes.
#[inline(always)]
fn append_padding(bytes: &mut ArrayVec<u8, 40>)
    ensures { bytes.new.items ≡ pad bytes.old.items }
{
    let rest = bytes.len() % 4;
    if rest != 0 {
        bytes.try_extend_from_slice(&[0; 4][rest..]).unwrap();
    }
}

impl From<[u8; 4]> for TcpOptions {
    ghost use Rattle.std.specs.Prelude.{◌≡◌};

    ghost from_gives = { λ bytes options. options ≡ bytes };

    /// The options with these 4 bytes.
    fn from(bytes: [u8; 4]) -> TcpOptions {
        TcpOptions::from_words(&bytes)
    }
}

impl From<[u8; 8]> for TcpOptions {
    ghost use Rattle.std.specs.Prelude.{◌≡◌};

    ghost from_gives = { λ bytes options. options ≡ bytes };

    /// The options with these 8 bytes.
    fn from(bytes: [u8; 8]) -> TcpOptions {
        TcpOptions::from_words(&bytes)
    }
}

impl From<[u8; 12]> for TcpOptions {
    ghost use Rattle.std.specs.Prelude.{◌≡◌};

    ghost from_gives = { λ bytes options. options ≡ bytes };

    /// The options with these 12 bytes.
    fn from(bytes: [u8; 12]) -> TcpOptions {
        TcpOptions::from_words(&bytes)
    }
}

impl From<[u8; 16]> for TcpOptions {
    ghost use Rattle.std.specs.Prelude.{◌≡◌};

    ghost from_gives = { λ bytes options. options ≡ bytes };

    /// The options with these 16 bytes.
    fn from(bytes: [u8; 16]) -> TcpOptions {
        TcpOptions::from_words(&bytes)
    }
}

impl From<[u8; 20]> for TcpOptions {
    ghost use Rattle.std.specs.Prelude.{◌≡◌};

    ghost from_gives = { λ bytes options. options ≡ bytes };

    /// The options with these 20 bytes.
    fn from(bytes: [u8; 20]) -> TcpOptions {
        TcpOptions::from_words(&bytes)
    }
}

impl From<[u8; 24]> for TcpOptions {
    ghost use Rattle.std.specs.Prelude.{◌≡◌};

    ghost from_gives = { λ bytes options. options ≡ bytes };

    /// The options with these 24 bytes.
    fn from(bytes: [u8; 24]) -> TcpOptions {
        TcpOptions::from_words(&bytes)
    }
}

impl From<[u8; 28]> for TcpOptions {
    ghost use Rattle.std.specs.Prelude.{◌≡◌};

    ghost from_gives = { λ bytes options. options ≡ bytes };

    /// The options with these 28 bytes.
    fn from(bytes: [u8; 28]) -> TcpOptions {
        TcpOptions::from_words(&bytes)
    }
}

impl From<[u8; 32]> for TcpOptions {
    ghost use Rattle.std.specs.Prelude.{◌≡◌};

    ghost from_gives = { λ bytes options. options ≡ bytes };

    /// The options with these 32 bytes.
    fn from(bytes: [u8; 32]) -> TcpOptions {
        TcpOptions::from_words(&bytes)
    }
}

impl From<[u8; 36]> for TcpOptions {
    ghost use Rattle.std.specs.Prelude.{◌≡◌};

    ghost from_gives = { λ bytes options. options ≡ bytes };

    /// The options with these 36 bytes.
    fn from(bytes: [u8; 36]) -> TcpOptions {
        TcpOptions::from_words(&bytes)
    }
}

impl From<[u8; 40]> for TcpOptions {
    ghost use Rattle.std.specs.Prelude.{◌≡◌};

    ghost from_gives = { λ bytes options. options ≡ bytes };

    /// The options with these 40 bytes.
    fn from(bytes: [u8; 40]) -> TcpOptions {
        TcpOptions::from_words(&bytes)
    }
}

impl Default for TcpOptions {
    ghost use Rattle.std.specs.Prelude.{◌≡◌, []};

    ghost is_default = { λ options. options ≡ [] };

    fn default() -> TcpOptions {
        TcpOptions::new()
    }
}

impl PartialEq for TcpOptions {
    ghost use Rattle.std.specs.Prelude.{◌≡◌, ◌↔◌, IsTrue, nat_eq};
    ghost use Rattle.std.specs.Cmp as Cmp;
    ghost use Rattle.std.specs.Cmp.Lexicographic.{nat_list_eq_equiv, pointwise};

    ghost eq = { pointwise nat_eq };

    ghost laws = { Cmp.partial_equiv_from_equiv nat_list_eq_equiv };

    fn eq(&self, other: &TcpOptions) -> bool
        ensures computes { result ≡ pointwise nat_eq self.now other.now }
        ensures same { IsTrue result ↔ (self.now ≡ other.now) }
    {
        self.as_slice() == other.as_slice()
    }
}

impl Eq for TcpOptions {
    ghost use Rattle.std.specs.Cmp.Lexicographic.{nat_list_eq_equiv};

    ghost laws = { nat_list_eq_equiv };
}

impl PartialOrd for TcpOptions {
    ghost use Rattle.std.specs.Prelude.{Some};
    ghost use Rattle.std.specs.Cmp.Lexicographic.{slice_cmp, texts_po};
    ghost use Rattle.std.specs.Ordering.{nat_cmp};

    ghost partial_cmp = { λ a b. Some (slice_cmp nat_cmp a b) };

    ghost laws = { texts_po };

    fn partial_cmp(&self, other: &TcpOptions) -> Option<Ordering> {
        Some(self.cmp(other))
    }
}

impl Ord for TcpOptions {
    ghost use Rattle.std.specs.Prelude.{◌≡◌, ◌↔◌};
    ghost use Rattle.std.specs.Cmp.Lexicographic.{nat_list_cmp_total, slice_cmp, texts_ties};
    ghost use Rattle.std.specs.Ordering.{nat_cmp};
    ghost use Rattle.std.proofs.Common.{refl};
    ghost use Rattle.tcp_part.specs.TcpOptions.{IsBefore};

    ghost cmp = { slice_cmp nat_cmp };

    ghost total = { nat_list_cmp_total };

    ghost matches_partial_cmp = { λ a b. refl };

    ghost matches_eq = { texts_ties };

    fn cmp(&self, other: &TcpOptions) -> Ordering
        ensures computes { result ≡ slice_cmp nat_cmp self.now other.now }
        ensures less { (result ≡ Ordering.Less) ↔ IsBefore self.now other.now }
    {
        self.as_slice().cmp(other.as_slice())
    }
}

impl Hash for TcpOptions {
    ghost use Rattle.std.specs.Hash as fed;
    ghost use Rattle.std.specs.Cmp.Rules.{hashing};
    ghost use Rattle.std.proofs.Common.{rules};

    ghost hash_input = { λ options. fed.slice fed.u8 options };

    ghost respects_eq = { Prim.search (hashing, rules) };

    fn hash<H: Hasher>(&self, state: &mut H) {
        self.as_slice().hash(state);
    }
}

impl fmt::Debug for TcpOptions {
    fn fmt<W: fmt::Write>(&self, f: &mut fmt::Formatter<W>) -> fmt::Result {
        fmt::Debug::fmt(&self.elements_iter(), f)
    }
}

impl TryFrom<&[u8]> for TcpOptions {
    ghost use Rattle.tcp_part.specs.TcpOptions.{PadsOrRefuses};

    type Error = TcpOptionWriteError;

    ghost try_from_gives = { λ slice result. PadsOrRefuses slice.now result };

    /// Does what `try_from_slice` does.
    ///
    /// # Errors
    ///
    /// The errors of `try_from_slice`.
    fn try_from(slice: &[u8]) -> Result<TcpOptions, TcpOptionWriteError> {
        TcpOptions::try_from_slice(slice)
    }
}

impl TryFrom<&[TcpOptionElement]> for TcpOptions {
    ghost use Rattle.tcp_part.specs.TcpOptions.{JoinsOrRefuses};

    type Error = TcpOptionWriteError;

    ghost try_from_gives = { λ elements result. JoinsOrRefuses elements.now result };

    /// Does what `try_from_elements` does.
    ///
    /// # Errors
    ///
    /// The errors of `try_from_elements`.
    fn try_from(elements: &[TcpOptionElement]) -> Result<TcpOptions, TcpOptionWriteError> {
        TcpOptions::try_from_elements(elements)
    }
}
