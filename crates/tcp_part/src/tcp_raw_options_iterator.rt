ghost use Rattle.std.specs.Prelude.{◌≡◌, ◌↔◌, IsTrue, length};

use crate::{TcpRawOption, TcpRawOptionError, tcp_option};
use std::fmt;
use std::marker::Model;

/// Reads option bytes as kinds and values, one option after the other, up to the end of the list or the first fault
/// (RFC 9293, section 3.1).
///
/// The length byte states where an option of any kind ends (RFC 1122, section 4.2.2.5). No kind is refused, and the length that a kind
/// requires is not checked. To check both, call `element` of the option. After `None` or an error no bytes are left, and `next` returns
/// `None`. There are at most as many items as bytes.
///
/// ```
/// use etherparse_transport::TcpRawOptionsIterator;
///
/// // A window scale, and a request for a TCP Fast Open cookie (kind 34, RFC 7413).
/// let mut requests_cookie = false;
/// for option in TcpRawOptionsIterator::from_slice(&[3, 3, 7, 34, 2, 0, 0, 0]) {
///     let option = option?;
///     requests_cookie |= option.kind == 34 && option.value.is_empty();
/// }
/// assert!(rt; requests_cookie);
/// ```
#[derive(Clone, Drop)]
pub struct TcpRawOptionsIterator<'a> {
    options: &'a [u8],
}

impl<'a> Model for TcpRawOptionsIterator<'a> {
    ghost use Rattle.std.specs.Prelude.{List, ℕ};

    ghost Value = { List ℕ };

    ghost view = { λ iterator. iterator.options.now };
}

impl<'a> TcpRawOptionsIterator<'a> {
    ghost use Rattle.std.specs.Prelude.{true};
    ghost use Rattle.std.specs.Iterator.Runs.{EachRunFrom};
    ghost use Rattle.tcp_part.specs.TcpRawOptions.{HasOneRawReading, IsWrittenBack, ReadsRaw, ReadsRawNext};

    /// An iterator that begins at the first of these bytes. The bytes have exactly one reading: the items that `next` returns before its
    /// first `None`. The bytes of these options, one after the other, are the bytes up to the end of the list or the fault.
    pub fn from_slice(options: &'a [u8]) -> TcpRawOptionsIterator<'a>
        ensures begins { result ≡ options.now }
        ensures reads { EachRunFrom ReadsRawNext result (λ run. run.whole ≡ true → ReadsRaw options.now run.items) }
        ensures one_reading { HasOneRawReading options.now }
        ensures written_back { IsWrittenBack options.now }
    {
        TcpRawOptionsIterator { options }
    }

    /// The bytes that are not read yet. After the end of the list or a fault, no bytes are left.
    pub fn rest(&self) -> &'a [u8]
        ensures { result.now ≡ self.now }
    {
        self.options
    }
}

impl<'a> Iterator for TcpRawOptionsIterator<'a> {
    ghost use Rattle.std.specs.Prelude.{IfSome};
    ghost use Rattle.std.specs.Iterator.{UpTo, at_most};
    ghost use Rattle.std.specs.Iterator.SizeHint.{IsWithinCount};
    ghost use Rattle.tcp_part.specs.TcpRawOptions.{ReadsRawNext};

    type Item = Result<TcpRawOption<'a>, TcpRawOptionError>;

    ghost next_gives = { ReadsRawNext };

    ghost remaining = { λ iterator. at_most (length iterator) };

    fn next(&mut self) -> Option<Result<TcpRawOption<'a>, TcpRawOptionError>> {
        let options = self.options;
        self.options = &options[options.len()..]; // the end of the list and a fault leave nothing
        if options.is_empty() || options[0] == tcp_option::KIND_END {
            return None;
        }
        let kind = options[0];
        if kind == tcp_option::KIND_NOOP {
            self.options = &options[1..];
            return Some(Ok(TcpRawOption { kind, value: &[] }));
        }
        let available = options.len();
        if available < 2 {
            return Some(Err(TcpRawOptionError::NoLengthByte { kind }));
        }
        let len = options[1];
        if len < 2 {
            return Some(Err(TcpRawOptionError::LengthBelowTwo { kind, len }));
        }
        if available < usize::from(len) {
            return Some(Err(TcpRawOptionError::LengthBeyondEnd {
                kind,
                len,
                available,
            }));
        }
        self.options = &options[usize::from(len)..];
        let value = &options[2..usize::from(len)];
        Some(Ok(TcpRawOption { kind, value }))
    }

    /// Returns `(0, None)`, since the number of items is not known before they are read.
    fn size_hint(&self) -> (usize, Option<usize>)
        ensures lower { IsWithinCount result.0 (at_most (length self.now)) }
        ensures upper { IfSome result.1 (UpTo (at_most (length self.now))) }
        ensures none_promised { result.0 ≡ 0 }
    {
        (0, None)
    }
}

impl<'a> PartialEq for TcpRawOptionsIterator<'a> {
    ghost use Rattle.std.specs.Prelude.{◌↔◌, nat_eq};
    ghost use Rattle.std.specs.Cmp.Lexicographic.{pointwise};
    ghost use Rattle.std.specs.Cmp.Rules.{comparing};
    ghost use Rattle.std.proofs.Common.{rules};

    ghost eq = { pointwise nat_eq };

    ghost laws = { Prim.search (comparing, rules) };

    fn eq(&self, other: &TcpRawOptionsIterator<'a>) -> bool
        ensures computes { result ≡ pointwise nat_eq self.now other.now }
        ensures same { IsTrue result ↔ (self.now ≡ other.now) }
    {
        self.options == other.options
    }
}

impl<'a> Eq for TcpRawOptionsIterator<'a> {
    ghost use Rattle.std.specs.Cmp.Rules.{comparing};
    ghost use Rattle.std.proofs.Common.{rules};

    ghost laws = { Prim.search (comparing, rules) };
}

impl<'a> fmt::Debug for TcpRawOptionsIterator<'a> {
    fn fmt<W: fmt::Write>(&self, f: &mut fmt::Formatter<W>) -> fmt::Result {
        let mut list = f.debug_list();
        for item in TcpRawOptionsIterator::from_slice(self.options) {
            match item {
                Ok(option) => {
                    list.entry(&option);
                }
                Err(error) => {
                    list.entry(&Err::<(), TcpRawOptionError>(error));
                }
            }
        }
        list.finish()
    }
}
