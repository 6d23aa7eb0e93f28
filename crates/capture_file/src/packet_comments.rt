ghost use Rattle.std.specs.Prelude.{◌≡◌, ◌≤◌, IfSome, MatchOption, None, Some, length};
ghost use Rattle.capture_numbers.specs.Numbers.{short_at};
ghost use Rattle.capture_numbers.specs.Options.{option_len, pcapng_option, value_in};
ghost use Rattle.capture_file.specs.Texts as specs;

use crate::{ByteOrder, KeptText};
use arrayvec::ArrayVec;

/// The maximum number of comments that are kept of a packet.
pub const MAX_COMMENTS: usize = 4;

/// The code of a comment in any block (draft-ietf-opsawg-pcapng, section 3.5).
pub(crate) const COMMENT: u16 = 1;

/// The code that ends the options of a block.
const END_OF_OPTIONS: u16 = 0;

/// The length of the part before the value of an option, in bytes: its code and the length of the value.
const OPTION_HEADER_LEN: usize = 4;

/// The comments of a packet: the values of the options `opt_comment` in its block, in their order (draft-ietf-opsawg-pcapng, section 3.5).
#[derive(Clone, Debug, Default, Drop)]
pub struct PacketComments {
    /// The first comments of the packet. A comment may be empty.
    pub texts: ArrayVec<KeptText, MAX_COMMENTS>,
    /// The number of comments that follow the kept comments, up to 2^64 - 1.
    pub more: u64,
}

impl PacketComments {
    /// Returns the comments of a packet that has no comment.
    pub fn new() -> PacketComments
        ensures { result ≡ specs.no_comments }
    {
        PacketComments::default()
    }

    /// Returns the comments among the options of a block.
    pub(crate) fn from_options(order: ByteOrder, options: &[u8]) -> PacketComments
        ensures { result ≡ specs.kept_comments (specs.comments_in order options.now) }
    {
        let mut comments = PacketComments::new();
        let mut rest = options;
        while let Some(option) = first_option(order, rest) {
            if order.short_in(option, 0) == COMMENT {
                comments.add(value_of(order, option));
            }
            rest = &rest[option.len()..];
        }
        comments
    }

    /// Adds a comment after the other comments. If the maximum number of comments is kept, the comment is only counted.
    fn add(&mut self, comment: &[u8])
        ensures { self.new ≡ specs.comment_added comment.now self.old }
    {
        if self.texts.is_full() {
            self.more = self.more.saturating_add(1);
        } else {
            self.texts.push(KeptText::new(comment));
        }
    }

    /// Returns a copy of the comments. Unlike `clone`, the call can't fail.
    pub(crate) fn copy(&self) -> PacketComments
        ensures { result ≡ self.now }
    {
        let mut texts = ArrayVec::new();
        for text in self.texts.as_slice() {
            texts.push(text.copy());
        }
        PacketComments {
            texts,
            more: self.more,
        }
    }
}

/// The option at the front of these bytes, which are the rest of a block's options. `None` if the options end here with code 0, or if the
/// bytes are too short for an option.
fn first_option(order: ByteOrder, bytes: &[u8]) -> Option<&[u8]>
    ensures front { MatchOption result (pcapng_option order bytes.now ≡ None)
        (λ option. pcapng_option order bytes.now ≡ Some option.now) }
    ensures len { IfSome result (λ option. length option.now ≡ option_len (short_at order option.now 2)) }
    ensures within { IfSome result (λ option. length option.now ≤ length bytes.now) }
{
    if bytes.len() < OPTION_HEADER_LEN || order.short_in(bytes, 0) == END_OF_OPTIONS {
        return None;
    }
    let padded_len = (usize::from(order.short_in(bytes, 2)) + 3) / 4 * 4;
    bytes.get(..OPTION_HEADER_LEN + padded_len)
}

/// The value of an option, without its padding.
fn value_of(order: ByteOrder, option: &[u8]) -> &[u8]
    requires { length option.now ≡ option_len (short_at order option.now 2) }
    ensures { result.now ≡ value_in order option.now }
{
    &option[OPTION_HEADER_LEN..OPTION_HEADER_LEN + usize::from(order.short_in(option, 2))]
}
