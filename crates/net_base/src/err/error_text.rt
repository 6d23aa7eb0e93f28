use arrayvec::ArrayVec;
use std::fmt;
use std::marker::Model;

/// The greatest number of parts of a text.
const MAX_TEXT_PARTS: usize = 11;

/// A part of the text of an error.
///
/// ```
/// use etherparse_transport::err::TextPart;
/// use etherparse_transport::ip::IpError;
///
/// let text = IpError::Version { version: 5 }.text();
/// assert!(rt; matches!(text.parts()[1], TextPart::Number(5)));
/// ```
#[derive(Clone, Copy, Debug, PartialEq, Eq)]
pub enum TextPart {
    /// Words, with the spaces around them.
    Words(&'static str),
    /// A number, which is written in decimal.
    Number(usize),
}

impl Default for TextPart {
    fn default() -> TextPart {
        TextPart::Words("")
    }
}

impl fmt::Display for TextPart {
    ghost use Rattle.std.specs.Prelude.{Some};
    ghost use Rattle.net_base.specs.TextParts.{part_text};

    ghost output = { λ part. Some (part_text part) };

    fn fmt<W: fmt::Write>(&self, f: &mut fmt::Formatter<W>) -> fmt::Result {
        match self {
            TextPart::Words(words) => f.write_str(words),
            TextPart::Number(number) => write!(f, "{number}"),
        }
    }
}

/// The text of an error as a list of parts. `Display` of each error writes these parts. A caller without a formatter can write the parts
/// itself.
///
/// Two texts are equal if they have the same parts. Texts with different parts are not equal, even if they read the same.
///
/// ```
/// use etherparse_transport::ip::IpError;
///
/// let error = IpError::Version { version: 5 };
/// let written = format!(in rt.alloc(); "{}", error.text())?;
/// assert_eq!(rt; written.as_str(), "IP Error: the version is 5.");
/// ```
#[derive(Clone, Debug, PartialEq, Eq, Drop)]
pub struct ErrorText {
    parts: ArrayVec<TextPart, MAX_TEXT_PARTS>,
}

impl Model for ErrorText {
    ghost use Rattle.std.specs.Prelude.{List};
    ghost use Rattle.net_base.specs.declared.err.error_text.TextPart.{TextPart};

    ghost Value = { List TextPart };

    ghost view = { λ text. text.parts.items };

    ghost inverse = { λ parts. record { parts = record { items = parts } } };
}

impl ErrorText {
    ghost use Rattle.std.specs.Prelude.{◌≡◌, take};
    ghost use Rattle.net_base.specs.TextParts.{max_text_parts, reads_as};

    /// The text that consists of these parts. If there are more than 11 parts, it consists of the first 11.
    pub fn from_parts(parts: &[TextPart]) -> ErrorText
        ensures { result ≡ take max_text_parts parts.now }
    {
        let len = parts.len().min(MAX_TEXT_PARTS);
        let mut all = ArrayVec::new();
        all.try_extend_from_slice(&parts[..len]).unwrap();
        ErrorText { parts: all }
    }

    /// The text that consists of these words.
    pub fn from_words(words: &'static str) -> ErrorText
        ensures { reads_as result ≡ words.now }
    {
        ErrorText::from_parts(&[TextPart::Words(words)])
    }

    /// The parts of the text.
    pub fn parts(&self) -> &[TextPart]
        ensures { result.now ≡ self.now }
    {
        self.parts.as_slice()
    }
}

impl fmt::Display for ErrorText {
    ghost use Rattle.std.specs.Prelude.{Some};
    ghost use Rattle.net_base.specs.TextParts.{reads_as};

    ghost output = { λ text. Some (reads_as text) };

    fn fmt<W: fmt::Write>(&self, f: &mut fmt::Formatter<W>) -> fmt::Result {
        for part in self.parts.as_slice() {
            write!(f, "{part}")?;
        }
        Ok(())
    }
}
