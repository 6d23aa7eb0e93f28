ghost use Rattle.std.specs.Prelude.{Some};
ghost use Rattle.capture_words.specs.Numbers.{hex_bytes};

use std::fmt;

/// Bytes as hex digits in upper case, two digits for each byte.
#[derive(Clone, Copy)]
pub struct Hex<'a>(pub &'a [u8]);

impl<'a> fmt::Display for Hex<'a> {
    ghost output = { λ hex. Some (hex_bytes hex.0.now) };

    fn fmt<W: fmt::Write>(&self, f: &mut fmt::Formatter<W>) -> fmt::Result {
        for byte in self.0 {
            write!(f, "{byte:02X}")?;
        }
        Ok(())
    }
}
