//! The names of captures, as a report shows them.

ghost use Rattle.std.specs.Prelude.{◌≡◌};
ghost use Rattle.capture_request.specs.Names.{without_mark};

/// The name that a run opens as standard input.
pub const STANDARD_INPUT: &str = "-";

/// The mark of a name that is not UTF-8. The escaped bytes of the name follow the mark. No other name begins with this character, since a
/// file name contains no NUL.
pub const ESCAPED: char = '\0';

/// Returns a name without the mark `ESCAPED` at its start. A name without this mark is returned unchanged.
pub fn without_mark(name: &str) -> &str
    ensures { result.now ≡ without_mark name.now }
{
    match name.as_bytes() {
        [0, ..] => &name[1..],
        _ => name,
    }
}
