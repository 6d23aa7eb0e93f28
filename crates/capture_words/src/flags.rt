//! Flags by their names.

ghost use Rattle.std.specs.Prelude.{◌≡◌, OnOk};
ghost use Rattle.std.specs.Io.KnownBytes.{Appends};
ghost use Rattle.std.specs.List.{flat_map, list_any};
ghost use Rattle.capture_words.specs.Flags.{flag_text, flags_text};

use std::io;
use std::io::Write;

/// Writes the word `flags` and the names of the flags that are set, in their order. If no flag is set, it writes `none` instead of names.
pub fn write_flags<W: Write>(output: &mut W, flags: &[(bool, &str)]) -> io::Result<()>
    ensures { OnOk result (Appends (W.contents output.old) (W.contents output.new)
        (flags_text (λ flag. (flag.0, flag.1.now)) flags.now)) }
{
    write!(output, "flags")?;
    write_each(output, flags)?;
    write_flag(output, !is_any_set(flags), "none")
}

/// Writes the name of each flag that is set, after a space.
fn write_each<W: Write>(output: &mut W, flags: &[(bool, &str)]) -> io::Result<()>
    ensures { OnOk result (Appends (W.contents output.old) (W.contents output.new)
        (flat_map (λ flag. flag_text (flag.0, flag.1.now)) flags.now)) }
{
    for flag in flags {
        write_flag(output, flag.0, flag.1)?;
    }
    Ok(())
}

/// Writes the name of a flag after a space, if the flag is set.
fn write_flag<W: Write>(output: &mut W, is_set: bool, name: &str) -> io::Result<()>
    ensures { OnOk result (Appends (W.contents output.old) (W.contents output.new) (flag_text (is_set, name.now))) }
{
    if is_set {
        write!(output, " {name}")
    } else {
        Ok(())
    }
}

/// Whether at least one flag is set.
fn is_any_set(flags: &[(bool, &str)]) -> bool
    ensures { result ≡ list_any (λ flag. flag.0) flags.now }
{
    let mut is_any_set = false;
    for flag in flags {
        is_any_set = is_any_set || flag.0;
    }
    is_any_set
}
