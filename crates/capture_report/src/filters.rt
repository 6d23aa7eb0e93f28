//! Filters of tcpdump among the names of captures.

ghost use Rattle.std.specs.Prelude.{map};
ghost use Rattle.std.specs.Option.{option_map};
ghost use Rattle.capture_report.specs.FilterNames.{FindsFilter, IsMissingFilter};

use capture_request::is_filter;
use program_files::{FileSystem, missing_file};
use std::io;

/// The first of these names that begins like a filter of tcpdump and is the name of no file, with the error of the operating system. Then
/// no capture is read, since the packets would not be those that are requested.
pub fn missing_filter<'a, S: FileSystem>(
    system: &S,
    names: &[&'a str],
) -> Option<(&'a str, io::Error)>
    ensures { FindsFilter (S.describes system.now) (map (λ name. name.now) names.now)
        (option_map (λ found. (found.0.now, found.1)) result) }
{
    let mut left = names;
    while let [name, others @ ..] = left {
        if let Some(error) = error_of_filter(system, name) {
            return Some((*name, error));
        }
        left = others;
    }
    None
}

/// The error of the operating system if this name begins like a filter of tcpdump and is the name of no file.
fn error_of_filter<S: FileSystem>(system: &S, name: &str) -> Option<io::Error>
    ensures { IsMissingFilter (S.describes system.now) name.now result }
{
    if is_filter(name) {
        missing_file(system, name)
    } else {
        None
    }
}
