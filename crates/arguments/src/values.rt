//! What `clap` found of a command's arguments.
ghost use Rattle.std.specs.Prelude.{◌≡◌, map, option_map, unwrap_or, IfOk, []};
ghost use Rattle.clap.specs.Words.{all_of, first_of, found_of, rows_of};
ghost use Rattle.arguments.specs.Rules.{is_given};

use clap::ArgMatches;
use std::alloc::{AllocError, Global};

/// Whether a flag is given.
pub fn is_given(matches: &ArgMatches<'_>, id: &str) -> bool
    ensures { result ≡ is_given (first_of id.now (rows_of (found_of matches.now))) }
{
    match value_of(matches, id) {
        Some(word) => word == "true",
        None => false,
    }
}

/// All values of an argument, in the order of the words.
pub fn values_of<'a>(
    alloc: Global,
    matches: &ArgMatches<'a>,
    id: &str,
) -> Result<Vec<&'a str>, AllocError>
    ensures { IfOk result (λ words. map (λ word. word.now) words.items
        ≡ unwrap_or (all_of id.now (rows_of (found_of matches.now))) []) }
{
    let mut words = Vec::new(alloc);
    if let Some(given) = matches.get_strs(id) {
        words.extend_from_slice(given)?;
    }
    Ok(words)
}

/// The first value of an argument, if it has one.
pub fn value_of<'a>(matches: &ArgMatches<'a>, id: &str) -> Option<&'a str>
    ensures { option_map (λ word. word.now) result ≡ first_of id.now (rows_of (found_of matches.now)) }
{
    matches.get_str(id)
}
