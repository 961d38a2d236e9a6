//! What is wrong with the words of `--want`.
ghost use Rattle.std.specs.Prelude.{IfOk, IfSome, Contains};
ghost use Rattle.clap.specs.Words.{found_of, rows_of};
ghost use Rattle.word_reasons.specs.Found.{IsReasonOf, IsWantReason, WantsNothing};

use arguments::values_of;
use base::Memory;
use clap::ArgMatches;
use goals::Want;
use reasons::{WordFault, WordReason};
use std::alloc::Global;

/// The statistics of which something may be wanted.
const STATISTICS: [&str; 10] = [
    "out",
    "suspect_p50",
    "confirm_p50",
    "confirm_p99",
    "confirm_greatest",
    "last_p50",
    "last_greatest",
    "false_suspect",
    "thrown_out",
    "messages",
];

/// What is wrong with the words of `--want`: the first that wants nothing.
pub(crate) fn wants_reason<'a>(
    alloc: Global,
    matches: &ArgMatches<'a>,
) -> Result<Option<WordReason<'a>>, Memory>
    ensures { IfOk result (λ reason. IfSome reason (IsReasonOf (rows_of (found_of matches.now)))) }
{
    let words = values_of(alloc, matches, "want")?;
    match refused_want(&words) {
        Some(word) => Ok(Some(want_reason(word))),
        None => Ok(None),
    }
}

/// The first word that wants nothing.
fn refused_want<'a>(words: &[&'a str]) -> Option<&'a str>
    ensures { IfSome result (λ word. Contains words.now word × WantsNothing word.now) }
{
    for word in words {
        match Want::read(*word) {
            Some(_) => {}
            None => return Some(*word),
        }
    }
    None
}

/// What is wrong with a word that wants nothing.
fn want_reason<'a>(word: &'a str) -> WordReason<'a>
    ensures { IsWantReason word.entry.now result }
{
    match statistic_part(word) {
        Some(name) if !STATISTICS.contains(&name) => WordReason::Statistic { word, name },
        _ => WordReason::Word {
            fault: WordFault::Want,
            word,
        },
    }
}

/// What stands before the sign of a word that wants something.
fn statistic_part<'a>(word: &'a str) -> Option<&'a str> {
    let (name, _) = word.split_once("<=")?;
    Some(name)
}
