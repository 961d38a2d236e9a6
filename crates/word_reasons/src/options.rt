//! What is wrong with single options, and with those that don't go together.
ghost use Rattle.std.specs.Prelude.{◌≡◌, ◌⊎◌, ◌<◌, ◌^◌, IfSome};
ghost use Rattle.clap.specs.Words.{found_of, rows_of};
ghost use Rattle.word_reasons.specs.Found.{IsNumberReason, IsReasonOf, tells_settings};

use crate::dashes::dash_word;
use arguments::{is_given, number_within, value_of};
use clap::ArgMatches;
use reasons::{Clash, WordFault, WordReason};
use shards::Shard;
use ticks::tick_of;

/// The options of a run that exclude each other.
pub(crate) fn run_clash<'a>(run: &ArgMatches<'a>) -> Option<WordReason<'a>>
    ensures { IfSome result (IsReasonOf (rows_of (found_of run.now))) }
{
    if value_of(run, "parts").is_some() && value_of(run, "division").is_some() {
        return Some(WordReason::Clash(Clash::PartsAndDivision));
    }
    None
}

/// The option of a joining that needs another one.
pub(crate) fn join_clash<'a>(join: &ArgMatches<'a>) -> Option<WordReason<'a>>
    ensures { IfSome result (IsReasonOf (rows_of (found_of join.now))) }
{
    if value_of(join, "name").is_some() && value_of(join, "page").is_none() {
        return Some(WordReason::Clash(Clash::NameAlone));
    }
    None
}

/// The options of a sweep that don't go together.
pub(crate) fn sweep_clash<'a>(sweep: &ArgMatches<'a>) -> Option<WordReason<'a>>
    ensures { IfSome result (IsReasonOf (rows_of (found_of sweep.now))) }
{
    match value_of(sweep, "shard") {
        None => resume_clash(sweep),
        Some(_) => telling_clash(sweep),
    }
}

/// `--resume` of a whole sweep.
fn resume_clash<'a>(sweep: &ArgMatches<'a>) -> Option<WordReason<'a>>
    ensures { IfSome result (IsReasonOf (rows_of (found_of sweep.now))) }
{
    if value_of(sweep, "shard").is_none() && is_given(sweep, "resume") {
        return Some(WordReason::Clash(Clash::ResumeAlone));
    }
    None
}

/// `--page` or `--jsonl` of a shard.
fn telling_clash<'a>(sweep: &ArgMatches<'a>) -> Option<WordReason<'a>>
    ensures { IfSome result (IsReasonOf (rows_of (found_of sweep.now))) }
{
    if value_of(sweep, "shard").is_some() && tells_settings(sweep) {
        return Some(WordReason::Clash(Clash::ShardTelling));
    }
    None
}

/// Whether the settings are to be printed as objects, or shown by a page.
fn tells_settings(sweep: &ArgMatches<'_>) -> bool
    ensures { result ≡ tells_settings (rows_of (found_of sweep.now)) }
{
    value_of(sweep, "page").is_some() || is_given(sweep, "jsonl")
}

/// The word of `--workers`, where it is no number of them.
pub(crate) fn workers_word<'a>(matches: &ArgMatches<'a>) -> Option<WordReason<'a>>
    ensures { IfSome result (IsReasonOf (rows_of (found_of matches.now))) }
{
    number_word(matches, WordFault::Workers, "workers", 64)
}

/// The word of `--parts`, where it is no number of them.
pub(crate) fn parts_word<'a>(matches: &ArgMatches<'a>) -> Option<WordReason<'a>>
    ensures { IfSome result (IsReasonOf (rows_of (found_of matches.now))) }
{
    number_word(matches, WordFault::Parts, "parts", 64)
}

/// The word of `--until`, where it is no width.
pub(crate) fn until_word<'a>(matches: &ArgMatches<'a>) -> Option<WordReason<'a>>
    ensures { IfSome result (IsReasonOf (rows_of (found_of matches.now))) }
{
    number_word(matches, WordFault::Until, "until", 100)
}

/// The word of an option, where it is no number from 1 to the most.
fn number_word<'a>(
    matches: &ArgMatches<'a>,
    fault: WordFault,
    option: &str,
    most: u64,
) -> Option<WordReason<'a>>
    requires { most < 2 ^ 63 }
    ensures { IfSome result (IsNumberReason (rows_of (found_of matches.now)) fault option.now most) }
{
    let word = value_of(matches, option)?;
    if number_within(word, 1, most).is_some() {
        return None;
    }
    Some(WordReason::Word { fault, word })
}

/// The word of `--division`, of which this is wrong.
pub(crate) fn list_word<'a>(matches: &ArgMatches<'a>, fault: WordFault) -> Option<WordReason<'a>>
    requires { (fault ≡ WordFault.PartNumber) ⊎ (fault ≡ WordFault.ListLength) }
    ensures { IfSome result (IsReasonOf (rows_of (found_of matches.now))) }
{
    let word = value_of(matches, "division")?;
    Some(WordReason::Word { fault, word })
}

/// The word of `--tick`, where it doesn't say how long a tick lasts.
fn tick_word<'a>(matches: &ArgMatches<'a>) -> Option<WordReason<'a>>
    ensures { IfSome result (IsReasonOf (rows_of (found_of matches.now))) }
{
    let word = value_of(matches, "tick")?;
    if tick_of(word).is_some() {
        return None;
    }
    Some(WordReason::Word {
        fault: WordFault::Tick,
        word,
    })
}

/// The file that is written and named `-`, else the word of `--tick`, where it doesn't say how long a tick lasts.
pub(crate) fn dash_or_tick<'a>(matches: &ArgMatches<'a>) -> Option<WordReason<'a>>
    ensures { IfSome result (IsReasonOf (rows_of (found_of matches.now))) }
{
    match dash_word(matches) {
        Some(dash) => Some(dash),
        None => tick_word(matches),
    }
}

/// The word of `--shard`, where it is no shard.
pub(crate) fn shard_word<'a>(sweep: &ArgMatches<'a>) -> Option<WordReason<'a>>
    ensures { IfSome result (IsReasonOf (rows_of (found_of sweep.now))) }
{
    let word = value_of(sweep, "shard")?;
    if Shard::read(word).is_some() {
        return None;
    }
    Some(WordReason::Word {
        fault: WordFault::Shard,
        word,
    })
}
