//! What is wrong with the words of a sweep.
ghost use Rattle.std.specs.Prelude.{IfOk, IfSome};
ghost use Rattle.clap.specs.Words.{found_of, rows_of};
ghost use Rattle.word_reasons.specs.Found.{IsReasonOf, IsSeedsReason, SeedsNothing};

use crate::options::{dash_or_tick, shard_word, sweep_clash, until_word};
use crate::swept_keys::swept_keys_reason;
use crate::wants::wants_reason;
use arguments::{value_of, values_of};
use base::Memory;
use clap::ArgMatches;
use decimals::number;
use reasons::{WordFault, WordReason};
use std::alloc::Global;
use sweep_plan::{Plan, PlanFault};

/// What is wrong with the words of a sweep: with its options, one after the other, else with how many runs they ask for.
pub(crate) fn sweep_reason<'a>(
    alloc: Global,
    sweep: &ArgMatches<'a>,
) -> Result<Option<WordReason<'a>>, Memory>
    ensures { IfOk result (λ reason. IfSome reason (IsReasonOf (rows_of (found_of sweep.now)))) }
{
    match option_reason(sweep) {
        Some(reason) => Ok(Some(reason)),
        None => plan_reason(alloc, sweep),
    }
}

/// What is wrong with the options that have one word each, or none.
fn option_reason<'a>(sweep: &ArgMatches<'a>) -> Option<WordReason<'a>>
    ensures { IfSome result (IsReasonOf (rows_of (found_of sweep.now))) }
{
    match sweep_clash(sweep) {
        Some(clash) => Some(clash),
        None => match until_word(sweep) {
            Some(until) => Some(until),
            None => shard_or_tick(sweep),
        },
    }
}

/// What is wrong with the word of `--shard`, else with the name of a file that is written, else with the word of `--tick`.
fn shard_or_tick<'a>(sweep: &ArgMatches<'a>) -> Option<WordReason<'a>>
    ensures { IfSome result (IsReasonOf (rows_of (found_of sweep.now))) }
{
    match shard_word(sweep) {
        Some(shard) => Some(shard),
        None => dash_or_tick(sweep),
    }
}

/// What is wrong with the swept keys, the seeds and what is wanted, else with how many runs there are.
fn plan_reason<'a>(alloc: Global, sweep: &ArgMatches<'a>) -> Result<Option<WordReason<'a>>, Memory>
    ensures { IfOk result (λ reason. IfSome reason (IsReasonOf (rows_of (found_of sweep.now)))) }
{
    if let Some(reason) = swept_keys_reason(alloc, sweep)? {
        return Ok(Some(reason));
    }
    if let Some(reason) = seeds_reason(alloc, sweep)? {
        return Ok(Some(reason));
    }
    if let Some(reason) = wants_reason(alloc, sweep)? {
        return Ok(Some(reason));
    }
    runs_reason(alloc, sweep)
}

/// What is wrong with the word of `--seeds`.
fn seeds_reason<'a>(alloc: Global, sweep: &ArgMatches<'a>) -> Result<Option<WordReason<'a>>, Memory>
    ensures { IfOk result (λ reason. IfSome reason (IsReasonOf (rows_of (found_of sweep.now)))) }
{
    let Some(word) = value_of(sweep, "seeds") else {
        return Ok(None);
    };
    match Plan::read(alloc, &[], Some(word), None) {
        Ok(_) => Ok(None),
        Err(PlanFault::Words) => Ok(Some(seeds_word(word))),
        Err(PlanFault::Memory) => Err(Memory),
    }
}

/// What is wrong with a word of `--seeds` that asks for no sweep.
fn seeds_word<'a>(word: &'a str) -> WordReason<'a>
    ensures { IsSeedsReason word.entry.now result }
{
    match range_of(word) {
        None => WordReason::Word {
            fault: WordFault::Seeds,
            word,
        },
        Some((first, last)) if last < first => WordReason::Word {
            fault: WordFault::SeedsOrder,
            word,
        },
        Some(_) => WordReason::Word {
            fault: WordFault::SeedsMany,
            word,
        },
    }
}

/// The two numbers of a range of seeds, in whichever order.
fn range_of(word: &str) -> Option<(u64, u64)> {
    let (first, rest) = word.split_once('.')?;
    let last = rest.strip_prefix('.')?;
    Some((number(first)?, number(last)?))
}

/// Whether the swept keys and the seeds, each of which may stand, ask for more runs than a sweep has.
fn runs_reason<'a>(alloc: Global, sweep: &ArgMatches<'a>) -> Result<Option<WordReason<'a>>, Memory>
    ensures { IfOk result (λ reason. IfSome reason (IsReasonOf (rows_of (found_of sweep.now)))) }
{
    let words = values_of(alloc, sweep, "set")?;
    match Plan::read(alloc, &words, value_of(sweep, "seeds"), None) {
        Ok(_) => Ok(None),
        Err(PlanFault::Words) => Ok(Some(WordReason::Runs)),
        Err(PlanFault::Memory) => Err(Memory),
    }
}
