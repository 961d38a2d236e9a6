//! Why words ask for nothing: what `clap` says of them, or what is wrong with those that it takes.
ghost use Rattle.std.specs.Prelude.{IfOk, IfSome, map};
ghost use Rattle.clap.specs.Words.{found_of, rows_of, subcommand_of, subcommand_rows_of};
ghost use Rattle.command_line.specs.Words.{swimsim_app};
ghost use Rattle.word_reasons.specs.Found.{IsReasonMet, IsReasonOf};
ghost use Rattle.word_reasons.specs.Faults.{IsFaultOf};

use crate::dashes::dash_word;
use crate::options::{dash_or_tick, join_clash, list_word, parts_word, run_clash, workers_word};
use crate::sweeping::sweep_reason;
use crate::wants::wants_reason;
use base::Memory;
use clap::error::ErrorKind;
use clap::{ArgMatches, Error};
use command_line::{Failure, matches_of};
use reasons::{WordFault, WordReason};
use scenario::DivisionFault;
use std::alloc::Global;
use std::convert::AsStr;

/// What is wrong with words.
#[derive(Debug, Drop)]
pub enum WordsFault<'a> {
    /// `clap` refuses them, and this is its text.
    Refused(Error),
    /// It takes them, but they ask for nothing, for this reason.
    Taken(WordReason<'a>),
}

/// What is wrong with the words of a command that failed so, where it is the words that are wrong.
pub fn words_fault<'a, S: AsStr>(
    alloc: Global,
    words: &'a [S],
    failure: &Failure<'_>,
) -> Result<Option<WordsFault<'a>>, Memory>
    ensures { IfOk result (λ fault. IfSome fault (IsFaultOf (subcommand_of swimsim_app (map S.text words.entry.now)))) }
{
    match matches_of(alloc, words) {
        Ok(matches) => match taken_reason(alloc, &matches, failure)? {
            Some(reason) => Ok(Some(WordsFault::Taken(reason))),
            None => Ok(None),
        },
        Err(error) => match error.kind() {
            ErrorKind::OutOfMemory => Err(Memory),
            _ => Ok(Some(WordsFault::Refused(error))),
        },
    }
}

/// What is wrong with the words of the command that was met, which failed so.
fn taken_reason<'a>(
    alloc: Global,
    matches: &ArgMatches<'a>,
    failure: &Failure<'_>,
) -> Result<Option<WordReason<'a>>, Memory>
    ensures { IfOk result (λ reason. IfSome reason (IsReasonMet (subcommand_rows_of matches.now))) }
{
    if let Some(run) = matches.subcommand_matches("run") {
        return Ok(run_reason(run, failure));
    }
    if let Some(join) = matches.subcommand_matches("join") {
        return join_reason(alloc, join, failure);
    }
    if let Some(drive) = matches.subcommand_matches("drive") {
        return Ok(drive_reason(drive, failure));
    }
    match matches.subcommand_matches("sweep") {
        Some(sweep) => sweep_failed(alloc, sweep, failure),
        None => Ok(page_reason(matches, failure)),
    }
}

/// What is wrong with the words of a run.
fn run_reason<'a>(run: &ArgMatches<'a>, failure: &Failure<'_>) -> Option<WordReason<'a>>
    ensures { IfSome result (IsReasonOf (rows_of (found_of run.now))) }
{
    match failure {
        Failure::Usage => match run_clash(run) {
            Some(clash) => Some(clash),
            None => dash_or_tick(run),
        },
        Failure::Workers => workers_word(run),
        Failure::Division(fault) => division_reason(run, *fault),
        _ => None,
    }
}

/// What is wrong with the words of a drive.
fn drive_reason<'a>(drive: &ArgMatches<'a>, failure: &Failure<'_>) -> Option<WordReason<'a>>
    ensures { IfSome result (IsReasonOf (rows_of (found_of drive.now))) }
{
    match failure {
        Failure::Usage => dash_word(drive),
        _ => None,
    }
}

/// What is wrong with the words that divide the members.
fn division_reason<'a>(run: &ArgMatches<'a>, fault: DivisionFault) -> Option<WordReason<'a>>
    ensures { IfSome result (IsReasonOf (rows_of (found_of run.now))) }
{
    match fault {
        DivisionFault::Parts => parts_word(run),
        DivisionFault::PartNumber => list_word(run, WordFault::PartNumber),
        DivisionFault::Length => list_word(run, WordFault::ListLength),
    }
}

/// What is wrong with the words of a sweep.
fn sweep_failed<'a>(
    alloc: Global,
    sweep: &ArgMatches<'a>,
    failure: &Failure<'_>,
) -> Result<Option<WordReason<'a>>, Memory>
    ensures { IfOk result (λ reason. IfSome reason (IsReasonOf (rows_of (found_of sweep.now)))) }
{
    match failure {
        Failure::Usage => sweep_reason(alloc, sweep),
        Failure::Workers => Ok(workers_word(sweep)),
        _ => Ok(None),
    }
}

/// What is wrong with the words of a page.
fn page_reason<'a>(matches: &ArgMatches<'a>, failure: &Failure<'_>) -> Option<WordReason<'a>>
    ensures { IfSome result (IsReasonMet (subcommand_rows_of matches.now)) }
{
    match failure {
        Failure::Usage => {
            let page = matches.subcommand_matches("page")?;
            dash_or_tick(page)
        }
        _ => None,
    }
}

/// What is wrong with the words of a joining.
fn join_reason<'a>(
    alloc: Global,
    join: &ArgMatches<'a>,
    failure: &Failure<'_>,
) -> Result<Option<WordReason<'a>>, Memory>
    ensures { IfOk result (λ reason. IfSome reason (IsReasonOf (rows_of (found_of join.now)))) }
{
    match failure {
        Failure::Usage => match join_clash(join) {
            Some(clash) => Ok(Some(clash)),
            None => join_word(alloc, join),
        },
        _ => Ok(None),
    }
}

/// What is wrong with the name of a file that a joining writes, else with the word of `--tick`, else with what is wanted.
fn join_word<'a>(alloc: Global, join: &ArgMatches<'a>) -> Result<Option<WordReason<'a>>, Memory>
    ensures { IfOk result (λ reason. IfSome reason (IsReasonOf (rows_of (found_of join.now)))) }
{
    match dash_or_tick(join) {
        Some(tick) => Ok(Some(tick)),
        None => wants_reason(alloc, join),
    }
}
