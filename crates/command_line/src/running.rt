//! The command `run`: what it takes, and what its words ask for.
ghost use Rattle.std.specs.Prelude.{◌≡◌, IfOk, IfSome, IsNone};
ghost use Rattle.clap.specs.Words.{App, found_of, rows_of, subcommand_rows_of};
ghost use Rattle.command_line.specs.declared.words.RunWords.{RunWords as Wish};
ghost use Rattle.command_line.specs.declared.words.Split.{Split as Wanted};
ghost use Rattle.arguments.specs.Rules.{IsLocal};
ghost use Rattle.command_line.specs.Words.{run_app, with_outputs, with_parting, IsRunIn, IsSplitIn};

use crate::chained::{and_flag, and_option};
use crate::lasting::{tick_asked, with_tick};
use crate::words::{RunWords, Split};
use crate::written::{names_files, with_written};
use arguments::{is_given, new_command, value_of, with_file};
use clap::{ArgMatches, Command};
use std::alloc::{AllocError, Global};

/// The command `run`.
pub(crate) fn run_command<'a>(alloc: Global) -> Result<Command<'a>, AllocError>
    ensures { IfOk result (IsLocal run_app) }
{
    let about = "Runs a scenario, and writes its trace";
    let filed = with_file(alloc, new_command(alloc, "run", about));
    let written = with_outputs(alloc, filed);
    let parted = with_parting(alloc, written);
    and_flag(
        alloc,
        parted,
        "progress",
        "Prints on standard error how far the run has come",
    )
}

/// A command with the options more that say which files a run is written to, and how long a tick lasts.
fn with_outputs<'a>(
    alloc: Global,
    so_far: Result<Command<'a>, AllocError>,
) -> Result<Command<'a>, AllocError>
    ensures { (app : App) → IfOk so_far.entry (IsLocal app) → IfOk result (IsLocal (with_outputs app)) }
{
    let written = with_written(alloc, so_far);
    with_tick(alloc, written)
}

/// A command with the options more that say how many workers run a scenario, and which part each
/// member is in.
fn with_parting<'a>(
    alloc: Global,
    so_far: Result<Command<'a>, AllocError>,
) -> Result<Command<'a>, AllocError>
    ensures { (app : App) → IfOk so_far.entry (IsLocal app) → IfOk result (IsLocal (with_parting app)) }
{
    let worked = and_option(
        alloc,
        so_far,
        "workers",
        "N",
        "How many workers run the parts, 1 to 64 [default: 1]",
    );
    let parted = and_option(
        alloc,
        worked,
        "parts",
        "P",
        "To how many parts the members are dealt in turn, 1 to 64 [default: the number of workers]",
    );
    and_option(
        alloc,
        parted,
        "division",
        "LIST",
        "The part of each member, 0 to 63, separated by commas; not together with --parts",
    )
}

/// The run that is asked for by words that `clap` took. None where a file that it writes is named `-`, too.
pub(crate) fn run_asked<'a>(matches: &ArgMatches<'a>) -> Option<RunWords<'a>>
    ensures some { IfSome result (IsRunIn (subcommand_rows_of matches.now)) }
    ensures none { IsNone result → (run : Wish) → ¬ (IsRunIn (subcommand_rows_of matches.now) run) }
{
    let run = matches.subcommand_matches("run")?;
    let file = value_of(run, "FILE")?;
    let trace = value_of(run, "trace")?;
    if !names_files(run) {
        return None;
    }
    let report = value_of(run, "report");
    let page = value_of(run, "page");
    let tick = tick_asked(run)?;
    let workers = value_of(run, "workers");
    let split = split_asked(run)?;
    let progress = is_given(run, "progress");
    Some(RunWords {
        file,
        trace,
        report,
        page,
        tick,
        workers,
        split,
        progress,
    })
}

/// How the members are to be divided by the words of a run. The two options for it exclude each other.
fn split_asked<'a>(run: &ArgMatches<'a>) -> Option<Split<'a>>
    ensures some { IfSome result (IsSplitIn (rows_of (found_of run.now))) }
    ensures none { IsNone result → (split : Wanted) → ¬ (IsSplitIn (rows_of (found_of run.now)) split) }
{
    match value_of(run, "parts") {
        None => match value_of(run, "division") {
            None => Some(Split::Workers),
            Some(list) => Some(Split::List(list)),
        },
        Some(parts) => match value_of(run, "division") {
            None => Some(Split::Parts(parts)),
            Some(_) => None,
        },
    }
}
