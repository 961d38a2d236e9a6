//! What is printed of the settings of a sweep: the options for it, and what their words ask for.
ghost use Rattle.std.specs.Prelude.{◌≡◌, ◌⊎◌, map, unwrap_or, IfOk, IfErr, IsErrOf, List, []};
ghost use Rattle.clap.specs.Words.{App, found_of, rows_of};
ghost use Rattle.goals.specs.declared.want.Want.{Want as Wanting};
ghost use Rattle.arguments.specs.Rules.{IsLocal};
ghost use Rattle.command_line.specs.Words.{with_telling, AreWantsIn};

use crate::chained::{and_flag, and_option, and_repeated};
use crate::failure::Failure;
use crate::lasting::with_tick;
use arguments::values_of;
use clap::{ArgMatches, Command};
use goals::{Want, WantFault, read_wants};
use std::alloc::{AllocError, Global};

/// A command with more options: those that say what is printed of the settings of a sweep, and where.
pub(crate) fn with_telling<'a>(
    alloc: Global,
    so_far: Result<Command<'a>, AllocError>,
) -> Result<Command<'a>, AllocError>
    ensures { (app : App) → IfOk so_far.entry (IsLocal app) → IfOk result (IsLocal (with_telling app)) }
{
    let wanted = and_repeated(
        alloc,
        so_far,
        "want",
        "STATISTIC<=N",
        "What settings are to meet, as 'out<=0.01' or 'confirm_p99<=20000', in quotes; for any number of statistics",
    );
    let objects = and_flag(
        alloc,
        wanted,
        "jsonl",
        "Prints a JSON object for each setting, a line each, in place of columns",
    );
    let paged = and_option(
        alloc,
        objects,
        "page",
        "P",
        "The file that takes a page of the settings, in HTML; one that is there is replaced",
    );
    with_tick(alloc, paged)
}

/// What is wanted of the settings by the words of a command.
///
/// Failures: `Usage` where one of them wants nothing; `Memory`.
pub(crate) fn wants_asked<'a>(
    alloc: Global,
    matches: &ArgMatches<'a>,
) -> Result<Vec<Want<'a>>, Failure<'a>>
    ensures wants { IfOk result (λ wants. AreWantsIn (rows_of (found_of matches.now)) wants.items) }
    ensures usage { IsErrOf result Failure.Usage → (wants : List Wanting) → ¬ (AreWantsIn (rows_of (found_of matches.now)) wants) }
    ensures failures { IfErr result (λ f. (f ≡ Failure.Usage) ⊎ (f ≡ Failure.Memory)) }
{
    let words = match values_of(alloc, matches, "want") {
        Ok(words) => words,
        Err(_) => return Err(Failure::Memory),
    };
    match read_wants(alloc, &words) {
        Ok(wants) => Ok(wants),
        Err(WantFault::Words) => Err(Failure::Usage),
        Err(WantFault::Memory) => Err(Failure::Memory),
    }
}
