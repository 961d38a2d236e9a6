//! How long a tick lasts: the option that says so, and what its word says.
ghost use Rattle.std.specs.Prelude.{IfOk, IfSome, IsNone, Option, codes};
ghost use Rattle.clap.specs.Words.{App, first_of, found_of, rows_of};
ghost use Rattle.arguments.specs.Rules.{IsLocal};
ghost use Rattle.ticks.specs.declared.tick.Tick.{Tick as ATick};
ghost use Rattle.command_line.specs.Words.{AsksForTick, with_tick};

use crate::chained::and_option;
use arguments::value_of;
use clap::{ArgMatches, Command};
use std::alloc::{AllocError, Global};
use ticks::{Tick, tick_of};

/// A command with one option more, which says how long a tick lasts.
pub(crate) fn with_tick<'a>(
    alloc: Global,
    so_far: Result<Command<'a>, AllocError>,
) -> Result<Command<'a>, AllocError>
    ensures { (app : App) → IfOk so_far.entry (IsLocal app) → IfOk result (IsLocal (with_tick app)) }
{
    and_option(
        alloc,
        so_far,
        "tick",
        "LENGTH",
        "How long a tick lasts, from 1us to 1s, as 1ms: the page then shows its times in units, too",
    )
}

/// How long a tick lasts by the words of a command, if they say so. None where the word of `--tick` doesn't say it.
pub(crate) fn tick_asked(matches: &ArgMatches<'_>) -> Option<Option<Tick>>
    ensures some { IfSome result (AsksForTick (first_of (codes "tick") (rows_of (found_of matches.now)))) }
    ensures none { IsNone result → (tick : Option ATick) → ¬ (AsksForTick (first_of (codes "tick") (rows_of (found_of matches.now))) tick) }
{
    let Some(word) = value_of(matches, "tick") else {
        return Some(None);
    };
    match tick_of(word) {
        Some(tick) => Some(Some(tick)),
        None => None,
    }
}
