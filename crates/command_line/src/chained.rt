//! Commands that are put together step by step. Each step takes what those before it came to, and adds nothing where
//! memory was refused to one of them: so what puts a command together has one way out.
ghost use Rattle.std.specs.Prelude.{◌≡◌, IfOk};
ghost use Rattle.clap.specs.Words.{App, app_of, with_rule, with_subcommand};
ghost use Rattle.arguments.specs.Rules.{flag_rule, option_rule, repeated_rule, required_rule, IsLocal};

use arguments::{with_flag, with_option, with_repeated, with_required};
use clap::Command;
use std::alloc::{AllocError, Global};

/// A command with an option more, which has one value and may be left out.
pub(crate) fn and_option<'a>(
    alloc: Global,
    so_far: Result<Command<'a>, AllocError>,
    name: &'a str,
    value: &'a str,
    help: &'a str,
) -> Result<Command<'a>, AllocError>
    ensures { (app : App) → IfOk so_far.entry (IsLocal app) → IfOk result (IsLocal (with_rule app (option_rule name.entry.now))) }
{
    with_option(alloc, so_far?, name, value, help)
}

/// A command with an option more, which has one value and must be given.
pub(crate) fn and_required<'a>(
    alloc: Global,
    so_far: Result<Command<'a>, AllocError>,
    name: &'a str,
    value: &'a str,
    help: &'a str,
) -> Result<Command<'a>, AllocError>
    ensures { (app : App) → IfOk so_far.entry (IsLocal app) → IfOk result (IsLocal (with_rule app (required_rule name.entry.now))) }
{
    with_required(alloc, so_far?, name, value, help)
}

/// A command with an option more, which may be given any number of times, with a value each time.
pub(crate) fn and_repeated<'a>(
    alloc: Global,
    so_far: Result<Command<'a>, AllocError>,
    name: &'a str,
    value: &'a str,
    help: &'a str,
) -> Result<Command<'a>, AllocError>
    ensures { (app : App) → IfOk so_far.entry (IsLocal app) → IfOk result (IsLocal (with_rule app (repeated_rule name.entry.now))) }
{
    with_repeated(alloc, so_far?, name, value, help)
}

/// A command with a flag more, which takes no value and may be left out.
pub(crate) fn and_flag<'a>(
    alloc: Global,
    so_far: Result<Command<'a>, AllocError>,
    name: &'a str,
    help: &'a str,
) -> Result<Command<'a>, AllocError>
    ensures { (app : App) → IfOk so_far.entry (IsLocal app) → IfOk result (IsLocal (with_rule app (flag_rule name.entry.now))) }
{
    with_flag(alloc, so_far?, name, help)
}

/// A command with one more below it.
pub(crate) fn and_command<'a>(
    so_far: Result<Command<'a>, AllocError>,
    below: Result<Command<'a>, AllocError>,
) -> Result<Command<'a>, AllocError>
    ensures { (app : App) → (other : App) → IfOk so_far.entry (λ command. app_of command ≡ app) → IfOk below.entry (IsLocal other)
        → IfOk result (λ command. app_of command ≡ with_subcommand app other.top) }
{
    let below = below?;
    so_far?.subcommand(below)
}
