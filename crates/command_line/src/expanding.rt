//! The command `expand`: what it takes, and what its words ask for.
ghost use Rattle.std.specs.Prelude.{◌≡◌, ℕ, List, IfOk, IfSome, IsNone};
ghost use Rattle.clap.specs.Words.{subcommand_rows_of};
ghost use Rattle.arguments.specs.Rules.{IsLocal};
ghost use Rattle.command_line.specs.Words.{expand_app, IsExpandIn};

use arguments::{new_command, value_of, with_file};
use clap::{ArgMatches, Command};
use std::alloc::{AllocError, Global};

/// The command `expand`.
pub(crate) fn expand_command<'a>(alloc: Global) -> Result<Command<'a>, AllocError>
    ensures { IfOk result (IsLocal expand_app) }
{
    let about = "Prints what a scenario stands for in plain entries, as `run` takes it";
    with_file(alloc, new_command(alloc, "expand", about))
}

/// The file whose plain text is asked for by words that `clap` took.
pub(crate) fn expand_asked<'a>(matches: &ArgMatches<'a>) -> Option<&'a str>
    ensures some { IfSome result (λ file. IsExpandIn (subcommand_rows_of matches.now) file.now) }
    ensures none { IsNone result → (file : List ℕ) → ¬ (IsExpandIn (subcommand_rows_of matches.now) file) }
{
    let expand = matches.subcommand_matches("expand")?;
    let file = value_of(expand, "FILE")?;
    Some(file)
}
