//! The command `explain`: what it takes, and what its words ask for.
ghost use Rattle.std.specs.Prelude.{◌≡◌, IfOk, IfSome, IsNone};
ghost use Rattle.clap.specs.Words.{subcommand_rows_of};
ghost use Rattle.command_line.specs.declared.explaining.ExplainWords.{ExplainWords as Wondered};
ghost use Rattle.arguments.specs.Rules.{IsLocal};
ghost use Rattle.command_line.specs.Words.{explain_app, IsExplainIn};

use crate::chained::and_flag;
use arguments::{is_given, new_command, value_of, with_file};
use clap::{ArgMatches, Command};
use std::alloc::{AllocError, Global};

/// The words of the command `explain`.
#[derive(Clone, Copy, Debug)]
pub struct ExplainWords<'a> {
    /// The name of the scenario's file.
    pub file: &'a str,
    /// Whether a JSON document is wanted in place of lines.
    pub json: bool,
}

/// The command `explain`.
pub(crate) fn explain_command<'a>(alloc: Global) -> Result<Command<'a>, AllocError>
    ensures { IfOk result (IsLocal explain_app) }
{
    let about =
        "Prints all errors of a scenario that is refused, or what one that is accepted means";
    let filed = with_file(alloc, new_command(alloc, "explain", about));
    and_flag(
        alloc,
        filed,
        "json",
        "Prints one JSON document in place of lines",
    )
}

/// The explanation that is asked for by words that `clap` took.
pub(crate) fn explain_asked<'a>(matches: &ArgMatches<'a>) -> Option<ExplainWords<'a>>
    ensures some { IfSome result (IsExplainIn (subcommand_rows_of matches.now)) }
    ensures none { IsNone result → (wish : Wondered) → ¬ (IsExplainIn (subcommand_rows_of matches.now) wish) }
{
    let explain = matches.subcommand_matches("explain")?;
    let file = value_of(explain, "FILE")?;
    let json = is_given(explain, "json");
    Some(ExplainWords { file, json })
}
