//! The command `init`: what it takes, and what its words ask for.
ghost use Rattle.std.specs.Prelude.{◌≡◌, Some, IfOk, IfErr, IfSome, IsNone, false};
ghost use Rattle.clap.specs.Words.{App, rule_of, subcommand_rows_of, with_rule};
ghost use Rattle.presets.specs.declared.preset.Preset.{Preset as Wanted};
ghost use Rattle.arguments.specs.Rules.{IsLocal};
ghost use Rattle.command_line.specs.Words.{init_app, preset_rule, IsInitIn, NamesNoPreset};

use crate::failure::Failure;
use arguments::{new_command, value_of};
use clap::{Arg, ArgMatches, Command};
use presets::Preset;
use std::alloc::{AllocError, Global};

/// The command `init`.
pub(crate) fn init_command<'a>(alloc: Global) -> Result<Command<'a>, AllocError>
    ensures { IfOk result (IsLocal init_app) }
{
    let about = "Prints a scenario to begin with, with a comment on each key";
    with_preset(alloc, new_command(alloc, "init", about))
}

/// A command with the name of a preset more.
fn with_preset<'a>(alloc: Global, command: Command<'a>) -> Result<Command<'a>, AllocError>
    ensures { (app : App) → IsLocal app command.entry → IfOk result (IsLocal (with_rule app preset_rule)) }
{
    command.arg(preset_argument(alloc))
}

/// The argument for the name of a preset.
fn preset_argument<'a>(alloc: Global) -> Arg<'a>
    ensures rule { rule_of result ≡ preset_rule }
    ensures local { result.global ≡ false }
{
    Arg::new(alloc, "PRESET")
        .help(
            "Whose settings it has: memberlist's local, lan or wan, serf or serf-wan, consul or consul-wan, or the defaults of swim",
        )
        .required(true)
}

/// The preset that is asked for by words that `clap` took, if they ask for one.
///
/// Failure: `Preset` where there is none of that name.
pub(crate) fn init_asked<'a>(matches: &ArgMatches<'a>) -> Result<Option<Preset>, Failure<'a>>
    ensures some { IfOk result (λ asked. IfSome asked (IsInitIn (subcommand_rows_of matches.now))) }
    ensures none { IfOk result (λ asked. IsNone asked → (preset : Wanted) → ¬ (IsInitIn (subcommand_rows_of matches.now) preset)) }
    ensures failure { IfErr result (λ f. f ≡ Failure.Preset) }
    ensures unknown { IfErr result (λ f. NamesNoPreset (subcommand_rows_of matches.now)) }
{
    let Some(init) = matches.subcommand_matches("init") else {
        return Ok(None);
    };
    let Some(word) = value_of(init, "PRESET") else {
        return Ok(None);
    };
    match Preset::named(word) {
        Some(preset) => Ok(Some(preset)),
        None => Err(Failure::Preset),
    }
}
