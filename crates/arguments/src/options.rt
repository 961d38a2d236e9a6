//! Commands, and their arguments.
ghost use Rattle.std.specs.Prelude.{◌≡◌, IfOk, false};
ghost use Rattle.clap.specs.Words.{App, new_app, rule_of, with_rule};
ghost use Rattle.arguments.specs.Rules.{file_rule, flag_rule, option_rule, required_rule, repeated_rule, IsLocal};

use clap::{Arg, ArgAction, Command};
use std::alloc::{AllocError, Global};

/// A command of this name, which takes nothing yet, and the line that its help begins with.
pub fn new_command<'a>(alloc: Global, name: &'a str, about: &'a str) -> Command<'a>
    ensures { IsLocal (new_app name.entry.now) result }
{
    Command::new(alloc, name).about(about)
}

/// A command with the scenario's file more.
pub fn with_file<'a>(alloc: Global, command: Command<'a>) -> Result<Command<'a>, AllocError>
    ensures { (app : App) → IsLocal app command.entry → IfOk result (IsLocal (with_rule app file_rule)) }
{
    command.arg(file_argument(alloc))
}

/// A command with an option more, which has one value and may be left out.
pub fn with_option<'a>(
    alloc: Global,
    command: Command<'a>,
    name: &'a str,
    value: &'a str,
    help: &'a str,
) -> Result<Command<'a>, AllocError>
    ensures { (app : App) → IsLocal app command.entry → IfOk result (IsLocal (with_rule app (option_rule name.entry.now))) }
{
    command.arg(option(alloc, name, value, help))
}

/// A command with an option more, which has one value and must be given.
pub fn with_required<'a>(
    alloc: Global,
    command: Command<'a>,
    name: &'a str,
    value: &'a str,
    help: &'a str,
) -> Result<Command<'a>, AllocError>
    ensures { (app : App) → IsLocal app command.entry → IfOk result (IsLocal (with_rule app (required_rule name.entry.now))) }
{
    command.arg(option(alloc, name, value, help).required(true))
}

/// A command with an option more, which may be given any number of times, with a value each time.
pub fn with_repeated<'a>(
    alloc: Global,
    command: Command<'a>,
    name: &'a str,
    value: &'a str,
    help: &'a str,
) -> Result<Command<'a>, AllocError>
    ensures { (app : App) → IsLocal app command.entry → IfOk result (IsLocal (with_rule app (repeated_rule name.entry.now))) }
{
    command.arg(option(alloc, name, value, help).action(ArgAction::Append))
}

/// A command with a flag more, which takes no value and may be left out.
pub fn with_flag<'a>(
    alloc: Global,
    command: Command<'a>,
    name: &'a str,
    help: &'a str,
) -> Result<Command<'a>, AllocError>
    ensures { (app : App) → IsLocal app command.entry → IfOk result (IsLocal (with_rule app (flag_rule name.entry.now))) }
{
    command.arg(flag(alloc, name, help))
}

/// The argument for the scenario's file.
fn file_argument<'a>(alloc: Global) -> Arg<'a>
    ensures rule { rule_of result ≡ file_rule }
    ensures local { result.global ≡ false }
{
    Arg::new(alloc, "FILE")
        .help("The scenario, a TOML document")
        .required(true)
}

/// An option with one value, which may be left out.
fn option<'a>(alloc: Global, name: &'a str, value: &'a str, help: &'a str) -> Arg<'a>
    ensures rule { rule_of result ≡ option_rule name.entry.now }
    ensures local { result.global ≡ false }
{
    Arg::new(alloc, name)
        .long(name)
        .value_name(value)
        .help(help)
}

/// A flag, which takes no value and may be left out.
fn flag<'a>(alloc: Global, name: &'a str, help: &'a str) -> Arg<'a>
    ensures rule { rule_of result ≡ flag_rule name.entry.now }
    ensures local { result.global ≡ false }
{
    Arg::new(alloc, name)
        .long(name)
        .action(ArgAction::SetTrue)
        .help(help)
}
