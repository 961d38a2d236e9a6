//! The program's commands, as `clap` knows them.
ghost use Rattle.std.specs.Prelude.{◌≡◌, IfOk};
ghost use Rattle.clap.specs.Words.{app_of};
ghost use Rattle.arguments.specs.Rules.{IsLocal};
ghost use Rattle.command_line.specs.Words.{bare_app, check_app, swimsim_app};

use crate::chained::and_command;
use crate::driving::drive_command;
use crate::expanding::expand_command;
use crate::explaining::explain_command;
use crate::initial::init_command;
use crate::joining::join_command;
use crate::paging::page_command;
use crate::running::run_command;
use crate::sweeping::sweep_command;
use arguments::{new_command, with_file};
use clap::Command;
use std::alloc::{AllocError, Global};

/// The whole command line.
pub(crate) fn program_command<'a>(alloc: Global) -> Result<Command<'a>, AllocError>
    ensures { IfOk result (λ command. app_of command ≡ swimsim_app) }
{
    let ran = and_command(bare_command(alloc), run_command(alloc));
    let checked = and_command(ran, check_command(alloc));
    let explained = and_command(checked, explain_command(alloc));
    let expanded = and_command(explained, expand_command(alloc));
    let swept = and_command(expanded, sweep_command(alloc));
    let begun = and_command(swept, init_command(alloc));
    let joined = and_command(begun, join_command(alloc));
    let paged = and_command(joined, page_command(alloc));
    and_command(paged, drive_command(alloc))
}

/// The program, with no command yet.
fn bare_command<'a>(alloc: Global) -> Result<Command<'a>, AllocError>
    ensures { IfOk result (λ command. app_of command ≡ bare_app) }
{
    let named = Command::new(alloc, "swimsim").bin_name("swimsim")?;
    let told = named
        .about("Simulates clusters of the SWIM membership protocol")
        // with a version there is the flag --version; `print_release` prints what it asks for
        .version("");
    Ok(told.no_binary_name(true).subcommand_required(true))
}

/// The command `check`.
fn check_command<'a>(alloc: Global) -> Result<Command<'a>, AllocError>
    ensures { IfOk result (IsLocal check_app) }
{
    let about = "Reads a scenario, and prints how many members it has";
    with_file(alloc, new_command(alloc, "check", about))
}
