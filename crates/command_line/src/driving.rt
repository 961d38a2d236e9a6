//! The command `drive`: what it takes, and what its words ask for.
ghost use Rattle.std.specs.Prelude.{IfOk, IfSome, IsNone};
ghost use Rattle.clap.specs.Words.{subcommand_rows_of};
ghost use Rattle.command_line.specs.declared.driving.DriveWords.{DriveWords as Wish};
ghost use Rattle.arguments.specs.Rules.{IsLocal};
ghost use Rattle.command_line.specs.Words.{drive_app, IsDriveIn};

use crate::written::{names_files, with_written};
use arguments::{new_command, value_of, with_file};
use clap::{ArgMatches, Command};
use std::alloc::{AllocError, Global};

/// The words of the command `drive`.
#[derive(Clone, Copy, Debug)]
pub struct DriveWords<'a> {
    /// The name of the scenario's file.
    pub file: &'a str,
    /// The name of the file that takes the trace.
    pub trace: &'a str,
    /// The name of the file that takes the report, where one is asked for.
    pub report: Option<&'a str>,
    /// The name of the file that takes the page, where one is asked for.
    pub page: Option<&'a str>,
}

/// The command `drive`.
pub(crate) fn drive_command<'a>(alloc: Global) -> Result<Command<'a>, AllocError>
    ensures { IfOk result (IsLocal drive_app) }
{
    let about =
        "Runs a scenario whose members are another program's: events go to standard output, their answers come from standard input (docs/DRIVE.md)";
    let filed = with_file(alloc, new_command(alloc, "drive", about));
    with_written(alloc, filed)
}

/// The drive that is asked for by words that `clap` took. None where a file that it writes is named `-`, too.
pub(crate) fn drive_asked<'a>(matches: &ArgMatches<'a>) -> Option<DriveWords<'a>>
    ensures some { IfSome result (IsDriveIn (subcommand_rows_of matches.now)) }
    ensures none { IsNone result → (drive : Wish) → ¬ (IsDriveIn (subcommand_rows_of matches.now) drive) }
{
    let drive = matches.subcommand_matches("drive")?;
    let file = value_of(drive, "FILE")?;
    let trace = value_of(drive, "trace")?;
    if !names_files(drive) {
        return None;
    }
    let report = value_of(drive, "report");
    let page = value_of(drive, "page");
    Some(DriveWords {
        file,
        trace,
        report,
        page,
    })
}
