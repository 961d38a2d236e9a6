//! The files that a command writes: the options that name those of a run, and the names.
ghost use Rattle.std.specs.Prelude.{◌≡◌, IfOk};
ghost use Rattle.clap.specs.Words.{App, first_of, found_of, rows_of};
ghost use Rattle.arguments.specs.Rules.{IsLocal};
ghost use Rattle.command_line.specs.Words.{is_dash, names_files, with_written};

use crate::chained::{and_option, and_required};
use arguments::value_of;
use clap::{ArgMatches, Command};
use std::alloc::{AllocError, Global};

/// A command with the options more that say which files a run is written to.
pub(crate) fn with_written<'a>(
    alloc: Global,
    so_far: Result<Command<'a>, AllocError>,
) -> Result<Command<'a>, AllocError>
    ensures { (app : App) → IfOk so_far.entry (IsLocal app) → IfOk result (IsLocal (with_written app)) }
{
    let traced = and_required(
        alloc,
        so_far,
        "trace",
        "T",
        "The file that takes the trace; one that is there is replaced",
    );
    let reported = and_option(
        alloc,
        traced,
        "report",
        "R",
        "The file that takes the report; one that is there is replaced",
    );
    and_option(
        alloc,
        reported,
        "page",
        "P",
        "The file that takes a page of the run, in HTML; one that is there is replaced",
    )
}

/// Whether none of the files that a command writes is named `-`. Other programs take that name for standard output, to
/// which no file goes here.
pub(crate) fn names_files(matches: &ArgMatches<'_>) -> bool
    ensures { result ≡ names_files (rows_of (found_of matches.now)) }
{
    !is_dash(matches, "trace")
        && !is_dash(matches, "report")
        && !is_dash(matches, "table")
        && !is_dash(matches, "page")
        && !is_dash(matches, "out")
}

/// Whether the word of an option is `-`.
fn is_dash(matches: &ArgMatches<'_>, option: &str) -> bool
    ensures { result ≡ is_dash (first_of option.now (rows_of (found_of matches.now))) }
{
    match value_of(matches, option) {
        Some(word) => word == "-",
        None => false,
    }
}
