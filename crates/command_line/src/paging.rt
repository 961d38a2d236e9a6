//! The command `page`: what it takes, and what its words ask for.
ghost use Rattle.std.specs.Prelude.{◌≡◌, IfOk, IfErr, IfSome, IsNone};
ghost use Rattle.clap.specs.Words.{subcommand_rows_of};
ghost use Rattle.arguments.specs.Rules.{IsLocal};
ghost use Rattle.command_line.specs.declared.paging.PageWords.{PageWords as Wished};
ghost use Rattle.command_line.specs.Words.{page_app, IsPageIn};

use crate::chained::{and_option, and_required};
use crate::failure::Failure;
use crate::joining::{shards_named, with_shards};
use crate::lasting::{tick_asked, with_tick};
use crate::written::names_files;
use arguments::{new_command, value_of};
use clap::{ArgMatches, Command};
use std::alloc::{AllocError, Global};
use ticks::Tick;

/// The words of the command `page`.
#[derive(Debug, Drop)]
pub struct PageWords<'a> {
    /// The names of the files with the shards, in any order.
    pub files: Vec<&'a str>,
    /// The name of the file that takes the page.
    pub page: &'a str,
    /// What the page calls the scenario, where that is said.
    pub name: Option<&'a str>,
    /// How long a tick lasts, where that is said: the page then shows its times in units, too.
    pub tick: Option<Tick>,
}

/// The command `page`.
pub(crate) fn page_command<'a>(alloc: Global) -> Result<Command<'a>, AllocError>
    ensures { IfOk result (IsLocal page_app) }
{
    let about = "Makes a sweep's page of the shards of its table";
    let filed = with_shards(alloc, new_command(alloc, "page", about));
    let made = and_required(
        alloc,
        filed,
        "out",
        "P",
        "The file that takes the page, in HTML; one that is there is replaced",
    );
    let named = and_option(
        alloc,
        made,
        "name",
        "FILE",
        "What the page calls the scenario [default: the name of the first SHARD]",
    );
    with_tick(alloc, named)
}

/// The page that is asked for by words that `clap` took, if they ask for one; one whose file is named `-` is none.
///
/// Failure: `Memory`.
pub(crate) fn page_asked<'a>(
    alloc: Global,
    matches: &ArgMatches<'a>,
) -> Result<Option<PageWords<'a>>, Failure<'a>>
    ensures some { IfOk result (λ asked. IfSome asked (IsPageIn (subcommand_rows_of matches.now))) }
    ensures none { IfOk result (λ asked. IsNone asked → (page : Wished) → ¬ (IsPageIn (subcommand_rows_of matches.now) page)) }
    ensures failures { IfErr result (λ f. f ≡ Failure.Memory) }
{
    let Some(words) = matches.subcommand_matches("page") else {
        return Ok(None);
    };
    let Some(page) = value_of(words, "out") else {
        return Ok(None);
    };
    if !names_files(words) {
        return Ok(None);
    }
    let Some(tick) = tick_asked(words) else {
        return Ok(None);
    };
    let files = shards_named(alloc, words)?;
    Ok(Some(PageWords {
        files,
        page,
        name: value_of(words, "name"),
        tick,
    }))
}
