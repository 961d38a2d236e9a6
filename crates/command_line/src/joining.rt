//! The command `join`: what it takes, and what its words ask for.
ghost use Rattle.std.specs.Prelude.{◌≡◌, ◌⊎◌, ℕ, Some, map, unwrap_or, IfOk, IfErr, IfSome, IsErrOf, IsNone, [], codes, false};
ghost use Rattle.clap.specs.Words.{App, all_of, first_of, found_of, rows_of, rule_of, subcommand_rows_of, with_rule};
ghost use Rattle.arguments.specs.Rules.{IsLocal};
ghost use Rattle.command_line.specs.declared.joining.JoinWords.{JoinWords as Wished};
ghost use Rattle.command_line.specs.Words.{join_app, may_name, shards_rule, IsJoinIn, Meets};

use crate::chained::{and_option, and_required};
use crate::failure::Failure;
use crate::lasting::tick_asked;
use crate::telling::{wants_asked, with_telling};
use crate::written::names_files;
use arguments::{is_given, new_command, value_of, values_of};
use clap::{Arg, ArgMatches, Command};
use goals::Want;
use std::alloc::{AllocError, Global};
use ticks::Tick;

/// The words of the command `join`.
#[derive(Debug, Drop)]
pub struct JoinWords<'a> {
    /// The names of the files with the shards, in any order.
    pub files: Vec<&'a str>,
    /// The name of the file that takes the table.
    pub table: &'a str,
    /// What is wanted of the settings.
    pub wants: Vec<Want<'a>>,
    /// Whether the settings are printed as JSON, an object a line, in place of aligned columns.
    pub jsonl: bool,
    /// The name of the file that takes the page, where one is asked for.
    pub page: Option<&'a str>,
    /// What the page calls the scenario, where that is said. Never without a page.
    pub name: Option<&'a str>,
    /// How long a tick lasts, where that is said: the page then shows its times in units, too.
    pub tick: Option<Tick>,
}

/// The command `join`.
pub(crate) fn join_command<'a>(alloc: Global) -> Result<Command<'a>, AllocError>
    ensures { IfOk result (IsLocal join_app) }
{
    let about = "Puts the shards of a sweep together, and writes the table of the whole";
    let filed = with_shards(alloc, new_command(alloc, "join", about));
    let tabled = and_required(
        alloc,
        filed,
        "table",
        "T",
        "The file that takes the table; one that is there is replaced",
    );
    let told = with_telling(alloc, tabled);
    and_option(
        alloc,
        told,
        "name",
        "FILE",
        "What the page calls the scenario [default: the name of the first SHARD]; only with --page",
    )
}

/// A command with the files of shards more.
pub(crate) fn with_shards<'a>(
    alloc: Global,
    command: Command<'a>,
) -> Result<Command<'a>, AllocError>
    ensures { (app : App) → IsLocal app command.entry → IfOk result (IsLocal (with_rule app shards_rule)) }
{
    command.arg(shards_argument(alloc))
}

/// The argument for the files of shards.
fn shards_argument<'a>(alloc: Global) -> Arg<'a>
    ensures rule { rule_of result ≡ shards_rule }
    ensures local { result.global ≡ false }
{
    Arg::new(alloc, "SHARD")
        .help("The shards, tables that sweep wrote, in any order")
        .required(true)
        .num_args(1..)
}

/// What words that `clap` took ask to join, if they do.
///
/// Failures: `Usage` where they say what to join, but not so that it makes sense: something that is
/// wanted is nothing, a name stands there and no page, or a file that is written is named `-`; `Memory`.
pub(crate) fn join_asked<'a>(
    alloc: Global,
    matches: &ArgMatches<'a>,
) -> Result<Option<JoinWords<'a>>, Failure<'a>>
    ensures some { IfOk result (λ asked. IfSome asked (IsJoinIn (subcommand_rows_of matches.now))) }
    ensures none { IfOk result (λ asked. IsNone asked → (join : Wished) → ¬ (IsJoinIn (subcommand_rows_of matches.now) join)) }
    ensures met { IfErr result (λ f. Meets (codes "join") (subcommand_rows_of matches.now)) }
    ensures usage { IsErrOf result Failure.Usage → (join : Wished) → ¬ (IsJoinIn (subcommand_rows_of matches.now) join) }
    ensures failures { IfErr result (λ f. (f ≡ Failure.Usage) ⊎ (f ≡ Failure.Memory)) }
{
    let Some(join) = matches.subcommand_matches("join") else {
        return Ok(None);
    };
    let Some(table) = value_of(join, "table") else {
        return Ok(None);
    };
    let Some(tick) = tick_asked(join) else {
        return Ok(None);
    };
    if !may_name(join) {
        return Err(Failure::Usage);
    }
    if !names_files(join) {
        return Err(Failure::Usage);
    }
    let wants = wants_asked(alloc, join)?;
    let files = shards_named(alloc, join)?;
    Ok(Some(JoinWords {
        files,
        table,
        wants,
        jsonl: is_given(join, "jsonl"),
        page: value_of(join, "page"),
        name: value_of(join, "name"),
        tick,
    }))
}

/// Whether a name for the scenario is said only where there is a page that takes it.
fn may_name(join: &ArgMatches<'_>) -> bool
    ensures { result ≡ may_name (first_of (codes "page") (rows_of (found_of join.now))) (first_of (codes "name") (rows_of (found_of join.now))) }
{
    value_of(join, "name").is_none() || value_of(join, "page").is_some()
}

/// The names of the files with shards, in the order of the words.
///
/// Failure: `Memory`.
pub(crate) fn shards_named<'a>(
    alloc: Global,
    matches: &ArgMatches<'a>,
) -> Result<Vec<&'a str>, Failure<'a>>
    ensures files { IfOk result (λ files. map (λ word. word.now) files.items
        ≡ unwrap_or (all_of (codes "SHARD") (rows_of (found_of matches.now))) []) }
    ensures failures { IfErr result (λ f. f ≡ Failure.Memory) }
{
    match values_of(alloc, matches, "SHARD") {
        Ok(files) => Ok(files),
        Err(_) => Err(Failure::Memory),
    }
}
