//! The command `sweep`: what it takes, and what its words ask for.
ghost use Rattle.std.specs.Prelude.{◌≡◌, ◌⊎◌, ℕ, map, option_map, unwrap_or, IfOk, IfErr, IsErrOf, List, [], Option, Some, codes, true};
ghost use Rattle.clap.specs.Words.{App, first_of, found_of, rows_of, subcommand_rows_of};
ghost use Rattle.sweep_plan.specs.Asked.{IsSweepOf};
ghost use Rattle.sweep_plan.specs.Sweep.{Sweep as Planned};
ghost use Rattle.command_line.specs.declared.words.SweepWords.{SweepWords as Sought};
ghost use Rattle.shards.specs.declared.shard.Shard.{Shard as Part};
ghost use Rattle.arguments.specs.Rules.{is_given, IsLocal};
ghost use Rattle.command_line.specs.Words.{have_sense, names_files, sweep_app, with_settings, with_runs, AreWantsIn, AsksForShard, AsksForWidth, IsPlanIn, IsSweepIn};

use crate::chained::{and_flag, and_option, and_repeated, and_required};
use crate::failure::Failure;
use crate::lasting::tick_asked;
use crate::telling::{wants_asked, with_telling};
use crate::words::SweepWords;
use crate::written::names_files;
use arguments::{is_given, new_command, value_of, values_of, with_file};
use clap::{ArgMatches, Command};
use decimals::number;
use shards::Shard;
use std::alloc::{AllocError, Global};
use sweep_plan::{Plan, PlanFault};

/// The command `sweep`.
pub(crate) fn sweep_command<'a>(alloc: Global) -> Result<Command<'a>, AllocError>
    ensures { IfOk result (IsLocal sweep_app) }
{
    let about = "Runs a scenario by many seeds and settings, and writes a table of the runs";
    let filed = with_file(alloc, new_command(alloc, "sweep", about));
    let made = with_runs(alloc, filed);
    let told = with_telling(alloc, made);
    and_flag(
        alloc,
        told,
        "progress",
        "Prints on standard error how far the sweep has come",
    )
}

/// A command with the options more that say which runs of a sweep are made, and where their table goes.
fn with_runs<'a>(
    alloc: Global,
    so_far: Result<Command<'a>, AllocError>,
) -> Result<Command<'a>, AllocError>
    ensures { (app : App) → IfOk so_far.entry (IsLocal app) → IfOk result (IsLocal (with_runs app)) }
{
    let tabled = and_required(
        alloc,
        so_far,
        "table",
        "T",
        "The file that takes the table, a line for each run; one that is there is replaced",
    );
    let set = with_settings(alloc, tabled);
    let sharded = and_option(
        alloc,
        set,
        "shard",
        "I/N",
        "Makes the I-th of N shards of the runs, for the commands join and page; N is at most 10000",
    );
    let resumed = and_flag(
        alloc,
        sharded,
        "resume",
        "Goes on with a shard whose table T was cut off, after T's last whole line; with --until after T's last whole setting",
    );
    and_option(
        alloc,
        resumed,
        "workers",
        "N",
        "How many workers make the runs, 1 to 64 [default: one for each processor]",
    )
}

/// A command with the options more that say which settings a sweep has, and their seeds.
fn with_settings<'a>(
    alloc: Global,
    so_far: Result<Command<'a>, AllocError>,
) -> Result<Command<'a>, AllocError>
    ensures { (app : App) → IfOk so_far.entry (IsLocal app) → IfOk result (IsLocal (with_settings app)) }
{
    let seeded = and_option(
        alloc,
        so_far,
        "seeds",
        "A..B",
        "The seeds of each setting, from A to B, both included [default: the scenario's seed]",
    );
    let limited = and_option(
        alloc,
        seeded,
        "until",
        "WIDTH",
        "Gives each setting seeds only until the 95 % interval of its share of runs with a false death is at most WIDTH hundredths wide, 1 to 100",
    );
    and_repeated(
        alloc,
        limited,
        "set",
        "KEY=VALUE,VALUE,..",
        "A key of the scenario, as swim.period or group.NAME.count, and its values: each choice of values, one for each key, is a setting; for any number of keys; A+B=1+2,3+4 sets keys that go together",
    )
}

/// The sweep that is asked for by words that `clap` took.
///
/// Failures: `Usage` where they ask for none, as where a whole sweep is to go on, or a file that it writes is named `-`; `Memory`.
pub(crate) fn sweep_asked<'a>(
    alloc: Global,
    matches: &ArgMatches<'a>,
) -> Result<SweepWords<'a>, Failure<'a>>
    ensures sweep { IfOk result (IsSweepIn (subcommand_rows_of matches.now)) }
    ensures usage { IsErrOf result Failure.Usage → (sweep : Sought) → ¬ (IsSweepIn (subcommand_rows_of matches.now) sweep) }
    ensures failures { IfErr result (λ f. (f ≡ Failure.Usage) ⊎ (f ≡ Failure.Memory)) }
{
    match matches.subcommand_matches("sweep") {
        Some(sweep) => words_asked(alloc, sweep),
        None => Err(Failure::Usage),
    }
}

/// The sweep that is asked for by the words of a sweep.
///
/// Failures: `Usage` where they ask for none; `Memory`.
fn words_asked<'a>(alloc: Global, sweep: &ArgMatches<'a>) -> Result<SweepWords<'a>, Failure<'a>>
    ensures sweep { IfOk result (IsSweepIn (Some (codes "sweep", rows_of (found_of sweep.now)))) }
    ensures usage { IsErrOf result Failure.Usage → (wish : Sought) → ¬ (IsSweepIn (Some (codes "sweep", rows_of (found_of sweep.now))) wish) }
    ensures failures { IfErr result (λ f. (f ≡ Failure.Usage) ⊎ (f ≡ Failure.Memory)) }
{
    let Some(file) = value_of(sweep, "FILE") else {
        return Err(Failure::Usage);
    };
    let Some(table) = value_of(sweep, "table") else {
        return Err(Failure::Usage);
    };
    if !have_sense(sweep) {
        return Err(Failure::Usage);
    }
    if !names_files(sweep) {
        return Err(Failure::Usage);
    }
    runs_asked(alloc, sweep, file, table)
}

/// The sweep with these two files that is asked for by the words of a sweep, which go together, and name no file that is written `-`.
///
/// Failures: `Usage` where they ask for none; `Memory`.
fn runs_asked<'a>(
    alloc: Global,
    sweep: &ArgMatches<'a>,
    file: &'a str,
    table: &'a str,
) -> Result<SweepWords<'a>, Failure<'a>>
    requires file { first_of (codes "FILE") (rows_of (found_of sweep.now)) ≡ Some file.now }
    requires table { first_of (codes "table") (rows_of (found_of sweep.now)) ≡ Some table.now }
    requires sense { have_sense (rows_of (found_of sweep.now)) ≡ true }
    requires written { names_files (rows_of (found_of sweep.now)) ≡ true }
    ensures sweep { IfOk result (IsSweepIn (Some (codes "sweep", rows_of (found_of sweep.now)))) }
    ensures usage { IsErrOf result Failure.Usage → (wish : Sought) → ¬ (IsSweepIn (Some (codes "sweep", rows_of (found_of sweep.now))) wish) }
    ensures failures { IfErr result (λ f. (f ≡ Failure.Usage) ⊎ (f ≡ Failure.Memory)) }
{
    let Some(tick) = tick_asked(sweep) else {
        return Err(Failure::Usage);
    };
    let plan = plan_asked(alloc, sweep)?;
    let shard = shard_asked(sweep)?;
    let wants = wants_asked(alloc, sweep)?;
    Ok(SweepWords {
        file,
        table,
        plan,
        shard,
        resume: is_given(sweep, "resume"),
        wants,
        workers: value_of(sweep, "workers"),
        progress: is_given(sweep, "progress"),
        jsonl: is_given(sweep, "jsonl"),
        page: value_of(sweep, "page"),
        tick,
    })
}

/// Whether the words of a sweep go together: only a shard goes on where it was cut off; and only a
/// whole sweep prints its settings and has a page.
fn have_sense(sweep: &ArgMatches<'_>) -> bool
    ensures { result ≡ have_sense (rows_of (found_of sweep.now)) }
{
    match value_of(sweep, "shard") {
        None => !is_given(sweep, "resume"),
        Some(_) => value_of(sweep, "page").is_none() && !is_given(sweep, "jsonl"),
    }
}

/// The plan that is asked for by the words of a sweep.
///
/// Failures: `Usage` where they ask for none; `Memory`.
fn plan_asked<'a>(alloc: Global, sweep: &ArgMatches<'a>) -> Result<Plan, Failure<'a>>
    ensures plan { IfOk result (IsPlanIn (rows_of (found_of sweep.now))) }
    ensures usage { IsErrOf result Failure.Usage → (plan : Planned) → ¬ (IsPlanIn (rows_of (found_of sweep.now)) plan) }
    ensures failures { IfErr result (λ f. (f ≡ Failure.Usage) ⊎ (f ≡ Failure.Memory)) }
{
    let until = width_asked(sweep)?;
    match values_of(alloc, sweep, "set") {
        Ok(swept_keys) => read_plan(
            alloc,
            swept_keys.as_slice(),
            value_of(sweep, "seeds"),
            until,
        ),
        Err(_) => Err(Failure::Memory),
    }
}

/// The plan that these words of swept keys, that of the seeds and the width of the interval ask for.
///
/// Failures: `Usage` where they ask for none; `Memory`.
fn read_plan<'a>(
    alloc: Global,
    swept_keys: &[&str],
    seeds: Option<&str>,
    until: Option<u64>,
) -> Result<Plan, Failure<'a>>
    ensures plan { IfOk result (IsSweepOf (map (λ word. word.now) swept_keys.now) (option_map (λ word. word.now) seeds.entry) until) }
    ensures usage { IsErrOf result Failure.Usage
        → (plan : Planned) → ¬ (IsSweepOf (map (λ word. word.now) swept_keys.now) (option_map (λ word. word.now) seeds.entry) until plan) }
    ensures failures { IfErr result (λ f. (f ≡ Failure.Usage) ⊎ (f ≡ Failure.Memory)) }
{
    match Plan::read(alloc, swept_keys, seeds, until) {
        Ok(plan) => Ok(plan),
        Err(PlanFault::Words) => Err(Failure::Usage),
        Err(PlanFault::Memory) => Err(Failure::Memory),
    }
}

/// How wide, in hundredths, the interval of a setting may be for it to get no more seeds by the words of
/// a sweep, if they say so.
///
/// Failure: `Usage` where the word isn't a number in decimal, without sign or leading zero.
fn width_asked<'a>(sweep: &ArgMatches<'a>) -> Result<Option<u64>, Failure<'a>>
    ensures width { IfOk result (AsksForWidth (first_of (codes "until") (rows_of (found_of sweep.now)))) }
    ensures usage { IsErrOf result Failure.Usage → (width : Option ℕ) → ¬ (AsksForWidth (first_of (codes "until") (rows_of (found_of sweep.now))) width) }
    ensures failures { IfErr result (λ f. f ≡ Failure.Usage) }
{
    let Some(word) = value_of(sweep, "until") else {
        return Ok(None);
    };
    match number(word) {
        Some(width) => Ok(Some(width)),
        None => Err(Failure::Usage),
    }
}

/// The shard that is asked for by the words of a sweep, if any is.
///
/// Failure: `Usage` where the word is no shard, as `3/8`.
fn shard_asked<'a>(sweep: &ArgMatches<'a>) -> Result<Option<Shard>, Failure<'a>>
    ensures shard { IfOk result (AsksForShard (first_of (codes "shard") (rows_of (found_of sweep.now)))) }
    ensures usage { IsErrOf result Failure.Usage → (shard : Option Part) → ¬ (AsksForShard (first_of (codes "shard") (rows_of (found_of sweep.now))) shard) }
    ensures failures { IfErr result (λ f. f ≡ Failure.Usage) }
{
    let Some(word) = value_of(sweep, "shard") else {
        return Ok(None);
    };
    match Shard::read(word) {
        Some(shard) => Ok(Some(shard)),
        None => Err(Failure::Usage),
    }
}
