//! What the words of a command line ask for.
ghost use Rattle.std.specs.Prelude.{◌≡◌, ◌⊎◌, map, IfOk, IfErr, IfSome, IsNone, IsErrOf, List, ℕ};
ghost use Rattle.clap.specs.Words.{FailsBy, fault_of, subcommand_of, subcommand_rows_of};
ghost use Rattle.command_line.specs.Asking.{AsksForNoScenario, AsksForNoTable, AsksForNothing, AsksIn};
ghost use Rattle.command_line.specs.Words.{swimsim_app, Answers, AsksForNoPreset, IsCheckIn, IsNoCommand, NamesNoPreset};

use crate::commands::program_command;
use crate::driving::{DriveWords, drive_asked};
use crate::expanding::expand_asked;
use crate::explaining::{ExplainWords, explain_asked};
use crate::failure::Failure;
use crate::initial::init_asked;
use crate::joining::{JoinWords, join_asked};
use crate::paging::{PageWords, page_asked};
use crate::running::run_asked;
use crate::sweeping::sweep_asked;
use arguments::value_of;
use clap::error::ErrorKind;
use clap::{ArgMatches, Error};
use goals::Want;
use presets::Preset;
use shards::Shard;
use std::alloc::Global;
use std::convert::AsStr;
use sweep_plan::Plan;
use ticks::Tick;

/// How the members are to be divided into parts, in the words of the command line.
#[derive(Clone, Copy, Debug)]
pub enum Split<'a> {
    /// Member m in the part m modulo the number of workers.
    Workers,
    /// Member m in the part m modulo this number.
    Parts(&'a str),
    /// Each member in the part that its item of this list names.
    List(&'a str),
}

/// The words of the command `run`.
#[derive(Clone, Copy, Debug)]
pub struct RunWords<'a> {
    /// The name of the scenario's file.
    pub file: &'a str,
    /// The name of the file that takes the trace.
    pub trace: &'a str,
    /// The name of the file that takes the report, where one is asked for.
    pub report: Option<&'a str>,
    /// The name of the file that takes the page, where one is asked for.
    pub page: Option<&'a str>,
    /// How long a tick lasts, where that is said: the page then shows its times in units, too.
    pub tick: Option<Tick>,
    /// How many workers run it; one where that isn't said.
    pub workers: Option<&'a str>,
    /// How the members are to be divided.
    pub split: Split<'a>,
    /// Whether to report how far the run has come.
    pub progress: bool,
}

/// The words of the command `sweep`.
#[derive(Debug, Drop)]
pub struct SweepWords<'a> {
    /// The name of the scenario's file.
    pub file: &'a str,
    /// The name of the file that takes the table.
    pub table: &'a str,
    /// Which keys of the scenario are set to which values, by which seeds each setting is run, and how
    /// wide the interval of a setting may be for it to get no more of them.
    pub plan: Plan,
    /// Which shard of the sweep is made; all of it where none is named.
    pub shard: Option<Shard>,
    /// Whether a shard goes on where its table was cut off. Never without a shard.
    pub resume: bool,
    /// What is wanted of the settings.
    pub wants: Vec<Want<'a>>,
    /// How many workers make the runs; one where that isn't said.
    pub workers: Option<&'a str>,
    /// Whether to report how far the sweep has come.
    pub progress: bool,
    /// Whether the settings are printed as JSON, an object a line, in place of aligned columns. Never with a shard.
    pub jsonl: bool,
    /// The name of the file that takes the page, where one is asked for. Never with a shard.
    pub page: Option<&'a str>,
    /// How long a tick lasts, where that is said: the page then shows its times in units, too.
    pub tick: Option<Tick>,
}

/// What the words ask for.
#[derive(Debug, Drop)]
pub enum Asked<'a> {
    /// To run a scenario, and write its trace, and its report and its page where they are asked for.
    Run(RunWords<'a>),
    /// To check the scenario in the file of this name.
    Check(&'a str),
    /// To explain what the text in a file means, or why it is refused.
    Explain(ExplainWords<'a>),
    /// To print the plain text for which the scenario in the file of this name stands.
    Expand(&'a str),
    /// To run a scenario by many seeds and settings, and write a table of the runs.
    Sweep(SweepWords<'a>),
    /// To put the shards of a sweep together.
    Join(JoinWords<'a>),
    /// To make a sweep's page of the shards of its table.
    Page(PageWords<'a>),
    /// To run a scenario whose members another program plays, and write its trace, and its report and its page where they
    /// are asked for.
    Drive(DriveWords<'a>),
    /// To be given the scenario of a preset.
    Init(Preset),
    /// To be shown the help that is this answer's text.
    Help(Error),
    /// To be shown which release of the program this is.
    Version,
}

/// What the words, without the program's name, ask for.
///
/// Failures: `Usage` where they are no command; `Preset` where they ask for one that there isn't; `Memory`.
pub fn parse<'a, S: AsStr>(alloc: Global, words: &'a [S]) -> Result<Asked<'a>, Failure<'a>>
    ensures answer { IfOk result (Answers (map S.text words.entry.now)) }
    ensures usage { IsErrOf result Failure.Usage → IsNoCommand (map S.text words.entry.now) }
    ensures preset { IsErrOf result Failure.Preset → AsksForNoPreset (map S.text words.entry.now) }
    ensures failures { IfErr result (λ f. (f ≡ Failure.Usage) ⊎ ((f ≡ Failure.Preset) ⊎ (f ≡ Failure.Memory))) }
{
    match matches_of(alloc, words) {
        Ok(matches) => asked_by(alloc, &matches),
        Err(error) => match error.kind() {
            ErrorKind::OutOfMemory => Err(Failure::Memory),
            ErrorKind::DisplayHelp => Ok(Asked::Help(error)),
            ErrorKind::DisplayVersion => Ok(Asked::Version),
            _ => Err(Failure::Usage),
        },
    }
}

/// What is asked for by words that `clap` took.
///
/// Failures: `Usage` where they ask for nothing; `Preset` where they ask for one that there isn't; `Memory`.
fn asked_by<'a>(alloc: Global, matches: &ArgMatches<'a>) -> Result<Asked<'a>, Failure<'a>>
    ensures answer { IfOk result (AsksIn (subcommand_rows_of matches.now)) }
    ensures usage { IsErrOf result Failure.Usage → AsksForNothing (subcommand_rows_of matches.now) }
    ensures preset { IsErrOf result Failure.Preset
        → NamesNoPreset (subcommand_rows_of matches.now) × AsksForNothing (subcommand_rows_of matches.now) }
    ensures failures { IfErr result (λ f. (f ≡ Failure.Usage) ⊎ ((f ≡ Failure.Preset) ⊎ (f ≡ Failure.Memory))) }
{
    match scenario_asked(matches) {
        Some(asked) => Ok(asked),
        None => match init_asked(matches)? {
            Some(preset) => Ok(Asked::Init(preset)),
            None => table_asked(alloc, matches),
        },
    }
}

/// What is asked for of the scenario in a file: to run it, to check it, to explain it, to drive it or to expand it.
fn scenario_asked<'a>(matches: &ArgMatches<'a>) -> Option<Asked<'a>>
    ensures some { IfSome result (AsksIn (subcommand_rows_of matches.now)) }
    ensures none { IsNone result → AsksForNoScenario (subcommand_rows_of matches.now) }
{
    match run_asked(matches) {
        Some(run) => Some(Asked::Run(run)),
        None => match check_asked(matches) {
            Some(file) => Some(Asked::Check(file)),
            None => match explain_asked(matches) {
                Some(explain) => Some(Asked::Explain(explain)),
                None => match drive_asked(matches) {
                    Some(drive) => Some(Asked::Drive(drive)),
                    None => match expand_asked(matches) {
                        Some(file) => Some(Asked::Expand(file)),
                        None => None,
                    },
                },
            },
        },
    }
}

/// What is asked for that has to do with a sweep's table: to join its shards, to make a page of them or to sweep.
///
/// Failures: `Usage` where none of it is; `Memory`.
fn table_asked<'a>(alloc: Global, matches: &ArgMatches<'a>) -> Result<Asked<'a>, Failure<'a>>
    ensures answer { IfOk result (AsksIn (subcommand_rows_of matches.now)) }
    ensures usage { IsErrOf result Failure.Usage → AsksForNoTable (subcommand_rows_of matches.now) }
    ensures failures { IfErr result (λ f. (f ≡ Failure.Usage) ⊎ (f ≡ Failure.Memory)) }
{
    match join_asked(alloc, matches)? {
        Some(join) => Ok(Asked::Join(join)),
        None => match page_asked(alloc, matches)? {
            Some(page) => Ok(Asked::Page(page)),
            None => Ok(Asked::Sweep(sweep_asked(alloc, matches)?)),
        },
    }
}

/// What `clap` makes of the words.
pub fn matches_of<'a, S: AsStr>(alloc: Global, words: &'a [S]) -> Result<ArgMatches<'a>, Error>
    ensures run { IfOk result
        (λ m. subcommand_rows_of m ≡ subcommand_of swimsim_app (map S.text words.entry.now)) }
    ensures kinds { FailsBy (fault_of swimsim_app (map S.text words.entry.now)) result }
{
    program_command(alloc)?.try_get_matches_from(words)
}

/// The file whose check is asked for by words that `clap` took.
fn check_asked<'a>(matches: &ArgMatches<'a>) -> Option<&'a str>
    ensures some { IfSome result (λ file. IsCheckIn (subcommand_rows_of matches.now) file.now) }
    ensures none { IsNone result → (file : List ℕ) → ¬ (IsCheckIn (subcommand_rows_of matches.now) file) }
{
    let check = matches.subcommand_matches("check")?;
    value_of(check, "FILE")
}
