//! The checks of a run, before its files are made.
ghost use Rattle.std.specs.Prelude.{◌≡◌, IfOk, IfErr, length};
ghost use Rattle.scenario.specs.Setup.{member_count};
ghost use Rattle.scenario_files.specs.Checks.{FailsCheck, PassesChecks};

use crate::loading::load;
use command_line::{Failure, RunWords, division_asked, workers_asked};
use files::Files;
use scenario::{Division, Scenario, Workers};
use std::alloc::Global;

/// What a run goes by, once its checks have passed.
#[derive(Drop)]
pub struct PreparedRun {
    /// How many workers run it.
    pub workers: Workers,
    /// What is run.
    pub scenario: Scenario,
    /// How its members are divided into parts.
    pub division: Division,
}

/// The checks of a run, in their order: how many workers, which scenario, which division of its members.
pub fn prepare<'a, F: Files>(
    alloc: Global,
    words: RunWords<'a>,
    files: &mut F,
) -> Result<PreparedRun, Failure<'a>>
    ensures passed { IfOk result (λ p. PassesChecks (F.known files.old) words.entry p.workers p.scenario p.division) }
    ensures failed { IfErr result (FailsCheck (F.known files.old) words.entry) }
    ensures divided { IfOk result (λ p. length p.division.part_of ≡ member_count p.scenario) }
    ensures same { F.known files.new ≡ F.known files.old }
    ensures making { F.making files.new ≡ F.making files.old }
    ensures counted { F.refused files.new ≡ F.refused files.old }
{
    let workers = workers_asked(words.workers)?;
    let scenario = load(alloc, words.file, files)?;
    let division = division_asked(alloc, &scenario, words.split, workers)?;
    Ok(PreparedRun {
        workers,
        scenario,
        division,
    })
}
