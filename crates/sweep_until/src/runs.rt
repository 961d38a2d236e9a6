//! What is kept of the runs of one setting while they are made.
ghost use Rattle.std.specs.Prelude.{◌≡◌, ◌≤◌, ◌<◌, ◌∷◌, [], List, IfOk};
ghost use Rattle.figures.specs.Settings.{runs_with};
ghost use Rattle.figures.specs.Notes.{Note};

use crate::widths::is_narrow;
use base::Memory;
use figures::{RunMetadata, SettingFigures, SettingSummary};
use std::alloc::Global;
use std::mem::replace;
use sweep::Gather;

/// The most runs that there is room for.
const MOST_RUNS: u64 = 1_000_000;

/// What is kept of the runs of one setting while they are made, one after the other. There is room for 1,000,000 runs.
#[derive(Drop)]
pub struct SettingRuns {
    /// Their figures.
    figures: SettingFigures,
    /// How many of them have a false death.
    runs_with: u64,
}

impl SettingRuns {
    ghost use Rattle.figures.specs.Settings.{IsSummaryOf};
    ghost use Rattle.sweep_until.specs.Kept.{AreKept, runs_in};
    ghost use Rattle.sweep_until.specs.Until.{is_narrow_of};

    /// Nothing of a setting yet. It takes no memory.
    pub fn new(alloc: Global) -> SettingRuns
        ensures { AreKept [] result }
    {
        SettingRuns {
            figures: SettingFigures::new(alloc),
            runs_with: 0,
        }
    }

    /// Whether the 95 % interval of the share of runs with a false death is at most so many hundredths wide.
    pub fn is_narrow(&self, width: u64) -> bool
        requires { width ≤ 100 }
        ensures { (runs : List Note) → AreKept runs self.now → result ≡ is_narrow_of width runs }
    {
        let runs = self.figures.runs();
        is_narrow(width, self.runs_with.min(runs), runs)
    }

    /// The summary of the runs.
    pub fn into_summary(self) -> Result<SettingSummary, Memory>
        requires { 0 < runs_in self }
        ensures { IfOk result (λ summary. (runs : List Note) → AreKept runs self → IsSummaryOf summary runs) }
    {
        self.figures.summary()
    }
}

impl Gather for SettingRuns {
    ghost use Rattle.sweep_until.specs.Kept.{AreKept};

    ghost has = { λ kept _ runs. AreKept runs kept };

    // a setting has no more runs than there is room for, which the trait can't say
    fn add(&mut self, alloc: Global, note: &RunMetadata) -> Result<(), Memory> {
        let alone = runs_with(alloc, note)?;
        let figures = replace(&mut self.figures, SettingFigures::new(alloc));
        if figures.runs() >= MOST_RUNS {
            return Err(Memory);
        }
        self.figures = figures.with(note)?;
        self.runs_with = self.runs_with.saturating_add(alone);
        Ok(())
    }
}

/// Whether a run has a false death, as its number of such runs: that of a setting which has this run alone.
fn runs_with(alloc: Global, note: &RunMetadata) -> Result<u64, Memory>
    ensures { IfOk result (λ n. n ≡ runs_with (note.now ∷ [])) }
{
    let figures = SettingFigures::new(alloc).with(note)?;
    Ok(figures.summary()?.runs_with)
}
