//! What is kept of the runs of a sweep while they are made.
ghost use Rattle.std.specs.Prelude.{◌≡◌, ◌<◌, ◌≤◌, ◌++◌, ◌∷◌, ℕ, [], List, OnOk, OnErr};
ghost use Rattle.figures.specs.Kept.{runs_kept};
ghost use Rattle.figures.specs.Notes.{Note};

use base::Memory;
use figures::{RunMetadata, SettingFigures, SettingSummary};
use std::alloc::Global;
use std::mem::replace;

/// Gathers the notes of runs that are made one after the other.
pub trait Gather {
    // these notes are gathered, by settings of so many runs
    ghost has: { Self → ℕ → List Note → Type 0 };

    /// Adds the note of the next run.
    fn add(&mut self, alloc: Global, note: &RunMetadata) -> Result<(), Memory>
        ensures { OnOk result ((each : ℕ) (notes : List Note) → has self.old each notes → has self.new each (notes ++ note.now ∷ [])) };
}

/// Nothing is kept.
#[derive(Drop)]
pub struct NothingKept;

impl Gather for NothingKept {
    ghost has = { λ _ _ _. Unit {0} };

    fn add(&mut self, _alloc: Global, _note: &RunMetadata) -> Result<(), Memory> {
        Ok(())
    }
}

/// What is kept of the runs of a sweep while they are made, one after the other.
#[derive(Drop)]
pub struct Gathering {
    /// How many runs each setting has.
    each: u64,
    /// The summaries of the settings whose runs are all made.
    summaries: Vec<SettingSummary>,
    /// The figures of the setting whose runs are not all made yet.
    figures: SettingFigures,
    ghost few: { each ≤ 1000000 },
    ghost unfinished: { runs_kept figures < each },
}

impl Gathering {
    ghost use Rattle.sweep.specs.Summaries.{IsGathered, summaries_in};

    /// Nothing of a sweep whose settings have so many runs each. It takes no memory.
    pub fn new(alloc: Global, each: u64) -> Gathering
        requires some { 0 < each }
        requires few { each ≤ 1000000 }
        ensures { IsGathered each [] result }
    {
        Gathering {
            each,
            summaries: Vec::new(alloc),
            figures: SettingFigures::new(alloc),
        }
    }

    /// The summaries of the settings, in their order.
    pub fn into_summaries(self) -> Vec<SettingSummary>
        ensures { result.items ≡ summaries_in self }
    {
        self.summaries
    }
}

impl Gather for Gathering {
    ghost use Rattle.sweep.specs.Summaries.{IsGathered};

    ghost has = { λ gathering each notes. IsGathered each notes gathering };

    // with its last run a setting is summed up
    fn add(&mut self, alloc: Global, note: &RunMetadata) -> Result<(), Memory> {
        let figures = replace(&mut self.figures, SettingFigures::new(alloc));
        let figures = figures.with(note)?;
        if figures.runs() < self.each {
            self.figures = figures;
            return Ok(());
        }
        let summary = figures.summary()?;
        self.summaries.push(summary)?;
        Ok(())
    }
}
