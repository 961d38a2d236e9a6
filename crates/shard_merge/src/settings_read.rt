//! The settings of shards that are read.
ghost use Rattle.std.specs.Prelude.{◌≡◌, ◌<◌, ◌≤◌, ◌+◌, [], IfErr, OnOk};
ghost use Rattle.sweep_plan.specs.Sweep.{setting_count, run_count, seed_count};
ghost use Rattle.table_rows.specs.Settings.{AreSettings, AreSettingsOf, ReadsSettings};
ghost use Rattle.table_rows.specs.Lines.{AreLines, ReadsLines};
ghost use Rattle.table_rows.specs.Refused.{Refuses};
ghost use Rattle.shard_merge.specs.Behind.{GathersMore, share};
ghost use Rattle.shards.specs.Shards.{IsShard};
ghost use Rattle.sweep.specs.Runs.{IsAskedFor};
ghost use Rattle.sweep.specs.Sums.{AreLinesOf};

use figures::SettingSummary;
use shards::Shard;
use std::alloc::Global;
use sweep::{Gathering, LineKey, are_lines_of};
use sweep_plan::Plan;
use table_rows::{LineFault, are_settings_of, read_lines, read_settings};

/// What is kept of the settings of a sweep while its shards are read.
#[derive(Drop)]
pub(crate) struct SettingsRead {
    /// What is kept of the runs, where each setting runs with each seed.
    gathering: Gathering,
    /// The summaries, where settings have as many runs as are enough.
    settings: Vec<SettingSummary>,
}

impl SettingsRead {
    ghost use Rattle.shard_merge.specs.Behind.{AreBehind, ReadsBehind, summaries_read};
    ghost use Rattle.sweep.specs.Summaries.{IsGathered};

    /// Nothing yet, of a sweep whose settings have at most so many runs each.
    pub(crate) fn new(alloc: Global, each: usize) -> SettingsRead
        requires some { 0 < each }
        requires few { each ≤ 1000000 }
        ensures runs { IsGathered each [] result.gathering }
        ensures settings { result.settings.items ≡ [] }
    {
        SettingsRead {
            gathering: Gathering::new(alloc, each as u64),
            settings: Vec::new(alloc),
        }
    }

    /// Reads what stands behind the first line of a shard, each line of which must be genuine at its place.
    pub(crate) fn read(
        &mut self,
        alloc: Global,
        plan: &Plan,
        key: &LineKey,
        shard: Shard,
        lines: &str,
    ) -> Result<(), LineFault>
        requires asked { IsAskedFor plan.now }
        requires shard { IsShard shard }
        ensures read { OnOk result (ReadsBehind plan.now.until key.now plan.now shard lines.now self.old self.new) }
        ensures refused { IfErr result (Refuses (AreBehind plan.now.until key.now plan.now shard lines.now)) }
    {
        match plan.until() {
            Some(width) => {
                let all = plan.settings();
                let first = shard.first(all);
                let count = share(shard, all);
                read_placed_settings(
                    alloc,
                    plan,
                    key,
                    width,
                    first,
                    count,
                    lines,
                    &mut self.settings,
                )
            }
            None => {
                let all = plan.runs();
                let first = shard.first(all);
                let count = share(shard, all);
                read_placed_lines(alloc, plan, key, first, count, lines, &mut self.gathering)
            }
        }
    }

    /// The summaries of the settings of a sweep that has a width, or none.
    pub(crate) fn into_summaries(self, until: Option<u64>) -> Vec<SettingSummary>
        ensures { result.items ≡ summaries_read until self }
    {
        match until {
            Some(_width) => self.settings,
            None => self.gathering.into_summaries(),
        }
    }
}

/// Reads the lines of the runs from this number on, so many, and gathers their notes.
fn read_placed_lines(
    alloc: Global,
    plan: &Plan,
    key: &LineKey,
    first: usize,
    count: usize,
    lines: &str,
    gathering: &mut Gathering,
) -> Result<(), LineFault>
    requires asked { IsAskedFor plan.now }
    requires within { first + count ≤ run_count plan.now }
    ensures read { OnOk result (ReadsLines lines.now count (GathersMore gathering.old gathering.new) × AreLinesOf key.now plan.now first lines.now count) }
    ensures refused { IfErr result (Refuses (AreLines lines.now count × AreLinesOf key.now plan.now first lines.now count)) }
{
    let placed = are_lines_of(alloc, plan, key, first, count, lines.as_bytes())?;
    if placed {
        return read_lines(alloc, lines, count, gathering);
    }
    Err(LineFault::Torn)
}

/// Reads the lines of the settings from this number on, so many, and adds their summaries.
fn read_placed_settings(
    alloc: Global,
    plan: &Plan,
    key: &LineKey,
    width: u64,
    first: usize,
    count: usize,
    lines: &str,
    settings: &mut Vec<SettingSummary>,
) -> Result<(), LineFault>
    requires asked { IsAskedFor plan.now }
    requires narrow { width ≤ 100 }
    requires within { first + count ≤ setting_count plan.now.swept_keys }
    ensures read { OnOk result (ReadsSettings width (seed_count plan.now.seeds) lines.now count settings.old.items settings.new.items
        × AreSettingsOf key.now plan.now width first lines.now count) }
    ensures refused { IfErr result (Refuses (AreSettings width (seed_count plan.now.seeds) lines.now count × AreSettingsOf key.now plan.now width first lines.now count)) }
{
    let placed = are_settings_of(alloc, plan, key, width, first, count, lines)?;
    if placed {
        let each = plan.runs_of_setting();
        return read_settings(alloc, lines, width, each, count, settings);
    }
    Err(LineFault::Torn)
}

/// How many of so many a shard has.
fn share(shard: Shard, all: usize) -> usize
    requires shard { IsShard shard }
    requires few { all ≤ 1000000 }
    ensures { result ≡ share all shard }
{
    shard.past(all) - shard.first(all)
}
