//! A page of the settings that the shards of a sweep came to.
ghost use Rattle.std.specs.Prelude.{◌≡◌, All, ◌<◌, IfOk, IfErr, OnOk, length, string_bytes};
ghost use Rattle.goals.specs.Wants.{HasFewRuns, IsBounded};
ghost use Rattle.sweep_plan.specs.Sweep.{setting_count};
ghost use Rattle.sweep_output.specs.Telling.{IsSweepPage};
ghost use Rattle.join_command.specs.Outcomes.{FailsToStorePage, PageFails, PagesAll, StoresPage, scenario_name};

use crate::reading::{gather, name_at};
use crate::storing::store;
use base::Memory;
use command_line::{Failure, PageWords, Release};
use files::Files;
use goals::Want;
use shard_merge::Joined;
use std::alloc::Global;
use std::io;
use sweep_output::{SweepShown, settings_page};
use ticks::Tick;
use trace::Put;

/// Puts the shards in the files of the words together, and writes a page of the settings to a file, which is made once they are.
/// `release` is what the page says of the program.
pub fn page_files<'a, F: Files>(
    alloc: Global,
    release: &Release<'_>,
    words: &PageWords<'a>,
    files: &mut F,
) -> Result<(), Failure<'a>>
    ensures done { OnOk result (PagesAll release.now.version.now (F.known files.old) (F.known files.new) (F.making files.old) words.now) }
    ensures failed { IfErr result (PageFails (F.refused files.old < F.refused files.new) (F.known files.old) (F.known files.new) (F.making files.old) words.now) }
{
    let mut nowhere = Put::new(io::sink());
    let joined = gather(
        alloc,
        words.files.as_slice(),
        words.page,
        files,
        &mut nowhere,
    )?;
    store_page(alloc, release, words, &joined, files)
}

/// Writes a page of the settings to the file that the words name.
fn store_page<'a, F: Files>(
    alloc: Global,
    release: &Release<'_>,
    words: &PageWords<'a>,
    joined: &Joined,
    files: &mut F,
) -> Result<(), Failure<'a>>
    requires few { All HasFewRuns joined.now.settings.items }
    requires all { length joined.now.settings.items ≡ setting_count joined.now.plan.swept_keys }
    ensures done { OnOk result (StoresPage release.now.version.now (F.known files.old) (F.known files.new) (F.making files.old) words.now
        joined.now.plan joined.now.settings.items) }
    ensures failed { IfErr result (FailsToStorePage (F.refused files.old < F.refused files.new) release.now.version.now
        (F.known files.old) (F.known files.new) (F.making files.old) words.now
        joined.now.plan joined.now.settings.items) }
{
    let source = name_at(words.files.as_slice(), words.page, 0);
    let text = page_of(alloc, release, words.tick, words.name, source, &[], joined)?;
    store(source, words.page, text.as_bytes(), files)
}

/// The page of the settings, which calls the scenario by a name, or as its source where none is given, shows its times in units
/// too where it is known how long a tick lasts, and answers what is wanted.
pub(crate) fn page_of(
    alloc: Global,
    release: &Release<'_>,
    tick: Option<Tick>,
    name: Option<&str>,
    source: &str,
    wants: &[Want<'_>],
    joined: &Joined,
) -> Result<String, Failure<'static>>
    requires wants { All IsBounded wants.now }
    requires few { All HasFewRuns joined.now.settings.items }
    requires all { length joined.now.settings.items ≡ setting_count joined.now.plan.swept_keys }
    ensures page { IfOk result
        (λ text. IsSweepPage tick (scenario_name name.entry source.entry).now release.now.version.now joined.now.plan wants.now joined.now.settings.items (string_bytes text)) }
    ensures refused { IfErr result (λ failure. failure ≡ Failure.Memory) }
{
    let shown = SweepShown {
        name: name.unwrap_or(source),
        release: release.version,
        tick,
    };
    match settings_page(
        alloc,
        &shown,
        &joined.plan,
        wants,
        joined.settings.as_slice(),
    ) {
        Ok(text) => Ok(text),
        Err(Memory) => Err(Failure::Memory),
    }
}
