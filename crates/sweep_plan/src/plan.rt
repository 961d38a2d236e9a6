//! What words ask a sweep for.
ghost use Rattle.std.specs.Prelude.{◌≡◌, ◌≤◌, ◌<◌, ◌^◌, ◌*◌, ◌-◌, ◌/◌, ◌%◌, ◌++◌, Some, All, length, map, min, slice_get, option_map, true, false, IfOk, IfErr, OnOk};
ghost use Rattle.std.specs.Option.{ForSome};
ghost use Rattle.sweep_plan.specs.Sweep.{setting_count, seed_count, run_count};
ghost use Rattle.sweep_plan.specs.Asked.{AreApart, AreSweptKeys, AsksForSeeds, IsSweepOf, RefusesMore, RefusesSeeds, RefusesSweptKeys, RefusesSweep, IsSwept, IsWidth};
ghost use Rattle.sweep_plan.specs.Values.{FitsToml};
ghost use Rattle.sweep_plan.specs.Settings.{settings_of};

use crate::axes::read_axis;
use crate::choice::Choice;
use crate::fault::PlanFault;
use crate::seeds::{Seeds, count, read_range};
use crate::swept_keys::{Swept, is_set};
use base::Memory;
use std::alloc::Global;
use std::marker::Model;

/// The most runs that a sweep has.
const MOST_RUNS: usize = 1_000_000;

/// The swept keys of a sweep, and the seeds with which each of its settings runs.
#[derive(Debug, Drop)]
pub struct Plan {
    swept_keys: Vec<Swept>,
    seeds: Option<Seeds>,
    /// How many settings there are.
    settings: usize,
    /// How often each of them runs.
    each: usize,
    /// How many hundredths the interval of a setting may be wide, where only as many runs are wanted as make it so.
    until: Option<u64>,
}

impl Model for Plan {
    ghost use Rattle.sweep_plan.specs.Sweep.{Sweep};

    ghost Value = { Sweep };

    ghost use Rattle.sweep_plan.specs.Planned.{sweep_of, CountsRuns};

    ghost view = { sweep_of };

    ghost invariant = { CountsRuns };
}

impl Plan {
    /// The plan that words ask for: swept keys such as `swim.period=200,300`, each a key that may be set, an
    /// equals sign and values with commas between them, or such as `suspicion.alpha+lifeguard.confirmations=3+1,4+2`, with a
    /// plus sign between keys that go together and between their values; and a range of seeds such as `1..200`. Where each setting is to have
    /// only as many runs as make its interval so narrow, `until` is its width in hundredths. Whether a document has the items
    /// of lists that keys name is asked by `missing_item`.
    ///
    /// Failures: `Words` where a word is none of these, a key stands twice, or once more with the number 1 behind its item's name, the width isn't 1 to 100, or there are more than
    /// 1,000,000 runs; `Memory`.
    pub fn read(
        alloc: Global,
        swept_keys: &[&str],
        seeds: Option<&str>,
        until: Option<u64>,
    ) -> Result<Plan, PlanFault>
        ensures read { IfOk result (IsSweepOf (map (λ word. word.now) swept_keys.now) (option_map (λ text. text.now) seeds.entry) until) }
        ensures refused { IfErr result (RefusesSweep (map (λ word. word.now) swept_keys.now) (option_map (λ text. text.now) seeds.entry) until) }
    {
        if !may_be(until) {
            return Err(PlanFault::Words);
        }
        let chosen = match read_swept_keys(alloc, swept_keys) {
            Ok(chosen) => chosen,
            Err(fault) => return Err(fault),
        };
        let range = match read_seeds(seeds) {
            Ok(range) => range,
            Err(fault) => return Err(fault),
        };
        let settings = setting_count(&chosen);
        let each = seed_count(range);
        let runs = settings.saturating_mul(each);
        if runs > MOST_RUNS {
            return Err(PlanFault::Words);
        }
        Ok(Plan {
            swept_keys: chosen,
            seeds: range,
            settings,
            each,
            until,
        })
    }

    /// The keys that are set, each with its values.
    pub fn swept_keys(&self) -> &[Swept]
        ensures { result.now ≡ self.now.swept_keys }
    {
        &self.swept_keys
    }

    /// The seeds with which each setting runs; where there are none, each runs once, with the text's own.
    pub fn seeds(&self) -> Option<Seeds>
        ensures { result ≡ self.now.seeds }
    {
        self.seeds
    }

    /// How many hundredths the 95 % interval of a setting's share of runs with a false death may be wide, where
    /// each setting is to have only as many runs as make it so: 1 to 100.
    pub fn until(&self) -> Option<u64>
        ensures same { result ≡ self.now.until }
        ensures width { ForSome result IsWidth }
    {
        self.until
    }

    /// How many settings there are: 1 where nothing is set.
    pub fn settings(&self) -> usize
        ensures { result ≡ setting_count self.now.swept_keys }
    {
        self.settings
    }

    /// How often each setting runs.
    pub fn runs_of_setting(&self) -> usize
        ensures { result ≡ seed_count self.now.seeds }
    {
        self.each
    }

    /// How many runs there are: at most 1,000,000.
    pub fn runs(&self) -> usize
        ensures count { result ≡ run_count self.now }
        ensures few { result ≤ 1000000 }
    {
        let each = self.each;
        each * self.settings
    }

    /// The setting at a place among all, counted from 0: a value for each of the keys, in their order. The
    /// last key's values come one after the other. Where the swept keys are what words asked for, each value
    /// fits.
    pub fn setting_at(&self, alloc: Global, place: usize) -> Result<Vec<Choice>, Memory>
        requires { place < setting_count self.now.swept_keys }
        ensures setting { IfOk result (λ setting. slice_get (settings_of self.now.swept_keys) place ≡ Some setting.items) }
        ensures fits { All IsSwept self.now.swept_keys → IfOk result (λ setting. All (λ c. FitsToml c.value) setting.items) }
    {
        choices(alloc, &self.swept_keys, self.settings, place)
    }
}

/// The setting at a place among those of the swept keys, of which there are so many.
fn choices(
    alloc: Global,
    swept_keys: &[Swept],
    settings: usize,
    place: usize,
) -> Result<Vec<Choice>, Memory>
    requires counted { settings ≡ setting_count swept_keys.now }
    requires inside { place < settings }
    ensures { IfOk result (λ setting. slice_get (settings_of swept_keys.now) place ≡ Some setting.items) }
{
    let mut setting = Vec::new(alloc);
    let mut turn = Turn {
        at: 0,
        below: settings,
        left: place,
    };
    for swept in swept_keys {
        turn = turn.next(swept);
        setting.push(Choice {
            key: swept.key(),
            value: swept.value_at(turn.at),
        })?;
    }
    Ok(setting)
}

/// Where among the settings a choice of values is.
#[derive(Clone, Copy)]
struct Turn {
    /// The place of the last key's value.
    at: usize,
    /// How many settings the swept keys that are left have.
    below: usize,
    /// The place among these.
    left: usize,
}

impl Turn {
    /// The turn after one more swept key.
    fn next(self, swept: &Swept) -> Turn
        requires some { swept.now.together ≡ false → 0 < length swept.now.values }
        requires more { swept.now.together ≡ false → 0 < self.below / length swept.now.values }
        ensures together { swept.now.together ≡ true → result ≡ self }
        ensures apart { swept.now.together ≡ false → (result.below ≡ self.below / length swept.now.values)
            × (result.at ≡ self.left / (self.below / length swept.now.values)) × (result.left ≡ self.left % (self.below / length swept.now.values)) }
    {
        if swept.is_together() {
            return self;
        }
        let below = self.below / swept.values().len();
        Turn {
            at: self.left / below,
            below,
            left: self.left % below,
        }
    }
}

/// The swept keys that words ask for.
fn read_swept_keys(alloc: Global, words: &[&str]) -> Result<Vec<Swept>, PlanFault>
    ensures read { IfOk result (λ swept_keys. AreSweptKeys (map (λ word. word.now) words.now) swept_keys.items) }
    ensures refused { IfErr result (RefusesSweptKeys (map (λ word. word.now) words.now)) }
{
    let mut swept_keys = Vec::new(alloc);
    for word in words {
        let axis = match read_axis(alloc, *word) {
            Ok(axis) => axis,
            Err(fault) => return Err(fault),
        };
        if let Err(fault) = push_axis(alloc, &mut swept_keys, axis) {
            return Err(fault);
        }
    }
    Ok(swept_keys)
}

/// Appends the swept keys of an axis.
///
/// Failures: `Words` where a key then stands twice, or once more with the number 1; `Memory`.
fn push_axis(alloc: Global, swept_keys: &mut Vec<Swept>, axis: Vec<Swept>) -> Result<(), PlanFault>
    requires known { All IsSwept (swept_keys.old.items ++ axis.items) }
    ensures added { OnOk result (swept_keys.new.items ≡ swept_keys.old.items ++ axis.items) }
    ensures once { OnOk result (AreApart swept_keys.old.items → AreApart swept_keys.new.items) }
    ensures refused { IfErr result (RefusesMore (swept_keys.old.items ++ axis.items)) }
{
    for swept in axis {
        let is_taken = match is_set(alloc, swept_keys, swept.key()) {
            Ok(is_taken) => is_taken,
            Err(Memory) => return Err(PlanFault::Memory),
        };
        if is_taken {
            return Err(PlanFault::Words);
        }
        if swept_keys.push(swept).is_err() {
            return Err(PlanFault::Memory);
        }
    }
    Ok(())
}

/// The seeds that a word asks for; none where there is no word.
fn read_seeds(word: Option<&str>) -> Result<Option<Seeds>, PlanFault>
    ensures read { IfOk result (AsksForSeeds (option_map (λ text. text.now) word.entry)) }
    ensures refused { IfErr result (RefusesSeeds (option_map (λ text. text.now) word.entry)) }
{
    match word {
        Some(word) => match read_range(word) {
            Some(seeds) => Ok(Some(seeds)),
            None => Err(PlanFault::Words),
        },
        None => Ok(None),
    }
}

/// Whether an interval may be so many hundredths wide, if that is asked for.
fn may_be(until: Option<u64>) -> bool
    ensures may { result ≡ true → ForSome until IsWidth }
    ensures not { result ≡ false → ¬ (ForSome until IsWidth) }
{
    match until {
        Some(width) => width >= 1 && width <= 100,
        None => true,
    }
}

/// How many settings the swept keys have, or the greatest number there is where they have more.
fn setting_count(swept_keys: &[Swept]) -> usize
    ensures { result ≡ min (setting_count swept_keys.now) (2 ^ 64 - 1) }
{
    let mut settings = 1usize;
    for swept in swept_keys {
        settings = settings.saturating_mul(swept.choice_count());
    }
    settings
}

/// How often each setting runs.
fn seed_count(seeds: Option<Seeds>) -> usize
    requires { ForSome seeds (λ r. r.last < 2 ^ 63) }
    ensures { result ≡ seed_count seeds }
{
    match seeds {
        Some(seeds) => count(seeds),
        None => 1,
    }
}
