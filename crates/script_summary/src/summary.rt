//! The entries of all six lists, and what they stand for.
ghost use Rattle.std.specs.Prelude.{◌≡◌, ◌≤◌, ◌+◌, length, map, IfOk};
ghost use Rattle.toml.specs.View.{view};
ghost use Rattle.plain_entries.specs.Departures.{back_of, returns_of};
ghost use Rattle.plain_entries.specs.Script.{lists_of};
ghost use Rattle.schema.specs.Tree.{items_at};
ghost use Rattle.schema.specs.declared.schema.FormatKey.TheVariants as key;
ghost use Rattle.script_summary.specs.Entries.{AreOf};
ghost use Rattle.script_summary.specs.Happenings.{of_departure, of_restart, of_slow, of_spell};
ghost use Rattle.script_summary.specs.Summary.{HasReturns, SumsUp, SumsUpRestarts};

use crate::entries::{EntrySummary, entries};
use crate::happening::{departures, restarts, slows, spells};
use base::Memory;
use plain_entries::{Departure, Plain, PlainScript, Restart};
use scenario::Spell;
use schema::{FormatKey, items_at};
use std::alloc::Global;
use toml::Value;

/// The entries of the six lists, and what they stand for.
#[derive(Debug, Drop)]
pub struct ScriptSummary {
    pub crashes: Vec<EntrySummary>,
    pub leaves: Vec<EntrySummary>,
    pub restarts: RestartSummary,
    pub slows: Vec<EntrySummary>,
    pub pauses: Vec<EntrySummary>,
    pub blocks: Vec<EntrySummary>,
}

/// The entries that stand for restarts: those of `[[restart]]`, and crashes and leaves that are back.
#[derive(Debug, Drop)]
pub struct RestartSummary {
    pub own: Vec<EntrySummary>,
    pub of_crashes: Vec<EntrySummary>,
    pub of_leaves: Vec<EntrySummary>,
}

/// The six lists of a document that stand for these plain entries. `extras` has by how much members are slow, entry by entry.
pub(crate) fn summary(
    alloc: Global,
    tree: &Value,
    plain: &PlainScript,
    extras: &[u64],
) -> Result<ScriptSummary, Memory>
    requires { HasReturns (lists_of plain.now) }
    ensures { IfOk result (SumsUp (view tree.now) (lists_of plain.now) extras.now) }
{
    let crashes = gone(alloc, tree, FormatKey::Crash, plain.crashes.as_slice())?;
    let leaves = gone(alloc, tree, FormatKey::Leave, plain.leaves.as_slice())?;
    let restarts = all_restarts(alloc, tree, plain)?;
    let slows = slow(alloc, tree, plain.slows.as_slice(), extras)?;
    let pauses = lasting(alloc, tree, FormatKey::Pause, plain.pauses.as_slice())?;
    let blocks = lasting(alloc, tree, FormatKey::Block, plain.blocks.as_slice())?;
    Ok(ScriptSummary {
        crashes,
        leaves,
        restarts,
        slows,
        pauses,
        blocks,
    })
}

/// The entries that stand for restarts.
fn all_restarts(alloc: Global, tree: &Value, plain: &PlainScript) -> Result<RestartSummary, Memory>
    requires { HasReturns (lists_of plain.now) }
    ensures { IfOk result (SumsUpRestarts (view tree.now) (lists_of plain.now)) }
{
    let all = plain.restarts.as_slice();
    let crashes = count_back(plain.crashes.as_slice());
    let leaves = count_back(plain.leaves.as_slice());
    let (own, back) = all.split_at(all.len() - (crashes + leaves));
    let (of_crashes, of_leaves) = back.split_at(crashes);
    let own = again(alloc, tree, FormatKey::Restart, own)?;
    let of_crashes = again(alloc, tree, FormatKey::Crash, of_crashes)?;
    let of_leaves = again(alloc, tree, FormatKey::Leave, of_leaves)?;
    Ok(RestartSummary {
        own,
        of_crashes,
        of_leaves,
    })
}

/// How many of those that crash or leave are back.
fn count_back(entries: &[Plain<Departure>]) -> usize
    ensures count { result ≡ length (returns_of entries.now) }
    ensures few { result ≤ length entries.now }
{
    let mut count = 0;
    for gone in entries {
        count += back(gone);
    }
    count
}

/// How often one of them is back.
fn back(gone: &Plain<Departure>) -> usize
    ensures { result ≡ length (back_of gone.now.time.back gone.now) }
{
    match gone.time.back {
        Some(_) => 1,
        None => 0,
    }
}

/// The entries of a list that stand for these crashes or leaves.
fn gone(
    alloc: Global,
    tree: &Value,
    list: FormatKey,
    plain: &[Plain<Departure>],
) -> Result<Vec<EntrySummary>, Memory>
    ensures { IfOk result (λ made. AreOf (items_at list (view tree.now)) (map of_departure plain.now) made.items) }
{
    let all = departures(alloc, plain)?;
    entries(alloc, items_at(list, tree), all.as_slice())
}

/// The entries of a list that stand for these restarts.
fn again(
    alloc: Global,
    tree: &Value,
    list: FormatKey,
    plain: &[Plain<Restart>],
) -> Result<Vec<EntrySummary>, Memory>
    ensures { IfOk result (λ made. AreOf (items_at list (view tree.now)) (map of_restart plain.now) made.items) }
{
    let all = restarts(alloc, plain)?;
    entries(alloc, items_at(list, tree), all.as_slice())
}

/// The entries that stand for these slow times. `extras` has by how much, entry by entry.
fn slow(
    alloc: Global,
    tree: &Value,
    plain: &[Plain<Spell>],
    extras: &[u64],
) -> Result<Vec<EntrySummary>, Memory>
    ensures { IfOk result (λ made. AreOf (items_at key.Slow (view tree.now)) (map (of_slow extras.now) plain.now) made.items) }
{
    let all = slows(alloc, plain, extras)?;
    entries(alloc, items_at(FormatKey::Slow, tree), all.as_slice())
}

/// The entries of a list that stand for these pauses or blocks.
fn lasting(
    alloc: Global,
    tree: &Value,
    list: FormatKey,
    plain: &[Plain<Spell>],
) -> Result<Vec<EntrySummary>, Memory>
    ensures { IfOk result (λ made. AreOf (items_at list (view tree.now)) (map of_spell plain.now) made.items) }
{
    let all = spells(alloc, plain)?;
    entries(alloc, items_at(list, tree), all.as_slice())
}
