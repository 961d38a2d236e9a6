//! The legend of a key's lines: the values of the other keys.
ghost use Rattle.std.specs.Prelude.{◌≡◌, ◌++◌, IfOk, OnOk};
ghost use Rattle.std.specs.List.{flat_map, range_with_len};
ghost use Rattle.std.specs.String.{string_bytes};
ghost use Rattle.sweep_keys.specs.Keys.{without, others_words, others_at, sample, legend_entry, more_undrawn, undrawn_words, legend};

use crate::lines::KeyLines;
use base::Memory;
use drawing::push_markup;
use std::alloc::{AllocError, Global};
use sweep_cells::{push_count, push_swept_keys};
use sweep_plan::{Choice, Plan};

/// Appends what each line is: the values of the other keys.
#[tactic(auto, unfolding(crate::specs::Keys::legend))]
pub(crate) fn push_legend(
    alloc: Global,
    text: &mut String,
    plan: &Plan,
    key: usize,
    lines: &KeyLines,
) -> Result<(), Memory>
    ensures { OnOk result (string_bytes text.new ≡ string_bytes text.old ++ legend plan.now.swept_keys lines.now key) }
{
    push_markup(text, "<ul class=\"legend\">")?;
    push_entries(alloc, text, plan, key, lines)?;
    push_markup(text, "</ul>")?;
    let all = plan.settings() / lines.values.max(1);
    push_undrawn(text, all.saturating_sub(lines.lines))?;
    Ok(())
}

/// Appends its entries.
fn push_entries(
    alloc: Global,
    text: &mut String,
    plan: &Plan,
    key: usize,
    lines: &KeyLines,
) -> Result<(), Memory>
    ensures { OnOk result (string_bytes text.new ≡ string_bytes text.old ++ flat_map (legend_entry plan.now.swept_keys lines.now key) (range_with_len 0 lines.now.lines)) }
{
    for line in 0..lines.lines {
        push_entry(alloc, text, plan, key, lines, line)?;
    }
    Ok(())
}

/// Appends the entry of a line.
#[tactic(auto, unfolding(crate::specs::Keys::legend_entry))]
fn push_entry(
    alloc: Global,
    text: &mut String,
    plan: &Plan,
    key: usize,
    lines: &KeyLines,
    line: usize,
) -> Result<(), Memory>
    ensures { OnOk result (string_bytes text.new ≡ string_bytes text.old ++ legend_entry plan.now.swept_keys lines.now key line) }
{
    let first = lines.place(line, 0);
    push_sample(text, line)?;
    push_others_at(alloc, text, plan, key, lines.keys, first)?;
    push_markup(text, "</code></li>")?;
    Ok(())
}

/// Begins an entry of the legend by a shard of its line.
#[tactic(auto, unfolding(crate::specs::Keys::sample))]
fn push_sample(text: &mut String, line: usize) -> Result<(), AllocError>
    ensures { OnOk result (string_bytes text.new ≡ string_bytes text.old ++ sample line) }
{
    write!(
        text,
        "<li><svg class=\"sample\" viewBox=\"0 0 20 10\" aria-hidden=\"true\">\
         <path class=\"path s{line}\" d=\"M0 5H20\"/></svg><code>"
    )
}

/// Appends how many lines aren't drawn.
#[tactic(auto, unfolding(crate::specs::Keys::undrawn_words))]
fn push_undrawn(text: &mut String, more: usize) -> Result<(), AllocError>
    ensures { OnOk result (string_bytes text.new ≡ string_bytes text.old ++ undrawn_words more) }
{
    if more == 0 {
        return Ok(());
    }
    push_more(text, more)
}

/// Appends that so many aren't drawn.
#[tactic(auto, unfolding(crate::specs::Keys::more_undrawn))]
fn push_more(text: &mut String, more: usize) -> Result<(), AllocError>
    ensures { OnOk result (string_bytes text.new ≡ string_bytes text.old ++ more_undrawn more) }
{
    push_markup(text, "<p class=\"soft\">")?;
    push_count(text, more as u64, " more line is", " more lines are")?;
    push_markup(
        text,
        " not drawn; the table of all settings has all figures.</p>",
    )
}

/// Appends the choices of the setting at a place without so many of its keys.
#[tactic(auto, unfolding(crate::specs::Keys::others_at))]
pub(crate) fn push_others_at(
    alloc: Global,
    text: &mut String,
    plan: &Plan,
    key: usize,
    keys: usize,
    place: usize,
) -> Result<(), Memory>
    ensures { OnOk result (string_bytes text.new ≡ string_bytes text.old ++ others_at plan.now.swept_keys key keys place) }
{
    if place >= plan.settings() {
        return Ok(());
    }
    let chosen = plan.setting_at(alloc, place)?;
    let others = without(alloc, &chosen, key, keys)?;
    push_others(alloc, text, &others)?;
    Ok(())
}

/// The choices of a setting without those of so many keys from a place on.
fn without(alloc: Global, chosen: &[Choice], key: usize, keys: usize) -> Result<Vec<Choice>, Memory>
    ensures { IfOk result (λ others. others.items ≡ without key keys chosen.now) }
{
    let before = key.min(chosen.len());
    let after = key.saturating_add(keys).min(chosen.len());
    let mut others = Vec::new(alloc);
    others.extend_from_slice(&chosen[..before])?;
    others.extend_from_slice(&chosen[after..])?;
    Ok(others)
}

/// Appends these choices.
#[tactic(auto, unfolding(crate::specs::Keys::others_words))]
fn push_others(alloc: Global, text: &mut String, others: &[Choice]) -> Result<(), Memory>
    ensures { OnOk result (string_bytes text.new ≡ string_bytes text.old ++ others_words others.now) }
{
    if others.is_empty() {
        text.push_str("all else as in the scenario")?;
        return Ok(());
    }
    push_swept_keys(alloc, text, others)
}
