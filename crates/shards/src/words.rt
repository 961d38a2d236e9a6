//! The words that ask for a sweep, as one text.
ghost use Rattle.std.specs.Prelude.{◌≡◌, ◌++◌, ◌∷◌, flat_map, string_bytes, IfOk, OnOk};
ghost use Rattle.sweep_plan.specs.Axes.{axes_of};
ghost use Rattle.sweep_plan.specs.Asked.{axis_text};
ghost use Rattle.shards.specs.Names.{seeds_word, until_text, plan_text};

use base::Memory;
use std::alloc::Global;
use sweep_plan::{Plan, Seeds, Swept, axis_end, axis_text};

/// The words that ask for a sweep: the range of its seeds, or a dash where it has none, the width of its settings' intervals where
/// it has one, and each key that is set with its values, or keys that go together, with spaces between them, as
/// `1..200 until=5 swim.period=200,300`. No key of a swept key is named `until`.
pub fn plan_text(alloc: Global, plan: &Plan) -> Result<String, Memory>
    ensures { IfOk result (λ text. string_bytes text ≡ plan_text plan.now) }
{
    let mut text = seeds_word(alloc, plan.seeds())?;
    push_width(alloc, &mut text, plan.until())?;
    push_swept_keys(alloc, &mut text, plan.swept_keys())?;
    Ok(text)
}

/// The word of the seeds.
fn seeds_word(alloc: Global, seeds: Option<Seeds>) -> Result<String, Memory>
    ensures { IfOk result (λ text. string_bytes text ≡ seeds_word seeds) }
{
    match seeds {
        Some(seeds) => {
            let first = seeds.first;
            let last = seeds.last;
            Ok(format!(in alloc; "{first}..{last}")?)
        }
        None => Ok(String::from_str(alloc, "-")?),
    }
}

/// Adds a space and the word of the width, where there is one.
fn push_width(alloc: Global, text: &mut String, until: Option<u64>) -> Result<(), Memory>
    ensures { OnOk result (string_bytes text.new ≡ string_bytes text.old ++ until_text until) }
{
    match until {
        Some(width) => {
            let word = format!(in alloc; " until={width}")?;
            text.push_str(word.as_str())?;
            Ok(())
        }
        None => Ok(()),
    }
}

/// Adds a space and the word of each axis.
fn push_swept_keys(alloc: Global, text: &mut String, swept_keys: &[Swept]) -> Result<(), Memory>
    ensures { OnOk result (string_bytes text.new ≡ string_bytes text.old ++ flat_map (λ axis. 32 ∷ axis_text axis) (axes_of swept_keys.now)) }
{
    let mut from = 0;
    while from < swept_keys.len() {
        let end = axis_end(swept_keys, from);
        push_axis(alloc, text, &swept_keys[from..end])?;
        from = end;
    }
    Ok(())
}

/// Adds a space and the word of an axis.
fn push_axis(alloc: Global, text: &mut String, axis: &[Swept]) -> Result<(), Memory>
    ensures { OnOk result (string_bytes text.new ≡ string_bytes text.old ++ 32 ∷ axis_text axis.now) }
{
    let word = axis_text(alloc, axis)?;
    text.push_str(" ")?;
    text.push_str(word.as_str())?;
    Ok(())
}
