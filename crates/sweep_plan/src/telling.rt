//! An axis as the word that asks for it.
ghost use Rattle.std.specs.Prelude.{◌≡◌, ◌++◌, ◌==◌, ◌∷◌, [], codes, map, string_bytes, IfOk, OnOk, if◌then◌else◌};
ghost use Rattle.std.specs.List.{join_with_byte, range_with_len};
ghost use Rattle.sweep_plan.specs.Axes.{place_count};
ghost use Rattle.sweep_plan.specs.Asked.{axis_text, names_text, values_text};
ghost use Rattle.sweep_plan.specs.Keys.{key_name};
ghost use Rattle.sweep_plan.specs.Values.{value_text};

use crate::swept_keys::Swept;
use crate::values::SweptValue;
use base::Memory;
use std::alloc::Global;

/// The word that asks for an axis: the names of its keys with plus signs between them, an equals sign, and with commas between
/// them its values at each place, with plus signs between those.
pub fn axis_text(alloc: Global, axis: &[Swept]) -> Result<String, Memory>
    ensures { IfOk result (λ text. string_bytes text ≡ axis_text axis.now) }
{
    let mut text = names_text(alloc, axis)?;
    text.push_str("=")?;
    push_rows(alloc, &mut text, axis)?;
    Ok(text)
}

/// The names of an axis's keys, with plus signs between them.
pub fn names_text(alloc: Global, axis: &[Swept]) -> Result<String, Memory>
    ensures { IfOk result (λ text. string_bytes text ≡ names_text axis.now) }
{
    let mut text = String::new(alloc);
    for (place, swept) in axis.iter().enumerate() {
        push_plus(&mut text, place)?;
        push_name(alloc, &mut text, swept)?;
    }
    Ok(text)
}

/// The values of an axis's keys at a place, with plus signs between them.
pub fn values_text(alloc: Global, axis: &[Swept], at: usize) -> Result<String, Memory>
    ensures { IfOk result (λ text. string_bytes text ≡ values_text axis.now at) }
{
    let mut text = String::new(alloc);
    for (place, swept) in axis.iter().enumerate() {
        push_plus(&mut text, place)?;
        push_value(alloc, &mut text, swept.value_at(at))?;
    }
    Ok(text)
}

/// Appends the values of an axis at each place, with commas between the places.
fn push_rows(alloc: Global, text: &mut String, axis: &[Swept]) -> Result<(), Memory>
    ensures { OnOk result (string_bytes text.new ≡ string_bytes text.old ++ join_with_byte 44 (map (values_text axis.now) (range_with_len 0 (place_count axis.now)))) }
{
    for place in 0..place_count(axis) {
        push_comma(text, place)?;
        push_row(alloc, text, axis, place)?;
    }
    Ok(())
}

/// At how many places an axis has values: as many as its first key has.
pub fn place_count(axis: &[Swept]) -> usize
    ensures { result ≡ place_count axis.now }
{
    match axis {
        [] => 0,
        [first, ..] => first.values().len(),
    }
}

/// Appends the values at a place.
fn push_row(alloc: Global, text: &mut String, axis: &[Swept], at: usize) -> Result<(), Memory>
    ensures { OnOk result (string_bytes text.new ≡ string_bytes text.old ++ values_text axis.now at) }
{
    let row = values_text(alloc, axis, at)?;
    text.push_str(row.as_str())?;
    Ok(())
}

/// Appends the plus sign before what stands at a place, where it isn't the first.
fn push_plus(text: &mut String, place: usize) -> Result<(), Memory>
    ensures { OnOk result (string_bytes text.new ≡ string_bytes text.old ++ (if place == 0 then [] else codes "+")) }
{
    if place == 0 {
        return Ok(());
    }
    text.push_str("+")?;
    Ok(())
}

/// Appends the comma before what stands at a place, where it isn't the first.
fn push_comma(text: &mut String, place: usize) -> Result<(), Memory>
    ensures { OnOk result (string_bytes text.new ≡ string_bytes text.old ++ (if place == 0 then [] else codes ",")) }
{
    if place == 0 {
        return Ok(());
    }
    text.push_str(",")?;
    Ok(())
}

/// Appends the name of a swept key's key.
fn push_name(alloc: Global, text: &mut String, swept: &Swept) -> Result<(), Memory>
    ensures { OnOk result (string_bytes text.new ≡ string_bytes text.old ++ key_name swept.now.key) }
{
    let name = swept.key().name(alloc)?;
    text.push_str(name.as_str())?;
    Ok(())
}

/// Appends a value.
fn push_value(alloc: Global, text: &mut String, value: SweptValue) -> Result<(), Memory>
    ensures { OnOk result (string_bytes text.new ≡ string_bytes text.old ++ value_text value) }
{
    let word = value.text(alloc)?;
    text.push_str(word.as_str())?;
    Ok(())
}
