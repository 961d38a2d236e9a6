//! Keys that go together, as a word sets them, and where among swept keys such an axis ends.
ghost use Rattle.std.specs.Prelude.{◌≡◌, ◌<◌, ◌≤◌, ◌-◌, [], ◌∷◌, All, get_or, length, take, drop, IfOk, IfErr, IfSome, IsNone};
ghost use Rattle.decimals.specs.Items.{list_items};
ghost use Rattle.sweep_plan.specs.Axes.{axes_of};
ghost use Rattle.sweep_plan.specs.Asked.{AreAxes, AreColumns, AreNames, AreValuesAt, RefusesAxis, RefusesColumns, RefusesNames, RefusesValuesAt, parts_of};
ghost use Rattle.sweep_plan.specs.Values.{IsValue};
ghost use Rattle.sweep_plan.specs.declared.values.SweptValue.{SweptValue as Wanted};

use crate::fault::PlanFault;
use crate::keys::SweptKey;
use crate::swept_keys::Swept;
use crate::values::SweptValue;
use std::alloc::Global;

/// The swept keys that a word asks for, as `swim.period=200,300`, or as `a+b=1+2,3+4` where keys go together: their names with
/// plus signs between them, an equals sign, and with commas between them the values of each turn, one for each key.
///
/// Failures: `Words` where the word isn't so, or a key may not be set; `Memory`.
pub(crate) fn read_axis(alloc: Global, word: &str) -> Result<Vec<Swept>, PlanFault>
    ensures read { IfOk result (λ axis. AreAxes (word.now ∷ []) axis.items) }
    ensures refused { IfErr result (RefusesAxis word.now) }
{
    let Some((names, list)) = word.split_once('=') else {
        return Err(PlanFault::Words);
    };
    let keys = match read_keys(alloc, names) {
        Ok(keys) => keys,
        Err(fault) => return Err(fault),
    };
    match read_columns(alloc, keys.as_slice(), list) {
        Ok(axis) => Ok(axis),
        Err(fault) => Err(fault),
    }
}

/// The keys of names with plus signs between them.
fn read_keys(alloc: Global, names: &str) -> Result<Vec<SweptKey>, PlanFault>
    ensures read { IfOk result (λ keys. AreNames (parts_of names.now) keys.items) }
    ensures refused { IfErr result (RefusesNames (parts_of names.now)) }
{
    let mut keys = Vec::new(alloc);
    for name in names.split('+') {
        match SweptKey::named(name) {
            Some(key) => {
                if keys.push(key).is_err() {
                    return Err(PlanFault::Memory);
                }
            }
            None => return Err(PlanFault::Words),
        }
    }
    Ok(keys)
}

/// The swept keys of keys that go together, whose values stand in the items of a list, each with a part for each key.
fn read_columns(alloc: Global, keys: &[SweptKey], list: &str) -> Result<Vec<Swept>, PlanFault>
    ensures read { IfOk result (λ axis. AreColumns (length keys.now) keys.now (list_items list.now) axis.items) }
    ensures refused { IfErr result (RefusesColumns keys.now (list_items list.now)) }
{
    let mut axis = Vec::new(alloc);
    for (place, key) in keys.iter().enumerate() {
        let values = match read_values_at(alloc, list, keys.len(), place) {
            Ok(values) => values,
            Err(fault) => return Err(fault),
        };
        if axis.push(Swept::new(*key, 0 < place, values)).is_err() {
            return Err(PlanFault::Memory);
        }
    }
    Ok(axis)
}

/// The values that the parts at a place say, in the items of a list with so many parts each.
fn read_values_at(
    alloc: Global,
    list: &str,
    of: usize,
    place: usize,
) -> Result<Vec<SweptValue>, PlanFault>
    ensures read { IfOk result (λ values. AreValuesAt of place (list_items list.now) values.items) }
    ensures refused { IfErr result (RefusesValuesAt of place (list_items list.now)) }
{
    let mut values = Vec::new(alloc);
    for item in list.split(',') {
        match value_in(item, of, place) {
            Some(value) => {
                if values.push(value).is_err() {
                    return Err(PlanFault::Memory);
                }
            }
            None => return Err(PlanFault::Words),
        }
    }
    Ok(values)
}

/// The value that the part at a place of an item says, where it has so many parts.
fn value_in(item: &str, of: usize, place: usize) -> Option<SweptValue>
    ensures some { IfSome result (λ value. (length (parts_of item.now) ≡ of) × IsValue (get_or (parts_of item.now) place []) value) }
    ensures none { IsNone result → length (parts_of item.now) ≡ of → (value : Wanted) → ¬ (IsValue (get_or (parts_of item.now) place []) value) }
{
    let parts = item.split('+').count();
    if parts != of {
        return None;
    }
    SweptValue::read(part_at(item, place))
}

/// The part of an item at a place.
fn part_at<'a>(item: &'a str, place: usize) -> &'a str
    ensures { result.now ≡ get_or (parts_of item.entry.now) place [] }
{
    match item.split('+').nth(place) {
        Some(part) => part,
        None => "",
    }
}

/// The place behind the axis that begins at a place of swept keys.
pub fn axis_end(swept_keys: &[Swept], from: usize) -> usize
    requires { from < length swept_keys.now }
    ensures past { from < result }
    ensures within { result ≤ length swept_keys.now }
    ensures axis { axes_of (drop from swept_keys.now) ≡ take (result - from) (drop from swept_keys.now) ∷ axes_of (drop result swept_keys.now) }
{
    let mut end = from + 1;
    while end < swept_keys.len() && swept_keys[end].is_together() {
        end += 1;
    }
    end
}
