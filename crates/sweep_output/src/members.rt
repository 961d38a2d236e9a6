//! Members of an object, as texts.
ghost use Rattle.std.specs.Prelude.{◌≡◌, ◌++◌, ◌∷◌, [], OnOk, IfOk, codes, decimal, map, string_bytes};
ghost use Rattle.figures.specs.SettingLines.{hundredths, tenths};
ghost use Rattle.sweep_output.specs.Objects.{member, or_null, truth};

use base::Memory;
use std::alloc::Global;

/// Adds a member with this name and the text of its value.
pub(crate) fn push_member(
    alloc: Global,
    members: &mut Vec<String>,
    name: &str,
    value: &str,
) -> Result<(), Memory>
    ensures { OnOk result (map string_bytes members.new.items ≡ map string_bytes members.old.items ++ member name.now value.now ∷ []) }
{
    let text = member(alloc, name, value)?;
    members.push(text)?;
    Ok(())
}

/// A member: its name in quotes, a colon and its value.
#[tactic(auto, unfolding(crate::specs::Objects::member))]
fn member(alloc: Global, name: &str, value: &str) -> Result<String, Memory>
    ensures { IfOk result (λ text. string_bytes text ≡ member name.now value.now) }
{
    let mut text = String::new(alloc);
    text.push_str("\"")?;
    text.push_str(name)?;
    text.push_str("\":")?;
    text.push_str(value)?;
    Ok(text)
}

/// Adds a number.
pub(crate) fn push_number(
    alloc: Global,
    members: &mut Vec<String>,
    name: &str,
    number: u128,
) -> Result<(), Memory>
    ensures { OnOk result (map string_bytes members.new.items ≡ map string_bytes members.old.items ++ member name.now (decimal number) ∷ []) }
{
    let value = format!(in alloc; "{number}")?;
    push_member(alloc, members, name, value.as_str())
}

/// Adds a time, or null where there is none.
pub(crate) fn push_time(
    alloc: Global,
    members: &mut Vec<String>,
    name: &str,
    time: Option<u64>,
) -> Result<(), Memory>
    ensures { OnOk result (map string_bytes members.new.items ≡ map string_bytes members.old.items ++ member name.now (or_null decimal time) ∷ []) }
{
    match time {
        Some(ticks) => push_number(alloc, members, name, u128::from(ticks)),
        None => push_member(alloc, members, name, "null"),
    }
}

/// Adds a number of tenths.
pub(crate) fn push_tenths(
    alloc: Global,
    members: &mut Vec<String>,
    name: &str,
    number: u128,
) -> Result<(), Memory>
    ensures { OnOk result (map string_bytes members.new.items ≡ map string_bytes members.old.items ++ member name.now (tenths number) ∷ []) }
{
    let whole = number / 10;
    let rest = number % 10;
    let value = format!(in alloc; "{whole}.{rest}")?;
    push_member(alloc, members, name, value.as_str())
}

/// Adds a number of hundredths.
pub(crate) fn push_hundredths(
    alloc: Global,
    members: &mut Vec<String>,
    name: &str,
    number: u128,
) -> Result<(), Memory>
    ensures { OnOk result (map string_bytes members.new.items ≡ map string_bytes members.old.items ++ member name.now (hundredths number) ∷ []) }
{
    let whole = number / 100;
    let tenth = number / 10 % 10;
    let rest = number % 10;
    let value = format!(in alloc; "{whole}.{tenth}{rest}")?;
    push_member(alloc, members, name, value.as_str())
}

/// Adds a number of hundredths, or null where there is none.
pub(crate) fn push_rate(
    alloc: Global,
    members: &mut Vec<String>,
    name: &str,
    rate: Option<u128>,
) -> Result<(), Memory>
    ensures { OnOk result (map string_bytes members.new.items ≡ map string_bytes members.old.items ++ member name.now (or_null hundredths rate) ∷ []) }
{
    match rate {
        Some(number) => push_hundredths(alloc, members, name, number),
        None => push_member(alloc, members, name, "null"),
    }
}

/// Adds whether something is so.
pub(crate) fn push_truth(
    alloc: Global,
    members: &mut Vec<String>,
    name: &str,
    is_so: bool,
) -> Result<(), Memory>
    ensures { OnOk result (map string_bytes members.new.items ≡ map string_bytes members.old.items ++ member name.now (truth is_so) ∷ []) }
{
    if is_so {
        return push_member(alloc, members, name, "true");
    }
    push_member(alloc, members, name, "false")
}
