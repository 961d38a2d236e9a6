//! Which items of a list a name means.
ghost use Rattle.std.specs.Prelude.{◌≡◌, ◌<◌, ◌+◌, ◌^◌, ◌||◌, bytes_eq, cond, map, IfOk};
ghost use Rattle.toml.specs.View.{view};
ghost use Rattle.sweep_plan.specs.Meant.{marks_of};
ghost use Rattle.sweep_plan.specs.Numbered.{IsCut, is_numbered, is_stem};

use crate::items::name_of_item;
use base::Memory;
use decimals::number;
use std::alloc::Global;
use toml::Value;

/// A name that is another one, a dot and a number.
#[derive(Clone, Copy)]
pub(crate) struct Numbered<'a> {
    /// The other name.
    pub(crate) stem: &'a str,
    /// The number.
    pub(crate) number: u64,
}

/// Which of the items a name means: those of the name itself, and, where it is another one with a number behind, the item that
/// has this number among those of that name.
pub(crate) fn marks(alloc: Global, items: &[Value], name: &str) -> Result<Vec<bool>, Memory>
    ensures { IfOk result (λ marks. marks.items ≡ marks_of name.now (map view items.now)) }
{
    let cut = cut_number(name);
    let mut found = 0u64;
    let mut marks = Vec::new(alloc);
    for item in items {
        let own = name_of_item(alloc, item)?;
        found = with_found(found, own.as_str(), &cut);
        marks.push(is_meant(own.as_str(), name, &cut, found))?;
    }
    Ok(marks)
}

/// The other name and the number that a name is.
fn cut_number<'a>(name: &'a str) -> Option<Numbered<'a>>
    ensures { IsCut name.entry.now result }
{
    let Some((stem, digits)) = name.rsplit_once('.') else {
        return None;
    };
    let Some(number) = number(digits) else {
        return None;
    };
    Some(Numbered { stem, number })
}

/// How many items have been found of those that have numbers, with one more item.
fn with_found(found: u64, own: &str, cut: &Option<Numbered<'_>>) -> u64
    requires { found + 1 < 2 ^ 64 }
    ensures { result ≡ found + cond (is_stem cut.now own.now) 1 0 }
{
    if is_stem(own, cut) { found + 1 } else { found }
}

/// Whether an item is one of those that have numbers.
fn is_stem(own: &str, cut: &Option<Numbered<'_>>) -> bool
    ensures { result ≡ is_stem cut.now own.now }
{
    match cut {
        Some(cut) => own == cut.stem,
        None => false,
    }
}

/// Whether an item is meant, where so many of those that have numbers have been found with it.
fn is_meant(own: &str, name: &str, cut: &Option<Numbered<'_>>, found: u64) -> bool
    ensures { result ≡ (bytes_eq own.now name.now || is_numbered cut.now found own.now) }
{
    own == name || is_numbered(own, cut, found)
}

/// Whether an item is the one of the number, where so many have been found with it.
fn is_numbered(own: &str, cut: &Option<Numbered<'_>>, found: u64) -> bool
    ensures { result ≡ is_numbered cut.now found own.now }
{
    match cut {
        Some(cut) => own == cut.stem && found == cut.number,
        None => false,
    }
}
