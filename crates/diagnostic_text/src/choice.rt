//! Which diagnostics are shown.
ghost use Rattle.std.specs.Prelude.{◌≡◌, ◌++◌, ◌∷◌, [], IfOk, find, nat_eq, take};
ghost use Rattle.diagnostics.specs.Told.{IsLeastRule};
ghost use Rattle.diagnostic_text.specs.Told.{AreShown};

use base::Memory;
use diagnostics::{Diagnostic, Diagnostics, has_rule};
use std::alloc::Global;

/// At most so many diagnostics are shown.
pub(crate) const MOST: usize = 50;

/// The diagnostics that are shown, at most 50: the first by their places; where none of these is of the least
/// rule, the last of them gives way to the first that is.
pub(crate) fn shown(alloc: Global, diagnostics: &Diagnostics) -> Result<Vec<Diagnostic>, Memory>
    requires least { IsLeastRule diagnostics.now.rule diagnostics.now.list.items }
    ensures { IfOk result (λ shown. AreShown diagnostics.now.rule diagnostics.now.list.items shown.items) }
{
    let found = diagnostics.list.as_slice();
    let first = beginning(found, MOST);
    if has_rule(first, diagnostics.rule) {
        return copied(alloc, first);
    }
    let front = beginning(found, MOST - 1);
    match first_of_rule(found, diagnostics.rule) {
        Some(last) => with_last(alloc, front, last),
        None => copied(alloc, front),
    }
}

/// The first diagnostics, at most so many.
fn beginning(found: &[Diagnostic], most: usize) -> &[Diagnostic]
    ensures { result.now ≡ take most found.now }
{
    if found.len() <= most {
        return found;
    }
    &found[..most]
}

/// The same diagnostics in a list of their own.
fn copied(alloc: Global, found: &[Diagnostic]) -> Result<Vec<Diagnostic>, Memory>
    ensures { IfOk result (λ list. list.items ≡ found.now) }
{
    let mut list = Vec::new(alloc);
    list.extend_from_slice(found)?;
    Ok(list)
}

/// The same diagnostics and one more.
fn with_last(
    alloc: Global,
    front: &[Diagnostic],
    last: Diagnostic,
) -> Result<Vec<Diagnostic>, Memory>
    ensures { IfOk result (λ list. list.items ≡ front.now ++ last ∷ []) }
{
    let mut list = copied(alloc, front)?;
    list.push(last)?;
    Ok(list)
}

/// The first diagnostic of a rule, if there is one.
fn first_of_rule(found: &[Diagnostic], rule: u8) -> Option<Diagnostic>
    ensures { result ≡ find (λ m. nat_eq m.rule rule) found.now }
{
    for diagnostic in found {
        if diagnostic.rule == rule {
            return Some(*diagnostic);
        }
    }
    None
}
