//! From a text to its diagnostics.
ghost use Rattle.std.specs.Prelude.{◌≡◌, true, IfOk, OnOk};
ghost use Rattle.diagnostics.specs.Told.{IsLeastRule, are_from, has_rule};

use crate::cause::Cause;
use crate::list::{Diagnostic, Diagnostics};
use crate::walk::find_diagnostics;
use base::Memory;
use std::alloc::Global;
use toml_places::Span;

/// The diagnostics of a text that is refused by this rule, by their places. The least rule among them is this one.
pub fn of_refused(alloc: Global, bytes: &[u8], rule: u8) -> Result<Diagnostics, Memory>
    ensures { IfOk result (λ found. (found.rule ≡ rule) × IsLeastRule rule found.list.items) }
{
    let Ok(found) = find_diagnostics(alloc, bytes, rule) else {
        return Err(Memory);
    };
    let Diagnostics {
        list,
        rule: _,
        version,
        groups,
        fault,
    } = found;
    let Ok(list) = told(alloc, list.as_slice(), rule) else {
        return Err(Memory);
    };
    Ok(Diagnostics {
        list,
        rule,
        version,
        groups,
        fault,
    })
}

/// The diagnostics that were found, but for those of rules below this one, by which the text is refused; one
/// in general words in front, where none of this rule was found.
fn told(alloc: Global, found: &[Diagnostic], rule: u8) -> Result<Vec<Diagnostic>, Memory>
    ensures { IfOk result (λ list. IsLeastRule rule list.items) }
{
    let list = from_rule(alloc, found, rule)?;
    if has_rule(list.as_slice(), rule) {
        Ok(list)
    } else {
        led(list, rule)
    }
}

/// Diagnostics of rules from this one on, and one in general words in front of them.
fn led(list: Vec<Diagnostic>, rule: u8) -> Result<Vec<Diagnostic>, Memory>
    requires { are_from rule list.items ≡ true }
    ensures { IfOk result (λ list. IsLeastRule rule list.items) }
{
    let mut list = list;
    list.insert(0, general(rule))?;
    Ok(list)
}

/// The diagnostics but for those of rules below this one.
fn from_rule(alloc: Global, found: &[Diagnostic], rule: u8) -> Result<Vec<Diagnostic>, Memory>
    ensures { IfOk result (λ list. are_from rule list.items ≡ true) }
{
    let mut list = Vec::new(alloc);
    for diagnostic in found {
        push_from(&mut list, diagnostic, rule)?;
    }
    Ok(list)
}

/// Adds a diagnostic, unless it is of a rule below this one.
fn push_from(list: &mut Vec<Diagnostic>, diagnostic: &Diagnostic, rule: u8) -> Result<(), Memory>
    ensures { OnOk result (are_from rule list.old.items ≡ true → are_from rule list.new.items ≡ true) }
{
    if rule <= diagnostic.rule {
        list.push(*diagnostic)?;
    }
    Ok(())
}

/// Whether one of the diagnostics is of this rule.
pub fn has_rule(list: &[Diagnostic], rule: u8) -> bool
    ensures { result ≡ has_rule rule list.now }
{
    list.iter().any(|diagnostic| diagnostic.rule == rule)
}

/// A diagnostic of which the rule alone is known, at the start of the text.
fn general(rule: u8) -> Diagnostic
    ensures { result.rule ≡ rule }
{
    Diagnostic {
        rule,
        cause: Cause::General,
        span: Span { start: 0, end: 0 },
    }
}
