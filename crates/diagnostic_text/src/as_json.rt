//! The diagnostics of a text as JSON.
ghost use Rattle.std.specs.Prelude.{◌≡◌, ◌++◌, ◌∷◌, [], IfOk, OnOk, Some, codes, map, string_bytes, true};
ghost use Rattle.serde_json.specs.Data.{depth, number, put as with_member, string, unsigned};
ghost use Rattle.serde_json.specs.Find.{get};
ghost use Rattle.serde_json.specs.Read.{read};
ghost use Rattle.serde_json.specs.View.{members_view, view};
ghost use Rattle.diagnostics.specs.Told.{IsLeastRule};
ghost use Rattle.diagnostic_text.specs.Told.{AreRulesOf, TellsDocument, are_shallow, document_of, document_with, diagnostic_data};

use crate::choice::{MOST, shown};
use crate::context::Context;
use crate::words::words_of;
use base::Memory;
use diagnostics::{Diagnostic, Diagnostics};
use serde_json::{Map, Value, put};
use std::alloc::{AllocError, Global};
use toml_places::{Position, position_of};

/// The diagnostics of the text of a file as a JSON document, at most 50 of them by their places, on a line of its
/// own; `more` says how many others there are.
pub fn json(
    alloc: Global,
    file: &str,
    bytes: &[u8],
    diagnostics: &Diagnostics,
) -> Result<String, Memory>
    requires least { IsLeastRule diagnostics.now.rule diagnostics.now.list.items }
    ensures { IfOk result (λ text. TellsDocument diagnostics.now.rule (string_bytes text)) }
{
    let context = Context::new(alloc, bytes, diagnostics);
    let shown = shown(alloc, diagnostics)?;
    let values = values(&context, shown.as_slice())?;
    let more = diagnostics.list.len().saturating_sub(MOST);
    let mut text = document_text(alloc, file, values, more)?;
    text.push_str("\n")?;
    Ok(text)
}

/// The text of the document that has these values of diagnostics.
fn document_text(
    alloc: Global,
    file: &str,
    values: Vec<Value>,
    more: usize,
) -> Result<String, Memory>
    ensures { are_shallow (map view values.items) ≡ true → IfOk result
        (λ text. read (string_bytes text) ≡ Some (document_of file.now (map view values.items) more)) }
{
    let document = document(alloc, file, Value::Array(values), more)?;
    Ok(document.to_string(alloc)?)
}

/// The document that has this list of diagnostics.
fn document(alloc: Global, file: &str, diagnostics: Value, more: usize) -> Result<Value, AllocError>
    ensures { IfOk result (λ value. view value ≡ document_with file.now (view diagnostics) more) }
{
    let mut members = Map::new(alloc);
    put(&mut members, alloc, "mistakes", diagnostics)?;
    put(&mut members, alloc, "accepted", Value::Bool(false))?;
    put_text(&mut members, alloc, "file", file)?;
    put_number(&mut members, alloc, "more", more as u64)?;
    Ok(Value::Object(members))
}

/// The values of these diagnostics.
fn values(context: &Context<'_>, shown: &[Diagnostic]) -> Result<Vec<Value>, Memory>
    ensures rules { IfOk result (λ values. AreRulesOf shown.now (map view values.items)) }
    ensures shallow { IfOk result (λ values. are_shallow (map view values.items) ≡ true) }
{
    let mut values = Vec::new(context.alloc);
    for diagnostic in shown {
        values.push(diagnostic_value(context, diagnostic)?)?;
    }
    Ok(values)
}

/// A diagnostic as a JSON object.
fn diagnostic_value(context: &Context<'_>, diagnostic: &Diagnostic) -> Result<Value, AllocError>
    ensures rule { IfOk result (λ value. get (codes "rule") (view value) ≡ Some (number (unsigned diagnostic.now.rule))) }
    ensures shallow { IfOk result (λ value. depth (view value) ≡ 1) }
{
    let alloc = context.alloc;
    let at = position_of(context.bytes, diagnostic.span.start);
    let length = context.at(diagnostic.span).chars().count();
    let words = words_of(context, diagnostic)?;
    let remedy = remedy_of(alloc, words.label.as_str(), words.note.as_str())?;
    object(
        alloc,
        diagnostic.rule,
        words.message.as_str(),
        remedy.as_str(),
        at,
        length,
    )
}

/// The JSON object that says this of a diagnostic.
#[tactic(auto, unfolding(crate::specs::Told::diagnostic_data))]
fn object(
    alloc: Global,
    rule: u8,
    message: &str,
    remedy: &str,
    at: Position,
    length: usize,
) -> Result<Value, AllocError>
    ensures { IfOk result (λ value. view value ≡ diagnostic_data rule message.now remedy.now at.line at.column length) }
{
    let mut members = Map::new(alloc);
    put_number(&mut members, alloc, "rule", u64::from(rule))?;
    put_text(&mut members, alloc, "message", message)?;
    put_text(&mut members, alloc, "remedy", remedy)?;
    put_number(&mut members, alloc, "line", at.line as u64)?;
    put_number(&mut members, alloc, "column", at.column as u64)?;
    put_number(&mut members, alloc, "length", length as u64)?;
    Ok(Value::Object(members))
}

/// Puts a whole number among the members of an object.
fn put_number(
    members: &mut Map<String, Value>,
    alloc: Global,
    key: &str,
    amount: u64,
) -> Result<(), AllocError>
    ensures { OnOk result (members_view members.new.entries ≡ with_member key.now (number (unsigned amount)) (members_view members.old.entries)) }
{
    put(members, alloc, key, Value::from(amount))
}

/// Puts a text among the members of an object.
fn put_text(
    members: &mut Map<String, Value>,
    alloc: Global,
    key: &str,
    text: &str,
) -> Result<(), AllocError>
    ensures { OnOk result (members_view members.new.entries ≡ with_member key.now (string text.now) (members_view members.old.entries)) }
{
    let value = Value::try_from_str(alloc, text)?;
    put(members, alloc, key, value)
}

/// What to do, and what else helps.
fn remedy_of(alloc: Global, label: &str, note: &str) -> Result<String, AllocError> {
    let parting = parting(label, note);
    format!(in alloc; "{label}{parting}{note}")
}

/// What stands between two texts.
fn parting(first: &str, second: &str) -> &'static str {
    if first.is_empty() || second.is_empty() {
        ""
    } else {
        "; "
    }
}
