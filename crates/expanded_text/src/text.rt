//! From a document to its plain text.
ghost use Rattle.std.specs.Prelude.{◌≡◌, ◌≢◌, string_bytes, IfErr, IfOk, OnOk};
ghost use Rattle.toml.specs.View.{view};
ghost use Rattle.plain_entries.specs.Entries.{start_in};
ghost use Rattle.plain_entries.specs.Script.{lists_of, plain_of};
ghost use Rattle.plain_document.specs.Order.{sections_of};
ghost use Rattle.script_draws.specs.Turns.{text_words};
ghost use Rattle.written_schema.specs.Lowest.{no_rule};
ghost use Rattle.expanded_text.specs.Rule.{seed_in, starts_of, IfRefused, IsDocumentRule};
ghost use Rattle.expanded_text.specs.Text.{IsPlainTextOf, IsTextIn, IsTreeTextOf};
ghost use Rattle.expanded_text.specs.Written.{IsWrittenText};

use crate::entries::plain_entries_of;
use crate::error::ExpandError;
use crate::order::order_of;
use crate::written::WrittenText;
use base::Memory;
use plain_document::{DocumentOrder, PlainParts, plain_lines};
use plain_entries::PlainScript;
use plain_text::plain_text;
use std::alloc::Global;
use toml::Value;
use toml_places::Places;
use written_groups::{member_names, slow_extras};

/// The plain text for which a document stands, which these bytes are: whole numbers of ticks, one member an entry, one direction a
/// path or cut, no chance. It is judged by the keys and rules of version 4, whatever its `version`.
///
/// # Errors
///
/// `Rule` with the lowest rule that the document breaks, 2 to 10; and `Memory`.
pub fn expanded(alloc: Global, bytes: &[u8], document: &Value) -> Result<String, ExpandError>
    ensures text { IfOk result (λ text. IsPlainTextOf (view document.now) (string_bytes text)) }
    ensures kept { OnOk result (IsDocumentRule (view document.now) no_rule) }
    ensures refused { IfErr result (IfRefused (IsDocumentRule (view document.now))) }
{
    let written = match WrittenText::of(alloc, document) {
        Ok(written) => written,
        Err(error) => return Err(error),
    };
    let plain = match plain_entries_of(alloc, document, &written) {
        Ok(plain) => plain,
        Err(error) => return Err(error),
    };
    match text_of_entries(alloc, bytes, document, &written, &plain) {
        Ok(text) => Ok(text),
        Err(Memory) => Err(ExpandError::Memory),
    }
}

/// The plain text for which a document stands, its keys in the order in which its tables hold them: for who has no text of it.
///
/// # Errors
///
/// `Rule` with the lowest rule that the document breaks, 2 to 10; and `Memory`.
pub fn tree_text(alloc: Global, document: &Value) -> Result<String, ExpandError>
    ensures text { IfOk result (λ text. IsTreeTextOf (view document.now) (string_bytes text)) }
    ensures kept { OnOk result (IsDocumentRule (view document.now) no_rule) }
    ensures refused { IfErr result (IfRefused (IsDocumentRule (view document.now))) }
    ensures broken { IfErr result (IfRefused (λ rule. rule ≢ no_rule)) }
{
    let written = match WrittenText::of(alloc, document) {
        Ok(written) => written,
        Err(error) => return Err(error),
    };
    let plain = match plain_entries_of(alloc, document, &written) {
        Ok(plain) => plain,
        Err(error) => return Err(error),
    };
    match text_of_tree(alloc, document, &written, &plain) {
        Ok(laid) => Ok(laid),
        Err(Memory) => Err(ExpandError::Memory),
    }
}

/// The plain text of a document with these plain entries, in the order of its text, which these bytes are.
fn text_of_entries<'a>(
    alloc: Global,
    bytes: &[u8],
    document: &'a Value,
    written: &WrittenText,
    plain: &'a PlainScript,
) -> Result<String, Memory>
    requires written { IsWrittenText (view document.now) written.now }
    requires plain { lists_of plain.now ≡ plain_of (start_in (starts_of written.now.groups.items)) written.now.script (text_words (seed_in (view document.now))) }
    ensures { IfOk result (λ text. IsPlainTextOf (view document.now) (string_bytes text)) }
{
    let places = places_in(alloc, bytes)?;
    let order = DocumentOrder::of(alloc, document, &places)?;
    text_in_order(alloc, document, &order, written, plain)
}

/// The same, in the order in which its tables hold its keys.
fn text_of_tree<'a>(
    alloc: Global,
    document: &'a Value,
    written: &WrittenText,
    plain: &'a PlainScript,
) -> Result<String, Memory>
    requires written { IsWrittenText (view document.now) written.now }
    requires plain { lists_of plain.now ≡ plain_of (start_in (starts_of written.now.groups.items)) written.now.script (text_words (seed_in (view document.now))) }
    ensures { IfOk result (λ text. IsTreeTextOf (view document.now) (string_bytes text)) }
{
    let order = order_of(alloc, document)?;
    text_in_order(alloc, document, &order, written, plain)
}

/// The same, in this order.
fn text_in_order<'a>(
    alloc: Global,
    document: &'a Value,
    order: &'a DocumentOrder,
    written: &WrittenText,
    plain: &'a PlainScript,
) -> Result<String, Memory>
    requires written { IsWrittenText (view document.now) written.now }
    requires plain { lists_of plain.now ≡ plain_of (start_in (starts_of written.now.groups.items)) written.now.script (text_words (seed_in (view document.now))) }
    ensures { IfOk result (λ text. IsTextIn (sections_of order.now) (view document.now) (string_bytes text)) }
{
    let groups = written.groups.as_slice();
    let made_names = member_names(alloc, groups)?;
    let made_extras = slow_extras(alloc, document, written.tick)?;
    let names = made_names.as_slice();
    let extras = made_extras.as_slice();
    let parts = PlainParts {
        script: plain,
        names,
        extras,
    };
    let made_lines = plain_lines(alloc, document, order, &parts, written.tick)?;
    let lines = made_lines.as_slice();
    let text = plain_text(alloc, lines)?;
    Ok(text)
}

/// Where keys and items stand in a text.
fn places_in(alloc: Global, bytes: &[u8]) -> Result<Places, Memory> {
    let text = std::str::from_utf8(bytes).unwrap_or("");
    toml_places::read(alloc, text)
}
