//! The order in which a document holds its keys.
ghost use Rattle.std.specs.Prelude.{◌≡◌, ◌∷◌, [], map, string_bytes, option_map, IfOk};
ghost use Rattle.toml.specs.View.{table_view, view};
ghost use Rattle.schema.specs.Tree.{keys_in, keys_of};
ghost use Rattle.plain_document.specs.Order.{section_of, sections_of, words};
ghost use Rattle.expanded_text.specs.Order.{tree_items, tree_order, tree_section};

use base::Memory;
use plain_document::{DocumentOrder, SectionOrder};
use std::alloc::Global;
use toml::{Table, Value};

/// The keys of a document in the order in which its tables hold them.
///
/// # Errors
///
/// Memory was refused.
pub(crate) fn order_of(alloc: Global, document: &Value) -> Result<DocumentOrder, Memory>
    ensures { IfOk result (λ order. sections_of order ≡ tree_order (view document.now)) }
{
    let names = keys(alloc, document)?;
    let sections = sections(alloc, document, names)?;
    Ok(DocumentOrder { sections })
}

/// These keys of the top, each with those below it.
fn sections(
    alloc: Global,
    document: &Value,
    names: Vec<String>,
) -> Result<Vec<SectionOrder>, Memory>
    ensures { IfOk result (λ made. map section_of made.items ≡ map (tree_section (view document.now)) (words names.items)) }
{
    let mut sections = Vec::new(alloc);
    for name in names {
        sections.push(section(alloc, document, name)?)?;
    }
    Ok(sections)
}

/// A key of the top.
fn section(alloc: Global, document: &Value, name: String) -> Result<SectionOrder, Memory>
    ensures { IfOk result (λ made. section_of made ≡ tree_section (view document.now) (string_bytes name)) }
{
    let items = keys_below(alloc, document.get(name.as_str()))?;
    Ok(SectionOrder { name, items })
}

/// The keys of a table, or of each item of a list; none of another value.
fn keys_below(alloc: Global, value: Option<&Value>) -> Result<Vec<Vec<String>>, Memory>
    ensures { IfOk result (λ made. map (λ keys. words keys.items) made.items ≡ tree_items (option_map (λ v. view v.now) value.entry)) }
{
    let Some(value) = value else {
        return Ok(Vec::new(alloc));
    };
    match value {
        Value::Array(items) => keys_of_items(alloc, items.as_slice()),
        Value::Table(_) => alone(alloc, keys(alloc, value)?),
        _ => Ok(Vec::new(alloc)),
    }
}

/// These keys, as those of one table.
fn alone(alloc: Global, keys: Vec<String>) -> Result<Vec<Vec<String>>, Memory>
    ensures { IfOk result (λ made. map (λ keys. words keys.items) made.items ≡ words keys.items ∷ []) }
{
    let mut made = Vec::new(alloc);
    made.push(keys)?;
    Ok(made)
}

/// The keys of each item of a list.
fn keys_of_items(alloc: Global, items: &[Value]) -> Result<Vec<Vec<String>>, Memory>
    ensures { IfOk result (λ made. map (λ keys. words keys.items) made.items ≡ map keys_of (map view items.now)) }
{
    let mut made = Vec::new(alloc);
    for item in items {
        made.push(keys(alloc, item)?)?;
    }
    Ok(made)
}

/// The keys of a table; none of another value.
fn keys(alloc: Global, value: &Value) -> Result<Vec<String>, Memory>
    ensures { IfOk result (λ made. words made.items ≡ keys_of (view value.now)) }
{
    match value {
        Value::Table(table) => keys_in(alloc, table),
        _ => Ok(Vec::new(alloc)),
    }
}

/// The keys of a table.
fn keys_in(alloc: Global, table: &Table) -> Result<Vec<String>, Memory>
    ensures { IfOk result (λ made. words made.items ≡ keys_in (table_view table.now)) }
{
    let mut made = Vec::new(alloc);
    for key in table.keys() {
        made.push(copied(alloc, key.as_str())?)?;
    }
    Ok(made)
}

/// A name of its own.
fn copied(alloc: Global, name: &str) -> Result<String, Memory>
    ensures { IfOk result (λ made. string_bytes made ≡ name.now) }
{
    match String::from_str(alloc, name) {
        Ok(name) => Ok(name),
        Err(_) => Err(Memory),
    }
}
