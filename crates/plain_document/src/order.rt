//! The order of a document's keys, tables and items.
ghost use Rattle.std.specs.Prelude.{◌≡◌, ◌∷◌, [], Some, map, string_bytes, option_map, IfOk};
ghost use Rattle.std.specs.List.{AllByRecursion, IsDistinct};
ghost use Rattle.toml.specs.Data.{same_key};
ghost use Rattle.toml.specs.View.{table_view, view};
ghost use Rattle.schema.specs.Tree.{keys_in, keys_of};
ghost use Rattle.plain_document.specs.Order.{item_at, names_of, number_of, section_of, sections_of, value_at, words, AreItemsOrdered, AreKeysOrdered, IsOrderedBelow, IsOrderedDocument, IsSectionOrdered};

use base::Memory;
use std::alloc::Global;
use toml::{Table, Value};
use toml_places::Places;

/// The keys of a document in the order of its text.
#[derive(Drop)]
pub struct DocumentOrder {
    /// The keys of the top.
    pub sections: Vec<SectionOrder>,
}

/// A key of the top.
#[derive(Drop)]
pub struct SectionOrder {
    pub name: String,
    /// The keys of its table, or of each item of its list; none where it has neither.
    pub items: Vec<Vec<String>>,
}

impl DocumentOrder {
    /// The order of a document that is read into these places. It has each key of the document, also where there are no
    /// places of it.
    ///
    /// # Errors
    ///
    /// Memory was refused.
    pub fn of(alloc: Global, document: &Value, places: &Places) -> Result<DocumentOrder, Memory>
        ensures { IfOk result (λ order. IsOrderedDocument places.now (view document.now) (sections_of order)) }
    {
        let names = keys(alloc, document, places, Some(Places::TOP))?;
        let sections = sections(alloc, document, places, names)?;
        Ok(DocumentOrder { sections })
    }
}

/// These keys of the top, each with those below it.
fn sections(
    alloc: Global,
    document: &Value,
    places: &Places,
    names: Vec<String>,
) -> Result<Vec<SectionOrder>, Memory>
    ensures same { IfOk result (λ made. names_of (map section_of made.items) ≡ words names.items) }
    ensures below { IfOk result (λ made. AllByRecursion (IsSectionOrdered places.now (view document.now)) (map section_of made.items)) }
{
    let mut sections = Vec::new(alloc);
    for name in names {
        sections.push(section(alloc, document, places, name)?)?;
    }
    Ok(sections)
}

/// A key of the top.
fn section(
    alloc: Global,
    document: &Value,
    places: &Places,
    name: String,
) -> Result<SectionOrder, Memory>
    ensures name { IfOk result (λ made. (section_of made).name ≡ string_bytes name) }
    ensures below { IfOk result (λ made. IsSectionOrdered places.now (view document.now) (section_of made)) }
{
    let place = value_at(places, Some(Places::TOP), name.as_str());
    let items = keys_below(alloc, document.get(name.as_str()), places, place)?;
    Ok(SectionOrder { name, items })
}

/// The keys of a table at this place, or of each item of a list there; none of another value.
fn keys_below(
    alloc: Global,
    value: Option<&Value>,
    places: &Places,
    place: Option<usize>,
) -> Result<Vec<Vec<String>>, Memory>
    ensures { IfOk result (λ made. IsOrderedBelow places.now place (option_map (λ v. view v.now) value.entry) (map (λ keys. words keys.items) made.items)) }
{
    let Some(value) = value else {
        return Ok(Vec::new(alloc));
    };
    match value {
        Value::Array(items) => keys_of_items(alloc, items.as_slice(), places, place),
        Value::Table(_) => alone(alloc, keys(alloc, value, places, place)?),
        _ => Ok(Vec::new(alloc)),
    }
}

/// These keys, as those of one table.
fn alone(alloc: Global, keys: Vec<String>) -> Result<Vec<Vec<String>>, Memory>
    ensures { IfOk result (λ made. map (λ keys. words keys.items) made.items ≡ words keys.items ∷ []) }
{
    let mut made = Vec::new(alloc);
    made.push(keys)?;
    Ok(made)
}

/// The keys of each item of a list at this place.
fn keys_of_items(
    alloc: Global,
    items: &[Value],
    places: &Places,
    list: Option<usize>,
) -> Result<Vec<Vec<String>>, Memory>
    ensures { IfOk result (λ made. AreItemsOrdered places.now list 0 (map view items.now) (map (λ keys. words keys.items) made.items)) }
{
    let mut made = Vec::new(alloc);
    for (number, item) in items.iter().enumerate() {
        let place = item_at(places, list, number);
        made.push(keys(alloc, item, places, place)?)?;
    }
    Ok(made)
}

/// The keys of a table at this place, each once, in the order of the text; none of another value.
fn keys(
    alloc: Global,
    value: &Value,
    places: &Places,
    place: Option<usize>,
) -> Result<Vec<String>, Memory>
    ensures { IfOk result (λ made. AreKeysOrdered places.now place (keys_of (view value.now)) (words made.items)) }
{
    let mut names = names(alloc, value)?;
    names.sort_by_key(|name| number_of(places, place, name.as_str()))?;
    Ok(names)
}

/// The keys of a table, as the document has them; none of another value.
fn names(alloc: Global, value: &Value) -> Result<Vec<String>, Memory>
    ensures all { IfOk result (λ made. words made.items ≡ keys_of (view value.now)) }
    ensures once { IfOk result (λ made. IsDistinct same_key (words made.items)) }
{
    match value {
        Value::Table(table) => names_in(alloc, table),
        _ => Ok(Vec::new(alloc)),
    }
}

/// The keys of a table.
fn names_in(alloc: Global, table: &Table) -> Result<Vec<String>, Memory>
    ensures all { IfOk result (λ made. words made.items ≡ keys_in (table_view table.now)) }
    ensures once { IfOk result (λ made. IsDistinct same_key (words made.items)) }
{
    let mut made = Vec::new(alloc);
    for key in table.keys() {
        made.push(copied(alloc, key.as_str())?)?;
    }
    Ok(made)
}

/// A name of its own.
fn copied(alloc: Global, name: &str) -> Result<String, Memory>
    ensures { IfOk result (λ made. string_bytes made ≡ name.now) }
{
    match String::from_str(alloc, name) {
        Ok(name) => Ok(name),
        Err(_) => Err(Memory),
    }
}

/// The number of the place of a key's value, which grows in the order of the text; 0 where it has no place.
fn number_of(places: &Places, table: Option<usize>, key: &str) -> usize
    ensures { result ≡ number_of places.now table key.now }
{
    value_at(places, table, key).unwrap_or(0)
}

/// The place of the value of a key of the table at a place.
fn value_at(places: &Places, table: Option<usize>, key: &str) -> Option<usize>
    ensures { result ≡ value_at places.now table key.now }
{
    match table {
        Some(table) => places.child(table, key),
        None => None,
    }
}

/// The place of the item of a number in the list at a place.
fn item_at(places: &Places, list: Option<usize>, number: usize) -> Option<usize>
    ensures { result ≡ item_at places.now list number }
{
    match list {
        Some(list) => places.item(list, number),
        None => None,
    }
}
