//! The entries of a list: their names, and what they stand for.
ghost use Rattle.std.specs.Prelude.{◌≡◌, length, map, option_map, string_bytes, IfOk};
ghost use Rattle.std.specs.List.{list_any};
ghost use Rattle.toml.specs.View.{view};
ghost use Rattle.schema.specs.Values.{text_if};
ghost use Rattle.schema.specs.declared.schema.FormatKey.TheVariants as key;
ghost use Rattle.script_summary.specs.Entries.{extent_in, is_several, name_of, AreOf};

use crate::extent::{Extent, extents};
use crate::happening::Happening;
use base::Memory;
use schema::{FormatKey, text_if};
use std::alloc::Global;
use toml::Value;

/// An entry of one of the six lists: its name, and what it stands for; None where it stands for nothing.
#[derive(Debug, Drop)]
pub struct EntrySummary {
    pub name: Option<String>,
    pub extent: Option<Extent>,
}

/// The entries that these items are, which stand for those of `all` that have their places.
pub(crate) fn entries(
    alloc: Global,
    items: &[Value],
    all: &[Happening],
) -> Result<Vec<EntrySummary>, Memory>
    ensures { IfOk result (λ made. AreOf (map view items.now) all.now made.items) }
{
    let extents = extents(alloc, items.len(), all)?;
    named(alloc, items, extents.as_slice())
}

/// The same, where it is known what each stands for.
fn named(
    alloc: Global,
    items: &[Value],
    extents: &[Option<Extent>],
) -> Result<Vec<EntrySummary>, Memory>
    requires { length extents.now ≡ length items.now }
    ensures names { IfOk result (λ made. map name_of made.items ≡ map (text_if key.Name) (map view items.now)) }
    ensures extents { IfOk result (λ made. map extent_in made.items ≡ extents.now) }
{
    let mut made = Vec::new(alloc);
    for (place, item) in items.iter().enumerate() {
        made.push(EntrySummary {
            name: name_in(alloc, item)?,
            extent: extents[place],
        })?;
    }
    Ok(made)
}

/// The name of an item, where it has one.
fn name_in(alloc: Global, item: &Value) -> Result<Option<String>, Memory>
    ensures { IfOk result (λ name. option_map string_bytes name ≡ text_if key.Name (view item.now)) }
{
    match text_if(FormatKey::Name, item) {
        Some(name) => Ok(Some(String::from_str(alloc, name)?)),
        None => Ok(None),
    }
}

/// Whether one of these entries stands for several plain ones.
pub fn have_several(entries: &[EntrySummary]) -> bool
    ensures { result ≡ list_any is_several entries.now }
{
    entries.iter().any(|it| is_several(it))
}

/// Whether an entry stands for several plain ones.
fn is_several(it: &EntrySummary) -> bool
    ensures { result ≡ is_several it.now }
{
    match &it.extent {
        Some(extent) => extent.count > 1,
        None => false,
    }
}
