//! The lines of a whole document.
ghost use Rattle.std.specs.Prelude.{◌≡◌, ◌++◌, [], Some, map, string_bytes, option_map, IfOk, OnOk};
ghost use Rattle.lengths.specs.Lengths.{IsTick};
ghost use Rattle.plain_text.specs.Document.{expression_of};
ghost use Rattle.toml.specs.View.{view};
ghost use Rattle.plain_document.specs.Order.{section_of, sections_of, words};
ghost use Rattle.plain_document.specs.Pairs.{AddsPairs};
ghost use Rattle.plain_document.specs.Document.{last_lines, lines_of_part, AddsItems, AddsPart, AddsSections, AddsValueBelow, AreLinesOf};
ghost use Rattle.plain_document.specs.declared.keys.Way.TheVariants.{Straight};

use crate::departures::add_departures;
use crate::items::{add_item, add_table};
use crate::keys::Way;
use crate::order::{DocumentOrder, SectionOrder};
use crate::pairs::add_pair;
use crate::restarts::add_restarts;
use crate::spells::{add_slows, add_spells};
use base::Memory;
use plain_entries::PlainScript;
use plain_text::PlainLine;
use std::alloc::Global;
use toml::Value;

/// What stands for the six lists about members.
#[derive(Clone, Copy)]
pub struct PlainParts<'a> {
    pub script: &'a PlainScript,
    /// Each member's name, by its number.
    pub names: &'a [String],
    /// By how much members are slow, entry by entry of the text.
    pub extras: &'a [u64],
}

/// The lines of a document: the keys of the top, then tables and lists in this order. A tick has so many microseconds.
///
/// # Errors
///
/// Memory was refused.
pub fn plain_lines<'a>(
    alloc: Global,
    document: &'a Value,
    order: &'a DocumentOrder,
    parts: &PlainParts<'a>,
    tick: u64,
) -> Result<Vec<PlainLine<'a>>, Memory>
    requires { IsTick tick }
    ensures { IfOk result (λ made. AreLinesOf tick (view document.now) (sections_of order.now) parts.now (map expression_of made.items)) }
{
    let mut lines = Vec::new(alloc);
    let sections = order.sections.as_slice();
    add_top(&mut lines, sections, document, tick)?;
    add_sections(&mut lines, sections, document, parts, tick)?;
    add_last(&mut lines, document, parts)?;
    Ok(lines)
}

/// Adds the lines of the top's keys.
fn add_top<'a>(
    lines: &mut Vec<PlainLine<'a>>,
    sections: &'a [SectionOrder],
    document: &'a Value,
    tick: u64,
) -> Result<(), Memory>
    requires { IsTick tick }
    ensures { OnOk result (AddsPairs tick [] Straight (view document.now) (map (λ s. string_bytes s.name) sections.now) (map expression_of lines.old.items) (map expression_of lines.new.items)) }
{
    for section in sections {
        add_pair(
            lines,
            "",
            Way::Straight,
            section.name.as_str(),
            document,
            tick,
        )?;
    }
    Ok(())
}

/// Adds the lines of the sections.
fn add_sections<'a>(
    lines: &mut Vec<PlainLine<'a>>,
    sections: &'a [SectionOrder],
    document: &'a Value,
    parts: &PlainParts<'a>,
    tick: u64,
) -> Result<(), Memory>
    requires { IsTick tick }
    ensures { OnOk result (AddsSections tick (view document.now) parts.now (map section_of sections.now) (map expression_of lines.old.items) (map expression_of lines.new.items)) }
{
    for section in sections {
        add_section(lines, section, document, parts, tick)?;
    }
    Ok(())
}

/// Adds the lines of one of the six lists, else of what stands at a key of the top.
fn add_section<'a>(
    lines: &mut Vec<PlainLine<'a>>,
    section: &'a SectionOrder,
    document: &'a Value,
    parts: &PlainParts<'a>,
    tick: u64,
) -> Result<(), Memory>
    requires { IsTick tick }
    ensures { OnOk result (AddsPart tick (view document.now) (lines_of_part parts.now (string_bytes section.now.name)) (section_of section.now) (map expression_of lines.old.items) (map expression_of lines.new.items)) }
{
    let script = parts.script;
    let names = parts.names;
    match section.name.as_str() {
        "crash" => add_departures(lines, "crash", names, script.crashes.as_slice()),
        "leave" => add_departures(lines, "leave", names, script.leaves.as_slice()),
        "restart" => add_restarts(lines, names, script.restarts.as_slice()),
        "slow" => add_slows(lines, parts.extras, names, script.slows.as_slice()),
        "pause" => add_spells(lines, "pause", names, script.pauses.as_slice()),
        "block" => add_spells(lines, "block", names, script.blocks.as_slice()),
        name => add_value_below(lines, section, document.get(name), tick),
    }
}

/// Adds the lines of a value at a key of the top, if there is one.
fn add_value_below<'a>(
    lines: &mut Vec<PlainLine<'a>>,
    section: &'a SectionOrder,
    value: Option<&'a Value>,
    tick: u64,
) -> Result<(), Memory>
    requires { IsTick tick }
    ensures { OnOk result (AddsValueBelow tick (string_bytes section.now.name) (option_map (λ v. view v.now) value.entry) (section_of section.now).items (map expression_of lines.old.items) (map expression_of lines.new.items)) }
{
    match value {
        Some(value) => add_value(lines, section, value, tick),
        None => Ok(()),
    }
}

/// Adds the lines of a list's items, or of a table.
fn add_value<'a>(
    lines: &mut Vec<PlainLine<'a>>,
    section: &'a SectionOrder,
    value: &'a Value,
    tick: u64,
) -> Result<(), Memory>
    requires { IsTick tick }
    ensures { OnOk result (AddsValueBelow tick (string_bytes section.now.name) (Some (view value.now)) (section_of section.now).items (map expression_of lines.old.items) (map expression_of lines.new.items)) }
{
    let name = section.name.as_str();
    let key_lists = section.items.as_slice();
    match value {
        Value::Array(items) => add_items(lines, name, key_lists, items.as_slice(), tick),
        Value::Table(_) => match key_lists.first() {
            Some(keys) => add_table(lines, name, keys.as_slice(), value, tick),
            None => Ok(()),
        },
        _ => Ok(()),
    }
}

/// Adds the lines of the items of a list.
fn add_items<'a>(
    lines: &mut Vec<PlainLine<'a>>,
    name: &'a str,
    key_lists: &'a [Vec<String>],
    items: &'a [Value],
    tick: u64,
) -> Result<(), Memory>
    requires { IsTick tick }
    ensures { OnOk result (AddsItems tick name.now (map view items.now) (map (λ keys. words keys.items) key_lists.now) (map expression_of lines.old.items) (map expression_of lines.new.items)) }
{
    for (place, keys) in key_lists.iter().enumerate() {
        if let Some(item) = items.get(place) {
            add_item(lines, name, keys.as_slice(), item, tick)?;
        }
    }
    Ok(())
}

/// Adds the lines of restarts, where the document has no such list.
fn add_last<'a>(
    lines: &mut Vec<PlainLine<'a>>,
    document: &Value,
    parts: &PlainParts<'a>,
) -> Result<(), Memory>
    ensures { OnOk result (map expression_of lines.new.items ≡ map expression_of lines.old.items ++ last_lines (view document.now) parts.now) }
{
    if document.get("restart").is_none() {
        add_restarts(lines, parts.names, parts.script.restarts.as_slice())
    } else {
        Ok(())
    }
}
