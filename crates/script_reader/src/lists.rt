//! The six lists of a text as they are written, and the lowest rule that they break.
ghost use Rattle.std.specs.Prelude.{◌≡◌, Some, IfOk};
ghost use Rattle.lengths.specs.Lengths.{IsTick};
ghost use Rattle.toml.specs.Data.{get};
ghost use Rattle.toml.specs.View.{view};
ghost use Rattle.script_reader.specs.Keys.{list_name};
ghost use Rattle.script_reader.specs.Rules.{items_rule};
ghost use Rattle.script_reader.specs.Lists.{kind_rule, list_rule, script_rule, twice_rule, IsList, IsWritten};

use crate::item::{WrittenItem, written_items};
use crate::keys::list_name;
use crate::repeated::is_name_twice;
use crate::rules::{NO_RULE, item_rule};
use crate::values::items;
use base::Memory;
use std::alloc::Global;
use toml::Value;
use written_entries::ScriptList;
use written_names::Roster;

/// A list as it is written.
#[derive(Debug, Drop)]
pub struct WrittenList<'a> {
    pub list: ScriptList,
    /// Whether something else than a list stands at its name.
    pub is_other: bool,
    /// Whether two items have one name.
    pub is_twice: bool,
    pub items: Vec<WrittenItem<'a>>,
}

/// The six lists of a text as they are written.
#[derive(Debug, Drop)]
pub struct WrittenScript<'a> {
    pub crashes: WrittenList<'a>,
    pub leaves: WrittenList<'a>,
    pub restarts: WrittenList<'a>,
    pub slows: WrittenList<'a>,
    pub pauses: WrittenList<'a>,
    pub blocks: WrittenList<'a>,
}

impl<'a> WrittenScript<'a> {
    /// The six lists of a document. A tick has so many microseconds.
    ///
    /// # Errors
    ///
    /// Memory was refused.
    pub fn of(alloc: Global, document: &'a Value, tick: u64) -> Result<WrittenScript<'a>, Memory>
        requires { IsTick tick }
        ensures { IfOk result (IsWritten tick (view document.now)) }
    {
        let crashes = written_list(alloc, ScriptList::Crash, document, tick)?;
        let leaves = written_list(alloc, ScriptList::Leave, document, tick)?;
        let restarts = written_list(alloc, ScriptList::Restart, document, tick)?;
        let slows = written_list(alloc, ScriptList::Slow, document, tick)?;
        let pauses = written_list(alloc, ScriptList::Pause, document, tick)?;
        let blocks = written_list(alloc, ScriptList::Block, document, tick)?;
        Ok(WrittenScript {
            crashes,
            leaves,
            restarts,
            slows,
            pauses,
            blocks,
        })
    }

    /// The lowest of rules 2 to 7, or 9 of keys, that one of the items breaks; else 255.
    #[tactic(auto, unfolding(crate::specs::Lists::script_rule))]
    pub fn rule(&self, roster: &Roster) -> u8
        ensures { result ≡ script_rule roster.now self.now }
    {
        list_rule(roster, &self.crashes)
            .min(list_rule(roster, &self.leaves))
            .min(list_rule(roster, &self.restarts))
            .min(list_rule(roster, &self.slows))
            .min(list_rule(roster, &self.pauses))
            .min(list_rule(roster, &self.blocks))
    }
}

/// One list of a document.
fn written_list<'a>(
    alloc: Global,
    list: ScriptList,
    document: &'a Value,
    tick: u64,
) -> Result<WrittenList<'a>, Memory>
    requires { IsTick tick }
    ensures { IfOk result (IsList tick list (get (list_name list) (view document.now))) }
{
    match document.get(list_name(list)) {
        Some(value) => list_in(alloc, list, value, tick),
        None => Ok(WrittenList {
            list,
            is_other: false,
            is_twice: false,
            items: Vec::new(alloc),
        }),
    }
}

/// The list that a value is.
fn list_in<'a>(
    alloc: Global,
    list: ScriptList,
    value: &'a Value,
    tick: u64,
) -> Result<WrittenList<'a>, Memory>
    requires { IsTick tick }
    ensures { IfOk result (IsList tick list (Some (view value.now))) }
{
    let there = items(value);
    let is_twice = is_name_twice(alloc, there)?;
    let items = written_items(alloc, there, tick)?;
    Ok(WrittenList {
        list,
        is_other: !value.is_array(),
        is_twice,
        items,
    })
}

/// The lowest rule that a list breaks; else 255.
#[tactic(auto, unfolding(crate::specs::Lists::list_rule))]
fn list_rule(roster: &Roster, list: &WrittenList) -> u8
    ensures { result ≡ list_rule roster.now list.now }
{
    kind_rule(list.is_other)
        .min(twice_rule(list.is_twice))
        .min(items_rule(list.list, roster, list.items.as_slice()))
}

/// Rule 4 where something else than a list stands there.
fn kind_rule(is_other: bool) -> u8
    ensures { result ≡ kind_rule is_other }
{
    if is_other { 4 } else { NO_RULE }
}

/// Rule 6 where two items have one name.
fn twice_rule(is_twice: bool) -> u8
    ensures { result ≡ twice_rule is_twice }
{
    if is_twice { 6 } else { NO_RULE }
}

/// The lowest rule that one of these items breaks; else 255.
fn items_rule(list: ScriptList, roster: &Roster, items: &[WrittenItem]) -> u8
    ensures { result ≡ items_rule list roster.now items.now }
{
    let mut low = NO_RULE;
    for it in items {
        low = low.min(item_rule(list, roster, it));
    }
    low
}
