//! Which reason there is that tables aren't joined.
use crate::reason::TableReason;
use crate::told::{Told, told_of};
use base::Memory;
use std::alloc::Global;

/// Why the tables in the files of these names, which have these texts, aren't joined; none where their first lines give no reason.
pub fn table_reason<'a>(
    alloc: Global,
    names: &[&'a str],
    texts: &[Vec<u8>],
) -> Result<Option<TableReason<'a>>, Memory> {
    let tables = tables_told(alloc, names, texts)?;
    if let Some(reason) = unlike(&tables) {
        return Ok(Some(reason));
    }
    match shared(&tables) {
        Some(reason) => Ok(Some(reason)),
        None => Ok(missing(&tables)),
    }
}

/// What the first lines of the texts say that are tables.
fn tables_told<'a>(
    alloc: Global,
    names: &[&'a str],
    texts: &[Vec<u8>],
) -> Result<Vec<Told<'a>>, Memory> {
    let mut tables = Vec::new(alloc);
    for (place, name) in names.iter().enumerate() {
        if place < texts.len() {
            if let Some(told) = told_of(alloc, *name, texts[place].as_slice())? {
                tables.push(told)?;
            }
        }
    }
    Ok(tables)
}

/// Why tables aren't of one sweep, whatever their seeds; none of fewer than two.
fn unlike<'a>(tables: &[Told<'a>]) -> Option<TableReason<'a>> {
    if tables.len() < 2 {
        return None;
    }
    let first = &tables[0];
    for table in tables {
        if let Some(reason) = unlike_first(first, table) {
            return Some(reason);
        }
    }
    None
}

/// Why a table isn't of the sweep of the first, whatever its seeds.
fn unlike_first<'a>(first: &Told<'a>, table: &Told<'a>) -> Option<TableReason<'a>> {
    if table.mark.as_str() != first.mark.as_str() {
        return Some(TableReason::Scenarios(first.name, table.name));
    }
    if let Some(reason) = of_whole(first, table) {
        return Some(reason);
    }
    if table.settings.as_str() != first.settings.as_str() {
        return Some(TableReason::Settings(first.name, table.name));
    }
    of_shards(first, table)
}

/// Why a whole table isn't of the sweep of the first, a whole table with other seeds: one of them has a width, or no seeds.
fn of_whole<'a>(first: &Told<'a>, table: &Told<'a>) -> Option<TableReason<'a>> {
    if first.shard.of != 1 || table.shard.of != 1 || first.seeds == table.seeds {
        return None;
    }
    match of_one_range(first) {
        Some(reason) => Some(reason),
        None => of_one_range(table),
    }
}

/// Why a table can't get more seeds.
fn of_one_range<'a>(told: &Told<'a>) -> Option<TableReason<'a>> {
    if told.is_until {
        return Some(TableReason::Width(told.name));
    }
    if told.seeds.is_none() {
        return Some(TableReason::NoSeeds(told.name));
    }
    None
}

/// Which of a table and the first is a shard, where the other one is a whole table, or they have other seeds.
fn of_shards<'a>(first: &Told<'a>, table: &Told<'a>) -> Option<TableReason<'a>> {
    if first.shard.of == table.shard.of && first.seeds == table.seeds {
        return None;
    }
    if table.shard.of != 1 {
        return Some(TableReason::Shard(table.name));
    }
    if first.shard.of != 1 {
        return Some(TableReason::Shard(first.name));
    }
    None
}

/// Two tables that have a seed in common.
fn shared<'a>(tables: &[Told<'a>]) -> Option<TableReason<'a>> {
    for (place, table) in tables.iter().enumerate() {
        if let Some(reason) = shared_with(&tables[..place], table) {
            return Some(reason);
        }
    }
    None
}

/// One of these tables that has a seed in common with another.
fn shared_with<'a>(tables: &[Told<'a>], table: &Told<'a>) -> Option<TableReason<'a>> {
    for other in tables {
        if let Some(reason) = shared_by(other, table) {
            return Some(reason);
        }
    }
    None
}

/// The seeds that two whole tables have in common.
fn shared_by<'a>(other: &Told<'a>, table: &Told<'a>) -> Option<TableReason<'a>> {
    if other.shard.of != 1 || table.shard.of != 1 {
        return None;
    }
    let a = other.seeds?;
    let b = table.seeds?;
    let first = a.first.max(b.first);
    let last = a.last.min(b.last);
    if first <= last {
        return Some(TableReason::Shared(other.name, table.name, first, last));
    }
    None
}

/// Two tables between whose seeds there are some that none has.
fn missing<'a>(tables: &[Told<'a>]) -> Option<TableReason<'a>> {
    for table in tables {
        if let Some(seeds) = table.seeds {
            if let Some(reason) = gap_behind(tables, table.name, seeds.last) {
                return Some(reason);
            }
        }
    }
    None
}

/// The seeds between this one, the last of a table, and the least of those of other tables that are greater.
fn gap_behind<'a>(tables: &[Told<'a>], name: &'a str, last: u64) -> Option<TableReason<'a>> {
    let mut next = None;
    let mut least = u64::MAX;
    for table in tables {
        if let Some(seeds) = table.seeds {
            if seeds.first > last && seeds.first < least {
                least = seeds.first;
                next = Some(table.name);
            }
        }
    }
    let Some(other) = next else {
        return None;
    };
    if least <= last || least - last == 1 {
        return None;
    }
    Some(TableReason::Missing(name, other, last + 1, least - 1))
}
