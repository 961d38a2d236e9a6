//! The groups of a text: which member or group a name names.
ghost use Rattle.std.specs.Prelude.{◌≡◌, ◌≢◌, ◌<◌, ◌^◌, ◌++◌, ◌∷◌, ℕ, [], None, Ok, map, true, false, not, option_map, decimal, sum_by, IfOk, IfErr, OnOk, IfSome, IfNone};
ghost use Rattle.scenario_reader.specs.Reading.{member_named, group_named};
ghost use Rattle.scenario_reader.specs.Roster.{start_in};
ghost use Rattle.written_names.specs.Names.{breaks_name, breaks_names};
ghost use Rattle.written_names.specs.Roster.{group_of, named_group};

use crate::form::is_written_name;
use base::{Memory, Moment};
use indexmap::IndexMap;
use itoa::Buffer;
use std::alloc::Global;
use std::marker::Model;

/// A group as it is written.
#[derive(Debug, Drop)]
pub struct WrittenGroup {
    pub name: String,
    /// How many members it has.
    pub count: u64,
    /// When they start.
    pub start: Moment,
}

/// Why the names of groups are refused.
#[derive(Clone, Copy, Debug, PartialEq, Eq)]
pub enum NameFault {
    /// Rule 6: the group at this place has a name of another form, or one that stands before it.
    Group(usize),
    /// Memory was refused.
    Memory,
}

/// The groups of a text, by name.
#[derive(Drop)]
pub struct Roster {
    groups: IndexMap<String, Block>,
}

/// What a group's name stands for.
#[derive(Clone, Copy, Debug)]
pub(crate) struct Block {
    /// The number of its first member. No list of groups is so long that this doesn't hold it.
    first: u128,
    /// How many members it has.
    count: u64,
    /// When they start.
    start: Moment,
}

/// The member that a name names.
#[derive(Clone, Copy, Debug)]
pub struct Found {
    /// Its number, which may be past the most members that a scenario may have.
    pub number: u128,
    /// When it starts.
    pub start: Moment,
}

impl Model for Roster {
    ghost use Rattle.std.specs.Prelude.{List};
    ghost use Rattle.scenario.specs.Setup.{Group};

    ghost Value = { List Group };

    ghost use Rattle.written_names.specs.Roster.{roster_of, IsRoster};

    ghost view = { roster_of };

    ghost invariant = { IsRoster };
}

impl Roster {
    /// The roster of these groups.
    ///
    /// # Errors
    ///
    /// `Group` where the name of one has another form or is taken, and `Memory`.
    pub fn of(alloc: Global, list: &[WrittenGroup]) -> Result<Roster, NameFault>
        ensures made { IfOk result (λ roster. roster ≡ map group_of list.now) }
        ensures fine { OnOk result (breaks_names (map group_of list.now) ≡ false) }
        ensures refused { IfErr result (λ fault. fault ≢ NameFault.Memory → breaks_names (map group_of list.now) ≡ true) }
    {
        let mut groups = IndexMap::new(alloc);
        let mut first = 0;
        for (i, item) in list.iter().enumerate() {
            let block = block_of(first, item);
            let count = block.count;
            match add_group(alloc, &mut groups, item.name.as_str(), block) {
                Ok(true) => first += u128::from(count),
                Ok(false) => return Err(NameFault::Group(i)),
                Err(Memory) => return Err(NameFault::Memory),
            }
        }
        Ok(Roster { groups })
    }

    /// The number of the group of that name.
    pub fn group(&self, name: &str) -> Option<usize>
        ensures { result ≡ group_named self.now name.now }
    {
        self.groups.get_index_of(name)
    }

    /// The member of that name.
    pub fn find(&self, name: &str) -> Option<Found>
        ensures number { option_map (λ f. f.number) result ≡ member_named self.now name.now }
        ensures start { IfSome result (λ f. f.start ≡ start_in self.now f.number) }
        ensures within { IfSome result (λ f. f.number < sum_by (λ g. g.count) self.now) }
    {
        let Some((group, index)) = name.rsplit_once('-') else {
            return None;
        };
        let Some(block) = self.groups.get(group) else {
            return None;
        };
        let Some(index) = index_spelt(index) else {
            return None;
        };
        if index >= block.count {
            return None;
        }
        Some(Found {
            number: block.first + u128::from(index),
            start: block.start,
        })
    }
}

/// What a group's name stands for, with the number of its first member.
fn block_of(first: u128, group: &WrittenGroup) -> Block
    ensures first { result.first ≡ first }
    ensures count { result.count ≡ group.now.count }
    ensures start { result.start ≡ group.now.start }
{
    Block {
        first,
        count: group.count,
        start: group.start,
    }
}

/// Adds a group at the end, unless its name has another form or is taken.
fn add_group(
    alloc: Global,
    groups: &mut IndexMap<String, Block>,
    name: &str,
    block: Block,
) -> Result<bool, Memory>
    ensures added { result ≡ Ok true → map named_group groups.new.entries ≡ map named_group groups.old.entries ++ record { name = name.now; count = block.count; start = block.start; contact = None } ∷ [] }
    ensures numbered { result ≡ Ok true → map (λ e. e.1) groups.new.entries ≡ map (λ e. e.1) groups.old.entries ++ block ∷ [] }
    ensures fine { IfOk result (λ added. added ≡ not (breaks_name (map named_group groups.old.entries) name.now)) }
{
    if !is_written_name(name.as_bytes()) {
        return Ok(false);
    }
    let Ok(key) = String::from_str(alloc, name) else {
        return Err(Memory);
    };
    match groups.insert(key, block) {
        Ok(None) => Ok(true),
        Ok(Some(_)) => Ok(false),
        Err(_) => Err(Memory),
    }
}

/// The index that is spelt so: in decimal, without leading zeros.
fn index_spelt(text: &str) -> Option<u64>
    ensures some { IfSome result (λ i. text.now ≡ decimal i) }
    ensures none { IfNone result ((i : ℕ) → i < 2 ^ 64 → text.now ≢ decimal i) }
{
    let Ok(index) = text.parse::<u64>() else {
        return None;
    };
    let mut buffer = Buffer::new();
    if buffer.format(index) == text {
        Some(index)
    } else {
        None
    }
}
