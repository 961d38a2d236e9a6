//! The groups that a text names, as far as they can be read, and what a name then names.
use base::Memory;
use indexmap::IndexMap;
use itoa::Buffer;
use std::alloc::Global;
use toml_places::Span;

/// A group of a text.
#[derive(Clone, Copy, Debug, PartialEq, Eq)]
pub struct Known {
    /// How many members it has, where that can be read.
    pub count: Option<u64>,
    /// When they start, where that can be read.
    pub start: Option<u64>,
    /// Where its name stands.
    pub name: Span,
}

/// The groups by their names, in their order.
#[derive(Drop)]
pub(crate) struct Roster {
    pub(crate) groups: IndexMap<String, Known>,
    /// Whether the names of all groups could be read.
    pub(crate) is_complete: bool,
}

/// A member.
#[derive(Clone, Copy, Debug, PartialEq, Eq)]
pub(crate) struct Seat {
    /// The number of its group.
    pub(crate) group: usize,
    /// Its number in the group.
    pub(crate) index: u64,
    /// When it starts, where that can be read.
    pub(crate) start: Option<u64>,
}

/// What the name of a member names.
#[derive(Clone, Copy, Debug, PartialEq, Eq)]
pub(crate) enum Named {
    Member(Seat),
    Nobody,
    /// What is wrong with the groups hides it.
    Hidden,
}

impl Roster {
    /// No groups yet, and whether the names of all could be read so far.
    pub(crate) fn new(alloc: Global, is_complete: bool) -> Roster {
        Roster {
            groups: IndexMap::new(alloc),
            is_complete,
        }
    }

    /// Adds a group, unless one of its name is there: then it is answered where that name stands, and how
    /// many members have the name isn't known any more.
    pub(crate) fn add(
        &mut self,
        alloc: Global,
        name: &str,
        group: Known,
    ) -> Result<Option<Span>, Memory> {
        let before = self.groups.get(name).copied();
        let name = String::from_str(alloc, name)?;
        self.groups.insert(name, known_after(before, group))?;
        Ok(span_of(before))
    }

    /// Whether a name is surely that of no group.
    pub(crate) fn lacks(&self, name: &str) -> bool {
        self.is_complete && self.groups.get(name).is_none()
    }

    /// What the name of a member names.
    pub(crate) fn find(&self, name: &str) -> Named {
        let Some((group, index)) = name.rsplit_once('-') else {
            return Named::Nobody;
        };
        let Some(index) = index_spelt(index) else {
            return Named::Nobody;
        };
        match self.groups.get_index_of(group) {
            Some(number) => match self.groups.get(group) {
                Some(known) => seat_in(number, index, *known),
                None => Named::Hidden,
            },
            None => {
                if self.is_complete {
                    Named::Nobody
                } else {
                    Named::Hidden
                }
            }
        }
    }
}

/// What is known of a group's name, if another one had it before.
fn known_after(before: Option<Known>, group: Known) -> Known {
    match before {
        Some(before) => Known {
            count: None,
            start: None,
            name: before.name,
        },
        None => group,
    }
}

/// Where a group's name stands.
fn span_of(group: Option<Known>) -> Option<Span> {
    match group {
        Some(group) => Some(group.name),
        None => None,
    }
}

/// The member of a number in a group.
fn seat_in(group: usize, index: u64, known: Known) -> Named {
    match known.count {
        Some(count) => {
            if index < count {
                Named::Member(Seat {
                    group,
                    index,
                    start: known.start,
                })
            } else {
                Named::Nobody
            }
        }
        None => Named::Hidden,
    }
}

/// The number that is spelt so: in decimal, without leading zeros.
fn index_spelt(text: &str) -> Option<u64> {
    let Ok(index) = text.parse::<u64>() else {
        return None;
    };
    let mut buffer = Buffer::new();
    if buffer.format(index) == text {
        Some(index)
    } else {
        None
    }
}
