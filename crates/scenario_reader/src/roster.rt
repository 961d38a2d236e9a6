//! The groups while a text is read: which member or group a name names.
ghost use Rattle.std.specs.Prelude.{◌≡◌, ◌≢◌, ◌<◌, ◌^◌, ◌++◌, ◌∷◌, ℕ, [], None, Ok, map, true, false, not, option_map, decimal, sum_by, IfOk, IfErr, OnOk, IfSome, IfNone};
ghost use Rattle.std.specs.List.{list_all};
ghost use Rattle.toml.specs.View.{view};
ghost use Rattle.scenario_reader.specs.Reading.{plain_group, member_named, group_named};
ghost use Rattle.scenario.specs.GroupNames.{begins_with_letter, ends_with_dash, is_group_name, is_name_byte, is_name_of, is_wide_byte, is_wide_name, starts_with_letter};
ghost use Rattle.scenario_reader.specs.Rules.{breaks_name, breaks_names_in};
ghost use Rattle.scenario_reader.specs.Roster.{named_group, start_in};

use crate::refusal::Refusal;
use base::{Memory, Moment};
use indexmap::IndexMap;
use itoa::Buffer;
use schema::{FormatKey, Section, Version, number, text};
use std::alloc::Global;
use std::marker::Model;
use toml::Value;

/// The groups of a text, by name.
#[derive(Drop)]
pub(crate) struct Roster {
    groups: IndexMap<String, Block>,
}

/// What a group's name stands for.
#[derive(Clone, Copy, Debug)]
pub(crate) struct Block {
    /// The number of its first member. No list of groups is so long that this doesn't hold it.
    first: u128,
    /// How many members it has.
    count: u64,
    /// When they start.
    start: Moment,
}

/// The member that a name names.
#[derive(Clone, Copy, Debug)]
pub(crate) struct Found {
    /// Its number, which may be past the most members that a scenario may have.
    pub(crate) number: u128,
    /// When it starts.
    pub(crate) start: Moment,
}

impl Model for Roster {
    ghost use Rattle.std.specs.Prelude.{List};
    ghost use Rattle.scenario.specs.Setup.{Group};

    ghost Value = { List Group };

    ghost use Rattle.scenario_reader.specs.Roster.{roster_of, IsRoster};

    ghost view = { roster_of };

    ghost invariant = { IsRoster };
}

impl Roster {
    /// The groups of a list in their order. Refused are a name of another form than names have in the version, and a
    /// second group of one name.
    pub(crate) fn read(alloc: Global, version: Version, list: &[Value]) -> Result<Roster, Refusal>
        ensures ok { IfOk result (λ roster. roster ≡ map (λ v. plain_group (view v)) list.now) }
        ensures fine { OnOk result (breaks_names_in version (map (λ v. plain_group (view v)) list.now) ≡ false) }
        ensures err { IfErr result (λ r. r.rule ≢ 11 → (r.rule ≡ 6) × (breaks_names_in version (map (λ v. plain_group (view v)) list.now) ≡ true)) }
    {
        let mut groups = IndexMap::new(alloc);
        let mut first = 0;
        for (i, item) in list.iter().enumerate() {
            let block = read_block(first, item);
            let count = block.count;
            match add_group(
                alloc,
                version,
                &mut groups,
                text(FormatKey::Name, item),
                block,
            ) {
                Ok(true) => first += u128::from(count),
                Ok(false) => return Err(Refusal::in_item(6, i)),
                Err(Memory) => return Err(Refusal::memory()),
            }
        }
        Ok(Roster { groups })
    }

    /// The number of the group of that name.
    pub(crate) fn group(&self, name: &str) -> Option<usize>
        ensures { result ≡ group_named self.now name.now }
    {
        self.groups.get_index_of(name)
    }

    /// The member of that name.
    pub(crate) fn find(&self, name: &str) -> Option<Found>
        ensures number { option_map (λ f. f.number) result ≡ member_named self.now name.now }
        ensures start { IfSome result (λ f. f.start ≡ start_in self.now f.number) }
        ensures within { IfSome result (λ f. f.number < sum_by (λ g. g.count) self.now) }
    {
        let Some((group, index)) = name.rsplit_once('-') else {
            return None;
        };
        let Some(block) = self.groups.get(group) else {
            return None;
        };
        let Some(index) = index_spelt(index) else {
            return None;
        };
        if index >= block.count {
            return None;
        }
        Some(Found {
            number: block.first + u128::from(index),
            start: block.start,
        })
    }
}

/// What a group's name stands for, with the number of its first member.
fn read_block(first: u128, group: &Value) -> Block
    ensures first { result.first ≡ first }
    ensures count { result.count ≡ (plain_group (view group.now)).count }
    ensures start { result.start ≡ (plain_group (view group.now)).start }
{
    Block {
        first,
        count: number(Section::Group, FormatKey::Count, Some(group)),
        start: Moment(number(Section::Group, FormatKey::Start, Some(group))),
    }
}

/// Adds a group at the end, unless its name has another form or is taken.
fn add_group(
    alloc: Global,
    version: Version,
    groups: &mut IndexMap<String, Block>,
    name: &str,
    block: Block,
) -> Result<bool, Memory>
    ensures added { result ≡ Ok true → map named_group groups.new.entries ≡ map named_group groups.old.entries ++ record { name = name.now; count = block.count; start = block.start; contact = None } ∷ [] }
    ensures numbered { result ≡ Ok true → map (λ e. e.1) groups.new.entries ≡ map (λ e. e.1) groups.old.entries ++ block ∷ [] }
    ensures fine { IfOk result (λ added. added ≡ not (breaks_name version (map named_group groups.old.entries) name.now)) }
{
    if !is_name_of(version, name.as_bytes()) {
        return Ok(false);
    }
    let Ok(key) = String::from_str(alloc, name) else {
        return Err(Memory);
    };
    match groups.insert(key, block) {
        Ok(None) => Ok(true),
        Ok(Some(_)) => Ok(false),
        Err(_) => Err(Memory),
    }
}

/// Whether a group's name has the form that it has in the version.
fn is_name_of(version: Version, name: &[u8]) -> bool
    ensures { result ≡ is_name_of version name.now }
{
    match version {
        Version::One | Version::Two | Version::Three => is_group_name(name),
        Version::Four => is_wide_name(name),
    }
}

/// Whether a name is 1 to 32 letters, digits, `-` and `_`, the first a letter and the last not `-`.
fn is_wide_name(name: &[u8]) -> bool
    ensures { result ≡ is_wide_name name.now }
{
    name.len() <= 32
        && (begins_with_letter(name) && (are_wide_bytes(name) && !ends_with_dash(name)))
}

/// Whether the first byte is a letter.
fn begins_with_letter(bytes: &[u8]) -> bool
    ensures { result ≡ begins_with_letter bytes.now }
{
    match bytes.first() {
        Some(first) => first.is_ascii_alphabetic(),
        None => false,
    }
}

/// Whether all are letters, digits, `-` and `_`.
fn are_wide_bytes(bytes: &[u8]) -> bool
    ensures { result ≡ list_all is_wide_byte bytes.now }
{
    bytes.iter().all(|byte| is_wide_byte(*byte))
}

/// Whether a byte is a letter, a digit, `-` or `_`.
fn is_wide_byte(byte: u8) -> bool
    ensures { result ≡ is_wide_byte byte }
{
    (byte.is_ascii_alphabetic() || byte.is_ascii_digit()) || (byte == b'-' || byte == b'_')
}

/// Whether the last byte is `-`.
fn ends_with_dash(bytes: &[u8]) -> bool
    ensures { result ≡ ends_with_dash bytes.now }
{
    match bytes.last() {
        Some(last) => *last == b'-',
        None => false,
    }
}

/// Whether a name is 1 to 16 bytes of `a` to `z` and `0` to `9`, the first a letter.
fn is_group_name(name: &[u8]) -> bool
    ensures { result ≡ is_group_name name.now }
{
    name.len() <= 16 && starts_with_letter(name) && are_name_bytes(name)
}

/// Whether the first byte is `a` to `z`.
fn starts_with_letter(bytes: &[u8]) -> bool
    ensures { result ≡ starts_with_letter bytes.now }
{
    match bytes.first() {
        Some(first) => first.is_ascii_lowercase(),
        None => false,
    }
}

/// Whether the bytes are all `a` to `z` or `0` to `9`.
fn are_name_bytes(bytes: &[u8]) -> bool
    ensures { result ≡ list_all is_name_byte bytes.now }
{
    bytes
        .iter()
        .all(|byte| byte.is_ascii_lowercase() || byte.is_ascii_digit())
}

/// The index that is spelt so: in decimal, without leading zeros.
fn index_spelt(text: &str) -> Option<u64>
    ensures some { IfSome result (λ i. text.now ≡ decimal i) }
    ensures none { IfNone result ((i : ℕ) → i < 2 ^ 64 → text.now ≢ decimal i) }
{
    let Ok(index) = text.parse::<u64>() else {
        return None;
    };
    let mut buffer = Buffer::new();
    if buffer.format(index) == text {
        Some(index)
    } else {
        None
    }
}
