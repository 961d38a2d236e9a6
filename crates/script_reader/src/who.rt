//! Whom an item is about, by the numbers of members.
ghost use Rattle.std.specs.Prelude.{◌≡◌, ◌≤◌, ◌<◌, ◌+◌, ◌++◌, map, flat_map, sum_by, option_map, IfOk, OnOk};
ghost use Rattle.std.specs.List.{range_with_len};
ghost use Rattle.toml.specs.View.{view};
ghost use Rattle.scenario_reader.specs.Reading.{member_named};
ghost use Rattle.script_reader.specs.Who.{alone, contact_of, found, found_in, in_span, member_total, members_in, named_in, span_at, span_of};

use crate::values::{members_of, text_at, text_in};
use base::{MemberId, Memory};
use std::alloc::Global;
use toml::Value;
use written_names::{Roster, WrittenGroup};

/// The most members that a text may have.
const MOST_MEMBERS: usize = 16_384;

/// The members of a group: so many, from the first on.
#[derive(Clone, Copy, Debug)]
pub(crate) struct Span {
    pub first: u64,
    pub count: u64,
}

/// Whom an item names: its member; or its members, in their order; or all of its group. Who isn't there is left out.
pub(crate) fn members_in(
    alloc: Global,
    roster: &Roster,
    groups: &[WrittenGroup],
    item: &Value,
) -> Result<Vec<MemberId>, Memory>
    requires few { member_total groups.now ≤ 16384 }
    requires same { sum_by (λ g. g.count) roster.now ≡ member_total groups.now }
    ensures { IfOk result (λ made. made.items ≡ members_in roster.now groups.now (view item.now)) }
{
    if let Some(name) = text_at(item, "member") {
        one(alloc, find(roster, name))
    } else if item.get("members").is_some() {
        listed(alloc, roster, members_of(item))
    } else {
        numbered(alloc, span_at(groups, text_at(item, "group")))
    }
}

/// One member, if there is one.
fn one(alloc: Global, member: Option<MemberId>) -> Result<Vec<MemberId>, Memory>
    ensures { IfOk result (λ made. made.items ≡ alone member) }
{
    let mut made = Vec::new(alloc);
    add_one(&mut made, member)?;
    Ok(made)
}

/// Adds a member, if there is one.
fn add_one(made: &mut Vec<MemberId>, member: Option<MemberId>) -> Result<(), Memory>
    ensures { OnOk result (made.new.items ≡ made.old.items ++ alone member) }
{
    match member {
        Some(member) => {
            made.push(member)?;
            Ok(())
        }
        None => Ok(()),
    }
}

/// The member of this name, if it is one's.
fn find(roster: &Roster, name: &str) -> Option<MemberId>
    requires { sum_by (λ g. g.count) roster.now ≤ 16384 }
    ensures { result ≡ member_named roster.now name.now }
{
    match roster.find(name) {
        Some(found) => Some(MemberId(found.number as u16)),
        None => None,
    }
}

/// The member of this name, if there is a name and it is a member's.
fn found(roster: &Roster, name: Option<&str>) -> Option<MemberId>
    requires { sum_by (λ g. g.count) roster.now ≤ 16384 }
    ensures { result ≡ found roster.now (option_map (λ t. t.now) name.entry) }
{
    match name {
        Some(name) => find(roster, name),
        None => None,
    }
}

/// The members of these names; none where a text can't have so many.
#[tactic(auto, using(crate::proofs::Whom::named_high))]
fn listed(alloc: Global, roster: &Roster, names: &[Value]) -> Result<Vec<MemberId>, Memory>
    requires { sum_by (λ g. g.count) roster.now ≤ 16384 }
    ensures { IfOk result (λ made. made.items ≡ named_in roster.now (map view names.now)) }
{
    if names.len() <= MOST_MEMBERS {
        found_among(alloc, roster, names)
    } else {
        Ok(Vec::new(alloc))
    }
}

/// The members of these names.
fn found_among(alloc: Global, roster: &Roster, names: &[Value]) -> Result<Vec<MemberId>, Memory>
    requires { sum_by (λ g. g.count) roster.now ≤ 16384 }
    ensures { IfOk result (λ made. made.items ≡ flat_map (λ v. found_in roster.now (view v)) names.now) }
{
    let mut made = Vec::new(alloc);
    for name in names {
        add_one(&mut made, found(roster, text_in(name)))?;
    }
    Ok(made)
}

/// The members of the group of this name; none where it is nobody's.
fn span_at(groups: &[WrittenGroup], name: Option<&str>) -> Span
    requires { member_total groups.now ≤ 16384 }
    ensures span { result ≡ span_at groups.now (option_map (λ t. t.now) name.entry) }
    ensures low { result.first + result.count ≤ member_total groups.now }
{
    match name {
        Some(name) => span_of(groups, name),
        None => Span { first: 0, count: 0 },
    }
}

/// The members of the first group of this name; none where there is none.
fn span_of(groups: &[WrittenGroup], name: &str) -> Span
    requires { member_total groups.now ≤ 16384 }
    ensures span { result ≡ span_of 0 groups.now name.now }
    ensures low { result.first + result.count ≤ member_total groups.now }
{
    let mut first = 0;
    for group in groups {
        if group.name.as_str() == name {
            return Span {
                first,
                count: group.count,
            };
        }
        first += group.count;
    }
    Span { first: 0, count: 0 }
}

/// The members of a span.
fn numbered(alloc: Global, span: Span) -> Result<Vec<MemberId>, Memory>
    requires { span.first + span.count ≤ 16384 }
    ensures { IfOk result (λ made. made.items ≡ in_span span) }
{
    members_from(alloc, span.first, span.count)
}

/// So many members, from the first on.
fn members_from(alloc: Global, first: u64, count: u64) -> Result<Vec<MemberId>, Memory>
    requires { first + count ≤ 16384 }
    ensures { IfOk result (λ made. made.items ≡ map (λ k. first + k) (range_with_len 0 count)) }
{
    let mut made = Vec::new(alloc);
    for k in 0..count {
        made.push(member_from(first, k))?;
    }
    Ok(made)
}

/// The k-th member from the first on.
fn member_from(first: u64, k: u64) -> MemberId
    requires { first + k < 16384 }
    ensures { result ≡ first + k }
{
    MemberId((first + k) as u16)
}

/// Whom an item says that one asks who starts again.
pub(crate) fn contact_of(roster: &Roster, item: &Value) -> Option<MemberId>
    requires { sum_by (λ g. g.count) roster.now ≤ 16384 }
    ensures { result ≡ contact_of roster.now (view item.now) }
{
    found(roster, text_at(item, "contact"))
}
