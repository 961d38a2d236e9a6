//! What a text may say of a member only once: its crash, and its slowness or its pause at a moment.
ghost use Rattle.std.specs.Prelude.{◌≡◌, ◌≢◌, map, true, false, is_some, not, ◌||◌, nat_eq, nat_lt, OnOk, IfErr, IfOk};
ghost use Rattle.std.specs.List.Sorted.{IsSorted};
ghost use Rattle.toml.specs.View.{view};
ghost use Rattle.scenario_reader.specs.Reading.{member_at, slows_in, crash_in, crashes_in};
ghost use Rattle.scenario_reader.specs.Rules.{any_two, is_same_member, overlaps, breaks_pairs};
ghost use Rattle.scenario_reader.specs.Spans.{slow_of, span_in, span_cmp};

use crate::refusal::Refusal;
use crate::roster::Roster;
use base::Memory;
use indexmap::IndexSet;
use schema::{FormatKey, Section, items_at, number, text};
use std::alloc::Global;
use toml::Value;

/// A time in which a member is slow or paused.
#[derive(Clone, Copy, Debug, PartialEq, Eq, PartialOrd, Ord)]
pub(crate) struct Span {
    /// The member's number.
    member: u128,
    from: u64,
    until: u64,
    /// The index of its item.
    item: usize,
}

/// Refuses two crashes of one member, and two slow times of one member that overlap.
pub(crate) fn check_pairs(alloc: Global, roster: &Roster, tree: &Value) -> Result<(), Refusal>
    ensures ok { OnOk result (breaks_pairs (crashes_in roster.now (view tree.now)) (slows_in roster.now (view tree.now)) ≡ false) }
    ensures err { IfErr result (λ r. r.rule ≢ 11 → (r.rule ≡ 8) × (breaks_pairs (crashes_in roster.now (view tree.now)) (slows_in roster.now (view tree.now)) ≡ true)) }
{
    match check_crashes(alloc, roster, items_at(FormatKey::Crash, tree)) {
        Ok(()) => check_spans(
            alloc,
            Section::Slow,
            roster,
            items_at(FormatKey::Slow, tree),
        ),
        Err(refusal) => Err(refusal),
    }
}

/// Refuses two crashes of one member, or two leaves.
pub(crate) fn check_crashes(alloc: Global, roster: &Roster, list: &[Value]) -> Result<(), Refusal>
    ensures ok { OnOk result (any_two is_same_member (map (λ v. crash_in roster.now (view v)) list.now) ≡ false) }
    ensures err { IfErr result (λ r. r.rule ≢ 11 → (r.rule ≡ 8) × (any_two is_same_member (map (λ v. crash_in roster.now (view v)) list.now) ≡ true)) }
{
    let mut members = IndexSet::new(alloc);
    for (i, item) in list.iter().enumerate() {
        match members.insert(member(roster, item)) {
            Ok(true) => {}
            Ok(false) => return Err(Refusal::in_item(8, i)),
            Err(_) => return Err(Refusal::memory()),
        }
    }
    Ok(())
}

/// The number of the member of which an item speaks.
pub(crate) fn member(roster: &Roster, item: &Value) -> u128
    ensures { result ≡ member_at roster.now FormatKey.Member (view item.now) }
{
    match roster.find(text(FormatKey::Member, item)) {
        Some(found) => found.number,
        None => 0,
    }
}

/// Refuses two slow times of one member that overlap, or two pauses.
pub(crate) fn check_spans(
    alloc: Global,
    section: Section,
    roster: &Roster,
    list: &[Value],
) -> Result<(), Refusal>
    ensures ok { OnOk result (any_two overlaps (map (λ v. span_in section roster.now (view v)) list.now) ≡ false) }
    ensures err { IfErr result (λ r. r.rule ≢ 11 → (r.rule ≡ 8) × (any_two overlaps (map (λ v. span_in section roster.now (view v)) list.now) ≡ true)) }
{
    let mut spans = match list_spans(alloc, section, roster, list) {
        Ok(spans) => spans,
        Err(Memory) => return Err(Refusal::memory()),
    };
    match spans.sort() {
        Ok(()) => {}
        Err(_) => return Err(Refusal::memory()),
    }
    match first_overlap(spans.as_slice()) {
        Some(item) => Err(Refusal::in_item(8, item)),
        None => Ok(()),
    }
}

/// The slow times or pauses of a list.
fn list_spans(
    alloc: Global,
    section: Section,
    roster: &Roster,
    list: &[Value],
) -> Result<Vec<Span>, Memory>
    ensures { IfOk result (λ spans. map slow_of spans.items ≡ map (λ v. span_in section roster.now (view v)) list.now) }
{
    let mut spans = Vec::new(alloc);
    for (i, item) in list.iter().enumerate() {
        spans.push(read_span(section, roster, i, item))?;
    }
    Ok(spans)
}

/// One slow time or pause.
fn read_span(section: Section, roster: &Roster, index: usize, item: &Value) -> Span
    ensures { slow_of result ≡ span_in section roster.now (view item.now) }
{
    Span {
        member: member(roster, item),
        from: number(section, FormatKey::From, Some(item)),
        until: number(section, FormatKey::Until, Some(item)),
        item: index,
    }
}

/// The item of the first span that overlaps one before it. Beside each span it is enough to look at
/// the one of the same member, of those before it, that lasts longest.
fn first_overlap(spans: &[Span]) -> Option<usize>
    requires { IsSorted span_cmp spans.now }
    ensures { is_some result ≡ any_two (λ a b. overlaps (slow_of a) (slow_of b)) spans.now }
{
    let mut longest = 0;
    for i in 1..spans.len() {
        if overlap(&spans[longest], &spans[i]) {
            return Some(spans[i].item);
        }
        if replaces(&spans[i], &spans[longest]) {
            longest = i;
        }
    }
    None
}

/// Whether two times in which one member is slow, or paused, overlap.
fn overlap(a: &Span, b: &Span) -> bool
    ensures { result ≡ overlaps (slow_of a.now) (slow_of b.now) }
{
    a.member == b.member && a.from < b.until && b.from < a.until
}

/// Whether a span is of another member than the one before it, or lasts longer.
fn replaces(span: &Span, longest: &Span) -> bool
    ensures { result ≡ (not (nat_eq span.now.member longest.now.member) || nat_lt longest.now.until span.now.until) }
{
    span.member != longest.member || longest.until < span.until
}
