//! What the first line of a shard says.
ghost use Rattle.std.specs.Prelude.{◌≡◌, ◌==◌, ◌≤◌, ◌++◌, ◌∷◌, All, List, ℕ, Bool, None, Some, option_map, true, false, if◌then◌else◌, IfOk, IfErr, IfSome, IsNone, bytes_eq, codes, get_or, length, map};
ghost use Rattle.std.specs.List.{slice_split};
ghost use Rattle.sweep_plan.specs.Sweep.{Sweep};
ghost use Rattle.sweep_plan.specs.declared.fault.PlanFault.TheVariants as unread;
ghost use Rattle.shards.specs.declared.shard.Shard.{Shard as Part};
ghost use Rattle.shards.specs.Shards.{IsShard, shard_text};
ghost use Rattle.shards.specs.Names.{plan_text};
ghost use Rattle.sweep.specs.Runs.{IsAskedFor};
ghost use Rattle.shard_merge.specs.Joined.{IsMark};
ghost use Rattle.sweep.specs.Shards.{shard_header};
ghost use Rattle.shard_merge.specs.declared.fault.JoinFault.TheVariants as join;
ghost use Rattle.shard_merge.specs.Reasons.{BeginsAs, BeginsAsNone, RefusesName, SaysWidth};

use crate::fault::JoinFault;
use decimals::number;
use figures::ColumnSet;
use shards::Shard;
use std::alloc::Global;
use sweep::front_of;
use sweep_plan::{Plan, PlanFault};

/// What the name of a shard says.
#[derive(Drop)]
pub struct Head<'a> {
    /// Which shard it is.
    pub shard: Shard,
    /// The mark of the scenario's text.
    pub mark: &'a str,
    /// The sweep.
    pub plan: Plan,
    /// The columns of its tables.
    pub columns: ColumnSet,
}

/// What the first line of a text says, where that is the first line of a shard, whichever columns its table has.
pub fn head_of_any<'a>(alloc: Global, text: &'a str) -> Result<Option<Head<'a>>, JoinFault>
    ensures found { IfOk result (λ found. IfSome found (λ head. BeginsAs text.entry.now head.mark.now head.columns head.plan head.shard)) }
    ensures none { IfOk result (λ found. IsNone found → BeginsAsNone text.entry.now) }
    ensures memory { IfErr result (λ fault. fault ≡ join.Memory) }
{
    if let Some(head) = head_of(alloc, text, ColumnSet::First)? {
        return Ok(Some(head));
    }
    if let Some(head) = head_of(alloc, text, ColumnSet::WithRevived)? {
        return Ok(Some(head));
    }
    head_of(alloc, text, ColumnSet::WithIncidents)
}

/// What the first line of a text says, where that is the first line of a shard whose table has these columns.
pub fn head_of<'a>(
    alloc: Global,
    text: &'a str,
    columns: ColumnSet,
) -> Result<Option<Head<'a>>, JoinFault>
    ensures found { IfOk result (λ found. IfSome found (λ head. BeginsAs text.entry.now head.mark.now head.columns head.plan head.shard)) }
    ensures none { IfOk result (λ found. IsNone found → (mark : List ℕ) (sweep : Sweep) (p : Part) → ¬ (BeginsAs text.entry.now mark columns sweep p)) }
    ensures memory { IfErr result (λ fault. fault ≡ join.Memory) }
{
    let head = match read_head(alloc, text, columns) {
        Ok(head) => head,
        Err(PlanFault::Words) => return Ok(None),
        Err(PlanFault::Memory) => return Err(JoinFault::Memory),
    };
    let begins = begins_as(alloc, text.as_bytes(), &head, head.shard)?;
    if !begins {
        return Ok(None);
    }
    Ok(Some(head))
}

/// What the name of a text says; the name says nothing of the table, so that is given.
///
/// Faults: `Words` where it is no name of a shard; `Memory`.
fn read_head<'a>(alloc: Global, text: &'a str, columns: ColumnSet) -> Result<Head<'a>, PlanFault>
    ensures shard { IfOk result (λ head. IsShard head.shard) }
    ensures asked { IfOk result (λ head. IsAskedFor head.plan) }
    ensures marked { IfOk result (λ head. IsMark head.mark.now) }
    ensures same { IfOk result (λ head. head.columns ≡ columns) }
    ensures only { IfOk result (λ head. (mark : List ℕ) (column : ColumnSet) (sweep : Sweep) (p : Part) → BeginsAs text.entry.now mark column sweep p
        → (head.mark.now ≡ mark) × (head.plan ≡ sweep) × (head.shard ≡ p)) }
    ensures refused { IfErr result (RefusesName text.entry.now) }
{
    let Some((word, rest)) = parts_of_name(text) else {
        return Err(PlanFault::Words);
    };
    let Some(shard) = Shard::read(word) else {
        return Err(PlanFault::Words);
    };
    let Some((mark, words)) = rest.split_once(' ') else {
        return Err(PlanFault::Words);
    };
    let plan = read_plan(alloc, words)?;
    Ok(Head {
        shard,
        mark,
        plan,
        columns,
    })
}

/// Which shard a text says that it is, and the rest of its name.
fn parts_of_name<'a>(text: &'a str) -> Option<(&'a str, &'a str)>
    ensures quoteless { IfSome result (λ parts. All (λ byte. (byte == 34) ≡ false) parts.1.now) }
    ensures some { IfSome result (λ parts. (mark : List ℕ) (columns : ColumnSet) (sweep : Sweep) (p : Part) → BeginsAs text.entry.now mark columns sweep p
        → (parts.0.now ≡ shard_text p) × (parts.1.now ≡ mark ++ 32 ∷ plan_text sweep)) }
    ensures none { IsNone result → BeginsAsNone text.entry.now }
{
    let Some(inside) = text.strip_prefix('"') else {
        return None;
    };
    let Some((name, _)) = inside.split_once('"') else {
        return None;
    };
    name.split_once(' ')
}

/// Whether a text begins with the first line of this shard of the sweep.
pub fn begins_as(
    alloc: Global,
    text: &[u8],
    head: &Head<'_>,
    shard: Shard,
) -> Result<bool, JoinFault>
    ensures begins { IfOk result (λ it. it ≡ true → (rest : List ℕ) × (text.now ≡ shard_header head.now.columns head.now.mark.now head.now.plan shard ++ rest)) }
    ensures other { IfOk result (λ it. it ≡ false → (rest : List ℕ) → ¬ (text.now ≡ shard_header head.now.columns head.now.mark.now head.now.plan shard ++ rest)) }
    ensures memory { IfErr result (λ fault. fault ≡ join.Memory) }
{
    let header = header_of(alloc, head, shard)?;
    Ok(text.strip_prefix(header.as_slice()).is_some())
}

/// The first line of a shard of the sweep.
pub(crate) fn header_of(alloc: Global, head: &Head<'_>, shard: Shard) -> Result<Vec<u8>, JoinFault>
    ensures header { IfOk result (λ header. header.items ≡ shard_header head.now.columns head.now.mark.now head.now.plan shard) }
    ensures memory { IfErr result (λ fault. fault ≡ join.Memory) }
{
    Ok(front_of(alloc, &head.plan, shard, head.mark, head.columns)?)
}

/// The number of the shard that a text says that it is.
pub fn number_of(text: &str) -> Option<u64>
    ensures some { IfSome result (λ number. 1 ≤ number) }
    ensures only { IfSome result (λ number. (mark : List ℕ) (columns : ColumnSet) (sweep : Sweep) (p : Part) → BeginsAs text.now mark columns sweep p → p.number ≡ number) }
    ensures none { IsNone result → BeginsAsNone text.now }
{
    let Some((word, _)) = parts_of_name(text) else {
        return None;
    };
    let Some(shard) = Shard::read(word) else {
        return None;
    };
    Some(shard.number)
}

/// The sweep that these words ask for: the range of its seeds, or a dash, the width of its settings' intervals where it has one,
/// and its swept keys.
pub fn read_plan(alloc: Global, words: &str) -> Result<Plan, PlanFault>
    ensures asked { IfOk result IsAskedFor }
    ensures only { IfOk result (λ plan. (sweep : Sweep) → IsAskedFor sweep → words.now ≡ plan_text sweep → plan ≡ sweep) }
    ensures refused { IfErr result (λ fault. fault ≡ unread.Words → (sweep : Sweep) → IsAskedFor sweep → ¬ (words.now ≡ plan_text sweep)) }
{
    let all = words_of(alloc, words)?;
    if all.is_empty() {
        return Err(PlanFault::Words);
    }
    let listed = all.as_slice();
    let first = first_or(listed, words);
    let Some(word) = width_behind(listed) else {
        return Plan::read(alloc, &listed[1..], seeds_of(first), None);
    };
    let Some(width) = number(word) else {
        return Err(PlanFault::Words);
    };
    Plan::read(alloc, &listed[2..], seeds_of(first), Some(width))
}

/// What the word behind the first says of a width, where it does.
fn width_behind<'a>(listed: &[&'a str]) -> Option<&'a str>
    ensures some { IfSome result (λ value. SaysWidth (map (λ word. word.now) listed.now) value.now) }
    ensures long { IfSome result (λ value. 2 ≤ length listed.now) }
    ensures none { IsNone result → (value : List ℕ) → ¬ (SaysWidth (map (λ word. word.now) listed.now) value) }
{
    if listed.len() < 2 {
        return None;
    }
    width_in(listed[1])
}

/// What a word says of a width, where it does: what stands behind `until=`.
fn width_in<'a>(word: &'a str) -> Option<&'a str>
    ensures some { IfSome result (λ value. word.entry.now ≡ codes "until=" ++ value.now) }
    ensures none { IsNone result → (value : List ℕ) → ¬ (word.entry.now ≡ codes "until=" ++ value) }
{
    let Some((name, value)) = word.split_once('=') else {
        return None;
    };
    if name != "until" {
        return None;
    }
    Some(value)
}

/// The first of some words; another where there is none.
fn first_or<'a>(listed: &[&'a str], other: &'a str) -> &'a str
    ensures { result ≡ get_or listed.now 0 other.entry }
{
    if listed.is_empty() {
        return other;
    }
    listed[0]
}

/// Words with spaces between them, one by one.
fn words_of<'a>(alloc: Global, words: &'a str) -> Result<Vec<&'a str>, PlanFault>
    ensures all { IfOk result (λ all. map (λ word. word.now) all.items ≡ slice_split (λ byte. byte == 32) words.entry.now) }
    ensures memory { IfErr result (λ fault. fault ≡ unread.Memory) }
{
    let mut all = Vec::new(alloc);
    for word in words.split(' ') {
        if all.push(word).is_err() {
            return Err(PlanFault::Memory);
        }
    }
    Ok(all)
}

/// The word of the seeds, where there is one.
fn seeds_of<'a>(word: &'a str) -> Option<&'a str>
    ensures { option_map (λ seeds. seeds.now) result ≡ (if bytes_eq word.entry.now (codes "-") then None else Some word.entry.now) }
{
    if word == "-" {
        return None;
    }
    Some(word)
}
