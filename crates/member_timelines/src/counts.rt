//! How many members are in a state, span by span.
ghost use Rattle.std.specs.Prelude.{◌≡◌, ◌+◌, ◌-◌, ◌<◌, ◌≤◌, ◌^◌, IfOk, min, max, length};
ghost use Rattle.std.specs.List.{reduce};
ghost use Rattle.std.specs.Option.{unwrap_or};
ghost use Rattle.series.specs.Grid.{count_at};
ghost use Rattle.member_timelines.specs.Heights.{axis_height, shown, heights, stacked, flat, before};

use base::Memory;
use series::Flows;
use std::alloc::Global;

/// How many members are in a state in each of so many spans, where so many are at first: those at the
/// span's end, or, where nobody is then, 1 where some member came to it. None is more than `most`.
pub fn heights(
    alloc: Global,
    flows: &Flows,
    state: usize,
    spans: usize,
    first: u64,
    most: u64,
) -> Result<Vec<u64>, Memory>
    requires state { state ≤ 64 }
    requires spans { spans ≤ 120 }
    ensures all { IfOk result (λ list. length list.items ≡ spans) }
    ensures value { IfOk result (λ list. list.items ≡ heights (count_at flows.now.came state) (count_at flows.now.went state) spans first most) }
{
    let mut heights = Vec::new(alloc);
    let mut before = u128::from(first);
    for span in 0..spans {
        let came = flows.came(state, span);
        let next = after(before, came, flows.went(state, span));
        heights.push(shown(came, next, most))?;
        before = next;
    }
    Ok(heights)
}

/// How many are in a state after a span in which so many came to it and so many went.
fn after(before: u128, came: u64, went: u64) -> u128
    requires { before < 2 ^ 100 }
    ensures { result ≡ before + came - went }
{
    (before + u128::from(came)).saturating_sub(u128::from(went))
}

/// What is shown of a span, none more than `most`.
fn shown(came: u64, after: u128, most: u64) -> u64
    ensures { result ≡ min (shown came after) most }
{
    if after == 0 {
        return came.min(1).min(most);
    }
    after.min(u128::from(most)) as u64
}

/// Heights on top of others, none more than `most`.
pub fn stacked(alloc: Global, bases: &[u64], heights: &[u64], most: u64) -> Result<Vec<u64>, Memory>
    ensures { IfOk result (λ list. list.items ≡ stacked bases.now heights.now most) }
{
    let mut tops = Vec::new(alloc);
    for place in 0..bases.len().min(heights.len()) {
        tops.push(top(bases[place], heights[place], most))?;
    }
    Ok(tops)
}

/// A height on top of another, no more than `most`.
fn top(base: u64, height: u64, most: u64) -> u64
    ensures { result ≡ min (base + height) most }
{
    base.saturating_add(height).min(most)
}

/// Nothing in each of so many spans.
pub fn flat(alloc: Global, spans: usize) -> Result<Vec<u64>, Memory>
    ensures { IfOk result (λ list. list.items ≡ flat spans) }
{
    let mut heights = Vec::new(alloc);
    heights.resize(spans, 0)?;
    Ok(heights)
}

/// So high an axis is that shows this height; it isn't empty.
pub fn axis_height(most: u64) -> u64
    ensures value { result ≡ axis_height most }
    ensures small { result < 2 ^ 63 }
    ensures some { 1 ≤ result }
{
    most.max(1).min(0x7fff_ffff_ffff_ffff)
}

/// The greatest of these heights, 0 of none.
pub fn greatest(heights: &[u64]) -> u64
    ensures { result ≡ unwrap_or (reduce max heights.now) 0 }
{
    greatest_of(heights).unwrap_or(0)
}

/// The greatest of these heights, where there are some.
fn greatest_of(heights: &[u64]) -> Option<u64>
    ensures { result ≡ reduce max heights.now }
{
    heights.iter().map(|height| *height).max()
}

/// What stands before a place, 0 before the first one.
pub fn before(heights: &[u64], place: usize) -> u64
    requires { place < length heights.now }
    ensures { result ≡ before heights.now place }
{
    if place == 0 { 0 } else { heights[place - 1] }
}
