//! How many members are in a state at the ends of spans.
ghost use Rattle.std.specs.Prelude.{◌≡◌, ◌+◌, ◌-◌, ◌<◌, ◌≤◌, ◌^◌, IfOk, min, length};
ghost use Rattle.series.specs.Grid.{count_at};
ghost use Rattle.run_page.specs.Health.{ends};

use base::Memory;
use series::Flows;
use std::alloc::Global;

/// How many members are in a state at the end of each of so many spans, where nobody is at first.
/// None is more than `most`.
pub(crate) fn ends(
    alloc: Global,
    flows: &Flows,
    state: usize,
    spans: usize,
    most: u64,
) -> Result<Vec<u64>, Memory>
    requires state { state ≤ 64 }
    requires spans { spans ≤ 120 }
    ensures all { IfOk result (λ list. length list.items ≡ spans) }
    ensures value { IfOk result (λ list. list.items ≡ ends (count_at flows.now.came state) (count_at flows.now.went state) spans most) }
{
    let mut ends = Vec::new(alloc);
    let mut before = 0u128;
    for span in 0..spans {
        let came = flows.came(state, span);
        let next = after(before, came, flows.went(state, span));
        ends.push(at_most(next, most))?;
        before = next;
    }
    Ok(ends)
}

/// How many are in a state after a span in which so many came to it and so many went.
fn after(before: u128, came: u64, went: u64) -> u128
    requires { before < 2 ^ 100 }
    ensures { result ≡ before + came - went }
{
    (before + u128::from(came)).saturating_sub(u128::from(went))
}

/// The number, none more than `most`.
fn at_most(number: u128, most: u64) -> u64
    ensures { result ≡ min number most }
{
    number.min(u128::from(most)) as u64
}
