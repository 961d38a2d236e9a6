//! How far the next windows of a run's parts may go.
ghost use Rattle.std.specs.Prelude.{◌≡◌, ◌+◌, ◌<◌, ◌≤◌, ◌^◌, IfOk, IfSome, IfNone};
ghost use Rattle.std.specs.List.{AllByRecursion};
ghost use Rattle.windows.specs.Cluster.{IsLeastDelay};
ghost use Rattle.windows.specs.declared.bounded.Bounded.{Bounded as ABounded};
ghost use Rattle.windows.specs.Several.{parts_of};
ghost use Rattle.turns.specs.Parts.{NonePendsBefore, AreBounded};
ghost use Rattle.turns.specs.Course.{IsCourse};
ghost use Rattle.turns.specs.Bounds.{IsFirstMoment};

use crate::parts::least_moment;
use crate::turns::Course;
use base::{Memory, Moment};
use member::Event;
use std::alloc::Global;
use windows::{Bounded, Part};
use worker_queue::EventQueue;

/// The first moment at which something pends, up to the end: None where nothing does.
pub fn first_moment<Q: EventQueue<Event> + Drop>(parts: &[Part<Q>], end: Moment) -> Option<Moment>
    requires end { end < 2 ^ 63 }
    ensures over { IfNone result (NonePendsBefore Q.set parts.now (end + 1)) }
    ensures first { IfSome result (IsFirstMoment Q.set parts.now end) }
{
    let first = match least_moment(parts) {
        Some(first) => first,
        None => return None,
    };
    let last = end.ticks();
    if last < first.ticks() {
        return None;
    }
    Some(first)
}

/// The parts with a common bound: as far past the first moment as any event takes to another member, and no
/// later than the moment after the end.
pub fn bounded_in_common<Q: EventQueue<Event> + Drop>(
    alloc: Global,
    parts: Vec<Part<Q>>,
    first: Moment,
    least_delay: Option<u64>,
    course: &Course,
) -> Result<Vec<Bounded<Q>>, Memory>
    requires course { IsCourse course.now }
    requires first { IsFirstMoment Q.set parts.items course.now.end first }
    requires least { IsLeastDelay course.now.cluster.scenario.now least_delay }
    ensures { IfOk result (λ bounded. AreBounded Q.set course.now.cluster.scenario.now course.now.division.now parts.items first bounded.items) }
{
    let last = course.end.ticks() + 1;
    let bound = bound_after(first.ticks(), last, least_delay);
    bound_all(alloc, parts, Moment(bound))
}

/// A bound past that moment, no more than the least delay past it, nor than the last bound.
fn bound_after(first: u64, last: u64, least_delay: Option<u64>) -> u64
    requires { first < last }
    ensures in_time { result ≤ last }
    ensures near { IfSome least_delay (λ d. result ≤ first + d) }
    ensures past { IfSome least_delay (λ d. 0 < d) → first < result }
{
    match least_delay {
        Some(delay) => {
            if delay < last - first {
                first + delay
            } else {
                last
            }
        }
        None => last,
    }
}

/// The parts, all with this bound.
fn bound_all<Q: EventQueue<Event> + Drop>(
    alloc: Global,
    parts: Vec<Part<Q>>,
    bound: Moment,
) -> Result<Vec<Bounded<Q>>, Memory>
    ensures parts { IfOk result (λ bounded. parts_of bounded.items ≡ parts.items) }
    ensures bounds { IfOk result (λ bounded. AllByRecursion (λ (b : ABounded Q). b.bound ≡ bound) bounded.items) }
{
    let mut bounded = Vec::new(alloc);
    for part in parts {
        bounded.push(Bounded { part, bound })?;
    }
    Ok(bounded)
}
