//! Runs a scenario by a list of chosen members: each choice handles that member's least pending event if it is safe,
//! and is skipped otherwise.
ghost use Rattle.std.specs.Prelude.{◌≡◌, ◌⊎◌, ◌+◌, ◌<◌, ◌≤◌, ◌^◌, ℕ, [], List, Option, Some, IfOk, IfErr, IfSome, IfNone, IsErrOf, length};
ghost use Rattle.std.specs.List.Sorted.{IsSorted};
ghost use Rattle.std.specs.FinMap.{get, remove, empty};
ghost use Rattle.base.specs.declared.key.Key.{Key};
ghost use Rattle.scenario.specs.Setup.{Setup, IsSound};
ghost use Rattle.trace.specs.declared.row.Row.{Row as ARow};
ghost use Rattle.member.specs.Opening.{opening};
ghost use Rattle.member_laws.specs.Runs.{Cluster as World, IsRunOf, CounterOverflows};
ghost use Rattle.worker_queue.specs.SetOf.{set_of};
ghost use Rattle.windows.specs.Safe.{IsSafe};
ghost use Rattle.windows.specs.Schedule.{rows_by};
ghost use Rattle.windows.specs.Cluster.{IsLeastDelay, SafeSchedule, whose};
ghost use Rattle.windows.specs.Play.{NonePasses, Plays, IsPlayOf, IsLeastLeft, IsBeginning};
ghost use Rattle.windows.specs.Choosing.{safe_bound, IsPlayed, HasChosen, HasPlayed};
ghost use Rattle.windows.specs.WorldOf.{world_of};

use crate::cluster::Cluster;
use crate::faults::with_run_fault;
use crate::part::Part;
use crate::steps::{handle_taken, nothing};
use base::{Fault, MemberId, Moment};
use links::Links;
use member::{Effects, Event, StepError};
use scenario::Scenario;
use std::alloc::Global;
use trace::Row;
use worker_queue::TreeQueue;

/// What choices of members came to.
#[derive(Debug, Drop)]
pub struct Played {
    /// The rows of the events handled, in row order.
    pub rows: Vec<Row>,
    /// How many choices handled an event.
    pub handled: usize,
    /// How many choices found no safe event.
    pub skipped: usize,
    /// The least moment that still pends, if it is no later than the end.
    pub left: Option<Moment>,
}

/// Runs the scenario by choices of members, in their order. A choice handles that member's least pending
/// event if it is safe, and is else skipped: it may name any number, also one that no member has. An event
/// is safe if it is the least that pends for its receiver, its moment is at most the end, and, where there
/// are two members or more, less than the least moment that pends and the least delay of a link.
///
/// Faults: `Memory`; `CounterOverflow` where a counter of the scenario's run would pass 2^63.
pub fn play(alloc: Global, scenario: &Scenario, choices: &[MemberId]) -> Result<Played, Fault>
    // Just the safe events were handled, each when its member was chosen.
    ensures played { IfOk result (IsPlayOf scenario.now choices.now) }
    ensures order { IfOk result (λ played. IsSorted ⟦<Row as Ord>⟧.cmp played.rows.items) }

    // Each member's rows are a beginning of its rows in the run, and where nothing is left all rows are the run's.
    ensures of_each_member { IfOk result (λ played. (run : List ARow) → IsRunOf scenario.now run
        → (m : ℕ) → IsBeginning (rows_by whose m played.rows.items) (rows_by whose m run)) }
    ensures whole { IfOk result (λ played. IfNone played.left (IsRunOf scenario.now played.rows.items)) }

    // No fault comes without its cause.
    ensures overflow { IsErrOf result Fault.CounterOverflow → CounterOverflows scenario.now }
    ensures faults { IfErr result (λ fault. (fault ≡ Fault.Memory) ⊎ (fault ≡ Fault.CounterOverflow)) }
{
    let mut played = match with_run_fault(play_out(alloc, scenario, choices)) {
        Ok(played) => played,
        Err(fault) => return Err(fault),
    };
    match played.rows.sort() {
        Ok(()) => Ok(played),
        Err(_) => Err(Fault::Memory),
    }
}

/// What choices of members handle is a schedule of safe steps.
pub fn a_play_is_a_schedule()
    ensures { (s : Setup) (least_delay : Option ℕ) (w v : World) (choices : List ℕ) (keys : List Key) (rows : List ARow)
        → Plays s least_delay w choices keys rows v → SafeSchedule s least_delay w keys rows v }
{}

/// What the choices come to, with the rows in the order made.
fn play_out(alloc: Global, scenario: &Scenario, choices: &[MemberId]) -> Result<Played, StepError>
    ensures sound { IsSound scenario.now }
    ensures played { IfOk result (IsPlayOf scenario.now choices.now) }
    ensures overflow { IsErrOf result StepError.CounterOverflow → CounterOverflows scenario.now }
{
    let end = scenario.end();
    let links = &Links::of(alloc, scenario)?;
    let mut part = Part::whole(alloc, scenario, TreeQueue::new(alloc))?;
    let cluster = Cluster { scenario, links };
    let mut made = nothing(alloc);
    let least_delay = links.least_delay();
    let handled = choose_all(alloc, &mut part, cluster, least_delay, choices, &mut made)?;
    let Effects { rows, events: _ } = made;
    Ok(Played {
        rows,
        handled,
        skipped: choices.len() - handled,
        left: left_up_to(&part, end),
    })
}

/// Chooses these members, one after the other, and says how many of them handled an event. Their rows
/// follow.
fn choose_all(
    alloc: Global,
    part: &mut Part<TreeQueue<Event>>,
    cluster: Cluster,
    least_delay: Option<u64>,
    choices: &[MemberId],
    made: &mut Effects,
) -> Result<usize, StepError>
    requires sound { IsSound cluster.scenario.now }
    requires least { IsLeastDelay cluster.scenario.now least_delay }
    requires opened { world_of set_of part.old ≡ opening cluster.scenario.now }
    requires none { made.old.rows.items ≡ [] }
    ensures ok { IfOk result (λ handled. HasPlayed cluster.entry.scenario.now least_delay choices.now handled made.new.rows.items (world_of set_of part.new)) }
    ensures no_more { IfOk result (λ handled. handled ≤ length choices.now) }
    ensures overflow { IsErrOf result StepError.CounterOverflow → CounterOverflows cluster.entry.scenario.now }
{
    let mut handled = 0;
    for member in choices {
        let went = choose(alloc, part, cluster, least_delay, *member, made)?;
        handled += usize::from(went);
    }
    Ok(handled)
}

/// Chooses a member: its least event is handled, if it is safe. Whether it was.
fn choose(
    alloc: Global,
    part: &mut Part<TreeQueue<Event>>,
    cluster: Cluster,
    least_delay: Option<u64>,
    member: MemberId,
    made: &mut Effects,
) -> Result<bool, StepError>
    requires sound { IsSound cluster.scenario.now }
    requires least { IsLeastDelay cluster.scenario.now least_delay }
    requires played { IsPlayed cluster.scenario.now least_delay (world_of set_of part.old) }
    ensures ok { IfOk result (λ went. HasChosen cluster.entry.scenario.now least_delay member went (world_of set_of part.old) (world_of set_of part.new)
        made.old.rows.items made.new.rows.items) }
    ensures overflow { IsErrOf result StepError.CounterOverflow → CounterOverflows cluster.entry.scenario.now }
{
    let end = cluster.scenario.end();
    let event = match take_safe(part, end, least_delay, member) {
        Some(event) => event,
        None => return Ok(false),
    };
    let mut spare = nothing(alloc);
    handle_taken(alloc, part, event, cluster, &mut spare, made)?;
    Ok(true)
}

/// Takes out the member's least event, if it is safe.
fn take_safe(
    part: &mut Part<TreeQueue<Event>>,
    end: Moment,
    least_delay: Option<u64>,
    member: MemberId,
) -> Option<Event>
    requires { end < 2 ^ 63 }
    ensures here { IfSome result (λ event. get (world_of set_of part.old).pending event.key ≡ Some event.content) }
    ensures own { IfSome result (λ event. event.key.to ≡ member) }
    ensures safe { IfSome result (λ event. IsSafe end least_delay (world_of set_of part.old) event.key) }
    ensures taken { IfSome result (λ event. (world_of set_of part.new).pending ≡ remove (world_of set_of part.old).pending event.key) }
    ensures members { (world_of set_of part.new).members ≡ (world_of set_of part.old).members }
    ensures none { IfNone result (NonePasses (IsSafe end least_delay) (world_of set_of part.old) member) }
    ensures unchanged { IfNone result (world_of set_of part.new ≡ world_of set_of part.old) }
{
    let least = part.least()?;
    let bound = safe_before(least.at, end, least_delay);
    part.queue.take_for(member, bound)
}

/// The moment before which each member's next event is safe, where this is the least moment that
/// pends.
fn safe_before(least: Moment, end: Moment, least_delay: Option<u64>) -> Moment
    requires { end < 2 ^ 63 }
    ensures { result ≡ safe_bound end least_delay least }
{
    let last = end.ticks() + 1;
    match least_delay {
        Some(delay) => Moment(least.ticks().saturating_add(delay).min(last)),
        None => Moment(last),
    }
}

/// The least moment that pends, if it is no later than the end.
fn left_up_to(part: &Part<TreeQueue<Event>>, end: Moment) -> Option<Moment>
    ensures { IsLeastLeft end (world_of set_of part.now) result }
{
    let least = part.least()?;
    let moment = least.at.ticks();
    let last = end.ticks();
    if moment <= last { Some(least.at) } else { None }
}
