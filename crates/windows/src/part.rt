//! A part of a cluster: its members and the queue of their pending events, and how it runs a window up to a bound.
ghost use Rattle.std.specs.Prelude.{◌≡◌, ◌+◌, ◌<◌, ◌≤◌, ℕ, ◌++◌, ◌∷◌, [], true, false, All, None, IfOk, OnOk, IfSome, IfNone, IsErrOf, min};
ghost use Rattle.std.specs.Option.{is_some, option_map_or};
ghost use Rattle.std.specs.FinMap.{empty, contains_key, insert};
ghost use Rattle.scenario.specs.Setup.{IsSound, member_count, crash_of, leave_of};
ghost use Rattle.base.specs.World.{with_events};
ghost use Rattle.scenario.specs.Setup as setup;
ghost use Rattle.member.specs.Opening.{opening, script_key, ending_event, numbered_from};
ghost use Rattle.member.specs.StateOf.{pair_of};
ghost use Rattle.member.specs.declared.event_kind.EventKind.TheVariants.{Crash, Leave};
ghost use Rattle.member.specs.declared.event.Event.{Event as AnEvent};
ghost use Rattle.member_laws.specs.Words.{IsAmongMembers};
ghost use Rattle.worker_queue.specs.Queue.{IsLeastKey};
ghost use Rattle.windows.specs.Admitting.{AreFromBelow, with_member};
ghost use Rattle.windows.specs.Parts.{with_arrivals};
ghost use Rattle.windows.specs.WorldOf.{world_of, contents_in};
ghost use Rattle.windows.specs.Window.{IsConsistentPart, RunsWindow, TakeTheirLinks, is_own};
ghost use Rattle.windows.specs.Wears.{OverflowsInWindow};

use crate::cluster::Cluster;
use crate::own_members::OwnMembers;
use crate::setting::Setting;
use crate::steps::{in_parts, nothing, run_from};
use base::{Key, MemberId, Memory, Moment, Profile};
use member::{Effects, Event, EventKind, Member, StepError, content_of};
use scenario::Scenario;
use std::alloc::Global;
use trace::Row;
use worker_queue::EventQueue;

/// A part of a cluster: some of its members, and the events that pend for them.
#[derive(Drop)]
pub struct Part<Q: EventQueue<Event>> {
    /// Which part it is.
    pub number: usize,
    pub(crate) members: OwnMembers,
    pub(crate) queue: Q,
}

/// What the window of a part gives.
#[derive(Drop)]
pub struct Done<Q: EventQueue<Event>> {
    /// The part after its window.
    pub part: Part<Q>,
    /// The events for members of other parts, in the order made.
    pub out: Vec<Event>,
    /// The rows, in the order made.
    pub rows: Vec<Row>,
}

impl<Q: EventQueue<Event> + Drop> Part<Q> {
    /// A part of that number with no members yet, whose queue this is. It takes no memory.
    pub fn new(alloc: Global, number: usize, queue: Q) -> Self
        ensures number { result.number ≡ number }
        ensures world { world_of Q.set result ≡ record { members = empty; pending = contents_in (Q.set queue) } }
    {
        Part {
            number,
            members: OwnMembers::new(alloc),
            queue,
        }
    }

    /// The one part that owns every member of the scenario, as a run begins: all wait, and all events of
    /// the script pend. The queue has no events yet.
    pub fn whole(alloc: Global, scenario: &Scenario, queue: Q) -> Result<Self, Memory>
        requires { Q.set queue ≡ empty }
        ensures { IfOk result (λ part. world_of Q.set part ≡ opening scenario.now) }
    {
        let mut part = Part::new(alloc, 0, queue);
        for number in 0..scenario.members() {
            part.admit(alloc, scenario, MemberId(number as u16))?;
        }
        Ok(part)
    }

    /// Takes in a member of the scenario as it waits for its start, and lets pend what the script has for
    /// it: its start, and its crashes, leaves and restarts if it has any. So far only members before it have events.
    pub fn admit(
        &mut self,
        alloc: Global,
        scenario: &Scenario,
        member: MemberId,
    ) -> Result<(), Memory>
        requires named { member < member_count scenario.now }
        requires earlier { AreFromBelow (world_of Q.set self.old).pending member }
        ensures world { OnOk result (world_of Q.set self.new ≡ with_member scenario.now member (world_of Q.set self.old)) }
        ensures number { OnOk result (self.new.number ≡ self.old.number) }
    {
        let waiting = Member::of(alloc, scenario, member)?;
        self.members.insert(alloc, member, waiting)?;
        let start = script_event(member, scenario.start(member), 0, EventKind::Start);
        push(&mut self.queue, start)?;
        match scenario.profile() {
            Profile::Papers | Profile::Memberlist => push_ending(&mut self.queue, scenario, member),
            Profile::Hashicorp => push_script(&mut self.queue, scenario, member),
        }
    }

    /// Lets an event for one of its members pend.
    pub fn receive(&mut self, event: Event) -> Result<(), Memory>
        requires own { is_own (world_of Q.set self.old) event.key.to ≡ true }
        requires new { contains_key (world_of Q.set self.old).pending event.key ≡ false }
        ensures world { OnOk result (world_of Q.set self.new ≡ with_arrivals (world_of Q.set self.old) (pair_of event ∷ [])) }
        ensures number { OnOk result (self.new.number ≡ self.old.number) }
    {
        push(&mut self.queue, event)
    }

    /// The least key of what pends: None where nothing does.
    pub fn least(&self) -> Option<Key>
        ensures least { IfSome result (IsLeastKey (world_of Q.set self.now).pending) }
        ensures none { IfNone result ((world_of Q.set self.now).pending ≡ empty) }
    {
        self.queue.least()
    }

    /// Runs the window of the part below the bound, or below the moment after the scenario's end where that
    /// is less: its events with an earlier moment are handled in the order of their keys. An event that is
    /// made for a member of the part pends in it, and is handled too where it is early enough; one for any
    /// other member goes out.
    ///
    /// Refusals: `Memory`; `CounterOverflow` where a counter of the window would pass 2^63.
    #[inline(always)]
    pub fn run(self, alloc: Global, bound: Moment, cluster: Cluster) -> Result<Done<Q>, StepError>
        requires sound { IsSound cluster.scenario.now }
        requires consistent { IsConsistentPart cluster.scenario.now (world_of Q.set self) }

        // What went out, the rows and the part that is left are those of the part's window.
        ensures ok { let before = world_of Q.set self in
            IfOk result (λ done. RunsWindow cluster.entry.scenario.now (min bound (cluster.entry.scenario.now.end + 1)) before done.out.items done.rows.items (world_of Q.set done.part)) }
        ensures number { IfOk result (λ done. done.part.number ≡ self.number) }
        ensures consistent { IfOk result (λ done. IsConsistentPart cluster.entry.scenario.now (world_of Q.set done.part)) }
        ensures among { IfOk result (λ done. All (λ (e : AnEvent). IsAmongMembers cluster.entry.scenario.now e.key e.content) done.out.items) }

        // Each event that went out takes at least as long as the link of its pair.
        ensures far { IfOk result (λ done. TakeTheirLinks cluster.entry.scenario.now (world_of Q.set self) done.out.items) }

        // Memory apart, only a counter that has no room refuses the window.
        ensures overflow { IsErrOf result StepError.CounterOverflow → OverflowsInWindow cluster.entry.scenario.now (min bound (cluster.entry.scenario.now.end + 1)) (world_of Q.set self) }
    {
        self.run_in(alloc, bound, cluster, Vec::new(alloc))
    }

    /// The same. The rows go into this room, which has none yet: handed in again and again it grows once for many windows.
    pub fn run_in(
        self,
        alloc: Global,
        bound: Moment,
        cluster: Cluster,
        room: Vec<Row>,
    ) -> Result<Done<Q>, StepError>
        requires sound { IsSound cluster.scenario.now }
        requires consistent { IsConsistentPart cluster.scenario.now (world_of Q.set self) }
        requires no_rows { room.items ≡ [] }

        // What went out, the rows and the part that is left are those of the part's window.
        ensures ok { let before = world_of Q.set self in
            IfOk result (λ done. RunsWindow cluster.entry.scenario.now (min bound (cluster.entry.scenario.now.end + 1)) before done.out.items done.rows.items (world_of Q.set done.part)) }
        ensures number { IfOk result (λ done. done.part.number ≡ self.number) }
        ensures consistent { IfOk result (λ done. IsConsistentPart cluster.entry.scenario.now (world_of Q.set done.part)) }
        ensures among { IfOk result (λ done. All (λ (e : AnEvent). IsAmongMembers cluster.entry.scenario.now e.key e.content) done.out.items) }

        // Each event that went out takes at least as long as the link of its pair.
        ensures far { IfOk result (λ done. TakeTheirLinks cluster.entry.scenario.now (world_of Q.set self) done.out.items) }

        // Memory apart, only a counter that has no room refuses the window.
        ensures overflow { IsErrOf result StepError.CounterOverflow → OverflowsInWindow cluster.entry.scenario.now (min bound (cluster.entry.scenario.now.end + 1)) (world_of Q.set self) }
    {
        let mut part = self;
        let mut spare = nothing(alloc);
        let mut made = Effects {
            events: Vec::new(alloc),
            rows: room,
        };
        part.run_window(alloc, bound, cluster, &mut spare, &mut made)?;
        let Effects { events: out, rows } = made;
        Ok(Done { part, out, rows })
    }

    /// The same. What goes out and the rows go into the lists of `made`, which are empty before; those of `spare` serve each
    /// step. Handed in again and again, all of them grow once for many windows. After a refusal the part is of no use.
    #[inline(always)]
    pub fn run_window(
        &mut self,
        alloc: Global,
        bound: Moment,
        cluster: Cluster,
        spare: &mut Effects,
        made: &mut Effects,
    ) -> Result<(), StepError>
        requires sound { IsSound cluster.scenario.now }
        requires consistent { IsConsistentPart cluster.scenario.now (world_of Q.set self.old) }
        requires none { made.old.events.items ≡ [] }
        requires no_rows { made.old.rows.items ≡ [] }

        // What went out, the rows and the part that is left are those of the part's window.
        ensures ok { OnOk result (RunsWindow cluster.entry.scenario.now (min bound (cluster.entry.scenario.now.end + 1)) (world_of Q.set self.old) made.new.events.items made.new.rows.items (world_of Q.set self.new)) }
        ensures number { OnOk result (self.new.number ≡ self.old.number) }
        ensures consistent { OnOk result (IsConsistentPart cluster.entry.scenario.now (world_of Q.set self.new)) }
        ensures among { OnOk result (All (λ (e : AnEvent). IsAmongMembers cluster.entry.scenario.now e.key e.content) made.new.events.items) }

        // Each event that went out takes at least as long as the link of its pair.
        ensures far { OnOk result (TakeTheirLinks cluster.entry.scenario.now (world_of Q.set self.old) made.new.events.items) }

        // Memory apart, only a counter that has no room refuses the window.
        ensures overflow { IsErrOf result StepError.CounterOverflow → OverflowsInWindow cluster.entry.scenario.now (min bound (cluster.entry.scenario.now.end + 1)) (world_of Q.set self.old) }
    {
        let past_the_end = cluster.scenario.end().ticks() + 1;
        let setting = Setting {
            bound: Moment(bound.ticks().min(past_the_end)),
            cluster,
        };
        run_from(alloc, self, &setting, spare, made)
    }
}

/// Lets pend the event with which the member's part ends, if the script has one, as before version 4 of the format: it
/// doesn't crash and leave.
fn push_ending<Q: EventQueue<Event>>(
    queue: &mut Q,
    scenario: &Scenario,
    member: MemberId,
) -> Result<(), Memory>
    requires named { member < member_count scenario.now }
    requires once { is_some (leave_of scenario.now member) ≡ true → crash_of scenario.now member ≡ None }
    requires new { (at : ℕ) → contains_key (contents_in (Q.set queue.old)) (script_key member at 1) ≡ false }
    ensures { OnOk result (contents_in (Q.set queue.new) ≡ with_events (contents_in (Q.set queue.old)) (ending_event Crash member (crash_of scenario.now member) ++ ending_event Leave member (leave_of scenario.now member))) }
{
    match ending_of(scenario, member) {
        Some(ending) => push(queue, ending),
        None => Ok(()),
    }
}

/// Lets pend what the script has for a member that may crash, leave and start again several times.
fn push_script<Q: EventQueue<Event>>(
    queue: &mut Q,
    scenario: &Scenario,
    member: MemberId,
) -> Result<(), Memory>
    requires named { member < member_count scenario.now }
    requires new { (at number : ℕ) → 1 ≤ number → contains_key (contents_in (Q.set queue.old)) (script_key member at number) ≡ false }
    ensures { OnOk result (contents_in (Q.set queue.new) ≡ with_events (contents_in (Q.set queue.old)) (numbered_from member 1 (setup.script_of scenario.now member))) }
{
    let script = scenario.script(member);
    for (place, event) in script.iter().enumerate() {
        let number = place as u64 + 1;
        let content = content_of(event.kind);
        push(queue, script_event(member, event.at, number, content))?;
    }
    Ok(())
}

/// The event with which the member's part ends, if the script has one. It doesn't crash and leave.
fn ending_of(scenario: &Scenario, member: MemberId) -> Option<Event>
    requires named { member < member_count scenario.now }
    requires once { is_some (leave_of scenario.now member) ≡ true → crash_of scenario.now member ≡ None }
    ensures event { option_map_or (λ (ending : AnEvent). pair_of ending ∷ []) result [] ≡ ending_event Crash member (crash_of scenario.now member) ++ ending_event Leave member (leave_of scenario.now member) }
    ensures key { IfSome result (λ ending. (ending.key.from ≡ member) × (ending.key.number ≡ 1)) }
{
    match scenario.crash(member) {
        Some(at) => Some(script_event(member, at, 1, EventKind::Crash)),
        None => leave_event(member, scenario.leave(member)),
    }
}

/// The event with which a member leaves, if it does.
fn leave_event(member: MemberId, leave: Option<Moment>) -> Option<Event>
    ensures event { option_map_or (λ (ending : AnEvent). pair_of ending ∷ []) result [] ≡ ending_event Leave member leave }
    ensures key { IfSome result (λ ending. (ending.key.from ≡ member) × (ending.key.number ≡ 1)) }
{
    let at = leave?;
    Some(script_event(member, at, 1, EventKind::Leave))
}

/// An event of the script: its receiver is its sender.
fn script_event(member: MemberId, at: Moment, number: u64, content: EventKind) -> Event
    ensures { pair_of result ≡ (script_key member at number, content) }
{
    let key = Key {
        at,
        to: member,
        from: member,
        number,
    };
    Event { key, content }
}

/// Lets one more event pend.
#[inline(always)]
pub(crate) fn push<Q: EventQueue<Event>>(queue: &mut Q, event: Event) -> Result<(), Memory>
    requires { contains_key (contents_in (Q.set queue.old)) event.key ≡ false }
    ensures { OnOk result (contents_in (Q.set queue.new) ≡ insert (contents_in (Q.set queue.old)) event.key event.content) }
{
    match queue.push(in_parts(event)) {
        Ok(()) => Ok(()),
        Err(_) => Err(Memory),
    }
}
